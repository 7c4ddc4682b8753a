// Blocks made by hand.
use ckd_track::*;
use mss_base::Block;
use std::alloc::Global;
use std::process::Abort;
use std::test::Fail;

/// A block of zeros but for the open gate of R1 and the first bytes of R1: its count, and data.
fn block_of(alloc: Global, record: &[u8; 11]) -> Result<Block, Fail> {
    let mut block = Block::zeros(alloc)?;
    block.write(129, &[0xC1]);
    block.write(256, record);
    Ok(block)
}

/// R1 of cylinder 5, head 3: no key, three bytes of data.
const ID: [u8; 5] = [0, 5, 0, 3, 1];

const COUNT_DATA: [u8; 11] = [0, 5, 0, 3, 1, 0, 0, 3, 0x41, 0x42, 0x43];

/// Whether the record lies at byte 256.
fn lies_there(block: &Block) -> bool {
    let block = block.as_slice();
    let Some(place) = find_place(block, 1) else {
        return false;
    };
    let found = record_at(block, place);
    place == 256 && found.id == ID && found.key.is_empty() && found.body == b"ABC".as_slice()
}

/// Whether the record is the block's only one.
fn stands_alone(block: &Block) -> bool {
    !is_blank(block)
        && record_count(block) == 1
        && cost_of_front(block.as_slice(), 1) == 138
        && find_place(block.as_slice(), 2).is_none()
}

/// Whether it is the track's only one.
fn is_track_of_it(track: &Track) -> bool {
    let [record] = track.records.as_slice() else {
        return false;
    };
    record.id == ID
        && record.key.as_slice().is_empty()
        && record.body.as_slice() == b"ABC".as_slice()
}

#[test]
fn reads_a_record_made_by_hand(rt: HostRuntime) -> Result<(), Fail> {
    let block = block_of(rt.alloc(), &COUNT_DATA)?;
    assert!(rt; check_track(&block).is_ok() && lies_there(&block) && stands_alone(&block));
    assert!(rt; is_track_of_it(&read_track(rt.alloc(), block.as_slice())?));
    assert!(rt; is_track_of_it(&read_front(rt.alloc(), block.as_slice())?));
    Ok(())
}

#[test]
fn a_block_of_zeros_is_blank(rt: HostRuntime) -> Result<(), Fail> {
    assert!(rt; is_blank(&Block::zeros(rt.alloc())?));
    Ok(())
}

/// Asserts why a record of so many bytes of data is none, or that it is one.
fn is_bad_for(
    rt: &impl Abort,
    alloc: Global,
    [high, low]: [u8; 2],
    cause: Option<TrackCause>,
) -> Result<(), Fail> {
    let block = block_of(alloc, &[0, 0, 0, 0, 0, 0, high, low, 0, 0, 0])?;
    let checked = check_track(&block).err();
    let read = read_track(alloc, block.as_slice()).err();
    match cause {
        Some(cause) => {
            assert!(rt; checked == Some(BadRecord { number: 1, cause }));
            assert!(rt; read == Some(ReadTrackFault::Bad { number: 1, cause }));
        }
        None => assert!(rt; checked.is_none() && read.is_none()),
    }
    Ok(())
}

// 16,120 bytes of data end the block, and 13,030 cost 13,165.
#[test]
fn names_the_bad_record(rt: HostRuntime) -> Result<(), Fail> {
    let (past, overfull) = (Some(TrackCause::RunsPast), Some(TrackCause::Overfull));
    is_bad_for(&rt, rt.alloc(), [0xFF, 0xFF], past)?;
    is_bad_for(&rt, rt.alloc(), [0x3E, 0xF9], past)?;
    is_bad_for(&rt, rt.alloc(), [0x3E, 0xF8], overfull)?;
    is_bad_for(&rt, rt.alloc(), [0x32, 0xE7], overfull)?;
    is_bad_for(&rt, rt.alloc(), [0x32, 0xE6], None)
}
