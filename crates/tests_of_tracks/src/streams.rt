//! A source and a sink in memory, of which the second call fails, and lists.
use memory_devices::{MemorySink, MemorySource};
use mss_base::{Bytes, Listed, NoMemory, Sink, Source};
use std::test::Fail;

/// Whether a source gives this piece, where `!` is a call that fails.
fn gives<I: Source>(source: &mut I, piece: &str) -> bool {
    let mut room = [0; 3];
    match source.take(&mut room) {
        Ok(count) => &room[..count] == piece.as_bytes(),
        Err(_) => piece.starts_with("!"),
    }
}

/// Whether a sink takes this piece, where `!` is one that it fails to take.
fn takes<O: Sink>(sink: &mut O, piece: &str) -> bool {
    sink.put(piece.as_bytes()).is_err() == piece.starts_with("!")
}

#[test]
fn a_source_is_taken_in_pieces(rt: HostRuntime) -> Result<(), Fail> {
    let mut source = MemorySource::of(rt.alloc(), b"abcde", &[2])?;
    for piece in "abc|!|de|".split("|") {
        assert!(rt; gives(&mut source, piece), "{piece}");
    }
    assert_eq!(rt; source.faults(), 1);
    Ok(())
}

#[test]
fn a_sink_keeps_what_was_put(rt: HostRuntime) -> Result<(), Fail> {
    let mut sink = MemorySink::new(rt.alloc(), &[2])?;
    for piece in "abc|!|de".split("|") {
        assert!(rt; takes(&mut sink, piece), "{piece}");
    }
    assert!(rt; sink.bytes() == b"abcde".as_slice());
    assert_eq!(rt; sink.faults(), 1);
    Ok(())
}

/// Puts `cd` and `e` last.
fn grow(bytes: &mut Bytes) -> Result<(), NoMemory> {
    bytes.append(b"cd")?;
    bytes.reserve(1)?;
    bytes.push(101);
    Ok(())
}

#[test]
fn a_list_takes_bytes_into_its_room(rt: HostRuntime) -> Result<(), Fail> {
    let mut bytes = Bytes::of(rt.alloc(), b"ab")?;
    grow(&mut bytes)?;
    assert!(rt; bytes.as_slice() == b"abcde".as_slice());
    let bytes = Bytes::padded(rt.alloc(), 4, b"ab")?;
    assert!(rt; bytes.as_slice() == b"ab\0\0".as_slice());
    let numbers = Listed::of(rt.alloc(), &[300, 7])?;
    assert!(rt; numbers.as_slice() == [300, 7].as_slice());
    Ok(())
}
