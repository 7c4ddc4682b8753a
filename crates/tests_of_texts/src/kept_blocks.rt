// The blocks that a site keeps: brought again, written into, and lost; and syncs that fail.
use mss_base::{Site, UnitNo};
use mss_files::{FileSite, UnitFiles};
use std::alloc::Global;
use std::io;
use std::io::ErrorKind;
use std::test::Fail;

/// Files of sevens that forget what is written. So many reads of them succeed, and no other; each
/// write and each sync of a unit does, but those of the table's second copy. No sync of all
/// succeeds.
#[derive(Drop)]
struct FewReads {
    left: u8,
}

type SevensSite = FileSite<FewReads>;

impl UnitFiles for FewReads {
    ghost use Rattle.std.specs.Prelude.{false};

    ghost tells = { ⊥ };

    ghost byte = { λ _ _ _. 0 };

    ghost lasts = { λ _ _. false };

    fn read_some(&mut self, _unit: &UnitNo, _at: u64, into: &mut [u8]) -> io::Result<usize> {
        if self.left == 0 {
            return Err(io::Error::from(ErrorKind::PermissionDenied));
        }
        self.left -= 1;
        into.fill(7);
        Ok(into.len())
    }

    fn write_some(&mut self, unit: &UnitNo, _at: u64, bytes: &[u8]) -> io::Result<usize> {
        match unit {
            UnitNo::TableB => Err(io::Error::from(ErrorKind::PermissionDenied)),
            _ => Ok(bytes.len()),
        }
    }

    fn sync(&mut self, unit: &UnitNo) -> io::Result<()> {
        match unit {
            UnitNo::TableB => Err(io::Error::from(ErrorKind::PermissionDenied)),
            _ => Ok(()),
        }
    }

    fn sync_all(&mut self) -> io::Result<()> {
        Err(io::Error::from(ErrorKind::PermissionDenied))
    }
}

/// A call: `b` brings a block, `r` reads it and `h` its front, which then begins with these bytes, or fails where
/// there are none; `z` is as `b` of a block that ends in zeros; `w` writes them, behind as many bytes as stand
/// there, or fails where the letter is `f`; `e` writes them at the end, and `n` a whole block that is zeros behind a
/// seven; `s` syncs the unit, which fails where the letter is `t`; any other letter is a sync of all, which fails.
/// The unit is a copy of the table, or the first staging disk.
type Step = (u8, u8, u32, u16, &'static [u8]);

const SEVENS: &[u8] = &[7, 7, 7];

fn brings(site: &mut SevensSite, unit: UnitNo, block: u32, due: &[u8]) -> bool {
    let is_brought = site.bring(unit, block).is_ok();
    is_brought != due.is_empty() && (!is_brought || site.brought().starts_with(due))
}

fn brings_zeros(site: &mut SevensSite, unit: UnitNo, block: u32, due: &[u8]) -> bool {
    brings(site, unit, block, due) && site.brought().ends_with(&[0, 0, 0])
}

fn reads(alloc: Global, site: &mut SevensSite, unit: UnitNo, block: u32, due: &[u8]) -> bool {
    let Ok(mut bytes) = vec![in alloc; 0u8; 16384] else {
        return false;
    };
    site.read(unit, block, &mut bytes).is_ok() && bytes.as_slice().starts_with(due)
}

fn begins(alloc: Global, site: &mut SevensSite, unit: UnitNo, block: u32, due: &[u8]) -> bool {
    let Ok(mut front) = vec![in alloc; 0u8; 4] else {
        return false;
    };
    site.read(unit, block, &mut front).is_ok() && front.as_slice().starts_with(due)
}

fn takes(site: &mut SevensSite, unit: UnitNo, block: u32, offset: u16, bytes: &[u8]) -> bool {
    offset <= 1 && bytes.len() <= 100 && site.write(unit, block, offset, bytes).is_ok()
}

fn ends(site: &mut SevensSite, unit: UnitNo, block: u32, bytes: &[u8]) -> bool {
    bytes.len() <= 100 && site.write(unit, block, 16_284, bytes).is_ok()
}

fn is_new(alloc: Global, site: &mut SevensSite, unit: UnitNo, block: u32) -> bool {
    let Ok(mut bytes) = vec![in alloc; 0u8; 16384] else {
        return false;
    };
    bytes[0] = 7;
    site.write(unit, block, 0, &bytes).is_ok()
}

fn unit_of(letter: u8) -> UnitNo {
    match letter {
        b'A' => UnitNo::TableA,
        b'B' => UnitNo::TableB,
        _ => UnitNo::Staging(0),
    }
}

fn is_done(alloc: Global, site: &mut SevensSite, step: &Step) -> bool {
    let (letter, unit, block, offset, bytes) = *step;
    let unit = unit_of(unit);
    match letter {
        b'b' => brings(site, unit, block, bytes),
        b'r' => reads(alloc, site, unit, block, bytes),
        b'h' => begins(alloc, site, unit, block, bytes),
        b'w' => takes(site, unit, block, offset, bytes),
        b'f' => !takes(site, unit, block, offset, bytes),
        b'z' => brings_zeros(site, unit, block, bytes),
        b'e' => ends(site, unit, block, bytes),
        b'n' => is_new(alloc, site, unit, block),
        b's' => site.sync(unit).is_ok(),
        b't' => site.sync(unit).is_err(),
        _ => site.sync_all().is_err(),
    }
}

/// Whether these calls do so on files of sevens of which so many reads succeed, and so many faults and
/// writes and syncs are counted then.
fn all_are_done(
    alloc: Global,
    steps: &[Step],
    reads: u8,
    faults: u64,
    writes: u64,
) -> Option<bool> {
    let files = FewReads { left: reads };
    let mut site = FileSite::over(alloc, files).ok()?;
    for step in steps {
        if !is_done(alloc, &mut site, step) {
            return Some(false);
        }
    }
    Some(site.faults() == faults && site.writes() == writes)
}

/// A block that was brought is brought and read again without a call.
const AGAIN: [Step; 3] = [
    (b'b', b'A', 3, 0, SEVENS),
    (b'b', b'A', 3, 0, SEVENS),
    (b'r', b'A', 3, 0, SEVENS),
];

/// It has what is written into it, and nothing of other blocks and units.
const WRITTEN: [Step; 6] = [
    (b'b', b'A', 3, 0, SEVENS),
    (b'w', b'A', 3, 1, b"row"),
    (b'b', b'A', 3, 0, b"\x07row\x07"),
    (b'w', b'A', 4, 1, b"next"),
    (b'w', b'0', 3, 1, b"disk"),
    (b'b', b'A', 3, 0, b"\x07row\x07"),
];

/// Blocks of a cylinder are kept side by side.
const SIDE_BY_SIDE: [Step; 5] = [
    (b'b', b'A', 3, 0, SEVENS),
    (b'b', b'A', 4, 0, SEVENS),
    (b'w', b'A', 3, 1, b"row"),
    (b'b', b'A', 3, 0, b"\x07row\x07"),
    (b'b', b'A', 4, 0, SEVENS),
];

/// So are blocks of several cylinders, as far as 323 blocks reach.
const SEVERAL: [Step; 4] = [
    (b'b', b'0', 0, 0, SEVENS),
    (b'b', b'0', 152, 0, SEVENS),
    (b'b', b'0', 322, 0, SEVENS),
    (b'b', b'0', 0, 0, SEVENS),
];

/// The front of a block is read, of one that is kept and of one that isn't.
const FRONTS: [Step; 4] = [
    (b'b', b'A', 3, 0, SEVENS),
    (b'w', b'A', 3, 1, b"row"),
    (b'h', b'A', 3, 0, b"\x07row"),
    (b'h', b'A', 4, 0, SEVENS),
];

/// A block that can't be brought is not kept, nor is the one 323 before it, whose place it takes.
const UNREAD: [Step; 4] = [
    (b'b', b'A', 3, 0, SEVENS),
    (b'b', b'A', 326, 0, &[]),
    (b'b', b'A', 326, 0, &[]),
    (b'b', b'A', 3, 0, &[]),
];

/// Nor is one that can't be written.
const UNWRITTEN: [Step; 5] = [
    (b'b', b'B', 0, 0, SEVENS),
    (b'f', b'B', 1, 0, b"row"),
    (b'b', b'B', 0, 0, SEVENS),
    (b'f', b'B', 0, 0, b"row"),
    (b'b', b'B', 0, 0, &[]),
];

/// A sync that fails is counted, and one that doesn't; the block is kept.
const SYNCED: [Step; 5] = [
    (b'b', b'B', 0, 0, SEVENS),
    (b's', b'A', 0, 0, &[]),
    (b't', b'B', 0, 0, &[]),
    (b'a', b'B', 0, 0, &[]),
    (b'b', b'B', 0, 0, SEVENS),
];

/// Of a block that was written as a whole, and is zeros behind its front, the front alone is read, and kept with
/// what is written into it. Behind a write at its end all of it is read.
const SHORT: [Step; 10] = [
    (b'n', b'S', 3, 0, &[]),
    (b'z', b'S', 3, 0, SEVENS),
    (b'z', b'S', 3, 0, SEVENS),
    (b'w', b'S', 3, 1, b"row"),
    (b'z', b'S', 3, 0, b"\x07row\x07"),
    (b'r', b'S', 3, 0, b"\x07row\x07"),
    (b'h', b'S', 3, 0, b"\x07row"),
    (b'e', b'S', 3, 0, b"end"),
    (b'b', b'S', 3, 0, SEVENS),
    (b'b', b'S', 3, 0, SEVENS),
];

/// Calls, how many reads succeed, and how many faults there are then, and writes and syncs.
const CALLS: [(&[Step], u8, u64, u64); 9] = [
    (&AGAIN, 1, 0, 0),
    (&WRITTEN, 1, 0, 3),
    (&SIDE_BY_SIDE, 2, 0, 1),
    (&SEVERAL, 3, 0, 0),
    (&FRONTS, 2, 0, 1),
    (&UNREAD, 1, 3, 0),
    (&UNWRITTEN, 1, 3, 2),
    (&SYNCED, 1, 2, 3),
    (&SHORT, 2, 0, 3),
];

#[test]
fn a_block_is_kept_as_long_as_it_is_known(rt: HostRuntime) -> Result<(), Fail> {
    for (steps, reads, faults, writes) in CALLS {
        assert!(rt;
            all_are_done(rt.alloc(), steps, reads, faults, writes) == Some(true),
            "{reads} {faults} {writes}"
        );
    }
    Ok(())
}
