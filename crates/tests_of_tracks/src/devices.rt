// Devices in memory, with their faults and stops, and where tracks lie.
use crate::lines::{run, run_stopped};
use crate::sites::is_so;
use memory_devices::SilentSite;
use mss_base::{Cylinder, FrameNo, Head, Serial, UnitNo, cartridge_block, frame_block};
use std::alloc::Global;
use std::test::Fail;

/// The last bytes of a block and of no other.
const WRITTEN: &str = "\
w C 3837 16381 616263 ok
r C 3837 16378 000000616263 ok
b C 3837 16378 000000616263 ok
b C 0 16381 00 ok
r C 0 0 00 ok
r C 0 16383 00 ok
n A 1 0 -";

#[test]
fn a_block_reads_as_it_was_written(rt: HostRuntime) {
    run(&rt, rt.alloc(), "", WRITTEN);
}

/// The second call fails, and reads of copy A.
const FAILING: &str = "\
x A 2 0 -
r B 0 0 00 ok
r B 0 0 - !
r A 0 0 - !
r B 0 0 00 ok
n A 0 2 -";

/// No call of what a stop leaves fails.
const UNFAILING: &str = "\
0 -
r B 0 0 00 ok
r B 0 0 00 ok
r A 0 0 00 ok
n A 0 0 -";

#[test]
fn a_call_fails_where_it_was_told_to(rt: HostRuntime) {
    run_stopped(&rt, rt.alloc(), "", FAILING, UNFAILING);
}

/// Two writes that overlap.
const OVERLAPPING: &str = "\
x A 0 0 -
w A 5 10 616263 ok
w A 5 11 58595A ok";

/// A tear of the next write is cut at its end, and bytes that lack are zeros. A byte may fill all that isn't firm,
/// here both writes, or all of it is lost. No call of what is left fails.
const LEFT: &str = "\
0 -
r A 5 10 00000000 ok
n A 0 0 -

1 -
r A 5 10 61626300 ok
n A 0 0 -

1 3132333435
r A 5 10 61313233 ok
n A 0 0 -

1 31
r A 5 10 61310000 ok
n A 0 0 -

2 3132333435
r A 5 10 6158595A ok
n A 0 0 -

0 fill FF
r A 5 10 FFFFFF00 ok

1 fill FF
r A 5 10 FFFFFFFF ok

2 fill 00
r A 5 10 00000000 ok

2 lost
r A 5 10 00000000 ok

3 -
none";

#[test]
fn a_stop_leaves_the_first_writes_and_a_tear(rt: HostRuntime) {
    run_stopped(&rt, rt.alloc(), "", OVERLAPPING, LEFT);
}

/// A write, and syncs of its unit, of another one and of all; the second sync fails. What was written stays.
const SYNCED: &str = "\
x C 3 0 -
w A 5 10 616263 ok
s A 0 0 - ok
s B 0 0 - !
a A 0 0 - ok
r A 5 10 616263 ok
n A 4 1 -";

/// A sync is an item of the log like a write. Before that of its unit a stop may tear the write, and behind it none
/// does.
const LEFT_BY_SYNCS: &str = "\
0 58595A
r A 5 10 58595A ok

1 58595A
r A 5 10 616263 ok

1 fill 00
r A 5 10 000000 ok

1 lost
r A 5 10 000000 ok

2 fill 00
r A 5 10 616263 ok

3 58595A
r A 5 10 616263 ok

4 lost
r A 5 10 616263 ok

5 -
none";

#[test]
fn a_sync_is_counted_and_leaves_what_was_written(rt: HostRuntime) {
    run_stopped(&rt, rt.alloc(), "", SYNCED, LEFT_BY_SYNCS);
}

/// Each byte is C1, whatever was written. The second call fails, and the last.
const FORGOTTEN: &str = "\
w 3 7599 0 616263 ok
r 3 7599 0 - !
r 3 7599 0 C1 ok
b 3 7599 16383 C1 ok
s 3 0 0 - ok
a 3 0 0 - !
n A 3 2 -";

fn forgets(alloc: Global, site: &mut SilentSite) -> bool {
    for line in FORGOTTEN.lines() {
        if is_so(alloc, site, line) != Some(true) {
            return false;
        }
    }
    true
}

#[test]
fn a_silent_site_forgets(rt: HostRuntime) -> Result<(), Fail> {
    let mut site = SilentSite::of(rt.alloc(), 193, &[2, 6])?;
    assert!(rt; forgets(rt.alloc(), &mut site));
    Ok(())
}

/// Whether a track lies in these blocks of the first staging disk and of its cartridge.
fn lies_at(frame: u8, cylinder: u16, head: u8, staged: u32, on_cartridge: u32) -> Option<bool> {
    let frame = FrameNo::of(frame)?;
    let cylinder = Cylinder::of(cylinder)?;
    let head = Head::of(head)?;
    let place = frame_block(frame, cylinder, head);
    Some(
        place.unit == UnitNo::Staging(0)
            && place.block == staged
            && cartridge_block(cylinder, head) == on_cartridge,
    )
}

#[test]
fn tracks_lie_in_their_blocks(rt: HostRuntime) {
    assert!(rt; lies_at(0, 201, 0, 19, 3819) == Some(true));
    assert!(rt; lies_at(0, 202, 0, 38, 0) == Some(true));
    assert!(rt; lies_at(1, 403, 18, 227, 3837) == Some(true));
    assert!(rt; Serial::of(*b"VOL001").is_some());
}
