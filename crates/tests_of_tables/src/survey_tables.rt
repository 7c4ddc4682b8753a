// Surveys of which one call fails.
use crate::lines::runs::run;

// Volume 0 has both copies, volume 1 copy A alone and volume 2 copy B. The other copy of each is closed and made.
// Of volume 0 cylinder 0 is on its cartridge and cylinder 8 staged in frame 0; of volume 2 cylinder 0 is staged
// blank in frame 1. In each turn that call fails.
const SMALL: &str = "\
put table A 0 VOL001 0 1
fill table A 0 64 1
fill table A 0 13 0
fill table A 0 72 3
put table B 0 VOL001 0 1
fill table B 0 64 1
fill table B 0 13 0
fill table B 0 72 3
put table A 1 VOL002 2 3
fill table B 1 511 x4D
put table B 2 VOL003 4 5 frame 1
fill table B 2 12 1
fill table B 2 64 2
fill table A 2 511 x4D
fail N";

// The calls of that survey are reads: 1 of copy A of volume 0, 2 of copy A of volume 1, 3 and 4 of
// the copies of volume 2, 5 to 62 of those of the 29 volumes without a row. Where 1 or 3 fails, copy B tells the row.
// Where one of 5 to 62 fails, the other copy is closed and never made, and tells that there is none.
const ROW_READS: &str = "\
turns 1 1
survey -> 0 VOL001 0 1 1 VOL002 2 3 2 VOL003 4 5 frame 1
faults -> 1
writes -> 14

turns 2 2
survey -> unread 1 1
faults -> 1
writes -> 14

turns 3 3
survey -> 0 VOL001 0 1 1 VOL002 2 3 2 VOL003 4 5 frame 1
faults -> 1
writes -> 14

turns 4 4
survey -> unread 2 1
faults -> 1
writes -> 14

turns 5 62
survey -> 0 VOL001 0 1 1 VOL002 2 3 2 VOL003 4 5 frame 1
faults -> 1
writes -> 14";

#[test]
fn tells_each_read_of_a_row_that_fails(rt: HostRuntime) {
    run(&rt, rt.alloc(), SMALL, ROW_READS);
}

// Then 63 to 81 of the tracks on the cartridge, 82 to 119 of the staged ones and their cartridge's,
// 120 to 138 of those staged blank. There is no 139th.
const TRACK_READS: &str = "\
turns 63 138
survey -> stopped 1
faults -> 1
writes -> 14

turns 139 139
survey -> 0 VOL001 0 1 1 VOL002 2 3 2 VOL003 4 5 frame 1
faults -> 0
writes -> 14";

#[test]
fn tells_each_read_of_a_track_that_fails(rt: HostRuntime) {
    run(&rt, rt.alloc(), SMALL, TRACK_READS);
}
