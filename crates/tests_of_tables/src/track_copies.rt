// Tracks copied each way, each call failing in turn, and a copy stopped at each moment.
use crate::lines::runs::run;

// The first track of a volume. Its block in the frame begins with 11 and ends with 12, the one on the
// cartridge begins with 21 and ends with 22.
const AT_FIRST: &str = "\
fill disk 0 0 0 11
fill disk 0 0 16383 12
fill cartridge 7 0 0 21
fill cartridge 7 0 16383 22";

// What stands there after each copy.
const FIRST: &str = "\
copy blank 0 0 0 -> done 1
writes -> 5
has disk 0 0 0 0
has disk 0 0 16383 0
has cartridge 7 0 0 21
has cartridge 7 0 16383 22

copy stage 0 0 0 -> done 1
writes -> 5
has disk 0 0 0 21
has disk 0 0 16383 22
has cartridge 7 0 0 21
has cartridge 7 0 16383 22

copy destage 0 0 0 -> done 1
writes -> 5
has disk 0 0 0 11
has disk 0 0 16383 12
has cartridge 7 0 0 11
has cartridge 7 0 16383 12";

// The last one before the second cartridge. Its block in the frame begins with 11 and ends with 12, the one on the
// cartridge begins with 21 and ends with 22.
const AT_LAST_OF_HALF: &str = "\
fill disk 1 189 0 11
fill disk 1 189 16383 12
fill cartridge 7 3837 0 21
fill cartridge 7 3837 16383 22";

// What stands there after each copy.
const LAST_OF_HALF: &str = "\
copy blank 201 51 18 -> done 19
writes -> 5
has disk 1 189 0 0
has disk 1 189 16383 0
has cartridge 7 3837 0 21
has cartridge 7 3837 16383 22

copy stage 201 51 18 -> done 19
writes -> 5
has disk 1 189 0 21
has disk 1 189 16383 22
has cartridge 7 3837 0 21
has cartridge 7 3837 16383 22

copy destage 201 51 18 -> done 19
writes -> 5
has disk 1 189 0 11
has disk 1 189 16383 12
has cartridge 7 3837 0 11
has cartridge 7 3837 16383 12";

// The first one on it. Its block in the frame begins with 11 and ends with 12, the one on the
// cartridge begins with 21 and ends with 22.
const AT_SECOND_HALF: &str = "\
fill disk 1 190 0 11
fill disk 1 190 16383 12
fill cartridge 7 0 0 21
fill cartridge 7 0 16383 22";

// What stands there after each copy.
const SECOND_HALF: &str = "\
copy blank 202 51 0 -> done 1
writes -> 5
has disk 1 190 0 0
has disk 1 190 16383 0
has cartridge 7 0 0 21
has cartridge 7 0 16383 22

copy stage 202 51 0 -> done 1
writes -> 5
has disk 1 190 0 21
has disk 1 190 16383 22
has cartridge 7 0 0 21
has cartridge 7 0 16383 22

copy destage 202 51 0 -> done 1
writes -> 5
has disk 1 190 0 11
has disk 1 190 16383 12
has cartridge 7 0 0 11
has cartridge 7 0 16383 12";

// The last track of a volume. Its block in the frame begins with 11 and ends with 12, the one on the
// cartridge begins with 21 and ends with 22.
const AT_LAST: &str = "\
fill disk 3 7523 0 11
fill disk 3 7523 16383 12
fill cartridge 7 3837 0 21
fill cartridge 7 3837 16383 22";

// What stands there after each copy.
const LAST: &str = "\
copy blank 403 199 18 -> done 19
writes -> 5
has disk 3 7523 0 0
has disk 3 7523 16383 0
has cartridge 7 3837 0 21
has cartridge 7 3837 16383 22

copy stage 403 199 18 -> done 19
writes -> 5
has disk 3 7523 0 21
has disk 3 7523 16383 22
has cartridge 7 3837 0 21
has cartridge 7 3837 16383 22

copy destage 403 199 18 -> done 19
writes -> 5
has disk 3 7523 0 11
has disk 3 7523 16383 12
has cartridge 7 3837 0 11
has cartridge 7 3837 16383 12";

#[test]
fn a_track_is_copied_whole(rt: HostRuntime) {
    run(&rt, rt.alloc(), AT_FIRST, FIRST);
    run(&rt, rt.alloc(), AT_LAST_OF_HALF, LAST_OF_HALF);
    run(&rt, rt.alloc(), AT_SECOND_HALF, SECOND_HALF);
    run(&rt, rt.alloc(), AT_LAST, LAST);
}

// Which call fails; whether the copy does, and what is next; how many writes it made.
const FAILURES: &str = "\
fail 1
copy blank 0 0 0 -> failed 0
writes -> 5
faults -> 1

fail 2
copy blank 0 0 0 -> done 1
writes -> 5
faults -> 0

fail 1
copy stage 0 0 0 -> failed 0
writes -> 4
faults -> 1

fail 2
copy stage 0 0 0 -> failed 0
writes -> 5
faults -> 1

fail 3
copy stage 0 0 0 -> done 1
writes -> 5
faults -> 0

fail 1
copy destage 0 0 0 -> failed 0
writes -> 4
faults -> 1

fail 2
copy destage 0 0 0 -> failed 0
writes -> 5
faults -> 1

fail 3
copy destage 0 0 0 -> done 1
writes -> 5
faults -> 0";

#[test]
fn a_failed_copy_is_due_again(rt: HostRuntime) {
    run(&rt, rt.alloc(), AT_FIRST, FAILURES);
}

// What stands in the blocks where a stop leaves of the write nothing, 00 or C1, and after the write.
const STOPS: &str = "\
copy blank 403 199 18 -> done 19
stop 4 0 0 has disk 3 7523 0 11
stop 4 0 0 has disk 3 7523 16383 12
stop 4 0 0 has cartridge 7 3837 0 21
stop 4 0 0 has cartridge 7 3837 16383 22
stop 4 1 x00 has disk 3 7523 0 0
stop 4 1 x00 has disk 3 7523 16383 0
stop 4 1 x00 has cartridge 7 3837 0 21
stop 4 1 x00 has cartridge 7 3837 16383 22
stop 4 1 xC1 has disk 3 7523 0 193
stop 4 1 xC1 has disk 3 7523 16383 0
stop 4 1 xC1 has cartridge 7 3837 0 21
stop 4 1 xC1 has cartridge 7 3837 16383 22
stop 5 0 0 has disk 3 7523 0 0
stop 5 0 0 has disk 3 7523 16383 0
stop 5 0 0 has cartridge 7 3837 0 21
stop 5 0 0 has cartridge 7 3837 16383 22

copy stage 403 199 18 -> done 19
stop 4 0 0 has disk 3 7523 0 11
stop 4 0 0 has disk 3 7523 16383 12
stop 4 0 0 has cartridge 7 3837 0 21
stop 4 0 0 has cartridge 7 3837 16383 22
stop 4 1 x00 has disk 3 7523 0 0
stop 4 1 x00 has disk 3 7523 16383 0
stop 4 1 x00 has cartridge 7 3837 0 21
stop 4 1 x00 has cartridge 7 3837 16383 22
stop 4 1 xC1 has disk 3 7523 0 193
stop 4 1 xC1 has disk 3 7523 16383 0
stop 4 1 xC1 has cartridge 7 3837 0 21
stop 4 1 xC1 has cartridge 7 3837 16383 22
stop 5 0 0 has disk 3 7523 0 21
stop 5 0 0 has disk 3 7523 16383 22
stop 5 0 0 has cartridge 7 3837 0 21
stop 5 0 0 has cartridge 7 3837 16383 22

copy destage 403 199 18 -> done 19
stop 4 0 0 has disk 3 7523 0 11
stop 4 0 0 has disk 3 7523 16383 12
stop 4 0 0 has cartridge 7 3837 0 21
stop 4 0 0 has cartridge 7 3837 16383 22
stop 4 1 x00 has disk 3 7523 0 11
stop 4 1 x00 has disk 3 7523 16383 12
stop 4 1 x00 has cartridge 7 3837 0 0
stop 4 1 x00 has cartridge 7 3837 16383 0
stop 4 1 xC1 has disk 3 7523 0 11
stop 4 1 xC1 has disk 3 7523 16383 12
stop 4 1 xC1 has cartridge 7 3837 0 193
stop 4 1 xC1 has cartridge 7 3837 16383 0
stop 5 0 0 has disk 3 7523 0 11
stop 5 0 0 has disk 3 7523 16383 12
stop 5 0 0 has cartridge 7 3837 0 11
stop 5 0 0 has cartridge 7 3837 16383 12";

#[test]
fn a_stop_leaves_all_other_blocks(rt: HostRuntime) {
    run(&rt, rt.alloc(), AT_LAST, STOPS);
}
