// A slot appended: the first one, one in the midst, and the last; with a stop at each moment, and each call failing.
use crate::lines::{run, run_stopped};

const FIRST: &str = "\
l A 5 0 -
p A 5 0 11223344556677 ok
l A 5 1 11223344556677
r A 5 511 00C11122334455667700 ok
n A 4 0 -";

/// Body and next gate, a sync, the gate, a sync. A tear of the body opens nothing, and one of the gate opens all or
/// nothing. Until its sync the gate may be lost.
const LEFT_OF_FIRST: &str = "\
0 C1*8
l A 5 0 -
r A 5 511 0000C1C1C1C1C1C1C1C1 ok

1 C1
l A 5 0 -

2 C0
l A 5 0 -

2 C1
l A 5 1 11223344556677

1 fill C1
l A 5 0 -

2 fill C1
l A 5 1 11223344556677

3 C1
l A 5 1 11223344556677

3 fill 00
l A 5 0 -

3 lost
l A 5 0 -

4 C1
l A 5 1 11223344556677

4 lost
l A 5 1 11223344556677

5 -
none";

#[test]
fn appends_the_first_slot(rt: HostRuntime) {
    run_stopped(&rt, rt.alloc(), "", FIRST, LEFT_OF_FIRST);
}

/// Behind slot 0 stands a closed one, and behind that an open one that isn't in use.
const MIDST: &str = "\
w A 5 511 4DC11111111111111100EEEEEEEEEEEEEEC1EEEEEEEEEEEEEE ok
l A 5 1 11111111111111
p A 5 1 22222222222222 ok
l A 5 2 22222222222222
r A 5 511 4DC111111111111111C12222222222222200EEEEEEEEEEEEEE ok
n A 5 0 -";

const LEFT_IN_THE_MIDST: &str = "\
1 C1*8
l A 5 1 11111111111111
r A 5 511 4DC11111111111111100C1C1C1C1C1C1C1C1EEEEEEEEEEEEEE ok

2 C1
l A 5 1 11111111111111

3 C0
l A 5 1 11111111111111

3 C1
l A 5 2 22222222222222

4 C1
l A 5 2 22222222222222

5 C1
l A 5 2 22222222222222";

#[test]
fn appends_a_slot_in_the_midst(rt: HostRuntime) {
    run_stopped(&rt, rt.alloc(), "", MIDST, LEFT_IN_THE_MIDST);
}

/// Slot 1,983 ends with the block, so it has no next gate.
const LAST: &str = "\
w A 5 512 C1*15864 ok
l A 5 1983 C1*7
p A 5 1983 22222222222222 ok
l A 5 1984 22222222222222
r A 5 16368 C1C1C1C1C1C1C1C1C122222222222222 ok
n A 5 0 -";

const LEFT_OF_LAST: &str = "\
1 C1*7
l A 5 1983 C1*7
r A 5 16376 00C1C1C1C1C1C1C1 ok

2 C1
l A 5 1983 C1*7

3 C0
l A 5 1983 C1*7

3 C1
l A 5 1984 22222222222222

4 C1
l A 5 1984 22222222222222

5 C1
l A 5 1984 22222222222222";

#[test]
fn appends_the_last_slot(rt: HostRuntime) {
    run_stopped(&rt, rt.alloc(), "", LAST, LEFT_OF_LAST);
}

/// Which call fails, of the read and the four items. A failing write leaves its bytes here.
const FAILING: &str = "\
x C 2 0 -
p A 5 0 11223344556677 !
l A 5 0 -
n A 1 1 -

x C 3 0 -
p A 5 0 11223344556677 !
l A 5 0 -
n A 2 1 -

x C 4 0 -
p A 5 0 11223344556677 !
l A 5 1 11223344556677
n A 3 1 -

x C 5 0 -
p A 5 0 11223344556677 !
l A 5 1 11223344556677
n A 4 1 -

x C 6 0 -
p A 5 0 11223344556677 ok
n A 4 0 -";

#[test]
fn tells_each_failing_call(rt: HostRuntime) {
    run(&rt, rt.alloc(), "", FAILING);
}
