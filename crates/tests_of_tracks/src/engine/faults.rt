//! Commands below which a device fails, as texts.
use crate::lines::run;

/// The blocks of cylinder 5: four records at head 3, two at head 4, one at head 18; at head 7 the gate of R1 is
/// shut, and others are open.
const BLOCKS: &str = "\
w 0 98 129 C1C1C1C100C1 ok
w 0 98 256 \
0005000301000003414243\
00050003020200054B310102030405\
0005000303000000\
00050003040300024B3939EEFF\
000500030500000144\
00050003060000014545 ok
w 0 99 129 C1C1C000C1 ok
w 0 99 256 \
00050004010200044B35A1A2A3A4\
09090909020100015A7A\
000500040300000147\
0005000404 ok
w 0 102 129 00C1C1C1 ok
w 0 102 256 \
000500070100000144\
00050007020000FFFF ok
w 0 113 129 C1FF ok
w 0 113 256 \
000500120100000101\
0005001202FFFFFF ok";

/// Reads and searches. Behind R2 of head 4 the tracks are blank up to head 18.
const READS: &str = "\
# a search of many tracks fails at each read
07 000000050004 0C
A9 4B35 4C
A9 4B35 0C
A9 4B35 0C ! 01 R 01
A9 4B35 0C ! 02 R 02
A9 4B35 0C ! 03 R 03
A9 4B35 0C ! 04 R 04
A9 4B35 0C ! 05 R 05
A9 4B35 0C ! 06 R 06
A9 4B35 0C ! 07 R 07
A9 4B35 0C ! 08 R 08
A9 4B35 0C ! 09 R 09
A9 4B35 0C ! 0A R 0A
A9 4B35 0C ! 0B R 0B
A9 4B35 0C ! 0C R 0C
A9 4B35 0C ! 0D R 0D
A9 4B35 0C ! 0E R 0E
A9 4B35 0C ! 0F R 0F
A9 4B35 0C
86 - 0C 01

# a failed read leaves the host at its track's start
13 - 0C
31 0000000000 4C ! 01 R 01
31 0000000000 4C

# sense tells of an equipment check
07 000000050003 0C
31 0005000301 0C
31 0005000301 4C
06 - 0C ! 01 R 01
=
04 - 0C 100000000000000000000000000000000000000000000000";

#[test]
fn a_search_and_a_read_fail_at_each_read(rt: HostRuntime) {
    run(&rt, rt.alloc(), BLOCKS, READS);
}

/// Writes at R1 of head 3, which four records stand on. A call of the site tells what is there behind it. A format
/// closes the gate of R2 and syncs it; it closes those of R3 and R4, puts the record and syncs both; it opens the
/// gate and syncs that. A write that fails has put its bytes all the same.
const WRITES: &str = "\
# a format fails at the write that closes its gate
07 000000050003 0C
31 0005000301 0C
31 0005000301 4C
1D 000500030200000158 0C ! 02 W 01
t 0 98 1 414243 ok

# at the sync of that
07 000000050003 0C
31 0005000301 0C
31 0005000301 4C
1D 000500030200000158 0C ! 03 W 01
t 0 98 1 414243 ok

# at the write that closes the later gates
07 000000050003 0C
31 0005000301 0C
31 0005000301 4C
1D 000500030200000158 0C ! 04 W 01
t 0 98 1 414243 ok

# at that of the record
07 000000050003 0C
31 0005000301 0C
31 0005000301 4C
1D 000500030200000158 0C ! 05 W 01
t 0 98 1 414243 ok

# at the sync of both
07 000000050003 0C
31 0005000301 0C
31 0005000301 4C
1D 000500030200000158 0C ! 06 W 01
t 0 98 1 414243 ok

# at the write that opens the gate
07 000000050003 0C
31 0005000301 0C
31 0005000301 4C
1D 000500030200000158 0C ! 07 W 01
t 0 98 2 41424358 ok

# at the sync of that
07 000000050003 0C
31 0005000301 0C
31 0005000301 4C
1D 000500030200000158 0C ! 08 W 01
t 0 98 2 41424358 ok

# a format of a record whose gate is shut makes five items: it fails at the write that closes the later gates
07 000000050007 0C
31 0005000700 4C
1D 000500070100000158 0C ! 02 W 01
t 0 102 0 - ok

# at that of the record
07 000000050007 0C
31 0005000700 4C
1D 000500070100000158 0C ! 03 W 01
t 0 102 0 - ok

# at the sync of both
07 000000050007 0C
31 0005000700 4C
1D 000500070100000158 0C ! 04 W 01
t 0 102 0 - ok

# at the write that opens the gate, which is its fourth item
07 000000050007 0C
31 0005000700 4C
1D 000500070100000158 0C ! 05 W 01
t 0 102 1 58 ok

# and at its fifth, the sync of that
07 000000050007 0C
31 0005000700 4C
1D 000500070100000158 0C ! 06 W 01
t 0 102 1 58 ok

# an update fails at its read, its write and its sync
07 000000050003 0C
31 0005000301 0C
31 0005000301 4C
05 58595A 0C ! 01 R 01
05 58595A 0C ! 02 W 02
05 58595A 0C ! 03 W 03
05 58595A 0C";

#[test]
fn a_format_and_an_update_fail_at_each_call(rt: HostRuntime) {
    run(&rt, rt.alloc(), BLOCKS, WRITES);
}
