// Jobs of whole runs.

/// A host looks at a cylinder that was never written.
pub const ONE_SEARCH: &str = "mss 1 frames 1 recorders 1\n\
    volume 0 VOL001\n\
    host 1\n\
    mount VOL001\n\
    program\n\
    ccw 31 0000000000\n\
    end\n\
    done\n";

/// A host writes a record on cylinder 5, head 3, and reads it back.
pub const WRITE_AND_READ: &str = "mss 1 frames 1 recorders 1\n\
    volume 0 VOL001\n\
    host 1\n\
    mount VOL001\n\
    program\n\
    ccw 07 000000050003\n\
    ccw 31 0005000300\n\
    tic 1\n\
    ccw 1D 0005000301000003414243\n\
    end\n\
    program\n\
    ccw 07 000000050003\n\
    ccw 31 0005000301\n\
    tic 1\n\
    ccw 06\n\
    end\n\
    done\n";

/// The record of `WRITE_AND_READ` is found again, and its data are replaced.
pub const UPDATE: &str = "mss 1 frames 1 recorders 1\n\
    volume 0 VOL001\n\
    host 1\n\
    mount VOL001\n\
    program\n\
    ccw 07 000000050003\n\
    ccw 31 0005000301\n\
    tic 1\n\
    ccw 05 58595A\n\
    end\n\
    done\n";

/// One frame for two pages: a record on cylinder 0, one on cylinder 8, and the first is read back.
pub const REPLACEMENT: &str = "mss 1 frames 1 recorders 1\n\
    volume 0 VOL001\n\
    host 1\n\
    mount VOL001\n\
    program\n\
    ccw 07 000000000000\n\
    ccw 31 0000000000\n\
    tic 1\n\
    ccw 1D 000000000100000141\n\
    end\n\
    program\n\
    ccw 07 000000080000\n\
    ccw 31 0008000000\n\
    tic 1\n\
    ccw 1D 000800000100000142\n\
    end\n\
    program\n\
    ccw 07 000000000000\n\
    ccw 31 0000000001\n\
    tic 1\n\
    ccw 06\n\
    end\n\
    done\n";

/// Each host writes a record on its own volume and reads it back; the first then writes it on the fourth volume.
pub const THREE_HOSTS: &str = "mss 1 frames 8 recorders 2\n\
    volume 0 VOL001\n\
    volume 1 VOL002\n\
    volume 2 VOL003\n\
    volume 3 VOL004\n\
    host 1\n\
    mount VOL001\n\
    program\n\
    ccw 1F C0\n\
    ccw 07 000000010001\n\
    ccw 23 00\n\
    ccw 31 0001000100\n\
    tic 3\n\
    ccw 1D 0001000101000005484F535431\n\
    end\n\
    program\n\
    ccw 1F 40\n\
    ccw 07 000000010001\n\
    ccw 23 00\n\
    ccw 31 0001000101\n\
    tic 3\n\
    ccw 06\n\
    end\n\
    demount\n\
    mount VOL004\n\
    program\n\
    ccw 1F C0\n\
    ccw 07 000000010001\n\
    ccw 23 00\n\
    ccw 31 0001000100\n\
    tic 3\n\
    ccw 1D 0001000101000005484F535431\n\
    end\n\
    host 2\n\
    mount VOL002\n\
    program\n\
    ccw 1F C0\n\
    ccw 07 000000020002\n\
    ccw 23 00\n\
    ccw 31 0002000200\n\
    tic 3\n\
    ccw 1D 0002000201000005484F535432\n\
    end\n\
    program\n\
    ccw 1F 40\n\
    ccw 07 000000020002\n\
    ccw 23 00\n\
    ccw 31 0002000201\n\
    tic 3\n\
    ccw 06\n\
    end\n\
    host 3\n\
    mount VOL003\n\
    program\n\
    ccw 1F C0\n\
    ccw 07 000000030003\n\
    ccw 23 00\n\
    ccw 31 0003000300\n\
    tic 3\n\
    ccw 1D 0003000301000005484F535433\n\
    end\n\
    program\n\
    ccw 1F 40\n\
    ccw 07 000000030003\n\
    ccw 23 00\n\
    ccw 31 0003000301\n\
    tic 3\n\
    ccw 06\n\
    end\n\
    done\n";

/// Three records on a track; then a new second one is written behind the first.
pub const THREE_RECORDS: &str = "mss 1 frames 1 recorders 1\n\
    volume 0 VOL001\n\
    host 1\n\
    mount VOL001\n\
    program\n\
    ccw 31 0000000000\n\
    tic 0\n\
    ccw 1D 000000000100000141\n\
    ccw 1D 000000000200000142\n\
    ccw 1D 000000000300000143\n\
    end\n\
    program\n\
    ccw 31 0000000001\n\
    tic 0\n\
    ccw 1D 000000000200000158\n\
    end\n\
    done\n";
