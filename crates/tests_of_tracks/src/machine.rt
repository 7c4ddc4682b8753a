// The plain machine, which answers commands as a device does. What the product answers to these and to many others,
// `tests/test_programs.py` shows.
use crate::commands::is_wanted;
use crate::words::{byte_at, bytes_at};
use channel_commands::{Argument, Call, DeviceCommand, Reply};
use mss_base::{HostNo, Serial, VolumeNo};
use plain_machine::{PlainState, plain_step};
use std::alloc::Global;

/// A record is written and read back on cylinder 5, head 3, with other data, and by its key; one more has no room.
/// What refuses a command is told by sense.
const COMMANDS: &str = "\
04 - 0C 000000000000000000000000000000000000000000000000
07 000000050003 0C
31 0005000300 4C
1D 00050003010200034B31414243 0C
31 0005000301 0C
31 0005000301 4C
06 - 0C 414243
05 58 0E
04 - 0C 800000000000000000000000000000000000000000000000
07 000000050003 0C
29 4B31 4C
05 58 0C
12 - 0C 0005000301020003
0E - 0C 4B31580000
51 0005000300 0C
51 0005000300 4C
07 000000050003 0C
31 0005000301 0C
31 0005000301 4C
1D 00050003020032E7 0E
04 - 0C 004000000000000000000000000000000000000000000000
07 000001940000 0E
1A - 0C 0000050003
92 - 0C 0005000301020003
92 - 0E
04 - 0C 002000000000000000000000000000000000000000000000
FF - 0E";

/// On a read-only volume a write is file protected, though its search was met. The host goes on to read and search, and
/// finds the track as it was.
const PROTECTED: &str = "\
07 000000050003 0C
31 0005000300 4C
1D 00050003010200034B31414243 0E
04 - 0C 000400000000000000000000000000000000000000000000
07 000000050003 0C
1A - 0C 0000050003
31 0005000300 4C
31 0005000301 0C
12 - 0E
04 - 0C 000800000000000000000000000000000000000000000000";

fn blank(alloc: Global, read_only: bool) -> Option<PlainState> {
    let (volume, serial) = (VolumeNo::of(0)?, Serial::of(*b"VOL001")?);
    PlainState::blank(alloc, &[(volume, serial, read_only)]).ok()
}

fn mount(alloc: Global, state: &mut PlainState, host: HostNo) -> Option<bool> {
    let volume = VolumeNo::of(0)?;
    let call = Call::Mount {
        volume,
        bind: false,
    };
    match plain_step(alloc, state, host, &call) {
        Ok(Reply::Mounted) => Some(true),
        _ => None,
    }
}

/// A command of a chain that goes on.
fn call_of(alloc: Global, line: &str) -> Option<Call> {
    let code = byte_at(line, 0)?;
    let bytes = bytes_at(alloc, line, 1)?;
    let argument = Argument::of(alloc, &bytes).ok()?;
    Some(Call::Command(DeviceCommand {
        code,
        argument,
        chained: true,
    }))
}

fn is_answered(alloc: Global, state: &mut PlainState, host: HostNo, line: &str) -> Option<bool> {
    let call = call_of(alloc, line)?;
    match plain_step(alloc, state, host, &call) {
        Ok(reply) => Some(is_wanted(alloc, &reply, line)),
        Err(_) => None,
    }
}

/// The first line that is answered otherwise.
fn first_otherwise<'a>(
    alloc: Global,
    state: &mut PlainState,
    host: HostNo,
    lines: &'a str,
) -> &'a str {
    for line in lines.lines() {
        if is_answered(alloc, state, host, line) != Some(true) {
            return line;
        }
    }
    "none"
}

fn answers(alloc: Global, read_only: bool, lines: &str) -> Option<&str> {
    let host = HostNo::of(1)?;
    let mut state = blank(alloc, read_only)?;
    mount(alloc, &mut state, host)?;
    Some(first_otherwise(alloc, &mut state, host, lines))
}

#[test]
fn the_plain_machine_answers_commands(rt: HostRuntime) {
    assert_eq!(rt; answers(rt.alloc(), false, COMMANDS), Some("none"));
}

#[test]
fn the_plain_machine_protects_read_only_volumes(rt: HostRuntime) {
    assert_eq!(rt; answers(rt.alloc(), true, PROTECTED), Some("none"));
}
