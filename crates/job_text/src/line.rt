//! The forms of a line.
ghost use Rattle.std.specs.Prelude.{◌≡◌, ◌≤◌, ℕ, nat_le, ◌&&◌, [], ◌∷◌, length, map};
ghost use Rattle.std.specs.Str.{bytes_eq};
ghost use Rattle.mss_base.specs.Decimal.{number_of};
ghost use Rattle.job_text.specs.Words.{is_number, is_serial, is_hex_byte, byte_of};
ghost use Rattle.job_text.specs.declared.kind.Keyword.TheVariants.{Mss, Volume, Host, Mount, Ccw, Tic};
ghost use Rattle.job_text.specs.Lines.{line_of};
ghost use Rattle.job_text.specs.Outcomes.{Gives, Tests};
ghost use Rattle.job_text.specs.Views.{line_data};

use crate::kind::{JobKind, Keyword};
use crate::words::{append_copies, argument_of, byte, bytes_of, is_word, number, serial};
use channel_commands::Argument;
use mss_base::{Bytes, HostNo, NoMemory, Serial, VolumeNo};
use std::alloc::{AllocError, AllocFailed, Global};

/// What a line says.
#[derive(Drop)]
pub enum Line {
    Mss {
        frames: u16,
        recorders: u8,
    },
    Volume {
        number: VolumeNo,
        serial: Serial,
        read_only: bool,
    },
    Host {
        number: HostNo,
    },
    Done,
    Mount {
        serial: Serial,
        bind: bool,
    },
    Demount,
    Program,
    Ccw {
        code: u8,
        argument: Argument,
    },
    Tic {
        to: u8,
    },
    End,
}

/// Why a line was not read.
#[derive(Clone, Copy)]
pub enum LineFault {
    Bad(JobKind),
    Memory,
}

impl From<NoMemory> for LineFault {
    ghost use Rattle.std.specs.Prelude.{◌≡◌};
    ghost use Rattle.job_text.specs.declared.line.LineFault.TheVariants.{Memory};

    ghost from_gives = { λ _ e. e ≡ Memory };

    fn from(_error: NoMemory) -> LineFault {
        LineFault::Memory
    }
}

impl From<AllocError> for LineFault {
    ghost use Rattle.std.specs.Prelude.{◌≡◌};
    ghost use Rattle.job_text.specs.declared.line.LineFault.TheVariants.{Memory};

    ghost from_gives = { λ _ e. e ≡ Memory };

    fn from(_error: AllocError) -> LineFault {
        LineFault::Memory
    }
}

impl<T: Drop> From<AllocFailed<T>> for LineFault {
    ghost use Rattle.std.specs.Prelude.{◌≡◌};
    ghost use Rattle.job_text.specs.declared.line.LineFault.TheVariants.{Memory};

    ghost from_gives = { λ _ e. e ≡ Memory };

    fn from(_error: AllocFailed<T>) -> LineFault {
        LineFault::Memory
    }
}

fn spelled_number(word: &[u8]) -> Result<u32, LineFault>
    ensures { Tests result (is_number word.now) JobKind.Shape (λ n. n ≡ number_of word.now) }
{
    match number(word) {
        Some(number) => Ok(number),
        None => Err(LineFault::Bad(JobKind::Shape)),
    }
}

fn spelled_serial(word: &[u8]) -> Result<Serial, LineFault>
    ensures { Tests result (is_serial word.now) JobKind.Shape (λ s. s ≡ word.now) }
{
    match serial(word) {
        Some(serial) => Ok(serial),
        None => Err(LineFault::Bad(JobKind::Shape)),
    }
}

fn spelled_byte(word: &[u8]) -> Result<u8, LineFault>
    ensures { Tests result (is_hex_byte word.now) JobKind.Shape (λ b. b ≡ byte_of word.now) }
{
    match byte(word) {
        Some(byte) => Ok(byte),
        None => Err(LineFault::Bad(JobKind::Shape)),
    }
}

fn spelled_as(word: &[u8], text: &str) -> Result<(), LineFault>
    ensures { Tests result (bytes_eq text.now word.now) JobKind.Shape (λ _. Unit {0}) }
{
    if is_word(word, text) {
        Ok(())
    } else {
        Err(LineFault::Bad(JobKind::Shape))
    }
}

fn in_range(number: u32, low: u32, high: u32) -> Result<(), LineFault>
    ensures { Tests result (nat_le low number && nat_le number high) JobKind.Range
        (λ _. (low ≤ number) × (number ≤ high)) }
{
    if number < low {
        return Err(LineFault::Bad(JobKind::Range));
    }
    if number > high {
        return Err(LineFault::Bad(JobKind::Range));
    }
    Ok(())
}

fn mss_line(
    version: &[u8],
    for_frames: &[u8],
    frames: &[u8],
    for_recorders: &[u8],
    recorders: &[u8],
) -> Result<Line, LineFault>
    ensures { Gives line_data result
        (line_of Mss
        (version.now ∷ for_frames.now ∷ frames.now ∷ for_recorders.now ∷ recorders.now ∷ [])) }
{
    let version = spelled_number(version)?;
    spelled_as(for_frames, "frames")?;
    let frames = spelled_number(frames)?;
    spelled_as(for_recorders, "recorders")?;
    let recorders = spelled_number(recorders)?;
    in_range(version, 1, 1)?;
    in_range(frames, 1, 200)?;
    in_range(recorders, 1, 8)?;
    Ok(Line::Mss {
        frames: frames as u16,
        recorders: recorders as u8,
    })
}

fn volume_line(volume: &[u8], serial: &[u8]) -> Result<Line, LineFault>
    ensures { Gives line_data result (line_of Volume (volume.now ∷ serial.now ∷ [])) }
{
    let volume = spelled_number(volume)?;
    let serial = spelled_serial(serial)?;
    in_range(volume, 0, 31)?;
    match VolumeNo::of(volume as u8) {
        Some(number) => Ok(Line::Volume {
            number,
            serial,
            read_only: false,
        }),
        None => Err(LineFault::Bad(JobKind::Range)),
    }
}

fn volume_readonly_line(volume: &[u8], serial: &[u8], readonly: &[u8]) -> Result<Line, LineFault>
    ensures { Gives line_data result
        (line_of Volume (volume.now ∷ serial.now ∷ readonly.now ∷ [])) }
{
    let volume = spelled_number(volume)?;
    let serial = spelled_serial(serial)?;
    spelled_as(readonly, "readonly")?;
    in_range(volume, 0, 31)?;
    match VolumeNo::of(volume as u8) {
        Some(number) => Ok(Line::Volume {
            number,
            serial,
            read_only: true,
        }),
        None => Err(LineFault::Bad(JobKind::Range)),
    }
}

fn host_line(host: &[u8]) -> Result<Line, LineFault>
    ensures { Gives line_data result (line_of Host (host.now ∷ [])) }
{
    let host = spelled_number(host)?;
    in_range(host, 1, 8)?;
    match HostNo::of(host as u8) {
        Some(number) => Ok(Line::Host { number }),
        None => Err(LineFault::Bad(JobKind::Range)),
    }
}

fn mount_line(serial: &[u8]) -> Result<Line, LineFault>
    ensures { Gives line_data result (line_of Mount (serial.now ∷ [])) }
{
    let serial = spelled_serial(serial)?;
    Ok(Line::Mount {
        serial,
        bind: false,
    })
}

fn mount_bind_line(serial: &[u8], bind: &[u8]) -> Result<Line, LineFault>
    ensures { Gives line_data result (line_of Mount (serial.now ∷ bind.now ∷ [])) }
{
    let serial = spelled_serial(serial)?;
    spelled_as(bind, "bind")?;
    Ok(Line::Mount { serial, bind: true })
}

fn tic_line(to: &[u8]) -> Result<Line, LineFault>
    ensures { Gives line_data result (line_of Tic (to.now ∷ [])) }
{
    let to = spelled_number(to)?;
    in_range(to, 0, 255)?;
    Ok(Line::Tic { to: to as u8 })
}

fn ccw_line(code: &[u8]) -> Result<Line, LineFault>
    ensures { Gives line_data result (line_of Ccw (code.now ∷ [])) }
{
    let code = spelled_byte(code)?;
    Ok(Line::Ccw {
        code,
        argument: Argument::empty(),
    })
}

fn ccw_hex_line(alloc: Global, code: &[u8], hex: &[u8]) -> Result<Line, LineFault>
    ensures { Gives line_data result (line_of Ccw (code.now ∷ hex.now ∷ [])) }
{
    let code = spelled_byte(code)?;
    let Some(argument) = argument_of(alloc, hex)? else {
        return Err(LineFault::Bad(JobKind::Shape));
    };
    Ok(Line::Ccw { code, argument })
}

fn ccw_fill_line(
    alloc: Global,
    code: &[u8],
    fill: &[u8],
    byte: &[u8],
    count: &[u8],
) -> Result<Line, LineFault>
    ensures { Gives line_data result
        (line_of Ccw (code.now ∷ fill.now ∷ byte.now ∷ count.now ∷ [])) }
{
    let code = spelled_byte(code)?;
    spelled_as(fill, "fill")?;
    let byte = spelled_byte(byte)?;
    let count = spelled_number(count)?;
    in_range(count, 1, 65_798)?;
    let mut bytes = Bytes::new(alloc);
    append_copies(&mut bytes, byte, count as usize)?;
    let argument = Argument::keep(alloc, bytes)?;
    Ok(Line::Ccw { code, argument })
}

fn ccw_hex_fill_line(
    alloc: Global,
    code: &[u8],
    hex: &[u8],
    fill: &[u8],
    byte: &[u8],
    count: &[u8],
) -> Result<Line, LineFault>
    ensures { Gives line_data result
        (line_of Ccw (code.now ∷ hex.now ∷ fill.now ∷ byte.now ∷ count.now ∷ [])) }
{
    let code = spelled_byte(code)?;
    let Some(mut bytes) = bytes_of(alloc, hex)? else {
        return Err(LineFault::Bad(JobKind::Shape));
    };
    spelled_as(fill, "fill")?;
    let byte = spelled_byte(byte)?;
    let count = spelled_number(count)?;
    in_range(count, 1, 65_798)?;
    append_copies(&mut bytes, byte, count as usize)?;
    let argument = Argument::keep(alloc, bytes)?;
    Ok(Line::Ccw { code, argument })
}

fn mss_words(words: &[&[u8]]) -> Result<Line, LineFault>
    ensures { Gives line_data result (line_of Mss (map (λ w. w.now) words.now)) }
{
    match words {
        [version, for_frames, frames, for_recorders, recorders] => {
            mss_line(version, for_frames, frames, for_recorders, recorders)
        }
        _ => Err(LineFault::Bad(JobKind::Shape)),
    }
}

fn volume_words(words: &[&[u8]]) -> Result<Line, LineFault>
    ensures { Gives line_data result (line_of Volume (map (λ w. w.now) words.now)) }
{
    match words {
        [volume, serial] => volume_line(volume, serial),
        [volume, serial, readonly] => volume_readonly_line(volume, serial, readonly),
        _ => Err(LineFault::Bad(JobKind::Shape)),
    }
}

fn host_words(words: &[&[u8]]) -> Result<Line, LineFault>
    ensures { Gives line_data result (line_of Host (map (λ w. w.now) words.now)) }
{
    match words {
        [host] => host_line(host),
        _ => Err(LineFault::Bad(JobKind::Shape)),
    }
}

fn mount_words(words: &[&[u8]]) -> Result<Line, LineFault>
    ensures { Gives line_data result (line_of Mount (map (λ w. w.now) words.now)) }
{
    match words {
        [serial] => mount_line(serial),
        [serial, bind] => mount_bind_line(serial, bind),
        _ => Err(LineFault::Bad(JobKind::Shape)),
    }
}

fn ccw_words(alloc: Global, words: &[&[u8]]) -> Result<Line, LineFault>
    ensures { Gives line_data result (line_of Ccw (map (λ w. w.now) words.now)) }
{
    match words {
        [code] => ccw_line(code),
        [code, hex] => ccw_hex_line(alloc, code, hex),
        [code, fill, byte, count] => ccw_fill_line(alloc, code, fill, byte, count),
        [code, hex, fill, byte, count] => { ccw_hex_fill_line(alloc, code, hex, fill, byte, count) }
        _ => Err(LineFault::Bad(JobKind::Shape)),
    }
}

fn tic_words(words: &[&[u8]]) -> Result<Line, LineFault>
    ensures { Gives line_data result (line_of Tic (map (λ w. w.now) words.now)) }
{
    match words {
        [to] => tic_line(to),
        _ => Err(LineFault::Bad(JobKind::Shape)),
    }
}

/// What the words after a keyword say.
pub fn line_of(alloc: Global, keyword: Keyword, words: &[&[u8]]) -> Result<Line, LineFault>
    ensures { Gives line_data result (line_of keyword (map (λ w. w.now) words.now)) }
{
    match keyword {
        Keyword::Mss => mss_words(words),
        Keyword::Volume => volume_words(words),
        Keyword::Host => host_words(words),
        Keyword::Mount => mount_words(words),
        Keyword::Ccw => ccw_words(alloc, words),
        Keyword::Tic => tic_words(words),
        Keyword::Done => match words {
            [] => Ok(Line::Done),
            _ => Err(LineFault::Bad(JobKind::Shape)),
        },
        Keyword::Demount => match words {
            [] => Ok(Line::Demount),
            _ => Err(LineFault::Bad(JobKind::Shape)),
        },
        Keyword::Program => match words {
            [] => Ok(Line::Program),
            _ => Err(LineFault::Bad(JobKind::Shape)),
        },
        Keyword::End => match words {
            [] => Ok(Line::End),
            _ => Err(LineFault::Bad(JobKind::Shape)),
        },
    }
}
