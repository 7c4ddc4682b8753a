//! The channel program of three draws.
ghost use Rattle.std.specs.Prelude.{◌≡◌, IfOk};
ghost use Rattle.channel_commands.specs.Views.{ccw_of};
ghost use Rattle.draws.specs.Load.{last_word, program_of, track_bytes};

use channel_commands::{Argument, Ccw};
use channel_program::{Program, Words};
use mss_base::{Bytes, CYLINDERS, HEADS, NoMemory};
use std::alloc::Global;

/// A full seek.
const SEEK: u8 = 0x07;

/// A search for an equal ID.
const SEARCH_ID: u8 = 0x31;

/// A read of R0.
const READ_RECORD_ZERO: u8 = 0x16;

/// A write of count, key and data.
const WRITE_COUNT_KEY_DATA: u8 = 0x1D;

/// A track as a seek and an ID name it: two bytes of its cylinder, two of its head.
fn track_bytes(place: u32, head: u32) -> [u8; 4]
    ensures { result ≡ track_bytes place head }
{
    let cylinder = ((place % u32::from(CYLINDERS)) as u16).to_be_bytes();
    let head = ((head % u32::from(HEADS)) as u16).to_be_bytes();
    [cylinder[0], cylinder[1], head[0], head[1]]
}

/// What is done behind R0 of the track: an even choice formats R1 with the choice as its data, an
/// odd one reads R0.
fn last_word(alloc: Global, track: &[u8; 4], choice: u32) -> Result<Ccw, NoMemory>
    ensures { IfOk result (λ word. ccw_of word ≡ last_word track.now choice) }
{
    if choice % 2 != 0 {
        return Ok(Ccw::Device {
            code: READ_RECORD_ZERO,
            argument: Argument::empty(),
        });
    }
    let data = choice.to_be_bytes();
    let count = [track[0], track[1], track[2], track[3], 1, 0, 0, 4];
    let mut record = Bytes::of(alloc, &count)?;
    record.append(&data)?;
    Ok(Ccw::Device {
        code: WRITE_COUNT_KEY_DATA,
        argument: Argument::keep(alloc, record)?,
    })
}

/// The program of three draws: a seek to a track, the search of its R0, and the last word.
pub fn program_of(alloc: Global, place: u32, head: u32, choice: u32) -> Result<Program, NoMemory>
    ensures { IfOk result (λ program. program ≡ program_of place head choice) }
{
    let track = track_bytes(place, head);
    let seek = Argument::of(alloc, &[0, 0, track[0], track[1], track[2], track[3]])?;
    let search = Argument::of(alloc, &[track[0], track[1], track[2], track[3], 0])?;
    let last = last_word(alloc, &track, choice)?;
    let mut words = Words::new(alloc);
    words.push(Ccw::Device {
        code: SEEK,
        argument: seek,
    })?;
    words.push(Ccw::Device {
        code: SEARCH_ID,
        argument: search,
    })?;
    words.push(Ccw::Transfer { to: 1 })?;
    words.push(last)?;
    Ok(Program::of(words))
}
