// Lines that put bytes onto devices, look at them, and have calls fail.
ghost use Rattle.std.specs.Prelude.{◌≡◌, IfSome, vec_len};

use crate::lines::answers::{Told, list, outcome};
use crate::lines::bench::Bench;
use crate::lines::numbers::{block, byte, cartridge, is_word, serial, short, unit, word};
use memory_devices::SiteFault;
use mss_base::{BLOCK_BYTES, Site, UnitNo};
use std::alloc::Global;
use volume_table::{VolumeRow, encode_row};

// Writes at most 512 bytes.
fn put<S: Site>(site: &mut S, unit: UnitNo, block: u32, offset: u16, bytes: &[u8]) -> Option<()> {
    if bytes.is_empty() || bytes.len() > 512 || usize::from(offset) + bytes.len() > 16384 {
        return None;
    }
    site.reserve(1).ok()?;
    site.write(unit, block, offset, bytes).ok()
}

// A copy of a row, open and made.
fn open_copy(row: &VolumeRow) -> [u8; 512] {
    let mut bytes = [0; 512];
    encode_row(row, &mut bytes);
    bytes[0] = 0xC1;
    bytes[511] = 0x4D;
    bytes
}

/// Room for a block, in which this byte stands.
pub fn room(alloc: Global, filler: u8) -> Option<Vec<u8>>
    ensures { IfSome result (λ bytes. vec_len bytes ≡ 16384) }
{
    vec![in alloc; filler; BLOCK_BYTES].ok()
}

// `has table A 0 64 9`: a byte of a block.
fn has<S: Site>(site: &mut S, words: &[u64]) -> Option<bool> {
    site.bring(unit(words, 1)?, block(words, 3)?).ok()?;
    let found = site.brought().get(usize::from(short(words, 4)?))?;
    Some(*found == byte(words, 5)?)
}

// `fill table A 0 64 9` puts it.
fn fill<S: Site>(site: &mut S, words: &[u64]) -> Option<()> {
    let bytes = [byte(words, 5)?];
    put(
        site,
        unit(words, 1)?,
        block(words, 3)?,
        short(words, 4)?,
        &bytes,
    )
}

fn new_row(alloc: Global, words: &[u64]) -> Option<VolumeRow> {
    let (first, second) = (cartridge(words, 5)?, cartridge(words, 6)?);
    VolumeRow::blank(alloc, serial(words, 4)?, first, second).ok()
}

// `put table A 3 VOL004 0 1`: a copy of the row of a new volume, open and made.
fn put_new<S: Site>(alloc: Global, site: &mut S, words: &[u64]) -> Option<()> {
    let (unit, block) = (unit(words, 1)?, block(words, 3)?);
    let row = new_row(alloc, words)?;
    put(site, unit, block, 0, &open_copy(&row))
}

// `fail 1`: this call from now on, of which none has the number 0. `lose table A`: each read of this unit, and of a
// second one behind it.
fn faults_of(words: &[u64]) -> Option<[SiteFault; 2]> {
    if is_word(words, 0, "fail") {
        return Some([SiteFault::Call(word(words, 1)?), SiteFault::Call(0)]);
    }
    let second = if words.len() < 4 { 1 } else { 3 };
    Some([
        SiteFault::ReadsOf(unit(words, 1)?),
        SiteFault::ReadsOf(unit(words, second)?),
    ])
}

fn write_line(alloc: Global, bench: &mut Bench, words: &[u64]) -> Option<()> {
    if is_word(words, 0, "fill") {
        return fill(bench, words);
    }
    if is_word(words, 0, "put") {
        return put_new(alloc, bench, words);
    }
    if is_word(words, 0, "fail") || is_word(words, 0, "lose") {
        return bench.fail(&faults_of(words)?);
    }
    None
}

/// Does a line, if it is one of these.
pub fn device_line(alloc: Global, bench: &mut Bench, words: &[u64]) -> Told {
    if is_word(words, 0, "writes") {
        return list(alloc, &[bench.writes()]);
    }
    if is_word(words, 0, "faults") {
        return list(alloc, &[bench.faults()]);
    }
    if is_word(words, 0, "has") {
        return outcome(alloc, has(bench, words)?);
    }
    write_line(alloc, bench, words)?;
    outcome(alloc, true)
}
