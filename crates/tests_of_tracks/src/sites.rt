//! Calls of a site as text. A line is a call: `w` writes the bytes, `r` reads them and `b` brings them, at an
//! offset of a unit's block, and it's done (`ok`) or fails (`!`). `s` syncs the unit and `a` all units. `n` tells
//! the counts of items (writes and syncs) and of faults, in place of block and offset; `t` how many records the
//! block's track has, in place of the offset, and their data; `l` how many slots are in use, in place of the
//! offset, and the body of the last. `p` appends a slot with these bytes behind so many, as the offset says.
ghost use Rattle.std.specs.Prelude.{◌≡◌, vec_len, IfSome};

use crate::words::{bytes_at, number_at, word};
use ckd_track::{check_track, record_count, stored_records};
use mss_base::{Block, BlockPlace, CartridgeNo, Site, UnitNo};
use std::alloc::Global;
use table_journal::{SLOT_BODY_BYTES, SLOT_ITEMS, SLOTS, append_slot, read_slots, slot};

/// A call of a site, but for its bytes.
#[derive(Clone, Copy)]
pub struct Row {
    letter: u8,
    pub unit: UnitNo,
    pub block: u32,
    offset: u16,
    is_ok: bool,
}

/// A copy of the table (`A`, `B`), a staging disk (`0` to `3`), the last cartridge (`C`).
fn unit_of(letter: u8) -> Option<UnitNo> {
    match letter {
        b'A' => Some(UnitNo::TableA),
        b'B' => Some(UnitNo::TableB),
        b'0'..=b'3' => Some(UnitNo::Staging(letter - b'0')),
        _ => Some(UnitNo::Cartridge(CartridgeNo::of(2047)?)),
    }
}

fn letter_of(word: &str) -> Option<u8> {
    match word.as_bytes() {
        [letter, ..] => Some(*letter),
        [] => None,
    }
}

fn letter_at(line: &str, at: usize) -> Option<u8> {
    match word(line, at) {
        Some(word) => letter_of(word),
        None => None,
    }
}

fn unit_at(line: &str) -> Option<UnitNo> {
    unit_of(letter_at(line, 1)?)
}

fn offset_at(line: &str) -> Option<u16> {
    u16::try_from(number_at(line, 3)?).ok()
}

/// Reads a line.
pub fn row_of(line: &str) -> Option<Row> {
    let letter = letter_at(line, 0)?;
    let unit = unit_at(line)?;
    let block = number_at(line, 2)?;
    let offset = offset_at(line)?;
    let is_ok = word(line, 5) == Some("ok");
    Some(Row {
        letter,
        unit,
        block,
        offset,
        is_ok,
    })
}

/// Whether bytes stand in a block at the offset.
fn stand_in(row: &Row, bytes: &[u8], block: &[u8]) -> bool {
    let (_, rest) = block.split_at(usize::from(row.offset).min(block.len()));
    rest.starts_with(bytes)
}

/// A block of ones.
fn ones(alloc: Global) -> Option<Vec<u8>>
    ensures { IfSome result (λ bytes. vec_len bytes ≡ 16384) }
{
    vec![in alloc; 1u8; 16384].ok()
}

fn write<S: Site>(site: &mut S, row: &Row, bytes: &[u8]) -> Option<bool> {
    if bytes.is_empty() || usize::from(row.offset) + bytes.len() > 16384 {
        return None;
    }
    site.reserve(1).ok()?;
    Some(site.write(row.unit, row.block, row.offset, bytes).is_ok() == row.is_ok)
}

fn read<S: Site>(alloc: Global, site: &mut S, row: &Row, bytes: &[u8]) -> Option<bool> {
    let mut block = ones(alloc)?;
    let is_read = site.read(row.unit, row.block, &mut block).is_ok();
    Some(is_read == row.is_ok && (!is_read || stand_in(row, bytes, &block)))
}

fn bring<S: Site>(site: &mut S, row: &Row, bytes: &[u8]) -> bool {
    let is_brought = site.bring(row.unit, row.block).is_ok();
    is_brought == row.is_ok && (!is_brought || stand_in(row, bytes, site.brought()))
}

fn sync<S: Site>(site: &mut S, row: &Row) -> Option<bool> {
    site.reserve(1).ok()?;
    let synced = match row.letter {
        b's' => site.sync(row.unit),
        _ => site.sync_all(),
    };
    Some(synced.is_ok() == row.is_ok)
}

/// Whether so many writes and syncs (`block`) and faults (`offset`) were counted.
fn has_counted<S: Site>(site: &S, row: &Row) -> bool {
    site.writes() == u64::from(row.block) && site.faults() == u64::from(row.offset)
}

/// The data of a block's records together.
fn push_bodies(bodies: &mut Vec<u8>, block: &Block) -> Option<()> {
    for stored in stored_records(block.as_slice()) {
        bodies.extend_from_slice(stored.body).ok()?;
    }
    Some(())
}

fn has_bodies(alloc: Global, block: &Block, due: &[u8]) -> bool {
    let mut bodies = Vec::new(alloc);
    push_bodies(&mut bodies, block).is_some() && bodies.as_slice() == due
}

/// Whether a track's records, as many as the offset says, have these data together.
fn has_records<S: Site>(alloc: Global, site: &mut S, row: &Row, bytes: &[u8]) -> Option<bool> {
    let at = BlockPlace {
        unit: row.unit,
        block: row.block,
    };
    let mut block = Block::zeros(alloc).ok()?;
    block.read(site, &at).ok()?;
    check_track(&block).ok()?;
    Some(u16::from(record_count(&block)) == row.offset && has_bodies(alloc, &block, bytes))
}

/// Whether so many slots are in use as the offset says, the last of them with these bytes.
fn has_slots<S: Site>(site: &mut S, row: &Row, bytes: &[u8]) -> Option<bool> {
    site.bring(row.unit, row.block).ok()?;
    let block = site.brought();
    let used = read_slots(block);
    if used != row.offset {
        return Some(false);
    }
    Some(used == 0 || slot(block, used - 1) == bytes)
}

fn append<S: Site>(site: &mut S, row: &Row, body: &[u8]) -> Option<bool> {
    let at = BlockPlace {
        unit: row.unit,
        block: row.block,
    };
    site.reserve(SLOT_ITEMS).ok()?;
    site.bring(at.unit, at.block).ok()?;
    let used = read_slots(site.brought());
    if used != row.offset || used == SLOTS || body.len() != SLOT_BODY_BYTES {
        return None;
    }
    Some(append_slot(site, &at, used, body).is_ok() == row.is_ok)
}

fn is_done<S: Site>(alloc: Global, site: &mut S, row: &Row, bytes: &[u8]) -> Option<bool> {
    match row.letter {
        b'w' => write(site, row, bytes),
        b'r' => read(alloc, site, row, bytes),
        b'b' => Some(bring(site, row, bytes)),
        b's' | b'a' => sync(site, row),
        b'n' => Some(has_counted(site, row)),
        b't' => has_records(alloc, site, row, bytes),
        b'l' => has_slots(site, row, bytes),
        b'p' => append(site, row, bytes),
        _ => None,
    }
}

/// Whether a call does what its line says.
pub fn is_so<S: Site>(alloc: Global, site: &mut S, line: &str) -> Option<bool> {
    let row = row_of(line)?;
    let bytes = bytes_at(alloc, line, 4)?;
    is_done(alloc, site, &row, &bytes)
}
