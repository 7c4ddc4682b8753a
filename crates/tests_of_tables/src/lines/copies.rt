// The line that changes a row.
use crate::lines::bench::Bench;
use crate::lines::numbers::{frame, short, volume};
use mss_base::{CartridgeNo, Page, Serial, Site, VolumeNo};
use std::alloc::Global;
use table_pair::{CHANGE_ITEMS, SlotsUsed, change_row};
use volume_table::{Change, VolumeRow, apply, is_allowed};

fn blank_row(alloc: Global) -> Option<VolumeRow> {
    let (first, second) = (CartridgeNo::of(0)?, CartridgeNo::of(1)?);
    VolumeRow::blank(alloc, Serial::of(*b"VOL001")?, first, second).ok()
}

fn slots_of(words: &[u64]) -> Option<SlotsUsed> {
    Some(SlotsUsed {
        a: short(words, 3)?,
        b: short(words, 4)?,
    })
}

fn is_changed(
    bench: &mut Bench,
    volume: VolumeNo,
    row: &mut VolumeRow,
    change: &Change,
    used: SlotsUsed,
) -> Option<bool> {
    if !is_allowed(row, change) {
        return None;
    }
    apply(row, change);
    bench.reserve(CHANGE_ITEMS).ok()?;
    Some(change_row(bench, volume, row, change, used).is_ok())
}

/// `assign 0 3 0 1984`: the first page of volume 0, which has the blank row of VOL001 on the cartridges 0 and 1, gets
/// frame 3. So many slots of copy A are in use, and so many of copy B.
pub fn assign(alloc: Global, bench: &mut Bench, words: &[u64]) -> Option<bool> {
    let volume = volume(words, 1)?;
    let (page, frame) = (Page::of(0)?, frame(words, 2)?);
    let used = slots_of(words)?;
    let mut row = blank_row(alloc)?;
    is_changed(
        bench,
        volume,
        &mut row,
        &Change::Assign { page, frame },
        used,
    )
}
