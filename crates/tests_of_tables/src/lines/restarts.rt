// Lines that survey devices, open them, and copy tracks.
use crate::lines::answers::{Told, list, opening, refused, volumes};
use crate::lines::bench::Bench;
use crate::lines::configs::{three, three_with};
use crate::lines::devices::room;
use crate::lines::numbers::{byte, cylinder, frame, is_word};
use crate::lines::words::code;
use mss_base::{CartridgeNo, Config, Site, VolumeNo};
use mss_restart::{open_rows, survey};
use std::alloc::Global;
use transfers::{Transfer, TransferKind, copy_track};

fn surveyed<S: Site>(alloc: Global, site: &mut S) -> Told {
    match survey(alloc, site, &three(alloc)?) {
        Ok(rows) => volumes(alloc, &rows),
        Err(fault) => refused(alloc, &fault),
    }
}

fn kind_of(words: &[u64]) -> TransferKind {
    if is_word(words, 1, "blank") {
        return TransferKind::StageBlank;
    }
    if is_word(words, 1, "stage") {
        return TransferKind::StageCartridge;
    }
    TransferKind::Destage
}

// `copy blank 403 199 18`: the kind, the cylinder, the frame of its page and the head. Volume 3 has its cylinders on
// cartridge 7.
fn transfer_of(words: &[u64]) -> Option<Transfer> {
    Some(Transfer {
        kind: kind_of(words),
        volume: VolumeNo::of(3)?,
        cylinder: cylinder(words, 2)?,
        frame: frame(words, 3)?,
        cartridge: CartridgeNo::of(7)?,
        next: byte(words, 4)?,
    })
}

fn copied<S: Site>(alloc: Global, site: &mut S, words: &[u64]) -> Told {
    let mut transfer = transfer_of(words)?;
    if transfer.next >= 19 {
        return None;
    }
    site.reserve(1).ok()?;
    let mut buffer = room(alloc, 77)?;
    let word = match copy_track(site, &mut transfer, &mut buffer) {
        Ok(()) => code("done"),
        Err(_) => code("failed"),
    };
    list(alloc, &[word, u64::from(transfer.next)])
}

/// Does a line on lent devices, if it is one of these: `survey`, `copy blank 403 199 18`.
pub fn site_line<S: Site>(alloc: Global, site: &mut S, words: &[u64]) -> Told {
    if is_word(words, 0, "survey") {
        return surveyed(alloc, site);
    }
    copied(alloc, site, words)
}

fn opened<S: Site + Drop>(alloc: Global, slot: &mut Option<S>, config: &Config) -> Told {
    match open_rows(alloc, slot.take()?, config) {
        Ok((site, opened)) => {
            *slot = Some(site);
            opening(alloc, &opened)
        }
        Err((site, fault)) => {
            *slot = Some(site);
            refused(alloc, &fault)
        }
    }
}

/// The line `open`, which takes the devices and gives them back. `open readonly` asks for volume 3 as a read-only one.
pub fn open_line(alloc: Global, slot: &mut Option<Bench>, words: &[u64]) -> Told {
    let read_only = is_word(words, 1, "readonly");
    opened(alloc, slot, &three_with(alloc, read_only)?)
}
