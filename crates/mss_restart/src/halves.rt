// The walk over the halves of volumes: each cartridge stands in one of them.
ghost use Rattle.std.specs.Prelude.{◌≡◌, ◌≤◌};
ghost use Rattle.shown_volumes.specs.Sound.{cartridge_of};
ghost use Rattle.mss_base.specs.Firsts.{first_below};
ghost use Rattle.shown_volumes.specs.Faults.{half_with, half_fault, halves_fault};
ghost use Rattle.volume_table.specs.Listed.{row_in_list};

use mss_base::{CartridgeNo, VolumeNo, volume_at};
use shown_volumes::{Half, Refused};
use volume_table::Rows;

/// The cartridge of a half, if the volume has a row.
fn cartridge_of(rows: &Rows, volume: VolumeNo, second: bool) -> Option<CartridgeNo>
    ensures { result ≡ cartridge_of (row_in_list rows.now) volume second }
{
    let Some(row) = rows.row(volume) else {
        return None;
    };
    if second {
        Some(row.second)
    } else {
        Some(row.first)
    }
}

/// The first half of a volume that has a cartridge.
fn half_with(rows: &Rows, cartridge: CartridgeNo, volume: VolumeNo) -> Option<Half>
    ensures { result ≡ half_with (row_in_list rows.now) cartridge volume }
{
    if cartridge_of(rows, volume, false) == Some(cartridge) {
        return Some(Half {
            volume,
            second: false,
        });
    }
    if cartridge_of(rows, volume, true) == Some(cartridge) {
        return Some(Half {
            volume,
            second: true,
        });
    }
    None
}

/// The first half of the first `count` volumes that has a cartridge.
pub fn half_among(rows: &Rows, cartridge: CartridgeNo, count: u8) -> Option<Half>
    requires count { count ≤ 32 }
    ensures { result ≡ first_below count (half_with (row_in_list rows.now) cartridge) }
{
    for number in 0..count {
        let half = half_with(rows, cartridge, volume_at(number));
        if half.is_some() {
            return half;
        }
    }
    None
}

/// The fault of a half, if an earlier one has the same cartridge.
pub fn half_fault(rows: &Rows, volume: VolumeNo, second: bool) -> Option<Refused>
    ensures { result ≡ half_fault (row_in_list rows.now) volume second }
{
    let Some(cartridge) = cartridge_of(rows, volume, second) else {
        return None;
    };
    let mut first = half_among(rows, cartridge, volume.get());
    if first.is_none() && second && cartridge_of(rows, volume, false) == Some(cartridge) {
        first = Some(Half {
            volume,
            second: false,
        });
    }
    let Some(first) = first else {
        return None;
    };
    Some(Refused::CartridgeTwice {
        cartridge,
        first,
        second: Half { volume, second },
    })
}

/// The fault of a volume's first half, or else of its second.
fn volume_fault(rows: &Rows, volume: VolumeNo) -> Option<Refused>
    ensures { result ≡ halves_fault (row_in_list rows.now) volume }
{
    let first = half_fault(rows, volume, false);
    if first.is_some() {
        return first;
    }
    half_fault(rows, volume, true)
}

/// The first half whose cartridge stands in an earlier one.
pub fn halves_fault(rows: &Rows) -> Option<Refused>
    ensures { result ≡ first_below 32 (halves_fault (row_in_list rows.now)) }
{
    for number in 0..32 {
        let fault = volume_fault(rows, volume_at(number));
        if fault.is_some() {
            return fault;
        }
    }
    None
}
