// The transfer that a task is at.
ghost use Rattle.std.specs.Prelude.{◌≡◌, ◌*◌, slice_get};
ghost use Rattle.mss_base.specs.Firsts.{where_so};
ghost use Rattle.core_state.specs.Pins.{changed_in, is_changed};
ghost use Rattle.core_state.specs.WorkRules.{
  cartridge_of,
  destaging,
  next_transfer,
  staging,
  transfer,
  transfer_of,
};

use core_state::looks::state_in;
use core_state::{Core, Task};
use fault_queue::{Queue, Request};
use mss_base::{CartridgeNo, Cylinder, FrameNo, Page, Site, VolumeNo};
use shown_volumes::frame_in;
use transfers::{Transfer, TransferKind};
use victim_choice::Choose;
use volume_table::{CylinderState, Rows};

/// The cylinder with this number, where it is changed.
pub fn changed_at(rows: &Rows, volume: VolumeNo, number: u16) -> Option<Cylinder>
    ensures { result ≡ where_so (is_changed rows.now volume number) number }
{
    let cylinder = Cylinder::of(number)?;
    if state_in(rows, volume, cylinder) == CylinderState::Changed.number() {
        return Some(cylinder);
    }
    None
}

/// The lowest changed cylinder of a page.
fn first_changed(rows: &Rows, volume: VolumeNo, page: Page) -> Option<Cylinder>
    ensures { result ≡ slice_get (changed_in rows.now (volume, page)) 0 }
{
    let from = u16::from(page.get()) * 8;
    for offset in 0..8 {
        if let Some(cylinder) = changed_at(rows, volume, from + offset) {
            return Some(cylinder);
        }
    }
    None
}

/// The cartridge of a cylinder; cartridge 0 where the volume has no row.
fn cartridge_of(rows: &Rows, volume: VolumeNo, cylinder: Cylinder) -> CartridgeNo
    ensures { result ≡ cartridge_of rows.now volume cylinder }
{
    match rows.row(volume) {
        Some(row) => row.cartridge(cylinder),
        None => CartridgeNo::of(0).unwrap(),
    }
}

/// A transfer that begins.
fn transfer(
    rows: &Rows,
    kind: TransferKind,
    volume: VolumeNo,
    cylinder: Cylinder,
    frame: FrameNo,
) -> Transfer
    ensures { result ≡ transfer rows.now kind volume cylinder frame }
{
    let cartridge = cartridge_of(rows, volume, cylinder);
    Transfer {
        kind,
        volume,
        cylinder,
        frame,
        cartridge,
        next: 0,
    }
}

/// The destaging of a victim's lowest changed cylinder.
fn destaging(rows: &Rows, frame: FrameNo, volume: VolumeNo, page: Page) -> Option<Transfer>
    ensures { result ≡ destaging rows.now frame (volume, page) }
{
    let cylinder = first_changed(rows, volume, page)?;
    Some(transfer(rows, TransferKind::Destage, volume, cylinder, frame))
}

/// The staging of the asked cylinder, once its page has a frame.
fn staging(rows: &Rows, frame: FrameNo, request: &Request) -> Option<Transfer>
    ensures { result ≡ staging rows.now frame request.now }
{
    let _taken = frame_in(rows, request.volume, request.cylinder.page())?;
    let state = state_in(rows, request.volume, request.cylinder);
    let kind = if state == CylinderState::Blank.number() {
        TransferKind::StageBlank
    } else {
        TransferKind::StageCartridge
    };
    Some(transfer(rows, kind, request.volume, request.cylinder, frame))
}

/// What is to be copied next, where no transfer is under way.
fn next_transfer(rows: &Rows, requests: &Queue, task: &Task) -> Option<Transfer>
    ensures { result ≡ next_transfer rows.now requests.now task.now }
{
    match task.victim {
        Some((volume, page)) => destaging(rows, task.frame, volume, page),
        None => {
            let request = requests.of(task.host)?;
            staging(rows, task.frame, &request)
        }
    }
}

/// The transfer that a task is at.
pub fn transfer_of<S: Site, C: Choose>(core: &Core<S, C>, task: &Task) -> Option<Transfer>
    ensures { result ≡ transfer_of core.now task.now }
{
    match task.transfer {
        Some(transfer) => Some(transfer),
        None => next_transfer(&core.rows, &core.requests, task),
    }
}
