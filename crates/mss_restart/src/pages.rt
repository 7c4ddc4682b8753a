// The walk over the pages: each frame is configured, and stands in one of them.
ghost use Rattle.std.specs.Prelude.{◌≡◌, ◌≤◌};
ghost use Rattle.mss_base.specs.Firsts.{first_below};
ghost use Rattle.shown_volumes.specs.Faults.{page_with, earlier_page, frame_fault, page_fault, pages_fault};
ghost use Rattle.volume_table.specs.Listed.{row_in_list};
ghost use Rattle.mss_restart.specs.Walks.{lower_pages};

use mss_base::{FrameNo, Page, VolumeNo, page_at, volume_at};
use shown_volumes::{Refused, frame_in};
use volume_table::Rows;

/// A page, where it has a frame.
fn page_with(rows: &Rows, frame: FrameNo, volume: VolumeNo, page: Page) -> Option<(VolumeNo, Page)>
    ensures { result ≡ page_with (row_in_list rows.now) frame volume page }
{
    if frame_in(rows, volume, page) == Some(frame) {
        Some((volume, page))
    } else {
        None
    }
}

/// The first page of a volume that has a frame, of its first `count` pages.
fn page_among(rows: &Rows, frame: FrameNo, volume: VolumeNo, count: u8) -> Option<(VolumeNo, Page)>
    requires count { count ≤ 51 }
    ensures { result ≡ first_below count (page_with (row_in_list rows.now) frame volume) }
{
    for number in 0..count {
        let page = page_with(rows, frame, volume, page_at(number));
        if page.is_some() {
            return page;
        }
    }
    None
}

/// The first page of the volumes before this one that has a frame.
fn lower_page(rows: &Rows, frame: FrameNo, volume: VolumeNo) -> Option<(VolumeNo, Page)>
    ensures { result ≡ first_below volume (lower_pages (row_in_list rows.now) frame) }
{
    for number in 0..volume.get() {
        let page = page_among(rows, frame, volume_at(number), 51);
        if page.is_some() {
            return page;
        }
    }
    None
}

/// The first page before this one that has a frame.
fn earlier_page(
    rows: &Rows,
    frame: FrameNo,
    volume: VolumeNo,
    page: Page,
) -> Option<(VolumeNo, Page)>
    ensures { result ≡ earlier_page (row_in_list rows.now) frame volume page }
{
    let lower = lower_page(rows, frame, volume);
    if lower.is_some() {
        return lower;
    }
    page_among(rows, frame, volume, page.get())
}

/// The fault of a frame, which a page has, if any.
fn frame_fault(
    frames: u16,
    rows: &Rows,
    volume: VolumeNo,
    page: Page,
    frame: FrameNo,
) -> Option<Refused>
    ensures { result ≡ frame_fault frames (row_in_list rows.now) volume page frame }
{
    if u16::from(frame.get()) >= frames {
        return Some(Refused::FrameGone { frame });
    }
    let Some(first) = earlier_page(rows, frame, volume, page) else {
        return None;
    };
    Some(Refused::FrameTwice {
        frame,
        first,
        second: (volume, page),
    })
}

/// The fault of a page, if it has a frame at fault.
pub fn page_fault(frames: u16, rows: &Rows, volume: VolumeNo, page: Page) -> Option<Refused>
    ensures { result ≡ page_fault frames (row_in_list rows.now) volume page }
{
    let Some(frame) = frame_in(rows, volume, page) else {
        return None;
    };
    frame_fault(frames, rows, volume, page, frame)
}

/// The first fault of a volume's pages.
fn volume_fault(frames: u16, rows: &Rows, volume: VolumeNo) -> Option<Refused>
    ensures { result ≡ pages_fault frames (row_in_list rows.now) volume }
{
    for number in 0..51 {
        let fault = page_fault(frames, rows, volume, page_at(number));
        if fault.is_some() {
            return fault;
        }
    }
    None
}

/// The first page whose frame isn't one of the first `frames`, or stands in an earlier page.
pub fn pages_fault(frames: u16, rows: &Rows) -> Option<Refused>
    ensures { result ≡ first_below 32 (pages_fault frames (row_in_list rows.now)) }
{
    for number in 0..32 {
        let fault = volume_fault(frames, rows, volume_at(number));
        if fault.is_some() {
            return fault;
        }
    }
    None
}
