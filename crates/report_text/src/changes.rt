// The line of a change of a row, put at the end of a buffer.
ghost use Rattle.std.specs.Prelude.{◌≡◌, ◌++◌, OnOk, codes, decimal};
ghost use Rattle.report_text.specs.Texts.{change_line, change_text, frame_text};

use crate::text::{push_number, push_text};
use mss_base::{Bytes, CartridgeNo, Cylinder, FrameNo, NoMemory, Page, Serial, VolumeNo};
use volume_table::Change;

fn push_numbered(out: &mut Bytes, text: &str, number: u64) -> Result<(), NoMemory>
    ensures { OnOk result (out.new.items ≡ out.old.items ++ (text.now ++ decimal number)) }
{
    push_text(out, text)?;
    push_number(out, number)
}

fn push_cylinder(out: &mut Bytes, text: &str, cylinder: Cylinder) -> Result<(), NoMemory>
    ensures { OnOk result (out.new.items ≡ out.old.items ++ (text.now ++ decimal cylinder)) }
{
    push_numbered(out, text, u64::from(cylinder.get()))
}

fn push_assign(
    out: &mut Bytes,
    text: &str,
    page: Page,
    word: &str,
    frame: FrameNo,
) -> Result<(), NoMemory>
    ensures { OnOk result (out.new.items ≡ out.old.items
        ++ (text.now ++ decimal page ++ word.now ++ decimal frame)) }
{
    push_numbered(out, text, u64::from(page.get()))?;
    push_numbered(out, word, u64::from(frame.get()))
}

fn push_frame(out: &mut Bytes, frame: Option<FrameNo>) -> Result<(), NoMemory>
    ensures { OnOk result (out.new.items ≡ out.old.items ++ frame_text frame) }
{
    match frame {
        Some(frame) => push_number(out, u64::from(frame.get())),
        None => push_text(out, "-"),
    }
}

fn push_create(
    out: &mut Bytes,
    serial: &Serial,
    first: CartridgeNo,
    second: CartridgeNo,
) -> Result<(), NoMemory>
    ensures { OnOk result (out.new.items ≡ out.old.items
        ++ (codes "create " ++ serial.now ++ codes " " ++ decimal first ++ codes " "
        ++ decimal second)) }
{
    push_text(out, "create ")?;
    out.append(serial.as_slice())?;
    push_numbered(out, " ", u64::from(first.get()))?;
    push_numbered(out, " ", u64::from(second.get()))
}

/// What happened to a row. `freed` is the frame that a page gave back.
fn push_change(out: &mut Bytes, change: &Change, freed: Option<FrameNo>) -> Result<(), NoMemory>
    ensures { OnOk result (out.new.items ≡ out.old.items ++ change_text change.now freed) }
{
    match change {
        Change::Create {
            serial,
            first,
            second,
        } => push_create(out, serial, *first, *second),
        Change::Assign { page, frame } => {
            push_assign(out, "assign page ", *page, " frame ", *frame)
        }
        Change::Free { page } => {
            push_numbered(out, "free page ", u64::from(page.get()))?;
            push_text(out, " frame ")?;
            push_frame(out, freed)
        }
        Change::Staged { cylinder } => push_cylinder(out, "staged cylinder ", *cylinder),
        Change::Changed { cylinder } => push_cylinder(out, "changed cylinder ", *cylinder),
        Change::Destaged { cylinder } => push_cylinder(out, "destaged cylinder ", *cylinder),
        Change::Protect { on: true } => push_text(out, "protect on"),
        Change::Protect { on: false } => push_text(out, "protect off"),
    }
}

/// The line of the change at this place of the console.
#[tactic(auto, unfolding(crate::specs::Texts::change_line))]
pub fn push_change_line(
    out: &mut Bytes,
    number: u64,
    volume: VolumeNo,
    change: &Change,
    freed: Option<FrameNo>,
) -> Result<(), NoMemory>
    ensures { OnOk result (out.new.items ≡ out.old.items
        ++ change_line number volume change.now freed) }
{
    push_numbered(out, "change ", number)?;
    push_numbered(out, " volume ", u64::from(volume.get()))?;
    push_text(out, " ")?;
    push_change(out, change, freed)?;
    push_text(out, "\n")
}
