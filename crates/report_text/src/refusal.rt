// Why a site is refused, as a line that wants no memory.
ghost use Rattle.std.specs.Prelude.{◌≡◌, ◌++◌, ℕ, codes, decimal};
ghost use Rattle.mss_base.specs.Counts.{HasCause};
ghost use Rattle.mss_base.specs.Puts.{Puts};
ghost use Rattle.report_text.specs.Refusals.{
  copy_name,
  half_text,
  number_text,
  numbered_half,
  page_text,
  part_text,
  refusal_text,
  refused_text,
  row_field_text,
};

use crate::pieces::{put_byte_pieces, put_numbered, put_pieces, put_place, put_text};
use mss_base::{CartridgeNo, Failed, FrameNo, Page, Serial, Sink, VolumeNo};
use shown_volumes::{Half, Refused};
use table_pair::TableCopy;
use volume_table::{RowFault, RowField};

// How the line of each kind of refusal begins, and how its text does behind other words.

const VOLUME: &str = "restart refused volume ";

const CARTRIDGE: &str = "restart refused cartridge ";

const FRAME: &str = "restart refused frame ";

const TORN_TRACK: &str = "restart refused torn track volume ";

const STAGED_DIFFERS: &str = "restart refused staged differs volume ";

const STOPPED: &str = "restart refused stopped fault ";

const OF_VOLUME: &str = "volume ";

const OF_CARTRIDGE: &str = "cartridge ";

const OF_FRAME: &str = "frame ";

const OF_TORN_TRACK: &str = "torn track volume ";

const OF_STAGED_DIFFERS: &str = "staged differs volume ";

const OF_STOPPED: &str = "stopped fault ";

/// What such a line says of a copy that counts and spells no row.
const ROW: &str = " row ";

/// How a line names a copy of the table.
pub fn copy_name(copy: TableCopy) -> &'static str
    ensures { result.now ≡ copy_name copy }
{
    match copy {
        TableCopy::A => "A",
        TableCopy::B => "B",
    }
}

/// How a line names a field of a row: its kind, and its place where there are several of that kind.
fn field_name(field: RowField) -> (&'static str, Option<u16>)
    ensures { result.0.now ++ number_text result.1 ≡ row_field_text field }
{
    match field {
        RowField::Version => ("version", None),
        RowField::Serial(place) => ("serial ", Some(u16::from(place))),
        RowField::First => ("first", None),
        RowField::Second => ("second", None),
        RowField::Page(page) => ("page ", Some(u16::from(page))),
        RowField::Spare(place) => ("spare ", Some(u16::from(place))),
        RowField::Mark => ("mark", None),
        RowField::State(cylinder) => ("state ", Some(cylinder)),
        RowField::Slot(number) => ("slot ", Some(number)),
    }
}

/// The digits of a number, if there is one.
fn digits_of(digits: &mut itoa::Buffer, number: Option<u16>) -> &str
    ensures { result.now ≡ number_text number }
{
    match number {
        Some(number) => digits.format(number),
        None => "",
    }
}

fn put_damaged<O: Sink>(
    output: &mut O,
    text: &'static str,
    volume: VolumeNo,
    copy: &'static str,
    word: &'static str,
    field: (&'static str, Option<u16>),
    value: u16,
) -> Result<(), Failed>
    ensures bytes { O.tells → Puts result (O.told output.old) (O.told output.new)
        (text.now ++ decimal volume ++ codes " copy " ++ copy.now ++ word.now
        ++ (field.entry.0.now ++ number_text field.entry.1) ++ codes " value " ++ decimal value
        ++ codes "\n") }
    ensures cause { HasCause (O.faults output.old) (O.faults output.new) result }
{
    let mut volume_digits = itoa::Buffer::new();
    let mut place_digits = itoa::Buffer::new();
    let mut value_digits = itoa::Buffer::new();
    let pieces = [
        text,
        volume_digits.format(volume.get()),
        " copy ",
        copy,
        word,
        field.0,
        digits_of(&mut place_digits, field.1),
        " value ",
        value_digits.format(value),
        "\n",
    ];
    put_pieces(output, &pieces)
}

/// Puts a line on a copy that spells no row, by ten calls: `text` and the volume, the copy, what `word` says of it, and the
/// field at fault with its value.
pub fn put_row_damaged<O: Sink>(
    output: &mut O,
    text: &'static str,
    volume: VolumeNo,
    copy: TableCopy,
    word: &'static str,
    fault: &RowFault,
) -> Result<(), Failed>
    ensures bytes { O.tells → Puts result (O.told output.old) (O.told output.new)
        (text.now ++ decimal volume ++ codes " copy " ++ copy_name copy ++ word.now
        ++ row_field_text fault.now.field ++ codes " value " ++ decimal fault.now.value
        ++ codes "\n") }
    ensures cause { HasCause (O.faults output.old) (O.faults output.new) result }
{
    let field = field_name(fault.field);
    put_damaged(
        output,
        text,
        volume,
        copy_name(copy),
        word,
        field,
        fault.value,
    )
}

fn put_row_unread<O: Sink>(
    output: &mut O,
    text: &'static str,
    volume: VolumeNo,
    fault: u64,
) -> Result<(), Failed>
    ensures bytes { O.tells → Puts result (O.told output.old) (O.told output.new)
        (text.now ++ decimal volume ++ codes " unread fault " ++ decimal fault ++ codes "\n") }
    ensures cause { HasCause (O.faults output.old) (O.faults output.new) result }
{
    let mut volume_digits = itoa::Buffer::new();
    let mut fault_digits = itoa::Buffer::new();
    let pieces = [
        text,
        volume_digits.format(volume.get()),
        " unread fault ",
        fault_digits.format(fault),
        "\n",
    ];
    put_pieces(output, &pieces)
}

fn put_serial_differs<'a, O: Sink>(
    output: &mut O,
    text: &'a str,
    volume: VolumeNo,
    kept: &'a Serial,
    asked: &'a Serial,
) -> Result<(), Failed>
    ensures bytes { O.tells → Puts result (O.told output.old) (O.told output.new)
        (text.now ++ decimal volume ++ codes " serial " ++ kept.now ++ codes " asked " ++ asked.now
        ++ codes "\n") }
    ensures cause { HasCause (O.faults output.old) (O.faults output.new) result }
{
    let mut digits = itoa::Buffer::new();
    let pieces = [
        text.as_bytes(),
        digits.format(volume.get()).as_bytes(),
        b" serial ",
        kept.as_slice(),
        b" asked ",
        asked.as_slice(),
        b"\n",
    ];
    put_byte_pieces(output, &pieces)
}

fn put_frame_gone<O: Sink>(output: &mut O, text: &str, frame: FrameNo) -> Result<(), Failed>
    ensures bytes { O.tells → Puts result (O.told output.old) (O.told output.new)
        (text.now ++ decimal frame ++ codes " gone\n") }
    ensures cause { HasCause (O.faults output.old) (O.faults output.new) result }
{
    let mut digits = itoa::Buffer::new();
    put_pieces(output, &[text, digits.format(frame.get()), " gone\n"])
}

/// Puts a line on a number that two parts of volumes have, each part given by its volume and its own number.
fn put_twice<O: Sink>(
    output: &mut O,
    text: &'static str,
    number: u16,
    word: &'static str,
    first: (u8, u8),
    second: (u8, u8),
) -> Result<(), Failed>
    ensures bytes { O.tells → Puts result (O.told output.old) (O.told output.new)
        (text.now ++ decimal number ++ codes " twice" ++ part_text word.now first
        ++ part_text word.now second ++ codes "\n") }
    ensures cause { HasCause (O.faults output.old) (O.faults output.new) result }
{
    let mut digits = itoa::Buffer::new();
    let mut first_volume = itoa::Buffer::new();
    let mut first_number = itoa::Buffer::new();
    let mut second_volume = itoa::Buffer::new();
    let mut second_number = itoa::Buffer::new();
    let pieces = [
        text,
        digits.format(number),
        " twice",
        " volume ",
        first_volume.format(first.0),
        word,
        first_number.format(first.1),
        " volume ",
        second_volume.format(second.0),
        word,
        second_number.format(second.1),
        "\n",
    ];
    put_pieces(output, &pieces)
}

/// The volume of a half, and the half's number.
fn numbered_half(half: &Half) -> (u8, u8)
    ensures { result ≡ numbered_half half.now }
{
    (half.volume.get(), if half.second { 2 } else { 1 })
}

fn put_cartridge_twice<O: Sink>(
    output: &mut O,
    text: &'static str,
    cartridge: CartridgeNo,
    first: &Half,
    second: &Half,
) -> Result<(), Failed>
    ensures bytes { O.tells → Puts result (O.told output.old) (O.told output.new)
        (text.now ++ decimal cartridge ++ codes " twice" ++ half_text first.now
        ++ half_text second.now ++ codes "\n") }
    ensures cause { HasCause (O.faults output.old) (O.faults output.new) result }
{
    let (first, second) = (numbered_half(first), numbered_half(second));
    put_twice(output, text, cartridge.get(), " half ", first, second)
}

/// The volume of a page, and the page's number.
fn numbered_page(page: (VolumeNo, Page)) -> (u8, u8)
    ensures { result ≡ page }
{
    (page.0.get(), page.1.get())
}

fn put_frame_twice<O: Sink>(
    output: &mut O,
    text: &'static str,
    frame: FrameNo,
    first: (VolumeNo, Page),
    second: (VolumeNo, Page),
) -> Result<(), Failed>
    ensures bytes { O.tells → Puts result (O.told output.old) (O.told output.new)
        (text.now ++ decimal frame ++ codes " twice" ++ page_text first ++ page_text second
        ++ codes "\n") }
    ensures cause { HasCause (O.faults output.old) (O.faults output.new) result }
{
    let (first, second) = (numbered_page(first), numbered_page(second));
    put_twice(
        output,
        text,
        u16::from(frame.get()),
        " page ",
        first,
        second,
    )
}

/// Puts the line of a refusal, by at most twelve calls. It wants no memory, since it tells want of memory too.
#[tactic(auto, unfolding(crate::specs::Refusals::refusal_text))]
pub fn put_refusal<O: Sink>(output: &mut O, refused: &Refused) -> Result<(), Failed>
    ensures bytes { O.tells → Puts result (O.told output.old) (O.told output.new)
        (refusal_text refused.now) }
    ensures cause { HasCause (O.faults output.old) (O.faults output.new) result }
{
    match refused {
        Refused::RowDamaged {
            volume,
            copy,
            fault,
        } => put_row_damaged(output, VOLUME, *volume, *copy, ROW, fault),
        Refused::RowUnread { volume, fault } => put_row_unread(output, VOLUME, *volume, *fault),
        Refused::SerialDiffers {
            volume,
            kept,
            asked,
        } => put_serial_differs(output, VOLUME, *volume, kept, asked),
        Refused::CartridgeTwice {
            cartridge,
            first,
            second,
        } => put_cartridge_twice(output, CARTRIDGE, *cartridge, first, second),
        Refused::FrameGone { frame } => put_frame_gone(output, FRAME, *frame),
        Refused::FrameTwice {
            frame,
            first,
            second,
        } => put_frame_twice(output, FRAME, *frame, *first, *second),
        Refused::TornTrack {
            volume,
            cylinder,
            head,
        } => put_place(output, TORN_TRACK, *volume, *cylinder, *head),
        Refused::StagedDiffers {
            volume,
            cylinder,
            head,
        } => put_place(output, STAGED_DIFFERS, *volume, *cylinder, *head),
        Refused::Stopped { fault } => put_numbered(output, STOPPED, *fault),
        Refused::Memory => put_text(output, "want of memory\n"),
    }
}

/// Puts what a refusal says, behind whatever begins its line, by at most twelve calls. It wants no memory.
#[tactic(auto, unfolding(crate::specs::Refusals::refused_text))]
pub fn put_refused<O: Sink>(output: &mut O, refused: &Refused) -> Result<(), Failed>
    ensures bytes { O.tells → Puts result (O.told output.old) (O.told output.new)
        (refused_text refused.now) }
    ensures cause { HasCause (O.faults output.old) (O.faults output.new) result }
{
    match refused {
        Refused::RowDamaged {
            volume,
            copy,
            fault,
        } => put_row_damaged(output, OF_VOLUME, *volume, *copy, ROW, fault),
        Refused::RowUnread { volume, fault } => put_row_unread(output, OF_VOLUME, *volume, *fault),
        Refused::SerialDiffers {
            volume,
            kept,
            asked,
        } => put_serial_differs(output, OF_VOLUME, *volume, kept, asked),
        Refused::CartridgeTwice {
            cartridge,
            first,
            second,
        } => put_cartridge_twice(output, OF_CARTRIDGE, *cartridge, first, second),
        Refused::FrameGone { frame } => put_frame_gone(output, OF_FRAME, *frame),
        Refused::FrameTwice {
            frame,
            first,
            second,
        } => put_frame_twice(output, OF_FRAME, *frame, *first, *second),
        Refused::TornTrack {
            volume,
            cylinder,
            head,
        } => put_place(output, OF_TORN_TRACK, *volume, *cylinder, *head),
        Refused::StagedDiffers {
            volume,
            cylinder,
            head,
        } => put_place(output, OF_STAGED_DIFFERS, *volume, *cylinder, *head),
        Refused::Stopped { fault } => put_numbered(output, OF_STOPPED, *fault),
        Refused::Memory => put_text(output, "want of memory\n"),
    }
}
