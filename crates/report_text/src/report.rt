// The parts of a report, each put into a sink.
ghost use Rattle.std.specs.Prelude.{◌≡◌, ◌≢◌, [], IsOk, IsErrOf, IsOkUnless, OnOk, OnErr};
ghost use Rattle.mss_base.specs.Counts.{HasCause};
ghost use Rattle.mss_base.specs.Puts.{Puts, PutsFront};
ghost use Rattle.ckd_track.specs.Track.{reading};
ghost use Rattle.report_text.specs.Causes.{HasOutputCause};
ghost use Rattle.report_text.specs.Waiting.{PutsWaiting};
ghost use Rattle.report_text.specs.Texts.{
  numbered_lines,
  entry_text,
  history_text,
  change_line,
  track_text,
  heading_text,
  end_text,
  limit_text,
  stopped_text,
  listing_title,
};

use crate::changes::push_change_line;
use crate::pieces::{put_numbered, put_text};
use crate::text::{push_entry, push_heading, push_track};
use ckd_plain::Entry;
use ckd_track::stored_records;
use mss_base::{Block, Bytes, Cylinder, Failed, FrameNo, Head, NoMemory, Serial, Sink, VolumeNo};
use volume_table::Change;

/// Why a part of a report wasn't put whole. A front of it was.
#[derive(Clone, Copy, PartialEq, Eq)]
pub enum ReportFault {
    /// The sink failed.
    Output,
    /// Memory ran out.
    Memory,
}

impl From<Failed> for ReportFault {
    ghost use Rattle.std.specs.Prelude.{◌≡◌};
    ghost use Rattle.report_text.specs.declared.report.ReportFault.TheVariants.{Output};

    ghost from_gives = { λ _ e. e ≡ Output };

    fn from(_: Failed) -> Self {
        ReportFault::Output
    }
}

impl From<NoMemory> for ReportFault {
    ghost use Rattle.std.specs.Prelude.{◌≡◌};
    ghost use Rattle.report_text.specs.declared.report.ReportFault.TheVariants.{Memory};

    ghost from_gives = { λ _ e. e ≡ Memory };

    fn from(_: NoMemory) -> Self {
        ReportFault::Memory
    }
}

/// So many bytes of lines are enough for a call of the sink: as many as std's buffers hold, which let them through.
const ENOUGH: usize = 8192;

/// Puts bytes that stand ready.
fn put_bytes<O: Sink>(output: &mut O, bytes: &[u8]) -> Result<(), ReportFault>
    ensures bytes { O.tells → Puts result (O.told output.old) (O.told output.new) bytes.now }
    ensures cause { HasOutputCause (O.faults output.old) (O.faults output.new) result }
    ensures no_memory { IsOkUnless result ReportFault.Output }
{
    output.put(bytes)?;
    Ok(())
}

/// Puts the lines that wait in the buffer, where they are enough for a call.
fn put_waiting<O: Sink>(output: &mut O, buffer: &mut Bytes) -> Result<(), ReportFault>
    ensures put { O.tells → OnOk result
        (PutsWaiting (O.told output.old) buffer.old.items (O.told output.new) buffer.new.items) }
    ensures front { O.tells → OnErr result
        (PutsFront (O.told output.old) (O.told output.new) buffer.old.items) }
    ensures cause { HasOutputCause (O.faults output.old) (O.faults output.new) result }
{
    if buffer.as_slice().len() < ENOUGH {
        return Ok(());
    }
    put_bytes(output, buffer.as_slice())?;
    buffer.truncate(0);
    Ok(())
}

fn put_entries<O: Sink>(
    output: &mut O,
    buffer: &mut Bytes,
    entries: &[Entry],
) -> Result<(), ReportFault>
    ensures bytes { O.tells → Puts result (O.told output.old) (O.told output.new)
        (numbered_lines entry_text 1 entries.now) }
    ensures cause { HasOutputCause (O.faults output.old) (O.faults output.new) result }
{
    let mut number = 1;
    buffer.truncate(0);
    for entry in entries {
        push_entry(buffer, number, entry)?;
        put_waiting(output, buffer)?;
        number += 1;
    }
    put_bytes(output, buffer.as_slice())
}

/// Puts the first line of a report by one call, and then the lines of its entries, some thousands of bytes by each.
///
/// The first line wants no memory. The content of the buffer means nothing afterwards.
pub fn put_history<O: Sink>(
    output: &mut O,
    buffer: &mut Bytes,
    entries: &[Entry],
) -> Result<(), ReportFault>
    ensures bytes { O.tells → Puts result (O.told output.old) (O.told output.new)
        (history_text entries.now) }
    ensures cause { HasOutputCause (O.faults output.old) (O.faults output.new) result }
    ensures begun { O.tells → IsErrOf result ReportFault.Memory
        → O.told output.new ≢ O.told output.old }
{
    put_text(output, "MSS REPORT 1\n")?;
    put_entries(output, buffer, entries)
}

/// Puts the line of the change at this place of the console, from 1, by one call.
///
/// `freed` is the frame that the page of a `Free` had before it, and None for every other change. The content of the
/// buffer means nothing afterwards.
pub fn put_change<O: Sink>(
    output: &mut O,
    buffer: &mut Bytes,
    number: u64,
    volume: VolumeNo,
    change: &Change,
    freed: Option<FrameNo>,
) -> Result<(), ReportFault>
    ensures bytes { O.tells → Puts result (O.told output.old) (O.told output.new)
        (change_line number volume change.now freed) }
    ensures cause { HasOutputCause (O.faults output.old) (O.faults output.new) result }
{
    buffer.truncate(0);
    push_change_line(buffer, number, volume, change, freed)?;
    put_bytes(output, buffer.as_slice())
}

/// Puts the heading of a volume: its number, its serial, and a word where hosts may only read it.
///
/// The content of the buffer means nothing afterwards.
pub fn put_heading<O: Sink>(
    output: &mut O,
    buffer: &mut Bytes,
    number: VolumeNo,
    serial: &Serial,
    read_only: bool,
) -> Result<(), ReportFault>
    ensures bytes { O.tells → Puts result (O.told output.old) (O.told output.new)
        (heading_text number serial.now read_only) }
    ensures cause { HasOutputCause (O.faults output.old) (O.faults output.new) result }
{
    buffer.truncate(0);
    push_heading(buffer, number, serial, read_only)?;
    put_bytes(output, buffer.as_slice())
}

/// Puts the track of a block of 16,384 bytes, by one call. Of a blank track it puts nothing and looks at one byte.
///
/// Records behind a bad one are none of the track's. The content of the buffer means nothing afterwards.
pub fn put_track<O: Sink>(
    output: &mut O,
    buffer: &mut Bytes,
    cylinder: Cylinder,
    head: Head,
    block: &Block,
) -> Result<(), ReportFault>
    ensures bytes { O.tells → Puts result (O.told output.old) (O.told output.new)
        (track_text cylinder head (reading block.now).records) }
    ensures blank { (reading block.now).records ≡ [] → IsOk result × (output.new ≡ output.old) }
    ensures cause { HasOutputCause (O.faults output.old) (O.faults output.new) result }
{
    let mut records = stored_records(block.as_slice());
    let Some(first) = records.next() else {
        return Ok(());
    };
    buffer.truncate(0);
    push_track(buffer, cylinder, head, &first, records)?;
    put_bytes(output, buffer.as_slice())
}

/// Puts the first line of a listing of volumes. It wants no memory.
#[tactic(auto, unfolding(crate::specs::Texts::listing_title))]
pub fn put_title<O: Sink>(output: &mut O) -> Result<(), Failed>
    ensures bytes { O.tells → Puts result (O.told output.old) (O.told output.new) listing_title }
    ensures cause { HasCause (O.faults output.old) (O.faults output.new) result }
{
    put_text(output, "MSS VOLUMES 1\n")
}

/// Puts the last line of a whole report. It wants no memory.
#[tactic(auto, unfolding(crate::specs::Texts::end_text))]
pub fn put_end<O: Sink>(output: &mut O) -> Result<(), Failed>
    ensures bytes { O.tells → Puts result (O.told output.old) (O.told output.new) end_text }
    ensures cause { HasCause (O.faults output.old) (O.faults output.new) result }
{
    put_text(output, "END\n")
}

/// Puts the last line of a report whose session came to the limit of its calls. It wants no memory.
#[tactic(auto, unfolding(crate::specs::Texts::limit_text))]
pub fn put_limit<O: Sink>(output: &mut O) -> Result<(), Failed>
    ensures bytes { O.tells → Puts result (O.told output.old) (O.told output.new) limit_text }
    ensures cause { HasCause (O.faults output.old) (O.faults output.new) result }
{
    put_text(output, "LIMIT\n")
}

/// Puts the last line of a report that a device's failure ended. It wants no memory.
///
/// `fault` is the count of faults then.
#[tactic(auto, unfolding(crate::specs::Texts::stopped_text))]
pub fn put_stopped<O: Sink>(output: &mut O, fault: u64) -> Result<(), Failed>
    ensures bytes { O.tells → Puts result (O.told output.old) (O.told output.new)
        (stopped_text fault) }
    ensures cause { HasCause (O.faults output.old) (O.faults output.new) result }
{
    put_numbered(output, "STOPPED ", fault)
}
