// The lines of a report, each put at the end of a buffer.
ghost use Rattle.std.specs.Prelude.{◌≡◌, ◌++◌, ◌∷◌, OnOk, codes, decimal};
ghost use Rattle.std.specs.List.{flat_map};
ghost use Rattle.channel_commands.specs.Views.{call_of, reply_of};
ghost use Rattle.report_text.specs.Texts.{
  data_text,
  field_text,
  fault_text,
  call_text,
  reply_text,
  entry_text,
  record_text,
  track_line,
  track_text,
  heading_text,
};

use channel_commands::{Call, Reply};
use ckd_plain::Entry;
use ckd_track::{StoredRecord, StoredRecords};
use job_text::{push_hex, push_hex_byte};
use mss_base::{Bytes, Cylinder, Head, HostNo, NoMemory, Serial, VolumeNo};

pub fn push_text(out: &mut Bytes, text: &str) -> Result<(), NoMemory>
    ensures { OnOk result (out.new.items ≡ out.old.items ++ text.now) }
{
    out.append(text.as_bytes())
}

pub fn push_number(out: &mut Bytes, number: u64) -> Result<(), NoMemory>
    ensures { OnOk result (out.new.items ≡ out.old.items ++ decimal number) }
{
    let mut digits = itoa::Buffer::new();
    push_text(out, digits.format(number))
}

fn push_data(out: &mut Bytes, bytes: &[u8]) -> Result<(), NoMemory>
    ensures { OnOk result (out.new.items ≡ out.old.items ++ data_text bytes.now) }
{
    if bytes.is_empty() {
        return Ok(());
    }
    push_text(out, " data ")?;
    push_hex(out, bytes)
}

fn push_field(out: &mut Bytes, bytes: &[u8]) -> Result<(), NoMemory>
    ensures { OnOk result (out.new.items ≡ out.old.items ++ field_text bytes.now) }
{
    if bytes.is_empty() {
        return push_text(out, "-");
    }
    push_hex(out, bytes)
}

fn push_call(out: &mut Bytes, call: &Call) -> Result<(), NoMemory>
    ensures { OnOk result (out.new.items ≡ out.old.items ++ call_text (call_of call.now)) }
{
    match call {
        Call::Mount { volume, bind } => {
            push_text(out, "mount ")?;
            push_number(out, u64::from(volume.get()))?;
            push_text(out, if *bind { " bind" } else { "" })
        }
        Call::Demount => push_text(out, "demount"),
        Call::Command(command) => {
            push_text(out, "ccw ")?;
            push_hex_byte(out, command.code)
        }
        Call::Break { .. } => push_text(out, "break"),
    }
}

fn push_fault(out: &mut Bytes, fault: Option<u64>) -> Result<(), NoMemory>
    ensures { OnOk result (out.new.items ≡ out.old.items ++ fault_text fault) }
{
    match fault {
        Some(number) => {
            push_text(out, " fault ")?;
            push_number(out, number)
        }
        None => Ok(()),
    }
}

fn push_with_fault(out: &mut Bytes, text: &str, fault: Option<u64>) -> Result<(), NoMemory>
    ensures { OnOk result (out.new.items ≡ out.old.items ++ (text.now ++ fault_text fault)) }
{
    push_text(out, text)?;
    push_fault(out, fault)
}

fn push_reply(out: &mut Bytes, reply: &Reply, fault: Option<u64>) -> Result<(), NoMemory>
    ensures { OnOk result (out.new.items ≡ out.old.items ++ reply_text (reply_of reply.now) fault) }
{
    match reply {
        Reply::Done { status, bytes } => {
            push_text(out, "status ")?;
            push_hex_byte(out, *status)?;
            push_data(out, bytes.as_slice())
        }
        Reply::Mounted => push_text(out, "mounted"),
        Reply::Demounted => push_text(out, "demounted"),
        Reply::AlreadyMounted => push_text(out, "already mounted"),
        Reply::NotMounted => push_text(out, "not mounted"),
        Reply::NoVolume => push_text(out, "no volume"),
        Reply::InChain => push_text(out, "in chain"),
        Reply::ProgramCheck => push_text(out, "program check"),
        Reply::ChainLimit => push_text(out, "chain limit"),
        Reply::EquipmentCheck => push_with_fault(out, "equipment check", fault),
        Reply::NoSpace => push_text(out, "no space"),
        Reply::Stopped => push_with_fault(out, "stopped", fault),
    }
}

/// What stands between the number of an entry and its call. A host's number has one digit, so the piece is a text that is
/// there already.
fn host_text(host: HostNo) -> &'static str
    ensures { result.now ≡ codes " host " ++ decimal host ++ codes " " }
{
    match host.get() {
        1 => " host 1 ",
        2 => " host 2 ",
        3 => " host 3 ",
        4 => " host 4 ",
        5 => " host 5 ",
        6 => " host 6 ",
        7 => " host 7 ",
        8 => " host 8 ",
        _ => unreachable!(),
    }
}

/// The line of the entry at this place of the history.
#[tactic(auto, unfolding(crate::specs::Texts::entry_text))]
pub fn push_entry(out: &mut Bytes, number: u64, entry: &Entry) -> Result<(), NoMemory>
    ensures { OnOk result (out.new.items ≡ out.old.items ++ entry_text number entry.now) }
{
    push_text(out, "entry ")?;
    push_number(out, number)?;
    push_text(out, host_text(entry.host))?;
    push_call(out, &entry.call)?;
    push_text(out, " ")?;
    push_reply(out, &entry.reply, entry.fault)?;
    push_text(out, "\n")
}

#[tactic(auto, unfolding(crate::specs::Texts::record_text))]
fn push_record(out: &mut Bytes, stored: &StoredRecord<'_>) -> Result<(), NoMemory>
    ensures { OnOk result (out.new.items ≡ out.old.items ++ record_text stored.now) }
{
    push_text(out, "record ")?;
    push_hex(out, &stored.id)?;
    push_text(out, " ")?;
    push_field(out, stored.key)?;
    push_text(out, " ")?;
    push_field(out, stored.body)?;
    push_text(out, "\n")
}

fn push_records(out: &mut Bytes, records: StoredRecords<'_>) -> Result<(), NoMemory>
    ensures { OnOk result (out.new.items
        ≡ out.old.items ++ flat_map record_text records.entry.records) }
{
    for record in records {
        push_record(out, &record)?;
    }
    Ok(())
}

#[tactic(auto, unfolding(crate::specs::Texts::track_line))]
fn push_track_line(out: &mut Bytes, cylinder: Cylinder, head: Head) -> Result<(), NoMemory>
    ensures { OnOk result (out.new.items ≡ out.old.items ++ track_line cylinder head) }
{
    push_text(out, "track ")?;
    push_number(out, u64::from(cylinder.get()))?;
    push_text(out, " ")?;
    push_number(out, u64::from(head.get()))?;
    push_text(out, "\n")
}

/// The lines of a track, of which the first record is read already.
#[tactic(auto, unfolding(crate::specs::Texts::track_text))]
pub fn push_track(
    out: &mut Bytes,
    cylinder: Cylinder,
    head: Head,
    first: &StoredRecord<'_>,
    others: StoredRecords<'_>,
) -> Result<(), NoMemory>
    ensures { OnOk result (out.new.items ≡ out.old.items
        ++ track_text cylinder head (first.now ∷ others.entry.records)) }
{
    push_track_line(out, cylinder, head)?;
    push_record(out, first)?;
    push_records(out, others)
}

#[tactic(auto, unfolding(crate::specs::Texts::heading_text))]
pub fn push_heading(
    out: &mut Bytes,
    number: VolumeNo,
    serial: &Serial,
    read_only: bool,
) -> Result<(), NoMemory>
    ensures { OnOk result (out.new.items ≡ out.old.items
        ++ heading_text number serial.now read_only) }
{
    push_text(out, "volume ")?;
    push_number(out, u64::from(number.get()))?;
    push_text(out, " ")?;
    out.append(serial.as_slice())?;
    push_text(out, if read_only { " readonly" } else { "" })?;
    push_text(out, "\n")
}
