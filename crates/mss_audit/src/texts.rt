// The text of an audit, which wants no memory.
ghost use Rattle.std.specs.Prelude.{◌≡◌, ◌++◌, codes, decimal};
ghost use Rattle.mss_base.specs.Counts.{HasCause};
ghost use Rattle.mss_base.specs.Puts.{Puts};
ghost use Rattle.report_text.specs.Refusals.{copy_name};
ghost use Rattle.mss_audit.specs.Texts.{
  audit_text,
  audit_title,
  finding_line,
  finding_text,
  lines_text,
  number_text,
  rest_text,
  unread_text,
};

use crate::finding::Finding;
use mss_base::{Failed, Sink, VolumeNo};
use report_text::{
    copy_name, put_end, put_pieces, put_refused, put_row_damaged, put_stopped, put_text,
};
use table_pair::TableCopy;

/// How each line on the copies of a row begins.
const VOLUME: &str = "volume ";

/// What a line says of a copy that doesn't count and spells no row.
const ALSO_DAMAGED: &str = " also damaged ";

fn put_closed<O: Sink>(
    output: &mut O,
    text: &'static str,
    volume: VolumeNo,
    copy: &'static str,
) -> Result<(), Failed>
    ensures bytes { O.tells → Puts result (O.told output.old) (O.told output.new)
        (text.now ++ decimal volume ++ codes " copy " ++ copy.now ++ codes " closed\n") }
    ensures cause { HasCause (O.faults output.old) (O.faults output.new) result }
{
    let mut digits = itoa::Buffer::new();
    let pieces = [
        text,
        digits.format(volume.get()),
        " copy ",
        copy,
        " closed\n",
    ];
    put_pieces(output, &pieces)
}

fn put_copy_closed<O: Sink>(
    output: &mut O,
    text: &'static str,
    volume: VolumeNo,
    copy: TableCopy,
) -> Result<(), Failed>
    ensures bytes { O.tells → Puts result (O.told output.old) (O.told output.new)
        (text.now ++ decimal volume ++ codes " copy " ++ copy_name copy ++ codes " closed\n") }
    ensures cause { HasCause (O.faults output.old) (O.faults output.new) result }
{
    put_closed(output, text, volume, copy_name(copy))
}

fn put_differs<O: Sink>(
    output: &mut O,
    text: &'static str,
    volume: VolumeNo,
    place: u16,
    a: u8,
    b: u8,
) -> Result<(), Failed>
    ensures bytes { O.tells → Puts result (O.told output.old) (O.told output.new)
        (text.now ++ decimal volume ++ codes " copies differ place " ++ decimal place
        ++ codes " values " ++ decimal a ++ codes " " ++ decimal b ++ codes "\n") }
    ensures cause { HasCause (O.faults output.old) (O.faults output.new) result }
{
    let mut volume_digits = itoa::Buffer::new();
    let mut place_digits = itoa::Buffer::new();
    let mut a_digits = itoa::Buffer::new();
    let mut b_digits = itoa::Buffer::new();
    let pieces = [
        text,
        volume_digits.format(volume.get()),
        " copies differ place ",
        place_digits.format(place),
        " values ",
        a_digits.format(a),
        " ",
        b_digits.format(b),
        "\n",
    ];
    put_pieces(output, &pieces)
}

/// Puts what a finding says, by at most twelve calls.
#[tactic(auto, unfolding(crate::specs::Texts::finding_text))]
fn put_finding<O: Sink>(output: &mut O, finding: &Finding) -> Result<(), Failed>
    ensures bytes { O.tells → Puts result (O.told output.old) (O.told output.new)
        (finding_text finding.now) }
    ensures cause { HasCause (O.faults output.old) (O.faults output.new) result }
{
    match finding {
        Finding::Refusal(refused) => put_refused(output, refused),
        Finding::CopyClosed { volume, copy } => put_copy_closed(output, VOLUME, *volume, *copy),
        Finding::CopyDamaged {
            volume,
            copy,
            fault,
        } => put_row_damaged(output, VOLUME, *volume, *copy, ALSO_DAMAGED, fault),
        Finding::CopyDiffers {
            volume,
            place,
            a,
            b,
        } => put_differs(output, VOLUME, *volume, *place, *a, *b),
    }
}

/// Puts how the line of a finding begins.
#[tactic(auto, unfolding(crate::specs::Texts::number_text))]
fn put_number<O: Sink>(output: &mut O, number: u64) -> Result<(), Failed>
    ensures bytes { O.tells → Puts result (O.told output.old) (O.told output.new)
        (number_text number) }
    ensures cause { HasCause (O.faults output.old) (O.faults output.new) result }
{
    let mut digits = itoa::Buffer::new();
    put_pieces(output, &["finding ", digits.format(number), " "])
}

/// Puts the line of a finding.
#[tactic(auto, unfolding(crate::specs::Texts::finding_line))]
fn put_line<O: Sink>(output: &mut O, number: u64, finding: &Finding) -> Result<(), Failed>
    ensures bytes { O.tells → Puts result (O.told output.old) (O.told output.new)
        (finding_line number finding.now) }
    ensures cause { HasCause (O.faults output.old) (O.faults output.new) result }
{
    put_number(output, number)?;
    put_finding(output, finding)
}

/// Puts findings, numbered from 1, a line each.
#[tactic(auto, unfolding(crate::specs::Texts::lines_text))]
fn put_lines<O: Sink>(output: &mut O, findings: &[Finding]) -> Result<(), Failed>
    ensures bytes { O.tells → Puts result (O.told output.old) (O.told output.new)
        (lines_text findings.now) }
    ensures cause { HasCause (O.faults output.old) (O.faults output.new) result }
{
    let mut number = 1;
    for finding in findings {
        put_line(output, number, finding)?;
        number += 1;
    }
    Ok(())
}

#[tactic(auto, unfolding(crate::specs::Texts::audit_title))]
fn put_title<O: Sink>(output: &mut O) -> Result<(), Failed>
    ensures bytes { O.tells → Puts result (O.told output.old) (O.told output.new) audit_title }
    ensures cause { HasCause (O.faults output.old) (O.faults output.new) result }
{
    put_text(output, "MSS AUDIT 1\n")
}

/// Puts all that stands behind the title.
#[tactic(auto, unfolding(crate::specs::Texts::rest_text))]
fn put_rest<O: Sink>(output: &mut O, findings: &[Finding]) -> Result<(), Failed>
    ensures bytes { O.tells → Puts result (O.told output.old) (O.told output.new)
        (rest_text findings.now) }
    ensures cause { HasCause (O.faults output.old) (O.faults output.new) result }
{
    put_lines(output, findings)?;
    put_end(output)
}

/// Puts a whole audit.
#[tactic(auto, unfolding(crate::specs::Texts::audit_text))]
pub fn put_audit<O: Sink>(output: &mut O, findings: &[Finding]) -> Result<(), Failed>
    ensures bytes { O.tells → Puts result (O.told output.old) (O.told output.new)
        (audit_text findings.now) }
    ensures cause { HasCause (O.faults output.old) (O.faults output.new) result }
{
    put_title(output)?;
    put_rest(output, findings)
}

/// Puts what stands in place of an audit that a failed read ended, with the count of faults after it.
#[tactic(auto, unfolding(crate::specs::Texts::unread_text))]
pub fn put_unread<O: Sink>(output: &mut O, fault: u64) -> Result<(), Failed>
    ensures bytes { O.tells → Puts result (O.told output.old) (O.told output.new)
        (unread_text fault) }
    ensures cause { HasCause (O.faults output.old) (O.faults output.new) result }
{
    put_title(output)?;
    put_stopped(output, fault)
}
