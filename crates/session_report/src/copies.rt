// What a report says of a copy of a volume.
ghost use Rattle.std.specs.Prelude.{◌≡◌, ◌++◌, codes, decimal};
ghost use Rattle.std.specs.List.{flat_map};
ghost use Rattle.std.specs.Option.{option_map};
ghost use Rattle.mss_base.specs.Puts.{Puts};
ghost use Rattle.report_text.specs.Causes.{HasOutputCause};
ghost use Rattle.report_text.specs.Texts.{track_text, tracks_text};
ghost use Rattle.session_report.specs.CopyTexts.{behind_text, copied_line, copied_tracks, copy_text};
ghost use Rattle.session_report.specs.CopyTexts.{failed_line, no_volume_line};
ghost use Rattle.session_report.specs.Reports.{TRACKS_OF_VOLUME};

use mss_base::{Bytes, CYLINDERS, Cylinder, HEADS, Head, Sink, VolumeNo};
use report_text::{ReportFault, put_pieces, put_track};
use volume_copy::{Copier, CopyState};

/// Puts the pieces of a line, one behind the other.
fn put_line<O: Sink>(output: &mut O, pieces: &[&str]) -> Result<(), ReportFault>
    ensures bytes { O.tells → Puts result (O.told output.old) (O.told output.new)
        (flat_map (λ piece. piece.now) pieces.now) }
    ensures cause { HasOutputCause (O.faults output.old) (O.faults output.new) result }
{
    put_pieces(output, pieces)?;
    Ok(())
}

/// Puts the line of a copy that ends in a text and a number.
fn put_numbered_copy<O: Sink>(
    output: &mut O,
    volume: VolumeNo,
    text: &str,
    number: u64,
) -> Result<(), ReportFault>
    ensures bytes { O.tells → Puts result (O.told output.old) (O.told output.new)
        (codes "copy " ++ decimal volume ++ text.now ++ decimal number ++ codes "\n") }
    ensures cause { HasOutputCause (O.faults output.old) (O.faults output.new) result }
{
    let mut volume_digits = itoa::Buffer::new();
    let mut digits = itoa::Buffer::new();
    let pieces = [
        "copy ",
        volume_digits.format(volume.get()),
        text,
        digits.format(number),
        "\n",
    ];
    put_line(output, &pieces)
}

/// Puts the line of a whole copy.
#[tactic(auto, unfolding(crate::specs::CopyTexts::copied_line))]
fn put_copied_line<O: Sink>(output: &mut O, volume: VolumeNo, point: u64) -> Result<(), ReportFault>
    ensures bytes { O.tells → Puts result (O.told output.old) (O.told output.new)
        (copied_line volume point) }
    ensures cause { HasOutputCause (O.faults output.old) (O.faults output.new) result }
{
    put_numbered_copy(output, volume, " after ", point)
}

/// Puts the line of a copy for which a read failed.
#[tactic(auto, unfolding(crate::specs::CopyTexts::failed_line))]
fn put_failed<O: Sink>(output: &mut O, volume: VolumeNo, fault: u64) -> Result<(), ReportFault>
    ensures bytes { O.tells → Puts result (O.told output.old) (O.told output.new)
        (failed_line volume fault) }
    ensures cause { HasOutputCause (O.faults output.old) (O.faults output.new) result }
{
    put_numbered_copy(output, volume, " failed fault ", fault)
}

/// Puts the line of a copy of a volume that wasn't there.
#[tactic(auto, unfolding(crate::specs::CopyTexts::no_volume_line))]
fn put_no_volume<O: Sink>(output: &mut O, volume: VolumeNo) -> Result<(), ReportFault>
    ensures bytes { O.tells → Puts result (O.told output.old) (O.told output.new)
        (no_volume_line volume) }
    ensures cause { HasOutputCause (O.faults output.old) (O.faults output.new) result }
{
    let mut digits = itoa::Buffer::new();
    let pieces = ["copy ", digits.format(volume.get()), " no volume\n"];
    put_line(output, &pieces)
}

/// Puts a track of a copy. Of one that is blank, or isn't taken, it puts nothing.
fn put_copied<O: Sink>(
    output: &mut O,
    line: &mut Bytes,
    copier: &Copier,
    cylinder: Cylinder,
    head: Head,
) -> Result<(), ReportFault>
    ensures bytes { O.tells → Puts result (O.told output.old) (O.told output.new)
        (track_text cylinder head (copied_tracks copier.now.tracks cylinder head)) }
    ensures cause { HasOutputCause (O.faults output.old) (O.faults output.new) result }
{
    let Some(block) = copier.track(cylinder, head) else {
        return Ok(());
    };
    put_track(output, line, cylinder, head, block)
}

/// Puts the tracks of a copy, by cylinder and head.
fn put_copied_tracks<O: Sink>(
    output: &mut O,
    line: &mut Bytes,
    copier: &Copier,
) -> Result<(), ReportFault>
    ensures bytes { O.tells → Puts result (O.told output.old) (O.told output.new)
        (tracks_text (copied_tracks copier.now.tracks) TRACKS_OF_VOLUME) }
    ensures cause { HasOutputCause (O.faults output.old) (O.faults output.new) result }
{
    for cylinder in 0..CYLINDERS {
        let Some(cylinder) = Cylinder::of(cylinder) else {
            unreachable!()
        };
        for head in 0..HEADS {
            let Some(head) = Head::of(head) else {
                unreachable!()
            };
            put_copied(output, line, copier, cylinder, head)?;
        }
    }
    Ok(())
}

/// Puts a whole copy: its line, and its tracks.
fn put_whole<O: Sink>(
    output: &mut O,
    line: &mut Bytes,
    copier: &Copier,
    point: u64,
) -> Result<(), ReportFault>
    ensures bytes { O.tells → Puts result (O.told output.old) (O.told output.new)
        (copied_line copier.now.volume point
        ++ tracks_text (copied_tracks copier.now.tracks) TRACKS_OF_VOLUME) }
    ensures cause { HasOutputCause (O.faults output.old) (O.faults output.new) result }
{
    put_copied_line(output, copier.volume(), point)?;
    put_copied_tracks(output, line, copier)
}

/// Puts a copy: whole with its tracks, or the line of why it isn't.
pub fn put_copy<O: Sink>(
    output: &mut O,
    line: &mut Bytes,
    copier: &Copier,
) -> Result<(), ReportFault>
    ensures bytes { O.tells → Puts result (O.told output.old) (O.told output.new)
        (copy_text copier.now) }
    ensures cause { HasOutputCause (O.faults output.old) (O.faults output.new) result }
{
    let (state, point) = copier.state();
    match state {
        CopyState::Whole => put_whole(output, line, copier, point),
        CopyState::NoVolume => put_no_volume(output, copier.volume()),
        CopyState::Failed { fault } => put_failed(output, copier.volume(), fault),
        CopyState::Armed | CopyState::Taking => Ok(()),
    }
}

/// Puts the copy that a session took, if it took one.
///
/// The content of the buffer means nothing afterwards.
pub fn put_behind<O: Sink>(
    output: &mut O,
    line: &mut Bytes,
    copy: Option<&Copier>,
) -> Result<(), ReportFault>
    ensures bytes { O.tells → Puts result (O.told output.old) (O.told output.new)
        (behind_text (option_map (λ c. c.now) copy.entry)) }
    ensures cause { HasOutputCause (O.faults output.old) (O.faults output.new) result }
{
    match copy {
        Some(copier) => put_copy(output, line, copier),
        None => Ok(()),
    }
}
