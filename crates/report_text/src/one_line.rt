// Outputs of one line in place of a report.
ghost use Rattle.std.specs.Prelude.{◌≡◌};
ghost use Rattle.mss_base.specs.Counts.{HasCause};
ghost use Rattle.mss_base.specs.Puts.{Puts};
ghost use Rattle.report_text.specs.OneLines.{kind_name, one_line_text};

use crate::pieces::{put_numbered_word, put_text};
use crate::refusal::put_refusal;
use job_text::JobKind;
use mss_base::{Failed, Sink};
use shown_volumes::Refused;

/// An output of one line in place of a report.
#[derive(Clone, Copy)]
pub enum OneLine {
    WordsRefused,
    InputFault,
    /// A bad line of the job text, counted from 1, and why it is bad; line 0 where the text is too big.
    JobRefused { line: u32, kind: JobKind },
    /// The site was refused.
    RestartRefused(Refused),
    WantOfMemory,
}

/// How a report names a kind of bad lines.
fn kind_name(kind: JobKind) -> &'static str
    ensures { result.now ≡ kind_name kind }
{
    match kind {
        JobKind::TooBig => "TooBig",
        JobKind::BadByte => "BadByte",
        JobKind::After => "After",
        JobKind::Unknown => "Unknown",
        JobKind::Shape => "Shape",
        JobKind::Range => "Range",
        JobKind::Twice => "Twice",
        JobKind::Absent => "Absent",
        JobKind::Count => "Count",
        JobKind::Ended => "Ended",
    }
}

/// Puts an output of one line, by at most twelve calls. It wants no memory, since it tells want of memory too.
#[tactic(auto, unfolding(crate::specs::OneLines::one_line_text))]
pub fn put_line<O: Sink>(output: &mut O, line: &OneLine) -> Result<(), Failed>
    ensures bytes { O.tells → Puts result (O.told output.old) (O.told output.new)
        (one_line_text line.now) }
    ensures cause { HasCause (O.faults output.old) (O.faults output.new) result }
{
    match *line {
        OneLine::WordsRefused => put_text(output, "words refused\n"),
        OneLine::InputFault => put_text(output, "input fault\n"),
        OneLine::JobRefused { line, kind } => {
            put_numbered_word(output, "job refused line ", line, kind_name(kind))
        }
        OneLine::RestartRefused(refused) => put_refusal(output, &refused),
        OneLine::WantOfMemory => put_text(output, "want of memory\n"),
    }
}
