// The summary of a session: how many entries it has, and how many changes of each kind.
ghost use Rattle.std.specs.Prelude.{◌≡◌, length};
ghost use Rattle.mss_base.specs.Counts.{HasCause};
ghost use Rattle.mss_base.specs.Puts.{Puts};
ghost use Rattle.core_state.specs.Sessions.{session_data};
ghost use Rattle.session_report.specs.Reports.{ending_of};
ghost use Rattle.session_report.specs.Summaries.{
  count_line,
  count_of,
  counts_text,
  cylinders_text,
  ending_text,
  is_of,
  load_text,
  pages_text,
  summary_text,
};

use crate::reporting::{Last, put_last};
use ckd_plain::Entry;
use core_state::{Message, Session};
use mss_base::{Failed, Sink};
use report_text::{put_numbered, put_stopped};
use volume_table::Change;

/// A kind of change that a summary counts.
#[derive(Clone, Copy)]
pub enum Kind {
    /// A page got a frame.
    Assign,
    /// A page gave its frame back.
    Free,
    /// A cylinder came to stand in the frame of its page.
    Staged,
    /// A cylinder was about to be written.
    Changed,
    /// A changed cylinder was copied to its cartridge.
    Destaged,
}

/// Whether a change is of this kind.
fn is_of(kind: Kind, change: &Change) -> bool
    ensures { result ≡ is_of kind change.now }
{
    match kind {
        Kind::Assign => matches!(change, Change::Assign { .. }),
        Kind::Free => matches!(change, Change::Free { .. }),
        Kind::Staged => matches!(change, Change::Staged { .. }),
        Kind::Changed => matches!(change, Change::Changed { .. }),
        Kind::Destaged => matches!(change, Change::Destaged { .. }),
    }
}

/// How many changes of a kind the console tells.
fn count_of(kind: Kind, console: &[Message]) -> usize
    ensures { result ≡ count_of kind console.now }
{
    console
        .iter()
        .filter(|message| is_of(kind, &message.change))
        .count()
}

/// Puts a line of a word and a count.
#[tactic(auto, unfolding(crate::specs::Summaries::count_line))]
fn put_line<O: Sink>(output: &mut O, word: &str, count: u64) -> Result<(), Failed>
    ensures bytes { O.tells → Puts result (O.told output.old) (O.told output.new)
        (count_line word.now count) }
    ensures cause { HasCause (O.faults output.old) (O.faults output.new) result }
{
    put_numbered(output, word, count)
}

/// Puts the line of a kind of change, with its count.
fn put_count<O: Sink>(
    output: &mut O,
    word: &str,
    kind: Kind,
    console: &[Message],
) -> Result<(), Failed>
    ensures bytes { O.tells → Puts result (O.told output.old) (O.told output.new)
        (count_line word.now (count_of kind console.now)) }
    ensures cause { HasCause (O.faults output.old) (O.faults output.new) result }
{
    put_line(output, word, count_of(kind, console) as u64)
}

/// Puts the first line, and that of the entries.
fn put_load<O: Sink>(output: &mut O, programs: u32, history: &[Entry]) -> Result<(), Failed>
    ensures bytes { O.tells → Puts result (O.told output.old) (O.told output.new)
        (load_text programs history.now) }
    ensures cause { HasCause (O.faults output.old) (O.faults output.new) result }
{
    put_line(output, "MSS LOAD ", u64::from(programs))?;
    put_line(output, "entries ", history.len() as u64)
}

/// Puts the lines of the changes of pages.
fn put_pages<O: Sink>(output: &mut O, console: &[Message]) -> Result<(), Failed>
    ensures bytes { O.tells → Puts result (O.told output.old) (O.told output.new)
        (pages_text console.now) }
    ensures cause { HasCause (O.faults output.old) (O.faults output.new) result }
{
    put_count(output, "assign ", Kind::Assign, console)?;
    put_count(output, "free ", Kind::Free, console)
}

/// Puts the lines of the changes of cylinders.
fn put_cylinders<O: Sink>(output: &mut O, console: &[Message]) -> Result<(), Failed>
    ensures bytes { O.tells → Puts result (O.told output.old) (O.told output.new)
        (cylinders_text console.now) }
    ensures cause { HasCause (O.faults output.old) (O.faults output.new) result }
{
    put_count(output, "staged ", Kind::Staged, console)?;
    put_count(output, "changed ", Kind::Changed, console)?;
    put_count(output, "destaged ", Kind::Destaged, console)
}

/// Puts all counts of a session of so many programs.
fn put_counts<O: Sink>(
    output: &mut O,
    programs: u32,
    history: &[Entry],
    console: &[Message],
) -> Result<(), Failed>
    ensures bytes { O.tells → Puts result (O.told output.old) (O.told output.new)
        (counts_text programs history.now console.now) }
    ensures cause { HasCause (O.faults output.old) (O.faults output.new) result }
{
    put_load(output, programs, history)?;
    put_pages(output, console)?;
    put_cylinders(output, console)
}

/// Puts the last line: that of a stop that the session keeps, or else this one.
fn put_closing<O: Sink>(output: &mut O, stopped: Option<u64>, last: Last) -> Result<(), Failed>
    ensures bytes { O.tells → Puts result (O.told output.old) (O.told output.new)
        (ending_text (ending_of stopped last)) }
    ensures cause { HasCause (O.faults output.old) (O.faults output.new) result }
{
    match stopped {
        Some(fault) => put_stopped(output, fault),
        None => put_last(output, last),
    }
}

/// Puts the summary of a session of so many programs: the counts of its entries and of its changes of each kind, and a
/// last line. A session that was stopped tells the fault in its last line. It wants no memory.
pub fn summary<O: Sink>(
    programs: u32,
    session: &Session,
    last: Last,
    output: &mut O,
) -> Result<(), Failed>
    ensures bytes { O.tells → Puts result (O.told output.old) (O.told output.new)
        (summary_text programs (session_data session.now) (ending_of session.now.stopped last)) }
    ensures cause { HasCause (O.faults output.old) (O.faults output.new) result }
{
    let history = session.history.as_slice();
    put_counts(output, programs, history, session.console.as_slice())?;
    put_closing(output, session.stopped, last)
}
