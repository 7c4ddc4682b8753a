//! The text of a comparison.
ghost use Rattle.std.specs.Prelude.{◌≡◌};
ghost use Rattle.mss_base.specs.Counts.{HasCause};
ghost use Rattle.mss_base.specs.Puts.{Puts};
ghost use Rattle.session_report.specs.Summaries.{count_of};
ghost use Rattle.session_report.specs.declared.summing.Kind.TheVariants as kind;
ghost use Rattle.compared_runs.specs.Texts.{closing_text, word_and_count, counted_last, counts_text};
ghost use Rattle.compared_runs.specs.Texts.{lines_text, name_at, named_text, policies_text};
ghost use Rattle.compared_runs.specs.Texts.{given_back_text, policies_title, policy_line, sessions_text};

use core_state::{Message, Session};
use mss_base::{Failed, Sink};
use report_text::{
    OneLine, put_end, put_limit, put_line, put_numbered, put_pieces, put_stopped, put_text,
};
use serial_driver::DriveAnswer;
use volume_table::Change;

/// How often a cylinder was staged.
fn staged(console: &[Message]) -> usize
    ensures { result ≡ count_of kind.Staged console.now }
{
    console
        .iter()
        .filter(|message| matches!(message.change, Change::Staged { .. }))
        .count()
}

/// How often a cylinder was destaged.
fn destaged(console: &[Message]) -> usize
    ensures { result ≡ count_of kind.Destaged console.now }
{
    console
        .iter()
        .filter(|message| matches!(message.change, Change::Destaged { .. }))
        .count()
}

/// How often a page gave its frame back.
fn freed(console: &[Message]) -> usize
    ensures { result ≡ count_of kind.Free console.now }
{
    console
        .iter()
        .filter(|message| matches!(message.change, Change::Free { .. }))
        .count()
}

/// The name of the n-th chooser, from 1.
#[tactic(auto, unfolding(crate::specs::Texts::name_at))]
fn name_at(number: u64) -> &'static str
    ensures { result.now ≡ name_at number }
{
    if number == 1 {
        return "lru";
    }
    if number == 2 {
        return "clean";
    }
    if number == 3 {
        return "quota:1";
    }
    "other"
}

/// Puts a word and a count.
#[tactic(auto, unfolding(crate::specs::Texts::word_and_count))]
fn put_counted<O: Sink>(output: &mut O, word: &str, count: u64) -> Result<(), Failed>
    ensures bytes { O.tells → Puts result (O.told output.old) (O.told output.new)
        (word_and_count word.now count) }
    ensures cause { HasCause (O.faults output.old) (O.faults output.new) result }
{
    let mut digits = itoa::Buffer::new();
    put_pieces(output, &[word, digits.format(count)])
}

/// Puts a word and a count at the end of a line.
#[tactic(auto, unfolding(crate::specs::Texts::counted_last))]
fn put_counted_last<O: Sink>(output: &mut O, word: &str, count: u64) -> Result<(), Failed>
    ensures bytes { O.tells → Puts result (O.told output.old) (O.told output.new)
        (counted_last word.now count) }
    ensures cause { HasCause (O.faults output.old) (O.faults output.new) result }
{
    put_numbered(output, word, count)
}

/// Puts how often a cylinder was destaged, and a page gave its frame back.
#[tactic(auto, unfolding(crate::specs::Texts::given_back_text))]
fn put_given_back<O: Sink>(output: &mut O, console: &[Message]) -> Result<(), Failed>
    ensures bytes { O.tells → Puts result (O.told output.old) (O.told output.new)
        (given_back_text console.now) }
    ensures cause { HasCause (O.faults output.old) (O.faults output.new) result }
{
    put_counted(output, " destaged ", destaged(console) as u64)?;
    put_counted_last(output, " free ", freed(console) as u64)
}

/// Puts what a console counts.
#[tactic(auto, unfolding(crate::specs::Texts::counts_text))]
fn put_counts<O: Sink>(output: &mut O, console: &[Message]) -> Result<(), Failed>
    ensures bytes { O.tells → Puts result (O.told output.old) (O.told output.new)
        (counts_text console.now) }
    ensures cause { HasCause (O.faults output.old) (O.faults output.new) result }
{
    put_counted(output, " staged ", staged(console) as u64)?;
    put_given_back(output, console)
}

/// Puts the name of a chooser.
#[tactic(auto, unfolding(crate::specs::Texts::named_text))]
fn put_named<O: Sink>(output: &mut O, name: &str) -> Result<(), Failed>
    ensures bytes { O.tells → Puts result (O.told output.old) (O.told output.new)
        (named_text name.now) }
    ensures cause { HasCause (O.faults output.old) (O.faults output.new) result }
{
    put_pieces(output, &["policy ", name])
}

/// Puts the line of the n-th chooser's session.
fn put_policy<O: Sink>(output: &mut O, number: u64, session: &Session) -> Result<(), Failed>
    ensures bytes { O.tells → Puts result (O.told output.old) (O.told output.new)
        (policy_line number session.now) }
    ensures cause { HasCause (O.faults output.old) (O.faults output.new) result }
{
    put_named(output, name_at(number))?;
    put_counts(output, session.console.as_slice())
}

/// Puts a line for each session.
#[tactic(auto, unfolding(crate::specs::Texts::lines_text))]
fn put_lines<O: Sink>(output: &mut O, sessions: &[Session]) -> Result<(), Failed>
    ensures bytes { O.tells → Puts result (O.told output.old) (O.told output.new)
        (lines_text sessions.now) }
    ensures cause { HasCause (O.faults output.old) (O.faults output.new) result }
{
    let mut number = 1;
    for session in sessions {
        put_policy(output, number, session)?;
        number += 1;
    }
    Ok(())
}

/// Puts the first line.
#[tactic(auto, unfolding(crate::specs::Texts::policies_title))]
fn put_title<O: Sink>(output: &mut O) -> Result<(), Failed>
    ensures bytes { O.tells → Puts result (O.told output.old) (O.told output.new)
        policies_title }
    ensures cause { HasCause (O.faults output.old) (O.faults output.new) result }
{
    put_text(output, "MSS POLICIES 1\n")
}

/// Puts the last line.
fn put_closing<O: Sink>(output: &mut O, end: DriveAnswer) -> Result<(), Failed>
    ensures bytes { O.tells → Puts result (O.told output.old) (O.told output.new)
        (closing_text end) }
    ensures cause { HasCause (O.faults output.old) (O.faults output.new) result }
{
    match end {
        DriveAnswer::Done => put_end(output),
        DriveAnswer::CommandLimit => put_limit(output),
        DriveAnswer::Stopped { fault } => put_stopped(output, fault),
        DriveAnswer::Memory => put_line(output, &OneLine::WantOfMemory),
    }
}

/// Puts all lines but the first.
#[tactic(auto, unfolding(crate::specs::Texts::sessions_text))]
fn put_sessions<O: Sink>(
    output: &mut O,
    sessions: &[Session],
    end: DriveAnswer,
) -> Result<(), Failed>
    ensures bytes { O.tells → Puts result (O.told output.old) (O.told output.new)
        (sessions_text sessions.now end) }
    ensures cause { HasCause (O.faults output.old) (O.faults output.new) result }
{
    put_lines(output, sessions)?;
    put_closing(output, end)
}

/// Puts a comparison: a title, a line for each session with what its console counts, and a last line that says how it
/// ended. It wants no memory.
#[tactic(auto, unfolding(crate::specs::Texts::policies_text))]
pub fn put_policies<O: Sink>(
    output: &mut O,
    sessions: &[Session],
    end: DriveAnswer,
) -> Result<(), Failed>
    ensures bytes { O.tells → Puts result (O.told output.old) (O.told output.new)
        (policies_text sessions.now end) }
    ensures cause { HasCause (O.faults output.old) (O.faults output.new) result }
{
    put_title(output)?;
    put_sessions(output, sessions, end)
}
