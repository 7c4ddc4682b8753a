//! What the words ask for is done.
ghost use Rattle.std.specs.Prelude.{◌≡◌, ℕ, Bool, IfSome, None, Some, map, string_bytes};
ghost use Rattle.mss_base.specs.Content.{content};
ghost use Rattle.mss_base.specs.Sites.{OnlyReads};
ghost use Rattle.mss_base.specs.declared.place.UnitNo.{UnitNo};
ghost use Rattle.command_words.specs.Words.{IsWithin, meaning};
ghost use Rattle.command_words.specs.declared.command.Command.TheVariants.{Show, Audit};
ghost use Rattle.core_state.specs.Sessions.{session_data};
ghost use Rattle.mss_restart.specs.Creations.{WritesOn};
ghost use Rattle.session_report.specs.Parties.{sink_between, source_between};
ghost use Rattle.job_runs.specs.Parties.{devices};
ghost use Rattle.mss_top.specs.Obeying.{OutputBrokeOff, Does, IsWhole, parties};
ghost use Rattle.mss_top.specs.Showing.{IsShown, LooksByOneCopy};
ghost use Rattle.mss_top.specs.declared.status.Status.TheVariants.{Stopped};
ghost use Rattle.victim_rules.specs.Closures.{IsTest, NarrowMay};

use crate::admission::{Settings, command_in};
use crate::at_once::run_threads;
use crate::auditing::audit_for;
use crate::comparing::compare_beside;
use crate::ending::{Ended, refuse};
use crate::run::{policy, run_with};
use crate::showing::list_site;
use command_words::Command;
use mss_base::{Sink, Site, Source};
use mss_run::Gate;
use std::sync::Wait;
use std::thread::Threads;
use victim_choice::{Candidate, Choose};
use victim_rules::Narrow;

/// Does what was asked for.
fn carry_out<
    I: Source,
    O: Sink,
    S: Site + Send,
    C: Choose + Drop + Send,
    F: Fn(&Candidate) -> bool + Drop,
    G: Gate + Sync,
    R: Threads + Wait + Sync + AllocGlobal,
>(
    rt: &R,
    command: Command,
    input: &mut I,
    output: &mut O,
    site: S,
    chooser: C,
    other: Narrow<F>,
    gate: &G,
) -> Ended<S>
    requires able { C.can_choose chooser }
    requires test { IsTest F.Fn other }
    requires within { IsWithin command }
    ensures does { Does (Some command) (C.may chooser) (NarrowMay F.Fn other)
        (parties (source_between I.Source input.old input.new) (devices S.Site site result.site)
        (sink_between O.Sink output.old output.new)) result.status result.session }
    ensures unread { result.status ≡ Stopped → OutputBrokeOff S.Site site (Some command)
        (parties (source_between I.Source input.old input.new) (devices S.Site site result.site)
        (sink_between O.Sink output.old output.new)) result.session }
    ensures one_copy { LooksByOneCopy (Some command) S.Site site
        (sink_between O.Sink output.old output.new)
        → IsShown (content (S.told site))
        (sink_between O.Sink output.old output.new) result.status }
    ensures only_reads_fail { (but : UnitNo → Bool) → S.never_fails_but site but
        → IfSome result.session (λ s. (session_data s).stopped ≡ None) }
    ensures looks { command ≡ Show → OnlyReads S.Site site result.site }
    ensures audits { (frames : ℕ) → command ≡ Audit frames → OnlyReads S.Site site result.site }
    ensures devices { WritesOn S.Site site result.site }
{
    match command {
        Command::Serial {
            order,
            turns,
            load,
            copy,
        } => {
            let settings = Settings {
                order,
                turns,
                load,
                copy,
            };
            run_with(rt.alloc(), settings, input, output, site, chooser)
        }
        Command::Policy {
            rules,
            order,
            turns,
            load,
            copy,
        } => {
            let settings = Settings {
                order,
                turns,
                load,
                copy,
            };
            policy(rt.alloc(), rules, settings, input, output, site)
        }
        Command::Threads { copy } => run_threads(rt, copy, input, output, site, chooser, gate).run,
        Command::Show => list_site(rt.alloc(), output, site),
        Command::Audit { frames } => audit_for(rt.alloc(), frames, output, site),
        Command::Compare => compare_beside(rt.alloc(), input, output, site, other),
    }
}

/// Does what the words ask for on the site: the run of `serial`, that run by rules, the run of `threads`, the look of
/// `show`, the audit of `audit_site`, or, beside the site, the comparison of `compare`.
///
/// The words are read once. What each of the five says holds here of its command, and what `serial` says of a run by
/// rules, which choose in place of the chooser that is handed in. Words that ask for nothing are refused
/// by one line, before the input is read and the site is looked at.
pub fn obey<
    I: Source,
    O: Sink,
    S: Site + Send,
    C: Choose + Drop + Send,
    F: Fn(&Candidate) -> bool + Drop,
    G: Gate + Sync,
    R: Threads + Wait + Sync + AllocGlobal,
>(
    rt: &R,
    words: &[String],
    input: &mut I,
    output: &mut O,
    site: S,
    chooser: C,
    other: Narrow<F>,
    gate: &G,
) -> Ended<S>
    requires able { C.can_choose chooser }
    requires test { IsTest F.Fn other }
    ensures does { Does (meaning (map string_bytes words.now)) (C.may chooser)
        (NarrowMay F.Fn other)
        (parties (source_between I.Source input.old input.new) (devices S.Site site result.site)
        (sink_between O.Sink output.old output.new)) result.status result.session }
    ensures whole { IsWhole (meaning (map string_bytes words.now))
        (parties (source_between I.Source input.old input.new) (devices S.Site site result.site)
        (sink_between O.Sink output.old output.new)) result.status }
    ensures unread { result.status ≡ Stopped
        → OutputBrokeOff S.Site site (meaning (map string_bytes words.now))
        (parties (source_between I.Source input.old input.new) (devices S.Site site result.site)
        (sink_between O.Sink output.old output.new)) result.session }
    ensures one_copy { LooksByOneCopy (meaning (map string_bytes words.now)) S.Site site
        (sink_between O.Sink output.old output.new)
        → IsShown (content (S.told site))
        (sink_between O.Sink output.old output.new) result.status }
    ensures only_reads_fail { (but : UnitNo → Bool) → S.never_fails_but site but
        → IfSome result.session (λ s. (session_data s).stopped ≡ None) }
    ensures looks { meaning (map string_bytes words.now) ≡ Some Show
        → OnlyReads S.Site site result.site }
    ensures audits { (frames : ℕ) → meaning (map string_bytes words.now) ≡ Some (Audit frames)
        → OnlyReads S.Site site result.site }
    ensures devices { WritesOn S.Site site result.site }
{
    match command_in(rt.alloc(), words) {
        Ok(command) => carry_out(rt, command, input, output, site, chooser, other, gate),
        Err(line) => refuse(output, site, line),
    }
}
