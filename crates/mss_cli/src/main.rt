//! The command of the simulator: a run, a look or an audit of the site in the folder `mss.site`, or a comparison of
//! choosers beside it, over standard input and output.
#![tactic(auto)]

mod arguments;

ghost use Rattle.std.specs.Prelude.{◌≡◌, ◌⊎◌, ℕ, Bool, None, Some, [], codes, map, string_bytes};
ghost use Rattle.std.specs.Prelude.{IfOk, IfSome, OnErr};
ghost use Rattle.mss_base.specs.Sites.{OnlyReads};
ghost use Rattle.mss_base.specs.declared.place.UnitNo.{UnitNo};
ghost use Rattle.command_words.specs.Words.{meaning};
ghost use Rattle.command_words.specs.declared.command.Command.TheVariants.{Audit, Show};
ghost use Rattle.core_state.specs.Sessions.{session_data};
ghost use Rattle.mss_restart.specs.Creations.{WritesOn};
ghost use Rattle.job_runs.specs.Parties.{devices};
ghost use Rattle.mss_files.specs.Output.{AlwaysKnown, known_bytes};
ghost use Rattle.mss_top.specs.Obeying.{parties};
ghost use Rattle.mss_top.specs.Status.{code_of};
ghost use Rattle.victim_rules.specs.Closures.{IsTest, NarrowMay};
ghost use Rattle.mss_cli.specs.Runs.{IsDone, IsFlushed, input_of, output_of};

use arguments::words;
use mss_base::{NoMemory, Site};
use mss_files::{FileSite, Folder, StdSink, StdSource};
use mss_run::OpenGate;
use mss_top::{Ended, Status, obey};
use std::io::{Read, Write};
use std::process::ExitCode;
use std::rt::{Stdin, Stdout};
use std::sync::Wait;
use std::thread::Threads;
use victim_choice::{Candidate, Lru};
use victim_rules::Narrow;

/// The folder of the site's files.
const SITE: &str = "mss.site";

fn main(rt: HostRuntime) -> ExitCode {
    let ended = match begin(rt) {
        Ok(begun) => {
            let Begun {
                words,
                mut input,
                mut output,
                site,
            } = begun;
            let other = Narrow::new(|c: &Candidate| c.changed < 2);
            let ended = run(&rt, &words, &mut input, &mut output, site, other);
            Ok(ended.status)
        }
        Err(want) => Err(want),
    };
    ExitCode::from(exit_code(ended))
}

/// What the command begins with: its words, and the parties of its call.
#[derive(Drop)]
struct Begun {
    words: Vec<String>,
    input: StdSource<Stdin>,
    output: StdSink<Stdout>,
    site: FileSite<Folder<HostRuntime>>,
}

/// The words of the command, standard input and output, and the site that it is for. Nothing was read or put yet.
fn begin(rt: HostRuntime) -> Result<Begun, NoMemory>
    ensures folder { IfOk result
        (λ begun. string_bytes begun.site.files.paths.folder ≡ codes "mss.site") }
    ensures unwritten { IfOk result (λ begun. begun.site.writes ≡ 0) }
    ensures unfailed { IfOk result (λ begun. begun.site.faults ≡ 0) }
    ensures unread { IfOk result (λ begun. begun.input.faults ≡ 0) }
    ensures unput { IfOk result
        (λ begun. (begun.output.waiting ≡ []) × (begun.output.faults ≡ 0)) }
{
    let words = words(&rt, rt.alloc())?;
    let site = FileSite::at(rt, SITE)?;
    let output = StdSink::new(rt.alloc(), rt.stdout())?;
    let input = StdSource::new(rt.stdin());
    Ok(Begun {
        words,
        input,
        output,
        site,
    })
}

/// Runs the command of these words on a site: does what they ask for, and writes what that put. The whole output is
/// written, or the status says that it isn't. A comparison chooses last by the closure that is handed in. A look and an
/// audit only read the site.
fn run<
    I: Read,
    W: Write + Drop,
    S: Site + Send,
    F: Fn(&Candidate) -> bool + Drop,
    R: Threads + Wait + Sync + AllocGlobal,
>(
    rt: &R,
    words: &[String],
    input: &mut StdSource<I>,
    output: &mut StdSink<W>,
    site: S,
    other: Narrow<F>,
) -> Ended<S>
    requires { IsTest F.Fn other }
    ensures written { (result.status ≡ Status.OutputFault) ⊎ (output.new.waiting ≡ []) }
    ensures does { IsDone (meaning (map string_bytes words.now)) (NarrowMay F.Fn other)
        (parties (input_of I.remaining input.old input.new) (devices S.Site site result.site)
        (output_of W.contents output.old output.new))
        output.new.waiting result.status result.session }
    ensures looks { meaning (map string_bytes words.now) ≡ Some Show
        → OnlyReads S.Site site result.site }
    ensures audits { (frames : ℕ) → meaning (map string_bytes words.now) ≡ Some (Audit frames)
        → OnlyReads S.Site site result.site }
    ensures only_reads_fail { (but : UnitNo → Bool) → S.never_fails_but site but
        → IfSome result.session (λ s. (session_data s).stopped ≡ None) }
    ensures devices { WritesOn S.Site site result.site }
{
    let ended = obey(rt, words, input, output, site, Lru, other, &OpenGate);
    let status = finish(output, ended.status);
    Ended { status, ..ended }
}

/// Writes what waits of the output. The status is the one that is due, unless that failed.
fn finish<W: Write + Drop>(output: &mut StdSink<W>, due: Status) -> Status
    ensures status { (result ≡ due) ⊎ (result ≡ Status.OutputFault) }
    ensures written { (result ≡ Status.OutputFault) ⊎ (output.new.waiting ≡ []) }
    ensures failed { (result ≡ Status.OutputFault) ⊎ (output.new.faults ≡ output.old.faults) }
    ensures flushed { IsFlushed due output.old.faults output.new.faults output.new.waiting result }
    ensures told { AlwaysKnown W.contents
        → known_bytes output.new.contents ≡ known_bytes output.old.contents }
{
    if output.flush().is_err() {
        return Status::OutputFault;
    }
    due
}

/// The exit status of a run, or of one that had no memory to begin.
fn exit_code(outcome: Result<Status, NoMemory>) -> u8
    ensures ended { IfOk outcome (λ status. result ≡ code_of status) }
    ensures memory { OnErr outcome (result ≡ code_of Status.Memory) }
{
    outcome.unwrap_or(Status::Memory).code()
}
