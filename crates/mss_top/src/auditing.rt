//! An audit of a site.
ghost use Rattle.std.specs.Prelude.{◌≡◌, ◌≤◌, ℕ, None, map, string_bytes, IfOk};
ghost use Rattle.command_words.specs.Words.{meaning};
ghost use Rattle.mss_base.specs.Content.{content};
ghost use Rattle.mss_base.specs.Sites.{OnlyReads};
ghost use Rattle.session_report.specs.Parties.{sink_between};
ghost use Rattle.job_runs.specs.Parties.{devices};
ghost use Rattle.mss_audit.specs.Auditing.{Inspects};
ghost use Rattle.mss_audit.specs.Texts.{audit_text, unread_text};
ghost use Rattle.mss_top.specs.Auditing.{AuditBrokeOff, Audits, AuditsWell, EndsAudit};
ghost use Rattle.mss_top.specs.Auditing.{IsWrongPut, all_wrong};
ghost use Rattle.mss_top.specs.Showing.{FRAMES};
ghost use Rattle.mss_top.specs.Status.{IsTextPut};
ghost use Rattle.mss_top.specs.declared.status.Status.TheVariants.{Done, Stopped};

use crate::admission::command_in;
use crate::ending::{Ended, refuse, say};
use crate::showing::any_config;
use crate::status::Status;
use command_words::Command;
use mss_audit::{AuditFault, Finding, Findings, audit, put_audit, put_unread};
use mss_base::{Failed, Sink, Site};
use report_text::OneLine;
use std::alloc::Global;

/// Puts all findings, and answers with the status.
fn list<O: Sink>(output: &mut O, findings: &[Finding]) -> Status
    ensures put { IsTextPut (audit_text findings.now) Done
        (sink_between O.Sink output.old output.new) result }
{
    match put_audit(output, findings) {
        Ok(()) => Status::Done,
        Err(Failed) => Status::OutputFault,
    }
}

/// Puts that a read failed, with the count of faults behind it, and answers with the status.
fn break_off<O: Sink>(output: &mut O, fault: u64) -> Status
    ensures put { IsTextPut (unread_text fault) Stopped
        (sink_between O.Sink output.old output.new) result }
{
    match put_unread(output, fault) {
        Ok(()) => Status::Stopped,
        Err(Failed) => Status::OutputFault,
    }
}

/// Audits a site whatever its volumes are.
fn audit_any<S: Site>(alloc: Global, site: &mut S, frames: u16) -> Result<Findings, AuditFault>
    requires { (1 ≤ frames) × (frames ≤ FRAMES) }
    ensures list { S.tells → IfOk result
        (λ listed. listed.items ≡ all_wrong frames (content (S.told site.old))) }
    ensures inspects { Inspects S.Site site.old site.new result }
{
    audit(alloc, site, &any_config(alloc, frames))
}

/// Audits a site that is lent, puts what comes of it, and answers with the status.
fn audit_lent<S: Site, O: Sink>(alloc: Global, frames: u16, output: &mut O, site: &mut S) -> Status
    requires { (1 ≤ frames) × (frames ≤ FRAMES) }
    ensures ended { Audits frames (devices S.Site site.old site.new)
        (sink_between O.Sink output.old output.new) result }
    ensures unread { result ≡ Stopped → AuditBrokeOff S.Site site.old
        (devices S.Site site.old site.new) (sink_between O.Sink output.old output.new) }
    ensures site { OnlyReads S.Site site.old site.new }
{
    match audit_any(alloc, site, frames) {
        Ok(findings) => list(output, findings.as_slice()),
        Err(AuditFault::Read { fault }) => break_off(output, fault),
        Err(AuditFault::Memory) => say(output, OneLine::WantOfMemory),
    }
}

/// Audits a site for 1 to 200 frames, and puts what comes of it.
pub fn audit_for<S: Site, O: Sink>(
    alloc: Global,
    frames: u16,
    output: &mut O,
    mut site: S,
) -> Ended<S>
    requires { (1 ≤ frames) × (frames ≤ FRAMES) }
    ensures ended { Audits frames (devices S.Site site result.site)
        (sink_between O.Sink output.old output.new) result.status }
    ensures unread { result.status ≡ Stopped → AuditBrokeOff S.Site site
        (devices S.Site site result.site) (sink_between O.Sink output.old output.new) }
    ensures site { OnlyReads S.Site site result.site }
    ensures session { result.session ≡ None }
{
    let status = audit_lent(alloc, frames, output, &mut site);
    Ended {
        status,
        site,
        session: None,
    }
}

/// Puts all that is wrong with a site, a line for each finding.
///
/// The words are the command `audit` with its option, as `command_words` reads them: `--frames` of 1 to 200 says how
/// many frames there may be. No volume is asked for, so it doesn't matter which there are. Nothing is written to the
/// site. The status doesn't tell whether there are findings. Where a read fails nothing is listed, but that it failed
/// is told.
pub fn audit_site<S: Site, O: Sink>(
    alloc: Global,
    words: &[String],
    output: &mut O,
    site: S,
) -> Ended<S>
    ensures ended { EndsAudit (meaning (map string_bytes words.now))
        (devices S.Site site result.site)
        (sink_between O.Sink output.old output.new) result.status }
    ensures unread { result.status ≡ Stopped → AuditBrokeOff S.Site site
        (devices S.Site site result.site) (sink_between O.Sink output.old output.new) }
    ensures complete { (frames : ℕ) → AuditsWell (meaning (map string_bytes words.now)) frames
        (devices S.Site site result.site) (sink_between O.Sink output.old output.new)
        → IsWrongPut frames (content (S.told site))
        (sink_between O.Sink output.old output.new) result.status }
    ensures site { OnlyReads S.Site site result.site }
    ensures session { result.session ≡ None }
{
    match command_in(alloc, words) {
        Ok(Command::Audit { frames }) => audit_for(alloc, frames, output, site),
        Ok(_) => refuse(output, site, OneLine::WordsRefused),
        Err(line) => refuse(output, site, line),
    }
}
