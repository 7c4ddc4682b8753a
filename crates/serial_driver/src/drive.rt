// A serial run: a core, and where each host of its job stands.
ghost use Rattle.std.specs.Prelude.{◌≡◌, ◌<◌, ℕ, [], length, slice_index_or, is_some, None, IfOk, IfErr, IfSome};
ghost use Rattle.std.specs.Prelude.{OnErr, OnOk};
ghost use Rattle.channel_program.specs.Script.{Follows, FollowsToEnd};
ghost use Rattle.core_state.specs.Chains.{Reading};
ghost use Rattle.core_state.specs.CoreValue.{seen_core};
ghost use Rattle.core_state.specs.WorkEvents.{WorkEvent};
ghost use Rattle.core_progress.specs.Progress.{OwnersCall};
ghost use Rattle.job_text.specs.Jobs.{ScriptData};
ghost use Rattle.serial_driver.specs.Answers.{of_work};
ghost use Rattle.serial_driver.specs.declared.answer.DriveAnswer.TheVariants.{Done};
ghost use Rattle.std.specs.List.{AllByRecursion};
ghost use Rattle.serial_driver.specs.Drives.{AllStand, IsNumberOf};
ghost use Rattle.volume_copy.specs.Beside.{ReadsBeside, TakesBeside, asked_copy};
ghost use Rattle.script_places.specs.Places.{StandsAt};
ghost use Rattle.script_places.specs.Scripts.{calls_of, script_of, exchanges_of, not_begun};

use crate::answer::DriveAnswer;
use crate::host::call_host;
use core_state::{Core, Event, WorkAnswer};
use job_text::{HostScript, Job};
use mss_base::{HostNo, NoMemory, RecorderNo, Site};
use script_places::{Place, entered, has_call};
use std::alloc::Global;
use std::marker::Model;
use victim_choice::Choose;
use volume_copy::{CopiedCore, Copier};

/// Where the hosts of a job stand, script by script.
type Places = Vec<Place>;

/// A serial run of a job on a core.
///
/// It keeps that each host's entries, in order, are the calls of its script, and that a host whose chain is open,
/// or that has a request, has a call left while the core isn't stopped.
#[derive(Drop)]
pub struct Drive<'a, S: Site, C: Choose> {
    session: CopiedCore<S, C>,
    scripts: &'a [HostScript],
    /// Where the host of each script stands.
    places: Places,
}

impl<'a, S: Site, C: Choose> Model for Drive<'a, S, C> {
    ghost use Rattle.serial_driver.specs.Drives.{DriveValue, IsDriven};

    ghost Value = { DriveValue S C };

    ghost view = { λ d. record {
      core = d.session.core;
      copier = d.session.copier;
      scripts = d.scripts.now;
    } };

    ghost invariant = { λ d. IsDriven d.session.core d.scripts.now d.places.items };
}

/// The place at the start of a script.
fn start_of(script: &HostScript) -> Place
    ensures { StandsAt script.now.items (not_begun script.now.items) result }
{
    entered(script.items.as_slice(), 0)
}

/// The places at the starts of scripts.
fn places_of(alloc: Global, scripts: &[HostScript]) -> Result<Places, NoMemory>
    ensures { IfOk result (λ places. AllStand [] scripts.now places.items) }
{
    let mut places = Vec::new(alloc);
    for script in scripts {
        places.push(start_of(script))?;
    }
    Ok(places)
}

/// The number of a host's script, if the job has one.
fn script_number(scripts: &[HostScript], host: HostNo) -> Option<usize>
    ensures { IsNumberOf scripts.now host result }
{
    for number in 0..scripts.len() {
        let script = &scripts[number];
        if script.host.get() == host.get() {
            return Some(number);
        }
    }
    None
}

/// How a recorder's event ended.
pub(crate) fn answer_of(told: WorkAnswer) -> DriveAnswer
    ensures { result ≡ of_work told }
{
    match told {
        WorkAnswer::Did(_) => DriveAnswer::Done,
        WorkAnswer::Idle => DriveAnswer::Done,
        WorkAnswer::Stopped { fault } => DriveAnswer::Stopped { fault },
        WorkAnswer::Memory => DriveAnswer::Memory,
    }
}

/// Takes the next track for the copy beside a core, if there is one. Where memory is wanting nothing changes.
fn take_next<S: Site, C: Choose>(session: &mut CopiedCore<S, C>) -> Result<(), NoMemory>
    ensures takes { OnOk result (TakesBeside S.Site session.old session.new) }
    ensures memory { OnErr result (session.new ≡ session.old) }
    ensures core { ReadsBeside S.Site (is_some (asked_copy session.old.copier))
        session.old.core session.new.core }
    ensures copier { asked_copy session.new.copier ≡ asked_copy session.old.copier }
{
    session.take()?;
    Ok(())
}

impl<'a, S: Site, C: Choose> Drive<'a, S, C> {
    ghost use Rattle.serial_driver.specs.Drives.{AreScripts, HostTakes, EventTakes, IsConfigured};
    ghost use Rattle.serial_driver.specs.Drives.{IsUnused, LeavesDrive, RunsEvents, copied_of, terms_of};
    ghost use Rattle.volume_copy.specs.Beside.{IsReadyFor, StandsBeside};

    /// A serial run of a job, on a core in which nothing has happened, of the job's configuration; with a copier beside
    /// it, if a copy is asked for, which begins at once where its time has come. After want of memory it hands both
    /// back.
    pub fn new(
        core: Core<S, C>,
        job: &'a Job,
        copier: Option<Copier>,
    ) -> Result<Drive<'a, S, C>, (Core<S, C>, Option<Copier>, NoMemory)>
        requires unused { IsUnused core job.now }
        requires ready { IfSome copier (IsReadyFor core.history) }
        ensures core { IfOk result (λ drive. drive.core ≡ core) }
        ensures copier { IfOk result (λ drive. asked_copy drive.copier ≡ asked_copy copier) }
        ensures scripts { IfOk result (λ drive. drive.scripts ≡ job.now.hosts) }
        ensures memory { IfErr result (λ back. (back.0 ≡ core) × (back.1 ≡ copier)) }
    {
        let scripts = job.hosts.as_slice();
        match places_of(core.alloc, scripts) {
            Ok(places) => Ok(Drive {
                session: CopiedCore::new(core, copier),
                scripts,
                places,
            }),
            Err(_) => Err((core, copier, NoMemory)),
        }
    }

    /// The core as it is now. Each host's entries follow its script.
    pub fn core(&self) -> &Core<S, C>
        ensures value { result.now ≡ self.now.core }
        ensures follows { (h : ℕ) → Follows (script_of self.now.scripts h)
            (exchanges_of h self.now.core.history) }
    {
        self.session.core()
    }

    /// The core, as far as it came, and the copier that was beside it, which stands for its session.
    pub fn into_core(self) -> (Core<S, C>, Option<Copier>)
        ensures core { result.0 ≡ self.entry.core }
        ensures copier { result.1 ≡ self.entry.copier }
        ensures stands { IfSome self.entry.copier (StandsBeside S.Site self.entry.core) }
    {
        let Drive {
            session,
            scripts: _,
            places: _,
        } = self;
        session.into_parts()
    }

    /// An event of the host with a script's number, if it has a call.
    pub(crate) fn host(&mut self, number: usize) -> DriveAnswer
        requires { number < length self.old.scripts }
        ensures takes { (unknown : ScriptData) →
            let h = (slice_index_or self.old.scripts number unknown).host in
            HostTakes (terms_of S.Site C.may self.old) h
            (calls_of self.old.scripts self.old.core.history h)
            (seen_core S.Site self.old.core) result (seen_core S.Site self.new.core) }
        ensures leaves { LeavesDrive S.Site self.old self.new result }
    {
        self.session.look();
        let script = &self.scripts[number];
        let place = &mut self.places[number];
        call_host(&mut self.session, script, place)
    }

    /// How many hosts the job has.
    pub(crate) fn host_count(&self) -> usize
        ensures { result ≡ length self.now.scripts }
    {
        self.scripts.len()
    }

    /// Whether the host with a script's number has a call.
    pub(crate) fn can_call(&self, number: usize) -> bool
        requires { number < length self.now.scripts }
        ensures { (unknown : ScriptData) →
            let h = (slice_index_or self.now.scripts number unknown).host in
            result ≡ is_some (calls_of self.now.scripts self.now.core.history h) }
    {
        self.session.look();
        let script = &self.scripts[number];
        let place = &self.places[number];
        has_call(script.items.as_slice(), place)
    }

    /// What the hosts of a run keep, for the proofs of callers: each that owns a volume has a call, and one that
    /// has none has come to the end of its script.
    pub(crate) fn look_at_hosts(&self)
        ensures scripts { AreScripts self.now.scripts }
        ensures owners { self.now.core.stopped ≡ None → OwnersCall (seen_core S.Site self.now.core)
            (calls_of self.now.scripts self.now.core.history) }
        ensures ended { (h : ℕ) → calls_of self.now.scripts self.now.core.history h ≡ None
            → FollowsToEnd (script_of self.now.scripts h) (exchanges_of h self.now.core.history) }
    {
        self.session.look();
    }

    /// An event of a recorder.
    pub(crate) fn work(&mut self, recorder: RecorderNo) -> WorkAnswer
        requires { recorder < self.old.core.config.recorders }
        ensures event { WorkEvent S.tells (C.may self.old.core.chooser)
            (seen_core S.Site self.old.core) recorder result (seen_core S.Site self.new.core) }
        ensures leaves { LeavesDrive S.Site self.old self.new (of_work result) }
    {
        self.session.look();
        self.session.work_event(recorder)
    }

    /// Takes the next track for the copy, if there is one. Where memory is wanting nothing changes.
    pub(crate) fn take(&mut self) -> Result<(), NoMemory>
        ensures takes { OnOk result (TakesBeside S.Site (copied_of self.old) (copied_of self.new)) }
        ensures memory { OnErr result (self.new ≡ self.old) }
        ensures read { Reading (is_some (asked_copy self.old.copier)) S.tells
            (seen_core S.Site self.old.core) (λ read. seen_core S.Site self.new.core ≡ read) }
        ensures leaves { LeavesDrive S.Site self.old self.new Done }
    {
        take_next(&mut self.session)
    }

    /// An event of a host, if it has a call.
    fn named(&mut self, host: HostNo) -> DriveAnswer
        ensures takes { HostTakes (terms_of S.Site C.may self.old) host
            (calls_of self.old.scripts self.old.core.history host)
            (seen_core S.Site self.old.core) result (seen_core S.Site self.new.core) }
        ensures leaves { LeavesDrive S.Site self.old self.new result }
    {
        match script_number(self.scripts, host) {
            Some(number) => self.host(number),
            None => DriveAnswer::Done,
        }
    }

    /// An event of a host or a recorder.
    fn event(&mut self, event: Event) -> DriveAnswer
        requires configured { IsConfigured self.old.core.config event }
        ensures takes { EventTakes (terms_of S.Site C.may self.old) self.old.scripts event
            (seen_core S.Site self.old.core) result (seen_core S.Site self.new.core) }
        ensures leaves { LeavesDrive S.Site self.old self.new result }
    {
        match event {
            Event::Host(host) => self.named(host),
            Event::Work(recorder) => answer_of(self.work(recorder)),
        }
    }

    /// Does the events of a list, each once and in order, until one ends them. An event of a host that has no call does
    /// nothing.
    pub fn run_events(&mut self, events: &[Event]) -> DriveAnswer
        requires configured { AllByRecursion (IsConfigured self.old.core.config) events.now }
        ensures runs { RunsEvents (terms_of S.Site C.may self.old) self.old.scripts events.now
            (seen_core S.Site self.old.core) result (seen_core S.Site self.new.core) }
        ensures leaves { LeavesDrive S.Site self.old self.new result }
    {
        for event in events {
            match self.event(*event) {
                DriveAnswer::Done => {}
                halted => return halted,
            }
        }
        DriveAnswer::Done
    }
}
