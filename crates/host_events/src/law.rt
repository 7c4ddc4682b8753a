//! Laws of the events of hosts. A function calls a law to have it in its proof.
ghost use Rattle.std.specs.Prelude.{◌≡◌, ◌≤◌, ℕ, List, Some, None};
ghost use Rattle.channel_commands.specs.Data.{CallData, done};
ghost use Rattle.fault_queue.specs.Requests.{IsOnce};
ghost use Rattle.core_state.specs.declared.rule.Waiting.{Waiting};
ghost use Rattle.core_state.specs.declared.session.Event.TheVariants.{Host};
ghost use Rattle.core_state.specs.Beginning.{IsLater};
ghost use Rattle.core_state.specs.Chains.{Step, IsChain, without_copy};
ghost use Rattle.core_state.specs.CoreValue.{CoreData};
ghost use Rattle.core_state.specs.HostEvents.{HostEvent, HostTold, IsSame};
ghost use Rattle.core_state.specs.HostEvents.{replied, waits, halts, no_memory};
ghost use Rattle.core_state.specs.IsCore.{IsCore};
ghost use Rattle.host_events.specs.Causes.{AnswersEachCause, CauseOf, IsPlainReply};
ghost use Rattle.host_events.specs.Leaves.{
  AllHalt,
  ChangesRequestAtMost,
  EntersAsTold,
  LeavesCartridges,
  LeavesMachine,
  LeavesOthers,
  NotesChange,
};

use mss_base::Site;
use victim_choice::Choose;

/// An event of a host puts at most one entry last: of that host and call, at the place and with the
/// reply that is told.
pub fn events_add_one_entry_at_most<S: Site>()
    ensures { (core : CoreData) (h : ℕ) (call : CallData) (told : HostTold) (left : CoreData)
        → (core.stopped ≡ None → IsCore core) → HostEvent S.tells core h call told left
        → EntersAsTold core h call told left }
{}

/// An event of a host leaves the beginning of the session, and adds to the log alone.
pub fn events_are_later<S: Site>()
    ensures { (core : CoreData) (h : ℕ) (call : CallData) (told : HostTold) (left : CoreData)
        → (core.stopped ≡ None → IsCore core) → HostEvent S.tells core h call told left
        → IsLater S.tells core left }
{}

/// An event of a host leaves the other hosts and what they asked for, and moves nothing.
pub fn events_leave_the_rest<S: Site>()
    ensures others { (core : CoreData) (h : ℕ) (call : CallData) (told : HostTold)
        (left : CoreData) → 1 ≤ h → IsOnce core.requests
        → HostEvent S.tells core h call told left → LeavesOthers core h left }
    ensures machine { (core : CoreData) (h : ℕ) (call : CallData) (told : HostTold)
        (left : CoreData) → HostEvent S.tells core h call told left → LeavesMachine core left }
{}

/// A wait changes nothing but the request of its host, and puts the event down where it does. Want
/// of memory changes nothing.
pub fn waits_change_requests_alone<S: Site>()
    ensures waits { (core : CoreData) (h : ℕ) (call : CallData) (w : Waiting) (left : CoreData)
        → (core.stopped ≡ None → IsCore core) → HostEvent S.tells core h call (waits w) left
        → ChangesRequestAtMost S.tells core h left }
    ensures memory { (core : CoreData) (h : ℕ) (call : CallData) (left : CoreData)
        → HostEvent S.tells core h call no_memory left → IsSame S.tells core left }
{}

/// The events of hosts that are put down are those that changed the core: an event that isn't has
/// changed nothing; one that is has changed something beside the devices.
pub fn events_are_those_that_change<S: Site>()
    ensures { (core : CoreData) (h : ℕ) (call : CallData) (told : HostTold) (left : CoreData)
        → (core.stopped ≡ None → IsCore core) → HostEvent S.tells core h call told left
        → NotesChange S.tells core (Host h) left }
{}

/// An event of a host writes on no cartridge.
pub fn host_events_write_no_cartridge<S: Site>()
    ensures { (core : CoreData) (h : ℕ) (call : CallData) (told : HostTold) (left : CoreData)
        → (core.stopped ≡ None → IsCore core) → HostEvent S.tells core h call told left
        → S.tells → LeavesCartridges core.site.told left.site.told }
{}

/// A core that answers that it is stopped keeps that fault. From then on each event, of any host or
/// recorder, answers that fault, and changes nothing.
pub fn stopped_cores_stay<S: Site, C: Choose>()
    ensures stops { (core : CoreData) (h : ℕ) (call : CallData) (fault : ℕ) (left : CoreData)
        → (core.stopped ≡ None → IsCore core) → HostEvent S.tells core h call (halts fault) left
        → left.stopped ≡ Some fault }
    ensures stays { (core : CoreData) (fault : ℕ) (chooser : C) (steps : List Step)
        (left : CoreData) → core.stopped ≡ Some fault
        → IsChain (without_copy S.tells (C.may chooser)) core steps left
        → AllHalt fault steps × IsSame S.tells core left }
{}

/// Each answer of an event of a host has its cause, and each cause its answer: the first that the
/// call finds. In place of any but the first two, memory may be refused. A command that was carried
/// out is replied as the plain machine replies it on what the devices held.
pub fn answers_have_their_causes<S: Site>()
    ensures forth { (core : CoreData) (h : ℕ) (call : CallData) (told : HostTold) (left : CoreData)
        → (core.stopped ≡ None → IsCore core) → HostEvent S.tells core h call told left
        → CauseOf core h call told left }
    ensures back { (core : CoreData) (h : ℕ) (call : CallData) (told : HostTold) (left : CoreData)
        → (core.stopped ≡ None → IsCore core) → HostEvent S.tells core h call told left
        → AnswersEachCause core h call told }
    ensures plain { (core : CoreData) (h : ℕ) (call : CallData) (index status : ℕ)
        (bytes : List ℕ) (left : CoreData) → (core.stopped ≡ None → IsCore core)
        → HostEvent S.tells core h call (replied index (done status bytes)) left → S.tells
        → IsPlainReply core h call (done status bytes) }
{}
