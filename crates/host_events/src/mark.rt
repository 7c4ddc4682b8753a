// The event of a write on a staged cylinder that isn't changed yet.
ghost use Rattle.std.specs.Prelude.{◌≡◌, ◌≤◌, Bool, true, is_some, IsSome, OnOk, OnErr};
ghost use Rattle.mss_base.specs.Sites.{MayWrite};
ghost use Rattle.mss_base.specs.declared.place.UnitNo.{UnitNo};
ghost use Rattle.channel_commands.specs.Views.{call_of};
ghost use Rattle.fault_queue.specs.Requests.{request_of};
ghost use Rattle.core_state.specs.HostRules.{host_rule};
ghost use Rattle.core_state.specs.declared.rule.HostRule.TheVariants.{Marks};
ghost use Rattle.host_events.specs.Answers.{HostStep, told_of};
ghost use Rattle.host_events.specs.Parts.{ready_for, asked_for, made_ready, given_up, GoesOn, IsUntold};

use crate::answer::HostAnswer;
use crate::prepare::prepare;
use crate::reply::{Told, enter};
use channel_commands::{Call, Reply};
use core_state::{Core, Event, touch_all, write_change};
use fault_queue::{Queue, Request, RequestState};
use mss_base::{Cylinder, Failed, HostNo, NoMemory, Site, VolumeNo};
use table_pair::CHANGE_ITEMS;
use victim_choice::Choose;
use volume_table::Change;

/// Makes a request for a host that has none. After want of memory nothing has changed.
fn ask(
    requests: &mut Queue,
    host: HostNo,
    had: bool,
    volume: VolumeNo,
    cylinder: Cylinder,
) -> Result<(), NoMemory>
    requires { had ≡ is_some (request_of requests.old host) }
    ensures ok { OnOk result
        (requests.new ≡ asked_for host (ready_for volume cylinder) had requests.old) }
    ensures err { OnErr result (requests.new ≡ requests.old) }
{
    if had {
        return Ok(());
    }
    let state = RequestState::Ready;
    let request = Request {
        volume,
        cylinder,
        state,
    };
    requests.ask(host, request)
}

/// Makes the request ready that a host had.
fn make_ready(requests: &mut Queue, host: HostNo, had: bool)
    requires { had ≡ true → IsSome (request_of requests.old host) }
    ensures { requests.new ≡ made_ready host had requests.old }
{
    if had {
        requests.set(host, RequestState::Ready);
    }
}

/// Ends the request of a host that had none.
fn give_up(requests: &mut Queue, host: HostNo, had: bool)
    ensures { requests.new ≡ given_up host had requests.old }
{
    if !had {
        requests.end(host);
    }
}

/// Marks the host's cylinder changed in its volume's row, before the host writes it.
pub fn mark<S: Site, C: Choose>(
    core: &mut Core<S, C>,
    host: HostNo,
    call: &Call,
    volume: VolumeNo,
    cylinder: Cylinder,
) -> HostAnswer
    requires rule { host_rule core.old host (call_of call.now) ≡ Marks volume cylinder }
    ensures event { HostStep S.Site core.old host call.now (Marks volume cylinder) result core.new }
    ensures chooser { core.new.chooser ≡ core.old.chooser }
    ensures devices { MayWrite S.Site CHANGE_ITEMS core.old.site core.new.site }
    ensures room { IsUntold (told_of result) → S.spare core.old.site ≤ S.spare core.new.site }
    ensures only_reads_fail { (but : UnitNo → Bool) → S.never_fails_but core.old.site but
        → GoesOn (told_of result) }
{
    // Only the entry of a failed write needs the call. Its memory, and the request's, has to be
    // there before the row changes.
    let session = &mut core.session;
    let site = &mut core.site;
    let Ok(copy) = prepare(session, site, call, CHANGE_ITEMS) else {
        return HostAnswer::Memory;
    };
    let had = core.requests.of(host).is_some();
    let Ok(()) = ask(&mut core.requests, host, had, volume, cylinder) else {
        return HostAnswer::Memory;
    };
    let change = Change::Changed { cylinder };
    match write_change(
        &mut core.site,
        &mut core.rows,
        &mut core.used,
        &mut core.session,
        volume,
        &change,
    ) {
        Ok(()) => {
            // The call gets its entry when it is made again.
            drop(copy);
            make_ready(&mut core.requests, host, had);
            touch_all(&mut core.tasks, volume, cylinder.page());
            core.session.note(Event::Host(host));
            HostAnswer::Marked
        }
        Err(Failed) => {
            give_up(&mut core.requests, host, had);
            let fault = core.site.faults();
            let mark = core.site.writes();
            let entry = Told {
                reply: Reply::Stopped,
                fault: Some(fault),
                mark,
            };
            enter(&mut core.session, host, copy, entry);
            HostAnswer::Stopped { fault }
        }
    }
}
