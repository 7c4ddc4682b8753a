// How a call is replied.
ghost use Rattle.std.specs.Prelude.{◌≡◌, ◌≤◌, ◌<◌, length, IfOk, OnOk};
ghost use Rattle.channel_commands.specs.Views.{call_of, reply_of};
ghost use Rattle.core_state.specs.CoreValue.{seen_core};
ghost use Rattle.core_state.specs.Counted.{AreEntries};
ghost use Rattle.core_state.specs.Sessions.{session_data};
ghost use Rattle.core_state.specs.declared.session.TheConstants.{ENTRY_LIMIT};
ghost use Rattle.host_events.specs.Answers.{told_of};
ghost use Rattle.host_events.specs.Replies.{with_reply, after_answer, IsUpheld, RepliesOr};

use crate::answer::HostAnswer;
use crate::copies::{copy_of_call, copy_of_reply, next_number};
use crate::requests::end_request;
use channel_commands::{Call, Reply};
use ckd_plain::{Entry, HostState};
use core_state::{Core, Event, Session};
use mss_base::{HostNo, NoMemory, Site};
use std::alloc::Global;
use victim_choice::Choose;

/// What the entry of a call tells: its reply, the count of faults where a call of the site failed, and how many writes
/// the site had counted then.
pub struct Told {
    pub reply: Reply,
    pub fault: Option<u64>,
    pub mark: u64,
}

/// Puts the entry of a call last, with its mark, and the event, into the room that the session has.
pub fn enter(session: &mut Session, host: HostNo, call: Call, told: Told)
    requires few { length session.old.history.items ≤ ENTRY_LIMIT }
    requires entries { AreEntries session.old.history.items }
    requires room { 1 ≤ session.old.history.spare }
    requires room_marks { 1 ≤ session.old.marks.spare }
    requires room_events { 1 ≤ session.old.events.spare }
    ensures { session_data session.new ≡ with_reply host (call_of call)
        (reply_of told.reply) told.fault told.mark (session_data session.old) }
{
    let Told { reply, fault, mark } = told;
    let number = next_number(session.history.as_slice(), host);
    let entry = Entry {
        host,
        number,
        call,
        reply,
        fault,
    };
    session.append(entry, mark);
    session.note(Event::Host(host));
}

/// A copy of a call for its entry, and one of its reply for the host, with room for what the event tells. After want of
/// memory all but the room is as it was.
#[inline(always)]
fn copy_both(
    alloc: Global,
    session: &mut Session,
    call: &Call,
    reply: &Reply,
) -> Result<(Call, Reply), NoMemory>
    ensures call { IfOk result (λ copies. call_of copies.0 ≡ call_of call.now) }
    ensures reply { IfOk result (λ copies. reply_of copies.1 ≡ reply_of reply.now) }
    ensures session { session_data session.new ≡ session_data session.old }
    ensures room { OnOk result (1 ≤ session.new.history.spare) }
    ensures room_marks { OnOk result (1 ≤ session.new.marks.spare) }
    ensures room_events { OnOk result (1 ≤ session.new.events.spare) }
{
    let call = copy_of_call(call)?;
    let told = copy_of_reply(alloc, reply)?;
    session.reserve()?;
    Ok((call, told))
}

/// Replies a call, for which the devices aren't asked: its entry is put last, the host is now this
/// one, and its request ends. After want of memory all is as it was.
pub fn reply<S: Site, C: Choose>(
    core: &mut Core<S, C>,
    host: HostNo,
    call: &Call,
    reply: Reply,
    fault: Option<u64>,
    now: &HostState,
) -> HostAnswer
    requires few { length core.old.history < ENTRY_LIMIT }
    requires upheld { IsUpheld S.tells (S.told core.old.site) (S.writes core.old.site)
        (S.faults core.old.site) (after_answer core.old (S.writes core.old.site) host
        (call_of call.now) fault (reply_of reply, now.now)) }
    ensures event { RepliesOr S.tells (seen_core S.Site core.old) host (call_of call.now)
        (record { reply = reply_of reply; fault = fault; host = now.now }) (told_of result)
        (seen_core S.Site core.new) }
    ensures chooser { core.new.chooser ≡ core.old.chooser }
    ensures site { core.new.site ≡ core.old.site }
{
    let Ok((call, told)) = copy_both(core.alloc, &mut core.session, call, &reply) else {
        return HostAnswer::Memory;
    };
    let index = core.session.history.as_slice().len() as u64;
    let mark = core.site.writes();
    let entry = Told { reply, fault, mark };
    enter(&mut core.session, host, call, entry);
    core.hosts.set(usize::from(host.get()) - 1, *now);
    end_request(&mut core.requests, host);
    HostAnswer::Replied { index, reply: told }
}
