// The event of a search, read or write on a staged cylinder.
ghost use Rattle.std.specs.Prelude.{◌≡◌, ◌≤◌, ◌<◌, Bool, length, false, Some, IsSome, IfErr};
ghost use Rattle.mss_base.specs.Content.{content};
ghost use Rattle.mss_base.specs.Places.{frame_block};
ghost use Rattle.mss_base.specs.Sites.{MayWrite};
ghost use Rattle.mss_base.specs.declared.place.UnitNo.{UnitNo};
ghost use Rattle.volume_table.specs.Listed.{row_in_list};
ghost use Rattle.channel_commands.specs.Data.{stopped};
ghost use Rattle.channel_commands.specs.Views.{call_of, reply_of};
ghost use Rattle.ckd_plain.specs.Plain.{IsDone};
ghost use Rattle.track_engine.specs.Faults.{IsNoFailure, IsNoFailedWrite};
ghost use Rattle.track_engine.specs.Tracks.{AreTracks};
ghost use Rattle.fault_queue.specs.Requests.{without_request};
ghost use Rattle.core_state.specs.CoreValue.{seen_site};
ghost use Rattle.core_state.specs.HostRules.{host_rule};
ghost use Rattle.core_state.specs.Counted.{AreEntries};
ghost use Rattle.core_state.specs.Pins.{host_at, put_host};
ghost use Rattle.core_state.specs.SessionData.{with_stop};
ghost use Rattle.core_state.specs.Sessions.{session_data};
ghost use Rattle.core_state.specs.Tasks.{tasks_after};
ghost use Rattle.core_state.specs.declared.session.TheConstants.{ENTRY_LIMIT};
ghost use Rattle.core_state.specs.declared.rule.HostRule.TheVariants.{Runs};
ghost use Rattle.host_events.specs.Answers.{HostStep, told_of};
ghost use Rattle.host_events.specs.Parts.{GoesOn, IsUnfailed, IsUntold};
ghost use Rattle.host_events.specs.Replies.{with_reply};
ghost use Rattle.host_events.specs.Runs.{run_by, bare_write, Comes, IsStagedIn, MayRun};
ghost use Rattle.mss_base.specs.Geometry.{volume_cylinders, cylinder_heads, format_items};

use crate::answer::HostAnswer;
use crate::copies::copy_of_reply;
use crate::prepare::prepare;
use crate::reply::{Told, enter};
use crate::requests::end_request;
use channel_commands::{Call, Command, Reply};
use ckd_plain::steps::checked;
use ckd_plain::{HostState, UnitCheck};
use ckd_track::FORMAT_ITEMS;
use core_state::looks::host_at;
use core_state::{Core, HostStateList, Session, TaskList, touch_all};
use fault_queue::Queue;
use mss_base::{Bytes, FrameNo, Head, HostNo, Page, Site, VolumeNo};
use staging_adapter::{Translated, translate};
use std::alloc::Global;
use track_engine::{CylinderPlace, EngineFault, run_command};
use victim_choice::Choose;
use volume_table::{Rows, VolumeRow};
/// The state of a host, which stands on a track of a volume.
fn standing(hosts: &[HostState], host: HostNo) -> HostState
    requires { length hosts.now ≡ 8 }
    ensures state { result ≡ host_at hosts.now host }
    ensures cylinder { result.cylinder < volume_cylinders }
    ensures head { result.head < cylinder_heads }
{
    let state = host_at(hosts, host);
    let _cylinder = state.cylinder.get();
    let _head = state.head.get();
    state
}

/// The row of a volume that has one.
fn row_of(rows: &Rows, volume: VolumeNo) -> &VolumeRow
    requires there { IsSome (row_in_list rows.now volume) }
    ensures { row_in_list rows.now volume ≡ Some result.now }
{
    let Some(row) = rows.row(volume) else {
        unreachable!()
    };
    row
}

/// The blocks of a host's cylinder, which is staged in this frame.
fn place_in(row: &VolumeRow, frame: FrameNo, host: &HostState) -> CylinderPlace
    requires staged { IsStagedIn row.now frame host.now }
    ensures unit { result.unit ≡ (frame_block frame host.now.cylinder 0).unit }
    ensures block { result.first_block ≡ (frame_block frame host.now.cylinder 0).block }
    ensures in_range { result.first_block < 7600 }
{
    // The clauses speak of the frame; the row tells it.
    let _ = frame;
    match translate(row, host.cylinder, Head::of(0).unwrap()) {
        Translated::Real { unit, block } => CylinderPlace {
            unit,
            first_block: block,
        },
        Translated::Fault { .. } => unreachable!(),
    }
}

/// The reply of a command that was carried out, without the bytes that a write's reply doesn't
/// have.
fn bare(alloc: Global, command: &Command, reply: Reply) -> Reply
    requires { IsDone (reply_of reply) }
    ensures { reply_of result ≡ bare_write command.now (reply_of reply) }
{
    let Reply::Done { status, bytes } = reply else {
        unreachable!()
    };
    let bytes = match command {
        Command::Write(_) => Bytes::new(alloc),
        _ => bytes,
    };
    Reply::Done { status, bytes }
}

/// Runs a call's command on the blocks of the host's cylinder in a frame, and gives its reply
/// twice: for the history, and for the host.
fn run_in<S: Site>(
    alloc: Global,
    site: &mut S,
    row: &VolumeRow,
    frame: FrameNo,
    call: &Call,
    command: &Command,
    host: &mut HostState,
) -> Result<(Reply, Reply), EngineFault>
    requires staged { IsStagedIn row.now frame host.old }
    requires may { MayRun (call_of call.now) command.now host.old }
    requires tracks { S.tells → AreTracks (content (S.told site.old))
        (frame_block frame host.old.cylinder 0).unit
        (frame_block frame host.old.cylinder 0).block }
    requires room { format_items ≤ S.spare site.old }
    ensures comes { Comes S.tells
        (run_by host.old (frame_block frame host.old.cylinder 0) command.now (call_of call.now))
        (seen_site S.Site site.old) (seen_site S.Site site.new) host.new result }
    ensures site_ { MayWrite S.Site format_items site.old site.new }
    ensures room { IfErr result (λ fault. IsNoFailure fault
        → S.spare site.old ≤ S.spare site.new) }
    ensures works { (but : UnitNo → Bool) → S.never_fails_but site.old but
        → but (frame_block frame host.old.cylinder 0).unit ≡ false → IfErr result IsNoFailure }
    ensures only_reads_fail { (but : UnitNo → Bool) → S.never_fails_but site.old but
        → IfErr result IsNoFailedWrite }
{
    let Call::Command(asked) = call else {
        unreachable!()
    };
    let bytes = asked.argument.as_slice();
    let chained = asked.chained;
    let place = place_in(row, frame, host);
    let reply = run_command(alloc, site, &place, command, bytes, chained, host)?;
    let reply = bare(alloc, command, reply);
    let Ok(copy) = copy_of_reply(alloc, &reply) else {
        return Err(EngineFault::Memory);
    };
    Ok((reply, copy))
}

/// A write touches each task that takes the page.
fn touch_after(command: &Command, tasks: &mut TaskList, volume: VolumeNo, page: Page)
    ensures { tasks.new.items ≡ tasks_after command.now volume page tasks.old.items }
{
    match command {
        Command::Write(_) => touch_all(tasks, volume, page),
        _ => {}
    }
}

/// Closes a call that has its reply: its entry is put last, the host is now this one, and its
/// request ends.
fn close(
    session: &mut Session,
    hosts: &mut HostStateList,
    requests: &mut Queue,
    host: HostNo,
    call: Call,
    told: Told,
    now: HostState,
)
    requires few { length session.old.history.items ≤ ENTRY_LIMIT }
    requires entries { AreEntries session.old.history.items }
    requires room { 1 ≤ session.old.history.spare }
    requires room_marks { 1 ≤ session.old.marks.spare }
    requires room_events { 1 ≤ session.old.events.spare }
    requires hosts { length hosts.old.items ≡ 8 }
    ensures session { session_data session.new ≡ with_reply host (call_of call)
        (reply_of told.reply) told.fault told.mark (session_data session.old) }
    ensures hosts { hosts.new.items ≡ put_host hosts.old.items host now }
    ensures requests { requests.new ≡ without_request host requests.old }
{
    enter(session, host, call, told);
    hosts.set(usize::from(host.get()) - 1, now);
    end_request(requests, host);
}

/// Stops a session in a call a write of which failed, with the count of faults: the entry of the
/// call tells so.
fn halt(session: &mut Session, host: HostNo, call: Call, fault: u64, mark: u64)
    requires few { length session.old.history.items ≤ ENTRY_LIMIT }
    requires entries { AreEntries session.old.history.items }
    requires room { 1 ≤ session.old.history.spare }
    requires room_marks { 1 ≤ session.old.marks.spare }
    requires room_events { 1 ≤ session.old.events.spare }
    ensures { session_data session.new ≡ with_stop fault
        (with_reply host (call_of call) stopped (Some fault) mark (session_data session.old)) }
{
    let entry = Told {
        reply: Reply::Stopped,
        fault: Some(fault),
        mark,
    };
    enter(session, host, call, entry);
    session.stopped = Some(fault);
}

/// Runs a command on the frame of the host's cylinder.
pub fn run_on_frame<S: Site, C: Choose>(
    core: &mut Core<S, C>,
    host: HostNo,
    call: &Call,
    command: &Command,
    volume: VolumeNo,
    frame: FrameNo,
) -> HostAnswer
    requires rule { host_rule core.old host (call_of call.now) ≡ Runs command.now volume frame }
    ensures event { HostStep S.Site core.old host call.now
        (Runs command.now volume frame) result core.new }
    ensures chooser { core.new.chooser ≡ core.old.chooser }
    ensures devices { MayWrite S.Site format_items core.old.site core.new.site }
    ensures room { IsUntold (told_of result) → S.spare core.old.site ≤ S.spare core.new.site }
    ensures works { (but : UnitNo → Bool) → S.never_fails_but core.old.site but
        → but (frame_block frame (host_at core.old.hosts host).cylinder 0).unit ≡ false
        → IsUnfailed (told_of result) }
    ensures only_reads_fail { (but : UnitNo → Bool) → S.never_fails_but core.old.site but
        → GoesOn (told_of result) }
{
    let old = standing(core.hosts.as_slice(), host);
    let alloc = core.alloc;
    let session = &mut core.session;
    let site = &mut core.site;
    let Ok(copy) = prepare(session, site, call, FORMAT_ITEMS) else {
        return HostAnswer::Memory;
    };
    let index = session.history.as_slice().len() as u64;
    let mut now = old;
    let row = row_of(&core.rows, volume);
    let hosts = &mut core.hosts;
    let requests = &mut core.requests;
    match run_in(alloc, site, row, frame, call, command, &mut now) {
        Ok((reply, told)) => {
            let (fault, mark) = (None, site.writes());
            let entry = Told { reply, fault, mark };
            close(session, hosts, requests, host, copy, entry, now);
            touch_after(command, &mut core.tasks, volume, old.cylinder.page());
            core.recency.touch(frame);
            HostAnswer::Replied { index, reply: told }
        }
        Err(EngineFault::ReadFailed { fault }) => {
            let (reply, fault, mark) = (Reply::EquipmentCheck, Some(fault), site.writes());
            let entry = Told { reply, fault, mark };
            let now = checked(UnitCheck::EquipmentCheck, &old);
            close(session, hosts, requests, host, copy, entry, now);
            let reply = Reply::EquipmentCheck;
            HostAnswer::Replied { index, reply }
        }
        Err(EngineFault::WriteFailed { fault }) => {
            halt(session, host, copy, fault, site.writes());
            HostAnswer::Stopped { fault }
        }
        Err(EngineFault::Memory) => {
            drop(copy);
            HostAnswer::Memory
        }
    }
}
