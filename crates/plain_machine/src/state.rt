// The state of the plain machine, and its step.
ghost use Rattle.std.specs.Prelude.{◌≡◌, ◌≢◌, ◌<◌, [], length, replicate, slice_set, option_map, AllPairs, IfOk, OnErr, IsNone, IfSome, ◌↔◌, None, Some, false};
ghost use Rattle.channel_commands.specs.Data.{is_command};
ghost use Rattle.channel_commands.specs.Views.{asked_of, call_of, reply_of};
ghost use Rattle.ckd_plain.specs.Plain.{plain, mark_for, with_host, start_of, blank_volumes, fresh_host};
ghost use Rattle.plain_machine.specs.StateData.{state_of};

use crate::volume::{PlainVolume, run_under};
use channel_commands::{Call, DeviceCommand, Reply};
use ckd_plain::HostState;
use ckd_plain::steps::respond;
use ckd_track::Track;
use mss_base::{Cylinder, Head, HostNo, NoMemory, Serial, VolumeNo};
use std::alloc::Global;
use std::marker::Model;

/// The plain machine's state: each host, and each volume with all its tracks.
#[derive(Drop)]
pub struct PlainState {
    // Each stands at the place of its number; no host has number 0.
    hosts: [HostState; 9],
    volumes: Vec<Option<PlainVolume>>,
}

impl Model for PlainState {
    ghost use Rattle.plain_machine.specs.StateData.{StateData, IsFull};

    ghost Value = { StateData };

    ghost view = { λ s. record { hosts = s.hosts; volumes = s.volumes.items } };

    ghost invariant = { λ s. IsFull (record { hosts = s.hosts; volumes = s.volumes.items }) };
}

impl PlainState {
    /// A state without volumes.
    fn empty(alloc: Global) -> Result<PlainState, NoMemory>
        ensures { IfOk result (λ s. s ≡ record
            { hosts = replicate 9 fresh_host; volumes = replicate 32 None }) }
    {
        let mut volumes = Vec::new(alloc);
        for _ in 0..32usize {
            volumes.push(None)?;
        }
        Ok(PlainState {
            hosts: [HostState::fresh(); 9],
            volumes,
        })
    }

    fn put(&mut self, number: VolumeNo, volume: PlainVolume)
        ensures value { self.new ≡ record self.old
            { volumes = slice_set self.old.volumes number (Some volume) } }
        ensures place { number < length self.old.volumes }
    {
        self.volumes[usize::from(number.get())] = Some(volume);
    }

    /// A state of these volumes, each without records, and of hosts that have mounted none.
    ///
    /// A volume is its number, its serial, and whether it is read-only; the numbers differ. On a read-only volume each
    /// write is file protected, so its tracks stay blank.
    pub fn blank(
        alloc: Global,
        volumes: &[(VolumeNo, Serial, bool)],
    ) -> Result<PlainState, NoMemory>
        requires { AllPairs (λ a b. a.0 ≢ b.0) volumes.now }
        ensures { IfOk result (λ s. state_of s ≡ start_of (blank_volumes volumes.now)) }
    {
        let mut state = PlainState::empty(alloc)?;
        for (number, serial, read_only) in volumes {
            state.put(*number, PlainVolume::blank(alloc, *serial, *read_only)?);
        }
        Ok(state)
    }

    /// The track, where the volume is there and the track has records.
    pub fn track(&self, volume: VolumeNo, cylinder: Cylinder, head: Head) -> Option<&Track>
        ensures absent { IsNone result
            ↔ ((state_of self.now).volumes.track volume cylinder head ≡ []) }
        ensures track { IfSome result (λ t.
            t.now ≡ (state_of self.now).volumes.track volume cylinder head) }
    {
        let volume = self.volumes[usize::from(volume.get())].as_ref()?;
        let track = volume.track(cylinder, head);
        if track.records.as_slice().is_empty() {
            return None;
        }
        Some(track)
    }

    pub fn host(&self, host: HostNo) -> &HostState
        ensures { result.now ≡ (state_of self.now).host host }
    {
        &self.hosts[usize::from(host.get())]
    }

    #[tactic(auto, using(crate::proofs::StateFacts::host_put))]
    fn set_host(&mut self, host: HostNo, new: HostState)
        ensures { state_of self.new ≡ with_host (state_of self.old) host new }
    {
        self.hosts[usize::from(host.get())] = new;
    }

    /// Whether a volume is read-only, where it is there.
    fn mark(&self, volume: VolumeNo) -> Option<bool>
        ensures { result ≡ option_map
            (λ serial. (state_of self.now).volumes.read_only volume)
            ((state_of self.now).volumes.serial volume) }
    {
        match &self.volumes[usize::from(volume.get())] {
            Some(kept) => Some(kept.is_read_only()),
            None => None,
        }
    }

    /// Whether the volume that a call asks for is read-only, where it is there.
    fn mark_of(&self, call: &Call) -> Option<bool>
        ensures { result ≡ mark_for (state_of self.now).volumes (call_of call.now) }
    {
        match call {
            Call::Mount { volume, .. } => self.mark(*volume),
            _ => None,
        }
    }

    /// A call that is no command.
    #[tactic(auto, using(ckd_plain::proofs::ResponseFacts::no_command_responds))]
    fn respond(&mut self, host: HostNo, call: &Call) -> Reply
        requires { is_command (call_of call.now) ≡ false }
        ensures { (reply_of result, state_of self.new)
            ≡ plain (state_of self.old) host (call_of call.now) }
    {
        let mark = self.mark_of(call);
        let (reply, now) = respond(self.host(host), mark, call);
        self.set_host(host, now);
        reply
    }

    fn command(
        &mut self,
        alloc: Global,
        host: HostNo,
        command: &DeviceCommand,
    ) -> Result<Reply, NoMemory>
        ensures answer { IfOk result (λ reply. (reply_of reply, state_of self.new)
            ≡ plain (state_of self.old) host (asked_of command.now)) }
        ensures unchanged { OnErr result (self.new ≡ self.old) }
    {
        let mut now = *self.host(host);
        let reply = run_under(alloc, &mut self.volumes, &mut now, command)?;
        self.set_host(host, now);
        Ok(reply)
    }
}

/// A host's call: the reply of the plain machine, and its state then.
///
/// After want of memory the state is as it was.
pub fn plain_step(
    alloc: Global,
    state: &mut PlainState,
    host: HostNo,
    call: &Call,
) -> Result<Reply, NoMemory>
    ensures answer { IfOk result (λ reply. (reply_of reply, state_of state.new)
        ≡ plain (state_of state.old) host (call_of call.now)) }
    ensures unchanged { OnErr result (state.new ≡ state.old) }
{
    match call {
        Call::Command(command) => state.command(alloc, host, command),
        _ => Ok(state.respond(host, call)),
    }
}
