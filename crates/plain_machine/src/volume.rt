// Volumes of the plain machine, with every track.
ghost use Rattle.std.specs.Prelude.{◌≡◌, ◌<◌, [], length, replicate, slice_set, slice_index_or, IfOk, OnErr};
ghost use Rattle.channel_commands.specs.Views.{for_command};
ghost use Rattle.ckd_plain.specs.Plain.{answer_on_tracks, tracks_under};
ghost use Rattle.ckd_plain.specs.Views.{Responds};
ghost use Rattle.plain_machine.specs.StateData.{volumes_of, AnswersOn};
ghost use Rattle.plain_machine.specs.Outcomes.{cylinder_of, Answers};
ghost use Rattle.mss_base.specs.Geometry.{volume_cylinders, cylinder_heads};

use crate::run::run_command;
use channel_commands::{DeviceCommand, Reply};
use ckd_plain::HostState;
use ckd_track::{Records, Track};
use mss_base::{CYLINDERS, Cylinder, HEADS, Head, NoMemory, Serial};
use std::alloc::Global;
use std::marker::Model;

/// The tracks of a cylinder, one a head.
#[derive(Drop)]
pub struct CylinderTracks {
    tracks: Vec<Track>,
}

impl Model for CylinderTracks {
    ghost use Rattle.std.specs.Prelude.{◌≡◌, List, length};
    ghost use Rattle.mss_base.specs.Geometry.{cylinder_heads};
    ghost use Rattle.ckd_track.specs.Data.{RecordData};

    ghost Value = { List (List RecordData) };

    ghost view = { λ c. c.tracks.items };

    ghost invariant = { λ c. length c.tracks.items ≡ cylinder_heads };
}

impl CylinderTracks {
    /// Tracks without records.
    pub fn blank(alloc: Global) -> Result<CylinderTracks, NoMemory>
        ensures { IfOk result (λ c. c ≡ replicate cylinder_heads []) }
    {
        let mut tracks = Vec::new(alloc);
        for _ in 0..HEADS {
            tracks.push(Track {
                records: Records::new(alloc),
            })?;
        }
        Ok(CylinderTracks { tracks })
    }

    pub fn track(&self, head: Head) -> &Track
        ensures { result.now ≡ cylinder_of self.now head }
    {
        &self.tracks[usize::from(head.get())]
    }

    fn run(
        &mut self,
        alloc: Global,
        host: &mut HostState,
        command: &DeviceCommand,
    ) -> Result<Reply, NoMemory>
        ensures answer { IfOk result (Answers
            (for_command (answer_on_tracks (cylinder_of self.old) host.old) command.now)
            host.old self.old self.new host.new) }
        ensures host_stays { OnErr result (host.new ≡ host.old) }
        ensures tracks_stay { OnErr result (self.new ≡ self.old) }
        ensures head { host.old.head < length self.old }
    {
        let _head = host.head.get();
        run_command(alloc, &mut self.tracks, host, command)
    }
}

/// A volume: its serial, whether it is read-only, and its cylinders.
#[derive(Drop)]
pub struct PlainVolume {
    serial: Serial,
    read_only: bool,
    cylinders: Vec<CylinderTracks>,
}

impl Model for PlainVolume {
    ghost use Rattle.ckd_plain.specs.Views.{Responds};
    ghost use Rattle.plain_machine.specs.StateData.{VolumeData, HasCylinders};

    ghost Value = { VolumeData };

    ghost view = { λ v. record
        { serial = v.serial; read_only = v.read_only; cylinders = v.cylinders.items } };

    ghost invariant = { λ v. HasCylinders (record
        { serial = v.serial; read_only = v.read_only; cylinders = v.cylinders.items }) };
}

impl PlainVolume {
    /// A volume without records, read-only or not.
    pub fn blank(alloc: Global, serial: Serial, read_only: bool) -> Result<PlainVolume, NoMemory>
        ensures serial { IfOk result (λ v. v.serial ≡ serial) }
        ensures read_only { IfOk result (λ v. v.read_only ≡ read_only) }
        ensures cylinders { IfOk result
            (λ v. v.cylinders ≡ replicate volume_cylinders (replicate cylinder_heads [])) }
    {
        let mut cylinders = Vec::new(alloc);
        for _ in 0..CYLINDERS {
            cylinders.push(CylinderTracks::blank(alloc)?)?;
        }
        Ok(PlainVolume {
            serial,
            read_only,
            cylinders,
        })
    }

    pub fn is_read_only(&self) -> bool
        ensures { result ≡ self.now.read_only }
    {
        self.read_only
    }

    pub fn track(&self, cylinder: Cylinder, head: Head) -> &Track
        ensures { result.now
            ≡ slice_index_or (slice_index_or self.now.cylinders cylinder []) head [] }
    {
        self.cylinders[usize::from(cylinder.get())].track(head)
    }

    /// A command of a host that has this volume mounted.
    fn run(
        &mut self,
        alloc: Global,
        host: &mut HostState,
        command: &DeviceCommand,
    ) -> Result<Reply, NoMemory>
        ensures serial { self.new.serial ≡ self.old.serial }
        ensures read_only { self.new.read_only ≡ self.old.read_only }
        ensures cylinders { let c = host.old.cylinder in
            self.new.cylinders
            ≡ slice_set self.old.cylinders c (slice_index_or self.new.cylinders c []) }
        ensures answer { let old = slice_index_or self.old.cylinders host.old.cylinder [] in
            let new = slice_index_or self.new.cylinders host.old.cylinder [] in
            IfOk result (Answers
            (for_command (answer_on_tracks (cylinder_of old) host.old) command.now)
            host.old old new host.new) }
        ensures host_stays { OnErr result (host.new ≡ host.old) }
        ensures tracks_stay { OnErr result (self.new ≡ self.old) }
        ensures place { host.old.cylinder < length self.old.cylinders }
        ensures head { host.old.head
            < length (slice_index_or self.old.cylinders host.old.cylinder []) }
    {
        let place = usize::from(host.cylinder.get());
        let cylinder = &mut self.cylinders[place];
        cylinder.run(alloc, host, command)
    }
}

/// A command where no track has records.
fn run_blank(
    alloc: Global,
    host: &mut HostState,
    command: &DeviceCommand,
) -> Result<Reply, NoMemory>
    ensures answer { IfOk result (Responds
        (for_command (answer_on_tracks (λ head. []) host.old) command.now) host.new) }
    ensures host_stays { OnErr result (host.new ≡ host.old) }
{
    let mut blank = CylinderTracks::blank(alloc)?;
    blank.run(alloc, host, command)
}

/// A command of a host, on the volume that it has mounted among all volumes.
pub fn run_under(
    alloc: Global,
    volumes: &mut [Option<PlainVolume>],
    host: &mut HostState,
    command: &DeviceCommand,
) -> Result<Reply, NoMemory>
    requires { length volumes.old ≡ 32 }
    ensures answer { IfOk result (AnswersOn
        (for_command (answer_on_tracks
        (tracks_under (volumes_of volumes.old) host.old) host.old) command.now)
        host.old volumes.old volumes.new host.new) }
    ensures host_stays { OnErr result (host.new ≡ host.old) }
    ensures volumes_stay { OnErr result (volumes.new ≡ volumes.old) }
{
    let Some((number, _)) = host.mounted else {
        return run_blank(alloc, host, command);
    };
    match &mut volumes[usize::from(number.get())] {
        Some(volume) => volume.run(alloc, host, command),
        None => run_blank(alloc, host, command),
    }
}
