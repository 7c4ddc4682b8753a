//! The job of a load.
ghost use Rattle.std.specs.Prelude.{◌≡◌, ◌<◌, ◌≤◌, ◌^◌, ◌++◌, [], ◌∷◌, false, IfOk, OnOk, length, map};
ghost use Rattle.job_text.specs.Jobs.{IsJob};
ghost use Rattle.job_text.specs.Views.{item_of};
ghost use Rattle.draws.specs.Load.{load_config, load_job, load_serial, own_program, script_of};

use crate::program::program_of;
use crate::turns::draws;
use job_text::{HostScript, HostScripts, Item, ItemList, Job};
use mss_base::{Config, HostNo, NoMemory, Serial, VolumeList, VolumeNo};
use std::alloc::Global;

/// Puts the program of three draws last, where its number makes it the host's.
fn put_own(
    items: &mut ItemList,
    alloc: Global,
    host: HostNo,
    number: u32,
    drawn: (u32, u32, u32),
) -> Result<(), NoMemory>
    ensures { OnOk result (map item_of items.new.items
        ≡ map item_of items.old.items ++ own_program host number drawn.0 drawn.1 drawn.2) }
{
    if 1 + number % 4 == u32::from(host.get()) {
        let program = program_of(alloc, drawn.0, drawn.1, drawn.2)?;
        items.reserve(1)?;
        items.push(Item::Run(program));
    }
    Ok(())
}

/// What a host does: it mounts its volume, and runs each fourth program of the words.
fn script_of(alloc: Global, host: HostNo, words: &[u32]) -> Result<HostScript, NoMemory>
    requires { length words.now < 2 ^ 31 }
    ensures { IfOk result (λ script. script ≡ script_of host words.now) }
{
    let volume = VolumeNo::of(host.get() - 1).unwrap();
    let mut items = ItemList::new(alloc);
    items.reserve(1)?;
    items.push(Item::Mount {
        volume,
        bind: false,
    });
    let mut number = 0u32;
    let mut rest = words;
    while let [place, head, choice, after @ ..] = rest {
        put_own(&mut items, alloc, host, number, (*place, *head, *choice))?;
        number += 1;
        rest = after;
    }
    Ok(HostScript { host, items })
}

/// Puts what a host does behind those before it.
fn put_script(
    hosts: &mut HostScripts,
    alloc: Global,
    number: u8,
    words: &[u32],
) -> Result<(), NoMemory>
    requires host { (1 ≤ number) × (number ≤ 8) }
    requires few { length words.now < 2 ^ 31 }
    ensures { OnOk result (hosts.new.items ≡ hosts.old.items ++ script_of number words.now ∷ []) }
{
    let host = HostNo::of(number).unwrap();
    let script = script_of(alloc, host, words)?;
    hosts.reserve(1)?;
    hosts.push(script);
    Ok(())
}

/// The serial of a load's volume: `LOAD00` to `LOAD03`.
fn load_serial(number: u8) -> Serial
    requires { number ≤ 3 }
    ensures { result ≡ load_serial number }
{
    Serial::of([b'L', b'O', b'A', b'D', b'0', b'0' + number]).unwrap()
}

/// Puts a volume behind those before it.
fn put_volume(volumes: &mut VolumeList, number: u8) -> Result<(), NoMemory>
    requires { number ≤ 3 }
    ensures { OnOk result (volumes.new.items
        ≡ volumes.old.items ++ (number, load_serial number, false) ∷ []) }
{
    let volume = VolumeNo::of(number).unwrap();
    volumes.reserve(1)?;
    volumes.push((volume, load_serial(number), false));
    Ok(())
}

/// What a load's run is made of: 24 frames, 2 recorders and 4 volumes.
fn load_config(alloc: Global) -> Result<Config, NoMemory>
    ensures { IfOk result (λ config. config ≡ load_config) }
{
    let mut volumes = VolumeList::new(alloc);
    put_volume(&mut volumes, 0)?;
    put_volume(&mut volumes, 1)?;
    put_volume(&mut volumes, 2)?;
    put_volume(&mut volumes, 3)?;
    Ok(Config {
        frames: 24,
        recorders: 2,
        volumes,
    })
}

/// The job of a load: `order` draws so many channel programs, 1 to 1,000, for four hosts in turn.
///
/// Host h mounts volume h - 1 and runs every fourth program, host 1 the first. Each program seeks
/// to a track that was drawn, and formats its R1, or reads its R0.
pub fn load_job(alloc: Global, order: u64, programs: u32) -> Result<Job, NoMemory>
    requires some { 1 ≤ programs }
    requires few { programs ≤ 1000 }
    ensures job { IfOk result (λ job. job ≡ load_job order programs) }
    ensures whole { IfOk result IsJob }
{
    let drawn = draws(alloc, order, 3 * programs)?;
    let words = drawn.as_slice();
    let config = load_config(alloc)?;
    let mut hosts = HostScripts::new(alloc);
    put_script(&mut hosts, alloc, 1, words)?;
    put_script(&mut hosts, alloc, 2, words)?;
    put_script(&mut hosts, alloc, 3, words)?;
    put_script(&mut hosts, alloc, 4, words)?;
    Ok(Job { config, hosts })
}
