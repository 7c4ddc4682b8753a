// What a core needs of memory, which is taken before anything is written.
ghost use Rattle.std.specs.Prelude.{◌≡◌, ◌≤◌, ◌*◌, ℕ, [], length, replicate, None, IfOk};
ghost use Rattle.cartridge_store.specs.Places.{home_of, place_of};
ghost use Rattle.ckd_plain.specs.Plain.{fresh_host};
ghost use Rattle.staging_adapter.specs.Frames.{free_frames};
ghost use Rattle.victim_choice.specs.Order.{first_order};

use cartridge_store::Store;
use ckd_plain::HostState;
use core_state::{HostStateList, MessageList, RecorderList, TaskList};
use fault_queue::Queue;
use mss_base::{Block, Config, NoMemory, Serial, VolumeList, VolumeNo};
use recording_devices::Recorder;
use staging_adapter::Frames;
use std::alloc::Global;
use victim_choice::Recency;

/// The parts of a core that take memory, but for its rows, each at its start.
#[derive(Drop)]
pub struct Parts {
    pub config: Config,
    pub buffer: Block,
    pub frames: Frames,
    pub recency: Recency,
    pub requests: Queue,
    pub tasks: TaskList,
    pub store: Store,
    pub recorders: RecorderList,
    pub hosts: HostStateList,
    /// Room for two messages of each configured volume: that it was created, and that its mark was changed.
    pub console: MessageList,
}

fn copy_of(alloc: Global, config: &Config) -> Result<Config, NoMemory>
    ensures { IfOk result (λ copy. copy ≡ config.now) }
{
    let volumes = VolumeList::of(alloc, config.volumes.as_slice())?;
    Ok(Config {
        frames: config.frames,
        recorders: config.recorders,
        volumes,
    })
}

/// No task for any of so many recorders, 8 at most.
fn no_tasks(alloc: Global, count: u8) -> Result<TaskList, NoMemory>
    requires { count ≤ 8 }
    ensures { IfOk result (λ tasks. tasks.items ≡ replicate count None) }
{
    let mut tasks = Vec::from_slice(alloc, &[None; 8])?;
    tasks.truncate(count as usize);
    Ok(tasks)
}

/// So many recorders, each without a cartridge.
fn empty_recorders(alloc: Global, count: u8) -> Result<RecorderList, NoMemory>
    ensures { IfOk result (λ recorders. recorders.items ≡ replicate count None) }
{
    let mut recorders = RecorderList::new(alloc);
    recorders.reserve(count as usize)?;
    for _ in 0..count {
        recorders.push(Recorder::empty());
    }
    Ok(recorders)
}

/// The hosts 1 to 8 as a session begins with them.
fn fresh_hosts(alloc: Global) -> Result<HostStateList, NoMemory>
    ensures { IfOk result (λ hosts. hosts.items ≡ replicate 8 fresh_host) }
{
    HostStateList::of(alloc, &[HostState::fresh(); 8])
}

/// Room for two messages of each of these volumes.
fn console_for(alloc: Global, volumes: &[(VolumeNo, Serial, bool)]) -> Result<MessageList, NoMemory>
    ensures none { IfOk result (λ console. console.items ≡ []) }
    ensures room { IfOk result (λ console. 2 * length volumes.now ≤ console.spare) }
{
    let mut console = MessageList::new(alloc);
    console.reserve(2 * volumes.len())?;
    Ok(console)
}

/// The frames, which are all free, and the order in which they were touched.
fn frame_parts(alloc: Global, count: u16) -> Result<(Frames, Recency), NoMemory>
    requires some { 1 ≤ count }
    requires few { count ≤ 200 }
    ensures frames { IfOk result (λ parts. parts.0 ≡ free_frames count) }
    ensures recency { IfOk result (λ parts. parts.1 ≡ first_order count) }
{
    let frames = Frames::new(alloc, count)?;
    let recency = Recency::new(alloc, count)?;
    Ok((frames, recency))
}

/// The recorders, each without a cartridge and a task, and the cartridges, all at home.
fn device_parts(alloc: Global, count: u8) -> Result<(TaskList, RecorderList, Store), NoMemory>
    requires { count ≤ 8 }
    ensures tasks { IfOk result (λ parts. parts.0.items ≡ replicate count None) }
    ensures recorders { IfOk result (λ parts. parts.1.items ≡ replicate count None) }
    ensures at_home { IfOk result (λ parts.
        (cartridge : ℕ) → place_of parts.2 cartridge ≡ home_of cartridge) }
{
    let tasks = no_tasks(alloc, count)?;
    let recorders = empty_recorders(alloc, count)?;
    let store = Store::new(alloc)?;
    Ok((tasks, recorders, store))
}

/// The hosts as they begin, with no request, and room for two messages of each of these volumes.
fn host_parts(
    alloc: Global,
    volumes: &[(VolumeNo, Serial, bool)],
) -> Result<(HostStateList, Queue, MessageList), NoMemory>
    ensures hosts { IfOk result (λ parts. parts.0.items ≡ replicate 8 fresh_host) }
    ensures requests { IfOk result (λ parts. parts.1 ≡ []) }
    ensures console { IfOk result (λ parts. parts.2.items ≡ []) }
    ensures room { IfOk result (λ parts. 2 * length volumes.now ≤ parts.2.spare) }
{
    let hosts = fresh_hosts(alloc)?;
    let requests = Queue::new(alloc)?;
    let console = console_for(alloc, volumes)?;
    Ok((hosts, requests, console))
}

/// Room for a block, and the configuration.
fn own_parts(alloc: Global, config: &Config) -> Result<(Block, Config), NoMemory>
    ensures { IfOk result (λ parts. parts.1 ≡ config.now) }
{
    let buffer = Block::zeros(alloc)?;
    let config = copy_of(alloc, config)?;
    Ok((buffer, config))
}

/// The frames and the recorders of a configuration, each at its start.
fn machine_parts(
    alloc: Global,
    config: &Config,
) -> Result<((Frames, Recency), (TaskList, RecorderList, Store)), NoMemory>
    ensures frames { IfOk result (λ parts. parts.0.0 ≡ free_frames config.now.frames) }
    ensures recency { IfOk result (λ parts. parts.0.1 ≡ first_order config.now.frames) }
    ensures tasks { IfOk result (λ parts.
        parts.1.0.items ≡ replicate config.now.recorders None) }
    ensures recorders { IfOk result (λ parts.
        parts.1.1.items ≡ replicate config.now.recorders None) }
    ensures at_home { IfOk result (λ parts.
        (cartridge : ℕ) → place_of parts.1.2 cartridge ≡ home_of cartridge) }
{
    let frames = frame_parts(alloc, config.frames)?;
    let devices = device_parts(alloc, config.recorders)?;
    Ok((frames, devices))
}

impl Parts {
    ghost use Rattle.core_restart.specs.Parts.{AreParts};

    /// The parts for a configuration.
    pub fn new(alloc: Global, config: &Config) -> Result<Parts, NoMemory>
        ensures { IfOk result (AreParts config.now) }
    {
        // Each group stays together until all are there: so an exit lets few things go.
        let own = own_parts(alloc, config)?;
        let hosts = host_parts(alloc, config.volumes.as_slice())?;
        let machine = machine_parts(alloc, config)?;
        let (buffer, config) = own;
        let (hosts, requests, console) = hosts;
        let ((frames, recency), (tasks, recorders, store)) = machine;
        Ok(Parts {
            config,
            buffer,
            frames,
            recency,
            requests,
            tasks,
            store,
            recorders,
            hosts,
            console,
        })
    }
}
