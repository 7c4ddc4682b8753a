// The core.
ghost use Rattle.std.specs.Prelude.{◌≡◌};
ghost use Rattle.std.specs.Option.{option_map};
ghost use Rattle.fault_queue.specs.Requests.{request_of};
ghost use Rattle.core_state.specs.Pins.{owner_of, task_at};

use crate::looks::owner_of;
use crate::session::{EntryList, EventList, MarkList, MessageList, Session};
use crate::task::Task;
use accessors::Rail;
use cartridge_store::Store;
use ckd_plain::HostState;
use fault_queue::{Queue, Request};
use mss_base::{Block, Config, HostNo, Listed, RecorderNo, Site, VolumeNo};
use recording_devices::Recorder;
use staging_adapter::Frames;
use std::alloc::Global;
use std::marker::Model;
use table_pair::SlotsUsedList;
use victim_choice::{Choose, Chooser, Recency};
use volume_table::Rows;

/// The tasks of the configured recorders, by number.
pub type TaskList = Vec<Option<Task>>;

/// The configured recorders, by number.
pub type RecorderList = Listed<Recorder>;

/// The states of the hosts 1 to 8, in order.
pub type HostStateList = Listed<HostState>;

/// The devices of a session, and all that is known of them. In a clause it is a `CoreValue`.
#[derive(Drop)]
pub struct Core<S: Site, C: Choose> {
    pub config: Config,
    pub chooser: Chooser<C>,
    pub site: S,
    /// Whence the events take their memory.
    pub alloc: Global,
    /// Room for the block of one track.
    pub buffer: Block,
    pub rows: Rows,
    /// How many slots of the copies of each row are in use.
    pub used: SlotsUsedList,
    pub frames: Frames,
    pub recency: Recency,
    pub requests: Queue,
    pub tasks: TaskList,
    pub store: Store,
    pub rail: Rail,
    pub recorders: RecorderList,
    pub hosts: HostStateList,
    pub session: Session,
}

impl<S: Site, C: Choose> Model for Core<S, C> {
    ghost use Rattle.core_state.specs.CoreValue.{CoreValue};
    ghost use Rattle.core_state.specs.TheCore.{IsKept};

    ghost Value = { CoreValue S C };

    ghost view = { λ c. record {
      site = c.site;
      chooser = c.chooser;
      config = c.config;
      rows = c.rows;
      used = c.used.items;
      owners = c.frames.owners;
      moving = c.frames.moving;
      recency = c.recency;
      requests = c.requests;
      tasks = c.tasks.items;
      recorders = c.recorders.items;
      store = c.store;
      rail = c.rail;
      hosts = c.hosts.items;
      history = c.session.history.items;
      marks = c.session.marks.items;
      console = c.session.console.items;
      events = c.session.events.items;
      first_write = c.session.first_write;
      first_faults = c.session.first_faults;
      stopped = c.session.stopped;
    } };

    ghost invariant = { λ c.
        IsKept S.tells (S.told c.site) (S.writes c.site) (S.faults c.site)
        (record {
          site = c.site;
          chooser = c.chooser;
          config = c.config;
          rows = c.rows;
          used = c.used.items;
          owners = c.frames.owners;
          moving = c.frames.moving;
          recency = c.recency;
          requests = c.requests;
          tasks = c.tasks.items;
          recorders = c.recorders.items;
          store = c.store;
          rail = c.rail;
          hosts = c.hosts.items;
          history = c.session.history.items;
          marks = c.session.marks.items;
          console = c.session.console.items;
          events = c.session.events.items;
          first_write = c.session.first_write;
          first_faults = c.session.first_faults;
          stopped = c.session.stopped;
        }) };
}

impl<S: Site, C: Choose> Core<S, C> {
    ghost use Rattle.std.specs.Prelude.{◌≤◌};

    /// How many recorders there are, 1 to 8.
    pub fn recorder_count(&self) -> u8
        ensures value { result ≡ self.now.config.recorders }
        ensures some { 1 ≤ result }
        ensures few { result ≤ 8 }
    {
        self.config.recorder_count()
    }

    /// The entries so far, [`ENTRY_LIMIT`] at most.
    pub fn history(&self) -> &EntryList
        ensures { result.now.items ≡ self.now.history }
    {
        &self.session.history
    }

    /// For each entry, how many writes the site had made when it was answered.
    pub fn marks(&self) -> &MarkList
        ensures { result.now.items ≡ self.now.marks }
    {
        &self.session.marks
    }

    /// The changes of rows, in order.
    pub fn console(&self) -> &MessageList
        ensures { result.now.items ≡ self.now.console }
    {
        &self.session.console
    }

    /// The events that changed the core, in order.
    pub fn events(&self) -> &EventList
        ensures { result.now.items ≡ self.now.events }
    {
        &self.session.events
    }

    /// The rows of the volumes, by number.
    pub fn rows(&self) -> &Rows
        ensures { result.now ≡ self.now.rows }
    {
        &self.rows
    }

    /// Which page has each frame, and which frames tasks use.
    pub fn frames(&self) -> &Frames
        ensures owners { result.now.owners ≡ self.now.owners }
        ensures moving { result.now.moving ≡ self.now.moving }
    {
        &self.frames
    }

    /// The host that owns a volume: it has the volume mounted, and a chain open or a request for
    /// it. At most one does.
    pub fn owner(&self, volume: VolumeNo) -> Option<HostNo>
        ensures { result ≡ owner_of self.now volume }
    {
        owner_of(self.hosts.as_slice(), &self.requests, volume)
    }

    /// The request of a host, if it has one.
    pub fn request(&self, host: HostNo) -> Option<Request>
        ensures { result ≡ request_of self.now.requests host }
    {
        self.requests.of(host)
    }

    /// What a recorder works on. None where it has no task, or isn't configured.
    pub fn task(&self, recorder: RecorderNo) -> Option<&Task>
        ensures { option_map (λ task. task.now) result ≡ task_at self.now.tasks recorder }
    {
        let number = usize::from(recorder.get());
        if number < self.tasks.len() {
            self.tasks[number].as_ref()
        } else {
            None
        }
    }

    /// The count of faults behind the write that failed and stopped the core.
    pub fn stopped(&self) -> Option<u64>
        ensures { result ≡ self.now.stopped }
    {
        self.session.stopped
    }
}

impl<S: Site, C: Choose + Drop> Core<S, C> {
    ghost use Rattle.core_state.specs.SessionData.{data_of};
    ghost use Rattle.core_state.specs.Sessions.{session_data};

    /// The site, the session and the rows, as far as they came.
    pub fn into_session(self) -> (S, Session, Rows)
        ensures site { result.0 ≡ self.site }
        ensures session { session_data result.1 ≡ data_of self }
        ensures rows { result.2 ≡ self.rows }
    {
        let Core {
            config: _,
            chooser: _,
            site,
            alloc: _,
            buffer: _,
            rows,
            used: _,
            frames: _,
            recency: _,
            requests: _,
            tasks: _,
            store: _,
            rail: _,
            recorders: _,
            hosts: _,
            session,
        } = self;
        (site, session, rows)
    }
}
