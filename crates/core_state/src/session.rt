// What a session keeps for its report.
ghost use Rattle.std.specs.Prelude.{◌≡◌, ◌≤◌, ◌++◌, [], ◌∷◌, OnOk};

use ckd_plain::Entry;
use mss_base::{FrameNo, HostNo, Listed, NoMemory, RecorderNo, VolumeNo};
use std::alloc::Global;
use volume_table::Change;

/// How many entries a history has at most.
pub const ENTRY_LIMIT: usize = 4096;

/// A change of a row.
#[derive(Clone, Copy, Debug, PartialEq, Eq)]
pub struct Message {
    /// How many writes the site had made when both copies of the row had it.
    pub mark: u64,
    pub volume: VolumeNo,
    pub change: Change,
    /// The frame that the page of a `Free` had before it. For every other change it is None.
    pub freed: Option<FrameNo>,
}

/// A host's call, or a recorder's work.
#[derive(Clone, Copy, Debug, PartialEq, Eq)]
pub enum Event {
    Host(HostNo),
    Work(RecorderNo),
}

/// The entries of a history, in order.
pub type EntryList = Listed<Entry>;

/// Numbers of writes, in order.
pub type MarkList = Listed<u64>;

/// Changes of rows, in order.
pub type MessageList = Listed<Message>;

/// Events, in order.
pub type EventList = Listed<Event>;

/// What a session tells: its history with the mark of each entry, the changes of rows, and the
/// events that changed the core.
#[derive(Drop)]
pub struct Session {
    pub history: EntryList,
    /// For each entry, how many writes the site had made when it was answered.
    pub marks: MarkList,
    pub console: MessageList,
    pub events: EventList,
    /// How many writes the site had made when the session began.
    pub first_write: u64,
    /// How many faults the site had counted then.
    pub first_faults: u64,
    /// The count of faults behind the write that failed and stopped the session.
    pub stopped: Option<u64>,
}

/// How many entries get room behind so many: all that a history may have, at the first one. Room that isn't used costs
/// nothing, while a list that grows is copied each time.
fn room_behind(entries: usize) -> usize
    ensures { 1 ≤ result }
{
    if entries == 0 {
        return ENTRY_LIMIT;
    }
    1
}

impl Session {
    ghost use Rattle.core_state.specs.SessionData.{new_session, with_last_entry, with_last_event};
    ghost use Rattle.core_state.specs.SessionData.{with_last_message};
    ghost use Rattle.core_state.specs.Sessions.{HasRoom, TellsTheSame, session_data};

    /// A session that begins at these counts of its site, with these changes of rows on its
    /// console.
    pub fn new(alloc: Global, console: MessageList, first_write: u64, first_faults: u64) -> Session
        ensures { session_data result ≡ new_session console.items first_write first_faults }
    {
        Session {
            history: EntryList::new(alloc),
            marks: MarkList::new(alloc),
            console,
            events: EventList::new(alloc),
            first_write,
            first_faults,
            stopped: None,
        }
    }

    /// Makes room for what one event tells. After want of memory all but the room is as it was.
    #[inline(always)]
    pub fn reserve(&mut self) -> Result<(), NoMemory>
        ensures same { TellsTheSame self.old self.new }
        ensures room { OnOk result (HasRoom self.new) }
    {
        let room = room_behind(self.history.as_slice().len());
        self.history.reserve(room)?;
        self.marks.reserve(room)?;
        self.console.reserve(1)?;
        self.events.reserve(1)?;
        Ok(())
    }

    /// Puts an entry last, with its mark.
    pub fn append(&mut self, entry: Entry, mark: u64)
        requires room { 1 ≤ self.old.history.spare }
        requires room_marks { 1 ≤ self.old.marks.spare }
        ensures said { session_data self.new ≡ with_last_entry entry mark (session_data self.old) }
        ensures history { self.new.history.items ≡ self.old.history.items ++ entry ∷ [] }
        ensures marks { self.new.marks.items ≡ self.old.marks.items ++ mark ∷ [] }
        ensures console { self.new.console ≡ self.old.console }
        ensures events { self.new.events ≡ self.old.events }
        ensures first_write { self.new.first_write ≡ self.old.first_write }
        ensures first_faults { self.new.first_faults ≡ self.old.first_faults }
        ensures stopped { self.new.stopped ≡ self.old.stopped }
    {
        self.history.push(entry);
        self.marks.push(mark);
    }

    /// Puts a message last: a change of a volume's row, which stood when so many writes were made.
    pub fn tell(&mut self, mark: u64, volume: VolumeNo, change: &Change, freed: Option<FrameNo>)
        requires room { 1 ≤ self.old.console.spare }
        ensures told { session_data self.new ≡ with_last_message
            (record { mark = mark; volume = volume; change = change.now; freed = freed })
            (session_data self.old) }
        ensures history { self.new.history ≡ self.old.history }
        ensures marks { self.new.marks ≡ self.old.marks }
        ensures events { self.new.events ≡ self.old.events }
    {
        self.console.push(Message {
            mark,
            volume,
            change: *change,
            freed,
        });
    }

    /// Puts an event last.
    pub fn note(&mut self, event: Event)
        requires room { 1 ≤ self.old.events.spare }
        ensures noted { session_data self.new ≡ with_last_event event (session_data self.old) }
        ensures events { self.new.events.items ≡ self.old.events.items ++ event ∷ [] }
        ensures history { self.new.history ≡ self.old.history }
        ensures marks { self.new.marks ≡ self.old.marks }
        ensures console { self.new.console ≡ self.old.console }
        ensures first_write { self.new.first_write ≡ self.old.first_write }
        ensures first_faults { self.new.first_faults ≡ self.old.first_faults }
        ensures stopped { self.new.stopped ≡ self.old.stopped }
    {
        self.events.push(event);
    }
}
