// The list of writes and syncs, with the bytes of the writes one after another.
ghost use Rattle.std.specs.Prelude.{◌≡◌, ℕ, ◌+◌, ◌*◌, ◌-◌, ◌≤◌, ◌++◌, [], ◌∷◌, length, take, replicate, slice_get, option_map, vec_len, vec_capacity, None, MatchOption, OnOk};
ghost use Rattle.std.specs.List.{AllByRecursion};
ghost use Rattle.mss_base.specs.Content.{write_at, with_write, wrote};
ghost use Rattle.memory_devices.specs.Memory.{content_in};
ghost use Rattle.memory_devices.specs.Logged.{IsInside, IsLogged, has_sync, item_of, span, sync_of, syncs_unit, total_length};
ghost use Rattle.memory_devices.specs.Redone.{covered_content, covered_range, loosely, redone, redone_from, redone_item};
ghost use Rattle.memory_devices.specs.Tears.{left_by_stop};

use crate::memory::{Blocks, grow_block};
use crate::tearing::{Loose, Tear, loose_under};
use mss_base::{BLOCK_BYTES, Block, BlockPlace, Bytes, NoMemory, UnitNo};
use std::alloc::Global;
use std::marker::Model;

/// What was done to the devices.
#[derive(Drop)]
pub enum LoggedItem {
    /// A write of so many bytes, done or failed.
    Wrote {
        place: BlockPlace,
        offset: u16,
        length: u16,
    },
    /// A sync of a unit.
    Synced(UnitNo),
    /// A sync of all units.
    SyncedAll,
    /// A sync that failed.
    Unsynced,
}

/// How a sync went, or what it was of.
#[derive(Clone, Copy)]
pub enum SyncKind {
    OfUnit,
    OfAll,
    Failed,
}

/// The writes and syncs. There is room for `room` more, each of at most 16,384 bytes.
#[derive(Drop)]
pub struct WriteLog {
    entries: Vec<LoggedItem>,
    bytes: Vec<u8>,
    room: u32,
}

impl Model for WriteLog {
    ghost use Rattle.memory_devices.specs.Logged.{LogValue};

    ghost Value = { LogValue };

    ghost use Rattle.memory_devices.specs.LogInside.{log_value, log_holds};

    ghost view = { log_value };

    ghost invariant = { log_holds };
}

impl WriteLog {
    pub fn new(alloc: Global) -> Self
        ensures { result.items ≡ [] }
    {
        WriteLog {
            entries: Vec::new(alloc),
            bytes: Vec::new(alloc),
            room: 0,
        }
    }

    pub fn len(&self) -> u64
        ensures { result ≡ length self.now.items }
    {
        self.entries.as_slice().len() as u64
    }

    // An item of the log.
    fn get(&self, index: usize) -> Option<&LoggedItem>
        ensures { MatchOption result (slice_get self.now.items index ≡ None)
            (λ item. IsInside item.now × IsLogged item.now (slice_get self.now.items index)) }
    {
        self.entries.get(index)
    }

    /// What a stop leaves: does the first items again, in these blocks, with the tear where it leaves a place open.
    pub fn stop(
        &self,
        alloc: Global,
        moment: usize,
        tear: Option<&Tear>,
        blocks: &mut Blocks,
    ) -> Result<(), NoMemory>
        requires within { moment ≤ length self.now.items }
        ensures { OnOk result (content_in blocks.new
            ≡ left_by_stop (record { start = content_in blocks.old; log = self.now.items }) moment
            (option_map (λ t. t.now) tear.entry)) }
    {
        let Some(tear) = tear else {
            return self.replay(alloc, moment, Loose::Kept, blocks);
        };
        self.replay(alloc, moment, loose_under(tear), blocks)?;
        self.tear(alloc, moment, tear, blocks)
    }

    // Does the first items again, in these blocks.
    fn replay(
        &self,
        alloc: Global,
        count: usize,
        how: Loose,
        blocks: &mut Blocks,
    ) -> Result<(), NoMemory>
        requires within { count ≤ length self.now.items }
        ensures { OnOk result
            (content_in blocks.new
            ≡ redone how (content_in blocks.old) (take count self.now.items)) }
    {
        redo_all(alloc, blocks, &self.entries[..count], &self.bytes, how)
    }

    // Leaves a tear in the range of a write. Where the item isn't there or is no write, nothing is done.
    fn tear(
        &self,
        alloc: Global,
        index: usize,
        tear: &Tear,
        blocks: &mut Blocks,
    ) -> Result<(), NoMemory>
        ensures { OnOk result (content_in blocks.new
            ≡ covered_content (content_in blocks.old) (slice_get self.now.items index) tear.now) }
    {
        let Some(item) = self.get(index) else {
            return Ok(());
        };
        match item {
            LoggedItem::Wrote {
                place,
                offset,
                length,
            } => tear_block(alloc, blocks, place, *offset, *length, tear),
            LoggedItem::Synced(_) => Ok(()),
            LoggedItem::SyncedAll => Ok(()),
            LoggedItem::Unsynced => Ok(()),
        }
    }

    /// Makes room for writes and syncs.
    pub fn reserve(&mut self, count: u32) -> Result<(), NoMemory>
        ensures items { self.new.items ≡ self.old.items }
        ensures room { self.old.room ≤ self.new.room }
        ensures ok { OnOk result (count ≤ self.new.room) }
    {
        if count <= self.room {
            return Ok(());
        }
        self.entries.reserve(count as usize)?;
        self.bytes.reserve(BLOCK_BYTES * count as usize)?;
        self.room = count;
        Ok(())
    }

    /// Adds a write, into the room that `reserve` made.
    pub fn push(&mut self, place: &BlockPlace, offset: u16, bytes: &[u8])
        requires room { 1 ≤ self.old.room }
        requires inside { offset + length bytes.now ≤ 16384 }
        ensures items { self.new.items
            ≡ self.old.items ++ wrote (write_at place.now offset bytes.now) ∷ [] }
        ensures room { self.old.room ≡ self.new.room + 1 }
    {
        let length = bytes.len() as u16;
        let place = *place;
        let write = LoggedItem::Wrote {
            place,
            offset,
            length,
        };
        put(&mut self.entries, write);
        put_all(&mut self.bytes, bytes);
        self.room -= 1;
    }

    /// Adds a sync, into the room that `reserve` made. Of the place its unit alone counts, and that for a sync of one unit.
    pub fn push_sync(&mut self, at: &BlockPlace, how: SyncKind)
        requires room { 1 ≤ self.old.room }
        ensures items { self.new.items ≡ self.old.items ++ sync_of how at.now.unit ∷ [] }
        ensures room { self.old.room ≡ self.new.room + 1 }
    {
        let place = *at;
        let sync = match how {
            SyncKind::OfUnit => LoggedItem::Synced(place.unit),
            SyncKind::OfAll => LoggedItem::SyncedAll,
            SyncKind::Failed => LoggedItem::Unsynced,
        };
        put(&mut self.entries, sync);
        self.room -= 1;
    }
}

// How many bytes of the log are an item's.
fn span(item: &LoggedItem) -> usize
    ensures { result ≡ span item.now }
{
    match item {
        LoggedItem::Wrote { length, .. } => *length as usize,
        LoggedItem::Synced(_) => 0,
        LoggedItem::SyncedAll => 0,
        LoggedItem::Unsynced => 0,
    }
}

// Whether an item is a sync of this unit, or of all.
fn syncs(item: &LoggedItem, unit: &UnitNo) -> bool
    ensures { result ≡ syncs_unit unit.now item.now }
{
    match item {
        LoggedItem::Wrote { .. } => false,
        LoggedItem::Synced(synced) => synced == unit,
        LoggedItem::SyncedAll => true,
        LoggedItem::Unsynced => false,
    }
}

// Whether a write of this unit is firm behind these items.
fn is_synced(unit: &UnitNo, later: &[LoggedItem]) -> bool
    ensures { result ≡ has_sync unit.now later.now }
{
    later.iter().any(|item| syncs(item, unit))
}

// Does an item again, of these bytes: a firm write is made, a loose one becomes what is asked, and a sync changes
// nothing.
fn redo(
    alloc: Global,
    blocks: &mut Blocks,
    room: &mut Vec<Block>,
    item: &LoggedItem,
    bytes: &[u8],
    later: &[LoggedItem],
    how: Loose,
) -> Result<(), NoMemory>
    requires whole { length bytes.now ≡ span item.now }
    requires inside { IsInside item.now }
    ensures { OnOk result (content_in blocks.new ≡ redone_item how (λ unit. has_sync unit later.now)
        (content_in blocks.old) (item_of item.now bytes.now)) }
{
    match item {
        LoggedItem::Wrote { place, offset, .. } => {
            if is_synced(&place.unit, later) {
                return grow_block(alloc, blocks, room, place, *offset, bytes);
            }
            redo_loose(alloc, blocks, room, place, *offset, bytes, how)
        }
        LoggedItem::Synced(_) => Ok(()),
        LoggedItem::SyncedAll => Ok(()),
        LoggedItem::Unsynced => Ok(()),
    }
}

// Makes of a loose write what becomes of those.
fn redo_loose(
    alloc: Global,
    blocks: &mut Blocks,
    room: &mut Vec<Block>,
    place: &BlockPlace,
    offset: u16,
    bytes: &[u8],
    how: Loose,
) -> Result<(), NoMemory>
    requires inside { offset + length bytes.now ≤ 16384 }
    ensures { OnOk result (content_in blocks.new
        ≡ loosely how (content_in blocks.old) (write_at place.now offset bytes.now)) }
{
    match how {
        Loose::Kept => grow_block(alloc, blocks, room, place, offset, bytes),
        Loose::Filled(byte) => fill_block(alloc, blocks, room, place, offset, bytes.len(), byte),
        Loose::LeftOut => Ok(()),
    }
}

// Does these items again, whose bytes stand one after another.
fn redo_all(
    alloc: Global,
    blocks: &mut Blocks,
    entries: &[LoggedItem],
    bytes: &[u8],
    how: Loose,
) -> Result<(), NoMemory>
    requires whole { total_length entries.now ≤ length bytes.now }
    requires inside { AllByRecursion IsInside entries.now }
    ensures { OnOk result
        (content_in blocks.new ≡ redone_from how (content_in blocks.old) entries.now bytes.now) }
{
    let mut room = Vec::new(alloc);
    let mut entries = entries;
    let mut rest = bytes;
    while let [entry, later @ ..] = entries {
        let (these, others) = rest.split_at(span(entry));
        redo(alloc, blocks, &mut room, entry, these, later, how)?;
        entries = later;
        rest = others;
    }
    Ok(())
}

fn put<T: Drop>(entries: &mut Vec<T>, entry: T)
    requires { vec_len entries.old + 1 ≤ vec_capacity entries.old }
    ensures items { entries.new.items ≡ entries.old.items ++ entry ∷ [] }
    ensures len { vec_len entries.new ≡ vec_len entries.old + 1 }
    ensures capacity { vec_capacity entries.old ≤ vec_capacity entries.new }
{
    match entries.push(entry) {
        Ok(()) => {}
        Err(_) => unreachable!(),
    }
}

fn put_all(to: &mut Vec<u8>, bytes: &[u8])
    requires { vec_len to.old + length bytes.now ≤ vec_capacity to.old }
    ensures items { to.new.items ≡ to.old.items ++ bytes.now }
    ensures len { vec_len to.new ≡ vec_len to.old + length bytes.now }
    ensures capacity { vec_capacity to.old ≤ vec_capacity to.new }
{
    match to.extend_from_slice(bytes) {
        Ok(()) => {}
        Err(_) => unreachable!(),
    }
}

// Leaves a tear in a write's range.
fn tear_block(
    alloc: Global,
    blocks: &mut Blocks,
    place: &BlockPlace,
    offset: u16,
    length: u16,
    tear: &Tear,
) -> Result<(), NoMemory>
    requires inside { offset + length ≤ 16384 }
    ensures { OnOk result
        (content_in blocks.new
        ≡ covered_range (content_in blocks.old) place.now offset length tear.now) }
{
    let mut room = Vec::new(alloc);
    let length = length as usize;
    match tear {
        Tear::Write(bytes) => {
            let left = Bytes::padded(alloc, length, bytes.as_slice())?;
            grow_block(alloc, blocks, &mut room, place, offset, left.as_slice())
        }
        Tear::Fill(byte) => fill_block(alloc, blocks, &mut room, place, offset, length, *byte),
        Tear::Lost => Ok(()),
    }
}

// Fills a write's range.
fn fill_block(
    alloc: Global,
    blocks: &mut Blocks,
    room: &mut Vec<Block>,
    place: &BlockPlace,
    offset: u16,
    length: usize,
    byte: u8,
) -> Result<(), NoMemory>
    requires inside { offset + length ≤ 16384 }
    ensures { OnOk result
        (content_in blocks.new ≡ with_write (content_in blocks.old)
        (write_at place.now offset (replicate length byte))) }
{
    let mut filling = Vec::new(alloc);
    filling.resize(length, byte)?;
    grow_block(alloc, blocks, room, place, offset, &filling)
}
