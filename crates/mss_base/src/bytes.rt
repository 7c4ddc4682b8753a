// Lists that say how much room they have.
ghost use Rattle.std.specs.Prelude.{◌≡◌, ℕ, ◌+◌, ◌-◌, ◌≤◌, ◌<◌, ◌++◌, [], ◌∷◌, OnOk, OnErr, IfOk, IsOk, length, length as length_of, take, replicate, slice_set};

use std::alloc::{AllocError, AllocFailed, Global};
use std::marker::Model;

/// Memory ran out.
#[derive(Clone, Copy, Debug, PartialEq, Eq)]
pub struct NoMemory;

impl From<AllocError> for NoMemory {
    fn from(_: AllocError) -> Self {
        NoMemory
    }
}

impl<T: Drop> From<AllocFailed<T>> for NoMemory {
    fn from(_: AllocFailed<T>) -> Self {
        NoMemory
    }
}

/// A list with room: `spare` more items can be put in without memory. A clause sees its items and this number.
#[derive(Drop)]
pub struct Listed<T> {
    items: Vec<T>,
}

/// Bytes with room for more.
pub type Bytes = Listed<u8>;

impl<T> Model for Listed<T> {
    ghost use Rattle.std.specs.Prelude.{ℕ, ◌-◌, vec_len, vec_capacity};
    ghost use Rattle.mss_base.specs.Listing.{Listing};

    ghost Value = { Listing T };

    ghost view = { λ b. record { items = b.items.items; spare = vec_capacity b.items - vec_len b.items } };
}

impl<T> Listed<T> {
    /// The empty list. It takes no memory.
    pub fn new(alloc: Global) -> Self
        ensures { result.items ≡ [] }
    {
        Listed {
            items: Vec::new(alloc),
        }
    }

    /// The items.
    pub fn as_slice(&self) -> &[T]
        ensures { result.now ≡ self.now.items }
    {
        &self.items
    }

    /// Makes room for `n` more. The items stay, and the room doesn't shrink, also after want of memory.
    pub fn reserve(&mut self, n: usize) -> Result<(), NoMemory>
        ensures items { self.new.items ≡ self.old.items }
        ensures spare { self.old.spare ≤ self.new.spare }
        ensures ok { OnOk result (n ≤ self.new.spare) }
    {
        self.items.reserve(n)?;
        Ok(())
    }
}

impl<T: Drop> Listed<T> {
    /// Puts another item in the place of the one at `at`.
    pub fn set(&mut self, at: usize, value: T)
        requires { at < length self.old.items }
        ensures items { self.new.items ≡ slice_set self.old.items at value }
        ensures spare { self.new.spare ≡ self.old.spare }
    {
        self.items[at] = value;
    }

    /// Puts an item last, into the room that `reserve` made.
    pub fn push(&mut self, value: T)
        requires { 1 ≤ self.old.spare }
        ensures items { self.new.items ≡ self.old.items ++ value ∷ [] }
        ensures spare { self.new.spare + 1 ≡ self.old.spare }
    {
        self.items.push_reserved(value);
    }

    /// Keeps the first `count` items.
    pub fn truncate(&mut self, count: usize)
        ensures items { self.new.items ≡ take count self.old.items }
        ensures spare { self.old.spare ≤ self.new.spare }
    {
        self.items.truncate(count);
    }
}

impl<T: Copy> Listed<T> {
    /// A copy of these items. Of none it takes no memory, so it is Ok.
    pub fn of(alloc: Global, items: &[T]) -> Result<Self, NoMemory>
        ensures items { IfOk result (λ copy. copy.items ≡ items.now) }
        ensures none { items.now ≡ [] → IsOk result }
    {
        if items.is_empty() {
            return Ok(Self::new(alloc));
        }
        Ok(Listed {
            items: Vec::from_slice(alloc, items)?,
        })
    }
}

impl Listed<u8> {
    /// A copy of these bytes, cut or padded with zeros to a length.
    pub fn padded(alloc: Global, length: usize, bytes: &[u8]) -> Result<Self, NoMemory>
        ensures { IfOk result (λ copy. copy.items
            ≡ take length bytes.now ++ replicate (length - length_of bytes.now) 0) }
    {
        let mut items = Vec::from_slice(alloc, bytes)?;
        items.resize(length, 0)?;
        Ok(Listed { items })
    }

    /// Puts these bytes last, or after want of memory leaves the list.
    pub fn append(&mut self, more: &[u8]) -> Result<(), NoMemory>
        ensures ok { OnOk result (self.new.items ≡ self.old.items ++ more.now) }
        ensures err { OnErr result (self.new.items ≡ self.old.items) }
    {
        self.items.extend_from_slice(more)?;
        Ok(())
    }
}
