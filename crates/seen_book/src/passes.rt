// Passes that end together.
ghost use Rattle.std.specs.Prelude.{◌≡◌, ◌+◌, ◌≤◌, ◌++◌, [], ◌∷◌, OnOk};
ghost use Rattle.seen_book.specs.Passes.{TakesLast};

use crate::types::{HostPass, Name};
use mss_base::NoMemory;
use std::alloc::Global;
use std::marker::Model;

/// Passes that end together. `spare` more can be put in without memory, so room is made before threads start. A clause
/// sees the passes and this number.
#[derive(Drop)]
pub struct PassList<N: Name> {
    passes: Vec<HostPass<N>>,
}

impl<N: Name> Model for PassList<N> {
    ghost use Rattle.std.specs.Prelude.{◌-◌, vec_len, vec_capacity};
    ghost use Rattle.mss_base.specs.Listing.{Listing};
    ghost use Rattle.seen_book.specs.Books.{PassData};

    ghost Value = { Listing PassData };

    ghost view = { λ l. record { items = l.passes.items; spare = vec_capacity l.passes - vec_len l.passes } };
}

impl<N: Name> PassList<N> {
    /// No passes. It takes no memory.
    pub fn new(alloc: Global) -> Self
        ensures { result.items ≡ [] }
    {
        PassList {
            passes: Vec::new(alloc),
        }
    }

    /// Makes room for `n` more. The passes stay, and the room doesn't shrink, also after want of memory.
    pub fn reserve(&mut self, n: usize) -> Result<(), NoMemory>
        ensures items { self.new.items ≡ self.old.items }
        ensures spare { self.old.spare ≤ self.new.spare }
        ensures ok { OnOk result (n ≤ self.new.spare) }
    {
        self.passes.reserve(n)?;
        Ok(())
    }

    /// Puts a pass last, into the room that `reserve` made.
    pub fn push(&mut self, pass: HostPass<N>)
        requires { 1 ≤ self.old.spare }
        ensures items { self.new.items ≡ self.old.items ++ pass ∷ [] }
        ensures spare { self.new.spare + 1 ≡ self.old.spare }
    {
        self.passes.push_reserved(pass);
    }

    /// Takes the last pass out, whose room stays.
    pub fn pop(&mut self) -> Option<HostPass<N>>
        ensures { TakesLast self.old self.new result }
    {
        self.passes.pop()
    }
}
