//! Channel programs, and their words while they are put together.
ghost use Rattle.std.specs.Prelude.{◌≡◌, ◌==◌, ◌≤◌, ◌<◌, ◌++◌, [], ◌∷◌, length, map, OnOk, OnErr};
ghost use Rattle.channel_commands.specs.Views.{ccw_of};

use channel_commands::Ccw;
use mss_base::{Listed, NoMemory};
use std::alloc::Global;
use std::marker::Model;

/// The most words of a program.
pub const WORD_LIMIT: usize = 256;

/// The words of a program that is put together: none at first, and 256 at most. A clause sees them as plain data.
#[derive(Drop)]
pub struct Words {
    words: Listed<Ccw>,
}

impl Model for Words {
    ghost use Rattle.std.specs.Prelude.{◌≤◌, List, length, map};
    ghost use Rattle.channel_commands.specs.Data.{CcwData};
    ghost use Rattle.channel_commands.specs.Views.{ccw_of};

    ghost Value = { List CcwData };

    ghost view = { λ l. map ccw_of l.words.items };

    ghost invariant = { λ l. length l.words.items ≤ 256 };
}

impl Words {
    /// No words. It takes no memory.
    pub fn new(alloc: Global) -> Self
        ensures { result ≡ [] }
    {
        Words {
            words: Listed::new(alloc),
        }
    }

    fn as_slice(&self) -> &[Ccw]
        ensures words { map ccw_of result.now ≡ self.now }
        ensures few { length result.now ≤ WORD_LIMIT }
    {
        self.words.as_slice()
    }

    pub fn len(&self) -> usize
        ensures { result ≡ length self.now }
    {
        self.as_slice().len()
    }

    pub fn is_empty(&self) -> bool
        ensures { result ≡ (length self.now == 0) }
    {
        self.len() == 0
    }

    /// Puts a word last, or after want of memory leaves the list.
    pub fn push(&mut self, word: Ccw) -> Result<(), NoMemory>
        requires { length self.old < WORD_LIMIT }
        ensures ok { OnOk result (self.new ≡ self.old ++ ccw_of word ∷ []) }
        ensures err { OnErr result (self.new ≡ self.old) }
    {
        self.words.reserve(1)?;
        self.words.push(word);
        Ok(())
    }
}

/// A channel program: 1 to 256 words, counted from 0. A clause sees them as plain data.
#[derive(Drop)]
pub struct Program {
    words: Words,
}

impl Model for Program {
    ghost use Rattle.std.specs.Prelude.{◌≤◌, List, length};
    ghost use Rattle.channel_commands.specs.Data.{CcwData};

    ghost Value = { List CcwData };

    ghost view = { λ p. p.words };

    ghost invariant = { λ p. 1 ≤ length p.words };
}

impl Program {
    /// The program of these words.
    pub fn of(words: Words) -> Self
        requires { 1 ≤ length words }
        ensures { result ≡ words }
    {
        Program { words }
    }

    pub fn as_slice(&self) -> &[Ccw]
        ensures words { map ccw_of result.now ≡ self.now }
        ensures some { 1 ≤ length result.now }
        ensures few { length result.now ≤ WORD_LIMIT }
    {
        self.words.as_slice()
    }
}
