// The rule of the word, and the kinds of step on it.
ghost use Rattle.std.specs.Prelude.{◌≡◌, ℕ};

use atomic_table::{Join, Play, Split, TableRule};
use ckd_plain::Entry;
use std::collections::LinkedList;
use std::marker::{Brand, PhantomData};

/// What a seat at the word knows. It is spoken of in proofs alone: no value of it is ever made.
pub struct View {
    /// Whether the seat knows the whole history. One seat does.
    pub holds: bool,
    /// Whether the seat is of a host's pass, and of which host.
    pub hosted: bool,
    pub host: u64,
    /// The beginning of the history that the seat knows.
    pub seen: LinkedList<Entry>,
    /// All entries of the pass's host.
    pub mine: LinkedList<Entry>,
    /// The hosts for which passes were made, where the seat knows the whole history.
    pub made: LinkedList<u64>,
    /// Earlier lists, each a beginning of the history.
    pub olds: LinkedList<LinkedList<Entry>>,
    /// The hosts whose passes ended, each with all its entries.
    pub taken: LinkedList<(u64, LinkedList<Entry>)>,
}

/// The rule of the word.
pub struct HistoryRule;

impl TableRule<(), View, ()> for HistoryRule {
    ghost use Rattle.std.specs.Prelude.{[]};
    ghost use Rattle.seen_book.specs.Views.{book_view};
    ghost use Rattle.seen_book.specs.Rule.{Kept};

    ghost holds = { λ _. Kept };

    ghost first = { λ _. book_view [] [] };
}

/// The host that a step is for.
pub trait ForHost {
    ghost new_host: { ℕ };
}

impl ForHost for Brand {
    ghost new_host = { 0 };
}

/// The entry that a step adds.
pub trait OfEntry {
    ghost use Rattle.ckd_plain.specs.History.{EntryData};

    ghost new_entry: { EntryData };
}

impl OfEntry for Brand {
    ghost use Rattle.seen_book.specs.Entries.{no_entry};

    ghost new_entry = { no_entry };
}

/// A host's seat is split off the book's.
pub(crate) struct SplitsHost<H: ForHost> {
    of: PhantomData<H>,
}

impl<H: ForHost> Split<View> for SplitsHost<H> {
    ghost use Rattle.seen_book.specs.Views.{with_made, host_of};

    ghost left = { with_made H.new_host };

    ghost right = { host_of H.new_host };
}

/// The book is joined into a host's seat.
pub(crate) struct JoinsBook;

impl Join<View> for JoinsBook {
    ghost use Rattle.seen_book.specs.Views.{with_book, spent};

    ghost both = { with_book };

    ghost spent = { spent };
}

/// The entry is added.
pub(crate) struct Appends<E: OfEntry> {
    of: PhantomData<E>,
}

impl<E: OfEntry> Play<(), View> for Appends<E> {
    ghost use Rattle.seen_book.specs.Rule.{Appended};

    ghost then = { λ _ old found new. Appended E.new_entry old.0 found new.0 × (new.1 ≡ old.1) };
}

/// The book is split off a host's seat.
pub(crate) struct SplitsBook;

impl Split<View> for SplitsBook {
    ghost use Rattle.seen_book.specs.Views.{without_book, book_of};

    ghost left = { without_book };

    ghost right = { book_of };
}

/// The word is read.
pub(crate) struct Looks;

impl Play<(), View> for Looks {
    ghost use Rattle.seen_book.specs.Rule.{Looked};

    ghost then = { λ _ old found new. Looked old.0 found new.0 × (new.1 ≡ old.1) };
}

/// A host's seat is joined into the book's, for good.
pub(crate) struct JoinsPass;

impl Join<View> for JoinsPass {
    ghost use Rattle.seen_book.specs.Views.{with_pass, spent};

    ghost both = { with_pass };

    ghost spent = { spent };
}
