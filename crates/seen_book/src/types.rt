// A word, the book of its history, and what each host has seen.
ghost use Rattle.std.specs.Prelude.{◌≡◌, [], Contains};
ghost use Rattle.seen_book.specs.Openings.{IsLegalFrom};
ghost use Rattle.seen_book.specs.Entries.{entries_of};
ghost use Rattle.seen_book.specs.Books.{AreOfThese, IsBook, IsPass};

use crate::rule::{HistoryRule, View};
use atomic_table::{Seat, Table};
use mss_base::HostNo;
use std::alloc::Global;
use std::marker::{Brand, Model, PhantomData};

pub(crate) type Words = Table<(), View, (), HistoryRule, Global>;

/// A fresh word with its first seat. A clause sees which word it is.
#[derive(Drop)]
pub struct Blank {
    pub(crate) table: Words,
    pub(crate) seat: Seat<(), View>,
}

impl Model for Blank {
    ghost use Rattle.atomic_table.specs.Seated.{TableId};
    ghost use Rattle.seen_book.specs.Books.{IsFresh};

    ghost Value = { TableId };

    ghost view = { λ b. b.table.shared.table_id };

    ghost invariant = { λ b. IsFresh b.table.shared.table_id b.seat };
}

/// What a session begins with: whether its site tells, and the plain state that it shows.
pub trait Opening {
    ghost use Rattle.seen_book.specs.Openings.{OpeningData};

    ghost opening: { OpeningData };
}

impl Opening for Brand {
    ghost use Rattle.seen_book.specs.Openings.{no_opening};

    ghost opening = { no_opening };
}

/// What makes a word, its book and its passes belong together: which word it is, what the session begins with, and
/// which hosts it may have. Pass std's `Brand` for it, to a function in which the name is used; the call's proof picks
/// what it names.
pub trait Name: Opening {
    ghost use Rattle.std.specs.Prelude.{ℕ, List};
    ghost use Rattle.atomic_table.specs.Seated.{TableId};

    ghost table: { TableId };

    ghost hosts: { List ℕ };
}

impl Name for Brand {
    ghost use Rattle.std.specs.Prelude.{[]};
    ghost use Rattle.seen_book.specs.Books.{no_table};

    ghost table = { no_table };

    ghost hosts = { [] };
}

/// The word that all hosts share: how many entries the history has.
#[derive(Drop)]
pub struct Word<N: Name> {
    pub(crate) table: Words,
    of: PhantomData<N>,
    pub ghost named: { table.shared.table_id ≡ N.table },
    pub ghost counts: { (table.shared.table_id.words ≡ 1) × (table.shared.table_id.slots ≡ 0) },
}

/// The whole history. A clause sees its entries, and the hosts for which passes were made: they differ, are of the
/// name's list, and each entry is of one of them. The history is legal from the name's opening.
#[derive(Drop)]
pub struct Book<N: Name> {
    pub(crate) seat: Seat<(), View>,
    of: PhantomData<N>,
}

impl<N: Name> Model for Book<N> {
    ghost use Rattle.seen_book.specs.Books.{BookData, IsBook};

    ghost Value = { BookData };

    ghost view = { λ b. record { list = b.seat.me.0.seen; made = b.seat.me.0.made } };

    ghost invariant = { λ b. IsBook N.table N.opening N.hosts b.seat };
}

/// What a host has seen. A clause sees the host, the beginning of the history that it has seen, and its own entries,
/// which are all of its host there. What it has seen is legal from the name's opening.
#[derive(Drop)]
pub struct HostPass<N: Name> {
    pub(crate) host: HostNo,
    pub(crate) seat: Seat<(), View>,
    of: PhantomData<N>,
}

impl<N: Name> Model for HostPass<N> {
    ghost use Rattle.seen_book.specs.Books.{PassData, IsPass};

    ghost Value = { PassData };

    ghost view = { λ p. record { host = p.host; seen = p.seat.me.0.seen; mine = p.seat.me.0.mine } };

    ghost invariant = { λ p. IsPass N.table N.opening N.hosts p.host p.seat };
}

impl Blank {
    /// The word and the book under a name.
    pub(crate) fn named<N: Name>(self) -> (Word<N>, Book<N>)
        requires { self ≡ N.table }
        ensures { result.1 ≡ record { list = []; made = [] } }
    {
        let Blank { table, seat } = self;
        let word = Word {
            table,
            of: PhantomData,
        };
        (word, Book::over(seat))
    }
}

impl<N: Name> Book<N> {
    pub(crate) fn over(seat: Seat<(), View>) -> Self
        requires { IsBook N.table N.opening N.hosts seat }
        ensures { result ≡ record { list = seat.me.0.seen; made = seat.me.0.made } }
    {
        Book {
            seat,
            of: PhantomData,
        }
    }
}

impl<N: Name> HostPass<N> {
    pub(crate) fn over(host: HostNo, seat: Seat<(), View>) -> Self
        requires { IsPass N.table N.opening N.hosts host seat }
        ensures { result ≡ record { host = host; seen = seat.me.0.seen; mine = seat.me.0.mine } }
    {
        HostPass {
            host,
            seat,
            of: PhantomData,
        }
    }

    /// Its host. The clauses also show what a pass keeps.
    pub fn host(&self) -> HostNo
        ensures host { result ≡ self.now.host }
        ensures named { Contains N.hosts self.now.host }
        ensures own { entries_of self.now.host self.now.seen ≡ self.now.mine }
        ensures legal { IsLegalFrom N.opening self.now.seen }
        ensures hosts { AreOfThese N.hosts self.now.seen }
    {
        self.host
    }
}
