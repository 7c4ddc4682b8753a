// The six kinds of step on the word, each as a call on seats.
ghost use Rattle.std.specs.Prelude.{◌≡◌, ◌<◌, [], length, true, Contains};
ghost use Rattle.seen_book.specs.Views.{with_made, host_of, with_book, without_book, book_of, with_pass};
ghost use Rattle.seen_book.specs.Rule.{Appended, Looked};
ghost use Rattle.seen_book.specs.Books.{IsWord};

use crate::rule::{
    Appends, ForHost, JoinsBook, JoinsPass, Looks, OfEntry, SplitsBook, SplitsHost, View,
};
use crate::types::Words;
use atomic_table::Seat;
use ckd_plain::Entry;
use mss_base::HostNo;

/// Splits a host's seat off the book's.
pub(crate) fn split_host<H: ForHost>(
    table: &Words,
    book: &mut Seat<(), View>,
    host: HostNo,
) -> Seat<(), View>
    requires word { IsWord table.now.shared.table_id book.old.table_id }
    requires host { host ≡ H.new_host }
    requires holds { book.old.me.0.holds ≡ true }
    requires fresh { Contains book.old.me.0.made host → ⊥ }
    ensures book { (book.new.table_id ≡ book.old.table_id)
        × (book.new.me ≡ (with_made host book.old.me.0, book.old.me.1)) }
    ensures pass { (result.table_id ≡ book.old.table_id)
        × (result.me ≡ (host_of host book.old.me.0, [])) }
{
    // The clauses speak of the host; no code does.
    let _ = host;
    table.shared.split_seat::<SplitsHost<H>>(book)
}

/// Joins the book into a host's seat.
pub(crate) fn join_book(table: &Words, pass: &mut Seat<(), View>, book: Seat<(), View>)
    requires word { IsWord table.now.shared.table_id pass.old.table_id
        × IsWord table.now.shared.table_id book.table_id }
    requires holds { (book.me.0.holds ≡ true) × (book.me.1 ≡ []) }
    ensures { (pass.new.table_id ≡ pass.old.table_id)
        × (pass.new.me ≡ (with_book pass.old.me.0 book.me.0, pass.old.me.1)) }
{
    table.shared.join_seat::<JoinsBook>(pass, book);
}

/// Adds the entry, and answers how many there were.
pub(crate) fn append_entry<E: OfEntry>(
    table: &Words,
    pass: &mut Seat<(), View>,
    entry: &Entry,
) -> u64
    requires word { IsWord table.now.shared.table_id pass.old.table_id }
    requires same_entry { entry.now ≡ E.new_entry }
    requires holds { (pass.old.me.0.holds ≡ true) × (pass.old.me.0.hosted ≡ true) }
    requires host { pass.old.me.0.host ≡ entry.now.host }
    requires room { length pass.old.me.0.seen < 4096 }
    ensures seat { (pass.new.table_id ≡ pass.old.table_id) × (pass.new.me.1 ≡ pass.old.me.1) }
    ensures appended { Appended entry.now pass.old.me.0 result pass.new.me.0 }
{
    // The clauses speak of the entry; no code does.
    let _ = entry;
    table.shared.fetch_add::<Appends<E>>(pass, 0, 1)
}

/// Splits the book off a host's seat.
pub(crate) fn split_book(table: &Words, pass: &mut Seat<(), View>) -> Seat<(), View>
    requires word { IsWord table.now.shared.table_id pass.old.table_id }
    requires holds { (pass.old.me.0.holds ≡ true) × (pass.old.me.0.hosted ≡ true) }
    ensures pass { (pass.new.table_id ≡ pass.old.table_id)
        × (pass.new.me ≡ (without_book pass.old.me.0, pass.old.me.1)) }
    ensures book { (result.table_id ≡ pass.old.table_id)
        × (result.me ≡ (book_of pass.old.me.0, [])) }
{
    table.shared.split_seat::<SplitsBook>(pass)
}

/// Reads the word.
pub(crate) fn load(table: &Words, seat: &mut Seat<(), View>) -> u64
    requires word { IsWord table.now.shared.table_id seat.old.table_id }
    ensures seat { (seat.new.table_id ≡ seat.old.table_id) × (seat.new.me.1 ≡ seat.old.me.1) }
    ensures looked { Looked seat.old.me.0 result seat.new.me.0 }
{
    table.shared.load::<Looks>(seat, 0)
}

/// Joins a host's seat into the book's, for good.
pub(crate) fn join_pass(table: &Words, book: &mut Seat<(), View>, pass: Seat<(), View>)
    requires word { IsWord table.now.shared.table_id book.old.table_id
        × IsWord table.now.shared.table_id pass.table_id }
    requires holds { (book.old.me.0.holds ≡ true) × (pass.me.0.hosted ≡ true) × (pass.me.1 ≡ []) }
    ensures { (book.new.table_id ≡ book.old.table_id)
        × (book.new.me ≡ (with_pass book.old.me.0 pass.me.0, book.old.me.1)) }
{
    table.shared.join_seat::<JoinsPass>(book, pass);
}
