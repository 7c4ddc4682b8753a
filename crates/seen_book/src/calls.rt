// The calls.
ghost use Rattle.std.specs.Prelude.{◌≡◌, ◌<◌, [], ◌∷◌, ◌++◌, length, Contains, All, true};
ghost use mathlib.Core.List.{IsPrefix};
ghost use Rattle.seen_book.specs.Openings.{IsLegalFrom};
ghost use Rattle.seen_book.specs.Views.{book_view, pass_view, with_pass};
ghost use Rattle.seen_book.specs.Books.{Begins, Shows, AreNested, HaveOneEach, AreMade, AreOfThese, closing_view};

use crate::moves::{append_entry, join_book, join_pass, load, split_book, split_host};
use crate::passes::PassList;
use crate::rule::View;
use crate::types::{Blank, Book, HostPass, Name, Opening, Word, Words};
use atomic_table::{Seat, Table};
use ckd_plain::Entry;
use mss_base::{HostNo, NoMemory};
use std::alloc::Global;
use std::marker::Brand;

/// A fresh word, for a history without entries. A blank can't carry the opening that `P` tells; the name of its word and
/// book carries it.
///
/// # Errors
///
/// `NoMemory` where there is none for the word.
pub fn make<P: Opening>(alloc: Global) -> Result<Blank, NoMemory> {
    let (table, seat): (Words, _) = Table::of_words(alloc, &[0], &())?;
    Ok(Blank { table, seat })
}

/// The blank's word and its book, under a name that names this word. The history is empty, and no pass is made.
pub fn start_book<N: Name>(blank: Blank) -> (Word<N>, Book<N>)
    requires { blank ≡ N.table }
    ensures { result.1 ≡ record { list = []; made = [] } }
{
    blank.named::<N>()
}

/// The pass of a host of the name's list that has none yet. It has seen the whole history, of which no entry is the
/// host's.
pub fn host_pass<N: Name>(word: &Word<N>, book: Book<N>, host: HostNo) -> (Book<N>, HostPass<N>)
    requires host { Contains N.hosts host }
    requires fresh { Contains book.made host → ⊥ }
    ensures book { result.0 ≡ record { list = book.list; made = book.made ++ host ∷ [] } }
    ensures pass { result.1 ≡ record { host = host; seen = book.list; mine = [] } }
{
    let Book { mut seat, .. } = book;
    let pass = split_host::<Brand>(&word.table, &mut seat, host);
    (Book::over(seat), HostPass::over(host, pass))
}

/// Puts the entry last in the history, which has fewer than 4,096 entries and stays legal. The pass is of the entry's
/// host. It has then seen the whole history, ended by the entry, and its own entries got this one.
pub fn append<N: Name>(
    word: &Word<N>,
    book: Book<N>,
    pass: HostPass<N>,
    entry: &Entry,
) -> (Book<N>, HostPass<N>)
    requires host { pass.host ≡ entry.now.host }
    requires room { length book.list < 4096 }
    requires legal { IsLegalFrom N.opening (book.list ++ entry.now ∷ []) }
    ensures book { result.0 ≡ record { list = book.list ++ entry.now ∷ []; made = book.made } }
    ensures pass { result.1 ≡ record {
      host = pass.host;
      seen = book.list ++ entry.now ∷ [];
      mine = pass.mine ++ entry.now ∷ [];
    } }
    ensures earlier { IsPrefix pass.seen book.list }
{
    let HostPass { host, mut seat, .. } = pass;
    let Book { seat: whole, .. } = book;
    join_book(&word.table, &mut seat, whole);
    append_entry::<Brand>(&word.table, &mut seat, entry);
    let whole = split_book(&word.table, &mut seat);
    (Book::over(whole), HostPass::over(host, seat))
}

/// Lets the pass see the whole history. Its own entries are as before.
pub fn see<N: Name>(word: &Word<N>, book: Book<N>, pass: HostPass<N>) -> (Book<N>, HostPass<N>)
    ensures book { result.0 ≡ book }
    ensures pass { result.1 ≡ record { host = pass.host; seen = book.list; mine = pass.mine } }
    ensures earlier { IsPrefix pass.seen book.list }
    ensures legal { IsLegalFrom N.opening book.list }
{
    let HostPass { host, mut seat, .. } = pass;
    let Book { seat: whole, .. } = book;
    join_book(&word.table, &mut seat, whole);
    load(&word.table, &mut seat);
    let whole = split_book(&word.table, &mut seat);
    (Book::over(whole), HostPass::over(host, seat))
}

/// The length of a history of which the pass has seen a beginning, while others may append to it. It needs no book.
pub fn look<N: Name>(word: &Word<N>, pass: HostPass<N>) -> (HostPass<N>, u64)
    ensures same { result.0 ≡ pass }
    ensures shows { Shows pass result.1 }
    ensures legal { IsLegalFrom N.opening pass.seen }
{
    let HostPass { host, mut seat, .. } = pass;
    let count = load(&word.table, &mut seat);
    (HostPass::over(host, seat), count)
}

/// Takes one pass into the book's seat, for good.
fn end_pass<N: Name>(word: &Word<N>, book: &mut Seat<(), View>, pass: HostPass<N>)
    requires table { book.old.table_id ≡ N.table }
    requires holds { book.old.me.0.holds ≡ true }
    ensures table { book.new.table_id ≡ book.old.table_id }
    ensures me { let given = pass_view pass.host pass.seen pass.mine in
        book.new.me ≡ (with_pass book.old.me.0 given, book.old.me.1) }
{
    let HostPass { seat, .. } = pass;
    join_pass(&word.table, book, seat);
}

/// Takes all of them.
fn end_passes<N: Name>(word: &Word<N>, book: &mut Seat<(), View>, mut passes: PassList<N>)
    requires table { book.old.table_id ≡ N.table }
    requires me { book.old.me ≡ (book_view book.old.me.0.seen book.old.me.0.made, []) }
    ensures table { book.new.table_id ≡ book.old.table_id }
    ensures me { let whole = book.old.me.0 in
        book.new.me ≡ (closing_view whole.seen whole.made passes.items, []) }
{
    while let Some(pass) = passes.pop() {
        end_pass(word, book, pass);
    }
}

/// Ends all, and answers how many entries the history has. Each pass that is handed in has seen a beginning of it, in
/// which its own entries are all of its host. A pass that isn't handed in is given up.
pub fn close<N: Name>(word: Word<N>, book: Book<N>, passes: PassList<N>) -> u64
    ensures count { result ≡ length book.list }
    ensures passes { All (Begins book.list) passes.items }
    ensures nested { AreNested passes.items }
    ensures one_each { HaveOneEach passes.items }
    ensures hosts { AreOfThese N.hosts book.list }
    ensures made { AreMade N.hosts book.made }
    ensures legal { IsLegalFrom N.opening book.list }
{
    let Book { mut seat, .. } = book;
    end_passes(&word, &mut seat, passes);
    load(&word.table, &mut seat)
}
