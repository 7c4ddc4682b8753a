// Two hosts, and what each call answers.
ghost use Rattle.std.specs.Prelude.{◌≡◌, [], Contains, None, Some, false};
ghost use Rattle.channel_commands.specs.Views.{call_of, reply_of};
ghost use Rattle.ckd_plain.specs.Plain.{start_of};

use channel_commands::{Call, Reply};
use ckd_plain::Entry;
use mss_base::{HostNo, NoMemory, VolumeNo};
use seen_book::{
    Blank, Book, HostPass, Name, PassList, Word, append, close, host_pass, look, make, see,
    start_book,
};
use std::alloc::Global;
use std::marker::Brand;
use std::test::*;

#[test]
fn look_and_close_count_three_entries(rt: HostRuntime) -> Result<(), Fail> {
    let volume = VolumeNo::of(0).ok_or("volume")?;
    let one = HostNo::of(1).ok_or("host 1")?;
    let two = HostNo::of(2).ok_or("host 2")?;
    let blank = make::<Brand>(rt.alloc()).ok().ok_or("memory")?;
    let (looked, closed) = row::<Brand>(rt.alloc(), blank, one, two, volume)
        .ok()
        .ok_or("memory")?;
    assert_eq!(rt; looked, 3);
    assert_eq!(rt; closed, 3);
    Ok(())
}

/// Two appends of host 1 and one of host 2, legal from blank volumes. The answers of `look` on host 1's pass, and of `close`.
fn row<N: Name + Send + Sync>(
    alloc: Global,
    blank: Blank,
    one: HostNo,
    two: HostNo,
    volume: VolumeNo,
) -> Result<(u64, u64), NoMemory>
    requires word { blank ≡ N.table }
    requires hosts { Contains N.hosts one × Contains N.hosts two }
    requires differ { (one ≡ 1) × (two ≡ 2) }
    requires state { N.opening.state ≡ start_of (record
        { serial = λ v. Some []; read_only = λ v. false; track = λ v c h. [] }) }
{
    let (word, book) = start_book::<N>(blank);
    let (book, first) = host_pass(&word, book, one);
    let (book, second) = host_pass(&word, book, two);
    let mount = Call::Mount {
        volume,
        bind: false,
    };
    let mounted = entry(one, 1, mount, Reply::Mounted);
    let demounted = entry(one, 2, Call::Demount, Reply::Demounted);
    let again = Call::Mount {
        volume,
        bind: false,
    };
    let other = entry(two, 1, again, Reply::Mounted);
    let (book, first) = append(&word, book, first, &mounted);
    let (book, first) = append(&word, book, first, &demounted);
    let (book, second) = append(&word, book, second, &other);
    threads_may_have(&word, &book, &second);
    let (first, looked) = look(&word, first);
    let (book, first) = see(&word, book, first);
    let mut passes = PassList::new(alloc);
    passes.reserve(2)?;
    passes.push(first);
    passes.push(second);
    Ok((looked, close(word, book, passes)))
}

fn entry(host: HostNo, number: u64, call: Call, reply: Reply) -> Entry
    ensures { result ≡ record { host = host; number = number; call = call_of call; reply = reply_of reply; fault = None } }
{
    Entry {
        host,
        number,
        call,
        reply,
        fault: None,
    }
}

fn may_cross<T: Send>(_: &T) {}

fn may_be_shared<T: Sync>(_: &T) {}

fn threads_may_have<N: Name + Send + Sync>(word: &Word<N>, book: &Book<N>, pass: &HostPass<N>) {
    may_be_shared(word);
    may_cross(word);
    may_cross(book);
    may_cross(pass);
}
