// Texts run on devices in memory.
//
// A text has parts, which an empty line parts. Each part begins on new devices, and is run once, or once in each
// turn where its first line is `turns 1 6`: the number of the turn is then what N stands for. A line is a call, and
// behind an arrow what it tells; without an arrow, that it is done.
use crate::lines::answers::{Told, outcome};
use crate::lines::bench::Bench;
use crate::lines::copies::assign;
use crate::lines::devices::device_line;
use crate::lines::numbers::{byte, is_word, word};
use crate::lines::restarts::{open_line, site_line};
use crate::lines::words::words_of;
use memory_devices::Tear;
use mss_base::Bytes;
use std::alloc::Global;
use std::process::Abort;

fn lent_line(alloc: Global, bench: &mut Bench, words: &[u64]) -> Told {
    if is_word(words, 0, "survey") || is_word(words, 0, "copy") {
        return site_line(alloc, bench, words);
    }
    if is_word(words, 0, "assign") {
        return outcome(alloc, assign(alloc, bench, words)?);
    }
    device_line(alloc, bench, words)
}

fn whole_line(alloc: Global, slot: &mut Option<Bench>, words: &[u64]) -> Told {
    if is_word(words, 0, "open") {
        return open_line(alloc, slot, words);
    }
    lent_line(alloc, slot.as_mut()?, words)
}

fn written(alloc: Global, words: &[u64]) -> Option<Tear> {
    let count = usize::from(byte(words, 2)?);
    let bytes = word(words, 3)?.to_be_bytes();
    let left = bytes.get(8usize.checked_sub(count)?..)?;
    Some(Tear::Write(Bytes::of(alloc, left).ok()?))
}

// `1 xC1`: this one byte of the next write is there. `fill xC1`: this byte is at each place that isn't firm. `lost
// 0`: what isn't firm is lost. `0 0`: nothing of the next write is there.
fn tear_of(alloc: Global, words: &[u64]) -> Option<Tear> {
    if is_word(words, 2, "fill") {
        return Some(Tear::Fill(byte(words, 3)?));
    }
    if is_word(words, 2, "lost") {
        return Some(Tear::Lost);
    }
    written(alloc, words)
}

// `stop 3 1 xC1`: after three items, with that tear.
fn image(alloc: Global, bench: &Bench, words: &[u64]) -> Option<Bench> {
    let moment = word(words, 1)?;
    if word(words, 2)? == 0 {
        return bench.image(moment, &None);
    }
    let tear = Some(tear_of(alloc, words)?);
    bench.image(moment, &tear)
}

fn told_on(alloc: Global, bench: Bench, line: &[u64]) -> Told {
    let mut slot = Some(bench);
    whole_line(alloc, &mut slot, line)
}

// Behind a stop stands a line that is done to what it leaves.
fn told_behind(alloc: Global, bench: &Bench, words: &[u64]) -> Told {
    let line = words.get(4..)?;
    told_on(alloc, image(alloc, bench, words)?, line)
}

fn told_by(alloc: Global, slot: &mut Option<Bench>, words: &[u64]) -> Told {
    if is_word(words, 0, "stop") {
        return told_behind(alloc, slot.as_ref()?, words);
    }
    whole_line(alloc, slot, words)
}

fn told_in(alloc: Global, slot: &mut Option<Bench>, asked: &str, turn: u64) -> Told {
    let words = words_of(alloc, asked, turn)?;
    told_by(alloc, slot, &words)
}

// Whether a line tells this.
fn tells(alloc: Global, slot: &mut Option<Bench>, asked: &str, due: &str, turn: u64) -> bool {
    is_due(alloc, &told_in(alloc, slot, asked, turn), due, turn)
}

fn run_line(rt: &impl Abort, alloc: Global, slot: &mut Option<Bench>, line: &str, turn: u64) {
    let (asked, due) = line.split_once(" -> ").unwrap_or((line, "done"));
    let is_told = tells(alloc, slot, asked, due, turn);
    assert!(rt; is_told, "in turn {turn}: {line}");
}

fn run_lines(rt: &impl Abort, alloc: Global, slot: &mut Option<Bench>, lines: &str, turn: u64) {
    for line in lines.lines() {
        if !line.starts_with("turns") {
            run_line(rt, alloc, slot, line, turn);
        }
    }
}

fn run_both(
    rt: &impl Abort,
    alloc: Global,
    slot: &mut Option<Bench>,
    before: &str,
    part: &str,
    turn: u64,
) {
    run_lines(rt, alloc, slot, before, turn);
    run_lines(rt, alloc, slot, part, turn);
}

fn run_turn(rt: &impl Abort, alloc: Global, before: &str, part: &str, turn: u64) -> Option<()> {
    let mut slot = Some(Bench::new(alloc)?);
    run_both(rt, alloc, &mut slot, before, part, turn);
    Some(())
}

fn turns_in(words: &[u64]) -> Option<(u64, u64)> {
    if is_word(words, 0, "turns") {
        return Some((word(words, 1)?, word(words, 2)?));
    }
    Some((0, 0))
}

fn turns_of(alloc: Global, part: &str) -> Option<(u64, u64)> {
    let words = words_of(alloc, part.lines().next()?, 0)?;
    turns_in(&words)
}

fn run_part(rt: &impl Abort, alloc: Global, before: &str, part: &str) -> Option<()> {
    let (first, last) = turns_of(alloc, part)?;
    for turn in first..=last {
        run_turn(rt, alloc, before, part, turn)?;
    }
    Some(())
}

// Whether what was told are the words that are due; where nothing was, there are none.
fn is_due(alloc: Global, told: &Told, due: &str, turn: u64) -> bool {
    let Some(told) = told else {
        return false;
    };
    let Some(due) = words_of(alloc, due, turn) else {
        return false;
    };
    told.as_slice() == due.as_slice()
}

/// Runs a text, with the lines that come before each part.
pub fn run(rt: &impl Abort, alloc: Global, before: &str, text: &str) {
    for part in text.split("\n\n") {
        let is_run = run_part(rt, alloc, before, part).is_some();
        assert!(rt; is_run, "no such line");
    }
}
