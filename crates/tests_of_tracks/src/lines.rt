//! Texts run on devices in memory, by a host that has a volume.
//!
//! A text has parts, which an empty line parts. Each part begins on new devices, on which first other lines are
//! done. A line is a call of the site (`sites`), a command (`commands`), or one of these: `x` has a call fail,
//! which stands in place of the block, and each read of the unit; `=` is what a session does behind a fault; and
//! behind `#` stands what a part shows. What stops leave of the devices then is told in parts of another text,
//! whose first line has the moment and the tear.
use crate::bench::Bench;
use crate::commands::is_run;
use crate::sites::{is_so, row_of};
use crate::words::{byte, bytes, number};
use ckd_plain::steps::sense_of;
use ckd_plain::{HostState, UnitCheck};
use memory_devices::{ImageFault, SiteFault, Tear};
use mss_base::{Bytes, VolumeNo};
use std::alloc::Global;
use std::process::Abort;

/// `x A 2 0 -`: the second call from now on fails, and each read of copy A.
fn fail(bench: &mut Bench, line: &str) -> Option<bool> {
    let row = row_of(line)?;
    let call = SiteFault::Call(u64::from(row.block));
    bench.fail(&[call, SiteFault::ReadsOf(row.unit)])?;
    Some(true)
}

fn call_is_so(alloc: Global, bench: &mut Bench, line: &str) -> Option<bool> {
    if line.starts_with("x") {
        return fail(bench, line);
    }
    is_so(alloc, bench, line)
}

fn is_call(line: &str) -> bool {
    matches!(line.as_bytes(), [_, b' ', ..])
}

fn line_is_so(alloc: Global, bench: &mut Bench, host: &mut HostState, line: &str) -> Option<bool> {
    if line.starts_with("#") {
        return Some(true);
    }
    if line == "=" {
        host.sense = sense_of(UnitCheck::EquipmentCheck);
        return Some(true);
    }
    if is_call(line) {
        return call_is_so(alloc, bench, line);
    }
    is_run(alloc, bench, host, line)
}

fn lines_are_so(alloc: Global, bench: &mut Bench, host: &mut HostState, text: &str) -> bool {
    for line in text.lines() {
        if line_is_so(alloc, bench, host, line) != Some(true) {
            return false;
        }
    }
    true
}

fn written(alloc: Global, word: &str) -> Option<Tear> {
    let left = bytes(alloc, word)?;
    Some(Tear::Write(Bytes::of(alloc, &left).ok()?))
}

/// The tear of a word: bytes for the next write, `fill` and a byte for each open place, or `lost`.
fn tear_of(alloc: Global, word: &str) -> Option<Tear> {
    if word == "lost" {
        return Some(Tear::Lost);
    }
    match word.strip_prefix("fill ") {
        Some(filler) => Some(Tear::Fill(byte(filler)?)),
        None => written(alloc, word),
    }
}

/// What a stop leaves, with a tear; `-` is none.
fn image_of(
    alloc: Global,
    bench: &Bench,
    moment: u64,
    tear: &str,
) -> Option<Result<Bench, ImageFault>> {
    if tear == "-" {
        return Some(bench.image(moment, &None));
    }
    let tear = Some(tear_of(alloc, tear)?);
    Some(bench.image(moment, &tear))
}

fn calls_are_so(alloc: Global, bench: &mut Bench, calls: &str) -> bool {
    for line in calls.lines() {
        if is_so(alloc, bench, line) != Some(true) {
            return false;
        }
    }
    true
}

fn left_is_so(alloc: Global, left: &mut Result<Bench, ImageFault>, calls: &str) -> bool {
    match left {
        Ok(bench) => calls_are_so(alloc, bench, calls),
        Err(fault) => *fault == ImageFault::NoSuchMoment && calls == "none",
    }
}

/// What the stop of a line leaves, which has its moment and its tear.
fn left_by(alloc: Global, bench: &Bench, stop: &str) -> Option<Result<Bench, ImageFault>> {
    let (moment, tear) = stop.split_once(" ")?;
    image_of(alloc, bench, u64::from(number(moment)?), tear)
}

/// Whether calls of what a stop leaves do what they say, or, where `none` is told, there is no such stop.
fn stop_is_so(alloc: Global, bench: &Bench, text: &str) -> Option<bool> {
    let (stop, calls) = text.split_once("\n")?;
    let mut left = left_by(alloc, bench, stop)?;
    Some(left_is_so(alloc, &mut left, calls))
}

fn run_stops(rt: &impl Abort, alloc: Global, bench: &Bench, stops: &str) {
    for stop in stops.split("\n\n") {
        let is_so = stop_is_so(alloc, bench, stop) == Some(true);
        assert!(rt; is_so, "{stop}");
    }
}

/// Whether the lines that come before a part, and then its own, are so.
fn run_on(alloc: Global, bench: &mut Bench, before: &str, part: &str) -> Option<bool> {
    let mut host = HostState::fresh().with_volume(VolumeNo::of(0)?, false, false);
    let is_begun = lines_are_so(alloc, bench, &mut host, before);
    Some(is_begun && lines_are_so(alloc, bench, &mut host, part))
}

fn run_lent(
    rt: &impl Abort,
    alloc: Global,
    bench: &mut Bench,
    before: &str,
    part: &str,
    stops: &str,
) {
    let is_so = run_on(alloc, bench, before, part) == Some(true);
    assert!(rt; is_so, "{part}");
    if !stops.is_empty() {
        run_stops(rt, alloc, bench, stops);
    }
}

fn run_part(rt: &impl Abort, alloc: Global, before: &str, part: &str, stops: &str) -> Option<()> {
    let mut bench = Bench::new(alloc)?;
    run_lent(rt, alloc, &mut bench, before, part, stops);
    Some(())
}

/// Runs a text, with the lines that come before each part, and what stops leave behind a part.
pub fn run_stopped(rt: &impl Abort, alloc: Global, before: &str, text: &str, stops: &str) {
    for part in text.split("\n\n") {
        let is_run = run_part(rt, alloc, before, part, stops).is_some();
        assert!(rt; is_run, "no devices");
    }
}

pub fn run(rt: &impl Abort, alloc: Global, before: &str, text: &str) {
    run_stopped(rt, alloc, before, text, "");
}
