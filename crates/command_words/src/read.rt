//! What the parsed words mean.
ghost use Rattle.std.specs.Prelude.{◌≡◌, ◌≤◌, ℕ, List, Some, map, string_bytes, IfOk, IfSome};
ghost use Rattle.std.specs.Option.{option_map};
ghost use Rattle.clap.specs.Matches.{found_of};
ghost use Rattle.clap.specs.Simple.{subcommand_rows_of};
ghost use Rattle.clap.specs.Walk.{rows_of};
ghost use Rattle.command_words.specs.Options.{Given};
ghost use Rattle.command_words.specs.Outcomes.{Reads};
ghost use Rattle.command_words.specs.Parser.{expected_top, row_for};
ghost use Rattle.command_words.specs.Words.{IsWithin, command_by, load_setting, command_without_rules};
ghost use Rattle.command_words.specs.Words.{audit_by, audit_of, frames_setting};
ghost use Rattle.command_words.specs.Words.{IsCopyWithin, copy_by, copy_of, copy_setting};
ghost use Rattle.command_words.specs.Words.{serial_by, serial_of, serial_with, setting};
ghost use Rattle.command_words.specs.Words.{threads_by, threads_of};

use crate::command::{Command, CommandFault, CopyAsked};
use crate::digits::number_in;
use crate::parser::parse;
use clap::ArgMatches;
use std::alloc::Global;

/// The most turns that are drawn at the start of a run.
const TURN_LIMIT: u64 = 100_000;

/// The most programs of a load.
const PROGRAM_LIMIT: u64 = 1000;

/// As many frames as there may be.
const FRAME_LIMIT: u64 = 200;

/// The last volume.
const VOLUME_LIMIT: u64 = 31;

/// The most entries of a history.
const ENTRY_LIMIT: u64 = 4096;

/// A number up to a most, and 0 where it is left out.
fn setting(most: u64, text: Option<&str>) -> Option<u64>
    ensures value { result ≡ setting most (option_map (λ t. t.now) text.entry) }
    ensures within { IfSome result (λ n. n ≤ most) }
{
    match text {
        Some(text) => number_in(0, most, text),
        None => Some(0),
    }
}

/// How many programs a load has, or that there is none where it is left out.
fn load_setting(text: Option<&str>) -> Option<Option<u32>>
    ensures value { result ≡ load_setting (option_map (λ t. t.now) text.entry) }
    ensures within { IfSome result (λ load. IfSome load (λ n. (1 ≤ n) × (n ≤ 1000))) }
{
    match text {
        Some(text) => match number_in(1, PROGRAM_LIMIT, text) {
            Some(programs) => Some(Some(programs as u32)),
            None => None,
        },
        None => Some(None),
    }
}

/// A copy, where its volume and its point are in order.
fn copy_by(volume: Option<u64>, after: Option<u64>) -> Option<Option<CopyAsked>>
    requires volume { IfSome volume (λ n. n ≤ 31) }
    requires after { IfSome after (λ n. n ≤ 4096) }
    ensures value { result ≡ copy_by volume after }
    ensures within { IfSome result IsCopyWithin }
{
    let Some(volume) = volume else {
        return None;
    };
    let Some(after) = after else {
        return None;
    };
    let volume = volume as u8;
    Some(Some(CopyAsked { volume, after }))
}

/// The copy that is asked for, or that there is none where both are left out. A point alone is
/// refused.
fn copy_setting(volume: Option<&str>, after: Option<&str>) -> Option<Option<CopyAsked>>
    ensures value { result ≡ copy_setting
        (option_map (λ t. t.now) volume.entry) (option_map (λ t. t.now) after.entry) }
    ensures within { IfSome result IsCopyWithin }
{
    match volume {
        Some(volume) => copy_by(
            number_in(0, VOLUME_LIMIT, volume),
            setting(ENTRY_LIMIT, after),
        ),
        None => match after {
            Some(_) => None,
            None => Some(None),
        },
    }
}

/// What the options of a copy mean.
fn copy_of(options: &ArgMatches<'_>) -> Option<Option<CopyAsked>>
    ensures value { (givens : List Given) → rows_of (found_of options.now) ≡ map row_for givens
        → result ≡ copy_of givens }
    ensures within { IfSome result IsCopyWithin }
{
    copy_setting(options.get_str("copy"), options.get_str("after"))
}

/// A run of these settings, unless a copy of a load is asked for.
fn serial_with(
    order: u64,
    turns: u32,
    load: Option<u32>,
    copy: Option<CopyAsked>,
) -> Option<Command>
    requires turns { turns ≤ 100000 }
    requires load { IfSome load (λ n. (1 ≤ n) × (n ≤ 1000)) }
    requires copy { IsCopyWithin copy }
    ensures value { result ≡ serial_with order turns load copy }
    ensures within { IfSome result IsWithin }
{
    if load.is_some() && copy.is_some() {
        return None;
    }
    Some(Command::Serial {
        order,
        turns,
        load,
        copy,
    })
}

/// `serial`, where each of its settings is in order, and they go together.
fn serial_by(
    order: Option<u64>,
    turns: Option<u64>,
    load: Option<Option<u32>>,
    copy: Option<Option<CopyAsked>>,
) -> Option<Command>
    requires turns { IfSome turns (λ n. n ≤ 100000) }
    requires load { IfSome load (λ load. IfSome load (λ n. (1 ≤ n) × (n ≤ 1000))) }
    requires copy { IfSome copy IsCopyWithin }
    ensures value { result ≡ serial_by order turns load copy }
    ensures within { IfSome result IsWithin }
{
    let Some(order) = order else {
        return None;
    };
    let Some(turns) = turns else {
        return None;
    };
    let Some(load) = load else {
        return None;
    };
    let Some(copy) = copy else {
        return None;
    };
    serial_with(order, turns as u32, load, copy)
}

/// What the options of `serial` mean.
fn serial_of(options: &ArgMatches<'_>) -> Option<Command>
    ensures value { (givens : List Given) → rows_of (found_of options.now) ≡ map row_for givens
        → result ≡ serial_of givens }
    ensures within { IfSome result IsWithin }
{
    let order = setting(u64::MAX, options.get_str("order"));
    let turns = setting(TURN_LIMIT, options.get_str("turns"));
    let load = load_setting(options.get_str("load"));
    let copy = copy_of(options);
    serial_by(order, turns, load, copy)
}

/// `threads`, where its setting is in order.
fn threads_by(copy: Option<Option<CopyAsked>>) -> Option<Command>
    requires { IfSome copy IsCopyWithin }
    ensures value { result ≡ threads_by copy }
    ensures within { IfSome result IsWithin }
{
    let Some(copy) = copy else {
        return None;
    };
    Some(Command::Threads { copy })
}

/// What the options of `threads` mean.
fn threads_of(options: &ArgMatches<'_>) -> Option<Command>
    ensures value { (givens : List Given) → rows_of (found_of options.now) ≡ map row_for givens
        → result ≡ threads_of givens }
    ensures within { IfSome result IsWithin }
{
    let copy = copy_of(options);
    threads_by(copy)
}

/// How many frames an audit allows, and as many as there may be where that is left out.
fn frames_setting(text: Option<&str>) -> Option<u16>
    ensures value { result ≡ frames_setting (option_map (λ t. t.now) text.entry) }
    ensures within { IfSome result (λ n. (1 ≤ n) × (n ≤ 200)) }
{
    match text {
        Some(text) => match number_in(1, FRAME_LIMIT, text) {
            Some(frames) => Some(frames as u16),
            None => None,
        },
        None => Some(FRAME_LIMIT as u16),
    }
}

/// `audit`, where its setting is in order.
fn audit_by(frames: Option<u16>) -> Option<Command>
    requires { IfSome frames (λ n. (1 ≤ n) × (n ≤ 200)) }
    ensures value { result ≡ audit_by frames }
    ensures within { IfSome result IsWithin }
{
    let Some(frames) = frames else {
        return None;
    };
    Some(Command::Audit { frames })
}

/// What the options of `audit` mean.
fn audit_of(options: &ArgMatches<'_>) -> Option<Command>
    ensures value { (givens : List Given) → rows_of (found_of options.now) ≡ map row_for givens
        → result ≡ audit_of givens }
    ensures within { IfSome result IsWithin }
{
    let frames = frames_setting(options.get_str("frames"));
    audit_by(frames)
}

/// What a command with its options means.
fn command_by(name: &str, options: &ArgMatches<'_>) -> Option<Command>
    ensures value { (givens : List Given) → rows_of (found_of options.now) ≡ map row_for givens
        → result ≡ command_by name.now givens }
    ensures within { IfSome result IsWithin }
{
    if name == "serial" {
        return serial_of(options);
    }
    if name == "threads" {
        return threads_of(options);
    }
    if name == "show" {
        return Some(Command::Show);
    }
    audit_of(options)
}

/// What the parsed words mean.
fn meaning(matches: &ArgMatches<'_>) -> Option<Command>
    ensures value { (words : List (List ℕ))
        → expected_top words ≡ Some (subcommand_rows_of matches.now)
        → result ≡ command_without_rules words }
    ensures within { IfSome result IsWithin }
{
    match matches.subcommand() {
        Some((name, options)) => command_by(name, options),
        None => None,
    }
}

/// The command that words without rules ask for.
pub fn read_unruled(alloc: Global, words: &[String]) -> Result<Command, CommandFault>
    ensures meaning { Reads result (command_without_rules (map string_bytes words.now)) }
    ensures within { IfOk result IsWithin }
{
    let matches = match parse(alloc, words) {
        Ok(matches) => matches,
        Err(fault) => return Err(fault),
    };
    match meaning(&matches) {
        Some(command) => Ok(command),
        None => Err(CommandFault::Refused),
    }
}
