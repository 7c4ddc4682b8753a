//! The cursor of a channel program.
ghost use Rattle.std.specs.Prelude.{◌≡◌, Bool, map, slice_get};
ghost use Rattle.std.specs.Option.{option_map};
ghost use Rattle.channel_commands.specs.Data.{device, command};
ghost use Rattle.channel_commands.specs.Views.{argument_bytes, ccw_of, reply_of};
ghost use Rattle.channel_program.specs.Script.{Standing, next_call, word_reached, command_in, word_after};
ghost use Rattle.channel_program.specs.Views.{standing_of, Says, Moves, HoldsCommand, IsNextCommand};

use crate::program::Program;
use channel_commands::{Argument, Ccw, Reply};

/// The place of a program: the word of its last command, and how many commands it ran.
#[derive(Clone, Copy)]
pub struct Cursor {
    pub word: u16,
    pub executed: u32,
}

/// What comes next in a program.
#[derive(Clone, Copy)]
pub enum NextCall {
    /// The command at this word, with chaining to a further one or without.
    Command { word: u8, chained: bool },
    /// The program is finished.
    Ended,
    /// The program breaks off: its next word leads to no command.
    ProgramCheck,
    /// The program breaks off: a further command would follow the most that a program runs.
    ChainLimit,
}

impl Cursor {
    /// Before the first word.
    pub fn start() -> Cursor
        ensures { result ≡ record { word = 0; executed = 0 } }
    {
        Cursor {
            word: 0,
            executed: 0,
        }
    }
}

/// The most commands that a program runs.
const CHAIN_LIMIT: u32 = 2048;

/// Unit check and unit exception.
const TROUBLE: u8 = 0x03;

const STATUS_MODIFIER: u8 = 0x40;

/// The word to go to after the reply to the command at a word.
fn word_after(words: &[Ccw], word: u16, reply: &Reply) -> Option<usize>
    ensures { result ≡ word_after (map ccw_of words.now) word (reply_of reply.now) }
{
    let Reply::Done { status, .. } = reply else {
        return None;
    };
    let word = word as usize;
    if *status & TROUBLE != 0 {
        return None;
    }
    if word + 1 == words.len() {
        return None;
    }
    if *status & STATUS_MODIFIER == STATUS_MODIFIER {
        Some(word + 2)
    } else {
        Some(word + 1)
    }
}

/// The word itself, if it is a command.
fn command_word(words: &[Ccw], word: usize) -> Option<usize>
    ensures { let at = command_in word (slice_get (map ccw_of words.now) word) in
        result ≡ option_map (λ at. at.word) at }
{
    if let Some(Ccw::Device { .. }) = words.get(word) {
        Some(word)
    } else {
        None
    }
}

/// The word with the command that a word leads to.
fn reached(words: &[Ccw], word: usize) -> Option<usize>
    ensures { result ≡ option_map (λ at. at.word) (word_reached (map ccw_of words.now) word) }
{
    match words.get(word) {
        Some(Ccw::Device { .. }) => Some(word),
        Some(Ccw::Transfer { to }) if word != 0 => command_word(words, *to as usize),
        _ => None,
    }
}

/// Where a program stands: the word to go to, if it isn't finished, and how many commands it ran.
fn standing(words: &[Ccw], cursor: &Cursor, last: Option<&Reply>) -> (Option<usize>, u32)
    ensures { let reply = option_map (λ reply. reply_of reply.now) last.entry in
        standing_of (map ccw_of words.now) cursor.now reply
        ≡ record { word = result.0; executed = result.1 } }
{
    match last {
        Some(reply) => (word_after(words, cursor.word, reply), cursor.executed),
        None => (Some(0), 0),
    }
}

/// The next call of a program, after the reply to its last; `None` starts it at word 0.
///
/// A program is finished after a reply that isn't `Done`, that has unit check or unit exception, or that came from its
/// last word. Else it goes on one word further, or two after status modifier, and over a transfer to its target. It
/// breaks off with `ProgramCheck` where that word is outside, where a transfer leads to a transfer or outside, and where
/// word 0 is a transfer; with `ChainLimit` where 2,048 commands were run.
#[inline(always)]
pub fn next(program: &Program, cursor: &mut Cursor, last: Option<&Reply>) -> NextCall
    ensures call { let reply = option_map (λ reply. reply_of reply.now) last.entry in
        Says program.now (standing_of program.now cursor.old reply) result }
    ensures cursor { let reply = option_map (λ reply. reply_of reply.now) last.entry in
        let at = standing_of program.now cursor.old reply in
        Moves program.now at result cursor.old cursor.new }
{
    let words = program.as_slice();
    let (next, executed) = standing(words, cursor, last);
    let Some(next) = next else {
        return NextCall::Ended;
    };
    let Some(word) = reached(words, next) else {
        return NextCall::ProgramCheck;
    };
    if executed >= CHAIN_LIMIT {
        return NextCall::ChainLimit;
    }
    *cursor = Cursor {
        word: word as u16,
        executed: executed + 1,
    };
    NextCall::Command {
        word: word as u8,
        chained: word + 1 != words.len(),
    }
}

/// The code and the argument of a word that is a command, as each word is that `next` gives.
#[inline(always)]
pub fn command_at(program: &Program, word: u8) -> (u8, &Argument)
    requires { HoldsCommand program.now word }
    ensures word { slice_get program.now word
        ≡ Some (device result.0 (argument_bytes result.1.now)) }
    ensures call { (at : Standing) (chained : Bool) → IsNextCommand program.now at word chained
        → next_call program.now at
        ≡ Some (command result.0 (argument_bytes result.1.now) chained) }
{
    match &program.as_slice()[word as usize] {
        Ccw::Device { code, argument } => (*code, argument),
        Ccw::Transfer { .. } => unreachable!(),
    }
}
