//! Commands of a program in their commonest spelling: `ccw XY` and `ccw XY DIGITS`, with a line feed behind.
//!
//! Most lines of a long job are such. Their words stand at known places, so they needn't be cut out and looked up.
ghost use Rattle.std.specs.Prelude.{◌≡◌, ◌++◌, ◌∷◌, codes, IfOk, IfSome};
ghost use Rattle.channel_commands.specs.Views.{argument_bytes};
ghost use Rattle.job_text.specs.Lines.{ccw};
ghost use Rattle.job_text.specs.FirstLine.{BeginsWith};

use crate::lines::parted_at;
use crate::words::{argument_of, pair_value};
use channel_commands::Argument;
use mss_base::NoMemory;
use std::alloc::Global;

/// A command, and the text behind its line.
#[derive(Drop)]
pub struct Command<'t> {
    pub code: u8,
    pub argument: Argument,
    pub behind: &'t [u8],
}

/// The three bytes behind `ccw ` at the head of a text, and what stands behind them.
fn behind_keyword(text: &[u8]) -> Option<(u8, u8, u8, &[u8])>
    ensures { IfSome result (λ r. text.now ≡ codes "ccw " ++ r.0 ∷ r.1 ∷ r.2 ∷ r.3.now) }
{
    match text {
        [b'c', b'c', b'w', b' ', high, low, next, rest @ ..] => Some((*high, *low, *next, rest)),
        _ => None,
    }
}

/// The last word of a line, and what stands behind the line.
///
/// A word that a space ends isn't the last, so that the digits before a `fill` aren't read twice.
fn last_word(text: &[u8]) -> Option<(&[u8], &[u8])>
    ensures { IfSome result (λ r. text.now ≡ r.0.now ++ 10 ∷ r.1.now) }
{
    let end = text.iter().position(|b| *b <= b' ')?;
    if text[end] != b'\n' {
        return None;
    }
    Some(parted_at(text, end))
}

/// The command that the first line of a text is, where it is spelled so.
pub fn command_at<'t>(alloc: Global, text: &'t [u8]) -> Result<Option<Command<'t>>, NoMemory>
    ensures { IfOk result (λ found. IfSome found (λ c.
        BeginsWith (ccw c.code (argument_bytes c.argument)) text.now c.behind.now)) }
{
    let Some((high, low, next, rest)) = behind_keyword(text) else {
        return Ok(None);
    };
    let Some(code) = pair_value(high, low) else {
        return Ok(None);
    };
    if next == b'\n' {
        return Ok(Some(Command {
            code,
            argument: Argument::empty(),
            behind: rest,
        }));
    }
    if next != b' ' {
        return Ok(None);
    }
    let Some((digits, behind)) = last_word(rest) else {
        return Ok(None);
    };
    let Some(argument) = argument_of(alloc, digits)? else {
        return Ok(None);
    };
    Ok(Some(Command {
        code,
        argument,
        behind,
    }))
}
