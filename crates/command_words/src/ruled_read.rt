//! Words that may ask for rules.
ghost use Rattle.std.specs.Prelude.{◌≡◌, ◌≤◌, ◌∷◌, true, codes, length, map, string_bytes, Some, IfOk};
ghost use Rattle.command_words.specs.Outcomes.{Reads};
ghost use Rattle.command_words.specs.Words.{IsWithin, asks_compare, asks_policy, meaning, policy_of};
ghost use Rattle.command_words.specs.Words.{command_without_rules, with_rules};

use crate::command::{Command, CommandFault};
use crate::read::read_unruled;
use std::alloc::{AllocError, Global};
use victim_rules::{Ruled, read_rules};

/// Whether the first of two or more words is `policy`.
fn asks_policy(words: &[String]) -> bool
    ensures value { result ≡ asks_policy (map string_bytes words.now) }
    ensures two { result ≡ true → 2 ≤ length words.now }
{
    2 <= words.len() && words[0].as_str() == "policy"
}

/// Whether there is one word, `compare`.
fn asks_compare(words: &[String]) -> bool
    ensures { result ≡ asks_compare (map string_bytes words.now) }
{
    words.len() == 1 && words[0].as_str() == "compare"
}

/// The words of `serial` with these options.
fn serial_words(alloc: Global, options: &[String]) -> Result<Vec<String>, AllocError>
    ensures { IfOk result (λ words.
        map string_bytes words.items ≡ codes "serial" ∷ map string_bytes options.now) }
{
    let mut words = Vec::new(alloc);
    words.push(String::from_str(alloc, "serial")?)?;
    for option in options {
        words.push(String::from_str(alloc, option.as_str())?)?;
    }
    Ok(words)
}

/// What options ask for behind `serial`.
fn read_settings(alloc: Global, options: &[String]) -> Result<Command, CommandFault>
    ensures meaning { Reads result
        (command_without_rules (codes "serial" ∷ map string_bytes options.now)) }
    ensures within { IfOk result IsWithin }
{
    let words = serial_words(alloc, options)?;
    read_unruled(alloc, words.as_slice())
}

/// The run that is asked for, by these rules.
fn with_rules(rules: Ruled, command: Command) -> Result<Command, CommandFault>
    requires { IsWithin command }
    ensures meaning { Reads result (with_rules rules (Some command)) }
    ensures within { IfOk result IsWithin }
{
    match command {
        Command::Serial {
            order,
            turns,
            load,
            copy,
        } => Ok(Command::Policy {
            rules,
            order,
            turns,
            load,
            copy,
        }),
        _ => Err(CommandFault::Refused),
    }
}

/// What a text of rules and the options behind it ask for.
fn read_policy(alloc: Global, rules: &str, options: &[String]) -> Result<Command, CommandFault>
    ensures meaning { Reads result (policy_of rules.now (map string_bytes options.now)) }
    ensures within { IfOk result IsWithin }
{
    let Ok(rules) = read_rules(rules) else {
        return Err(CommandFault::Refused);
    };
    match read_settings(alloc, options) {
        Ok(command) => with_rules(rules, command),
        Err(fault) => Err(fault),
    }
}

/// The command that the words behind the program's name ask for.
///
/// They are `serial`, `threads`, `show` or `audit`, and behind `serial` its options: `--order` of 0
/// to 18,446,744,073,709,551,615, `--turns` of 0 to 100,000, `--load` of 1 to 1,000, `--copy` of 0 to
/// 31 and, with `--copy` alone, `--after` of 0 to 4,096, each at most once, in any order, as two
/// words or with `=`. Order, turns and `--after` are 0 where they are left out. `--load` and `--copy`
/// don't go together. Behind `threads` there may be `--copy` and `--after`, behind `audit` `--frames`
/// of 1 to 200, which is 200 where it is left out. A number is one to twenty digits. A last word `--`
/// means nothing. Or they are `policy`, a text of rules, as `victim_rules` reads it, and the options
/// of `serial`; or the one word `compare`. All other words are `Refused`, `help`, `--help` and
/// `--version` too. `Memory` may come at any words.
pub fn read_command(alloc: Global, words: &[String]) -> Result<Command, CommandFault>
    ensures meaning { Reads result (meaning (map string_bytes words.now)) }
    ensures within { IfOk result IsWithin }
{
    if asks_policy(words) {
        return read_policy(alloc, words[1].as_str(), &words[2..]);
    }
    if asks_compare(words) {
        return Ok(Command::Compare);
    }
    read_unruled(alloc, words)
}
