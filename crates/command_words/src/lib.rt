//! The words of the command: which are accepted, and what they ask for.
//!
//! `read_command` takes the words behind the program's name and answers the `Command` that they
//! mean, or refuses them, exactly by the definition `meaning` of `specs/Words.antt`, over the
//! options of `specs/Options.antt`. clap parses the words: `specs/Parser.antt` has what it is told,
//! and `proofs/Walks.antt` the two laws on its walk. Digits are checked here, since clap's own
//! number parsers take a sign, and any count of zeros. Of words that ask for rules clap parses those
//! behind them, as if they stood behind `serial`, and the one word `compare` it doesn't see.
#![tactic(auto)]

mod command;
mod digits;
mod parser;
mod read;
mod ruled_read;

pub use command::{Command, CommandFault, CopyAsked};
pub use ruled_read::read_command;
