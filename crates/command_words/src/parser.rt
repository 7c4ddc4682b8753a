//! The words, parsed by clap.
ghost use Rattle.std.specs.Prelude.{◌≡◌, ◌≢◌, [], codes, false, map, string_bytes, IfOk};
ghost use Rattle.clap.specs.Simple.{app_of, shape_of, with_subcommand};
ghost use Rattle.clap.specs.declared.builder.command.Command.TheViews.{out-Command as fields_of};
ghost use Rattle.command_words.specs.Outcomes.{Parses};
ghost use Rattle.command_words.specs.Parser.{
  app,
  audit,
  bare_app,
  command_shape,
  serial,
  show,
  threads,
  with_option,
};

use crate::command::CommandFault;
use clap::error::ErrorKind;
use clap::{Arg, ArgMatches, Command};
use std::alloc::{AllocError, Global};

/// A command with one option more, which takes a value.
fn with_option<'a>(
    alloc: Global,
    command: Command<'a>,
    name: &'a str,
) -> Result<Command<'a>, AllocError>
    requires { (fields_of command).has_globals ≡ false }
    ensures shape { IfOk result (λ parser. shape_of parser
        ≡ with_option name.entry.now (shape_of command.entry)) }
    ensures local { IfOk result (λ parser. (fields_of parser).has_globals ≡ false) }
{
    command.arg(Arg::new(alloc, name).long(name))
}

/// `serial`, with the options by which its turns are drawn.
fn turns_parser<'a>(alloc: Global) -> Result<Command<'a>, AllocError>
    ensures shape { IfOk result (λ parser. shape_of parser
        ≡ with_option (codes "turns") (with_option (codes "order")
        (command_shape (codes "serial", [])))) }
    ensures local { IfOk result (λ parser. (fields_of parser).has_globals ≡ false) }
{
    let parser = with_option(alloc, plain_parser(alloc, "serial"), "order")?;
    with_option(alloc, parser, "turns")
}

/// A command with the options of a copy.
fn with_copy<'a>(alloc: Global, command: Command<'a>) -> Result<Command<'a>, AllocError>
    requires { (fields_of command).has_globals ≡ false }
    ensures shape { IfOk result (λ parser. shape_of parser
        ≡ with_option (codes "after") (with_option (codes "copy") (shape_of command.entry))) }
    ensures local { IfOk result (λ parser. (fields_of parser).has_globals ≡ false) }
{
    let parser = with_option(alloc, command, "copy")?;
    with_option(alloc, parser, "after")
}

/// `serial`, with its options.
fn serial_parser<'a>(alloc: Global) -> Result<Command<'a>, AllocError>
    ensures shape { IfOk result (λ parser. shape_of parser ≡ command_shape serial) }
    ensures local { IfOk result (λ parser. (fields_of parser).has_globals ≡ false) }
{
    let parser = turns_parser(alloc)?;
    let parser = with_option(alloc, parser, "load")?;
    with_copy(alloc, parser)
}

/// `threads`, with its options.
fn threads_parser<'a>(alloc: Global) -> Result<Command<'a>, AllocError>
    ensures shape { IfOk result (λ parser. shape_of parser ≡ command_shape threads) }
    ensures local { IfOk result (λ parser. (fields_of parser).has_globals ≡ false) }
{
    with_copy(alloc, plain_parser(alloc, "threads"))
}

/// `audit`, with its option.
fn audit_parser<'a>(alloc: Global) -> Result<Command<'a>, AllocError>
    ensures shape { IfOk result (λ parser. shape_of parser ≡ command_shape audit) }
    ensures local { IfOk result (λ parser. (fields_of parser).has_globals ≡ false) }
{
    with_option(alloc, plain_parser(alloc, "audit"), "frames")
}

/// A command without options.
fn plain_parser<'a>(alloc: Global, name: &'a str) -> Command<'a>
    ensures shape { shape_of result ≡ command_shape (name.now, []) }
    ensures local { (fields_of result).has_globals ≡ false }
{
    Command::new(alloc, name)
}

/// The program before it has commands. It takes the words behind its name, and neither `help` nor
/// `--help`.
fn bare_parser<'a>(alloc: Global) -> Command<'a>
    ensures { app_of result ≡ bare_app }
{
    Command::new(alloc, "mss")
        .no_binary_name(true)
        .disable_help_flag(true)
        .disable_help_subcommand(true)
        .subcommand_required(true)
}

/// The program with one command more.
fn with_command<'a>(program: Command<'a>, command: Command<'a>) -> Result<Command<'a>, AllocError>
    requires { (fields_of command).has_globals ≡ false }
    ensures { IfOk result (λ parser. app_of parser
        ≡ with_subcommand (app_of program.entry) (shape_of command.entry)) }
{
    program.subcommand(command)
}

/// The program with its first command, `serial`.
fn with_serial<'a>(alloc: Global) -> Result<Command<'a>, AllocError>
    ensures { IfOk result (λ parser. app_of parser
        ≡ with_subcommand bare_app (command_shape serial)) }
{
    let serial = serial_parser(alloc)?;
    with_command(bare_parser(alloc), serial)
}

/// The program with `threads`.
fn with_threads<'a>(alloc: Global, program: Command<'a>) -> Result<Command<'a>, AllocError>
    ensures { IfOk result (λ parser. app_of parser
        ≡ with_subcommand (app_of program.entry) (command_shape threads)) }
{
    let threads = threads_parser(alloc)?;
    with_command(program, threads)
}

/// The program with `show`, which has no options.
fn with_show<'a>(alloc: Global, program: Command<'a>) -> Result<Command<'a>, AllocError>
    ensures { IfOk result (λ parser. app_of parser
        ≡ with_subcommand (app_of program.entry) (command_shape show)) }
{
    with_command(program, plain_parser(alloc, "show"))
}

/// The program with `audit`.
fn with_audit<'a>(alloc: Global, program: Command<'a>) -> Result<Command<'a>, AllocError>
    ensures { IfOk result (λ parser. app_of parser
        ≡ with_subcommand (app_of program.entry) (command_shape audit)) }
{
    let audit = audit_parser(alloc)?;
    with_command(program, audit)
}

/// The program with its commands.
fn parser<'a>(alloc: Global) -> Result<Command<'a>, AllocError>
    ensures { IfOk result (λ parser. app_of parser ≡ app) }
{
    let program = with_serial(alloc)?;
    let program = with_threads(alloc, program)?;
    let program = with_show(alloc, program)?;
    with_audit(alloc, program)
}

/// The fault of a parse that failed.
fn fault_of(kind: ErrorKind) -> CommandFault
    ensures memory { result ≡ CommandFault.Memory → kind ≡ ErrorKind.OutOfMemory }
    ensures refused { result ≡ CommandFault.Refused → kind ≢ ErrorKind.OutOfMemory }
{
    match kind {
        ErrorKind::OutOfMemory => CommandFault::Memory,
        _ => CommandFault::Refused,
    }
}

/// What clap makes of the words.
pub fn parse<'a>(alloc: Global, words: &'a [String]) -> Result<ArgMatches<'a>, CommandFault>
    ensures { Parses result (map string_bytes words.now) }
{
    let parser = parser(alloc)?;
    match parser.try_get_matches_from(words) {
        Ok(matches) => Ok(matches),
        Err(error) => Err(fault_of(error.kind())),
    }
}
