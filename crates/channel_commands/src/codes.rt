//! The table of command codes.
ghost use Rattle.std.specs.Prelude.{◌≡◌, MatchResult};
ghost use Rattle.channel_commands.specs.Codes.{command_of, least};

use crate::command::{Command, ReadWhat, SearchField, SearchTest, SeekKind, WriteKind};

/// The code is none of the table's.
#[derive(Clone, Copy)]
pub struct UnknownCode;

fn search(field: SearchField, test: SearchTest, multi: bool) -> Command
    ensures { result ≡ Command.Search field test multi }
{
    Command::Search { field, test, multi }
}

fn read(what: ReadWhat, multi: bool) -> Command
    ensures { result ≡ Command.Read what multi }
{
    Command::Read { what, multi }
}

/// The command of a code: 37 codes have one, and each other is an `UnknownCode`.
///
/// Bit 0x80 means multi-track. Transfer in channel, 0x08, is a word of a program and no device command.
pub fn command_of(code: u8) -> Result<Command, UnknownCode>
    ensures { MatchResult result (λ command. command_of code ≡ Some command)
        (λ e. command_of code ≡ None) }
{
    Ok(match code {
        0x03 => Command::NoOp,
        0x04 => Command::Sense,
        0x07 => Command::Seek(SeekKind::Full),
        0x0B => Command::Seek(SeekKind::Cylinder),
        0x1B => Command::Seek(SeekKind::Head),
        0x13 => Command::Recalibrate,
        0x1F => Command::SetMask,
        0x23 => Command::SetSector,
        0x39 => search(SearchField::Home, SearchTest::Equal, false),
        0xB9 => search(SearchField::Home, SearchTest::Equal, true),
        0x31 => search(SearchField::Id, SearchTest::Equal, false),
        0xB1 => search(SearchField::Id, SearchTest::Equal, true),
        0x51 => search(SearchField::Id, SearchTest::High, false),
        0xD1 => search(SearchField::Id, SearchTest::High, true),
        0x71 => search(SearchField::Id, SearchTest::EqualOrHigh, false),
        0xF1 => search(SearchField::Id, SearchTest::EqualOrHigh, true),
        0x29 => search(SearchField::Key, SearchTest::Equal, false),
        0xA9 => search(SearchField::Key, SearchTest::Equal, true),
        0x49 => search(SearchField::Key, SearchTest::High, false),
        0xC9 => search(SearchField::Key, SearchTest::High, true),
        0x69 => search(SearchField::Key, SearchTest::EqualOrHigh, false),
        0xE9 => search(SearchField::Key, SearchTest::EqualOrHigh, true),
        0x06 => read(ReadWhat::Data, false),
        0x86 => read(ReadWhat::Data, true),
        0x0E => read(ReadWhat::KeyData, false),
        0x8E => read(ReadWhat::KeyData, true),
        0x1E => read(ReadWhat::CountKeyData, false),
        0x9E => read(ReadWhat::CountKeyData, true),
        0x12 => read(ReadWhat::Count, false),
        0x92 => read(ReadWhat::Count, true),
        0x16 => read(ReadWhat::RecordZero, false),
        0x96 => read(ReadWhat::RecordZero, true),
        0x1A => read(ReadWhat::Home, false),
        0x9A => read(ReadWhat::Home, true),
        0x05 => Command::Write(WriteKind::Data),
        0x0D => Command::Write(WriteKind::KeyData),
        0x1D => Command::Write(WriteKind::CountKeyData),
        _ => return Err(UnknownCode),
    })
}

/// The least length of the command's argument, 0 to 8 bytes.
pub fn least(command: Command) -> usize
    ensures { result ≡ least command }
{
    match command {
        Command::Seek(_) => 6,
        Command::SetMask | Command::SetSector => 1,
        Command::Search { field, .. } => match field {
            SearchField::Home => 4,
            SearchField::Id => 5,
            SearchField::Key => 1,
        },
        Command::Write(WriteKind::CountKeyData) => 8,
        _ => 0,
    }
}
