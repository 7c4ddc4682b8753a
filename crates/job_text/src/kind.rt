//! The kinds of bad lines, the words that lines begin with, and where they stand.
/// Why a line is bad, in the order in which the kinds are told.
#[derive(Clone, Copy)]
pub enum JobKind {
    /// The text has more than 4,194,304 bytes; told with line 0.
    TooBig,
    /// A byte of the line isn't 20 to 7E.
    BadByte,
    /// The line stands behind `done`.
    After,
    /// The first word isn't allowed at this place.
    Unknown,
    /// The number of words, a fixed word, or the spelling of a number, a serial or bytes isn't as the form says.
    Shape,
    /// A number is outside its range, or the version isn't 1.
    Range,
    /// A volume number, a serial or a host number stands in an earlier line.
    Twice,
    /// A mounted serial is that of no volume.
    Absent,
    /// A program would have no words or more than 256, a host more than 1,024 items, an argument more than 65,798
    /// bytes, or all arguments so far more than 268,435,456 bytes.
    Count,
    /// The text ends without `done`; told with the line behind the last.
    Ended,
}

/// The first word of a line.
#[derive(Clone, Copy)]
pub enum Keyword {
    Mss,
    Volume,
    Host,
    Done,
    Mount,
    Demount,
    Program,
    Ccw,
    Tic,
    End,
}

/// Where a line stands.
#[derive(Clone, Copy, PartialEq, Eq)]
pub enum Place {
    Head,
    Volumes,
    Host,
    Program,
    After,
}
