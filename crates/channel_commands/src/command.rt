//! What command codes ask for.

/// What a command code asks for.
///
/// With `multi` the command goes on from the end of its track to the next head of the cylinder.
#[derive(Clone, Copy, Debug, PartialEq, Eq)]
pub enum Command {
    /// Does nothing.
    NoOp,
    /// Reads the 24 sense bytes.
    Sense,
    /// Sets the address, to the cylinder and head of a six byte address.
    Seek(SeekKind),
    /// Seeks cylinder 0, head 0.
    Recalibrate,
    /// Sets the file mask of the chain, one byte: which writes and seeks it permits.
    SetMask,
    /// Has no effect: a sector is a place in time.
    SetSector,
    /// Compares a field of the track with the argument; status modifier tells that the test is met.
    Search {
        field: SearchField,
        test: SearchTest,
        multi: bool,
    },
    /// Reads fields of the track, each whole.
    Read {
        what: ReadWhat,
        multi: bool,
    },
    /// Writes the record that the search before it met, or a new one behind it.
    Write(WriteKind),
}

/// What a seek sets.
#[derive(Clone, Copy, Debug, PartialEq, Eq)]
pub enum SeekKind {
    /// Cylinder and head.
    Full,
    /// Cylinder and head too, under a file mask that permits no full seek.
    Cylinder,
    /// The head alone.
    Head,
}

/// The field that a search compares.
#[derive(Clone, Copy, Debug, PartialEq, Eq)]
pub enum SearchField {
    /// Cylinder and head of the home address, four bytes.
    Home,
    /// Cylinder, head and number of a count, five bytes.
    Id,
    /// The key of a record, up to the length of the argument.
    Key,
}

/// When a search is met: how the track's bytes compare with the argument's, unsigned and from the left.
#[derive(Clone, Copy, Debug, PartialEq, Eq)]
pub enum SearchTest {
    /// They are the same.
    Equal,
    /// The track's are higher.
    High,
    /// The track's are the same or higher.
    EqualOrHigh,
}

/// What a read gives.
#[derive(Clone, Copy, Debug, PartialEq, Eq)]
pub enum ReadWhat {
    /// The data of a record.
    Data,
    /// Key and data of a record.
    KeyData,
    /// Count, key and data of a record.
    CountKeyData,
    /// The count of a record, eight bytes.
    Count,
    /// Count and data of record 0, 16 bytes.
    RecordZero,
    /// The home address, five bytes.
    Home,
}

/// What a write puts.
#[derive(Clone, Copy, Debug, PartialEq, Eq)]
pub enum WriteKind {
    /// The data of a record that is there, cut or padded with zeros to its length.
    Data,
    /// Key and data of a record that is there, likewise.
    KeyData,
    /// A new record by its count of eight bytes, key and data; the records behind it go.
    CountKeyData,
}
