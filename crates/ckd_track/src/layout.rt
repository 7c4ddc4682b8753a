// Where things stand in a block: gates, and records one behind another.
ghost use Rattle.std.specs.Prelude.{◌≡◌, ◌≤◌, ◌+◌, length};
ghost use Rattle.ckd_track.specs.Data.{cost_of_lengths};
ghost use Rattle.ckd_track.specs.Track.{key_length, data_length, record_length, cost_at};

/// The gate of record k is the byte at `GATES` + k, for k from 1 to 98.
pub const GATES: u16 = 128;

/// Behind the last gate.
pub const GATES_END: u16 = 227;

/// The place of R1.
pub const FIRST_PLACE: usize = 256;

/// The costs of the records of a track are at most this together.
pub const TRACK_COST: u32 = 13_165;

/// What a record with a key and data of these lengths takes of its track.
pub fn cost_of_lengths(key_bytes: u8, data_bytes: u16) -> u32
    ensures { result ≡ cost_of_lengths key_bytes data_bytes }
{
    if key_bytes == 0 {
        135 + data_bytes as u32
    } else {
        191 + key_bytes as u32 + data_bytes as u32
    }
}

/// The length of the key of the record at a place.
pub fn key_length(block: &[u8], place: usize) -> u8
    requires { place + 8 ≤ length block.now }
    ensures { result ≡ key_length place block.now }
{
    block[place + 5]
}

/// The length of its data.
pub fn data_length(block: &[u8], place: usize) -> u16
    requires { place + 8 ≤ length block.now }
    ensures { result ≡ data_length place block.now }
{
    256 * block[place + 6] as u16 + block[place + 7] as u16
}

/// The length of its count, its key and its data together.
pub fn record_length(block: &[u8], place: usize) -> usize
    requires { place + 8 ≤ length block.now }
    ensures { result ≡ record_length place block.now }
{
    8 + key_length(block, place) as usize + data_length(block, place) as usize
}

/// What it takes of its track.
pub fn cost_at(block: &[u8], place: usize) -> u32
    requires { place + 8 ≤ length block.now }
    ensures { result ≡ cost_at place block.now }
{
    cost_of_lengths(key_length(block, place), data_length(block, place))
}
