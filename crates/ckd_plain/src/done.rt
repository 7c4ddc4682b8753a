// Commands that were done, with their statuses.
ghost use Rattle.std.specs.Prelude.{◌≡◌, true};
ghost use Rattle.ckd_plain.specs.Effects.{is_ending};

use crate::host::HostState;
use mss_base::Bytes;

/// Channel end and device end.
pub const DONE: u8 = 0x0C;

/// Channel end, device end and status modifier: a search is met.
pub const MET: u8 = 0x4C;

/// Channel end, device end and unit exception: a record has no data.
pub const END_OF_FILE: u8 = 0x0D;

/// Channel end, device end and unit check.
pub const UNIT_CHECK: u8 = 0x0E;

/// A command that ended without unit check: its status and data, and the host then.
#[derive(Drop)]
pub struct DoneCommand {
    pub status: u8,
    pub bytes: Bytes,
    pub host: HostState,
    pub ghost ended: { is_ending status ≡ true },
}
