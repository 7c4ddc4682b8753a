// Writes.
ghost use Rattle.std.specs.Prelude.{◌≡◌, ◌-◌, [], true};
ghost use Rattle.ckd_plain.specs.Effects.{effect_with, is_ending};
ghost use Rattle.ckd_plain.specs.Views.{effect_of};

use crate::done::DoneCommand;
use crate::host::{HostState, Position, Prior};
use mss_base::Bytes;
use std::alloc::Global;

/// A write that left the host behind record `number`.
pub fn written(alloc: Global, host: &HostState, status: u8, number: u8, prior: Prior) -> DoneCommand
    requires { is_ending status ≡ true }
    ensures { effect_of result
        ≡ effect_with status []
        (record host.now { position = Position.Done number; prior = prior }) }
{
    DoneCommand {
        status,
        bytes: Bytes::new(alloc),
        host: HostState {
            position: Position::Done(number),
            prior,
            ..*host
        },
    }
}
