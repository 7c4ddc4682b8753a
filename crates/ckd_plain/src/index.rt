// Where a command finds its record.
ghost use Rattle.std.specs.Prelude.{◌≡◌, ◌+◌, ◌<◌};
ghost use Rattle.ckd_plain.specs.Index.{candidate, pass_index, to_home};

use crate::host::{HostState, Position};
use crate::unit_check::{Refusal, UnitCheck};
use mss_base::Head;

/// The number of the record that comes next, where `first` is the first that counts.
pub fn candidate(position: Position, first: u8) -> usize
    ensures { result ≡ candidate position first }
{
    match position {
        Position::Start | Position::Home => usize::from(first),
        Position::Count(k) | Position::Key(k) | Position::Done(k) => usize::from(k) + 1,
    }
}

/// The host past the index: on the next head, or at the start of the same track.
#[tactic(auto, unfolding(crate::specs::Index::pass_index))]
pub fn pass_index(host: HostState, multi: bool) -> Result<HostState, Refusal>
    ensures { result ≡ pass_index host multi }
{
    let refusal = |check, host| Err(Refusal { check, host });
    if multi {
        if host.mask & 0x18 == 0x18 {
            return refusal(UnitCheck::FileProtected, host);
        }
        let Some(head) = Head::of(host.head.get() + 1) else {
            return refusal(UnitCheck::EndOfCylinder, host);
        };
        return Ok(HostState {
            head,
            position: Position::Start,
            passes: 0,
            ..host
        });
    }
    let start = HostState {
        position: Position::Start,
        ..host
    };
    if host.passes != 0 {
        return refusal(UnitCheck::NoRecordFound, HostState { passes: 2, ..start });
    }
    Ok(HostState { passes: 1, ..start })
}

/// The host at the home address of its track, or of the next.
#[tactic(auto, unfolding(crate::specs::Index::to_home))]
pub fn to_home(host: HostState, multi: bool) -> Result<HostState, Refusal>
    ensures { result ≡ to_home host multi }
{
    if host.position == Position::Start {
        return Ok(host);
    }
    if multi {
        return pass_index(host, true);
    }
    Ok(HostState {
        position: Position::Start,
        ..host
    })
}
