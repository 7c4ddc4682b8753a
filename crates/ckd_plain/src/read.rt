// Reads.
ghost use Rattle.std.specs.Prelude.{◌≡◌, ◌++◌, IfOk, true};
ghost use Rattle.ckd_track.specs.Data.{HasCount};
ghost use Rattle.ckd_plain.specs.Effects.{at_hand, record_given, record_zero_read, home_read, read_outcome};
ghost use Rattle.ckd_plain.specs.Views.{item_of, found_of, effect_of};

use crate::done::{DONE, DoneCommand};
use crate::found::{FoundRecord, two_bytes};
use crate::host::{HostState, Position};
use channel_commands::ReadWhat;
use mss_base::{Bytes, NoMemory};
use std::alloc::Global;

/// The bytes of both.
fn join(alloc: Global, first: &[u8], second: &[u8]) -> Result<Bytes, NoMemory>
    ensures { IfOk result (λ bytes. bytes.items ≡ first.now ++ second.now) }
{
    let mut bytes = Bytes::of(alloc, first)?;
    bytes.append(second)?;
    Ok(bytes)
}

impl FoundRecord<'_> {
    /// What a read of this kind gives at this record.
    #[tactic(auto, unfolding(crate::specs::Effects::is_ending))]
    pub fn given(&self, alloc: Global, what: ReadWhat) -> Result<DoneCommand, NoMemory>
        requires counted { HasCount (item_of self.now) }
        ensures value { IfOk result
            (λ done. effect_of done ≡ record_given what (found_of self.now)) }
    {
        let (bytes, position, status) = match what {
            ReadWhat::Data => (
                Bytes::of(alloc, self.body)?,
                Position::Done(self.number),
                self.status(),
            ),
            ReadWhat::KeyData => (
                join(alloc, self.key, self.body)?,
                Position::Done(self.number),
                self.status(),
            ),
            ReadWhat::CountKeyData => {
                let mut bytes = join(alloc, &self.count(), self.key)?;
                bytes.append(self.body)?;
                (bytes, Position::Done(self.number), self.status())
            }
            _ => (
                Bytes::of(alloc, &self.count())?,
                Position::Count(self.number),
                DONE,
            ),
        };
        Ok(DoneCommand {
            status,
            bytes,
            host: HostState {
                position,
                ..self.host
            },
        })
    }
}

/// Read R0, of a host that stands at the home address.
#[tactic(auto, unfolding(crate::specs::Effects::is_ending))]
pub fn record_zero_read(alloc: Global, there: &HostState) -> Result<DoneCommand, NoMemory>
    ensures value { IfOk result (λ done. effect_of done ≡ record_zero_read there.now) }
{
    let [c, cc] = two_bytes(there.cylinder.get());
    let [h, hh] = two_bytes(u16::from(there.head.get()));
    let bytes = [c, cc, h, hh, 0, 0, 0, 8, 0, 0, 0, 0, 0, 0, 0, 0];
    Ok(DoneCommand {
        status: DONE,
        bytes: Bytes::of(alloc, &bytes)?,
        host: HostState {
            position: Position::Done(0),
            ..*there
        },
    })
}

/// Read home address, of a host that stands at it.
#[tactic(auto, unfolding(crate::specs::Effects::is_ending))]
pub fn home_read(alloc: Global, there: &HostState) -> Result<DoneCommand, NoMemory>
    ensures value { IfOk result (λ done. effect_of done ≡ home_read there.now) }
{
    let [c, cc] = two_bytes(there.cylinder.get());
    let [h, hh] = two_bytes(u16::from(there.head.get()));
    Ok(DoneCommand {
        status: DONE,
        bytes: Bytes::of(alloc, &[0, c, cc, h, hh])?,
        host: HostState {
            position: Position::Home,
            ..*there
        },
    })
}

/// The record at hand for a read of this kind.
pub fn at_hand(what: ReadWhat, position: Position) -> Option<u8>
    ensures { result ≡ at_hand what position }
{
    match (what, position) {
        (ReadWhat::Data, Position::Count(number)) => Some(number),
        (ReadWhat::Data, Position::Key(number)) => Some(number),
        (ReadWhat::KeyData, Position::Count(number)) => Some(number),
        _ => None,
    }
}
