//! The arguments of device commands.
ghost use Rattle.std.specs.Prelude.{◌≡◌, ◌≤◌, [], length, IsOk, IfOk};
ghost use Rattle.channel_commands.specs.Views.{IsShort, argument_bytes};

use arrayvec::ArrayVec;
use mss_base::{Bytes, NoMemory};
use std::alloc::Global;
use std::sync::Arc;

/// The most bytes that an argument keeps in itself: those of a seek or a search ID are fewer.
pub const INLINE_BYTES: usize = 8;

/// The bytes that the channel moves to the device.
///
/// A word of a program, the calls that it makes, and the entries of the history that tell them hold the same bytes. Long
/// ones are in memory once.
#[derive(Drop)]
pub enum Argument {
    Inline(ArrayVec<u8, INLINE_BYTES>),
    Shared(Arc<Bytes>),
}

impl Argument {
    /// No bytes.
    pub fn empty() -> Argument
        ensures { argument_bytes result ≡ [] }
    {
        Argument::Inline(ArrayVec::new())
    }

    /// These bytes, where they are few. They take no memory.
    fn short(bytes: &[u8]) -> Argument
        requires { length bytes.now ≤ INLINE_BYTES }
        ensures { argument_bytes result ≡ bytes.now }
    {
        // Most commands have no argument.
        if bytes.is_empty() {
            return Argument::empty();
        }
        let mut short = ArrayVec::new();
        if short.try_extend_from_slice(bytes).is_err() {
            unreachable!()
        }
        Argument::Inline(short)
    }

    /// A copy of these bytes. Of eight or fewer it takes no memory.
    pub fn of(alloc: Global, bytes: &[u8]) -> Result<Argument, NoMemory>
        ensures same { IfOk result (λ argument. argument_bytes argument ≡ bytes.now) }
        ensures short { IsShort bytes.now → IsOk result }
    {
        if bytes.len() <= INLINE_BYTES {
            return Ok(Argument::short(bytes));
        }
        let bytes = Bytes::of(alloc, bytes)?;
        Ok(Argument::Shared(Arc::new(alloc, bytes)?))
    }

    /// These bytes, which aren't copied where they are more than eight. Fewer take no memory.
    pub fn keep(alloc: Global, bytes: Bytes) -> Result<Argument, NoMemory>
        ensures same { IfOk result (λ argument. argument_bytes argument ≡ bytes.items) }
        ensures short { IsShort bytes.items → IsOk result }
    {
        if bytes.as_slice().len() <= INLINE_BYTES {
            return Ok(Argument::short(bytes.as_slice()));
        }
        Ok(Argument::Shared(Arc::new(alloc, bytes)?))
    }

    /// The bytes.
    pub fn as_slice(&self) -> &[u8]
        ensures { result.now ≡ argument_bytes self.now }
    {
        match self {
            Argument::Inline(bytes) => bytes.as_slice(),
            Argument::Shared(bytes) => bytes.as_slice(),
        }
    }

    /// The same bytes for another holder. It takes no memory; of more than eight bytes it fails where they have as many
    /// holders as can be counted.
    pub fn share(&self) -> Result<Argument, NoMemory>
        ensures same { IfOk result (λ argument. argument_bytes argument ≡ argument_bytes self.now) }
        ensures short { IsShort (argument_bytes self.now) → IsOk result }
    {
        Ok(match self {
            Argument::Inline(bytes) => Argument::short(bytes.as_slice()),
            Argument::Shared(bytes) if bytes.as_slice().len() <= INLINE_BYTES => {
                Argument::short(bytes.as_slice())
            }
            Argument::Shared(bytes) => Argument::Shared(Arc::try_clone(bytes)?),
        })
    }
}
