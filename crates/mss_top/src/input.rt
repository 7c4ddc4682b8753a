//! The input, read to its end or to one byte past the longest job text.
ghost use Rattle.std.specs.Prelude.{◌≡◌, ◌≤◌, ◌+◌, ◌++◌, [], length, take, drop, IfOk, OnOk};
ghost use Rattle.mss_top.specs.Inputs.{HasInputCause};

use mss_base::{Bytes, NoMemory, Source};
use std::alloc::{AllocError, Global};

/// How many bytes one call asks for. The room for them is filled with zeros first, so a short job wants it small.
const PIECE: usize = 16_384;

/// Why the input wasn't read.
#[derive(Clone, Copy)]
pub enum InputFault {
    /// The source failed.
    Failed,
    Memory,
}

impl From<NoMemory> for InputFault {
    ghost use Rattle.std.specs.Prelude.{◌≡◌};
    ghost use Rattle.mss_top.specs.declared.input.InputFault.TheVariants.{Memory};

    ghost from_gives = { λ _ fault. fault ≡ Memory };

    fn from(_: NoMemory) -> Self {
        InputFault::Memory
    }
}

impl From<AllocError> for InputFault {
    ghost use Rattle.std.specs.Prelude.{◌≡◌};
    ghost use Rattle.mss_top.specs.declared.input.InputFault.TheVariants.{Memory};

    ghost from_gives = { λ _ fault. fault ≡ Memory };

    fn from(_: AllocError) -> Self {
        InputFault::Memory
    }
}

/// Takes one more piece of the input, of at most `room` bytes, and answers its length.
fn take_piece<I: Source>(
    input: &mut I,
    bytes: &mut Bytes,
    buffer: &mut [u8],
    room: usize,
) -> Result<usize, InputFault>
    requires { room ≤ length buffer.old }
    ensures moved { I.tells → OnOk result
        (bytes.old.items ++ I.left input.old ≡ bytes.new.items ++ I.left input.new) }
    ensures longer { IfOk result (λ n. length bytes.new.items ≡ length bytes.old.items + n) }
    ensures within { IfOk result (λ n. n ≤ room) }
    ensures end { I.tells → IfOk result (λ n. n ≡ 0 → 1 ≤ room → I.left input.new ≡ []) }
    ensures cause { HasInputCause (I.faults input.old) (I.faults input.new) result }
{
    let Ok(taken) = input.take(&mut buffer[..room]) else {
        return Err(InputFault::Failed);
    };
    bytes.append(&buffer[..taken])?;
    Ok(taken)
}

/// Reads the first `most` bytes that are left, or all of them where there are fewer.
pub fn read_input<I: Source>(alloc: Global, input: &mut I, most: usize) -> Result<Bytes, InputFault>
    ensures bytes { I.tells → IfOk result (λ bytes. bytes.items ≡ take most (I.left input.old)) }
    ensures left { I.tells → OnOk result (I.left input.new ≡ drop most (I.left input.old)) }
    ensures length { IfOk result (λ bytes. length bytes.items ≤ most) }
    ensures cause { HasInputCause (I.faults input.old) (I.faults input.new) result }
{
    let mut bytes = Bytes::new(alloc);
    let mut buffer = vec![in alloc; 0u8; PIECE]?;
    loop {
        let room = (most - bytes.as_slice().len()).min(PIECE);
        if room == 0 {
            return Ok(bytes);
        }
        let taken = match take_piece(input, &mut bytes, &mut buffer, room) {
            Ok(taken) => taken,
            Err(fault) => return Err(fault),
        };
        if taken == 0 {
            return Ok(bytes);
        }
    }
}
