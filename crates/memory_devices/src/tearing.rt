// What a stop makes of what may be lost.
ghost use Rattle.std.specs.Prelude.{◌≡◌};
ghost use Rattle.memory_devices.specs.Redone.{loose_under};

use mss_base::Bytes;

/// What a stop puts at the places that it leaves open.
#[derive(Drop)]
pub enum Tear {
    /// These bytes, cut or padded with zeros, in the range of the next item, where that is a write.
    Write(Bytes),
    /// This byte at every open place.
    Fill(u8),
    /// What the start and the firm writes left there.
    Lost,
}

/// What becomes of loose writes where items are done again.
#[derive(Clone, Copy)]
pub enum Loose {
    /// They are done as the firm ones are.
    Kept,
    /// This byte fills their ranges.
    Filled(u8),
    /// They are left out.
    LeftOut,
}

/// What a tear makes of loose writes.
pub fn loose_under(tear: &Tear) -> Loose
    ensures { result ≡ loose_under tear.now }
{
    match tear {
        Tear::Write(_) => Loose::Kept,
        Tear::Fill(byte) => Loose::Filled(*byte),
        Tear::Lost => Loose::LeftOut,
    }
}
