// Why a command gave no effect.
ghost use Rattle.std.specs.Prelude.{◌≡◌};
ghost use Rattle.plain_machine.specs.declared.trouble.Trouble.TheVariants.{Refused, Memory};

use ckd_plain::Refusal;
use mss_base::NoMemory;

/// Why a command gave no effect: it ended with unit check, or memory was refused.
#[derive(Clone, Copy)]
pub enum Trouble {
    Refused(Refusal),
    Memory,
}

impl From<Refusal> for Trouble {
    ghost from_gives = { λ refusal trouble. trouble ≡ Refused refusal };

    fn from(refusal: Refusal) -> Trouble {
        Trouble::Refused(refusal)
    }
}

impl From<NoMemory> for Trouble {
    ghost from_gives = { λ _ trouble. trouble ≡ Memory };

    fn from(_refused: NoMemory) -> Trouble {
        Trouble::Memory
    }
}
