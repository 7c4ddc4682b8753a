//! A law of refusals. A function calls a law to have it in its proof.
ghost use Rattle.std.specs.Prelude.{◌≡◌, ◌++◌, codes};
ghost use Rattle.shown_volumes.specs.declared.refused.Refused.{Refused};
ghost use Rattle.shown_volumes.specs.declared.refused.Refused.TheVariants.{Memory};
ghost use Rattle.report_text.specs.Refusals.{refusal_text, refused_text};

/// But for want of memory, the line of a refusal says behind its first words what the refusal says.
pub fn refusals_begin_alike()
    ensures { (refused : Refused) → (refused ≡ Memory → ⊥)
        → refusal_text refused ≡ codes "restart refused " ++ refused_text refused }
{}
