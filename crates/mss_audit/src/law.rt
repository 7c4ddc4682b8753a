//! Laws of findings. A function calls a law to have it in its proof.
ghost use Rattle.std.specs.Prelude.{◌≡◌, ℕ, List, Option, Result};
ghost use Rattle.mss_base.specs.Content.{Content};
ghost use Rattle.shown_volumes.specs.Faults.{first_fault};
ghost use Rattle.shown_volumes.specs.declared.refused.Refused.{Refused};
ghost use Rattle.volume_table.specs.Row.{RowValue};
ghost use Rattle.mss_restart.specs.Survey.{IsExact};
ghost use Rattle.mss_audit.specs.Auditing.{TellsFirst};
ghost use Rattle.mss_audit.specs.Findings.{findings, first_refusal};

/// The first finding that is a refusal is the first fault, for which a restart refuses the site.
pub fn the_first_refusal_is_the_first_fault()
    ensures { (frames : ℕ) (asked : ℕ → Option (List ℕ)) (c : Content)
        → first_refusal (findings frames asked c) ≡ first_fault frames asked c }
{}

/// So a survey without a failed read answers rows only where no finding is a refusal, and else the first one.
pub fn surveys_tell_the_first_refusal()
    ensures { (frames : ℕ) (asked : ℕ → Option (List ℕ)) (c : Content)
        (answer : Result (List (Option RowValue)) Refused) → IsExact frames asked c answer
        → TellsFirst (findings frames asked c) answer }
{}
