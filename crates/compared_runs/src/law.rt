//! What sessions of one host have in common.
ghost use Rattle.std.specs.Prelude.{◌≡◌, List};
ghost use Rattle.core_state.specs.SessionData.{SessionData};
ghost use Rattle.core_state.specs.declared.session.Session.{Session};
ghost use Rattle.job_text.specs.Jobs.{JobData};
ghost use Rattle.serial_driver.specs.declared.answer.DriveAnswer.{DriveAnswer};
ghost use Rattle.serial_driver.specs.declared.answer.DriveAnswer.TheVariants.{Done};
ghost use Rattle.victim_rules.specs.Closures.{NarrowMay};
ghost use Rattle.compared_runs.specs.Alone.{IsAlone};
ghost use Rattle.compared_runs.specs.Comparing.{Compares, every_name};
ghost use Rattle.compared_runs.specs.Same.{AreAlike, IsOfOneHost, exchanges_of_all};

use victim_choice::{Candidate, Choose};

/// One host that binds no volume can't tell which frames are taken: by any two choosers it makes the same calls, and is
/// told the same.
pub fn one_host_sees_no_replacement<C: Choose, D: Choose>()
    ensures { (job : JobData) (c : C) (d : D) (s t : SessionData) → IsOfOneHost job
        → IsAlone (Unit {0}) (C.may c) job Done s → IsAlone (Unit {0}) (D.may d) job Done t
        → exchanges_of_all s.history ≡ exchanges_of_all t.history }
{}

/// So all sessions of a comparison over such a job have the same calls and replies. The limit of entries comes in its
/// first session or in none.
pub fn comparisons_of_one_host_are_alike<F: Fn(&Candidate) -> bool>()
    ensures { (job : JobData) (other : F) (sessions : List Session) (end : DriveAnswer)
        → IsOfOneHost job
        → Compares (Unit {0}) (NarrowMay F.Fn other) job every_name sessions end
        → AreAlike sessions }
{}
