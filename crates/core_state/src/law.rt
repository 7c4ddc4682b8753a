//! Laws on which entries count as answered. A function calls a law to have it in its proof.
ghost use Rattle.std.specs.Prelude.{◌≡◌, ◌≤◌, ◌<◌, ℕ, ◌+◌, List, [], ◌∷◌, ◌++◌, length};
ghost use Rattle.ckd_plain.specs.History.{EntryData, IsStopped};
ghost use Rattle.core_state.specs.StopRule.{answered_count};

/// The entry of a stop is never answered.
pub fn stops_are_not_answered()
    ensures { (k : ℕ) (history : List EntryData) (marks : List ℕ) (e : EntryData) (mark : ℕ)
        → length marks ≡ length history → IsStopped e.reply
        → answered_count k (history ++ e ∷ []) (marks ++ mark ∷ [])
        ≡ answered_count k history marks }
{}

/// Any other entry is answered from its mark on.
pub fn entries_are_answered_from_their_marks()
    ensures since { (k : ℕ) (history : List EntryData) (marks : List ℕ) (e : EntryData) (mark : ℕ)
        → length marks ≡ length history → (IsStopped e.reply → ⊥) → mark ≤ k
        → answered_count k (history ++ e ∷ []) (marks ++ mark ∷ [])
        ≡ answered_count k history marks + 1 }
    ensures before { (k : ℕ) (history : List EntryData) (marks : List ℕ) (e : EntryData) (mark : ℕ)
        → length marks ≡ length history → k < mark
        → answered_count k (history ++ e ∷ []) (marks ++ mark ∷ [])
        ≡ answered_count k history marks }
{}
