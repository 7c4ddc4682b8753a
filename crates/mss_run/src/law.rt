//! Laws of own places. A function calls a law to have it in its proof.
ghost use Rattle.std.specs.Prelude.{◌≡◌, ℕ, List, length, map, slice_get, Some};
ghost use Rattle.ckd_plain.specs.History.{EntryData};
ghost use Rattle.mss_run.specs.Owns.{heard_by, places_of, Rise};

/// A host's own places rise, and each is one of the history.
pub fn own_places_rise()
    ensures { (h : ℕ) (log : List EntryData) → Rise 0 (length log) (places_of h log) }
{}

/// The entries at a host's own places are all that it was told of, in order.
pub fn own_places_are_all_that_was_told()
    ensures { (h : ℕ) (log : List EntryData)
        → map (slice_get log) (places_of h log) ≡ map Some (heard_by h log) }
{}
