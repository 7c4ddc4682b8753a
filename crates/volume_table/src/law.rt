//! Laws of rows and of their spelling. A function calls a law to have it in its proof.
ghost use Rattle.std.specs.Prelude.{◌≡◌, ◌<◌, ℕ, false, List, [], ◌∷◌, ◌++◌, length, slice_index, Some, Ok};
ghost use Rattle.mss_base.specs.Geometry.{row_body_bytes};
ghost use Rattle.volume_table.specs.Row.{RowValue, IsRow};
ghost use Rattle.volume_table.specs.Changes.{IsAllowed, IsInRange, effect};
ghost use Rattle.volume_table.specs.declared.changes.Change.{Change};
ghost use Rattle.volume_table.specs.Grammar.{spelling, decode, is_old};
ghost use Rattle.volume_table.specs.Slots.{change_of, slot_of, told_by};

/// A row is read back from its spelling.
pub fn row_back()
    ensures { (row : RowValue) → IsRow row → decode (spelling row) ≡ Ok row }
{}

/// What is read is a row.
pub fn read_is_row()
    ensures { (body : List ℕ) (row : RowValue) → length body ≡ row_body_bytes → decode body ≡ Ok row
        → IsRow row }
{}

/// A row has one spelling in version 2: two such bodies with the same row are equal.
pub fn one_spelling()
    ensures { (body : List ℕ) (row : RowValue) → length body ≡ row_body_bytes
        → ((i : ℕ) → slice_index body i < 256) → is_old body ≡ false
        → decode body ≡ Ok row → body ≡ spelling row }
{}

/// What an allowed change makes of a row is a row.
pub fn changed_row_is_row()
    ensures { (change : Change) (r : RowValue) → IsRow r → IsAllowed change r → IsInRange change
        → IsRow (effect change r) }
{}

/// A change that a row allows is read back from its slot.
pub fn slot_back()
    ensures { (change : Change) (r : RowValue) → IsAllowed change r → IsInRange change
        → change_of (slot_of change) ≡ Some change }
{}

/// What a body and its slots tell is a row.
pub fn told_is_row()
    ensures { (body : List ℕ) (slots : List (List ℕ)) (r : RowValue)
        → length body ≡ row_body_bytes → told_by body slots ≡ Ok r → IsRow r }
{}

/// One slot more, of a change that the row allows, is that change more.
pub fn told_one_more()
    ensures { (body : List ℕ) (slots : List (List ℕ)) (r : RowValue) (change : Change)
        → told_by body slots ≡ Ok r → IsAllowed change r → IsInRange change
        → told_by body (slots ++ slot_of change ∷ []) ≡ Ok (effect change r) }
{}
