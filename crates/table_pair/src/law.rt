//! Laws of two copies. A function calls a law to have it in its proof.
ghost use Rattle.std.specs.Prelude.{◌≡◌, ◌≢◌, ℕ, true, false, ◌&&◌, ◌==◌, Some, None};
ghost use Rattle.mss_base.specs.Content.{Content};
ghost use Rattle.mss_base.specs.declared.place.UnitNo.{UnitNo};
ghost use Rattle.volume_table.specs.Row.{RowValue};
ghost use Rattle.table_pair.specs.Copies.{CopyView};
ghost use Rattle.table_pair.specs.Pair.{unread, read_of, reading, known, row_of, IsOpenWith, HoldsRow, AreClosed, is_table};

/// The row that both copies hold is the volume's row.
pub fn held_row_is_told()
    ensures { (row : RowValue) (volume : ℕ) (c : Content) → HoldsRow row volume c
        → row_of c volume ≡ known (Some row) false }
{}

/// Where both copies are closed, the volume has no row.
pub fn closed_copies_tell_none()
    ensures { (volume : ℕ) (c : Content) → AreClosed volume c → row_of c volume ≡ known None false }
{}

/// Where both copies are open with a row, or closed and never made, each of them tells the same alone.
pub fn one_copy_suffices()
    ensures open_a { (row : RowValue) (a : CopyView) → IsOpenWith row a
        → reading (read_of a) unread ≡ known (Some row) false }
    ensures open_b { (row : RowValue) (b : CopyView) → IsOpenWith row b
        → reading unread (read_of b) ≡ known (Some row) true }
    ensures closed_a { (a : CopyView) → a.is_open ≡ false → a.is_made ≡ false
        → reading (read_of a) unread ≡ known None true }
    ensures closed_b { (b : CopyView) → b.is_open ≡ false → b.is_made ≡ false
        → reading unread (read_of b) ≡ known None true }
{}

/// A change of a volume's row, which leaves the other blocks, leaves the rows of the other volumes.
pub fn other_rows_stay()
    ensures { (volume other : ℕ) (old new : Content)
        → ((unit : UnitNo) (block : ℕ) → (is_table unit && (volume == block)) ≡ false
        → new unit block ≡ old unit block)
        → other ≢ volume → row_of new other ≡ row_of old other }
{}
