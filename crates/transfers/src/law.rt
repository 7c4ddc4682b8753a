//! What copies leave of the shown volumes. A function calls a law to have it in its proof.
ghost use Rattle.std.specs.Prelude.{◌≡◌, ◌<◌, ℕ, Some};
ghost use Rattle.mss_base.specs.Content.{Content, SiteLog, Writes, content};
ghost use Rattle.volume_table.specs.Row.{RowValue, IsRow};
ghost use Rattle.volume_table.specs.Changes.{IsAllowed, effect};
ghost use Rattle.shown_volumes.specs.Shown.{block_at, rows_of, volumes_shown, SameTables};
ghost use Rattle.shown_volumes.specs.Sound.{IsSound, SoundAs};
ghost use Rattle.shown_volumes.specs.Changing.{IsOutside, IsReady, MayChange, IsQuiet, StillShows, IsFirmFor};
ghost use Rattle.transfers.specs.declared.transfer.Transfer.{Transfer};
ghost use Rattle.transfers.specs.Copies.{in_frame, in_cartridge, target, AddsAtMost, IsCopiedTo, AreFirm};
ghost use Rattle.transfers.specs.Dues.{change_of, IsDue};
ghost use Rattle.mss_base.specs.Geometry.{cylinder_heads};

use shown_volumes::law::{
    allowed_changes_show_the_same, changed_cylinders_leave_their_cartridge,
    unstaged_cylinders_leave_their_frame, writes_outside_change_nothing,
};

/// The blocks that a transfer copies to, where it is due, are outside what is shown.
pub fn copies_go_outside()
    ensures { (frames head : ℕ) (t : Transfer) (r : RowValue) (c : Content)
        → IsSound frames c → rows_of c t.volume ≡ Some r → IsDue t r → head < cylinder_heads
        → IsOutside c (target t head) }
{
    unstaged_cylinders_leave_their_frame();
    changed_cylinders_leave_their_cartridge();
}

/// A copy, done or failed, leaves the table.
pub fn copies_leave_the_table()
    ensures { (t : Transfer) (head : ℕ) (old new : SiteLog) → AddsAtMost (target t head) old new
        → SameTables (content old) (content new) }
{}

/// At each moment of a copy, done or failed, of a transfer that is due, the content is sound and shows the same.
pub fn copies_show_the_same()
    ensures { (frames : ℕ) (t : Transfer) (r : RowValue) (old new : SiteLog)
        → IsSound frames (content old) → rows_of (content old) t.volume ≡ Some r → IsDue t r
        → t.next < cylinder_heads → AddsAtMost (target t t.next) old new
        → Writes (SoundAs frames (volumes_shown (content old))) old new }
{
    copies_go_outside();
    writes_outside_change_nothing();
}

/// At each moment of such a copy on a quiet site, and behind it, what is loose lies outside what is shown, which is
/// the same.
pub fn copies_leave_a_site_quiet()
    ensures moments { (frames : ℕ) (t : Transfer) (r : RowValue) (old new : SiteLog)
        → IsSound frames (content old) → IsQuiet old → rows_of (content old) t.volume ≡ Some r
        → IsDue t r → t.next < cylinder_heads → AddsAtMost (target t t.next) old new
        → Writes (StillShows frames (volumes_shown (content old)) old) old new }
    ensures quiet { (frames : ℕ) (t : Transfer) (r : RowValue) (old new : SiteLog)
        → IsSound frames (content old) → IsQuiet old → rows_of (content old) t.volume ≡ Some r
        → IsDue t r → t.next < cylinder_heads → AddsAtMost (target t t.next) old new
        → IsQuiet new }
{
    copies_go_outside();
}

/// What is copied stays so while the blocks of the copied tracks stay.
pub fn copies_stay()
    ensures { (t : Transfer) (c d : Content)
        → ((head : ℕ) → head < t.next
        → block_at d (in_frame t head) ≡ block_at c (in_frame t head))
        → ((head : ℕ) → head < t.next
        → block_at d (in_cartridge t head) ≡ block_at c (in_cartridge t head))
        → IsCopiedTo t c → IsCopiedTo t d }
{}

/// Once all tracks are copied of a transfer that is due, the row's change is allowed, and the blocks are ready for it.
/// They are firm for it, once the copies are.
pub fn copied_cylinders_are_ready()
    ensures allowed { (t : Transfer) (r : RowValue) → IsDue t r → IsAllowed (change_of t) r }
    ensures ready { (frames : ℕ) (t : Transfer) (r : RowValue) (c : Content)
        → IsDue t r → t.next ≡ cylinder_heads → IsCopiedTo t c → IsReady frames (change_of t) r c }
    ensures firm { (t : Transfer) (r : RowValue) (s : SiteLog)
        → IsDue t r → AreFirm t s → IsFirmFor (change_of t) r s }
{}

/// With the row that says so, once all tracks are copied, the content shows the same and is sound.
pub fn copied_cylinders_show_the_same()
    ensures { (frames : ℕ) (t : Transfer) (r : RowValue) (c : Content)
        → IsSound frames c → rows_of c t.volume ≡ Some r → IsRow r
        → IsDue t r → t.next ≡ cylinder_heads → IsCopiedTo t c
        → MayChange frames t.volume (effect (change_of t) r) c }
{
    copied_cylinders_are_ready();
    allowed_changes_show_the_same();
}
