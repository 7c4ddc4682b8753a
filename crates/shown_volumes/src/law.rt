//! Laws of shown volumes, of sound content and of its first fault. A function calls a law to have it in its proof.
ghost use Rattle.std.specs.Prelude.{◌≡◌, ◌↔◌, ◌≤◌, ◌<◌, ◌/◌, ℕ, Bool, false, List, length, Option, Some, None};
ghost use Rattle.mss_base.specs.Content.{
  Content,
  SiteLog,
  Write,
  Writes,
  Settles,
  Tear,
  content,
  image,
  with_write,
  ChangesBlock,
};
ghost use Rattle.mss_base.specs.Places.{frame_block};
ghost use Rattle.ckd_plain.specs.Plain.{with_track};
ghost use Rattle.ckd_track.specs.Track.{reading, reading_of};
ghost use Rattle.volume_table.specs.Row.{RowValue, IsRow, frame_of, state_of, blank_row};
ghost use Rattle.volume_table.specs.Changes.{IsAllowed, effect, with_mark};
ghost use Rattle.volume_table.specs.declared.changes.Change.{Change};
ghost use Rattle.table_pair.specs.Pair.{known, row_of, HoldsRow, ChangesRow, OldOrNew, NoneOrNew};
ghost use Rattle.table_pair.specs.Repairs.{KeepsRow};
ghost use Rattle.shown_volumes.specs.Shown.{rows_of, SameTables, volumes_shown, block_at, on_cartridge};
ghost use Rattle.shown_volumes.specs.Sound.{IsSound, SoundAs, HasSerialsAsked};
ghost use Rattle.shown_volumes.specs.Faults.{first_fault};
ghost use Rattle.mss_base.specs.Geometry.{volume_cylinders, cylinder_heads};
ghost use Rattle.shown_volumes.specs.Changing.{
  IsOutside,
  IsReady,
  IsFresh,
  MayChange,
  MarkedOrNot,
  WithOrWithout,
  with_blank,
  with_marked,
  IsQuiet,
  StillShows,
  MayWriteRow,
  IsFirmFor,
};

/// A content has a first fault exactly where it isn't sound, or a row has another serial than is asked.
pub fn first_fault_is_of_unsound_content()
    ensures { (frames : ℕ) (asked : ℕ → Option (List ℕ)) (c : Content)
        → (first_fault frames asked c ≡ None)
        ↔ (IsSound frames c × HasSerialsAsked asked (rows_of c)) }
{}

/// Where the blocks of the table are the same, so are the rows, and a row that both copies hold is held.
pub fn same_tables_hold_the_same_rows()
    ensures rows { (c d : Content) → SameTables c d → rows_of d ≡ rows_of c }
    ensures held { (r : RowValue) (volume : ℕ) (c d : Content) → SameTables c d
        → HoldsRow r volume c → HoldsRow r volume d }
{}

/// A write into a block outside leaves the content sound, and shows the same.
pub fn writes_outside_change_nothing()
    ensures { (frames : ℕ) (c : Content) (w : Write)
        → IsOutside c (record { unit = w.unit; block = w.block }) → IsSound frames c
        → SoundAs frames (volumes_shown c) (with_write c w) }
{}

/// The cartridge's blocks of a changed cylinder are outside what is shown.
pub fn changed_cylinders_leave_their_cartridge()
    ensures { (frames volume cylinder head : ℕ) (r : RowValue) (c : Content) → IsSound frames c
        → rows_of c volume ≡ Some r
        → state_of r cylinder ≡ 4 → cylinder < volume_cylinders → head < cylinder_heads
        → IsOutside c (on_cartridge r cylinder head) }
{}

/// The frame's blocks of a cylinder that isn't staged are outside what is shown.
pub fn unstaged_cylinders_leave_their_frame()
    ensures { (frames volume cylinder head frame : ℕ) (r : RowValue) (c : Content)
        → IsSound frames c → rows_of c volume ≡ Some r
        → frame_of r (cylinder / 8) ≡ Some frame → state_of r cylinder < 2
        → cylinder < volume_cylinders → head < cylinder_heads
        → IsOutside c (frame_block frame cylinder head) }
{}

/// The frame's blocks of a staged cylinder read as the tracks that are shown.
pub fn staged_cylinders_stand_in_their_frame()
    ensures { (frames volume cylinder head frame : ℕ) (r : RowValue) (c : Content)
        → IsSound frames c → rows_of c volume ≡ Some r
        → frame_of r (cylinder / 8) ≡ Some frame → 2 ≤ state_of r cylinder
        → state_of r cylinder ≤ 4 → cylinder < volume_cylinders → head < cylinder_heads
        → reading (block_at c (frame_block frame cylinder head))
        ≡ reading_of ((volumes_shown c).track volume cylinder head) }
{}

/// Where the frame's block of a changed cylinder becomes another track, this track is shown there, and else the same.
pub fn tracks_written_into_a_frame_are_shown()
    ensures { (frames volume cylinder head frame : ℕ) (r : RowValue) (c d : Content)
        → IsSound frames c → rows_of c volume ≡ Some r
        → frame_of r (cylinder / 8) ≡ Some frame → state_of r cylinder ≡ 4
        → cylinder < volume_cylinders → head < cylinder_heads
        → let place = frame_block frame cylinder head in
        ChangesBlock place.unit place.block (λ block. (reading block).bad ≡ None) c d
        → SoundAs frames (with_track (volumes_shown c) volume cylinder head
        (reading (block_at d place)).records) d }
{}

/// With the row that an allowed change makes, where the blocks are ready for it, the content shows the same and is
/// sound.
pub fn allowed_changes_show_the_same()
    ensures { (frames volume : ℕ) (change : Change) (r : RowValue) (c : Content)
        → IsSound frames c → rows_of c volume ≡ Some r
        → IsRow r → IsAllowed change r → IsReady frames change r c
        → MayChange frames volume (effect change r) c }
{}

/// At each moment of a change of a row that may change so, the content is sound and shows the same.
pub fn changes_of_rows_show_the_same()
    ensures { (frames volume : ℕ) (row : RowValue) (s t : SiteLog)
        → MayChange frames volume row (content s)
        → Writes (ChangesRow volume (OldOrNew volume row (content s)) (content s)) s t
        → Writes (SoundAs frames (volumes_shown (content s))) s t }
{}

/// At each moment of a repair the content is sound and shows the same.
pub fn repairs_show_the_same()
    ensures { (frames volume : ℕ) (s t : SiteLog) → IsSound frames (content s)
        → Writes (ChangesRow volume (KeepsRow volume (content s)) (content s)) s t
        → Writes (SoundAs frames (volumes_shown (content s))) s t }
{}

/// At each moment of a creation the content is sound and shows the same volumes, or those and the new one, which is
/// blank; once the row is told, it shows them with the new one.
pub fn creations_show_a_blank_volume()
    ensures moments { (frames volume first second : ℕ) (serial : List ℕ) (s t : SiteLog)
        → IsSound frames (content s) → IsFresh volume first second (content s)
        → Writes (ChangesRow volume (NoneOrNew volume (blank_row serial first second))
        (content s)) s t
        → Writes (λ d. IsSound frames d
        × WithOrWithout volume serial (volumes_shown (content s)) (volumes_shown d)) s t }
    ensures created { (frames volume first second : ℕ) (serial : List ℕ) (c d : Content)
        → IsSound frames c → IsFresh volume first second c
        → ChangesRow volume (NoneOrNew volume (blank_row serial first second)) c d
        → row_of d volume ≡ known (Some (blank_row serial first second)) false
        → SoundAs frames (with_blank volume serial (volumes_shown c)) d }
{}

/// At each moment of a change of a volume's mark the content is sound, and shows the same volumes, or those with the
/// mark; once the row is told, it shows them with the mark.
pub fn marks_are_shown()
    ensures moments { (frames volume : ℕ) (on : Bool) (r : RowValue) (s t : SiteLog)
        → IsSound frames (content s) → rows_of (content s) volume ≡ Some r
        → Writes (ChangesRow volume (OldOrNew volume (with_mark on r) (content s)) (content s)) s t
        → Writes (λ d. IsSound frames d
        × MarkedOrNot volume on (volumes_shown (content s)) (volumes_shown d)) s t }
    ensures marked { (frames volume : ℕ) (on : Bool) (r : RowValue) (c d : Content)
        → IsSound frames c → rows_of c volume ≡ Some r
        → ChangesRow volume (OldOrNew volume (with_mark on r) c) c d
        → row_of d volume ≡ known (Some (with_mark on r)) false
        → SoundAs frames (with_marked volume on (volumes_shown c)) d }
{}

/// Whatever a stop makes of the loose writes of a quiet site, it shows the same.
pub fn quiet_sites_rest()
    ensures { (frames : ℕ) (s : SiteLog) (tear : Tear) → IsSound frames (content s) → IsQuiet s
        → SoundAs frames (volumes_shown (content s)) (image s (length s.log) tear) }
{}

/// With the row that an allowed change makes, a quiet site stands on nothing loose, where what it names anew is firm.
pub fn allowed_changes_may_be_written()
    ensures { (frames volume : ℕ) (change : Change) (r : RowValue) (s : SiteLog)
        → IsSound frames (content s) → IsQuiet s → rows_of (content s) volume ≡ Some r
        → IsRow r → IsAllowed change r → IsReady frames change r (content s)
        → IsFirmFor change r s → MayWriteRow frames volume (effect change r) s }
{}

/// At each moment of the change of a row that may be written so, what is shown is the same and stands on nothing
/// loose; and so behind it, where it is firm.
pub fn written_rows_leave_a_site_quiet()
    ensures moments { (frames volume : ℕ) (row : RowValue) (s t : SiteLog)
        → MayWriteRow frames volume row s
        → Writes (ChangesRow volume (OldOrNew volume row (content s)) (content s)) s t
        → Writes (StillShows frames (volumes_shown (content s)) s) s t }
    ensures quiet { (frames volume : ℕ) (row : RowValue) (s t : SiteLog)
        → MayWriteRow frames volume row s
        → Writes (ChangesRow volume (OldOrNew volume row (content s)) (content s)) s t
        → Settles s t → IsQuiet t }
{}
