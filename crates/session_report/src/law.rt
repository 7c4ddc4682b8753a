//! A law of reports. A function calls a law to have it in its proof.
ghost use Rattle.std.specs.Prelude.{◌≡◌, List, Option};
ghost use Rattle.mss_base.specs.Content.{Content};
ghost use Rattle.volume_table.specs.Row.{RowValue};
ghost use Rattle.volume_table.specs.Listed.{row_in_list};
ghost use Rattle.shown_volumes.specs.Shown.{rows_of, volumes_shown, shown_by};

/// What the rows of a content show over it are the volumes that the content shows.
pub fn rows_of_a_content_show_its_volumes()
    ensures { (rows : List (Option RowValue)) (c : Content) → row_in_list rows ≡ rows_of c
        → shown_by (row_in_list rows) c ≡ volumes_shown c }
{}
