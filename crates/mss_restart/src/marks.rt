// Volumes get the marks that a configuration asks for.
ghost use Rattle.std.specs.Prelude.{◌≡◌, ◌≢◌, ◌≤◌, Err, OnOk, IfOk, IsSome, [], length, map};
ghost use Rattle.std.specs.Ordering.{nat_cmp};
ghost use Rattle.std.specs.List.{AllByRecursion};
ghost use Rattle.std.specs.List.Sorted.{IsStrictlySortedBy};
ghost use Rattle.mss_base.specs.Content.{content};
ghost use Rattle.table_pair.specs.Repairs.{LeavesSite};
ghost use Rattle.table_pair.specs.Slots.{with_used_after};
ghost use Rattle.shown_volumes.specs.declared.refused.Refused.TheVariants.{Memory};
ghost use Rattle.volume_table.specs.Listed.{HasRow, row_in_list};
ghost use Rattle.mss_restart.specs.Opening.{AreKnown, AreRowsNew, is_marked_as, marked, to_mark};
ghost use Rattle.mss_restart.specs.Creations.{
  AreTold,
  ChangesWhole,
  DoesChange,
  MakesRow,
  OpensVolumes,
  StepsOn,
};

use crate::steps::{OpeningStep, OpeningSteps};
use mss_base::{Serial, Site, VolumeNo};
use shown_volumes::Refused;
use table_pair::{CHANGE_ITEMS, SlotsUsedList, change_row};
use volume_table::{Change, Rows};

/// Makes a volume read-only, or no longer so, which has the other mark.
fn mark_volume<S: Site>(
    site: &mut S,
    rows: &mut Rows,
    used: &mut SlotsUsedList,
    volume: VolumeNo,
    on: bool,
) -> Result<OpeningStep, Refused>
    requires there { HasRow rows.old volume (λ r. r.read_only ≢ on) }
    requires known { S.tells → AreKnown rows.old used.old.items (content (S.told site.old)) }
    requires places { length used.old.items ≡ 32 }
    ensures does { S.tells → DoesChange (marked volume on) rows.old rows.new
        (S.told site.old) (S.told site.new) result }
    ensures row { IfOk result (λ step. MakesRow (marked volume on) step
        (row_in_list rows.old) (row_in_list rows.new) (S.writes site.new)) }
    ensures used { OnOk result (used.new.items ≡ with_used_after volume used.old.items) }
    ensures places { length used.new.items ≡ 32 }
    ensures memory { result ≡ Err Memory → LeavesSite S.Site site.old site.new }
    ensures site_ { StepsOn S.Site site.old site.new result }
{
    let at = usize::from(volume.get());
    let change = Change::Protect { on };
    rows.look();
    site.reserve(CHANGE_ITEMS)?;
    rows.change(volume, &change);
    let Some(row) = rows.row(volume) else {
        unreachable!()
    };
    let Ok(slots) = change_row(site, volume, row, &change, used.as_slice()[at]) else {
        return Err(Refused::Stopped {
            fault: site.faults(),
        });
    };
    used.set(at, slots);
    Ok(OpeningStep {
        volume,
        change,
        writes: site.writes(),
    })
}

/// Whether a volume has the mark that is asked for. One without a row isn't read-only.
fn is_marked_as(rows: &Rows, volume: VolumeNo, asked: bool) -> bool
    ensures { result ≡ is_marked_as asked (row_in_list rows.now volume) }
{
    match rows.row(volume) {
        Some(row) => row.read_only == asked,
        None => !asked,
    }
}

/// Gives each volume of a list the mark that is asked for it, in order, where it has the other one, and says what it
/// changed. A sound content stays sound at each moment, and shows its volumes with a front of the new marks. After
/// want of memory no change stands half done.
pub fn mark_volumes<S: Site>(
    site: &mut S,
    rows: &mut Rows,
    used: &mut SlotsUsedList,
    marks: &mut OpeningSteps,
    volumes: &[(VolumeNo, Serial, bool)],
) -> Result<(), Refused>
    requires none { marks.old.items ≡ [] }
    requires room { length volumes.now ≤ marks.old.spare }
    requires rising { IsStrictlySortedBy nat_cmp (map (λ v. v.0) volumes.now) }
    requires there { AllByRecursion (λ v. IsSome (row_in_list rows.old v.0)) volumes.now }
    requires known { S.tells → AreKnown rows.old used.old.items (content (S.told site.old)) }
    requires renewed { S.tells → AreRowsNew (content (S.told site.old)) }
    requires places { length used.old.items ≡ 32 }
    ensures told { S.tells → OpensVolumes ChangesWhole
        (record {
          changes = to_mark (row_in_list rows.old) volumes.now;
          before = rows.old;
          rows = rows.new;
          used = used.new.items;
          steps = marks.new.items;
        })
        (S.told site.old) (S.told site.new) result }
    ensures places { length used.new.items ≡ 32 }
    ensures rows { OnOk result (AreTold (to_mark (row_in_list rows.old) volumes.now) marks.new.items
        (row_in_list rows.old) (row_in_list rows.new) (S.writes site.old) (S.writes site.new)) }
    ensures site_ { StepsOn S.Site site.old site.new result }
{
    for entry in volumes {
        if !is_marked_as(rows, entry.0, entry.2) {
            marks.push(mark_volume(site, rows, used, entry.0, entry.2)?);
        }
    }
    Ok(())
}
