// Volumes that have no row get one.
ghost use Rattle.std.specs.Prelude.{◌≡◌, ◌≤◌, None, Err, OnOk, IfOk, [], length, map};
ghost use Rattle.std.specs.Ordering.{nat_cmp};
ghost use Rattle.std.specs.List.Sorted.{IsStrictlySortedBy};
ghost use Rattle.mss_base.specs.Content.{content};
ghost use Rattle.table_pair.specs.Repairs.{LeavesSite};
ghost use Rattle.table_pair.specs.Slots.{with_none_used};
ghost use Rattle.shown_volumes.specs.declared.refused.Refused.TheVariants.{Memory};
ghost use Rattle.volume_table.specs.Listed.{row_in_list};
ghost use Rattle.mss_restart.specs.Opening.{AreKnown, AreRowsNew, RowsAre, made, to_make};
ghost use Rattle.mss_restart.specs.Creations.{
  AreTold,
  ChangesWhole,
  DoesChange,
  MakesRow,
  OpensVolumes,
  StepsOn,
};

use crate::cartridges::lowest_free;
use crate::steps::{OpeningStep, OpeningSteps};
use mss_base::{Serial, Site, VolumeNo};
use shown_volumes::Refused;
use std::alloc::Global;
use table_pair::{CHANGE_ITEMS, SlotsUsed, SlotsUsedList, create_row};
use volume_table::{Change, Rows, VolumeRow};

/// Creates a volume, blank, on the two lowest cartridges that no row names.
fn create_volume<S: Site>(
    alloc: Global,
    site: &mut S,
    rows: &mut Rows,
    volume: VolumeNo,
    serial: Serial,
) -> Result<OpeningStep, Refused>
    requires none { row_in_list rows.old volume ≡ None }
    requires told { S.tells → RowsAre rows.old (content (S.told site.old)) }
    ensures does { S.tells → DoesChange (made volume serial) rows.old rows.new
        (S.told site.old) (S.told site.new) result }
    ensures row { IfOk result (λ step. MakesRow (made volume serial) step
        (row_in_list rows.old) (row_in_list rows.new) (S.writes site.new)) }
    ensures memory { result ≡ Err Memory → LeavesSite S.Site site.old site.new }
    ensures site_ { StepsOn S.Site site.old site.new result }
{
    rows.look();
    let first = lowest_free(rows, None);
    let second = lowest_free(rows, Some(first));
    let row = VolumeRow::blank(alloc, serial, first, second)?;
    site.reserve(CHANGE_ITEMS)?;
    if create_row(site, volume, &row).is_err() {
        return Err(Refused::Stopped {
            fault: site.faults(),
        });
    }
    rows.put(volume, Some(row));
    Ok(OpeningStep {
        volume,
        change: Change::Create {
            serial,
            first,
            second,
        },
        writes: site.writes(),
    })
}

/// Puts that the copies of a new row have no slots in use.
fn put_none(used: &mut SlotsUsedList, volume: VolumeNo)
    requires { length used.old.items ≡ 32 }
    ensures { used.new.items ≡ with_none_used volume used.old.items }
{
    used.set(usize::from(volume.get()), SlotsUsed::none());
}

/// Creates each volume of a list that has no row, in order, and says what it created. The copies of a new row have no
/// slots in use, and no new volume is read-only. A sound content stays sound at each moment, and shows its volumes
/// with a front of the new ones. After want of memory no creation stands half done.
pub fn create_volumes<S: Site>(
    alloc: Global,
    site: &mut S,
    rows: &mut Rows,
    used: &mut SlotsUsedList,
    creations: &mut OpeningSteps,
    volumes: &[(VolumeNo, Serial, bool)],
) -> Result<(), Refused>
    requires none { creations.old.items ≡ [] }
    requires room { length volumes.now ≤ creations.old.spare }
    requires rising { IsStrictlySortedBy nat_cmp (map (λ v. v.0) volumes.now) }
    requires known { S.tells → AreKnown rows.old used.old.items (content (S.told site.old)) }
    requires renewed { S.tells → AreRowsNew (content (S.told site.old)) }
    requires places { length used.old.items ≡ 32 }
    ensures told { S.tells → OpensVolumes ChangesWhole
        (record {
          changes = to_make (row_in_list rows.old) volumes.now;
          before = rows.old;
          rows = rows.new;
          used = used.new.items;
          steps = creations.new.items;
        })
        (S.told site.old) (S.told site.new) result }
    ensures places { length used.new.items ≡ 32 }
    ensures rows { OnOk result
        (AreTold (to_make (row_in_list rows.old) volumes.now) creations.new.items
        (row_in_list rows.old) (row_in_list rows.new) (S.writes site.old) (S.writes site.new)) }
    ensures site_ { StepsOn S.Site site.old site.new result }
{
    for entry in volumes {
        let missing = rows.row(entry.0).is_none();
        if missing {
            creations.push(create_volume(alloc, site, rows, entry.0, entry.1)?);
            put_none(used, entry.0);
        }
    }
    Ok(())
}
