// Rows of version 1 written anew.
ghost use Rattle.std.specs.Prelude.{◌≡◌, ℕ, [], Err, OnOk, length};
ghost use Rattle.mss_base.specs.Content.{content, Writes};
ghost use Rattle.table_pair.specs.Pair.{ChangesRow};
ghost use Rattle.table_pair.specs.Repairs.{KeepsRow, LeavesSite};
ghost use Rattle.shown_volumes.specs.declared.refused.Refused.TheVariants.{Memory};
ghost use Rattle.shown_volumes.specs.Shown.{volumes_shown};
ghost use Rattle.shown_volumes.specs.Sound.{IsSound, SoundAs};
ghost use Rattle.mss_restart.specs.Opening.{AreKnown};
ghost use Rattle.mss_restart.specs.Creations.{
  IsMigration,
  MigratesWhole,
  RepairsOthers,
  StepsOn,
};

use mss_base::{Site, VolumeNo, volume_at};
use shown_volumes::Refused;
use table_pair::{CHANGE_ITEMS, SlotsUsedList, migrate};
use volume_table::Rows;

/// Writes the copies of a volume's row anew that are of version 1, if it has a row, which is of version 2 then.
fn migrate_row<S: Site>(
    site: &mut S,
    rows: &Rows,
    used: &mut SlotsUsedList,
    volume: VolumeNo,
) -> Result<(), Refused>
    requires known { S.tells → AreKnown rows.now used.old.items (content (S.told site.old)) }
    requires places { length used.old.items ≡ 32 }
    ensures moments { S.tells → Writes
        (ChangesRow volume (KeepsRow volume (content (S.told site.old)))
        (content (S.told site.old)))
        (S.told site.old) (S.told site.new) }
    ensures others { S.tells → RepairsOthers [] (S.told site.old) (S.told site.new) }
    ensures done { S.tells → OnOk result (IsMigration volume (S.told site.old) (S.told site.new)) }
    ensures known { S.tells → OnOk result
        (AreKnown rows.now used.new.items (content (S.told site.new))) }
    ensures places { length used.new.items ≡ 32 }
    ensures memory { result ≡ Err Memory → LeavesSite S.Site site.old site.new }
    ensures site_ { StepsOn S.Site site.old site.new result }
{
    let at = usize::from(volume.get());
    let Some(row) = rows.row(volume) else {
        return Ok(());
    };
    site.reserve(CHANGE_ITEMS)?;
    let Ok(slots) = migrate(site, volume, row, used.as_slice()[at]) else {
        return Err(Refused::Stopped {
            fault: site.faults(),
        });
    };
    used.set(at, slots);
    Ok(())
}

/// Writes the copies of each row anew that are of version 1, in order of volume, and counts their slots in use. The
/// rows stay, and a sound content shows the same at each moment; so do the made marks, and copies of version 2. Where
/// all went well each row is of version 2. After want of memory each migration that was begun was written to its end.
pub fn migrate_rows<S: Site>(
    site: &mut S,
    rows: &Rows,
    used: &mut SlotsUsedList,
) -> Result<(), Refused>
    requires known { S.tells → AreKnown rows.now used.old.items (content (S.told site.old)) }
    requires places { length used.old.items ≡ 32 }
    ensures moments { S.tells → (frames : ℕ) → IsSound frames (content (S.told site.old))
        → Writes (SoundAs frames (volumes_shown (content (S.told site.old))))
        (S.told site.old) (S.told site.new) }
    ensures known { S.tells → OnOk result
        (AreKnown rows.now used.new.items (content (S.told site.new))) }
    ensures places { length used.new.items ≡ 32 }
    ensures complete { S.tells → MigratesWhole (S.told site.old) (S.told site.new) result }
    ensures others { S.tells → RepairsOthers [] (S.told site.old) (S.told site.new) }
    ensures site_ { StepsOn S.Site site.old site.new result }
{
    for number in 0..32 {
        migrate_row(site, rows, used, volume_at(number))?;
    }
    Ok(())
}
