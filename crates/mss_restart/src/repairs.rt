// The copies of each row made equal.
ghost use Rattle.std.specs.Prelude.{◌≡◌, ℕ, [], false, Err, IfOk, OnOk, length};
ghost use Rattle.mss_base.specs.Content.{content, Writes};
ghost use Rattle.table_pair.specs.Pair.{row_of};
ghost use Rattle.table_pair.specs.Repairs.{FailsNever, KeepsRepairFault};
ghost use Rattle.table_pair.specs.declared.copy.Repaired.{Repaired};
ghost use Rattle.table_pair.specs.declared.copy.RepairFault.TheVariants as trouble;
ghost use Rattle.shown_volumes.specs.declared.refused.Refused.TheVariants.{Memory};
ghost use Rattle.shown_volumes.specs.Shown.{volumes_shown};
ghost use Rattle.shown_volumes.specs.Sound.{IsSound, SoundAs};
ghost use Rattle.mss_restart.specs.Creations.{
  AreEqual,
  AreRenewed,
  IsStop,
  RepairsOthers,
  RepairsWhole,
  StepsOn,
};
ghost use Rattle.mss_restart.specs.Survey.{IsNoFailure};

use mss_base::{Block, Site, volume_at};
use shown_volumes::Refused;
use std::alloc::Global;
use table_pair::{RepairFault, SlotsUsedList, repair};

/// Why copies weren't made equal.
fn refused_repair(fault: RepairFault) -> Refused
    ensures kept { (before now : ℕ)
        → KeepsRepairFault {T = Repaired} before now (Err fault) → IsStop before now result }
    ensures works { FailsNever {T = Repaired} (Err fault) → IsNoFailure result }
    ensures memory { result ≡ Memory → fault ≡ trouble.Memory }
{
    match fault {
        RepairFault::Failed { fault } => Refused::Stopped { fault },
        RepairFault::Memory => Refused::Memory,
    }
}

/// Makes the two copies of each row equal, and open with it, and counts their slots in use. The rows stay, and a
/// sound content shows the same at each moment; so do the made marks, and copies that need no repair. After want of
/// memory each repair that was begun was written to its end. Says whether a copy may be of version 1.
pub fn repair_rows<S: Site>(
    alloc: Global,
    site: &mut S,
    used: &mut SlotsUsedList,
) -> Result<bool, Refused>
    requires places { length used.old.items ≡ 32 }
    ensures moments { S.tells → (frames : ℕ) → IsSound frames (content (S.told site.old))
        → Writes (SoundAs frames (volumes_shown (content (S.told site.old))))
        (S.told site.old) (S.told site.new) }
    ensures rows { S.tells → (volume : ℕ)
        → row_of (content (S.told site.new)) volume ≡ row_of (content (S.told site.old)) volume }
    ensures equal { S.tells → OnOk result
        (AreEqual used.new.items (content (S.told site.old)) (content (S.told site.new))) }
    ensures renewed { S.tells → IfOk result (λ old. old ≡ false
        → AreRenewed 32 (content (S.told site.new))) }
    ensures places { length used.new.items ≡ 32 }
    ensures complete { S.tells → RepairsWhole (S.told site.old) (S.told site.new) result }
    ensures others { S.tells → RepairsOthers [] (S.told site.old) (S.told site.new) }
    ensures site_ { StepsOn S.Site site.old site.new result }
{
    let mut a = Block::zeros(alloc)?;
    let mut b = Block::zeros(alloc)?;
    let mut is_old = false;
    for number in 0..32 {
        match repair(alloc, site, volume_at(number), &mut a, &mut b) {
            Ok(repaired) => {
                used.set(usize::from(number), repaired.used);
                is_old |= repaired.is_old;
            }
            Err(fault) => return Err(refused_repair(fault)),
        }
    }
    Ok(is_old)
}
