// Devices surveyed where one copy of the table can't be read.
ghost use Rattle.std.specs.Prelude.{◌≡◌, true, [], ◌∷◌, IfOk};
ghost use Rattle.mss_base.specs.Content.{content};
ghost use Rattle.mss_base.specs.declared.place.UnitNo.{UnitNo};
ghost use Rattle.memory_devices.specs.MemorySite.{failing_of, told_of};
ghost use Rattle.memory_devices.specs.declared.memory_site.MemorySite.{MemorySite};
ghost use Rattle.memory_devices.specs.declared.memory_site.SiteFault.TheVariants.{ReadsOf};
ghost use Rattle.mss_base.specs.Configs.{serial_in};
ghost use Rattle.table_pair.specs.Pair.{is_table};
ghost use Rattle.mss_restart.specs.OneCopy.{ArePaired, LosesOneTable};
ghost use Rattle.mss_restart.specs.Survey.{IsExact};

use crate::lines::configs::three;
use memory_devices::{MemorySite, SiteFault};
use mss_base::{Config, NoMemory, Site, UnitNo};
use mss_restart::{Refused, survey};
use std::alloc::Global;
use std::test::Fail;
use volume_table::Rows;

/// Devices in memory of which just the reads of one unit of the table are to fail have lost one copy of the table, as
/// the survey has it: so its clause for a lost copy speaks of devices that there can be.
fn a_memory_site_may_lose_one_table()
    ensures { (site : MemorySite) (unit : UnitNo) → is_table unit ≡ true
        → failing_of site ≡ ReadsOf unit ∷ [] → LosesOneTable ⟦<MemorySite as Site>⟧ site }
{}

// A survey where a copy of the table can't be read: it answers what the devices hold, if each copy
// tells its rows alone.
fn survey_without(
    alloc: Global,
    site: &mut MemorySite,
    lost: UnitNo,
    config: &Config,
) -> Result<Result<Rows, Refused>, NoMemory>
    requires { is_table lost ≡ true }
    ensures { IfOk result (λ answer. ArePaired (content (told_of site.old))
        → IsExact config.now.frames (serial_in config.now.volumes) (content (told_of site.old))
        answer) }
{
    a_memory_site_may_lose_one_table();
    site.fail(&[SiteFault::ReadsOf(lost)])?;
    Ok(survey(alloc, site, config))
}

// Whether blank devices that have lost a copy of the table are sound.
fn is_sound_without(alloc: Global, site: &mut MemorySite, lost: UnitNo) -> Option<bool>
    requires { is_table lost ≡ true }
{
    let config = three(alloc)?;
    match survey_without(alloc, site, lost, &config) {
        Ok(answer) => Some(answer.is_ok()),
        Err(_) => None,
    }
}

// What is read where copy A is lost, `openings` tells.
#[test]
fn a_lost_copy_of_the_table_changes_nothing(rt: HostRuntime) -> Result<(), Fail> {
    let mut site = MemorySite::new(rt.alloc())?;
    let is_sound = is_sound_without(rt.alloc(), &mut site, UnitNo::TableA);
    assert!(rt; is_sound == Some(true));
    Ok(())
}
