// The halves of volumes: each cartridge stands in one of them.
ghost use Rattle.std.specs.Prelude.{◌≡◌, ◌++◌, OnOk};
ghost use Rattle.volume_table.specs.Listed.{row_in_list};
ghost use Rattle.mss_audit.specs.Listing.{joined_below};
ghost use Rattle.mss_audit.specs.Findings.{half_findings};

use crate::finding::Findings;
use crate::listing::list_refusal;
use mss_base::{NoMemory, VolumeNo, volume_at};
use mss_restart::half_fault;
use volume_table::Rows;

/// Lists the halves of a volume of which an earlier one has the cartridge.
#[tactic(auto, using(crate::proofs::Joining::joined_two))]
fn list_volume(rows: &Rows, volume: VolumeNo, findings: &mut Findings) -> Result<(), NoMemory>
    ensures { OnOk result (findings.new.items
        ≡ findings.old.items ++ half_findings (row_in_list rows.now) volume) }
{
    list_refusal(findings, half_fault(rows, volume, false))?;
    list_refusal(findings, half_fault(rows, volume, true))
}

/// Lists each half whose cartridge stands in an earlier one.
pub fn list_halves(rows: &Rows, findings: &mut Findings) -> Result<(), NoMemory>
    ensures { OnOk result (findings.new.items
        ≡ findings.old.items ++ joined_below 32 (half_findings (row_in_list rows.now))) }
{
    for number in 0..32 {
        list_volume(rows, volume_at(number), findings)?;
    }
    Ok(())
}
