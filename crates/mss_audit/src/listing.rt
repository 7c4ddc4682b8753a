// Putting a finding behind the others.
ghost use Rattle.std.specs.Prelude.{◌≡◌, ◌++◌, OnOk};
ghost use Rattle.mss_audit.specs.Listing.{one};
ghost use Rattle.mss_audit.specs.Findings.{refusal};

use crate::finding::{Finding, Findings};
use mss_base::NoMemory;
use shown_volumes::Refused;

/// Lists a finding, if there is one.
pub fn list(findings: &mut Findings, found: Option<Finding>) -> Result<(), NoMemory>
    ensures { OnOk result (findings.new.items ≡ findings.old.items ++ one found) }
{
    let Some(finding) = found else {
        return Ok(());
    };
    findings.reserve(1)?;
    match finding {
        Finding::Refusal(refused) => findings.push(Finding::Refusal(refused)),
        of_copies => findings.push(of_copies),
    }
    Ok(())
}

/// Lists what a restart would refuse, if there is anything.
pub fn list_refusal(findings: &mut Findings, refused: Option<Refused>) -> Result<(), NoMemory>
    ensures { OnOk result (findings.new.items ≡ findings.old.items ++ one (refusal refused)) }
{
    match refused {
        Some(refused) => list(findings, Some(Finding::Refusal(refused))),
        None => Ok(()),
    }
}
