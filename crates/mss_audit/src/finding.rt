// What an audit finds, and why it ends.
ghost use Rattle.std.specs.Prelude.{◌≡◌};

use mss_base::{Listed, NoMemory, VolumeNo};
use shown_volumes::Refused;
use std::alloc::AllocError;
use table_pair::TableCopy;
use volume_table::RowFault;

/// Something that is wrong with a site.
///
/// Contracts see the numbers, so this enum is among the definitions as it stands.
#[derive(Clone, Copy)]
pub enum Finding {
    /// A restart refuses the site for this, if it finds nothing before it.
    Refusal(Refused),
    /// The copy isn't open, while the other one has the volume's row.
    CopyClosed {
        volume: VolumeNo,
        copy: TableCopy,
    },
    /// The copy doesn't count, and has no row.
    CopyDamaged {
        volume: VolumeNo,
        copy: TableCopy,
        fault: RowFault,
    },
    /// The copies tell different rows. As a row is written behind a gate at place 0, the bytes differ from `place` on: it
    /// is `a` by copy A and `b` by copy B.
    CopyDiffers {
        volume: VolumeNo,
        place: u16,
        a: u8,
        b: u8,
    },
}

/// Findings, in the order of the audit.
pub type Findings = Listed<Finding>;

/// Why a site wasn't audited to its end.
#[derive(Clone, Copy)]
pub enum AuditFault {
    /// A read failed. `fault` is the site's count of faults after it.
    Read { fault: u64 },
    /// Memory ran out.
    Memory,
}

impl From<NoMemory> for AuditFault {
    ghost use Rattle.mss_audit.specs.declared.finding.AuditFault.TheVariants.{Memory};

    ghost from_gives = { λ _ e. e ≡ Memory };

    fn from(_: NoMemory) -> Self {
        AuditFault::Memory
    }
}

impl From<AllocError> for AuditFault {
    ghost use Rattle.mss_audit.specs.declared.finding.AuditFault.TheVariants.{Memory};

    ghost from_gives = { λ _ e. e ≡ Memory };

    fn from(_: AllocError) -> Self {
        AuditFault::Memory
    }
}
