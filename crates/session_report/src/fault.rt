// Why a report wasn't put whole.
ghost use Rattle.std.specs.Prelude.{◌≡◌};

use mss_base::{Failed, NoMemory};
use report_text::ReportFault as PartFault;

/// Why a report wasn't put whole. What was put is a front of it, but after a failed read.
#[derive(Clone, Copy)]
pub enum ReportFault {
    /// A read of a volume's track failed; the site's count of faults behind it. The report ended before that track,
    /// with a line that tells this count.
    Read { fault: u64 },
    /// The sink failed.
    Output,
    /// Memory ran out.
    Memory,
}

impl From<PartFault> for ReportFault {
    ghost use Rattle.std.specs.Prelude.{◌≡◌};
    ghost use Rattle.session_report.specs.Answers.{fault_of};

    ghost from_gives = { λ fault told. told ≡ fault_of fault };

    fn from(fault: PartFault) -> Self {
        match fault {
            PartFault::Output => ReportFault::Output,
            PartFault::Memory => ReportFault::Memory,
        }
    }
}

impl From<Failed> for ReportFault {
    ghost use Rattle.std.specs.Prelude.{◌≡◌};
    ghost use Rattle.session_report.specs.declared.fault.ReportFault.TheVariants.{Output};

    ghost from_gives = { λ _ told. told ≡ Output };

    fn from(_: Failed) -> Self {
        ReportFault::Output
    }
}

impl From<NoMemory> for ReportFault {
    ghost use Rattle.std.specs.Prelude.{◌≡◌};
    ghost use Rattle.session_report.specs.declared.fault.ReportFault.TheVariants.{Memory};

    ghost from_gives = { λ _ told. told ≡ Memory };

    fn from(_: NoMemory) -> Self {
        ReportFault::Memory
    }
}

/// Why volumes weren't put whole.
#[derive(Clone, Copy)]
pub enum VolumesFault {
    /// A read failed; the site's count of faults behind it. Nothing was put for it.
    Read { fault: u64 },
    /// The sink failed, or memory ran out.
    Put(PartFault),
}

impl From<PartFault> for VolumesFault {
    ghost use Rattle.std.specs.Prelude.{◌≡◌};
    ghost use Rattle.session_report.specs.declared.fault.VolumesFault.TheVariants.{Put};

    ghost from_gives = { λ fault told. told ≡ Put fault };

    fn from(fault: PartFault) -> Self {
        VolumesFault::Put(fault)
    }
}

impl From<Failed> for VolumesFault {
    ghost use Rattle.std.specs.Prelude.{◌≡◌};
    ghost use Rattle.report_text.specs.declared.report.ReportFault.TheVariants.{Output};
    ghost use Rattle.session_report.specs.declared.fault.VolumesFault.TheVariants.{Put};

    ghost from_gives = { λ _ told. told ≡ Put Output };

    fn from(_: Failed) -> Self {
        VolumesFault::Put(PartFault::Output)
    }
}
