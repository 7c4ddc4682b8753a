// The two copies of a row: what the one says that doesn't count.
ghost use Rattle.std.specs.Prelude.{◌≡◌, ◌≢◌, ◌<◌, ◌+◌, ◌++◌, length, IfOk, OnOk};
ghost use Rattle.mss_base.specs.Firsts.{first_below};
ghost use Rattle.mss_base.specs.Geometry.{row_body_at, row_body_bytes};
ghost use Rattle.table_pair.specs.Pair.{reading, unread};
ghost use Rattle.table_pair.specs.Reads.{read_of_copy};
ghost use Rattle.shown_volumes.specs.Shown.{told_row};
ghost use Rattle.mss_audit.specs.declared.finding.Finding.TheVariants.{CopyDiffers};
ghost use Rattle.mss_audit.specs.Findings.{
  beside_a,
  beside_b,
  copies_finding,
  copies_findings,
  difference,
  differs_at,
};

use crate::finding::{Finding, Findings};
use crate::listing::{list, list_refusal};
use mss_base::{NoMemory, Serial, VolumeNo};
use mss_restart::serial_fault;
use shown_volumes::Refused;
use table_pair::{CopyState, RowTrouble, TableCopy, by_table};
use volume_table::{BODY, BODY_BYTES, BODY_END, ROW_BYTES, VolumeRow, encode_row};

/// That two rows have different bytes at a place of their bodies.
fn differs(volume: VolumeNo, number: u16, a: u8, b: u8) -> Finding
    requires { number < row_body_bytes }
    ensures { result ≡ CopyDiffers volume (number + row_body_at) a b }
{
    Finding::CopyDiffers {
        volume,
        place: number + BODY as u16,
        a,
        b,
    }
}

/// The first byte in which two bodies differ.
fn first_difference(volume: VolumeNo, a: &[u8], b: &[u8]) -> Option<Finding>
    requires a { length a.now ≡ row_body_bytes }
    requires b { length b.now ≡ row_body_bytes }
    ensures { result ≡ first_below row_body_bytes (difference volume a.now b.now) }
{
    for number in 0..BODY_BYTES as u16 {
        let at = usize::from(number);
        if a[at] != b[at] {
            return Some(differs(volume, number, a[at], b[at]));
        }
    }
    None
}

/// The first byte in which two rows differ, as they are written.
fn differs_at(volume: VolumeNo, a: &VolumeRow, b: &VolumeRow) -> Option<Finding>
    ensures { result ≡ differs_at volume a.now b.now }
{
    let mut first = [0; ROW_BYTES];
    let mut second = [0; ROW_BYTES];
    encode_row(a, &mut first);
    encode_row(b, &mut second);
    first_difference(volume, &first[BODY..BODY_END], &second[BODY..BODY_END])
}

/// What copy B says beside the row of copy A.
fn beside_a(volume: VolumeNo, row: &VolumeRow, other: &CopyState) -> Option<Finding>
    ensures { result ≡ beside_a volume row.now (read_of_copy other.now) }
{
    let copy = TableCopy::B;
    match other {
        CopyState::Closed { .. } => Some(Finding::CopyClosed { volume, copy }),
        CopyState::Open(Err(fault)) => Some(Finding::CopyDamaged {
            volume,
            copy,
            fault: *fault,
        }),
        CopyState::Open(Ok(other)) => differs_at(volume, row, other),
        CopyState::Unread { .. } => None,
    }
}

/// That copy A is closed, where copy B has a row.
fn beside_b(volume: VolumeNo, other: &CopyState) -> Option<Finding>
    ensures { result ≡ beside_b volume (read_of_copy other.now) }
{
    match other {
        CopyState::Open(Ok(_)) => Some(Finding::CopyClosed {
            volume,
            copy: TableCopy::A,
        }),
        CopyState::Open(Err(_)) => None,
        CopyState::Closed { .. } => None,
        CopyState::Unread { .. } => None,
    }
}

/// What the copy says that doesn't count, where there is a row.
fn copies_finding(volume: VolumeNo, a: &CopyState, b: &CopyState) -> Option<Finding>
    ensures { result ≡ copies_finding volume (read_of_copy a.now) (read_of_copy b.now) }
{
    match a {
        CopyState::Open(Ok(row)) => beside_a(volume, row, b),
        CopyState::Open(Err(_)) => None,
        CopyState::Closed { .. } => beside_b(volume, b),
        CopyState::Unread { .. } => None,
    }
}

/// Lists what two copies say that were read, and the fault of their row. Gives the row, if there is one.
pub fn list_copies(
    volume: VolumeNo,
    a: CopyState,
    b: CopyState,
    asked: Option<Serial>,
    findings: &mut Findings,
) -> Result<Option<VolumeRow>, NoMemory>
    requires a { read_of_copy a ≢ unread }
    requires b { read_of_copy b ≢ unread }
    ensures row { IfOk result (λ row. row ≡ told_row (reading (read_of_copy a) (read_of_copy b))) }
    ensures list { OnOk result (findings.new.items
        ≡ findings.old.items ++ copies_findings volume asked (read_of_copy a) (read_of_copy b)) }
{
    list(findings, copies_finding(volume, &a, &b))?;
    match by_table(a, b) {
        Ok(read) => {
            list_refusal(findings, serial_fault(volume, &read.row, asked))?;
            Ok(read.row)
        }
        Err(RowTrouble::Damaged { copy, fault }) => {
            let damaged = Refused::RowDamaged {
                volume,
                copy,
                fault,
            };
            list_refusal(findings, Some(damaged))?;
            Ok(None)
        }
        Err(RowTrouble::Unread { .. }) => unreachable!(),
        Err(RowTrouble::Memory) => Err(NoMemory),
    }
}
