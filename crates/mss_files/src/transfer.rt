// Bytes moved between a buffer and a unit's file, as often as it takes.
ghost use Rattle.std.specs.Prelude.{◌≡◌, ◌≢◌, ◌+◌, ◌<◌, ◌≤◌, ◌^◌, true};
ghost use Rattle.std.specs.Prelude.{length, replicate, take, IsOk, IfOk, IfErr, OnOk};
ghost use Rattle.std.specs.IoError.{error_kind};
ghost use Rattle.mss_base.specs.declared.place.UnitNo.{UnitNo};
ghost use Rattle.mss_files.specs.Files.{bytes_at, ChangesOnly, EndsAt};

use crate::UnitFiles;
use mss_base::UnitNo;
use std::io;
use std::io::ErrorKind;

/// Reads once, and again where a signal interrupts it.
fn read_once<F: UnitFiles>(
    files: &mut F,
    unit: &UnitNo,
    at: u64,
    into: &mut [u8],
) -> io::Result<usize>
    ensures within { IfOk result (λ n. n ≤ length into.old) }
    ensures bytes { F.tells → IfOk result
        (λ n. take n into.new ≡ bytes_at (F.byte files.old unit.now) at n) }
    ensures end { F.tells → IfOk result
        (λ n. n ≡ 0 → 1 ≤ length into.old → EndsAt at (F.byte files.old unit.now)) }
    ensures kept { F.tells → F.byte files.new ≡ F.byte files.old }
    ensures repeated { IfErr result (λ error. error_kind error ≢ ErrorKind.Interrupted) }
    ensures works { F.never_fails files.old → IsOk result }
    ensures sound { F.never_fails files.old → F.never_fails files.new }
{
    for _ in 0..u64::MAX {
        match files.read_some(unit, at, into) {
            Err(error) if error.kind() == ErrorKind::Interrupted => {}
            outcome => return outcome,
        }
    }
    Err(io::Error::from(ErrorKind::TimedOut))
}

/// Makes all bytes zero.
pub fn blank(bytes: &mut [u8])
    ensures { bytes.new ≡ replicate (length bytes.old) 0 }
{
    bytes.fill(0);
}

/// Fills a buffer from a place on. Behind the end of the file are zeros.
pub fn read_all<F: UnitFiles>(
    files: &mut F,
    unit: &UnitNo,
    at: u64,
    into: &mut [u8],
) -> io::Result<()>
    requires { at + length into.old < 2 ^ 64 }
    ensures bytes { F.tells → OnOk result
        (into.new ≡ bytes_at (F.byte files.old unit.now) at (length into.old)) }
    ensures kept { F.tells → F.byte files.new ≡ F.byte files.old }
    ensures works { F.never_fails files.old → IsOk result }
    ensures sound { F.never_fails files.old → F.never_fails files.new }
{
    let mut done = 0usize;
    while done < into.len() {
        let (_, rest) = into.split_at_mut(done);
        let count = match read_once(files, unit, at + done as u64, rest) {
            Ok(count) => count,
            Err(error) => return Err(error),
        };
        if count == 0 {
            blank(rest);
            return Ok(());
        }
        done += count;
    }
    Ok(())
}

/// Writes once, and again where a signal interrupts it.
fn write_once<F: UnitFiles>(
    files: &mut F,
    unit: &UnitNo,
    at: u64,
    bytes: &[u8],
) -> io::Result<usize>
    ensures within { IfOk result (λ n. n ≤ length bytes.now) }
    ensures bytes { F.tells → IfOk result
        (λ n. bytes_at (F.byte files.new unit.now) at n ≡ take n bytes.now) }
    ensures only { F.tells
        → ChangesOnly unit.now at (length bytes.now) (F.byte files.old) (F.byte files.new) }
    ensures repeated { IfErr result (λ error. error_kind error ≢ ErrorKind.Interrupted) }
    ensures works { F.never_fails files.old → IsOk result }
    ensures moves { F.never_fails files.old → IfOk result
        (λ n. 1 ≤ length bytes.now → 1 ≤ n) }
    ensures sound { F.never_fails files.old → F.never_fails files.new }
{
    for _ in 0..u64::MAX {
        match files.write_some(unit, at, bytes) {
            Err(error) if error.kind() == ErrorKind::Interrupted => {}
            outcome => return outcome,
        }
    }
    Err(io::Error::from(ErrorKind::TimedOut))
}

/// Writes bytes from a place on. They are firm once the unit is synced.
pub fn write_all<F: UnitFiles>(
    files: &mut F,
    unit: &UnitNo,
    at: u64,
    bytes: &[u8],
) -> io::Result<()>
    requires { at + length bytes.now < 2 ^ 64 }
    ensures bytes { F.tells → OnOk result
        (bytes_at (F.byte files.new unit.now) at (length bytes.now) ≡ bytes.now) }
    ensures only { F.tells
        → ChangesOnly unit.now at (length bytes.now) (F.byte files.old) (F.byte files.new) }
    ensures works { F.never_fails files.old → IsOk result }
    ensures sound { F.never_fails files.old → F.never_fails files.new }
{
    let mut done = 0usize;
    while done < bytes.len() {
        let (_, rest) = bytes.split_at(done);
        let count = match write_once(files, unit, at + done as u64, rest) {
            Ok(count) => count,
            Err(error) => return Err(error),
        };
        if count == 0 {
            return Err(io::Error::from(ErrorKind::WriteZero));
        }
        done += count;
    }
    Ok(())
}

/// Syncs a unit, and again where a signal interrupts it.
pub fn sync_unit<F: UnitFiles>(files: &mut F, unit: &UnitNo) -> io::Result<()>
    ensures kept { F.tells → F.byte files.new ≡ F.byte files.old }
    ensures lasts { F.tells → OnOk result (F.lasts files.new unit.now ≡ true) }
    ensures repeated { IfErr result (λ error. error_kind error ≢ ErrorKind.Interrupted) }
    ensures works { F.never_fails files.old → IsOk result }
    ensures sound { F.never_fails files.old → F.never_fails files.new }
{
    for _ in 0..u64::MAX {
        match files.sync(unit) {
            Err(error) if error.kind() == ErrorKind::Interrupted => {}
            outcome => return outcome,
        }
    }
    Err(io::Error::from(ErrorKind::TimedOut))
}

/// Syncs all units, and again where a signal interrupts it.
pub fn sync_units<F: UnitFiles>(files: &mut F) -> io::Result<()>
    ensures kept { F.tells → F.byte files.new ≡ F.byte files.old }
    ensures lasts { F.tells → OnOk result
        ((unit : UnitNo) → F.lasts files.new unit ≡ true) }
    ensures repeated { IfErr result (λ error. error_kind error ≢ ErrorKind.Interrupted) }
    ensures works { F.never_fails files.old → IsOk result }
    ensures sound { F.never_fails files.old → F.never_fails files.new }
{
    for _ in 0..u64::MAX {
        match files.sync_all() {
            Err(error) if error.kind() == ErrorKind::Interrupted => {}
            outcome => return outcome,
        }
    }
    Err(io::Error::from(ErrorKind::TimedOut))
}
