// Devices with one row, whose copies differ, and the text of their audit.
use memory_devices::{MemorySink, MemorySite};
use mss_audit::{audit, put_audit};
use mss_base::{Config, NoMemory, Serial, Sink, Site, UnitNo, VolumeList, VolumeNo};
use std::alloc::Global;

// The row of a new volume as its block begins: VOL001 or another digit, on cartridge 0 and a second one, open and
// made.
fn row_bytes(digit: u8, second: u8) -> [u8; 512] {
    let mut bytes = [0; 512];
    bytes[0..7].copy_from_slice(b"\xC1\x01VOL00");
    bytes[7] = digit;
    bytes[11] = second;
    bytes[12..63].copy_from_slice(&[255; 51]);
    bytes[511] = 0x4D;
    bytes
}

fn put_row<S: Site>(site: &mut S, unit: UnitNo, digit: u8, second: u8) -> Option<()> {
    site.reserve(1).ok()?;
    site.write(unit, 0, 0, &row_bytes(digit, second)).ok()
}

fn config_of(alloc: Global, volume: VolumeNo, serial: Serial) -> Result<Config, NoMemory> {
    let mut volumes = VolumeList::new(alloc);
    volumes.reserve(1)?;
    volumes.push((volume, serial, false));
    Ok(Config {
        frames: 8,
        recorders: 1,
        volumes,
    })
}

// Eight frames, and VOL001 as volume 0.
fn config(alloc: Global) -> Option<Config> {
    config_of(alloc, VolumeNo::of(0)?, Serial::of(*b"VOL001")?).ok()
}

fn tell<S: Site, O: Sink>(
    alloc: Global,
    site: &mut S,
    output: &mut O,
    config: &Config,
) -> Option<()> {
    let findings = audit(alloc, site, config).ok()?;
    put_audit(output, findings.as_slice()).ok()
}

fn tells<S: Site, O: Sink>(alloc: Global, site: &mut S, output: &mut O) -> Option<()> {
    put_row(site, UnitNo::TableA, b'9', 1)?;
    put_row(site, UnitNo::TableB, b'1', 9)?;
    tell(alloc, site, output, &config(alloc)?)
}

/// Whether the audit of such devices puts this text.
pub fn audits_as(alloc: Global, text: &str) -> Option<bool> {
    let mut site = MemorySite::new(alloc).ok()?;
    let mut output = MemorySink::new(alloc, &[]).ok()?;
    tells(alloc, &mut site, &mut output)?;
    Some(output.bytes() == text.as_bytes())
}
