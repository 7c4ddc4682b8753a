// A site in a folder: written, held against a second one, made anew, and read.
use mss_base::{CartridgeNo, Failed, Site, UnitNo};
use mss_files::{FileSite, Folder};
use std::alloc::Global;
use std::fs;

const FOLDER: &str = "site_made_anew";

type FolderSite = FileSite<Folder<HostRuntime>>;

fn cartridge(number: u16) -> Result<UnitNo, Failed> {
    match CartridgeNo::of(number) {
        Some(number) => Ok(UnitNo::Cartridge(number)),
        None => Err(Failed),
    }
}

/// The two cartridges, whose numbers differ by 64, share their place among the open files. The file
/// of the first isn't open any more when it is synced, and the other copy of the table has none.
fn write_site(site: &mut FolderSite) -> Result<(), Failed> {
    site.write(UnitNo::TableA, 31, 0, b"row")?;
    site.write(UnitNo::Staging(3), 1, 100, b"staged")?;
    site.write(cartridge(5)?, 0, 16_383, b"!")?;
    site.write(cartridge(69)?, 0, 16_383, b"?")?;
    site.sync(UnitNo::TableA)?;
    site.sync(cartridge(5)?)?;
    site.sync(UnitNo::TableB)?;
    site.sync_all()
}

/// Whether a block can be read and has these bytes at a place.
fn shows(
    alloc: Global,
    site: &mut FolderSite,
    unit: UnitNo,
    block: u32,
    place: usize,
    expected: &[u8],
) -> bool {
    let Ok(mut bytes) = vec![in alloc; 7u8; 16384] else {
        return false;
    };
    if site.read(unit, block, &mut bytes).is_err() {
        return false;
    }
    let (_, rest) = bytes.as_slice().split_at(place.min(bytes.len()));
    rest.starts_with(expected)
}

fn shows_staged(alloc: Global, site: &mut FolderSite) -> bool {
    shows(alloc, site, UnitNo::Staging(3), 1, 98, b"\0\0staged\0")
}

fn shows_unwritten(alloc: Global, site: &mut FolderSite) -> bool {
    shows(alloc, site, UnitNo::TableB, 31, 0, b"\0\0\0\0")
}

fn shows_cartridge(alloc: Global, site: &mut FolderSite) -> bool {
    match cartridge(5) {
        Ok(unit) => shows(alloc, site, unit, 0, 16_380, b"\0\0\0!"),
        Err(_) => false,
    }
}

fn has_length(rt: &HostRuntime, path: &str, length: u64) -> bool {
    match fs::metadata(rt, path) {
        Ok(found) => found.len() == length,
        Err(_) => false,
    }
}

/// A site can be moved between threads.
fn handed_over<T: Send>(value: T) -> T {
    value
}

#[test]
fn a_site_made_anew_shows_what_was_written(rt: HostRuntime) {
    let alloc = rt.alloc();
    let _ = fs::remove_dir_all(&rt, FOLDER);
    let mut site = FileSite::at(rt, FOLDER).expect(&rt, "a site");
    let touched = fs::exists(&rt, FOLDER).expect(&rt, "a look");
    assert!(rt; !touched);
    assert_eq!(rt; write_site(&mut site), Ok(()));
    assert_eq!(rt; site.writes(), 8);

    let mut second = FileSite::at(rt, FOLDER).expect(&rt, "a site");
    assert!(rt; !shows_staged(alloc, &mut second));
    assert_eq!(rt; second.faults(), 1);
    drop(second);
    drop(site);

    let again = FileSite::at(rt, FOLDER).expect(&rt, "a site");
    let mut again = handed_over(again);
    assert!(rt; shows_staged(alloc, &mut again));
    assert!(rt; shows_cartridge(alloc, &mut again));
    assert!(rt; shows_unwritten(alloc, &mut again));
    assert_eq!(rt; again.faults(), 0);
    drop(again);

    assert!(rt; has_length(&rt, "site_made_anew/table_a", 31 * 16_384 + 3));
    assert!(rt; has_length(&rt, "site_made_anew/staging_3", 16_384 + 106));
    assert!(rt; has_length(&rt, "site_made_anew/cartridge_69", 16_384));
    let _ = fs::remove_dir_all(&rt, FOLDER);
}
