// The files of the units in a folder of the system.
ghost use Rattle.std.specs.Prelude.{◌≡◌, ◌≢◌, ◌<◌, ◌≤◌, true, false, length, vec_len, string_bytes};
ghost use Rattle.std.specs.Prelude.{IfOk, IfErr, OnOk, OnErr};
ghost use Rattle.std.specs.IoError.{error_kind};
ghost use Rattle.mss_base.specs.declared.place.UnitNo.{UnitNo};
ghost use Rattle.mss_files.specs.Slots.{IsSpoiled, AreNamesSpoiled, StaysSpoiled};

use crate::UnitFiles;
use crate::names::{first_name, unit_named};
use crate::paths::FolderPaths;
use crate::site_file::{SiteFile, guard_standard_descriptors};
use crate::spoiled::{SLOTS, Spoiled, slot_of, spoiled_before};
use mss_base::{NoMemory, UnitNo};
use std::fs::{File, OpenOptions};
use std::io::{ErrorKind, Read};
use std::rt::Files;
use std::{fs, io};

/// The names of files that one look at a folder brings have so much room.
const NAMES_ROOM: usize = 4096;

/// How far the folder is known.
#[derive(Drop)]
enum Access {
    /// It wasn't looked for yet.
    Untouched,
    /// It wasn't there when it was looked for. So all units are empty until the first write makes
    /// it.
    Absent,
    /// It is there, and this handle holds its lock.
    Held(SiteFile),
    /// It couldn't be opened, made or locked. It isn't tried again, so that no run begins in the
    /// midst of another one.
    Refused,
}

/// The file of a unit that was used lately: none where there is no such file.
#[derive(Drop)]
struct UnitFile {
    unit: UnitNo,
    file: Option<SiteFile>,
}

/// The files of the units in one folder. What they hold no clause can say.
///
/// A missing folder or file is empty, and a write makes it. From its first use on the folder is
/// locked, so that no two sites work in it at once: where another has the lock, each call fails.
/// A file whose sync failed once can't be synced any more, nor can those that share its place.
/// All memory is taken when it is made, so no call fails for want of it.
#[derive(Drop)]
pub struct Folder<R: Files<File = File> + Drop> {
    rt: R,
    paths: FolderPaths,
    guards: [Option<File>; 3],
    access: Access,
    folder_synced: bool,
    names_synced: bool,
    slots: Vec<Option<UnitFile>>,
    spoiled: Spoiled,
    ghost whole: { vec_len slots ≡ 70 },
}

/// Opens a file that is there.
fn open_there<R: Files<File = File>>(rt: &R, path: &str) -> io::Result<Option<SiteFile>> {
    match SiteFile::open(rt, OpenOptions::new().read(true).write(true), path) {
        Ok(file) => Ok(Some(file)),
        Err(error) if error.kind() == ErrorKind::NotFound => Ok(None),
        Err(error) => Err(error),
    }
}

/// Makes a file that isn't there.
fn make_file<R: Files<File = File>>(rt: &R, path: &str) -> io::Result<SiteFile> {
    SiteFile::open(
        rt,
        OpenOptions::new().read(true).write(true).create_new(true),
        path,
    )
}

/// Opens and locks a folder that is there.
fn hold_folder<R: Files<File = File>>(rt: &R, path: &str) -> io::Result<SiteFile> {
    let folder = SiteFile::open(rt, OpenOptions::new().read(true), path)?;
    folder.lock()?;
    Ok(folder)
}

/// Makes a folder that isn't there, and locks it.
fn make_folder<R: Files<File = File>>(rt: &R, path: &str) -> io::Result<SiteFile> {
    fs::create_dir(rt, path)?;
    hold_folder(rt, path)
}

/// Opens and locks a folder, if it is there.
fn enter_folder<R: Files<File = File>>(rt: &R, path: &str) -> io::Result<Access> {
    match hold_folder(rt, path) {
        Ok(folder) => Ok(Access::Held(folder)),
        Err(error) if error.kind() == ErrorKind::NotFound => Ok(Access::Absent),
        Err(error) => Err(error),
    }
}

/// The file of this unit, where it is open.
fn file_among<'a>(slots: &'a [Option<UnitFile>], unit: &UnitNo) -> Option<&'a SiteFile>
    requires { length slots.now ≡ 70 }
{
    match &slots[slot_of(unit)] {
        Some(known) if known.unit == *unit => known.file.as_ref(),
        _ => None,
    }
}

/// Syncs the file of a unit, if it is there. The system syncs a file whoever wrote it, so it is
/// opened for that if it isn't open, and closed again.
fn sync_there<R: Files<File = File>>(
    rt: &R,
    paths: &mut FolderPaths,
    slots: &[Option<UnitFile>],
    spoiled: &mut Spoiled,
    unit: &UnitNo,
) -> io::Result<()>
    requires { length slots.now ≡ 70 }
    ensures told { OnOk result (spoiled.new ≡ spoiled.old) }
    ensures stays { StaysSpoiled spoiled.old spoiled.new }
{
    if let Some(file) = file_among(slots, unit) {
        return spoiled.noted(unit, file.sync_data());
    }
    paths.spell(unit);
    match open_there(rt, paths.spelled())? {
        Some(file) => spoiled.noted(unit, file.sync_data()),
        None => Ok(()),
    }
}

/// Syncs the files of these names, each of which ends with a zero. Other files aren't the site's.
fn sync_names<R: Files<File = File>>(
    rt: &R,
    paths: &mut FolderPaths,
    slots: &[Option<UnitFile>],
    spoiled: &mut Spoiled,
    names: &[u8],
) -> io::Result<()>
    requires { length slots.now ≡ 70 }
    ensures told { OnOk result (spoiled.new ≡ spoiled.old) }
    ensures stays { StaysSpoiled spoiled.old spoiled.new }
{
    let mut rest = names;
    while let Some((name, behind)) = first_name(rest) {
        if let Some(unit) = unit_named(name) {
            sync_there(rt, paths, slots, spoiled, &unit)?;
        }
        rest = behind;
    }
    Ok(())
}

/// Syncs each file of a unit that stands in the folder. To list them takes fewer calls than to look
/// for each.
fn sync_files<R: Files<File = File>>(
    rt: &R,
    paths: &mut FolderPaths,
    slots: &[Option<UnitFile>],
    spoiled: &mut Spoiled,
) -> io::Result<()>
    requires { length slots.now ≡ 70 }
    ensures told { OnOk result (spoiled.new ≡ spoiled.old) }
    ensures stays { StaysSpoiled spoiled.old spoiled.new }
{
    let mut list = rt.open_dir(paths.folder())?;
    let mut names = [0u8; NAMES_ROOM];
    for _ in 0..u64::MAX {
        let count = list.read(&mut names)?;
        if count == 0 {
            return Ok(());
        }
        sync_names(rt, paths, slots, spoiled, &names[..count])?;
    }
    Err(io::Error::from(ErrorKind::TimedOut))
}

impl<R: Files<File = File> + AllocGlobal + Drop> Folder<R> {
    ghost use Rattle.mss_files.specs.declared.folder.Access.TheVariants.{Untouched};

    /// The folder of this path. It touches no file before the first read or write, and knows of no
    /// name yet that it lasts.
    pub fn at(rt: R, path: &str) -> Result<Self, NoMemory>
        ensures path { IfOk result (λ folder. string_bytes folder.paths.folder ≡ path.now) }
        ensures untouched { IfOk result (λ folder. folder.access ≡ Untouched) }
        ensures unsynced { IfOk result (λ folder.
            (folder.names_synced ≡ false) × (folder.folder_synced ≡ false)) }
        ensures unspoiled { IfOk result (λ folder.
            ((unit : UnitNo) → IsSpoiled folder.spoiled unit → ⊥)
            × (AreNamesSpoiled folder.spoiled → ⊥)) }
    {
        let paths = FolderPaths::of(rt.alloc(), path)?;
        let mut slots = Vec::new(rt.alloc());
        for _ in 0..SLOTS {
            slots.push(None)?;
        }
        Ok(Folder {
            rt,
            paths,
            guards: [None, None, None],
            access: Access::Untouched,
            folder_synced: false,
            names_synced: false,
            slots,
            spoiled: Spoiled::none(),
        })
    }
}

impl<R: Files<File = File> + Drop> Folder<R> {
    ghost use Rattle.mss_files.specs.declared.folder.Access.TheVariants.{Untouched, Refused};

    /// Looks for the folder at the first use, and makes it where that is wanted. Where that fails, it
    /// is refused from then on.
    fn enter(&mut self, make: bool) -> io::Result<()>
        ensures fails { OnErr result (self.new.access ≡ Refused) }
        ensures refused { self.old.access ≡ Refused → self.new.access ≡ Refused }
        ensures spoiled { self.new.spoiled ≡ self.old.spoiled }
    {
        if matches!(self.access, Access::Untouched) {
            self.access = Access::Refused;
            guard_standard_descriptors(&self.rt, &mut self.guards)?;
            self.access = enter_folder(&self.rt, self.paths.folder())?;
        }
        if make && matches!(self.access, Access::Absent) {
            self.access = Access::Refused;
            self.access = Access::Held(make_folder(&self.rt, self.paths.folder())?);
        }
        Ok(())
    }

    /// Whether the slot has the file of this unit, or, where none is wanted, knows that there is
    /// none.
    fn is_known(&self, unit: &UnitNo, make: bool) -> bool {
        match &self.slots[slot_of(unit)] {
            Some(known) => known.unit == *unit && (known.file.is_some() || !make),
            None => false,
        }
    }

    /// The file of this unit, where it is open.
    fn file(&self, unit: &UnitNo) -> Option<&SiteFile> {
        file_among(&self.slots, unit)
    }

    /// Opens the file of this unit, if it is there; a file that isn't there is made where that is
    /// wanted. A folder that was moved away is an error: none of its files is missing.
    fn open_unit(&mut self, unit: &UnitNo, make: bool) -> io::Result<()>
        ensures fails { self.old.access ≡ Refused → OnOk result ⊥ }
        ensures looked { OnOk result (self.new.access ≢ Untouched) }
        ensures refused { self.old.access ≡ Refused → self.new.access ≡ Refused }
        ensures spoiled { self.new.spoiled ≡ self.old.spoiled }
    {
        if !matches!(self.access, Access::Held(_)) {
            self.enter(make)?;
        }
        match &self.access {
            Access::Held(_) if self.is_known(unit, make) => Ok(()),
            Access::Held(_) => self.look_for(unit, make),
            Access::Absent => Ok(()),
            Access::Untouched | Access::Refused => Err(io::Error::from(ErrorKind::WouldBlock)),
        }
    }

    /// Whether the folder that is held still stands at its path. One that was moved away is an error:
    /// none of its files is missing.
    fn find_held(&self) -> io::Result<()>
        ensures held { OnOk result (self.now.access ≢ Refused) }
        ensures looked { OnOk result (self.now.access ≢ Untouched) }
    {
        let Access::Held(folder) = &self.access else {
            return Err(io::Error::from(ErrorKind::WouldBlock));
        };
        if folder.is_at(&self.rt, self.paths.folder())? {
            Ok(())
        } else {
            Err(io::Error::from(ErrorKind::NotFound))
        }
    }

    /// Looks for the file of this unit in the folder that is held.
    fn look_for(&mut self, unit: &UnitNo, make: bool) -> io::Result<()>
        ensures held { OnOk result (self.old.access ≢ Refused) }
        ensures access { self.new.access ≡ self.old.access }
        ensures spoiled { self.new.spoiled ≡ self.old.spoiled }
    {
        self.find_held()?;
        self.paths.spell(unit);
        let mut file = open_there(&self.rt, self.paths.spelled())?;
        if make && file.is_none() {
            file = Some(self.make_spelled()?);
        }
        let slot = slot_of(unit);
        self.slots[slot] = Some(UnitFile { unit: *unit, file });
        Ok(())
    }

    /// Makes the file whose path is spelled. Its name may not last until the folder is synced again.
    fn make_spelled(&mut self) -> io::Result<SiteFile>
        ensures unsynced { self.new.names_synced ≡ false }
        ensures folder { self.new.folder_synced ≡ self.old.folder_synced }
        ensures access { self.new.access ≡ self.old.access }
        ensures spoiled { self.new.spoiled ≡ self.old.spoiled }
    {
        self.names_synced = false;
        make_file(&self.rt, self.paths.spelled())
    }

    /// Makes the names of the files in the folder last, where that isn't known: at the first write or
    /// sync, since an earlier run may have ended before it did so, and where a file was made. It fails
    /// once names couldn't be synced.
    fn keep_files(&mut self) -> io::Result<()>
        ensures files { OnOk result (self.new.names_synced ≡ true) }
        ensures lost { AreNamesSpoiled self.old.spoiled → OnOk result ⊥ }
        ensures access { self.new.access ≡ self.old.access }
        ensures told { OnOk result (self.new.spoiled ≡ self.old.spoiled) }
        ensures stays { StaysSpoiled self.old.spoiled self.new.spoiled }
    {
        if self.spoiled.has_names() {
            return Err(spoiled_before());
        }
        if self.names_synced {
            return Ok(());
        }
        let outcome = match &self.access {
            Access::Held(folder) => folder.sync_all(),
            _ => return Err(io::Error::from(ErrorKind::WouldBlock)),
        };
        self.spoiled.noted_names(outcome)?;
        self.names_synced = true;
        Ok(())
    }

    /// Makes the name of the folder last, at the first write or sync.
    fn keep_folder(&mut self) -> io::Result<()>
        ensures folder { OnOk result (self.new.folder_synced ≡ true) }
        ensures files { self.new.names_synced ≡ self.old.names_synced }
        ensures access { self.new.access ≡ self.old.access }
        ensures told { OnOk result (self.new.spoiled ≡ self.old.spoiled) }
        ensures stays { StaysSpoiled self.old.spoiled self.new.spoiled }
    {
        if self.folder_synced {
            return Ok(());
        }
        let above = File::open(&self.rt, self.paths.above())?;
        self.spoiled.noted_names(above.sync_all())?;
        self.folder_synced = true;
        Ok(())
    }

    /// Makes all names last, as these two do.
    fn keep_names(&mut self) -> io::Result<()>
        ensures named { OnOk result
            ((self.new.names_synced ≡ true) × (self.new.folder_synced ≡ true)) }
        ensures lost { AreNamesSpoiled self.old.spoiled → OnOk result ⊥ }
        ensures access { self.new.access ≡ self.old.access }
        ensures told { OnOk result (self.new.spoiled ≡ self.old.spoiled) }
        ensures stays { StaysSpoiled self.old.spoiled self.new.spoiled }
    {
        self.keep_files()?;
        self.keep_folder()
    }

    /// Syncs the file of this unit, if it is open. A failure spoils its place.
    fn sync_open(&mut self, unit: &UnitNo) -> io::Result<()>
        ensures spoils { IfErr result (λ error. error_kind error ≢ ErrorKind.Interrupted
            → IsSpoiled self.new.spoiled unit.now) }
        ensures access { self.new.access ≡ self.old.access }
        ensures told { OnOk result (self.new.spoiled ≡ self.old.spoiled) }
        ensures stays { StaysSpoiled self.old.spoiled self.new.spoiled }
    {
        match file_among(&self.slots, unit) {
            Some(file) => self.spoiled.noted(unit, file.sync_data()),
            None => Ok(()),
        }
    }

    /// Syncs all names and files in the folder that is held.
    fn sync_held(&mut self) -> io::Result<()>
        ensures held { OnOk result (self.old.access ≢ Refused) }
        ensures looked { OnOk result (self.old.access ≢ Untouched) }
        ensures named { OnOk result
            ((self.new.names_synced ≡ true) × (self.new.folder_synced ≡ true)) }
        ensures access { self.new.access ≡ self.old.access }
        ensures told { OnOk result (self.new.spoiled ≡ self.old.spoiled) }
        ensures stays { StaysSpoiled self.old.spoiled self.new.spoiled }
    {
        self.find_held()?;
        self.keep_names()?;
        sync_files(&self.rt, &mut self.paths, &self.slots, &mut self.spoiled)
    }
}

impl<R: Files<File = File> + Drop> UnitFiles for Folder<R> {
    ghost use Rattle.mss_files.specs.declared.folder.Access.TheVariants.{Untouched, Refused, Held};
    ghost use Rattle.mss_files.specs.declared.site_file.SiteFile.{SiteFile};

    ghost tells = { ⊥ };

    ghost byte = { λ _ _ _. 0 };

    ghost lasts = { λ _ _. false };

    /// The folder is looked for first. Where it was refused, each call fails, and it stays so.
    fn read_some(&mut self, unit: &UnitNo, at: u64, into: &mut [u8]) -> io::Result<usize>
        ensures within { IfOk result (λ n. n ≤ length into.old) }
        ensures fails { self.old.access ≡ Refused → OnOk result ⊥ }
        ensures looked { OnOk result (self.new.access ≢ Untouched) }
        ensures refused { self.old.access ≡ Refused → self.new.access ≡ Refused }
        ensures stays { StaysSpoiled self.old.spoiled self.new.spoiled }
    {
        self.open_unit(unit, false)?;
        match self.file(unit) {
            Some(file) => file.read_at(into, at),
            None => Ok(0),
        }
    }

    /// Writes into a file whose name lasts, and that of its folder. The folder is looked for first.
    /// Where it was refused, each call fails, and it stays so.
    fn write_some(&mut self, unit: &UnitNo, at: u64, bytes: &[u8]) -> io::Result<usize>
        ensures within { IfOk result (λ n. n ≤ length bytes.now) }
        ensures named { OnOk result
            ((self.new.names_synced ≡ true) × (self.new.folder_synced ≡ true)) }
        ensures fails { self.old.access ≡ Refused → OnOk result ⊥ }
        ensures looked { OnOk result (self.new.access ≢ Untouched) }
        ensures refused { self.old.access ≡ Refused → self.new.access ≡ Refused }
        ensures lost { AreNamesSpoiled self.old.spoiled → OnOk result ⊥ }
        ensures told { OnOk result (self.new.spoiled ≡ self.old.spoiled) }
        ensures stays { StaysSpoiled self.old.spoiled self.new.spoiled }
    {
        self.open_unit(unit, true)?;
        self.keep_names()?;
        match self.file(unit) {
            Some(file) => file.write_at(bytes, at),
            None => Ok(0),
        }
    }

    /// Syncs the file of the unit, if it is there, whoever wrote it. Where it isn't there, nothing was
    /// written. Once a sync of a file at its place failed, each fails, and so does each where the
    /// folder was refused.
    fn sync(&mut self, unit: &UnitNo) -> io::Result<()>
        ensures fails { self.old.access ≡ Refused → OnOk result ⊥ }
        ensures looked { OnOk result (self.new.access ≢ Untouched) }
        ensures refused { self.old.access ≡ Refused → self.new.access ≡ Refused }
        ensures spoiled { IsSpoiled self.old.spoiled unit.now → OnOk result ⊥ }
        ensures told { OnOk result (self.new.spoiled ≡ self.old.spoiled) }
        ensures stays { StaysSpoiled self.old.spoiled self.new.spoiled }
    {
        if self.spoiled.has(unit) {
            return Err(spoiled_before());
        }
        self.open_unit(unit, false)?;
        self.sync_open(unit)
    }

    /// Syncs each file of a unit that is there, and the names of these and of the folder, whoever
    /// wrote them. Once a sync of any file failed, each fails, and so does each where the folder was
    /// refused.
    fn sync_all(&mut self) -> io::Result<()>
        ensures named { (folder : SiteFile) → self.new.access ≡ Held folder → OnOk result
            ((self.new.names_synced ≡ true) × (self.new.folder_synced ≡ true)) }
        ensures fails { self.old.access ≡ Refused → OnOk result ⊥ }
        ensures looked { OnOk result (self.new.access ≢ Untouched) }
        ensures refused { self.old.access ≡ Refused → self.new.access ≡ Refused }
        ensures spoiled { (unit : UnitNo) → IsSpoiled self.old.spoiled unit → OnOk result ⊥ }
        ensures told { OnOk result (self.new.spoiled ≡ self.old.spoiled) }
        ensures stays { StaysSpoiled self.old.spoiled self.new.spoiled }
    {
        if self.spoiled.any() {
            return Err(spoiled_before());
        }
        if !matches!(self.access, Access::Held(_)) {
            self.enter(false)?;
        }
        if matches!(self.access, Access::Absent) {
            return Ok(());
        }
        self.sync_held()
    }
}
