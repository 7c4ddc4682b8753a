// A site whose units are files.
ghost use Rattle.std.specs.Prelude.{◌≡◌, ◌≢◌, ◌+◌, ◌≤◌, true, length, is_err};
ghost use Rattle.std.specs.Prelude.{IfOk, OnOk, OnErr, string_bytes};
ghost use Rattle.mss_base.specs.Counts.{HasCause, next_count, count_after};
ghost use Rattle.mss_files.specs.Files.{file_place, bytes_at, ChangesOnly};
ghost use Rattle.mss_files.specs.Noted.{slot_of};
ghost use Rattle.mss_files.specs.ShortBlocks.{AreShort, is_staging};
ghost use Rattle.mss_files.specs.SiteBlocks.{KeepsBlock, IsKnownShort, SameKept, Shows, lent};
ghost use Rattle.mss_base.specs.declared.place.BlockPlace.{BlockPlace};

use crate::site_blocks::SiteBlocks;
use crate::transfer::{sync_unit, sync_units};
use crate::{Folder, UnitFiles};
use mss_base::{BLOCK_BYTES, BlockPlace, Failed, NoMemory, Site, UnitNo};
use std::alloc::Global;
use std::fs::File;
use std::marker::Model;
use std::rt::Files;

/// A site in files, one for each unit. Block n begins at byte 16,384 n; behind a file's end are
/// zeros.
///
/// What is written is firm once its unit, or all, is synced. As many blocks as 17 cylinders have
/// are kept, those that were brought last of their numbers by 323, and are brought again without a
/// call of the files. Of a block that is known to end in zeros only the front is read and kept.
/// Clauses on bytes speak of files that tell; to the layers above no site in files tells.
#[derive(Drop)]
pub struct FileSite<F: UnitFiles> {
    files: F,
    kept: SiteBlocks,
    writes: u64,
    faults: u64,
}

impl<F: UnitFiles> Model for FileSite<F> {
    ghost use Rattle.mss_files.specs.FileSites.{FileSiteValue};
    ghost use Rattle.mss_files.specs.SiteBlocks.{AreHeld};

    ghost Value = { FileSiteValue F };

    ghost view = { λ s. record {
      files = s.files;
      kept = s.kept;
      writes = s.writes;
      faults = s.faults;
    } };

    ghost invariant = { λ s. F.tells → AreHeld (F.byte s.files) s.kept };
}

impl<R: Files<File = File> + AllocGlobal + Drop> FileSite<Folder<R>> {
    /// The site in this folder. It touches no file before the first read or write.
    pub fn at(rt: R, folder: &str) -> Result<Self, NoMemory>
        ensures path { IfOk result
            (λ site. string_bytes site.files.paths.folder ≡ folder.now) }
        ensures kept { IfOk result (λ site.
            (place : BlockPlace) → KeepsBlock site.kept place → ⊥) }
        ensures unwritten { IfOk result (λ site. site.writes ≡ 0) }
        ensures unfailed { IfOk result (λ site. site.faults ≡ 0) }
    {
        let alloc = rt.alloc();
        FileSite::over(alloc, Folder::at(rt, folder)?)
    }
}

impl<F: UnitFiles + Drop> FileSite<F> {
    /// The site in these files. It keeps no block yet.
    pub fn over(alloc: Global, files: F) -> Result<Self, NoMemory>
        ensures files { IfOk result (λ site. site.files ≡ files) }
        ensures kept { IfOk result (λ site.
            (place : BlockPlace) → KeepsBlock site.kept place → ⊥) }
        ensures unwritten { IfOk result (λ site. site.writes ≡ 0) }
        ensures unfailed { IfOk result (λ site. site.faults ≡ 0) }
    {
        let kept = SiteBlocks::new(alloc)?;
        Ok(FileSite {
            files,
            kept,
            writes: 0,
            faults: 0,
        })
    }
}

impl<F: UnitFiles> FileSite<F> {
    fn count_fault(&mut self) -> Failed
        ensures counted { self.new ≡ record self.old { faults = next_count self.old.faults } }
        ensures later { self.old.faults ≤ self.new.faults }
    {
        self.faults = self.faults.saturating_add(1);
        Failed
    }
}

impl<F: UnitFiles> Site for FileSite<F> {
    ghost use Rattle.std.specs.Prelude.{[], IsOk, Bool, ◌≡◌, false};
    ghost use Rattle.mss_base.specs.declared.place.UnitNo.{UnitNo};
    ghost use Rattle.mss_files.specs.SiteBlocks.{length-lent};

    ghost tells = { ⊥ };

    ghost told = { λ _. record { start = λ _ _. []; log = [] } };

    ghost spare = { λ _. 4294967295 };

    ghost writes = { λ s. s.writes };

    ghost faults = { λ s. s.faults };

    ghost never_fails_but = { λ s _. F.never_fails s.files };

    ghost brought = { λ s. lent s.kept };

    ghost whole = { λ _ _ _ none. absurd none };

    ghost full = { λ s. length-lent s.kept };

    ghost counted = { λ _ none. absurd none };

    /// Files take any number of writes.
    fn reserve(&mut self, count: u32) -> Result<(), NoMemory>
        ensures works { IsOk result }
        ensures room { OnOk result (count ≤ 4294967295) }
        ensures unchanged { self.new ≡ self.old }
    {
        let _any = count;
        Ok(())
    }

    /// Reads the front of a block, as much as the buffer takes. What the file doesn't reach is zeros.
    /// It fails where a call of the files fails. A block that is kept is read without one.
    fn read(&mut self, unit: UnitNo, block: u32, into: &mut [u8]) -> Result<(), Failed>
        requires { length into.old ≤ BLOCK_BYTES }
        ensures bytes { F.tells → OnOk result (into.new
            ≡ bytes_at (F.byte self.old.files unit) (file_place block 0) (length into.old)) }
        ensures at_once { KeepsBlock self.old.kept (record { unit = unit; block = block })
            → IsOk result × (self.new ≡ self.old) }
        ensures stays { self.new.kept ≡ self.old.kept }
        ensures kept { F.tells → F.byte self.new.files ≡ F.byte self.old.files }
        ensures writes { self.new.writes ≡ self.old.writes }
        ensures counted { self.new.faults ≡ count_after (is_err result) self.old.faults }
        ensures cause { HasCause self.old.faults self.new.faults result }
        ensures works { F.never_fails self.old.files
            → IsOk result × F.never_fails self.new.files }
    {
        let place = BlockPlace { unit, block };
        match self.kept.read(&mut self.files, &place, into) {
            Ok(()) => Ok(()),
            Err(_) => Err(self.count_fault()),
        }
    }

    /// Brings a block, as far as the file reaches; the rest is zeros. It fails where a call of the
    /// files fails, and then this block isn't kept. A block that is kept is brought without one.
    fn bring(&mut self, unit: UnitNo, block: u32) -> Result<(), Failed>
        ensures bytes { F.tells → OnOk result
            (lent self.new.kept
            ≡ bytes_at (F.byte self.old.files unit) (file_place block 0) 16384) }
        ensures at_once { KeepsBlock self.old.kept (record { unit = unit; block = block })
            → IsOk result × (self.new.files ≡ self.old.files)
            × SameKept self.old.kept self.new.kept }
        ensures here { OnOk result
            (KeepsBlock self.new.kept (record { unit = unit; block = block })) }
        ensures shown { OnOk result
            (Shows self.new.kept (record { unit = unit; block = block })) }
        ensures lost { OnErr result
            (KeepsBlock self.new.kept (record { unit = unit; block = block }) → ⊥) }
        ensures others { (other : BlockPlace)
            → slot_of other ≢ slot_of (record { unit = unit; block = block })
            → KeepsBlock self.old.kept other → KeepsBlock self.new.kept other }
        ensures kept { F.tells → F.byte self.new.files ≡ F.byte self.old.files }
        ensures writes { self.new.writes ≡ self.old.writes }
        ensures counted { self.new.faults ≡ count_after (is_err result) self.old.faults }
        ensures cause { HasCause self.old.faults self.new.faults result }
        ensures works { F.never_fails self.old.files
            → IsOk result × F.never_fails self.new.files }
    {
        let place = BlockPlace { unit, block };
        match self.kept.bring(&mut self.files, &place) {
            Ok(()) => Ok(()),
            Err(_) => Err(self.count_fault()),
        }
    }

    fn brought(&self) -> &[u8] {
        self.kept.brought()
    }

    /// Writes into a block. The bytes are firm once their unit is synced. It fails where a call of
    /// the files fails. A block that is kept gets the bytes as well, and isn't kept any more where
    /// writing into it failed.
    fn write(&mut self, unit: UnitNo, block: u32, offset: u16, bytes: &[u8]) -> Result<(), Failed>
        requires inside { offset + length bytes.now ≤ BLOCK_BYTES }
        ensures bytes { F.tells → OnOk result (bytes_at (F.byte self.new.files unit)
            (file_place block offset) (length bytes.now) ≡ bytes.now) }
        ensures only { F.tells → ChangesOnly unit (file_place block offset) (length bytes.now)
            (F.byte self.old.files) (F.byte self.new.files) }
        ensures stays { OnOk result (self.new.kept.whole.places ≡ self.old.kept.whole.places) }
        ensures fronts { OnOk result (offset + length bytes.now ≤ 1024
            → (self.new.kept.fronts.places ≡ self.old.kept.fronts.places)
            × (self.new.kept.short ≡ self.old.kept.short)) }
        ensures learned { OnOk result (is_staging unit ≡ true → AreShort bytes.now
            → IsKnownShort self.new.kept (record { unit = unit; block = block })) }
        ensures others { (other : BlockPlace)
            → slot_of other ≢ slot_of (record { unit = unit; block = block })
            → KeepsBlock self.old.kept other → KeepsBlock self.new.kept other }
        ensures pieces { self.new.kept.whole.pieces ≡ self.old.kept.whole.pieces }
        ensures lent { OnOk result (self.new.kept.lent ≡ self.old.kept.lent) }
        ensures lost { OnErr result
            (KeepsBlock self.new.kept (record { unit = unit; block = block }) → ⊥) }
        ensures writes { self.new.writes ≡ next_count self.old.writes }
        ensures kept { self.old.writes ≤ self.new.writes }
        ensures counted { self.new.faults ≡ count_after (is_err result) self.old.faults }
        ensures cause { HasCause self.old.faults self.new.faults result }
        ensures works { F.never_fails self.old.files
            → IsOk result × F.never_fails self.new.files }
    {
        self.writes = self.writes.saturating_add(1);
        let place = BlockPlace { unit, block };
        match self.kept.write(&mut self.files, &place, offset, bytes) {
            Ok(()) => Ok(()),
            Err(_) => Err(self.count_fault()),
        }
    }

    /// Makes firm all that was written to a unit. It fails where a call of the files fails.
    fn sync(&mut self, unit: UnitNo) -> Result<(), Failed>
        ensures lasts { F.tells → OnOk result (F.lasts self.new.files unit ≡ true) }
        ensures bytes { F.tells → F.byte self.new.files ≡ F.byte self.old.files }
        ensures stays { self.new.kept ≡ self.old.kept }
        ensures writes { self.new.writes ≡ next_count self.old.writes }
        ensures kept { self.old.writes ≤ self.new.writes }
        ensures counted { self.new.faults ≡ count_after (is_err result) self.old.faults }
        ensures cause { HasCause self.old.faults self.new.faults result }
        ensures works { F.never_fails self.old.files
            → IsOk result × F.never_fails self.new.files }
    {
        self.writes = self.writes.saturating_add(1);
        match sync_unit(&mut self.files, &unit) {
            Ok(()) => Ok(()),
            Err(_) => Err(self.count_fault()),
        }
    }

    /// Makes firm all that was written, by this run or an earlier one. It fails where a call of the
    /// files fails.
    fn sync_all(&mut self) -> Result<(), Failed>
        ensures lasts { F.tells → OnOk result
            ((unit : UnitNo) → F.lasts self.new.files unit ≡ true) }
        ensures bytes { F.tells → F.byte self.new.files ≡ F.byte self.old.files }
        ensures stays { self.new.kept ≡ self.old.kept }
        ensures writes { self.new.writes ≡ next_count self.old.writes }
        ensures kept { self.old.writes ≤ self.new.writes }
        ensures counted { self.new.faults ≡ count_after (is_err result) self.old.faults }
        ensures cause { HasCause self.old.faults self.new.faults result }
        ensures works { F.never_fails self.old.files
            → IsOk result × F.never_fails self.new.files }
    {
        self.writes = self.writes.saturating_add(1);
        match sync_units(&mut self.files) {
            Ok(()) => Ok(()),
            Err(_) => Err(self.count_fault()),
        }
    }

    fn writes(&self) -> u64 {
        self.writes
    }

    fn faults(&self) -> u64 {
        self.faults
    }
}
