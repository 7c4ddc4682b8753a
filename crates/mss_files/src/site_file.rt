// The open files of a site.
ghost use Rattle.std.specs.Prelude.{◌≤◌, length, IfOk, pos, ◌<ℤ◌};
ghost use Rattle.std.specs.Fd.{file_raw_fd};

use std::fs::{File, OpenOptions};
use std::io::ErrorKind;
use std::os::fd::AsRawFd;
use std::os::unix::fs::{FileExt, MetadataExt};
use std::rt::Files;
use std::{fs, io};

/// A file of a site, or its folder, that is open. Its descriptor is none of the three standard
/// ones, so what is put to standard output never goes into a file of the site.
#[derive(Drop)]
pub struct SiteFile {
    file: File,
    ghost apart: { pos 2 <ℤ file_raw_fd file },
}

impl SiteFile {
    /// Refuses a file that was given a standard descriptor.
    fn of(file: File) -> io::Result<SiteFile> {
        if file.as_raw_fd() > 2 {
            return Ok(SiteFile { file });
        }
        Err(io::Error::from(ErrorKind::InvalidInput))
    }

    /// Opens a file, or a folder.
    pub fn open<R: Files<File = File>>(
        rt: &R,
        how: &OpenOptions,
        path: &str,
    ) -> io::Result<SiteFile> {
        SiteFile::of(how.open(rt, path)?)
    }

    /// Whether this is the file, or the folder, that stands at a path.
    pub fn is_at<R: Files<File = File>>(&self, rt: &R, path: &str) -> io::Result<bool> {
        let here = self.file.metadata()?;
        let there = fs::metadata(rt, path)?;
        Ok(here.dev() == there.dev() && here.ino() == there.ino())
    }

    /// Locks it until it is closed. Where another open of it holds a lock, that is an error at
    /// once.
    pub fn lock(&self) -> io::Result<()> {
        self.file.try_lock()?;
        Ok(())
    }

    pub fn read_at(&self, into: &mut [u8], at: u64) -> io::Result<usize>
        ensures { IfOk result (λ n. n ≤ length into.old) }
    {
        self.file.read_at(into, at)
    }

    pub fn write_at(&self, bytes: &[u8], at: u64) -> io::Result<usize>
        ensures { IfOk result (λ n. n ≤ length bytes.now) }
    {
        self.file.write_at(bytes, at)
    }

    /// Makes its bytes last.
    pub fn sync_data(&self) -> io::Result<()> {
        self.file.sync_data()
    }

    /// Makes all of it last; of a folder, the names in it.
    pub fn sync_all(&self) -> io::Result<()> {
        self.file.sync_all()
    }
}

/// Takes the standard descriptors that were closed when the program began. The system gives the
/// lowest number that is free, so no file that is opened later gets one of them.
///
/// They are taken by the root folder, of which each read and write fails, as of a closed
/// descriptor: input and output that aren't there stay faults.
pub fn guard_standard_descriptors<R: Files<File = File>>(
    rt: &R,
    guards: &mut [Option<File>; 3],
) -> io::Result<()> {
    for guard in guards.iter_mut() {
        let root = File::open(rt, "/")?;
        if root.as_raw_fd() > 2 {
            return Ok(());
        }
        *guard = Some(root);
    }
    Ok(())
}
