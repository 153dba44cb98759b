//! The open files of a folder.

use crate::contents::{Contents, path_of, read_whole};
use crate::disk::HelperFile;
use crate::folder_fault::FolderFault;
use crate::writable_files::WritableFiles;
use std::alloc::Global;
use std::fs::{self, File, OpenOptions, TryLockError};
use std::io;
use std::os::fd::AsRawFd;
use std::os::unix::fs::{FileExt, OpenOptionsExt};

/// Who may read and write a file that is created: its owner.
const OWNER_ONLY: u32 = 0o600;

/// The highest descriptor of a standard stream.
const STANDARD_ERROR: i32 = 2;

/// The three files of a folder, the gates locked.
#[derive(Drop)]
pub struct FolderFiles {
    gates: File,
    first: File,
    second: File,
}

impl FolderFiles {
    /// Opens the files, creates those that are missing, and takes the lock of the gates. After that
    /// the files and their names are on the disk.
    pub(crate) fn open(rt: &HostRuntime, folder: &str) -> Result<FolderFiles, FolderFault> {
        let directory = File::open(rt, folder)?;
        let gates = open_file(rt, folder, HelperFile::Gates)?;
        lock(&gates)?;
        let first = open_file(rt, folder, HelperFile::First)?;
        let second = open_file(rt, folder, HelperFile::Second)?;
        settle(&gates)?;
        settle(&first)?;
        settle(&second)?;
        directory.sync_all()?;
        Ok(FolderFiles {
            gates,
            first,
            second,
        })
    }

    fn file(&self, file: HelperFile) -> &File {
        match file {
            HelperFile::Gates => &self.gates,
            HelperFile::First => &self.first,
            HelperFile::Second => &self.second,
        }
    }

    pub(crate) fn contents(&self, alloc: Global) -> Result<Contents, FolderFault> {
        Ok(Contents {
            gates: read_whole(alloc, &self.gates)?,
            first: read_whole(alloc, &self.first)?,
            second: read_whole(alloc, &self.second)?,
        })
    }
}

impl WritableFiles for FolderFiles {
    ghost use Rattle.std.specs.Prelude.{None};

    // What the system is asked for is told to nobody.
    ghost calls = { λ _. None };

    fn write_at(&mut self, file: HelperFile, at: u64, bytes: &[u8]) -> io::Result<()> {
        self.file(file).write_all_at(bytes, at)
    }

    fn cut(&mut self, file: HelperFile, count: u64) -> io::Result<()> {
        self.file(file).set_len(count)
    }

    fn sync(&mut self, file: HelperFile) -> io::Result<()> {
        self.file(file).sync_all()
    }
}

/// Opens a file of the folder, and creates it where it is missing. No symbolic link is followed.
fn open_file(rt: &HostRuntime, folder: &str, file: HelperFile) -> Result<File, FolderFault> {
    let path = path_of(rt.alloc(), folder, file)?;
    let opened = make_or_open(rt, path.as_str())?;
    // What is meant for a standard stream that is closed must not be written to the file.
    if opened.as_raw_fd() <= STANDARD_ERROR {
        return Ok(opened.try_clone()?);
    }
    Ok(opened)
}

fn make_or_open(rt: &HostRuntime, path: &str) -> Result<File, FolderFault> {
    let made = OpenOptions::new()
        .read(true)
        .write(true)
        .create_new(true)
        .mode(OWNER_ONLY)
        .open(rt, path);
    match made {
        Ok(file) => Ok(file),
        Err(error) if error.kind() == io::ErrorKind::AlreadyExists => open_existing(rt, path),
        Err(error) => Err(FolderFault::Io(error)),
    }
}

fn open_existing(rt: &HostRuntime, path: &str) -> Result<File, FolderFault> {
    if !fs::symlink_metadata(rt, path)?.is_file() {
        return Err(FolderFault::NotAFile);
    }
    Ok(OpenOptions::new().read(true).write(true).open(rt, path)?)
}

/// The lock is held as long as the file is open.
fn lock(file: &File) -> Result<(), FolderFault> {
    match file.try_lock() {
        Ok(()) => Ok(()),
        Err(TryLockError::WouldBlock) => Err(FolderFault::InUse),
        Err(TryLockError::Error(error)) => Err(FolderFault::Io(error)),
    }
}

/// Syncs the file, and has the system read it from the disk the next time: after an earlier sync
/// that failed, the system's copy may not be what the disk holds.
fn settle(file: &File) -> io::Result<()> {
    file.sync_all()?;
    let advised = libc::posix_fadvise(file.as_raw_fd(), 0, 0, libc::POSIX_FADV_DONTNEED);
    if advised != 0 {
        return Err(io::Error::from_raw_os_error(advised));
    }
    Ok(())
}
