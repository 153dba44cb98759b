//! A disk over the files of a folder.

ghost use Rattle.std.specs.Prelude.{◌≡◌, ◌≤◌, ◌+◌, IfOk, OnOk, length, drop};
ghost use Rattle.std.specs.Option.{option_map};
ghost use Rattle.spf_io.specs.Outside.{HasCause};
ghost use Rattle.spf_disk.specs.Calls.{IsTold};
ghost use Rattle.spf_disk.specs.Calls.FileCall.{Write, Cut, Sync};
ghost use Rattle.spf_disk.specs.Crash.{Only, Elapses, NoMore, IsSynced, TornByWrite, TornByCut};
ghost use Rattle.spf_disk.specs.Image.{OnFile, Written, Kept, IsRead, bytes_of};

use crate::contents::read_at_rest;
use crate::disk::{Disk, DiskFailed, HelperFile};
use crate::folder_fault::FolderFault;
use crate::folder_files::FolderFiles;
use crate::mem_disk::MemDisk;
use crate::writable_files::WritableFiles;
use std::alloc::Global;
use std::fs;

/// Three files. What they held when they were opened, and what is written since, is kept in memory
/// too: reads are served from there, and contracts speak of that. Each write, cut and sync that
/// succeeds is one call of the files, by clause; it is trusted that the operating system keeps them
/// like this. After a call that failed each later one fails.
#[derive(Drop)]
pub struct FilesDisk<F: WritableFiles + Drop> {
    memory: MemDisk,
    files: Option<F>,
    fault: Option<FolderFault>,
    failed: u64,
}

/// A disk over the three files of a folder.
pub type FolderDisk = FilesDisk<FolderFiles>;

impl FilesDisk<FolderFiles> {
    /// Opens the files of the folder for writing, and creates those that are missing. While they
    /// are open, no other disk can open them for writing. Where opening fails, each call of the
    /// disk fails.
    pub fn open(rt: &HostRuntime, folder: &str) -> FolderDisk
        ensures durable { Only (⟦<FolderDisk as Disk>⟧.seen result)
            (⟦<FolderDisk as Disk>⟧.may_leave result) }
        ensures failures { ⟦<FolderDisk as Disk>⟧.failures result ≡ 0 }
    {
        match opened(rt, folder) {
            Ok(disk) => disk,
            Err(fault) => closed(rt.alloc(), fault),
        }
    }

    /// Reads the files of the folder as they are at one moment. Each write and sync fails.
    pub fn open_to_read(rt: &HostRuntime, folder: &str) -> FolderDisk
        ensures durable { Only (⟦<FolderDisk as Disk>⟧.seen result)
            (⟦<FolderDisk as Disk>⟧.may_leave result) }
        ensures failures { ⟦<FolderDisk as Disk>⟧.failures result ≡ 0 }
    {
        match opened_to_read(rt, folder) {
            Ok(disk) => disk,
            Err(fault) => closed(rt.alloc(), fault),
        }
    }
}

impl<F: WritableFiles + Drop> FilesDisk<F> {
    /// Returns why the first call that failed did so.
    pub fn fault(&self) -> Option<&FolderFault>
        ensures { option_map (λ f. f.now) result ≡ self.now.fault }
    {
        self.fault.as_ref()
    }

    /// Counts a call that failed. After it the files are closed.
    fn counted<T>(&mut self, done: Result<T, FolderFault>) -> Result<T, DiskFailed>
        ensures memory { self.new.memory ≡ self.old.memory }
        ensures ok { IfOk result (λ x. done ≡ Ok x) }
        ensures files { IfOk result (λ _. self.new.files ≡ self.old.files) }
        ensures cause { HasCause self.old.failed self.new.failed result }
    {
        match done {
            Ok(value) => Ok(value),
            Err(fault) => {
                self.failed = self.failed.saturating_add(1);
                self.files = None;
                if self.fault.is_none() {
                    self.fault = Some(fault);
                }
                Err(DiskFailed)
            }
        }
    }
}

/// A disk of which each call fails.
fn closed(alloc: Global, fault: FolderFault) -> FolderDisk
    ensures durable { Only (⟦<FolderDisk as Disk>⟧.seen result)
        (⟦<FolderDisk as Disk>⟧.may_leave result) }
    ensures failures { ⟦<FolderDisk as Disk>⟧.failures result ≡ 0 }
{
    FolderDisk {
        memory: MemDisk::new(alloc),
        files: None,
        fault: Some(fault),
        failed: 0,
    }
}

fn opened(rt: &HostRuntime, folder: &str) -> Result<FolderDisk, FolderFault>
    ensures durable { IfOk result (λ d. Only (⟦<FolderDisk as Disk>⟧.seen d)
        (⟦<FolderDisk as Disk>⟧.may_leave d)) }
    ensures failures { IfOk result (λ d. ⟦<FolderDisk as Disk>⟧.failures d ≡ 0) }
{
    let files = FolderFiles::open(rt, folder)?;
    let memory = files.contents(rt.alloc())?.into_memory(rt.alloc())?;
    Ok(FolderDisk {
        memory,
        files: Some(files),
        fault: None,
        failed: 0,
    })
}

fn opened_to_read(rt: &HostRuntime, folder: &str) -> Result<FolderDisk, FolderFault>
    ensures durable { IfOk result (λ d. Only (⟦<FolderDisk as Disk>⟧.seen d)
        (⟦<FolderDisk as Disk>⟧.may_leave d)) }
    ensures failures { IfOk result (λ d. ⟦<FolderDisk as Disk>⟧.failures d ≡ 0) }
{
    let memory = read_at_rest(rt, folder)?.into_memory(rt.alloc())?;
    Ok(FolderDisk {
        memory,
        files: None,
        fault: None,
        failed: 0,
    })
}

/// What is in memory changes before the file does, so that a write that fails counts as begun.
fn write<F: WritableFiles>(
    memory: &mut MemDisk,
    files: &mut Option<F>,
    file: HelperFile,
    at: u64,
    bytes: &[u8],
) -> Result<(), FolderFault>
    requires { at ≤ length (bytes_of (⟦<MemDisk as Disk>⟧.seen memory.old) file) }
    ensures told { OnOk result (IsTold F.calls files.old files.new (Write file at bytes.now)) }
    ensures written { OnOk result (OnFile file (Written at bytes.now)
        (⟦<MemDisk as Disk>⟧.seen memory.old) (⟦<MemDisk as Disk>⟧.seen memory.new)) }
    ensures crash { TornByWrite file at (at + length bytes.now)
        (⟦<MemDisk as Disk>⟧.may_leave memory.old) (⟦<MemDisk as Disk>⟧.may_leave memory.new) }
    ensures time { Elapses (⟦<MemDisk as Disk>⟧.moment memory.old)
        (⟦<MemDisk as Disk>⟧.moment memory.new) (⟦<MemDisk as Disk>⟧.left_since memory.old)
        (⟦<MemDisk as Disk>⟧.left_since memory.new) (⟦<MemDisk as Disk>⟧.may_leave memory.new) }
{
    let Some(files) = files else {
        return Err(FolderFault::ReadOnly);
    };
    memory.write_at(file, at, bytes)?;
    files.write_at(file, at, bytes)?;
    Ok(())
}

fn cut<F: WritableFiles>(
    memory: &mut MemDisk,
    files: &mut Option<F>,
    file: HelperFile,
    count: u64,
) -> Result<(), FolderFault>
    requires { count ≤ length (bytes_of (⟦<MemDisk as Disk>⟧.seen memory.old) file) }
    ensures told { OnOk result (IsTold F.calls files.old files.new (Cut file count)) }
    ensures kept { OnOk result (OnFile file (Kept count)
        (⟦<MemDisk as Disk>⟧.seen memory.old) (⟦<MemDisk as Disk>⟧.seen memory.new)) }
    ensures crash { TornByCut file count (⟦<MemDisk as Disk>⟧.may_leave memory.old)
        (⟦<MemDisk as Disk>⟧.may_leave memory.new) }
    ensures time { Elapses (⟦<MemDisk as Disk>⟧.moment memory.old)
        (⟦<MemDisk as Disk>⟧.moment memory.new) (⟦<MemDisk as Disk>⟧.left_since memory.old)
        (⟦<MemDisk as Disk>⟧.left_since memory.new) (⟦<MemDisk as Disk>⟧.may_leave memory.new) }
{
    let Some(files) = files else {
        return Err(FolderFault::ReadOnly);
    };
    memory.cut(file, count)?;
    files.cut(file, count)?;
    Ok(())
}

/// What is in memory is settled only after the file is.
fn sync<F: WritableFiles>(
    memory: &mut MemDisk,
    files: &mut Option<F>,
    file: HelperFile,
) -> Result<(), FolderFault>
    ensures told { OnOk result (IsTold F.calls files.old files.new (Sync file)) }
    ensures durable { OnOk result (IsSynced file (⟦<MemDisk as Disk>⟧.seen memory.old)
        (⟦<MemDisk as Disk>⟧.may_leave memory.new)) }
    ensures seen { ⟦<MemDisk as Disk>⟧.seen memory.new
        ≡ ⟦<MemDisk as Disk>⟧.seen memory.old }
    ensures crash { NoMore (⟦<MemDisk as Disk>⟧.may_leave memory.old)
        (⟦<MemDisk as Disk>⟧.may_leave memory.new) }
    ensures time { Elapses (⟦<MemDisk as Disk>⟧.moment memory.old)
        (⟦<MemDisk as Disk>⟧.moment memory.new) (⟦<MemDisk as Disk>⟧.left_since memory.old)
        (⟦<MemDisk as Disk>⟧.left_since memory.new) (⟦<MemDisk as Disk>⟧.may_leave memory.new) }
{
    let Some(files) = files else {
        return Err(FolderFault::ReadOnly);
    };
    files.sync(file)?;
    memory.sync(file)?;
    Ok(())
}

/// A call that looks at what is in memory.
fn length(
    memory: &mut MemDisk,
    fault: Option<&FolderFault>,
    file: HelperFile,
) -> Result<u64, FolderFault>
    ensures length { IfOk result
        (λ n. n ≡ length (bytes_of (⟦<MemDisk as Disk>⟧.seen memory.old) file)) }
    ensures seen { ⟦<MemDisk as Disk>⟧.seen memory.new
        ≡ ⟦<MemDisk as Disk>⟧.seen memory.old }
    ensures crash { NoMore (⟦<MemDisk as Disk>⟧.may_leave memory.old)
        (⟦<MemDisk as Disk>⟧.may_leave memory.new) }
    ensures time { Elapses (⟦<MemDisk as Disk>⟧.moment memory.old)
        (⟦<MemDisk as Disk>⟧.moment memory.new) (⟦<MemDisk as Disk>⟧.left_since memory.old)
        (⟦<MemDisk as Disk>⟧.left_since memory.new) (⟦<MemDisk as Disk>⟧.may_leave memory.new) }
{
    if let Some(fault) = fault {
        return Err(*fault);
    }
    Ok(memory.length(file)?)
}

fn read(
    memory: &mut MemDisk,
    fault: Option<&FolderFault>,
    file: HelperFile,
    at: u64,
    buf: &mut [u8],
) -> Result<usize, FolderFault>
    ensures octets { IfOk result
        (λ n. IsRead (drop at (bytes_of (⟦<MemDisk as Disk>⟧.seen memory.old) file)) n buf.new) }
    ensures seen { ⟦<MemDisk as Disk>⟧.seen memory.new
        ≡ ⟦<MemDisk as Disk>⟧.seen memory.old }
    ensures crash { NoMore (⟦<MemDisk as Disk>⟧.may_leave memory.old)
        (⟦<MemDisk as Disk>⟧.may_leave memory.new) }
    ensures time { Elapses (⟦<MemDisk as Disk>⟧.moment memory.old)
        (⟦<MemDisk as Disk>⟧.moment memory.new) (⟦<MemDisk as Disk>⟧.left_since memory.old)
        (⟦<MemDisk as Disk>⟧.left_since memory.new) (⟦<MemDisk as Disk>⟧.may_leave memory.new) }
{
    if let Some(fault) = fault {
        return Err(*fault);
    }
    Ok(memory.read(file, at, buf)?)
}

impl<F: WritableFiles + Drop> Disk for FilesDisk<F> {
    ghost use Rattle.spf_disk.specs.MemoryDisk.{moments, only_now, seen_left};
    ghost use mathlib.Core.Logic.{inl};

    ghost seen = { λ d. ⟦<MemDisk as Disk>⟧.seen d.memory };

    ghost may_leave = { λ d. ⟦<MemDisk as Disk>⟧.may_leave d.memory };

    ghost moment = { λ d. ⟦<MemDisk as Disk>⟧.moment d.memory };

    ghost left_since = { λ d. ⟦<MemDisk as Disk>⟧.left_since d.memory };

    ghost failures = { λ d. d.failed };

    ghost seen_is_left = { λ d. seen_left d.memory.files };

    ghost counts_now = { λ d t c le now. inl now };

    ghost only_now = { λ d c left. only_now (moments d.memory.past.items) d.memory.files c left };

    fn length(&mut self, file: HelperFile) -> Result<u64, DiskFailed> {
        let done = length(&mut self.memory, self.fault.as_ref(), file);
        self.counted(done)
    }

    fn read(&mut self, file: HelperFile, at: u64, buf: &mut [u8]) -> Result<usize, DiskFailed> {
        let done = read(&mut self.memory, self.fault.as_ref(), file, at, buf);
        self.counted(done)
    }

    fn write_at(&mut self, file: HelperFile, at: u64, bytes: &[u8]) -> Result<(), DiskFailed> {
        let done = write(&mut self.memory, &mut self.files, file, at, bytes);
        self.counted(done)
    }

    fn cut(&mut self, file: HelperFile, count: u64) -> Result<(), DiskFailed> {
        let done = cut(&mut self.memory, &mut self.files, file, count);
        self.counted(done)
    }

    fn sync(&mut self, file: HelperFile) -> Result<(), DiskFailed> {
        let done = sync(&mut self.memory, &mut self.files, file);
        self.counted(done)
    }
}
