//! A disk in memory, which can be crashed.

ghost use Rattle.std.specs.Prelude.{◌≡◌, ◌++◌, ◌∷◌, ◌+◌, ◌≤◌, [], true, Some, None};
ghost use Rattle.std.specs.Prelude.{length, drop, IfOk, IsOk, OnOk, OnErr};
ghost use Rattle.spf_io.specs.Outside.{HasCause};
ghost use Rattle.spf_disk.specs.Crash.{Only, Elapses, NoMore, IsSynced, TornByWrite, TornByCut};
ghost use Rattle.spf_disk.specs.Image.{IsRead, OnFile, Written, Kept, bytes_of};
ghost use Rattle.spf_disk.specs.MemoryDisk.{state_of, with_state, image_of, IsLeft, LeftSince};
ghost use Rattle.spf_disk.specs.MemoryDisk.{IsCrashed, moments};
ghost use Rattle.spf_disk.specs.Stopping.{Stops, passes, one_less};

use crate::disk::{Disk, DiskFailed, HelperFile};
use crate::mem_file::MemFile;
use spf_io::OutOfMemory;
use std::alloc::Global;
use std::snapshot::Snapshot;

/// The three files.
#[derive(Debug, Drop)]
struct MemFiles {
    gates: MemFile,
    first: MemFile,
    second: MemFile,
}

impl MemFiles {
    ghost use Rattle.spf_disk.specs.MemoryDisk.{state_of, with_state};

    fn new(alloc: Global) -> MemFiles
        ensures { (image_of result ≡ record { gates = []; first = []; second = [] })
            × (result ≡ record {
              gates = record { bytes = []; settled = [] };
              first = record { bytes = []; settled = [] };
              second = record { bytes = []; settled = [] };
            }) }
    {
        MemFiles {
            gates: MemFile::new(alloc),
            first: MemFile::new(alloc),
            second: MemFile::new(alloc),
        }
    }

    fn holding(
        alloc: Global,
        gates: Vec<u8>,
        first: Vec<u8>,
        second: Vec<u8>,
    ) -> Result<MemFiles, OutOfMemory>
        ensures held { IfOk result (λ f. image_of f ≡ record {
          gates = gates.items;
          first = first.items;
          second = second.items;
        }) }
        ensures durable { IfOk result (λ f. Only (image_of f) (IsLeft f)) }
    {
        Ok(MemFiles {
            gates: MemFile::holding(alloc, gates)?,
            first: MemFile::holding(alloc, first)?,
            second: MemFile::holding(alloc, second)?,
        })
    }

    fn file(&self, file: HelperFile) -> &MemFile
        ensures { result.now ≡ state_of self.now file }
    {
        match file {
            HelperFile::Gates => &self.gates,
            HelperFile::First => &self.first,
            HelperFile::Second => &self.second,
        }
    }

    fn set(&mut self, file: HelperFile, state: MemFile)
        ensures { self.new ≡ with_state file state self.old }
    {
        match file {
            HelperFile::Gates => self.gates = state,
            HelperFile::First => self.first = state,
            HelperFile::Second => self.second = state,
        }
    }
}

/// A disk in memory. A call that runs out of memory fails. What it was before each change, of which
/// contracts speak, takes no memory.
#[derive(Drop)]
pub struct MemDisk {
    alloc: Global,
    files: MemFiles,
    past: Vec<Snapshot<MemFiles>>,
    calls_left: Option<u64>,
    failed: u64,
}

/// Takes one of the calls that are left.
fn take_call(calls_left: &mut Option<u64>) -> bool
    ensures passed { result ≡ passes calls_left.old }
    ensures counted { calls_left.new ≡ one_less calls_left.old }
{
    match *calls_left {
        None => true,
        Some(0) => false,
        Some(left) => {
            *calls_left = Some(left - 1);
            true
        }
    }
}

/// Replaces a file by another. What the files were is kept.
fn change(
    files: &mut MemFiles,
    past: &mut Vec<Snapshot<MemFiles>>,
    file: HelperFile,
    state: MemFile,
) -> Result<(), OutOfMemory>
    ensures ok { OnOk result (files.new ≡ with_state file state files.old) }
    ensures kept { OnOk result
        (moments past.new.items ≡ moments past.old.items ++ files.old ∷ []) }
    ensures err { OnErr result (files.new ≡ files.old) }
    ensures kept_err { OnErr result (past.new.items ≡ past.old.items) }
{
    past.push(Snapshot::of(files))?;
    files.set(file, state);
    Ok(())
}

impl MemDisk {
    /// Returns a disk with three empty files.
    pub fn new(alloc: Global) -> MemDisk
        ensures empty { ⟦<MemDisk as Disk>⟧.seen result
            ≡ record { gates = []; first = []; second = [] } }
        ensures durable { Only (⟦<MemDisk as Disk>⟧.seen result)
            (⟦<MemDisk as Disk>⟧.may_leave result) }
        ensures failures { ⟦<MemDisk as Disk>⟧.failures result ≡ 0 }
        ensures passes { ⟦<MemDisk as Disk>⟧.calls_left result ≡ None }
    {
        MemDisk {
            alloc,
            files: MemFiles::new(alloc),
            past: Vec::new(alloc),
            calls_left: None,
            failed: 0,
        }
    }

    /// Returns a disk whose files hold these bytes, of which nothing is pending.
    pub fn holding(
        alloc: Global,
        gates: Vec<u8>,
        first: Vec<u8>,
        second: Vec<u8>,
    ) -> Result<MemDisk, OutOfMemory>
        ensures held { IfOk result (λ d. ⟦<MemDisk as Disk>⟧.seen d ≡ record {
          gates = gates.items;
          first = first.items;
          second = second.items;
        }) }
        ensures durable { IfOk result (λ d. Only (⟦<MemDisk as Disk>⟧.seen d)
            (⟦<MemDisk as Disk>⟧.may_leave d)) }
        ensures failures { IfOk result (λ d. ⟦<MemDisk as Disk>⟧.failures d ≡ 0) }
        ensures passes { IfOk result (λ d. ⟦<MemDisk as Disk>⟧.calls_left d ≡ None) }
    {
        Ok(MemDisk {
            alloc,
            files: MemFiles::holding(alloc, gates, first, second)?,
            past: Vec::new(alloc),
            calls_left: None,
            failed: 0,
        })
    }

    /// Returns a disk with three empty files, which lets `after` calls through and then fails each.
    pub fn stopping(alloc: Global, after: u64) -> MemDisk
        ensures empty { ⟦<MemDisk as Disk>⟧.seen result
            ≡ record { gates = []; first = []; second = [] } }
        ensures durable { Only (⟦<MemDisk as Disk>⟧.seen result)
            (⟦<MemDisk as Disk>⟧.may_leave result) }
        ensures failures { ⟦<MemDisk as Disk>⟧.failures result ≡ 0 }
        ensures stops { ⟦<MemDisk as Disk>⟧.calls_left result ≡ Some after }
    {
        MemDisk {
            alloc,
            files: MemFiles::new(alloc),
            past: Vec::new(alloc),
            calls_left: Some(after),
            failed: 0,
        }
    }
}

fn write_file(
    alloc: Global,
    files: &mut MemFiles,
    past: &mut Vec<Snapshot<MemFiles>>,
    file: HelperFile,
    at: usize,
    piece: &[u8],
) -> Result<(), OutOfMemory>
    requires { at ≤ length (bytes_of (image_of files.old) file) }
    ensures written { OnOk result
        (OnFile file (Written at piece.now) (image_of files.old) (image_of files.new)) }
    ensures crash { TornByWrite file at (at + length piece.now) (IsLeft files.old)
        (IsLeft files.new) }
    ensures time { Elapses (length (moments past.old.items)) (length (moments past.new.items))
        (LeftSince (moments past.old.items) files.old)
        (LeftSince (moments past.new.items) files.new) (IsLeft files.new) }
{
    let state = files.file(file).written(alloc, at, piece)?;
    change(files, past, file, state)?;
    Ok(())
}

fn cut_file(
    alloc: Global,
    files: &mut MemFiles,
    past: &mut Vec<Snapshot<MemFiles>>,
    file: HelperFile,
    count: usize,
) -> Result<(), OutOfMemory>
    requires { count ≤ length (bytes_of (image_of files.old) file) }
    ensures kept { OnOk result
        (OnFile file (Kept count) (image_of files.old) (image_of files.new)) }
    ensures crash { TornByCut file count (IsLeft files.old) (IsLeft files.new) }
    ensures time { Elapses (length (moments past.old.items)) (length (moments past.new.items))
        (LeftSince (moments past.old.items) files.old)
        (LeftSince (moments past.new.items) files.new) (IsLeft files.new) }
{
    let state = files.file(file).kept(alloc, count)?;
    change(files, past, file, state)?;
    Ok(())
}

fn sync_file(
    alloc: Global,
    files: &mut MemFiles,
    past: &mut Vec<Snapshot<MemFiles>>,
    file: HelperFile,
) -> Result<(), OutOfMemory>
    ensures durable { OnOk result (IsSynced file (image_of files.old) (IsLeft files.new)) }
    ensures seen { image_of files.new ≡ image_of files.old }
    ensures crash { NoMore (IsLeft files.old) (IsLeft files.new) }
    ensures time { Elapses (length (moments past.old.items)) (length (moments past.new.items))
        (LeftSince (moments past.old.items) files.old)
        (LeftSince (moments past.new.items) files.new) (IsLeft files.new) }
{
    let state = files.file(file).synced(alloc)?;
    change(files, past, file, state)?;
    Ok(())
}

fn read_into(bytes: &[u8], at: usize, buf: &mut [u8]) -> usize
    ensures { IsRead (drop at bytes.now) result buf.new }
{
    if at >= bytes.len() {
        return 0;
    }
    let rest = &bytes[at..];
    let count = rest.len().min(buf.len());
    buf[..count].copy_from_slice(&rest[..count]);
    count
}

impl MemFiles {
    /// Files with these bytes, of which nothing is pending.
    fn restarted(&self, alloc: Global, fill: u8) -> Result<MemFiles, OutOfMemory>
        ensures crashed { IfOk result (λ f. IsCrashed fill self.now (image_of f)) }
        ensures durable { IfOk result (λ f. Only (image_of f) (IsLeft f)) }
    {
        Ok(MemFiles {
            gates: self.gates.filled(alloc, fill)?,
            first: self.first.filled(alloc, fill)?,
            second: self.second.filled(alloc, fill)?,
        })
    }
}

impl MemDisk {
    /// Returns the disk after a crash that left as many octets as it could, and `fill` wherever it
    /// could leave any.
    pub fn crash(&self, fill: u8) -> Result<MemDisk, OutOfMemory>
        ensures left { IfOk result
            (λ d. ⟦<MemDisk as Disk>⟧.may_leave self.now (⟦<MemDisk as Disk>⟧.seen d)) }
        ensures durable { IfOk result (λ d. Only (⟦<MemDisk as Disk>⟧.seen d)
            (⟦<MemDisk as Disk>⟧.may_leave d)) }
        ensures filled { IfOk result
            (λ d. IsCrashed fill self.now.files (⟦<MemDisk as Disk>⟧.seen d)) }
        ensures failures { IfOk result (λ d. ⟦<MemDisk as Disk>⟧.failures d ≡ 0) }
        ensures passes { IfOk result (λ d. ⟦<MemDisk as Disk>⟧.calls_left d ≡ None) }
    {
        Ok(MemDisk {
            alloc: self.alloc,
            files: self.files.restarted(self.alloc, fill)?,
            past: Vec::new(self.alloc),
            calls_left: None,
            failed: 0,
        })
    }

    /// Takes one of the calls that are left, and fails where none is.
    fn begin(&mut self) -> Result<(), DiskFailed>
        ensures same { (self.new.files ≡ self.old.files) × (self.new.past ≡ self.old.past) }
        ensures passed { passes self.old.calls_left ≡ true → IsOk result }
        ensures stops { Stops self.old.calls_left self.new.calls_left result }
        ensures cause { HasCause self.old.failed self.new.failed result }
    {
        if take_call(&mut self.calls_left) {
            return Ok(());
        }
        self.failed = self.failed.saturating_add(1);
        Err(DiskFailed)
    }

    /// A call that runs out of memory fails.
    fn end(&mut self, done: Result<(), OutOfMemory>) -> Result<(), DiskFailed>
        ensures same { (self.new.files ≡ self.old.files) × (self.new.past ≡ self.old.past) }
        ensures left { self.new.calls_left ≡ self.old.calls_left }
        ensures ok { OnOk result (IsOk done) }
        ensures cause { HasCause self.old.failed self.new.failed result }
    {
        match done {
            Ok(()) => Ok(()),
            Err(_) => {
                self.failed = self.failed.saturating_add(1);
                Err(DiskFailed)
            }
        }
    }
}

impl Disk for MemDisk {
    ghost use Rattle.spf_disk.specs.MemoryDisk.{image_of, IsLeft, LeftSince, only_now, seen_left};
    ghost use Rattle.spf_disk.specs.MemoryDisk.{moments};
    ghost use mathlib.Core.Logic.{inl};

    ghost seen = { λ m. image_of m.files };

    ghost may_leave = { λ m c. IsLeft m.files c };

    ghost moment = { λ m. length (moments m.past.items) };

    ghost left_since = { λ m t c. LeftSince (moments m.past.items) m.files t c };

    ghost failures = { λ m. m.failed };

    ghost calls_left = { λ m. m.calls_left };

    ghost seen_is_left = { λ m. seen_left m.files };

    ghost counts_now = { λ m t c le now. inl now };

    ghost only_now = { λ m c left. only_now (moments m.past.items) m.files c left };

    fn length(&mut self, file: HelperFile) -> Result<u64, DiskFailed> {
        self.begin()?;
        Ok(self.files.file(file).bytes().len() as u64)
    }

    fn read(&mut self, file: HelperFile, at: u64, buf: &mut [u8]) -> Result<usize, DiskFailed> {
        self.begin()?;
        Ok(read_into(self.files.file(file).bytes(), at as usize, buf))
    }

    fn write_at(&mut self, file: HelperFile, at: u64, bytes: &[u8]) -> Result<(), DiskFailed> {
        self.begin()?;
        let done = write_file(
            self.alloc,
            &mut self.files,
            &mut self.past,
            file,
            at as usize,
            bytes,
        );
        self.end(done)
    }

    fn cut(&mut self, file: HelperFile, count: u64) -> Result<(), DiskFailed> {
        self.begin()?;
        let count = count as usize;
        let done = cut_file(self.alloc, &mut self.files, &mut self.past, file, count);
        self.end(done)
    }

    fn sync(&mut self, file: HelperFile) -> Result<(), DiskFailed> {
        self.begin()?;
        let done = sync_file(self.alloc, &mut self.files, &mut self.past, file);
        self.end(done)
    }
}
