//! What the files of a folder hold.

ghost use Rattle.std.specs.Prelude.{◌≡◌, IfOk};
ghost use Rattle.spf_disk.specs.Crash.{Only};

use crate::disk::{Disk, HelperFile};
use crate::folder_fault::FolderFault;
use crate::mem_disk::MemDisk;
use std::alloc::{AllocError, Global};
use std::fs::{self, File};
use std::io::{self, Read};

/// How often the files are read again while another program changes them.
const MAX_READINGS: u32 = 1000;

#[derive(PartialEq, Drop)]
pub(crate) struct Contents {
    pub(crate) gates: Vec<u8>,
    pub(crate) first: Vec<u8>,
    pub(crate) second: Vec<u8>,
}

impl Contents {
    /// A disk in memory that holds them.
    pub(crate) fn into_memory(self, alloc: Global) -> Result<MemDisk, FolderFault>
        ensures held { IfOk result (λ d. ⟦<MemDisk as Disk>⟧.seen d ≡ record {
          gates = self.gates.items;
          first = self.first.items;
          second = self.second.items;
        }) }
        ensures durable { IfOk result (λ d. Only (⟦<MemDisk as Disk>⟧.seen d)
            (⟦<MemDisk as Disk>⟧.may_leave d)) }
    {
        Ok(MemDisk::holding(alloc, self.gates, self.first, self.second)?)
    }
}

/// The path of a file.
pub(crate) fn path_of(alloc: Global, folder: &str, file: HelperFile) -> Result<String, AllocError> {
    let name = match file {
        HelperFile::Gates => "gates",
        HelperFile::First => "first",
        HelperFile::Second => "second",
    };
    format!(in alloc; "{folder}/{name}")
}

pub(crate) fn read_whole(alloc: Global, mut file: &File) -> io::Result<Vec<u8>> {
    let mut bytes = Vec::new(alloc);
    file.read_to_end(&mut bytes)?;
    Ok(bytes)
}

/// What the file holds, which is nothing where it is missing.
fn read_if_there(rt: &HostRuntime, folder: &str, file: HelperFile) -> Result<Vec<u8>, FolderFault> {
    let path = path_of(rt.alloc(), folder, file)?;
    match fs::read(rt, path.as_str()) {
        Ok(bytes) => Ok(bytes),
        Err(error) if error.kind() == io::ErrorKind::NotFound => Ok(Vec::new(rt.alloc())),
        Err(error) => Err(FolderFault::Io(error)),
    }
}

fn read_once(rt: &HostRuntime, folder: &str) -> Result<Contents, FolderFault> {
    Ok(Contents {
        gates: read_if_there(rt, folder, HelperFile::Gates)?,
        first: read_if_there(rt, folder, HelperFile::First)?,
        second: read_if_there(rt, folder, HelperFile::Second)?,
    })
}

/// What the files hold at one moment: two readings, one after the other, that give the same.
/// Another program may write the files meanwhile.
pub(crate) fn read_at_rest(rt: &HostRuntime, folder: &str) -> Result<Contents, FolderFault> {
    let _directory = File::open(rt, folder)?;
    let mut before = read_once(rt, folder)?;
    for _ in 0..MAX_READINGS {
        let after = read_once(rt, folder)?;
        if after == before {
            return Ok(after);
        }
        before = after;
    }
    Err(FolderFault::Unsettled)
}
