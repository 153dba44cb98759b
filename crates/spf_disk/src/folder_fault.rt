//! Why a folder is not, or no longer, used.

use crate::disk::DiskFailed;
use spf_io::OutOfMemory;
use std::alloc::AllocError;
use std::io;
use thiserror::Error;

#[derive(Clone, Copy, Debug, Error)]
pub enum FolderFault {
    /// The operating system refused a call.
    #[error("{0}")]
    Io(io::Error),
    #[error("another program keeps an identity in the folder")]
    InUse,
    #[error("a file of the folder is no regular file")]
    NotAFile,
    /// The files changed at each reading.
    #[error("the files do not come to rest")]
    Unsettled,
    #[error("the folder is open for reading only")]
    ReadOnly,
    #[error("out of memory")]
    OutOfMemory,
}

impl From<io::Error> for FolderFault {
    ghost use Rattle.std.specs.Prelude.{◌≡◌};
    ghost use Rattle.spf_disk.specs.declared.folder_fault.FolderFault.TheVariants as faults;

    ghost from_gives = { λ error fault. fault ≡ faults.Io error };

    fn from(error: io::Error) -> FolderFault {
        FolderFault::Io(error)
    }
}

impl From<OutOfMemory> for FolderFault {
    ghost use Rattle.std.specs.Prelude.{◌≡◌};
    ghost use Rattle.spf_disk.specs.declared.folder_fault.FolderFault.TheVariants as faults;

    ghost from_gives = { λ _ fault. fault ≡ faults.OutOfMemory };

    fn from(_error: OutOfMemory) -> FolderFault {
        FolderFault::OutOfMemory
    }
}

impl From<AllocError> for FolderFault {
    ghost use Rattle.std.specs.Prelude.{◌≡◌};
    ghost use Rattle.spf_disk.specs.declared.folder_fault.FolderFault.TheVariants as faults;

    ghost from_gives = { λ _ fault. fault ≡ faults.OutOfMemory };

    fn from(_error: AllocError) -> FolderFault {
        FolderFault::OutOfMemory
    }
}

/// What is kept in memory of the files failed.
impl From<DiskFailed> for FolderFault {
    ghost use Rattle.std.specs.Prelude.{◌≡◌};
    ghost use Rattle.spf_disk.specs.declared.folder_fault.FolderFault.TheVariants as faults;

    ghost from_gives = { λ _ fault. fault ≡ faults.OutOfMemory };

    fn from(_error: DiskFailed) -> FolderFault {
        FolderFault::OutOfMemory
    }
}
