//! Why nothing, or not all, is exported.

use spf_disk::{FolderFault, OpenError};
use spf_io::OutOfMemory;
use spf_program::ArgumentsError;
use std::alloc::{AllocError, AllocFailed};
use std::io;
use thiserror::Error;

#[derive(Debug, Error, Drop)]
pub(crate) enum ExportError {
    #[error("bad words")]
    BadArguments,
    #[error("out of memory")]
    OutOfMemory,
    #[error("write failed")]
    NotPrinted,
    #[error("write failed: {0}")]
    NotWritten(io::Error),
    #[error("disk failed: {0}")]
    Folder(FolderFault),
    #[error("damaged")]
    Damaged,
}

impl ExportError {
    pub(crate) fn status(&self) -> u8 {
        match self {
            ExportError::BadArguments => 1,
            ExportError::OutOfMemory => 2,
            ExportError::NotPrinted => 4,
            ExportError::NotWritten(_) => 4,
            ExportError::Folder(_) => 21,
            ExportError::Damaged => 22,
        }
    }
}

impl From<ArgumentsError> for ExportError {
    fn from(error: ArgumentsError) -> ExportError {
        match error {
            ArgumentsError::NotText => ExportError::BadArguments,
            ArgumentsError::OutOfMemory => ExportError::OutOfMemory,
        }
    }
}

impl From<AllocError> for ExportError {
    ghost use Rattle.std.specs.Prelude.{◌≡◌};
    ghost use Rattle.spf_export.specs.declared.export_error.ExportError.TheVariants as errors;

    ghost from_gives = { λ _ e. e ≡ errors.OutOfMemory };

    fn from(_error: AllocError) -> ExportError {
        ExportError::OutOfMemory
    }
}

impl<T: Drop> From<AllocFailed<T>> for ExportError {
    fn from(_failed: AllocFailed<T>) -> ExportError {
        ExportError::OutOfMemory
    }
}

impl From<OutOfMemory> for ExportError {
    fn from(_error: OutOfMemory) -> ExportError {
        ExportError::OutOfMemory
    }
}

impl From<io::Error> for ExportError {
    fn from(error: io::Error) -> ExportError {
        ExportError::NotWritten(error)
    }
}
