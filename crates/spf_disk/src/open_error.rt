//! Why the contents of a disk are not read.

use crate::disk::DiskFailed;
use spf_io::OutOfMemory;
use std::alloc::{AllocError, AllocFailed};
use thiserror::Error;

#[derive(Clone, Copy, Debug, PartialEq, Eq, Error)]
pub enum OpenError {
    #[error("disk failed")]
    DiskFault,
    #[error("damaged")]
    Damaged,
    #[error("out of memory")]
    OutOfMemory,
}

impl From<DiskFailed> for OpenError {
    ghost use Rattle.std.specs.Prelude.{◌≡◌};
    ghost use Rattle.spf_disk.specs.declared.open_error.OpenError.TheVariants as errors;

    ghost from_gives = { λ _ e. e ≡ errors.DiskFault };

    fn from(_e: DiskFailed) -> OpenError {
        OpenError::DiskFault
    }
}

impl From<OutOfMemory> for OpenError {
    ghost use Rattle.std.specs.Prelude.{◌≡◌};
    ghost use Rattle.spf_disk.specs.declared.open_error.OpenError.TheVariants as errors;

    ghost from_gives = { λ _ e. e ≡ errors.OutOfMemory };

    fn from(_e: OutOfMemory) -> OpenError {
        OpenError::OutOfMemory
    }
}

impl From<AllocError> for OpenError {
    ghost use Rattle.std.specs.Prelude.{◌≡◌};
    ghost use Rattle.spf_disk.specs.declared.open_error.OpenError.TheVariants as errors;

    ghost from_gives = { λ _ e. e ≡ errors.OutOfMemory };

    fn from(_e: AllocError) -> OpenError {
        OpenError::OutOfMemory
    }
}

impl<T: Drop> From<AllocFailed<T>> for OpenError {
    ghost use Rattle.std.specs.Prelude.{◌≡◌};
    ghost use Rattle.spf_disk.specs.declared.open_error.OpenError.TheVariants as errors;

    ghost from_gives = { λ _ e. e ≡ errors.OutOfMemory };

    fn from(_e: AllocFailed<T>) -> OpenError {
        OpenError::OutOfMemory
    }
}
