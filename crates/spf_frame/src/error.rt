//! Why a frame is not read.

use spf_io::OutOfMemory;
use std::alloc::AllocError;
use thiserror::Error;

/// Why there is no frame.
#[derive(Clone, Copy, Debug, PartialEq, Eq, Error)]
pub enum FrameError {
    /// A byte came where no frame was allowed.
    #[error("too many frames")]
    TooLong,
    /// No frame of an allowed kind begins the bytes that are left.
    #[error("bad frame")]
    BadFrame,
    /// A read of the source failed.
    #[error("a read of the source failed")]
    ReadFault,
    /// Memory ran out.
    #[error("out of memory")]
    OutOfMemory,
}

impl From<OutOfMemory> for FrameError {
    ghost use Rattle.std.specs.Prelude.{◌≡◌};
    ghost use Rattle.spf_frame.specs.declared.error.FrameError.TheVariants as errors;

    ghost from_gives = { λ _ e. e ≡ errors.OutOfMemory };

    fn from(_e: OutOfMemory) -> FrameError {
        FrameError::OutOfMemory
    }
}

impl From<AllocError> for FrameError {
    ghost use Rattle.std.specs.Prelude.{◌≡◌};
    ghost use Rattle.spf_frame.specs.declared.error.FrameError.TheVariants as errors;

    ghost from_gives = { λ _ e. e ≡ errors.OutOfMemory };

    fn from(_e: AllocError) -> FrameError {
        FrameError::OutOfMemory
    }
}
