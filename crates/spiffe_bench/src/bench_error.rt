//! Why nothing is measured.

use spf_io::OutOfMemory;
use spf_program::ArgumentsError;
use std::alloc::{AllocError, AllocFailed};

/// Why nothing is measured.
#[derive(Clone, Copy, PartialEq, Eq)]
pub(crate) enum BenchError {
    BadArguments,
    OutOfMemory,
    WriteFailed,
    NoThread,
    NoClock,
    /// A read was not sound.
    Unsound,
}

impl From<OutOfMemory> for BenchError {
    fn from(_e: OutOfMemory) -> BenchError {
        BenchError::OutOfMemory
    }
}

impl From<ArgumentsError> for BenchError {
    fn from(error: ArgumentsError) -> BenchError {
        match error {
            ArgumentsError::NotText => BenchError::BadArguments,
            ArgumentsError::OutOfMemory => BenchError::OutOfMemory,
        }
    }
}

impl From<AllocError> for BenchError {
    fn from(_e: AllocError) -> BenchError {
        BenchError::OutOfMemory
    }
}

impl<T: Drop> From<AllocFailed<T>> for BenchError {
    fn from(_e: AllocFailed<T>) -> BenchError {
        BenchError::OutOfMemory
    }
}
