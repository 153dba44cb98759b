use spf_api::WorkloadApiError;
use spf_io::OutOfMemory;
use std::alloc::{AllocError, AllocFailed};
use thiserror::Error;

/// Why a session was not followed to its end.
#[derive(Debug, PartialEq, Eq, Drop, Error)]
pub enum FollowError {
    /// Memory ran out.
    #[error("out of memory")]
    OutOfMemory,
    /// A read of the source failed.
    #[error("a read of the source failed")]
    ReadFault,
    /// A write to the sink failed.
    #[error("a write to the sink failed")]
    WriteFault,
    /// A byte came after the last frame that is allowed.
    #[error("the session has too many frames")]
    SessionTooLong,
    /// The frame of this number, counted from 1, is of a kind that is not allowed there, is too
    /// long, has a payload without a layout, or is cut off by the end of the input.
    #[error("frame {frame} is bad")]
    BadFrame { frame: u64 },
    /// The Workload API rejected the request before an item was accepted.
    #[error("x509 source error: {0}")]
    Source(WorkloadApiError),
    /// The Workload API has no such call.
    #[error("required Workload API RPC FetchX509SVID is unsupported during initial \
     synchronization: {0}")]
    UnsupportedRpc(WorkloadApiError),
    /// A moment at or after the deadline came before an item was accepted.
    #[error("initial synchronization timed out")]
    InitialSyncTimeout,
    /// A close came before an item was accepted.
    #[error("source is closed")]
    Closed,
    /// The session ended, and no item was accepted.
    #[error("the session ended before an item was accepted")]
    NeverSynced,
}

impl From<OutOfMemory> for FollowError {
    ghost use Rattle.std.specs.Prelude.{◌≡◌};
    ghost use Rattle.spf_feed.specs.declared.follow_error.FollowError.TheVariants as errors;

    ghost from_gives = { λ _ e. e ≡ errors.OutOfMemory };

    fn from(_e: OutOfMemory) -> FollowError {
        FollowError::OutOfMemory
    }
}

impl From<AllocError> for FollowError {
    ghost use Rattle.std.specs.Prelude.{◌≡◌};
    ghost use Rattle.spf_feed.specs.declared.follow_error.FollowError.TheVariants as errors;

    ghost from_gives = { λ _ e. e ≡ errors.OutOfMemory };

    fn from(_e: AllocError) -> FollowError {
        FollowError::OutOfMemory
    }
}

impl<T: Drop> From<AllocFailed<T>> for FollowError {
    ghost use Rattle.std.specs.Prelude.{◌≡◌};
    ghost use Rattle.spf_feed.specs.declared.follow_error.FollowError.TheVariants as errors;

    ghost from_gives = { λ _ e. e ≡ errors.OutOfMemory };

    fn from(_e: AllocFailed<T>) -> FollowError {
        FollowError::OutOfMemory
    }
}
