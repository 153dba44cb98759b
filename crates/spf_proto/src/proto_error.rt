//! Why a body is not followed to its end.

use spf_feed::FollowError;
use thiserror::Error;

/// Why a body is not followed to its end.
#[derive(Debug, PartialEq, Eq, Error, Drop)]
pub enum ProtoError {
    /// The session that it stands for is not followed to its end.
    #[error("{0}")]
    Follow(FollowError),
    /// The message of this number, counted from 1, is not a valid one.
    #[error("message {message} is bad")]
    BadMessage { message: u64 },
    /// More messages came than are allowed.
    #[error("too many messages")]
    TooManyMessages,
}
