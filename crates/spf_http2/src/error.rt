//! Why no frame is read.

use thiserror::Error;

/// Why there is no frame.
#[derive(Clone, Copy, Debug, PartialEq, Eq, Error)]
pub enum ReadError {
    /// The header says a payload above the maximum length.
    #[error("a frame is too long")]
    TooLong,
    /// The input ends inside a frame.
    #[error("the input ends inside a frame")]
    CutOff,
    /// A read of the source failed.
    #[error("a read of the source failed")]
    ReadFault,
}
