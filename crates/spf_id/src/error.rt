use spf_io::OutOfMemory;
use std::alloc::{AllocError, AllocFailed};
use thiserror::Error;

/// Why a text is not a SPIFFE ID or names no trust domain. The first broken rule decides, in this
/// order.
#[derive(Clone, Copy, Debug, PartialEq, Eq, Hash, Error)]
pub enum SpiffeIdError {
    /// The text is empty.
    #[error("Empty")]
    Empty,
    /// An ID has more than 2048 bytes.
    #[error("TooLong")]
    TooLong,
    /// An ID does not begin with `spiffe://`.
    #[error("WrongScheme")]
    WrongScheme,
    /// An ID has no trust domain.
    #[error("MissingTrustDomain")]
    MissingTrustDomain,
    /// A trust domain has more than 255 bytes.
    #[error("TrustDomainTooLong")]
    TrustDomainTooLong,
    /// A trust domain holds a character other than a-z, 0-9, `.`, `-` and `_`.
    #[error("BadTrustDomainChar")]
    BadTrustDomainChar,
    /// A segment of a path is empty, and others follow it.
    #[error("EmptySegment")]
    EmptySegment,
    /// A segment of a path is `.` or `..`.
    #[error("DotSegment")]
    DotSegment,
    /// A segment of a path holds a character other than ASCII letters, digits, `.`, `-` and `_`.
    #[error("BadPathChar")]
    BadPathChar,
    /// The last segment of a path is empty.
    #[error("TrailingSlash")]
    TrailingSlash,
    /// Memory ran out.
    #[error("out of memory")]
    OutOfMemory,
}

impl From<OutOfMemory> for SpiffeIdError {
    ghost use Rattle.std.specs.Prelude.{◌≡◌};
    ghost use Rattle.spf_id.specs.declared.error.SpiffeIdError.TheVariants as errors;

    ghost from_gives = { λ _ e. e ≡ errors.OutOfMemory };

    fn from(_e: OutOfMemory) -> SpiffeIdError {
        SpiffeIdError::OutOfMemory
    }
}

impl From<AllocError> for SpiffeIdError {
    ghost use Rattle.std.specs.Prelude.{◌≡◌};
    ghost use Rattle.spf_id.specs.declared.error.SpiffeIdError.TheVariants as errors;

    ghost from_gives = { λ _ e. e ≡ errors.OutOfMemory };

    fn from(_e: AllocError) -> SpiffeIdError {
        SpiffeIdError::OutOfMemory
    }
}

impl<T: Drop> From<AllocFailed<T>> for SpiffeIdError {
    ghost use Rattle.std.specs.Prelude.{◌≡◌};
    ghost use Rattle.spf_id.specs.declared.error.SpiffeIdError.TheVariants as errors;

    ghost from_gives = { λ _ e. e ≡ errors.OutOfMemory };

    fn from(_e: AllocFailed<T>) -> SpiffeIdError {
        SpiffeIdError::OutOfMemory
    }
}
