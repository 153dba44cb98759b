//! Why a text names no endpoint of the Workload API (SPIFFE Workload Endpoint section 4).

use spf_io::OutOfMemory;
use std::alloc::{AllocError, AllocFailed};
use thiserror::Error;

/// The text is not a URI.
#[derive(Clone, Copy, Debug, PartialEq, Eq, Error)]
#[error("invalid URI")]
pub struct EndpointParseError;

/// The first broken rule of an endpoint, in this order.
#[derive(Clone, Copy, Debug, PartialEq, Eq, Error)]
pub enum EndpointError {
    /// The text is not a URI.
    #[error("endpoint socket is not a valid URI")]
    Parse(EndpointParseError),
    /// The URI has a user name that is not empty, or a password.
    #[error("endpoint socket URI must not include user info")]
    HasUserInfo,
    /// The URI has a query.
    #[error("endpoint socket URI must not include query values")]
    HasQuery,
    /// The URI has a fragment.
    #[error("endpoint socket URI must not include a fragment")]
    HasFragment,
    /// The URI of a Unix socket has an authority.
    #[error("unix: endpoint socket URI must not include an authority")]
    UnixAuthorityNotAllowed,
    /// The URI of a Unix socket has no absolute path, or only `/`.
    #[error("unix: endpoint socket URI must include a path")]
    UnixMissingPath,
    /// The host of a TCP endpoint is not an IP address.
    #[error("tcp: endpoint socket URI host must be an IP address")]
    TcpHostNotIp,
    /// A TCP endpoint has no port.
    #[error("tcp: endpoint socket URI must include a port")]
    TcpMissingPort,
    /// A TCP endpoint has a path other than `/`.
    #[error("tcp: endpoint socket URI must not include a path")]
    TcpUnexpectedPath,
    /// The scheme is neither unix nor tcp.
    #[error("endpoint socket URI scheme must be unix: or tcp:")]
    InvalidScheme,
    /// Memory ran out.
    #[error("out of memory")]
    OutOfMemory,
}

impl From<OutOfMemory> for EndpointError {
    ghost use Rattle.std.specs.Prelude.{◌≡◌};
    ghost use Rattle.spf_api.specs.declared.endpoint_error.EndpointError.TheVariants as errors;

    ghost from_gives = { λ _ e. e ≡ errors.OutOfMemory };

    fn from(_e: OutOfMemory) -> EndpointError {
        EndpointError::OutOfMemory
    }
}

impl From<AllocError> for EndpointError {
    ghost use Rattle.std.specs.Prelude.{◌≡◌};
    ghost use Rattle.spf_api.specs.declared.endpoint_error.EndpointError.TheVariants as errors;

    ghost from_gives = { λ _ e. e ≡ errors.OutOfMemory };

    fn from(_e: AllocError) -> EndpointError {
        EndpointError::OutOfMemory
    }
}

impl<T: Drop> From<AllocFailed<T>> for EndpointError {
    ghost use Rattle.std.specs.Prelude.{◌≡◌};
    ghost use Rattle.spf_api.specs.declared.endpoint_error.EndpointError.TheVariants as errors;

    ghost from_gives = { λ _ e. e ≡ errors.OutOfMemory };

    fn from(_e: AllocFailed<T>) -> EndpointError {
        EndpointError::OutOfMemory
    }
}
