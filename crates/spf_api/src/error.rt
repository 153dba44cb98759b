//! Errors of the Workload API.

ghost use Rattle.std.specs.Prelude.{◌≡◌, ◌↔◌, IsTrue, Some, codes};
ghost use Rattle.spf_api.specs.Status.{holds};
ghost use Rattle.spf_api.specs.Errors.{status_reading, status_code_of};
ghost use Rattle.spf_api.specs.declared.error.WorkloadApiError.TheVariants as errors;
ghost use Rattle.spf_api.specs.declared.status.GrpcStatusCode.TheVariants as code;

use crate::endpoint_error::EndpointError;
use crate::jwt_error::{JwtBundleError, JwtSvidError};
use crate::status::{GrpcStatusCode, GrpcStatusError, TransportError};
use memchr::memmem;
use spf_id::SpiffeIdError;
use spf_io::{OutOfMemory, Text};
use spf_x509::{X509BundleError, X509SvidError};
use std::alloc::{AllocError, AllocFailed};
use thiserror::Error;

/// Why a call of the Workload API fails.
#[derive(Debug, PartialEq, Eq, Drop, Error)]
pub enum WorkloadApiError {
    /// The environment names no endpoint.
    #[error("missing SPIFFE endpoint socket path (SPIFFE_ENDPOINT_SOCKET)")]
    MissingEndpointSocket,
    /// The environment variable that names the endpoint is not UTF-8.
    #[error("SPIFFE endpoint socket path is not a valid UTF-8 string")]
    NotUnicodeEndpointSocket,
    /// The stream ended before its first response.
    #[error("empty Workload API response")]
    EmptyResponse,
    /// A required field of a response is absent or empty.
    #[error("Workload API response is missing required field: {field}")]
    MissingRequiredField { field: Text },
    /// A field of a response has a value that its rule refuses.
    #[error("Workload API response has invalid field: {field}")]
    InvalidResponseField { field: Text },
    /// The text names no endpoint.
    #[error("invalid workload api endpoint: {0}")]
    Endpoint(EndpointError),
    /// The agent knows no registration entry of this workload.
    #[error("no identity issued")]
    NoIdentityIssued,
    /// The agent denies this workload an identity, with the message of its status.
    #[error("permission denied: {0}")]
    PermissionDenied(Text),
    /// No JWT-SVID of the response has that hint.
    #[error("no JWT-SVID found with hint: {0}")]
    HintNotFound(Text),
    /// The transport failed.
    #[error("{0}")]
    Transport(TransportError),
    /// An X.509-SVID of a response was refused.
    #[error("failed to parse X.509 SVID: {0}")]
    X509Svid(X509SvidError),
    /// A JWT-SVID of a response was refused.
    #[error("failed to parse JWT-SVID: {0}")]
    JwtSvid(JwtSvidError),
    /// An X.509 bundle of a response was refused.
    #[error("failed to parse X.509 bundle: {0}")]
    X509Bundle(X509BundleError),
    /// A JWT bundle of a response was refused.
    #[error("failed to parse JWT bundle: {0}")]
    JwtBundle(JwtBundleError),
    /// A SPIFFE ID or a trust domain name of a response was refused.
    #[error("failed to parse SPIFFE ID: {0}")]
    SpiffeId(SpiffeIdError),
    /// Memory ran out.
    #[error("out of memory")]
    OutOfMemory,
}

/// Whether the message says that no identity was issued.
fn says_no_identity(message: &str) -> bool
    ensures { result ≡ holds (codes "no identity issued") message.now }
{
    memmem::find(message.as_bytes(), b"no identity issued").is_some()
}

impl WorkloadApiError {
    /// Returns the error that a status stands for. PERMISSION_DENIED is
    /// a denial, or NoIdentityIssued where its message says that no
    /// identity was issued; any other code is an error of the transport.
    pub fn from_status(status: GrpcStatusError) -> WorkloadApiError
        ensures { result ≡ status_reading status }
    {
        match status.code() {
            GrpcStatusCode::PermissionDenied => {
                if says_no_identity(status.message()) {
                    WorkloadApiError::NoIdentityIssued
                } else {
                    WorkloadApiError::PermissionDenied(status.into_message())
                }
            }
            _ => WorkloadApiError::Transport(TransportError::Status(status)),
        }
    }

    /// Returns whether memory ran out.
    pub fn is_out_of_memory(&self) -> bool
        ensures { IsTrue result ↔ (self.now ≡ errors.OutOfMemory) }
    {
        matches!(self, WorkloadApiError::OutOfMemory)
    }

    /// Returns whether this is a status of the transport with the code INVALID_ARGUMENT.
    pub fn is_invalid_argument(&self) -> bool
        ensures { IsTrue result ↔ (status_code_of self.now ≡ Some code.InvalidArgument) }
    {
        match self {
            WorkloadApiError::Transport(TransportError::Status(status)) => {
                matches!(status.code(), GrpcStatusCode::InvalidArgument)
            }
            _ => false,
        }
    }

    /// Returns whether this is a status of the transport with the code UNIMPLEMENTED.
    pub fn is_unimplemented(&self) -> bool
        ensures { IsTrue result ↔ (status_code_of self.now ≡ Some code.Unimplemented) }
    {
        match self {
            WorkloadApiError::Transport(TransportError::Status(status)) => {
                matches!(status.code(), GrpcStatusCode::Unimplemented)
            }
            _ => false,
        }
    }
}

impl From<SpiffeIdError> for WorkloadApiError {
    ghost use Rattle.std.specs.Prelude.{◌≡◌};
    ghost use Rattle.spf_api.specs.Errors.{api_of_id};

    ghost from_gives = { λ e r. r ≡ api_of_id e };

    fn from(e: SpiffeIdError) -> WorkloadApiError {
        match e {
            SpiffeIdError::OutOfMemory => WorkloadApiError::OutOfMemory,
            e => WorkloadApiError::SpiffeId(e),
        }
    }
}

impl From<EndpointError> for WorkloadApiError {
    ghost use Rattle.std.specs.Prelude.{◌≡◌};
    ghost use Rattle.spf_api.specs.Errors.{api_of_endpoint};

    ghost from_gives = { λ e r. r ≡ api_of_endpoint e };

    fn from(e: EndpointError) -> WorkloadApiError {
        match e {
            EndpointError::OutOfMemory => WorkloadApiError::OutOfMemory,
            e => WorkloadApiError::Endpoint(e),
        }
    }
}

impl From<TransportError> for WorkloadApiError {
    ghost use Rattle.std.specs.Prelude.{◌≡◌};
    ghost use Rattle.spf_api.specs.Errors.{api_of_transport};

    ghost from_gives = { λ e r. r ≡ api_of_transport e };

    fn from(e: TransportError) -> WorkloadApiError {
        match e {
            TransportError::OutOfMemory => WorkloadApiError::OutOfMemory,
            e => WorkloadApiError::Transport(e),
        }
    }
}

impl From<X509SvidError> for WorkloadApiError {
    ghost use Rattle.std.specs.Prelude.{◌≡◌};
    ghost use Rattle.spf_api.specs.Errors.{api_of_svid};

    ghost from_gives = { λ e r. r ≡ api_of_svid e };

    fn from(e: X509SvidError) -> WorkloadApiError {
        match e {
            X509SvidError::OutOfMemory => WorkloadApiError::OutOfMemory,
            e => WorkloadApiError::X509Svid(e),
        }
    }
}

impl From<JwtSvidError> for WorkloadApiError {
    ghost use Rattle.std.specs.Prelude.{◌≡◌};
    ghost use Rattle.spf_api.specs.Errors.{api_of_jwt_svid};

    ghost from_gives = { λ e r. r ≡ api_of_jwt_svid e };

    fn from(e: JwtSvidError) -> WorkloadApiError {
        match e {
            JwtSvidError::OutOfMemory => WorkloadApiError::OutOfMemory,
            e => WorkloadApiError::JwtSvid(e),
        }
    }
}

impl From<X509BundleError> for WorkloadApiError {
    ghost use Rattle.std.specs.Prelude.{◌≡◌};
    ghost use Rattle.spf_api.specs.Errors.{api_of_bundle};

    ghost from_gives = { λ e r. r ≡ api_of_bundle e };

    fn from(e: X509BundleError) -> WorkloadApiError {
        match e {
            X509BundleError::OutOfMemory => WorkloadApiError::OutOfMemory,
            e => WorkloadApiError::X509Bundle(e),
        }
    }
}

impl From<JwtBundleError> for WorkloadApiError {
    ghost use Rattle.std.specs.Prelude.{◌≡◌};
    ghost use Rattle.spf_api.specs.Errors.{api_of_jwt_bundle};

    ghost from_gives = { λ e r. r ≡ api_of_jwt_bundle e };

    fn from(e: JwtBundleError) -> WorkloadApiError {
        match e {
            JwtBundleError::OutOfMemory => WorkloadApiError::OutOfMemory,
            e => WorkloadApiError::JwtBundle(e),
        }
    }
}

impl From<OutOfMemory> for WorkloadApiError {
    ghost use Rattle.std.specs.Prelude.{◌≡◌};
    ghost use Rattle.spf_api.specs.declared.error.WorkloadApiError.TheVariants as errors;

    ghost from_gives = { λ _ e. e ≡ errors.OutOfMemory };

    fn from(_e: OutOfMemory) -> WorkloadApiError {
        WorkloadApiError::OutOfMemory
    }
}

impl From<AllocError> for WorkloadApiError {
    ghost use Rattle.std.specs.Prelude.{◌≡◌};
    ghost use Rattle.spf_api.specs.declared.error.WorkloadApiError.TheVariants as errors;

    ghost from_gives = { λ _ e. e ≡ errors.OutOfMemory };

    fn from(_e: AllocError) -> WorkloadApiError {
        WorkloadApiError::OutOfMemory
    }
}

impl<T: Drop> From<AllocFailed<T>> for WorkloadApiError {
    ghost use Rattle.std.specs.Prelude.{◌≡◌};
    ghost use Rattle.spf_api.specs.declared.error.WorkloadApiError.TheVariants as errors;

    ghost from_gives = { λ _ e. e ≡ errors.OutOfMemory };

    fn from(_e: AllocFailed<T>) -> WorkloadApiError {
        WorkloadApiError::OutOfMemory
    }
}
