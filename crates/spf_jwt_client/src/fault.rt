//! Why an ask of a fetcher failed.

ghost use Rattle.std.specs.Prelude.{◌≡◌};
ghost use Rattle.spf_jwt_client.specs.Fetching.{fault_error, fetch_error};
ghost use Rattle.spf_jwt_client.specs.Fetching as spec;

use spf_api::{GrpcStatusCode, TransportError, WorkloadApiError};
use spf_jwt_feed::JwtSourceError;

/// Why an ask failed.
#[derive(Drop)]
pub(crate) enum AskFault {
    /// No client could be made.
    NoClient(WorkloadApiError),
    /// The client returned an error.
    Failed(WorkloadApiError),
}

/// Whether a status is of the connection, so that another connection may do better.
fn is_transient_code(code: GrpcStatusCode) -> bool
    ensures { result ≡ spec.is_transient_code code }
{
    match code {
        GrpcStatusCode::Cancelled
        | GrpcStatusCode::DeadlineExceeded
        | GrpcStatusCode::Unavailable => true,
        _ => false,
    }
}

fn is_transient_transport(e: &TransportError) -> bool
    ensures { result ≡ spec.is_transient_transport e.now }
{
    match e {
        TransportError::Connect(_) => true,
        TransportError::Status(status) => is_transient_code(status.code()),
        _ => false,
    }
}

fn is_transient(e: &WorkloadApiError) -> bool
    ensures { result ≡ spec.is_transient e.now }
{
    match e {
        WorkloadApiError::Transport(e) => is_transient_transport(e),
        _ => false,
    }
}

/// Whether there is a second ask.
pub(crate) fn is_asked_again<T>(first: &Result<T, AskFault>) -> bool
    ensures { result ≡ spec.is_asked_again first.now }
{
    match first {
        Err(AskFault::Failed(e)) => is_transient(e),
        _ => false,
    }
}

fn failed(e: WorkloadApiError) -> JwtSourceError
    ensures { result ≡ fetch_error e }
{
    match e {
        WorkloadApiError::OutOfMemory => JwtSourceError::OutOfMemory,
        e => JwtSourceError::FetchJwtSvid(e),
    }
}

impl AskFault {
    /// The error of a fetch whose last ask failed like this.
    pub(crate) fn into_error(self) -> JwtSourceError
        ensures { result ≡ fault_error self }
    {
        match self {
            AskFault::NoClient(e) => JwtSourceError::from(e),
            AskFault::Failed(e) => failed(e),
        }
    }
}
