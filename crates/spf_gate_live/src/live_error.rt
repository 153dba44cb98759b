//! Why a live run of the gate does not end well.

ghost use Rattle.std.specs.Prelude.{◌≡◌};
ghost use Rattle.spf_gate_live.specs.Ends as spec;

use spf_feed::X509SourceError;
use spf_gate::GateError;
use spf_program::ArgumentsError;
use std::mem::drop;
use thiserror::Error;

/// Why a live run of the gate does not end well.
#[derive(Clone, Copy, Debug, PartialEq, Eq, Error)]
pub enum LiveGateError {
    #[error("bad words")]
    BadArguments,
    /// The asks were not answered to the end of the input.
    #[error("{0}")]
    Gate(GateError),
    /// The endpoint is invalid, or the agent rejected the request.
    #[error("request rejected")]
    Rejected,
    #[error("required RPC is unsupported")]
    Unsupported,
    /// No thread could be started.
    #[error("no supervisor")]
    NoSupervisor,
    /// The board had no place for another reader.
    #[error("no place")]
    NoPlace,
}

impl From<ArgumentsError> for LiveGateError {
    ghost use Rattle.std.specs.Prelude.{◌≡◌};
    ghost use Rattle.spf_gate_live.specs.Ends.{of_arguments};

    ghost from_gives = { λ e live. live ≡ of_arguments e };

    fn from(error: ArgumentsError) -> LiveGateError {
        match error {
            ArgumentsError::NotText => LiveGateError::BadArguments,
            ArgumentsError::OutOfMemory => LiveGateError::Gate(GateError::OutOfMemory),
        }
    }
}

/// What an error of a build says. One without a timeout, over a source that nobody closed, has no
/// others.
fn kind_of(error: &X509SourceError) -> LiveGateError
    ensures { result ≡ spec.error_of error.now }
{
    match error {
        X509SourceError::Source(_) => LiveGateError::Rejected,
        X509SourceError::UnsupportedRpc(_) => LiveGateError::Unsupported,
        X509SourceError::NoSupervisor => LiveGateError::NoSupervisor,
        X509SourceError::NoPlace => LiveGateError::NoPlace,
        _ => LiveGateError::Gate(GateError::OutOfMemory),
    }
}

/// The error of a build, which is dropped.
pub(crate) fn error_of(error: X509SourceError) -> LiveGateError
    ensures { result ≡ spec.error_of error }
{
    let kind = kind_of(&error);
    drop(error);
    kind
}

/// How a run ends, by how answering ended, and whether there is a record of the supervisor.
pub(crate) fn end_of(served: Result<u64, GateError>, is_recorded: bool) -> Result<(), LiveGateError>
    ensures { result ≡ spec.end_of served is_recorded }
{
    match served {
        Ok(_) if is_recorded => Ok(()),
        Ok(_) => Err(LiveGateError::Gate(GateError::OutOfMemory)),
        Err(error) => Err(LiveGateError::Gate(error)),
    }
}

/// The number of an error, from 1 on.
fn gate_number(error: GateError) -> u8
    ensures { result ≡ spec.gate_number error }
{
    match error {
        GateError::ReadFault => 1,
        GateError::WriteFault => 2,
        GateError::BadRule { line: _ } => 3,
        GateError::NoPolicyEnd => 4,
        GateError::LineTooLong { line: _ } => 5,
        GateError::NotText { line: _ } => 6,
        GateError::TooManyLines => 7,
        GateError::OutOfMemory => 8,
    }
}

/// The exit status.
pub(crate) fn status_of(error: LiveGateError) -> u8
    ensures { result ≡ spec.error_status error }
{
    match error {
        LiveGateError::BadArguments => 9,
        LiveGateError::Gate(error) => gate_number(error),
        LiveGateError::Rejected => 11,
        LiveGateError::Unsupported => 12,
        LiveGateError::NoSupervisor => 20,
        LiveGateError::NoPlace => 21,
    }
}

/// What is wrong, up to its number.
pub(crate) fn message_of(error: LiveGateError) -> &'static str
    ensures { result.now ≡ spec.message error }
{
    match error {
        LiveGateError::BadArguments => "bad words\n",
        LiveGateError::Gate(_) => "error ",
        _ => "source error ",
    }
}

/// The number that ends the line on standard error, if there is one.
pub(crate) fn number_of(error: LiveGateError) -> Option<u64>
    ensures { result ≡ spec.number error }
{
    match error {
        LiveGateError::BadArguments => None,
        LiveGateError::Gate(error) => Some(u64::from(gate_number(error))),
        LiveGateError::Rejected => Some(1),
        LiveGateError::Unsupported => Some(2),
        LiveGateError::NoSupervisor => Some(10),
        LiveGateError::NoPlace => Some(11),
    }
}
