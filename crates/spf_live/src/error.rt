//! Why a live run did not end well.

ghost use Rattle.std.specs.Prelude.{◌≡◌};
ghost use Rattle.spf_live.specs.Ends as spec;
ghost use Rattle.spf_live.specs.Ends.{error_message};

use spf_feed::X509SourceError;
use spf_io::OutOfMemory;
use spf_program::ArgumentsError;
use std::mem::drop;
use thiserror::Error;

/// Why a live run did not end well.
#[derive(Clone, Copy, Debug, PartialEq, Eq, Error)]
pub enum LiveError {
    #[error("bad words")]
    BadArguments,
    #[error("out of memory")]
    OutOfMemory,
    #[error("write failed")]
    WriteFailed,
    /// The endpoint is invalid, or the agent rejected the request.
    #[error("request rejected")]
    Rejected,
    #[error("required RPC is unsupported")]
    Unsupported,
    #[error("initial synchronization timed out")]
    TimedOut,
    /// No thread could be started.
    #[error("no supervisor")]
    NoSupervisor,
    /// The board had no place for another reader.
    #[error("no place")]
    NoPlace,
}

impl From<ArgumentsError> for LiveError {
    ghost use Rattle.std.specs.Prelude.{◌≡◌};
    ghost use Rattle.spf_live.specs.Ends.{of_arguments};

    ghost from_gives = { λ e live. live ≡ of_arguments e };

    fn from(error: ArgumentsError) -> LiveError {
        match error {
            ArgumentsError::NotText => LiveError::BadArguments,
            ArgumentsError::OutOfMemory => LiveError::OutOfMemory,
        }
    }
}

impl From<OutOfMemory> for LiveError {
    ghost use Rattle.std.specs.Prelude.{◌≡◌};
    ghost use Rattle.spf_live.specs.declared.error.LiveError.TheVariants as errors;

    ghost from_gives = { λ _ e. e ≡ errors.OutOfMemory };

    fn from(_e: OutOfMemory) -> LiveError {
        LiveError::OutOfMemory
    }
}

/// What an error of a source says. A source that nobody closed ends only out of memory.
fn kind_of(e: &X509SourceError) -> LiveError
    ensures { result ≡ spec.error_of e.now }
{
    match e {
        X509SourceError::Source(_) => LiveError::Rejected,
        X509SourceError::UnsupportedRpc(_) => LiveError::Unsupported,
        X509SourceError::InitialSyncTimeout => LiveError::TimedOut,
        X509SourceError::NoSupervisor => LiveError::NoSupervisor,
        X509SourceError::NoPlace => LiveError::NoPlace,
        _ => LiveError::OutOfMemory,
    }
}

/// The error of a source, which is dropped.
pub(crate) fn error_of(e: X509SourceError) -> LiveError
    ensures { result ≡ spec.error_of e }
{
    let kind = kind_of(&e);
    drop(e);
    kind
}

/// The exit status.
pub(crate) fn status_of(error: LiveError) -> u8
    ensures { result ≡ spec.error_status error }
{
    match error {
        LiveError::BadArguments => 1,
        LiveError::OutOfMemory => 2,
        LiveError::WriteFailed => 4,
        LiveError::Rejected => 7,
        LiveError::Unsupported => 8,
        LiveError::TimedOut => 9,
        LiveError::NoSupervisor => 12,
        LiveError::NoPlace => 13,
    }
}

/// What is wrong, as the line on standard error says it.
pub(crate) fn message_of(error: LiveError) -> &'static str
    ensures { result.now ≡ error_message error }
{
    match error {
        LiveError::BadArguments => "bad words\n",
        LiveError::OutOfMemory => "out of memory\n",
        LiveError::WriteFailed => "write failed\n",
        LiveError::Rejected => "request rejected\n",
        LiveError::Unsupported => "required RPC is unsupported\n",
        LiveError::TimedOut => "initial synchronization timed out\n",
        LiveError::NoSupervisor => "no supervisor\n",
        LiveError::NoPlace => "no place\n",
    }
}
