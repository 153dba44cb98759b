//! Why a run did not end well: its exit status, and its line on standard error.

ghost use Rattle.std.specs.Prelude.{◌≡◌, codes};
ghost use Rattle.spf_program.specs.Reports.{IsReported, failure_line};
ghost use Rattle.spf_program.specs.Streams.{side};
ghost use Rattle.spf_watch.specs.Causes.{frame_in, reason_line, reason_of_error, status};

use spf_feed::FollowError;
use spf_io::{OutOfMemory, Sink};
use spf_program::ArgumentsError;
use std::alloc::{AllocError, AllocFailed};

/// Why a run ended.
#[derive(Clone, Copy, Debug, PartialEq, Eq)]
pub enum ExitReason {
    BadArguments,
    OutOfMemory,
    ReadFailed,
    WriteFailed,
    SessionTooLong,
    BadFrame { frame: u64 },
    Rejected,
    Unsupported,
    TimedOut,
    Closed,
    NeverSynced,
}

impl From<AllocError> for ExitReason {
    ghost use Rattle.std.specs.Prelude.{◌≡◌};
    ghost use Rattle.spf_watch.specs.declared.exit_reason.ExitReason.TheVariants as reasons;

    ghost from_gives = { λ _ e. e ≡ reasons.OutOfMemory };

    fn from(_e: AllocError) -> ExitReason {
        ExitReason::OutOfMemory
    }
}

impl<T: Drop> From<AllocFailed<T>> for ExitReason {
    ghost use Rattle.std.specs.Prelude.{◌≡◌};
    ghost use Rattle.spf_watch.specs.declared.exit_reason.ExitReason.TheVariants as reasons;

    ghost from_gives = { λ _ e. e ≡ reasons.OutOfMemory };

    fn from(_e: AllocFailed<T>) -> ExitReason {
        ExitReason::OutOfMemory
    }
}

impl From<OutOfMemory> for ExitReason {
    ghost use Rattle.std.specs.Prelude.{◌≡◌};
    ghost use Rattle.spf_watch.specs.declared.exit_reason.ExitReason.TheVariants as reasons;

    ghost from_gives = { λ _ e. e ≡ reasons.OutOfMemory };

    fn from(_e: OutOfMemory) -> ExitReason {
        ExitReason::OutOfMemory
    }
}

impl From<ArgumentsError> for ExitReason {
    fn from(error: ArgumentsError) -> ExitReason {
        match error {
            ArgumentsError::NotText => ExitReason::BadArguments,
            ArgumentsError::OutOfMemory => ExitReason::OutOfMemory,
        }
    }
}

/// Why a run ends with this error of a session.
pub(crate) fn reason_of(error: &FollowError) -> ExitReason
    ensures { result ≡ reason_of_error error.now }
{
    match error {
        FollowError::OutOfMemory => ExitReason::OutOfMemory,
        FollowError::ReadFault => ExitReason::ReadFailed,
        FollowError::WriteFault => ExitReason::WriteFailed,
        FollowError::SessionTooLong => ExitReason::SessionTooLong,
        FollowError::BadFrame { frame } => ExitReason::BadFrame { frame: *frame },
        FollowError::Source(_) => ExitReason::Rejected,
        FollowError::UnsupportedRpc(_) => ExitReason::Unsupported,
        FollowError::InitialSyncTimeout => ExitReason::TimedOut,
        FollowError::Closed => ExitReason::Closed,
        FollowError::NeverSynced => ExitReason::NeverSynced,
    }
}

/// The exit status.
fn status_of(reason: ExitReason) -> u8
    ensures { result ≡ status reason }
{
    match reason {
        ExitReason::BadArguments => 1,
        ExitReason::OutOfMemory => 2,
        ExitReason::ReadFailed => 3,
        ExitReason::WriteFailed => 4,
        ExitReason::SessionTooLong => 5,
        ExitReason::BadFrame { frame: _ } => 6,
        ExitReason::Rejected => 7,
        ExitReason::Unsupported => 8,
        ExitReason::TimedOut => 9,
        ExitReason::Closed => 10,
        ExitReason::NeverSynced => 11,
    }
}

/// What is wrong, up to the number of a bad frame.
fn message_of(reason: ExitReason) -> &'static str
    ensures { reason_line reason
        ≡ failure_line (codes "spiffe_watch: ") result.now (frame_in reason) }
{
    match reason {
        ExitReason::BadArguments => "bad words\n",
        ExitReason::OutOfMemory => "out of memory\n",
        ExitReason::ReadFailed => "read failed\n",
        ExitReason::WriteFailed => "write failed\n",
        ExitReason::SessionTooLong => "session too long\n",
        ExitReason::BadFrame { frame: _ } => "bad frame ",
        ExitReason::Rejected => "request rejected\n",
        ExitReason::Unsupported => "required RPC is unsupported\n",
        ExitReason::TimedOut => "initial synchronization timed out\n",
        ExitReason::Closed => "source is closed\n",
        ExitReason::NeverSynced => "no update was accepted\n",
    }
}

/// Writes the line of the reason to `errors`, and returns
/// the exit status. A failure of `errors` changes nothing.
pub fn report<E: Sink>(errors: &mut E, reason: ExitReason) -> u8
    ensures status { result ≡ status reason }
    ensures line { IsReported (side (E.held errors.old) (E.failures errors.old))
        (side (E.held errors.new) (E.failures errors.new)) (reason_line reason) }
{
    spf_program::report(
        errors,
        "spiffe_watch: ",
        message_of(reason),
        frame_of(reason),
    );
    status_of(reason)
}

/// The number of a bad frame.
fn frame_of(reason: ExitReason) -> Option<u64>
    ensures { result ≡ frame_in reason }
{
    match reason {
        ExitReason::BadFrame { frame } => Some(frame),
        _ => None,
    }
}
