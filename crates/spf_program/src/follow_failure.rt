//! The exit status and the message of an error of a session.

ghost use Rattle.std.specs.Prelude.{◌≡◌};
ghost use Rattle.spf_program.specs.Reports as spec;

use spf_feed::FollowError;

/// Returns the exit status.
pub fn follow_status(error: &FollowError) -> u8
    ensures { result ≡ spec.follow_status error.now }
{
    match error {
        FollowError::OutOfMemory => 2,
        FollowError::ReadFault => 3,
        FollowError::WriteFault => 4,
        FollowError::SessionTooLong => 5,
        FollowError::BadFrame { frame: _ } => 6,
        FollowError::Source(_) => 7,
        FollowError::UnsupportedRpc(_) => 8,
        FollowError::InitialSyncTimeout => 9,
        FollowError::Closed => 10,
        FollowError::NeverSynced => 11,
    }
}

/// Returns what is wrong, up to the number of a bad frame.
pub fn follow_message(error: &FollowError) -> &'static str
    ensures { result.now ≡ spec.follow_message error.now }
{
    match error {
        FollowError::OutOfMemory => "out of memory\n",
        FollowError::ReadFault => "read failed\n",
        FollowError::WriteFault => "write failed\n",
        FollowError::SessionTooLong => "session too long\n",
        FollowError::BadFrame { frame: _ } => "bad frame ",
        FollowError::Source(_) => "request rejected\n",
        FollowError::UnsupportedRpc(_) => "required RPC is unsupported\n",
        FollowError::InitialSyncTimeout => "initial synchronization timed out\n",
        FollowError::Closed => "source is closed\n",
        FollowError::NeverSynced => "no update was accepted\n",
    }
}

/// Returns the number of a bad frame.
pub fn follow_number(error: &FollowError) -> Option<u64>
    ensures { result ≡ spec.follow_number error.now }
{
    match error {
        FollowError::BadFrame { frame } => Some(*frame),
        _ => None,
    }
}
