//! The exit status of an end, and its line on the error output.

ghost use Rattle.std.specs.Prelude.{◌≡◌};
ghost use Rattle.spf_program.specs.Reports.{IsReported};
ghost use Rattle.spf_program.specs.Streams.{side};
ghost use Rattle.spf_proto.specs.Watching.{line_of_end, message, number, status, status_of_end};

use crate::proto_error::ProtoError;
use spf_io::Sink;
use spf_program::{follow_message, follow_number, follow_status};

fn status_of(error: &ProtoError) -> u8
    ensures { result ≡ status error.now }
{
    match error {
        ProtoError::Follow(error) => follow_status(error),
        ProtoError::TooManyMessages => 5,
        ProtoError::BadMessage { message: _ } => 6,
    }
}

/// What is wrong, up to the number of a bad message.
fn message_of(error: &ProtoError) -> &'static str
    ensures { result.now ≡ message error.now }
{
    match error {
        ProtoError::Follow(error) => follow_message(error),
        ProtoError::TooManyMessages => "too many messages\n",
        ProtoError::BadMessage { message: _ } => "bad message ",
    }
}

fn number_of(error: &ProtoError) -> Option<u64>
    ensures { result ≡ number error.now }
{
    match error {
        ProtoError::Follow(error) => follow_number(error),
        ProtoError::TooManyMessages => None,
        ProtoError::BadMessage { message } => Some(*message),
    }
}

/// Writes the line of an end, where it has one, and returns the
/// exit status. A failure of `errors` changes nothing.
pub(crate) fn report<E: Sink>(errors: &mut E, end: &Result<u64, ProtoError>) -> u8
    ensures status { result ≡ status_of_end end.now }
    ensures line { IsReported (side (E.held errors.old) (E.failures errors.old))
        (side (E.held errors.new) (E.failures errors.new)) (line_of_end end.now) }
{
    match end {
        Ok(_) => 0,
        Err(error) => {
            spf_program::report(errors, "spf_proto: ", message_of(error), number_of(error));
            status_of(error)
        }
    }
}
