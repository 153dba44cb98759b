//! The end of a live run of the gate: its exit status, and its line on standard error.

ghost use Rattle.std.specs.Prelude.{◌≡◌};
ghost use Rattle.spf_gate_live.specs.Ends.{end_status, error_line};
ghost use Rattle.spf_program.specs.Reports.{IsEndReported};
ghost use Rattle.spf_program.specs.Streams.{side};

use crate::live_error::{LiveGateError, message_of, number_of, status_of};
use spf_io::Sink;

/// Puts the line of an error to `errors`, and returns the exit status. A failure of `errors`
/// changes nothing.
pub fn report<E: Sink>(errors: &mut E, end: Result<(), LiveGateError>) -> u8
    ensures status { result ≡ end_status end }
    ensures line { IsEndReported error_line (side (E.held errors.old) (E.failures errors.old))
        (side (E.held errors.new) (E.failures errors.new)) end }
{
    match end {
        Ok(()) => 0,
        Err(error) => {
            spf_program::report(errors, "spf_gate: ", message_of(error), number_of(error));
            status_of(error)
        }
    }
}
