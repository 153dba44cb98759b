//! The end of a live run: its exit status, and its line on standard error.

ghost use Rattle.std.specs.Prelude.{◌≡◌};
ghost use Rattle.spf_program.specs.Reports.{IsEndReported};
ghost use Rattle.spf_program.specs.Streams.{side};
ghost use Rattle.spf_live.specs.Ends as spec;
ghost use Rattle.spf_live.specs.Ends.{end_status, error_line};

use crate::error::{LiveError, message_of, status_of};
use spf_io::Sink;

/// How a run ends, by how printing ended, and whether there is a record of the supervisor.
pub(crate) fn end_of(printed: Result<(), LiveError>, is_recorded: bool) -> Result<(), LiveError>
    ensures { result ≡ spec.end_of printed is_recorded }
{
    match printed {
        Ok(()) if is_recorded => Ok(()),
        Ok(()) => Err(LiveError::OutOfMemory),
        Err(e) => Err(e),
    }
}

/// Writes the line of an error to `errors`, and returns the exit status. A failure of `errors`
/// changes nothing.
pub fn report<E: Sink>(errors: &mut E, end: Result<(), LiveError>) -> u8
    ensures status { result ≡ end_status end }
    ensures line { IsEndReported error_line (side (E.held errors.old) (E.failures errors.old))
        (side (E.held errors.new) (E.failures errors.new)) end }
{
    match end {
        Ok(()) => 0,
        Err(error) => {
            spf_program::report(errors, "spiffe_watch: ", message_of(error), None);
            status_of(error)
        }
    }
}
