//! The exit status of an error, and its line on the error output.

ghost use Rattle.std.specs.Prelude.{◌≡◌};
ghost use Rattle.spf_program.specs.Reports.{IsReported};
ghost use Rattle.spf_program.specs.Streams.{side};
ghost use Rattle.spf_helper.specs.Watching.{line_of_end, message, number, status, status_of_end};

use crate::helper_error::HelperError;
use spf_disk::OpenError;
use spf_io::Sink;
use spf_program::{follow_message, follow_number, follow_status};

fn status_of(error: &HelperError) -> u8
    ensures { result ≡ status error.now }
{
    match error {
        HelperError::Open(OpenError::OutOfMemory) => 2,
        HelperError::Open(OpenError::DiskFault) => 21,
        HelperError::Open(OpenError::Damaged) => 22,
        HelperError::Follow(error) => follow_status(error),
        HelperError::DiskFault => 21,
        HelperError::Full => 23,
    }
}

/// What is wrong, up to the number of a bad frame.
fn message_of(error: &HelperError) -> &'static str
    ensures { result.now ≡ message error.now }
{
    match error {
        HelperError::Open(OpenError::OutOfMemory) => "out of memory\n",
        HelperError::Open(OpenError::DiskFault) => "disk failed\n",
        HelperError::Open(OpenError::Damaged) => "damaged\n",
        HelperError::Follow(error) => follow_message(error),
        HelperError::DiskFault => "disk failed\n",
        HelperError::Full => "full\n",
    }
}

fn number_of(error: &HelperError) -> Option<u64>
    ensures { result ≡ number error.now }
{
    match error {
        HelperError::Follow(error) => follow_number(error),
        _ => None,
    }
}

/// Writes why a run ended, unless it ended well, and returns the exit
/// status. A failure of the error output changes no status.
pub(crate) fn report<E: Sink>(errors: &mut E, end: &Result<u64, HelperError>) -> u8
    ensures status { result ≡ status_of_end end.now }
    ensures line { IsReported (side (E.held errors.old) (E.failures errors.old))
        (side (E.held errors.new) (E.failures errors.new)) (line_of_end end.now) }
{
    match end {
        Ok(_) => 0,
        Err(error) => {
            spf_program::report(errors, "spf_helper: ", message_of(error), number_of(error));
            status_of(error)
        }
    }
}
