//! Taking the octets of one message from a source, as they come.

ghost use Rattle.std.specs.Prelude.{◌≡◌, ◌≢◌, ◌≤◌, ℕ, length, IfOk};
ghost use Rattle.spf_proto.specs.Body.{total};
ghost use Rattle.spf_proto.specs.Taking.{Came, IsStep, StopHasCause};
ghost use Rattle.spf_proto.specs.declared.taking.Progress.TheVariants as progress;

use crate::incoming::Incoming;
use crate::lent::LentSource;
use crate::octets::{Needed, need};

/// How far a message has come.
#[derive(Clone, Copy, PartialEq, Eq)]
pub(crate) enum Progress {
    More,
    Whole,
    /// The source ended between two messages.
    End,
}

/// Why no message comes.
#[derive(Clone, Copy, PartialEq, Eq)]
pub(crate) enum Stop {
    BadMessage,
    TooManyMessages,
    SourceFailed,
    OutOfMemory,
}

/// One read, where the message needs one.
fn step<T: LentSource>(source: &mut T, got: &mut Incoming, allowed: u32) -> Result<Progress, Stop>
    requires sized { length got.old ≤ total got.old }
    ensures came { Came (T.left source.old) (T.left source.new) got.old got.new }
    ensures sized { length got.new ≤ total got.new }
    ensures step { IsStep allowed (length got.old) got.new (T.left source.new) result }
    ensures cause { StopHasCause (T.failures source.old) (T.failures source.new) result }
    ensures loan { T.loan source.new ≡ T.loan source.old }
{
    if allowed == 0 && !got.is_empty() {
        return Err(Stop::TooManyMessages);
    }
    match need(got.as_slice()) {
        Needed::Bad => Err(Stop::BadMessage),
        Needed::Nothing => Ok(Progress::Whole),
        Needed::Octets(missing) => {
            if got.read_from(source, missing)? > 0 {
                return Ok(Progress::More);
            }
            if got.is_empty() {
                Ok(Progress::End)
            } else {
                Err(Stop::BadMessage)
            }
        }
    }
}

/// Takes a message, as far as it has not come yet. It stops where the source ends, where no octets
/// make a message of what came, and at the first octet where no message is allowed.
pub(crate) fn take_message<T: LentSource>(
    source: &mut T,
    got: &mut Incoming,
    allowed: u32,
) -> Result<Progress, Stop>
    requires sized { length got.old ≤ total got.old }
    ensures came { Came (T.left source.old) (T.left source.new) got.old got.new }
    ensures sized { length got.new ≤ total got.new }
    ensures step { (before : ℕ) × IsStep allowed before got.new (T.left source.new) result }
    ensures done { IfOk result (λ p. p ≢ progress.More) }
    ensures cause { StopHasCause (T.failures source.old) (T.failures source.new) result }
    ensures loan { T.loan source.new ≡ T.loan source.old }
{
    loop {
        match step(source, got, allowed)? {
            Progress::More => {}
            Progress::Whole => return Ok(Progress::Whole),
            Progress::End => return Ok(Progress::End),
        }
    }
}
