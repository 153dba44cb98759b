//! Writing to standard output.

ghost use Rattle.std.specs.Prelude.{◌≡◌};
ghost use Rattle.spf_watch.specs.Causes.{HasCauses};
ghost use Rattle.spf_watch.specs.Headline.{Puts};

use crate::exit_reason::ExitReason;
use spf_io::{Failed, Sink};

/// Writes a piece of what is asked for.
pub fn put<K: Sink>(out: &mut K, piece: &[u8]) -> Result<(), ExitReason>
    ensures text { Puts (λ text. text ≡ piece.now) (K.held out.old) (K.held out.new) result }
    ensures cause { HasCauses 0 0 (K.failures out.old) (K.failures out.new) result }
{
    match out.put(piece) {
        Ok(()) => Ok(()),
        Err(Failed) => Err(ExitReason::WriteFailed),
    }
}
