//! A source that is lent for the time of a call.

ghost use Rattle.std.specs.Prelude.{◌≡◌, ℕ, List, Option};
ghost use Rattle.std.specs.Io.{ReadsAtMost};
ghost use Rattle.std.specs.Io.KnownBytes.{ReadConsumes};
ghost use Rattle.spf_io.specs.Outside.{HasCause};

use spf_io::{Failed, Source};

/// A source that goes on being the same loan, whatever is read of it.
pub(crate) trait LentSource {
    // Which loan it is.
    ghost loan: { Self → ℕ };

    ghost left: { Self → Option (List ℕ) };

    ghost failures: { Self → ℕ };

    fn read(&mut self, buf: &mut [u8]) -> Result<usize, Failed>
        ensures bound { ReadsAtMost result buf.new }
        ensures bytes { ReadConsumes (left self.old) (left self.new) result buf.new }
        ensures cause { HasCause (failures self.old) (failures self.new) result }
        ensures loan { loan self.new ≡ loan self.old };
}

impl<S: Source> LentSource for &mut S {
    ghost loan = { λ s. s.ghost_name };

    ghost left = { λ s. S.left s.now };

    ghost failures = { λ s. S.failures s.now };

    fn read(&mut self, buf: &mut [u8]) -> Result<usize, Failed> {
        Source::read(&mut **self, buf)
    }
}
