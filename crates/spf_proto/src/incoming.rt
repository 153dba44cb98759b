//! The octets of a message, gathered as they come.

ghost use Rattle.std.specs.Prelude.{◌≡◌, ◌<◌, ◌≤◌, ◌==◌, ◌+◌, ◌^◌, [], OnOk, length, max};
ghost use Rattle.std.specs.Prelude.{take};
ghost use Rattle.spf_proto.specs.Taking.{Came, IsSome, StopHasCause};

use crate::lent::LentSource;
use crate::taking::Stop;
use spf_io::OutOfMemory;
use std::alloc::Global;
use std::marker::Model;

/// How many octets a buffer grows by at least.
const CHUNK: usize = 1 << 16;

/// A buffer whose first octets came. Contracts see those.
#[derive(Drop)]
pub(crate) struct Incoming {
    buffer: Vec<u8>,
    filled: usize,
}

impl Model for Incoming {
    ghost use Rattle.std.specs.Prelude.{ℕ, List, ◌≤◌, take, vec_len};

    ghost Value = { List ℕ };

    ghost view = { λ s. take s.filled s.buffer.items };

    ghost invariant = { λ s. s.filled ≤ vec_len s.buffer };
}

/// Makes room after the octets that came: for as many again, or for a chunk.
fn make_room(buffer: &mut Vec<u8>, filled: usize) -> Result<(), OutOfMemory>
    requires within { filled ≤ length buffer.old.items }
    ensures kept { take filled buffer.new.items ≡ take filled buffer.old.items }
    ensures within { filled ≤ length buffer.new.items }
    ensures room { OnOk result (filled < length buffer.new.items) }
    ensures bounded { length buffer.new.items ≤ length buffer.old.items + max filled (2 ^ 16) }
{
    if filled < buffer.len() {
        return Ok(());
    }
    buffer.resize(filled.saturating_add(filled.max(CHUNK)), 0)?;
    Ok(())
}

impl Incoming {
    /// No octets.
    pub(crate) fn new(alloc: Global) -> Incoming
        ensures { result ≡ [] }
    {
        Incoming {
            buffer: Vec::new(alloc),
            filled: 0,
        }
    }

    pub(crate) fn as_slice(&self) -> &[u8]
        ensures { result.now ≡ self.now }
    {
        &self.buffer[..self.filled]
    }

    pub(crate) fn is_empty(&self) -> bool
        ensures { result ≡ (length self.now == 0) }
    {
        self.filled == 0
    }

    pub(crate) fn clear(&mut self)
        ensures { self.new ≡ [] }
    {
        self.filled = 0;
    }

    /// Reads at most `missing` octets, straight into the buffer and no more than it has room for,
    /// and adds them to those that came.
    pub(crate) fn read_from<T: LentSource>(
        &mut self,
        source: &mut T,
        missing: usize,
    ) -> Result<usize, Stop>
        requires missing { 0 < missing }
        ensures came { Came (T.left source.old) (T.left source.new) self.old self.new }
        ensures some { IsSome (length self.old) (length self.new) missing (T.left source.new)
            result }
        ensures cause { StopHasCause (T.failures source.old) (T.failures source.new) result }
        ensures loan { T.loan source.new ≡ T.loan source.old }
    {
        match make_room(&mut self.buffer, self.filled) {
            Ok(()) => {}
            Err(_) => return Err(Stop::OutOfMemory),
        }
        let end = self.filled + missing.min(self.buffer.len() - self.filled);
        match source.read(&mut self.buffer[self.filled..end]) {
            Ok(n) => {
                self.filled += n;
                Ok(n)
            }
            Err(_) => Err(Stop::SourceFailed),
        }
    }
}
