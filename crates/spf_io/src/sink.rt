//! What bytes are put to.

ghost use Rattle.std.specs.Prelude.{◌≡◌, ◌↔◌, ◌++◌, ℕ, List, Option, [], Some, IfOk, IsErr, IsTrue};
ghost use Rattle.std.specs.Prelude.{OnErr, length};
ghost use Rattle.spf_io.specs.Memory.{failures_after, is_refused, next_number};
ghost use Rattle.spf_io.specs.Outside.{HasCause, PutAppends};

use crate::memory::{Failed, OutOfMemory};
use std::alloc::Global;
use std::io::Write;
use std::marker::Model;

/// A sink of bytes, which counts how often it failed.
pub trait Sink {
    // The bytes that the sink holds, where they are known.
    ghost held: { Self → Option (List ℕ) };
    // How often the sink has failed.
    ghost failures: { Self → ℕ };

    /// Appends the piece. A failed call may leave a prefix of it.
    fn put(&mut self, piece: &[u8]) -> Result<(), Failed>
        ensures bytes { PutAppends (held self.old) (held self.new) result piece.now }
        ensures cause { HasCause (failures self.old) (failures self.new) result };
}

/// A sink in memory with room for a number of bytes, whose puts fail as configured.
#[derive(Debug, Drop)]
pub struct MemSink {
    held: Vec<u8>,
    room: usize,
    failing: Vec<u64>,
    puts: u64,
    failed: u64,
}

impl Model for MemSink {
    ghost use Rattle.std.specs.Prelude.{◌≤◌, vec_len, vec_capacity};
    ghost use Rattle.spf_io.specs.Memory.{MemoryPut};

    ghost Value = { MemoryPut };

    ghost view = { λ s. record {
      held = s.held.items;
      room = s.room;
      failing = s.failing.items;
      puts = s.puts;
      failures = s.failed;
    } };

    ghost invariant = { λ s. (vec_len s.held ≤ s.room) × (s.room ≤ vec_capacity s.held) };
}

impl MemSink {
    /// Allocates its room at once. Put number k, from 1, fails exactly where k is in `failing` or
    /// the piece does not fit in the room that is left; it then keeps nothing of the piece.
    pub fn new(alloc: Global, room: usize, failing: Vec<u64>) -> Result<MemSink, OutOfMemory>
        ensures held { IfOk result (λ s. ⟦<MemSink as Sink>⟧.held s ≡ Some []) }
        ensures failures { IfOk result (λ s. ⟦<MemSink as Sink>⟧.failures s ≡ 0) }
        ensures made { IfOk result
            (λ s. s ≡ record {
              held = [];
              room = room;
              failing = failing.items;
              puts = 0;
              failures = 0;
            }) }
    {
        let held = Vec::with_capacity(alloc, room)?;
        Ok(MemSink {
            held,
            room,
            failing,
            puts: 0,
            failed: 0,
        })
    }

    pub fn bytes(&self) -> &[u8]
        ensures { ⟦<MemSink as Sink>⟧.held self.now ≡ Some result.now }
    {
        self.held.as_slice()
    }
}

impl Sink for MemSink {
    ghost held = { λ s. Some s.held };

    ghost failures = { λ s. s.failures };

    fn put(&mut self, piece: &[u8]) -> Result<(), Failed>
        ensures bytes { PutAppends (Some self.old.held) (Some self.new.held) result piece.now }
        ensures cause { HasCause self.old.failures self.new.failures result }
        ensures fails { IsErr result ↔ IsTrue (is_refused self.old (length piece.now)) }
        ensures nothing { OnErr result (self.new.held ≡ self.old.held) }
        ensures counts { self.new ≡ record self.old {
          held = self.new.held;
          puts = next_number self.old.puts;
          failures = failures_after result self.old.failures;
        } }
    {
        self.puts = self.puts.saturating_add(1);
        if self.failing.contains(&self.puts) || piece.len() > self.room - self.held.len() {
            self.failed = self.failed.saturating_add(1);
            return Err(Failed);
        }
        match self.held.extend_from_slice(piece) {
            Ok(()) => Ok(()),
            Err(_) => unreachable!(),
        }
    }
}

/// A sink over a writer of std, whose bytes are known where those of the writer are: not for a file
/// or a terminal. A write that takes nothing of a piece is a failure.
#[derive(Debug, Drop)]
pub struct StdSink<W> {
    writer: W,
    failed: u64,
}

impl<W: Write> StdSink<W> {
    pub fn new(writer: W) -> StdSink<W>
        ensures held { ⟦<StdSink<W> as Sink>⟧.held result ≡ W.contents writer }
        ensures failures { ⟦<StdSink<W> as Sink>⟧.failures result ≡ 0 }
    {
        StdSink { writer, failed: 0 }
    }
}

impl<W: Write> Sink for StdSink<W> {
    ghost held = { λ s. W.contents s.writer };

    ghost failures = { λ s. s.failed };

    fn put(&mut self, piece: &[u8]) -> Result<(), Failed>
        ensures bytes { PutAppends (⟦<StdSink<W> as Sink>⟧.held self.old)
            (⟦<StdSink<W> as Sink>⟧.held self.new) result piece.now }
        ensures cause { HasCause (⟦<StdSink<W> as Sink>⟧.failures self.old)
            (⟦<StdSink<W> as Sink>⟧.failures self.new) result }
        ensures counts { ⟦<StdSink<W> as Sink>⟧.failures self.new
            ≡ failures_after result (⟦<StdSink<W> as Sink>⟧.failures self.old) }
    {
        let mut at = 0;
        while at < piece.len() {
            match self.writer.write(&piece[at..]) {
                Ok(0) | Err(_) => {
                    self.failed = self.failed.saturating_add(1);
                    return Err(Failed);
                }
                Ok(n) => at += n,
            }
        }
        Ok(())
    }
}
