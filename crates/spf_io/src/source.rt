//! What bytes are read from.

ghost use Rattle.std.specs.Prelude.{◌≡◌, ◌↔◌, ℕ, List, Option, Some, IfOk, IsErr, IsTrue, length};
ghost use Rattle.std.specs.Prelude.{option_map};
ghost use Rattle.std.specs.Io.{ReadsAtMost};
ghost use Rattle.std.specs.Io.KnownBytes.{ReadConsumes};
ghost use Rattle.spf_io.specs.Memory.{cut_to, given, failures_after, is_failing, next_number};
ghost use Rattle.spf_io.specs.Outside.{HasCause};

use crate::memory::Failed;
use std::io::Read;
use std::marker::Model;

/// A source of bytes, which counts how often it failed.
pub trait Source {
    // The bytes that reads return from here on, where they are known.
    ghost left: { Self → Option (List ℕ) };
    // How often the source has failed.
    ghost failures: { Self → ℕ };

    /// Reads the first of the bytes left. A result of 0 for a buffer that is not empty is the end
    /// of input.
    fn read(&mut self, buf: &mut [u8]) -> Result<usize, Failed>
        ensures bound { ReadsAtMost result buf.new }
        ensures bytes { ReadConsumes (left self.old) (left self.new) result buf.new }
        ensures cause { HasCause (failures self.old) (failures self.new) result };
}

/// A source of bytes in memory, whose reads are short and fail as configured.
#[derive(Debug, Drop)]
pub struct MemSource {
    bytes: Vec<u8>,
    at: usize,
    cuts: Vec<usize>,
    failing: Vec<u64>,
    reads: u64,
    failed: u64,
}

impl Model for MemSource {
    ghost use Rattle.std.specs.Prelude.{◌≤◌, drop, vec_len};
    ghost use Rattle.spf_io.specs.Memory.{MemoryRead};

    ghost Value = { MemoryRead };

    ghost view = { λ s. record {
      left = drop s.at s.bytes.items;
      cuts = s.cuts.items;
      failing = s.failing.items;
      reads = s.reads;
      failures = s.failed;
    } };

    ghost invariant = { λ s. s.at ≤ vec_len s.bytes };
}

impl MemSource {
    /// Read number k, from 1, fails if k is in `failing`. Otherwise it returns at most
    /// `cuts[k - 1]` bytes, a cut of 0 counting as 1, and as many as fit after the cuts are used.
    pub fn new(bytes: Vec<u8>, cuts: Vec<usize>, failing: Vec<u64>) -> MemSource
        ensures left { ⟦<MemSource as Source>⟧.left result ≡ Some bytes.items }
        ensures failures { ⟦<MemSource as Source>⟧.failures result ≡ 0 }
        ensures made { result ≡ record {
          left = bytes.items;
          cuts = cuts.items;
          failing = failing.items;
          reads = 0;
          failures = 0;
        } }
    {
        MemSource {
            bytes,
            at: 0,
            cuts,
            failing,
            reads: 0,
            failed: 0,
        }
    }
}

/// `n` bytes, or the cut of a read where that is less.
fn within(cut: Option<&usize>, n: usize) -> usize
    ensures { result ≡ cut_to (option_map (λ c. c.now) cut.entry) n }
{
    match cut {
        None => n,
        Some(cut) => n.min((*cut).max(1)),
    }
}

impl Source for MemSource {
    ghost left = { λ s. Some s.left };

    ghost failures = { λ s. s.failures };

    fn read(&mut self, buf: &mut [u8]) -> Result<usize, Failed>
        ensures bound { ReadsAtMost result buf.new }
        ensures bytes { ReadConsumes (Some self.old.left) (Some self.new.left) result buf.new }
        ensures cause { HasCause self.old.failures self.new.failures result }
        ensures fails { IsErr result
            ↔ IsTrue (is_failing self.old.failing (next_number self.old.reads)) }
        ensures gives { IfOk result (λ n. n ≡ given self.old (length buf.old)) }
        ensures counts { self.new ≡ record self.old {
          left = self.new.left;
          reads = next_number self.old.reads;
          failures = failures_after result self.old.failures;
        } }
    {
        self.reads = self.reads.saturating_add(1);
        if self.failing.contains(&self.reads) {
            self.failed = self.failed.saturating_add(1);
            return Err(Failed);
        }
        let room = buf.len().min(self.bytes.len() - self.at);
        let n = within(self.cuts.get((self.reads - 1) as usize), room);
        buf[..n].copy_from_slice(&self.bytes[self.at..self.at + n]);
        self.at += n;
        Ok(n)
    }
}

/// A source over a reader of std, whose bytes are known where
/// those of the reader are: not for a file or a terminal.
#[derive(Debug, Drop)]
pub struct StdSource<R> {
    reader: R,
    failed: u64,
}

impl<R: Read> StdSource<R> {
    pub fn new(reader: R) -> StdSource<R>
        ensures left { ⟦<StdSource<R> as Source>⟧.left result ≡ R.remaining reader }
        ensures failures { ⟦<StdSource<R> as Source>⟧.failures result ≡ 0 }
    {
        StdSource { reader, failed: 0 }
    }
}

impl<R: Read> Source for StdSource<R> {
    ghost left = { λ s. R.remaining s.reader };

    ghost failures = { λ s. s.failed };

    #[inline(always)]
    fn read(&mut self, buf: &mut [u8]) -> Result<usize, Failed>
        ensures bound { ReadsAtMost result buf.new }
        ensures bytes { ReadConsumes (⟦<StdSource<R> as Source>⟧.left self.old)
            (⟦<StdSource<R> as Source>⟧.left self.new) result buf.new }
        ensures cause { HasCause (⟦<StdSource<R> as Source>⟧.failures self.old)
            (⟦<StdSource<R> as Source>⟧.failures self.new) result }
        ensures counts { ⟦<StdSource<R> as Source>⟧.failures self.new
            ≡ failures_after result (⟦<StdSource<R> as Source>⟧.failures self.old) }
    {
        match self.reader.read(buf) {
            Ok(n) => Ok(n),
            Err(_) => {
                self.failed = self.failed.saturating_add(1);
                Err(Failed)
            }
        }
    }
}
