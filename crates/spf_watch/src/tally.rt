//! A sink that keeps a summary of the lines that are put to it.

ghost use Rattle.std.specs.Prelude.{◌≡◌, ◌≤◌, ◌<◌, ◌-◌, ◌^◌, ◌++◌, [], Some, length, take, IfOk};
ghost use Rattle.std.specs.Prelude.{OnErr};
ghost use Rattle.spf_watch.specs.Tallied.{first_word, after_word, revision_in, withdrawn_in};
ghost use Rattle.spf_watch.specs.Tallied.{tally_of};
ghost use Rattle.spf_program.specs.Numbers as spec;

use crate::ghost_bytes::GhostBytes;
use memchr::memchr;
use spf_io::{Failed, Sink};
use spf_program::number_up_to;
use std::alloc::{AllocError, Global};
use std::marker::Model;

/// A sink that keeps the last revision of the lines, and how many of them are withdrawn.
#[derive(Drop)]
pub(crate) struct Tally {
    counts: Counts,
    unfinished: Vec<u8>,
    failed: u64,
    written: GhostBytes,
}

impl Model for Tally {
    ghost use Rattle.std.specs.Prelude.{◌≡◌};
    ghost use Rattle.spf_watch.specs.Tallied.{TallyValue, tally_of};

    ghost Value = { TallyValue };

    ghost view = { λ t. record { held = t.written.bytes; failures = t.failed } };

    ghost invariant = { λ t. tally_of t.written.bytes ≡ record {
      revision = t.counts.revision;
      withdrawn = t.counts.withdrawn;
      unfinished = t.unfinished.items;
    } };
}

impl Tally {
    pub(crate) fn new(alloc: Global) -> Tally
        ensures held { ⟦<Tally as Sink>⟧.held result ≡ Some [] }
        ensures failures { ⟦<Tally as Sink>⟧.failures result ≡ 0 }
    {
        Tally {
            counts: Counts {
                revision: 0,
                withdrawn: 0,
            },
            unfinished: Vec::new(alloc),
            failed: 0,
            written: GhostBytes::new(),
        }
    }

    /// The second word of the last finished line where it is a number; 0 where there is none.
    pub(crate) fn revision(&self) -> u64
        ensures { result ≡ (tally_of self.now.held).revision }
    {
        self.counts.revision
    }

    /// How many finished lines have the third word `withdrawn`, at most `u64::MAX`.
    pub(crate) fn withdrawn(&self) -> u64
        ensures { result ≡ (tally_of self.now.held).withdrawn }
    {
        self.counts.withdrawn
    }

    /// Takes a piece up to its first line feed, or all of it, and returns how many bytes it took.
    fn take_line(&mut self, piece: &[u8]) -> Result<usize, AllocError>
        ensures some { IfOk result (λ n. (n ≤ length piece.now) × (0 < length piece.now → 0 < n)) }
        ensures held { IfOk result (λ n. self.new.held ≡ self.old.held ++ take n piece.now) }
        ensures nothing { OnErr result (self.new.held ≡ self.old.held) }
        ensures failures { self.new.failures ≡ self.old.failures }
    {
        let Some(index) = memchr(b'\n', piece) else {
            self.unfinished.extend_from_slice(piece)?;
            self.written.append(piece);
            return Ok(piece.len());
        };
        let end = &piece[..index];
        if self.unfinished.is_empty() {
            self.counts.add(end);
        } else {
            self.unfinished.extend_from_slice(end)?;
            self.counts.add(self.unfinished.as_slice());
            self.unfinished.clear();
        }
        self.written.append(&piece[..index + 1]);
        Ok(index + 1)
    }
}

impl Sink for Tally {
    ghost held = { λ t. Some t.held };

    ghost failures = { λ t. t.failures };

    fn put(&mut self, piece: &[u8]) -> Result<(), Failed> {
        let mut at = 0;
        while at < piece.len() {
            match self.take_line(&piece[at..]) {
                Ok(n) => at += n,
                Err(_) => {
                    self.failed = self.failed.saturating_add(1);
                    return Err(Failed);
                }
            }
        }
        Ok(())
    }
}

/// What the finished lines say.
#[derive(Drop)]
struct Counts {
    revision: u64,
    withdrawn: u64,
}

impl Counts {
    /// Counts a line, without its line feed.
    fn add(&mut self, line: &[u8])
        ensures revision { self.new.revision ≡ revision_in self.old.revision line.now }
        ensures withdrawn { self.new.withdrawn ≡ withdrawn_in self.old.withdrawn line.now }
    {
        let (_number, rest) = split_word(line);
        let (revision, rest) = split_word(rest);
        let (view, _) = split_word(rest);
        self.revision = number_in(revision).unwrap_or(self.revision);
        if view == b"withdrawn".as_slice() {
            self.withdrawn = self.withdrawn.saturating_add(1);
        }
    }
}

/// The bytes before the first space, and those after it.
fn split_word(line: &[u8]) -> (&[u8], &[u8])
    ensures word { result.0.now ≡ first_word line.now }
    ensures rest { result.1.now ≡ after_word line.now }
{
    match memchr(b' ', line) {
        None => (line, &[]),
        Some(index) => (&line[..index], &line[index + 1..]),
    }
}

/// The number that a word spells.
fn number_in(word: &[u8]) -> Option<u64>
    ensures { result ≡ spec.number_up_to (2 ^ 64 - 1) word.now }
{
    number_up_to(u64::MAX, str::from_utf8(word).ok()?)
}
