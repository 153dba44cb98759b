//! The buffer that payloads are read into.

ghost use Rattle.std.specs.Prelude.{◌≡◌, ◌≤◌, [], take, length as list_len, OnOk, vec_len};
ghost use Rattle.spf_frame.specs.Parts.{PartPut, FailureHasCause};

use crate::error::FrameError;
use crate::fill::fill;
use spf_api::SecretLength;
use spf_io::Source;
use std::alloc::Global;
use std::fmt;
use std::marker::Model;

/// How many octets a buffer is made for before any of a payload has come.
const CHUNK: usize = 1 << 16;

/// The payload of a frame, which contracts see as its octets. What is cut off leaves its room, so
/// that a buffer that is read into again is not filled up with zeroes first. Debug output shows only
/// its length.
#[derive(Drop)]
pub struct Payload {
    octets: Vec<u8>,
    end: usize,
}

impl Model for Payload {
    ghost use Rattle.std.specs.Prelude.{◌≤◌, ℕ, List, take, vec_len};

    ghost Value = { List ℕ };

    ghost view = { λ p. take p.end p.octets.items };

    ghost invariant = { λ p. p.end ≤ vec_len p.octets };
}

impl fmt::Debug for Payload {
    fn fmt<W: fmt::Write>(&self, f: &mut fmt::Formatter<W>) -> fmt::Result {
        f.debug_struct("Payload")
            .field("octets", &SecretLength(self.end))
            .finish()
    }
}

/// Reads octets in place of what a shorter buffer held. It grows with what came: at most to twice
/// the octets that were read, or to [`CHUNK`].
#[inline(never)]
fn read_growing<S: Source>(
    source: &mut S,
    octets: &mut Vec<u8>,
    length: u32,
) -> Result<(), FrameError>
    requires { vec_len octets.old ≤ length }
    ensures bytes { PartPut (λ p. p) (λ p. list_len p ≡ length) (take length) (S.left source.old)
        (S.left source.new) result octets.new.items }
    ensures cause { FailureHasCause (S.failures source.old) (S.failures source.new) result }
{
    let total = length as usize;
    let mut filled = 0;
    while filled < total {
        let end = total.min(octets.len().max(CHUNK).max(2 * filled));
        match octets.resize(end, 0) {
            Ok(()) => {}
            Err(_) => return Err(FrameError::OutOfMemory),
        }
        match fill(source, &mut octets[filled..]) {
            Ok(more) => {
                if more < end - filled {
                    return Err(FrameError::BadFrame);
                }
            }
            Err(_) => return Err(FrameError::ReadFault),
        }
        filled = end;
    }
    Ok(())
}

/// Reads octets to the front of a buffer, which grows only where it is shorter.
#[inline(always)]
fn read_front<S: Source>(
    source: &mut S,
    octets: &mut Vec<u8>,
    length: u32,
) -> Result<(), FrameError>
    ensures bytes { PartPut (λ p. p) (λ p. list_len p ≡ length) (take length) (S.left source.old)
        (S.left source.new) result (take length octets.new.items) }
    ensures room { OnOk result (length ≤ vec_len octets.new) }
    ensures cause { FailureHasCause (S.failures source.old) (S.failures source.new) result }
{
    let total = length as usize;
    if octets.len() < total {
        return read_growing(source, octets, length);
    }
    match fill(source, &mut octets[0..total]) {
        Ok(n) => {
            if n < total {
                return Err(FrameError::BadFrame);
            }
            Ok(())
        }
        Err(_) => Err(FrameError::ReadFault),
    }
}

impl Payload {
    pub fn new(alloc: Global) -> Payload
        ensures { result ≡ [] }
    {
        Payload {
            octets: Vec::new(alloc),
            end: 0,
        }
    }

    pub fn as_slice(&self) -> &[u8]
        ensures { result.now ≡ self.now }
    {
        &self.octets[..self.end]
    }

    /// Returns the octets in a vector of their length.
    pub(crate) fn into_octets(self) -> Vec<u8>
        ensures { result.items ≡ self }
    {
        let mut octets = self.octets;
        octets.truncate(self.end);
        octets
    }

    /// Reads a payload of this length in place of the last one.
    #[inline(always)]
    pub(crate) fn read<S: Source>(&mut self, source: &mut S, length: u32) -> Result<(), FrameError>
        ensures bytes { PartPut (λ p. p) (λ p. list_len p ≡ length) (take length)
            (S.left source.old) (S.left source.new) result self.new }
        ensures cause { FailureHasCause (S.failures source.old) (S.failures source.new) result }
    {
        self.end = 0;
        match read_front(source, &mut self.octets, length) {
            Ok(()) => {
                self.end = length as usize;
                Ok(())
            }
            Err(e) => Err(e),
        }
    }
}
