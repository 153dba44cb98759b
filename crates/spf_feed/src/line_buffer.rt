//! The buffer that a line is written into.

ghost use Rattle.std.specs.Prelude.{◌≡◌, ◌≤◌, ◌+◌, ◌++◌, ◌∷◌, [], take, drop, length, decimal};
ghost use Rattle.std.specs.Prelude.{OnOk, vec_len};
ghost use Rattle.hex.specs.Hex.{encode_lower};
ghost use Rattle.spf_io.specs.Outside.{HasCause, PutAppends};

use crate::hexadecimal::write_hex;
use spf_io::{Failed, OutOfMemory, Sink};
use std::alloc::Global;
use std::marker::Model;

/// How many octets a buffer grows by beyond those that are needed.
const SPARE: usize = 1 << 12;

/// A line, which contracts see as its octets. What is cut off leaves its room, so that a buffer
/// that is written into again is not filled up with zeroes first.
#[derive(Drop)]
pub(crate) struct LineBuffer {
    octets: Vec<u8>,
    end: usize,
}

impl Model for LineBuffer {
    ghost use Rattle.std.specs.Prelude.{◌≤◌, ℕ, List, take, vec_len};

    ghost Value = { List ℕ };

    ghost view = { λ b. take b.end b.octets.items };

    ghost invariant = { λ b. b.end ≤ vec_len b.octets };
}

/// Grows to somewhat more than is needed, so that few zeroes are written that are never used. The
/// vector at least doubles its capacity behind them, so that its octets are seldom copied.
#[inline(never)]
fn grow(octets: &mut Vec<u8>, end: usize, more: usize) -> Result<(), OutOfMemory>
    requires front { end ≤ vec_len octets.old }
    requires lacks { vec_len octets.old ≤ end + more }
    ensures room { OnOk result (end + more ≤ vec_len octets.new) }
    ensures kept { take end octets.new.items ≡ take end octets.old.items }
    ensures grows { vec_len octets.old ≤ vec_len octets.new }
{
    let Some(size) = end.checked_add(more) else {
        return Err(OutOfMemory);
    };
    octets.resize(size.saturating_add(SPARE), 0)?;
    Ok(())
}

/// Makes room for more octets after the first ones, which stay.
#[inline(always)]
fn make_room(octets: &mut Vec<u8>, end: usize, more: usize) -> Result<(), OutOfMemory>
    requires { end ≤ vec_len octets.old }
    ensures room { OnOk result (end + more ≤ vec_len octets.new) }
    ensures kept { take end octets.new.items ≡ take end octets.old.items }
    ensures grows { vec_len octets.old ≤ vec_len octets.new }
{
    if more <= octets.len() - end {
        return Ok(());
    }
    grow(octets, end, more)
}

impl LineBuffer {
    pub(crate) fn new(alloc: Global) -> LineBuffer
        ensures { result ≡ [] }
    {
        LineBuffer {
            octets: Vec::new(alloc),
            end: 0,
        }
    }

    /// Keeps the first octets alone.
    pub(crate) fn cut(&mut self, end: usize)
        requires { end ≤ length self.old }
        ensures { self.new ≡ take end self.old }
    {
        self.end = end;
    }

    pub(crate) fn push(&mut self, octet: u8) -> Result<(), OutOfMemory>
        ensures text { OnOk result (self.new ≡ self.old ++ octet ∷ []) }
        ensures grows { length self.old ≤ length self.new }
    {
        make_room(&mut self.octets, self.end, 1)?;
        self.octets[self.end] = octet;
        self.end += 1;
        Ok(())
    }

    pub(crate) fn extend(&mut self, octets: &[u8]) -> Result<(), OutOfMemory>
        ensures text { OnOk result (self.new ≡ self.old ++ octets.now) }
        ensures grows { length self.old ≤ length self.new }
    {
        make_room(&mut self.octets, self.end, octets.len())?;
        let end = self.end + octets.len();
        self.octets[self.end..end].copy_from_slice(octets);
        self.end = end;
        Ok(())
    }

    /// Appends two digits for each octet.
    pub(crate) fn push_hex(&mut self, octets: &[u8]) -> Result<(), OutOfMemory>
        ensures text { OnOk result (self.new ≡ self.old ++ encode_lower octets.now) }
        ensures grows { length self.old ≤ length self.new }
    {
        let Some(size) = octets.len().checked_mul(2) else {
            return Err(OutOfMemory);
        };
        make_room(&mut self.octets, self.end, size)?;
        let end = self.end + size;
        write_hex(octets, &mut self.octets[self.end..end]);
        self.end = end;
        Ok(())
    }

    /// Puts what follows the room, with a number before it that is written into the room.
    pub(crate) fn put_numbered<K: Sink>(
        &mut self,
        sink: &mut K,
        number: u64,
        room: usize,
    ) -> Result<(), Failed>
        requires number { 20 ≤ room }
        requires text { room ≤ length self.old }
        ensures bytes { PutAppends (K.held sink.old) (K.held sink.new) result
            (decimal number ++ drop room self.old) }
        ensures text { drop room self.new ≡ drop room self.old }
        ensures size { length self.new ≡ length self.old }
        ensures cause { HasCause (K.failures sink.old) (K.failures sink.new) result }
    {
        let start = itoa::write_digits(number, &mut self.octets, room);
        sink.put(&self.octets[start..self.end])
    }

    pub(crate) fn into_octets(self) -> Vec<u8>
        ensures { result.items ≡ self }
    {
        let mut octets = self.octets;
        octets.truncate(self.end);
        octets
    }
}
