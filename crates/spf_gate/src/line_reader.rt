//! Reading the lines of an input, which end with a line feed. The last one may lack it.

ghost use Rattle.std.specs.Prelude.{◌≡◌, ◌≢◌, ◌≤◌, ◌<◌, ◌+◌, [], length, take, drop, IfOk, OnOk};
ghost use Rattle.std.specs.Prelude.{IfErr, IsErrOf, OnErr};
ghost use Rattle.std.specs.Prelude.{string_bytes};
ghost use Rattle.std.specs.Io.KnownBytes.{prepend_known};
ghost use Rattle.spf_io.specs.Rule.{Gives};
ghost use Rattle.spf_gate.specs.declared.gate_error.GateError.TheVariants as errors;
ghost use Rattle.spf_gate.specs.Lines.{is_memory_gate, text_rule};
ghost use Rattle.spf_gate.specs.Reading.{Fills, FillsLine, HasNoFeed, HasRoom, IsFirstFeed};
ghost use Rattle.spf_gate.specs.Reading.{ReadHasCause, TakesLine, end_without_feed, number_after};

use crate::gate_error::GateError;
use memchr::memchr;
use spf_io::Source;
use std::alloc::Global;

/// The maximum number of bytes of a line.
const MAX_LINE: usize = 4096;

/// How many bytes are read at once.
const CHUNK: usize = 4096;

/// Where the first line of the bytes ends.
#[derive(Clone, Copy, PartialEq, Eq)]
pub(crate) enum LineEnd {
    /// A line feed follows this many bytes.
    Feed(usize),
    /// The input ends, after some bytes.
    Rest,
    /// There is no line.
    Nothing,
}

/// Reads a piece, and adds it to the bytes: none at the end of the source.
fn read_more<S: Source>(
    source: &mut S,
    piece: &mut [u8],
    octets: &mut Vec<u8>,
) -> Result<usize, GateError>
    requires piece { 0 < length piece.old }
    ensures fills { Fills (S.left source.old) (S.left source.new) octets.old.items octets.new.items
        result }
    ensures cause { ReadHasCause (S.failures source.old) (S.failures source.new) result }
    ensures piece { length piece.new ≡ length piece.old }
{
    octets.reserve(piece.len())?;
    match source.read(piece) {
        Ok(count) => match octets.extend_from_slice(&piece[..count]) {
            Ok(()) => Ok(count),
            Err(_) => unreachable!(),
        },
        Err(_) => Err(GateError::ReadFault),
    }
}

/// Checks that no byte follows the last line that is allowed.
fn check_room(octets: &[u8], max: u64, number: u64) -> Result<(), GateError>
    ensures { HasRoom octets.now max number result }
{
    if max <= number && !octets.is_empty() {
        return Err(GateError::TooManyLines);
    }
    Ok(())
}

/// How the bytes end where no more come, and no line feed stands among them.
fn end_of_input(octets: &[u8]) -> LineEnd
    ensures { result ≡ end_without_feed octets.now }
{
    if octets.is_empty() {
        LineEnd::Nothing
    } else {
        LineEnd::Rest
    }
}

/// Where the first line feed stands.
fn first_feed(octets: &[u8]) -> Option<usize>
    ensures { IsFirstFeed octets.now result }
{
    memchr(b'\n', octets)
}

/// Reads until the bytes hold a whole line, or until the source ends. No byte may follow the last
/// line that is allowed, and no line may be too long.
fn fill_line<S: Source>(
    source: &mut S,
    piece: &mut [u8],
    octets: &mut Vec<u8>,
    max: u64,
    number: u64,
) -> Result<LineEnd, GateError>
    requires piece { 0 < length piece.old }
    ensures fills { FillsLine (S.left source.old) (S.left source.new) octets.old.items
        octets.new.items max number result }
    ensures cause { ReadHasCause (S.failures source.old) (S.failures source.new) result }
    ensures piece { length piece.new ≡ length piece.old }
{
    loop {
        check_room(octets.as_slice(), max, number)?;
        if let Some(length) = first_feed(octets.as_slice()) {
            return Ok(LineEnd::Feed(length));
        }
        if octets.len() > MAX_LINE {
            return Err(GateError::LineTooLong { line: number + 1 });
        }
        match read_more(source, piece, octets) {
            Ok(0) => return Ok(end_of_input(octets.as_slice())),
            Ok(_) => {}
            Err(e) => return Err(e),
        }
    }
}

/// The text of a line of this number.
#[tactic(auto, unfolding(crate::specs::Lines::text_rule))]
fn line_text(octets: &[u8], number: u64) -> Result<&str, GateError>
    ensures text { IfOk result (λ text. text.now ≡ octets.now) }
    ensures rule { Gives is_memory_gate (λ _. tt) result (text_rule number octets.now) }
    ensures calm { IfErr result (λ e. (e ≢ errors.ReadFault) × (e ≢ errors.WriteFault)) }
{
    if octets.len() > MAX_LINE {
        return Err(GateError::LineTooLong { line: number });
    }
    match str::from_utf8(octets) {
        Ok(text) => Ok(text),
        Err(_) => Err(GateError::NotText { line: number }),
    }
}

/// Reads the lines of an input: what is read beyond the lines so far, how many these are, and how
/// many there may be.
#[derive(Drop)]
pub(crate) struct LineReader {
    piece: [u8; CHUNK],
    octets: Vec<u8>,
    number: u64,
    max: u64,
}

impl LineReader {
    pub(crate) fn new(alloc: Global, max: u64) -> LineReader
        ensures octets { result.octets.items ≡ [] }
        ensures number { result.number ≡ 0 }
        ensures max { result.max ≡ max }
    {
        LineReader {
            piece: [0; CHUNK],
            octets: Vec::new(alloc),
            number: 0,
            max,
        }
    }

    /// How many lines were taken.
    pub(crate) fn number(&self) -> u64
        ensures { result ≡ self.now.number }
    {
        self.number
    }

    /// Takes the first line of the bytes, with what ends it, into the text.
    fn take(&mut self, size: usize, taken: usize, text: &mut String) -> Result<(), GateError>
        requires size { size ≤ taken }
        requires taken { taken ≤ length self.old.octets.items }
        requires number { self.old.number < self.old.max }
        ensures rule { Gives is_memory_gate (λ _. tt) result
            (text_rule (self.old.number + 1) (take size self.old.octets.items)) }
        ensures text { OnOk result (string_bytes text.new ≡ take size self.old.octets.items) }
        ensures octets { OnOk result (self.new.octets.items ≡ drop taken self.old.octets.items) }
        ensures number { OnOk result (self.new.number ≡ self.old.number + 1) }
        ensures refused { OnErr result ((self.new.octets.items ≡ self.old.octets.items)
            × (self.new.number ≡ self.old.number)) }
        ensures max { self.new.max ≡ self.old.max }
        ensures calm { IfErr result (λ e. (e ≢ errors.ReadFault) × (e ≢ errors.WriteFault)) }
    {
        let line = line_text(&self.octets[..size], self.number + 1)?;
        text.clear();
        text.push_str(line)?;
        self.octets.drain(..taken);
        self.number += 1;
        Ok(())
    }

    /// Takes the next line into the text, without its line feed. False at the end of the input.
    pub(crate) fn take_line<S: Source>(
        &mut self,
        source: &mut S,
        text: &mut String,
    ) -> Result<bool, GateError>
        ensures takes { TakesLine self.old.max (self.old.number + 1)
            (prepend_known self.old.octets.items (S.left source.old))
            (prepend_known self.new.octets.items (S.left source.new)) (string_bytes text.new)
            result }
        ensures number { self.new.number ≡ number_after self.old.number result }
        ensures max { self.new.max ≡ self.old.max }
        ensures cause { ReadHasCause (S.failures source.old) (S.failures source.new) result }
        ensures begun { IsErrOf result errors.ReadFault → HasNoFeed self.new.octets.items }
    {
        match fill_line(
            source,
            &mut self.piece,
            &mut self.octets,
            self.max,
            self.number,
        ) {
            Ok(LineEnd::Nothing) => Ok(false),
            Ok(LineEnd::Feed(size)) => match self.take(size, size + 1, text) {
                Ok(()) => Ok(true),
                Err(e) => Err(e),
            },
            Ok(LineEnd::Rest) => {
                let size = self.octets.len();
                match self.take(size, size, text) {
                    Ok(()) => Ok(true),
                    Err(e) => Err(e),
                }
            }
            Err(e) => Err(e),
        }
    }
}
