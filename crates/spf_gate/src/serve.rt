//! Answering the asks of an input from a live source.

ghost use Rattle.std.specs.Prelude.{◌≡◌, ◌+◌, false, true, OnOk, IfErr, IsErrOf};
ghost use Rattle.std.specs.Io.KnownBytes.{prepend_known};
ghost use Rattle.spf_gate.specs.declared.gate_error.GateError.TheVariants as errors;
ghost use Rattle.spf_gate.specs.Reading.{HasNoFeed};
ghost use Rattle.spf_gate.specs.Serving.{AnswersAsk, AnswersPart, HasCauses, PutHasCause};
ghost use Rattle.spf_gate.specs.Serving.{ReadsOnce, Serves, ServesAsks, ServesFirst, ServesPart};
ghost use Rattle.spf_gate.specs.Serving.{cuts, is_cut};
ghost use Rattle.spiffe.specs.Reads.{SeesNoLess};

use crate::answer::write_answer;
use crate::gate_error::GateError;
use crate::line_reader::LineReader;
use crate::policy::read_policy;
use crate::rule::Rule;
use spf_io::{Sink, Source};
use spiffe::{Pass, X509Source};
use std::alloc::Global;

/// Reads the state, and writes the line that answers an ask.
fn answer_ask<K: Sink>(
    alloc: Global,
    source: &X509Source,
    pass: &mut Pass,
    out: &mut K,
    line: &mut Vec<u8>,
    rules: &[Rule],
    ask: &str,
) -> Result<(), GateError>
    requires { pass.old.book ≡ source.now.board }
    ensures answers { OnOk result (AnswersAsk rules.now pass.new.seen ask.now (K.held out.old)
        (K.held out.new)) }
    ensures cut { IfErr result (λ e. cuts e ≡ true) }
    ensures part { IfErr result (AnswersPart rules.now pass.new.seen ask.now (K.held out.old)
        (K.held out.new)) }
    ensures pass { SeesNoLess pass.old pass.new }
    ensures reads { ReadsOnce pass.old pass.new result }
    ensures cause { PutHasCause (K.failures out.old) (K.failures out.new) result }
{
    let state = match source.state(pass) {
        Ok(state) => state,
        Err(_) => return Err(GateError::OutOfMemory),
    };
    match write_answer(alloc, line, rules, &state, ask) {
        Ok(()) => {}
        Err(_) => return Err(GateError::OutOfMemory),
    }
    match out.put(line.as_slice()) {
        Ok(()) => Ok(()),
        Err(_) => Err(GateError::WriteFault),
    }
}

/// Answers each ask that is left.
fn answer_asks<S: Source, K: Sink>(
    alloc: Global,
    source: &X509Source,
    pass: &mut Pass,
    input: &mut S,
    lines: &mut LineReader,
    out: &mut K,
    rules: &[Rule],
) -> Result<u64, GateError>
    requires { pass.old.book ≡ source.now.board }
    ensures serves { is_cut result ≡ false → ServesAsks lines.old.max (lines.old.number + 1)
        (prepend_known lines.old.octets.items (S.left input.old))
        (prepend_known lines.new.octets.items (S.left input.new)) rules.now pass.old
        pass.new (K.held out.old) (K.held out.new) result }
    ensures cut { IfErr result (λ e. cuts e ≡ true → ServesFirst lines.old.max
        (lines.old.number + 1) (prepend_known lines.old.octets.items (S.left input.old)) rules.now
        pass.old pass.new (K.held out.old) (K.held out.new) e) }
    ensures pass { SeesNoLess pass.old pass.new }
    ensures cause { HasCauses (S.failures input.old) (S.failures input.new) (K.failures out.old)
        (K.failures out.new) result }
    ensures begun { IsErrOf result errors.ReadFault → HasNoFeed lines.new.octets.items }
{
    let mut line = Vec::new(alloc);
    let mut ask = String::new(alloc);
    let before = lines.number();
    loop {
        let is_line = match lines.take_line(input, &mut ask) {
            Ok(is_line) => is_line,
            Err(e) => return Err(e),
        };
        if !is_line {
            return Ok(lines.number() - before);
        }
        match answer_ask(alloc, source, pass, out, &mut line, rules, ask.as_str()) {
            Ok(()) => {}
            Err(e) => return Err(e),
        }
    }
}

/// Answers the asks of an input, of which each line after the policy is one, and returns how many
/// there were. Each ask is read whole, then the state is read through the pass, and then one line
/// is written: a word, the revision, the number of the rule from 1 where one matched, and the ID;
/// or `bad-id` and the number of the rule of IDs that the ask breaks.
pub fn gate_serve<S: Source, K: Sink>(
    alloc: Global,
    source: &X509Source,
    pass: &mut Pass,
    input: &mut S,
    out: &mut K,
    max_lines: u64,
) -> Result<u64, GateError>
    requires { pass.old.book ≡ source.now.board }
    ensures serves { is_cut result ≡ false → Serves max_lines (S.left input.old) (S.left input.new)
        pass.old pass.new (K.held out.old) (K.held out.new) result }
    ensures cut { IfErr result (λ e. cuts e ≡ true → ServesPart max_lines (S.left input.old)
        pass.old pass.new (K.held out.old) (K.held out.new) e) }
    ensures pass { SeesNoLess pass.old pass.new }
    ensures cause { HasCauses (S.failures input.old) (S.failures input.new) (K.failures out.old)
        (K.failures out.new) result }
{
    let mut lines = LineReader::new(alloc, max_lines);
    let rules = match read_policy(alloc, input, &mut lines) {
        Ok(rules) => rules,
        Err(e) => return Err(e),
    };
    answer_asks(
        alloc,
        source,
        pass,
        input,
        &mut lines,
        out,
        rules.as_slice(),
    )
}
