//! Reading the policy at the start of an input.

ghost use Rattle.std.specs.Prelude.{◌≡◌, ◌≢◌, ◌+◌, ◌++◌, IfErr, IsErrOf, OnOk};
ghost use Rattle.std.specs.Option.{option_to_list};
ghost use Rattle.std.specs.Io.KnownBytes.{prepend_known};
ghost use Rattle.spf_io.specs.Rule.{Gives};
ghost use Rattle.spf_gate.specs.declared.gate_error.GateError.TheVariants as errors;
ghost use Rattle.spf_gate.specs.Lines.{is_memory_gate};
ghost use Rattle.spf_gate.specs.Policies as spec;
ghost use Rattle.spf_gate.specs.Policies.{ReadsPolicy};
ghost use Rattle.spf_gate.specs.Reading.{HasNoFeed, ReadHasCause};

use crate::gate_error::GateError;
use crate::line_reader::LineReader;
use crate::rule::{Rule, RuleError, parse_rule};
use spf_io::{List, Source};
use std::alloc::Global;

/// The rule of a line of this number, if it gives one.
fn rule_at(alloc: Global, line: &str, number: u64) -> Result<Option<Rule>, GateError>
    ensures rule { Gives is_memory_gate (λ rule. rule) result (spec.rule_at number line.now) }
    ensures calm { IfErr result (λ e. (e ≢ errors.ReadFault) × (e ≢ errors.WriteFault)) }
{
    match parse_rule(alloc, line) {
        Ok(rule) => Ok(rule),
        Err(RuleError::Broken) => Err(GateError::BadRule { line: number }),
        Err(RuleError::OutOfMemory) => Err(GateError::OutOfMemory),
    }
}

/// Whether the asks begin after the line.
fn is_policy_end(line: &str) -> bool
    ensures { result ≡ spec.is_policy_end line.now }
{
    line == "---"
}

/// Adds a rule, where there is one.
fn keep(rules: &mut Vec<Rule>, rule: Option<Rule>) -> Result<(), GateError>
    ensures kept { OnOk result (rules.new.items ≡ rules.old.items ++ option_to_list rule) }
    ensures memory { IfErr result (λ e. e ≡ errors.OutOfMemory) }
{
    if let Some(rule) = rule {
        rules.push(rule)?;
    }
    Ok(())
}

/// The rules of the policy, with which the input begins.
pub(crate) fn read_policy<S: Source>(
    alloc: Global,
    source: &mut S,
    lines: &mut LineReader,
) -> Result<List<Rule>, GateError>
    ensures reads { ReadsPolicy lines.old.max lines.old.number lines.new.number
        (prepend_known lines.old.octets.items (S.left source.old))
        (prepend_known lines.new.octets.items (S.left source.new)) result }
    ensures max { lines.new.max ≡ lines.old.max }
    ensures cause { ReadHasCause (S.failures source.old) (S.failures source.new) result }
    ensures begun { IsErrOf result errors.ReadFault → HasNoFeed lines.new.octets.items }
{
    let mut rules = Vec::new(alloc);
    let mut line = String::new(alloc);
    loop {
        let is_line = match lines.take_line(source, &mut line) {
            Ok(is_line) => is_line,
            Err(e) => return Err(e),
        };
        if !is_line {
            return Err(GateError::NoPolicyEnd);
        }
        if is_policy_end(line.as_str()) {
            return Ok(List::new(rules));
        }
        let rule = match rule_at(alloc, line.as_str(), lines.number()) {
            Ok(rule) => rule,
            Err(e) => return Err(e),
        };
        match keep(&mut rules, rule) {
            Ok(()) => {}
            Err(e) => return Err(e),
        }
    }
}
