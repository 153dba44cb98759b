//! The lines that answer asks.

ghost use Rattle.std.specs.Prelude.{◌≡◌, ◌++◌, OnOk, string_bytes, decimal, codes};
ghost use Rattle.spf_id.specs.Rule.{id_rule};
ghost use Rattle.spf_gate.specs.Answers as spec;
ghost use Rattle.spf_gate.specs.Answers.{answer_line, verdict_text};

use crate::rule::Rule;
use crate::verdict::{Verdict, decide};
use itoa::Buffer;
use spf_feed::X509SourceState;
use spf_id::{SpiffeId, SpiffeIdError};
use spf_io::OutOfMemory;
use std::alloc::Global;

/// The number of the rule of IDs that is broken, from 1.
fn error_number(error: SpiffeIdError) -> u64
    ensures { result ≡ spec.error_number error }
{
    match error {
        SpiffeIdError::Empty => 1,
        SpiffeIdError::TooLong => 2,
        SpiffeIdError::WrongScheme => 3,
        SpiffeIdError::MissingTrustDomain => 4,
        SpiffeIdError::TrustDomainTooLong => 5,
        SpiffeIdError::BadTrustDomainChar => 6,
        SpiffeIdError::EmptySegment => 7,
        SpiffeIdError::DotSegment => 8,
        SpiffeIdError::BadPathChar => 9,
        SpiffeIdError::TrailingSlash => 10,
        SpiffeIdError::OutOfMemory => 11,
    }
}

fn push_number(line: &mut Vec<u8>, number: u64) -> Result<(), OutOfMemory>
    ensures { OnOk result (line.new.items ≡ line.old.items ++ decimal number) }
{
    line.extend_from_slice(Buffer::new().format(number).as_bytes())?;
    Ok(())
}

fn push_text(line: &mut Vec<u8>, text: &str) -> Result<(), OutOfMemory>
    ensures { OnOk result (line.new.items ≡ line.old.items ++ text.now) }
{
    line.extend_from_slice(text.as_bytes())?;
    Ok(())
}

/// A word, a number, and a space.
fn push_revision(line: &mut Vec<u8>, word: &str, revision: u64) -> Result<(), OutOfMemory>
    ensures { OnOk result
        (line.new.items ≡ line.old.items ++ word.now ++ decimal revision ++ codes " ") }
{
    push_text(line, word)?;
    push_number(line, revision)?;
    push_text(line, " ")
}

/// The verdict, and a space after it.
fn push_verdict(line: &mut Vec<u8>, verdict: Verdict) -> Result<(), OutOfMemory>
    ensures { OnOk result (line.new.items ≡ line.old.items ++ verdict_text verdict) }
{
    match verdict {
        Verdict::Withdrawn { revision } => push_revision(line, "withdrawn ", revision),
        Verdict::NoBundle { revision } => push_revision(line, "no-bundle ", revision),
        Verdict::NoRule { revision } => push_revision(line, "no-rule ", revision),
        Verdict::Denied { revision, rule } => {
            push_revision(line, "denied ", revision)?;
            push_revision(line, "", rule as u64)
        }
        Verdict::Admitted { revision, rule } => {
            push_revision(line, "admitted ", revision)?;
            push_revision(line, "", rule as u64)
        }
    }
}

/// The answer to an ask, by the rules and the state that was read.
fn push_answer_text(
    alloc: Global,
    line: &mut Vec<u8>,
    rules: &[Rule],
    state: &X509SourceState,
    ask: &str,
) -> Result<(), OutOfMemory>
    ensures { OnOk result (line.new.items ≡ line.old.items
        ++ spec.answer_to rules.now state.now ask.now (id_rule ask.now)) }
{
    match SpiffeId::new(alloc, ask) {
        Ok(id) => {
            push_verdict(line, decide(rules, state, &id))?;
            push_text(line, ask)
        }
        Err(SpiffeIdError::OutOfMemory) => Err(OutOfMemory),
        Err(e) => {
            push_text(line, "bad-id ")?;
            push_number(line, error_number(e))
        }
    }
}

/// Writes the line that answers an ask into the buffer, in place of what that held.
#[tactic(auto, unfolding(crate::specs::Answers::answer_line))]
pub fn write_answer(
    alloc: Global,
    line: &mut Vec<u8>,
    rules: &[Rule],
    state: &X509SourceState,
    ask: &str,
) -> Result<(), OutOfMemory>
    ensures { OnOk result (line.new.items ≡ answer_line rules.now state.now ask.now) }
{
    line.clear();
    push_answer_text(alloc, line, rules, state, ask)?;
    line.push(b'\n')?;
    Ok(())
}
