//! Rules of a policy: an action, a pattern, and what the pattern matches.

ghost use Rattle.std.specs.Prelude.{◌≡◌, IfOk, codes, nat_eq};
ghost use Rattle.std.specs.List.{starts_with};
ghost use Rattle.spf_io.specs.Rule.{Gives};
ghost use Rattle.spf_id.specs.Rule.{id_rule};
ghost use Rattle.spf_gate.specs.Rules as spec;
ghost use Rattle.spf_feed.specs.Items.{value_of};
ghost use Rattle.spf_gate.specs.Rules.{is_memory, is_skipped};

use spf_id::{SpiffeId, SpiffeIdError, TrustDomain};
use spf_io::OutOfMemory;
use std::alloc::Global;
use thiserror::Error;

/// Which IDs a rule is about.
#[derive(Debug, PartialEq, Eq, Drop)]
pub enum Pattern {
    /// This ID alone.
    Id(SpiffeId),
    /// Each ID of this trust domain.
    Domain(TrustDomain),
    /// Each ID of the same trust domain whose path is this one, or this one followed by `/` and
    /// more.
    Prefix(SpiffeId),
}

/// A rule of a policy.
#[derive(Debug, PartialEq, Eq, Drop)]
pub struct Rule {
    pub allow: bool,
    pub pattern: Pattern,
}

/// Why a line of a policy gives no rule.
#[derive(Clone, Copy, Debug, PartialEq, Eq, Error)]
pub enum RuleError {
    /// The line is neither a rule nor empty nor a comment.
    #[error("broken rule")]
    Broken,
    /// Memory ran out.
    #[error("out of memory")]
    OutOfMemory,
}

impl From<OutOfMemory> for RuleError {
    ghost use Rattle.std.specs.Prelude.{◌≡◌};
    ghost use Rattle.spf_gate.specs.declared.rule.RuleError.TheVariants as errors;

    ghost from_gives = { λ _ e. e ≡ errors.OutOfMemory };

    fn from(_e: OutOfMemory) -> RuleError {
        RuleError::OutOfMemory
    }
}

/// Whether a line of a policy is passed over: it is empty, or a comment.
fn skipped(line: &str) -> bool
    ensures { result ≡ is_skipped line.now }
{
    line.is_empty() || line.starts_with("#")
}

/// The ID that a text is, if it is one.
fn id_in(alloc: Global, text: &str) -> Result<Option<SpiffeId>, OutOfMemory>
    ensures { IfOk result (λ o. o ≡ value_of (id_rule text.now)) }
{
    match SpiffeId::new(alloc, text) {
        Ok(id) => Ok(Some(id)),
        Err(SpiffeIdError::OutOfMemory) => Err(OutOfMemory),
        Err(_) => Ok(None),
    }
}

fn id_pattern(alloc: Global, text: &str) -> Result<Option<Pattern>, OutOfMemory>
    ensures { IfOk result (λ o. o ≡ spec.id_pattern text.now) }
{
    match id_in(alloc, text)? {
        Some(id) => Ok(Some(Pattern::Id(id))),
        None => Ok(None),
    }
}

/// The pattern of a trust domain, which a text has to name as it stands.
#[tactic(auto, unfolding(crate::specs::Rules::domain_pattern))]
fn domain_pattern(alloc: Global, text: &str) -> Result<Option<Pattern>, OutOfMemory>
    ensures { IfOk result (λ o. o ≡ spec.domain_pattern text.now) }
{
    match TrustDomain::new(alloc, text) {
        Ok(domain) => {
            if domain.as_str() == text {
                Ok(Some(Pattern::Domain(domain)))
            } else {
                Ok(None)
            }
        }
        Err(SpiffeIdError::OutOfMemory) => Err(OutOfMemory),
        Err(_) => Ok(None),
    }
}

/// The pattern of an ID that has a path.
#[tactic(auto, unfolding(crate::specs::Rules::prefix_pattern))]
fn prefix_pattern(alloc: Global, text: &str) -> Result<Option<Pattern>, OutOfMemory>
    ensures { IfOk result (λ o. o ≡ spec.prefix_pattern text.now) }
{
    match id_in(alloc, text)? {
        Some(id) => {
            if id.path().is_empty() {
                Ok(None)
            } else {
                Ok(Some(Pattern::Prefix(id)))
            }
        }
        None => Ok(None),
    }
}

/// The pattern that a text spells.
#[tactic(auto, unfolding(crate::specs::Rules::pattern_of))]
fn pattern_in(alloc: Global, text: &str) -> Result<Option<Pattern>, OutOfMemory>
    ensures { IfOk result (λ o. o ≡ spec.pattern_of text.now) }
{
    if let Some(id) = text.strip_prefix("id ") {
        return id_pattern(alloc, id);
    }
    if let Some(name) = text.strip_prefix("domain ") {
        return domain_pattern(alloc, name);
    }
    match text.strip_prefix("prefix ") {
        Some(id) => prefix_pattern(alloc, id),
        None => Ok(None),
    }
}

/// The rule of that action over the pattern that a text spells.
fn rule_over(alloc: Global, allow: bool, text: &str) -> Result<Option<Rule>, OutOfMemory>
    ensures { IfOk result (λ o. o ≡ spec.rule_over allow text.now) }
{
    match pattern_in(alloc, text)? {
        Some(pattern) => Ok(Some(Rule { allow, pattern })),
        None => Ok(None),
    }
}

/// The rule that a text spells.
#[tactic(auto, unfolding(crate::specs::Rules::rule_of))]
fn rule_in(alloc: Global, text: &str) -> Result<Option<Rule>, OutOfMemory>
    ensures { IfOk result (λ o. o ≡ spec.rule_of text.now) }
{
    if let Some(pattern) = text.strip_prefix("allow ") {
        return rule_over(alloc, true, pattern);
    }
    match text.strip_prefix("deny ") {
        Some(pattern) => rule_over(alloc, false, pattern),
        None => Ok(None),
    }
}

/// Returns the rule of a line of a policy. None for an empty line and for one that begins with `#`.
#[tactic(auto, unfolding(crate::specs::Rules::policy_line))]
pub fn parse_rule(alloc: Global, line: &str) -> Result<Option<Rule>, RuleError>
    ensures { Gives is_memory (λ rule. rule) result (spec.policy_line line.now) }
{
    if skipped(line) {
        return Ok(None);
    }
    match rule_in(alloc, line)? {
        Some(rule) => Ok(Some(rule)),
        None => Err(RuleError::Broken),
    }
}

/// Whether the rest of a path is empty, or begins with a slash.
fn ends_or_goes_on(rest: &[u8]) -> bool
    ensures { result ≡ spec.ends_or_goes_on rest.now }
{
    matches!(rest, [] | [b'/', ..])
}

/// Whether a path is this one, or this one followed by `/` and more.
#[tactic(auto, unfolding(crate::specs::Rules::is_under))]
fn is_under(own: &str, path: &str) -> bool
    ensures { result ≡ spec.is_under own.now path.now }
{
    match path.as_bytes().strip_prefix(own.as_bytes()) {
        Some(rest) => ends_or_goes_on(rest),
        None => false,
    }
}

impl Pattern {
    /// Whether the pattern matches an ID.
    pub(crate) fn matches(&self, id: &SpiffeId) -> bool
        ensures { result ≡ spec.matches self.now id.now }
    {
        match self {
            Pattern::Id(own) => own.as_str() == id.as_str(),
            Pattern::Domain(domain) => domain.as_str() == id.trust_domain().as_str(),
            Pattern::Prefix(own) => {
                own.trust_domain().as_str() == id.trust_domain().as_str()
                    && is_under(own.path(), id.path())
            }
        }
    }
}
