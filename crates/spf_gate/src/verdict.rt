//! What a policy says of an ID while a state is held.

ghost use Rattle.std.specs.Prelude.{◌≡◌};
ghost use Rattle.spf_gate.specs.Verdicts as spec;
ghost use Rattle.spf_gate.specs.Verdicts.{verdict_of};

use crate::rule::Rule;
use spf_feed::X509SourceState;
use spf_id::SpiffeId;

/// What is said of an ID, at the revision of a state. Rules are numbered from 1.
#[derive(Clone, Copy, Debug, PartialEq, Eq)]
pub enum Verdict {
    /// The state is withdrawn.
    Withdrawn { revision: u64 },
    /// The state holds no bundle of the ID's trust domain.
    NoBundle { revision: u64 },
    /// No rule matches.
    NoRule { revision: u64 },
    /// The first rule that matches denies.
    Denied { revision: u64, rule: usize },
    /// The first rule that matches allows.
    Admitted { revision: u64, rule: usize },
}

/// Whether the first rule that matches allows, and its number from 1.
fn first_match(rules: &[Rule], id: &SpiffeId) -> Option<(bool, usize)>
    ensures { result ≡ spec.first_match 1 rules.now id.now }
{
    for (index, rule) in rules.iter().enumerate() {
        if rule.pattern.matches(id) {
            return Some((rule.allow, index + 1));
        }
    }
    None
}

/// The verdict of the rules while a permitted state is held.
fn verdict_by(rules: &[Rule], revision: u64, id: &SpiffeId) -> Verdict
    ensures { result ≡ spec.verdict_by revision (spec.first_match 1 rules.now id.now) }
{
    match first_match(rules, id) {
        None => Verdict::NoRule { revision },
        Some((true, rule)) => Verdict::Admitted { revision, rule },
        Some((false, rule)) => Verdict::Denied { revision, rule },
    }
}

/// Returns the verdict on an ID: Withdrawn while the state is; NoBundle without a bundle of the
/// ID's trust domain; otherwise by the first rule that matches. It allocates nothing.
pub fn decide(rules: &[Rule], state: &X509SourceState, id: &SpiffeId) -> Verdict
    ensures { result ≡ verdict_of rules.now state.now.view state.now.revision id.now }
{
    let revision = state.revision();
    match state.context_ref() {
        None => Verdict::Withdrawn { revision },
        Some(context) => match context.bundle_set().get_ref(id.trust_domain()) {
            None => Verdict::NoBundle { revision },
            Some(_) => verdict_by(rules, revision, id),
        },
    }
}
