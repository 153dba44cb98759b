//! Admissions by policy: presented SPIFFE IDs are answered from a live source of X.509 identities.
#![tactic(auto)]

mod answer;
mod gate_error;
mod line_reader;
mod policy;
mod rule;
mod serve;
mod verdict;

pub use answer::write_answer;
pub use gate_error::GateError;
pub use rule::{Pattern, Rule, RuleError, parse_rule};
pub use serve::gate_serve;
pub use verdict::{Verdict, decide};
