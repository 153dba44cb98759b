//! What `spiffe_watch` does: it follows a stream of SPIFFE Workload API updates and prints, for
//! each event, which identity and which trust bundles a workload then holds.
#![tactic(auto)]

mod arguments;
mod bench;
mod exit_reason;
mod generated;
mod generated_source;
mod ghost_bytes;
mod no_publisher;
mod output;
mod tally;
mod template;
mod watching;

pub use exit_reason::{ExitReason, report};
pub use output::put;
pub use watching::watch;
