//! Admissions by policy from a source of their own, which is closed and joined when the asks end.
#![tactic(auto)]

mod ending;
mod live;
mod live_error;
mod on_threads;

pub use ending::report;
pub use live::gate_live;
pub use live_error::LiveGateError;
pub use on_threads::gate_on_threads;
