//! Short examples of the library: each module is one thing that a user of it would write.
#![tactic(auto)]

mod authority;
mod member;
mod session;
mod steps;
mod svid;

pub use authority::authorities_for;
pub use member::is_member;
pub use session::{LastPicker, StepCounter, follow};
pub use steps::{replay, revision_after};
pub use svid::is_valid_at;
