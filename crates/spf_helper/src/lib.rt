//! Follows a stream of SPIFFE Workload API updates and keeps the latest accepted identity in three
//! files, so that another program can read it after any crash.
#![tactic(auto)]

mod call;
mod following;
mod generations;
mod helper_error;
mod lent;
mod publisher;
mod report;
mod watching;

pub use following::helper_follow;
pub use helper_error::HelperError;
pub use publisher::HelperPublisher;
pub use watching::helper_watch;
