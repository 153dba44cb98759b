//! Prints what a live source of X.509 identities holds, line by line, until there are enough lines.
#![tactic(auto)]

mod builder;
mod ending;
mod endpoint;
mod error;
mod follow;
mod host;
mod live;
mod on_thread;
mod on_threads;
mod printing;

pub use ending::report;
pub use endpoint::{NO_ENDPOINT, has_endpoint};
pub use error::LiveError;
pub use host::{HostConnector, HostLink, HostPause};
pub use live::watch_live;
pub use on_thread::{HostJob, OnThread, start_on_thread};
pub use on_threads::{watch_connector_on_threads, watch_on_threads};
