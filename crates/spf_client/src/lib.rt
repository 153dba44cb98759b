//! A client of the Workload API over a link of any kind: fetches and streams of X.509 identities
//! and bundles.
#![tactic(auto)]

mod client;
mod connect;
pub mod laws;
mod reading;
mod stream;
mod x509;

pub use client::WorkloadApiClient;
pub use stream::{X509BundleStream, X509ContextStream, X509SvidStream};
