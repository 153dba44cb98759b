//! JWT bundles and JWT-SVIDs by a client of the Workload API, and a fetcher that asks a second time
//! where the first ask failed for a reason of the connection.
#![tactic(auto)]

mod client;
mod fault;
mod fetcher;
mod first;
pub mod laws;
mod request;
mod stream;

pub use client::JwtClient;
pub use fetcher::JwtFetcher;
pub use stream::JwtBundleStream;
