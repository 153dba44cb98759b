//! Trust domains and SPIFFE IDs, as the SPIFFE-ID standard has them.
#![tactic(auto)]

mod domain;
mod error;
mod id_parts;
pub mod laws;
mod path;
mod separator;
mod shared;
mod spiffe_id;
mod trust_domain;

pub use error::SpiffeIdError;
pub use shared::Shared;
pub use spiffe_id::{SpiffeId, uri_has_spiffe_scheme};
pub use trust_domain::TrustDomain;
