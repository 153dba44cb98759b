//! X.509 certificates, keys, SVIDs, bundles and contexts, by RFC 5280
//! and the SPIFFE X.509-SVID standard. What is read is kept as the
//! bytes that came; signatures and certificate paths are not checked.
#![tactic(auto)]

mod bucket_sort;
mod bundle;
mod bundle_map;
mod bundle_set;
mod certificate;
mod certificates;
mod chain;
mod context;
mod error;
mod extension;
mod few;
pub mod laws;
mod order;
mod private_key;
mod sorted_few;
mod source;
mod svid;
mod svid_error;
mod svid_rule;

pub use bundle::X509Bundle;
pub use bundle_set::{X509BundleIter, X509BundleSet};
pub use certificate::{Certificate, spiffe_id_from_der};
pub use context::X509Context;
pub use error::{CertificateError, PrivateKeyError, X509BundleError};
pub use extension::X509ExtensionId;
pub use order::{
    cmp_svid_for_update, sorted_authorities, sorted_indices, sorted_svids, sorted_texts,
};
pub use private_key::PrivateKey;
pub use sorted_few::{FewIndices, few_indices};
pub use source::{BundleSource, SvidSource};
pub use svid::X509Svid;
pub use svid_error::X509SvidError;
