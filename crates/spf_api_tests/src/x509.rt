//! Certificates, keys, SVIDs, bundles and contexts.

mod bundles;
mod order;
mod svids;

const URI: &str = "spiffe://example.org/w";
