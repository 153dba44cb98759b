//! What happens in a JWT session.

use spf_api::BundlesResponse;
use spf_feed::SessionEvent;
use spf_jwt::JwtBundleSet;

/// An event of a JWT session.
pub type JwtEvent = SessionEvent<BundlesResponse>;

/// An item, with its key sets read.
#[derive(Debug, Drop)]
pub enum JwtItem {
    Bundles(JwtBundleSet),
    /// It has no bundles.
    Empty,
    /// It breaks a rule.
    Broken,
}

/// An event as it is received, with its item read.
pub type JwtReceived = SessionEvent<JwtItem>;
