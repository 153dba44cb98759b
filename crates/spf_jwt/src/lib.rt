//! JWT authorities, bundles and SVIDs, by the SPIFFE JWT-SVID standard, RFC 7517 and RFC 7519.
//! What is read is kept as the texts that came; signatures and key material are not checked.
#![tactic(auto)]

mod authority;
mod bundle;
mod bundle_set;
mod claims;
mod json;
mod limits;
mod responses;
mod selected;
mod sharing;
mod svid;
mod token;
mod validation;

pub use authority::JwtAuthority;
pub use bundle::{JwtAuthorityIter, JwtBundle};
pub use bundle_set::{JwtBundleIter, JwtBundleSet};
pub use limits::{JwtLimitBroken, JwtLimitKind, JwtResourceLimits, validate_jwt_limits};
pub use responses::{jwt_bundle_set_from, jwt_svids_from};
pub use selected::{jwt_svid_from, jwt_svid_with_hint_from, jwt_token_from, validated_svid_from};
pub use sharing::jwt_bundle_set_sharing;
pub use svid::JwtSvid;
pub use validation::check_validation;
