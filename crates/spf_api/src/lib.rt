//! Statuses, errors and update responses of the SPIFFE Workload API.
#![tactic(auto)]

mod endpoint_error;
mod entry;
mod error;
mod jwt_error;
pub mod laws;
mod layout;
mod link;
mod payload;
mod payload_jwt;
mod payload_validation;
mod payload_view;
mod payload_writer;
mod response;
mod response_rule;
mod secret;
mod sharing;
mod status;
mod views;

pub use endpoint_error::{EndpointError, EndpointParseError};
pub use error::WorkloadApiError;
pub use jwt_error::{JsonError, JsonErrorKind, JwtBundleError, JwtSvidError};
pub use layout::{read_byte_field, read_text_field};
pub use link::{ClientFault, LinkFault};
pub use payload::{read_payload, write_payload};
pub use payload_view::read_context_view;
pub use response::{
    BundleEntry, BundleEntryView, BundlesResponse, Claim, ClaimValue, ContextResponse, ContextView,
    JwtSvidEntry, JwtSvidsResponse, Response, ResponseKind, SvidEntry, SvidEntryView,
    ValidationResponse,
};
pub use response_rule::{
    bundle_set_from, context_from, context_from_view, context_from_view_sharing, svid_from,
    svids_from,
};
pub use secret::SecretLength;
pub use status::{GrpcStatusCode, GrpcStatusError, TransportConnectError, TransportError};
