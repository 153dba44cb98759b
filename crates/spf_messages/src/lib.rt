//! Messages of the SPIFFE Workload API in Protocol Buffers: the responses as views and as values,
//! and the octets of the requests.
#![tactic(auto)]

mod claims;
mod context;
mod entry;
pub mod laws;
mod message;
mod named;
mod number;
mod request;
mod response;
mod validation;
mod varint;
mod view;
mod wire;

pub use context::read_context_message;
pub use request::{put_jwt_svid_request, put_validation_request};
pub use response::read_response;
pub use varint::{put_varint, read_varint};
pub use wire::{Field, FieldValue, put_field, read_field};

#[cfg(test)]
mod tests;
