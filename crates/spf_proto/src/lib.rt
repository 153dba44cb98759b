//! The body of a gRPC response of the Workload API: messages
//! in Protocol Buffers, and the session that they stand for.
#![tactic(auto)]

mod arguments;
mod entry;
mod following;
mod frame_end;
mod incoming;
mod latest;
pub mod laws;
mod lent;
mod message;
mod no_publisher;
mod octets;
mod payload;
mod proto_error;
mod report;
mod taking;
mod translating;
mod translator;
mod varint;
mod watching;
mod wire;

pub use following::follow_proto;
pub use message::read_message;
pub use proto_error::ProtoError;
pub use watching::proto_watch;
pub use wire::{Field, read_field};
