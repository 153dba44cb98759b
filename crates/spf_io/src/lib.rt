//! What every crate stands on: the relation between a result and a rule, small values that
//! contracts see as lists, and the sources and sinks through which the outside is reached.
#![tactic(auto)]

mod bytes;
mod list;
mod memory;
mod sink;
mod source;
mod text;

pub use bytes::Bytes;
pub use list::List;
pub use memory::{Failed, OutOfMemory};
pub use sink::{MemSink, Sink, StdSink};
pub use source::{MemSource, Source, StdSource};
pub use text::Text;
