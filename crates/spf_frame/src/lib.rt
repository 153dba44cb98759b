//! Frames: a kind octet, four octets of length and a payload, as sessions and the wire read them
//! from a source, and the statuses that some of them carry.
#![tactic(auto)]

mod error;
mod fill;
mod frame;
pub mod frame_kind;
mod kinds;
mod payload;
mod status;

pub use error::FrameError;
pub use frame::{RawFrame, next_frame, read_frame};
pub use kinds::Kinds;
pub use payload::Payload;
pub use status::{read_status, read_text};
