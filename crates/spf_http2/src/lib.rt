//! Frames of HTTP/2 (RFC 9113), as a client reads and writes them.
#![tactic(auto)]

mod buffer;
mod content;
mod error;
pub mod frame_type;
mod header;
pub mod laws;
mod padding;
mod read;
mod settings;
mod window;
mod write;

pub use buffer::FrameBuffer;
pub use content::{Content, content_of};
pub use error::ReadError;
pub use header::{FrameHeader, MAX_PAYLOAD};
pub use read::read_frame;
pub use settings::initial_window;
pub use window::{MAX_WINDOW, StreamWindow, raised};
pub use write::put_frame;

#[cfg(test)]
mod tests;
