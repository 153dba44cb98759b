//! The types of frames (RFC 9113, section 6) and their flags.

pub const DATA: u8 = 0;

pub const HEADERS: u8 = 1;

pub const PRIORITY: u8 = 2;

pub const RST_STREAM: u8 = 3;

pub const SETTINGS: u8 = 4;

pub const PUSH_PROMISE: u8 = 5;

pub const PING: u8 = 6;

pub const GOAWAY: u8 = 7;

pub const WINDOW_UPDATE: u8 = 8;

pub const CONTINUATION: u8 = 9;

/// Of SETTINGS and PING: an acknowledgement.
pub const ACK: u8 = 0x1;

/// Of DATA and HEADERS: nothing follows on the stream.
pub const END_STREAM: u8 = 0x1;

/// Of HEADERS and CONTINUATION: the field block ends.
pub const END_HEADERS: u8 = 0x4;

/// Of DATA and HEADERS: the first octet of the payload says how much padding ends it.
pub const PADDED: u8 = 0x8;

/// Of HEADERS: a priority stands before the field block.
pub const PRIORITY_FIELDS: u8 = 0x20;
