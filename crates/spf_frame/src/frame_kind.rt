//! The kinds of frames: the first octet of each.

pub const CLIENT_MADE: u8 = 1;

pub const CLIENT_FAILED: u8 = 2;

pub const CONNECTED: u8 = 3;

pub const CONNECT_STATUS: u8 = 4;

pub const ITEM: u8 = 5;

pub const ITEM_STATUS: u8 = 6;

pub const STREAM_END: u8 = 7;

pub const MOMENT: u8 = 8;

pub const CLOSE: u8 = 9;
