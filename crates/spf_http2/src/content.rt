//! What a frame says by itself (RFC 9113, sections 6.1 to 6.10).

ghost use Rattle.std.specs.Prelude.{◌≡◌};
ghost use Rattle.std.specs.Option.{option_map};
ghost use Rattle.spf_http2.specs.Frames.{Frame};
ghost use Rattle.spf_http2.specs.Contents as contents;
ghost use Rattle.spf_http2.specs.Contents.{plain, meaning, is_set, is_opened, word_at};

use crate::frame_type::{
    ACK, CONTINUATION, DATA, END_HEADERS, END_STREAM, GOAWAY, HEADERS, PADDED, PING, PRIORITY,
    PRIORITY_FIELDS, PUSH_PROMISE, RST_STREAM, SETTINGS, WINDOW_UPDATE,
};
use crate::header::FrameHeader;
use crate::padding::{behind_priority, without_padding};

/// What a frame says, with its octets as slices of the payload.
#[derive(Clone, Copy, Debug)]
pub enum Content<'a> {
    /// DATA: a part of the body.
    Data {
        octets: &'a [u8],
        ends_stream: bool,
    },
    /// HEADERS: a field block, or its beginning.
    Headers {
        fragment: &'a [u8],
        ends_headers: bool,
        ends_stream: bool,
    },
    /// CONTINUATION: more of a field block.
    Continuation {
        fragment: &'a [u8],
        ends_headers: bool,
    },
    /// RST_STREAM, with an error code.
    RstStream {
        code: u32,
    },
    /// SETTINGS that are no acknowledgement: six octets for each.
    Settings {
        pairs: &'a [u8],
    },
    /// PING that is no acknowledgement, with its eight octets.
    Ping {
        octets: &'a [u8],
    },
    /// GOAWAY, with the last stream that is or will be worked on.
    Goaway {
        last_stream: u32,
    },
    /// WINDOW_UPDATE.
    WindowUpdate {
        increment: u32,
    },
    /// SETTINGS with ACK.
    SettingsAck,
    /// Nothing to a client: PRIORITY, PING with ACK, and frames of unknown types.
    Nothing,
}

/// Whether a flag is set.
fn is_flagged(header: &FrameHeader, flag: u8) -> bool
    ensures { result ≡ is_set header.now flag }
{
    let flags = header.flags;
    flags & flag != 0
}

/// Whether the client opened the stream, where `opened` is the last one that it did.
fn was_opened(stream: u32, opened: u32) -> bool
    ensures { result ≡ is_opened opened stream }
{
    stream % 2 == 1 && stream <= opened
}

/// The number that the first four octets spell.
fn first_word(payload: &[u8]) -> Option<u32>
    ensures { result ≡ word_at payload.now }
{
    match payload {
        [a, b, c, d, ..] => Some(u32::from_be_bytes([*a, *b, *c, *d])),
        _ => None,
    }
}

/// Section 6.1.
fn data<'a>(header: &FrameHeader, payload: &'a [u8], opened: u32) -> Option<Content<'a>>
    ensures { option_map plain result
        ≡ contents.data_of (record { header = header.now; payload = payload.now }) opened }
{
    if !was_opened(header.stream(), opened) {
        return None;
    }
    let octets = without_padding(is_flagged(header, PADDED), payload)?;
    Some(Content::Data {
        octets,
        ends_stream: is_flagged(header, END_STREAM),
    })
}

/// Section 6.2.
fn headers<'a>(header: &FrameHeader, payload: &'a [u8], opened: u32) -> Option<Content<'a>>
    ensures { option_map plain result
        ≡ contents.headers_of (record { header = header.now; payload = payload.now }) opened }
{
    if !was_opened(header.stream(), opened) {
        return None;
    }
    let octets = without_padding(is_flagged(header, PADDED), payload)?;
    let fragment = behind_priority(is_flagged(header, PRIORITY_FIELDS), octets)?;
    Some(Content::Headers {
        fragment,
        ends_headers: is_flagged(header, END_HEADERS),
        ends_stream: is_flagged(header, END_STREAM),
    })
}

/// Section 6.3.
fn priority<'a>(header: &FrameHeader, payload: &'a [u8]) -> Option<Content<'a>>
    ensures { option_map plain result
        ≡ contents.priority_of (record { header = header.now; payload = payload.now }) }
{
    if header.stream() == 0 || payload.len() != 5 {
        return None;
    }
    Some(Content::Nothing)
}

/// Section 6.4.
fn rst_stream<'a>(header: &FrameHeader, payload: &'a [u8], opened: u32) -> Option<Content<'a>>
    ensures { option_map plain result
        ≡ contents.rst_stream_of (record { header = header.now; payload = payload.now }) opened }
{
    if !was_opened(header.stream(), opened) || payload.len() != 4 {
        return None;
    }
    let code = first_word(payload)?;
    Some(Content::RstStream { code })
}

/// Section 6.5, but for what the settings say.
fn settings<'a>(header: &FrameHeader, payload: &'a [u8]) -> Option<Content<'a>>
    ensures { option_map plain result
        ≡ contents.settings_of (record { header = header.now; payload = payload.now }) }
{
    if header.stream() != 0 {
        return None;
    }
    if is_flagged(header, ACK) {
        return if payload.is_empty() {
            Some(Content::SettingsAck)
        } else {
            None
        };
    }
    if payload.len() % 6 != 0 {
        return None;
    }
    Some(Content::Settings { pairs: payload })
}

/// Section 6.7.
fn ping<'a>(header: &FrameHeader, payload: &'a [u8]) -> Option<Content<'a>>
    ensures { option_map plain result
        ≡ contents.ping_of (record { header = header.now; payload = payload.now }) }
{
    if header.stream() != 0 || payload.len() != 8 {
        return None;
    }
    if is_flagged(header, ACK) {
        return Some(Content::Nothing);
    }
    Some(Content::Ping { octets: payload })
}

/// Section 6.8.
fn goaway<'a>(header: &FrameHeader, payload: &'a [u8]) -> Option<Content<'a>>
    ensures { option_map plain result
        ≡ contents.goaway_of (record { header = header.now; payload = payload.now }) }
{
    if header.stream() != 0 || payload.len() < 8 {
        return None;
    }
    let word = first_word(payload)?;
    Some(Content::Goaway {
        last_stream: word % (1 << 31),
    })
}

/// Section 6.9, but for the windows.
fn window_update<'a>(header: &FrameHeader, payload: &'a [u8], opened: u32) -> Option<Content<'a>>
    ensures { option_map plain result
        ≡ contents.window_update_of (record { header = header.now; payload = payload.now })
        opened }
{
    let stream = header.stream();
    if stream != 0 && !was_opened(stream, opened) || payload.len() != 4 {
        return None;
    }
    let increment = first_word(payload)? % (1 << 31);
    if increment == 0 {
        return None;
    }
    Some(Content::WindowUpdate { increment })
}

/// Section 6.10, but for the frame before.
fn continuation<'a>(header: &FrameHeader, payload: &'a [u8], opened: u32) -> Option<Content<'a>>
    ensures { option_map plain result
        ≡ contents.continuation_of (record { header = header.now; payload = payload.now })
        opened }
{
    if !was_opened(header.stream(), opened) {
        return None;
    }
    Some(Content::Continuation {
        fragment: payload,
        ends_headers: is_flagged(header, END_HEADERS),
    })
}

/// Returns what a frame says, where `opened` is the last stream that the client opened (0 before
/// the first). None is a connection error: the frame is broken whatever came before it.
pub fn content_of<'a>(header: &FrameHeader, payload: &'a [u8], opened: u32) -> Option<Content<'a>>
    ensures { option_map plain result
        ≡ meaning (record { header = header.now; payload = payload.now }) opened }
{
    match header.kind {
        DATA => data(header, payload, opened),
        HEADERS => headers(header, payload, opened),
        PRIORITY => priority(header, payload),
        RST_STREAM => rst_stream(header, payload, opened),
        SETTINGS => settings(header, payload),
        PUSH_PROMISE => None,
        PING => ping(header, payload),
        GOAWAY => goaway(header, payload),
        WINDOW_UPDATE => window_update(header, payload, opened),
        CONTINUATION => continuation(header, payload, opened),
        _ => Some(Content::Nothing),
    }
}
