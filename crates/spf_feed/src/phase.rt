//! What a session may bring next.

ghost use Rattle.std.specs.Prelude.{◌≡◌};
ghost use Rattle.spf_feed.specs.Frames.{allows};
ghost use Rattle.spf_feed.specs.Received.{received_ask};

use crate::payload::Received;
use spf_frame::frame_kind::{
    CLIENT_FAILED, CLIENT_MADE, CLOSE, CONNECT_STATUS, CONNECTED, ITEM, ITEM_STATUS, MOMENT,
    STREAM_END,
};

/// What the source is asked for next.
#[derive(Clone, Copy, Debug, PartialEq, Eq)]
pub enum Phase {
    /// A client.
    Client,
    /// A connection of the client.
    Connect,
    /// The next item of the stream.
    Next,
}

/// Whether a frame of this kind is allowed. A moment and a close always are.
pub(crate) fn may_stand(phase: Phase, kind: u8) -> bool
    ensures { result ≡ allows phase kind }
{
    match phase {
        Phase::Client => {
            kind == CLIENT_MADE || kind == CLIENT_FAILED || kind == MOMENT || kind == CLOSE
        }
        Phase::Connect => {
            kind == CONNECTED || kind == CONNECT_STATUS || kind == MOMENT || kind == CLOSE
        }
        Phase::Next => {
            kind == ITEM
                || kind == ITEM_STATUS
                || kind == STREAM_END
                || kind == MOMENT
                || kind == CLOSE
        }
    }
}

/// Returns what the source is asked for after an event.
pub fn phase_after(phase: Phase, synced: bool, event: &Received) -> Phase
    ensures { result ≡ received_ask phase synced event.now }
{
    match event {
        Received::ClientMade => Phase::Connect,
        Received::Connected => Phase::Next,
        Received::Moment(_) => phase,
        Received::Item(Some(_)) if synced => Phase::Next,
        _ => Phase::Client,
    }
}
