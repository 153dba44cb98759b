//! What a session is asked for next.

ghost use Rattle.std.specs.Prelude.{◌≡◌};
ghost use Rattle.spf_jwt_feed.specs.Received.{received_ask};

use crate::event::{JwtItem, JwtReceived};
use spf_feed::Phase;

/// Returns what the source is asked for after an event. Once an item was accepted, one that breaks
/// no rule, or only the rule that it is not empty, keeps the stream.
pub fn phase_after(phase: Phase, synced: bool, event: &JwtReceived) -> Phase
    ensures { result ≡ received_ask phase synced event.now }
{
    match event {
        JwtReceived::ClientMade => Phase::Connect,
        JwtReceived::Connected => Phase::Next,
        JwtReceived::Moment(_) => phase,
        JwtReceived::Item(JwtItem::Bundles(_) | JwtItem::Empty) if synced => Phase::Next,
        _ => Phase::Client,
    }
}
