//! The last message that was translated, and what it was translated to.

ghost use Rattle.std.specs.Prelude.{◌≡◌, ◌≤◌, length, drop, None, Some, IfSome, OnErr, IsTrue};
ghost use Rattle.std.specs.Option.{ForSome, option_map};
ghost use Rattle.spf_feed.specs.Items.{item_at, rules_with};
ghost use Rattle.spf_proto.specs.Translating.{IsKnown, IsMadeOrStopped};
ghost use Rattle.spf_proto.specs.Latest.{IsLatest, IsAgain};

use crate::incoming::Incoming;
use crate::taking::Stop;
use crate::translating::{Acceptance, LastRead, Position, frames_of};
use spf_feed::SvidPicker;
use spf_x509::X509Context;
use std::alloc::Global;
use std::mem;

/// The last message that was translated, with the five octets before it.
#[derive(Drop)]
pub(crate) struct Latest {
    pub(crate) message: Incoming,
    /// Where the session stood before and after it. None where the frames are those of no message.
    pub(crate) stood: Option<(Position, Position)>,
    pub(crate) frames: Vec<u8>,
    pub(crate) read: LastRead,
}

impl Latest {
    /// No message, where these frames stand.
    pub(crate) fn none(alloc: Global, frames: Vec<u8>) -> Latest
        ensures frames { result.frames ≡ frames }
        ensures stood { result.stood ≡ None }
        ensures known { IsKnown result.read result.frames.items }
    {
        Latest {
            message: Incoming::new(alloc),
            stood: None,
            frames,
            read: LastRead::none(),
        }
    }

    /// Where the session stands after the message, if it repeats the last one at the same place.
    fn after(&self, position: Position, message: &[u8]) -> Option<Position>
        ensures { IfSome result (IsAgain self.now position message.now) }
    {
        match self.stood {
            Some((before, after)) => {
                if before == position && self.message.as_slice() == message {
                    Some(after)
                } else {
                    None
                }
            }
            None => None,
        }
    }

    /// The context that a payload reads as, where it is that of the frames.
    pub(crate) fn known(&self, payload: &[u8]) -> Option<&X509Context>
        requires { IsKnown self.now.read self.now.frames.items }
        ensures { IfSome result (λ context. item_at payload.now ≡ Some (Some context.now)) }
    {
        let at = self.read.payload_at?;
        if self.frames.as_slice().get(at..)? == payload {
            self.read.context.as_ref()
        } else {
            None
        }
    }
}

/// Translates a message, with the five octets before it, and returns where the session stands after
/// it. Its frames take the place of those before, unless it is the last message again.
pub(crate) fn translate<C: SvidPicker>(
    alloc: Global,
    acceptance: Acceptance,
    picker: Option<&C>,
    position: Position,
    message: &mut Incoming,
    latest: &mut Latest,
) -> Result<Position, Stop>
    requires picker { ForSome picker (λ p. C.can_pick p.now) }
    requires head { 5 ≤ length message.old }
    requires latest { IsLatest
        (rules_with acceptance.limits None acceptance.ready
        (option_map (λ p. C.picks p.now) picker)) acceptance.start latest.old }
    requires known { IsKnown latest.old.read latest.old.frames.items }
    ensures latest { IsLatest
        (rules_with acceptance.limits None acceptance.ready
        (option_map (λ p. C.picks p.now) picker.entry)) acceptance.start latest.new }
    ensures known { IsKnown latest.new.read latest.new.frames.items }
    ensures made { IsMadeOrStopped
        (rules_with acceptance.limits None acceptance.ready
        (option_map (λ p. C.picks p.now) picker.entry)) acceptance.start position
        (drop 5 message.old) latest.new.frames.items result }
    ensures kept { OnErr result (message.new ≡ message.old) }
{
    if let Some(after) = latest.after(position, message.as_slice()) {
        return Ok(after);
    }
    latest.stood = None;
    match frames_of(
        alloc,
        acceptance,
        picker,
        position,
        &message.as_slice()[5..],
        &mut latest.read,
        &mut latest.frames,
    ) {
        Ok(Some(after)) => {
            mem::swap(message, &mut latest.message);
            latest.stood = Some((position, after));
            Ok(after)
        }
        Ok(None) => Err(Stop::BadMessage),
        Err(_) => Err(Stop::OutOfMemory),
    }
}
