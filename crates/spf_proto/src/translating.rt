//! The frames that a message stands for.

ghost use Rattle.std.specs.Prelude.{◌≡◌, ◌+◌, ◌≤◌, [], IfOk, OnOk, Some, None, false, is_some};
ghost use Rattle.std.specs.Prelude.{drop, length};
ghost use Rattle.std.specs.Prelude.{if◌then◌else◌};
ghost use Rattle.std.specs.Option.{ForSome, option_map};
ghost use Rattle.spf_api.specs.Views.{context_of};
ghost use Rattle.spf_proto.specs.Payloads.{IsContext, context_payload};
ghost use Rattle.spf_feed.specs.Items.{context_in, item_at, rules_with};
ghost use Rattle.spf_feed.specs.Items as items_spec;
ghost use Rattle.spf_feed.specs.Pick.{usable};
ghost use Rattle.spf_feed.specs.Steps.{chosen_of};
ghost use Rattle.spf_proto.specs.Translated.{is_accepted, standing_after};
ghost use Rattle.spf_proto.specs.Translating.{standing, client_frames, ArePut, IsLengthPut};
ghost use Rattle.spf_proto.specs.Translating.{IsKnown, IsTranslated, payload_start};

use crate::message::read_message;
use crate::payload::put_context;
use spf_api::{ContextView, context_from_view_sharing};
use spf_feed::{
    Ready, ResourceLimits, SvidPicker, frame_kind, select_svid, valid_context, validate_limits,
};
use spf_io::OutOfMemory;
use spf_x509::X509Context;
use std::alloc::Global;

/// The maximum length of a message, and of a payload.
const MAX_PAYLOAD: usize = 1 << 24;

/// The frames of a client and its connection.
const CLIENT: [u8; 10] = [
    frame_kind::CLIENT_MADE,
    0,
    0,
    0,
    0,
    frame_kind::CONNECTED,
    0,
    0,
    0,
    0,
];

/// What decides whether an item is accepted.
#[derive(Clone, Copy)]
pub(crate) struct Acceptance {
    pub(crate) limits: ResourceLimits,
    pub(crate) ready: Ready,
    /// The moment of the session.
    pub(crate) start: i64,
}

/// Where a session stands.
#[derive(Clone, Copy, PartialEq, Eq)]
pub(crate) struct Position {
    /// The next item follows without another client.
    pub(crate) is_open: bool,
    /// An item was accepted.
    pub(crate) synced: bool,
}

/// The last context that was read, and where the payload begins that it was read from, while the
/// frames hold that.
#[derive(Drop)]
pub(crate) struct LastRead {
    pub(crate) context: Option<X509Context>,
    pub(crate) payload_at: Option<usize>,
}

impl LastRead {
    /// No context.
    pub(crate) fn none() -> LastRead
        ensures { result.payload_at ≡ None }
    {
        LastRead {
            context: None,
            payload_at: None,
        }
    }

    /// Holds the context of an update. One that breaks a rule leaves what was held.
    fn hold(&mut self, context: Option<X509Context>, at: usize, frames: &[u8])
        requires reads { item_at (drop at frames.now) ≡ Some context }
        requires forgotten { self.old.payload_at ≡ None }
        ensures { IsKnown self.new frames.now }
    {
        if let Some(context) = context {
            self.context = Some(context);
            self.payload_at = Some(at);
        }
    }
}

/// Whether there is a choice, and it has not expired.
fn is_usable(context: &X509Context, choice: Option<usize>, now: i64) -> bool
    ensures { result
        ≡ is_some (usable (chosen_of (record { context = context.now; choice = choice }))
        (Some now)) }
{
    let Some(index) = choice else {
        return false;
    };
    match context.svids().get(index) {
        Some(svid) => now < svid.expiry_unix(),
        None => false,
    }
}

fn may_sync(context: &X509Context, choice: Option<usize>, acceptance: Acceptance) -> bool
    ensures { result ≡ items_spec.may_sync acceptance.ready
        (record { context = context.now; choice = choice }) (Some acceptance.start) }
{
    match acceptance.ready {
        Ready::Usable => is_usable(context, choice, acceptance.start),
        Ready::Any => true,
    }
}

/// Whether a context is accepted as the first one.
fn accepts<C: SvidPicker>(acceptance: Acceptance, picker: Option<&C>, context: &X509Context) -> bool
    requires { ForSome picker (λ p. C.can_pick p.now) }
    ensures { result
        ≡ is_accepted
        (rules_with acceptance.limits None acceptance.ready
        (option_map (λ p. C.picks p.now) picker.entry)) acceptance.start false
        (Some context.now) }
{
    if validate_limits(context, acceptance.limits).is_err() {
        return false;
    }
    let choice = select_svid(context, picker);
    may_sync(context, choice, acceptance)
}

/// The context of an update, None where it breaks a rule. What it has of the bytes of the held one
/// is shared.
fn read_context(
    alloc: Global,
    view: &ContextView<'_>,
    held: Option<&X509Context>,
) -> Result<Option<X509Context>, OutOfMemory>
    ensures { IfOk result (λ c. c ≡ context_in (context_of view.now)) }
{
    valid_context(context_from_view_sharing(alloc, view, held))
}

/// Where a session stands after an update.
fn position_after<C: SvidPicker>(
    acceptance: Acceptance,
    picker: Option<&C>,
    position: Position,
    context: Option<&X509Context>,
) -> Position
    requires { ForSome picker (λ p. C.can_pick p.now) }
    ensures { standing result
        ≡ standing_after
        (rules_with acceptance.limits None acceptance.ready
        (option_map (λ p. C.picks p.now) picker.entry)) acceptance.start (standing position)
        (option_map (λ c. c.now) context.entry) }
{
    let synced = position.synced;
    match context {
        Some(context) => Position {
            is_open: synced,
            synced: synced || accepts(acceptance, picker, context),
        },
        None => Position {
            is_open: false,
            synced,
        },
    }
}

/// The frames before an item.
#[tactic(auto, unfolding(crate::specs::Translating::client_frames))]
fn frames_before(is_open: bool) -> &'static [u8]
    ensures { result.now ≡ (if is_open then [] else client_frames) }
{
    if is_open { &[] } else { &CLIENT }
}

/// Where the payload of an item begins.
fn payload_start(is_open: bool) -> usize
    ensures { result ≡ payload_start is_open }
{
    if is_open { 5 } else { 15 }
}

/// Writes the length of the payload into the four octets at `at`, after which it begins. Returns
/// false where it is too long for a frame.
fn put_length(frames: &mut Vec<u8>, at: usize) -> bool
    requires room { at + 4 ≤ length frames.old.items }
    ensures { IsLengthPut at frames.old.items frames.new.items result }
{
    let length = frames.len() - at - 4;
    if length > MAX_PAYLOAD {
        return false;
    }
    frames[at..at + 4].copy_from_slice(&(length as u32).to_be_bytes());
    true
}

/// Puts the frames of an update in place of what the buffer held. Returns false where its payload
/// is too long for a frame.
fn put_frames(
    frames: &mut Vec<u8>,
    is_open: bool,
    view: &ContextView<'_>,
) -> Result<bool, OutOfMemory>
    ensures fits { OnOk result (IsContext (context_of view.now)) }
    ensures frames { IfOk result
        (λ put. ArePut is_open (context_payload (context_of view.now)) frames.new.items put) }
{
    frames.clear();
    frames.extend_from_slice(frames_before(is_open))?;
    frames.push(frame_kind::ITEM)?;
    let at = frames.len();
    frames.extend_from_slice(&[0; 4])?;
    put_context(frames, view)?;
    Ok(put_length(frames, at))
}

/// Puts the frames of a message in place of what the buffer held, and returns where the session
/// stands after it. None where the octets are not a message. With any other context that was read
/// last the result is the same.
pub(crate) fn frames_of<C: SvidPicker>(
    alloc: Global,
    acceptance: Acceptance,
    picker: Option<&C>,
    position: Position,
    octets: &[u8],
    last: &mut LastRead,
    frames: &mut Vec<u8>,
) -> Result<Option<Position>, OutOfMemory>
    requires { ForSome picker (λ p. C.can_pick p.now) }
    ensures translated { IfOk result (IsTranslated
        (rules_with acceptance.limits None acceptance.ready
        (option_map (λ p. C.picks p.now) picker.entry)) acceptance.start position octets.now
        frames.new.items) }
    ensures known { IsKnown last.new frames.new.items }
{
    last.payload_at = None;
    if octets.len() > MAX_PAYLOAD {
        return Ok(None);
    }
    let Some(view) = read_message(alloc, octets)? else {
        return Ok(None);
    };
    if !put_frames(frames, position.is_open, &view)? {
        return Ok(None);
    }
    let context = read_context(alloc, &view, last.context.as_ref())?;
    let after = position_after(acceptance, picker, position, context.as_ref());
    last.hold(context, payload_start(position.is_open), frames.as_slice());
    Ok(Some(after))
}
