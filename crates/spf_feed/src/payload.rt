//! What the payload of a frame lays out.

ghost use Rattle.std.specs.Prelude.{◌≡◌, IfOk};
ghost use Rattle.std.specs.Option.{option_map};
ghost use Rattle.spf_feed.specs.declared.event.SessionEvent.TheVariants as events;
ghost use Rattle.spf_feed.specs.Events.{failure_at, moment_at, status_at, event_at};
ghost use Rattle.spf_feed.specs.Items.{item_at, IsReceived};

use crate::event::SessionEvent;
use spf_api::{ClientFault, WorkloadApiError, context_from_view_sharing, read_context_view};
use spf_frame::frame_kind::{
    CLIENT_FAILED, CLIENT_MADE, CLOSE, CONNECT_STATUS, CONNECTED, ITEM, ITEM_STATUS, MOMENT,
    STREAM_END,
};
use spf_frame::{read_status, read_text};
use spf_io::OutOfMemory;
use spf_x509::X509Context;
use std::alloc::Global;

/// The code octet of a client that could not reach its endpoint.
const UNREACHABLE: u8 = 255;

/// An event as it is received: an item is read down to its context, or None where it breaks a rule.
pub type Received = SessionEvent<Option<X509Context>>;

/// Reads a status, or the text of what could not be reached. Returns None where the bytes are
/// neither.
#[tactic(auto, unfolding(crate::specs::Events::failure_at))]
pub fn read_client_fault(alloc: Global, bytes: &[u8]) -> Result<Option<ClientFault>, OutOfMemory>
    ensures { IfOk result (λ o. o ≡ failure_at bytes.now) }
{
    let [number, rest @ ..] = bytes else {
        return Ok(None);
    };
    if *number == UNREACHABLE {
        return Ok(read_text(alloc, rest)?.map(ClientFault::Unreachable));
    }
    Ok(read_status(alloc, bytes)?.map(ClientFault::Status))
}

/// Reads eight octets of Unix seconds, from 0 to 2^63 - 1. Returns None where the bytes are not
/// such.
#[tactic(auto, unfolding(crate::specs::Events::moment_at))]
pub fn read_moment(bytes: &[u8]) -> Option<i64>
    ensures { result ≡ moment_at bytes.now }
{
    let [a, b, c, d, e, f, g, h] = bytes else {
        return None;
    };
    let number = u64::from_be_bytes([*a, *b, *c, *d, *e, *f, *g, *h]);
    if number > i64::MAX as u64 {
        return None;
    }
    Some(number as i64)
}

/// Returns the context of a response, None where it breaks a rule.
pub fn valid_context(
    parsed: Result<X509Context, WorkloadApiError>,
) -> Result<Option<X509Context>, OutOfMemory>
    ensures { IsReceived parsed result }
{
    match parsed {
        Ok(context) => Ok(Some(context)),
        Err(error) => {
            let is_memory = error.is_out_of_memory();
            drop(error);
            if is_memory {
                Err(OutOfMemory)
            } else {
                Ok(None)
            }
        }
    }
}

/// The context that an item brings, None where it breaks a
/// rule. What it has of the bytes of the held one is shared.
#[inline(always)]
fn item_in(
    alloc: Global,
    bytes: &[u8],
    held: Option<&X509Context>,
) -> Result<Option<Option<X509Context>>, OutOfMemory>
    ensures { IfOk result (λ o. o ≡ item_at bytes.now) }
{
    let Some(view) = read_context_view(alloc, bytes)? else {
        return Ok(None);
    };
    let context = context_from_view_sharing(alloc, &view, held);
    Ok(Some(valid_context(context)?))
}

/// The event of an item.
#[inline(never)]
fn item_event(
    alloc: Global,
    payload: &[u8],
    held: Option<&X509Context>,
) -> Result<Option<Received>, OutOfMemory>
    ensures { IfOk result (λ o. o ≡ option_map events.Item (item_at payload.now)) }
{
    Ok(item_in(alloc, payload, held)?.map(Received::Item))
}

/// The event of a client that failed.
#[inline(never)]
fn client_failure(alloc: Global, payload: &[u8]) -> Result<Option<Received>, OutOfMemory>
    ensures { IfOk result (λ o. o ≡ option_map events.ClientFailed (failure_at payload.now)) }
{
    Ok(read_client_fault(alloc, payload)?.map(Received::ClientFailed))
}

/// The event of a connection's status.
#[inline(never)]
fn connect_status(alloc: Global, payload: &[u8]) -> Result<Option<Received>, OutOfMemory>
    ensures { IfOk result (λ o. o ≡ option_map events.ConnectStatus (status_at payload.now)) }
{
    Ok(read_status(alloc, payload)?.map(Received::ConnectStatus))
}

/// The event of an item's status.
#[inline(never)]
fn item_status(alloc: Global, payload: &[u8]) -> Result<Option<Received>, OutOfMemory>
    ensures { IfOk result (λ o. o ≡ option_map events.ItemStatus (status_at payload.now)) }
{
    Ok(read_status(alloc, payload)?.map(Received::ItemStatus))
}

/// The event that a frame lays out, where `held` is the context that is held.
#[inline(always)]
#[tactic(auto, unfolding(crate::specs::Events::event_at))]
pub(crate) fn event_in(
    alloc: Global,
    kind: u8,
    payload: &[u8],
    held: Option<&X509Context>,
) -> Result<Option<Received>, OutOfMemory>
    ensures { IfOk result (λ o. o ≡ event_at item_at kind payload.now) }
{
    match kind {
        CLIENT_MADE if payload.is_empty() => Ok(Some(Received::ClientMade)),
        CLIENT_FAILED => client_failure(alloc, payload),
        CONNECTED if payload.is_empty() => Ok(Some(Received::Connected)),
        CONNECT_STATUS => connect_status(alloc, payload),
        ITEM => item_event(alloc, payload, held),
        ITEM_STATUS => item_status(alloc, payload),
        STREAM_END if payload.is_empty() => Ok(Some(Received::StreamEnd)),
        MOMENT => Ok(read_moment(payload).map(Received::Moment)),
        CLOSE if payload.is_empty() => Ok(Some(Received::Close)),
        _ => Ok(None),
    }
}
