//! What the payload of a frame lays out.

ghost use Rattle.std.specs.Prelude.{◌≡◌, IfOk};
ghost use Rattle.spf_feed.specs.Events.{event_at};
ghost use Rattle.spf_feed.specs.Events as spec;
ghost use Rattle.spf_api.specs.declared.response.Response.TheVariants as responses;
ghost use Rattle.spf_jwt_feed.specs.Items.{item_at, IsReceived, HasKeySets};
ghost use Rattle.spf_jwt_feed.specs.Items as items_spec;

use crate::event::{JwtItem, JwtReceived};
use spf_api::{BundlesResponse, Response, ResponseKind, WorkloadApiError, read_payload};
use spf_feed::{read_client_fault, read_moment};
use spf_frame::frame_kind::{
    CLIENT_FAILED, CLIENT_MADE, CLOSE, CONNECT_STATUS, CONNECTED, ITEM, ITEM_STATUS, MOMENT,
    STREAM_END,
};
use spf_frame::read_status;
use spf_io::OutOfMemory;
use spf_jwt::{JwtBundleSet, jwt_bundle_set_sharing};
use std::alloc::Global;

/// The item whose key sets were read.
fn received(parsed: Result<JwtBundleSet, WorkloadApiError>) -> Result<JwtItem, OutOfMemory>
    ensures { IsReceived parsed result }
{
    match parsed {
        Ok(set) => Ok(JwtItem::Bundles(set)),
        Err(error) => {
            let is_memory = error.is_out_of_memory();
            drop(error);
            if is_memory {
                Err(OutOfMemory)
            } else {
                Ok(JwtItem::Broken)
            }
        }
    }
}

/// What the bundles of a response are.
fn item_of(
    alloc: Global,
    response: BundlesResponse,
    held: Option<&JwtBundleSet>,
) -> Result<JwtItem, OutOfMemory>
    ensures { IfOk result (λ i. i ≡ items_spec.item_in response) }
{
    if response.bundles.as_slice().is_empty() {
        return Ok(JwtItem::Empty);
    }
    received(jwt_bundle_set_sharing(alloc, response, held))
}

/// The bundles of a response that carries key sets.
fn key_sets(response: Response) -> BundlesResponse
    requires { HasKeySets response }
    ensures { response ≡ responses.JwtBundles result }
{
    match response {
        Response::JwtBundles(bundles) => bundles,
        _ => unreachable!(),
    }
}

/// What an item brings. None where the payload lays out none.
fn item_in(
    alloc: Global,
    bytes: &[u8],
    held: Option<&JwtBundleSet>,
) -> Result<Option<JwtItem>, OutOfMemory>
    ensures { IfOk result (λ o. o ≡ item_at bytes.now) }
{
    let Some(response) = read_payload(alloc, ResponseKind::JwtBundles, bytes)? else {
        return Ok(None);
    };
    let item = item_of(alloc, key_sets(response), held)?;
    Ok(Some(item))
}

/// The event, where the payload is empty.
fn when_empty(payload: &[u8], event: JwtReceived) -> Option<JwtReceived>
    ensures { result ≡ spec.when_empty payload.now event }
{
    if payload.is_empty() {
        Some(event)
    } else {
        None
    }
}

/// The event that a frame lays out, where `held` is the bundle set that is held.
#[tactic(auto, unfolding(spf_feed::specs::Events::event_at))]
pub(crate) fn event_in(
    alloc: Global,
    kind: u8,
    payload: &[u8],
    held: Option<&JwtBundleSet>,
) -> Result<Option<JwtReceived>, OutOfMemory>
    ensures { IfOk result (λ o. o ≡ event_at item_at kind payload.now) }
{
    match kind {
        CLIENT_MADE => Ok(when_empty(payload, JwtReceived::ClientMade)),
        CLIENT_FAILED => Ok(read_client_fault(alloc, payload)?.map(JwtReceived::ClientFailed)),
        CONNECTED => Ok(when_empty(payload, JwtReceived::Connected)),
        CONNECT_STATUS => Ok(read_status(alloc, payload)?.map(JwtReceived::ConnectStatus)),
        ITEM => Ok(item_in(alloc, payload, held)?.map(JwtReceived::Item)),
        ITEM_STATUS => Ok(read_status(alloc, payload)?.map(JwtReceived::ItemStatus)),
        STREAM_END => Ok(when_empty(payload, JwtReceived::StreamEnd)),
        MOMENT => Ok(read_moment(payload).map(JwtReceived::Moment)),
        CLOSE => Ok(when_empty(payload, JwtReceived::Close)),
        _ => Ok(None),
    }
}
