//! An event as it is received: its item is read.

ghost use Rattle.std.specs.Prelude.{◌≡◌, Err, IfOk};
ghost use Rattle.spf_api.specs.Errors.{is_memory_api};
ghost use Rattle.spf_feed.specs.Events.{map_item};
ghost use Rattle.spf_jwt_feed.specs.Items.{IsReceived, item_in};

use spf_api::{BundlesResponse, WorkloadApiError};
use spf_feeder::beside_item;
use spf_io::OutOfMemory;
use spf_jwt::{JwtBundleSet, jwt_bundle_set_from};
use spf_jwt_feed::{JwtEvent, JwtItem, JwtReceived};
use std::alloc::Global;
use std::mem::drop;

fn is_out_of_memory(e: &WorkloadApiError) -> bool
    ensures { result ≡ is_memory_api e.now }
{
    matches!(e, WorkloadApiError::OutOfMemory)
}

/// What key sets that were not read leave: a broken item where a rule is broken.
fn refused(e: WorkloadApiError) -> Result<JwtItem, OutOfMemory>
    ensures { IsReceived (Err e) result }
{
    let is_memory = is_out_of_memory(&e);
    drop(e);
    if is_memory {
        return Err(OutOfMemory);
    }
    Ok(JwtItem::Broken)
}

/// The item whose key sets were read.
fn received(parsed: Result<JwtBundleSet, WorkloadApiError>) -> Result<JwtItem, OutOfMemory>
    ensures { IsReceived parsed result }
{
    match parsed {
        Ok(set) => Ok(JwtItem::Bundles(set)),
        Err(e) => refused(e),
    }
}

/// What the bundles of a response are.
fn item_of(alloc: Global, response: &BundlesResponse) -> Result<JwtItem, OutOfMemory>
    ensures { IfOk result (λ i. i ≡ item_in response.now) }
{
    if response.bundles.as_slice().is_empty() {
        return Ok(JwtItem::Empty);
    }
    received(jwt_bundle_set_from(alloc, response))
}

/// The event as it is received.
pub(crate) fn received_of(alloc: Global, event: &JwtEvent) -> Result<JwtReceived, OutOfMemory>
    ensures { IfOk result (λ r. r ≡ map_item item_in event.now) }
{
    match event {
        JwtEvent::Item(response) => Ok(JwtReceived::Item(item_of(alloc, response)?)),
        other => beside_item(alloc, other),
    }
}
