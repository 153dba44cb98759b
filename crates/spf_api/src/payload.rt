//! Payloads of responses, read and written.

ghost use Rattle.std.specs.Prelude.{◌≡◌, IfOk, OnOk};
ghost use Rattle.std.specs.Option.{option_map};
ghost use Rattle.spf_api.specs.Payload.{kind_of, Finds, Payload, Appends, IsRead};
ghost use Rattle.spf_api.specs.Reading.{bundles_at};

use crate::entry::read_entries;
use crate::payload_jwt::jwt_svids;
use crate::payload_validation::{put_validation, validation};
use crate::payload_view::read_context_view;
use crate::payload_writer::{put_context, put_list};
use crate::response::{BundleEntryView, BundlesResponse, Response, ResponseKind};
use crate::views::{to_bundles, to_context};
use spf_io::OutOfMemory;
use std::alloc::Global;

#[tactic(auto, unfolding(crate::specs::Reading::bundles_at))]
fn read_bundles(alloc: Global, payload: &[u8]) -> Result<Option<BundlesResponse>, OutOfMemory>
    ensures { IfOk result (λ o. option_map (λ r. r.bundles) o ≡ bundles_at payload.now) }
{
    let Some((views, rest)) = read_entries::<BundleEntryView<'_>>(alloc, payload)? else {
        return Ok(None);
    };
    if !rest.is_empty() {
        return Ok(None);
    }
    Ok(Some(to_bundles(alloc, views.as_slice())?))
}

#[tactic(auto, unfolding(crate::specs::Payload::IsRead))]
fn read(alloc: Global, kind: ResponseKind, payload: &[u8]) -> Result<Option<Response>, OutOfMemory>
    ensures { IfOk result (λ o. IsRead kind payload.now o) }
{
    match kind {
        ResponseKind::Context => match read_context_view(alloc, payload)? {
            Some(view) => Ok(Some(Response::Context(to_context(alloc, &view)?))),
            None => Ok(None),
        },
        ResponseKind::Bundles => match read_bundles(alloc, payload)? {
            Some(bundles) => Ok(Some(Response::Bundles(bundles))),
            None => Ok(None),
        },
        ResponseKind::JwtSvids => match jwt_svids(alloc, payload)? {
            Some(svids) => Ok(Some(Response::JwtSvids(svids))),
            None => Ok(None),
        },
        ResponseKind::JwtBundles => match read_bundles(alloc, payload)? {
            Some(bundles) => Ok(Some(Response::JwtBundles(bundles))),
            None => Ok(None),
        },
        ResponseKind::Validation => match validation(alloc, payload)? {
            Some(validation) => Ok(Some(Response::Validation(validation))),
            None => Ok(None),
        },
    }
}

/// Returns the response of that kind that the payload lays out, and None where it lays out none.
pub fn read_payload(
    alloc: Global,
    kind: ResponseKind,
    payload: &[u8],
) -> Result<Option<Response>, OutOfMemory>
    ensures exact { IfOk result (λ o. IsRead kind payload.now o) }
    ensures laid { IfOk result (λ o. Finds kind payload.now o) }
{
    read(alloc, kind, payload)
}

fn put_response(out: &mut Vec<u8>, response: &Response) -> Result<(), OutOfMemory>
    ensures { OnOk result (Appends response.now out.old.items out.new.items) }
{
    match response {
        Response::Context(context) => put_context(out, context),
        Response::Bundles(bundles) => put_list(out, bundles.bundles.as_slice()),
        Response::JwtSvids(svids) => put_list(out, svids.svids.as_slice()),
        Response::JwtBundles(bundles) => put_list(out, bundles.bundles.as_slice()),
        Response::Validation(validation) => put_validation(out, validation),
    }
}

/// Returns the payload that lays out the response. A response without a layout, with a length or a
/// count from 2^32 on or claim values more than 64 deep, counts as out of memory.
pub fn write_payload(alloc: Global, response: &Response) -> Result<Vec<u8>, OutOfMemory>
    ensures { IfOk result (λ v. Payload (kind_of response.now) v.items response.now) }
{
    let mut out = Vec::new(alloc);
    put_response(&mut out, response)?;
    Ok(out)
}
