//! Responses of any kind.

ghost use Rattle.std.specs.Prelude.{◌≡◌, IfOk, IfSome};
ghost use Rattle.std.specs.Option.{option_map};
ghost use Rattle.spf_api.specs.Payload.{kind_of};
ghost use Rattle.spf_messages.specs.Message.{bundle_message, bundle_name, context_message};
ghost use Rattle.spf_messages.specs.Message.{entries_in};
ghost use Rattle.spf_messages.specs.Message.{jwt_svids_message, last_of_each};
ghost use Rattle.spf_messages.specs.Responses.{response_in};

use crate::context::{read_context_message, to_context};
use crate::entry::JwtSvidView;
use crate::named::without_repeats;
use crate::validation::read_validation;
use crate::view::{read_list, to_entries};
use spf_api::{
    BundleEntryView, BundlesResponse, ContextResponse, JwtSvidsResponse, Response, ResponseKind,
};
use spf_io::OutOfMemory;
use std::alloc::Global;

/// Reads a message whose bundles are the fields of that number, the last that is named.
fn read_bundles(
    alloc: Global,
    number: u64,
    bytes: &[u8],
) -> Result<Option<BundlesResponse>, OutOfMemory>
    ensures { IfOk result
        (λ o. option_map (λ r. r.bundles) o
        ≡ option_map (last_of_each bundle_name) (entries_in bundle_message number number bytes.now)) }
{
    let Some(views) = read_list::<BundleEntryView<'_>>(alloc, number, number, bytes)? else {
        return Ok(None);
    };
    let views = without_repeats(alloc, views)?;
    Ok(Some(BundlesResponse {
        bundles: to_entries(alloc, views.as_slice())?,
    }))
}

/// Reads a JWTSVIDResponse.
#[tactic(auto, unfolding(crate::specs::Message::jwt_svids_message))]
fn read_jwt_svids(alloc: Global, bytes: &[u8]) -> Result<Option<JwtSvidsResponse>, OutOfMemory>
    ensures { IfOk result (λ o. option_map (λ r. r.svids) o ≡ jwt_svids_message bytes.now) }
{
    let Some(views) = read_list::<JwtSvidView<'_>>(alloc, 1, 1, bytes)? else {
        return Ok(None);
    };
    Ok(Some(JwtSvidsResponse {
        svids: to_entries(alloc, views.as_slice())?,
    }))
}

/// Reads an X509SVIDResponse.
fn read_context(alloc: Global, bytes: &[u8]) -> Result<Option<ContextResponse>, OutOfMemory>
    ensures { IfOk result (λ o. o ≡ context_message bytes.now) }
{
    match read_context_message(alloc, bytes)? {
        Some(view) => Ok(Some(to_context(alloc, &view)?)),
        None => Ok(None),
    }
}

/// Returns the response of that kind that a message says, and None where the bytes are no such
/// message.
#[tactic(auto, unfolding(crate::specs::Responses::response_in, crate::specs::Message::x509_bundles_message, crate::specs::Message::jwt_bundles_message))]
pub fn read_response(
    alloc: Global,
    kind: ResponseKind,
    message: &[u8],
) -> Result<Option<Response>, OutOfMemory>
    ensures exact { IfOk result (λ o. o ≡ response_in kind message.now) }
    ensures kind { IfOk result (λ o. IfSome o (λ r. kind_of r ≡ kind)) }
{
    match kind {
        ResponseKind::Context => match read_context(alloc, message)? {
            Some(context) => Ok(Some(Response::Context(context))),
            None => Ok(None),
        },
        ResponseKind::Bundles => match read_bundles(alloc, 2, message)? {
            Some(bundles) => Ok(Some(Response::Bundles(bundles))),
            None => Ok(None),
        },
        ResponseKind::JwtSvids => match read_jwt_svids(alloc, message)? {
            Some(svids) => Ok(Some(Response::JwtSvids(svids))),
            None => Ok(None),
        },
        ResponseKind::JwtBundles => match read_bundles(alloc, 1, message)? {
            Some(bundles) => Ok(Some(Response::JwtBundles(bundles))),
            None => Ok(None),
        },
        ResponseKind::Validation => match read_validation(alloc, message)? {
            Some(validation) => Ok(Some(Response::Validation(validation))),
            None => Ok(None),
        },
    }
}
