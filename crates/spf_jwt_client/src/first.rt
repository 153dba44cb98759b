//! The first response to each request for JWT identities.

ghost use Rattle.std.specs.Prelude.{◌≡◌, []};
ghost use Rattle.std.specs.Option.{option_map};
ghost use Rattle.spf_client.specs.Asking.{Asks};
ghost use Rattle.spf_client.specs.Reading.{wrapped};
ghost use Rattle.spf_jwt_client.specs.Requests.{jwt_request, validation_request};

use crate::request::{for_svids, for_validation};
use spf_api::{BundlesResponse, JwtSvidsResponse, Response, ValidationResponse, WorkloadApiError};
use spf_client::WorkloadApiClient;
use spf_id::SpiffeId;
use spf_io::Text;
use spf_link::{Interceptor, Link, Request};
use std::alloc::Global;

pub(crate) fn first_bundles<L: Link, I: Interceptor>(
    client: &mut WorkloadApiClient<L, I>,
    alloc: Global,
) -> Result<BundlesResponse, WorkloadApiError>
    requires { I.can_intercept client.old.metadata.extra }
    ensures asks { Asks L.Link (I.intercepts client.old.metadata.extra []) Request.JwtBundles
        client.old.link (wrapped Response.JwtBundles result) client.new.link }
    ensures kept { client.new ≡ record client.old { link = client.new.link } }
{
    match client.ask(alloc, &Request::JwtBundles)? {
        Response::JwtBundles(response) => Ok(response),
        _ => unreachable!(),
    }
}

pub(crate) fn first_svids<L: Link, I: Interceptor>(
    client: &mut WorkloadApiClient<L, I>,
    alloc: Global,
    audience: &[Text],
    id: Option<&SpiffeId>,
) -> Result<JwtSvidsResponse, WorkloadApiError>
    requires { I.can_intercept client.old.metadata.extra }
    ensures asks { Asks L.Link (I.intercepts client.old.metadata.extra [])
        (jwt_request audience.now (option_map (λ i. i.now) id.entry)) client.old.link
        (wrapped Response.JwtSvids result) client.new.link }
    ensures kept { client.new ≡ record client.old { link = client.new.link } }
{
    let request = for_svids(alloc, audience, id)?;
    match client.ask(alloc, &request)? {
        Response::JwtSvids(response) => Ok(response),
        _ => unreachable!(),
    }
}

pub(crate) fn first_validation<L: Link, I: Interceptor>(
    client: &mut WorkloadApiClient<L, I>,
    alloc: Global,
    audience: &str,
    token: &str,
) -> Result<ValidationResponse, WorkloadApiError>
    requires { I.can_intercept client.old.metadata.extra }
    ensures asks { Asks L.Link (I.intercepts client.old.metadata.extra [])
        (validation_request audience.now token.now) client.old.link
        (wrapped Response.Validation result) client.new.link }
    ensures kept { client.new ≡ record client.old { link = client.new.link } }
{
    let request = for_validation(alloc, audience, token)?;
    match client.ask(alloc, &request)? {
        Response::Validation(response) => Ok(response),
        _ => unreachable!(),
    }
}
