//! A stream of JWT bundles over the link of a client (SPIFFE Workload API section 6). It ends where
//! the link says so, or refuses. An item that breaks a rule is an error, and so is running out of
//! memory: after either, the stream goes on.

ghost use Rattle.std.specs.Prelude.{◌≡◌, Some};
ghost use Rattle.std.specs.Option.{option_map};
ghost use Rattle.spf_api.specs.declared.response.ResponseKind.TheVariants as kind;
ghost use Rattle.spf_client.specs.Streams.{Streams};
ghost use Rattle.spf_io.specs.Rule.{broken_as};
ghost use Rattle.spf_jwt.specs.Errors.{api_of_any_kind};
ghost use Rattle.spf_jwt.specs.Responses.{jwt_bundle_set_of};

use spf_api::{Response, WorkloadApiError};
use spf_client::WorkloadApiClient;
use spf_jwt::{JwtBundleSet, jwt_bundle_set_from};
use spf_link::{Link, NoInterceptor};
use std::alloc::Global;

/// The JWT bundles of each update that an agent sends.
#[derive(Drop)]
pub struct JwtBundleStream<'a, L: Link, I = NoInterceptor> {
    pub(crate) client: &'a mut WorkloadApiClient<L, I>,
    pub(crate) ended: bool,
    ghost asked: { L.kind client.now.link ≡ Some kind.JwtBundles },
}

impl<'a, L: Link, I> JwtBundleStream<'a, L, I> {
    /// Returns the next bundle set: none at the end of the stream, and after it.
    pub fn next_item(&mut self, alloc: Global) -> Option<Result<JwtBundleSet, WorkloadApiError>>
        ensures streams { Streams L.Link Response.JwtBundles jwt_bundle_set_of (λ b. b)
            self.old.ended self.old.client.now.link
            (option_map (broken_as api_of_any_kind) result) self.new.client.now.link
            self.new.ended }
        ensures kept { self.new.client.now ≡ record self.old.client.now
            { link = self.new.client.now.link } }
        ensures same_client { self.new.client.ghost_name ≡ self.old.client.ghost_name }
    {
        match self.client.next_response(&mut self.ended)? {
            Ok(Response::JwtBundles(response)) => Some(jwt_bundle_set_from(alloc, &response)),
            Ok(_) => unreachable!(),
            Err(e) => Some(Err(e)),
        }
    }
}
