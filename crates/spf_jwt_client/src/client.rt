//! What a client of the Workload API fetches of JWT identities (SPIFFE Workload API section 6).

ghost use Rattle.std.specs.Prelude.{◌≡◌, [], IfErr, IfOk};
ghost use Rattle.std.specs.Borrow.{sem};
ghost use Rattle.std.specs.Option.{option_map};
ghost use Rattle.spf_io.specs.Rule.{broken_as};
ghost use Rattle.spf_client.specs.Asking.{Begins, Fetches};
ghost use Rattle.spf_client.specs.Lending.{LendsClient, OpensStream};
ghost use Rattle.spf_client.specs.declared.client.WorkloadApiClient.{WorkloadApiClient as Client};
ghost use Rattle.spf_jwt.specs.Errors.{api_of_any_kind};
ghost use Rattle.spf_jwt.specs.Responses.{jwt_bundle_set_of, jwt_svids_of};
ghost use Rattle.spf_jwt.specs.Selected.{first_jwt_svid_of, first_token_of, hinted_jwt_svid_of};
ghost use Rattle.spf_jwt.specs.Selected.{validated_svid_of};
ghost use Rattle.spf_jwt_client.specs.Requests.{jwt_request, validation_request};

use crate::first::{first_bundles, first_svids, first_validation};
use crate::stream::JwtBundleStream;
use spf_api::{Response, WorkloadApiError};
use spf_client::WorkloadApiClient;
use spf_id::SpiffeId;
use spf_io::Text;
use spf_jwt::{
    JwtBundleSet, JwtSvid, jwt_bundle_set_from, jwt_svid_from, jwt_svid_with_hint_from,
    jwt_svids_from, jwt_token_from, validated_svid_from,
};
use spf_link::{Interceptor, Link, Request};
use std::alloc::Global;

/// The calls of a client for JWT bundles and JWT-SVIDs.
pub trait JwtClient {
    type Link: Link;

    type Interceptor: Interceptor;

    // The client that makes the requests.
    ghost client: { Self → Client Self.Link Self.Interceptor };

    /// Fetches the JWT bundles of the workload's trust domain and of federated ones.
    fn fetch_jwt_bundles(&mut self, alloc: Global) -> Result<JwtBundleSet, WorkloadApiError>
        requires { Self.Interceptor.can_intercept (client self.old).metadata.extra }
        ensures fetches { Fetches Self.Link.Link
            (Self.Interceptor.intercepts (client self.old).metadata.extra []) Request.JwtBundles
            Response.JwtBundles jwt_bundle_set_of (λ b. b) (client self.old).link
            (broken_as api_of_any_kind result) (client self.new).link }
        ensures kept { client self.new ≡ record (client self.old)
            { link = (client self.new).link } };

    /// Begins a stream of bundle sets, which borrows the client until it is dropped.
    fn stream_jwt_bundles(
        &mut self,
        alloc: Global,
    ) -> Result<JwtBundleStream<'_, Self::Link, Self::Interceptor>, WorkloadApiError>
        requires { Self.Interceptor.can_intercept (client self.old).metadata.extra };

    /// Fetches a JWT-SVID for the audience, the first where there are several. Without an ID it is
    /// one of any identity of the workload.
    fn fetch_jwt_svid(
        &mut self,
        alloc: Global,
        audience: &[Text],
        id: Option<&SpiffeId>,
    ) -> Result<JwtSvid, WorkloadApiError>
        requires { Self.Interceptor.can_intercept (client self.old).metadata.extra }
        ensures fetches { Fetches Self.Link.Link
            (Self.Interceptor.intercepts (client self.old).metadata.extra [])
            (jwt_request audience.now (option_map (λ i. i.now) id.entry)) Response.JwtSvids
            first_jwt_svid_of (λ s. s) (client self.old).link result (client self.new).link }
        ensures kept { client self.new ≡ record (client self.old)
            { link = (client self.new).link } };

    /// Fetches the JWT-SVIDs for the audience, in order.
    fn fetch_all_jwt_svids(
        &mut self,
        alloc: Global,
        audience: &[Text],
        id: Option<&SpiffeId>,
    ) -> Result<Vec<JwtSvid>, WorkloadApiError>
        requires { Self.Interceptor.can_intercept (client self.old).metadata.extra }
        ensures fetches { Fetches Self.Link.Link
            (Self.Interceptor.intercepts (client self.old).metadata.extra [])
            (jwt_request audience.now (option_map (λ i. i.now) id.entry)) Response.JwtSvids
            jwt_svids_of (λ v. v.items) (client self.old).link result (client self.new).link }
        ensures kept { client self.new ≡ record (client self.old)
            { link = (client self.new).link } };

    /// Fetches the first JWT-SVID for the audience that has the hint.
    fn fetch_jwt_svid_by_hint(
        &mut self,
        alloc: Global,
        audience: &[Text],
        id: Option<&SpiffeId>,
        hint: &str,
    ) -> Result<JwtSvid, WorkloadApiError>
        requires { Self.Interceptor.can_intercept (client self.old).metadata.extra }
        ensures fetches { Fetches Self.Link.Link
            (Self.Interceptor.intercepts (client self.old).metadata.extra [])
            (jwt_request audience.now (option_map (λ i. i.now) id.entry)) Response.JwtSvids
            (hinted_jwt_svid_of hint.now) (λ s. s) (client self.old).link result
            (client self.new).link }
        ensures kept { client self.new ≡ record (client self.old)
            { link = (client self.new).link } };

    /// Fetches the token of the first JWT-SVID for the audience, which is not read.
    fn fetch_jwt_token(
        &mut self,
        alloc: Global,
        audience: &[Text],
        id: Option<&SpiffeId>,
    ) -> Result<Text, WorkloadApiError>
        requires { Self.Interceptor.can_intercept (client self.old).metadata.extra }
        ensures fetches { Fetches Self.Link.Link
            (Self.Interceptor.intercepts (client self.old).metadata.extra [])
            (jwt_request audience.now (option_map (λ i. i.now) id.entry)) Response.JwtSvids
            first_token_of (λ t. t) (client self.old).link result (client self.new).link }
        ensures kept { client self.new ≡ record (client self.old)
            { link = (client self.new).link } };

    /// Has the Workload API validate the token for the audience, and then reads it.
    fn validate_jwt_token(
        &mut self,
        alloc: Global,
        audience: &str,
        token: &str,
    ) -> Result<JwtSvid, WorkloadApiError>
        requires { Self.Interceptor.can_intercept (client self.old).metadata.extra }
        ensures fetches { Fetches Self.Link.Link
            (Self.Interceptor.intercepts (client self.old).metadata.extra [])
            (validation_request audience.now token.now) Response.Validation
            (validated_svid_of token.now) (λ s. s) (client self.old).link result
            (client self.new).link }
        ensures kept { client self.new ≡ record (client self.old)
            { link = (client self.new).link } };
}

impl<L: Link, I: Interceptor> JwtClient for WorkloadApiClient<L, I> {
    type Link = L;

    type Interceptor = I;

    ghost client = { λ c. c };

    fn fetch_jwt_bundles(&mut self, alloc: Global) -> Result<JwtBundleSet, WorkloadApiError> {
        let response = first_bundles(self, alloc)?;
        jwt_bundle_set_from(alloc, &response)
    }

    fn stream_jwt_bundles(
        &mut self,
        alloc: Global,
    ) -> Result<JwtBundleStream<'_, L, I>, WorkloadApiError>
        requires { I.can_intercept self.old.metadata.extra }
        ensures* lends { sem 𝓛 (LendsClient L.row I.row L.Link
            (I.intercepts self.old.metadata.extra []) Request.JwtBundles self.entry
            (λ s. s.client.ghost_name) result) }
        ensures same_client { IfOk result (λ s. s.client.ghost_name ≡ self.entry.ghost_name) }
        ensures opens { IfOk result (λ s. OpensStream L.Link
            (I.intercepts self.old.metadata.extra []) Request.JwtBundles self.old s.client.now
            s.ended) }
        ensures refused { IfErr result (λ e. (end : L)
            × Begins L.Link (I.intercepts self.old.metadata.extra []) Request.JwtBundles
            self.old.link (Err e) end) }
    {
        self.begin(alloc, &Request::JwtBundles)?;
        Ok(JwtBundleStream {
            client: self,
            ended: false,
        })
    }

    fn fetch_jwt_svid(
        &mut self,
        alloc: Global,
        audience: &[Text],
        id: Option<&SpiffeId>,
    ) -> Result<JwtSvid, WorkloadApiError> {
        let response = first_svids(self, alloc, audience, id)?;
        jwt_svid_from(alloc, &response)
    }

    fn fetch_all_jwt_svids(
        &mut self,
        alloc: Global,
        audience: &[Text],
        id: Option<&SpiffeId>,
    ) -> Result<Vec<JwtSvid>, WorkloadApiError> {
        let response = first_svids(self, alloc, audience, id)?;
        jwt_svids_from(alloc, &response)
    }

    fn fetch_jwt_svid_by_hint(
        &mut self,
        alloc: Global,
        audience: &[Text],
        id: Option<&SpiffeId>,
        hint: &str,
    ) -> Result<JwtSvid, WorkloadApiError> {
        let response = first_svids(self, alloc, audience, id)?;
        jwt_svid_with_hint_from(alloc, &response, hint)
    }

    fn fetch_jwt_token(
        &mut self,
        alloc: Global,
        audience: &[Text],
        id: Option<&SpiffeId>,
    ) -> Result<Text, WorkloadApiError> {
        let response = first_svids(self, alloc, audience, id)?;
        jwt_token_from(alloc, &response)
    }

    fn validate_jwt_token(
        &mut self,
        alloc: Global,
        audience: &str,
        token: &str,
    ) -> Result<JwtSvid, WorkloadApiError> {
        let response = first_validation(self, alloc, audience, token)?;
        validated_svid_from(alloc, &response, token)
    }
}
