//! Fetches of X.509 identities and bundles (SPIFFE Workload API section 5).

ghost use Rattle.std.specs.Prelude.{◌≡◌, []};
ghost use Rattle.spf_api.specs.Parsed.{bundle_set_of, first_svid_of, parsed_of, svids_of};
ghost use Rattle.spf_client.specs.Asking.{Asks, Fetches};
ghost use Rattle.spf_client.specs.Reading.{wrapped};

use crate::client::WorkloadApiClient;
use spf_api::{
    BundlesResponse, ContextResponse, Response, WorkloadApiError, bundle_set_from, context_from,
    svid_from, svids_from,
};
use spf_link::{Interceptor, Link, Request};
use spf_x509::{X509BundleSet, X509Context, X509Svid};
use std::alloc::Global;

impl<L: Link, I: Interceptor> WorkloadApiClient<L, I> {
    fn first_context(&mut self, alloc: Global) -> Result<ContextResponse, WorkloadApiError>
        requires { I.can_intercept self.old.metadata.extra }
        ensures asks { Asks L.Link (I.intercepts self.old.metadata.extra []) Request.X509Svid
            self.old.link (wrapped Response.Context result) self.new.link }
        ensures kept { self.new ≡ record self.old { link = self.new.link } }
    {
        match self.ask(alloc, &Request::X509Svid)? {
            Response::Context(response) => Ok(response),
            _ => unreachable!(),
        }
    }

    fn first_bundles(&mut self, alloc: Global) -> Result<BundlesResponse, WorkloadApiError>
        requires { I.can_intercept self.old.metadata.extra }
        ensures asks { Asks L.Link (I.intercepts self.old.metadata.extra []) Request.X509Bundles
            self.old.link (wrapped Response.Bundles result) self.new.link }
        ensures kept { self.new ≡ record self.old { link = self.new.link } }
    {
        match self.ask(alloc, &Request::X509Bundles)? {
            Response::Bundles(response) => Ok(response),
            _ => unreachable!(),
        }
    }

    /// Fetches the first X.509-SVID of the workload.
    pub fn fetch_x509_svid(&mut self, alloc: Global) -> Result<X509Svid, WorkloadApiError>
        requires { I.can_intercept self.old.metadata.extra }
        ensures fetches { Fetches L.Link (I.intercepts self.old.metadata.extra []) Request.X509Svid
            Response.Context first_svid_of (λ s. s) self.old.link result self.new.link }
        ensures kept { self.new ≡ record self.old { link = self.new.link } }
    {
        let response = self.first_context(alloc)?;
        svid_from(alloc, &response)
    }

    /// Fetches the X.509-SVIDs of the workload, in order.
    pub fn fetch_all_x509_svids(&mut self, alloc: Global) -> Result<Vec<X509Svid>, WorkloadApiError>
        requires { I.can_intercept self.old.metadata.extra }
        ensures fetches { Fetches L.Link (I.intercepts self.old.metadata.extra []) Request.X509Svid
            Response.Context svids_of (λ v. v.items) self.old.link result self.new.link }
        ensures kept { self.new ≡ record self.old { link = self.new.link } }
    {
        let response = self.first_context(alloc)?;
        svids_from(alloc, &response)
    }

    /// Fetches the X.509-SVIDs of the workload with all bundles and CRLs.
    pub fn fetch_x509_context(&mut self, alloc: Global) -> Result<X509Context, WorkloadApiError>
        requires { I.can_intercept self.old.metadata.extra }
        ensures fetches { Fetches L.Link (I.intercepts self.old.metadata.extra []) Request.X509Svid
            Response.Context parsed_of (λ c. c) self.old.link result self.new.link }
        ensures kept { self.new ≡ record self.old { link = self.new.link } }
    {
        let response = self.first_context(alloc)?;
        context_from(alloc, &response)
    }

    /// Fetches the X.509 bundles of the workload's trust domain and of federated ones.
    pub fn fetch_x509_bundles(&mut self, alloc: Global) -> Result<X509BundleSet, WorkloadApiError>
        requires { I.can_intercept self.old.metadata.extra }
        ensures fetches { Fetches L.Link (I.intercepts self.old.metadata.extra [])
            Request.X509Bundles Response.Bundles bundle_set_of (λ b. b) self.old.link result
            self.new.link }
        ensures kept { self.new ≡ record self.old { link = self.new.link } }
    {
        let response = self.first_bundles(alloc)?;
        bundle_set_from(alloc, &response)
    }
}
