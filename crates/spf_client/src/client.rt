//! The client: its link, its interceptor, and one request over them.

ghost use Rattle.std.specs.Prelude.{◌≡◌, [], IfOk, Some};
ghost use Rattle.std.specs.Option.{option_copied};
ghost use Rattle.spf_api.specs.Payload.{kind_of};
ghost use Rattle.spf_link.specs.Request.{answered_by};
ghost use Rattle.spf_client.specs.Asking.{Asks, Begins};

use crate::reading::{fault_error, first_response};
use spf_api::{Response, WorkloadApiError};
use spf_link::{Endpoint, Headers, Interceptor, Link, MetadataAdder, Request};
use std::alloc::Global;
use std::fmt;

/// A client of the Workload API over a link. Each request carries the headers that its interceptor
/// makes, and after them that of the Workload API.
#[derive(Drop)]
pub struct WorkloadApiClient<L, I> {
    endpoint: Option<Endpoint>,
    pub(crate) link: L,
    metadata: MetadataAdder<I>,
}

impl<L, I> fmt::Debug for WorkloadApiClient<L, I> {
    fn fmt<W: fmt::Write>(&self, f: &mut fmt::Formatter<W>) -> fmt::Result {
        write!(f, "WorkloadApiClient")
    }
}

impl<L: Link, I: Interceptor> WorkloadApiClient<L, I> {
    /// Returns a client over an existing link. The endpoint is only kept, for
    /// [`WorkloadApiClient::endpoint`].
    pub fn new_with_link(
        endpoint: Option<Endpoint>,
        link: L,
        interceptor: I,
    ) -> WorkloadApiClient<L, I>
        ensures { result ≡ record {
          endpoint = endpoint;
          link = link;
          metadata =
              record { extra = interceptor };
        } }
    {
        WorkloadApiClient {
            endpoint,
            link,
            metadata: MetadataAdder::new(interceptor),
        }
    }

    /// The same client, with the endpoint kept.
    pub(crate) fn with_endpoint(self, endpoint: Endpoint) -> WorkloadApiClient<L, I>
        ensures { result ≡ record self { endpoint = Some endpoint } }
    {
        WorkloadApiClient {
            endpoint: Some(endpoint),
            link: self.link,
            metadata: self.metadata,
        }
    }

    /// Returns the endpoint of the client, where it has one.
    pub fn endpoint(&self) -> Option<&Endpoint>
        ensures { option_copied result ≡ self.now.endpoint }
    {
        self.endpoint.as_ref()
    }

    /// Begins a request.
    pub fn begin(&mut self, alloc: Global, request: &Request) -> Result<(), WorkloadApiError>
        requires { I.can_intercept self.old.metadata.extra }
        ensures begins { Begins L.Link (I.intercepts self.old.metadata.extra []) request.now
            self.old.link result self.new.link }
        ensures kind { IfOk result (λ _. L.kind self.new.link ≡ Some (answered_by request.now)) }
        ensures kept { self.new ≡ record self.old { link = self.new.link } }
    {
        let mut headers = Headers::new(alloc);
        self.metadata.call(&mut headers)?;
        match self.link.start(&headers, request) {
            Ok(()) => Ok(()),
            Err(fault) => Err(fault_error(fault)),
        }
    }

    /// Begins a request, and takes the first response to it.
    pub fn ask(&mut self, alloc: Global, request: &Request) -> Result<Response, WorkloadApiError>
        requires { I.can_intercept self.old.metadata.extra }
        ensures asks { Asks L.Link (I.intercepts self.old.metadata.extra []) request.now
            self.old.link result self.new.link }
        ensures kind { IfOk result (λ r. kind_of r ≡ answered_by request.now) }
        ensures kept { self.new ≡ record self.old { link = self.new.link } }
    {
        self.begin(alloc, request)?;
        first_response(self.link.next())
    }
}
