//! Streams of X.509 identities and bundles, each over the link of a client (SPIFFE Workload API
//! section 5). A stream ends where the link says so, or refuses. An item that breaks a rule is an
//! error, and so is running out of memory: after either, the stream goes on.

ghost use Rattle.std.specs.Prelude.{◌≡◌, [], IfErr, IfOk, IfSome, Some};
ghost use Rattle.std.specs.Borrow.{sem};
ghost use Rattle.spf_api.specs.Parsed.{bundle_set_of, first_svid_of, parsed_of};
ghost use Rattle.spf_api.specs.Payload.{kind_of};
ghost use Rattle.spf_api.specs.declared.response.ResponseKind.TheVariants as kind;
ghost use Rattle.spf_client.specs.Streams.{Brings, Streams};

use crate::client::WorkloadApiClient;
use crate::reading::fault_error;
use spf_api::{LinkFault, Response, WorkloadApiError, bundle_set_from, context_from, svid_from};
use spf_link::{Interceptor, Link, NoInterceptor, Request};
use spf_x509::{X509BundleSet, X509Context, X509Svid};
use std::alloc::Global;

/// The next response of a stream that has not ended, and whether it has ended now.
fn next_response<L: Link>(
    link: &mut L,
    ended: &mut bool,
) -> Option<Result<Response, WorkloadApiError>>
    ensures brings { Brings L.Link ended.old link.old result link.new ended.new }
    ensures kind { IfSome result (λ r. IfOk r
        (λ response. L.kind link.old ≡ Some (kind_of response))) }
    ensures same_kind { L.kind link.new ≡ L.kind link.old }
{
    if *ended {
        return None;
    }
    match link.next() {
        Ok(Some(response)) => Some(Ok(response)),
        Ok(None) => {
            *ended = true;
            None
        }
        Err(LinkFault::OutOfMemory) => Some(Err(WorkloadApiError::OutOfMemory)),
        Err(fault) => {
            *ended = true;
            Some(Err(fault_error(fault)))
        }
    }
}

impl<L: Link, I> WorkloadApiClient<L, I> {
    /// Returns the next response to the last request that was begun: none at the end of the stream,
    /// and after it. The caller keeps whether the stream has ended.
    pub fn next_response(&mut self, ended: &mut bool) -> Option<Result<Response, WorkloadApiError>>
        ensures brings { Brings L.Link ended.old self.old.link result self.new.link ended.new }
        ensures kind { IfSome result (λ r. IfOk r
            (λ response. L.kind self.old.link ≡ Some (kind_of response))) }
        ensures same_kind { L.kind self.new.link ≡ L.kind self.old.link }
        ensures kept { self.new ≡ record self.old { link = self.new.link } }
    {
        next_response(&mut self.link, ended)
    }
}

/// The contexts that an agent sends.
#[derive(Drop)]
pub struct X509ContextStream<'a, L: Link, I = NoInterceptor> {
    client: &'a mut WorkloadApiClient<L, I>,
    ended: bool,
    ghost asked: { L.kind client.now.link ≡ Some kind.Context },
}

impl<'a, L: Link, I> X509ContextStream<'a, L, I> {
    /// Returns the next context: none at the end of the stream, and after it.
    pub fn next_item(&mut self, alloc: Global) -> Option<Result<X509Context, WorkloadApiError>>
        ensures streams { Streams L.Link Response.Context parsed_of (λ c. c) self.old.ended
            self.old.client.now.link result self.new.client.now.link self.new.ended }
        ensures kept { self.new.client.now ≡ record self.old.client.now
            { link = self.new.client.now.link } }
        ensures same_client { self.new.client.ghost_name ≡ self.old.client.ghost_name }
    {
        match next_response(&mut self.client.link, &mut self.ended)? {
            Ok(Response::Context(response)) => Some(context_from(alloc, &response)),
            Ok(_) => unreachable!(),
            Err(e) => Some(Err(e)),
        }
    }
}

/// The first X.509-SVID of each update that an agent sends.
#[derive(Drop)]
pub struct X509SvidStream<'a, L: Link, I = NoInterceptor> {
    client: &'a mut WorkloadApiClient<L, I>,
    ended: bool,
    ghost asked: { L.kind client.now.link ≡ Some kind.Context },
}

impl<'a, L: Link, I> X509SvidStream<'a, L, I> {
    /// Returns the next SVID: none at the end of the stream, and after it.
    pub fn next_item(&mut self, alloc: Global) -> Option<Result<X509Svid, WorkloadApiError>>
        ensures streams { Streams L.Link Response.Context first_svid_of (λ s. s) self.old.ended
            self.old.client.now.link result self.new.client.now.link self.new.ended }
        ensures kept { self.new.client.now ≡ record self.old.client.now
            { link = self.new.client.now.link } }
        ensures same_client { self.new.client.ghost_name ≡ self.old.client.ghost_name }
    {
        match next_response(&mut self.client.link, &mut self.ended)? {
            Ok(Response::Context(response)) => Some(svid_from(alloc, &response)),
            Ok(_) => unreachable!(),
            Err(e) => Some(Err(e)),
        }
    }
}

/// The bundles of each update that an agent sends.
#[derive(Drop)]
pub struct X509BundleStream<'a, L: Link, I = NoInterceptor> {
    client: &'a mut WorkloadApiClient<L, I>,
    ended: bool,
    ghost asked: { L.kind client.now.link ≡ Some kind.Bundles },
}

impl<'a, L: Link, I> X509BundleStream<'a, L, I> {
    /// Returns the next bundle set: none at the end of the stream, and after it.
    pub fn next_item(&mut self, alloc: Global) -> Option<Result<X509BundleSet, WorkloadApiError>>
        ensures streams { Streams L.Link Response.Bundles bundle_set_of (λ b. b) self.old.ended
            self.old.client.now.link result self.new.client.now.link self.new.ended }
        ensures kept { self.new.client.now ≡ record self.old.client.now
            { link = self.new.client.now.link } }
        ensures same_client { self.new.client.ghost_name ≡ self.old.client.ghost_name }
    {
        match next_response(&mut self.client.link, &mut self.ended)? {
            Ok(Response::Bundles(response)) => Some(bundle_set_from(alloc, &response)),
            Ok(_) => unreachable!(),
            Err(e) => Some(Err(e)),
        }
    }
}

impl<L: Link, I: Interceptor> WorkloadApiClient<L, I> {
    ghost use Rattle.spf_client.specs.Asking.{Begins};
    ghost use Rattle.spf_client.specs.Lending.{LendsClient, OpensStream};

    /// Begins a stream of contexts, which borrows the client until it is dropped.
    pub fn stream_x509_contexts(
        &mut self,
        alloc: Global,
    ) -> Result<X509ContextStream<'_, L, I>, WorkloadApiError>
        requires { I.can_intercept self.old.metadata.extra }
        ensures* lends { sem 𝓛 (LendsClient L.row I.row L.Link
            (I.intercepts self.old.metadata.extra []) Request.X509Svid self.entry
            (λ s. s.client.ghost_name) result) }
        ensures same_client { IfOk result (λ s. s.client.ghost_name ≡ self.entry.ghost_name) }
        ensures opens { IfOk result (λ s. OpensStream L.Link
            (I.intercepts self.old.metadata.extra []) Request.X509Svid self.old s.client.now
            s.ended) }
        ensures refused { IfErr result (λ e. (end : L)
            × Begins L.Link (I.intercepts self.old.metadata.extra []) Request.X509Svid self.old.link
            (Err e) end) }
    {
        self.begin(alloc, &Request::X509Svid)?;
        Ok(X509ContextStream {
            client: self,
            ended: false,
        })
    }

    /// Begins a stream of X.509-SVIDs, the first of each update, which borrows the client until it
    /// is dropped.
    pub fn stream_x509_svids(
        &mut self,
        alloc: Global,
    ) -> Result<X509SvidStream<'_, L, I>, WorkloadApiError>
        requires { I.can_intercept self.old.metadata.extra }
        ensures* lends { sem 𝓛 (LendsClient L.row I.row L.Link
            (I.intercepts self.old.metadata.extra []) Request.X509Svid self.entry
            (λ s. s.client.ghost_name) result) }
        ensures same_client { IfOk result (λ s. s.client.ghost_name ≡ self.entry.ghost_name) }
        ensures opens { IfOk result (λ s. OpensStream L.Link
            (I.intercepts self.old.metadata.extra []) Request.X509Svid self.old s.client.now
            s.ended) }
        ensures refused { IfErr result (λ e. (end : L)
            × Begins L.Link (I.intercepts self.old.metadata.extra []) Request.X509Svid self.old.link
            (Err e) end) }
    {
        self.begin(alloc, &Request::X509Svid)?;
        Ok(X509SvidStream {
            client: self,
            ended: false,
        })
    }

    /// Begins a stream of bundle sets, which borrows the client until it is dropped.
    pub fn stream_x509_bundles(
        &mut self,
        alloc: Global,
    ) -> Result<X509BundleStream<'_, L, I>, WorkloadApiError>
        requires { I.can_intercept self.old.metadata.extra }
        ensures* lends { sem 𝓛 (LendsClient L.row I.row L.Link
            (I.intercepts self.old.metadata.extra []) Request.X509Bundles self.entry
            (λ s. s.client.ghost_name) result) }
        ensures same_client { IfOk result (λ s. s.client.ghost_name ≡ self.entry.ghost_name) }
        ensures opens { IfOk result (λ s. OpensStream L.Link
            (I.intercepts self.old.metadata.extra []) Request.X509Bundles self.old s.client.now
            s.ended) }
        ensures refused { IfErr result (λ e. (end : L)
            × Begins L.Link (I.intercepts self.old.metadata.extra []) Request.X509Bundles
            self.old.link (Err e) end) }
    {
        self.begin(alloc, &Request::X509Bundles)?;
        Ok(X509BundleStream {
            client: self,
            ended: false,
        })
    }
}
