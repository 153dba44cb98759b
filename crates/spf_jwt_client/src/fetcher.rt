//! A fetcher of JWT-SVIDs, which keeps a client.

ghost use Rattle.std.specs.Prelude.{◌≡◌, None};
ghost use Rattle.std.specs.Option.{option_map};
ghost use Rattle.spf_io.specs.Rule.{broken_as};
ghost use Rattle.spf_jwt_client.specs.Fetching.{AsksClient, AsksOnce, FetchesJwt, HasFetchCause};
ghost use Rattle.spf_jwt_client.specs.Fetching.{Obtains, fault_error, settled_by};
ghost use Rattle.spf_jwt_client.specs.Fetching as spec;
ghost use Rattle.spf_jwt_client.specs.Requests.{jwt_request};

use crate::client::JwtClient;
use crate::fault::{AskFault, is_asked_again};
use spf_api::WorkloadApiError;
use spf_client::WorkloadApiClient;
use spf_id::SpiffeId;
use spf_io::Text;
use spf_jwt::JwtSvid;
use spf_jwt_feed::JwtSourceError;
use spf_link::{Connector, NoInterceptor};
use std::alloc::Global;
use std::fmt;

/// Fetches JWT-SVIDs over one client, which is made at the first fetch and kept. Where a fetch
/// fails for a reason of the connection, the client is dropped, and the fetcher asks once more over
/// a new one: after an error of the connection itself, and after the statuses CANCELLED,
/// DEADLINE_EXCEEDED and UNAVAILABLE.
#[derive(Drop)]
pub struct JwtFetcher<C: Connector> {
    connector: C,
    client: Option<WorkloadApiClient<C::Link, NoInterceptor>>,
}

impl<C: Connector> fmt::Debug for JwtFetcher<C> {
    fn fmt<W: fmt::Write>(&self, f: &mut fmt::Formatter<W>) -> fmt::Result {
        write!(f, "JwtFetcher")
    }
}

/// The result of a fetch, by that of its last ask.
fn result_of(last: Result<JwtSvid, AskFault>) -> Result<JwtSvid, JwtSourceError>
    ensures { result ≡ broken_as fault_error last }
{
    match last {
        Ok(svid) => Ok(svid),
        Err(fault) => Err(fault.into_error()),
    }
}

/// The result of a fetch whose first ask is its last.
fn settled(first: Result<JwtSvid, AskFault>) -> Option<Result<JwtSvid, JwtSourceError>>
    ensures { result ≡ settled_by (spec.is_asked_again first) (broken_as fault_error first) }
{
    if is_asked_again(&first) {
        return None;
    }
    Some(result_of(first))
}

impl<C: Connector> JwtFetcher<C>
where
    C::Link: Drop,
{
    /// Returns a fetcher over the clients of the connector. It has none yet.
    pub fn new(connector: C) -> JwtFetcher<C>
        ensures connector { result.connector ≡ connector }
        ensures client { result.client ≡ None }
    {
        JwtFetcher {
            connector,
            client: None,
        }
    }

    /// Fetches a JWT-SVID for the audience, of any identity of the workload.
    pub fn fetch(&mut self, alloc: Global, audience: &[Text]) -> Result<JwtSvid, JwtSourceError>
        ensures fetches { FetchesJwt C.Connector C.Link.Link (jwt_request audience.now None)
            (record { connector = self.old.connector; client = self.old.client }) result
            (record { connector = self.new.connector; client = self.new.client }) }
        ensures cause { HasFetchCause (C.refusals self.old.connector)
            (C.refusals self.new.connector) result }
    {
        self.fetch_with_id(alloc, audience, None)
    }

    /// Fetches a JWT-SVID of that identity for the audience.
    pub fn fetch_with_id(
        &mut self,
        alloc: Global,
        audience: &[Text],
        id: Option<&SpiffeId>,
    ) -> Result<JwtSvid, JwtSourceError>
        ensures fetches { FetchesJwt C.Connector C.Link.Link
            (jwt_request audience.now (option_map (λ i. i.now) id.entry))
            (record { connector = self.old.connector; client = self.old.client }) result
            (record { connector = self.new.connector; client = self.new.client }) }
        ensures cause { HasFetchCause (C.refusals self.old.connector)
            (C.refusals self.new.connector) result }
    {
        match settled(self.ask(alloc, audience, id)) {
            Some(fetched) => fetched,
            None => {
                self.client = None;
                result_of(self.ask(alloc, audience, id))
            }
        }
    }

    /// Asks over the client that is kept, or over a new one where none is.
    fn ask(
        &mut self,
        alloc: Global,
        audience: &[Text],
        id: Option<&SpiffeId>,
    ) -> Result<JwtSvid, AskFault>
        ensures { AsksOnce C.Connector C.Link.Link
            (jwt_request audience.now (option_map (λ i. i.now) id.entry))
            (record { connector = self.old.connector; client = self.old.client }) result
            (record { connector = self.new.connector; client = self.new.client }) }
    {
        match self.obtain() {
            Ok(client) => self.ask_over(alloc, client, audience, id),
            Err(e) => Err(AskFault::NoClient(e)),
        }
    }

    /// Takes the client that is kept, or makes one.
    fn obtain(&mut self) -> Result<WorkloadApiClient<C::Link, NoInterceptor>, WorkloadApiError>
        ensures obtains { Obtains C.Connector C.Link.Link self.old.connector self.old.client result
            self.new.connector }
        ensures taken { self.new.client ≡ None }
    {
        match self.client.take() {
            Some(client) => Ok(client),
            None => WorkloadApiClient::connect_over(&mut self.connector),
        }
    }

    /// Asks over the client, and keeps it.
    fn ask_over(
        &mut self,
        alloc: Global,
        client: WorkloadApiClient<C::Link, NoInterceptor>,
        audience: &[Text],
        id: Option<&SpiffeId>,
    ) -> Result<JwtSvid, AskFault>
        ensures { AsksClient C.Link.Link
            (jwt_request audience.now (option_map (λ i. i.now) id.entry)) client
            self.old.connector result
            (record { connector = self.new.connector; client = self.new.client }) }
    {
        let mut client = client;
        let answer = client.fetch_jwt_svid(alloc, audience, id);
        self.client = Some(client);
        match answer {
            Ok(svid) => Ok(svid),
            Err(e) => Err(AskFault::Failed(e)),
        }
    }
}
