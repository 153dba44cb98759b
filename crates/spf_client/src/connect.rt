//! Clients over the links of a connector.

ghost use Rattle.std.specs.Prelude.{◌≡◌};
ghost use Rattle.spf_client.specs.Connecting.{ConnectsOver, ConnectsKeeping};
ghost use Rattle.spf_client.specs.Connecting.{IsConnected, ReadsAndConnects};

use crate::client::WorkloadApiClient;
use crate::reading::client_fault_error;
use spf_api::WorkloadApiError;
use spf_link::{
    Connector, Endpoint, EndpointConnector, Link, NoInterceptor, SocketLink,
    WORKLOAD_API_ENDPOINT_ENV, from_env,
};
use spf_system::Environment;
use std::alloc::Global;
use std::net::{Net, TcpStream};

impl<L: Link> WorkloadApiClient<L, NoInterceptor> {
    /// Returns a client over the link that the connector makes, without an endpoint. A refusal of
    /// the connector is read as its status, or as an error of the transport with the text of what
    /// is unreachable.
    pub fn connect_over<C: Connector<Link = L>>(
        connector: &mut C,
    ) -> Result<WorkloadApiClient<L, NoInterceptor>, WorkloadApiError>
        ensures { ConnectsOver C.Connector L.answers connector.old result connector.new }
    {
        match connector.connect() {
            Ok(link) => Ok(WorkloadApiClient::new_with_link(None, link, NoInterceptor)),
            Err(fault) => Err(client_fault_error(fault)),
        }
    }

    /// The same, with the endpoint kept.
    fn connect_keeping<C: Connector<Link = L>>(
        connector: &mut C,
        endpoint: Endpoint,
    ) -> Result<WorkloadApiClient<L, NoInterceptor>, WorkloadApiError>
        ensures { ConnectsKeeping C.Connector L.answers connector.old endpoint result
            connector.new }
    {
        match WorkloadApiClient::connect_over(connector) {
            Ok(client) => Ok(client.with_endpoint(endpoint)),
            Err(e) => Err(e),
        }
    }
}

impl WorkloadApiClient<SocketLink, NoInterceptor> {
    /// Returns a client over a socket of the endpoint.
    pub fn connect<R: Net<Stream = TcpStream> + Drop>(
        net: R,
        alloc: Global,
        endpoint: Endpoint,
    ) -> Result<WorkloadApiClient<SocketLink, NoInterceptor>, WorkloadApiError>
        ensures { IsConnected ⟦<EndpointConnector<R> as Connector>⟧ ⟦<SocketLink as Link>⟧.answers
            endpoint result }
    {
        let mut connector = EndpointConnector::to(net, alloc, endpoint.try_clone(alloc)?);
        WorkloadApiClient::connect_keeping(&mut connector, endpoint)
    }

    /// Returns a client over a socket of the endpoint that `SPIFFE_ENDPOINT_SOCKET` names.
    pub fn connect_env<R: Net<Stream = TcpStream> + Drop, E: Environment>(
        net: R,
        alloc: Global,
        environment: &E,
    ) -> Result<WorkloadApiClient<SocketLink, NoInterceptor>, WorkloadApiError>
        ensures { ReadsAndConnects ⟦<EndpointConnector<R> as Connector>⟧
            ⟦<SocketLink as Link>⟧.answers
            (E.value environment.now WORKLOAD_API_ENDPOINT_ENV.now) result }
    {
        let endpoint = from_env(alloc, environment)?;
        WorkloadApiClient::connect(net, alloc, endpoint)
    }
}
