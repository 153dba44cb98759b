//! Connectors to the endpoint that the environment names.

ghost use Rattle.std.specs.Prelude.{◌≡◌, Ok};
ghost use Rattle.spf_link.specs.Connecting.{HasClientCause};
ghost use Rattle.spf_link.specs.Endpoints.{IsNoStatus, ReachesNamed, endpoint_variable};

use crate::connector::Connector;
use crate::endpoint_connector::refusals_after;
use crate::environment::from_env;
use crate::socket_link::{SocketLink, connect_endpoint};
use spf_api::{ClientFault, EndpointError, WorkloadApiError};
use spf_io::Text;
use spf_system::{Environment, StopFlag};
use std::alloc::Global;
use std::net::{Net, TcpStream};

/// Connects to the endpoint that `SPIFFE_ENDPOINT_SOCKET`
/// names, which is looked up at each `connect`.
#[derive(Drop)]
pub struct EnvConnector<R, E> {
    net: R,
    alloc: Global,
    environment: E,
    stop: Option<StopFlag>,
    refused: u64,
}

/// The text that says why the environment names no endpoint.
fn unnamed(alloc: Global, e: &WorkloadApiError) -> ClientFault
    ensures { IsNoStatus result }
{
    if let WorkloadApiError::OutOfMemory = e {
        return ClientFault::OutOfMemory;
    }
    match format!(in alloc; "{e}") {
        Ok(text) => ClientFault::Unreachable(Text::new(text)),
        Err(_) => ClientFault::OutOfMemory,
    }
}

impl<R: Net<Stream = TcpStream> + Drop, E: Environment + Drop> EnvConnector<R, E> {
    /// Returns a connector that has not refused yet.
    pub fn new(net: R, alloc: Global, environment: E) -> EnvConnector<R, E>
        ensures environment { result.environment ≡ environment }
        ensures refused { result.refused ≡ 0 }
    {
        EnvConnector {
            net,
            alloc,
            environment,
            stop: None,
            refused: 0,
        }
    }

    fn reach(&self) -> Result<SocketLink, ClientFault>
        ensures { ReachesNamed (E.value self.now.environment endpoint_variable) result }
    {
        match from_env(self.alloc, &self.environment) {
            Ok(endpoint) => connect_endpoint(&self.net, self.alloc, &endpoint, &self.stop),
            Err(e) => Err(unnamed(self.alloc, &e)),
        }
    }
}

impl<R: Net<Stream = TcpStream> + Drop, E: Environment + Drop> Connector for EnvConnector<R, E> {
    ghost use Rattle.std.specs.Prelude.{◌≡◌, None, Ok};
    ghost use Rattle.spf_link.specs.Connecting.{refused_after};
    ghost use Rattle.spf_link.specs.Endpoints.{ReachesNamed, endpoint_variable};

    type Link = SocketLink;

    ghost refusals = { λ c. c.refused };

    ghost validates = { λ _. Ok tt };

    ghost members = { λ _. None };

    ghost connect_gives = { λ old result new.
        ReachesNamed (E.value old.environment endpoint_variable) result
        × (new.environment ≡ old.environment) × (new.refused ≡ refused_after result old.refused) };

    fn validate(&mut self) -> Result<(), EndpointError> {
        Ok(())
    }

    fn connect(&mut self) -> Result<SocketLink, ClientFault> {
        let outcome = self.reach();
        self.refused = refusals_after(self.refused, &outcome);
        outcome
    }

    fn heed(&mut self, stop: StopFlag) {
        self.stop = Some(stop);
    }
}
