//! Connectors to the endpoint of a text.

ghost use Rattle.std.specs.Prelude.{◌≡◌, Ok, IfOk};
ghost use Rattle.spf_io.specs.Rule.{Gives};
ghost use Rattle.spf_link.specs.Endpoint.{endpoint_rule, is_memory};
ghost use Rattle.spf_link.specs.Connecting.{HasClientCause, refused_after};
ghost use Rattle.spf_link.specs.Endpoints.{kept, named, target_rule, IsNoStatus, IsParsed};
ghost use Rattle.spf_link.specs.Endpoints.{IsUnreached};

use crate::connector::Connector;
use crate::endpoint::Endpoint;
use crate::socket_link::{SocketLink, connect_endpoint};
use spf_api::{ClientFault, EndpointError};
use spf_io::{OutOfMemory, Text};
use spf_system::StopFlag;
use std::alloc::Global;
use std::net::{Net, TcpStream};

/// Where a connector connects to.
#[derive(Drop)]
enum Target {
    /// What a text names, which was not parsed yet.
    Text(Text),
    Endpoint(Endpoint),
}

/// Connects to an endpoint. Its text is parsed once, by `validate`.
#[derive(Drop)]
pub struct EndpointConnector<R> {
    net: R,
    alloc: Global,
    target: Target,
    stop: Option<StopFlag>,
    refused: u64,
}

/// The count of refusals after a `connect`.
pub(crate) fn refusals_after<T>(refused: u64, outcome: &Result<T, ClientFault>) -> u64
    ensures cause { HasClientCause refused result outcome.now }
    ensures counts { result ≡ refused_after outcome.now refused }
{
    match outcome {
        Ok(_) | Err(ClientFault::OutOfMemory) => refused,
        Err(_) => refused.saturating_add(1),
    }
}

/// What says why an endpoint was not parsed.
fn unreachable(alloc: Global, e: &EndpointError) -> ClientFault
    ensures { IsNoStatus result }
{
    if let EndpointError::OutOfMemory = e {
        return ClientFault::OutOfMemory;
    }
    match format!(in alloc; "{e}") {
        Ok(text) => ClientFault::Unreachable(Text::new(text)),
        Err(_) => ClientFault::OutOfMemory,
    }
}

impl<R: Net<Stream = TcpStream> + Drop> EndpointConnector<R> {
    /// Returns a connector to what the text names, such as `unix:///run/agent.sock` or
    /// `tcp://127.0.0.1:8081`.
    pub fn new(net: R, alloc: Global, endpoint: &str) -> Result<EndpointConnector<R>, OutOfMemory>
        ensures validates { IfOk result
            (λ c. ⟦<EndpointConnector<R> as Connector>⟧.validates c
            ≡ kept (endpoint_rule endpoint.now)) }
        ensures named { IfOk result (λ c. named c.target ≡ endpoint_rule endpoint.now) }
    {
        Ok(EndpointConnector {
            net,
            alloc,
            target: Target::Text(Text::copy_of(alloc, endpoint)?),
            stop: None,
            refused: 0,
        })
    }

    /// Returns a connector to the endpoint.
    pub fn to(net: R, alloc: Global, endpoint: Endpoint) -> EndpointConnector<R>
        ensures validates { ⟦<EndpointConnector<R> as Connector>⟧.validates result ≡ Ok tt }
        ensures named { named result.target ≡ Ok endpoint }
    {
        EndpointConnector {
            net,
            alloc,
            target: Target::Endpoint(endpoint),
            stop: None,
            refused: 0,
        }
    }

    fn parse(&mut self) -> Result<(), EndpointError>
        ensures result { Gives is_memory (λ u. u) result (target_rule self.old.target) }
        ensures named { named self.new.target ≡ named self.old.target }
        ensures parsed { IfOk result (λ _. IsParsed self.new.target) }
        ensures refused { self.new.refused ≡ self.old.refused }
    {
        let parsed = match &self.target {
            Target::Endpoint(_) => return Ok(()),
            Target::Text(text) => Endpoint::parse(self.alloc, text.as_str()),
        };
        match parsed {
            Ok(endpoint) => {
                self.target = Target::Endpoint(endpoint);
                Ok(())
            }
            Err(e) => Err(e),
        }
    }

    fn reach(&mut self) -> Result<SocketLink, ClientFault>
        ensures unreached { IsUnreached (target_rule self.old.target) result }
        ensures named { named self.new.target ≡ named self.old.target }
        ensures refused { self.new.refused ≡ self.old.refused }
    {
        match self.parse() {
            Ok(()) => {}
            Err(e) => return Err(unreachable(self.alloc, &e)),
        }
        match &self.target {
            Target::Endpoint(endpoint) => {
                connect_endpoint(&self.net, self.alloc, endpoint, &self.stop)
            }
            Target::Text(_) => unreachable!(),
        }
    }
}

impl<R: Net<Stream = TcpStream> + Drop> Connector for EndpointConnector<R> {
    ghost use Rattle.std.specs.Prelude.{None};
    ghost use Rattle.std.specs.Prelude.{◌≡◌};
    ghost use Rattle.spf_link.specs.Endpoints.{target_rule as rule, IsUnreached as Unreached};
    ghost use Rattle.spf_link.specs.Endpoints.{named as names};
    ghost use Rattle.spf_link.specs.Connecting.{refused_after as counted};

    type Link = SocketLink;

    ghost refusals = { λ c. c.refused };

    ghost validates = { λ c. rule c.target };

    ghost members = { λ _. None };

    ghost connect_gives = { λ old result new.
        Unreached (rule old.target) result × (names new.target ≡ names old.target)
        × (new.refused ≡ counted result old.refused) };

    fn validate(&mut self) -> Result<(), EndpointError> {
        self.parse()
    }

    fn connect(&mut self) -> Result<SocketLink, ClientFault> {
        let outcome = self.reach();
        self.refused = refusals_after(self.refused, &outcome);
        outcome
    }

    fn heed(&mut self, stop: StopFlag) {
        self.stop = Some(stop);
    }
}
