//! The sockets and the pauses of the process, as types without parameters: a job over them can be
//! sent to a thread.

ghost use Rattle.std.specs.Prelude.{◌≡◌};

use spf_api::{ClientFault, EndpointError, LinkFault, Response};
use spf_io::{OutOfMemory, Text};
use spf_link::{Connector, EnvConnector, Headers, Link, Request, SocketLink};
use spf_system::{
    EnvValue, Environment, MemEnvironment, Pause, StdEnvironment, StdPause, StopFlag,
};
use std::alloc::Global;
use std::time::Duration;

/// A link over a socket of the process.
#[derive(Drop)]
pub struct HostLink {
    link: SocketLink,
}

impl Link for HostLink {
    ghost use Rattle.std.specs.Prelude.{None};

    ghost refusals = { λ l. ⟦<SocketLink as Link>⟧.refusals l.link };

    ghost starts = { λ _. None };

    ghost kind = { λ l. ⟦<SocketLink as Link>⟧.kind l.link };

    ghost answers = { λ _. None };

    fn start(&mut self, headers: &Headers, request: &Request) -> Result<(), LinkFault> {
        self.link.start(headers, request)
    }

    fn next(&mut self) -> Result<Option<Response>, LinkFault> {
        self.link.next()
    }
}

/// The environment of the process, or one in which every variable has the one value.
#[derive(Drop)]
enum HostEnvironment {
    Process(StdEnvironment<HostRuntime>),
    Given(MemEnvironment),
}

impl Environment for HostEnvironment {
    ghost use Rattle.std.specs.Prelude.{None};

    ghost value = { λ _ _. None };

    fn var(&self, alloc: Global, name: &str) -> Result<EnvValue, OutOfMemory> {
        match self {
            HostEnvironment::Process(environment) => environment.var(alloc, name),
            HostEnvironment::Given(environment) => environment.var(alloc, name),
        }
    }
}

type EnvSockets = EnvConnector<HostRuntime, HostEnvironment>;

/// Connects over the sockets of the process to the endpoint that an environment names.
#[derive(Drop)]
pub struct HostConnector {
    sockets: EnvSockets,
}

impl HostConnector {
    /// Returns a connector to the endpoint in the environment of the process. It has not refused
    /// yet.
    pub fn new(host: HostRuntime, alloc: Global) -> HostConnector
        ensures { ⟦<HostConnector as Connector>⟧.refusals result ≡ 0 }
    {
        let environment = HostEnvironment::Process(StdEnvironment::new(host));
        HostConnector {
            sockets: EnvConnector::new(host, alloc, environment),
        }
    }

    /// Returns a connector to this endpoint, written as in the environment. It has not refused yet.
    pub fn to(host: HostRuntime, alloc: Global, endpoint: Text) -> HostConnector
        ensures { ⟦<HostConnector as Connector>⟧.refusals result ≡ 0 }
    {
        let value = EnvValue::Found(endpoint);
        let environment = HostEnvironment::Given(MemEnvironment::new(value));
        HostConnector {
            sockets: EnvConnector::new(host, alloc, environment),
        }
    }
}

impl Connector for HostConnector {
    type Link = HostLink;

    ghost use Rattle.std.specs.Prelude.{None, Ok};

    ghost refusals = { λ c. ⟦<EnvSockets as Connector>⟧.refusals c.sockets };

    ghost validates = { λ _. Ok tt };

    ghost members = { λ _. None };

    fn validate(&mut self) -> Result<(), EndpointError> {
        self.sockets.validate()
    }

    fn connect(&mut self) -> Result<HostLink, ClientFault> {
        match self.sockets.connect() {
            Ok(link) => Ok(HostLink { link }),
            Err(fault) => Err(fault),
        }
    }

    fn heed(&mut self, stop: StopFlag) {
        self.sockets.heed(stop);
    }
}

/// A pause of the process.
#[derive(Drop)]
pub struct HostPause {
    pause: StdPause<HostRuntime>,
}

impl HostPause {
    /// Returns a pause that heeds no flag yet.
    pub fn new(host: HostRuntime) -> HostPause {
        HostPause {
            pause: StdPause::new(host),
        }
    }
}

impl Pause for HostPause {
    ghost use Rattle.std.specs.Prelude.{None};

    ghost delays = { λ _. None };

    ghost room = { λ _. 0 };

    fn pause(&mut self, delay: Duration) {
        self.pause.pause(delay);
    }

    fn heed(&mut self, stop: StopFlag) {
        self.pause.heed(stop);
    }
}
