//! What the sources of these tests stand on, as types without parameters: a job over them can be
//! sent to a thread.

ghost use Rattle.std.specs.Prelude.{◌≡◌, Ok};

use crate::marks::Marks;
use spf_api::{ClientFault, EndpointError, LinkFault, Response};
use spf_feed::{MetricsErrorKind, MetricsRecorder};
use spf_io::{OutOfMemory, Text};
use spf_link::{Connector, Endpoint, EndpointConnector, Headers, Link, Request, SocketLink};
use spf_system::{Clock, Pause, StopFlag};
use std::alloc::Global;
use std::thread;
use std::time::Duration;

/// A link over a socket.
#[derive(Drop)]
pub struct AgentLink {
    link: SocketLink,
}

impl Link for AgentLink {
    ghost use Rattle.std.specs.Prelude.{None};

    ghost refusals = { λ l. ⟦<SocketLink as Link>⟧.refusals l.link };

    ghost starts = { λ _. None };

    ghost kind = { λ l. ⟦<SocketLink as Link>⟧.kind l.link };

    ghost answers = { λ _. None };

    fn start(&mut self, headers: &Headers, request: &Request) -> Result<(), LinkFault> {
        self.link.start(headers, request)
    }

    fn next(&mut self) -> Result<Option<Response>, LinkFault> {
        self.link.next()
    }
}

type Sockets = EndpointConnector<HostRuntime>;

/// Connects to one Unix socket.
#[derive(Drop)]
pub struct AgentConnector {
    sockets: Sockets,
}

impl AgentConnector {
    /// A connector to the socket at this path.
    pub fn to(host: HostRuntime, alloc: Global, path: Text) -> AgentConnector {
        AgentConnector {
            sockets: EndpointConnector::to(host, alloc, Endpoint::Unix(path)),
        }
    }
}

impl Connector for AgentConnector {
    type Link = AgentLink;

    ghost use Rattle.std.specs.Prelude.{None, Ok};

    ghost refusals = { λ c. ⟦<Sockets as Connector>⟧.refusals c.sockets };

    ghost validates = { λ c. ⟦<Sockets as Connector>⟧.validates c.sockets };

    ghost members = { λ _. None };

    fn validate(&mut self) -> Result<(), EndpointError> {
        self.sockets.validate()
    }

    fn connect(&mut self) -> Result<AgentLink, ClientFault> {
        match self.sockets.connect() {
            Ok(link) => Ok(AgentLink { link }),
            Err(fault) => Err(fault),
        }
    }

    fn heed(&mut self, stop: StopFlag) {
        self.sockets.heed(stop);
    }
}

/// A clock that always gives 999.
#[derive(Drop)]
pub struct FixedClock;

impl Clock for FixedClock {
    ghost use Rattle.std.specs.Prelude.{None};

    ghost moments = { λ _. None };

    fn now(&mut self) -> Option<i64> {
        Some(999)
    }
}

/// A pause of a millisecond.
#[derive(Drop)]
pub struct ShortPause {
    host: HostRuntime,
}

impl ShortPause {
    pub fn new(host: HostRuntime) -> ShortPause {
        ShortPause { host }
    }
}

impl Pause for ShortPause {
    ghost use Rattle.std.specs.Prelude.{None};

    ghost delays = { λ _. None };

    ghost room = { λ _. 0 };

    fn pause(&mut self, _delay: Duration) {
        thread::sleep(&self.host, Duration::from_millis(1));
    }
}

/// A recorder that keeps nothing. At the record of an update it tells its test, and waits for it.
#[derive(Drop)]
pub struct HeldRecorder {
    host: HostRuntime,
    marks: Marks,
}

impl HeldRecorder {
    pub fn new(host: HostRuntime, marks: Marks) -> HeldRecorder {
        HeldRecorder { host, marks }
    }
}

impl MetricsRecorder for HeldRecorder {
    ghost use Rattle.std.specs.Prelude.{None};

    ghost records = { λ _. None };

    fn record_update(&mut self) -> Result<(), OutOfMemory> {
        self.marks.hold(self.host);
        Ok(())
    }

    fn record_reconnect(&mut self) -> Result<(), OutOfMemory> {
        Ok(())
    }

    fn record_error(&mut self, _kind: MetricsErrorKind) -> Result<(), OutOfMemory> {
        Ok(())
    }
}
