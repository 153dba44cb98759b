//! Sources over the sockets of an endpoint.

ghost use Rattle.std.specs.Prelude.{◌≡◌, IfErr, IfOk, Some};
ghost use Rattle.std.specs.Duration.{as_nanos};
ghost use Rattle.std.specs.Option.{option_map};
ghost use Rattle.spf_link.specs.Endpoint.{endpoint_rule};
ghost use Rattle.spf_link.specs.Endpoints.{kept};
ghost use Rattle.spf_jwt_source.specs.Building.{FailsByDefault, IsAssignedByDefault};
ghost use Rattle.spf_jwt_source.specs.Building.{IsBuilt, IsDefault};

use crate::builder::JwtSourceBuilder;
use crate::handle::{JwtJob, JwtSupervisorHandle};
use crate::kind::JwtPass;
use crate::places::JwtPlaces;
use crate::source::JwtSource;
use rand_core::Rng;
use spf_io::OutOfMemory;
use spf_jwt_feed::{JwtMetricsRecorder, JwtSourceError, NoRecorder};
use spf_link::{Connector, EndpointConnector, EnvConnector};
use spf_system::{Clock, Environment, Pause, Spawner};
use std::alloc::Global;
use std::mem::drop;
use std::net::{Net, TcpStream};
use std::sync::Wait;

impl<C: Connector + Drop, M: JwtMetricsRecorder + Drop> JwtSourceBuilder<C, M>
where
    C::Link: Drop,
{
    /// Reads from the endpoint that a text names, such as `unix:///run/agent.sock`. The text is
    /// parsed when the source is built.
    pub fn endpoint<N: Net<Stream = TcpStream> + Drop>(
        self,
        net: N,
        alloc: Global,
        endpoint: &str,
    ) -> Result<JwtSourceBuilder<EndpointConnector<N>, M>, OutOfMemory>
        ensures endpoint { IfOk result (λ b.
            ⟦<EndpointConnector<N> as Connector>⟧.validates b.connector
            ≡ kept (endpoint_rule endpoint.now)) }
        ensures settings { IfOk result (λ b. b.settings ≡ self.settings) }
        ensures recorder { IfOk result (λ b. b.recorder ≡ self.recorder) }
    {
        let connector = EndpointConnector::new(net, alloc, endpoint)?;
        Ok(self.client_factory(connector))
    }
}

impl JwtSource {
    /// Returns a builder over a connector, on which nothing is set.
    pub fn builder<C: Connector + Drop>(connector: C) -> JwtSourceBuilder<C, NoRecorder>
        ensures connector { result.connector ≡ connector }
        ensures settings { IsDefault result.settings }
    {
        JwtSourceBuilder::new(connector)
    }

    /// Returns a source of the endpoint that the environment names, by a builder on which nothing
    /// is set.
    pub fn new<N, E, T, W, G, R, S, L>(
        rt: R,
        net: N,
        alloc: Global,
        environment: E,
        clock: &mut T,
        pause: W,
        random: G,
        spawner: &mut S,
        places: &mut L,
    ) -> Result<
        (
            JwtSource,
            JwtPass,
            JwtSupervisorHandle<JwtJob<EnvConnector<N, E>, NoRecorder, W, G, R>, S::Handle>,
        ),
        JwtSourceError,
    >
    where
        N: Net<Stream = TcpStream> + Drop,
        E: Environment + Drop,
        T: Clock,
        W: Pause + Drop,
        G: Rng + Drop,
        R: Wait + Copy + Drop,
        S: Spawner<JwtJob<EnvConnector<N, E>, NoRecorder, W, G, R>>,
        S::Handle: Drop,
        L: JwtPlaces,
        ensures built { IfOk result (λ r. IsBuilt r.0 r.1 r.2.cell r.2.job) }
        ensures assigned { IfOk result (λ r. IsAssignedByDefault
            (λ c. c.environment ≡ environment) (T.moments clock.old) (T.moments clock.new)
            r.2.job) }
        ensures grace { IfOk result (λ r. option_map as_nanos r.2.grace ≡ Some 30_000_000_000) }
        ensures failed { IfErr result (FailsByDefault (T.moments clock.old) (T.moments clock.new)
            (L.refusals places.old) (L.refusals places.new) (S.refusals spawner.old)
            (S.refusals spawner.new)) }
    {
        let connector = EnvConnector::new(net, alloc, environment);
        let (source, pass, job, pending) = JwtSource::builder(connector).prepare(
            rt, alloc, clock, pause, random, places,
        )?;
        match spawner.start(job) {
            Ok(handle) => Ok((source, pass, pending.started(handle))),
            Err(_) => {
                drop(source);
                drop(pass);
                drop(pending);
                Err(JwtSourceError::NoSupervisor)
            }
        }
    }
}
