//! Builders of live sources.

ghost use Rattle.std.specs.Prelude.{◌≡◌, ◌≤◌, Err, IfErr, IfOk, None, Ok, Some};
ghost use Rattle.spf_feeder.specs.Opened.{meeting};
ghost use Rattle.spf_jwt_source.specs.Building.{BuildFails, IsAssigned, IsBuilt, IsDefault};
ghost use Rattle.spf_jwt_source.specs.Building.{PrepareFails};

use crate::handle::{JwtJob, JwtPendingHandle, JwtSupervisorHandle};
use crate::kind::JwtPass;
use crate::opening::{joined, synchronised};
use crate::places::JwtPlaces;
use crate::source::JwtSource;
use rand_core::Rng;
use spf_io::OutOfMemory;
use spf_jwt::JwtResourceLimits;
use spf_jwt_feed::{JwtMetricsRecorder, JwtSourceError, NoRecorder};
use spf_link::Connector;
use spf_system::{Clock, Pause, ReconnectConfig, Spawner, open_cells};
use std::alloc::Global;
use std::fmt;
use std::mem::drop;
use std::sync::Wait;
use std::time::Duration;

/// What a builder is set to, its connector and its recorder aside.
#[derive(Clone, Copy)]
pub struct JwtSettings {
    pub(crate) bounds: ReconnectConfig,
    pub(crate) limits: JwtResourceLimits,
    pub(crate) timeout: Option<Duration>,
    pub(crate) grace: Option<Duration>,
}

/// Builds a source of JWT bundles over a connector.
#[derive(Drop)]
pub struct JwtSourceBuilder<C: Drop, M: Drop> {
    settings: JwtSettings,
    connector: C,
    recorder: M,
}

impl<C: Drop, M: Drop> fmt::Debug for JwtSourceBuilder<C, M> {
    fn fmt<W: fmt::Write>(&self, f: &mut fmt::Formatter<W>) -> fmt::Result {
        write!(f, "JwtSourceBuilder")
    }
}

impl<C: Connector + Drop> JwtSourceBuilder<C, NoRecorder> {
    /// Returns a builder with pauses of 200 ms to 10 s between attempts, the default limits, a
    /// shutdown that takes at most 30 s, and no limit for the initial synchronisation.
    pub fn new(connector: C) -> JwtSourceBuilder<C, NoRecorder>
        ensures connector { result.connector ≡ connector }
        ensures settings { IsDefault result.settings }
    {
        JwtSourceBuilder {
            settings: JwtSettings {
                bounds: ReconnectConfig::default(),
                limits: JwtResourceLimits::default_limits(),
                timeout: None,
                grace: Some(Duration::from_secs(30)),
            },
            connector,
            recorder: NoRecorder::new(),
        }
    }
}

impl<C: Connector + Drop, M: JwtMetricsRecorder + Drop> JwtSourceBuilder<C, M>
where
    C::Link: Drop,
{
    /// Reads from this connector.
    pub fn client_factory<D: Connector + Drop>(self, factory: D) -> JwtSourceBuilder<D, M>
        ensures { (result.connector ≡ factory) × (result.settings ≡ self.settings)
            × (result.recorder ≡ self.recorder) }
    {
        let JwtSourceBuilder {
            settings,
            connector: _connector,
            recorder,
        } = self;
        JwtSourceBuilder {
            settings,
            connector: factory,
            recorder,
        }
    }

    /// Records what happens with this recorder.
    pub fn metrics<N: JwtMetricsRecorder + Drop>(self, metrics: N) -> JwtSourceBuilder<C, N>
        ensures { (result.connector ≡ self.connector) × (result.settings ≡ self.settings)
            × (result.recorder ≡ metrics) }
    {
        let JwtSourceBuilder {
            settings,
            connector,
            recorder: _recorder,
        } = self;
        JwtSourceBuilder {
            settings,
            connector,
            recorder: metrics,
        }
    }

    /// Sets the bounds of the pauses between attempts.
    pub fn reconnect_backoff(mut self, min: Duration, max: Duration) -> JwtSourceBuilder<C, M>
        ensures { result ≡ record self {
          settings = record self.settings {
            bounds = record { min_backoff = min; max_backoff = max };
          };
        } }
    {
        self.settings.bounds = ReconnectConfig::new(min, max);
        self
    }

    /// Sets the limits that each update has to keep.
    pub fn resource_limits(mut self, limits: JwtResourceLimits) -> JwtSourceBuilder<C, M>
        ensures { result ≡ record self { settings = record self.settings { limits = limits } } }
    {
        self.settings.limits = limits;
        self
    }

    /// Sets how long [`JwtSupervisorHandle::shutdown_configured`] may take.
    pub fn shutdown_timeout(mut self, timeout: Option<Duration>) -> JwtSourceBuilder<C, M>
        ensures { result ≡ record self { settings = record self.settings { grace = timeout } } }
    {
        self.settings.grace = timeout;
        self
    }

    /// Sets how long the initial synchronisation may take.
    pub fn initial_sync_timeout(mut self, timeout: Duration) -> JwtSourceBuilder<C, M>
        ensures { result ≡ record self {
          settings = record self.settings {
            timeout = Some timeout;
          };
        } }
    {
        self.settings.timeout = Some(timeout);
        self
    }

    /// Synchronises, and makes all of a source but a running supervisor: the source, its first
    /// pass, the job of the supervisor, and what is then needed to make its handle. The caller
    /// starts the job, for instance on a thread.
    pub fn prepare<T, W, N, R, L>(
        self,
        rt: R,
        alloc: Global,
        clock: &mut T,
        pause: W,
        random: N,
        places: &mut L,
    ) -> Result<(JwtSource, JwtPass, JwtJob<C, M, W, N, R>, JwtPendingHandle), JwtSourceError>
    where
        T: Clock,
        W: Pause + Drop,
        N: Rng + Drop,
        R: Wait + Copy + Drop,
        L: JwtPlaces,
        ensures built { IfOk result (λ r. IsBuilt r.0 r.1 r.3.cell r.2) }
        ensures assigned { IfOk result (λ r. IsAssigned C.members self.settings
            self.connector (T.moments clock.old) (T.moments clock.new) r.2) }
        ensures grace { IfOk result (λ r. r.3.grace ≡ self.settings.grace) }
        ensures endpoint { IfOk result (λ _. C.validates self.connector ≡ Ok tt) }
        ensures places { IfOk result (λ _. L.refusals places.old ≤ L.refusals places.new) }
        ensures failed { IfErr result (PrepareFails self.settings
            (meeting (C.validates self.connector) (C.members self.connector)
            (T.moments clock.old) (T.moments clock.new)) (L.refusals places.old)
            (L.refusals places.new)) }
    {
        let mut pause = pause;
        let mut random = random;
        let cells = match open_cells(alloc) {
            Ok(cells) => cells,
            Err(OutOfMemory) => {
                drop(self);
                drop(pause);
                drop(random);
                return Err(JwtSourceError::OutOfMemory);
            }
        };
        let JwtSourceBuilder {
            settings,
            connector,
            recorder,
        } = self;
        let grace = settings.grace;
        let (feeder, pace) = match synchronised(
            &rt,
            alloc,
            connector,
            recorder,
            settings,
            &cells.source.stop,
            clock,
            &mut pause,
            &mut random,
        ) {
            Ok(opened) => opened,
            Err(e) => {
                drop(cells);
                drop(pause);
                drop(random);
                return Err(e);
            }
        };
        let (source, pass, closing, job) = joined(
            rt, alloc, cells, feeder, pace, pause, random, places,
        )?;
        Ok((source, pass, job, JwtPendingHandle::new(closing, grace)))
    }

    /// Synchronises, and starts the supervisor. The source comes with its first pass, and with the
    /// handle of the supervisor.
    pub fn build<T, W, N, R, S, L>(
        self,
        rt: R,
        alloc: Global,
        clock: &mut T,
        pause: W,
        random: N,
        spawner: &mut S,
        places: &mut L,
    ) -> Result<
        (
            JwtSource,
            JwtPass,
            JwtSupervisorHandle<JwtJob<C, M, W, N, R>, S::Handle>,
        ),
        JwtSourceError,
    >
    where
        T: Clock,
        W: Pause + Drop,
        N: Rng + Drop,
        R: Wait + Copy + Drop,
        S: Spawner<JwtJob<C, M, W, N, R>>,
        S::Handle: Drop,
        L: JwtPlaces,
        ensures built { IfOk result (λ r. IsBuilt r.0 r.1 r.2.cell r.2.job) }
        ensures assigned { IfOk result (λ r. IsAssigned C.members self.settings
            self.connector (T.moments clock.old) (T.moments clock.new) r.2.job) }
        ensures grace { IfOk result (λ r. r.2.grace ≡ self.settings.grace) }
        ensures endpoint { IfOk result (λ _. C.validates self.connector ≡ Ok tt) }
        ensures failed { IfErr result (BuildFails self.settings
            (meeting (C.validates self.connector) (C.members self.connector)
            (T.moments clock.old) (T.moments clock.new)) (L.refusals places.old)
            (L.refusals places.new) (S.refusals spawner.old) (S.refusals spawner.new)) }
    {
        let (source, pass, job, pending) = self.prepare(rt, alloc, clock, pause, random, places)?;
        match spawner.start(job) {
            Ok(handle) => Ok((source, pass, pending.started(handle))),
            Err(_) => {
                drop(source);
                drop(pass);
                drop(pending);
                Err(JwtSourceError::NoSupervisor)
            }
        }
    }
}
