//! Builders of live sources.

ghost use Rattle.std.specs.Prelude.{◌≡◌, ◌≤◌, Err, IfErr, IfOk, None, Ok, Some};
ghost use Rattle.std.specs.Option.{ForSome};
ghost use Rattle.spf_feeder.specs.Opened.{meeting};
ghost use Rattle.spiffe.specs.Building.{BuildFails, IsAssigned, IsBuilt, IsDefault, PrepareFails};

use crate::handle::{PendingHandle, SupervisorHandle, X509Job};
use crate::kind::Pass;
use crate::opening::{joined, synchronised};
use crate::places::Places;
use crate::source::X509Source;
use rand_core::Rng;
use spf_feed::{
    MetricsRecorder, NoPicker, NoRecorder, Ready, ResourceLimits, SvidPicker, X509SourceError,
};
use spf_io::OutOfMemory;
use spf_link::Connector;
use spf_system::{Clock, Pause, ReconnectConfig, Spawner, open_cells};
use std::alloc::Global;
use std::fmt;
use std::mem::drop;
use std::sync::Wait;
use std::time::Duration;

/// What a builder is set to, its connector and its recorder aside.
#[derive(Drop)]
pub struct Settings<P: Drop> {
    pub(crate) picker: Option<P>,
    pub(crate) bounds: ReconnectConfig,
    pub(crate) limits: ResourceLimits,
    pub(crate) ready: Ready,
    pub(crate) timeout: Option<Duration>,
    pub(crate) grace: Option<Duration>,
}

/// Builds a source of X.509 identities over a connector.
#[derive(Drop)]
pub struct X509SourceBuilder<P: Drop, C: Drop, M: Drop> {
    settings: Settings<P>,
    connector: C,
    recorder: M,
}

impl<P: Drop, C: Drop, M: Drop> fmt::Debug for X509SourceBuilder<P, C, M> {
    fn fmt<W: fmt::Write>(&self, f: &mut fmt::Formatter<W>) -> fmt::Result {
        write!(f, "X509SourceBuilder")
    }
}

impl<C: Connector + Drop> X509SourceBuilder<NoPicker, C, NoRecorder> {
    /// Returns a builder with pauses of 200 ms to 10 s between attempts, the default limits, ready
    /// with a usable SVID, a shutdown that takes at most 30 s, and no limit for the initial
    /// synchronisation.
    pub fn new(connector: C) -> X509SourceBuilder<NoPicker, C, NoRecorder>
        ensures connector { result.connector ≡ connector }
        ensures settings { IsDefault result.settings }
    {
        X509SourceBuilder {
            settings: Settings {
                picker: None,
                bounds: ReconnectConfig::default(),
                limits: ResourceLimits::default_limits(),
                ready: Ready::Usable,
                timeout: None,
                grace: Some(Duration::from_secs(30)),
            },
            connector,
            recorder: NoRecorder::new(),
        }
    }
}

impl<P: SvidPicker + Drop, C: Connector + Drop, M: MetricsRecorder + Drop> X509SourceBuilder<
    P,
    C,
    M,
>
where
    C::Link: Drop,
{
    /// Reads from this connector.
    pub fn client_factory<D: Connector + Drop>(self, factory: D) -> X509SourceBuilder<P, D, M>
        ensures { (result.connector ≡ factory) × (result.settings ≡ self.settings)
            × (result.recorder ≡ self.recorder) }
    {
        let X509SourceBuilder {
            settings,
            connector: _connector,
            recorder,
        } = self;
        X509SourceBuilder {
            settings,
            connector: factory,
            recorder,
        }
    }

    /// Lets this picker choose among the SVIDs of an update.
    pub fn picker<Q: SvidPicker + Drop>(self, picker: Q) -> X509SourceBuilder<Q, C, M>
        ensures picker { result.settings.picker ≡ Some picker }
        ensures others { (result.connector ≡ self.connector)
            × (result.recorder ≡ self.recorder)
            × (result.settings.limits ≡ self.settings.limits)
            × (result.settings.ready ≡ self.settings.ready)
            × (result.settings.timeout ≡ self.settings.timeout)
            × (result.settings.grace ≡ self.settings.grace)
            × (result.settings.bounds ≡ self.settings.bounds) }
    {
        self.optional_picker(Some(picker))
    }

    /// Lets this picker choose, where there is one, and takes the first SVID otherwise.
    pub fn optional_picker<Q: SvidPicker + Drop>(
        self,
        picker: Option<Q>,
    ) -> X509SourceBuilder<Q, C, M>
        ensures picker { result.settings.picker ≡ picker }
        ensures others { (result.connector ≡ self.connector)
            × (result.recorder ≡ self.recorder)
            × (result.settings.limits ≡ self.settings.limits)
            × (result.settings.ready ≡ self.settings.ready)
            × (result.settings.timeout ≡ self.settings.timeout)
            × (result.settings.grace ≡ self.settings.grace)
            × (result.settings.bounds ≡ self.settings.bounds) }
    {
        let X509SourceBuilder {
            settings,
            connector,
            recorder,
        } = self;
        let Settings {
            picker: _picker,
            bounds,
            limits,
            ready,
            timeout,
            grace,
        } = settings;
        X509SourceBuilder {
            settings: Settings {
                picker,
                bounds,
                limits,
                ready,
                timeout,
                grace,
            },
            connector,
            recorder,
        }
    }

    /// Records what happens with this recorder.
    pub fn metrics<N: MetricsRecorder + Drop>(self, metrics: N) -> X509SourceBuilder<P, C, N>
        ensures { (result.connector ≡ self.connector) × (result.settings ≡ self.settings)
            × (result.recorder ≡ metrics) }
    {
        let X509SourceBuilder {
            settings,
            connector,
            recorder: _recorder,
        } = self;
        X509SourceBuilder {
            settings,
            connector,
            recorder: metrics,
        }
    }

    /// Sets the bounds of the pauses between attempts.
    pub fn reconnect_backoff(mut self, min: Duration, max: Duration) -> X509SourceBuilder<P, C, M>
        ensures { result ≡ record self {
          settings = record self.settings {
            bounds = record { min_backoff = min; max_backoff = max };
          };
        } }
    {
        self.settings.bounds = ReconnectConfig::new(min, max);
        self
    }

    /// Sets the limits that each update has to keep.
    pub fn resource_limits(mut self, limits: ResourceLimits) -> X509SourceBuilder<P, C, M>
        ensures { result ≡ record self { settings = record self.settings { limits = limits } } }
    {
        self.settings.limits = limits;
        self
    }

    /// Sets when the source is ready: with a usable SVID, or with any update.
    pub fn ready(mut self, ready: Ready) -> X509SourceBuilder<P, C, M>
        ensures { result ≡ record self { settings = record self.settings { ready = ready } } }
    {
        self.settings.ready = ready;
        self
    }

    /// Sets how long [`SupervisorHandle::shutdown_configured`] may take.
    pub fn shutdown_timeout(mut self, timeout: Option<Duration>) -> X509SourceBuilder<P, C, M>
        ensures { result ≡ record self { settings = record self.settings { grace = timeout } } }
    {
        self.settings.grace = timeout;
        self
    }

    /// Sets how long the initial synchronisation may take.
    pub fn initial_sync_timeout(mut self, timeout: Duration) -> X509SourceBuilder<P, C, M>
        ensures { result ≡ record self {
          settings = record self.settings {
            timeout = Some timeout;
          };
        } }
    {
        self.settings.timeout = Some(timeout);
        self
    }

    /// Synchronises, and makes all of a source but a running supervisor: the source, its first
    /// pass, the job of the supervisor, and what is then needed to make its handle. The caller
    /// starts the job, for instance on a thread.
    pub fn prepare<T, W, N, R, L>(
        self,
        rt: R,
        alloc: Global,
        clock: &mut T,
        pause: W,
        random: N,
        places: &mut L,
    ) -> Result<(X509Source, Pass, X509Job<C, P, M, W, N, R>, PendingHandle), X509SourceError>
    where
        T: Clock,
        W: Pause + Drop,
        N: Rng + Drop,
        R: Wait + Copy + Drop,
        L: Places,
        requires picker { ForSome self.settings.picker P.can_pick }
        ensures built { IfOk result (λ r. IsBuilt P.picks r.0 r.1 r.3.cell r.2) }
        ensures assigned { IfOk result (λ r. IsAssigned C.members P.picks self.settings
            self.connector (T.moments clock.old) (T.moments clock.new) r.2) }
        ensures grace { IfOk result (λ r. r.3.grace ≡ self.settings.grace) }
        ensures endpoint { IfOk result (λ _. C.validates self.connector ≡ Ok tt) }
        ensures places { IfOk result (λ _. L.refusals places.old ≤ L.refusals places.new) }
        ensures failed { IfErr result (PrepareFails P.picks self.settings
            (meeting (C.validates self.connector) (C.members self.connector)
            (T.moments clock.old) (T.moments clock.new)) (L.refusals places.old)
            (L.refusals places.new)) }
    {
        let mut pause = pause;
        let mut random = random;
        let cells = match open_cells(alloc) {
            Ok(cells) => cells,
            Err(OutOfMemory) => {
                drop(self);
                drop(pause);
                drop(random);
                return Err(X509SourceError::OutOfMemory);
            }
        };
        let X509SourceBuilder {
            settings,
            connector,
            recorder,
        } = self;
        let grace = settings.grace;
        let (feeder, pace) = match synchronised(
            &rt,
            alloc,
            connector,
            recorder,
            settings,
            &cells.source.stop,
            clock,
            &mut pause,
            &mut random,
        ) {
            Ok(opened) => opened,
            Err(e) => {
                drop(cells);
                drop(pause);
                drop(random);
                return Err(e);
            }
        };
        let (source, pass, closing, job) = joined(
            rt, alloc, cells, feeder, pace, pause, random, places,
        )?;
        Ok((source, pass, job, PendingHandle::new(closing, grace)))
    }

    /// Synchronises, and starts the supervisor. The source comes with its first pass, and with the
    /// handle of the supervisor.
    pub fn build<T, W, N, R, S, L>(
        self,
        rt: R,
        alloc: Global,
        clock: &mut T,
        pause: W,
        random: N,
        spawner: &mut S,
        places: &mut L,
    ) -> Result<
        (
            X509Source,
            Pass,
            SupervisorHandle<X509Job<C, P, M, W, N, R>, S::Handle>,
        ),
        X509SourceError,
    >
    where
        T: Clock,
        W: Pause + Drop,
        N: Rng + Drop,
        R: Wait + Copy + Drop,
        S: Spawner<X509Job<C, P, M, W, N, R>>,
        S::Handle: Drop,
        L: Places,
        requires picker { ForSome self.settings.picker P.can_pick }
        ensures built { IfOk result (λ r. IsBuilt P.picks r.0 r.1 r.2.cell r.2.job) }
        ensures assigned { IfOk result (λ r. IsAssigned C.members P.picks self.settings
            self.connector (T.moments clock.old) (T.moments clock.new) r.2.job) }
        ensures grace { IfOk result (λ r. r.2.grace ≡ self.settings.grace) }
        ensures endpoint { IfOk result (λ _. C.validates self.connector ≡ Ok tt) }
        ensures failed { IfErr result (BuildFails P.picks self.settings
            (meeting (C.validates self.connector) (C.members self.connector)
            (T.moments clock.old) (T.moments clock.new)) (L.refusals places.old)
            (L.refusals places.new) (S.refusals spawner.old) (S.refusals spawner.new)) }
    {
        let (source, pass, job, pending) = self.prepare(rt, alloc, clock, pause, random, places)?;
        match spawner.start(job) {
            Ok(handle) => Ok((source, pass, pending.started(handle))),
            Err(_) => {
                drop(source);
                drop(pass);
                drop(pending);
                Err(X509SourceError::NoSupervisor)
            }
        }
    }
}
