//! The parts of building a source.

ghost use Rattle.std.specs.Prelude.{◌≡◌, ◌∷◌, [], false, map, Err, IfErr, IfOk, None, Ok, Some};
ghost use Rattle.std.specs.Prelude.{reverse};
ghost use Rattle.spf_view.specs.Steps.{steps_of};
ghost use Rattle.spf_board.specs.Lists.{steps_of as board_steps};
ghost use Rattle.spf_jwt_feed.specs.Steps.{MayFollow, plain};
ghost use Rattle.spf_feeder.specs.Opened.{IsOpened, meeting};
ghost use Rattle.spf_feeder.specs.Orderly.{IsFirstStep, IsSyncedOf};
ghost use Rattle.spf_feeder.specs.Pacing.{KeepsPaceOf};
ghost use Rattle.spf_jwt_source.specs.Governed.{kind_of};
ghost use Rattle.spf_jwt_source.specs.Orderly.{IsOneStep};
ghost use Rattle.spf_system.specs.declared.maker.Maker.TheVariants as makers;
ghost use Rattle.spf_jwt_source.specs.Building.{IsBuilt, IsSetBy, SyncFails, refused_as};
ghost use Rattle.spf_jwt_source.specs.Building.{stopped_as};
ghost use Rattle.spf_jwt_source.specs.Reads.{HasPlaceCause};

use crate::board::open;
use crate::builder::JwtSettings;
use crate::desk::JwtDesk;
use crate::handle::JwtJob;
use crate::kind::{Jwt, JwtPass};
use crate::places::JwtPlaces;
use crate::publishing::BoardPublisher;
use crate::rules::JwtRules;
use crate::session::{JwtFeeder, JwtSession};
use crate::shared_step::SharedStep;
use crate::source::JwtSource;
use rand_core::Rng;
use spf_api::{EndpointError, WorkloadApiError};
use spf_board::{Front, placed};
use spf_feed::Terminal;
use spf_feeder::{
    Session, Stop, SupervisorJob, deadline_of, first_moment, make_ready, open_session,
};
use spf_io::OutOfMemory;
use spf_jwt_feed::{JwtMetricsRecorder, JwtSourceError, JwtStep, MemJwtPublisher};
use spf_link::Connector;
use spf_system::{Bell, Cells, Clock, Closing, Pace, Pause, SourceCells, StopFlag};
use std::alloc::Global;
use std::mem::drop;
use std::sync::Wait;

/// The error of a refused endpoint.
fn refused_endpoint(e: EndpointError) -> JwtSourceError
    ensures { result ≡ refused_as e }
{
    match e {
        EndpointError::OutOfMemory => JwtSourceError::OutOfMemory,
        e => JwtSourceError::Source(WorkloadApiError::Endpoint(e)),
    }
}

/// The error of a synchronisation that stopped. No close comes there.
fn stopped(stop: Stop) -> JwtSourceError
    ensures { result ≡ stopped_as stop }
{
    match stop {
        Stop::Terminal(Terminal::Source(e)) => JwtSourceError::Source(e),
        Stop::Terminal(Terminal::UnsupportedRpc(e)) => JwtSourceError::UnsupportedRpc(e),
        Stop::Terminal(Terminal::InitialSyncTimeout) => JwtSourceError::InitialSyncTimeout,
        Stop::Terminal(Terminal::Closed) | Stop::OutOfMemory => JwtSourceError::OutOfMemory,
    }
}

/// Validates the connector, lets it and the pause heed the stop flag, and synchronises. A single
/// wait takes at most the timeout meanwhile.
pub(crate) fn synchronised<C, M, T, W, N, R>(
    rt: &R,
    alloc: Global,
    connector: C,
    recorder: M,
    settings: JwtSettings,
    stop: &StopFlag,
    clock: &mut T,
    pause: &mut W,
    random: &mut N,
) -> Result<(JwtFeeder<C, MemJwtPublisher, M>, Pace), JwtSourceError>
where
    C: Connector + Drop,
    C::Link: Drop,
    M: JwtMetricsRecorder + Drop,
    T: Clock,
    W: Pause,
    N: Rng,
    R: Wait,
    ensures rules { IfOk result (λ r. IsSetBy settings r.0.core.rules) }
    ensures bounds { IfOk result (λ r. r.1.bounds ≡ settings.bounds) }
    ensures members { IfOk result (λ r. C.members r.0.first ≡ C.members connector) }
    ensures going { IfOk result (λ r. r.0.core.stuck ≡ false) }
    ensures opened { IfOk result (λ r. IsOpened (kind_of r.0.core.rules) (C.members connector)
        (T.moments clock.old) (T.moments clock.new) r.0.core.run r.1) }
    ensures endpoint { IfOk result (λ _. C.validates connector ≡ Ok tt) }
    ensures failed { IfErr result (SyncFails settings (meeting (C.validates connector)
        (C.members connector) (T.moments clock.old) (T.moments clock.new))) }
{
    let mut connector = connector;
    if let Err(e) = make_ready(&mut connector, pause, stop) {
        drop(connector);
        drop(recorder);
        return Err(refused_endpoint(e));
    }
    stop.limit(settings.timeout);
    let first = first_moment(rt, clock, pause, settings.bounds);
    let rules = JwtRules {
        limits: settings.limits,
        deadline: deadline_of(first, settings.timeout),
    };
    let session = JwtSession::new(alloc, MemJwtPublisher::new(alloc), recorder, rules);
    let opened = open_session(
        rt,
        alloc,
        connector,
        session,
        first,
        settings.bounds,
        random,
        clock,
        pause,
    );
    stop.limit(None);
    match opened {
        Ok(opened) => Ok(opened),
        Err(stop) => Err(stopped(stop)),
    }
}

/// The one step of a publisher, and the list of steps with that one.
fn first_step(
    publisher: &MemJwtPublisher,
    steps: &mut Vec<JwtStep>,
) -> Result<SharedStep, OutOfMemory>
    requires once { IsOneStep publisher.now.steps }
    requires none { steps.old.items ≡ [] }
    ensures step { IfOk result (λ step. publisher.now.steps ≡ step ∷ []) }
    ensures kept { IfOk result (λ step. map plain steps.new.items ≡ step ∷ []) }
    ensures first { IfOk result (MayFollow (Some [])) }
{
    let Some((first, _)) = publisher.steps().split_first() else {
        unreachable!()
    };
    steps.push(first.try_clone()?)?;
    Ok(SharedStep::new(first.try_clone()?))
}

/// A board on which the one step of a publisher is published, and the list of steps with that one.
fn opened<R: Wait + Drop>(
    rt: R,
    alloc: Global,
    publisher: &MemJwtPublisher,
    steps: &mut Vec<JwtStep>,
) -> Result<(JwtDesk<R>, JwtPass), OutOfMemory>
    requires once { IsOneStep publisher.now.steps }
    requires none { steps.old.items ≡ [] }
    ensures kept { IfOk result (λ r. map plain steps.new.items ≡ board_steps r.0.list) }
    ensures step { IfOk result (λ r. board_steps r.0.list ≡ publisher.now.steps) }
    ensures pass { IfOk result (λ r. (r.1.book ≡ r.0.book) × (r.1.seen ≡ r.0.list)) }
{
    let first = first_step(publisher, steps)?;
    let (desk, pass) = open(alloc, rt, first)?;
    Ok((desk, pass))
}

/// The feeder on a board of its own, on which its one step is published, with the board's front and
/// its first pass.
pub(crate) fn on_board<C, M, R>(
    rt: R,
    alloc: Global,
    feeder: JwtFeeder<C, MemJwtPublisher, M>,
    bell: Bell,
) -> Result<(JwtFeeder<C, BoardPublisher<R>, M>, Front<Jwt>, JwtPass), OutOfMemory>
where
    C: Connector + Drop,
    C::Link: Drop,
    M: JwtMetricsRecorder + Drop,
    R: Wait + Drop,
    requires once { IsFirstStep (kind_of feeder.core.rules) feeder.core.run }
    ensures rules { IfOk result (λ r. r.0.core.rules ≡ feeder.core.rules) }
    ensures run { IfOk result (λ r. r.0.core.run ≡ feeder.core.run) }
    ensures stuck { IfOk result (λ r. r.0.core.stuck ≡ feeder.core.stuck) }
    ensures first { IfOk result (λ r. r.0.first ≡ feeder.first) }
    ensures board { IfOk result (λ r. (r.0.core.publisher.book ≡ r.1.book)
        × (r.2.book ≡ r.1.book)) }
    ensures seen { IfOk result (λ r. board_steps r.2.seen
        ≡ steps_of (kind_of feeder.core.rules).subject feeder.core.run) }
{
    let mut steps = Vec::new(alloc);
    let (desk, pass) = match opened(rt, alloc, feeder.session().publisher(), &mut steps) {
        Ok(opened) => opened,
        Err(OutOfMemory) => {
            drop(feeder);
            drop(steps);
            drop(bell);
            return Err(OutOfMemory);
        }
    };
    let front = desk.front();
    let publisher = BoardPublisher::new(desk, steps, bell);
    let (session, resting) = feeder.split();
    let (session, before) = session.with_publisher(publisher);
    drop(before);
    Ok((resting.feed(session), front, pass))
}

/// The source over its front, and its first pass.
fn source_of<L: JwtPlaces>(
    alloc: Global,
    front: Front<Jwt>,
    cells: SourceCells,
    first: JwtPass,
    places: &mut L,
) -> Result<(JwtSource, JwtPass), JwtSourceError>
    requires maker { cells.caller.maker ≡ makers.Caller }
    ensures source { IfOk result (λ r. (r.0.board ≡ front.book) × (r.0.cell ≡ cells.caller.cell)) }
    ensures pass { IfOk result (λ r. (r.1.book ≡ first.book) × (r.1.seen ≡ first.seen)) }
    ensures cause { HasPlaceCause (L.refusals places.old) (L.refusals places.new) result }
{
    let pass = match placed(first, places) {
        Ok(pass) => pass,
        Err(e) => {
            drop(front);
            drop(cells);
            return Err(e);
        }
    };
    let SourceCells { caller, stop, bell } = cells;
    match JwtSource::over(alloc, front, caller, stop, bell) {
        Ok(source) => Ok((source, pass)),
        Err(OutOfMemory) => {
            drop(pass);
            Err(JwtSourceError::OutOfMemory)
        }
    }
}

/// The source, its first pass, what closes it, and its job.
pub(crate) fn joined<C, M, W, N, R, L>(
    rt: R,
    alloc: Global,
    cells: Cells,
    feeder: JwtFeeder<C, MemJwtPublisher, M>,
    pace: Pace,
    pause: W,
    random: N,
    places: &mut L,
) -> Result<(JwtSource, JwtPass, Closing, JwtJob<C, M, W, N, R>), JwtSourceError>
where
    C: Connector + Drop,
    C::Link: Drop,
    M: JwtMetricsRecorder + Drop,
    W: Pause + Drop,
    N: Rng + Drop,
    R: Wait + Copy + Drop,
    L: JwtPlaces,
    requires maker { cells.source.caller.maker ≡ makers.Caller }
    requires one { (cells.source.caller.cell ≡ cells.job.watch)
        × (cells.closing ≡ cells.job.watch) }
    requires going { feeder.core.stuck ≡ false }
    requires synced { IsSyncedOf (kind_of feeder.core.rules) (reverse feeder.core.run) }
    requires once { IsFirstStep (kind_of feeder.core.rules) feeder.core.run }
    requires paces { KeepsPaceOf (kind_of feeder.core.rules) feeder.core.run pace }
    ensures built { IfOk result (λ r. IsBuilt r.0 r.1 r.2 r.3) }
    ensures job { IfOk result (λ r. (r.3.rules ≡ feeder.core.rules)
        × (r.3.run ≡ feeder.core.run)
        × (r.3.bounds ≡ pace.bounds) × (r.3.first ≡ feeder.first)) }
    ensures cause { HasPlaceCause (L.refusals places.old) (L.refusals places.new) result }
{
    let Cells {
        closing,
        source: ends,
        publisher_bell,
        job: kept,
    } = cells;
    let (feeder, front, first) = match on_board(rt, alloc, feeder, publisher_bell) {
        Ok(board) => board,
        Err(OutOfMemory) => {
            drop(closing);
            drop(ends);
            drop(kept);
            drop(pause);
            drop(random);
            drop(pace);
            return Err(JwtSourceError::OutOfMemory);
        }
    };
    let job = SupervisorJob::new(rt, feeder, pace, pause, random, kept);
    match source_of(alloc, front, ends, first, places) {
        Ok((source, pass)) => Ok((source, pass, closing, job)),
        Err(e) => {
            drop(closing);
            drop(job);
            Err(e)
        }
    }
}
