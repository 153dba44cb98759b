//! What the thread of a supervisor does.

ghost use Rattle.std.specs.Prelude.{◌≡◌, false, IfSome, None, reverse};
ghost use Rattle.spf_system.specs.declared.maker.Maker.TheVariants as makers;
ghost use Rattle.spf_feeder.specs.Coming.{AllYieldedOf};
ghost use Rattle.spf_feeder.specs.Orderly.{IsOrderlyOf, IsSyncedOf};
ghost use Rattle.spf_feeder.specs.Pacing.{KeepsPaceOf};
ghost use Rattle.spf_feeder.specs.Connectors.{unyielded};
ghost use Rattle.spf_board.specs.Lists.{steps_of as board_steps};
ghost use Rattle.spf_feeder.specs.Records.{IsLeftByOf, IsPublishedBy, assigned, task_of};

use crate::done::SupervisorDone;
use crate::feeder::SessionFeeder;
use crate::finishes::Finishes;
use crate::record::Supervised;
use crate::session::{Session, SessionParts};
use crate::supervises::Supervises;
use crate::supervisor::supervise;
use crate::task::Task;
use rand_core::Rng;
use spf_board::{Pass, Shows};
use spf_io::OutOfMemory;
use spf_link::Connector;
use spf_system::{Bell, Closed, Closer, Job, JobCells, Pace, Pause, Watch};
use std::marker::{Model, PhantomData};
use std::mem::drop;
use std::snapshot::Snapshot;
use std::sync::Wait;

/// Asks the connector and its link, publishes on the board, and ends where a caller closes the
/// source or memory runs out.
#[derive(Drop)]
pub struct SupervisorJob<C, K, S, W, N, R>
where
    C: Connector + Drop,
    C::Link: Drop,
    K: Shows,
    S: Session,
    S::Publisher: Finishes<K, S>,
    W: Pause + Drop,
    N: Rng + Drop,
    R: Wait + Drop,
{
    feeder: SessionFeeder<C, S>,
    pace: Pace,
    pause: W,
    random: N,
    watch: Watch,
    closer: Closer,
    bell: Bell,
    rt: R,
    kind: PhantomData<K>,
}

impl<C, K, S, W, N, R> Model for SupervisorJob<C, K, S, W, N, R>
where
    C: Connector + Drop,
    C::Link: Drop,
    K: Shows,
    S: Session,
    S::Publisher: Finishes<K, S>,
    W: Pause + Drop,
    N: Rng + Drop,
    R: Wait + Drop,
{
    ghost use Rattle.std.specs.Prelude.{◌≡◌, false, reverse};
    ghost use Rattle.spf_feeder.specs.Orderly.{IsSyncedOf};
    ghost use Rattle.spf_feeder.specs.Pacing.{KeepsPaceOf};
    ghost use Rattle.spf_feeder.specs.Records.{AssignedOf, assigned};

    ghost Value = { AssignedOf C S.Rules S.Rules.Item };

    ghost view = { λ j. assigned (S.Publisher.board (S.publisher j.feeder.core)) j.watch
        (S.progress j.feeder.core).run (S.given j.feeder.core).rules j.pace.bounds
        j.feeder.first };

    ghost invariant = { λ j. ((S.progress j.feeder.core).stuck ≡ false)
        × IsSyncedOf (S.Rules.kind (S.given j.feeder.core).rules)
        (reverse (S.progress j.feeder.core).run)
        × KeepsPaceOf (S.Rules.kind (S.given j.feeder.core).rules)
        (S.progress j.feeder.core).run j.pace };
}

/// What is left where a caller closed the source.
fn recorded<C, K, S>(
    feeder: SessionFeeder<C, S>,
    pace: Pace,
    closed: Closed,
) -> SupervisorDone<K, S>
where
    C: Connector + Drop,
    C::Link: Drop,
    K: Shows,
    S: Session,
    S::Publisher: Finishes<K, S>,
    requires going { (S.progress feeder.core).stuck ≡ false }
    requires synced { IsSyncedOf (S.Rules.kind (S.given feeder.core).rules)
        (reverse (S.progress feeder.core).run) }
    requires paces { KeepsPaceOf (S.Rules.kind (S.given feeder.core).rules)
        (S.progress feeder.core).run pace }
    requires maker { closed.maker ≡ makers.Caller }
    ensures board { result.past.book ≡ S.Publisher.board (S.publisher feeder.core) }
    ensures recorded { IfSome result.recorded (λ r. (r.run ≡ (S.progress feeder.core).run)
        × (r.rules ≡ (S.given feeder.core).rules) × (r.pace ≡ pace) × (r.closed ≡ closed)) }
    ensures orderly { IsOrderlyOf (S.Rules.kind (S.given feeder.core).rules)
        (reverse (S.progress feeder.core).run) }
    ensures yielded { IfSome (C.members feeder.first) (λ m. AllYieldedOf
        (S.Rules.kind (S.given feeder.core).rules) m (reverse (S.progress feeder.core).run)) }
    ensures published { IsPublishedBy S.Rules.plain S.Publisher.shown
        (S.Rules.kind (S.given feeder.core).rules) (S.progress feeder.core).run
        (board_steps result.past.list) }
{
    let SessionParts {
        publisher,
        events,
        rules,
    } = feeder.into_session().into_parts();
    let (ended, steps) = publisher.finish();
    let record = Supervised::new(events, steps, rules, pace, closed);
    SupervisorDone {
        ended,
        supervised: Some(record),
        kind: PhantomData,
    }
}

/// What is left where memory ran out.
fn unrecorded<C, K, S>(feeder: SessionFeeder<C, S>) -> SupervisorDone<K, S>
where
    C: Connector + Drop,
    C::Link: Drop,
    K: Shows,
    S: Session,
    S::Publisher: Finishes<K, S>,
    ensures board { result.past.book ≡ S.Publisher.board (S.publisher feeder.core) }
    ensures recorded { result.recorded ≡ None }
    ensures orderly { IsOrderlyOf (S.Rules.kind (S.given feeder.core).rules)
        (reverse (S.progress feeder.core).run) }
    ensures yielded { IfSome (C.members feeder.first) (λ m. AllYieldedOf
        (S.Rules.kind (S.given feeder.core).rules) m (reverse (S.progress feeder.core).run)) }
    ensures published { IsPublishedBy S.Rules.plain S.Publisher.shown
        (S.Rules.kind (S.given feeder.core).rules) (S.progress feeder.core).run
        (board_steps result.past.list) }
{
    let SessionParts { publisher, .. } = feeder.into_session().into_parts();
    let (ended, _steps) = publisher.finish();
    SupervisorDone {
        ended,
        supervised: None,
        kind: PhantomData,
    }
}

impl<C, K, S, W, N, R> SupervisorJob<C, K, S, W, N, R>
where
    C: Connector + Drop,
    C::Link: Drop,
    K: Shows,
    S: Session,
    S::Publisher: Finishes<K, S>,
    W: Pause + Drop,
    N: Rng + Drop,
    R: Wait + Drop,
{
    /// Returns the job that goes on from an initial synchronisation.
    pub fn new(
        rt: R,
        feeder: SessionFeeder<C, S>,
        pace: Pace,
        pause: W,
        random: N,
        cells: JobCells,
    ) -> SupervisorJob<C, K, S, W, N, R>
        requires going { (S.progress feeder.core).stuck ≡ false }
        requires synced { IsSyncedOf (S.Rules.kind (S.given feeder.core).rules)
            (reverse (S.progress feeder.core).run) }
        requires paces { KeepsPaceOf (S.Rules.kind (S.given feeder.core).rules)
            (S.progress feeder.core).run pace }
        ensures { result ≡ assigned (S.Publisher.board (S.publisher feeder.core)) cells.watch
            (S.progress feeder.core).run (S.given feeder.core).rules pace.bounds feeder.first }
    {
        let JobCells {
            watch,
            closer,
            bell,
        } = cells;
        SupervisorJob {
            feeder,
            pace,
            pause,
            random,
            watch,
            closer,
            bell,
            rt,
            kind: PhantomData,
        }
    }

    /// Returns what it is given, its connector aside.
    pub fn task(&self) -> Task<K, S::Rules>
        ensures { result ≡ task_of self.now }
    {
        let front = self.feeder.session().publisher().front();
        Task {
            front: Snapshot::of(&front),
            watch: Snapshot::of(&self.watch),
            events: self.feeder.noted_events(),
            rules: Snapshot::of(self.feeder.session().rules()),
            pace: Snapshot::of(&self.pace),
        }
    }
}

impl<C, K, S, W, N, R> Job for SupervisorJob<C, K, S, W, N, R>
where
    C: Connector + Drop,
    C::Link: Drop,
    K: Shows,
    S: Session,
    S::Publisher: Finishes<K, S>,
    W: Pause + Drop,
    N: Rng + Drop,
    R: Wait + Drop,
{
    type Done = SupervisorDone<K, S>;

    ghost use Rattle.spf_feeder.specs.Records.{IsLeftByOf};

    ghost may_give = { IsLeftByOf C.members S.Rules.kind S.Rules.plain S.Publisher.shown };

    fn run(self) -> SupervisorDone<K, S>
        ensures left { IsLeftByOf C.members S.Rules.kind S.Rules.plain S.Publisher.shown self
            result }
        ensures task { IsLeftByOf unyielded S.Rules.kind S.Rules.plain S.Publisher.shown
            (task_of self) result }
    {
        let SupervisorJob {
            mut feeder,
            mut pace,
            mut pause,
            mut random,
            watch,
            mut closer,
            bell,
            rt,
            ..
        } = self;
        let closed = supervise(&rt, &mut feeder, &mut pace, &mut random, &mut pause, &watch);
        let done = match closed {
            Some(closed) => recorded(feeder, pace, closed),
            None => {
                drop(pace);
                unrecorded(feeder)
            }
        };
        drop(pause);
        drop(random);
        closer.close();
        bell.ring();
        done
    }
}

impl<C, K, S, W, N, R> Supervises<K> for SupervisorJob<C, K, S, W, N, R>
where
    C: Connector + Drop,
    C::Link: Drop,
    K: Shows,
    S: Session,
    S::Publisher: Finishes<K, S>,
    W: Pause + Drop,
    N: Rng + Drop,
    R: Wait + Drop,
{
    type Record = Supervised<S::Rules>;

    ghost use Rattle.std.specs.Prelude.{map};
    ghost use Rattle.spf_feeder.specs.Records.{IsOfBy, IsRecordBy};

    ghost board = { λ job. job.board };

    ghost is_of = { IsOfBy C.members S.Rules.kind };

    ghost is_record = { IsRecordBy S.Rules.plain S.Rules.kind };

    ghost steps = { λ r. map S.Publisher.shown r.steps };

    fn into_record(
        done: SupervisorDone<K, S>,
        pass: &mut Pass<K>,
    ) -> Result<Supervised<S::Rules>, OutOfMemory> {
        done.into_record(pass)
    }
}
