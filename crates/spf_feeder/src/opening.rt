//! How the feeder of a session is opened: by its initial synchronisation.

ghost use Rattle.std.specs.Prelude.{◌≡◌, ◌∷◌, [], ◌≤ℤ◌, pos, false, true, IfErr, IfOk, IfSome};
ghost use Rattle.std.specs.Prelude.{reverse};
ghost use Rattle.std.specs.Option.{option_map};
ghost use Rattle.spf_view.specs.Views.{has_synced};
ghost use Rattle.spf_feed.specs.declared.event.SessionEvent.TheVariants as events;
ghost use Rattle.spf_feed.specs.declared.phase.Phase.TheVariants as phases;
ghost use Rattle.spf_feeder.specs.Coming.{AllYieldedOf};
ghost use Rattle.spf_feeder.specs.Opened.{StopsAt};
ghost use Rattle.spf_feeder.specs.Orderly.{IsFirstStep, IsOrderlyOf, IsTimedOf};
ghost use Rattle.spf_feeder.specs.Pacing.{KeepsPaceOf};
ghost use Rattle.spf_feeder.specs.Times.{GivesMoments, TakesMoment};
ghost use Rattle.spf_feeder.specs.Times.{deadline_after as deadline_from};

use crate::feeder::SessionFeeder;
use crate::session::{Session, Stop};
use crate::synchronisation::{deadline_after, next_moment, synchronise};
use rand_core::Rng;
use spf_link::Connector;
use spf_system::{Clock, Pace, Pause, ReconnectConfig};
use std::alloc::Global;
use std::mem::drop;
use std::sync::Wait;
use std::time::Duration;

/// Returns the moment from which a deadline counts: the next one that the clock gives. It pauses as
/// before an attempt where the clock gives none.
pub fn first_moment<T: Clock, W: Pause, H: Wait>(
    rt: &H,
    clock: &mut T,
    pause: &mut W,
    bounds: ReconnectConfig,
) -> i64
    ensures moment { TakesMoment (T.moments clock.old) (T.moments clock.new) result }
    ensures range { pos 0 ≤ℤ result }
{
    next_moment(rt, clock, pause, bounds.normalize().min_backoff)
}

/// Returns the deadline after the first moment.
pub fn deadline_of(first: i64, timeout: Option<Duration>) -> Option<i64>
    requires { pos 0 ≤ℤ first }
    ensures { result ≡ option_map (deadline_from first) timeout }
{
    match timeout {
        Some(timeout) => Some(deadline_after(first, timeout)),
        None => None,
    }
}

/// Synchronises a session that begins with the first moment. Returns a feeder whose first item was
/// accepted, and its pace.
#[tactic(auto, unfolding(crate::specs::Orderly::IsTimedOf))]
pub fn open_session<C, S, R, T, W, H>(
    rt: &H,
    alloc: Global,
    connector: C,
    session: S,
    first: i64,
    bounds: ReconnectConfig,
    random: &mut R,
    clock: &mut T,
    pause: &mut W,
) -> Result<(SessionFeeder<C, S>, Pace), Stop>
where
    C: Connector + Drop,
    C::Link: Drop,
    S: Session,
    R: Rng,
    T: Clock,
    W: Pause,
    H: Wait,
    requires going { (S.progress session).stuck ≡ false }
    requires unused { (S.progress session).run ≡ [] }
    requires client { (S.Rules.kind (S.given session).rules).ask [] ≡ phases.Client }
    ensures given { IfOk result (λ r. S.given r.0.core ≡ S.given session) }
    ensures first { IfOk result (λ r. r.0.first ≡ connector) }
    ensures going { IfOk result (λ r. (S.progress r.0.core).stuck ≡ false) }
    ensures synced { IfOk result (λ r. has_synced (S.Rules.kind (S.given session).rules).subject
        (reverse (S.progress r.0.core).run) ≡ true) }
    ensures timed { IfOk result (λ r. IsTimedOf (S.Rules.kind (S.given session).rules)
        (reverse (S.progress r.0.core).run)) }
    ensures once { IfOk result (λ r. IsFirstStep (S.Rules.kind (S.given session).rules)
        (S.progress r.0.core).run) }

    // The moments after the first are those that the clock gave.
    ensures clock { IfOk result (λ r. GivesMoments (T.moments clock.old) (T.moments clock.new)
        (events.Moment first ∷ []) (S.progress r.0.core).run) }
    ensures orderly { IfOk result (λ r. IsOrderlyOf (S.Rules.kind (S.given session).rules)
        (reverse (S.progress r.0.core).run)) }
    ensures yielded { IfOk result (λ r. IfSome (C.members connector) (λ m. AllYieldedOf
        (S.Rules.kind (S.given session).rules) m (reverse (S.progress r.0.core).run))) }
    ensures bounds { IfOk result (λ r. r.1.bounds ≡ bounds) }
    ensures paces { IfOk result (λ r. KeepsPaceOf (S.Rules.kind (S.given session).rules)
        (S.progress r.0.core).run r.1) }

    // A terminal event came before anything was accepted.
    ensures ended { IfErr result (StopsAt (S.Rules.kind (S.given session).rules)
        (C.members connector) (T.moments clock.old) (T.moments clock.new)
        (events.Moment first ∷ [])) }
{
    let mut feeder = SessionFeeder::new(alloc, connector, session);
    if let Err(stop) = feeder.take_moment(first) {
        drop(feeder);
        return Err(stop);
    }
    let mut pace = Pace::new(alloc, bounds);
    let delay = bounds.normalize().min_backoff;
    match synchronise(rt, &mut feeder, &mut pace, random, clock, pause, delay) {
        Ok(()) => Ok((feeder, pace)),
        Err(stop) => {
            drop(feeder);
            drop(pace);
            Err(stop)
        }
    }
}
