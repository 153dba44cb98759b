//! The initial synchronisation: attempts with a moment of the clock before each, until an item is
//! accepted.

ghost use Rattle.std.specs.Prelude.{◌≡◌, ◌≤ℤ◌, false, true, pos, IfErr, IfSome, OnOk, reverse};
ghost use Rattle.spf_view.specs.Views.{has_synced};
ghost use Rattle.spf_feeder.specs.Coming.{AllYieldedOf};
ghost use Rattle.spf_feeder.specs.Opened.{StopsAt};
ghost use Rattle.spf_feeder.specs.Orderly.{IsAboutToAsk, IsFirstStep, IsOpening, IsOrderlyOf};
ghost use Rattle.spf_feeder.specs.Orderly.{IsTimedOf};
ghost use Rattle.spf_feeder.specs.Pacing.{KeepsPaceOf};
ghost use Rattle.spf_feeder.specs.Times.{GivesMoments, TakesMoment};
ghost use Rattle.spf_feeder.specs.Times as spec;
ghost use Rattle.spf_system.specs.declared.pace.Pace.{Pace as Paces};

use crate::feeder::SessionFeeder;
use crate::session::{Session, Stop};
use crate::supervisor::paced_ask;
use rand_core::Rng;
use spf_link::Connector;
use spf_system::{Clock, Pace, Pause};
use std::sync::Wait;
use std::time::Duration;

/// Asks the clock until it gives a moment, with this pause where it gives none.
pub(crate) fn next_moment<T: Clock, W: Pause, H: Wait>(
    rt: &H,
    clock: &mut T,
    pause: &mut W,
    delay: Duration,
) -> i64
    ensures moment { TakesMoment (T.moments clock.old) (T.moments clock.new) result }
    ensures range { pos 0 ≤ℤ result }
{
    'asks: for _ in rt.forever() {
        match clock.now() {
            Some(moment) => return moment,
            None => pause.pause(delay),
        }
    }
    unreachable!()
}

/// The deadline: the first moment plus the timeout in whole seconds, rounded up. It saturates at
/// `i64::MAX`.
pub(crate) fn deadline_after(first: i64, timeout: Duration) -> i64
    requires { pos 0 ≤ℤ first }
    ensures { result ≡ spec.deadline_after first timeout }
{
    let seconds = timeout.as_nanos().div_ceil(1_000_000_000);
    let latest = i64::MAX as u128;
    (first as u128 + seconds).min(latest) as i64
}

/// Takes a moment of the clock where a client is asked for next, so that it stands right before the
/// client.
#[tactic(auto, unfolding(crate::specs::Orderly::IsTimedOf, crate::specs::Pacing::KeepsPaceOf))]
fn moment_before<C, S, T, W, H>(
    rt: &H,
    feeder: &mut SessionFeeder<C, S>,
    clock: &mut T,
    pause: &mut W,
    delay: Duration,
) -> Result<(), Stop>
where
    C: Connector + Drop,
    C::Link: Drop,
    S: Session,
    T: Clock,
    W: Pause,
    H: Wait,
    requires going { (S.progress feeder.old.core).stuck ≡ false }
    requires timed { IsOpening (S.Rules.kind (S.given feeder.old.core).rules)
        (S.progress feeder.old.core).run }
    ensures given { S.given feeder.new.core ≡ S.given feeder.old.core }
    ensures handed { feeder.new.first ≡ feeder.old.first }
    ensures asked { feeder.new.asked ≡ feeder.old.asked }
    ensures going { OnOk result ((S.progress feeder.new.core).stuck ≡ false) }
    ensures timed { OnOk result (IsAboutToAsk (S.Rules.kind (S.given feeder.old.core).rules)
        (S.progress feeder.new.core).run) }
    ensures clock { OnOk result (GivesMoments (T.moments clock.old) (T.moments clock.new)
        (S.progress feeder.old.core).run (S.progress feeder.new.core).run) }
    ensures paces { (pace : Paces) → KeepsPaceOf (S.Rules.kind (S.given feeder.old.core).rules)
        (S.progress feeder.old.core).run pace
        → OnOk result (KeepsPaceOf (S.Rules.kind (S.given feeder.old.core).rules)
        (S.progress feeder.new.core).run pace) }
    ensures ended { IfErr result (StopsAt (S.Rules.kind (S.given feeder.old.core).rules)
        (C.members feeder.old.first) (T.moments clock.old) (T.moments clock.new)
        (S.progress feeder.old.core).run) }
{
    if !feeder.asks_client() || feeder.ends_with_moment() {
        return Ok(());
    }
    let moment = next_moment(rt, clock, pause, delay);
    match feeder.take_moment(moment) {
        Ok(_) => Ok(()),
        Err(stop) => Err(stop),
    }
}

/// Asks until the first item is accepted, with a moment of the clock right before each attempt, and
/// a pause after each that failed.
pub(crate) fn synchronise<C, S, R, T, W, H>(
    rt: &H,
    feeder: &mut SessionFeeder<C, S>,
    pace: &mut Pace,
    random: &mut R,
    clock: &mut T,
    pause: &mut W,
    delay: Duration,
) -> Result<(), Stop>
where
    C: Connector + Drop,
    C::Link: Drop,
    S: Session,
    R: Rng,
    T: Clock,
    W: Pause,
    H: Wait,
    requires going { (S.progress feeder.old.core).stuck ≡ false }
    requires keeps { KeepsPaceOf (S.Rules.kind (S.given feeder.old.core).rules)
        (S.progress feeder.old.core).run pace.old }
    requires timed { IsOpening (S.Rules.kind (S.given feeder.old.core).rules)
        (S.progress feeder.old.core).run }
    ensures given { S.given feeder.new.core ≡ S.given feeder.old.core }
    ensures handed { feeder.new.first ≡ feeder.old.first }
    ensures timed { OnOk result (IsTimedOf (S.Rules.kind (S.given feeder.old.core).rules)
        (reverse (S.progress feeder.new.core).run)) }
    ensures once { OnOk result (IsFirstStep (S.Rules.kind (S.given feeder.old.core).rules)
        (S.progress feeder.new.core).run) }
    ensures clock { OnOk result (GivesMoments (T.moments clock.old) (T.moments clock.new)
        (S.progress feeder.old.core).run (S.progress feeder.new.core).run) }
    ensures bounds { pace.new.bounds ≡ pace.old.bounds }
    ensures going { OnOk result ((S.progress feeder.new.core).stuck ≡ false) }
    ensures synced { OnOk result (has_synced (S.Rules.kind (S.given feeder.old.core).rules).subject
        (reverse (S.progress feeder.new.core).run) ≡ true) }
    ensures orderly { OnOk result (IsOrderlyOf (S.Rules.kind (S.given feeder.old.core).rules)
        (reverse (S.progress feeder.new.core).run)) }
    ensures yielded { OnOk result (IfSome (C.members feeder.new.first) (λ m. AllYieldedOf
        (S.Rules.kind (S.given feeder.old.core).rules) m
        (reverse (S.progress feeder.new.core).run))) }
    ensures paces { OnOk result (KeepsPaceOf (S.Rules.kind (S.given feeder.old.core).rules)
        (S.progress feeder.new.core).run pace.new) }
    ensures ended { IfErr result (StopsAt (S.Rules.kind (S.given feeder.old.core).rules)
        (C.members feeder.old.first) (T.moments clock.old) (T.moments clock.new)
        (S.progress feeder.old.core).run) }
{
    'asks: for _ in rt.forever() {
        moment_before(rt, feeder, clock, pause, delay)?;
        paced_ask(feeder, pace, random, pause)?;
        if feeder.is_synced() {
            return Ok(());
        }
    }
    unreachable!()
}
