//! The loop of a supervisor: asks with pauses between them, until a caller closes the source.

ghost use Rattle.std.specs.Prelude.{◌≡◌, false, IfErr, IfNone, IfSome, OnOk};
ghost use Rattle.spf_feeder.specs.Fed.{StopsFor};
ghost use Rattle.spf_feeder.specs.Orderly.{AddsAnswerTo, GoesOn};
ghost use Rattle.spf_feeder.specs.Pacing.{Halted, KeepsPaceOf, PacesOn};

use crate::feeder::SessionFeeder;
use crate::session::{Session, Stop};
use rand_core::Rng;
use spf_link::Connector;
use spf_system::{Closed, Maker, Pace, Pause, Watch};
use std::mem::drop;
use std::sync::Wait;

/// Asks once, and pauses where that ended an attempt.
#[tactic(auto, unfolding(crate::specs::Pacing::KeepsPaceOf))]
pub(crate) fn paced_ask<C, S, R, W>(
    feeder: &mut SessionFeeder<C, S>,
    pace: &mut Pace,
    random: &mut R,
    pause: &mut W,
) -> Result<(), Stop>
where
    C: Connector + Drop,
    C::Link: Drop,
    S: Session,
    R: Rng,
    W: Pause,
    requires going { (S.progress feeder.old.core).stuck ≡ false }
    ensures given { S.given feeder.new.core ≡ S.given feeder.old.core }
    ensures first { feeder.new.first ≡ feeder.old.first }
    ensures goes_on { GoesOn (S.progress feeder.old.core).run (S.progress feeder.new.core).run }
    ensures bounds { pace.new.bounds ≡ pace.old.bounds }
    ensures going { OnOk result ((S.progress feeder.new.core).stuck ≡ false) }
    ensures adds { OnOk result (AddsAnswerTo (S.Rules.kind (S.given feeder.old.core).rules).ask
        (S.progress feeder.old.core).run (S.progress feeder.new.core).run) }
    ensures paces { PacesOn (S.Rules.kind (S.given feeder.old.core).rules)
        (S.progress feeder.old.core).run
        pace.old result (S.progress feeder.new.core).run pace.new }
    ensures ended { IfErr result (StopsFor (S.Rules.kind (S.given feeder.old.core).rules)
        (C.members feeder.old.first) (S.progress feeder.old.core).run) }
{
    let was_synced = feeder.is_synced();
    match feeder.ask_once()? {
        Some(end) => {
            let delay = pace.after(random, end)?;
            pause.pause(delay);
            Ok(())
        }
        None => {
            if !was_synced && feeder.is_synced() {
                pace.synchronised();
                return Ok(());
            }
            Ok(())
        }
    }
}

/// The cell, where a caller closed it.
fn by_caller(closed: Closed) -> Option<Closed>
    ensures { IfSome result (λ c. (c ≡ closed) × (c.maker ≡ Maker.Caller)) }
{
    match closed.maker() {
        Maker::Caller => Some(closed),
        Maker::Supervisor => None,
    }
}

/// Asks until a caller closes the source, and returns what shows that; or None, where memory ran
/// out. It looks at the closed mark between two asks.
pub fn supervise<C, S, R, W, H>(
    rt: &H,
    feeder: &mut SessionFeeder<C, S>,
    pace: &mut Pace,
    random: &mut R,
    pause: &mut W,
    watch: &Watch,
) -> Option<Closed>
where
    C: Connector + Drop,
    C::Link: Drop,
    S: Session,
    R: Rng,
    W: Pause,
    H: Wait,
    requires going { (S.progress feeder.old.core).stuck ≡ false }
    requires keeps { KeepsPaceOf (S.Rules.kind (S.given feeder.old.core).rules)
        (S.progress feeder.old.core).run pace.old }
    ensures given { S.given feeder.new.core ≡ S.given feeder.old.core }
    ensures first { feeder.new.first ≡ feeder.old.first }
    ensures goes_on { GoesOn (S.progress feeder.old.core).run (S.progress feeder.new.core).run }
    ensures bounds { pace.new.bounds ≡ pace.old.bounds }

    // A caller closed this cell, and the delays are those of the run.
    ensures closed { IfSome result (λ c. (c.cell ≡ watch.now) × (c.maker ≡ Maker.Caller)
        × ((S.progress feeder.new.core).stuck ≡ false)
        × KeepsPaceOf (S.Rules.kind (S.given feeder.old.core).rules)
        (S.progress feeder.new.core).run
        pace.new) }
    ensures halted { IfNone result (Halted (S.Rules.kind (S.given feeder.old.core).rules)
        (S.progress feeder.new.core).run pace.new) }
{
    'turns: for _ in rt.forever() {
        if let Some(closed) = watch.look() {
            return by_caller(closed);
        }
        match paced_ask(feeder, pace, random, pause) {
            Ok(()) => {}
            Err(stop) => {
                drop(stop);
                return None;
            }
        }
    }
    unreachable!()
}
