//! Sessions of JWT bundles: the events so far, what they published, and where they stand.

ghost use Rattle.std.specs.Prelude.{◌≡◌, ◌∷◌, [], true, false, None, Some, IsTrue, IfOk, OnOk};
ghost use Rattle.std.specs.Prelude.{IfErr, IfSome, List, reverse, is_some, ◌||◌};
ghost use Rattle.spf_jwt_feed.specs.Items.{Event as SessionOf};
ghost use Rattle.spf_jwt_feed.specs.Following.{update_of};
ghost use Rattle.spf_jwt_feed.specs.Steps.{HasStep};
ghost use Rattle.spf_jwt_feed.specs.Turns.{MayTake, listed};
ghost use Rattle.spf_feeder.specs.Kept.{core_of};
ghost use Rattle.spf_jwt_source.specs.Governed.{rules_of};
ghost use Rattle.spf_jwt_source.specs.Kept.{Going, Published, PublishesTurn, accepts};
ghost use Rattle.spf_jwt_source.specs.Taking.{Foresees, Takes};
ghost use Rattle.spf_jwt_source.specs.Orderly.{IsOrderly};

use crate::received::received_of;
use crate::rules::JwtRules;
use spf_api::{BundlesResponse, Response};
use spf_feed::{Change, Phase};
use spf_feeder::{
    Session, SessionFeeder, SessionParts, Stop, end_of, gave_after, shared, unless_accepted,
};
use spf_io::OutOfMemory;
use spf_jwt::JwtResourceLimits;
use spf_jwt_feed::{
    JwtEvent, JwtMetricsRecord, JwtMetricsRecorder, JwtPublisher, JwtSnapshot, JwtStep, Records,
    Turn, phase_after, publish, record_all, turn_of,
};
use spf_link::Request;
use spf_system::AttemptEnd;
use std::alloc::Global;
use std::marker::Model;
use std::mem::drop;
use std::snapshot;

/// The records of an accepted item, by what its step changed.
fn records_of(change: Change) -> Records
    ensures { listed result ≡ update_of change }
{
    match change {
        Change::Changed => Records {
            error: None,
            end: Some(JwtMetricsRecord::Update),
        },
        Change::Opened | Change::Unchanged => Records::none(),
    }
}

/// Publishes the step of a turn, where it has one, and returns the records of the turn.
fn publish_turn<P: JwtPublisher>(
    alloc: Global,
    publisher: &mut P,
    snapshot: &mut Option<JwtSnapshot>,
    limits: JwtResourceLimits,
    turn: Turn,
) -> Result<Records, Stop>
    requires turn { MayTake limits (is_some snapshot.old) turn }
    requires synced { IsTrue (is_some snapshot.old) → HasStep (P.steps publisher.old) }
    ensures synced { OnOk result (IsTrue (is_some snapshot.new) → HasStep (P.steps publisher.new)) }
    ensures published { PublishesTurn limits turn snapshot.old
        (P.steps publisher.old) result snapshot.new (P.steps publisher.new) }
    ensures target { P.target publisher.new ≡ P.target publisher.old }
{
    match turn {
        Turn::Terminal(terminal) => Err(Stop::Terminal(terminal)),
        Turn::Passed(records) => Ok(records),
        Turn::Denied { reason, records } => {
            let step = JwtStep::Deny {
                reason: shared(alloc, reason)?,
            };
            publish(publisher, snapshot, step)?;
            Ok(records)
        }
        Turn::Accepted(bundle_set) => {
            let step = JwtStep::Accept {
                bundle_set: shared(alloc, bundle_set)?,
                limits,
            };
            Ok(records_of(publish(publisher, snapshot, step)?))
        }
    }
}

fn is_accepted(turn: &Turn) -> bool
    ensures { result ≡ accepts turn.now }
{
    matches!(turn, Turn::Accepted(_))
}

/// Where a session stands after its events, its snapshot aside.
#[derive(Clone, Copy)]
struct Place {
    phase: Phase,
    gave_accepted: bool,
}

/// What an event is to do: its turn, where it leaves the session, and how it ends the attempt.
#[derive(Drop)]
struct Foreseen {
    turn: Turn,
    place: Place,
    end: Option<AttemptEnd>,
}

/// What an event is to do, where an item was accepted before it or not.
fn foresee(
    alloc: Global,
    rules: JwtRules,
    synced: bool,
    place: Place,
    event: &JwtEvent,
) -> Result<Foreseen, OutOfMemory>
    ensures may { IfOk result (λ f. MayTake rules.limits synced f.turn) }
    ensures foresees { IfOk result (Foresees (rules_of rules) synced place event.now) }
{
    let received = received_of(alloc, event)?;
    let phase = phase_after(place.phase, synced, &received);
    let end = match end_of(alloc, phase, place.gave_accepted, &received) {
        Ok(end) => end,
        Err(OutOfMemory) => {
            drop(received);
            return Err(OutOfMemory);
        }
    };
    let turn = turn_of(rules.limits, rules.deadline, synced, received);
    let is_accepted = is_accepted(&turn);
    let place = Place {
        phase,
        gave_accepted: gave_after(place.gave_accepted, is_accepted, event),
    };
    Ok(Foreseen {
        turn,
        place,
        end: unless_accepted(is_accepted, end),
    })
}

/// What an event that was taken leaves to do: its records, and the end of the attempt.
#[derive(Clone, Copy)]
struct Taken {
    records: Records,
    end: Option<AttemptEnd>,
}

/// Takes one more event: its step is published. After a refusal nothing is.
fn take<P: JwtPublisher>(
    alloc: Global,
    publisher: &mut P,
    snapshot: &mut Option<JwtSnapshot>,
    place: &mut Place,
    rules: JwtRules,
    event: &JwtEvent,
) -> Result<Taken, Stop>
    requires synced { IsTrue (is_some snapshot.old) → HasStep (P.steps publisher.old) }
    ensures target { P.target publisher.new ≡ P.target publisher.old }
    ensures refused { IfErr result (λ _. P.steps publisher.new ≡ P.steps publisher.old) }
    ensures takes { (run : List SessionOf)
        → Published (P.steps publisher.old) (rules_of rules) run
        → Going (rules_of rules) run (P.steps publisher.old) snapshot.old place.old.phase
        place.old.gave_accepted
        → Takes (rules_of rules) run event.now result snapshot.new (P.steps publisher.new)
        place.new }
{
    let Foreseen {
        turn,
        place: next,
        end,
    } = foresee(alloc, rules, snapshot.is_some(), *place, event)?;
    let records = publish_turn(alloc, publisher, snapshot, rules.limits, turn)?;
    *place = next;
    Ok(Taken { records, end })
}

/// Asks a connector and its link for JWT bundles, and publishes what they yield.
pub type JwtFeeder<C, P, M> = SessionFeeder<C, JwtSession<P, M>>;

/// The events so far, with all that they publish and record. Once an event was refused it takes
/// none.
#[derive(Drop)]
pub struct JwtSession<P: JwtPublisher + Drop, M: JwtMetricsRecorder + Drop> {
    alloc: Global,
    publisher: P,
    recorder: M,
    rules: JwtRules,
    events: Vec<JwtEvent>,
    snapshot: Option<JwtSnapshot>,
    place: Place,
    stuck: bool,
}

impl<P: JwtPublisher + Drop, M: JwtMetricsRecorder + Drop> Model for JwtSession<P, M> {
    ghost use Rattle.std.specs.Prelude.{◌≡◌, false, reverse};
    ghost use Rattle.spf_api.specs.declared.response.BundlesResponse.{BundlesResponse};
    ghost use Rattle.spf_feeder.specs.Kept.{Core, core_of};
    ghost use Rattle.spf_jwt_source.specs.declared.rules.JwtRules.{JwtRules};
    ghost use Rattle.spf_jwt_source.specs.Governed.{rules_of};
    ghost use Rattle.spf_jwt_source.specs.Kept.{Published, Going};
    ghost use Rattle.spf_jwt_source.specs.Orderly.{IsOrderly};

    ghost Value = { Core P M JwtRules BundlesResponse };

    ghost view = { λ s. core_of s.publisher s.recorder s.rules s.events.items s.stuck };

    ghost invariant = { λ s. Published (P.steps s.publisher) (rules_of s.rules) s.events.items
        × (s.stuck ≡ false → Going (rules_of s.rules) s.events.items
        (P.steps s.publisher) s.snapshot s.place.phase s.place.gave_accepted)
        × IsOrderly (rules_of s.rules) (reverse s.events.items) };
}

impl<P: JwtPublisher + Drop, M: JwtMetricsRecorder + Drop> JwtSession<P, M> {
    /// Returns a session without events yet, whose publisher has no steps.
    #[tactic(auto, unfolding(spf_feeder::specs::Orderly::IsOrderlyOf))]
    pub fn new(alloc: Global, publisher: P, recorder: M, rules: JwtRules) -> JwtSession<P, M>
        requires unused { IfSome (P.steps publisher) (λ steps. steps ≡ []) }
        ensures { result ≡ core_of publisher recorder rules [] false }
    {
        JwtSession {
            alloc,
            publisher,
            recorder,
            rules,
            events: Vec::new(alloc),
            snapshot: None,
            place: Place {
                phase: Phase::Client,
                gave_accepted: false,
            },
            stuck: false,
        }
    }

    /// Returns the same with another publisher, which has published the same steps, and the
    /// publisher that it had until now.
    pub fn with_publisher<Q: JwtPublisher + Drop>(self, publisher: Q) -> (JwtSession<Q, M>, P)
        requires published { Published (Q.steps publisher)
            (rules_of self.rules) self.run }
        requires has_step { HasStep (Q.steps publisher) }
        ensures core { result.0 ≡ core_of publisher self.recorder self.rules self.run self.stuck }
        ensures publisher { result.1 ≡ self.publisher }
    {
        let JwtSession {
            alloc,
            publisher: before,
            recorder,
            rules,
            events,
            snapshot,
            place,
            stuck,
        } = self;
        let session = JwtSession {
            alloc,
            publisher,
            recorder,
            rules,
            events,
            snapshot,
            place,
            stuck,
        };
        (session, before)
    }
}

impl<P: JwtPublisher + Drop, M: JwtMetricsRecorder + Drop> Session for JwtSession<P, M> {
    type Rules = JwtRules;

    type Publisher = P;

    ghost use Rattle.spf_feeder.specs.Kept.{AdvancesBy, given, progress};
    ghost use Rattle.spf_feeder.specs.Orderly.{does_answer, is_moment};
    ghost use Rattle.spf_jwt_feed.specs.Items.{item_in};
    ghost use Rattle.spf_jwt_feed.specs.Run.{ask_of};
    ghost use Rattle.spf_jwt_source.specs.Governed.{kind_of, rules_of};
    ghost use Rattle.spf_jwt_source.specs.Kept.{Published};

    ghost Recorder = { M };

    ghost records = { M.records };

    ghost given = { given P.target };

    ghost progress = { progress };

    ghost publisher = { λ s. s.publisher };

    ghost publishes = { λ p rules run. Published (P.steps p) (rules_of rules) run };

    fn is_stuck(&self) -> bool {
        self.stuck
    }

    fn phase(&self) -> Phase {
        self.place.phase
    }

    fn is_synced(&self) -> bool {
        self.snapshot.is_some()
    }

    fn events(&self) -> &[JwtEvent] {
        self.events.as_slice()
    }

    fn noted_events(&self) -> snapshot::Snapshot<Vec<JwtEvent>> {
        snapshot::Snapshot::of(&self.events)
    }

    fn rules(&self) -> &JwtRules {
        &self.rules
    }

    fn publisher(&self) -> &P {
        &self.publisher
    }

    fn request(&self) -> Request {
        Request::JwtBundles
    }

    fn item_of(&self, response: Response) -> Option<BundlesResponse> {
        match response {
            Response::JwtBundles(bundles) => Some(bundles),
            other => {
                drop(other);
                None
            }
        }
    }

    fn stop(&mut self) {
        self.stuck = true;
    }

    fn advance(&mut self, event: JwtEvent) -> Result<Option<AttemptEnd>, Stop>
        requires going { self.old.stuck ≡ false }
        requires fits { (is_moment event || does_answer (ask_of item_in
            (rules_of self.old.rules) (reverse self.old.run)) event) ≡ true }
        ensures given { given P.target self.new ≡ given P.target self.old }
        ensures published { Published (P.steps self.new.publisher) (rules_of self.new.rules)
            self.new.run }
        ensures orderly { IsOrderly (rules_of self.new.rules) (reverse self.new.run) }
        ensures advances { AdvancesBy (kind_of self.old.rules) M.records
            (progress self.old) event result (progress self.new) }
    {
        self.stuck = true;
        if self.events.reserve(1).is_err() {
            drop(event);
            return Err(Stop::OutOfMemory);
        }
        let taken = match take(
            self.alloc,
            &mut self.publisher,
            &mut self.snapshot,
            &mut self.place,
            self.rules,
            &event,
        ) {
            Ok(taken) => taken,
            Err(stop) => {
                drop(event);
                return Err(stop);
            }
        };
        self.events.push_reserved(event);
        record_all(&mut self.recorder, taken.records)?;
        self.stuck = false;
        Ok(taken.end)
    }

    fn into_parts(self) -> SessionParts<P, JwtRules> {
        let JwtSession {
            publisher,
            rules,
            events,
            ..
        } = self;
        SessionParts {
            publisher,
            events,
            rules,
        }
    }
}
