//! Sessions of X.509 identities: the events so far, what they published, and where they stand.

ghost use Rattle.std.specs.Prelude.{◌≡◌, ◌∷◌, [], true, false, None, Some, IsTrue, IfOk, OnOk};
ghost use Rattle.std.specs.Prelude.{IfErr, IfSome, List, reverse, is_some, ◌||◌};
ghost use Rattle.std.specs.Option.{ForSome};
ghost use Rattle.spf_feed.specs.Items.{Event as SessionOf};
ghost use Rattle.spf_feed.specs.Following.{update_of};
ghost use Rattle.spf_feed.specs.Steps.{HasStep};
ghost use Rattle.spf_feed.specs.Turns.{MayTake, listed};
ghost use Rattle.spf_feeder.specs.Kept.{Going, Published, PublishesTurn, accepts, core_of};
ghost use Rattle.spf_feeder.specs.Governed.{rules_by};
ghost use Rattle.spf_feeder.specs.Taking.{Foresees, Takes};
ghost use Rattle.spf_feeder.specs.Orderly.{IsOrderly};

use crate::attempt::{end_of, gave_after, unless_accepted};
use crate::feeder::SessionFeeder;
use crate::received::{received_of, shared};
use crate::session::{Session, SessionParts, Stop};
use crate::x509_rules::X509Rules;
use spf_api::{ContextResponse, Response};
use spf_feed::{
    Change, Event, MetricsRecord, MetricsRecorder, Phase, Publisher, Records, ResourceLimits,
    Snapshot, Step, SvidPicker, Turn, moment_after, phase_after, publish, record_all, turn_of,
};
use spf_io::OutOfMemory;
use spf_link::Request;
use spf_system::AttemptEnd;
use std::alloc::Global;
use std::marker::Model;
use std::mem::drop;
use std::snapshot;

/// The records of an accepted item, by what its step changed.
fn records_of(change: Change) -> Records
    ensures { listed result ≡ update_of change }
{
    match change {
        Change::Changed => Records {
            error: None,
            end: Some(MetricsRecord::Update),
        },
        Change::Opened | Change::Unchanged => Records::none(),
    }
}

/// Publishes the step of a turn, where it has one, and returns the records of the turn.
fn publish_turn<P: Publisher>(
    alloc: Global,
    publisher: &mut P,
    snapshot: &mut Option<Snapshot>,
    limits: ResourceLimits,
    turn: Turn,
) -> Result<Records, Stop>
    requires turn { MayTake limits (is_some snapshot.old) turn }
    requires synced { IsTrue (is_some snapshot.old) → HasStep (P.steps publisher.old) }
    ensures synced { OnOk result (IsTrue (is_some snapshot.new) → HasStep (P.steps publisher.new)) }
    ensures published { PublishesTurn limits turn snapshot.old (P.steps publisher.old) result
        snapshot.new (P.steps publisher.new) }
    ensures target { P.target publisher.new ≡ P.target publisher.old }
{
    match turn {
        Turn::Terminal(terminal) => Err(Stop::Terminal(terminal)),
        Turn::Passed(records) => Ok(records),
        Turn::Denied { reason, records } => {
            let step = Step::Deny {
                reason: shared(alloc, reason)?,
            };
            publish(alloc, publisher, snapshot, step)?;
            Ok(records)
        }
        Turn::Accepted { context, choice } => {
            let step = Step::Accept {
                context: shared(alloc, context)?,
                limits,
                choice,
            };
            Ok(records_of(publish(alloc, publisher, snapshot, step)?))
        }
    }
}

fn is_accepted(turn: &Turn) -> bool
    ensures { result ≡ accepts turn.now }
{
    matches!(turn, Turn::Accepted { .. })
}

/// Where a session stands after its events, its snapshot aside.
#[derive(Clone, Copy)]
struct Place {
    moment: Option<i64>,
    phase: Phase,
    gave_accepted: bool,
}

/// What an event is to do: its turn, where it leaves the session, and how it ends the attempt.
#[derive(Drop)]
struct Foreseen {
    turn: Turn,
    place: Place,
    end: Option<AttemptEnd>,
}

/// What an event is to do, where an item was accepted before it or not.
fn foresee<K: SvidPicker + Drop>(
    alloc: Global,
    rules: &X509Rules<K>,
    synced: bool,
    place: Place,
    event: &Event,
) -> Result<Foreseen, OutOfMemory>
    requires { ForSome rules.now.picker K.can_pick }
    ensures may { IfOk result (λ f. MayTake rules.now.settings.limits synced f.turn) }
    ensures foresees { IfOk result
        (Foresees (rules_by K.picks rules.now) synced place event.now) }
{
    let received = received_of(alloc, event)?;
    let phase = phase_after(place.phase, synced, &received);
    let end = match end_of(alloc, phase, place.gave_accepted, &received) {
        Ok(end) => end,
        Err(OutOfMemory) => {
            drop(received);
            return Err(OutOfMemory);
        }
    };
    let moment = moment_after(place.moment, &received);
    let turn = turn_of(
        rules.settings,
        rules.picker.as_ref(),
        synced,
        place.moment,
        received,
    );
    let is_accepted = is_accepted(&turn);
    let place = Place {
        moment,
        phase,
        gave_accepted: gave_after(place.gave_accepted, is_accepted, event),
    };
    Ok(Foreseen {
        turn,
        place,
        end: unless_accepted(is_accepted, end),
    })
}

/// What an event that was taken leaves to do: its records, and the end of the attempt.
#[derive(Clone, Copy)]
struct Taken {
    records: Records,
    end: Option<AttemptEnd>,
}

/// Takes one more event: its step is published. After a refusal nothing is.
fn take<P: Publisher, K: SvidPicker + Drop>(
    alloc: Global,
    publisher: &mut P,
    snapshot: &mut Option<Snapshot>,
    place: &mut Place,
    rules: &X509Rules<K>,
    event: &Event,
) -> Result<Taken, Stop>
    requires picker { ForSome rules.now.picker K.can_pick }
    requires synced { IsTrue (is_some snapshot.old) → HasStep (P.steps publisher.old) }
    ensures target { P.target publisher.new ≡ P.target publisher.old }
    ensures refused { IfErr result (λ _. P.steps publisher.new ≡ P.steps publisher.old) }
    ensures takes { (run : List SessionOf)
        → Published (P.steps publisher.old) (rules_by K.picks rules.now) run
        → Going (rules_by K.picks rules.now) run (P.steps publisher.old) snapshot.old
        place.old.moment place.old.phase place.old.gave_accepted
        → Takes (rules_by K.picks rules.now) run event.now result snapshot.new
        (P.steps publisher.new) place.new }
{
    let Foreseen {
        turn,
        place: next,
        end,
    } = foresee(alloc, rules, snapshot.is_some(), *place, event)?;
    let records = publish_turn(alloc, publisher, snapshot, rules.settings.limits, turn)?;
    *place = next;
    Ok(Taken { records, end })
}

/// Asks a connector and its link for X.509 identities, and publishes what they yield.
pub type Feeder<C, P, M, K> = SessionFeeder<C, X509Session<P, M, K>>;

/// The events so far, with all that they publish and record. Once an event was refused it takes
/// none.
#[derive(Drop)]
pub struct X509Session<P: Publisher + Drop, M: MetricsRecorder + Drop, K: SvidPicker + Drop> {
    alloc: Global,
    publisher: P,
    recorder: M,
    rules: X509Rules<K>,
    events: Vec<Event>,
    snapshot: Option<Snapshot>,
    place: Place,
    stuck: bool,
}

impl<P: Publisher + Drop, M: MetricsRecorder + Drop, K: SvidPicker + Drop> Model
    for X509Session<P, M, K> {
    ghost use Rattle.std.specs.Prelude.{◌≡◌, false, reverse};
    ghost use Rattle.std.specs.Option.{ForSome};
    ghost use Rattle.spf_feeder.specs.Kept.{Core, core_of, Published, Going};
    ghost use Rattle.spf_feeder.specs.Governed.{rules_by};
    ghost use Rattle.spf_feeder.specs.declared.x509_rules.X509Rules.{X509Rules};
    ghost use Rattle.spf_api.specs.declared.response.ContextResponse.{ContextResponse};
    ghost use Rattle.spf_feeder.specs.Orderly.{IsOrderly};

    ghost Value = { Core P M (X509Rules K) ContextResponse };

    ghost view = { λ s. core_of s.publisher s.recorder s.rules s.events.items s.stuck };

    ghost invariant = { λ s. ForSome s.rules.picker K.can_pick
        × Published (P.steps s.publisher) (rules_by K.picks s.rules) s.events.items
        × (s.stuck ≡ false → Going (rules_by K.picks s.rules) s.events.items
        (P.steps s.publisher) s.snapshot s.place.moment s.place.phase s.place.gave_accepted)
        × IsOrderly (rules_by K.picks s.rules) (reverse s.events.items) };
}

impl<P: Publisher + Drop, M: MetricsRecorder + Drop, K: SvidPicker + Drop> X509Session<P, M, K> {
    /// Returns a session without events yet, whose publisher has no steps.
    #[tactic(auto, unfolding(crate::specs::Orderly::IsOrderlyOf))]
    pub fn new(
        alloc: Global,
        publisher: P,
        recorder: M,
        rules: X509Rules<K>,
    ) -> X509Session<P, M, K>
        requires picker { ForSome rules.picker K.can_pick }
        requires unused { IfSome (P.steps publisher) (λ steps. steps ≡ []) }
        ensures { result ≡ core_of publisher recorder rules [] false }
    {
        X509Session {
            alloc,
            publisher,
            recorder,
            rules,
            events: Vec::new(alloc),
            snapshot: None,
            place: Place {
                moment: None,
                phase: Phase::Client,
                gave_accepted: false,
            },
            stuck: false,
        }
    }

    /// Returns the same with another publisher, which has published the same steps, and the
    /// publisher that it had until now.
    pub fn with_publisher<Q: Publisher + Drop>(self, publisher: Q) -> (X509Session<Q, M, K>, P)
        requires published { Published (Q.steps publisher)
            (rules_by K.picks self.rules) self.run }
        requires has_step { HasStep (Q.steps publisher) }
        ensures core { result.0 ≡ core_of publisher self.recorder self.rules self.run self.stuck }
        ensures publisher { result.1 ≡ self.publisher }
    {
        let X509Session {
            alloc,
            publisher: before,
            recorder,
            rules,
            events,
            snapshot,
            place,
            stuck,
        } = self;
        let session = X509Session {
            alloc,
            publisher,
            recorder,
            rules,
            events,
            snapshot,
            place,
            stuck,
        };
        (session, before)
    }
}

impl<P: Publisher + Drop, M: MetricsRecorder + Drop, K: SvidPicker + Drop> Session
    for X509Session<P, M, K> {
    type Rules = X509Rules<K>;

    type Publisher = P;

    ghost use Rattle.spf_feed.specs.Items.{context_in};
    ghost use Rattle.spf_feed.specs.Run.{ask_of};
    ghost use Rattle.spf_feeder.specs.Kept.{AdvancesBy, Published, given, progress};
    ghost use Rattle.spf_feeder.specs.Governed.{kind_by, rules_by};
    ghost use Rattle.spf_feeder.specs.Orderly.{does_answer, is_moment};

    ghost Recorder = { M };

    ghost records = { M.records };

    ghost given = { given P.target };

    ghost progress = { progress };

    ghost publisher = { λ s. s.publisher };

    ghost publishes = { λ p rules run. Published (P.steps p) (rules_by K.picks rules) run };

    fn is_stuck(&self) -> bool {
        self.stuck
    }

    fn phase(&self) -> Phase {
        self.place.phase
    }

    fn is_synced(&self) -> bool {
        self.snapshot.is_some()
    }

    fn events(&self) -> &[Event] {
        self.events.as_slice()
    }

    fn noted_events(&self) -> snapshot::Snapshot<Vec<Event>> {
        snapshot::Snapshot::of(&self.events)
    }

    fn rules(&self) -> &X509Rules<K> {
        &self.rules
    }

    fn publisher(&self) -> &P {
        &self.publisher
    }

    fn request(&self) -> Request {
        Request::X509Svid
    }

    fn item_of(&self, response: Response) -> Option<ContextResponse> {
        match response {
            Response::Context(context) => Some(context),
            other => {
                drop(other);
                None
            }
        }
    }

    fn stop(&mut self) {
        self.stuck = true;
    }

    fn advance(&mut self, event: Event) -> Result<Option<AttemptEnd>, Stop>
        requires going { self.old.stuck ≡ false }
        requires fits { (is_moment event || does_answer (ask_of context_in
            (rules_by K.picks self.old.rules) (reverse self.old.run)) event)
            ≡ true }
        ensures given { given P.target self.new ≡ given P.target self.old }
        ensures published { Published (P.steps self.new.publisher)
            (rules_by K.picks self.new.rules) self.new.run }
        ensures orderly { IsOrderly (rules_by K.picks self.new.rules) (reverse self.new.run) }
        ensures advances { AdvancesBy
            (kind_by K.picks self.old.rules) M.records
            (progress self.old) event result (progress self.new) }
    {
        self.stuck = true;
        if self.events.reserve(1).is_err() {
            drop(event);
            return Err(Stop::OutOfMemory);
        }
        let taken = match take(
            self.alloc,
            &mut self.publisher,
            &mut self.snapshot,
            &mut self.place,
            &self.rules,
            &event,
        ) {
            Ok(taken) => taken,
            Err(stop) => {
                drop(event);
                return Err(stop);
            }
        };
        self.events.push_reserved(event);
        record_all(&mut self.recorder, taken.records)?;
        self.stuck = false;
        Ok(taken.end)
    }

    fn into_parts(self) -> SessionParts<P, X509Rules<K>> {
        let X509Session {
            publisher,
            rules,
            events,
            ..
        } = self;
        SessionParts {
            publisher,
            events,
            rules,
        }
    }
}
