//! The feeder. Its fields are private to this module: nothing else asks its connector or its link.

ghost use Rattle.std.specs.Prelude.{◌≡◌, [], false, IfErr, IfSome, reverse};
ghost use Rattle.spf_view.specs.Views.{has_synced};
ghost use Rattle.spf_feed.specs.declared.event.SessionEvent.TheVariants as events;
ghost use Rattle.spf_feeder.specs.Fed.{EndsFor, IsFed, StopsFor, TurnsBy, YieldsOf, with_core};
ghost use Rattle.spf_feeder.specs.Kept.{AdvancesBy};
ghost use Rattle.spf_feeder.specs.Asking.{is_client};
ghost use Rattle.spf_feeder.specs.Coming.{AllYieldedOf};
ghost use Rattle.spf_feeder.specs.Orderly.{GoesOn};
ghost use Rattle.spf_feeder.specs.Orderly as spec;

use crate::ask::ask;
use crate::session::{ItemOf, Session, Stop};
use spf_feed::{Phase, SessionEvent};
use spf_io::OutOfMemory;
use spf_link::Connector;
use spf_system::AttemptEnd;
use std::alloc::Global;
use std::marker::Model;
use std::mem::drop;
use std::snapshot;

/// Asks a connector and its link, and lets its session publish what they yield: one ask a turn,
/// whose step is published before the next one.
#[derive(Drop)]
pub struct SessionFeeder<C: Connector + Drop, S: Session>
where
    C::Link: Drop,
{
    alloc: Global,
    connector: C,
    link: Option<C::Link>,
    session: S,
    /// The connector as it was handed in, which contracts alone see.
    first: snapshot::Snapshot<C>,
}

impl<C: Connector + Drop, S: Session> Model for SessionFeeder<C, S>
where
    C::Link: Drop,
{
    ghost use Rattle.spf_feeder.specs.Fed.{FedOf, IsFed, fed};

    ghost Value = { FedOf C C.Link S };

    ghost view = { λ f. fed f.connector f.link f.session f.first.value };

    ghost invariant = { λ f. IsFed (S.Rules.kind (S.given f.session).rules) C.Connector C.Link.Link
        (S.progress f.session) (record { connector = f.connector; link = f.link })
        f.first.value };
}

/// The connector and the link of a feeder, while its session is elsewhere.
#[derive(Drop)]
pub struct Resting<C: Connector + Drop>
where
    C::Link: Drop,
{
    alloc: Global,
    connector: C,
    link: Option<C::Link>,
    first: snapshot::Snapshot<C>,
}

impl<C: Connector + Drop> Model for Resting<C>
where
    C::Link: Drop,
{
    ghost use Rattle.spf_feeder.specs.Fed.{FedOf, fed};

    ghost Value = { FedOf C C.Link (Unit {0}) };

    ghost view = { λ r. fed r.connector r.link tt r.first.value };
}

impl<C: Connector + Drop> Resting<C>
where
    C::Link: Drop,
{
    /// Returns the feeder of a session whose events are what the asks so far took.
    pub fn feed<S: Session>(self, session: S) -> SessionFeeder<C, S>
        requires fed { IsFed (S.Rules.kind (S.given session).rules) C.Connector C.Link.Link
            (S.progress session) self.asked self.first }
        ensures core { result.core ≡ session }
        ensures asked { result.asked ≡ self.asked }
        ensures first { result.first ≡ self.first }
    {
        let Resting {
            alloc,
            connector,
            link,
            first,
        } = self;
        SessionFeeder {
            alloc,
            connector,
            link,
            session,
            first,
        }
    }
}

/// Whether the last of the events is a moment.
fn ends_with_moment<I: Drop>(events: &[SessionEvent<I>]) -> bool
    ensures { result ≡ spec.ends_with_moment (reverse events.now) }
{
    matches!(events.last(), Some(SessionEvent::Moment(_)))
}

impl<C: Connector + Drop, S: Session> SessionFeeder<C, S>
where
    C::Link: Drop,
{
    /// Returns a feeder that has asked nothing yet.
    #[tactic(auto, unfolding(crate::specs::Coming::AllYieldedOf, crate::specs::Coming::left_of))]
    pub fn new(alloc: Global, connector: C, session: S) -> SessionFeeder<C, S>
        requires unused { (S.progress session).run ≡ [] }
        requires client { (S.Rules.kind (S.given session).rules).ask [] ≡ Phase.Client }
        ensures core { result.core ≡ session }
        ensures first { result.first ≡ connector }
    {
        let first = snapshot::Snapshot::of(&connector);
        SessionFeeder {
            alloc,
            connector,
            link: None,
            session,
            first,
        }
    }

    /// Returns the session, whose events are those so far.
    pub fn session(&self) -> &S
        ensures { result.now ≡ self.now.core }
    {
        &self.session
    }

    /// Returns the events so far, oldest first.
    pub fn events(&self) -> &[SessionEvent<ItemOf<S>>]
        ensures { result.now ≡ (S.progress self.now.core).run }
    {
        self.session.events()
    }

    /// Returns the events so far, which contracts alone see.
    pub fn noted_events(&self) -> snapshot::Snapshot<Vec<SessionEvent<ItemOf<S>>>>
        ensures { result.value.items ≡ (S.progress self.now.core).run }
    {
        self.session.noted_events()
    }

    /// Whether an item was accepted.
    pub(crate) fn is_synced(&self) -> bool
        requires { (S.progress self.now.core).stuck ≡ false }
        ensures synced { result ≡ has_synced (S.Rules.kind (S.given self.now.core).rules).subject
            (reverse (S.progress self.now.core).run) }
        ensures orderly { spec.IsOrderlyOf (S.Rules.kind (S.given self.now.core).rules)
            (reverse (S.progress self.now.core).run) }
        ensures yielded { IfSome (C.members self.now.first) (λ members. AllYieldedOf
            (S.Rules.kind (S.given self.now.core).rules) members
            (reverse (S.progress self.now.core).run)) }
    {
        self.session.is_synced()
    }

    /// Whether a client is asked for next.
    pub(crate) fn asks_client(&self) -> bool
        requires { (S.progress self.now.core).stuck ≡ false }
        ensures { result ≡ is_client ((S.Rules.kind (S.given self.now.core).rules).ask
            (reverse (S.progress self.now.core).run)) }
    {
        matches!(self.session.phase(), Phase::Client)
    }

    /// Whether the last event is a moment.
    pub(crate) fn ends_with_moment(&self) -> bool
        ensures { result ≡ spec.ends_with_moment (reverse (S.progress self.now.core).run) }
    {
        ends_with_moment(self.session.events())
    }

    /// Adds a moment of the clock to the events. Nothing is asked.
    pub(crate) fn take_moment(&mut self, moment: i64) -> Result<Option<AttemptEnd>, Stop>
        requires going { (S.progress self.old.core).stuck ≡ false }
        ensures given { S.given self.new.core ≡ S.given self.old.core }
        ensures first { self.new.first ≡ self.old.first }
        ensures asked { self.new.asked ≡ self.old.asked }
        ensures ended { IfErr result (EndsFor (S.Rules.kind (S.given self.old.core).rules)
            (C.members self.old.first) (S.progress self.old.core).run (events.Moment moment)) }
        ensures advances { AdvancesBy (S.Rules.kind (S.given self.old.core).rules) S.records
            (S.progress self.old.core) (events.Moment moment) result (S.progress self.new.core) }
    {
        self.session.advance(SessionEvent::Moment(moment))
    }

    /// Asks once, publishes the step of the event that came, and records it.
    pub(crate) fn ask_once(&mut self) -> Result<Option<AttemptEnd>, Stop>
        ensures given { S.given self.new.core ≡ S.given self.old.core }
        ensures first { self.new.first ≡ self.old.first }
        ensures published { S.publishes (S.publisher self.new.core) (S.given self.new.core).rules
            (S.progress self.new.core).run }
        ensures ended { IfErr result (StopsFor (S.Rules.kind (S.given self.old.core).rules)
            (C.members self.old.first) (S.progress self.old.core).run) }
        ensures goes_on { GoesOn (S.progress self.old.core).run (S.progress self.new.core).run }
        ensures turn { TurnsBy (S.Rules.kind (S.given self.old.core).rules) C.Connector C.Link.Link
            S.records
            (with_core S.progress self.old) result (with_core S.progress self.new) }
    {
        if self.session.is_stuck() {
            return Err(Stop::OutOfMemory);
        }
        let phase = self.session.phase();
        match ask(
            self.alloc,
            &mut self.connector,
            &mut self.link,
            &self.session,
            phase,
        ) {
            Ok(event) => self.session.advance(event),
            Err(OutOfMemory) => {
                self.session.stop();
                Err(Stop::OutOfMemory)
            }
        }
    }

    /// One turn: asks once, and publishes the step of the event that came. Once a turn was
    /// refused, each later one is refused and asks nothing.
    pub fn turn(&mut self) -> Result<Option<AttemptEnd>, OutOfMemory>
        ensures given { S.given self.new.core ≡ S.given self.old.core }
        ensures first { self.new.first ≡ self.old.first }
        ensures published { S.publishes (S.publisher self.new.core) (S.given self.new.core).rules
            (S.progress self.new.core).run }
        ensures yields { (S.progress self.new.core).stuck ≡ false
            → IfSome (C.members self.new.first)
            (YieldsOf (S.Rules.kind (S.given self.new.core).rules)
            C.members C.Link.answers (S.progress self.new.core).run self.new.asked) }
        ensures goes_on { GoesOn (S.progress self.old.core).run (S.progress self.new.core).run }
        ensures turn { TurnsBy (S.Rules.kind (S.given self.old.core).rules) C.Connector C.Link.Link
            S.records
            (with_core S.progress self.old) result (with_core S.progress self.new) }
    {
        let asked = self.ask_once();
        let _ = &self.alloc;
        match asked {
            Ok(end) => Ok(end),
            Err(stop) => {
                drop(stop);
                Err(OutOfMemory)
            }
        }
    }

    /// Takes the session out. Its events are what the asks so far took.
    pub fn split(self) -> (S, Resting<C>)
        ensures session { result.0 ≡ self.core }
        ensures asked { result.1.asked ≡ self.asked }
        ensures first { result.1.first ≡ self.first }
        ensures fed { IsFed (S.Rules.kind (S.given self.core).rules) C.Connector C.Link.Link
            (S.progress self.core) self.asked self.first }
    {
        let SessionFeeder {
            alloc,
            connector,
            link,
            session,
            first,
        } = self;
        let resting = Resting {
            alloc,
            connector,
            link,
            first,
        };
        (session, resting)
    }

    /// Returns the session of a feeder that asks no more. Its connector and its link are dropped.
    pub fn into_session(self) -> S
        ensures session { result ≡ self.core }
        ensures yielded { IfSome (C.members self.first) (λ members. AllYieldedOf
            (S.Rules.kind (S.given self.core).rules) members (reverse (S.progress self.core).run)) }
    {
        let SessionFeeder { session, .. } = self;
        session
    }
}
