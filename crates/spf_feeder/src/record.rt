//! The record of a supervisor.

ghost use Rattle.std.specs.Prelude.{◌≡◌};
ghost use Rattle.spf_feeder.specs.Records.{IsRecordBy, recorded_of};

use crate::end::SupervisorEnd;
use crate::rules::Governs;
use spf_feed::SessionEvent;
use spf_system::{Closed, Pace};
use std::fmt;
use std::marker::Model;
use std::time::Duration;

/// What came to a supervisor, from the first event of the initial synchronisation on, and what it
/// published by its rules.
#[derive(Drop)]
pub struct Supervised<G: Governs> {
    events: Vec<SessionEvent<G::Item>>,
    steps: Vec<G::Step>,
    rules: G,
    pace: Pace,
    closed: Closed,
}

impl<G: Governs> Model for Supervised<G> {
    ghost use Rattle.spf_feeder.specs.Records.{IsRecordBy, RecordedOf, recorded_of};

    ghost Value = { RecordedOf G G.Item G.Step };

    ghost view = { λ s. recorded_of s.events.items s.steps.items s.rules s.pace s.closed };

    ghost invariant = { λ s. IsRecordBy G.plain G.kind
        (recorded_of s.events.items s.steps.items s.rules s.pace s.closed) };
}

impl<G: Governs> fmt::Debug for Supervised<G> {
    fn fmt<W: fmt::Write>(&self, f: &mut fmt::Formatter<W>) -> fmt::Result {
        write!(f, "Supervised")
    }
}

impl<G: Governs> Supervised<G> {
    /// Returns the record of these events and steps, both oldest first.
    pub fn new(
        events: Vec<SessionEvent<G::Item>>,
        steps: Vec<G::Step>,
        rules: G,
        pace: Pace,
        closed: Closed,
    ) -> Supervised<G>
        requires { IsRecordBy G.plain G.kind
            (recorded_of events.items steps.items rules pace closed) }
        ensures same { result ≡ recorded_of events.items steps.items rules pace closed }
        ensures kept { IsRecordBy G.plain G.kind result }
    {
        Supervised {
            events,
            steps,
            rules,
            pace,
            closed,
        }
    }

    /// Returns the events, oldest first.
    pub fn events(&self) -> &[SessionEvent<G::Item>]
        ensures events { result.now ≡ self.now.run }
        ensures kept { IsRecordBy G.plain G.kind self.now }
    {
        self.events.as_slice()
    }

    /// Returns the steps that were published, oldest first.
    pub fn steps(&self) -> &[G::Step]
        ensures steps { result.now ≡ self.now.steps }
        ensures kept { IsRecordBy G.plain G.kind self.now }
    {
        self.steps.as_slice()
    }

    /// Returns the delays between attempts, oldest first.
    pub fn delays(&self) -> &[Duration]
        ensures { result.now ≡ self.now.pace.delays.items }
    {
        self.pace.delays()
    }

    /// Returns why the supervisor ended.
    pub fn end(&self) -> SupervisorEnd
        ensures { result ≡ SupervisorEnd.Closed }
    {
        SupervisorEnd::Closed
    }
}
