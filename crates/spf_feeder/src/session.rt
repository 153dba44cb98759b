//! What a feeder feeds: sessions of any kind.

use crate::rules::Governs;
use spf_api::Response;
use spf_feed::{Phase, SessionEvent, Terminal};
use spf_io::OutOfMemory;
use spf_link::Request;
use spf_system::AttemptEnd;
use std::snapshot;

/// Why a run goes no further.
#[derive(Debug, PartialEq, Eq, Drop)]
pub enum Stop {
    /// A terminal event came before anything was accepted.
    Terminal(Terminal),
    OutOfMemory,
}

impl From<OutOfMemory> for Stop {
    ghost use Rattle.std.specs.Prelude.{◌≡◌};
    ghost use Rattle.spf_feeder.specs.declared.session.Stop.TheVariants as stops;

    ghost from_gives = { λ _ s. s ≡ stops.OutOfMemory };

    fn from(_e: OutOfMemory) -> Stop {
        Stop::OutOfMemory
    }
}

/// What is left of a session.
#[derive(Drop)]
pub struct SessionParts<P: Drop, G: Governs> {
    pub publisher: P,
    /// The events, oldest first.
    pub events: Vec<SessionEvent<G::Item>>,
    pub rules: G,
}

/// What a response of the stream of a session holds.
pub type ItemOf<S> = <<S as Session>::Rules as Governs>::Item;

/// The events so far, with all that they publish and record. Once an event was refused it takes
/// none.
pub trait Session: Drop {
    /// Its rules, which say what its items and its steps are.
    type Rules: Governs;
    /// What its steps are handed to.
    type Publisher: Drop;

    ghost use Rattle.std.specs.Prelude.{◌≡◌, ◌||◌, true, false, [], List, Option, reverse};
    ghost use Rattle.spf_view.specs.Views.{has_synced};
    ghost use Rattle.spf_feed.specs.declared.event.SessionEvent.{SessionEvent};
    ghost use Rattle.spf_link.specs.Metadata.{with_metadata};
    ghost use Rattle.spf_feeder.specs.Kept.{AdvancesBy, Given, Progress};
    ghost use Rattle.spf_feeder.specs.Orderly.{IsOrderlyOf, does_answer, is_moment};

    // What records, and its records so far, where it says so.
    ghost Recorder: { Type 0 };

    ghost records: { Recorder → Option (List Self.Rules.Record) };

    // What no event changes.
    ghost given: { Self → Given Self.Rules };

    // The events so far.
    ghost progress: { Self → Progress Recorder Self.Rules.Item };

    ghost publisher: { Self → Self.Publisher };

    // A publisher has exactly the steps of these events, by these rules.
    ghost publishes: { Self.Publisher → Self.Rules → List (SessionEvent Self.Rules.Item)
        → Type 0 };

    /// Whether it takes no further event.
    fn is_stuck(&self) -> bool
        ensures stuck { result ≡ (progress self.now).stuck }
        ensures published { publishes (publisher self.now) (given self.now).rules
            (progress self.now).run };

    /// Returns what is asked next.
    fn phase(&self) -> Phase
        requires { (progress self.now).stuck ≡ false }
        ensures { result ≡ (Self.Rules.kind (given self.now).rules).ask
            (reverse (progress self.now).run) };

    /// Whether an item was accepted.
    fn is_synced(&self) -> bool
        requires { (progress self.now).stuck ≡ false }
        ensures synced { result ≡ has_synced (Self.Rules.kind (given self.now).rules).subject
            (reverse (progress self.now).run) }
        ensures orderly { IsOrderlyOf (Self.Rules.kind (given self.now).rules)
            (reverse (progress self.now).run) };

    /// Returns the events so far, oldest first.
    fn events(&self) -> &[SessionEvent<ItemOf<Self>>]
        ensures { result.now ≡ (progress self.now).run };

    /// Returns the events so far, which contracts alone see.
    fn noted_events(&self) -> snapshot::Snapshot<Vec<SessionEvent<ItemOf<Self>>>>
        ensures { result.value.items ≡ (progress self.now).run };

    /// Returns its rules.
    fn rules(&self) -> &Self::Rules
        ensures { result.now ≡ (given self.now).rules };

    /// Returns its publisher, which has exactly the steps of the events.
    fn publisher(&self) -> &Self::Publisher
        ensures publisher { result.now ≡ publisher self.now }
        ensures published { publishes (publisher self.now) (given self.now).rules
            (progress self.now).run };

    /// Returns the request that starts its stream.
    fn request(&self) -> Request
        ensures { (record { headers = with_metadata []; request = result })
            ≡ (Self.Rules.kind (given self.now).rules).wanted.start };

    /// Returns the item that a response holds, where it is of the kind that is asked for.
    fn item_of(&self, response: Response) -> Option<ItemOf<Self>>
        ensures { result ≡ (Self.Rules.kind (given self.now).rules).wanted.item response };

    /// Takes no further event.
    fn stop(&mut self)
        ensures given { given self.new ≡ given self.old }
        ensures unchanged { progress self.new ≡ record (progress self.old) { stuck = true } }
        ensures published { publishes (publisher self.new) (given self.new).rules
            (progress self.new).run };

    /// Takes one more event: its step is published, then it is added to the events, then its
    /// records are recorded.
    fn advance(&mut self, event: SessionEvent<ItemOf<Self>>) -> Result<Option<AttemptEnd>, Stop>
        requires going { (progress self.old).stuck ≡ false }
        requires fits { (is_moment event || does_answer
            ((Self.Rules.kind (given self.old).rules).ask (reverse (progress self.old).run)) event)
            ≡ true }
        ensures given { given self.new ≡ given self.old }
        ensures published { publishes (publisher self.new) (given self.new).rules
            (progress self.new).run }
        ensures orderly { IsOrderlyOf (Self.Rules.kind (given self.new).rules)
            (reverse (progress self.new).run) }
        ensures advances { AdvancesBy (Self.Rules.kind (given self.old).rules) records
            (progress self.old) event result (progress self.new) };

    /// Returns what is left of a session that goes no further.
    fn into_parts(self) -> SessionParts<Self::Publisher, Self::Rules>
        ensures publisher { result.publisher ≡ publisher self }
        ensures events { result.events.items ≡ (progress self).run }
        ensures rules { result.rules ≡ (given self).rules }
        ensures published { publishes (publisher self) (given self).rules (progress self).run }
        ensures orderly { IsOrderlyOf (Self.Rules.kind (given self).rules)
            (reverse (progress self).run) };
}
