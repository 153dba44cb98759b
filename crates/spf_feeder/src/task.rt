//! What a supervisor is given, as contracts see it.

use crate::done::SupervisorDone;
use crate::finishes::Finishes;
use crate::rules::Governs;
use crate::session::Session;
use spf_board::{Front, Shows};
use spf_feed::SessionEvent;
use spf_system::{Pace, Watch};
use std::marker::Model;
use std::snapshot::Snapshot;
use std::thread::Promise;

/// What a supervisor is given, its connector aside. Contracts alone see it. It is a promise about
/// what a thread that runs the job leaves.
#[derive(Drop)]
pub struct Task<K: Shows, G: Governs> {
    pub(crate) front: Snapshot<Front<K>>,
    pub(crate) watch: Snapshot<Watch>,
    pub(crate) events: Snapshot<Vec<SessionEvent<G::Item>>>,
    pub(crate) rules: Snapshot<G>,
    pub(crate) pace: Snapshot<Pace>,
}

impl<K: Shows, G: Governs> Model for Task<K, G> {
    ghost use Rattle.spf_feeder.specs.Records.{AssignedOf, assigned};

    ghost Value = { AssignedOf (Unit {0}) G G.Item };

    ghost view = { λ t. assigned t.front.value.book t.watch.value t.events.value.items
        t.rules.value t.pace.value.bounds tt };
}

impl<K: Shows, S: Session> Promise<SupervisorDone<K, S>> for Task<K, S::Rules>
where
    S::Publisher: Finishes<K, S>,
{
    ghost use Rattle.spf_feeder.specs.Connectors.{unyielded};
    ghost use Rattle.spf_feeder.specs.Records.{IsLeftByOf};

    ghost kept_by = { λ task done. IsLeftByOf unyielded S.Rules.kind S.Rules.plain
        S.Publisher.shown task done };
}
