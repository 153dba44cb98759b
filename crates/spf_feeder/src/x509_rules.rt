//! The rules of sessions of X.509 identities.

use crate::rules::Governs;
use spf_api::ContextResponse;
use spf_feed::{MetricsRecord, SessionRules, Step, SvidPicker};

/// The rules of a session, but for its limit of frames.
#[derive(Drop)]
pub struct X509Rules<K: Drop> {
    pub settings: SessionRules,
    /// Chooses among the SVIDs of an update. Without one the first is taken.
    pub picker: Option<K>,
}

impl<K: SvidPicker + Drop> Governs for X509Rules<K> {
    type Item = ContextResponse;

    type Step = Step;

    type Record = MetricsRecord;

    ghost use Rattle.spf_feed.specs.declared.limits.ResourceLimits.{ResourceLimits};
    ghost use Rattle.spf_feed.specs.Steps.{Material, plain};
    ghost use Rattle.spf_feeder.specs.Governed.{kind_by, rules_by};
    ghost use Rattle.spf_feeder.specs.Laws as laws;

    ghost Material = { Material };

    ghost Limits = { ResourceLimits };

    ghost plain = { plain };

    ghost kind = { kind_by K.picks };

    ghost lawful = { λ rules. laws.lawful (rules_by K.picks rules) };
}
