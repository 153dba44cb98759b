//! The rules of sessions of JWT bundles.

use spf_api::BundlesResponse;
use spf_feeder::Governs;
use spf_jwt::JwtResourceLimits;
use spf_jwt_feed::{JwtMetricsRecord, JwtStep};

/// The rules of a session, but for its limit of frames.
#[derive(Clone, Copy, Debug, PartialEq, Eq)]
pub struct JwtRules {
    pub limits: JwtResourceLimits,
    pub deadline: Option<i64>,
}

impl Governs for JwtRules {
    type Item = BundlesResponse;

    type Step = JwtStep;

    type Record = JwtMetricsRecord;

    ghost use Rattle.spf_jwt.specs.declared.limits.JwtResourceLimits.{JwtResourceLimits};
    ghost use Rattle.spf_jwt_feed.specs.Steps.{BundleSet, plain};
    ghost use Rattle.spf_jwt_source.specs.Governed.{kind_of, rules_of};
    ghost use Rattle.spf_jwt_source.specs.Laws as laws;

    ghost Material = { BundleSet };

    ghost Limits = { JwtResourceLimits };

    ghost plain = { plain };

    ghost kind = { kind_of };

    ghost lawful = { λ rules. laws.lawful (rules_of rules) };
}
