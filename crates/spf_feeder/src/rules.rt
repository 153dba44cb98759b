//! The rules by which a session goes, of whatever kind it is.

/// Rules of sessions: all that a session publishes follows from them and from its events. Their
/// type says what the items of the sessions, their steps and their records are.
pub trait Governs: Drop {
    type Item: Drop;

    type Step: Drop;

    type Record;

    ghost use Rattle.spf_view.specs.Steps.{Step};
    ghost use Rattle.spf_feed.specs.declared.step.Denial.{Denial};
    ghost use Rattle.spf_feeder.specs.Kinds.{IsLawful, Kind};

    // The material of an accepted item, and its limits.
    ghost Material: { Type 0 };

    ghost Limits: { Type 0 };

    // A step without its sharing.
    ghost plain: { Self.Step → Step Material Limits Denial };

    // The kind of session.
    ghost kind: { Self → Kind Self.Item Material Limits Self.Record };

    ghost lawful: { (rules : Self) → IsLawful (kind rules) };
}
