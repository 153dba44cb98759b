//! Sources of identities and bundles.

ghost use Rattle.std.specs.Prelude.{ℕ, ℤ, List, Option, IfOk};
ghost use Rattle.std.specs.Option.{option_map};
ghost use Rattle.std.specs.Arc.{arc_value};

use spf_id::TrustDomain;
use std::sync::Arc;

/// A source of bundles. Each call is lent what the reader has seen of the source.
pub trait BundleSource {
    type Item;

    type Error;

    type Seen;

    // What a reader has seen fits the source: it is of this source, and of no other.
    ghost fits: { Self → Self.Seen → Type 0 };
    // What the source returns for the name of a trust
    // domain to a reader that has seen this much of it.
    ghost answers: { Self → Self.Seen → List ℕ → Option Self.Item → Type 0 };

    /// Returns a share of the bundle of that trust domain.
    fn bundle_for_trust_domain(
        &self,
        seen: &mut Self::Seen,
        trust_domain: &TrustDomain,
    ) -> Result<Option<Arc<Self::Item>>, Self::Error>
        requires { fits self.now seen.old }
        ensures fits { fits self.now seen.new }
        ensures answer { IfOk result
            (λ o. answers self.now seen.new trust_domain.now (option_map arc_value o)) };
}

/// A source of the current SVID. Each call is lent what the reader has seen of the source.
pub trait SvidSource {
    type Item;

    type Error;

    type Seen;

    // What a reader has seen fits the source: it is of this source, and of no other.
    ghost fits: { Self → Self.Seen → Type 0 };
    // What the source returns for a moment to a reader that has seen this much of it.
    ghost answers: { Self → Self.Seen → Option ℤ → Self.Item → Type 0 };

    /// Returns a share of the SVID that is current at that moment, in Unix seconds.
    fn svid(&self, seen: &mut Self::Seen, now: Option<i64>) -> Result<Arc<Self::Item>, Self::Error>
        requires { fits self.now seen.old }
        ensures fits { fits self.now seen.new }
        ensures answer { IfOk result (λ a. answers self.now seen.new now (arc_value a)) };
}
