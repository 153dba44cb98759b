//! Laws of equality and order, each as the contract of a small function.

ghost use Rattle.std.specs.Prelude.{◌≡◌, ◌↔◌, IsTrue};
ghost use Rattle.std.specs.Ordering.{nat_cmp};
ghost use Rattle.std.specs.Cmp.Lexicographic.{slice_cmp};
ghost use Rattle.spf_id.specs.Id.{id_text};

use crate::spiffe_id::SpiffeId;
use crate::trust_domain::TrustDomain;
use std::cmp::Ordering;

/// Two trust domains are equal exactly where their names are.
pub fn is_same_domain(a: &TrustDomain, b: &TrustDomain) -> bool
    ensures { IsTrue result ↔ (a.now ≡ b.now) }
{
    *a == *b
}

/// Trust domains are in the order of their names.
pub fn domain_order(a: &TrustDomain, b: &TrustDomain) -> Ordering
    ensures { result ≡ slice_cmp nat_cmp a.now b.now }
{
    a.cmp(b)
}

/// Two IDs are equal exactly where their texts are, and then their parts are too.
pub fn is_same_id(a: &SpiffeId, b: &SpiffeId) -> bool
    ensures parts { IsTrue result ↔ (a.now ≡ b.now) }
    ensures text { IsTrue result ↔ (id_text a.now ≡ id_text b.now) }
{
    let _a = a.as_str();
    let _b = b.as_str();
    *a == *b
}

/// IDs are in the order of their texts.
pub fn id_order(a: &SpiffeId, b: &SpiffeId) -> Ordering
    ensures { result ≡ slice_cmp nat_cmp (id_text a.now) (id_text b.now) }
{
    let _a = a.as_str();
    let _b = b.as_str();
    a.cmp(b)
}
