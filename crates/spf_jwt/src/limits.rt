//! How much a bundle set may hold.

ghost use Rattle.std.specs.Prelude.{◌≡◌, None};
ghost use Rattle.spf_jwt.specs.Limits.{default_limits, limit_kind_name, octets_in, within_limit};
ghost use Rattle.spf_jwt.specs.Limits as spec;

use crate::bundle::JwtBundle;
use crate::bundle_set::JwtBundleSet;
use std::fmt;

/// The limits of what a bundle set may hold. `None` means no limit.
#[derive(Clone, Copy, Debug, PartialEq, Eq)]
pub struct JwtResourceLimits {
    pub max_bundles: Option<usize>,
    /// How many octets the keys of one trust domain may have.
    pub max_bundle_jwks_bytes: Option<usize>,
}

impl JwtResourceLimits {
    pub const fn new(
        max_bundles: Option<usize>,
        max_bundle_jwks_bytes: Option<usize>,
    ) -> JwtResourceLimits
        ensures { result ≡ record {
          max_bundles = max_bundles;
          max_bundle_jwks_bytes = max_bundle_jwks_bytes;
        } }
    {
        JwtResourceLimits {
            max_bundles,
            max_bundle_jwks_bytes,
        }
    }

    pub const fn unlimited() -> JwtResourceLimits
        ensures { result ≡ record { max_bundles = None; max_bundle_jwks_bytes = None } }
    {
        JwtResourceLimits::new(None, None)
    }

    pub const fn default_limits() -> JwtResourceLimits
        ensures { result ≡ default_limits }
    {
        JwtResourceLimits::new(Some(200), Some(4_194_304))
    }
}

impl Default for JwtResourceLimits {
    ghost use Rattle.spf_jwt.specs.Limits.{default_limits};

    ghost is_default = { λ x. x ≡ default_limits };

    fn default() -> JwtResourceLimits {
        JwtResourceLimits::default_limits()
    }
}

/// What is limited.
#[derive(Clone, Copy, Debug, PartialEq, Eq, Hash)]
pub enum JwtLimitKind {
    MaxBundles,
    MaxBundleJwksBytes,
}

impl JwtLimitKind {
    pub fn as_str(self) -> &'static str
        ensures { result.now ≡ limit_kind_name self }
    {
        match self {
            JwtLimitKind::MaxBundles => "max_bundles",
            JwtLimitKind::MaxBundleJwksBytes => "max_bundle_jwks_bytes",
        }
    }
}

impl fmt::Display for JwtLimitKind {
    ghost use Rattle.std.specs.Prelude.{Some};
    ghost use Rattle.spf_jwt.specs.Limits.{limit_kind_name};

    ghost output = { λ k. Some (limit_kind_name k) };

    fn fmt<W: fmt::Write>(&self, f: &mut fmt::Formatter<W>) -> fmt::Result {
        fmt::Display::fmt(self.as_str(), f)
    }
}

/// A limit that was passed, and the amount that passed it.
#[derive(Clone, Copy, Debug, PartialEq, Eq)]
pub struct JwtLimitBroken {
    pub kind: JwtLimitKind,
    pub limit: usize,
    pub actual: usize,
}

/// Checks a limit, which is passed only above its number.
fn within(kind: JwtLimitKind, limit: Option<usize>, actual: usize) -> Result<(), JwtLimitBroken>
    ensures { result ≡ within_limit kind limit actual }
{
    match limit {
        Some(limit) if limit < actual => Err(JwtLimitBroken {
            kind,
            limit,
            actual,
        }),
        _ => Ok(()),
    }
}

/// The octets of the keys of a bundle, stopping at `usize::MAX`.
fn key_octets(bundle: &JwtBundle) -> usize
    ensures { result ≡ octets_in bundle.now.authorities }
{
    let mut total: usize = 0;
    for authority in bundle.jwt_authorities() {
        total = total.saturating_add(authority.jwk_json().len());
    }
    total
}

/// Checks the octets of each bundle, in the order of the trust domains.
fn within_bundles(set: &JwtBundleSet, limit: Option<usize>) -> Result<(), JwtLimitBroken>
    ensures { result ≡ spec.within_bundles limit set.now }
{
    for (_, bundle) in set.iter() {
        within(JwtLimitKind::MaxBundleJwksBytes, limit, key_octets(bundle))?;
    }
    Ok(())
}

/// Checks the limits, and returns the first that is passed: bundles, then octets per bundle in the
/// order of the trust domains.
#[tactic(auto, unfolding(crate::specs::Limits::within))]
pub fn validate_jwt_limits(
    set: &JwtBundleSet,
    limits: JwtResourceLimits,
) -> Result<(), JwtLimitBroken>
    ensures { result ≡ spec.within limits set.now }
{
    within(JwtLimitKind::MaxBundles, limits.max_bundles, set.len())?;
    within_bundles(set, limits.max_bundle_jwks_bytes)
}
