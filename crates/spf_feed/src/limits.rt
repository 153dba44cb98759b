//! How much a context may hold.

ghost use Rattle.std.specs.Prelude.{◌≡◌, None};
ghost use Rattle.spf_feed.specs.Names.{limit_kind_name};
ghost use Rattle.spf_feed.specs.Limits.{within_limit, octets_in, default_limits};
ghost use Rattle.spf_feed.specs.Limits as spec;

use spf_io::Bytes;
use spf_x509::{Certificate, X509BundleSet, X509Context};
use std::fmt;

/// The limits of what a context may hold. `None` means no limit.
#[derive(Clone, Copy, Debug, PartialEq, Eq)]
pub struct ResourceLimits {
    pub max_svids: Option<usize>,
    pub max_bundles: Option<usize>,
    /// How many octets the authorities of one trust domain may have.
    pub max_bundle_der_bytes: Option<usize>,
    /// How many octets all revocation lists may have.
    pub max_crl_bytes: Option<usize>,
}

impl ResourceLimits {
    pub const fn new(
        max_svids: Option<usize>,
        max_bundles: Option<usize>,
        max_bundle_der_bytes: Option<usize>,
        max_crl_bytes: Option<usize>,
    ) -> ResourceLimits
        ensures { result ≡ record {
          max_svids = max_svids;
          max_bundles = max_bundles;
          max_bundle_der_bytes = max_bundle_der_bytes;
          max_crl_bytes = max_crl_bytes;
        } }
    {
        ResourceLimits {
            max_svids,
            max_bundles,
            max_bundle_der_bytes,
            max_crl_bytes,
        }
    }

    pub const fn unlimited() -> ResourceLimits
        ensures { result ≡ record {
          max_svids = None;
          max_bundles = None;
          max_bundle_der_bytes = None;
          max_crl_bytes = None;
        } }
    {
        ResourceLimits::new(None, None, None, None)
    }

    pub const fn default_limits() -> ResourceLimits
        ensures { result ≡ default_limits }
    {
        ResourceLimits::new(Some(100), Some(200), Some(4_194_304), Some(4_194_304))
    }
}

impl Default for ResourceLimits {
    ghost use Rattle.spf_feed.specs.Limits.{default_limits};

    ghost is_default = { λ x. x ≡ default_limits };

    fn default() -> ResourceLimits {
        ResourceLimits::default_limits()
    }
}

/// What is limited.
#[derive(Clone, Copy, Debug, PartialEq, Eq)]
pub enum LimitKind {
    MaxSvids,
    MaxBundles,
    MaxBundleDerBytes,
    MaxCrlBytes,
}

impl LimitKind {
    pub fn as_str(self) -> &'static str
        ensures { result.now ≡ limit_kind_name self }
    {
        match self {
            LimitKind::MaxSvids => "max_svids",
            LimitKind::MaxBundles => "max_bundles",
            LimitKind::MaxBundleDerBytes => "max_bundle_der_bytes",
            LimitKind::MaxCrlBytes => "max_crl_bytes",
        }
    }
}

impl fmt::Display for LimitKind {
    ghost use Rattle.std.specs.Prelude.{Some};
    ghost use Rattle.spf_feed.specs.Names.{limit_kind_name};

    ghost output = { λ k. Some (limit_kind_name k) };

    fn fmt<W: fmt::Write>(&self, f: &mut fmt::Formatter<W>) -> fmt::Result {
        fmt::Display::fmt(self.as_str(), f)
    }
}

/// A limit that was passed, and the amount that passed it.
#[derive(Clone, Copy, Debug, PartialEq, Eq)]
pub struct LimitBroken {
    pub kind: LimitKind,
    pub limit: usize,
    pub actual: usize,
}

/// Checks a limit, which is passed only above its number.
fn within(kind: LimitKind, limit: Option<usize>, actual: usize) -> Result<(), LimitBroken>
    ensures { result ≡ within_limit kind limit actual }
{
    match limit {
        Some(limit) if limit < actual => Err(LimitBroken {
            kind,
            limit,
            actual,
        }),
        _ => Ok(()),
    }
}

/// The octets of some byte fields, stopping at `usize::MAX`.
fn octets_of(fields: &[Bytes]) -> usize
    ensures { result ≡ octets_in fields.now }
{
    let mut total: usize = 0;
    for field in fields {
        total = total.saturating_add(field.as_slice().len());
    }
    total
}

/// The octets of the certificates of a bundle, stopping at `usize::MAX`.
fn certificate_octets(certificates: &[Certificate]) -> usize
    ensures { result ≡ octets_in certificates.now }
{
    let mut total: usize = 0;
    for certificate in certificates {
        total = total.saturating_add(certificate.as_bytes().len());
    }
    total
}

/// Checks the octets of each bundle, in the order of the trust domains.
#[inline(always)]
fn within_bundles(set: &X509BundleSet, limit: Option<usize>) -> Result<(), LimitBroken>
    ensures { result ≡ spec.within_bundles limit set.now }
{
    for (_, bundle) in set.iter() {
        let octets = certificate_octets(bundle.authorities());
        within(LimitKind::MaxBundleDerBytes, limit, octets)?;
    }
    Ok(())
}

/// Checks the limits, and returns the first that is passed: SVIDs, bundles, octets per bundle in
/// the order of the trust domains, then the octets of the revocation lists.
#[inline(always)]
pub fn validate_limits(ctx: &X509Context, limits: ResourceLimits) -> Result<(), LimitBroken>
    ensures { result ≡ spec.within limits ctx.now }
{
    let bundles = ctx.bundle_set();
    within(LimitKind::MaxSvids, limits.max_svids, ctx.svids().len())?;
    within(LimitKind::MaxBundles, limits.max_bundles, bundles.len())?;
    within_bundles(bundles, limits.max_bundle_der_bytes)?;
    within(
        LimitKind::MaxCrlBytes,
        limits.max_crl_bytes,
        octets_of(ctx.crls()),
    )
}
