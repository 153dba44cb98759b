//! The SVIDs and bundles of entries. What was read before
//! from the same bytes is shared, and not read again.

ghost use Rattle.std.specs.Prelude.{◌≡◌, IfSome, IsTrue, Ok};
ghost use Rattle.std.specs.Arc.{arc_value};
ghost use Rattle.std.specs.Option.{option_map};
ghost use Rattle.spf_io.specs.Rule.{Gives};
ghost use Rattle.spf_x509.specs.BundleRule.{bundle_of};
ghost use Rattle.spf_x509.specs.Chain.{authorities_rule};
ghost use Rattle.spf_api.specs.Errors.{is_memory_api};
ghost use Rattle.spf_api.specs.Views.{svid_entry_of};
ghost use Rattle.spf_api.specs.Parsed.{hint_rule, svid_of_entry, bundle_for};

use crate::error::WorkloadApiError;
use crate::response::SvidEntryView;
use spf_id::TrustDomain;
use spf_x509::{X509Bundle, X509Context, X509Svid};
use std::alloc::Global;
use std::sync::Arc;

/// The hint of an entry, where an empty one counts as none.
fn hint_of(hint: &str) -> Option<&str>
    ensures { option_map (λ t. t.now) result ≡ hint_rule hint.now }
{
    if hint.is_empty() { None } else { Some(hint) }
}

/// Reads the SVID of an entry.
#[tactic(auto, unfolding(crate::specs::Parsed::svid_of_entry))]
pub(crate) fn parse_svid(
    alloc: Global,
    entry: &SvidEntryView<'_>,
) -> Result<X509Svid, WorkloadApiError>
    ensures { Gives is_memory_api (λ s. s) result (svid_of_entry (svid_entry_of entry.now)) }
{
    let hint = hint_of(entry.hint);
    Ok(X509Svid::parse(alloc, entry.x509_svid, entry.x509_svid_key, hint, None)?)
}

/// Reads the SVID of an entry. Certificates after the leaf that
/// are those of `near`, and the ID of `known`, are not read again.
#[tactic(auto, unfolding(crate::specs::Parsed::svid_of_entry))]
fn parse_shared(
    alloc: Global,
    entry: &SvidEntryView<'_>,
    near: Option<&X509Svid>,
    known: Option<&X509Svid>,
) -> Result<Arc<X509Svid>, WorkloadApiError>
    ensures { Gives is_memory_api arc_value result (svid_of_entry (svid_entry_of entry.now)) }
{
    Ok(X509Svid::parse_shared(
        alloc,
        entry.x509_svid,
        entry.x509_svid_key,
        hint_of(entry.hint),
        near,
        known,
    )?)
}

/// Whether the SVID was read from the bytes of the entry.
#[inline(always)]
#[tactic(auto, unfolding(crate::specs::Parsed::svid_of_entry))]
fn is_svid_of(svid: &X509Svid, entry: &SvidEntryView<'_>) -> bool
    ensures { IsTrue result → svid_of_entry (svid_entry_of entry.now) ≡ Ok svid.now }
{
    svid.is_parsed_from(entry.x509_svid, entry.x509_svid_key, hint_of(entry.hint))
}

/// Returns the SVID, where it was read from the bytes of the entry.
#[inline(always)]
fn read_from<'a>(
    svid: Option<&'a Arc<X509Svid>>,
    entry: &SvidEntryView<'_>,
) -> Option<&'a Arc<X509Svid>>
    ensures { IfSome result (λ s. svid_of_entry (svid_entry_of entry.now) ≡ Ok (arc_value s.now)) }
{
    match svid {
        Some(svid) => {
            if is_svid_of(svid, entry) {
                Some(svid)
            } else {
                None
            }
        }
        None => None,
    }
}

/// Returns the SVID, where it has the ID of the entry.
#[inline(always)]
fn named_as<'a>(
    svid: Option<&'a Arc<X509Svid>>,
    entry: &SvidEntryView<'_>,
) -> Option<&'a Arc<X509Svid>> {
    match svid {
        Some(svid) => {
            if svid.spiffe_id().as_str() == entry.spiffe_id {
                Some(svid)
            } else {
                None
            }
        }
        None => None,
    }
}

/// Returns the SVID of the held context that has the ID of the entry, at that index or beside it.
/// An agent sends the SVIDs of a workload in an order that may change.
pub(crate) fn known_svid<'a>(
    held: Option<&'a X509Context>,
    index: usize,
    entry: &SvidEntryView<'_>,
) -> Option<&'a Arc<X509Svid>> {
    let svids = held?.svids();
    if let Some(svid) = named_as(svids.get(index), entry) {
        return Some(svid);
    }
    if let Some(svid) = named_as(svids.get(index.saturating_add(1)), entry) {
        return Some(svid);
    }
    named_as(svids.get(index.saturating_sub(1)), entry)
}

/// Returns the last of the SVIDs, or else the first of the held context. The certificates after its
/// leaf most often follow the leaf of the next SVID too.
pub(crate) fn near_svid<'a>(
    svids: &'a [Arc<X509Svid>],
    held: Option<&'a X509Context>,
) -> Option<&'a X509Svid> {
    match svids.last() {
        Some(svid) => Some(svid),
        None => match held?.svids().first() {
            Some(svid) => Some(svid),
            None => None,
        },
    }
}

/// What is known of an SVID, if anything is.
fn value_of(svid: Option<&Arc<X509Svid>>) -> Option<&X509Svid> {
    match svid {
        Some(svid) => Some(svid),
        None => None,
    }
}

/// Returns the SVID of an entry, which is `known` where that was read from the same bytes.
/// Certificates after its leaf that are those of `near`, and the ID and the key of `known`, are not
/// read again.
pub(crate) fn shared_svid(
    alloc: Global,
    entry: &SvidEntryView<'_>,
    near: Option<&X509Svid>,
    known: Option<&Arc<X509Svid>>,
) -> Result<Arc<X509Svid>, WorkloadApiError>
    ensures { Gives is_memory_api arc_value result (svid_of_entry (svid_entry_of entry.now)) }
{
    match read_from(known, entry) {
        Some(svid) => Ok(Arc::try_clone(svid)?),
        None => parse_shared(alloc, entry, near, value_of(known)),
    }
}

/// Reads the bundle of a trust domain.
#[tactic(auto, unfolding(crate::specs::Parsed::bundle_for))]
pub(crate) fn parse_bundle(
    alloc: Global,
    trust_domain: &TrustDomain,
    der: &[u8],
) -> Result<X509Bundle, WorkloadApiError>
    ensures { Gives is_memory_api (λ b. b) result (bundle_for trust_domain.now der.now) }
{
    let trust_domain = trust_domain.try_clone(alloc)?;
    Ok(X509Bundle::parse_from_der(alloc, trust_domain, der)?)
}

/// Reads the bundle of a trust domain, to be shared. It stands apart, since what is held is most
/// often the same.
#[inline(never)]
#[tactic(auto, unfolding(crate::specs::Parsed::bundle_for))]
fn read_shared_bundle(
    alloc: Global,
    trust_domain: &TrustDomain,
    der: &[u8],
) -> Result<Arc<X509Bundle>, WorkloadApiError>
    ensures { Gives is_memory_api arc_value result (bundle_for trust_domain.now der.now) }
{
    let trust_domain = trust_domain.try_clone(alloc)?;
    Ok(X509Bundle::parse_shared(alloc, trust_domain, der)?)
}

/// Returns the bundle, where it is that of the trust domain and was read from these bytes.
#[inline(always)]
fn bundle_read_from<'a>(
    bundle: Option<&'a Arc<X509Bundle>>,
    trust_domain: &TrustDomain,
    der: &[u8],
) -> Option<&'a Arc<X509Bundle>>
    ensures { IfSome result
        (λ b. bundle_of trust_domain.now (authorities_rule der.now) ≡ Ok (arc_value b.now)) }
{
    match bundle {
        Some(bundle) => {
            if bundle.is_parsed_from(trust_domain, der) {
                Some(bundle)
            } else {
                None
            }
        }
        None => None,
    }
}

/// Returns the bundle of a trust domain, which is
/// the held one where that was read from the same bytes.
#[inline(always)]
#[tactic(auto, unfolding(crate::specs::Parsed::bundle_for))]
pub(crate) fn shared_bundle(
    alloc: Global,
    trust_domain: &TrustDomain,
    der: &[u8],
    held: Option<&Arc<X509Bundle>>,
) -> Result<Arc<X509Bundle>, WorkloadApiError>
    ensures { Gives is_memory_api arc_value result (bundle_for trust_domain.now der.now) }
{
    match bundle_read_from(held, trust_domain, der) {
        Some(bundle) => Ok(Arc::try_clone(bundle)?),
        None => read_shared_bundle(alloc, trust_domain, der),
    }
}
