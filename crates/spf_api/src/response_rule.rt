//! The meaning of a response: its SVIDs, bundles and CRLs, or the first rule that it breaks.

ghost use Rattle.std.specs.Prelude.{◌≡◌, map, IfSome, IsTrue, MatchBool, Ok};
ghost use Rattle.std.specs.Arc.{arc_value};
ghost use Rattle.spf_io.specs.Rule.{Gives, each};
ghost use Rattle.spf_id.specs.Rule.{name_rule};
ghost use Rattle.spf_x509.specs.Bundle.{with_bundles};
ghost use Rattle.spf_api.specs.Errors.{is_memory_api};
ghost use Rattle.spf_api.specs.Views.{svid_entry_of, bundle_entry_of, context_of};
ghost use Rattle.spf_api.specs.Parsed.{required, bundle_required, fields_required, kept_by_each};
ghost use Rattle.spf_api.specs.Parsed.{entries_rule};
ghost use Rattle.spf_api.specs.Parsed.{pair_of, named_bundle_of, svids_in, brought_to};
ghost use Rattle.spf_api.specs.Parsed.{bundle_for, with_bundle, with_material};
ghost use Rattle.spf_api.specs.Parsed.{read_as, parsed_of, svids_of, first_svid_of, bundle_set_of};
ghost use Rattle.spf_api.specs.Sharing.{IsLastDomain, IsLastIn};

use crate::entry::{to_entries, views_of};
use crate::error::WorkloadApiError;
use crate::response::{
    BundleEntryView, BundlesResponse, ContextResponse, ContextView, SvidEntry, SvidEntryView,
};
use crate::sharing::{known_svid, near_svid, parse_bundle, parse_svid, shared_bundle, shared_svid};
use crate::views::context_view;
use spf_id::TrustDomain;
use spf_io::{OutOfMemory, Text};
use spf_x509::{X509Bundle, X509BundleIter, X509BundleSet, X509Context, X509Svid};
use std::alloc::Global;
use std::sync::Arc;

fn missing(alloc: Global, field: &str) -> WorkloadApiError
    ensures { MatchBool (is_memory_api result) (Unit {0})
        (result ≡ WorkloadApiError.MissingRequiredField field.now) }
{
    match Text::copy_of(alloc, field) {
        Ok(field) => WorkloadApiError::MissingRequiredField { field },
        Err(OutOfMemory) => WorkloadApiError::OutOfMemory,
    }
}

#[tactic(auto, unfolding(crate::specs::Parsed::required))]
fn require(alloc: Global, octets: &[u8], field: &str) -> Result<(), WorkloadApiError>
    ensures { Gives is_memory_api (λ _. tt) result (required octets.now field.now) }
{
    if octets.is_empty() {
        return Err(missing(alloc, field));
    }
    Ok(())
}

#[tactic(auto, unfolding(crate::specs::Parsed::bundle_required))]
fn check_bundle(alloc: Global, entry: &SvidEntryView<'_>) -> Result<(), WorkloadApiError>
    ensures { Gives is_memory_api (λ _. tt) result (bundle_required (svid_entry_of entry.now)) }
{
    require(alloc, entry.bundle, "X509SVID.bundle")
}

fn check_bundles(alloc: Global, entries: &[SvidEntryView<'_>]) -> Result<(), WorkloadApiError>
    ensures { Gives is_memory_api (λ _. tt) result
        (kept_by_each bundle_required (map svid_entry_of entries.now)) }
{
    for entry in entries {
        check_bundle(alloc, entry)?;
    }
    Ok(())
}

#[tactic(auto, unfolding(crate::specs::Parsed::fields_required))]
fn check_fields(alloc: Global, entry: &SvidEntryView<'_>) -> Result<(), WorkloadApiError>
    ensures { Gives is_memory_api (λ _. tt) result (fields_required (svid_entry_of entry.now)) }
{
    require(alloc, entry.spiffe_id.as_bytes(), "X509SVID.spiffe_id")?;
    require(alloc, entry.x509_svid, "X509SVID.x509_svid")?;
    require(alloc, entry.x509_svid_key, "X509SVID.x509_svid_key")
}

fn check_all_fields(alloc: Global, entries: &[SvidEntryView<'_>]) -> Result<(), WorkloadApiError>
    ensures { Gives is_memory_api (λ _. tt) result
        (kept_by_each fields_required (map svid_entry_of entries.now)) }
{
    for entry in entries {
        check_fields(alloc, entry)?;
    }
    Ok(())
}

/// Whether the entry lacks no field.
#[tactic(auto, unfolding(crate::specs::Parsed::required, crate::specs::Parsed::bundle_required, crate::specs::Parsed::fields_required))]
fn is_complete(entry: &SvidEntryView<'_>) -> bool
    ensures bundle { IsTrue result → bundle_required (svid_entry_of entry.now) ≡ Ok tt }
    ensures fields { IsTrue result → fields_required (svid_entry_of entry.now) ≡ Ok tt }
{
    !entry.bundle.is_empty()
        && !entry.spiffe_id.as_bytes().is_empty()
        && !entry.x509_svid.is_empty()
        && !entry.x509_svid_key.is_empty()
}

/// Whether there is an SVID, and no entry lacks a field.
fn are_complete(entries: &[SvidEntryView<'_>]) -> bool
    ensures { IsTrue result → entries_rule (map svid_entry_of entries.now) ≡ Ok tt }
{
    if entries.is_empty() {
        return false;
    }
    for entry in entries {
        if !is_complete(entry) {
            return false;
        }
    }
    true
}

/// The first thing that the entries lack, if anything.
#[inline(never)]
#[tactic(auto, unfolding(crate::specs::Parsed::entries_rule))]
fn first_missing(alloc: Global, entries: &[SvidEntryView<'_>]) -> Result<(), WorkloadApiError>
    ensures { Gives is_memory_api (λ _. tt) result (entries_rule (map svid_entry_of entries.now)) }
{
    if entries.is_empty() {
        return Err(missing(alloc, "X509SVIDResponse.svids"));
    }
    check_bundles(alloc, entries)?;
    check_all_fields(alloc, entries)
}

/// Checks that there is an SVID, and that no entry lacks a field.
fn check_entries(alloc: Global, entries: &[SvidEntryView<'_>]) -> Result<(), WorkloadApiError>
    ensures { Gives is_memory_api (λ _. tt) result (entries_rule (map svid_entry_of entries.now)) }
{
    if are_complete(entries) {
        return Ok(());
    }
    first_missing(alloc, entries)
}

/// The held context's bundle of the trust domain.
fn held_bundle<'a>(
    held: Option<&'a X509Context>,
    trust_domain: &TrustDomain,
) -> Option<&'a Arc<X509Bundle>> {
    held?.bundle_set().get_ref(trust_domain)
}

/// The held context's bundles, in order.
fn held_bundles<'a>(held: Option<&'a X509Context>) -> Option<X509BundleIter<'a>> {
    match held {
        Some(held) => Some(held.bundle_set().iter()),
        None => None,
    }
}

/// Whether the last of the SVIDs is of that trust domain.
fn is_last_domain(svids: &[Arc<X509Svid>], trust_domain: &TrustDomain) -> bool
    ensures { IsTrue result → IsLastDomain svids.now trust_domain.now }
{
    match svids.last() {
        Some(svid) => *trust_domain == *svid.spiffe_id().trust_domain(),
        None => false,
    }
}

/// Adds the bundle of a trust domain to the set, where it is not there yet.
fn add_other_bundle(
    alloc: Global,
    trust_domain: &TrustDomain,
    der: &[u8],
    bundles: &mut X509BundleSet,
    held: Option<&X509Context>,
) -> Result<(), WorkloadApiError>
    ensures { Gives is_memory_api (λ _. bundles.new) result
        (read_as (with_bundle bundles.old) (bundle_for trust_domain.now der.now)) }
{
    if bundles.holds_parsed(trust_domain, der) {
        return Ok(());
    }
    let held = held_bundle(held, trust_domain);
    let bundle = shared_bundle(alloc, trust_domain, der, held)?;
    bundles.add_shared(bundle)?;
    Ok(())
}

/// Adds the bundle of a trust domain to the set, in which the last of the SVIDs has its bundle, the
/// bytes `last`. The entries of a trust domain most often have the same bundle.
fn add_bundle(
    alloc: Global,
    trust_domain: &TrustDomain,
    der: &[u8],
    svids: &[Arc<X509Svid>],
    last: &[u8],
    bundles: &mut X509BundleSet,
    held: Option<&X509Context>,
) -> Result<(), WorkloadApiError>
    requires { IsLastIn svids.now last.now bundles.old }
    ensures { Gives is_memory_api (λ _. bundles.new) result
        (read_as (with_bundle bundles.old) (bundle_for trust_domain.now der.now)) }
{
    if der == last && is_last_domain(svids, trust_domain) {
        return Ok(());
    }
    add_other_bundle(alloc, trust_domain, der, bundles, held)
}

/// The SVID of an entry. The bundle of its trust domain is added to the set, in which the last of
/// the SVIDs before it has its bundle, the bytes `last`.
fn shared_material(
    alloc: Global,
    entry: &SvidEntryView<'_>,
    svids: &[Arc<X509Svid>],
    last: &[u8],
    bundles: &mut X509BundleSet,
    held: Option<&X509Context>,
) -> Result<Arc<X509Svid>, WorkloadApiError>
    requires { IsLastIn svids.now last.now bundles.old }
    ensures { Gives is_memory_api (λ svid. (arc_value svid, bundles.new)) result
        (read_as (with_material bundles.old) (pair_of (svid_entry_of entry.now))) }
{
    let known = known_svid(held, svids.len(), entry);
    let svid = shared_svid(alloc, entry, near_svid(svids, held), known)?;
    let trust_domain = svid.spiffe_id().trust_domain();
    add_bundle(
        alloc,
        trust_domain,
        entry.bundle,
        svids,
        last,
        bundles,
        held,
    )?;
    Ok(svid)
}

/// The SVIDs in order. Their bundles are added to the set.
fn shared_svids(
    alloc: Global,
    entries: &[SvidEntryView<'_>],
    bundles: &mut X509BundleSet,
    held: Option<&X509Context>,
) -> Result<Vec<Arc<X509Svid>>, WorkloadApiError>
    ensures { Gives is_memory_api (λ v. (map arc_value v.items, bundles.new)) result
        (read_as (brought_to bundles.old)
        (each pair_of (map svid_entry_of entries.now))) }
{
    let mut svids = Vec::with_capacity(alloc, entries.len())?;
    let mut last: &[u8] = &[];
    for entry in entries {
        let svid = shared_material(alloc, entry, svids.as_slice(), last, bundles, held)?;
        svids.push(svid)?;
        last = entry.bundle;
    }
    Ok(svids)
}

/// A trust domain of the held context, and its bundle.
type NamedBundle<'a> = (&'a TrustDomain, &'a Arc<X509Bundle>);

/// The bundle of the held context that the name names, where it is one of the next two, which are
/// taken from `left`. An agent sends bundles most often in the order of their trust domains.
fn near_bundle<'a>(left: &mut Option<X509BundleIter<'a>>, name: &str) -> Option<NamedBundle<'a>>
    ensures { IfSome result (λ near. name_rule name.now ≡ Ok near.0.now) }
{
    let left = left.as_mut()?;
    let (first, bundle) = left.next()?;
    if first.is_named(name) {
        return Some((first, bundle));
    }
    let (second, bundle) = left.next()?;
    if second.is_named(name) {
        return Some((second, bundle));
    }
    None
}

/// The bundle of the trust domain that the entry names, which is shared with the held one where it
/// is the same: with `near`, or with another of the held context.
#[tactic(auto, unfolding(crate::specs::Parsed::named_bundle_of))]
fn named_bundle(
    alloc: Global,
    entry: &BundleEntryView<'_>,
    near: Option<NamedBundle<'_>>,
    held: Option<&X509Context>,
) -> Result<Arc<X509Bundle>, WorkloadApiError>
    requires { IfSome near (λ near. name_rule entry.now.name.now ≡ Ok near.0.now) }
    ensures { Gives is_memory_api arc_value result (named_bundle_of (bundle_entry_of entry.now)) }
{
    if let Some((trust_domain, held)) = near {
        return shared_bundle(alloc, trust_domain, entry.bundle, Some(held));
    }
    let trust_domain = TrustDomain::new(alloc, entry.name)?;
    let held = held_bundle(held, &trust_domain);
    shared_bundle(alloc, &trust_domain, entry.bundle, held)
}

fn add_named(
    alloc: Global,
    entries: &[BundleEntryView<'_>],
    bundles: &mut X509BundleSet,
    held: Option<&X509Context>,
) -> Result<(), WorkloadApiError>
    ensures { Gives is_memory_api (λ _. bundles.new) result
        (read_as (with_bundles bundles.old)
        (each named_bundle_of (map bundle_entry_of entries.now))) }
{
    let mut left = held_bundles(held);
    for entry in entries {
        let near = near_bundle(&mut left, entry.name);
        let bundle = named_bundle(alloc, entry, near, held)?;
        bundles.add_shared(bundle)?;
    }
    Ok(())
}

/// Returns the context of the response that the view holds, where a later bundle of a trust domain
/// replaces an earlier one. What `held` holds of the same bytes is shared with it and not read
/// again: SVIDs of the ID that the entry names, at the same index or beside it, and bundles of the
/// same trust domain. The result is the same with any context or none.
#[tactic(auto, unfolding(crate::specs::Parsed::parsed_of, crate::specs::Parsed::pairs_of))]
pub fn context_from_view_sharing(
    alloc: Global,
    view: &ContextView<'_>,
    held: Option<&X509Context>,
) -> Result<X509Context, WorkloadApiError>
    ensures { Gives is_memory_api (λ c. c) result (parsed_of (context_of view.now)) }
{
    let entries = view.svids.as_slice();
    check_entries(alloc, entries)?;
    let mut bundles = X509BundleSet::new(alloc);
    let svids = shared_svids(alloc, entries, &mut bundles, held)?;
    add_named(alloc, view.federated.as_slice(), &mut bundles, held)?;
    let crls = to_entries(alloc, view.crls.as_slice())?;
    Ok(X509Context::new(svids, Arc::new(alloc, bundles)?, crls.into_vec()))
}

/// Returns the context of the response that the view holds, where
/// a later bundle of a trust domain replaces an earlier one.
pub fn context_from_view(
    alloc: Global,
    view: &ContextView<'_>,
) -> Result<X509Context, WorkloadApiError>
    ensures { Gives is_memory_api (λ c. c) result (parsed_of (context_of view.now)) }
{
    context_from_view_sharing(alloc, view, None)
}

/// Returns the context of the response.
pub fn context_from(alloc: Global, r: &ContextResponse) -> Result<X509Context, WorkloadApiError>
    ensures { Gives is_memory_api (λ c. c) result (parsed_of r.now) }
{
    let view = context_view(alloc, r)?;
    context_from_view(alloc, &view)
}

/// The SVID of an entry, where the bundle of its trust domain can be read too.
#[tactic(auto, unfolding(crate::specs::Parsed::pair_of))]
fn material(
    alloc: Global,
    entry: &SvidEntryView<'_>,
) -> Result<(X509Svid, X509Bundle), WorkloadApiError>
    ensures { Gives is_memory_api (λ m. (m.0, m.1)) result
        (pair_of (svid_entry_of entry.now)) }
{
    let svid = parse_svid(alloc, entry)?;
    let bundle = parse_bundle(alloc, svid.spiffe_id().trust_domain(), entry.bundle)?;
    Ok((svid, bundle))
}

/// The SVIDs in order. Their bundles are read, and not kept.
fn owned_svids(
    alloc: Global,
    entries: &[SvidEntryView<'_>],
) -> Result<Vec<X509Svid>, WorkloadApiError>
    ensures { Gives is_memory_api (λ v. v.items) result
        (read_as svids_in (each pair_of (map svid_entry_of entries.now))) }
{
    let mut svids = Vec::new(alloc);
    for entry in entries {
        let (svid, _) = material(alloc, entry)?;
        svids.push(svid)?;
    }
    Ok(svids)
}

/// Returns the SVIDs of the response in order. Its federated entries are not read.
#[tactic(auto, unfolding(crate::specs::Parsed::svids_of, crate::specs::Parsed::pairs_of))]
pub fn svids_from(alloc: Global, r: &ContextResponse) -> Result<Vec<X509Svid>, WorkloadApiError>
    ensures { Gives is_memory_api (λ v. v.items) result (svids_of r.now) }
{
    let entries = views_of::<SvidEntryView<'_>>(alloc, r.svids.as_slice())?;
    check_entries(alloc, entries.as_slice())?;
    owned_svids(alloc, entries.as_slice())
}

/// Returns the first SVID of the response, all of whose SVIDs are read.
#[tactic(auto, unfolding(crate::specs::Parsed::first_svid_of))]
pub fn svid_from(alloc: Global, r: &ContextResponse) -> Result<X509Svid, WorkloadApiError>
    ensures { Gives is_memory_api (λ s. s) result (first_svid_of r.now) }
{
    let svids = svids_from(alloc, r)?;
    match svids.into_iter().next() {
        Some(svid) => Ok(svid),
        None => Err(missing(alloc, "X509SVIDResponse.svids")),
    }
}

/// Returns the bundles of the response, where a later one of a trust domain replaces an earlier
/// one.
#[tactic(auto, unfolding(crate::specs::Parsed::bundle_set_of))]
pub fn bundle_set_from(
    alloc: Global,
    r: &BundlesResponse,
) -> Result<X509BundleSet, WorkloadApiError>
    ensures { Gives is_memory_api (λ b. b) result (bundle_set_of r.now) }
{
    if r.bundles.as_slice().is_empty() {
        return Err(missing(alloc, "X509BundlesResponse.bundles"));
    }
    let entries = views_of::<BundleEntryView<'_>>(alloc, r.bundles.as_slice())?;
    let mut bundles = X509BundleSet::new(alloc);
    add_named(alloc, entries.as_slice(), &mut bundles, None)?;
    Ok(bundles)
}
