//! What responses of the Workload API mean, or the first rule that they break.

ghost use Rattle.std.specs.Prelude.{◌≡◌, IfOk, MatchBool};
ghost use Rattle.spf_io.specs.Rule.{Gives, broken_as, each};
ghost use Rattle.spf_api.specs.Errors.{is_memory_api};
ghost use Rattle.spf_api.specs.Parsed.{hint_rule, kept_by_each, required};
ghost use Rattle.spf_api.specs.declared.error.WorkloadApiError.TheVariants.{MissingRequiredField};
ghost use Rattle.spf_jwt.specs.Errors.{api_of_any_kind};
ghost use Rattle.spf_jwt.specs.Responses.{entries_required, entry_required, jwt_bundle_set_of};
ghost use Rattle.spf_jwt.specs.Responses.{jwt_svids_of, named_bundle_of, svid_of_entry};

use crate::bundle::JwtBundle;
use crate::bundle_set::JwtBundleSet;
use crate::svid::JwtSvid;
use spf_api::{BundleEntry, BundlesResponse, JwtSvidEntry, JwtSvidsResponse, WorkloadApiError};
use spf_id::TrustDomain;
use spf_io::{OutOfMemory, Text};
use std::alloc::Global;

pub(crate) fn missing(alloc: Global, field: &str) -> WorkloadApiError
    ensures { MatchBool (is_memory_api result) (Unit {0})
        (result ≡ MissingRequiredField field.now) }
{
    match Text::copy_of(alloc, field) {
        Ok(field) => WorkloadApiError::MissingRequiredField { field },
        Err(OutOfMemory) => WorkloadApiError::OutOfMemory,
    }
}

#[tactic(auto, unfolding(crate::specs::Responses::named_bundle_of))]
fn named_bundle(alloc: Global, entry: &BundleEntry) -> Result<JwtBundle, WorkloadApiError>
    ensures { Gives is_memory_api (λ b. b) (broken_as api_of_any_kind result)
        (named_bundle_of entry.now) }
{
    let domain = TrustDomain::new(alloc, entry.name.as_str())?;
    Ok(JwtBundle::from_jwt_authorities(alloc, domain, entry.bundle.as_slice())?)
}

fn named_bundles(alloc: Global, entries: &[BundleEntry]) -> Result<Vec<JwtBundle>, WorkloadApiError>
    ensures { Gives is_memory_api (λ v. v.items) (broken_as api_of_any_kind result)
        (each named_bundle_of entries.now) }
{
    let mut bundles = Vec::with_capacity(alloc, entries.len())?;
    for entry in entries {
        let bundle = named_bundle(alloc, entry)?;
        bundles.push(bundle)?;
    }
    Ok(bundles)
}

/// Returns the bundles of the response, where a later one of a trust domain replaces an earlier
/// one.
#[tactic(auto, unfolding(crate::specs::Responses::jwt_bundle_set_of))]
pub fn jwt_bundle_set_from(
    alloc: Global,
    r: &BundlesResponse,
) -> Result<JwtBundleSet, WorkloadApiError>
    ensures { Gives is_memory_api (λ s. s) (broken_as api_of_any_kind result)
        (jwt_bundle_set_of r.now) }
{
    if r.bundles.as_slice().is_empty() {
        return Err(missing(alloc, "JWTBundlesResponse.bundles"));
    }
    let bundles = named_bundles(alloc, r.bundles.as_slice())?;
    let mut set = JwtBundleSet::new(alloc);
    set.extend(bundles)?;
    Ok(set)
}

pub(crate) fn require(alloc: Global, text: &str, field: &str) -> Result<(), WorkloadApiError>
    ensures { Gives is_memory_api (λ _. tt) result (required text.now field.now) }
{
    if text.is_empty() {
        return Err(missing(alloc, field));
    }
    Ok(())
}

fn check_entry(alloc: Global, entry: &JwtSvidEntry) -> Result<(), WorkloadApiError>
    ensures { Gives is_memory_api (λ _. tt) result (entry_required entry.now) }
{
    require(alloc, entry.spiffe_id.as_str(), "JWTSVID.spiffe_id")?;
    require(alloc, entry.svid.as_str(), "JWTSVID.svid")
}

fn check_entries(alloc: Global, entries: &[JwtSvidEntry]) -> Result<(), WorkloadApiError>
    ensures { Gives is_memory_api (λ _. tt) result (kept_by_each entry_required entries.now) }
{
    for entry in entries {
        check_entry(alloc, entry)?;
    }
    Ok(())
}

/// Checks that there is an entry, and that no field that must be there is empty.
#[tactic(auto, unfolding(crate::specs::Responses::entries_required))]
pub(crate) fn require_entries(alloc: Global, r: &JwtSvidsResponse) -> Result<(), WorkloadApiError>
    ensures { Gives is_memory_api (λ _. tt) result (entries_required r.now) }
{
    if r.svids.as_slice().is_empty() {
        return Err(missing(alloc, "JWTSVIDResponse.svids"));
    }
    check_entries(alloc, r.svids.as_slice())
}

/// A hint, where an empty one counts as none.
fn hint_of(alloc: Global, hint: &str) -> Result<Option<Text>, OutOfMemory>
    ensures { IfOk result (λ t. t ≡ hint_rule hint.now) }
{
    if hint.is_empty() {
        return Ok(None);
    }
    Ok(Some(Text::copy_of(alloc, hint)?))
}

#[tactic(auto, unfolding(crate::specs::Responses::svid_of_entry))]
fn entry_svid(alloc: Global, entry: &JwtSvidEntry) -> Result<JwtSvid, WorkloadApiError>
    ensures { Gives is_memory_api (λ s. s) result (svid_of_entry entry.now) }
{
    let svid = JwtSvid::from_workload_api_token(alloc, entry.svid.as_str())?;
    let hint = hint_of(alloc, entry.hint.as_str())?;
    Ok(svid.hinted(hint))
}

fn entry_svids(alloc: Global, entries: &[JwtSvidEntry]) -> Result<Vec<JwtSvid>, WorkloadApiError>
    ensures { Gives is_memory_api (λ v. v.items) result (each svid_of_entry entries.now) }
{
    let mut svids = Vec::with_capacity(alloc, entries.len())?;
    for entry in entries {
        let svid = entry_svid(alloc, entry)?;
        svids.push(svid)?;
    }
    Ok(svids)
}

/// Returns the SVIDs of the response in order.
#[tactic(auto, unfolding(crate::specs::Responses::jwt_svids_of))]
pub fn jwt_svids_from(alloc: Global, r: &JwtSvidsResponse) -> Result<Vec<JwtSvid>, WorkloadApiError>
    ensures { Gives is_memory_api (λ v. v.items) result (jwt_svids_of r.now) }
{
    require_entries(alloc, r)?;
    entry_svids(alloc, r.svids.as_slice())
}
