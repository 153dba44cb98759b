//! The bundles of a response, which are shared with the held ones that were read from the same
//! bytes.

ghost use Rattle.std.specs.Prelude.{◌≡◌, IfOk, IfSome};
ghost use Rattle.std.specs.Arc.{arc_value};
ghost use Rattle.spf_io.specs.Rule.{Gives, broken_as};
ghost use Rattle.spf_api.specs.Errors.{is_memory_api};
ghost use Rattle.spf_jwt.specs.Authority.{key_set_of};
ghost use Rattle.spf_jwt.specs.Bundle.{bundle_of};
ghost use Rattle.spf_jwt.specs.Errors.{api_of_any_kind};
ghost use Rattle.spf_jwt.specs.Responses.{bundles_added, jwt_bundle_set_of, named_bundle_of};

use crate::bundle::JwtBundle;
use crate::bundle_set::JwtBundleSet;
use crate::responses::missing;
use spf_api::{BundleEntry, BundlesResponse, WorkloadApiError};
use spf_id::TrustDomain;
use spf_io::OutOfMemory;
use std::alloc::Global;
use std::sync::Arc;

/// The held bundle of the trust domain, where it was read from these bytes.
fn held_bundle(
    held: Option<&JwtBundleSet>,
    trust_domain: &TrustDomain,
    jwks: &[u8],
) -> Result<Option<Arc<JwtBundle>>, OutOfMemory>
    ensures { IfOk result
        (λ o. IfSome o
        (λ b. bundle_of trust_domain.now (key_set_of jwks.now) ≡ Ok (arc_value b))) }
{
    let Some(set) = held else {
        return Ok(None);
    };
    let Some(bundle) = set.get_ref(trust_domain) else {
        return Ok(None);
    };
    if !bundle.is_parsed_from(trust_domain, jwks) {
        return Ok(None);
    }
    Ok(Some(Arc::try_clone(bundle)?))
}

/// The bundle of an entry, which is the held one where that was read from the same bytes.
#[tactic(auto, unfolding(crate::specs::Responses::named_bundle_of))]
fn shared_bundle(
    alloc: Global,
    entry: BundleEntry,
    held: Option<&JwtBundleSet>,
) -> Result<Arc<JwtBundle>, WorkloadApiError>
    ensures { Gives is_memory_api arc_value (broken_as api_of_any_kind result)
        (named_bundle_of entry) }
{
    let trust_domain = TrustDomain::new(alloc, entry.name.as_str())?;
    if let Some(bundle) = held_bundle(held, &trust_domain, entry.bundle.as_slice())? {
        return Ok(bundle);
    }
    let bundle = JwtBundle::from_jwt_authorities_owned(alloc, trust_domain, entry.bundle)?;
    Ok(Arc::new(alloc, bundle)?)
}

/// The bundles of the entries, each added in order.
fn shared_bundles(
    alloc: Global,
    entries: Vec<BundleEntry>,
    held: Option<&JwtBundleSet>,
) -> Result<JwtBundleSet, WorkloadApiError>
    ensures { Gives is_memory_api (λ s. s) (broken_as api_of_any_kind result)
        (bundles_added entries.items) }
{
    let mut set = JwtBundleSet::new(alloc);
    for entry in entries {
        let bundle = shared_bundle(alloc, entry, held)?;
        set.add_shared(bundle)?;
    }
    Ok(set)
}

/// Returns the same as `jwt_bundle_set_from`, whatever is held. A held
/// bundle of the bytes of an entry is shared, and these are not read again.
#[tactic(auto, unfolding(crate::specs::Responses::jwt_bundle_set_of))]
pub fn jwt_bundle_set_sharing(
    alloc: Global,
    r: BundlesResponse,
    held: Option<&JwtBundleSet>,
) -> Result<JwtBundleSet, WorkloadApiError>
    ensures { Gives is_memory_api (λ s. s) (broken_as api_of_any_kind result)
        (jwt_bundle_set_of r) }
{
    let entries = r.bundles.into_vec();
    if entries.is_empty() {
        return Err(missing(alloc, "JWTBundlesResponse.bundles"));
    }
    shared_bundles(alloc, entries, held)
}
