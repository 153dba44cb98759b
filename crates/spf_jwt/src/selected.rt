//! What a caller asks for of a response: one SVID of several, a token, or a validated token.

ghost use Rattle.std.specs.Prelude.{◌≡◌, find, position};
ghost use Rattle.spf_io.specs.Rule.{Gives};
ghost use Rattle.spf_api.specs.Errors.{is_memory_api};
ghost use Rattle.spf_jwt.specs.Selected.{first_jwt_svid_of, first_token_of, found_by};
ghost use Rattle.spf_jwt.specs.Selected.{hinted_jwt_svid_of, validated_svid_of};
ghost use Rattle.spf_jwt.specs.Selected as spec;

use crate::responses::{jwt_svids_from, missing, require_entries};
use crate::svid::JwtSvid;
use crate::validation::check_validation;
use spf_api::{JwtSvidsResponse, ValidationResponse, WorkloadApiError};
use spf_io::Text;
use std::alloc::Global;

/// Returns the first SVID of the response, all of whose SVIDs are read.
#[tactic(auto, unfolding(crate::specs::Selected::first_jwt_svid_of))]
pub fn jwt_svid_from(alloc: Global, r: &JwtSvidsResponse) -> Result<JwtSvid, WorkloadApiError>
    ensures { Gives is_memory_api (λ s. s) result (first_jwt_svid_of r.now) }
{
    let svids = jwt_svids_from(alloc, r)?;
    match svids.into_iter().next() {
        Some(svid) => Ok(svid),
        None => Err(missing(alloc, "JWTSVIDResponse.svids")),
    }
}

fn has_hint(svid: &JwtSvid, hint: &str) -> bool
    ensures { result ≡ spec.has_hint hint.now svid.now }
{
    match svid.hint() {
        Some(own) => own == hint,
        None => false,
    }
}

fn hint_index(svids: &[JwtSvid], hint: &str) -> Option<usize>
    ensures { result ≡ position (λ s. spec.has_hint hint.now s) svids.now }
{
    svids.iter().position(|svid| has_hint(svid, hint))
}

/// The first SVID that has the hint.
fn first_with_hint(mut svids: Vec<JwtSvid>, hint: &str) -> Option<JwtSvid>
    ensures { result ≡ find (λ s. spec.has_hint hint.now s) svids.items }
{
    match hint_index(svids.as_slice(), hint) {
        Some(index) => Some(svids.swap_remove(index)),
        None => None,
    }
}

fn found(alloc: Global, svid: Option<JwtSvid>, hint: &str) -> Result<JwtSvid, WorkloadApiError>
    ensures { Gives is_memory_api (λ s. s) result (found_by hint.now svid) }
{
    match svid {
        Some(svid) => Ok(svid),
        None => Err(WorkloadApiError::HintNotFound(Text::copy_of(alloc, hint)?)),
    }
}

/// Returns the first SVID of the response that has the hint. All of its SVIDs are read.
#[tactic(auto, unfolding(crate::specs::Selected::hinted_jwt_svid_of))]
pub fn jwt_svid_with_hint_from(
    alloc: Global,
    r: &JwtSvidsResponse,
    hint: &str,
) -> Result<JwtSvid, WorkloadApiError>
    ensures { Gives is_memory_api (λ s. s) result (hinted_jwt_svid_of hint.now r.now) }
{
    let svids = jwt_svids_from(alloc, r)?;
    found(alloc, first_with_hint(svids, hint), hint)
}

/// Returns the token of the first entry of the response. It is not read.
#[tactic(auto, unfolding(crate::specs::Selected::first_token_of))]
pub fn jwt_token_from(alloc: Global, r: &JwtSvidsResponse) -> Result<Text, WorkloadApiError>
    ensures { Gives is_memory_api (λ t. t) result (first_token_of r.now) }
{
    require_entries(alloc, r)?;
    match r.svids.as_slice().first() {
        Some(entry) => Ok(entry.svid.try_clone(alloc)?),
        None => Err(missing(alloc, "JWTSVIDResponse.svids")),
    }
}

/// Returns what the token says that the response validates.
#[tactic(auto, unfolding(crate::specs::Selected::validated_svid_of))]
pub fn validated_svid_from(
    alloc: Global,
    r: &ValidationResponse,
    token: &str,
) -> Result<JwtSvid, WorkloadApiError>
    ensures { Gives is_memory_api (λ s. s) result (validated_svid_of token.now r.now) }
{
    check_validation(alloc, r)?;
    Ok(JwtSvid::parse_insecure(alloc, token)?)
}
