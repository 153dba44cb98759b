//! What the Workload API says of a token that it validated.

ghost use Rattle.std.specs.Prelude.{◌≡◌, IfOk, is_ok};
ghost use Rattle.std.specs.List.{list_all};
ghost use Rattle.std.specs.Option.{option_map};
ghost use Rattle.spf_io.specs.Rule.{Gives};
ghost use Rattle.spf_id.specs.Rule.{id_rule};
ghost use Rattle.spf_api.specs.Errors.{is_memory_api};
ghost use Rattle.spf_jwt.specs.Validation.{aud_state, claims_rule, exp_state, given_claims};
ghost use Rattle.spf_jwt.specs.Validation.{is_words, last_claim, named, state_of, state_rule};
ghost use Rattle.spf_jwt.specs.Validation.{validation_rule, or_else, are_words, sub_state};

use crate::responses::{missing, require};
use spf_api::{Claim, ClaimValue, ValidationResponse, WorkloadApiError};
use spf_id::{SpiffeId, SpiffeIdError};
use spf_io::{List, OutOfMemory, Text};
use std::alloc::Global;

/// Whether a claim is there, and is what it has to be.
#[derive(Clone, Copy)]
pub(crate) enum ClaimState {
    Missing,
    Invalid,
    Valid,
}

fn state(is_valid: bool) -> ClaimState
    ensures { result ≡ state_of is_valid }
{
    if is_valid {
        ClaimState::Valid
    } else {
        ClaimState::Invalid
    }
}

/// The claim where it has that name, and otherwise what was found before it.
fn later<'a>(claim: &'a Claim, name: &str, found: Option<&'a ClaimValue>) -> Option<&'a ClaimValue>
    ensures { option_map (λ v. v.now) result
        ≡ or_else (named name.now claim.now) (option_map (λ v. v.now) found.entry) }
{
    if claim.name.as_str() == name {
        Some(&claim.value)
    } else {
        found
    }
}

/// The value of the last claim of that name.
fn last_claim<'a>(claims: &'a [Claim], name: &str) -> Option<&'a ClaimValue>
    ensures { option_map (λ v. v.now) result ≡ last_claim name.now claims.now }
{
    let mut found = None;
    for claim in claims {
        found = later(claim, name, found);
    }
    found
}

/// Whether a text is a SPIFFE ID.
fn is_id(alloc: Global, text: &str) -> Result<bool, OutOfMemory>
    ensures { IfOk result (λ b. b ≡ is_ok (id_rule text.now)) }
{
    match SpiffeId::new(alloc, text) {
        Ok(_) => Ok(true),
        Err(SpiffeIdError::OutOfMemory) => Err(OutOfMemory),
        Err(_) => Ok(false),
    }
}

fn subject(alloc: Global, value: Option<&ClaimValue>) -> Result<ClaimState, OutOfMemory>
    ensures { IfOk result (λ s. s ≡ sub_state (option_map (λ v. v.now) value.entry)) }
{
    let Some(value) = value else {
        return Ok(ClaimState::Missing);
    };
    match value {
        ClaimValue::Unset => Ok(ClaimState::Missing),
        ClaimValue::Words(text) => Ok(state(is_id(alloc, text.as_str())?)),
        ClaimValue::Null
        | ClaimValue::Bool(_)
        | ClaimValue::Whole(_)
        | ClaimValue::OtherNumber(_)
        | ClaimValue::Items(_)
        | ClaimValue::Fields(_) => Ok(ClaimState::Invalid),
    }
}

fn is_text(value: &ClaimValue) -> bool
    ensures { result ≡ is_words value.now }
{
    match value {
        ClaimValue::Words(_) => true,
        ClaimValue::Unset
        | ClaimValue::Null
        | ClaimValue::Bool(_)
        | ClaimValue::Whole(_)
        | ClaimValue::OtherNumber(_)
        | ClaimValue::Items(_)
        | ClaimValue::Fields(_) => false,
    }
}

/// Whether each value is a text.
fn all_texts(values: &[ClaimValue]) -> bool
    ensures { result ≡ list_all is_words values.now }
{
    let mut rest = values;
    while let Some((value, others)) = rest.split_first() {
        if !is_text(value) {
            return false;
        }
        rest = others;
    }
    true
}

/// Whether each value is a text, and there is one.
fn are_texts(values: &[ClaimValue]) -> bool
    ensures { result ≡ are_words values.now }
{
    !values.is_empty() && all_texts(values)
}

fn audience(value: Option<&ClaimValue>) -> ClaimState
    ensures { result ≡ aud_state (option_map (λ v. v.now) value.entry) }
{
    let Some(value) = value else {
        return ClaimState::Missing;
    };
    match value {
        ClaimValue::Unset => ClaimState::Missing,
        ClaimValue::Words(_) => ClaimState::Valid,
        ClaimValue::Items(values) => state(are_texts(values.as_slice())),
        ClaimValue::Null
        | ClaimValue::Bool(_)
        | ClaimValue::Whole(_)
        | ClaimValue::OtherNumber(_)
        | ClaimValue::Fields(_) => ClaimState::Invalid,
    }
}

fn expiry(value: Option<&ClaimValue>) -> ClaimState
    ensures { result ≡ exp_state (option_map (λ v. v.now) value.entry) }
{
    let Some(value) = value else {
        return ClaimState::Missing;
    };
    match value {
        ClaimValue::Unset => ClaimState::Missing,
        ClaimValue::Whole(_) => ClaimState::Valid,
        ClaimValue::Null
        | ClaimValue::Bool(_)
        | ClaimValue::OtherNumber(_)
        | ClaimValue::Words(_)
        | ClaimValue::Items(_)
        | ClaimValue::Fields(_) => ClaimState::Invalid,
    }
}

fn check(alloc: Global, field: &str, state: ClaimState) -> Result<(), WorkloadApiError>
    ensures { Gives is_memory_api (λ _. tt) result (state_rule field.now state) }
{
    match state {
        ClaimState::Valid => Ok(()),
        ClaimState::Missing => Err(missing(alloc, field)),
        ClaimState::Invalid => {
            let field = Text::copy_of(alloc, field)?;
            Err(WorkloadApiError::InvalidResponseField { field })
        }
    }
}

fn check_claims(alloc: Global, claims: &[Claim]) -> Result<(), WorkloadApiError>
    ensures { Gives is_memory_api (λ _. tt) result (claims_rule claims.now) }
{
    let sub = subject(alloc, last_claim(claims, "sub"))?;
    check(alloc, "ValidateJWTSVIDResponse.claims.sub", sub)?;
    let aud = audience(last_claim(claims, "aud"));
    check(alloc, "ValidateJWTSVIDResponse.claims.aud", aud)?;
    let exp = expiry(last_claim(claims, "exp"));
    check(alloc, "ValidateJWTSVIDResponse.claims.exp", exp)
}

fn check_given(alloc: Global, claims: &Option<List<Claim>>) -> Result<(), WorkloadApiError>
    ensures { Gives is_memory_api (λ _. tt) result (given_claims claims.now) }
{
    match claims {
        None => Err(missing(alloc, "ValidateJWTSVIDResponse.claims")),
        Some(claims) => check_claims(alloc, claims.as_slice()),
    }
}

/// Checks that a validation names an identity, and that its claims
/// `sub`, `aud` and `exp`, each the last of its name, are what they have to be.
#[tactic(auto, unfolding(crate::specs::Validation::validation_rule))]
pub fn check_validation(alloc: Global, r: &ValidationResponse) -> Result<(), WorkloadApiError>
    ensures { Gives is_memory_api (λ _. tt) result (validation_rule r.now) }
{
    require(
        alloc,
        r.spiffe_id.as_str(),
        "ValidateJWTSVIDResponse.spiffe_id",
    )?;
    check_given(alloc, &r.claims)
}
