//! Payloads of validation responses, read and written.

ghost use Rattle.std.specs.Prelude.{◌≡◌, ◌++◌, [], ◌∷◌, IfOk, IfSome, OnOk};
ghost use Rattle.std.specs.Option.{option_map};
ghost use Rattle.std.specs.Int.{w64, to_be_bytes, cast_unsigned};
ghost use Rattle.spf_api.specs.Layout.{list_text, IsListOf};
ghost use Rattle.spf_api.specs.Reading.{list_at};
ghost use Rattle.spf_api.specs.Claims.{truth_octet, truth_at, whole_at, claim_at, contents_at};
ghost use Rattle.spf_api.specs.Claims.{claim_value_at, optional_claims_at, validation_at};
ghost use Rattle.spf_api.specs.Claims.{claim_value_text, claim_text, IsClaim, IsClaimValue};
ghost use Rattle.spf_api.specs.Claims.{optional_claims_text, validation_payload, IsValidation};

use crate::layout::{put_number, put_text, read_number, read_owned_text, read_text_field};
use crate::response::{Claim, ClaimValue, ValidationResponse};
use spf_io::{List, OutOfMemory, Text};
use std::alloc::Global;

/// How deep values of a claim may be nested: a value that holds none is one deep.
pub(crate) const MAX_CLAIM_DEPTH: usize = 64;

/// Reads one octet, 0 or 1.
#[tactic(auto, unfolding(crate::specs::Claims::truth_at))]
fn truth(bytes: &[u8]) -> Option<(bool, &[u8])>
    ensures { option_map (λ x. (x.0, x.1.now)) result ≡ truth_at bytes.now }
{
    match bytes {
        [0, rest @ ..] => Some((false, rest)),
        [1, rest @ ..] => Some((true, rest)),
        _ => None,
    }
}

/// Reads eight octets, in two's complement.
#[tactic(auto, unfolding(crate::specs::Claims::whole_at))]
fn whole(bytes: &[u8]) -> Option<(i64, &[u8])>
    ensures { option_map (λ x. (x.0, x.1.now)) result ≡ whole_at bytes.now }
{
    match bytes {
        [a, b, c, d, e, f, g, h, rest @ ..] => Some((
            i64::from_be_bytes([*a, *b, *c, *d, *e, *f, *g, *h]),
            rest,
        )),
        _ => None,
    }
}

/// Reads a value: a kind octet and its contents, with values at most `depth` deep.
#[cycle(claims)]
fn claim_value(
    alloc: Global,
    depth: usize,
    bytes: &[u8],
) -> Result<Option<(ClaimValue, &[u8])>, OutOfMemory>
    ensures { IfOk result
        (λ o. option_map (λ x. (x.0, x.1.now)) o ≡ claim_value_at depth bytes.now) }
{
    let Some(inner) = depth.checked_sub(1) else {
        return Ok(None);
    };
    let Some((kind, rest)) = bytes.split_first() else {
        return Ok(None);
    };
    claim_contents(alloc, inner, *kind, rest)
}

/// Reads the contents of a value of that kind, with values at most `depth` deep.
#[cycle(claims)]
fn claim_contents(
    alloc: Global,
    depth: usize,
    kind: u8,
    rest: &[u8],
) -> Result<Option<(ClaimValue, &[u8])>, OutOfMemory>
    ensures { IfOk result
        (λ o. option_map (λ x. (x.0, x.1.now)) o
        ≡ contents_at (claim_value_at depth) kind rest.now) }
{
    match kind {
        0 => Ok(Some((ClaimValue::Unset, rest))),
        1 => Ok(Some((ClaimValue::Null, rest))),
        2 => match truth(rest) {
            Some((truth, rest)) => Ok(Some((ClaimValue::Bool(truth), rest))),
            None => Ok(None),
        },
        3 => match whole(rest) {
            Some((number, rest)) => Ok(Some((ClaimValue::Whole(number), rest))),
            None => Ok(None),
        },
        4 => match read_owned_text(alloc, rest)? {
            Some((text, rest)) => Ok(Some((ClaimValue::OtherNumber(text), rest))),
            None => Ok(None),
        },
        5 => match read_owned_text(alloc, rest)? {
            Some((text, rest)) => Ok(Some((ClaimValue::Words(text), rest))),
            None => Ok(None),
        },
        6 => match claim_values(alloc, depth, rest)? {
            Some((values, rest)) => Ok(Some((ClaimValue::Items(List::new(values)), rest))),
            None => Ok(None),
        },
        7 => match claims(alloc, depth, rest)? {
            Some((claims, rest)) => Ok(Some((ClaimValue::Fields(List::new(claims)), rest))),
            None => Ok(None),
        },
        _ => Ok(None),
    }
}

#[cycle(claims)]
fn claim_values(
    alloc: Global,
    depth: usize,
    bytes: &[u8],
) -> Result<Option<(Vec<ClaimValue>, &[u8])>, OutOfMemory>
    ensures { IfOk result
        (λ o. option_map (λ x. (x.0.items, x.1.now)) o ≡ list_at (claim_value_at depth) bytes.now) }
{
    let Some((count, mut rest)) = read_number(bytes) else {
        return Ok(None);
    };
    let mut values = Vec::new(alloc);
    'values: for _ in 0..count {
        let Some((value, after)) = claim_value(alloc, depth, rest)? else {
            return Ok(None);
        };
        values.push(value)?;
        rest = after;
    }
    Ok(Some((values, rest)))
}

/// Reads a claim: a name and a value.
#[cycle(claims)]
#[tactic(auto, unfolding(crate::specs::Claims::claim_at))]
fn claim(alloc: Global, depth: usize, bytes: &[u8]) -> Result<Option<(Claim, &[u8])>, OutOfMemory>
    ensures { IfOk result
        (λ o. option_map (λ x. (x.0, x.1.now)) o ≡ claim_at (claim_value_at depth) bytes.now) }
{
    let Some((name, rest)) = read_text_field(bytes) else {
        return Ok(None);
    };
    let Some((value, rest)) = claim_value(alloc, depth, rest)? else {
        return Ok(None);
    };
    let name = Text::copy_of(alloc, name)?;
    Ok(Some((Claim { name, value }, rest)))
}

#[cycle(claims)]
fn claims(
    alloc: Global,
    depth: usize,
    bytes: &[u8],
) -> Result<Option<(Vec<Claim>, &[u8])>, OutOfMemory>
    ensures { IfOk result
        (λ o. option_map (λ x. (x.0.items, x.1.now)) o
        ≡ list_at (claim_at (claim_value_at depth)) bytes.now) }
{
    let Some((count, mut rest)) = read_number(bytes) else {
        return Ok(None);
    };
    let mut claims = Vec::new(alloc);
    'claims: for _ in 0..count {
        let Some((claim, after)) = claim(alloc, depth, rest)? else {
            return Ok(None);
        };
        claims.push(claim)?;
        rest = after;
    }
    Ok(Some((claims, rest)))
}

/// Reads the claims, or the mark of their absence, after which nothing follows.
fn optional_claims(alloc: Global, bytes: &[u8]) -> Result<Option<Option<List<Claim>>>, OutOfMemory>
    ensures { IfOk result (λ o. o ≡ optional_claims_at bytes.now) }
{
    match bytes {
        [0] => Ok(Some(None)),
        [1, rest @ ..] => match claims(alloc, MAX_CLAIM_DEPTH, rest)? {
            Some((claims, [])) => Ok(Some(Some(List::new(claims)))),
            _ => Ok(None),
        },
        _ => Ok(None),
    }
}

/// Returns the validation response that the payload lays out, and None where it lays out none.
#[tactic(auto, unfolding(crate::specs::Claims::validation_at))]
pub(crate) fn validation(
    alloc: Global,
    payload: &[u8],
) -> Result<Option<ValidationResponse>, OutOfMemory>
    ensures { IfOk result (λ o. o ≡ validation_at payload.now) }
{
    let Some((spiffe_id, rest)) = read_owned_text(alloc, payload)? else {
        return Ok(None);
    };
    match optional_claims(alloc, rest)? {
        Some(claims) => Ok(Some(ValidationResponse { spiffe_id, claims })),
        None => Ok(None),
    }
}

fn put_octet(out: &mut Vec<u8>, octet: u8) -> Result<(), OutOfMemory>
    ensures { OnOk result (out.new.items ≡ out.old.items ++ octet ∷ []) }
{
    out.push(octet)?;
    Ok(())
}

fn put_truth(out: &mut Vec<u8>, truth: bool) -> Result<(), OutOfMemory>
    ensures { OnOk result (out.new.items ≡ out.old.items ++ truth_octet truth ∷ []) }
{
    if truth {
        put_octet(out, 1)
    } else {
        put_octet(out, 0)
    }
}

fn put_whole(out: &mut Vec<u8>, number: i64) -> Result<(), OutOfMemory>
    ensures { OnOk result
        (out.new.items ≡ out.old.items ++ to_be_bytes w64 (cast_unsigned w64 number)) }
{
    out.extend_from_slice(&number.to_be_bytes())?;
    Ok(())
}

/// Appends a value. One with values more than `depth` deep counts as out of memory.
#[cycle(put_claims)]
fn put_claim_value(out: &mut Vec<u8>, depth: usize, value: &ClaimValue) -> Result<(), OutOfMemory>
    ensures fits { OnOk result (IsClaimValue depth value.now) }
    ensures octets { OnOk result (out.new.items ≡ out.old.items ++ claim_value_text value.now) }
{
    let Some(inner) = depth.checked_sub(1) else {
        return Err(OutOfMemory);
    };
    match value {
        ClaimValue::Unset => put_octet(out, 0)?,
        ClaimValue::Null => put_octet(out, 1)?,
        ClaimValue::Bool(truth) => {
            put_octet(out, 2)?;
            put_truth(out, *truth)?;
        }
        ClaimValue::Whole(number) => {
            put_octet(out, 3)?;
            put_whole(out, *number)?;
        }
        ClaimValue::OtherNumber(text) => {
            put_octet(out, 4)?;
            put_text(out, text)?;
        }
        ClaimValue::Words(text) => {
            put_octet(out, 5)?;
            put_text(out, text)?;
        }
        ClaimValue::Items(values) => {
            put_octet(out, 6)?;
            put_claim_values(out, inner, values.as_slice())?;
        }
        ClaimValue::Fields(claims) => {
            put_octet(out, 7)?;
            put_claims(out, inner, claims.as_slice())?;
        }
    }
    Ok(())
}

#[cycle(put_claims)]
#[tactic(auto, unfolding(crate::specs::Layout::list_text))]
fn put_claim_values(
    out: &mut Vec<u8>,
    depth: usize,
    values: &[ClaimValue],
) -> Result<(), OutOfMemory>
    ensures fits { OnOk result (IsListOf (IsClaimValue depth) values.now) }
    ensures octets { OnOk result
        (out.new.items ≡ out.old.items ++ list_text claim_value_text values.now) }
{
    put_number(out, values.len())?;
    for value in values {
        put_claim_value(out, depth, value)?;
    }
    Ok(())
}

#[cycle(put_claims)]
#[tactic(auto, unfolding(crate::specs::Claims::claim_text))]
fn put_claim(out: &mut Vec<u8>, depth: usize, claim: &Claim) -> Result<(), OutOfMemory>
    ensures fits { OnOk result (IsClaim (IsClaimValue depth) claim.now) }
    ensures octets { OnOk result (out.new.items ≡ out.old.items ++ claim_text claim.now) }
{
    put_text(out, &claim.name)?;
    put_claim_value(out, depth, &claim.value)?;
    Ok(())
}

#[cycle(put_claims)]
#[tactic(auto, unfolding(crate::specs::Layout::list_text))]
fn put_claims(out: &mut Vec<u8>, depth: usize, claims: &[Claim]) -> Result<(), OutOfMemory>
    ensures fits { OnOk result (IsListOf (IsClaim (IsClaimValue depth)) claims.now) }
    ensures octets { OnOk result
        (out.new.items ≡ out.old.items ++ list_text claim_text claims.now) }
{
    put_number(out, claims.len())?;
    for claim in claims {
        put_claim(out, depth, claim)?;
    }
    Ok(())
}

fn put_optional_claims(out: &mut Vec<u8>, claims: &Option<List<Claim>>) -> Result<(), OutOfMemory>
    ensures fits { OnOk result
        (IfSome claims.now (IsListOf (IsClaim (IsClaimValue MAX_CLAIM_DEPTH)))) }
    ensures octets { OnOk result
        (out.new.items ≡ out.old.items ++ optional_claims_text claims.now) }
{
    match claims {
        None => put_octet(out, 0),
        Some(claims) => {
            put_octet(out, 1)?;
            put_claims(out, MAX_CLAIM_DEPTH, claims.as_slice())?;
            Ok(())
        }
    }
}

#[tactic(auto, unfolding(crate::specs::Claims::validation_payload))]
pub(crate) fn put_validation(
    out: &mut Vec<u8>,
    validation: &ValidationResponse,
) -> Result<(), OutOfMemory>
    ensures fits { OnOk result (IsValidation validation.now) }
    ensures octets { OnOk result
        (out.new.items ≡ out.old.items ++ validation_payload validation.now) }
{
    put_text(out, &validation.spiffe_id)?;
    put_optional_claims(out, &validation.claims)?;
    Ok(())
}
