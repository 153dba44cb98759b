//! ValidateJWTSVIDResponse messages.

ghost use Rattle.std.specs.Prelude.{◌≡◌, [], Some, None, if◌then◌else◌, IfOk, map};
ghost use Rattle.std.specs.Option.{option_map};
ghost use Rattle.spf_messages.specs.Wire.{field_of};
ghost use Rattle.spf_messages.specs.Folded.{claims_after, claims_put, keyed_with, message_from};
ghost use Rattle.spf_messages.specs.Message.{last_of_each};
ghost use Rattle.spf_messages.specs.Claims.{claim_name, validation_message};
ghost use Rattle.spf_messages.specs.Members.{claim_of, claims_shown, validation_shown};

use crate::claims::{ClaimView, read_claims, to_claims};
use crate::message::text;
use crate::wire::{Field, read_field};
use spf_api::{Claim, ValidationResponse};
use spf_io::{List, OutOfMemory, Text};
use std::alloc::Global;

/// How deep values of a claim may be nested: a value that holds none is one deep.
const MAX_CLAIM_DEPTH: usize = 64;

/// A validation, as far as its fields are read: its claims in the order in which they came.
#[derive(Drop)]
struct Validation<'a> {
    spiffe_id: &'a str,
    claims: Option<Vec<ClaimView<'a>>>,
}

/// Claims after those that stood, if any.
fn joined<'a>(
    before: Option<Vec<ClaimView<'a>>>,
    more: Vec<ClaimView<'a>>,
) -> Result<Vec<ClaimView<'a>>, OutOfMemory>
    ensures { IfOk result
        (λ v. map claim_of v.items
        ≡ claims_after (claims_shown before.entry) (map claim_of more.entry.items)) }
{
    let Some(before) = before else {
        return Ok(more);
    };
    let (mut all, mut more) = (before, more);
    all.append(&mut more)?;
    Ok(all)
}

impl<'a> Validation<'a> {
    /// Adds what a field holds. Returns false where that field is not allowed.
    #[tactic(auto, unfolding(crate::specs::Folded::keyed_with))]
    fn add(&mut self, alloc: Global, field: &Field<'a>) -> Result<bool, OutOfMemory>
        ensures { IfOk result
            (λ added. (if added then Some (validation_shown self.new) else None)
            ≡ keyed_with claims_put (validation_shown self.old) (field_of field.now)) }
    {
        let Some(octets) = field.octets() else {
            return Ok(field.number > 2);
        };
        match field.number {
            1 => {
                let Some(spiffe_id) = text(octets) else {
                    return Ok(false);
                };
                self.spiffe_id = spiffe_id;
            }
            2 => {
                let Some(claims) = read_claims(alloc, MAX_CLAIM_DEPTH, octets)? else {
                    return Ok(false);
                };
                self.claims = Some(joined(self.claims.take(), claims)?);
            }
            _ => {}
        }
        Ok(true)
    }
}

/// Reads the fields of a message, one after another.
fn read_fields<'a>(alloc: Global, bytes: &'a [u8]) -> Result<Option<Validation<'a>>, OutOfMemory>
    ensures { IfOk result
        (λ o. option_map validation_shown o
        ≡ message_from (keyed_with claims_put) ([], None) bytes.now) }
{
    let mut validation = Validation {
        spiffe_id: "",
        claims: None,
    };
    let mut rest = bytes;
    while !rest.is_empty() {
        let Some((field, after)) = read_field(rest) else {
            return Ok(None);
        };
        if !validation.add(alloc, &field)? {
            return Ok(None);
        }
        rest = after;
    }
    Ok(Some(validation))
}

/// The claims, where there are any.
fn optional_claims<'a>(
    alloc: Global,
    claims: Option<Vec<ClaimView<'a>>>,
) -> Result<Option<List<Claim>>, OutOfMemory>
    ensures { IfOk result
        (λ o. o ≡ option_map (last_of_each claim_name) (claims_shown claims.entry)) }
{
    match claims {
        Some(claims) => Ok(Some(to_claims(alloc, claims)?)),
        None => Ok(None),
    }
}

/// Reads a message. Returns None where the bytes are none.
pub(crate) fn read_validation(
    alloc: Global,
    bytes: &[u8],
) -> Result<Option<ValidationResponse>, OutOfMemory>
    ensures { IfOk result (λ o. o ≡ validation_message bytes.now) }
{
    let Some(Validation { spiffe_id, claims }) = read_fields(alloc, bytes)? else {
        return Ok(None);
    };
    let spiffe_id = Text::copy_of(alloc, spiffe_id)?;
    let claims = optional_claims(alloc, claims)?;
    Ok(Some(ValidationResponse { spiffe_id, claims }))
}
