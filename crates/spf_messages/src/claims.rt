//! The claims of a validated token: a Struct of the well-known types of Protocol Buffers.

ghost use Rattle.std.specs.Prelude.{◌≡◌, Some, None, map, IfOk, IsTrue, if◌then◌else◌};
ghost use Rattle.std.specs.Option.{option_map};
ghost use Rattle.spf_messages.specs.Wire.{field_of, wire_value};
ghost use Rattle.spf_messages.specs.Message.{entries_in, is_entry_field, last_of_each};
ghost use Rattle.spf_messages.specs.Members.{claim_of};
ghost use Rattle.spf_messages.specs.Folded.{entries_with, put_second, replaced, said_and};
ghost use Rattle.spf_messages.specs.Folded.{value_put};
ghost use Rattle.spf_messages.specs.Claims.{claim_with, claims_with, claim_name, fields_said};
ghost use Rattle.spf_messages.specs.Claims.{items_said, number_said, said_by, value_of, words_said};

use crate::message::text;
use crate::named::{Named, without_repeats};
use crate::number::number_value;
use crate::wire::{Field, FieldValue, read_field};
use spf_api::{Claim, ClaimValue};
use spf_io::{List, OutOfMemory, Text};
use std::alloc::Global;

/// A claim, whose name is a slice of the message that was read.
#[derive(Drop)]
pub(crate) struct ClaimView<'a> {
    pub(crate) name: &'a str,
    pub(crate) value: ClaimValue,
}

impl<'a> Named<'a> for ClaimView<'a> {
    ghost use Rattle.spf_messages.specs.Members.{claim_of};
    ghost use Rattle.spf_messages.specs.Claims.{claim_name};

    type Entry = Claim;

    ghost entry_of = { claim_of };

    ghost name_of = { claim_name };

    fn name(&self) -> &'a str {
        self.name
    }
}

/// The claims with names of their own.
fn owned<'a>(alloc: Global, views: Vec<ClaimView<'a>>) -> Result<List<Claim>, OutOfMemory>
    ensures { IfOk result (λ l. l ≡ map claim_of views.entry.items) }
{
    let mut left = views;
    let mut claims = Vec::with_capacity(alloc, left.len())?;
    while let Some(ClaimView { name, value }) = left.pop() {
        let name = Text::copy_of(alloc, name)?;
        claims.push(Claim { name, value })?;
    }
    claims.reverse();
    Ok(List::new(claims))
}

/// The claims of a Struct: of those with one name the last.
pub(crate) fn to_claims<'a>(
    alloc: Global,
    views: Vec<ClaimView<'a>>,
) -> Result<List<Claim>, OutOfMemory>
    ensures { IfOk result (λ l. l ≡ last_of_each claim_name (map claim_of views.entry.items)) }
{
    owned(alloc, without_repeats(alloc, views)?)
}

/// The number that a field is.
fn number_of(alloc: Global, value: FieldValue<'_>) -> Result<Option<ClaimValue>, OutOfMemory>
    ensures { IfOk result (λ o. o ≡ number_said (wire_value value.entry)) }
{
    match value {
        FieldValue::Eight(bits) => Ok(Some(number_value(alloc, bits)?)),
        _ => Ok(None),
    }
}

/// The text that a field is.
fn words_of(alloc: Global, value: FieldValue<'_>) -> Result<Option<ClaimValue>, OutOfMemory>
    ensures { IfOk result (λ o. o ≡ words_said (wire_value value.entry)) }
{
    let FieldValue::Octets(octets) = value else {
        return Ok(None);
    };
    match text(octets) {
        Some(words) => Ok(Some(ClaimValue::Words(Text::copy_of(alloc, words)?))),
        None => Ok(None),
    }
}

/// Reads a Value, with values at most `depth` deep.
#[cycle(claims)]
fn read_value(alloc: Global, depth: usize, bytes: &[u8]) -> Result<Option<ClaimValue>, OutOfMemory>
    ensures { IfOk result (λ o. o ≡ value_of depth bytes.now) }
{
    let Some(inner) = depth.checked_sub(1) else {
        return Ok(None);
    };
    let mut value = ClaimValue::Unset;
    let mut rest = bytes;
    'fields: while !rest.is_empty() {
        let Some((field, after)) = read_field(rest) else {
            return Ok(None);
        };
        value = match said_after(alloc, inner, value, &field)? {
            Some(value) => value,
            None => return Ok(None),
        };
        rest = after;
    }
    Ok(Some(value))
}

/// What a field says in place of what stood.
#[cycle(claims)]
fn said_after(
    alloc: Global,
    depth: usize,
    before: ClaimValue,
    field: &Field<'_>,
) -> Result<Option<ClaimValue>, OutOfMemory>
    ensures { IfOk result
        (λ o. o ≡ said_and (said_by (value_of depth)) before (field_of field.now)) }
{
    match field.number {
        1 => match field.value {
            FieldValue::Varint(_) => Ok(Some(ClaimValue::Null)),
            _ => Ok(None),
        },
        2 => number_of(alloc, field.value),
        3 => words_of(alloc, field.value),
        4 => match field.value {
            FieldValue::Varint(truth) => Ok(Some(ClaimValue::Bool(truth != 0))),
            _ => Ok(None),
        },
        5 => fields_of(alloc, depth, field.value),
        6 => items_of(alloc, depth, field.value),
        _ => Ok(Some(before)),
    }
}

/// The Struct that a field is.
#[cycle(claims)]
fn fields_of(
    alloc: Global,
    depth: usize,
    value: FieldValue<'_>,
) -> Result<Option<ClaimValue>, OutOfMemory>
    ensures { IfOk result (λ o. o ≡ fields_said (value_of depth) (wire_value value.entry)) }
{
    let FieldValue::Octets(octets) = value else {
        return Ok(None);
    };
    match read_claims(alloc, depth, octets)? {
        Some(claims) => Ok(Some(ClaimValue::Fields(to_claims(alloc, claims)?))),
        None => Ok(None),
    }
}

/// The ListValue that a field is.
#[cycle(claims)]
fn items_of(
    alloc: Global,
    depth: usize,
    value: FieldValue<'_>,
) -> Result<Option<ClaimValue>, OutOfMemory>
    ensures { IfOk result (λ o. o ≡ items_said (value_of depth) (wire_value value.entry)) }
{
    let FieldValue::Octets(octets) = value else {
        return Ok(None);
    };
    match read_items(alloc, depth, octets)? {
        Some(items) => Ok(Some(ClaimValue::Items(List::new(items)))),
        None => Ok(None),
    }
}

/// Adds the value of a field. Returns false where the field is not allowed.
#[cycle(claims)]
#[tactic(auto, unfolding(crate::specs::Folded::entries_with))]
fn add_item(
    alloc: Global,
    depth: usize,
    items: &mut Vec<ClaimValue>,
    field: &Field<'_>,
) -> Result<bool, OutOfMemory>
    ensures { IfOk result
        (λ added. (if added then Some items.new.items else None)
        ≡ entries_with (value_of depth) 1 1 items.old.items (field_of field.now)) }
{
    let Some(octets) = field.octets() else {
        return Ok(field.number > 1);
    };
    if field.number != 1 {
        return Ok(true);
    }
    match read_value(alloc, depth, octets)? {
        Some(value) => items.push(value)?,
        None => return Ok(false),
    }
    Ok(true)
}

/// Reads the values of a ListValue.
#[cycle(claims)]
fn read_items(
    alloc: Global,
    depth: usize,
    bytes: &[u8],
) -> Result<Option<Vec<ClaimValue>>, OutOfMemory>
    ensures { IfOk result
        (λ o. option_map (λ v. v.items) o ≡ entries_in (value_of depth) 1 1 bytes.now) }
{
    let mut items = Vec::new(alloc);
    let mut rest = bytes;
    'fields: while !rest.is_empty() {
        let Some((field, after)) = read_field(rest) else {
            return Ok(None);
        };
        if !add_item(alloc, depth, &mut items, &field)? {
            return Ok(None);
        }
        rest = after;
    }
    Ok(Some(items))
}

/// The name of an entry with what a field says of it.
fn name_after<'a>(before: &'a str, field: &Field<'a>) -> Option<&'a str>
    ensures { option_map (λ n. n.now) result
        ≡ (if is_entry_field (field_of field.now)
        then Some (replaced 1 (field_of field.now) before.entry.now)
        else None) }
{
    let Some(octets) = field.octets() else {
        return if field.number <= 2 {
            None
        } else {
            Some(before)
        };
    };
    if field.number == 1 {
        return text(octets);
    }
    Some(before)
}

/// The value of an entry with what a field says of it.
#[cycle(claims)]
fn value_after(
    alloc: Global,
    depth: usize,
    before: ClaimValue,
    field: &Field<'_>,
) -> Result<Option<ClaimValue>, OutOfMemory>
    requires { IsTrue (is_entry_field (field_of field.now)) }
    ensures { IfOk result
        (λ o. o
        ≡ put_second (value_put (value_of depth)) before (field_of field.now)) }
{
    if field.number != 2 {
        return Ok(Some(before));
    }
    match field.octets() {
        Some(octets) => read_value(alloc, depth, octets),
        None => Ok(None),
    }
}

/// Reads an entry of a Struct. Without a value it holds one that is unset.
#[cycle(claims)]
fn read_claim<'a>(
    alloc: Global,
    depth: usize,
    bytes: &'a [u8],
) -> Result<Option<ClaimView<'a>>, OutOfMemory>
    ensures { IfOk result (λ o. option_map claim_of o ≡ claim_with (value_of depth) bytes.now) }
{
    if depth == 0 {
        return Ok(None);
    }
    let mut name = "";
    let mut value = ClaimValue::Unset;
    let mut rest = bytes;
    'fields: while !rest.is_empty() {
        let Some((field, after)) = read_field(rest) else {
            return Ok(None);
        };
        let Some(next) = name_after(name, &field) else {
            return Ok(None);
        };
        value = match value_after(alloc, depth, value, &field)? {
            Some(value) => value,
            None => return Ok(None),
        };
        name = next;
        rest = after;
    }
    Ok(Some(ClaimView { name, value }))
}

/// Adds the entry of a field. Returns false where the field is not allowed.
#[cycle(claims)]
#[tactic(auto, unfolding(crate::specs::Folded::entries_with))]
fn add_claim<'a>(
    alloc: Global,
    depth: usize,
    claims: &mut Vec<ClaimView<'a>>,
    field: &Field<'a>,
) -> Result<bool, OutOfMemory>
    ensures { IfOk result
        (λ added. (if added then Some (map claim_of claims.new.items) else None)
        ≡ entries_with (claim_with (value_of depth)) 1 1 (map claim_of claims.old.items)
        (field_of field.now)) }
{
    let Some(octets) = field.octets() else {
        return Ok(field.number > 1);
    };
    if field.number != 1 {
        return Ok(true);
    }
    match read_claim(alloc, depth, octets) {
        Ok(Some(claim)) => claims.push(claim)?,
        Ok(None) => return Ok(false),
        Err(e) => return Err(e),
    }
    Ok(true)
}

/// Reads the entries of a Struct, with values at most `depth` deep.
#[cycle(claims)]
pub(crate) fn read_claims<'a>(
    alloc: Global,
    depth: usize,
    bytes: &'a [u8],
) -> Result<Option<Vec<ClaimView<'a>>>, OutOfMemory>
    ensures { IfOk result
        (λ o. option_map (λ v. map claim_of v.items) o ≡ claims_with (value_of depth) bytes.now) }
{
    let mut claims = Vec::new(alloc);
    let mut rest = bytes;
    'fields: while !rest.is_empty() {
        let Some((field, after)) = read_field(rest) else {
            return Ok(None);
        };
        if !add_claim(alloc, depth, &mut claims, &field)? {
            return Ok(None);
        }
        rest = after;
    }
    Ok(Some(claims))
}
