//! Numbers, byte fields and text fields of a payload. A
//! reader returns the value, and the bytes that follow it.

ghost use Rattle.std.specs.Prelude.{◌≡◌, ◌<◌, ◌^◌, ◌++◌, length, IfOk, OnOk, None, Some};
ghost use Rattle.std.specs.Prelude.{if◌then◌else◌};
ghost use Rattle.std.specs.Int.{w32, to_be_bytes};
ghost use Rattle.std.specs.Option.{option_map};
ghost use Rattle.std.specs.Str.{is_utf8};
ghost use Rattle.spf_api.specs.Layout.{HasLength32, IsText, field_text};
ghost use Rattle.spf_api.specs.Reading.{number_at, byte_field_at, text_field_at};

use spf_io::{OutOfMemory, Text};
use std::alloc::Global;

/// Reads a length or a count: four octets, big-endian.
#[tactic(auto, unfolding(crate::specs::Reading::number_at))]
pub(crate) fn read_number(bytes: &[u8]) -> Option<(usize, &[u8])>
    ensures { option_map (λ x. (x.0, x.1.now)) result ≡ number_at bytes.now }
{
    match bytes {
        [a, b, c, d, rest @ ..] => Some((u32::from_be_bytes([*a, *b, *c, *d]) as usize, rest)),
        _ => None,
    }
}

/// Returns the byte field at the start of the bytes, which is a
/// length of four octets and that many octets, and what follows it.
#[tactic(auto, unfolding(crate::specs::Reading::byte_field_at))]
pub fn read_byte_field(bytes: &[u8]) -> Option<(&[u8], &[u8])>
    ensures { option_map (λ x. (x.0.now, x.1.now)) result ≡ byte_field_at bytes.now }
{
    let (length, rest) = read_number(bytes)?;
    if rest.len() < length {
        return None;
    }
    Some(rest.split_at(length))
}

/// Whether the octets are UTF-8. It stands apart, since most texts are ASCII.
#[inline(never)]
fn is_text(octets: &[u8]) -> bool
    ensures { result ≡ is_utf8 octets.now }
{
    match str::from_utf8(octets) {
        Ok(_) => true,
        Err(_) => false,
    }
}

/// The text that the octets are, where they are UTF-8. Octets below 128 are.
#[inline(always)]
fn text_of(octets: &[u8]) -> Option<&str>
    ensures { option_map (λ t. t.now) result
        ≡ (if is_utf8 octets.now then Some octets.now else None) }
{
    if octets.is_ascii() || is_text(octets) {
        return Some(unsafe { str::from_utf8_unchecked(octets) });
    }
    None
}

/// Returns the text field at the start of the bytes,
/// which is a byte field in UTF-8, and what follows it.
#[inline(always)]
#[tactic(auto, unfolding(crate::specs::Reading::text_field_at))]
pub fn read_text_field(bytes: &[u8]) -> Option<(&str, &[u8])>
    ensures { option_map (λ x. (x.0.now, x.1.now)) result ≡ text_field_at bytes.now }
{
    let (octets, rest) = read_byte_field(bytes)?;
    let text = text_of(octets)?;
    Some((text, rest))
}

/// Reads a text field, and copies it.
pub(crate) fn read_owned_text(
    alloc: Global,
    bytes: &[u8],
) -> Result<Option<(Text, &[u8])>, OutOfMemory>
    ensures { IfOk result (λ o. option_map (λ x. (x.0, x.1.now)) o ≡ text_field_at bytes.now) }
{
    let Some((text, rest)) = read_text_field(bytes) else {
        return Ok(None);
    };
    Ok(Some((Text::copy_of(alloc, text)?, rest)))
}

/// Appends a length or a count. One that four octets cannot hold counts as out of memory.
pub(crate) fn put_number(out: &mut Vec<u8>, number: usize) -> Result<(), OutOfMemory>
    ensures short { OnOk result (number < 2 ^ 32) }
    ensures octets { OnOk result (out.new.items ≡ out.old.items ++ to_be_bytes w32 number) }
{
    let Ok(number) = u32::try_from(number) else {
        return Err(OutOfMemory);
    };
    out.extend_from_slice(&number.to_be_bytes())?;
    Ok(())
}

#[tactic(auto, unfolding(crate::specs::Layout::field_text))]
pub(crate) fn put_bytes(out: &mut Vec<u8>, octets: &[u8]) -> Result<(), OutOfMemory>
    ensures short { OnOk result (HasLength32 octets.now) }
    ensures octets { OnOk result (out.new.items ≡ out.old.items ++ field_text octets.now) }
{
    put_number(out, octets.len())?;
    out.extend_from_slice(octets)?;
    Ok(())
}

pub(crate) fn put_text(out: &mut Vec<u8>, text: &Text) -> Result<(), OutOfMemory>
    ensures fits { OnOk result (IsText text.now) }
    ensures octets { OnOk result (out.new.items ≡ out.old.items ++ field_text text.now) }
{
    put_bytes(out, text.as_str().as_bytes())
}
