//! Fields of Protocol Buffers: a tag, which is a number and a type, and a value.

ghost use Rattle.std.specs.Prelude.{◌≡◌, ◌<◌, ◌≤◌, ◌^◌, ◌*◌, ◌++◌, length, IfSome, OnOk};
ghost use Rattle.std.specs.Option.{option_map};
ghost use Rattle.spf_messages.specs.Wire.{after, delimited, delimited_at, eight_at, value_at};
ghost use Rattle.spf_messages.specs.Wire.{field_at, field_of, field_text, wire_value};

use crate::varint::{put_varint, read_varint};
use spf_io::OutOfMemory;

/// The value of a field, by its type.
#[derive(Clone, Copy, Debug)]
pub enum FieldValue<'a> {
    /// A varint (type 0).
    Varint(u64),
    /// Eight octets (type 1), the least significant first.
    Eight(u64),
    /// Octets after their length (type 2), as a slice of the message.
    Octets(&'a [u8]),
    /// Four octets (type 5). No message of the Workload API has any.
    Four,
}

/// A field of a message.
#[derive(Clone, Copy, Debug)]
pub struct Field<'a> {
    pub number: u64,
    pub value: FieldValue<'a>,
}

impl<'a> Field<'a> {
    /// Returns the octets of a length-delimited field.
    #[inline(always)]
    pub fn octets(&self) -> Option<&'a [u8]>
        ensures { option_map (λ x. x.now) result ≡ delimited (wire_value self.now.value) }
    {
        match self.value {
            FieldValue::Octets(octets) => Some(octets),
            _ => None,
        }
    }
}

/// What follows `count` octets.
fn skip(count: usize, bytes: &[u8]) -> Option<&[u8]>
    ensures exact { option_map (λ x. x.now) result ≡ after count bytes.now }
{
    bytes.get(count..)
}

/// Reads eight octets, the least significant first.
#[tactic(auto, unfolding(crate::specs::Wire::eight_at))]
fn read_eight(bytes: &[u8]) -> Option<(u64, &[u8])>
    ensures exact { option_map (λ x. (x.0, x.1.now)) result ≡ eight_at bytes.now }
    ensures shorter { IfSome result (λ x. length x.1.now < length bytes.now) }
{
    match bytes {
        [a, b, c, d, e, f, g, h, rest @ ..] => Some((
            u64::from_le_bytes([*a, *b, *c, *d, *e, *f, *g, *h]),
            rest,
        )),
        _ => None,
    }
}

/// Reads a length and octets of that length.
#[inline(always)]
#[tactic(auto, unfolding(crate::specs::Wire::delimited_at))]
fn read_delimited(bytes: &[u8]) -> Option<(&[u8], &[u8])>
    ensures exact { option_map (λ x. (x.0.now, x.1.now)) result ≡ delimited_at bytes.now }
    ensures shorter { IfSome result (λ x. length x.1.now < length bytes.now) }
{
    let (length, rest) = read_varint(bytes)?;
    if length > rest.len() as u64 {
        return None;
    }
    Some(rest.split_at(length as usize))
}

/// Reads the value of a type at the start of the bytes, and what follows it.
#[inline(always)]
fn read_value(wire_type: u64, bytes: &[u8]) -> Option<(FieldValue<'_>, &[u8])>
    ensures exact { option_map (λ x. (wire_value x.0, x.1.now)) result
        ≡ value_at wire_type bytes.now }
    ensures shorter { IfSome result (λ x. length x.1.now ≤ length bytes.now) }
{
    match wire_type {
        0 => {
            let (number, rest) = read_varint(bytes)?;
            Some((FieldValue::Varint(number), rest))
        }
        1 => {
            let (bits, rest) = read_eight(bytes)?;
            Some((FieldValue::Eight(bits), rest))
        }
        2 => {
            let (octets, rest) = read_delimited(bytes)?;
            Some((FieldValue::Octets(octets), rest))
        }
        5 => Some((FieldValue::Four, skip(4, bytes)?)),
        _ => None,
    }
}

/// Reads the field at the start of the bytes, and what follows it.
#[tactic(auto, unfolding(crate::specs::Wire::field_at))]
pub fn read_field(bytes: &[u8]) -> Option<(Field<'_>, &[u8])>
    ensures exact { option_map (λ x. (field_of x.0, x.1.now)) result ≡ field_at bytes.now }
    ensures shorter { IfSome result (λ x. length x.1.now < length bytes.now) }
{
    let (tag, rest) = read_varint(bytes)?;
    if tag >= 1 << 32 || tag < 8 {
        return None;
    }
    let (value, rest) = read_value(tag % 8, rest)?;
    let number = tag / 8;
    Some((Field { number, value }, rest))
}

/// Appends a length-delimited field of that number.
#[tactic(auto, unfolding(crate::specs::Wire::field_text))]
pub fn put_field(out: &mut Vec<u8>, number: u32, octets: &[u8]) -> Result<(), OutOfMemory>
    requires { number < 2 ^ 29 }
    ensures { OnOk result (out.new.items ≡ out.old.items ++ field_text number octets.now) }
{
    put_varint(out, 8 * number as u64 + 2)?;
    put_varint(out, octets.len() as u64)?;
    out.extend_from_slice(octets)?;
    Ok(())
}
