//! Fields of Protocol Buffers: a tag, which is a number and a type, and a value.

ghost use Rattle.std.specs.Prelude.{◌≡◌, ◌<◌, ◌≤◌, length, IfSome};
ghost use Rattle.std.specs.Option.{option_map};
ghost use Rattle.spf_proto.specs.Wire.{after, delimited_at, value_at, field_at, field_of};

use crate::varint::read_varint;

/// A field of a message, as a slice of it.
#[derive(Clone, Copy, Debug)]
pub struct Field<'a> {
    pub number: u64,
    /// The octets of a length-delimited field (type 2). None for a field of another type.
    pub octets: Option<&'a [u8]>,
}

/// What follows `count` octets.
fn skip(count: usize, bytes: &[u8]) -> Option<&[u8]>
    ensures exact { option_map (λ x. x.now) result ≡ after count bytes.now }
{
    bytes.get(count..)
}

/// Reads a length and octets of that length.
#[tactic(auto, unfolding(crate::specs::Wire::delimited_at))]
fn read_delimited(bytes: &[u8]) -> Option<(&[u8], &[u8])>
    ensures exact { option_map (λ x. (x.0.now, x.1.now)) result ≡ delimited_at bytes.now }
    ensures shorter { IfSome result (λ x. length x.1.now < length bytes.now) }
{
    let (length, rest) = read_varint(bytes)?;
    if length > rest.len() as u64 {
        return None;
    }
    Some(rest.split_at(length as usize))
}

/// Reads the value of a type at the start of the bytes: the
/// octets of a length-delimited one, and what follows it.
fn read_value(wire_type: u64, bytes: &[u8]) -> Option<(Option<&[u8]>, &[u8])>
    ensures exact { option_map (λ x. (option_map (λ b. b.now) x.0, x.1.now)) result
        ≡ value_at wire_type bytes.now }
    ensures shorter { IfSome result (λ x. length x.1.now ≤ length bytes.now) }
{
    match wire_type {
        0 => {
            let (_, rest) = read_varint(bytes)?;
            Some((None, rest))
        }
        1 => Some((None, skip(8, bytes)?)),
        2 => {
            let (octets, rest) = read_delimited(bytes)?;
            Some((Some(octets), rest))
        }
        5 => Some((None, skip(4, bytes)?)),
        _ => None,
    }
}

/// Reads the field at the start of the bytes, and what follows it.
#[tactic(auto, unfolding(crate::specs::Wire::field_at))]
pub fn read_field(bytes: &[u8]) -> Option<(Field<'_>, &[u8])>
    ensures exact { option_map (λ x. (field_of x.0, x.1.now)) result ≡ field_at bytes.now }
    ensures shorter { IfSome result (λ x. length x.1.now < length bytes.now) }
{
    let (tag, rest) = read_varint(bytes)?;
    if tag >= 1 << 32 || tag < 8 {
        return None;
    }
    let (octets, rest) = read_value(tag % 8, rest)?;
    let number = tag / 8;
    Some((Field { number, octets }, rest))
}
