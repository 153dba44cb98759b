//! Varints of Protocol Buffers: seven bits an octet, the least significant first.

ghost use Rattle.std.specs.Prelude.{◌≡◌, ◌<◌, ◌++◌, length, IfSome, OnOk};
ghost use Rattle.std.specs.Option.{option_map};
ghost use Rattle.spf_messages.specs.Wire.{varint_within, varint_at, varint_text};

use spf_io::OutOfMemory;

/// The maximum number of octets of a varint.
const MAX_VARINT: u32 = 10;

/// Reads a varint of at most `max` octets.
fn varint_within(max: u32, bytes: &[u8]) -> Option<(u64, &[u8])>
    ensures exact { option_map (λ x. (x.0, x.1.now)) result ≡ varint_within max bytes.now }
    ensures shorter { IfSome result (λ x. length x.1.now < length bytes.now) }
{
    if max == 0 {
        return None;
    }
    let (octet, rest) = bytes.split_first()?;
    if *octet < 128 {
        return Some((*octet as u64, rest));
    }
    let (high, rest) = varint_within(max - 1, rest)?;
    let value = high.checked_mul(128)?.checked_add((*octet - 128) as u64)?;
    Some((value, rest))
}

/// Reads the varint at the start of the bytes, which is below 2^64 and at most ten octets long.
/// Most have one or two.
#[inline(always)]
pub fn read_varint(bytes: &[u8]) -> Option<(u64, &[u8])>
    ensures exact { option_map (λ x. (x.0, x.1.now)) result ≡ varint_at bytes.now }
    ensures shorter { IfSome result (λ x. length x.1.now < length bytes.now) }
{
    match bytes {
        [octet, rest @ ..] if *octet < 128 => Some((*octet as u64, rest)),
        [low, high, rest @ ..] if *high < 128 => {
            Some((128 * *high as u64 + (*low - 128) as u64, rest))
        }
        _ => varint_within(MAX_VARINT, bytes),
    }
}

/// Appends a number as a varint, in as few octets as it needs.
pub fn put_varint(out: &mut Vec<u8>, number: u64) -> Result<(), OutOfMemory>
    ensures { OnOk result (out.new.items ≡ out.old.items ++ varint_text number) }
{
    let mut left = number;
    'octets: while left >= 128 {
        out.push((128 + left % 128) as u8)?;
        left /= 128;
    }
    out.push(left as u8)?;
    Ok(())
}
