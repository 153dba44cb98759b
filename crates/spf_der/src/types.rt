//! The small types that certificates and keys share.
ghost use Rattle.std.specs.Prelude.{◌≡◌};
ghost use Rattle.std.specs.Option.{option_map};
ghost use Rattle.spf_der.specs.Types.{after_algorithm_at, after_bit_string_at, boolean_of};
ghost use Rattle.spf_der.specs.Types.{default_false_at, integer_at, is_bit_string};
ghost use Rattle.spf_der.specs.Types.{object_identifier_at, small_integer_at, small_of};
ghost use Rattle.spf_der.specs.Value.{seen, seen_two};

use crate::value::{
    BIT_STRING, BOOLEAN, INTEGER, OBJECT_IDENTIFIER, SEQUENCE, optional, tagged, value,
};

/// OBJECT IDENTIFIER (X.690 section 8.19): its contents octets, and what follows it.
#[inline(always)]
#[tactic(auto, unfolding(crate::specs::Types::object_identifier_at))]
pub fn object_identifier(bytes: &[u8]) -> Option<(&[u8], &[u8])>
    ensures { seen_two result ≡ object_identifier_at bytes.now }
{
    let (oid, rest) = tagged(OBJECT_IDENTIFIER, bytes)?;
    if oid.is_empty() {
        None
    } else {
        Some((oid, rest))
    }
}

/// INTEGER (X.690 section 8.3): its contents octets, and what follows it.
#[inline(always)]
#[tactic(auto, unfolding(crate::specs::Types::integer_at))]
pub fn integer(bytes: &[u8]) -> Option<(&[u8], &[u8])>
    ensures { seen_two result ≡ integer_at bytes.now }
{
    let (number, rest) = tagged(INTEGER, bytes)?;
    if number.is_empty() {
        None
    } else {
        Some((number, rest))
    }
}

/// One octet, at most `max`.
#[inline(always)]
fn small(max: u8, contents: &[u8]) -> Option<u8>
    ensures { result ≡ small_of max contents.now }
{
    match contents {
        [number] if *number <= max => Some(*number),
        _ => None,
    }
}

/// Returns an INTEGER of one octet, at most `max`, and what follows it.
#[inline(always)]
#[tactic(auto, unfolding(crate::specs::Types::small_integer_at))]
pub fn small_integer(max: u8, bytes: &[u8]) -> Option<(u8, &[u8])>
    ensures { option_map (λ x. (x.0, x.1.now)) result ≡ small_integer_at max bytes.now }
{
    let (contents, rest) = tagged(INTEGER, bytes)?;
    let number = small(max, contents)?;
    Some((number, rest))
}

/// The contents octets of a BOOLEAN (X.690 sections 8.2 and 11.1).
#[inline(always)]
fn boolean(contents: &[u8]) -> Option<bool>
    ensures { result ≡ boolean_of contents.now }
{
    match contents {
        [0xff] => Some(true),
        [0x00] => Some(false),
        _ => None,
    }
}

/// Returns an optional BOOLEAN whose default is false, and what follows it.
#[inline(always)]
#[tactic(auto, unfolding(crate::specs::Types::default_false_at))]
pub fn default_false(bytes: &[u8]) -> Option<(bool, &[u8])>
    ensures { option_map (λ x. (x.0, x.1.now)) result ≡ default_false_at bytes.now }
{
    let (contents, rest) = optional(BOOLEAN, bytes)?;
    match contents {
        None => Some((false, rest)),
        Some(contents) => {
            let flag = boolean(contents)?;
            Some((flag, rest))
        }
    }
}

/// Returns whether these are the contents octets of a BIT STRING (X.690 section 8.6).
#[inline(always)]
pub fn is_bits(contents: &[u8]) -> bool
    ensures { result ≡ is_bit_string contents.now }
{
    match contents {
        [] => false,
        [unused, octets @ ..] => *unused <= 7 && (*unused == 0 || !octets.is_empty()),
    }
}

/// Returns what follows a BIT STRING.
#[inline(always)]
#[tactic(auto, unfolding(crate::specs::Types::after_bit_string_at))]
pub fn after_bit_string(bytes: &[u8]) -> Option<&[u8]>
    ensures { seen result ≡ after_bit_string_at bytes.now }
{
    let (contents, rest) = tagged(BIT_STRING, bytes)?;
    if is_bits(contents) { Some(rest) } else { None }
}

/// Returns what follows an AlgorithmIdentifier (RFC 5280 section 4.1.1.2).
#[inline(always)]
#[tactic(auto, unfolding(crate::specs::Types::after_algorithm_at))]
pub fn after_algorithm(bytes: &[u8]) -> Option<&[u8]>
    ensures { seen result ≡ after_algorithm_at bytes.now }
{
    let (inner, rest) = tagged(SEQUENCE, bytes)?;
    let (_oid, parameters) = object_identifier(inner)?;
    if parameters.is_empty() {
        return Some(rest);
    }
    let (_tag, _parameters, end) = value(parameters)?;
    if end.is_empty() { Some(rest) } else { None }
}
