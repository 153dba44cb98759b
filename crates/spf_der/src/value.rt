//! Values of DER: a tag octet, the shortest length, and
//! that many contents octets (X.690 sections 8.1 and 10.1).
ghost use Rattle.std.specs.Prelude.{◌≡◌, ◌-◌, ◌<◌, ◌≤◌, ◌∷◌, length, IfSome};
ghost use Rattle.std.specs.Option.{option_map};
ghost use Rattle.spf_der.specs.Value.{MeetsRest, contents_at, four_octets};
ghost use Rattle.spf_der.specs.Value.{long_length_at, one_octet, optional_at, seen, seen_optional};
ghost use Rattle.spf_der.specs.Value.{seen_two, seen_value, tagged_at, three_octets, two_octets};
ghost use Rattle.spf_der.specs.Value.{value_at, whole_at};

/// Tag octets (X.690 section 8.1.2).
pub const BOOLEAN: u8 = 0x01;

pub const INTEGER: u8 = 0x02;

pub const BIT_STRING: u8 = 0x03;

pub const OCTET_STRING: u8 = 0x04;

pub const OBJECT_IDENTIFIER: u8 = 0x06;

pub const UTC_TIME: u8 = 0x17;

pub const GENERALIZED_TIME: u8 = 0x18;

pub const SEQUENCE: u8 = 0x30;

#[inline]
fn one(bytes: &[u8]) -> Option<usize>
    ensures { MeetsRest 1 result (one_octet bytes.now) bytes.now }
{
    match bytes {
        [a, ..] if *a >= 128 => Some(*a as usize),
        _ => None,
    }
}

#[inline]
fn two(bytes: &[u8]) -> Option<usize>
    ensures { MeetsRest 2 result (two_octets bytes.now) bytes.now }
{
    match bytes {
        [a, b, ..] if *a != 0 => Some(*a as usize * 256 + *b as usize),
        _ => None,
    }
}

#[inline]
fn three(bytes: &[u8]) -> Option<usize>
    ensures { MeetsRest 3 result (three_octets bytes.now) bytes.now }
{
    match bytes {
        [a, b, c, ..] if *a != 0 => { Some((*a as usize * 256 + *b as usize) * 256 + *c as usize) }
        _ => None,
    }
}

#[inline]
fn four(bytes: &[u8]) -> Option<usize>
    ensures { MeetsRest 4 result (four_octets bytes.now) bytes.now }
{
    match bytes {
        [a, b, c, d, ..] if *a != 0 => {
            Some(((*a as usize * 256 + *b as usize) * 256 + *c as usize) * 256 + *d as usize)
        }
        _ => None,
    }
}

/// A length of 128 or more, after its first octet, which says how many octets follow.
#[inline(always)]
#[tactic(auto, unfolding(crate::specs::Value::long_length_at))]
fn long_length(first: u8, rest: &[u8]) -> Option<usize>
    ensures { MeetsRest (first - 128) result (long_length_at first rest.now) rest.now }
{
    match first {
        0x81 => one(rest),
        0x82 => two(rest),
        0x83 => three(rest),
        0x84 => four(rest),
        _ => None,
    }
}

/// The contents and what follows them, after the first octet of their length.
#[inline(always)]
#[tactic(auto, unfolding(crate::specs::Value::contents_at, crate::specs::Value::length_at))]
fn contents_after(first: u8, rest: &[u8]) -> Option<(&[u8], &[u8])>
    ensures exact { seen_two result ≡ contents_at (first ∷ rest.now) }
    ensures shorter { IfSome result (λ x. length x.1.now ≤ length rest.now) }
{
    if first < 128 {
        if rest.len() < first as usize {
            return None;
        }
        let (contents, rest) = rest.split_at(first as usize);
        return Some((contents, rest));
    }
    let length = long_length(first, rest)?;
    let rest = &rest[(first - 128) as usize..];
    if rest.len() < length {
        return None;
    }
    let (contents, rest) = rest.split_at(length);
    Some((contents, rest))
}

/// Returns the contents of a value after its tag, and what follows them.
#[inline(always)]
#[tactic(auto, unfolding(crate::specs::Value::contents_at, crate::specs::Value::length_at))]
pub fn contents(bytes: &[u8]) -> Option<(&[u8], &[u8])>
    ensures exact { seen_two result ≡ contents_at bytes.now }
    ensures shorter { IfSome result (λ x. length x.1.now < length bytes.now) }
{
    let (first, rest) = bytes.split_first()?;
    contents_after(*first, rest)
}

/// Returns the value at the start: its tag, its contents, and what follows it.
#[inline(always)]
#[tactic(auto, unfolding(crate::specs::Value::value_at, crate::specs::Value::contents_at, crate::specs::Value::length_at))]
pub fn value(bytes: &[u8]) -> Option<(u8, &[u8], &[u8])>
    ensures exact { seen_value result ≡ value_at bytes.now }
    ensures shorter { IfSome result (λ x. length x.2.now < length bytes.now) }
{
    let [tag, first, rest @ ..] = bytes else {
        return None;
    };
    if *tag & 0x1f == 0x1f {
        return None;
    }
    let (contents, rest) = contents_after(*first, rest)?;
    Some((*tag, contents, rest))
}

/// Returns the contents of the value of that tag at the start, and what follows it.
#[inline(always)]
#[tactic(auto, unfolding(crate::specs::Value::tagged_at, crate::specs::Value::contents_at, crate::specs::Value::length_at))]
pub fn tagged(tag: u8, bytes: &[u8]) -> Option<(&[u8], &[u8])>
    ensures exact { seen_two result ≡ tagged_at tag bytes.now }
    ensures shorter { IfSome result (λ x. length x.1.now < length bytes.now) }
{
    let [octet, first, rest @ ..] = bytes else {
        return None;
    };
    if *octet != tag {
        return None;
    }
    contents_after(*first, rest)
}

/// Returns the contents of the value of that tag, where the bytes are exactly one.
#[inline(always)]
#[tactic(auto, unfolding(crate::specs::Value::whole_at))]
pub fn whole(tag: u8, bytes: &[u8]) -> Option<&[u8]>
    ensures { seen result ≡ whole_at tag bytes.now }
{
    let (contents, rest) = tagged(tag, bytes)?;
    if rest.is_empty() {
        Some(contents)
    } else {
        None
    }
}

/// Returns the contents of the value of that tag, if one stands at the start, and what follows it.
#[inline(always)]
#[tactic(auto, unfolding(crate::specs::Value::optional_at))]
pub fn optional(tag: u8, bytes: &[u8]) -> Option<(Option<&[u8]>, &[u8])>
    ensures { seen_optional result ≡ optional_at tag bytes.now }
{
    match bytes {
        [first, rest @ ..] if *first == tag => {
            let (contents, rest) = contents(rest)?;
            Some((Some(contents), rest))
        }
        _ => Some((None, bytes)),
    }
}
