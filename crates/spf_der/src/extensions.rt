//! The three extensions that are read (RFC 5280 section 4.2.1).
ghost use Rattle.std.specs.Prelude.{◌≡◌, ◌<◌, [], ◌∷◌, length, is_some, IfOk, IfSome, MatchOption};
ghost use Rattle.std.specs.Option.{option_map};
ghost use Rattle.spf_der.specs.Extensions.{basic_constraints_of, key_usage_of};
ghost use Rattle.spf_der.specs.Names.{ascii_of, name_at, name_of, san_uris_of, uris_left, uris_of};
ghost use Rattle.spf_der.specs.Value.{seen};

use crate::types::{default_false, is_bits};
use crate::value::{BIT_STRING, INTEGER, SEQUENCE, optional, value, whole};
use spf_io::{OutOfMemory, Text};
use std::alloc::Global;
use std::marker::Model;

/// 2.5.29.15 (section 4.2.1.3).
pub const KEY_USAGE: [u8; 3] = [0x55, 0x1d, 0x0f];

/// 2.5.29.17 (section 4.2.1.6).
pub const SUBJECT_ALT_NAME: [u8; 3] = [0x55, 0x1d, 0x11];

/// 2.5.29.19 (section 4.2.1.9).
pub const BASIC_CONSTRAINTS: [u8; 3] = [0x55, 0x1d, 0x13];

/// The bits of a key usage that an SVID's rules look at.
#[derive(Clone, Copy, Debug, PartialEq, Eq)]
pub struct KeyUsageBits {
    pub digital_signature: bool,
    pub key_cert_sign: bool,
    pub crl_sign: bool,
}

/// Returns the bits of a key usage (section 4.2.1.3), or `None` where it is unreadable.
#[inline(always)]
#[tactic(auto, unfolding(crate::specs::Extensions::key_usage_of))]
pub fn read_key_usage(contents: &[u8]) -> Option<KeyUsageBits>
    ensures { result ≡ key_usage_of contents.now }
{
    let bits = whole(BIT_STRING, contents)?;
    if !is_bits(bits) {
        return None;
    }
    let octet = match bits {
        [_, octet, ..] => *octet,
        _ => 0,
    };
    Some(KeyUsageBits {
        digital_signature: octet & 0x80 != 0,
        key_cert_sign: octet & 0x04 != 0,
        crl_sign: octet & 0x02 != 0,
    })
}

/// Returns the CA flag of basic constraints (section 4.2.1.9), or `None` where they are unreadable.
#[inline(always)]
#[tactic(auto, unfolding(crate::specs::Extensions::basic_constraints_of))]
pub fn read_basic_constraints(contents: &[u8]) -> Option<bool>
    ensures { result ≡ basic_constraints_of contents.now }
{
    let inner = whole(SEQUENCE, contents)?;
    let (ca, rest) = default_false(inner)?;
    let (path_length, end) = optional(INTEGER, rest)?;
    if !end.is_empty() {
        return None;
    }
    match path_length {
        Some([]) => None,
        _ => Some(ca),
    }
}

/// The text of octets that are all below 128.
#[inline]
fn ascii(octets: &[u8]) -> Option<&str>
    ensures { seen result ≡ ascii_of octets.now }
{
    if octets.is_ascii() {
        // Octets below 128 are UTF-8.
        Some(unsafe { str::from_utf8_unchecked(octets) })
    } else {
        None
    }
}

/// A name by its tag and contents octets: its URI if it is one, and `None` where it is not allowed
/// at all.
#[inline]
fn name_parts(tag: u8, contents: &[u8]) -> Option<Option<&str>>
    ensures { option_map seen result ≡ name_of tag contents.now }
{
    if tag & 0xc0 != 0x80 || tag & 0x1f > 8 {
        return None;
    }
    if tag & 0x1f != 6 {
        return Some(None);
    }
    if tag != 0x86 {
        return None;
    }
    let uri = ascii(contents)?;
    Some(Some(uri))
}

/// The name at the start (section 4.2.1.6): its URI if it is one, and what follows it.
#[inline]
#[tactic(auto, unfolding(crate::specs::Names::name_at))]
fn name(bytes: &[u8]) -> Option<(Option<&str>, &[u8])>
    ensures exact { option_map (λ x. (seen x.0, x.1.now)) result ≡ name_at bytes.now }
    ensures shorter { IfSome result (λ x. length x.1.now < length bytes.now) }
{
    let (tag, contents, rest) = value(bytes)?;
    let uri = name_parts(tag, contents)?;
    Some((uri, rest))
}

/// Whether the bytes are a concatenation of names.
fn are_names(bytes: &[u8]) -> bool
    ensures { result ≡ is_some (uris_of bytes.now) }
{
    let mut rest = bytes;
    while !rest.is_empty() {
        let Some((_, after)) = name(rest) else {
            return false;
        };
        rest = after;
    }
    true
}

/// The first URI among the names, and the names after it.
fn first_uri(names: &[u8]) -> Option<(&str, &[u8])>
    ensures { MatchOption result (uris_left names.now ≡ [])
        (λ x. uris_left names.now ≡ x.0.now ∷ uris_left x.1.now) }
{
    let mut rest = names;
    while !rest.is_empty() {
        let (uri, after) = name(rest)?;
        match uri {
            Some(uri) => return Some((uri, after)),
            None => rest = after,
        }
    }
    None
}

/// The URIs among the names of a subject alternative name,
/// which contracts see as the list of those that are left.
#[derive(Debug, Drop)]
pub struct SanUris<'a> {
    rest: &'a [u8],
}

impl<'a> Model for SanUris<'a> {
    ghost use Rattle.std.specs.Prelude.{List, ℕ};
    ghost use Rattle.spf_der.specs.Names.{uris_left};

    ghost Value = { List (List ℕ) };

    ghost view = { λ s. uris_left s.rest.now };
}

impl<'a> SanUris<'a> {
    /// Returns the next URI, whose octets are all below 128.
    pub fn next_uri(&mut self) -> Option<&'a str>
        ensures { MatchOption result ((self.old ≡ []) × (self.new ≡ []))
            (λ uri. self.old ≡ uri.now ∷ self.new) }
    {
        let (uri, rest) = first_uri(self.rest)?;
        self.rest = rest;
        Some(uri)
    }
}

/// Returns the URIs of a subject alternative name (section 4.2.1.6), or `None` where one of its
/// names is unreadable.
#[tactic(auto, unfolding(crate::specs::Names::san_uris_of))]
pub fn read_san_uri_views<'a>(contents: &'a [u8]) -> Option<SanUris<'a>>
    ensures { result ≡ san_uris_of contents.now }
{
    let names = whole(SEQUENCE, contents)?;
    if are_names(names) {
        Some(SanUris { rest: names })
    } else {
        None
    }
}

/// Copies of the URIs that are left.
fn copies(alloc: Global, mut uris: SanUris) -> Result<Vec<Text>, OutOfMemory>
    ensures { IfOk result (λ v. v.items ≡ uris.entry) }
{
    let mut texts = Vec::new(alloc);
    while let Some(uri) = uris.next_uri() {
        let text = Text::copy_of(alloc, uri)?;
        texts.push(text)?;
    }
    Ok(texts)
}

/// Returns the URIs of a subject alternative name (section 4.2.1.6), or `None` where one of its
/// names is unreadable.
pub fn read_san_uris(alloc: Global, contents: &[u8]) -> Result<Option<Vec<Text>>, OutOfMemory>
    ensures { IfOk result (λ o. option_map (λ v. v.items) o ≡ san_uris_of contents.now) }
{
    match read_san_uri_views(contents) {
        None => Ok(None),
        Some(uris) => {
            let texts = copies(alloc, uris)?;
            Ok(Some(texts))
        }
    }
}
