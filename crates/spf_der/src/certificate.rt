//! Certificates (RFC 5280 section 4.1), read where they lie.
ghost use Rattle.std.specs.Prelude.{◌≡◌, ◌<◌, ◌≤◌, length, map, take, IfOk, IfSome};
ghost use Rattle.std.specs.Option.{option_map};
ghost use Rattle.spf_io.specs.Rule.{Gives};
ghost use Rattle.spf_der.specs.Certificate.{after_issuer_at, after_public_key_at};
ghost use Rattle.spf_der.specs.Certificate.{after_unique_id_at, after_version_at, certificate_at};
ghost use Rattle.spf_der.specs.Certificate.{ends, extension_at, extension_text_at, is_version};
ghost use Rattle.spf_der.specs.Certificate.{tbs_of, text_after_validity_at};
ghost use Rattle.spf_der.specs.Error.{is_memory};
ghost use Rattle.spf_der.specs.Grammar.{CertText};
ghost use Rattle.spf_der.specs.Part.{plain};
ghost use Rattle.spf_der.specs.Read.{certificate_rule, extensions_rule, never, index_rule};
ghost use Rattle.spf_der.specs.Read.{unique_rule};
ghost use Rattle.spf_der.specs.Value.{seen};

use crate::error::{CertReadError, X509ParseError, X509ParseKind};
use crate::time::second_time;
use crate::types::{
    after_algorithm, after_bit_string, default_false, integer, object_identifier, small_integer,
};
use crate::value::{OCTET_STRING, SEQUENCE, contents, optional, tagged, whole};
use spf_io::{Bytes, OutOfMemory};
use std::alloc::Global;
use std::marker::Model;

/// Whether the bytes are exactly a version from 0 to 2.
#[inline(always)]
fn is_version_number(inner: &[u8]) -> bool
    ensures { result ≡ is_version (Some inner.now) }
{
    match small_integer(2, inner) {
        Some((_, end)) => end.is_empty(),
        None => false,
    }
}

/// What follows the version, which may be left out (section 4.1.2.1).
#[inline(always)]
#[tactic(auto, unfolding(crate::specs::Certificate::after_version_at))]
fn after_version(bytes: &[u8]) -> Option<&[u8]>
    ensures { seen result ≡ after_version_at bytes.now }
{
    let (version, rest) = optional(0xa0, bytes)?;
    match version {
        Some(inner) => {
            if is_version_number(inner) {
                Some(rest)
            } else {
                None
            }
        }
        None => Some(rest),
    }
}

/// What follows a public key (section 4.1.2.7).
#[inline(always)]
#[tactic(auto, unfolding(crate::specs::Certificate::after_public_key_at))]
fn after_public_key(bytes: &[u8]) -> Option<&[u8]>
    ensures { seen result ≡ after_public_key_at bytes.now }
{
    let (inner, rest) = tagged(SEQUENCE, bytes)?;
    let key = after_algorithm(inner)?;
    let end = after_bit_string(key)?;
    if end.is_empty() { Some(rest) } else { None }
}

/// What follows a unique identifier of that number, which may be left out (section 4.1.2.8).
#[inline(always)]
#[tactic(auto, unfolding(crate::specs::Certificate::after_unique_id_at))]
fn after_unique_id(number: u8, bytes: &[u8]) -> Option<&[u8]>
    requires { number < 32 }
    ensures { seen result ≡ after_unique_id_at number bytes.now }
{
    match bytes {
        [tag, rest @ ..] if *tag == 0x80 + number || *tag == 0xa0 + number => {
            let (_, rest) = contents(rest)?;
            Some(rest)
        }
        _ => Some(bytes),
    }
}

/// The text of the extensions that end the bytes, empty where they are left out (section 4.1.2.9).
#[inline(always)]
#[tactic(auto, unfolding(crate::specs::Certificate::extension_text_at))]
fn extension_text(bytes: &[u8]) -> Option<&[u8]>
    ensures { seen result ≡ extension_text_at bytes.now }
{
    let (extensions, end) = optional(0xa3, bytes)?;
    if !end.is_empty() {
        return None;
    }
    match extensions {
        Some(inner) => whole(SEQUENCE, inner),
        None => Some(&[]),
    }
}

/// What follows version, serial number, signature and issuer (sections 4.1.2.1 to 4.1.2.4).
#[inline(always)]
#[tactic(auto, unfolding(crate::specs::Certificate::after_issuer_at))]
fn after_issuer(bytes: &[u8]) -> Option<&[u8]>
    ensures { seen result ≡ after_issuer_at bytes.now }
{
    let serial = after_version(bytes)?;
    let (_serial, signature) = integer(serial)?;
    let issuer = after_algorithm(signature)?;
    let (_issuer, rest) = tagged(SEQUENCE, issuer)?;
    Some(rest)
}

/// The text of the extensions, after the validity (sections 4.1.2.6 to 4.1.2.9).
#[inline(always)]
#[tactic(auto, unfolding(crate::specs::Certificate::text_after_validity_at))]
fn text_after_validity(bytes: &[u8]) -> Option<&[u8]>
    ensures { seen result ≡ text_after_validity_at bytes.now }
{
    let (_subject, rest) = tagged(SEQUENCE, bytes)?;
    let rest = after_public_key(rest)?;
    let rest = after_unique_id(1, rest)?;
    let rest = after_unique_id(2, rest)?;
    extension_text(rest)
}

/// The expiry and the text of the extensions of a tbsCertificate (section 4.1.2). The times are
/// read last: what is read before them keeps its registers.
#[inline(always)]
#[tactic(auto, using(crate::proofs::Late::tbs_late))]
fn tbs_certificate(bytes: &[u8]) -> Option<(i64, &[u8])>
    ensures { option_map (λ x. (x.0, x.1.now)) result ≡ tbs_of bytes.now }
{
    let rest = after_issuer(bytes)?;
    let (times, rest) = tagged(SEQUENCE, rest)?;
    let text = text_after_validity(rest)?;
    let expiry = second_time(times)?;
    Some((expiry, text))
}

/// Returns the expiry and the text of the extensions of the certificate at the start, and what
/// follows it.
#[inline(always)]
#[tactic(auto, unfolding(crate::specs::Certificate::certificate_at))]
pub fn certificate(der: &[u8]) -> Option<(i64, &[u8], &[u8])>
    ensures exact { option_map (λ x. (x.0, x.1.now, x.2.now)) result ≡ certificate_at der.now }
    ensures front { IfSome result (λ x. length x.2.now < length der.now) }
{
    let (inner, rest) = tagged(SEQUENCE, der)?;
    let (tbs, signature) = tagged(SEQUENCE, inner)?;
    let (expiry, text) = tbs_certificate(tbs)?;
    let signature = after_algorithm(signature)?;
    let end = after_bit_string(signature)?;
    if end.is_empty() {
        Some((expiry, text, rest))
    } else {
        None
    }
}

/// An extension, as slices of what was read.
#[derive(Clone, Copy, Debug, PartialEq, Eq)]
pub struct ExtensionView<'a> {
    pub oid: &'a [u8],
    pub contents: &'a [u8],
}

/// An extension.
#[derive(Debug, PartialEq, Eq, Drop)]
pub struct ExtensionPart {
    pub oid: Bytes,
    pub contents: Bytes,
}

/// Returns the extension at the start, and what follows it (section 4.2).
#[inline(always)]
#[tactic(auto, unfolding(crate::specs::Certificate::extension_at))]
pub fn extension<'a>(bytes: &'a [u8]) -> Option<(ExtensionView<'a>, &'a [u8])>
    ensures exact { option_map (λ x. (plain x.0, x.1.now)) result ≡ extension_at bytes.now }
    ensures shorter { IfSome result (λ x. length x.1.now < length bytes.now) }
{
    let (inner, rest) = tagged(SEQUENCE, bytes)?;
    let (oid, inner) = object_identifier(inner)?;
    let (_critical, inner) = default_false(inner)?;
    let contents = whole(OCTET_STRING, inner)?;
    Some((ExtensionView { oid, contents }, rest))
}

/// How many extensions of a certificate are allocated for at first.
const INITIAL_CAPACITY: usize = 8;

/// The extensions whose concatenation the text is.
fn extensions<'a>(alloc: Global, text: &'a [u8]) -> Result<Vec<ExtensionView<'a>>, CertReadError>
    ensures { Gives is_memory (λ v. map plain v.items) result (extensions_rule text.now) }
{
    let mut found = Vec::with_capacity(alloc, text.len().min(INITIAL_CAPACITY))?;
    let mut rest = text;
    while !rest.is_empty() {
        let Some((extension, after)) = extension(rest) else {
            return Err(CertReadError::invalid());
        };
        found.push(extension)?;
        rest = after;
    }
    Ok(found)
}

/// The contents of the extension with that identifier, if there is one.
fn unique_contents<'a>(
    extensions: &[ExtensionView<'a>],
    oid: &[u8],
) -> Result<Option<&'a [u8]>, X509ParseError>
    ensures { Gives never seen result (unique_rule oid.now (map plain extensions.now)) }
{
    let mut found = None;
    for extension in extensions {
        if extension.oid == oid {
            if found.is_some() {
                return Err(X509ParseError::new(X509ParseKind::DuplicateExtensions));
            }
            found = Some(extension.contents);
        }
    }
    Ok(found)
}

/// What is kept of a certificate, as slices of what was read.
#[derive(Debug, Drop)]
pub struct CertView<'a> {
    expiry: i64,
    extensions: Vec<ExtensionView<'a>>,
}

impl<'a> Model for CertView<'a> {
    ghost use Rattle.std.specs.Prelude.{map};
    ghost use Rattle.spf_der.specs.Part.{Parts};

    ghost Value = { Parts };

    ghost use Rattle.spf_der.specs.Part.{plain};

    ghost view = { λ c. record { expiry = c.expiry; extensions = map plain c.extensions.items } };
}

impl<'a> CertView<'a> {
    /// Returns the end of its validity, in Unix seconds.
    pub fn expiry(&self) -> i64
        ensures { result ≡ self.now.expiry }
    {
        self.expiry
    }

    /// Returns its extensions in order.
    pub fn extensions(&self) -> &[ExtensionView<'a>]
        ensures { map plain result.now ≡ self.now.extensions }
    {
        self.extensions.as_slice()
    }

    /// Returns the contents of the extension with that identifier, if there is one.
    pub fn extension_unique(&self, oid: &[u8]) -> Result<Option<&'a [u8]>, X509ParseError>
        ensures { Gives never seen result (unique_rule oid.now self.now.extensions) }
    {
        unique_contents(self.extensions.as_slice(), oid)
    }
}

/// Returns the certificate at the start of `der`, and its length.
#[tactic(auto, unfolding(crate::specs::Read::certificate_rule))]
pub fn read_certificate_view<'a>(
    alloc: Global,
    der: &'a [u8],
) -> Result<(CertView<'a>, usize), CertReadError>
    ensures gives { Gives is_memory (λ x. (x.0, x.1)) result (certificate_rule der.now) }
    ensures size { IfOk result (λ x. (0 < x.1) × (x.1 ≤ length der.now)) }
    ensures text { IfOk result (λ x. CertText (take x.1 der.now) x.0) }
{
    let Some((expiry, text, rest)) = certificate(der) else {
        return Err(CertReadError::invalid());
    };
    let extensions = extensions(alloc, text)?;
    Ok((CertView { expiry, extensions }, der.len() - rest.len()))
}

/// What is kept of a certificate.
#[derive(Debug, Drop)]
pub struct CertParts {
    expiry: i64,
    extensions: Vec<ExtensionPart>,
}

impl Model for CertParts {
    ghost use Rattle.spf_der.specs.Part.{Parts};

    ghost Value = { Parts };

    ghost view = { λ c. record { expiry = c.expiry; extensions = c.extensions.items } };
}

impl CertParts {
    /// Returns the end of its validity, in Unix seconds.
    pub fn expiry(&self) -> i64
        ensures { result ≡ self.now.expiry }
    {
        self.expiry
    }

    /// Returns its extensions in order.
    pub fn extensions(&self) -> &[ExtensionPart]
        ensures { result.now ≡ self.now.extensions }
    {
        self.extensions.as_slice()
    }
}

/// A copy of the extension.
fn owned(alloc: Global, extension: &ExtensionView) -> Result<ExtensionPart, OutOfMemory>
    ensures { IfOk result (λ e. e ≡ plain extension.now) }
{
    let oid = Bytes::copy_of(alloc, extension.oid)?;
    let contents = Bytes::copy_of(alloc, extension.contents)?;
    Ok(ExtensionPart { oid, contents })
}

/// Copies of the extensions.
fn owned_all(alloc: Global, extensions: &[ExtensionView]) -> Result<Vec<ExtensionPart>, OutOfMemory>
    ensures { IfOk result (λ v. v.items ≡ map plain extensions.now) }
{
    let mut copies = Vec::with_capacity(alloc, extensions.len())?;
    for extension in extensions {
        let copy = owned(alloc, extension)?;
        copies.push(copy)?;
    }
    Ok(copies)
}

/// Returns the certificate at the start of `der`, and its length.
pub fn read_certificate(alloc: Global, der: &[u8]) -> Result<(CertParts, usize), CertReadError>
    ensures gives { Gives is_memory (λ x. (x.0, x.1)) result (certificate_rule der.now) }
    ensures size { IfOk result (λ x. (0 < x.1) × (x.1 ≤ length der.now)) }
{
    let (view, length) = read_certificate_view(alloc, der)?;
    let extensions = owned_all(alloc, view.extensions())?;
    let expiry = view.expiry();
    Ok((CertParts { expiry, extensions }, length))
}

/// Returns the index of the extension with that identifier, if there is one.
pub fn extension_unique(parts: &CertParts, oid: &[u8]) -> Result<Option<usize>, X509ParseError>
    ensures { Gives never (λ o. o) result (index_rule oid.now parts.now.extensions) }
{
    unique_index(parts.extensions.as_slice(), oid)
}

/// The same, in a list of extensions.
fn unique_index(extensions: &[ExtensionPart], oid: &[u8]) -> Result<Option<usize>, X509ParseError>
    ensures { Gives never (λ o. o) result (index_rule oid.now extensions.now) }
{
    let mut found = None;
    for (index, extension) in extensions.iter().enumerate() {
        if extension.oid.as_slice() == oid {
            if found.is_some() {
                return Err(X509ParseError::new(X509ParseKind::DuplicateExtensions));
            }
            found = Some(index);
        }
    }
    Ok(found)
}
