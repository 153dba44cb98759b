//! What the rules of an SVID look up in a certificate, found in one walk over its extensions,
//! without allocating.
ghost use Rattle.std.specs.Prelude.{◌≡◌, ◌<◌, ◌≤◌, length, take, IfOk};
ghost use Rattle.spf_io.specs.Rule.{Gives};
ghost use Rattle.spf_der.specs.Error.{is_memory};
ghost use Rattle.spf_der.specs.Grammar.{CertText};
ghost use Rattle.spf_der.specs.Part.{plain};
ghost use Rattle.spf_der.specs.Read.{certificate_rule, extensions_rule, never, unique_rule};
ghost use Rattle.spf_der.specs.Identifier.{basic_constraints_identifier, key_usage_identifier};
ghost use Rattle.spf_der.specs.Identifier.{subject_alt_name_identifier};
ghost use Rattle.spf_der.specs.Scan.{FoundWith, IsScanned, found_after, found_of, last_arc_of};
ghost use Rattle.spf_der.specs.Value.{seen};

use crate::certificate::{ExtensionView, certificate, extension};
use crate::error::{CertReadError, X509ParseError, X509ParseKind};
use std::marker::Model;

/// What is found of one extension.
#[derive(Clone, Copy, Debug)]
pub enum Found<'a> {
    Missing,
    Once(&'a [u8]),
    Twice,
}

/// What is found after one more such extension.
#[inline]
fn once_more<'a>(found: Found<'a>, contents: &'a [u8]) -> Found<'a>
    ensures { found_of result ≡ found_after (found_of found.entry) contents.now }
{
    match found {
        Found::Missing => Found::Once(contents),
        _ => Found::Twice,
    }
}

/// The contents of the one extension, if there is one.
#[inline]
fn unique<'a>(found: Found<'a>) -> Result<Option<&'a [u8]>, X509ParseError>
    ensures { Gives never seen result (found_of found.entry) }
{
    match found {
        Found::Missing => Ok(None),
        Found::Once(contents) => Ok(Some(contents)),
        Found::Twice => Err(X509ParseError::new(X509ParseKind::DuplicateExtensions)),
    }
}

/// What is found of the three extensions.
#[derive(Clone, Copy, Debug)]
pub struct Extensions<'a> {
    pub key_usage: Found<'a>,
    pub subject_alt_name: Found<'a>,
    pub basic_constraints: Found<'a>,
}

/// The last arc of an identifier 2.5.29.N, for an N below 128.
#[inline(always)]
fn last_arc(oid: &[u8]) -> Option<u8>
    ensures { result ≡ last_arc_of oid.now }
{
    match oid {
        [0x55, 0x1d, arc] => Some(*arc),
        _ => None,
    }
}

/// What is found after one more extension.
#[inline]
fn with_extension<'a>(found: Extensions<'a>, extension: ExtensionView<'a>) -> Extensions<'a>
    ensures { FoundWith result found.entry (plain extension.entry) }
{
    match last_arc(extension.oid) {
        Some(15) => Extensions {
            key_usage: once_more(found.key_usage, extension.contents),
            ..found
        },
        Some(17) => Extensions {
            subject_alt_name: once_more(found.subject_alt_name, extension.contents),
            ..found
        },
        Some(19) => Extensions {
            basic_constraints: once_more(found.basic_constraints, extension.contents),
            ..found
        },
        _ => found,
    }
}

/// What is found in the extensions whose concatenation the text is.
fn scan_extensions<'a>(text: &'a [u8]) -> Result<Extensions<'a>, CertReadError>
    ensures { IsScanned result (extensions_rule text.now) }
{
    let mut found = Extensions {
        key_usage: Found::Missing,
        subject_alt_name: Found::Missing,
        basic_constraints: Found::Missing,
    };
    let mut rest = text;
    while !rest.is_empty() {
        let Some((extension, after)) = extension(rest) else {
            return Err(CertReadError::invalid());
        };
        found = with_extension(found, extension);
        rest = after;
    }
    Ok(found)
}

/// A certificate by its expiry and its extensions, of
/// which those that an SVID's rules look up are found.
#[derive(Debug, Drop)]
pub struct CertScan<'a> {
    expiry: i64,
    extensions: &'a [u8],
    found: Extensions<'a>,
}

impl<'a> Model for CertScan<'a> {
    ghost use Rattle.spf_der.specs.Part.{Parts};
    ghost use Rattle.spf_der.specs.Scan.{HasFound, extensions_in};

    ghost Value = { Parts };

    ghost view = { λ c. record { expiry = c.expiry; extensions = extensions_in c.extensions.now } };

    ghost invariant = { λ c. HasFound c.found (extensions_in c.extensions.now) };
}

impl<'a> CertScan<'a> {
    /// Returns the end of its validity, in Unix seconds.
    pub fn expiry(&self) -> i64
        ensures { result ≡ self.now.expiry }
    {
        self.expiry
    }

    /// Returns the contents of the key usage (section 4.2.1.3), if there is one.
    pub fn key_usage(&self) -> Result<Option<&'a [u8]>, X509ParseError>
        ensures { Gives never seen result (unique_rule key_usage_identifier self.now.extensions) }
    {
        unique(self.found.key_usage)
    }

    /// Returns the contents of the subject alternative name (section 4.2.1.6), if there is one.
    pub fn subject_alt_name(&self) -> Result<Option<&'a [u8]>, X509ParseError>
        ensures { Gives never seen result
            (unique_rule subject_alt_name_identifier self.now.extensions) }
    {
        unique(self.found.subject_alt_name)
    }

    /// Returns the contents of the basic constraints (section 4.2.1.9), if there are any.
    pub fn basic_constraints(&self) -> Result<Option<&'a [u8]>, X509ParseError>
        ensures { Gives never seen result
            (unique_rule basic_constraints_identifier self.now.extensions) }
    {
        unique(self.found.basic_constraints)
    }
}

/// Returns the certificate at the start of `der`, and its length. It allocates nothing.
#[tactic(auto, unfolding(crate::specs::Read::certificate_rule))]
pub fn scan_certificate<'a>(der: &'a [u8]) -> Result<(CertScan<'a>, usize), CertReadError>
    ensures gives { Gives is_memory (λ x. (x.0, x.1)) result (certificate_rule der.now) }
    ensures size { IfOk result (λ x. (0 < x.1) × (x.1 ≤ length der.now)) }
    ensures text { IfOk result (λ x. CertText (take x.1 der.now) x.0) }
{
    let Some((expiry, extensions, rest)) = certificate(der) else {
        return Err(CertReadError::invalid());
    };
    let found = scan_extensions(extensions)?;
    let length = der.len() - rest.len();
    Ok((
        CertScan {
            expiry,
            extensions,
            found,
        },
        length,
    ))
}
