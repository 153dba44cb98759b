//! A certificate, kept as its DER, and the SPIFFE ID that it names.

ghost use Rattle.std.specs.Prelude.{◌≡◌, ◌∷◌, [], IfOk, IfSome, IsTrue, Ok, Some, codes};
ghost use Rattle.std.specs.Str.{IsAscii};
ghost use Rattle.spf_der.specs.Grammar.{CertText};
ghost use Rattle.spf_der.specs.Names.{san_uris_of};
ghost use Rattle.spf_der.specs.Part.{Parts};
ghost use Rattle.spf_der.specs.Read.{never, unique_rule};
ghost use Rattle.spf_der.specs.Value.{seen};
ghost use Rattle.spf_id.specs.Id.{id_text};
ghost use Rattle.spf_io.specs.Rule.{Gives};
ghost use Rattle.spf_x509.specs.Certificate.{IsCertificate, certificate_of, extension_rule, oid_of};
ghost use Rattle.spf_x509.specs.Certificate.{names_rule, san_rule, spiffe_id_rule, uri_rule};
ghost use Rattle.spf_x509.specs.Certificate.{uris_rule, whole_rule};
ghost use Rattle.spf_x509.specs.Errors.{is_memory_certificate};

use crate::error::CertificateError;
use crate::extension::X509ExtensionId;
use spf_der::{
    CertScan, SanUris, X509ParseError, X509ParseKind, read_san_uri_views, scan_certificate,
};
use spf_id::{SpiffeId, TrustDomain, uri_has_spiffe_scheme};
use spf_io::{Bytes, OutOfMemory, Text};
use std::alloc::Global;
use std::marker::Model;

/// The longest URI that a subject alternative name may hold, in bytes.
pub(crate) const MAX_URI_BYTES: usize = 2048;

/// One certificate (RFC 5280 section 4.1), which contracts see as its bytes.
#[derive(Debug, PartialEq, Eq, PartialOrd, Ord, Drop)]
pub struct Certificate {
    der: Bytes,
}

impl Model for Certificate {
    ghost use Rattle.std.specs.Prelude.{List, ℕ};

    ghost Value = { List ℕ };

    ghost view = { λ c. c.der };

    ghost use Rattle.spf_x509.specs.Certificate.{IsCertificate};

    ghost invariant = { λ c. IsCertificate c.der };

    ghost inverse = { λ b. record { der = b } };
}

impl Certificate {
    /// Returns the certificate that the bytes are, whole.
    #[tactic(auto, unfolding(crate::specs::Certificate::certificate_of))]
    pub fn try_from(alloc: Global, der: &[u8]) -> Result<Certificate, CertificateError>
        ensures text { IfOk result (λ c. c ≡ der.now) }
        ensures gives { Gives is_memory_certificate (λ c. c) result (certificate_of der.now) }
    {
        read_whole(der)?;
        Ok(Certificate::of_text(alloc, der)?)
    }

    /// The same, keeping the bytes.
    #[tactic(auto, unfolding(crate::specs::Certificate::certificate_of))]
    pub fn try_from_owned(alloc: Global, der: Vec<u8>) -> Result<Certificate, CertificateError>
        ensures text { IfOk result (λ c. c ≡ der.items) }
        ensures gives { Gives is_memory_certificate (λ c. c) result (certificate_of der.items) }
    {
        read_whole(der.as_slice())?;
        Ok(Certificate {
            der: Bytes::new(der),
        })
    }

    /// A copy of bytes that were read as a certificate.
    pub(crate) fn of_text(alloc: Global, der: &[u8]) -> Result<Certificate, OutOfMemory>
        requires { IsCertificate der.now }
        ensures { IfOk result (λ c. c ≡ der.now) }
    {
        Ok(Certificate {
            der: Bytes::copy_of(alloc, der)?,
        })
    }

    pub fn as_bytes(&self) -> &[u8]
        ensures value { result.now ≡ self.now }
        ensures text { IsCertificate result.now }
    {
        self.der.as_slice()
    }

    /// Returns a copy of the certificate.
    pub fn try_clone(&self, alloc: Global) -> Result<Certificate, OutOfMemory>
        ensures { IfOk result (λ c. c ≡ self.now) }
    {
        Ok(Certificate {
            der: self.der.try_clone(alloc)?,
        })
    }

    /// Returns the one SPIFFE ID of its subject alternative name.
    pub fn spiffe_id(&self, alloc: Global) -> Result<SpiffeId, CertificateError>
        ensures gives { Gives is_memory_certificate (λ id. id) result (spiffe_id_rule self.now) }
        ensures san { (parts : Parts) → CertText self.now parts
            → Gives is_memory_certificate (λ id. id) result (san_rule parts) }
    {
        spiffe_id_from_der(alloc, self.der.as_slice())
    }
}

/// Returns the one SPIFFE ID of the certificate that the bytes are, whole.
#[tactic(auto, unfolding(crate::specs::Certificate::spiffe_id_rule))]
pub fn spiffe_id_from_der(alloc: Global, der: &[u8]) -> Result<SpiffeId, CertificateError>
    ensures { Gives is_memory_certificate (λ id. id) result (spiffe_id_rule der.now) }
{
    let certificate = read_whole(der)?;
    subject_id(alloc, &certificate)
}

/// The view of the certificate that the bytes are, with nothing after it.
#[tactic(auto, unfolding(crate::specs::Certificate::whole_rule))]
pub(crate) fn read_whole<'a>(der: &'a [u8]) -> Result<CertScan<'a>, CertificateError>
    ensures gives { Gives is_memory_certificate (λ c. c) result (whole_rule der.now) }
    ensures text { IfOk result (λ c. CertText der.now c) }
{
    let (certificate, length) = scan_certificate(der)?;
    if length != der.len() {
        return Err(CertificateError::ParseX509Certificate(X509ParseError::new(
            X509ParseKind::InvalidCertificate,
        )));
    }
    Ok(certificate)
}

/// The contents of an extension, if there is one.
fn look_up<'a>(
    certificate: &CertScan<'a>,
    extension: X509ExtensionId,
) -> Result<Option<&'a [u8]>, X509ParseError>
    ensures { Gives never seen result (unique_rule (oid_of extension) certificate.now.extensions) }
{
    match extension {
        X509ExtensionId::KeyUsage => certificate.key_usage(),
        X509ExtensionId::SubjectAlternativeName => certificate.subject_alt_name(),
        X509ExtensionId::BasicConstraints => certificate.basic_constraints(),
    }
}

/// The contents of the one extension of that kind.
#[inline(always)]
#[tactic(auto, unfolding(crate::specs::Certificate::extension_rule))]
pub(crate) fn extension_contents<'a>(
    certificate: &CertScan<'a>,
    extension: X509ExtensionId,
) -> Result<&'a [u8], CertificateError>
    ensures { Gives is_memory_certificate (λ b. b.now) result
        (extension_rule (oid_of extension) extension certificate.now) }
{
    match look_up(certificate, extension)? {
        None => Err(CertificateError::MissingX509Extension(extension)),
        Some(contents) => Ok(contents),
    }
}

fn unexpected_names(alloc: Global) -> Result<CertificateError, OutOfMemory>
    ensures { IfOk result
        (λ e. e ≡ CertificateError.UnexpectedExtension (codes "SubjectAlternativeName")) }
{
    let extension = Text::copy_of(alloc, "SubjectAlternativeName")?;
    Ok(CertificateError::UnexpectedExtension(extension))
}

/// The ID that a URI name is, where it is meant as one. Its trust domain most often is `known`.
#[tactic(auto, unfolding(crate::specs::Certificate::uri_rule))]
fn id_of_uri(
    alloc: Global,
    uri: &str,
    known: Option<&TrustDomain>,
) -> Result<Option<SpiffeId>, CertificateError>
    ensures { Gives is_memory_certificate (λ id. id) result (uri_rule uri.now) }
{
    if uri.len() > MAX_URI_BYTES {
        return Err(CertificateError::OversizedUriSan { max: MAX_URI_BYTES });
    }
    if !uri_has_spiffe_scheme(uri) {
        return Ok(None);
    }
    Ok(Some(SpiffeId::new_sharing(alloc, uri, known)?))
}

/// The one SPIFFE ID of the URIs, taken in order.
fn id_of_uris(
    alloc: Global,
    mut uris: SanUris<'_>,
    known: Option<&TrustDomain>,
) -> Result<SpiffeId, CertificateError>
    ensures { Gives is_memory_certificate (λ id. id) result (uris_rule uris.entry) }
{
    let Some(first) = uris.next_uri() else {
        return Err(CertificateError::MissingSpiffeId);
    };
    let id = id_of_uri(alloc, first, known)?;
    if uris.next_uri().is_some() {
        return Err(CertificateError::MultipleUriSanEntries);
    }
    match id {
        None => Err(CertificateError::MissingSpiffeId),
        Some(id) => Ok(id),
    }
}

/// The one SPIFFE ID of a subject alternative name: the names can be read, and of
/// their URIs, taken in order, the only one is an ID. Its trust domain most often is `known`.
pub(crate) fn id_of_names(
    alloc: Global,
    contents: &[u8],
    known: Option<&TrustDomain>,
) -> Result<SpiffeId, CertificateError>
    ensures { Gives is_memory_certificate (λ id. id) result (names_rule contents.now) }
{
    match read_san_uri_views(contents) {
        None => Err(unexpected_names(alloc)?),
        Some(uris) => id_of_uris(alloc, uris, known),
    }
}

/// The SAN rule.
#[tactic(auto, unfolding(crate::specs::Certificate::san_rule))]
fn subject_id(alloc: Global, certificate: &CertScan<'_>) -> Result<SpiffeId, CertificateError>
    ensures { Gives is_memory_certificate (λ id. id) result (san_rule certificate.now) }
{
    let contents = extension_contents(certificate, X509ExtensionId::SubjectAlternativeName)?;
    id_of_names(alloc, contents, None)
}

/// Whether a URI name is the text of the ID.
#[tactic(auto, unfolding(crate::specs::Certificate::uri_rule))]
fn is_text_of(uri: &str, id: &SpiffeId) -> bool
    ensures { IsTrue result → uri_rule uri.now ≡ Ok (Some id.now) }
{
    uri == id.as_str() && uri.len() <= MAX_URI_BYTES && uri_has_spiffe_scheme(uri)
}

/// Whether the text of the ID is not too long for a URI name.
fn is_short(id: &SpiffeId) -> bool
    ensures { IsTrue result → uri_rule (id_text id.now) ≡ Ok (Some id.now) }
{
    id.as_str().len() <= MAX_URI_BYTES
}

/// Whether the only URI is the text of the ID.
fn are_text_of(mut uris: SanUris<'_>, id: &SpiffeId) -> bool
    ensures { IsTrue result → uris_rule uris.entry ≡ Ok id.now }
{
    match uris.next_uri() {
        Some(first) => is_text_of(first, id) && uris.next_uri().is_none(),
        None => false,
    }
}

/// The one URI that the names are, where an octet tells its length.
fn only_uri(contents: &[u8]) -> Option<&[u8]>
    ensures { IfSome result
        (λ uri. IsAscii uri.now → san_uris_of contents.now ≡ Some (uri.now ∷ [])) }
{
    match contents {
        [0x30, names, 0x86, length, uri @ ..]
            if *names < 128 && *names as usize == uri.len() + 2 && *length as usize == uri.len() =>
            { Some(uri) }
        _ => None,
    }
}

/// Whether the octets are the text of the ID, which is ASCII.
fn is_ascii_text_of(uri: &[u8], id: &SpiffeId) -> bool
    ensures { IsTrue result → IsAscii uri.now × (uri.now ≡ id_text id.now) }
{
    uri == id.as_str().as_bytes()
}

/// Whether the names are found to be that ID. It allocates nothing.
pub(crate) fn is_named(contents: &[u8], id: &SpiffeId) -> bool
    ensures { IsTrue result → names_rule contents.now ≡ Ok id.now }
{
    if let Some(uri) = only_uri(contents) {
        return is_ascii_text_of(uri, id) && is_short(id);
    }
    match read_san_uri_views(contents) {
        None => false,
        Some(uris) => are_text_of(uris, id),
    }
}
