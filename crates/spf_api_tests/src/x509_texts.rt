//! The texts of the errors of certificates, keys, SVIDs and bundles, and of the extensions.

use crate::shown::{assert_texts, has_text, is_shown};
use spf_der::{Pkcs8DecodeError, X509ParseError, X509ParseKind};
use spf_id::SpiffeIdError;
use spf_io::Text;
use spf_x509::{
    CertificateError, PrivateKeyError, X509BundleError, X509ExtensionId, X509SvidError,
};
use std::alloc::Global;
use std::test::Fail;

/// Errors of a certificate, and their texts.
const CERTIFICATE_TEXTS: [(CertificateError, &str); 9] = [
    (
        CertificateError::MissingX509Extension(X509ExtensionId::KeyUsage),
        "X.509 extension is missing: 2.5.29.15",
    ),
    (
        CertificateError::TooManyCertificates { max: 16 },
        "certificate chain has too many certificates (max 16)",
    ),
    (CertificateError::OutOfMemory, "out of memory"),
    (
        CertificateError::MissingSpiffeId,
        "certificate is missing SPIFFE ID in URI SAN",
    ),
    (
        CertificateError::MultipleUriSanEntries,
        "certificate contains multiple URI SAN entries",
    ),
    (
        CertificateError::OversizedUriSan { max: 2048 },
        "URI SAN exceeds maximum length (2048 bytes)",
    ),
    (
        CertificateError::MultipleSpiffeIds,
        "certificate contains multiple SPIFFE IDs in URI SAN",
    ),
    (
        CertificateError::TooManyUriSanEntries { max: 3 },
        "certificate has too many URI SAN entries (max 3)",
    ),
    (
        CertificateError::InvalidSpiffeId(SpiffeIdError::Empty),
        "failed to parse SPIFFE ID from URI SAN: Empty",
    ),
];

#[test]
fn certificate_error_texts(rt: HostRuntime) -> Result<(), Fail> {
    let alloc = rt.alloc();
    let names = CertificateError::UnexpectedExtension(Text::copy_of(alloc, "Names")?);
    assert!(rt; is_shown(alloc, names, "unexpected X.509 extension: Names"));
    let parse = X509ParseError::new(X509ParseKind::InvalidCertificate);
    let parse = CertificateError::ParseX509Certificate(parse);
    assert!(rt; is_shown(alloc, parse, "failed parsing X.509 certificate"));
    assert_texts(&rt, alloc, &CERTIFICATE_TEXTS);
    Ok(())
}

/// Errors of an SVID, and their texts.
const SVID_TEXTS: [(X509SvidError, &str); 11] = [
    (
        X509SvidError::LeafCertificateHasCaFlag,
        "leaf certificate must not have CA flag set to true",
    ),
    (
        X509SvidError::LeafCertificateHasCrlSign,
        "leaf certificate must not have 'cRLSign' set as key usage",
    ),
    (
        X509SvidError::LeafCertificateHasKeyCertSign,
        "leaf certificate must not have 'keyCertSign' set as key usage",
    ),
    (
        X509SvidError::LeafCertificateMissingDigitalSignature,
        "leaf certificate must have 'digitalSignature' set as key usage",
    ),
    (
        X509SvidError::LeafSpiffeIdMissingPath,
        "leaf certificate SPIFFE ID must have a non-root path component",
    ),
    (X509SvidError::EmptyChain, "no certificates found in chain"),
    (
        X509SvidError::SigningCertificateMissingCaFlag,
        "signing certificate must have CA flag set to true",
    ),
    (
        X509SvidError::SigningCertificateMissingKeyCertSign,
        "signing certificate must have 'keyCertSign' set as key usage",
    ),
    (
        X509SvidError::Certificate(CertificateError::MissingSpiffeId),
        "certificate is missing SPIFFE ID in URI SAN",
    ),
    (
        X509SvidError::PrivateKey(PrivateKeyError::DecodePkcs8(Pkcs8DecodeError)),
        "failed decoding PKCS#8 private key",
    ),
    (X509SvidError::OutOfMemory, "out of memory"),
];

#[test]
fn svid_error_texts(rt: HostRuntime) -> Result<(), Fail> {
    let alloc = rt.alloc();
    let usage = X509SvidError::UnparseableExtension {
        extension: Text::copy_of(alloc, "KeyUsage")?,
    };
    let text = "KeyUsage extension is present but could not be parsed";
    assert!(rt; is_shown(alloc, usage, text));
    assert_texts(&rt, alloc, &SVID_TEXTS);
    Ok(())
}

/// Extensions, and their texts.
const EXTENSIONS: &[(X509ExtensionId, &str)] = &[
    (X509ExtensionId::KeyUsage, "2.5.29.15"),
    (X509ExtensionId::SubjectAlternativeName, "2.5.29.17"),
    (X509ExtensionId::BasicConstraints, "2.5.29.19"),
];

/// Whether that is the text of the extension.
fn is_dotted(alloc: Global, extension: X509ExtensionId, dotted: &str) -> bool {
    extension.as_str() == dotted && has_text(alloc, &extension, dotted)
}

const KEY_TEXTS: [(PrivateKeyError, &str); 2] = [
    (
        PrivateKeyError::DecodePkcs8(Pkcs8DecodeError),
        "failed decoding PKCS#8 private key",
    ),
    (PrivateKeyError::OutOfMemory, "out of memory"),
];

const BUNDLE_TEXTS: [(X509BundleError, &str); 2] = [
    (
        X509BundleError::Certificate(CertificateError::MissingSpiffeId),
        "certificate is missing SPIFFE ID in URI SAN",
    ),
    (X509BundleError::OutOfMemory, "out of memory"),
];

/// The texts of the other errors, and of the extensions.
#[test]
fn other_texts(rt: HostRuntime) {
    assert_texts(&rt, rt.alloc(), &KEY_TEXTS);
    assert_texts(&rt, rt.alloc(), &BUNDLE_TEXTS);
    for &(extension, dotted) in EXTENSIONS {
        assert!(rt; is_dotted(rt.alloc(), extension, dotted), "{dotted}");
    }
}
