//! Why a certificate, a private key or a bundle is refused.

use crate::extension::X509ExtensionId;
use spf_der::{CertReadError, Pkcs8DecodeError, X509ParseError};
use spf_id::SpiffeIdError;
use spf_io::{OutOfMemory, Text};
use std::alloc::{AllocError, AllocFailed};
use thiserror::Error;

/// Why a certificate is refused.
#[derive(Debug, PartialEq, Eq, Drop, Error)]
pub enum CertificateError {
    /// A required extension is missing.
    #[error("X.509 extension is missing: {0}")]
    MissingX509Extension(X509ExtensionId),
    /// An extension cannot be read: the subject alternative name.
    #[error("unexpected X.509 extension: {0}")]
    UnexpectedExtension(Text),
    /// The bytes are not a certificate, or it has an extension twice.
    #[error("failed parsing X.509 certificate")]
    ParseX509Certificate(X509ParseError),
    /// No URI of the subject alternative name is a SPIFFE ID.
    #[error("certificate is missing SPIFFE ID in URI SAN")]
    MissingSpiffeId,
    /// The subject alternative name has more than one URI.
    #[error("certificate contains multiple URI SAN entries")]
    MultipleUriSanEntries,
    /// A URI is longer than `max` bytes.
    #[error("URI SAN exceeds maximum length ({max} bytes)")]
    OversizedUriSan { max: usize },
    /// Several URIs are SPIFFE IDs. No call returns it: two URIs are `MultipleUriSanEntries`.
    #[error("certificate contains multiple SPIFFE IDs in URI SAN")]
    MultipleSpiffeIds,
    /// There are more than `max` URIs. No call returns it: two URIs are `MultipleUriSanEntries`.
    #[error("certificate has too many URI SAN entries (max {max})")]
    TooManyUriSanEntries { max: usize },
    /// A chain has more than `max` certificates.
    #[error("certificate chain has too many certificates (max {max})")]
    TooManyCertificates { max: usize },
    /// The URI with the scheme `spiffe:` breaks a rule of SPIFFE IDs.
    #[error("failed to parse SPIFFE ID from URI SAN: {0}")]
    InvalidSpiffeId(SpiffeIdError),
    /// Memory ran out.
    #[error("out of memory")]
    OutOfMemory,
}

impl From<OutOfMemory> for CertificateError {
    ghost use Rattle.std.specs.Prelude.{◌≡◌};
    ghost use Rattle.spf_x509.specs.declared.error.CertificateError.TheVariants as errors;

    ghost from_gives = { λ _ e. e ≡ errors.OutOfMemory };

    fn from(_e: OutOfMemory) -> CertificateError {
        CertificateError::OutOfMemory
    }
}

impl From<AllocError> for CertificateError {
    ghost use Rattle.std.specs.Prelude.{◌≡◌};
    ghost use Rattle.spf_x509.specs.declared.error.CertificateError.TheVariants as errors;

    ghost from_gives = { λ _ e. e ≡ errors.OutOfMemory };

    fn from(_e: AllocError) -> CertificateError {
        CertificateError::OutOfMemory
    }
}

impl<T: Drop> From<AllocFailed<T>> for CertificateError {
    ghost use Rattle.std.specs.Prelude.{◌≡◌};
    ghost use Rattle.spf_x509.specs.declared.error.CertificateError.TheVariants as errors;

    ghost from_gives = { λ _ e. e ≡ errors.OutOfMemory };

    fn from(_e: AllocFailed<T>) -> CertificateError {
        CertificateError::OutOfMemory
    }
}

impl From<X509ParseError> for CertificateError {
    ghost use Rattle.std.specs.Prelude.{◌≡◌};
    ghost use Rattle.spf_x509.specs.declared.error.CertificateError.TheVariants as errors;

    ghost from_gives = { λ e r. r ≡ errors.ParseX509Certificate e };

    fn from(e: X509ParseError) -> CertificateError {
        CertificateError::ParseX509Certificate(e)
    }
}

impl From<CertReadError> for CertificateError {
    ghost use Rattle.std.specs.Prelude.{◌≡◌};
    ghost use Rattle.spf_x509.specs.Errors.{of_read};

    ghost from_gives = { λ e r. r ≡ of_read e };

    fn from(e: CertReadError) -> CertificateError {
        match e {
            CertReadError::Parse(e) => CertificateError::ParseX509Certificate(e),
            CertReadError::OutOfMemory => CertificateError::OutOfMemory,
        }
    }
}

impl From<SpiffeIdError> for CertificateError {
    ghost use Rattle.std.specs.Prelude.{◌≡◌};
    ghost use Rattle.spf_x509.specs.Errors.{of_id};

    ghost from_gives = { λ e r. r ≡ of_id e };

    fn from(e: SpiffeIdError) -> CertificateError {
        match e {
            SpiffeIdError::OutOfMemory => CertificateError::OutOfMemory,
            e => CertificateError::InvalidSpiffeId(e),
        }
    }
}

/// Why a private key is refused.
#[derive(Debug, PartialEq, Eq, Drop, Error)]
pub enum PrivateKeyError {
    /// The bytes are not a private key in PKCS#8.
    #[error("failed decoding PKCS#8 private key")]
    DecodePkcs8(Pkcs8DecodeError),
    /// Memory ran out.
    #[error("out of memory")]
    OutOfMemory,
}

impl From<OutOfMemory> for PrivateKeyError {
    ghost use Rattle.std.specs.Prelude.{◌≡◌};
    ghost use Rattle.spf_x509.specs.declared.error.PrivateKeyError.TheVariants as errors;

    ghost from_gives = { λ _ e. e ≡ errors.OutOfMemory };

    fn from(_e: OutOfMemory) -> PrivateKeyError {
        PrivateKeyError::OutOfMemory
    }
}

impl From<AllocError> for PrivateKeyError {
    ghost use Rattle.std.specs.Prelude.{◌≡◌};
    ghost use Rattle.spf_x509.specs.declared.error.PrivateKeyError.TheVariants as errors;

    ghost from_gives = { λ _ e. e ≡ errors.OutOfMemory };

    fn from(_e: AllocError) -> PrivateKeyError {
        PrivateKeyError::OutOfMemory
    }
}

impl From<Pkcs8DecodeError> for PrivateKeyError {
    ghost use Rattle.std.specs.Prelude.{◌≡◌};
    ghost use Rattle.spf_x509.specs.declared.error.PrivateKeyError.TheVariants as errors;

    ghost from_gives = { λ e r. r ≡ errors.DecodePkcs8 e };

    fn from(e: Pkcs8DecodeError) -> PrivateKeyError {
        PrivateKeyError::DecodePkcs8(e)
    }
}

/// Why a bundle is refused.
#[derive(Debug, PartialEq, Eq, Drop, Error)]
pub enum X509BundleError {
    /// A certificate is refused.
    #[error("{0}")]
    Certificate(CertificateError),
    /// Memory ran out.
    #[error("out of memory")]
    OutOfMemory,
}

impl From<OutOfMemory> for X509BundleError {
    ghost use Rattle.std.specs.Prelude.{◌≡◌};
    ghost use Rattle.spf_x509.specs.declared.error.X509BundleError.TheVariants as errors;

    ghost from_gives = { λ _ e. e ≡ errors.OutOfMemory };

    fn from(_e: OutOfMemory) -> X509BundleError {
        X509BundleError::OutOfMemory
    }
}

impl<T: Drop> From<AllocFailed<T>> for X509BundleError {
    ghost use Rattle.std.specs.Prelude.{◌≡◌};
    ghost use Rattle.spf_x509.specs.declared.error.X509BundleError.TheVariants as errors;

    ghost from_gives = { λ _ e. e ≡ errors.OutOfMemory };

    fn from(_e: AllocFailed<T>) -> X509BundleError {
        X509BundleError::OutOfMemory
    }
}

impl From<CertificateError> for X509BundleError {
    ghost use Rattle.std.specs.Prelude.{◌≡◌};
    ghost use Rattle.spf_x509.specs.Errors.{bundle_of_certificate};

    ghost from_gives = { λ e r. r ≡ bundle_of_certificate e };

    fn from(e: CertificateError) -> X509BundleError {
        match e {
            CertificateError::OutOfMemory => X509BundleError::OutOfMemory,
            e => X509BundleError::Certificate(e),
        }
    }
}
