//! Why an X.509 SVID is refused.

use crate::error::{CertificateError, PrivateKeyError};
use spf_io::{OutOfMemory, Text};
use std::alloc::{AllocError, AllocFailed};
use thiserror::Error;

/// Why an X.509 SVID is refused (SPIFFE X.509-SVID sections 4 and 5).
#[derive(Debug, PartialEq, Eq, Drop, Error)]
pub enum X509SvidError {
    /// The chain has no certificate.
    #[error("no certificates found in chain")]
    EmptyChain,
    /// The leaf has the CA flag.
    #[error("leaf certificate must not have CA flag set to true")]
    LeafCertificateHasCaFlag,
    /// The key usage of the leaf has cRLSign.
    #[error("leaf certificate must not have 'cRLSign' set as key usage")]
    LeafCertificateHasCrlSign,
    /// The key usage of the leaf has keyCertSign.
    #[error("leaf certificate must not have 'keyCertSign' set as key usage")]
    LeafCertificateHasKeyCertSign,
    /// The key usage of the leaf lacks digitalSignature.
    #[error("leaf certificate must have 'digitalSignature' set as key usage")]
    LeafCertificateMissingDigitalSignature,
    /// An intermediate lacks the CA flag.
    #[error("signing certificate must have CA flag set to true")]
    SigningCertificateMissingCaFlag,
    /// The key usage of an intermediate lacks keyCertSign.
    #[error("signing certificate must have 'keyCertSign' set as key usage")]
    SigningCertificateMissingKeyCertSign,
    /// An extension of that name cannot be read.
    #[error("{extension} extension is present but could not be parsed")]
    UnparseableExtension { extension: Text },
    /// A certificate is refused.
    #[error("{0}")]
    Certificate(CertificateError),
    /// The SPIFFE ID of the leaf has an empty path.
    #[error("leaf certificate SPIFFE ID must have a non-root path component")]
    LeafSpiffeIdMissingPath,
    /// The private key is refused.
    #[error("{0}")]
    PrivateKey(PrivateKeyError),
    /// Memory ran out.
    #[error("out of memory")]
    OutOfMemory,
}

impl From<OutOfMemory> for X509SvidError {
    ghost use Rattle.std.specs.Prelude.{◌≡◌};
    ghost use Rattle.spf_x509.specs.declared.svid_error.X509SvidError.TheVariants as errors;

    ghost from_gives = { λ _ e. e ≡ errors.OutOfMemory };

    fn from(_e: OutOfMemory) -> X509SvidError {
        X509SvidError::OutOfMemory
    }
}

impl From<AllocError> for X509SvidError {
    ghost use Rattle.std.specs.Prelude.{◌≡◌};
    ghost use Rattle.spf_x509.specs.declared.svid_error.X509SvidError.TheVariants as errors;

    ghost from_gives = { λ _ e. e ≡ errors.OutOfMemory };

    fn from(_e: AllocError) -> X509SvidError {
        X509SvidError::OutOfMemory
    }
}

impl<T: Drop> From<AllocFailed<T>> for X509SvidError {
    ghost use Rattle.std.specs.Prelude.{◌≡◌};
    ghost use Rattle.spf_x509.specs.declared.svid_error.X509SvidError.TheVariants as errors;

    ghost from_gives = { λ _ e. e ≡ errors.OutOfMemory };

    fn from(_e: AllocFailed<T>) -> X509SvidError {
        X509SvidError::OutOfMemory
    }
}

impl From<CertificateError> for X509SvidError {
    ghost use Rattle.std.specs.Prelude.{◌≡◌};
    ghost use Rattle.spf_x509.specs.Errors.{svid_of_certificate};

    ghost from_gives = { λ e r. r ≡ svid_of_certificate e };

    fn from(e: CertificateError) -> X509SvidError {
        match e {
            CertificateError::OutOfMemory => X509SvidError::OutOfMemory,
            e => X509SvidError::Certificate(e),
        }
    }
}

impl From<PrivateKeyError> for X509SvidError {
    ghost use Rattle.std.specs.Prelude.{◌≡◌};
    ghost use Rattle.spf_x509.specs.Errors.{svid_of_key};

    ghost from_gives = { λ e r. r ≡ svid_of_key e };

    fn from(e: PrivateKeyError) -> X509SvidError {
        match e {
            PrivateKeyError::OutOfMemory => X509SvidError::OutOfMemory,
            e => X509SvidError::PrivateKey(e),
        }
    }
}
