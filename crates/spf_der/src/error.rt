//! Why nothing was read.
ghost use Rattle.std.specs.Prelude.{◌≡◌};

use spf_io::OutOfMemory;
use std::alloc::{AllocError, AllocFailed};
use std::fmt;
use std::marker::Model;
use thiserror::Error;

/// What is wrong with a certificate.
#[derive(Clone, Copy, Debug, PartialEq, Eq)]
pub enum X509ParseKind {
    /// The bytes are not a certificate.
    InvalidCertificate,
    /// Two extensions have one identifier.
    DuplicateExtensions,
}

/// A certificate that is not as it should be, seen by contracts as its kind.
#[derive(Clone, Copy, Debug, PartialEq, Eq, Error)]
#[error("{kind}")]
pub struct X509ParseError {
    kind: X509ParseKind,
}

/// The bytes are not a private key in PKCS#8.
#[derive(Clone, Copy, Debug, PartialEq, Eq, Error)]
#[error("invalid PKCS#8")]
pub struct Pkcs8DecodeError;

/// Why no certificate was read.
#[derive(Clone, Copy, Debug, PartialEq, Eq, Error)]
pub enum CertReadError {
    /// The bytes are not a certificate.
    #[error("{0}")]
    Parse(X509ParseError),
    /// Memory ran out.
    #[error("out of memory")]
    OutOfMemory,
}

impl fmt::Display for X509ParseKind {
    ghost use Rattle.std.specs.Prelude.{Some};
    ghost use Rattle.spf_der.specs.Error.{name_of_kind};

    ghost output = { λ kind. Some (name_of_kind kind) };

    fn fmt<W: fmt::Write>(&self, f: &mut fmt::Formatter<W>) -> fmt::Result {
        match self {
            X509ParseKind::InvalidCertificate => write!(f, "InvalidCertificate"),
            X509ParseKind::DuplicateExtensions => write!(f, "DuplicateExtensions"),
        }
    }
}

impl Model for X509ParseError {
    ghost use Rattle.spf_der.specs.declared.error.X509ParseKind.{X509ParseKind};

    ghost Value = { X509ParseKind };

    ghost view = { λ e. e.kind };

    ghost inverse = { λ k. record { kind = k } };
}

impl X509ParseError {
    pub fn new(kind: X509ParseKind) -> X509ParseError
        ensures { result ≡ kind }
    {
        X509ParseError { kind }
    }

    pub fn kind(&self) -> X509ParseKind
        ensures { result ≡ self.now }
    {
        self.kind
    }
}

impl CertReadError {
    /// Returns the error that the bytes are not a certificate.
    #[inline]
    pub fn invalid() -> CertReadError
        ensures { result ≡ CertReadError.Parse X509ParseKind.InvalidCertificate }
    {
        CertReadError::Parse(X509ParseError {
            kind: X509ParseKind::InvalidCertificate,
        })
    }
}

impl From<X509ParseError> for CertReadError {
    ghost use Rattle.std.specs.Prelude.{◌≡◌};
    ghost use Rattle.spf_der.specs.declared.error.CertReadError.TheVariants as errors;

    ghost from_gives = { λ e r. r ≡ errors.Parse e };

    fn from(e: X509ParseError) -> CertReadError {
        CertReadError::Parse(e)
    }
}

impl From<OutOfMemory> for CertReadError {
    ghost use Rattle.std.specs.Prelude.{◌≡◌};
    ghost use Rattle.spf_der.specs.declared.error.CertReadError.TheVariants as errors;

    ghost from_gives = { λ _ e. e ≡ errors.OutOfMemory };

    fn from(_e: OutOfMemory) -> CertReadError {
        CertReadError::OutOfMemory
    }
}

impl From<AllocError> for CertReadError {
    ghost use Rattle.std.specs.Prelude.{◌≡◌};
    ghost use Rattle.spf_der.specs.declared.error.CertReadError.TheVariants as errors;

    ghost from_gives = { λ _ e. e ≡ errors.OutOfMemory };

    fn from(_e: AllocError) -> CertReadError {
        CertReadError::OutOfMemory
    }
}

impl<T: Drop> From<AllocFailed<T>> for CertReadError {
    ghost use Rattle.std.specs.Prelude.{◌≡◌};
    ghost use Rattle.spf_der.specs.declared.error.CertReadError.TheVariants as errors;

    ghost from_gives = { λ _ e. e ≡ errors.OutOfMemory };

    fn from(_e: AllocFailed<T>) -> CertReadError {
        CertReadError::OutOfMemory
    }
}
