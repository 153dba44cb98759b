//! Why a JWT-SVID or a JWT bundle is refused.

ghost use Rattle.std.specs.Prelude.{◌≡◌};

use spf_id::SpiffeIdError;
use spf_io::{OutOfMemory, Text};
use std::alloc::{AllocError, AllocFailed};
use std::fmt;
use thiserror::Error;

/// What is wrong with a JSON text.
#[derive(Clone, Copy, Debug, PartialEq, Eq)]
pub enum JsonErrorKind {
    /// It does not follow the grammar.
    Syntax,
    /// It ends early.
    Eof,
}

impl fmt::Display for JsonErrorKind {
    fn fmt<W: fmt::Write>(&self, f: &mut fmt::Formatter<W>) -> fmt::Result {
        let name = match self {
            JsonErrorKind::Syntax => "Syntax",
            JsonErrorKind::Eof => "Eof",
        };
        fmt::Display::fmt(name, f)
    }
}

/// Why a JSON text was refused.
#[derive(Clone, Copy, Debug, PartialEq, Eq, Error)]
#[error("{kind}")]
pub struct JsonError {
    kind: JsonErrorKind,
}

impl JsonError {
    pub fn new(kind: JsonErrorKind) -> JsonError
        ensures { result ≡ record { kind = kind } }
    {
        JsonError { kind }
    }

    pub fn kind(&self) -> JsonErrorKind
        ensures { result ≡ self.now.kind }
    {
        self.kind
    }
}

/// The first broken rule of a JWT-SVID, in this order.
#[derive(Debug, PartialEq, Eq, Drop, Error)]
pub enum JwtSvidError {
    /// The token is not three parts joined by `.`, or the
    /// third is empty or outside the base64url alphabet.
    #[error("Parts")]
    Parts,
    /// The header is not base64url without padding of a JSON object.
    #[error("HeaderText")]
    HeaderText,
    /// The header contains a number that is not an integer.
    #[error("HeaderFloat")]
    HeaderFloat,
    /// `alg` is not one of RS256, RS384, RS512, ES256, ES384, ES512, PS256, PS384 and PS512.
    #[error("UnsupportedAlg")]
    UnsupportedAlg,
    /// `typ` is present, and neither `JWT` nor `JOSE`.
    #[error("InvalidTyp")]
    InvalidTyp,
    /// `kid` is present, and is not a string.
    #[error("InvalidKid")]
    InvalidKid,
    /// The claims are not base64url without padding of a JSON object.
    #[error("ClaimsText")]
    ClaimsText,
    /// The claims contain a number that is not an integer.
    #[error("ClaimsFloat")]
    ClaimsFloat,
    /// A required claim is absent.
    #[error("MissingClaim")]
    MissingClaim { claim: Text },
    /// `sub` is not a SPIFFE ID.
    #[error("InvalidSub")]
    InvalidSub(SpiffeIdError),
    /// `aud` is neither a string nor a non-empty array of strings.
    #[error("InvalidAud")]
    InvalidAud,
    /// `exp` is not an integer of 64 bits.
    #[error("InvalidExp")]
    InvalidExp,
    /// Memory ran out.
    #[error("out of memory")]
    OutOfMemory,
}

impl From<OutOfMemory> for JwtSvidError {
    ghost use Rattle.std.specs.Prelude.{◌≡◌};
    ghost use Rattle.spf_api.specs.declared.jwt_error.JwtSvidError.TheVariants as errors;

    ghost from_gives = { λ _ e. e ≡ errors.OutOfMemory };

    fn from(_e: OutOfMemory) -> JwtSvidError {
        JwtSvidError::OutOfMemory
    }
}

impl From<AllocError> for JwtSvidError {
    ghost use Rattle.std.specs.Prelude.{◌≡◌};
    ghost use Rattle.spf_api.specs.declared.jwt_error.JwtSvidError.TheVariants as errors;

    ghost from_gives = { λ _ e. e ≡ errors.OutOfMemory };

    fn from(_e: AllocError) -> JwtSvidError {
        JwtSvidError::OutOfMemory
    }
}

impl<T: Drop> From<AllocFailed<T>> for JwtSvidError {
    ghost use Rattle.std.specs.Prelude.{◌≡◌};
    ghost use Rattle.spf_api.specs.declared.jwt_error.JwtSvidError.TheVariants as errors;

    ghost from_gives = { λ _ e. e ≡ errors.OutOfMemory };

    fn from(_e: AllocFailed<T>) -> JwtSvidError {
        JwtSvidError::OutOfMemory
    }
}

/// The first broken rule of a key set, in this order.
#[derive(Debug, PartialEq, Eq, Drop, Error)]
pub enum JwtBundleError {
    /// The text is not JSON.
    #[error("Json")]
    Json(JsonError),
    /// A number is not an integer of 64 bits.
    #[error("HoldsFloat")]
    HoldsFloat,
    /// The value is not an object with an array `keys`.
    #[error("MissingKeys")]
    MissingKeys,
    /// A key is not an object.
    #[error("NotAnObject")]
    NotAnObject,
    /// A key has no `kid`, or one that is empty or not a string.
    #[error("MissingKeyId")]
    MissingKeyId,
    /// Memory ran out.
    #[error("out of memory")]
    OutOfMemory,
}

impl From<OutOfMemory> for JwtBundleError {
    ghost use Rattle.std.specs.Prelude.{◌≡◌};
    ghost use Rattle.spf_api.specs.declared.jwt_error.JwtBundleError.TheVariants as errors;

    ghost from_gives = { λ _ e. e ≡ errors.OutOfMemory };

    fn from(_e: OutOfMemory) -> JwtBundleError {
        JwtBundleError::OutOfMemory
    }
}

impl From<AllocError> for JwtBundleError {
    ghost use Rattle.std.specs.Prelude.{◌≡◌};
    ghost use Rattle.spf_api.specs.declared.jwt_error.JwtBundleError.TheVariants as errors;

    ghost from_gives = { λ _ e. e ≡ errors.OutOfMemory };

    fn from(_e: AllocError) -> JwtBundleError {
        JwtBundleError::OutOfMemory
    }
}

impl<T: Drop> From<AllocFailed<T>> for JwtBundleError {
    ghost use Rattle.std.specs.Prelude.{◌≡◌};
    ghost use Rattle.spf_api.specs.declared.jwt_error.JwtBundleError.TheVariants as errors;

    ghost from_gives = { λ _ e. e ≡ errors.OutOfMemory };

    fn from(_e: AllocFailed<T>) -> JwtBundleError {
        JwtBundleError::OutOfMemory
    }
}
