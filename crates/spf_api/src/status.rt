//! Statuses of gRPC, and errors of a transport.

ghost use Rattle.std.specs.Prelude.{◌≡◌, None, Some};
ghost use Rattle.std.specs.Option.{option_map};
ghost use Rattle.spf_api.specs.Status.{code_name, code_at};

use spf_io::{OutOfMemory, Text};
use std::alloc::{AllocError, AllocFailed};
use std::fmt;
use std::marker::Model;
use thiserror::Error;

/// A status code of gRPC. The codes have the numbers 0 to 16 in this order.
#[derive(Clone, Copy, Debug, PartialEq, Eq, Hash)]
pub enum GrpcStatusCode {
    Ok,
    Cancelled,
    Unknown,
    InvalidArgument,
    DeadlineExceeded,
    NotFound,
    AlreadyExists,
    PermissionDenied,
    ResourceExhausted,
    FailedPrecondition,
    Aborted,
    OutOfRange,
    Unimplemented,
    Internal,
    Unavailable,
    DataLoss,
    Unauthenticated,
}

impl GrpcStatusCode {
    /// Returns the code with that number, and None from 17 on.
    pub fn from_number(n: u8) -> Option<GrpcStatusCode>
        ensures { result ≡ code_at n }
    {
        match n {
            0 => Some(GrpcStatusCode::Ok),
            1 => Some(GrpcStatusCode::Cancelled),
            2 => Some(GrpcStatusCode::Unknown),
            3 => Some(GrpcStatusCode::InvalidArgument),
            4 => Some(GrpcStatusCode::DeadlineExceeded),
            5 => Some(GrpcStatusCode::NotFound),
            6 => Some(GrpcStatusCode::AlreadyExists),
            7 => Some(GrpcStatusCode::PermissionDenied),
            8 => Some(GrpcStatusCode::ResourceExhausted),
            9 => Some(GrpcStatusCode::FailedPrecondition),
            10 => Some(GrpcStatusCode::Aborted),
            11 => Some(GrpcStatusCode::OutOfRange),
            12 => Some(GrpcStatusCode::Unimplemented),
            13 => Some(GrpcStatusCode::Internal),
            14 => Some(GrpcStatusCode::Unavailable),
            15 => Some(GrpcStatusCode::DataLoss),
            16 => Some(GrpcStatusCode::Unauthenticated),
            _ => None,
        }
    }

    /// Returns the name of the code, in lower case with underscores.
    pub fn as_str(self) -> &'static str
        ensures { result.now ≡ code_name self }
    {
        match self {
            GrpcStatusCode::Ok => "ok",
            GrpcStatusCode::Cancelled => "cancelled",
            GrpcStatusCode::Unknown => "unknown",
            GrpcStatusCode::InvalidArgument => "invalid_argument",
            GrpcStatusCode::DeadlineExceeded => "deadline_exceeded",
            GrpcStatusCode::NotFound => "not_found",
            GrpcStatusCode::AlreadyExists => "already_exists",
            GrpcStatusCode::PermissionDenied => "permission_denied",
            GrpcStatusCode::ResourceExhausted => "resource_exhausted",
            GrpcStatusCode::FailedPrecondition => "failed_precondition",
            GrpcStatusCode::Aborted => "aborted",
            GrpcStatusCode::OutOfRange => "out_of_range",
            GrpcStatusCode::Unimplemented => "unimplemented",
            GrpcStatusCode::Internal => "internal",
            GrpcStatusCode::Unavailable => "unavailable",
            GrpcStatusCode::DataLoss => "data_loss",
            GrpcStatusCode::Unauthenticated => "unauthenticated",
        }
    }
}

impl fmt::Display for GrpcStatusCode {
    ghost use Rattle.std.specs.Prelude.{Some};
    ghost use Rattle.spf_api.specs.Status.{code_name};

    ghost output = { λ c. Some (code_name c) };

    fn fmt<W: fmt::Write>(&self, f: &mut fmt::Formatter<W>) -> fmt::Result {
        fmt::Display::fmt(self.as_str(), f)
    }
}

/// A status that refuses a call. Its source is a text for diagnosis alone.
#[derive(Debug, PartialEq, Eq, Drop, Error)]
#[error("gRPC status {code}: {message}")]
pub struct GrpcStatusError {
    code: GrpcStatusCode,
    message: Text,
    source: Option<Text>,
}

impl Model for GrpcStatusError {
    ghost use Rattle.spf_api.specs.Refused.{Refused};

    ghost Value = { Refused };

    ghost view = { λ s. record { code = s.code; message = s.message; source = s.source } };

    ghost inverse = { λ v. record { code = v.code; message = v.message; source = v.source } };
}

impl GrpcStatusError {
    pub fn new(code: GrpcStatusCode, message: Text) -> GrpcStatusError
        ensures { result ≡ record { code = code; message = message; source = None } }
    {
        GrpcStatusError {
            code,
            message,
            source: None,
        }
    }

    pub fn with_source(code: GrpcStatusCode, message: Text, source: Text) -> GrpcStatusError
        ensures { result ≡ record { code = code; message = message; source = Some source } }
    {
        GrpcStatusError {
            code,
            message,
            source: Some(source),
        }
    }

    pub fn code(&self) -> GrpcStatusCode
        ensures { result ≡ self.now.code }
    {
        self.code
    }

    pub fn message(&self) -> &str
        ensures { result.now ≡ self.now.message }
    {
        self.message.as_str()
    }

    pub fn source_text(&self) -> Option<&str>
        ensures { option_map (λ t. t.now) result ≡ self.now.source }
    {
        match &self.source {
            Some(source) => Some(source.as_str()),
            None => None,
        }
    }

    /// Returns the message, and drops the rest.
    pub fn into_message(self) -> Text
        ensures { result ≡ self.message }
    {
        self.message
    }
}

/// Why no connection was made, as a text for diagnosis alone.
#[derive(Debug, PartialEq, Eq, Drop, Error)]
#[error("gRPC transport connection failed: {source}")]
pub struct TransportConnectError {
    source: Text,
}

impl Model for TransportConnectError {
    ghost use Rattle.std.specs.Prelude.{List, ℕ};

    ghost Value = { List ℕ };

    ghost view = { λ e. e.source };

    ghost inverse = { λ t. record { source = t } };
}

impl TransportConnectError {
    pub fn new(source: Text) -> TransportConnectError
        ensures { result ≡ source }
    {
        TransportConnectError { source }
    }

    pub fn source_text(&self) -> &str
        ensures { result.now ≡ self.now }
    {
        self.source.as_str()
    }
}

/// Why a transport failed.
#[derive(Debug, PartialEq, Eq, Drop, Error)]
pub enum TransportError {
    /// The transport cannot reach endpoints of that scheme. No call of these crates returns this.
    #[error("unsupported endpoint transport: {scheme}")]
    UnsupportedEndpointTransport { scheme: Text },
    /// The other side refused the call.
    #[error("{0}")]
    Status(GrpcStatusError),
    /// No connection was made.
    #[error("{0}")]
    Connect(TransportConnectError),
    /// Memory ran out.
    #[error("out of memory")]
    OutOfMemory,
}

impl TransportError {
    pub fn status(code: GrpcStatusCode, message: Text) -> TransportError
        ensures { result
            ≡ TransportError.Status (record { code = code; message = message; source = None }) }
    {
        TransportError::Status(GrpcStatusError::new(code, message))
    }

    pub fn status_with_source(code: GrpcStatusCode, message: Text, source: Text) -> TransportError
        ensures { result
            ≡ TransportError.Status
            (record { code = code; message = message; source = Some source }) }
    {
        TransportError::Status(GrpcStatusError::with_source(code, message, source))
    }

    pub fn connect(source: Text) -> TransportError
        ensures { result ≡ TransportError.Connect source }
    {
        TransportError::Connect(TransportConnectError::new(source))
    }
}

impl From<GrpcStatusError> for TransportError {
    ghost use Rattle.std.specs.Prelude.{◌≡◌};
    ghost use Rattle.spf_api.specs.declared.status.TransportError.TheVariants as errors;

    ghost from_gives = { λ e r. r ≡ errors.Status e };

    fn from(e: GrpcStatusError) -> TransportError {
        TransportError::Status(e)
    }
}

impl From<TransportConnectError> for TransportError {
    ghost use Rattle.std.specs.Prelude.{◌≡◌};
    ghost use Rattle.spf_api.specs.declared.status.TransportError.TheVariants as errors;

    ghost from_gives = { λ e r. r ≡ errors.Connect e };

    fn from(e: TransportConnectError) -> TransportError {
        TransportError::Connect(e)
    }
}

impl From<OutOfMemory> for TransportError {
    ghost use Rattle.std.specs.Prelude.{◌≡◌};
    ghost use Rattle.spf_api.specs.declared.status.TransportError.TheVariants as errors;

    ghost from_gives = { λ _ e. e ≡ errors.OutOfMemory };

    fn from(_e: OutOfMemory) -> TransportError {
        TransportError::OutOfMemory
    }
}

impl From<AllocError> for TransportError {
    ghost use Rattle.std.specs.Prelude.{◌≡◌};
    ghost use Rattle.spf_api.specs.declared.status.TransportError.TheVariants as errors;

    ghost from_gives = { λ _ e. e ≡ errors.OutOfMemory };

    fn from(_e: AllocError) -> TransportError {
        TransportError::OutOfMemory
    }
}

impl<T: Drop> From<AllocFailed<T>> for TransportError {
    ghost use Rattle.std.specs.Prelude.{◌≡◌};
    ghost use Rattle.spf_api.specs.declared.status.TransportError.TheVariants as errors;

    ghost from_gives = { λ _ e. e ≡ errors.OutOfMemory };

    fn from(_e: AllocFailed<T>) -> TransportError {
        TransportError::OutOfMemory
    }
}
