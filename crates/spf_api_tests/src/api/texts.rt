//! Status codes, how a status reads, and the texts of errors.

use crate::shown::{assert_texts, copy_of, has_text, is_shown};
use spf_api::{
    EndpointError, EndpointParseError, GrpcStatusCode, GrpcStatusError, JsonError, JsonErrorKind,
    JwtBundleError, JwtSvidError, TransportConnectError, TransportError, WorkloadApiError,
};
use spf_id::SpiffeIdError;
use spf_io::Text;
use spf_x509::{X509BundleError, X509SvidError};
use std::alloc::Global;
use std::mem::drop;
use std::process::Abort;

/// The codes of gRPC, by their numbers and names.
const CODES: &[(u8, &str)] = &[
    (0, "ok"),
    (1, "cancelled"),
    (2, "unknown"),
    (3, "invalid_argument"),
    (4, "deadline_exceeded"),
    (5, "not_found"),
    (6, "already_exists"),
    (7, "permission_denied"),
    (8, "resource_exhausted"),
    (9, "failed_precondition"),
    (10, "aborted"),
    (11, "out_of_range"),
    (12, "unimplemented"),
    (13, "internal"),
    (14, "unavailable"),
    (15, "data_loss"),
    (16, "unauthenticated"),
];

/// Whether the code of that number has that name.
fn is_code(number: u8, name: &str) -> bool {
    match GrpcStatusCode::from_number(number) {
        Some(code) => code.as_str() == name,
        None => false,
    }
}

#[test]
fn status_codes(rt: HostRuntime) {
    for &(number, name) in CODES {
        assert!(rt; is_code(number, name), "{number}");
    }
    assert!(rt; GrpcStatusCode::from_number(17).is_none());
    assert!(rt; GrpcStatusCode::from_number(7) == Some(GrpcStatusCode::PermissionDenied));
}

/// How a status reads.
fn reading(
    rt: &impl Abort,
    alloc: Global,
    code: GrpcStatusCode,
    message: &str,
) -> WorkloadApiError {
    let message = copy_of(rt, alloc, message);
    WorkloadApiError::from_status(GrpcStatusError::new(code, message))
}

/// Whether such a status reads as an invalid argument, and whether as unimplemented, as wanted.
fn is_kind(rt: &impl Abort, alloc: Global, code: GrpcStatusCode, wanted: (bool, bool)) -> bool {
    let error = reading(rt, alloc, code, "");
    let (argument, unimplemented) = (error.is_invalid_argument(), error.is_unimplemented());
    drop(error);
    argument == wanted.0 && unimplemented == wanted.1
}

const STATUSES: &[(GrpcStatusCode, &str, &str)] = &[
    (
        GrpcStatusCode::PermissionDenied,
        "no",
        "permission denied: no",
    ),
    (
        GrpcStatusCode::PermissionDenied,
        "no identity issued here",
        "no identity issued",
    ),
    (
        GrpcStatusCode::Unavailable,
        "no identity issued",
        "gRPC status unavailable: no identity issued",
    ),
];

#[test]
fn from_status(rt: HostRuntime) {
    for &(code, message, text) in STATUSES {
        assert!(rt;
            is_shown(rt.alloc(), reading(&rt, rt.alloc(), code, message), text),
            "{text}"
        );
    }
}

const KINDS: &[(GrpcStatusCode, (bool, bool))] = &[
    (GrpcStatusCode::InvalidArgument, (true, false)),
    (GrpcStatusCode::Unimplemented, (false, true)),
    (GrpcStatusCode::Unknown, (false, false)),
];

#[test]
fn codes_of_errors(rt: HostRuntime) {
    for &(code, wanted) in KINDS {
        assert!(rt; is_kind(&rt, rt.alloc(), code, wanted), "{}", code.as_str());
    }
}

const API_TEXTS: [&str; 16] = [
    "missing SPIFFE endpoint socket path (SPIFFE_ENDPOINT_SOCKET)",
    "SPIFFE endpoint socket path is not a valid UTF-8 string",
    "empty Workload API response",
    "Workload API response is missing required field: T",
    "Workload API response has invalid field: T",
    "invalid workload api endpoint: endpoint socket URI must not include a fragment",
    "no identity issued",
    "permission denied: T",
    "no JWT-SVID found with hint: T",
    "gRPC transport connection failed: T",
    "failed to parse X.509 SVID: no certificates found in chain",
    "failed to parse JWT-SVID: InvalidKid",
    "failed to parse X.509 bundle: out of memory",
    "failed to parse JWT bundle: MissingKeys",
    "failed to parse SPIFFE ID: DotSegment",
    "out of memory",
];

/// The error of that row, with that text where it keeps one.
fn api_error(row: usize, text: Text) -> WorkloadApiError {
    match row {
        0 => WorkloadApiError::MissingEndpointSocket,
        1 => WorkloadApiError::NotUnicodeEndpointSocket,
        2 => WorkloadApiError::EmptyResponse,
        3 => WorkloadApiError::MissingRequiredField { field: text },
        4 => WorkloadApiError::InvalidResponseField { field: text },
        5 => WorkloadApiError::Endpoint(EndpointError::HasFragment),
        6 => WorkloadApiError::NoIdentityIssued,
        7 => WorkloadApiError::PermissionDenied(text),
        8 => WorkloadApiError::HintNotFound(text),
        9 => WorkloadApiError::Transport(TransportError::connect(text)),
        10 => WorkloadApiError::X509Svid(X509SvidError::EmptyChain),
        11 => WorkloadApiError::JwtSvid(JwtSvidError::InvalidKid),
        12 => WorkloadApiError::X509Bundle(X509BundleError::OutOfMemory),
        13 => WorkloadApiError::JwtBundle(JwtBundleError::MissingKeys),
        14 => WorkloadApiError::SpiffeId(SpiffeIdError::DotSegment),
        _ => WorkloadApiError::OutOfMemory,
    }
}

const TRANSPORT_TEXTS: [&str; 5] = [
    "unsupported endpoint transport: T",
    "gRPC status not_found: T",
    "gRPC status data_loss: T",
    "gRPC transport connection failed: T",
    "out of memory",
];

fn transport_error(row: usize, text: Text) -> TransportError {
    match row {
        0 => TransportError::UnsupportedEndpointTransport { scheme: text },
        1 => TransportError::status(GrpcStatusCode::NotFound, text),
        2 => TransportError::Status(GrpcStatusError::new(GrpcStatusCode::DataLoss, text)),
        3 => TransportError::Connect(TransportConnectError::new(text)),
        _ => TransportError::OutOfMemory,
    }
}

const JWT_SVID_TEXTS: [&str; 13] = [
    "Parts",
    "HeaderText",
    "HeaderFloat",
    "UnsupportedAlg",
    "InvalidTyp",
    "InvalidKid",
    "ClaimsText",
    "ClaimsFloat",
    "MissingClaim",
    "InvalidSub",
    "InvalidAud",
    "InvalidExp",
    "out of memory",
];

fn jwt_svid_error(row: usize, text: Text) -> JwtSvidError {
    match row {
        0 => JwtSvidError::Parts,
        1 => JwtSvidError::HeaderText,
        2 => JwtSvidError::HeaderFloat,
        3 => JwtSvidError::UnsupportedAlg,
        4 => JwtSvidError::InvalidTyp,
        5 => JwtSvidError::InvalidKid,
        6 => JwtSvidError::ClaimsText,
        7 => JwtSvidError::ClaimsFloat,
        8 => JwtSvidError::MissingClaim { claim: text },
        9 => JwtSvidError::InvalidSub(SpiffeIdError::WrongScheme),
        10 => JwtSvidError::InvalidAud,
        11 => JwtSvidError::InvalidExp,
        _ => JwtSvidError::OutOfMemory,
    }
}

const JWT_BUNDLE_TEXTS: [&str; 6] = [
    "Json",
    "HoldsFloat",
    "MissingKeys",
    "NotAnObject",
    "MissingKeyId",
    "out of memory",
];

fn jwt_bundle_error(row: usize) -> JwtBundleError {
    match row {
        0 => JwtBundleError::Json(JsonError::new(JsonErrorKind::Syntax)),
        1 => JwtBundleError::HoldsFloat,
        2 => JwtBundleError::MissingKeys,
        3 => JwtBundleError::NotAnObject,
        4 => JwtBundleError::MissingKeyId,
        _ => JwtBundleError::OutOfMemory,
    }
}

const ENDPOINT_TEXTS: &[(EndpointError, &str)] = &[
    (
        EndpointError::Parse(EndpointParseError),
        "endpoint socket is not a valid URI",
    ),
    (
        EndpointError::HasUserInfo,
        "endpoint socket URI must not include user info",
    ),
    (
        EndpointError::HasQuery,
        "endpoint socket URI must not include query values",
    ),
    (
        EndpointError::HasFragment,
        "endpoint socket URI must not include a fragment",
    ),
    (
        EndpointError::UnixAuthorityNotAllowed,
        "unix: endpoint socket URI must not include an authority",
    ),
    (
        EndpointError::UnixMissingPath,
        "unix: endpoint socket URI must include a path",
    ),
    (
        EndpointError::TcpHostNotIp,
        "tcp: endpoint socket URI host must be an IP address",
    ),
    (
        EndpointError::TcpMissingPort,
        "tcp: endpoint socket URI must include a port",
    ),
    (
        EndpointError::TcpUnexpectedPath,
        "tcp: endpoint socket URI must not include a path",
    ),
    (
        EndpointError::InvalidScheme,
        "endpoint socket URI scheme must be unix: or tcp:",
    ),
    (EndpointError::OutOfMemory, "out of memory"),
];

/// Whether that is the text of the error of that row of a table, which keeps the text `T`.
fn is_row_text(rt: &impl Abort, alloc: Global, table: usize, row: usize, text: &str) -> bool {
    let kept = copy_of(rt, alloc, "T");
    match table {
        0 => is_shown(alloc, api_error(row, kept), text),
        1 => is_shown(alloc, transport_error(row, kept), text),
        2 => is_shown(alloc, jwt_svid_error(row, kept), text),
        _ => {
            drop(kept);
            is_shown(alloc, jwt_bundle_error(row), text)
        }
    }
}

/// The tables by their numbers, with the texts of their rows.
const TABLES: &[(usize, &[&'static str])] = &[
    (0, &API_TEXTS),
    (1, &TRANSPORT_TEXTS),
    (2, &JWT_SVID_TEXTS),
    (3, &JWT_BUNDLE_TEXTS),
];

#[test]
fn error_texts(rt: HostRuntime) {
    for &(table, texts) in TABLES {
        for (row, text) in texts.iter().enumerate() {
            assert!(rt;
                is_row_text(&rt, rt.alloc(), table, row, text),
                "{table}: {text}"
            );
        }
    }
}

#[test]
fn endpoint_error_texts(rt: HostRuntime) {
    assert_texts(&rt, rt.alloc(), ENDPOINT_TEXTS);
    assert!(rt; has_text(rt.alloc(), &EndpointParseError, "invalid URI"));
}

#[test]
fn json_error_texts(rt: HostRuntime) {
    let ended = JsonError::new(JsonErrorKind::Eof);
    assert!(rt; has_text(rt.alloc(), &ended, "Eof"));
    assert!(rt; has_text(rt.alloc(), &JsonErrorKind::Syntax, "Syntax"));
}
