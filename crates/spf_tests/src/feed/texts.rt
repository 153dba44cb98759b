//! The texts of errors and the names of kinds.

use spf_api::WorkloadApiError;
use spf_feed::{Denial, FollowError, FrameError, LimitKind, MetricsErrorKind, X509SourceError};
use spf_io::Text;
use std::alloc::Global;
use std::fmt;
use std::sync::Arc;
use std::test::Fail;

fn is_shown<T: fmt::Display + Drop>(alloc: Global, value: T, text: &str) -> Result<bool, Fail> {
    let shown = value.to_string(alloc)?;
    Ok(shown.as_str() == text)
}

fn denial(alloc: Global, has_message: bool) -> Result<Denial, Fail> {
    if has_message {
        Ok(Denial::PermissionDenied(Text::copy_of(alloc, "no")?))
    } else {
        Ok(Denial::NoIdentityIssued)
    }
}

/// The error of a number, in the order of the variants.
fn source_error(alloc: Global, number: u8) -> Result<X509SourceError, Fail> {
    Ok(match number {
        0 => X509SourceError::Source(WorkloadApiError::EmptyResponse),
        1 => X509SourceError::UnsupportedRpc(WorkloadApiError::EmptyResponse),
        2 => X509SourceError::NoSuitableSvid,
        3 => X509SourceError::Withdrawn(Arc::new(alloc, denial(alloc, true)?)?),
        4 => X509SourceError::Closed,
        5 => X509SourceError::InitialSyncTimeout,
        6 => X509SourceError::StreamEnded,
        7 => X509SourceError::ResourceLimitExceeded {
            kind: LimitKind::MaxCrlBytes,
            limit: 1,
            actual: 2,
        },
        8 => X509SourceError::ShutdownTimeout {
            started: 1,
            ended: 2,
        },
        9 => X509SourceError::NoSupervisor,
        10 => X509SourceError::NoPlace,
        _ => X509SourceError::OutOfMemory,
    })
}

static SOURCE_ERRORS: [(u8, &str); 12] = [
    (0, "x509 source error: empty Workload API response"),
    (
        1,
        "required Workload API RPC FetchX509SVID is unsupported during initial synchronization: \
         empty Workload API response",
    ),
    (2, "no suitable svid found"),
    (3, "material withdrawn: permission denied: no"),
    (4, "source is closed"),
    (5, "initial synchronization timed out"),
    (6, "workload api stream ended"),
    (
        7,
        "resource limit exceeded: max_crl_bytes (limit=1, actual=2)",
    ),
    (8, "shutdown timeout exceeded"),
    (9, "no supervisor"),
    (10, "no place"),
    (11, "out of memory"),
];

/// The error of a number, in the order of the variants.
fn follow_error(number: u8) -> FollowError {
    match number {
        0 => FollowError::OutOfMemory,
        1 => FollowError::ReadFault,
        2 => FollowError::WriteFault,
        3 => FollowError::SessionTooLong,
        4 => FollowError::BadFrame { frame: 3 },
        5 => FollowError::Source(WorkloadApiError::EmptyResponse),
        6 => FollowError::UnsupportedRpc(WorkloadApiError::EmptyResponse),
        7 => FollowError::InitialSyncTimeout,
        8 => FollowError::Closed,
        _ => FollowError::NeverSynced,
    }
}

static FOLLOW_ERRORS: [(u8, &str); 10] = [
    (0, "out of memory"),
    (1, "a read of the source failed"),
    (2, "a write to the sink failed"),
    (3, "the session has too many frames"),
    (4, "frame 3 is bad"),
    (5, "x509 source error: empty Workload API response"),
    (
        6,
        "required Workload API RPC FetchX509SVID is unsupported during initial synchronization: \
         empty Workload API response",
    ),
    (7, "initial synchronization timed out"),
    (8, "source is closed"),
    (9, "the session ended before an item was accepted"),
];

static FRAME_ERRORS: [(FrameError, &str); 4] = [
    (FrameError::TooLong, "too many frames"),
    (FrameError::BadFrame, "bad frame"),
    (FrameError::ReadFault, "a read of the source failed"),
    (FrameError::OutOfMemory, "out of memory"),
];

static LIMIT_KINDS: [(LimitKind, &str); 4] = [
    (LimitKind::MaxSvids, "max_svids"),
    (LimitKind::MaxBundles, "max_bundles"),
    (LimitKind::MaxBundleDerBytes, "max_bundle_der_bytes"),
    (LimitKind::MaxCrlBytes, "max_crl_bytes"),
];

static ERROR_KINDS: [(MetricsErrorKind, &str); 12] = [
    (MetricsErrorKind::ClientCreation, "client_creation"),
    (MetricsErrorKind::StreamConnect, "stream_connect"),
    (MetricsErrorKind::StreamError, "stream_error"),
    (MetricsErrorKind::StreamEnded, "stream_ended"),
    (MetricsErrorKind::InitialSyncFailed, "initial_sync_failed"),
    (MetricsErrorKind::NoSuitableSvid, "no_suitable_svid"),
    (MetricsErrorKind::LimitMaxSvids, "limit_max_svids"),
    (MetricsErrorKind::LimitMaxBundles, "limit_max_bundles"),
    (
        MetricsErrorKind::LimitMaxBundleDerBytes,
        "limit_max_bundle_der_bytes",
    ),
    (MetricsErrorKind::LimitMaxCrlBytes, "limit_max_crl_bytes"),
    (MetricsErrorKind::UpdateRejected, "update_rejected"),
    (
        MetricsErrorKind::SupervisorJoinFailed,
        "supervisor_join_failed",
    ),
];

#[test]
fn error_texts(rt: HostRuntime) -> Result<(), Fail> {
    let alloc = rt.alloc();
    for (number, text) in SOURCE_ERRORS.iter() {
        assert!(rt;
            is_shown(alloc, source_error(alloc, *number)?, text)?,
            "{text}"
        );
    }
    for (number, text) in FOLLOW_ERRORS.iter() {
        assert!(rt; is_shown(alloc, follow_error(*number), text)?, "{text}");
    }
    for (error, text) in FRAME_ERRORS.iter() {
        assert!(rt; is_shown(alloc, *error, text)?, "{text}");
    }
    assert!(rt; is_shown(alloc, denial(alloc, true)?, "permission denied: no")?);
    assert!(rt; is_shown(alloc, denial(alloc, false)?, "no identity issued")?);
    Ok(())
}

#[test]
fn kind_names(rt: HostRuntime) -> Result<(), Fail> {
    let alloc = rt.alloc();
    for (kind, name) in LIMIT_KINDS.iter() {
        assert!(rt; kind.as_str() == *name);
        assert!(rt; is_shown(alloc, *kind, name)?, "{name}");
    }
    for (kind, name) in ERROR_KINDS.iter() {
        assert!(rt; kind.as_str() == *name);
        assert!(rt; is_shown(alloc, *kind, name)?, "{name}");
    }
    Ok(())
}
