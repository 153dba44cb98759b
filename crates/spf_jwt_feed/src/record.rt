//! What is counted for metrics.

ghost use Rattle.std.specs.Prelude.{◌≡◌, List, Option, None, Some, []};
ghost use Rattle.spf_feed.specs.Records.{RecordAppends};
ghost use Rattle.spf_jwt_feed.specs.Names.{metrics_error_name};
ghost use Rattle.spf_jwt_feed.specs.declared.record.JwtMetricsRecord.{JwtMetricsRecord};
ghost use Rattle.spf_jwt_feed.specs.declared.record.JwtMetricsRecord.TheVariants as records;

use spf_feed::NoRecorder;
use spf_io::OutOfMemory;
use std::alloc::Global;
use std::fmt;

/// What went wrong with an update.
#[derive(Clone, Copy, Debug, PartialEq, Eq, Hash)]
pub enum JwtMetricsErrorKind {
    ClientCreation,
    StreamConnect,
    StreamError,
    StreamEnded,
    InitialSyncFailed,
    LimitMaxBundles,
    LimitMaxBundleJwksBytes,
    UpdateRejected,
    /// Never recorded.
    SupervisorJoinFailed,
}

impl JwtMetricsErrorKind {
    pub fn as_str(self) -> &'static str
        ensures { result.now ≡ metrics_error_name self }
    {
        match self {
            JwtMetricsErrorKind::ClientCreation => "client_creation",
            JwtMetricsErrorKind::StreamConnect => "stream_connect",
            JwtMetricsErrorKind::StreamError => "stream_error",
            JwtMetricsErrorKind::StreamEnded => "stream_ended",
            JwtMetricsErrorKind::InitialSyncFailed => "initial_sync_failed",
            JwtMetricsErrorKind::LimitMaxBundles => "limit_max_bundles",
            JwtMetricsErrorKind::LimitMaxBundleJwksBytes => "limit_max_bundle_jwks_bytes",
            JwtMetricsErrorKind::UpdateRejected => "update_rejected",
            JwtMetricsErrorKind::SupervisorJoinFailed => "supervisor_join_failed",
        }
    }
}

impl fmt::Display for JwtMetricsErrorKind {
    ghost use Rattle.std.specs.Prelude.{Some};
    ghost use Rattle.spf_jwt_feed.specs.Names.{metrics_error_name};

    ghost output = { λ k. Some (metrics_error_name k) };

    fn fmt<W: fmt::Write>(&self, f: &mut fmt::Formatter<W>) -> fmt::Result {
        fmt::Display::fmt(self.as_str(), f)
    }
}

/// One record.
#[derive(Clone, Copy, Debug, PartialEq, Eq, Hash)]
pub enum JwtMetricsRecord {
    Update,
    Reconnect,
    Error(JwtMetricsErrorKind),
}

/// Takes the records. It has memory of its own, which may run out.
pub trait JwtMetricsRecorder {
    // The records so far, where the recorder says so.
    ghost records: { Self → Option (List JwtMetricsRecord) };

    fn record_update(&mut self) -> Result<(), OutOfMemory>
        ensures { RecordAppends (records self.old) (records self.new) result
            JwtMetricsRecord.Update };

    fn record_reconnect(&mut self) -> Result<(), OutOfMemory>
        ensures { RecordAppends (records self.old) (records self.new) result
            JwtMetricsRecord.Reconnect };

    fn record_error(&mut self, kind: JwtMetricsErrorKind) -> Result<(), OutOfMemory>
        ensures { RecordAppends (records self.old) (records self.new) result
            (JwtMetricsRecord.Error kind) };
}

/// A recorder that keeps the records.
#[derive(Debug, Drop)]
pub struct MemJwtRecorder {
    records: Vec<JwtMetricsRecord>,
}

impl MemJwtRecorder {
    pub fn new(alloc: Global) -> MemJwtRecorder
        ensures { ⟦<MemJwtRecorder as JwtMetricsRecorder>⟧.records result ≡ Some [] }
    {
        MemJwtRecorder {
            records: Vec::new(alloc),
        }
    }

    pub fn records(&self) -> &[JwtMetricsRecord]
        ensures { ⟦<MemJwtRecorder as JwtMetricsRecorder>⟧.records self.now ≡ Some result.now }
    {
        self.records.as_slice()
    }
}

impl JwtMetricsRecorder for MemJwtRecorder {
    ghost records = { λ r. Some r.records.items };

    fn record_update(&mut self) -> Result<(), OutOfMemory> {
        self.records.push(JwtMetricsRecord::Update)?;
        Ok(())
    }

    fn record_reconnect(&mut self) -> Result<(), OutOfMemory> {
        self.records.push(JwtMetricsRecord::Reconnect)?;
        Ok(())
    }

    fn record_error(&mut self, kind: JwtMetricsErrorKind) -> Result<(), OutOfMemory> {
        self.records.push(JwtMetricsRecord::Error(kind))?;
        Ok(())
    }
}

impl JwtMetricsRecorder for NoRecorder {
    ghost use Rattle.std.specs.Prelude.{◌≡◌, None, Ok};

    ghost records = { λ _. None };

    fn record_update(&mut self) -> Result<(), OutOfMemory>
        ensures { result ≡ Ok tt }
    {
        Ok(())
    }

    fn record_reconnect(&mut self) -> Result<(), OutOfMemory>
        ensures { result ≡ Ok tt }
    {
        Ok(())
    }

    fn record_error(&mut self, _kind: JwtMetricsErrorKind) -> Result<(), OutOfMemory>
        ensures { result ≡ Ok tt }
    {
        Ok(())
    }
}
