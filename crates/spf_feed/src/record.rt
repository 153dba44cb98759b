//! What is counted for metrics.

ghost use Rattle.std.specs.Prelude.{◌≡◌, List, Option, None, Some, []};
ghost use Rattle.spf_feed.specs.Names.{metrics_error_name};
ghost use Rattle.spf_feed.specs.Records.{RecordAppends};
ghost use Rattle.spf_feed.specs.declared.record.MetricsRecord.{MetricsRecord};
ghost use Rattle.spf_feed.specs.declared.record.MetricsRecord.TheVariants as records;

use spf_io::OutOfMemory;
use std::alloc::Global;
use std::fmt;

/// What went wrong with an update.
#[derive(Clone, Copy, Debug, PartialEq, Eq, Hash)]
pub enum MetricsErrorKind {
    ClientCreation,
    StreamConnect,
    StreamError,
    StreamEnded,
    InitialSyncFailed,
    NoSuitableSvid,
    LimitMaxSvids,
    LimitMaxBundles,
    LimitMaxBundleDerBytes,
    LimitMaxCrlBytes,
    UpdateRejected,
    /// Never recorded.
    SupervisorJoinFailed,
}

impl MetricsErrorKind {
    pub fn as_str(self) -> &'static str
        ensures { result.now ≡ metrics_error_name self }
    {
        match self {
            MetricsErrorKind::ClientCreation => "client_creation",
            MetricsErrorKind::StreamConnect => "stream_connect",
            MetricsErrorKind::StreamError => "stream_error",
            MetricsErrorKind::StreamEnded => "stream_ended",
            MetricsErrorKind::InitialSyncFailed => "initial_sync_failed",
            MetricsErrorKind::NoSuitableSvid => "no_suitable_svid",
            MetricsErrorKind::LimitMaxSvids => "limit_max_svids",
            MetricsErrorKind::LimitMaxBundles => "limit_max_bundles",
            MetricsErrorKind::LimitMaxBundleDerBytes => "limit_max_bundle_der_bytes",
            MetricsErrorKind::LimitMaxCrlBytes => "limit_max_crl_bytes",
            MetricsErrorKind::UpdateRejected => "update_rejected",
            MetricsErrorKind::SupervisorJoinFailed => "supervisor_join_failed",
        }
    }
}

impl fmt::Display for MetricsErrorKind {
    ghost use Rattle.std.specs.Prelude.{Some};
    ghost use Rattle.spf_feed.specs.Names.{metrics_error_name};

    ghost output = { λ k. Some (metrics_error_name k) };

    fn fmt<W: fmt::Write>(&self, f: &mut fmt::Formatter<W>) -> fmt::Result {
        fmt::Display::fmt(self.as_str(), f)
    }
}

/// One record.
#[derive(Clone, Copy, Debug, PartialEq, Eq, Hash)]
pub enum MetricsRecord {
    Update,
    Reconnect,
    Error(MetricsErrorKind),
}

/// Takes the records. It has memory of its own, which may run out.
pub trait MetricsRecorder {
    // The records so far, where the recorder says so.
    ghost records: { Self → Option (List MetricsRecord) };

    fn record_update(&mut self) -> Result<(), OutOfMemory>
        ensures { RecordAppends (records self.old) (records self.new) result MetricsRecord.Update };

    fn record_reconnect(&mut self) -> Result<(), OutOfMemory>
        ensures { RecordAppends (records self.old) (records self.new) result
            MetricsRecord.Reconnect };

    fn record_error(&mut self, kind: MetricsErrorKind) -> Result<(), OutOfMemory>
        ensures { RecordAppends (records self.old) (records self.new) result
            (MetricsRecord.Error kind) };
}

/// A recorder that keeps the records.
#[derive(Debug, Drop)]
pub struct MemRecorder {
    records: Vec<MetricsRecord>,
}

impl MemRecorder {
    pub fn new(alloc: Global) -> MemRecorder
        ensures { ⟦<MemRecorder as MetricsRecorder>⟧.records result ≡ Some [] }
    {
        MemRecorder {
            records: Vec::new(alloc),
        }
    }

    pub fn records(&self) -> &[MetricsRecord]
        ensures { ⟦<MemRecorder as MetricsRecorder>⟧.records self.now ≡ Some result.now }
    {
        self.records.as_slice()
    }
}

impl MetricsRecorder for MemRecorder {
    ghost records = { λ r. Some r.records.items };

    fn record_update(&mut self) -> Result<(), OutOfMemory> {
        self.records.push(MetricsRecord::Update)?;
        Ok(())
    }

    fn record_reconnect(&mut self) -> Result<(), OutOfMemory> {
        self.records.push(MetricsRecord::Reconnect)?;
        Ok(())
    }

    fn record_error(&mut self, kind: MetricsErrorKind) -> Result<(), OutOfMemory> {
        self.records.push(MetricsRecord::Error(kind))?;
        Ok(())
    }
}

/// A recorder that keeps nothing, and so allocates nothing.
#[derive(Clone, Copy, Debug)]
pub struct NoRecorder;

impl NoRecorder {
    pub fn new() -> NoRecorder
        ensures { ⟦<NoRecorder as MetricsRecorder>⟧.records result ≡ None }
    {
        NoRecorder
    }
}

impl MetricsRecorder for NoRecorder {
    ghost use Rattle.std.specs.Prelude.{◌≡◌, None, Ok};

    ghost records = { λ _. None };

    fn record_update(&mut self) -> Result<(), OutOfMemory>
        ensures { result ≡ Ok tt }
    {
        Ok(())
    }

    fn record_reconnect(&mut self) -> Result<(), OutOfMemory>
        ensures { result ≡ Ok tt }
    {
        Ok(())
    }

    fn record_error(&mut self, _kind: MetricsErrorKind) -> Result<(), OutOfMemory>
        ensures { result ≡ Ok tt }
    {
        Ok(())
    }
}
