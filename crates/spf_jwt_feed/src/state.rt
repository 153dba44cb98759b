//! The state of a JWT source, and why it gives nothing.

ghost use Rattle.std.specs.Prelude.{◌≡◌};
ghost use Rattle.std.specs.Option.{option_map, option_map_or};
ghost use Rattle.std.specs.Prelude.{false};
ghost use Rattle.std.specs.Arc.{arc_value};
ghost use Rattle.spf_view.specs.Standing.{held_in, reason_of};
ghost use Rattle.spf_jwt_feed.specs.Standing.{view_in};
ghost use Rattle.spf_jwt_feed.specs.States.{SetAnswer};
ghost use Rattle.spf_jwt_feed.specs.States as spec;

use crate::standing::Standing;
use spf_api::WorkloadApiError;
use spf_feed::Denial;
use spf_io::OutOfMemory;
use spf_jwt::{JwtBundleSet, JwtLimitKind};
use std::alloc::{AllocError, AllocFailed};
use std::fmt;
use std::marker::Model;
use std::sync::Arc;
use thiserror::Error;

/// Why a JWT source gives nothing.
#[derive(Debug, PartialEq, Eq, Drop, Error)]
pub enum JwtSourceError {
    /// The Workload API rejected the request during the initial synchronization.
    #[error("jwt source error: {0}")]
    Source(WorkloadApiError),
    /// The Workload API has no such call.
    #[error("required Workload API RPC FetchJWTBundles is unsupported during initial \
     synchronization: {0}")]
    UnsupportedRpc(WorkloadApiError),
    /// The last ask for a JWT-SVID failed.
    #[error("failed to fetch jwt svid: {0}")]
    FetchJwtSvid(WorkloadApiError),
    /// The material was withdrawn, for this reason.
    #[error("material withdrawn: {0}")]
    Withdrawn(Arc<Denial>),
    /// The source was closed.
    #[error("source is closed")]
    Closed,
    /// The deadline passed before an item was accepted.
    #[error("initial synchronization timed out")]
    InitialSyncTimeout,
    /// The stream ended. No call returns it.
    #[error("workload api stream ended")]
    StreamEnded,
    /// A limit was passed. No call returns it.
    #[error("resource limit exceeded: {kind} (limit={limit}, actual={actual})")]
    ResourceLimitExceeded {
        kind: JwtLimitKind,
        limit: usize,
        actual: usize,
    },
    /// The supervisor did not end in time. Both are Unix seconds.
    #[error("shutdown timeout exceeded")]
    ShutdownTimeout {
        started: i64,
        ended: i64,
    },
    /// The source has no supervisor.
    #[error("no supervisor")]
    NoSupervisor,
    /// The board has no place for another reader.
    #[error("no place")]
    NoPlace,
    /// Memory ran out.
    #[error("out of memory")]
    OutOfMemory,
}

impl From<OutOfMemory> for JwtSourceError {
    ghost use Rattle.std.specs.Prelude.{◌≡◌};
    ghost use Rattle.spf_jwt_feed.specs.declared.state.JwtSourceError.TheVariants as errors;

    ghost from_gives = { λ _ e. e ≡ errors.OutOfMemory };

    fn from(_e: OutOfMemory) -> JwtSourceError {
        JwtSourceError::OutOfMemory
    }
}

impl From<AllocError> for JwtSourceError {
    ghost use Rattle.std.specs.Prelude.{◌≡◌};
    ghost use Rattle.spf_jwt_feed.specs.declared.state.JwtSourceError.TheVariants as errors;

    ghost from_gives = { λ _ e. e ≡ errors.OutOfMemory };

    fn from(_e: AllocError) -> JwtSourceError {
        JwtSourceError::OutOfMemory
    }
}

impl<T: Drop> From<AllocFailed<T>> for JwtSourceError {
    ghost use Rattle.std.specs.Prelude.{◌≡◌};
    ghost use Rattle.spf_jwt_feed.specs.declared.state.JwtSourceError.TheVariants as errors;

    ghost from_gives = { λ _ e. e ≡ errors.OutOfMemory };

    fn from(_e: AllocFailed<T>) -> JwtSourceError {
        JwtSourceError::OutOfMemory
    }
}

impl From<WorkloadApiError> for JwtSourceError {
    ghost use Rattle.std.specs.Prelude.{◌≡◌};
    ghost use Rattle.spf_jwt_feed.specs.States.{source_of_api};

    ghost from_gives = { λ e r. r ≡ source_of_api e };

    fn from(e: WorkloadApiError) -> JwtSourceError {
        match e {
            WorkloadApiError::OutOfMemory => JwtSourceError::OutOfMemory,
            e => JwtSourceError::Source(e),
        }
    }
}

/// Whether a bundle set holds a key.
fn has_authority(set: &JwtBundleSet) -> bool
    ensures { result ≡ spec.has_authority set.now }
{
    for (_, bundle) in set.iter() {
        if bundle.jwt_authorities().next().is_some() {
            return true;
        }
    }
    false
}

/// What a JWT source holds at one time.
#[derive(Drop)]
pub struct JwtSourceState {
    revision: u64,
    closed: bool,
    standing: Standing,
}

impl Model for JwtSourceState {
    ghost use Rattle.spf_jwt_feed.specs.States.{StateView};

    ghost Value = { StateView };

    ghost use Rattle.spf_jwt_feed.specs.Standing.{view_in};

    ghost view = { λ s. record {
      revision = s.revision;
      closed = s.closed;
      view = view_in s.standing;
    } };
}

impl fmt::Debug for JwtSourceState {
    fn fmt<W: fmt::Write>(&self, f: &mut fmt::Formatter<W>) -> fmt::Result {
        write!(f, "JwtSourceState")
    }
}

impl JwtSourceState {
    pub(crate) fn new(revision: u64, closed: bool, standing: Standing) -> JwtSourceState
        ensures { result ≡ record {
          revision = revision;
          closed = closed;
          view = view_in standing;
        } }
    {
        JwtSourceState {
            revision,
            closed,
            standing,
        }
    }

    pub fn revision(&self) -> u64
        ensures { result ≡ self.now.revision }
    {
        self.revision
    }

    pub fn is_closed(&self) -> bool
        ensures { result ≡ self.now.closed }
    {
        self.closed
    }

    /// Returns the reason of the withdrawal, while withdrawn.
    pub fn withdrawal(&self) -> Option<&Arc<Denial>>
        ensures { option_map (λ a. arc_value a.now) result ≡ reason_of self.now.view }
    {
        match &self.standing {
            Standing::Permitted(_) => None,
            Standing::Withdrawn(reason) => Some(reason),
        }
    }

    /// Returns the held bundle set.
    pub fn bundle_set(&self) -> Result<Arc<JwtBundleSet>, JwtSourceError>
        ensures { SetAnswer self.now.view result }
    {
        match &self.standing {
            Standing::Permitted(set) => Ok(Arc::try_clone(set)?),
            Standing::Withdrawn(reason) => Err(JwtSourceError::Withdrawn(Arc::try_clone(reason)?)),
        }
    }

    /// Returns whether a bundle set with at least one key is permitted.
    pub fn is_usable(&self) -> bool
        ensures { result ≡ option_map_or spec.has_authority (held_in self.now.view) false }
    {
        match &self.standing {
            Standing::Permitted(set) => has_authority(set),
            Standing::Withdrawn(_) => false,
        }
    }
}
