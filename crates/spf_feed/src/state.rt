//! The state of an X.509 source, and why it gives nothing.

ghost use Rattle.std.specs.Prelude.{◌≡◌, IfOk, is_some};
ghost use Rattle.std.specs.Option.{option_map, option_and_then};
ghost use Rattle.std.specs.Arc.{arc_value};
ghost use Rattle.spf_feed.specs.Steps.{chosen_of, held_in, reason_of};
ghost use Rattle.spf_feed.specs.Standing.{view_in, IsKept};
ghost use Rattle.spf_feed.specs.States.{ContextAnswer, SvidAnswer};
ghost use Rattle.spf_feed.specs.Pick as spec;

use crate::limits::LimitKind;
use crate::picker::usable;
use crate::standing::Standing;
use crate::step::Denial;
use spf_api::WorkloadApiError;
use spf_io::OutOfMemory;
use spf_x509::{X509Context, X509Svid};
use std::alloc::{AllocError, AllocFailed, Global};
use std::fmt;
use std::marker::Model;
use std::sync::Arc;
use thiserror::Error;

/// Why an X.509 source gives nothing.
#[derive(Debug, PartialEq, Eq, Drop, Error)]
pub enum X509SourceError {
    /// The Workload API rejected the request during the initial synchronization.
    #[error("x509 source error: {0}")]
    Source(WorkloadApiError),
    /// The Workload API has no such call.
    #[error("required Workload API RPC FetchX509SVID is unsupported during initial \
     synchronization: {0}")]
    UnsupportedRpc(WorkloadApiError),
    /// No SVID is chosen, or the chosen one has expired.
    #[error("no suitable svid found")]
    NoSuitableSvid,
    /// The material was withdrawn, for this reason.
    #[error("material withdrawn: {0}")]
    Withdrawn(Arc<Denial>),
    /// The source was closed.
    #[error("source is closed")]
    Closed,
    /// The deadline passed before an item was accepted.
    #[error("initial synchronization timed out")]
    InitialSyncTimeout,
    /// The stream ended. No call returns it.
    #[error("workload api stream ended")]
    StreamEnded,
    /// A limit was passed. No call returns it.
    #[error("resource limit exceeded: {kind} (limit={limit}, actual={actual})")]
    ResourceLimitExceeded {
        kind: LimitKind,
        limit: usize,
        actual: usize,
    },
    /// The supervisor did not end in time. Both are Unix seconds.
    #[error("shutdown timeout exceeded")]
    ShutdownTimeout {
        started: i64,
        ended: i64,
    },
    /// The source has no supervisor.
    #[error("no supervisor")]
    NoSupervisor,
    /// The board has no place for another reader.
    #[error("no place")]
    NoPlace,
    /// Memory ran out.
    #[error("out of memory")]
    OutOfMemory,
}

impl From<OutOfMemory> for X509SourceError {
    ghost use Rattle.std.specs.Prelude.{◌≡◌};
    ghost use Rattle.spf_feed.specs.declared.state.X509SourceError.TheVariants as errors;

    ghost from_gives = { λ _ e. e ≡ errors.OutOfMemory };

    fn from(_e: OutOfMemory) -> X509SourceError {
        X509SourceError::OutOfMemory
    }
}

impl From<AllocError> for X509SourceError {
    ghost use Rattle.std.specs.Prelude.{◌≡◌};
    ghost use Rattle.spf_feed.specs.declared.state.X509SourceError.TheVariants as errors;

    ghost from_gives = { λ _ e. e ≡ errors.OutOfMemory };

    fn from(_e: AllocError) -> X509SourceError {
        X509SourceError::OutOfMemory
    }
}

impl<T: Drop> From<AllocFailed<T>> for X509SourceError {
    ghost use Rattle.std.specs.Prelude.{◌≡◌};
    ghost use Rattle.spf_feed.specs.declared.state.X509SourceError.TheVariants as errors;

    ghost from_gives = { λ _ e. e ≡ errors.OutOfMemory };

    fn from(_e: AllocFailed<T>) -> X509SourceError {
        X509SourceError::OutOfMemory
    }
}

impl From<WorkloadApiError> for X509SourceError {
    ghost use Rattle.std.specs.Prelude.{◌≡◌};
    ghost use Rattle.spf_feed.specs.Errors.{source_of_api};

    ghost from_gives = { λ e r. r ≡ source_of_api e };

    fn from(e: WorkloadApiError) -> X509SourceError {
        match e {
            WorkloadApiError::OutOfMemory => X509SourceError::OutOfMemory,
            e => X509SourceError::Source(e),
        }
    }
}

/// What an X.509 source holds at one time.
#[derive(Drop)]
pub struct X509SourceState {
    revision: u64,
    closed: bool,
    standing: Arc<Standing>,
}

impl Model for X509SourceState {
    ghost use Rattle.spf_feed.specs.Steps.{StateView};

    ghost Value = { StateView };

    ghost use Rattle.std.specs.Arc.{arc_value};
    ghost use Rattle.spf_feed.specs.Standing.{view_in, IsKept};

    ghost view = { λ s. record {
      revision = s.revision;
      closed = s.closed;
      view = view_in (arc_value s.standing);
    } };

    ghost invariant = { λ s. IsKept (arc_value s.standing) };
}

impl fmt::Debug for X509SourceState {
    fn fmt<W: fmt::Write>(&self, f: &mut fmt::Formatter<W>) -> fmt::Result {
        write!(f, "X509SourceState")
    }
}

impl X509SourceState {
    pub(crate) fn new(
        alloc: Global,
        revision: u64,
        closed: bool,
        standing: Standing,
    ) -> Result<X509SourceState, OutOfMemory>
        requires { IsKept standing }
        ensures { IfOk result
            (λ s. s ≡ record {
              revision = revision;
              closed = closed;
              view = view_in standing;
            }) }
    {
        Ok(X509SourceState {
            revision,
            closed,
            standing: Arc::new(alloc, standing)?,
        })
    }

    /// Returns the same state for a source that is closed or not. It allocates nothing, and shares
    /// what is held with this one alone.
    pub fn share(&self, closed: bool) -> Result<X509SourceState, OutOfMemory>
        ensures { IfOk result (λ s. s ≡ record self.now { closed = closed }) }
    {
        Ok(X509SourceState {
            revision: self.revision,
            closed,
            standing: Arc::try_clone(&self.standing)?,
        })
    }

    pub(crate) fn standing(&self) -> &Standing
        ensures view { view_in result.now ≡ self.now.view }
        ensures kept { IsKept result.now }
    {
        &self.standing
    }

    pub fn revision(&self) -> u64
        ensures { result ≡ self.now.revision }
    {
        self.revision
    }

    pub fn is_closed(&self) -> bool
        ensures { result ≡ self.now.closed }
    {
        self.closed
    }

    /// Returns the reason of the withdrawal, while withdrawn.
    pub fn withdrawal(&self) -> Option<&Arc<Denial>>
        ensures { option_map (λ a. arc_value a.now) result ≡ reason_of self.now.view }
    {
        match self.standing() {
            Standing::Permitted(_) => None,
            Standing::Withdrawn(reason) => Some(reason),
        }
    }

    /// Returns the held context. None while withdrawn.
    pub fn context_ref(&self) -> Option<&Arc<X509Context>>
        ensures { option_map (λ a. arc_value a.now) result
            ≡ option_map (λ m. m.context) (held_in self.now.view) }
    {
        match self.standing() {
            Standing::Permitted(held) => held.context(),
            Standing::Withdrawn(_) => None,
        }
    }

    /// Returns the held context.
    pub fn context(&self) -> Result<Arc<X509Context>, X509SourceError>
        ensures { ContextAnswer self.now.view result }
    {
        match self.standing() {
            Standing::Permitted(held) => match held.context() {
                Some(context) => Ok(Arc::try_clone(context)?),
                None => unreachable!(),
            },
            Standing::Withdrawn(reason) => {
                Err(X509SourceError::Withdrawn(Arc::try_clone(reason)?))
            }
        }
    }

    /// Returns the chosen SVID, where its expiry is above the moment.
    pub fn svid(&self, now: Option<i64>) -> Result<Arc<X509Svid>, X509SourceError>
        ensures { SvidAnswer self.now.view now result }
    {
        match self.standing() {
            Standing::Permitted(held) => match usable(held.chosen(), now) {
                Some(svid) => Ok(Arc::try_clone(svid)?),
                None => Err(X509SourceError::NoSuitableSvid),
            },
            Standing::Withdrawn(reason) => {
                Err(X509SourceError::Withdrawn(Arc::try_clone(reason)?))
            }
        }
    }

    /// Returns whether `svid` returns one, where memory does not run out.
    pub fn is_usable(&self, now: Option<i64>) -> bool
        ensures { result
            ≡ is_some (spec.usable (option_and_then chosen_of (held_in self.now.view)) now) }
    {
        self.standing.is_usable(now)
    }
}
