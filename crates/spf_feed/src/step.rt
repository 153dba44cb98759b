//! The steps that a session publishes.

ghost use Rattle.std.specs.Prelude.{◌≡◌, ℕ, IfOk, IsTrue, List, Option, Some, None, [], map};
ghost use Rattle.spf_feed.specs.Records.{RecordAppends};
ghost use Rattle.spf_feed.specs.Steps.{PlainStep, plain, MayFollow};

use crate::limits::ResourceLimits;
use spf_io::{OutOfMemory, Text};
use spf_x509::X509Context;
use std::alloc::Global;
use std::marker::Model;
use std::sync::Arc;
use thiserror::Error;

/// Why nothing is issued.
#[derive(Debug, PartialEq, Eq, Drop, Error)]
pub enum Denial {
    #[error("permission denied: {0}")]
    PermissionDenied(Text),
    #[error("no identity issued")]
    NoIdentityIssued,
}

/// One accepted context with the limits that it keeps and the index of its choice, or one denial.
#[derive(Debug, Drop)]
pub enum Step {
    Accept {
        context: Arc<X509Context>,
        limits: ResourceLimits,
        choice: Option<usize>,
    },
    Deny {
        reason: Arc<Denial>,
    },
}

impl Step {
    /// The same step, which shares its context or reason.
    pub fn try_clone(&self) -> Result<Step, OutOfMemory>
        ensures { IfOk result (λ s. plain s ≡ plain self.now) }
    {
        match self {
            Step::Accept {
                context,
                limits,
                choice,
            } => Ok(Step::Accept {
                context: Arc::try_clone(context)?,
                limits: *limits,
                choice: *choice,
            }),
            Step::Deny { reason } => Ok(Step::Deny {
                reason: Arc::try_clone(reason)?,
            }),
        }
    }
}

/// Takes the steps. It has memory of its own, which may run out.
pub trait Publisher {
    // The steps so far, where the publisher says so.
    ghost steps: { Self → Option (List PlainStep) };

    // What names where it publishes, such as a board. No call changes it.
    ghost target: { Self → List ℕ } = { λ _. [] };

    fn publish(&mut self, step: Step) -> Result<(), OutOfMemory>
        requires { MayFollow (steps self.old) (plain step) }
        ensures appends { RecordAppends (steps self.old) (steps self.new) result (plain step) }
        ensures target { target self.new ≡ target self.old };
}

/// A publisher that keeps the steps. It may be made to refuse one call.
#[derive(Debug, Drop)]
pub struct MemPublisher {
    steps: Vec<Step>,
    calls: u64,
    refused: Option<u64>,
}

impl Model for MemPublisher {
    ghost use Rattle.spf_feed.specs.Publishing.{Published};

    ghost Value = { Published };

    ghost use Rattle.std.specs.Prelude.{map};
    ghost use Rattle.spf_feed.specs.Steps.{plain};

    ghost view = { λ p. record {
      steps = map plain p.steps.items;
      calls = p.calls;
      refused = p.refused;
    } };
}

impl MemPublisher {
    pub fn new(alloc: Global) -> MemPublisher
        ensures { result ≡ record { steps = []; calls = 0; refused = None } }
    {
        MemPublisher {
            steps: Vec::new(alloc),
            calls: 0,
            refused: None,
        }
    }

    /// Returns a publisher that runs out of memory at call number `at`, counted from 1, and keeps
    /// nothing of that step.
    pub fn refusing(alloc: Global, at: u64) -> MemPublisher
        ensures { result ≡ record { steps = []; calls = 0; refused = Some at } }
    {
        MemPublisher {
            steps: Vec::new(alloc),
            calls: 0,
            refused: Some(at),
        }
    }

    pub fn steps(&self) -> &[Step]
        ensures { map plain result.now ≡ self.now.steps }
    {
        self.steps.as_slice()
    }
}

impl Publisher for MemPublisher {
    ghost use Rattle.std.specs.Prelude.{◌≡◌, Some, IsErr};
    ghost use Rattle.spf_feed.specs.Publishing.{is_refused, called};

    ghost steps = { λ p. Some p.steps };

    fn publish(&mut self, step: Step) -> Result<(), OutOfMemory>
        ensures appends { RecordAppends (Some self.old.steps) (Some self.new.steps) result
            (plain step) }
        ensures refused { IsTrue (is_refused self.old) → IsErr result }
        ensures counted { (self.new.calls ≡ called self.old)
            × (self.new.refused ≡ self.old.refused) }
    {
        self.calls = self.calls.saturating_add(1);
        if self.refused == Some(self.calls) {
            return Err(OutOfMemory);
        }
        self.steps.push(step)?;
        Ok(())
    }
}
