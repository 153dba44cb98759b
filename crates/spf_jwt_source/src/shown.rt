//! The snapshot of a board.

ghost use Rattle.std.specs.Prelude.{◌≡◌, IsTrue, IfOk};
ghost use Rattle.spf_view.specs.Standing.{kept_first, kept_next};
ghost use Rattle.spf_jwt.specs.Bundle.{set_eq};
ghost use Rattle.spf_jwt_feed.specs.Steps.{is_accept};
ghost use Rattle.spf_jwt_feed.specs.States as states;
ghost use Rattle.spf_jwt_source.specs.Steps.{is_usable, usable_by};

use crate::shared_step::SharedStep;
use spf_io::OutOfMemory;
use spf_jwt::JwtBundleSet;
use spf_jwt_feed::{JwtSnapshot, JwtSourceState, JwtStep};
use std::marker::Model;

/// A snapshot that knows whether it is usable: that is found once a step, and not at
/// each read. Contracts see the snapshot.
#[derive(Debug, Drop)]
pub struct Shown {
    snapshot: JwtSnapshot,
    usable: bool,
}

impl Model for Shown {
    ghost use Rattle.std.specs.Prelude.{◌≡◌};
    ghost use Rattle.spf_view.specs.Standing.{Kept};
    ghost use Rattle.spf_feed.specs.declared.step.Denial.{Denial};
    ghost use Rattle.spf_jwt_feed.specs.Steps.{BundleSet};
    ghost use Rattle.spf_jwt_source.specs.Steps.{is_usable};

    ghost Value = { Kept BundleSet Denial };

    ghost view = { λ s. s.snapshot };

    ghost invariant = { λ s. s.usable ≡ is_usable s.snapshot };
}

/// Whether the bundle of some trust domain has a key.
fn has_authority(set: &JwtBundleSet) -> bool
    ensures { result ≡ states.has_authority set.now }
{
    for (_, bundle) in set.iter() {
        if bundle.jwt_authorities().next().is_some() {
            return true;
        }
    }
    false
}

/// Whether a bundle set with a key is permitted after the step.
fn makes_usable(step: &SharedStep) -> bool
    ensures { result ≡ usable_by step.now }
{
    match step.step() {
        JwtStep::Accept { bundle_set, .. } => has_authority(bundle_set),
        JwtStep::Deny { .. } => false,
    }
}

impl Shown {
    /// The snapshot of a first accepted bundle set.
    pub(crate) fn opening(step: SharedStep) -> Shown
        requires { IsTrue (is_accept step) }
        ensures { result ≡ kept_first step }
    {
        let usable = makes_usable(&step);
        Shown {
            snapshot: JwtSnapshot::opening(step.into_step()),
            usable,
        }
    }

    /// Applies one more step.
    pub(crate) fn apply(&mut self, step: SharedStep)
        ensures { self.new ≡ kept_next set_eq self.old step }
    {
        self.usable = makes_usable(&step);
        self.snapshot.apply(step.into_step());
    }

    /// Returns a copy, which shares what is held.
    pub fn try_clone(&self) -> Result<Shown, OutOfMemory>
        ensures { IfOk result (λ s. s ≡ self.now) }
    {
        Ok(Shown {
            snapshot: self.snapshot.try_clone()?,
            usable: self.usable,
        })
    }

    pub fn state(&self, closed: bool) -> Result<JwtSourceState, OutOfMemory>
        ensures { IfOk result
            (λ s. s ≡ record {
              revision = self.now.revision;
              closed = closed;
              view = self.now.view;
            }) }
    {
        self.snapshot.state(closed)
    }

    /// Returns whether a bundle set with a key is permitted.
    pub fn is_usable(&self) -> bool
        ensures { result ≡ is_usable self.now }
    {
        self.usable
    }
}
