//! What the steps so far make visible.

ghost use Rattle.std.specs.Prelude.{◌≡◌, IsTrue, IfOk, List, [], ◌∷◌, ◌++◌};
ghost use Rattle.spf_jwt.specs.Bundle.{set_eq};
ghost use Rattle.spf_view.specs.Standing.{Stands, IsShowing, is_change, kept_next, shown_by};
ghost use Rattle.spf_view.specs.Standing.{raised};
ghost use Rattle.spf_jwt_feed.specs.Steps.{PlainStep, plain, is_accept};
ghost use Rattle.spf_jwt_feed.specs.Standing.{view_in};

use crate::standing::Standing;
use crate::state::JwtSourceState;
use crate::step::JwtStep;
use spf_io::OutOfMemory;
use spf_jwt::JwtBundleSet;
use std::marker::Model;

/// The revision, and the held bundle set or the reason of the withdrawal.
#[derive(Debug, Drop)]
pub struct JwtSnapshot {
    revision: u64,
    standing: Standing,
}

impl Model for JwtSnapshot {
    ghost use Rattle.spf_view.specs.Standing.{Kept};
    ghost use Rattle.spf_feed.specs.declared.step.Denial.{Denial};
    ghost use Rattle.spf_jwt_feed.specs.Steps.{BundleSet};

    ghost Value = { Kept BundleSet Denial };

    ghost use Rattle.spf_jwt_feed.specs.Standing.{view_in};

    ghost view = { λ s. record { revision = s.revision; view = view_in s.standing } };
}

impl JwtSnapshot {
    /// Returns the snapshot of a first accepted bundle set.
    pub fn opening(step: JwtStep) -> JwtSnapshot
        requires { IsTrue (is_accept (plain step)) }
        ensures value { result ≡ record { revision = 0; view = shown_by (plain step) } }
        ensures stands { Stands set_eq (plain step ∷ []) result }
    {
        JwtSnapshot {
            revision: 0,
            standing: Standing::of(step),
        }
    }

    /// Whether the step makes something else visible.
    pub(crate) fn is_changed_by(&self, step: &JwtStep) -> bool
        ensures value { result ≡ is_change set_eq self.now.view (plain step.now) }
        ensures showing { IsShowing self.now.view }
    {
        match (&self.standing, step) {
            (Standing::Permitted(held), JwtStep::Accept { bundle_set, .. }) => {
                **held != **bundle_set
            }
            (Standing::Permitted(_), JwtStep::Deny { .. }) => true,
            (Standing::Withdrawn(_), JwtStep::Accept { .. }) => true,
            (Standing::Withdrawn(_), JwtStep::Deny { .. }) => false,
        }
    }

    pub(crate) fn show(&mut self, step: JwtStep)
        ensures { self.new ≡ record {
          revision = raised self.old.revision;
          view = shown_by (plain step);
        } }
    {
        self.revision = self.revision.saturating_add(1);
        self.standing = Standing::of(step);
    }

    /// Applies one more step. An unchanged bundle set keeps the older one.
    pub fn apply(&mut self, step: JwtStep)
        ensures value { self.new ≡ kept_next set_eq self.old (plain step) }
        ensures stands { (steps : List PlainStep) → Stands set_eq steps self.old
            → Stands set_eq (steps ++ plain step ∷ []) self.new }
    {
        if self.is_changed_by(&step) {
            self.show(step);
        }
    }

    /// Returns a copy, which shares what is held.
    pub fn try_clone(&self) -> Result<JwtSnapshot, OutOfMemory>
        ensures { IfOk result (λ s. s ≡ self.now) }
    {
        Ok(JwtSnapshot {
            revision: self.revision,
            standing: self.standing.try_clone()?,
        })
    }

    pub fn state(&self, closed: bool) -> Result<JwtSourceState, OutOfMemory>
        ensures { IfOk result
            (λ s. s ≡ record {
              revision = self.now.revision;
              closed = closed;
              view = self.now.view;
            }) }
    {
        Ok(JwtSourceState::new(self.revision, closed, self.standing.try_clone()?))
    }

    /// The held bundle set. None while withdrawn.
    pub(crate) fn bundle_set(&self) -> Option<&JwtBundleSet> {
        match &self.standing {
            Standing::Permitted(set) => Some(set),
            Standing::Withdrawn(_) => None,
        }
    }

    pub(crate) fn revision(&self) -> u64
        ensures { result ≡ self.now.revision }
    {
        self.revision
    }

    pub(crate) fn standing(&self) -> &Standing
        ensures { view_in result.now ≡ self.now.view }
    {
        &self.standing
    }
}
