//! What the steps so far make visible.

ghost use Rattle.std.specs.Prelude.{◌≡◌, false, IsTrue, IfOk, is_some, List, [], ◌∷◌, ◌++◌};
ghost use Rattle.std.specs.Option.{option_and_then};
ghost use Rattle.spf_view.specs.Standing.{Stands, IsShowing, is_change, kept_next};
ghost use Rattle.spf_feed.specs.Steps.{PlainStep, plain, is_accept, chosen_of, shown_by, held_in};
ghost use Rattle.spf_feed.specs.Steps.{raised, same_material};
ghost use Rattle.spf_feed.specs.Standing.{view_in, IsKept};
ghost use Rattle.spf_feed.specs.Pick as spec;

use crate::prepared::Prepared;
use crate::standing::Standing;
use crate::state::X509SourceState;
use crate::step::Step;
use spf_io::OutOfMemory;
use spf_x509::X509Context;
use std::alloc::Global;
use std::marker::Model;

/// The revision, and the held context or the reason of the withdrawal.
#[derive(Debug, Drop)]
pub struct Snapshot {
    revision: u64,
    standing: Standing,
}

impl Model for Snapshot {
    ghost use Rattle.spf_feed.specs.Steps.{Kept, Material};
    ghost use Rattle.spf_feed.specs.declared.step.Denial.{Denial};

    ghost Value = { Kept Material Denial };

    ghost use Rattle.spf_feed.specs.Standing.{view_in, IsKept};

    ghost view = { λ s. record { revision = s.revision; view = view_in s.standing } };

    ghost invariant = { λ s. IsKept s.standing };
}

impl Snapshot {
    /// Returns the snapshot of a first accepted context.
    pub fn opening(step: Prepared) -> Snapshot
        requires { IsTrue (is_accept step) }
        ensures value { result ≡ record { revision = 0; view = shown_by step } }
        ensures stands { Stands same_material (step ∷ []) result }
    {
        Snapshot {
            revision: 0,
            standing: Standing::of(step),
        }
    }

    /// Whether the step accepts what is held, member by
    /// member and in order. Then it changes nothing.
    pub(crate) fn holds(&self, step: &Step) -> bool
        ensures { IsTrue result → is_change same_material self.now.view (plain step.now) ≡ false }
    {
        match &self.standing {
            Standing::Permitted(held) => held.is_equal(step),
            Standing::Withdrawn(_) => false,
        }
    }

    /// Whether the step makes something else visible.
    pub(crate) fn is_changed_by(&self, step: &Prepared) -> bool
        ensures value { result ≡ is_change same_material self.now.view step.now }
        ensures showing { IsShowing self.now.view }
    {
        match &self.standing {
            Standing::Permitted(held) => !held.is_same(step),
            Standing::Withdrawn(_) => step.is_accept(),
        }
    }

    pub(crate) fn show(&mut self, step: Prepared)
        ensures { self.new ≡ record { revision = raised self.old.revision; view = shown_by step } }
    {
        self.revision = self.revision.saturating_add(1);
        self.standing = Standing::of(step);
    }

    /// Applies one more step. Unchanged material keeps the older context.
    pub fn apply(&mut self, step: Prepared)
        ensures value { self.new ≡ kept_next same_material self.old step }
        ensures stands { (steps : List PlainStep) → Stands same_material steps self.old
            → Stands same_material (steps ++ step ∷ []) self.new }
    {
        if self.is_changed_by(&step) {
            self.show(step);
        }
    }

    /// Returns a copy, which shares what is held.
    pub fn try_clone(&self) -> Result<Snapshot, OutOfMemory>
        ensures { IfOk result (λ s. s ≡ self.now) }
    {
        Ok(Snapshot {
            revision: self.revision,
            standing: self.standing.try_clone()?,
        })
    }

    /// Returns the state of a source that holds this, and is closed or not.
    pub fn state(&self, alloc: Global, closed: bool) -> Result<X509SourceState, OutOfMemory>
        ensures { IfOk result
            (λ s. s ≡ record {
              revision = self.now.revision;
              closed = closed;
              view = self.now.view;
            }) }
    {
        X509SourceState::new(alloc, self.revision, closed, self.standing.try_clone()?)
    }

    /// The held context. None while withdrawn.
    pub(crate) fn context(&self) -> Option<&X509Context> {
        match &self.standing {
            Standing::Permitted(held) => match held.context() {
                Some(context) => Some(context),
                None => None,
            },
            Standing::Withdrawn(_) => None,
        }
    }

    pub(crate) fn revision(&self) -> u64
        ensures { result ≡ self.now.revision }
    {
        self.revision
    }

    pub(crate) fn standing(&self) -> &Standing
        ensures view { view_in result.now ≡ self.now.view }
        ensures kept { IsKept result.now }
    {
        &self.standing
    }

    /// Returns whether the choice is there and usable at the moment.
    pub fn shows_choice(&self, now: Option<i64>) -> bool
        ensures { result
            ≡ is_some (spec.usable (option_and_then chosen_of (held_in self.now.view)) now) }
    {
        self.standing.is_usable(now)
    }
}
