//! What a snapshot and a state keep of the steps.

ghost use Rattle.std.specs.Prelude.{◌≡◌, IfOk, is_some};
ghost use Rattle.std.specs.Option.{option_and_then};
ghost use Rattle.spf_feed.specs.Standing.{view_in, IsKept};
ghost use Rattle.spf_feed.specs.Steps.{chosen_of, held_in, shown_by};
ghost use Rattle.spf_feed.specs.Pick as spec;

use crate::picker::usable;
use crate::prepared::Prepared;
use crate::step::{Denial, Step};
use spf_io::OutOfMemory;
use std::sync::Arc;

/// What is visible: a permitted context, which is an Accept, or the reason of a withdrawal.
#[derive(Debug, Drop)]
pub(crate) enum Standing {
    Permitted(Prepared),
    Withdrawn(Arc<Denial>),
}

impl Standing {
    pub(crate) fn of(step: Prepared) -> Standing
        ensures view { view_in result ≡ shown_by step }
        ensures kept { IsKept result }
    {
        if step.is_accept() {
            return Standing::Permitted(step);
        }
        match step.into_step() {
            Step::Accept { .. } => unreachable!(),
            Step::Deny { reason } => Standing::Withdrawn(reason),
        }
    }

    pub(crate) fn try_clone(&self) -> Result<Standing, OutOfMemory>
        ensures view { IfOk result (λ s. view_in s ≡ view_in self.now) }
        ensures kept { IsKept self.now → IfOk result IsKept }
    {
        match self {
            Standing::Permitted(held) => Ok(Standing::Permitted(held.try_clone()?)),
            Standing::Withdrawn(reason) => Ok(Standing::Withdrawn(Arc::try_clone(reason)?)),
        }
    }

    /// Whether the choice is usable at the moment.
    pub(crate) fn is_usable(&self, now: Option<i64>) -> bool
        ensures { result
            ≡ is_some (spec.usable (option_and_then chosen_of (held_in (view_in self.now))) now) }
    {
        match self {
            Standing::Permitted(held) => usable(held.chosen(), now).is_some(),
            Standing::Withdrawn(_) => false,
        }
    }
}
