//! What a snapshot and a state keep of the steps.

ghost use Rattle.std.specs.Prelude.{◌≡◌, IfOk};
ghost use Rattle.spf_view.specs.Standing.{shown_by};
ghost use Rattle.spf_jwt_feed.specs.Steps.{plain};
ghost use Rattle.spf_jwt_feed.specs.Standing.{view_in};

use crate::step::JwtStep;
use spf_feed::Denial;
use spf_io::OutOfMemory;
use spf_jwt::JwtBundleSet;
use std::sync::Arc;

/// What is visible: a permitted bundle set, or the reason of a withdrawal.
#[derive(Debug, Drop)]
pub(crate) enum Standing {
    Permitted(Arc<JwtBundleSet>),
    Withdrawn(Arc<Denial>),
}

impl Standing {
    pub(crate) fn of(step: JwtStep) -> Standing
        ensures { view_in result ≡ shown_by (plain step) }
    {
        match step {
            JwtStep::Accept { bundle_set, .. } => Standing::Permitted(bundle_set),
            JwtStep::Deny { reason } => Standing::Withdrawn(reason),
        }
    }

    pub(crate) fn try_clone(&self) -> Result<Standing, OutOfMemory>
        ensures { IfOk result (λ s. view_in s ≡ view_in self.now) }
    {
        match self {
            Standing::Permitted(set) => Ok(Standing::Permitted(Arc::try_clone(set)?)),
            Standing::Withdrawn(reason) => Ok(Standing::Withdrawn(Arc::try_clone(reason)?)),
        }
    }
}
