//! Steps as a board holds them.

ghost use Rattle.std.specs.Prelude.{◌≡◌, IfOk};
ghost use Rattle.spf_jwt_feed.specs.Steps.{plain};

use spf_io::OutOfMemory;
use spf_jwt_feed::JwtStep;
use std::marker::Model;

/// A step, whose bundle set or reason a clone shares. Contracts see the step without its sharing.
#[derive(Debug, Drop)]
pub struct SharedStep {
    step: JwtStep,
}

impl Model for SharedStep {
    ghost use Rattle.spf_jwt_feed.specs.Steps.{PlainStep};

    ghost Value = { PlainStep };

    ghost use Rattle.spf_jwt_feed.specs.Steps.{plain};

    ghost view = { λ s. plain s.step };
}

impl SharedStep {
    pub fn new(step: JwtStep) -> SharedStep
        ensures { result ≡ plain step }
    {
        SharedStep { step }
    }

    pub fn step(&self) -> &JwtStep
        ensures { plain result.now ≡ self.now }
    {
        &self.step
    }

    pub(crate) fn into_step(self) -> JwtStep
        ensures { plain result ≡ self }
    {
        self.step
    }

    pub fn try_clone(&self) -> Result<SharedStep, OutOfMemory>
        ensures { IfOk result (λ s. s ≡ self.now) }
    {
        Ok(SharedStep {
            step: self.step.try_clone()?,
        })
    }
}
