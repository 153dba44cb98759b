//! A publisher for a program that shows views and keeps no steps.

use spf_feed::{Publisher, Step};
use spf_io::OutOfMemory;
use spf_jwt_feed::{JwtPublisher, JwtStep};

/// A publisher that drops each step.
#[derive(Drop)]
pub(crate) struct NoPublisher;

impl Publisher for NoPublisher {
    ghost use Rattle.std.specs.Prelude.{None};

    ghost steps = { λ _. None };

    #[inline(always)]
    fn publish(&mut self, _step: Step) -> Result<(), OutOfMemory> {
        Ok(())
    }
}

impl JwtPublisher for NoPublisher {
    ghost use Rattle.std.specs.Prelude.{None};

    ghost steps = { λ _. None };

    #[inline(always)]
    fn publish(&mut self, _step: JwtStep) -> Result<(), OutOfMemory> {
        Ok(())
    }
}
