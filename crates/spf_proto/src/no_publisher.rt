//! A publisher for a program that shows views and keeps no steps.

use spf_feed::{Publisher, Step};
use spf_io::OutOfMemory;

/// A publisher that drops each step.
#[derive(Drop)]
pub(crate) struct NoPublisher;

impl Publisher for NoPublisher {
    ghost use Rattle.std.specs.Prelude.{None};

    ghost steps = { λ _. None };

    fn publish(&mut self, _step: Step) -> Result<(), OutOfMemory> {
        Ok(())
    }
}
