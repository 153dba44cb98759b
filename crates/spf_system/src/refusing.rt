//! Starts nothing.

ghost use Rattle.std.specs.Prelude.{◌≡◌};

use crate::inline::HeldJob;
use crate::job::{Job, Joins, Spawner};
use spf_io::Failed;

/// Refuses each job, and counts.
#[derive(Debug, Drop)]
pub struct RefusingSpawner {
    refusals: u64,
}

impl RefusingSpawner {
    pub fn new() -> RefusingSpawner
        ensures { result.refusals ≡ 0 }
    {
        RefusingSpawner { refusals: 0 }
    }

    /// Returns how often it has refused.
    pub fn refusals(&self) -> u64
        ensures { result ≡ self.now.refusals }
    {
        self.refusals
    }
}

impl<J: Job> Spawner<J> for RefusingSpawner {
    ghost use Rattle.std.specs.Prelude.{◌≡◌, ◌+◌, ◌-◌, ◌^◌, min, IsErr};
    ghost use Rattle.spf_system.specs.Starts.{Starts};

    type Handle = HeldJob<J>;

    ghost refusals = { λ s. s.refusals };

    fn start(&mut self, job: J) -> Result<HeldJob<J>, Failed>
        ensures starts { Starts (⟦<HeldJob<J> as Joins<J>>⟧.job) self.old.refusals self.new.refusals
            job result }
        ensures refused { IsErr result }
        ensures counted { self.new.refusals ≡ min (self.old.refusals + 1) (2 ^ 64 - 1) }
    {
        self.refusals = self.refusals.saturating_add(1);
        Err(Failed)
    }
}
