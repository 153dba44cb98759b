//! A spawner that runs jobs, or refuses them: one type for both, so that what a test builds over it
//! is one function.

use spf_io::Failed;
use spf_system::{HeldJob, InlineSpawner, Job, RefusingSpawner, Spawner};

/// Runs each job where it is joined, or refuses each.
#[derive(Drop)]
pub struct EitherSpawner {
    is_refusing: bool,
    refusing: RefusingSpawner,
}

impl EitherSpawner {
    pub fn inline() -> EitherSpawner {
        EitherSpawner {
            is_refusing: false,
            refusing: RefusingSpawner::new(),
        }
    }

    pub fn refusing() -> EitherSpawner {
        EitherSpawner {
            is_refusing: true,
            refusing: RefusingSpawner::new(),
        }
    }
}

impl<J: Job> Spawner<J> for EitherSpawner {
    type Handle = HeldJob<J>;

    ghost refusals = { λ s. ⟦<RefusingSpawner as Spawner<J>>⟧.refusals s.refusing };

    fn start(&mut self, job: J) -> Result<HeldJob<J>, Failed> {
        if self.is_refusing {
            self.refusing.start(job)
        } else {
            InlineSpawner.start(job)
        }
    }
}
