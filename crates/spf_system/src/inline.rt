//! Runs a job where it is joined.

use crate::job::{Job, Joins, Spawner};
use spf_io::Failed;

/// A job that runs at `join`.
#[derive(Drop)]
pub struct HeldJob<J: Job> {
    job: J,
}

impl<J: Job> Joins<J> for HeldJob<J> {
    ghost job = { λ h. h.job };

    fn join(self) -> J::Done {
        let HeldJob { job } = self;
        job.run()
    }
}

/// Runs each job on the thread that joins it.
#[derive(Clone, Copy, Debug)]
pub struct InlineSpawner;

impl<J: Job> Spawner<J> for InlineSpawner {
    type Handle = HeldJob<J>;

    ghost refusals = { λ _. 0 };

    fn start(&mut self, job: J) -> Result<HeldJob<J>, Failed> {
        Ok(HeldJob { job })
    }
}
