//! Runs a job on a thread of its own.

ghost use Rattle.std.specs.Prelude.{◌≡◌, IfOk};

use crate::job::{Job, Joins};
use spf_io::Failed;
use std::snapshot::Snapshot;
use std::thread;
use std::thread::{Promise, PromisedHandle, Threads};

/// The promise that a job leaves what it may leave.
#[derive(Drop)]
pub struct Gives<J: Job>(Snapshot<J>);

impl<J: Job> Promise<J::Done> for Gives<J> {
    ghost kept_by = { λ p r. J.may_give p.0.value r };
}

/// A job on its thread.
#[derive(Drop)]
pub struct Running<J: Job, R: Threads + Drop> {
    handle: PromisedHandle<J::Done, Gives<J>>,
    rt: R,
}

impl<J: Job, R: Threads + Drop> Joins<J> for Running<J, R> {
    ghost job = { λ h. h.handle.promise.0.value };

    fn join(self) -> J::Done {
        let Running { handle, rt } = self;
        handle.join(&rt)
    }
}

/// Starts a job on a thread of its own. An `impl` of `Spawner` for one type of job calls it.
pub fn start_thread<J: Job + Send + 'static, R: Threads + Drop>(
    rt: R,
    job: J,
) -> Result<Running<J, R>, Failed>
where
    J::Done: Send + 'static,
    ensures { IfOk result (λ h. ⟦<Running<J, R> as Joins<J>>⟧.job h ≡ job) }
{
    match thread::spawn_with(&rt, Gives(Snapshot::of(&job)), move || job.run()) {
        Ok(handle) => Ok(Running { handle, rt }),
        Err(_) => Err(Failed),
    }
}
