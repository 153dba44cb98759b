//! The job of a source of these tests on a thread of its own.

ghost use Rattle.std.specs.Prelude.{◌≡◌, IfOk};
ghost use Rattle.spiffe.specs.Records.{task_of};

use spf_feed::NoPicker;
use spf_fixtures::{AgentConnector, HeldRecorder, ShortPause};
use spf_io::Failed;
use spf_system::{Job, Joins, StepWords};
use spiffe::{Task, X509Done, X509Job};
use std::snapshot::Snapshot;
use std::sync::Wait;
use std::thread::{self, PromisedHandle, Threads};

/// The job of a source of these tests.
pub type AgentJob<R> = X509Job<AgentConnector, NoPicker, HeldRecorder, ShortPause, StepWords, R>;

/// A job on its thread.
#[derive(Drop)]
pub struct OnThread<R: Threads + Wait + Copy + Drop + Send + 'static> {
    handle: PromisedHandle<X509Done<NoPicker, HeldRecorder, R>, Task<NoPicker>>,
    job: Snapshot<AgentJob<R>>,
    rt: R,
    ghost promised: { handle.promise ≡ task_of job.value },
}

impl<R: Threads + Wait + Copy + Drop + Send + 'static> Joins<AgentJob<R>> for OnThread<R> {
    ghost job = { λ h. h.job.value };

    fn join(self) -> X509Done<NoPicker, HeldRecorder, R> {
        let OnThread { handle, rt, .. } = self;
        handle.join(&rt)
    }
}

/// Starts the job on a thread of its own.
pub fn start_on_thread<R: Threads + Wait + Copy + Drop + Send + 'static>(
    rt: R,
    job: AgentJob<R>,
) -> Result<OnThread<R>, Failed>
    ensures { IfOk result (λ h. ⟦<OnThread<R> as Joins<AgentJob<R>>>⟧.job h ≡ job) }
{
    let task = job.task();
    let kept = Snapshot::of(&job);
    match thread::spawn_with(&rt, task, move || job.run()) {
        Ok(handle) => Ok(OnThread {
            handle,
            job: kept,
            rt,
        }),
        Err(e) => {
            drop(e);
            Err(Failed)
        }
    }
}
