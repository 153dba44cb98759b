//! The job of a source of JWT bundles on a thread of its own.

ghost use Rattle.std.specs.Prelude.{◌≡◌, IfOk};
ghost use Rattle.spf_jwt_source.specs.Records.{task_of};

use spf_feed::NoRecorder;
use spf_fixtures::{AgentConnector, ShortPause};
use spf_io::Failed;
use spf_jwt_source::{JwtDone, JwtJob, JwtTask};
use spf_system::{Job, Joins, StepWords};
use std::snapshot::Snapshot;
use std::sync::Wait;
use std::thread::{self, PromisedHandle, Threads};

/// The job of a source of JWT bundles in these tests.
pub type JwtAgentJob<R> = JwtJob<AgentConnector, NoRecorder, ShortPause, StepWords, R>;

/// A job on its thread.
#[derive(Drop)]
pub struct JwtOnThread<R: Threads + Wait + Copy + Drop + Send + 'static> {
    handle: PromisedHandle<JwtDone<NoRecorder, R>, JwtTask>,
    job: Snapshot<JwtAgentJob<R>>,
    rt: R,
    ghost promised: { handle.promise ≡ task_of job.value },
}

impl<R: Threads + Wait + Copy + Drop + Send + 'static> Joins<JwtAgentJob<R>> for JwtOnThread<R> {
    ghost job = { λ h. h.job.value };

    fn join(self) -> JwtDone<NoRecorder, R> {
        let JwtOnThread { handle, rt, .. } = self;
        handle.join(&rt)
    }
}

/// Starts the job on a thread of its own.
pub fn start_on_thread<R: Threads + Wait + Copy + Drop + Send + 'static>(
    rt: R,
    job: JwtAgentJob<R>,
) -> Result<JwtOnThread<R>, Failed>
    ensures { IfOk result (λ h. ⟦<JwtOnThread<R> as Joins<JwtAgentJob<R>>>⟧.job h ≡ job) }
{
    let task = job.task();
    let kept = Snapshot::of(&job);
    match thread::spawn_with(&rt, task, move || job.run()) {
        Ok(handle) => Ok(JwtOnThread {
            handle,
            job: kept,
            rt,
        }),
        Err(e) => {
            drop(e);
            Err(Failed)
        }
    }
}
