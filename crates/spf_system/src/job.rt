//! Jobs, and what starts and joins them.

ghost use Rattle.std.specs.Prelude.{ℕ};

use spf_io::Failed;

/// A job: what a thread does.
pub trait Job: Drop {
    type Done: Drop;

    // Whether this may be what the job leaves.
    ghost may_give: { Self → Self.Done → Type 0 };

    fn run(self) -> Self::Done
        ensures { may_give self result };
}

/// A job that was started.
pub trait Joins<J: Job> {
    // The job that was started.
    ghost job: { Self → J };

    /// Waits for the job, and returns what it leaves.
    fn join(self) -> J::Done
        ensures { J.may_give (job self) result };
}

/// Starts jobs, and counts how often it refused.
pub trait Spawner<J: Job> {
    ghost use Rattle.spf_system.specs.Starts.{Starts};

    type Handle: Joins<J>;

    // How often it has refused.
    ghost refusals: { Self → ℕ };

    /// Starts a job, or drops it.
    fn start(&mut self, job: J) -> Result<Self::Handle, Failed>
        ensures { Starts (Self.Handle.job) (refusals self.old) (refusals self.new) job result };
}
