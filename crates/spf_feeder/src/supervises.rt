//! Jobs of supervisors.

use spf_board::{Pass, Shows};
use spf_io::OutOfMemory;
use spf_system::Job;

/// The job of a supervisor, whose steps are those of a kind. It leaves a record.
pub trait Supervises<K: Shows>: Job {
    type Record: Drop;

    ghost use Rattle.std.specs.Prelude.{◌≡◌, true, List, IfOk};
    ghost use mathlib.Core.List.{IsPrefix};
    ghost use Rattle.logbook.specs.Pages.{Book};
    ghost use Rattle.spf_board.specs.Lists.{is_ended, steps_of};

    // The board that it publishes on.
    ghost board: { Self → Book };

    // Whether the record is one of the job.
    ghost is_of: { Self → Self.Record → Type 0 };

    // What each record keeps.
    ghost is_record: { Self.Record → Type 0 };

    // The steps of a record.
    ghost steps: { Self.Record → List K.Step };

    /// Returns the record of what the job has left, and lets the pass of the same source learn all
    /// that was published.
    fn into_record(done: Self::Done, pass: &mut Pass<K>) -> Result<Self::Record, OutOfMemory>
        requires left { (job : Self) × Self.may_give job done × (pass.old.book ≡ board job) }
        ensures record { IfOk result (λ r. (job : Self) → Self.may_give job done → is_of job r) }
        ensures kept { IfOk result is_record }
        ensures settled { IfOk result (λ r. (steps r ≡ steps_of pass.new.seen)
            × (is_ended pass.new.seen ≡ true)) }
        ensures book { pass.new.book ≡ pass.old.book }
        ensures seen { IsPrefix pass.old.seen pass.new.seen };
}
