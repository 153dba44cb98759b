//! Applying the steps of a session to a snapshot.

ghost use Rattle.std.specs.Prelude.{◌≡◌, ◌∷◌, IsTrue, IfOk};
ghost use Rattle.spf_view.specs.Standing.{Stands};
ghost use Rattle.spf_view.specs.Steps.{replay_revision};
ghost use Rattle.spf_feed.specs.Steps.{is_accept, same_material};

use spf_feed::{Prepared, Snapshot};
use spf_io::OutOfMemory;
use std::alloc::Global;

/// Returns what a session holds after an accepted context and the steps that follow it.
pub fn replay(first: Prepared, later: Vec<Prepared>) -> Snapshot
    requires { IsTrue (is_accept first) }
    ensures { Stands same_material (first ∷ later.items) result }
{
    let mut snapshot = Snapshot::opening(first);
    for step in later {
        snapshot.apply(step);
    }
    snapshot
}

/// Returns how often these steps change what is visible.
pub fn revision_after(
    alloc: Global,
    first: Prepared,
    later: Vec<Prepared>,
) -> Result<u64, OutOfMemory>
    requires { IsTrue (is_accept first) }
    ensures { IfOk result
        (λ revision. revision ≡ replay_revision same_material (first ∷ later.items)) }
{
    let state = replay(first, later).state(alloc, false)?;
    Ok(state.revision())
}
