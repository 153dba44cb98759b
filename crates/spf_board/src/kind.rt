//! What a board is a board of.

use crate::entry::Kind;
use spf_io::OutOfMemory;

/// A kind of step, with the snapshot that steps make. Nothing here allocates. A copy shares what it
/// holds, and is refused where that is shared too often.
pub trait Replay: Kind {
    type Snapshot: Drop;

    ghost use Rattle.std.specs.Prelude.{◌≡◌, [], ◌∷◌, ◌++◌, List, IfOk};

    // The snapshot of the first step, and that after one more step.
    ghost first: { Self.Step → Self.Snapshot };

    ghost after: { Self.Snapshot → Self.Step → Self.Snapshot };

    // The steps, the oldest first, replay to the snapshot.
    ghost replays: { List Self.Step → Self.Snapshot → Type 0 };

    fn opening(step: Self::Step) -> Self::Snapshot
        requires { Self.legal (step ∷ []) }
        ensures { result ≡ first step };

    fn apply(snapshot: &mut Self::Snapshot, step: Self::Step)
        ensures { snapshot.new ≡ after snapshot.old step };

    fn copy_step(step: &Self::Step) -> Result<Self::Step, OutOfMemory>
        ensures { IfOk result (λ s. s ≡ step.now) };

    fn copy(snapshot: &Self::Snapshot) -> Result<Self::Snapshot, OutOfMemory>
        ensures { IfOk result (λ s. s ≡ snapshot.now) };

    ghost replays_first: { (step : Self.Step) → Self.legal (step ∷ [])
        → replays (step ∷ []) (first step) };

    ghost replays_after: { (steps : List Self.Step) (snapshot : Self.Snapshot) (step : Self.Step)
        → replays steps snapshot → replays (steps ++ step ∷ []) (after snapshot step) };
}

/// A question that is asked of a snapshot while it is read.
pub trait Look<S> {
    type Found: Drop;

    // What may be found in the snapshot.
    ghost finds: { Self → S → Self.Found → Type 0 };

    fn look(&self, snapshot: &S) -> Self::Found
        ensures { finds self.now snapshot.now result };
}
