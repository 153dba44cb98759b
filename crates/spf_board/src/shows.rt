//! What a pass is a pass of.

use crate::kind::Replay;
use spf_io::OutOfMemory;
use std::alloc::Global;
use std::fmt;

/// A kind of board whose snapshots are shown as the states of a source.
pub trait Shows: Replay {
    type State: Drop;
    /// What a pass makes once of what it has seen, and makes its states of.
    type Base: Drop;

    type Error: Drop;

    ghost use Rattle.std.specs.Prelude.{◌≡◌, Bool, List, IfOk};
    ghost use Rattle.spf_board.specs.declared.entry.Entry.{Entry};
    ghost use Rattle.spf_board.specs.Lists.{steps_of, IsBoardList};
    ghost use Rattle.spf_board.specs.Showing.{Showing, ToldClosed, ToldMemory, ToldNoPlace};

    // What its states and its errors say.
    ghost showing: { Showing Self.Step Self.State Self.Error };

    // It was made of what these steps replay to.
    ghost is_base: { List Self.Step → Self.Base → Type 0 };

    fn base(alloc: Global, snapshot: &Self::Snapshot) -> Result<Self::Base, OutOfMemory>
        ensures { IfOk result (λ base. (steps : List Self.Step)
            → Self.replays steps snapshot.now → is_base steps base) };

    /// Returns the state of a source that is closed or not.
    fn state(
        base: &Self::Base,
        snapshot: &Self::Snapshot,
        closed: bool,
    ) -> Result<Self::State, OutOfMemory>
        ensures { IfOk result (λ state. (list : List (Entry Self.Step))
            → is_base (steps_of list) base.now → Self.replays (steps_of list) snapshot.now
            → IsBoardList Self.legal list → showing.is_state list closed state) };

    fn revision(state: &Self::State) -> u64
        ensures { result ≡ showing.revision_of state.now };

    /// Returns the error of a closed source.
    fn closed() -> Self::Error
        ensures { showing.told result ≡ ToldClosed };

    fn out_of_memory() -> Self::Error
        ensures { showing.told result ≡ ToldMemory };

    /// Returns the error of a pass that is given no place.
    fn no_place() -> Self::Error
        ensures { showing.told result ≡ ToldNoPlace };

    /// Returns the error of a shutdown that timed out between these moments.
    fn timed_out(started: i64, ended: i64) -> Self::Error
        ensures { result ≡ showing.timed_out started ended };

    /// Writes the name of its updates.
    fn write_name<W: fmt::Write>(f: &mut fmt::Formatter<W>) -> fmt::Result;

    ghost closed_is: { (list : List (Entry Self.Step)) (closed : Bool) (state : Self.State)
        → showing.is_state list closed state → showing.closed_of state ≡ closed };
}
