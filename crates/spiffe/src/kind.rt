//! X.509 steps and their snapshot, as a board has them.

use spf_board::{Kind, Look, Replay, Shows};
use spf_feed::{Prepared, Snapshot, X509SourceError, X509SourceState};
use spf_io::OutOfMemory;
use std::alloc::Global;
use std::fmt;

/// Boards of X.509 steps. No value of it is made.
pub struct X509;

impl Kind for X509 {
    type Step = Prepared;

    ghost use Rattle.spiffe.specs.Steps.{Legal};

    ghost legal = { Legal };
}

impl Replay for X509 {
    type Snapshot = Snapshot;

    ghost use Rattle.spf_view.specs.Standing.{kept_first, kept_next};
    ghost use Rattle.spf_feed.specs.Steps.{same_material};
    ghost use Rattle.spiffe.specs.Steps.{Replays};
    ghost use Rattle.spiffe.specs.Laws as laws;

    ghost first = { kept_first };

    ghost after = { kept_next same_material };

    ghost replays = { Replays };

    fn opening(step: Prepared) -> Snapshot {
        Snapshot::opening(step)
    }

    fn apply(snapshot: &mut Snapshot, step: Prepared) {
        snapshot.apply(step);
    }

    fn copy_step(step: &Prepared) -> Result<Prepared, OutOfMemory> {
        step.try_clone()
    }

    fn copy(snapshot: &Snapshot) -> Result<Snapshot, OutOfMemory> {
        snapshot.try_clone()
    }

    ghost replays_first = { laws.replays_first };

    ghost replays_after = { laws.replays_after };
}

impl Shows for X509 {
    type State = X509SourceState;

    // That of an open source. Its shares are counted where no other pass counts.
    type Base = X509SourceState;

    type Error = X509SourceError;

    ghost use Rattle.spiffe.specs.States as states;
    ghost use Rattle.spiffe.specs.Steps.{Replays};

    ghost showing = { states.showing };

    ghost is_base = { λ steps base. Replays steps
        (record { revision = base.revision; view = base.view }) };

    fn base(alloc: Global, snapshot: &Snapshot) -> Result<X509SourceState, OutOfMemory> {
        snapshot.state(alloc, false)
    }

    fn state(
        base: &X509SourceState,
        _snapshot: &Snapshot,
        closed: bool,
    ) -> Result<X509SourceState, OutOfMemory> {
        base.share(closed)
    }

    fn revision(state: &X509SourceState) -> u64 {
        state.revision()
    }

    fn closed() -> X509SourceError {
        X509SourceError::Closed
    }

    fn out_of_memory() -> X509SourceError {
        X509SourceError::OutOfMemory
    }

    fn no_place() -> X509SourceError {
        X509SourceError::NoPlace
    }

    fn timed_out(started: i64, ended: i64) -> X509SourceError {
        X509SourceError::ShutdownTimeout { started, ended }
    }

    fn write_name<W: fmt::Write>(f: &mut fmt::Formatter<W>) -> fmt::Result {
        write!(f, "X509SourceUpdates")
    }

    ghost closed_is = { λ list closed state is. is.closed_is };
}

/// What one reader has seen.
pub type Pass = spf_board::Pass<X509>;

/// Whether the chosen SVID is there and unexpired at a moment.
#[derive(Clone, Copy, Debug)]
pub struct UsableAt {
    pub now: Option<i64>,
}

impl Look<Snapshot> for UsableAt {
    type Found = bool;

    ghost use Rattle.std.specs.Prelude.{◌≡◌};
    ghost use Rattle.spiffe.specs.Steps.{is_usable};

    ghost finds = { λ at shown found. found ≡ is_usable shown at.now };

    fn look(&self, snapshot: &Snapshot) -> bool {
        snapshot.shows_choice(self.now)
    }
}
