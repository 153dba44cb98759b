//! JWT steps and their snapshot, as a board has them.

use crate::shared_step::SharedStep;
use crate::shown::Shown;
use spf_board::{Kind, Look, Replay, Shows};
use spf_io::OutOfMemory;
use spf_jwt_feed::{JwtSourceError, JwtSourceState};
use std::alloc::Global;
use std::fmt;

/// Boards of JWT steps. No value of it is made.
pub struct Jwt;

impl Kind for Jwt {
    type Step = SharedStep;

    ghost use Rattle.spf_jwt_source.specs.Steps.{Legal};

    ghost legal = { Legal };
}

impl Replay for Jwt {
    type Snapshot = Shown;

    ghost use Rattle.spf_view.specs.Standing.{kept_first, kept_next};
    ghost use Rattle.spf_jwt.specs.Bundle.{set_eq};
    ghost use Rattle.spf_jwt_source.specs.Steps.{Replays};
    ghost use Rattle.spf_jwt_source.specs.BoardLaws as laws;

    ghost first = { kept_first };

    ghost after = { kept_next set_eq };

    ghost replays = { Replays };

    fn opening(step: SharedStep) -> Shown {
        Shown::opening(step)
    }

    fn apply(snapshot: &mut Shown, step: SharedStep) {
        snapshot.apply(step);
    }

    fn copy_step(step: &SharedStep) -> Result<SharedStep, OutOfMemory> {
        step.try_clone()
    }

    fn copy(snapshot: &Shown) -> Result<Shown, OutOfMemory> {
        snapshot.try_clone()
    }

    ghost replays_first = { laws.replays_first };

    ghost replays_after = { laws.replays_after };
}

impl Shows for Jwt {
    type State = JwtSourceState;

    // A state is made of the snapshot alone.
    type Base = ();

    type Error = JwtSourceError;

    ghost use Rattle.spf_jwt_source.specs.States as states;

    ghost showing = { states.showing };

    ghost is_base = { λ _ _. Unit {0} };

    fn base(_alloc: Global, _snapshot: &Shown) -> Result<(), OutOfMemory> {
        Ok(())
    }

    fn state(_base: &(), snapshot: &Shown, closed: bool) -> Result<JwtSourceState, OutOfMemory> {
        snapshot.state(closed)
    }

    fn revision(state: &JwtSourceState) -> u64 {
        state.revision()
    }

    fn closed() -> JwtSourceError {
        JwtSourceError::Closed
    }

    fn out_of_memory() -> JwtSourceError {
        JwtSourceError::OutOfMemory
    }

    fn no_place() -> JwtSourceError {
        JwtSourceError::NoPlace
    }

    fn timed_out(started: i64, ended: i64) -> JwtSourceError {
        JwtSourceError::ShutdownTimeout { started, ended }
    }

    fn write_name<W: fmt::Write>(f: &mut fmt::Formatter<W>) -> fmt::Result {
        write!(f, "JwtSourceUpdates")
    }

    ghost closed_is = { λ list closed state is. is.closed_is };
}

/// What one reader has seen.
pub type JwtPass = spf_board::Pass<Jwt>;

/// Whether a bundle set with a key is permitted.
#[derive(Clone, Copy, Debug)]
pub struct Usable;

impl Look<Shown> for Usable {
    type Found = bool;

    ghost use Rattle.std.specs.Prelude.{◌≡◌};
    ghost use Rattle.spf_jwt_source.specs.Steps.{is_usable};

    ghost finds = { λ _ shown found. found ≡ is_usable shown };

    fn look(&self, snapshot: &Shown) -> bool {
        snapshot.is_usable()
    }
}
