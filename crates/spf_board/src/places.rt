//! What gives or refuses places to passes, and counts the refusals.

ghost use Rattle.std.specs.Prelude.{◌≡◌, ◌≤◌};
ghost use Rattle.spf_io.specs.Outside.{Rose};
ghost use Rattle.spf_board.specs.declared.places.PlaceFault.TheVariants as fault;

use std::marker::Model;
use thiserror::Error;

/// Why there is no pass.
#[derive(Clone, Copy, Debug, PartialEq, Eq, Error)]
pub enum PlaceFault {
    #[error("the board has no place for another reader")]
    Refused,
    #[error("out of memory")]
    OutOfMemory,
}

/// The places that passes have themselves. Contracts see how many were refused.
#[derive(Debug, Drop)]
pub struct BoardPlaces {
    refused: u64,
}

impl Model for BoardPlaces {
    ghost use Rattle.std.specs.Prelude.{ℕ};

    ghost Value = { ℕ };

    ghost view = { λ s. s.refused };
}

impl BoardPlaces {
    pub fn new() -> BoardPlaces
        ensures { result ≡ 0 }
    {
        BoardPlaces { refused: 0 }
    }

    /// Counts a refusal, and returns it.
    pub fn refuse(&mut self) -> PlaceFault
        ensures later { self.old ≤ self.new }
        ensures counted { Rose self.old self.new }
        ensures fault { result ≡ fault.Refused }
    {
        self.refused = self.refused.saturating_add(1);
        PlaceFault::Refused
    }
}

/// Places that are all refused. Contracts see how many were.
#[derive(Debug, Drop)]
pub struct RefusingPlaces {
    refused: u64,
}

impl Model for RefusingPlaces {
    ghost use Rattle.std.specs.Prelude.{ℕ};

    ghost Value = { ℕ };

    ghost view = { λ s. s.refused };
}

impl RefusingPlaces {
    pub fn new() -> RefusingPlaces
        ensures { result ≡ 0 }
    {
        RefusingPlaces { refused: 0 }
    }

    /// Counts a refusal, and returns it.
    pub fn refuse(&mut self) -> PlaceFault
        ensures later { self.old ≤ self.new }
        ensures counted { Rose self.old self.new }
        ensures fault { result ≡ fault.Refused }
    {
        self.refused = self.refused.saturating_add(1);
        PlaceFault::Refused
    }
}
