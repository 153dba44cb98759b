//! The publisher of a supervisor: its steps stand on the board, and in its record.

ghost use Rattle.std.specs.Prelude.{◌≡◌, Some, map};
ghost use Rattle.spf_board.specs.Lists.{steps_of};
ghost use Rattle.spf_feed.specs.Records.{RecordAppends};
ghost use Rattle.spf_feed.specs.Steps.{MayFollow, plain};

use crate::desk::{Desk, Ended, publish_on};
use crate::kind::{Pass, X509};
use spf_board::{Front, settle};
use spf_feed::{MetricsRecorder, Publisher, Step, SvidPicker};
use spf_feeder::{Finishes, X509Session};
use spf_io::OutOfMemory;
use spf_system::Bell;
use std::alloc::Global;
use std::marker::Model;
use std::sync::Wait;

/// Publishes each step on a board, keeps it, and wakes those who wait for a change. Contracts see
/// what is published.
#[derive(Drop)]
pub struct BoardPublisher<R: Wait + Drop> {
    alloc: Global,
    desk: Desk<R>,
    steps: Vec<Step>,
    bell: Bell,
    // After a refused publish nothing more is published, not even the end.
    is_refused: bool,
}

impl<R: Wait + Drop> Model for BoardPublisher<R> {
    ghost use Rattle.std.specs.Prelude.{◌≡◌, map};
    ghost use Rattle.spf_board.specs.Lists.{steps_of};
    ghost use Rattle.spf_board.specs.Past.{Past};
    ghost use Rattle.spf_feed.specs.Steps.{PlainStep, plain};

    ghost Value = { Past PlainStep };

    ghost view = { λ p. p.desk };

    ghost invariant = { λ p. map plain p.steps.items ≡ steps_of p.desk.list };
}

impl<R: Wait + Drop> BoardPublisher<R> {
    /// A publisher on a board whose steps so far are these.
    pub(crate) fn new(
        alloc: Global,
        desk: Desk<R>,
        steps: Vec<Step>,
        bell: Bell,
    ) -> BoardPublisher<R>
        requires { map plain steps.items ≡ steps_of desk.list }
        ensures { result ≡ desk }
    {
        BoardPublisher {
            alloc,
            desk,
            steps,
            bell,
            is_refused: false,
        }
    }
}

/// What publishes nothing more. The end is published, unless a step was refused.
fn ended<R: Wait + Drop>(desk: Desk<R>, is_refused: bool) -> Ended<R>
    ensures board { (result.book ≡ desk.book) × (steps_of result.list ≡ steps_of desk.list) }
{
    if is_refused { desk.stop() } else { desk.end() }
}

impl<R: Wait + Drop> Publisher for BoardPublisher<R> {
    ghost use Rattle.std.specs.Prelude.{◌≡◌, Some};
    ghost use Rattle.spf_board.specs.Lists.{steps_of};
    ghost use Rattle.spf_feed.specs.Records.{RecordAppends};
    ghost use Rattle.spf_feed.specs.Steps.{MayFollow, plain};
    ghost use Rattle.spf_feeder.specs.Boards.{numbers_of};

    ghost steps = { λ p. Some (steps_of p.list) };

    ghost target = { λ p. numbers_of p.book };

    fn publish(&mut self, step: Step) -> Result<(), OutOfMemory>
        requires { MayFollow (Some (steps_of self.old.list)) (plain step) }
        ensures appends { RecordAppends (Some (steps_of self.old.list))
            (Some (steps_of self.new.list)) result (plain step) }
        ensures target { numbers_of self.new.book ≡ numbers_of self.old.book }
    {
        self.steps.reserve(1)?;
        let kept = step.try_clone()?;
        match publish_on(self.alloc, &mut self.desk, step) {
            Ok(()) => {
                self.steps.push_reserved(kept);
                self.bell.ring();
                Ok(())
            }
            Err(e) => {
                self.is_refused = true;
                Err(e)
            }
        }
    }
}

impl<R: Wait + Drop, M: MetricsRecorder + Drop, K: SvidPicker + Drop> Finishes<
    X509,
    X509Session<BoardPublisher<R>, M, K>,
> for BoardPublisher<R> {
    type Ended = Ended<R>;

    ghost use Rattle.std.specs.Prelude.{◌≡◌, refl, map};
    ghost use Rattle.spf_board.specs.Lists.{steps_of};
    ghost use Rattle.spf_feed.specs.Steps.{plain};

    ghost board = { λ p. p.book };

    ghost past = { λ ended. ended };

    ghost shown = { plain };

    fn front(&self) -> Front<X509> {
        self.desk.front()
    }

    fn finish(self) -> (Ended<R>, Vec<Step>)
        ensures steps { map plain result.1.items ≡ steps_of self.list }
        ensures board { (result.0.book ≡ self.book)
            × (steps_of result.0.list ≡ steps_of self.list) }
    {
        let BoardPublisher {
            desk,
            steps,
            bell: _bell,
            is_refused,
            alloc: _,
        } = self;
        (ended(desk, is_refused), steps)
    }

    fn settle(ended: Ended<R>, pass: &mut Pass) -> Result<(), OutOfMemory> {
        settle(ended, pass)?;
        Ok(())
    }

    ghost named = { λ session. refl };
}
