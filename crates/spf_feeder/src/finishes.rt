//! How a publisher on a board ends.

use crate::rules::Governs;
use crate::session::Session;
use spf_board::{Front, Pass, Shows};
use spf_io::OutOfMemory;

/// A publisher of sessions, on a board of a kind. It keeps the steps that it publishes.
pub trait Finishes<K: Shows, S: Session<Publisher = Self>>: Drop {
    /// The writer of its board, which publishes nothing more.
    type Ended: Drop;

    ghost use Rattle.std.specs.Prelude.{◌≡◌, true, List, OnOk, map};
    ghost use mathlib.Core.List.{IsPrefix};
    ghost use Rattle.logbook.specs.Pages.{Book};
    ghost use Rattle.spf_board.specs.Lists.{is_ended, steps_of};
    ghost use Rattle.spf_board.specs.Past.{Past};
    ghost use Rattle.spf_view.specs.Steps.{steps_of as steps_by};
    ghost use Rattle.spf_feed.specs.declared.event.SessionEvent.{SessionEvent};
    ghost use Rattle.spf_feeder.specs.Boards.{numbers_of};

    // The board that it publishes on.
    ghost board: { Self → Book };

    // What an ended writer has published.
    ghost past: { Self.Ended → Past K.Step };

    // A step as it stands on the board.
    ghost shown: { S.Rules.Step → K.Step };

    /// Returns what is published.
    fn front(&self) -> Front<K>
        ensures { result.book ≡ board self.now };

    /// Publishes the end, and returns the steps.
    fn finish(self) -> (Self::Ended, Vec<<S::Rules as Governs>::Step>)
        ensures steps { (rules : S.Rules) (run : List (SessionEvent S.Rules.Item))
            → S.publishes self rules run
            → map S.Rules.plain result.1.items ≡ steps_by (S.Rules.kind rules).subject run }
        ensures shown { map shown result.1.items ≡ steps_of (past result.0).list }
        ensures board { (past result.0).book ≡ board self };

    /// Lets a pass of the same board learn all that was published: from then on it has seen just
    /// that, and never sees more.
    fn settle(ended: Self::Ended, pass: &mut Pass<K>) -> Result<(), OutOfMemory>
        requires { pass.old.book ≡ (past ended).book }
        ensures settled { OnOk result ((steps_of pass.new.seen ≡ steps_of (past ended).list)
            × (is_ended pass.new.seen ≡ true)) }
        ensures book { pass.new.book ≡ pass.old.book }
        ensures seen { IsPrefix pass.old.seen pass.new.seen };

    // Sessions name the board where they publish.
    ghost named: { (session : S)
        → (S.given session).target ≡ numbers_of (board (S.publisher session)) };
}
