//! Whether a source is closed.

ghost use Rattle.std.specs.Prelude.{◌≡◌, ℕ, None, IfErr, IfSome, OnOk};
ghost use Rattle.spf_board.specs.Passing.{LooksAt, SaysClosed};
ghost use Rattle.spf_board.specs.Showing.{HasClosedCauseBy};

use crate::pass::Pass;
use crate::shows::Shows;
use spf_system::{Maker, Watch};

/// Whether the source is closed. The pass knows the mark from then on, by a note.
pub fn look<K: Shows>(watch: &Watch, pass: &mut Pass<K>) -> bool
    ensures looks { LooksAt watch.now pass.old pass.new }
    ensures closed { SaysClosed watch.now pass.new result }
{
    pass.note(watch.look());
    pass.closed_by().is_some()
}

/// Lets the pass learn, by a note, whether the source is closed.
pub fn learn<K: Shows>(watch: &Watch, pass: &mut Pass<K>)
    ensures { LooksAt watch.now pass.old pass.new }
{
    pass.note(watch.look());
}

/// Refuses where the pass knows that the source is closed: a source that no caller closed ended by
/// itself, which it does only out of memory.
pub fn known_open<K: Shows>(pass: &Pass<K>) -> Result<(), K::Error>
    ensures open { OnOk result (pass.now.closed ≡ None) }
    ensures cause { IfErr result (λ e. (cell : ℕ)
        → IfSome pass.now.closed (λ known. known.cell ≡ cell)
        → HasClosedCauseBy K.showing cell pass.now e) }
{
    match pass.closed_by() {
        None => Ok(()),
        Some(Maker::Caller) => Err(K::closed()),
        Some(Maker::Supervisor) => Err(K::out_of_memory()),
    }
}

/// Refuses where the source is closed, which the pass then knows.
pub fn check_open<K: Shows>(watch: &Watch, pass: &mut Pass<K>) -> Result<(), K::Error>
    ensures looks { LooksAt watch.now pass.old pass.new }
    ensures open { OnOk result (pass.new.closed ≡ None) }
    ensures cause { IfErr result (HasClosedCauseBy K.showing watch.now pass.new) }
{
    learn(watch, pass);
    known_open(pass)
}
