//! What gives passes their places.

ghost use Rattle.std.specs.Prelude.{◌≡◌, IfOk};
ghost use Rattle.spf_board.specs.Showing.{HasPlaceCauseBy};

use crate::pass::Pass;
use crate::places::{BoardPlaces, PlaceFault, RefusingPlaces};
use crate::shows::Shows;
use std::mem::drop;

/// Gives passes their places on a board of a kind.
pub trait Places<K: Shows> {
    ghost use Rattle.std.specs.Prelude.{◌≡◌, ℕ, IfOk};
    ghost use Rattle.spf_board.specs.Places.{CountsRefusals};

    // How many places were refused.
    ghost refusals: { Self → ℕ };

    /// Takes a pass of the giver's board, which has seen what the giver has seen.
    fn take(&mut self, giver: &mut Pass<K>) -> Result<Pass<K>, PlaceFault>
        ensures giver { giver.new ≡ giver.old }
        ensures pass { IfOk result (λ p. (p.book ≡ giver.old.book) × (p.seen ≡ giver.old.seen)) }
        ensures cause { CountsRefusals (refusals self.old) (refusals self.new) result };
}

/// Takes one of the places that the giver has.
impl<K: Shows> Places<K> for BoardPlaces {
    ghost refusals = { λ p. p };

    fn take(&mut self, giver: &mut Pass<K>) -> Result<Pass<K>, PlaceFault> {
        match giver.another() {
            Ok(pass) => Ok(pass),
            Err(PlaceFault::Refused) => Err(self.refuse()),
            Err(PlaceFault::OutOfMemory) => Err(PlaceFault::OutOfMemory),
        }
    }
}

/// Gives no place.
impl<K: Shows> Places<K> for RefusingPlaces {
    ghost refusals = { λ p. p };

    fn take(&mut self, _giver: &mut Pass<K>) -> Result<Pass<K>, PlaceFault> {
        Err(self.refuse())
    }
}

/// Returns another pass of the giver's board, which has seen what the giver has seen.
pub fn another_pass<K: Shows, L: Places<K>>(
    giver: &mut Pass<K>,
    places: &mut L,
) -> Result<Pass<K>, K::Error>
    ensures giver { giver.new ≡ giver.old }
    ensures pass { IfOk result (λ p. (p.book ≡ giver.old.book) × (p.seen ≡ giver.old.seen)) }
    ensures cause { HasPlaceCauseBy K.showing (L.refusals places.old) (L.refusals places.new)
        result }
{
    match places.take(giver) {
        Ok(pass) => Ok(pass),
        Err(PlaceFault::Refused) => Err(K::no_place()),
        Err(PlaceFault::OutOfMemory) => Err(K::out_of_memory()),
    }
}

/// Returns the pass from its places, with all places that the first pass has.
pub fn placed<K: Shows, L: Places<K>>(first: Pass<K>, places: &mut L) -> Result<Pass<K>, K::Error>
    ensures pass { IfOk result (λ p. (p.book ≡ first.book) × (p.seen ≡ first.seen)) }
    ensures cause { HasPlaceCauseBy K.showing (L.refusals places.old) (L.refusals places.new)
        result }
{
    let mut giver = first;
    match another_pass(&mut giver, places) {
        Ok(mut pass) => {
            giver.give_back(&mut pass);
            Ok(pass)
        }
        Err(e) => {
            drop(giver);
            Err(e)
        }
    }
}
