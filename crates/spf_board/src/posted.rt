//! What readers read, and what changes it.

ghost use Rattle.std.specs.Prelude.{◌≡◌, IfOk};

use crate::front::Front;
use crate::kind::Replay;
use left_right::Absorb;
use spf_io::OutOfMemory;
use std::alloc::AllocError;

/// The published snapshot, and the history that it stands for.
#[derive(Drop)]
pub struct Posted<K: Replay> {
    pub snapshot: K::Snapshot,
    pub front: Front<K>,
}

/// A step, once for each copy of what is posted.
#[derive(Drop)]
pub struct Twice<S> {
    pub first: S,
    pub second: S,
    ghost alike: { first ≡ second },
}

impl<S: Drop> Twice<S> {
    pub(crate) fn new(first: S, second: S) -> Twice<S>
        requires { first ≡ second }
        ensures { result.first ≡ first }
    {
        Twice { first, second }
    }
}

/// What is published.
#[derive(Drop)]
pub enum Change<S> {
    Step(Twice<S>),
    End,
}

/// A change, with the history that it ends.
#[derive(Drop)]
pub struct Post<K: Replay> {
    pub change: Change<K::Step>,
    pub front: Front<K>,
}

impl<K: Replay> Absorb<Post<K>> for Posted<K> {
    type State = (K::Snapshot, Front<K>);

    ghost use Rattle.spf_board.specs.Posted.{changed};

    ghost state = { λ s. (s.snapshot, s.front) };

    ghost applied = { λ s post. (changed K.after s.0 post.change, post.front) };

    fn absorb_first(&mut self, operation: &Post<K>, _other: &Posted<K>) -> Result<(), AllocError> {
        if let Change::Step(twice) = &operation.change {
            match K::copy_step(&twice.first) {
                Ok(step) => K::apply(&mut self.snapshot, step),
                Err(OutOfMemory) => return Err(AllocError),
            }
        }
        self.front = operation.front.again();
        Ok(())
    }

    fn absorb_second(&mut self, operation: Post<K>, _other: &Posted<K>) -> Result<(), Post<K>> {
        let Post { change, front } = operation;
        if let Change::Step(twice) = change {
            let Twice {
                first: _first,
                second,
            } = twice;
            K::apply(&mut self.snapshot, second);
        }
        self.front = front;
        Ok(())
    }
}
