//! What one reader has seen, and its reads. They take no lock and never wait.

ghost use Rattle.std.specs.Prelude.{◌≡◌, None, Some, IfOk, IfSome, OnOk, OnErr, All};
ghost use Rattle.std.specs.Option.{option_map};
ghost use mathlib.Core.List.{IsPrefix};
ghost use Rattle.left_right.specs.Sides.{view};
ghost use Rattle.spf_board.specs.Board.{IsBoundTo};
ghost use Rattle.spf_board.specs.Passes.{Peeks, Renews, read_of};
ghost use Rattle.spf_system.specs.Marks.{Mark};

use crate::front::Front;
use crate::kind::Look;
use crate::memory::Memory;
use crate::places::PlaceFault;
use crate::rule::PostReader;
use crate::shows::Shows;
use spf_io::OutOfMemory;
use spf_system::{Closed, Maker};
use std::alloc::Global;
use std::marker::Model;
use std::mem::drop;

/// What one reader has seen. It has a place on the board, and may hold places for further passes.
#[derive(Drop)]
pub struct Pass<K: Shows> {
    // There is one between two calls.
    reader: Option<PostReader<K>>,
    memory: Memory<K>,
    // What states are made of, of what is seen. It is made once.
    base: Option<K::Base>,
    spares: Vec<PostReader<K>>,
    closed: Option<Closed>,
    alloc: Global,
}

impl<K: Shows> Model for Pass<K> {
    ghost use Rattle.std.specs.Prelude.{option_map, unwrap_or, IfSome, IsSomeAnd, All};
    ghost use Rattle.left_right.specs.Sides.{view as known};
    ghost use Rattle.spf_board.specs.Board.{IsBoundTo, unbound};
    ghost use Rattle.spf_board.specs.Passes.{PassView, pass_view};
    ghost use Rattle.spf_system.specs.Marks.{Mark};
    ghost use Rattle.spf_board.specs.Lists.{steps_of};

    ghost Value = { PassView K.Step Mark };

    ghost view = { λ p. pass_view p.memory
        (unwrap_or (option_map (λ r. known r.place) p.reader) unbound) p.closed };

    ghost invariant = { λ p. IsSomeAnd p.reader (λ r. IsBoundTo (known r.place) p.memory.book)
        × All (λ r. IsBoundTo (known r.place) p.memory.book) p.spares.items
        × IfSome p.base (K.is_base (steps_of p.memory.seen)) };
}

// What states are made of, where what is seen is still the same.
fn still<K: Shows>(base: Option<K::Base>, seen: &Front<K>, before: &Front<K>) -> Option<K::Base>
    requires { seen.now.book ≡ before.now.book }
    ensures { IfSome result (λ b. (base ≡ Some b) × (seen.now.list ≡ before.now.list)) }
{
    if seen.is_same(before) {
        base
    } else {
        drop(base);
        None
    }
}

impl<K: Shows> Pass<K> {
    /// Returns a pass that knows nothing of the closed cell. The spare readers are its places for
    /// further passes.
    pub fn new(
        alloc: Global,
        reader: PostReader<K>,
        memory: Memory<K>,
        spares: Vec<PostReader<K>>,
    ) -> Pass<K>
        requires reader { IsBoundTo (view reader.place) memory.book }
        requires spares { All (λ r. IsBoundTo (view r.place) memory.book) spares.items }
        ensures { (result.book ≡ memory.book) × (result.seen ≡ memory.seen)
            × (result.entered ≡ memory.entered) × (result.missed ≡ memory.missed)
            × (result.closed ≡ None) }
    {
        Pass {
            reader: Some(reader),
            memory,
            base: None,
            spares,
            closed: None,
            alloc,
        }
    }

    /// Reads what is published now. Where the reader is not let in,
    /// as after the writer has gone, what it has seen stays.
    pub fn renew(&mut self) -> Result<(), OutOfMemory>
        ensures book { self.new.book ≡ self.old.book }
        ensures seen { IsPrefix self.old.seen self.new.seen }
        ensures entered { IsPrefix self.old.entered self.new.entered }
        ensures closed { self.new.closed ≡ self.old.closed }
        ensures ok { OnOk result (Renews K.legal (read_of self.old) (read_of self.new)) }
        ensures err { OnErr result (self.new.seen ≡ self.old.seen) }
    {
        let Some(reader) = self.reader.take() else {
            unreachable!()
        };
        let before = self.memory.seen().again();
        let (reader, result) = self.memory.renew(reader);
        self.reader = Some(reader);
        self.base = still(self.base.take(), self.memory.seen(), &before);
        result
    }

    // Makes what the states of what is seen are made of, where it is not made yet.
    fn prepare(&mut self) -> Result<(), OutOfMemory>
        ensures { self.new ≡ self.old }
    {
        if self.base.is_none() {
            self.base = Some(K::base(self.alloc, self.memory.snapshot())?);
        }
        Ok(())
    }

    /// Returns the state that what the pass has seen replays to, of a source that is closed or not.
    pub fn kept_state(&self, closed: bool) -> Result<K::State, OutOfMemory>
        ensures { IfOk result (λ s. K.showing.is_state self.now.seen closed s) }
    {
        let snapshot = self.memory.snapshot();
        match &self.base {
            Some(base) => K::state(base, snapshot, closed),
            None => {
                let base = K::base(self.alloc, snapshot)?;
                K::state(&base, snapshot, closed)
            }
        }
    }

    /// Returns the state of what is published now, or of what the pass has seen where the reader is
    /// not let in.
    pub fn state(&mut self, closed: bool) -> Result<K::State, OutOfMemory>
        ensures book { self.new.book ≡ self.old.book }
        ensures seen { IsPrefix self.old.seen self.new.seen }
        ensures entered { IsPrefix self.old.entered self.new.entered }
        ensures closed { self.new.closed ≡ self.old.closed }
        ensures state { IfOk result (λ s. K.showing.is_state self.new.seen closed s) }
        ensures renews { OnOk result (Renews K.legal (read_of self.old) (read_of self.new)) }
    {
        self.renew()?;
        self.prepare()?;
        self.kept_state(closed)
    }

    /// Returns what is found in the snapshot that is published now, or in the kept one where the
    /// reader is not let in. It keeps nothing of what it reads.
    pub fn peek<L: Look<K::Snapshot>>(&mut self, look: &L) -> L::Found
        ensures book { self.new.book ≡ self.old.book }
        ensures entered { IsPrefix self.old.entered self.new.entered }
        ensures closed { self.new.closed ≡ self.old.closed }
        ensures found { Peeks K.legal K.replays (L.finds look.now) (read_of self.old)
            (read_of self.new) result }
    {
        let Some(reader) = self.reader.take() else {
            unreachable!()
        };
        let (reader, found) = self.memory.peek(reader, look);
        self.reader = Some(reader);
        found
    }

    /// Keeps what a look at the closed cell of its source has found, and nothing older.
    pub fn note(&mut self, found: Option<Closed>)
        ensures { self.new ≡ record self.old { closed = found } }
    {
        self.closed = found;
    }

    /// Returns who closed the source, if the look that was noted last has found that it is closed.
    pub fn closed_by(&self) -> Option<Maker>
        ensures { result ≡ option_map (λ (mark : Mark). mark.maker) self.now.closed }
    {
        match &self.closed {
            Some(closed) => Some(closed.maker()),
            None => None,
        }
    }

    /// Returns what the pass has seen.
    pub fn seen(&self) -> &Front<K>
        ensures { (result.now.book ≡ self.now.book) × (result.now.list ≡ self.now.seen) }
    {
        self.memory.seen()
    }

    /// Returns another pass of the board, which has seen what this one has seen. It knows nothing
    /// of the closed cell.
    pub fn another(&mut self) -> Result<Pass<K>, PlaceFault>
        ensures giver { self.new ≡ self.old }
        ensures pass { IfOk result (λ p. (p.book ≡ self.old.book) × (p.seen ≡ self.old.seen)
            × (p.entered ≡ self.old.entered) × (p.missed ≡ 0) × (p.closed ≡ None)) }
    {
        let memory = match self.memory.again() {
            Ok(memory) => memory,
            Err(OutOfMemory) => return Err(PlaceFault::OutOfMemory),
        };
        let Some(reader) = self.spares.pop() else {
            return Err(PlaceFault::Refused);
        };
        Ok(Pass::new(self.alloc, reader, memory, Vec::new(self.alloc)))
    }

    /// Gives its places to a giver of the same board, its spare ones only where the giver has none.
    /// Where memory runs out, the place ends with this pass.
    pub fn give_back(self, giver: &mut Pass<K>)
        requires { self.book ≡ giver.old.book }
        ensures { giver.new ≡ giver.old }
    {
        let Pass {
            reader,
            memory,
            base,
            spares,
            closed,
            alloc: _,
        } = self;
        drop(memory);
        drop(base);
        drop(closed);
        if giver.spares.is_empty() {
            giver.spares = spares;
        } else {
            drop(spares);
        }
        if let Some(reader) = reader {
            giver.take_back(reader);
        }
    }

    fn take_back(&mut self, reader: PostReader<K>)
        requires { IsBoundTo (view reader.place) self.old.book }
        ensures { self.new ≡ self.old }
    {
        let _ = self.spares.push(reader);
    }
}
