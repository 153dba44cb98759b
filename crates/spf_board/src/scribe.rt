//! What writes a history.

ghost use Rattle.std.specs.Prelude.{◌≡◌, ◌≢◌, ◌∷◌, ◌++◌, [], length, None};
ghost use Rattle.std.specs.Bool.{OnTrue};
ghost use mathlib.Core.List.{IsPrefix};
ghost use Rattle.spf_board.specs.Lists.{IsBoardList, MayFollow};
ghost use Rattle.spf_board.specs.Rules.{head_of};

use crate::entry::{Entry, Kind};
use crate::front::Front;
use crate::law::{Adding, EndOf, Law, Nothing, StepOf};
use logbook::{Offer, Plain, Seen, Start, Word};
use std::marker::Model;

/// The greatest number of entries of a history.
const MOST: u64 = 1 << 62;

/// What writes a history. Contracts see what it has written.
#[derive(Drop)]
pub struct Scribe<K: Kind> {
    head: Word<Entry<K::Step>, u64, Law<K>>,
    number: u64,
    seen: Seen<Entry<K::Step>, u64, Law<K>>,
}

impl<K: Kind> Model for Scribe<K> {
    ghost use Rattle.std.specs.Prelude.{◌≡◌, length};
    ghost use Rattle.spf_board.specs.Lists.{IsBoardList};
    ghost use Rattle.spf_board.specs.Past.{Past, past};
    ghost use Rattle.spf_board.specs.Rules.{head_of};

    ghost Value = { Past K.Step };

    ghost view = { λ s. past s.seen.book s.seen.log };

    ghost invariant = { λ s. (s.head ≡ head_of s.seen.book) × (s.number ≡ length s.seen.log)
        × IsBoardList K.legal s.seen.log };
}

impl<K: Kind> Scribe<K> {
    ghost use Rattle.std.specs.Prelude.{◌≡◌, ◌∷◌, [], IfSome};
    ghost use Rattle.std.specs.Bool.{OnTrue};
    ghost use Rattle.spf_board.specs.declared.entry.Entry.TheVariants as entry;
    ghost use Rattle.spf_board.specs.Lists.{IsBoardList, MayFollow};
    ghost use Rattle.spf_board.specs.Past.{added};

    /// Returns a history of one step.
    pub fn new(first: &K::Step) -> Option<Scribe<K>>
        requires { MayFollow K.legal [] (entry.Step first.now) }
        ensures { IfSome result (λ s. s.list ≡ entry.Step first.now ∷ []) }
    {
        let (mut seen, mut pen, _second) = Seen::open(Start::alone(), 0, 0);
        let head = Word::tracked(0, &mut pen);
        let mut number = 0;
        if !write::<K, K::Step, StepOf>(&head, &mut number, &mut seen, first) {
            return None;
        }
        Some(Scribe { head, number, seen })
    }

    /// Returns what it has written.
    pub fn front(&self) -> Front<K>
        ensures same { result ≡ self.now }
        ensures history { IsBoardList K.legal result.list }
    {
        Front::new(self.number, &self.seen)
    }

    /// Adds a step, and returns whether it did. It does not where the history has its greatest
    /// length, or where something else has written to it, which nothing can.
    pub fn add(&mut self, step: &K::Step) -> bool
        requires { MayFollow K.legal self.old.list (entry.Step step.now) }
        ensures book { self.new.book ≡ self.old.book }
        ensures added { OnTrue result (self.new ≡ added self.old (entry.Step step.now)) }
    {
        write::<K, K::Step, StepOf>(&self.head, &mut self.number, &mut self.seen, step)
    }

    /// Adds the end, as `add` adds a step.
    pub fn end(&mut self) -> bool
        requires { MayFollow K.legal self.old.list entry.End }
        ensures book { self.new.book ≡ self.old.book }
        ensures added { OnTrue result (self.new ≡ added self.old entry.End) }
    {
        write::<K, (), EndOf>(&self.head, &mut self.number, &mut self.seen, &())
    }
}

// Adds an entry after all that was seen.
fn write<K: Kind, X, M: Plain<X, Entry<K::Step>, u64>>(
    head: &Word<Entry<K::Step>, u64, Law<K>>,
    number: &mut u64,
    seen: &mut Seen<Entry<K::Step>, u64, Law<K>>,
    about: &X,
) -> bool
    requires head { head.now ≡ head_of seen.old.book }
    requires number { number.old ≡ length seen.old.log }
    requires history { seen.old.log ≢ [] → IsBoardList K.legal seen.old.log }
    requires follows { MayFollow K.legal seen.old.log (M.ask about.now) }
    requires plain { M.state about.now ≡ None }
    ensures book { seen.new.book ≡ seen.old.book }
    ensures number { number.new ≡ length seen.new.log }
    ensures longer { IsPrefix seen.old.log seen.new.log }
    ensures history { seen.new.log ≢ [] → IsBoardList K.legal seen.new.log }
    ensures added { OnTrue result (seen.new.log ≡ seen.old.log ++ M.ask about.now ∷ []) }
{
    if *number >= MOST {
        return false;
    }
    let old = *number;
    let mut offer: Offer<Entry<K::Step>, u64, Law<K>, Nothing> = seen.plain::<Nothing, X, M>(about);
    let mut pen = seen.no_pen();
    let found = head.compare_exchange::<Adding<K>, Nothing>(
        old,
        old + 1,
        seen,
        &mut offer,
        &mut pen,
    );
    *number = if found == old { old + 1 } else { found };
    found == old
}
