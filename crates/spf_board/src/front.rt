//! Beginnings of a history.

ghost use Rattle.std.specs.Prelude.{◌≡◌, ◌<◌, length, MatchBool};
ghost use mathlib.Core.List.{IsPrefix};
ghost use Rattle.spf_board.specs.Lists.{IsBoardList};

use crate::entry::{Entry, Kind};
use crate::law::Law;
use logbook::Seen;
use std::marker::Model;

/// A beginning of a history, which was seen. It has at least one step.
#[derive(Drop)]
pub struct Front<K: Kind> {
    number: u64,
    seen: Seen<Entry<K::Step>, u64, Law<K>>,
}

impl<K: Kind> Model for Front<K> {
    ghost use Rattle.std.specs.Prelude.{◌≡◌, length};
    ghost use Rattle.spf_board.specs.Lists.{IsBoardList};
    ghost use Rattle.spf_board.specs.Past.{Past, past};

    ghost Value = { Past K.Step };

    ghost view = { λ f. past f.seen.book f.seen.log };

    ghost invariant = { λ f. (f.number ≡ length f.seen.log) × IsBoardList K.legal f.seen.log };
}

impl<K: Kind> Front<K> {
    ghost use Rattle.std.specs.Prelude.{◌≡◌, ◌≢◌, ◌<◌, length, MatchBool};
    ghost use Rattle.std.specs.Bool.{OnFalse, OnTrue};
    ghost use mathlib.Core.List.{IsPrefix};
    ghost use Rattle.spf_board.specs.Lists.{IsBoardList};

    pub(crate) fn new(number: u64, seen: &Seen<Entry<K::Step>, u64, Law<K>>) -> Front<K>
        requires number { number ≡ length seen.now.log }
        requires history { IsBoardList K.legal seen.now.log }
        ensures { (result.book ≡ seen.now.book) × (result.list ≡ seen.now.log) }
    {
        Front {
            number,
            seen: seen.again(),
        }
    }

    /// Returns a copy, which allocates nothing.
    pub fn again(&self) -> Front<K>
        ensures same { result ≡ self.now }
        ensures history { IsBoardList K.legal result.list }
    {
        Front {
            number: self.number,
            seen: self.seen.again(),
        }
    }

    /// Returns whether this front is a beginning of another one of the same history, which
    /// otherwise is the shorter one.
    pub fn begins(&self, other: &Front<K>) -> bool
        requires { self.now.book ≡ other.now.book }
        ensures { MatchBool result (IsPrefix self.now.list other.now.list)
            (length other.now.list < length self.now.list) }
    {
        let mut both = self.seen.again();
        both.learn(&other.seen);
        self.number <= other.number
    }

    /// Returns whether two fronts of the same history are the same.
    pub fn is_same(&self, other: &Front<K>) -> bool
        requires { self.now.book ≡ other.now.book }
        ensures same { OnTrue result (self.now.list ≡ other.now.list) }
        ensures other { OnFalse result (self.now.list ≢ other.now.list) }
    {
        self.begins(other) && other.begins(self)
    }
}
