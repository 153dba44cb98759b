//! The rule of a history.

use crate::entry::{Entry, Kind};
use logbook::{Gain, Plain, Play, Rule};
use std::marker::PhantomData;

/// The history is legal, and its word is its length.
pub struct Law<K>(PhantomData<K>);

impl<K: Kind> Rule<Entry<K::Step>, u64> for Law<K> {
    ghost use Rattle.std.specs.Prelude.{[]};
    ghost use base.Fml.{ftrue};
    ghost use Rattle.spf_board.specs.Rules.{IsKept};

    ghost holds = { λ cells log. IsKept K.legal cells log };

    ghost first = { [] };

    ghost hinted = { λ n log. Unit {0} };

    ghost shows = { λ log. [] };

    ghost keeps = { λ names log. ftrue };

    ghost moves = { λ ask before after answer. Unit {0} };
}

/// A scribe trades nothing.
pub(crate) struct Nothing;

impl<S> Gain<Entry<S>, u64> for Nothing {
    ghost use base.Fml.{ftrue};

    ghost after = { λ names about answer. ftrue };
}

/// An entry is added.
pub(crate) struct Adding<K>(PhantomData<K>);

impl<K: Kind> Play<Entry<K::Step>, u64> for Adding<K> {
    ghost use Rattle.spf_board.specs.Rules.{Adds};

    ghost then = { Adds K.legal };
}

/// The entry of a step.
pub(crate) struct StepOf;

impl<S> Plain<S, Entry<S>, u64> for StepOf {
    ghost use Rattle.std.specs.Prelude.{None};
    ghost use Rattle.spf_board.specs.declared.entry.Entry.TheVariants as entry;

    ghost ask = { λ step. entry.Step step };

    ghost state = { λ step. None };
}

/// The end.
pub(crate) struct EndOf;

impl<S> Plain<(), Entry<S>, u64> for EndOf {
    ghost use Rattle.std.specs.Prelude.{None};
    ghost use Rattle.spf_board.specs.declared.entry.Entry.TheVariants as entry;

    ghost ask = { λ nothing. entry.End };

    ghost state = { λ nothing. None };
}
