//! The one writer of a board, while it publishes and once it has ended.

ghost use Rattle.std.specs.Prelude.{◌≡◌, ◌⊎◌, ◌++◌, ◌∷◌, [], false, true, IfOk, OnOk, OnErr};
ghost use mathlib.Core.List.{IsPrefix};
ghost use Rattle.spf_board.specs.declared.entry.Entry.TheVariants as entry;
ghost use Rattle.spf_board.specs.Lists.{steps_of, is_ended, IsBoardList};
ghost use Rattle.spf_board.specs.Past.{added};

use crate::front::Front;
use crate::pass::Pass;
use crate::shows::Shows;
use spf_io::OutOfMemory;
use std::marker::{Model, PhantomData};

/// The writer of a board with its scribe. Its drop waits for the readers.
pub trait Writes<K: Shows>: Drop {
    ghost use Rattle.std.specs.Prelude.{◌≡◌, ◌⊎◌, ◌++◌, ◌∷◌, [], false, OnOk, OnErr};
    ghost use Rattle.spf_board.specs.declared.entry.Entry.TheVariants as entry;
    ghost use Rattle.spf_board.specs.Lists.{steps_of, is_ended, IsBoardList};
    ghost use Rattle.spf_board.specs.Past.{Past, added};

    // What it has published.
    ghost past: { Self → Past K.Step };

    fn front(&self) -> Front<K>
        ensures { result ≡ past self.now };

    /// Publishes one step. After a refused publish nothing more is published.
    fn put(self, step: K::Step) -> (Self, Result<(), OutOfMemory>)
        requires legal { K.legal (steps_of (past self).list ++ step ∷ []) }
        requires unended { is_ended (past self).list ≡ false }
        ensures ok { OnOk result.1 (past result.0 ≡ added (past self) (entry.Step step)) }
        ensures err { OnErr result.1 (past result.0 ≡ past self) }
        ensures board { IsBoardList K.legal (past result.0).list };

    /// Publishes the end, and returns whether it was published.
    fn end(self) -> (Self, bool)
        requires { is_ended (past self).list ≡ false }
        ensures whole { result.1 ≡ is_ended (past result.0).list }
        ensures ended { (past result.0 ≡ added (past self) entry.End)
            ⊎ (past result.0 ≡ past self) };
}

/// The one writer of a board. Contracts see what it has published.
#[derive(Drop)]
pub struct Desk<K: Shows, W: Writes<K>> {
    // There is one between two calls.
    held: Option<W>,
    kind: PhantomData<K>,
}

impl<K: Shows, W: Writes<K>> Model for Desk<K, W> {
    ghost use Rattle.std.specs.Prelude.{◌≡◌, false, IsSomeAnd};
    ghost use Rattle.spf_board.specs.Lists.{is_ended, IsBoardList};
    ghost use Rattle.spf_board.specs.Past.{Past};
    ghost use Rattle.spf_board.specs.Writers.{past_in};

    ghost Value = { Past K.Step };

    ghost view = { λ d. past_in W.past d.held };

    ghost invariant = { λ d. IsSomeAnd d.held (λ w. (is_ended (W.past w).list ≡ false)
        × IsBoardList K.legal (W.past w).list) };
}

impl<K: Shows, W: Writes<K>> Desk<K, W> {
    /// Returns the desk of a writer that has not ended.
    pub fn new(held: W) -> Desk<K, W>
        requires unended { is_ended (W.past held).list ≡ false }
        requires board { IsBoardList K.legal (W.past held).list }
        ensures { result ≡ W.past held }
    {
        Desk {
            held: Some(held),
            kind: PhantomData,
        }
    }

    /// Returns what it has published.
    pub fn front(&self) -> Front<K>
        ensures same { result ≡ self.now }
        ensures board { IsBoardList K.legal self.now.list }
        ensures unended { is_ended self.now.list ≡ false }
    {
        match &self.held {
            Some(held) => held.front(),
            None => unreachable!(),
        }
    }

    /// Publishes one step. After a refused publish nothing more is published.
    pub fn put(&mut self, step: K::Step) -> Result<(), OutOfMemory>
        requires { K.legal (steps_of self.old.list)
            → K.legal (steps_of self.old.list ++ step ∷ []) }
        ensures ok { OnOk result (self.new ≡ added self.old (entry.Step step)) }
        ensures err { OnErr result (self.new ≡ self.old) }
        ensures book { self.new.book ≡ self.old.book }
    {
        let Some(held) = self.held.take() else {
            unreachable!()
        };
        let (held, result) = held.put(step);
        self.held = Some(held);
        result
    }

    /// Publishes the end. Where memory runs out there is an ended writer too, without an End.
    pub fn end(self) -> Ended<K, W>
        ensures ended { (result ≡ added self entry.End) ⊎ (result ≡ self) }
        ensures book { result.book ≡ self.book }
    {
        let Desk { held, .. } = self;
        let Some(held) = held else { unreachable!() };
        let (held, whole) = held.end();
        Ended {
            held,
            whole,
            kind: PhantomData,
        }
    }

    /// Publishes nothing more, not even the end.
    pub fn stop(self) -> Ended<K, W>
        ensures { result ≡ self }
    {
        let Desk { held, .. } = self;
        let Some(held) = held else { unreachable!() };
        Ended {
            held,
            whole: false,
            kind: PhantomData,
        }
    }
}

/// A writer that publishes nothing more. Contracts see what it has published.
#[derive(Drop)]
pub struct Ended<K: Shows, W: Writes<K>> {
    held: W,
    // Whether the end was published.
    whole: bool,
    kind: PhantomData<K>,
}

impl<K: Shows, W: Writes<K>> Model for Ended<K, W> {
    ghost use Rattle.std.specs.Prelude.{◌≡◌};
    ghost use Rattle.spf_board.specs.Lists.{is_ended};
    ghost use Rattle.spf_board.specs.Past.{Past};

    ghost Value = { Past K.Step };

    ghost view = { λ e. W.past e.held };

    ghost invariant = { λ e. e.whole ≡ is_ended (W.past e.held).list };
}

impl<K: Shows, W: Writes<K>> Ended<K, W> {
    /// Returns whether the end was published.
    pub fn is_whole(&self) -> bool
        ensures { result ≡ is_ended self.now.list }
    {
        self.whole
    }

    /// Returns what it has published.
    pub fn front(&self) -> Front<K>
        ensures { result ≡ self.now }
    {
        self.held.front()
    }
}

/// Reads once more through the pass while the writer is still there, and returns what was
/// published, with its end. From then on the pass has seen just that, and never sees more.
pub fn settle<K: Shows, W: Writes<K>>(
    ended: Ended<K, W>,
    pass: &mut Pass<K>,
) -> Result<Front<K>, OutOfMemory>
    requires { pass.old.book ≡ ended.book }
    ensures whole { IfOk result (λ f. (f ≡ ended) × (is_ended f.list ≡ true)) }
    ensures settled { IfOk result (λ f. pass.new.seen ≡ f.list) }
    ensures book { pass.new.book ≡ pass.old.book }
    ensures seen { IsPrefix pass.old.seen pass.new.seen }
    ensures closed { pass.new.closed ≡ pass.old.closed }
{
    if !ended.is_whole() {
        return Err(OutOfMemory);
    }
    let recorded = ended.front();
    pass.renew()?;
    if pass.seen().is_same(&recorded) {
        Ok(recorded)
    } else {
        Err(OutOfMemory)
    }
}
