//! What a pass remembers, and the reads through it. They take no lock and never wait.

ghost use Rattle.std.specs.Prelude.{◌≡◌, ◌+◌, false, OnSome, IfSome, IfNone, length};
ghost use mathlib.Core.List.{IsPrefix};
ghost use Rattle.left_right.specs.Sides.{view};
ghost use Rattle.spf_board.specs.Lists.{IsBoardList};
ghost use Rattle.spf_board.specs.Board.{IsBoundTo};
ghost use Rattle.spf_io.specs.Outside.{Rose};
ghost use Rattle.spf_board.specs.Passes.{Finds};

use crate::entry::Kind;
use crate::front::Front;
use crate::kind::{Look, Replay};
use crate::posted::Posted;
use crate::rule::{PostReader, Takes};
use spf_io::OutOfMemory;
use std::marker::{Model, PhantomData};

// What was found in the snapshot, and the history that it stands for. Where that was seen already,
// nothing may have been looked for.
#[derive(Drop)]
struct Taken<K: Kind, F> {
    found: Option<F>,
    front: Front<K>,
}

// What is posted, where it is not older than what was entered. What was seen already is looked at
// where that is asked for.
fn newer<K: Replay, L: Look<K::Snapshot>>(
    posted: &Posted<K>,
    entered: &Front<K>,
    seen: &Front<K>,
    looks_again: bool,
    look: &L,
) -> Option<Taken<K, L::Found>>
    requires entered { entered.now.book ≡ posted.now.front.book }
    requires seen { seen.now.book ≡ entered.now.book }
    ensures front { IfSome result (λ t. t.front ≡ posted.now.front) }
    ensures found { IfSome result (λ t.
        IfSome t.found (L.finds look.now posted.now.snapshot)) }
    ensures seen { IfSome result (λ t.
        IfNone t.found ((looks_again ≡ false) × (t.front.list ≡ seen.now.list))) }
    ensures board { IfSome result (λ t. IsBoardList K.legal t.front.list) }
    ensures entered { IfSome result (λ t. IsPrefix entered.now.list t.front.list) }
{
    if !entered.begins(&posted.front) {
        return None;
    }
    let found = if !looks_again && seen.is_same(&posted.front) {
        None
    } else {
        Some(look.look(&posted.snapshot))
    };
    Some(Taken {
        found,
        front: posted.front.again(),
    })
}

// Looks at what is posted. The reader comes back either way.
fn read<K: Replay, L: Look<K::Snapshot>>(
    reader: PostReader<K>,
    entered: &Front<K>,
    seen: &Front<K>,
    looks_again: bool,
    look: &L,
) -> (PostReader<K>, Option<Taken<K, L::Found>>)
    requires bound { IsBoundTo (view reader.place) entered.now.book }
    requires seen { seen.now.book ≡ entered.now.book }
    ensures bound { IsBoundTo (view result.0.place) entered.now.book }
    ensures once { OnSome result.1
        ((view result.0.place).enters ≡ (view reader.place).enters + 1) }
    ensures all { IfSome result.1 (λ t. (view result.0.place).entries ≡ length t.front.list) }
    ensures found { IfSome result.1 (λ t.
        IfSome t.found (Finds K.legal K.replays (L.finds look.now) t.front.list)) }
    ensures seen { IfSome result.1 (λ t.
        IfNone t.found ((looks_again ≡ false) × (t.front.list ≡ seen.now.list))) }
    ensures entered { IfSome result.1 (λ t.
        IsPrefix entered.now.list t.front.list × (t.front.book ≡ entered.now.book)) }
{
    match reader.enter_as::<Takes>() {
        Ok(reading) => {
            let taken = newer(reading.get(), entered, seen, looks_again, look);
            (reading.leave(), taken)
        }
        Err(reader) => (reader, None),
    }
}

// One read: what was found, if anything was looked for. Where nothing was taken, the read counts as
// missed.
fn enter<K: Replay, L: Look<K::Snapshot>>(
    reader: PostReader<K>,
    entered: &mut Front<K>,
    missed: &mut u64,
    seen: &Front<K>,
    looks_again: bool,
    look: &L,
) -> (PostReader<K>, Option<Option<L::Found>>)
    requires bound { IsBoundTo (view reader.place) entered.old.book }
    requires seen { seen.now.book ≡ entered.old.book }
    ensures bound { IsBoundTo (view result.0.place) entered.new.book }
    ensures book { entered.new.book ≡ entered.old.book }
    ensures entered { IsPrefix entered.old.list entered.new.list }
    ensures found { IfSome result.1 (λ read.
        IfSome read (Finds K.legal K.replays (L.finds look.now) entered.new.list)) }
    ensures seen { IfSome result.1 (λ read.
        IfNone read ((looks_again ≡ false) × (entered.new.list ≡ seen.now.list))) }
    ensures once { OnSome result.1
        (((view result.0.place).enters ≡ (view reader.place).enters + 1)
        × (missed.new ≡ missed.old)
        × ((view result.0.place).entries ≡ length entered.new.list)) }
    ensures missed { IfNone result.1 (Rose missed.old missed.new
        × (entered.new.list ≡ entered.old.list)) }
{
    let (reader, taken) = read(reader, entered, seen, looks_again, look);
    match taken {
        Some(taken) => {
            let Taken { found, front } = taken;
            *entered = front;
            (reader, Some(found))
        }
        None => {
            *missed = missed.saturating_add(1);
            (reader, None)
        }
    }
}

/// What a pass remembers: the longest board list that it has entered, and what it has seen of
/// that, with a snapshot that stands for it.
#[derive(Drop)]
pub struct Memory<K: Replay> {
    entered: Front<K>,
    seen: Front<K>,
    kept: K::Snapshot,
    missed: u64,
}

impl<K: Replay> Model for Memory<K> {
    ghost use Rattle.std.specs.Prelude.{◌≡◌};
    ghost use mathlib.Core.List.{IsPrefix};
    ghost use Rattle.spf_board.specs.Lists.{steps_of, IsBoardList};
    ghost use Rattle.spf_board.specs.Passes.{Remembered, remembered};

    ghost Value = { Remembered K.Step };

    ghost view = { λ m. remembered m.seen m.entered m.missed };

    ghost invariant = { λ m. (m.entered.book ≡ m.seen.book)
        × IsPrefix m.seen.list m.entered.list
        × K.replays (steps_of m.seen.list) m.kept
        × IsBoardList K.legal m.seen.list };
}

// A copy of the snapshot is asked for.
#[derive(Drop)]
struct Copied<K>(PhantomData<K>);

impl<K: Replay> Look<K::Snapshot> for Copied<K> {
    type Found = Result<K::Snapshot, OutOfMemory>;

    ghost use Rattle.std.specs.Prelude.{◌≡◌, IfOk};

    ghost finds = { λ look shown found. IfOk found (λ copy. copy ≡ shown) };

    fn look(&self, snapshot: &K::Snapshot) -> Result<K::Snapshot, OutOfMemory> {
        K::copy(snapshot)
    }
}

impl<K: Replay> Memory<K> {
    ghost use Rattle.std.specs.Prelude.{◌≡◌, IfOk, OnOk, OnErr};
    ghost use Rattle.left_right.specs.Sides.{view};
    ghost use Rattle.spf_board.specs.Lists.{steps_of, IsBoardList};
    ghost use Rattle.spf_board.specs.Board.{IsBoundTo};
    ghost use Rattle.spf_board.specs.Passes.{remembered, passed, KeepsAll, Renews, Peeks};

    pub(crate) fn new(front: Front<K>, kept: K::Snapshot) -> Memory<K>
        requires stands { K.replays (steps_of front.list) kept }
        requires board { IsBoardList K.legal front.list }
        ensures { result ≡ remembered front front 0 }
    {
        Memory {
            entered: front.again(),
            seen: front,
            kept,
            missed: 0,
        }
    }

    /// Returns the memory of another pass, which has seen the same.
    pub fn again(&self) -> Result<Memory<K>, OutOfMemory>
        ensures { IfOk result (λ m. m ≡ record self.now { missed = 0 }) }
    {
        Ok(Memory {
            entered: self.entered.again(),
            seen: self.seen.again(),
            kept: K::copy(&self.kept)?,
            missed: 0,
        })
    }

    /// Returns the kept snapshot.
    pub fn snapshot(&self) -> &K::Snapshot
        ensures stands { K.replays (steps_of self.now.seen) result.now }
        ensures board { IsBoardList K.legal self.now.seen }
    {
        &self.kept
    }

    /// Returns what was seen.
    pub fn seen(&self) -> &Front<K>
        ensures { (result.now.book ≡ self.now.book) × (result.now.list ≡ self.now.seen) }
    {
        &self.seen
    }

    /// Reads, and keeps what was read: the kept snapshot then stands for what is published now, or
    /// stays where the reader was not let in. An error leaves what was seen. What was seen already
    /// is not copied again.
    pub fn renew(&mut self, reader: PostReader<K>) -> (PostReader<K>, Result<(), OutOfMemory>)
        requires { IsBoundTo (view reader.place) self.old.book }
        ensures bound { IsBoundTo (view result.0.place) self.new.book }
        ensures keeps { KeepsAll self.old self.new }
        ensures ok { OnOk result.1 (Renews K.legal (passed self.old (view reader.place))
            (passed self.new (view result.0.place))) }
        ensures err { OnErr result.1 (self.new.seen ≡ self.old.seen) }
    {
        let copied: Copied<K> = Copied(PhantomData);
        let (reader, found) = enter(
            reader,
            &mut self.entered,
            &mut self.missed,
            &self.seen,
            false,
            &copied,
        );
        match found {
            Some(Some(Ok(snapshot))) => {
                self.kept = snapshot;
                self.seen = self.entered.again();
                (reader, Ok(()))
            }
            Some(Some(Err(e))) => (reader, Err(e)),
            Some(None) | None => (reader, Ok(())),
        }
    }

    /// Reads, and keeps nothing: returns what is found in the snapshot that is published now, or in
    /// the kept one where the reader was not let in.
    pub fn peek<L: Look<K::Snapshot>>(
        &mut self,
        reader: PostReader<K>,
        look: &L,
    ) -> (PostReader<K>, L::Found)
        requires { IsBoundTo (view reader.place) self.old.book }
        ensures bound { IsBoundTo (view result.0.place) self.new.book }
        ensures keeps { KeepsAll self.old self.new }
        ensures found { Peeks K.legal K.replays (L.finds look.now)
            (passed self.old (view reader.place)) (passed self.new (view result.0.place))
            result.1 }
    {
        let (reader, found) = enter(
            reader,
            &mut self.entered,
            &mut self.missed,
            &self.seen,
            true,
            look,
        );
        match found {
            Some(Some(found)) => (reader, found),
            Some(None) => unreachable!(),
            None => (reader, look.look(&self.kept)),
        }
    }
}
