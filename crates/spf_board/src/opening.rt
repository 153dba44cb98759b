//! A board with one step on it, and the readers of a board.

ghost use Rattle.std.specs.Prelude.{◌≡◌, ◌∷◌, [], drop, Some, OnOk, IfOk, All};
ghost use Rattle.left_right.specs.Sides.{view};
ghost use Rattle.spf_board.specs.declared.entry.Entry.TheVariants as entry;
ghost use Rattle.spf_board.specs.Board.{IsBoundTo, Posts};
ghost use Rattle.spf_board.specs.Desks.{IsRested};
ghost use Rattle.spf_board.specs.Passes.{remembered};
ghost use Rattle.spf_board.specs.Lists.{IsBoardList};

use crate::kind::Replay;
use crate::memory::Memory;
use crate::posted::Posted;
use crate::rule::{Notes, PostReader, PostWriter, Puts};
use crate::scribe::Scribe;
use left_right::writer::Writer;
use spf_io::OutOfMemory;
use std::alloc::Global;
use std::sync::Wait;

/// How many readers a board has at once.
pub const PLACES: usize = 64;

// Publishes nothing, which binds the writer to the history.
fn claim<K: Replay, R: Wait>(
    rt: &R,
    writer: PostWriter<K>,
) -> (PostWriter<K>, Result<(), OutOfMemory>)
    requires rested { drop writer.behind writer.log.items ≡ [] }
    ensures rested { OnOk result.1 (drop result.0.behind result.0.log.items ≡ []) }
    ensures ok { OnOk result.1 ((result.0.desk.shown.value.front ≡ writer.desk.shown.value.front)
        × Posts K.replays result.0.desk.shown.value.snapshot result.0.desk.shown.value.front
        (view result.0.desk.place)) }
{
    let (writer, published) = writer.publish_as::<Puts, R>(rt);
    match published {
        Ok(()) => (writer, Ok(())),
        Err(_) => (writer, Err(OutOfMemory)),
    }
}

// A reader of the board, bound to its history.
fn seat<K: Replay>(writer: &mut PostWriter<K>) -> Result<PostReader<K>, OutOfMemory>
    requires { IsBoundTo (view writer.old.desk.place) writer.old.desk.shown.value.front.book }
    ensures bound { IfOk result (λ r.
        IsBoundTo (view r.place) writer.old.desk.shown.value.front.book) }
    ensures kept { (view writer.new.desk.place ≡ view writer.old.desk.place)
        × (writer.new.desk.shown ≡ writer.old.desk.shown)
        × (writer.new.log ≡ writer.old.log)
        × (writer.new.behind ≡ writer.old.behind) }
{
    match writer.factory().reader() {
        Ok(mut reader) => {
            reader.learn::<Notes>(writer.tell::<Notes>());
            Ok(reader)
        }
        Err(_) => Err(OutOfMemory),
    }
}

// That many readers of the board, bound to its history.
fn seats<K: Replay>(
    alloc: Global,
    writer: &mut PostWriter<K>,
    count: usize,
) -> Result<Vec<PostReader<K>>, OutOfMemory>
    requires { IsBoundTo (view writer.old.desk.place) writer.old.desk.shown.value.front.book }
    ensures bound { IfOk result (λ v.
        All (λ r. IsBoundTo (view r.place) writer.old.desk.shown.value.front.book) v.items) }
    ensures kept { (view writer.new.desk.place ≡ view writer.old.desk.place)
        × (writer.new.desk.shown ≡ writer.old.desk.shown)
        × (writer.new.log ≡ writer.old.log)
        × (writer.new.behind ≡ writer.old.behind) }
{
    let mut all = Vec::new(alloc);
    for _ in 0..count {
        let reader = seat(writer)?;
        if all.push(reader).is_err() {
            return Err(OutOfMemory);
        }
    }
    Ok(all)
}

// The writer of a board with one step on it.
fn blank<K: Replay>(alloc: Global, step: K::Step) -> Result<(PostWriter<K>, Scribe<K>), OutOfMemory>
    requires { K.legal (step ∷ []) }
    ensures rested { IfOk result (λ r. drop r.0.behind r.0.log.items ≡ []) }
    ensures front { IfOk result (λ r. (r.0.desk.shown.value.front ≡ r.1)
        × (r.1.list ≡ entry.Step step ∷ [])) }
{
    let Some(scribe) = Scribe::new(&step) else {
        return Err(OutOfMemory);
    };
    let first = Posted {
        snapshot: K::opening(K::copy_step(&step)?),
        front: scribe.front(),
    };
    let second = Posted {
        snapshot: K::opening(step),
        front: scribe.front(),
    };
    match Writer::new(alloc, first, second, PLACES) {
        Ok(writer) => Ok((writer, scribe)),
        Err(_) => Err(OutOfMemory),
    }
}

// What a first pass remembers, and its readers.
fn first_pass<K: Replay>(
    alloc: Global,
    writer: &mut PostWriter<K>,
) -> Result<(Memory<K>, Vec<PostReader<K>>), OutOfMemory>
    requires { Posts K.replays writer.old.desk.shown.value.snapshot
        writer.old.desk.shown.value.front (view writer.old.desk.place) }
    ensures memory { IfOk result (λ r. r.0 ≡ remembered writer.old.desk.shown.value.front
        writer.old.desk.shown.value.front 0) }
    ensures board { IfOk result (λ r.
        IsBoardList K.legal writer.old.desk.shown.value.front.list) }
    ensures bound { IfOk result (λ r.
        All (λ r. IsBoundTo (view r.place) writer.old.desk.shown.value.front.book) r.1.items) }
    ensures kept { (view writer.new.desk.place ≡ view writer.old.desk.place)
        × (writer.new.desk.shown ≡ writer.old.desk.shown)
        × (writer.new.log ≡ writer.old.log)
        × (writer.new.behind ≡ writer.old.behind) }
{
    let readers = seats(alloc, writer, PLACES)?;
    let posted = writer.published();
    let kept = K::copy(&posted.snapshot)?;
    Ok((Memory::new(posted.front.again(), kept), readers))
}

/// Opens a board with one step on it, and returns its writer, and what the first pass remembers,
/// with the reader of each place. It never waits.
pub fn open_board<K: Replay, R: Wait>(
    alloc: Global,
    rt: &R,
    step: K::Step,
) -> Result<(PostWriter<K>, Scribe<K>, Memory<K>, Vec<PostReader<K>>), OutOfMemory>
    requires { K.legal (step ∷ []) }
    ensures rested { IfOk result (λ r. IsRested K.legal K.replays
        (drop r.0.behind r.0.log.items) (view r.0.desk.place) r.0.desk.shown.value.snapshot
        r.0.desk.shown.value.front (Some r.1)) }
    ensures step { IfOk result (λ r. r.0.desk.shown.value.front.list ≡ entry.Step step ∷ []) }
    ensures memory { IfOk result (λ r. r.2
        ≡ remembered r.0.desk.shown.value.front r.0.desk.shown.value.front 0) }
    ensures bound { IfOk result (λ r.
        All (λ reader. IsBoundTo (view reader.place) r.0.desk.shown.value.front.book) r.3.items) }
{
    let (writer, scribe) = blank(alloc, step)?;
    let (mut writer, claimed) = claim(rt, writer);
    if let Err(e) = claimed {
        drop(writer.take(rt));
        return Err(e);
    }
    match first_pass(alloc, &mut writer) {
        Ok((memory, readers)) => Ok((writer, scribe, memory, readers)),
        Err(e) => {
            drop(writer.take(rt));
            Err(e)
        }
    }
}
