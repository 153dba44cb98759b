//! Publishing.

ghost use Rattle.std.specs.Prelude.{◌≡◌, ◌∷◌, ◌++◌, [], false, drop, None, OnOk, OnErr};
ghost use Rattle.std.specs.Bool.{OnTrue};
ghost use Rattle.left_right.specs.Sides.{view};
ghost use Rattle.spf_board.specs.declared.entry.Entry.TheVariants as entry;
ghost use Rattle.spf_board.specs.Lists.{steps_of, is_ended, MayFollow};
ghost use Rattle.spf_board.specs.Past.{added};
ghost use Rattle.spf_board.specs.Board.{Posts};
ghost use Rattle.spf_board.specs.Desks.{IsRested};
ghost use Rattle.spf_board.specs.Posted.{entry_of};

use crate::kind::Replay;
use crate::posted::{Change, Post, Twice};
use crate::rule::{PostWriter, Puts};
use crate::scribe::Scribe;
use spf_io::OutOfMemory;
use std::sync::Wait;

// Posts one change, which brings its history with it.
pub(crate) fn push<K: Replay, R: Wait>(
    rt: &R,
    mut writer: PostWriter<K>,
    post: Post<K>,
) -> (PostWriter<K>, Result<(), OutOfMemory>)
    requires rested { drop writer.behind writer.log.items ≡ [] }
    requires follows { post.front
        ≡ added writer.desk.shown.value.front (entry_of post.change) }
    ensures rested { OnOk result.1 (drop result.0.behind result.0.log.items ≡ []) }
    ensures ok { OnOk result.1 ((result.0.desk.shown.value.front ≡ post.front)
        × Posts K.replays result.0.desk.shown.value.snapshot result.0.desk.shown.value.front
        (view result.0.desk.place)) }
    ensures err { OnErr result.1 ((result.0.desk.shown.value ≡ writer.desk.shown.value)
        × (view result.0.desk.place ≡ view writer.desk.place)) }
{
    match writer.append(post) {
        Ok(()) => {
            let (writer, published) = writer.publish_as::<Puts, R>(rt);
            match published {
                Ok(()) => (writer, Ok(())),
                Err(_) => (writer, Err(OutOfMemory)),
            }
        }
        Err(_) => (writer, Err(OutOfMemory)),
    }
}

// Adds the entry of a change.
fn write<K: Replay>(scribe: &mut Scribe<K>, change: &Change<K::Step>) -> bool
    requires { MayFollow K.legal scribe.old.list (entry_of change.now) }
    ensures { OnTrue result (scribe.new ≡ added scribe.old (entry_of change.now)) }
{
    match change {
        Change::Step(twice) => scribe.add(&twice.first),
        Change::End => scribe.end(),
    }
}

// Publishes one change. There is no scribe after a change that could not be published.
fn publish<K: Replay, R: Wait>(
    rt: &R,
    writer: PostWriter<K>,
    scribe: Option<Scribe<K>>,
    change: Change<K::Step>,
) -> (PostWriter<K>, Option<Scribe<K>>, Result<(), OutOfMemory>)
    requires rested { IsRested K.legal K.replays (drop writer.behind writer.log.items)
        (view writer.desk.place) writer.desk.shown.value.snapshot writer.desk.shown.value.front
        scribe }
    requires follows { MayFollow K.legal writer.desk.shown.value.front.list (entry_of change) }
    ensures rested { IsRested K.legal K.replays (drop result.0.behind result.0.log.items)
        (view result.0.desk.place) result.0.desk.shown.value.snapshot
        result.0.desk.shown.value.front result.1 }
    ensures ok { OnOk result.2 (result.0.desk.shown.value.front
        ≡ added writer.desk.shown.value.front (entry_of change)) }
    ensures err { OnErr result.2 (result.0.desk.shown.value.front
        ≡ writer.desk.shown.value.front) }
{
    let Some(mut scribe) = scribe else {
        return (writer, None, Err(OutOfMemory));
    };
    if !write(&mut scribe, &change) {
        return (writer, None, Err(OutOfMemory));
    }
    let front = scribe.front();
    let (writer, result) = push(rt, writer, Post { change, front });
    match result {
        Ok(()) => (writer, Some(scribe), Ok(())),
        Err(e) => (writer, None, Err(e)),
    }
}

/// Publishes one step. After a refused publish nothing more is published.
pub fn publish_step<K: Replay, R: Wait>(
    rt: &R,
    writer: PostWriter<K>,
    scribe: Option<Scribe<K>>,
    step: K::Step,
) -> (PostWriter<K>, Option<Scribe<K>>, Result<(), OutOfMemory>)
    requires rested { IsRested K.legal K.replays (drop writer.behind writer.log.items)
        (view writer.desk.place) writer.desk.shown.value.snapshot writer.desk.shown.value.front
        scribe }
    requires legal { K.legal (steps_of writer.desk.shown.value.front.list ++ step ∷ []) }
    requires unended { is_ended writer.desk.shown.value.front.list ≡ false }
    ensures rested { IsRested K.legal K.replays (drop result.0.behind result.0.log.items)
        (view result.0.desk.place) result.0.desk.shown.value.snapshot
        result.0.desk.shown.value.front result.1 }
    ensures ok { OnOk result.2 (result.0.desk.shown.value.front
        ≡ added writer.desk.shown.value.front (entry.Step step)) }
    ensures err { OnErr result.2 (result.0.desk.shown.value.front
        ≡ writer.desk.shown.value.front) }
{
    match K::copy_step(&step) {
        Ok(second) => publish(rt, writer, scribe, Change::Step(Twice::new(step, second))),
        Err(e) => (writer, None, Err(e)),
    }
}

/// Publishes the end.
pub fn publish_end<K: Replay, R: Wait>(
    rt: &R,
    writer: PostWriter<K>,
    scribe: Option<Scribe<K>>,
) -> (PostWriter<K>, Option<Scribe<K>>, Result<(), OutOfMemory>)
    requires rested { IsRested K.legal K.replays (drop writer.behind writer.log.items)
        (view writer.desk.place) writer.desk.shown.value.snapshot writer.desk.shown.value.front
        scribe }
    requires unended { is_ended writer.desk.shown.value.front.list ≡ false }
    ensures rested { IsRested K.legal K.replays (drop result.0.behind result.0.log.items)
        (view result.0.desk.place) result.0.desk.shown.value.snapshot
        result.0.desk.shown.value.front result.1 }
    ensures ok { OnOk result.2 (result.0.desk.shown.value.front
        ≡ added writer.desk.shown.value.front entry.End) }
    ensures err { OnErr result.2 (result.0.desk.shown.value.front
        ≡ writer.desk.shown.value.front) }
{
    publish(rt, writer, scribe, Change::End)
}
