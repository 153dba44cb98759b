//! The writer of a board of X.509 steps, and its desk.

ghost use Rattle.std.specs.Prelude.{◌≡◌, ◌⊎◌, ◌++◌, ◌∷◌, [], false, drop, Some, OnOk, OnErr};
ghost use Rattle.left_right.specs.Sides.{view};
ghost use Rattle.spf_board.specs.declared.entry.Entry.TheVariants as entry;
ghost use Rattle.spf_board.specs.Lists.{steps_of, is_ended, IsBoardList};
ghost use Rattle.spf_board.specs.Past.{added};
ghost use Rattle.spf_board.specs.Desks.{IsRested};
ghost use Rattle.spf_feed.specs.Records.{RecordAppends};
ghost use Rattle.spf_feed.specs.Steps.{MayFollow, plain};
ghost use Rattle.spiffe.specs.Steps.{Legal, Replays};

use crate::kind::X509;
use spf_board::{Front, PostWriter, Scribe, Writes, publish_end, publish_step};
use spf_feed::{Prepared, Step};
use spf_io::OutOfMemory;
use std::alloc::Global;
use std::marker::Model;
use std::sync::Wait;

/// The writer of a board with its scribe. Contracts see what it has published. Its drop waits for
/// the readers.
pub struct DeskWriter<R: Wait + Drop> {
    writer: PostWriter<X509>,
    // There is none after a change that could not be published.
    scribe: Option<Scribe<X509>>,
    rt: R,
}

impl<R: Wait + Drop> Model for DeskWriter<R> {
    ghost use Rattle.std.specs.Prelude.{drop};
    ghost use Rattle.left_right.specs.Sides.{view as known};
    ghost use Rattle.spf_board.specs.Past.{Past};
    ghost use Rattle.spf_feed.specs.Steps.{PlainStep};
    ghost use Rattle.spf_board.specs.Desks.{IsRested};
    ghost use Rattle.spiffe.specs.Steps.{Legal, Replays};

    ghost Value = { Past PlainStep };

    ghost view = { λ h. h.writer.desk.shown.value.front };

    ghost invariant = { λ h. IsRested Legal Replays (drop h.writer.behind h.writer.log.items)
        (known h.writer.desk.place) h.writer.desk.shown.value.snapshot
        h.writer.desk.shown.value.front h.scribe };
}

impl<R: Wait + Drop> Drop for DeskWriter<R> {
    fn drop(self) {
        let Self {
            writer,
            scribe: _scribe,
            rt,
        } = self;
        drop(writer.take(&rt));
    }
}

impl<R: Wait + Drop> DeskWriter<R> {
    pub(crate) fn new(writer: PostWriter<X509>, scribe: Scribe<X509>, rt: R) -> DeskWriter<R>
        requires { IsRested Legal Replays (drop writer.behind writer.log.items)
            (view writer.desk.place) writer.desk.shown.value.snapshot
            writer.desk.shown.value.front (Some scribe) }
        ensures same { result ≡ writer.desk.shown.value.front }
        ensures board { IsBoardList Legal result.list }
    {
        DeskWriter {
            writer,
            scribe: Some(scribe),
            rt,
        }
    }
}

impl<R: Wait + Drop> Writes<X509> for DeskWriter<R> {
    ghost use Rattle.std.specs.Prelude.{◌≡◌, ◌⊎◌, ◌++◌, ◌∷◌, [], false, OnOk, OnErr};
    ghost use Rattle.spf_board.specs.declared.entry.Entry.TheVariants as entry;
    ghost use Rattle.spf_board.specs.Lists.{steps_of, is_ended, IsBoardList};
    ghost use Rattle.spf_board.specs.Past.{added};
    ghost use Rattle.spiffe.specs.Steps.{Legal};

    ghost past = { λ writer. writer };

    fn front(&self) -> Front<X509>
        ensures { result ≡ self.now }
    {
        self.writer.published().front.again()
    }

    fn put(self, step: Prepared) -> (DeskWriter<R>, Result<(), OutOfMemory>)
        requires legal { Legal (steps_of self.list ++ step ∷ []) }
        requires unended { is_ended self.list ≡ false }
        ensures ok { OnOk result.1 (result.0 ≡ added self (entry.Step step)) }
        ensures err { OnErr result.1 (result.0 ≡ self) }
        ensures board { IsBoardList Legal result.0.list }
    {
        let DeskWriter { writer, scribe, rt } = self;
        let (writer, scribe, result) = publish_step(&rt, writer, scribe, step);
        (DeskWriter { writer, scribe, rt }, result)
    }

    fn end(self) -> (DeskWriter<R>, bool)
        requires { is_ended self.list ≡ false }
        ensures whole { result.1 ≡ is_ended result.0.list }
        ensures ended { (result.0 ≡ added self entry.End) ⊎ (result.0 ≡ self) }
    {
        let DeskWriter { writer, scribe, rt } = self;
        let (writer, scribe, result) = publish_end(&rt, writer, scribe);
        (DeskWriter { writer, scribe, rt }, result.is_ok())
    }
}

/// The one writer of a board. Contracts see what it has published.
pub type Desk<R> = spf_board::Desk<X509, DeskWriter<R>>;

/// A writer that publishes nothing more. Contracts see what it has published.
pub type Ended<R> = spf_board::Ended<X509, DeskWriter<R>>;

/// Prepares a step, and publishes it.
pub fn publish_on<R: Wait + Drop>(
    alloc: Global,
    desk: &mut Desk<R>,
    step: Step,
) -> Result<(), OutOfMemory>
    requires { MayFollow (Some (steps_of desk.old.list)) (plain step) }
    ensures appends { RecordAppends (Some (steps_of desk.old.list))
        (Some (steps_of desk.new.list)) result (plain step) }
    ensures book { desk.new.book ≡ desk.old.book }
{
    let step = Prepared::new(alloc, step)?;
    desk.put(step)
}
