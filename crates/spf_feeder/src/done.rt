//! What a supervisor leaves.

ghost use Rattle.std.specs.Prelude.{◌≡◌, true, IfOk, Some, map};
ghost use mathlib.Core.List.{IsPrefix};
ghost use Rattle.spf_board.specs.Lists.{is_ended, steps_of};
ghost use Rattle.spf_feeder.specs.Records.{IsRecordBy};

use crate::finishes::Finishes;
use crate::record::Supervised;
use crate::session::Session;
use spf_board::{Pass, Shows};
use spf_io::OutOfMemory;
use std::marker::{Model, PhantomData};

/// What a supervisor leaves: its ended writer, and its record, where memory did not run out.
#[derive(Drop)]
pub struct SupervisorDone<K: Shows, S: Session>
where
    S::Publisher: Finishes<K, S>,
{
    pub(crate) ended: <S::Publisher as Finishes<K, S>>::Ended,
    pub(crate) supervised: Option<Supervised<S::Rules>>,
    pub(crate) kind: PhantomData<K>,
}

impl<K: Shows, S: Session> Model for SupervisorDone<K, S>
where
    S::Publisher: Finishes<K, S>,
{
    ghost use Rattle.std.specs.Prelude.{◌≡◌, IfSome, map};
    ghost use Rattle.spf_board.specs.Lists.{steps_of};
    ghost use Rattle.spf_feeder.specs.Records.{IsRecordBy, LeftOf, left_of};

    ghost Value = { LeftOf S.Rules S.Rules.Item S.Rules.Step K.Step };

    ghost view = { λ d. left_of (S.Publisher.past d.ended) d.supervised };

    ghost invariant = { λ d. IfSome d.supervised (λ r. (map S.Publisher.shown r.steps
        ≡ steps_of (S.Publisher.past d.ended).list) × IsRecordBy S.Rules.plain S.Rules.kind r) };
}

impl<K: Shows, S: Session> SupervisorDone<K, S>
where
    S::Publisher: Finishes<K, S>,
{
    /// Returns the record, and lets the pass of the same source learn all that was published: the
    /// steps of the record are what the pass has then seen, and it never sees more.
    pub fn into_record(self, pass: &mut Pass<K>) -> Result<Supervised<S::Rules>, OutOfMemory>
        requires { pass.old.book ≡ self.past.book }
        ensures record { IfOk result (λ r. self.recorded ≡ Some r) }
        ensures kept { IfOk result (IsRecordBy S.Rules.plain S.Rules.kind) }
        ensures settled { IfOk result (λ r. (map S.Publisher.shown r.steps
            ≡ steps_of pass.new.seen) × (is_ended pass.new.seen ≡ true)) }
        ensures book { pass.new.book ≡ pass.old.book }
        ensures seen { IsPrefix pass.old.seen pass.new.seen }
    {
        let SupervisorDone {
            ended,
            supervised,
            ..
        } = self;
        S::Publisher::settle(ended, pass)?;
        supervised.ok_or(OutOfMemory)
    }
}
