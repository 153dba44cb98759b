//! A disk that is lent for the time of a call.

ghost use Rattle.std.specs.Prelude.{◌≡◌, ◌≤◌, ℕ, List, Err};
ghost use Rattle.spf_io.specs.Outside.{Rose};
ghost use Rattle.spf_disk.specs.Image.{Image};
ghost use Rattle.spf_feed.specs.Steps.{PlainStep};
ghost use Rattle.spf_feed.specs.declared.follow_error.FollowError.TheVariants as follow_errors;
ghost use Rattle.spf_helper.specs.declared.helper_error.HelperError.TheVariants as errors;
ghost use Rattle.spf_helper.specs.Runs.{Ended, LeavesBeside, Ran};

use crate::call::Origin;
use crate::following::follow_disk;
use crate::helper_error::HelperError;
use spf_disk::Disk;
use spf_feed::ResourceLimits;
use spf_io::{Sink, Source};
use std::alloc::Global;

/// A disk over which a session is followed, and which is given back as the same loan.
pub(crate) trait LentDisk {
    // Which loan it is.
    ghost loan: { Self → ℕ };

    ghost seen: { Self → Image };

    ghost may_leave: { Self → Image → Type 0 };

    ghost moment: { Self → ℕ };

    ghost left_since: { Self → ℕ → Image → Type 0 };

    ghost failures: { Self → ℕ };

    fn follow<N: Origin, S: Source, K: Sink>(
        self,
        alloc: Global,
        source: &mut S,
        sink: &mut K,
        limits: ResourceLimits,
        max_frames: u64,
    ) -> (Result<u64, HelperError>, Self)
        requires begin { N.begin ≡ record {
          loan = loan self;
          image = seen self;
          moment = moment self;
          failures = failures self;
        } }
        requires past { (t : ℕ) (c : Image) → left_since self t c → N.past t c }
        ensures loan { loan result.1 ≡ N.begin.loan }
        ensures ran { (steps : List PlainStep)
            × Ended limits max_frames N.begin.image (S.left source.old) (S.left source.new)
            (K.held sink.old) (K.held sink.new) steps result.0
            × Ran seen may_leave failures self result.1 steps result.0
            × LeavesBeside moment left_since self result.1 N.past N.begin.image steps }
        ensures reads_later { S.failures source.old ≤ S.failures source.new }
        ensures writes_later { K.failures sink.old ≤ K.failures sink.new }
        ensures read_fault { result.0 ≡ Err (errors.Follow follow_errors.ReadFault)
            → Rose (S.failures source.old) (S.failures source.new) }
        ensures write_fault { result.0 ≡ Err (errors.Follow follow_errors.WriteFault)
            → Rose (K.failures sink.old) (K.failures sink.new) };
}

impl<'a, D: Disk> LentDisk for &'a mut D {
    ghost loan = { λ d. d.ghost_name };

    ghost seen = { λ d. D.seen d.now };

    ghost may_leave = { λ d. D.may_leave d.now };

    ghost moment = { λ d. D.moment d.now };

    ghost left_since = { λ d. D.left_since d.now };

    ghost failures = { λ d. D.failures d.now };

    fn follow<N: Origin, S: Source, K: Sink>(
        self,
        alloc: Global,
        source: &mut S,
        sink: &mut K,
        limits: ResourceLimits,
        max_frames: u64,
    ) -> (Result<u64, HelperError>, &'a mut D) {
        follow_disk::<N, S, K, D>(alloc, source, sink, self, limits, max_frames)
    }
}

/// Follows a session over a disk that a call began with, and returns the disk.
pub(crate) fn follow_lent<N: Origin, T: LentDisk, S: Source, K: Sink>(
    alloc: Global,
    source: &mut S,
    sink: &mut K,
    disk: T,
    limits: ResourceLimits,
    max_frames: u64,
) -> (Result<u64, HelperError>, T)
    requires begin { N.begin ≡ record {
      loan = T.loan disk;
      image = T.seen disk;
      moment = T.moment disk;
      failures = T.failures disk;
    } }
    requires past { (t : ℕ) (c : Image) → T.left_since disk t c → N.past t c }
    ensures loan { T.loan result.1 ≡ N.begin.loan }
    ensures ran { (steps : List PlainStep)
        × Ended limits max_frames N.begin.image (S.left source.old) (S.left source.new)
        (K.held sink.old) (K.held sink.new) steps result.0
        × Ran T.seen T.may_leave T.failures disk result.1 steps result.0
        × LeavesBeside T.moment T.left_since disk result.1 N.past N.begin.image steps }
    ensures reads_later { S.failures source.old ≤ S.failures source.new }
    ensures writes_later { K.failures sink.old ≤ K.failures sink.new }
    ensures read_fault { result.0 ≡ Err (errors.Follow follow_errors.ReadFault)
        → Rose (S.failures source.old) (S.failures source.new) }
    ensures write_fault { result.0 ≡ Err (errors.Follow follow_errors.WriteFault)
        → Rose (K.failures sink.old) (K.failures sink.new) }
{
    disk.follow::<N, S, K>(alloc, source, sink, limits, max_frames)
}
