//! Following a session over a disk.

ghost use Rattle.std.specs.Prelude.{◌≡◌, ◌≤◌, ℕ, List, [], Err};
ghost use Rattle.spf_disk.specs.Image.{Image};
ghost use Rattle.spf_io.specs.Outside.{Rose};
ghost use Rattle.spf_feed.specs.Steps.{PlainStep};
ghost use Rattle.spf_feed.specs.declared.follow_error.FollowError.TheVariants as follow_errors;
ghost use Rattle.spf_helper.specs.declared.helper_error.HelperError.TheVariants as errors;
ghost use Rattle.spf_feed.specs.Following.{FailuresHaveCauses};
ghost use Rattle.spf_helper.specs.Keeping.{IsKept};
ghost use Rattle.spf_helper.specs.Runs.{Ended, Follows, LeavesBeside, LeavesFound};
ghost use Rattle.spf_helper.specs.Runs.{Ran, ended_as};

use crate::call::{CallPublisher, Origin};
use crate::helper_error::HelperError;
use crate::lent::follow_lent;
use crate::publisher::HelperPublisher;
use spf_disk::{Disk, open_files};
use spf_feed::{FollowError, NoPicker, NoRecorder, Ready, ResourceLimits, follow_x509};
use spf_io::{Sink, Source};
use std::alloc::Global;
use std::marker::Brand;

/// How a run ended, by whether the publisher failed and whether a step had no number.
fn ended(followed: Result<u64, FollowError>, fault: bool, full: bool) -> Result<u64, HelperError>
    ensures { result ≡ ended_as fault full followed }
{
    if fault {
        drop(followed);
        return Err(HelperError::DiskFault);
    }
    if full {
        drop(followed);
        return Err(HelperError::Full);
    }
    match followed {
        Ok(count) => Ok(count),
        Err(error) => Err(HelperError::Follow(error)),
    }
}

/// Follows a session with a publisher that a call began with, and returns the publisher.
fn follow_kept<'a, N: Origin, S: Source, K: Sink, D: Disk>(
    alloc: Global,
    source: &mut S,
    sink: &mut K,
    publisher: HelperPublisher<'a, D>,
    limits: ResourceLimits,
    max_frames: u64,
) -> (Result<u64, FollowError>, HelperPublisher<'a, D>)
    requires first { publisher.steps ≡ [] }
    requires kept { IsKept D.seen D.may_leave D.moment D.left_since D.failures N.begin N.past
        publisher }
    ensures same_reference { result.1.disk.ghost_name ≡ N.begin.loan }
    ensures kept { IsKept D.seen D.may_leave D.moment D.left_since D.failures N.begin N.past
        result.1 }
    ensures follows { Follows limits max_frames (S.left source.old) (S.left source.new)
        (K.held sink.old) (K.held sink.new) result.1.steps result.0 }
    ensures cause { FailuresHaveCauses
        (record { reads = S.failures source.old; writes = K.failures sink.old })
        (record { reads = S.failures source.new; writes = K.failures sink.new }) result.0 }
{
    let mut held = CallPublisher::<'a, D, N>::new(publisher);
    let followed = follow_x509(
        alloc,
        source,
        sink,
        &mut held,
        &mut NoRecorder::new(),
        limits,
        None,
        max_frames,
        None::<&NoPicker>,
        Ready::Usable,
    );
    (followed, held.into_inner())
}

/// Follows a session over a disk that a call began with, and returns the disk.
pub(crate) fn follow_disk<'a, N: Origin, S: Source, K: Sink, D: Disk>(
    alloc: Global,
    source: &mut S,
    sink: &mut K,
    disk: &'a mut D,
    limits: ResourceLimits,
    max_frames: u64,
) -> (Result<u64, HelperError>, &'a mut D)
    requires begin { N.begin ≡ record {
      loan = disk.ghost_name;
      image = D.seen disk.old;
      moment = D.moment disk.old;
      failures = D.failures disk.old;
    } }
    requires past { (t : ℕ) (c : Image) → D.left_since disk.old t c → N.past t c }
    ensures same_reference { result.1.ghost_name ≡ disk.entry.ghost_name }
    ensures ran { (steps : List PlainStep)
        × Ended limits max_frames N.begin.image (S.left source.old) (S.left source.new)
        (K.held sink.old) (K.held sink.new) steps result.0
        × Ran D.seen D.may_leave D.failures disk.old result.1.now steps result.0
        × LeavesBeside D.moment D.left_since disk.old result.1.now N.past N.begin.image steps }
    ensures reads_later { S.failures source.old ≤ S.failures source.new }
    ensures writes_later { K.failures sink.old ≤ K.failures sink.new }
    ensures read_fault { result.0 ≡ Err (errors.Follow follow_errors.ReadFault)
        → Rose (S.failures source.old) (S.failures source.new) }
    ensures write_fault { result.0 ≡ Err (errors.Follow follow_errors.WriteFault)
        → Rose (K.failures sink.old) (K.failures sink.new) }
{
    let opened = match open_files(alloc, disk) {
        Ok(opened) => opened,
        Err(error) => return (Err(HelperError::Open(error)), disk),
    };
    let publisher = HelperPublisher::over(alloc, disk, opened);
    let (followed, publisher) = follow_kept::<N, S, K, D>(
        alloc, source, sink, publisher, limits, max_frames,
    );
    let end = ended(followed, publisher.fault(), publisher.full());
    (end, publisher.into_disk())
}

/// Follows a session of at most `max_frames` frames, and keeps its latest step on the disk. It
/// returns the number of events.
pub fn helper_follow<S: Source, K: Sink, D: Disk>(
    alloc: Global,
    source: &mut S,
    sink: &mut K,
    disk: &mut D,
    limits: ResourceLimits,
    max_frames: u64,
) -> Result<u64, HelperError>
    // What is read, put, published and left on the disk belongs to one list of events.
    ensures ran { (steps : List PlainStep)
        × Ended limits max_frames (D.seen disk.old) (S.left source.old) (S.left source.new)
        (K.held sink.old) (K.held sink.new) steps result
        × Ran D.seen D.may_leave D.failures disk.old disk.new steps result
        × LeavesFound D.seen D.may_leave D.moment D.left_since disk.old disk.new steps }
    // A failure of the source or the sink comes only where its count rose.
    ensures reads_later { S.failures source.old ≤ S.failures source.new }
    ensures writes_later { K.failures sink.old ≤ K.failures sink.new }
    ensures read_fault { result ≡ Err (errors.Follow follow_errors.ReadFault)
        → Rose (S.failures source.old) (S.failures source.new) }
    ensures write_fault { result ≡ Err (errors.Follow follow_errors.WriteFault)
        → Rose (K.failures sink.old) (K.failures sink.new) }
{
    let (end, _disk) = follow_lent::<Brand, &mut D, S, K>(
        alloc, source, sink, disk, limits, max_frames,
    );
    end
}
