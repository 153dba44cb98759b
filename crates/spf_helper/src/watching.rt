//! The program over an input, a disk and outputs of any kind.

ghost use Rattle.std.specs.Prelude.{◌≡◌, ◌≢◌, ◌↔◌, ◌⊎◌, Err, length, codes};
ghost use Rattle.spf_io.specs.Outside.{Rose};
ghost use Rattle.spf_disk.specs.declared.open_error.OpenError.TheVariants.{Damaged};
ghost use Rattle.spf_disk.specs.Standing.{latest};
ghost use Rattle.spf_feed.specs.Limits.{default_limits};
ghost use Rattle.spf_helper.specs.Completing.{Completes};
ghost use Rattle.spf_helper.specs.Runs.{helper_rules};
ghost use Rattle.spf_helper.specs.Watching.{Watches};
ghost use Rattle.spf_program.specs.Reports.{IsReported};
ghost use Rattle.spf_program.specs.Streams.{side};

use crate::following::helper_follow;
use crate::report::report;
use spf_disk::Disk;
use spf_feed::ResourceLimits;
use spf_io::{Sink, Source};
use std::alloc::Global;

const MAX_FRAMES: u64 = 1_000_000;

/// Follows the session of `source`, writes its lines to `out`, and keeps its latest identity on the
/// disk. It returns the exit status: 0 where all went well, and otherwise a line on `errors` says
/// why. The one argument is the folder of the disk.
pub fn helper_watch<S: Source, D: Disk, K: Sink, E: Sink>(
    alloc: Global,
    arguments: &[String],
    source: &mut S,
    disk: &mut D,
    out: &mut K,
    errors: &mut E,
) -> u8
    ensures arguments { (result ≡ 1) ↔ (length arguments.now ≢ 1) }
    ensures refused { length arguments.now ≢ 1
        → IsReported (side (E.held errors.old) (E.failures errors.old))
        (side (E.held errors.new) (E.failures errors.new)) (codes "spf_helper: bad words\n") }
    ensures untouched { length arguments.now ≢ 1
        → (source.new ≡ source.old) × (disk.new ≡ disk.old) × (out.new ≡ out.old) }
    ensures watches { length arguments.now ≡ 1
        → Watches D.seen D.may_leave D.moment D.left_since D.failures disk.old disk.new (record {
          left = S.left source.old;
          left' = S.left source.new;
          held = K.held out.old;
          held' = K.held out.new;
          said = E.held errors.old;
          said' = E.held errors.new;
          reads = S.failures source.old;
          reads' = S.failures source.new;
          writes = K.failures out.old;
          writes' = K.failures out.new;
          failures = E.failures errors.old;
          failures' = E.failures errors.new;
        }) result }
    // Each failure comes only where its count rose, and damage is reported only of what the disk
    // held.
    ensures read_fault { result ≡ 3 → Rose (S.failures source.old) (S.failures source.new) }
    ensures write_fault { result ≡ 4 → Rose (K.failures out.old) (K.failures out.new) }
    ensures disk_fault { result ≡ 21 → Rose (D.failures disk.old) (D.failures disk.new) }
    ensures damaged { result ≡ 22 → latest (D.seen disk.old) ≡ Err Damaged }
    ensures damage_is_said { length arguments.now ≡ 1 → latest (D.seen disk.old) ≡ Err Damaged
        → (Rose (D.failures disk.old) (D.failures disk.new) → ⊥)
        → (result ≡ 22) ⊎ (result ≡ 2) }
    // A whole session over a disk that is not damaged ends with 0, or out of memory.
    ensures complete { length arguments.now ≡ 1
        → Completes (helper_rules default_limits) 1000000 (D.seen disk.old) (S.left source.old)
        (S.failures source.old, S.failures source.new) (K.failures out.old, K.failures out.new)
        (D.failures disk.old, D.failures disk.new) result }
{
    if arguments.len() != 1 {
        let _ = errors.put(b"spf_helper: bad words\n");
        return 1;
    }
    let limits = ResourceLimits::default_limits();
    let end = helper_follow(alloc, source, out, disk, limits, MAX_FRAMES);
    let status = report(errors, &end);
    drop(end);
    status
}
