//! Three files: what a read gives, and what a crash may leave.

ghost use Rattle.std.specs.Prelude.{◌≡◌, ◌≤◌, ◌+◌, ℕ, Option, None, IfOk, OnOk, length, drop};
ghost use Rattle.spf_io.specs.Outside.{HasCause};
ghost use Rattle.spf_disk.specs.Image.{Image, OnFile, Written, Kept};
ghost use Rattle.spf_disk.specs.Image.{IsRead, bytes_of};
ghost use Rattle.spf_disk.specs.Crash.{Elapses, NoMore, IsSynced, TornByWrite, TornByCut};
ghost use Rattle.spf_disk.specs.Stopping.{Stops};

use thiserror::Error;

/// The gates, and two files that hold an entry each.
#[derive(Clone, Copy, Debug, PartialEq, Eq)]
pub enum HelperFile {
    Gates,
    First,
    Second,
}

/// A disk failed.
#[derive(Clone, Copy, Debug, PartialEq, Eq, Error)]
#[error("disk failed")]
pub struct DiskFailed;

/// Three files. Until a file is synced, a crash may leave any octets where it was written.
pub trait Disk {
    // What a read gives.
    ghost seen: { Self → Image };
    // What a crash at this moment may leave.
    ghost may_leave: { Self → Image → Type 0 };
    // The moment, as a number that does not fall.
    ghost moment: { Self → ℕ };
    // What a crash at some moment from that one on may have left.
    ghost left_since: { Self → ℕ → Image → Type 0 };
    // How often the disk has failed.
    ghost failures: { Self → ℕ };
    // How many calls the disk still passes, where it is one that fails each later one.
    ghost calls_left: { Self → Option ℕ } = { λ disk. None };

    fn length(&mut self, file: HelperFile) -> Result<u64, DiskFailed>
        ensures length { IfOk result (λ n. n ≡ length (bytes_of (seen self.old) file)) }
        ensures seen { seen self.new ≡ seen self.old }
        ensures crash { NoMore (may_leave self.old) (may_leave self.new) }
        ensures time { Elapses (moment self.old) (moment self.new) (left_since self.old)
            (left_since self.new) (may_leave self.new) }
        ensures cause { HasCause (failures self.old) (failures self.new) result }
        ensures stops { Stops (calls_left self.old) (calls_left self.new) result };

    /// Reads the first of the octets from `at` on, at least
    /// one where one is there and the buffer is not empty.
    fn read(&mut self, file: HelperFile, at: u64, buf: &mut [u8]) -> Result<usize, DiskFailed>
        ensures octets { IfOk result
            (λ n. IsRead (drop at (bytes_of (seen self.old) file)) n buf.new) }
        ensures seen { seen self.new ≡ seen self.old }
        ensures crash { NoMore (may_leave self.old) (may_leave self.new) }
        ensures time { Elapses (moment self.old) (moment self.new) (left_since self.old)
            (left_since self.new) (may_leave self.new) }
        ensures cause { HasCause (failures self.old) (failures self.new) result }
        ensures stops { Stops (calls_left self.old) (calls_left self.new) result };

    /// Writes the bytes from `at` on, over what is there and past the end.
    fn write_at(&mut self, file: HelperFile, at: u64, bytes: &[u8]) -> Result<(), DiskFailed>
        requires { at ≤ length (bytes_of (seen self.old) file) }
        ensures written { OnOk result
            (OnFile file (Written at bytes.now) (seen self.old) (seen self.new)) }
        ensures crash { TornByWrite file at (at + length bytes.now) (may_leave self.old)
            (may_leave self.new) }
        ensures time { Elapses (moment self.old) (moment self.new) (left_since self.old)
            (left_since self.new) (may_leave self.new) }
        ensures cause { HasCause (failures self.old) (failures self.new) result }
        ensures stops { Stops (calls_left self.old) (calls_left self.new) result };

    /// Cuts the file down to its first `count` octets.
    fn cut(&mut self, file: HelperFile, count: u64) -> Result<(), DiskFailed>
        requires { count ≤ length (bytes_of (seen self.old) file) }
        ensures kept { OnOk result
            (OnFile file (Kept count) (seen self.old) (seen self.new)) }
        ensures crash { TornByCut file count (may_leave self.old) (may_leave self.new) }
        ensures time { Elapses (moment self.old) (moment self.new) (left_since self.old)
            (left_since self.new) (may_leave self.new) }
        ensures cause { HasCause (failures self.old) (failures self.new) result }
        ensures stops { Stops (calls_left self.old) (calls_left self.new) result };

    /// Syncs the file: after it, a crash leaves of the file what a read gives.
    fn sync(&mut self, file: HelperFile) -> Result<(), DiskFailed>
        ensures durable { OnOk result (IsSynced file (seen self.old) (may_leave self.new)) }
        ensures seen { seen self.new ≡ seen self.old }
        ensures crash { NoMore (may_leave self.old) (may_leave self.new) }
        ensures time { Elapses (moment self.old) (moment self.new) (left_since self.old)
            (left_since self.new) (may_leave self.new) }
        ensures cause { HasCause (failures self.old) (failures self.new) result }
        ensures stops { Stops (calls_left self.old) (calls_left self.new) result };

    /// What a read gives is always one of the outcomes.
    ghost seen_is_left: { (disk : Self) → may_leave disk (seen disk) };

    /// This moment is one of those since an earlier one.
    ghost counts_now: { (disk : Self) (t : ℕ) (c : Image) → t ≤ moment disk → may_leave disk c
        → left_since disk t c };

    /// Since this moment there is no other.
    ghost only_now: { (disk : Self) (c : Image) → left_since disk (moment disk) c
        → may_leave disk c };
}
