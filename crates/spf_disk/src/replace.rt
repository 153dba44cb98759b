//! Replacing an entry in the slot that does not hold the latest one. Each part ends with a sync:
//! the gate of the slot is closed, the entry is written behind it, and the gate is opened.

ghost use Rattle.std.specs.Prelude.{◌≡◌, OnOk};
ghost use Rattle.spf_io.specs.Outside.{HasCause};
ghost use Rattle.spf_disk.specs.Crash.{LeavesOnly, Only};
ghost use Rattle.spf_disk.specs.Format.{entry_at};
ghost use Rattle.spf_disk.specs.Image.{SameOthers, bytes_of};
ghost use Rattle.spf_disk.specs.Replacing.{ButGate, GateIs, IsPassed, IsNewer, HasRoom, IsShut};
ghost use Rattle.spf_disk.specs.Replacing.{IsClosed};
ghost use Rattle.spf_disk.specs.Replacing.{IsStored, IsReplaced, IsBeforeOrAfter};
ghost use Rattle.spf_disk.specs.Slots.{other_slot, gate_of, held_by};
ghost use Rattle.spf_disk.specs.Standing.{standing, latest, is_open};

use crate::disk::{Disk, DiskFailed, HelperFile};
use crate::slot::Slot;

/// Writes the gate of the slot.
fn set_gate<D: Disk>(disk: &mut D, slot: Slot, octet: u8) -> Result<(), DiskFailed>
    requires durable { Only (D.seen disk.old) (D.may_leave disk.old) }
    requires room { HasRoom slot (D.seen disk.old) }
    ensures set { OnOk result (GateIs slot octet (D.seen disk.old) (D.seen disk.new)) }
    ensures durable { OnOk result (Only (D.seen disk.new) (D.may_leave disk.new)) }
    ensures any_moment { LeavesOnly D.moment D.left_since disk.old disk.new
        (ButGate slot (D.seen disk.old)) }
    ensures cause { HasCause (D.failures disk.old) (D.failures disk.new) result }
{
    disk.write_at(HelperFile::Gates, slot.gate(), &[octet])?;
    disk.sync(HelperFile::Gates)
}

/// Closes the gate of the slot. One that is closed is not written,
/// since an octet that is not synced could open it.
fn close<D: Disk>(disk: &mut D, slot: Slot, gate_is_open: bool) -> Result<(), DiskFailed>
    requires durable { Only (D.seen disk.old) (D.may_leave disk.old) }
    requires room { HasRoom slot (D.seen disk.old) }
    requires gate { gate_is_open ≡ is_open (gate_of (D.seen disk.old) slot) }
    requires passed { IsPassed (standing (D.seen disk.old) slot)
        (standing (D.seen disk.old) (other_slot slot)) }
    ensures shut { OnOk result (IsShut slot (D.seen disk.old) (D.seen disk.new)) }
    ensures durable { OnOk result (Only (D.seen disk.new) (D.may_leave disk.new)) }
    ensures any_moment { LeavesOnly D.moment D.left_since disk.old disk.new
        (λ c. latest c ≡ latest (D.seen disk.old)) }
    ensures cause { HasCause (D.failures disk.old) (D.failures disk.new) result }
{
    if !gate_is_open {
        return Ok(());
    }
    set_gate(disk, slot, 0)
}

/// Writes the bytes into the slot, whose gate is closed.
fn store<D: Disk>(disk: &mut D, slot: Slot, bytes: &[u8]) -> Result<(), DiskFailed>
    requires durable { Only (D.seen disk.old) (D.may_leave disk.old) }
    requires room { HasRoom slot (D.seen disk.old) }
    requires shut { IsClosed slot (D.seen disk.old) }
    ensures stored { OnOk result (IsStored slot bytes.now (D.seen disk.old) (D.seen disk.new)) }
    ensures durable { OnOk result (Only (D.seen disk.new) (D.may_leave disk.new)) }
    ensures any_moment { LeavesOnly D.moment D.left_since disk.old disk.new
        (λ c. latest c ≡ latest (D.seen disk.old)) }
    ensures cause { HasCause (D.failures disk.old) (D.failures disk.new) result }
{
    fill(disk, slot.file(), bytes)
}

/// Replaces what a file holds.
fn fill<D: Disk>(disk: &mut D, file: HelperFile, bytes: &[u8]) -> Result<(), DiskFailed>
    requires durable { Only (D.seen disk.old) (D.may_leave disk.old) }
    ensures held { OnOk result (bytes_of (D.seen disk.new) file ≡ bytes.now) }
    ensures others { OnOk result (SameOthers file (D.seen disk.old) (D.seen disk.new)) }
    ensures durable { OnOk result (Only (D.seen disk.new) (D.may_leave disk.new)) }
    ensures any_moment { LeavesOnly D.moment D.left_since disk.old disk.new
        (SameOthers file (D.seen disk.old)) }
    ensures cause { HasCause (D.failures disk.old) (D.failures disk.new) result }
{
    disk.write_at(file, 0, bytes)?;
    disk.cut(file, bytes.len() as u64)?;
    disk.sync(file)
}

/// Opens the gate of the slot, which holds a newer entry than the other one.
fn unlock<D: Disk>(disk: &mut D, slot: Slot) -> Result<(), DiskFailed>
    requires durable { Only (D.seen disk.old) (D.may_leave disk.old) }
    requires room { HasRoom slot (D.seen disk.old) }
    requires shut { IsClosed slot (D.seen disk.old) }
    requires newer { IsNewer (standing (D.seen disk.old) (other_slot slot))
        (entry_at (held_by (D.seen disk.old) slot)) }
    ensures replaced { OnOk result (IsReplaced slot (entry_at (held_by (D.seen disk.old) slot))
        (D.seen disk.old) (D.seen disk.new)) }
    ensures durable { OnOk result (Only (D.seen disk.new) (D.may_leave disk.new)) }
    ensures any_moment { LeavesOnly D.moment D.left_since disk.old disk.new
        (IsBeforeOrAfter (D.seen disk.old) (entry_at (held_by (D.seen disk.old) slot))) }
    ensures cause { HasCause (D.failures disk.old) (D.failures disk.new) result }
{
    set_gate(disk, slot, 1)
}

/// Replaces the entry of the slot by a newer one. A crash at any moment leaves the latest entry
/// from before, or the new one; after a success, the new one.
pub fn replace_entry<D: Disk>(
    disk: &mut D,
    slot: Slot,
    gate_is_open: bool,
    bytes: &[u8],
) -> Result<(), DiskFailed>
    requires durable { Only (D.seen disk.old) (D.may_leave disk.old) }
    requires room { HasRoom slot (D.seen disk.old) }
    requires gate { gate_is_open ≡ is_open (gate_of (D.seen disk.old) slot) }
    requires passed { IsPassed (standing (D.seen disk.old) slot)
        (standing (D.seen disk.old) (other_slot slot)) }
    requires newer { IsNewer (standing (D.seen disk.old) (other_slot slot)) (entry_at bytes.now) }
    ensures replaced { OnOk result (IsReplaced slot (entry_at bytes.now) (D.seen disk.old)
        (D.seen disk.new)) }
    ensures durable { OnOk result (Only (D.seen disk.new) (D.may_leave disk.new)) }
    ensures any_moment { LeavesOnly D.moment D.left_since disk.old disk.new
        (IsBeforeOrAfter (D.seen disk.old) (entry_at bytes.now)) }
    ensures cause { HasCause (D.failures disk.old) (D.failures disk.new) result }
{
    close(disk, slot, gate_is_open)?;
    store(disk, slot, bytes)?;
    unlock(disk, slot)
}
