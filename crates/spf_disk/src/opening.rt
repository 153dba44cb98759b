//! Opening the files, so that entries can be replaced.

ghost use Rattle.std.specs.Prelude.{◌≡◌, OnOk};
ghost use Rattle.std.specs.Option.{option_map_or};
ghost use Rattle.spf_io.specs.Outside.{HasCause};
ghost use Rattle.spf_disk.specs.Crash.{Looks, Only};
ghost use Rattle.spf_disk.specs.Opening.{Opens, opened_at};
ghost use Rattle.spf_disk.specs.Scanning.{FaultHasCause};
ghost use Rattle.spf_disk.specs.Standing.{number_of};

use crate::disk::{Disk, DiskFailed, HelperFile};
use crate::generation::Entry;
use crate::open_error::OpenError;
use crate::scanning::{GatesRead, number_in, open_gates, scan_by};
use crate::slot::Slot;
use std::alloc::Global;

/// The number of the latest entry, the slot where the next one goes, and which gates are open.
#[derive(Clone, Copy, Debug, PartialEq, Eq)]
pub struct Opened {
    pub number: u64,
    pub next: Slot,
    pub next_is_open: bool,
    pub other_is_open: bool,
}

fn sync_all<D: Disk>(disk: &mut D) -> Result<(), DiskFailed>
    ensures durable { OnOk result (Only (D.seen disk.new) (D.may_leave disk.new)) }
    ensures looks { Looks D.seen D.may_leave D.moment D.left_since disk.old disk.new }
    ensures cause { HasCause (D.failures disk.old) (D.failures disk.new) result }
{
    disk.sync(HelperFile::Gates)?;
    disk.sync(HelperFile::First)?;
    disk.sync(HelperFile::Second)
}

fn number_or_zero(entry: &Option<Entry>) -> u64
    ensures { result ≡ option_map_or number_of entry.now 0 }
{
    match entry {
        Some(entry) => number_in(entry),
        None => 0,
    }
}

/// The gates as seen from a slot.
fn seen_from(number: u64, next: Slot, gates: GatesRead) -> Opened
    ensures { result ≡ opened_at number next gates.first gates.second }
{
    match next {
        Slot::First => Opened {
            number,
            next,
            next_is_open: gates.first,
            other_is_open: gates.second,
        },
        Slot::Second => Opened {
            number,
            next,
            next_is_open: gates.second,
            other_is_open: gates.first,
        },
    }
}

/// Syncs the three files, and then reads them.
pub fn open_files<D: Disk>(alloc: Global, disk: &mut D) -> Result<Opened, OpenError>
    ensures opens { Opens (D.seen disk.old) result }
    ensures durable { OnOk result (Only (D.seen disk.new) (D.may_leave disk.new)) }
    ensures looks { Looks D.seen D.may_leave D.moment D.left_since disk.old disk.new }
    ensures cause { FaultHasCause (D.failures disk.old) (D.failures disk.new) result }
{
    sync_all(disk)?;
    let gates = open_gates(alloc, disk)?;
    let scanned = scan_by(alloc, disk, gates)?;
    Ok(seen_from(number_or_zero(&scanned.entry), scanned.next, gates))
}
