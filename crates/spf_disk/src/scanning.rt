//! Reading the three files.

ghost use Rattle.std.specs.Prelude.{◌≡◌, Ok, IfOk, IfErr, true};
ghost use Rattle.std.specs.Option.{option_map};
ghost use Rattle.spf_io.specs.Rule.{Gives};
ghost use Rattle.spf_disk.specs.Crash.{Looks};
ghost use Rattle.spf_disk.specs.Image.{bytes_of};
ghost use Rattle.spf_disk.specs.Scanning.{FaultHasCause, ReadsAs, IsNext, held_as, is_free};
ghost use Rattle.spf_disk.specs.Slots.{gate_of};
ghost use Rattle.spf_disk.specs.Standing.{found, latest, latest_of, standing, is_open};
ghost use Rattle.spf_disk.specs.Standing.{generation_in};
ghost use Rattle.spf_disk.specs.Standing.{Holds, number_of};
ghost use Rattle.spf_disk.specs.Scanning.{IsChosen, entry_scanned};
ghost use Rattle.std.specs.Option.{option_and_then};

use crate::disk::{Disk, HelperFile};
use crate::generation::{Entry, Generation};
use crate::open_error::OpenError;
use crate::reader::read_entry;
use crate::slot::Slot;
use std::alloc::Global;

/// How many octets are read at once.
const CHUNK: usize = 512;

/// All bytes of a file. Memory grows with what is read.
fn file_bytes<D: Disk>(alloc: Global, disk: &mut D, file: HelperFile) -> Result<Vec<u8>, OpenError>
    ensures bytes { IfOk result (λ v. v.items ≡ bytes_of (D.seen disk.old) file) }
    ensures free { IfErr result (λ e. is_free e ≡ true) }
    ensures looks { Looks D.seen D.may_leave D.moment D.left_since disk.old disk.new }
    ensures cause { FaultHasCause (D.failures disk.old) (D.failures disk.new) result }
{
    let mut bytes = Vec::new(alloc);
    let mut piece = [0; CHUNK];
    loop {
        let count = disk.read(file, bytes.len() as u64, &mut piece)?;
        if count == 0 {
            return Ok(bytes);
        }
        bytes.extend_from_slice(&piece[..count])?;
    }
}

/// The gates of the two slots.
#[derive(Clone, Copy, PartialEq, Eq)]
pub(crate) struct GatesRead {
    pub(crate) first: bool,
    pub(crate) second: bool,
}

/// Which gates are open.
pub(crate) fn open_gates<D: Disk>(alloc: Global, disk: &mut D) -> Result<GatesRead, OpenError>
    ensures first { IfOk result
        (λ r. r.first ≡ is_open (gate_of (D.seen disk.old) Slot.First)) }
    ensures second { IfOk result
        (λ r. r.second ≡ is_open (gate_of (D.seen disk.old) Slot.Second)) }
    ensures free { IfErr result (λ e. is_free e ≡ true) }
    ensures looks { Looks D.seen D.may_leave D.moment D.left_since disk.old disk.new }
    ensures cause { FaultHasCause (D.failures disk.old) (D.failures disk.new) result }
{
    let gates = file_bytes(alloc, disk, HelperFile::Gates)?;
    Ok(GatesRead {
        first: opens(gates.get(0)),
        second: opens(gates.get(1)),
    })
}

fn opens(octet: Option<&u8>) -> bool
    ensures { result ≡ is_open (option_map (λ o. o.now) octet.entry) }
{
    match octet {
        Some(octet) => *octet == 1,
        None => false,
    }
}

/// The entry of a slot, where its gate is open.
fn slot_entry<D: Disk>(
    alloc: Global,
    disk: &mut D,
    slot: Slot,
    gate_is_open: bool,
) -> Result<Option<Entry>, OpenError>
    requires { gate_is_open ≡ is_open (gate_of (D.seen disk.old) slot) }
    ensures reads { ReadsAs (standing (D.seen disk.old) slot) result }
    ensures looks { Looks D.seen D.may_leave D.moment D.left_since disk.old disk.new }
    ensures cause { FaultHasCause (D.failures disk.old) (D.failures disk.new) result }
{
    if !gate_is_open {
        return Ok(None);
    }
    let bytes = file_bytes(alloc, disk, slot.file())?;
    match read_entry(alloc, bytes.as_slice())? {
        Some(entry) => Ok(Some(entry)),
        None => Err(OpenError::Damaged),
    }
}

/// The latest entry, and the slot that does not hold it, where the next one goes.
#[derive(Drop)]
pub(crate) struct Scanned {
    pub entry: Option<Entry>,
    pub next: Slot,
}

/// The number of an entry.
pub(crate) fn number_in(entry: &Entry) -> u64
    ensures { result ≡ number_of entry.now }
{
    match entry {
        Entry::Withdrawn { number } => *number,
        Entry::Accepted(generation) => generation.number,
    }
}

/// The later of two entries. Two with the same number mean that the files are damaged.
fn later(first: Entry, second: Entry) -> Result<Scanned, OpenError>
    ensures latest { latest_of (Holds first) (Holds second) ≡ entry_scanned result }
    ensures next { IfOk result (λ s. IsChosen (Holds first) (Holds second) s) }
{
    let before = number_in(&first);
    let after = number_in(&second);
    if before == after {
        return Err(OpenError::Damaged);
    }
    if before < after {
        return Ok(Scanned {
            entry: Some(second),
            next: Slot::First,
        });
    }
    Ok(Scanned {
        entry: Some(first),
        next: Slot::Second,
    })
}

/// The latest of what the slots hold.
fn choose(first: Option<Entry>, second: Option<Entry>) -> Result<Scanned, OpenError>
    ensures latest { latest_of (held_as first) (held_as second) ≡ entry_scanned result }
    ensures next { IfOk result (λ s. IsChosen (held_as first) (held_as second) s) }
{
    match first {
        None => Ok(Scanned {
            entry: second,
            next: Slot::First,
        }),
        Some(first) => match second {
            None => Ok(Scanned {
                entry: Some(first),
                next: Slot::Second,
            }),
            Some(second) => later(first, second),
        },
    }
}

/// The latest entry by the gates, and where the next one goes.
pub(crate) fn scan_by<D: Disk>(
    alloc: Global,
    disk: &mut D,
    gates: GatesRead,
) -> Result<Scanned, OpenError>
    requires first { gates.first ≡ is_open (gate_of (D.seen disk.old) Slot.First) }
    requires second { gates.second ≡ is_open (gate_of (D.seen disk.old) Slot.Second) }
    ensures latest { Gives is_free (λ s. s.entry) result (latest (D.seen disk.old)) }
    ensures next { IfOk result (λ s. IsNext s.next s.entry (D.seen disk.old)) }
    ensures looks { Looks D.seen D.may_leave D.moment D.left_since disk.old disk.new }
    ensures cause { FaultHasCause (D.failures disk.old) (D.failures disk.new) result }
{
    let first = slot_entry(alloc, disk, Slot::First, gates.first)?;
    let second = slot_entry(alloc, disk, Slot::Second, gates.second)?;
    choose(first, second)
}

/// Reads the three files: the latest entry, and where the next one goes.
fn scan<D: Disk>(alloc: Global, disk: &mut D) -> Result<Scanned, OpenError>
    ensures latest { Gives is_free (λ s. s.entry) result (latest (D.seen disk.old)) }
    ensures looks { Looks D.seen D.may_leave D.moment D.left_since disk.old disk.new }
    ensures cause { FaultHasCause (D.failures disk.old) (D.failures disk.new) result }
{
    let gates = open_gates(alloc, disk)?;
    scan_by(alloc, disk, gates)
}

/// What a reader takes from an entry.
fn taken(entry: Option<Entry>) -> Option<Generation>
    ensures { result ≡ option_and_then generation_in entry }
{
    match entry {
        Some(Entry::Accepted(generation)) => Some(generation),
        Some(Entry::Withdrawn { number: _ }) => None,
        None => None,
    }
}

/// Reads the latest generation. None where nothing was kept, or it was withdrawn.
pub fn read_generation<D: Disk>(
    alloc: Global,
    disk: &mut D,
) -> Result<Option<Generation>, OpenError>
    ensures found { Gives is_free (λ o. o) result (found (D.seen disk.old)) }
    ensures looks { Looks D.seen D.may_leave D.moment D.left_since disk.old disk.new }
    ensures cause { FaultHasCause (D.failures disk.old) (D.failures disk.new) result }
{
    let scan = scan(alloc, disk)?;
    Ok(taken(scan.entry))
}
