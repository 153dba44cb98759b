//! The two files that hold entries, and the gate of each.

ghost use Rattle.std.specs.Prelude.{◌≡◌};
ghost use Rattle.spf_disk.specs.Slots.{file_of_slot, gate_number, other_slot};

use crate::disk::HelperFile;

/// A file that holds an entry.
#[derive(Clone, Copy, Debug, PartialEq, Eq)]
pub enum Slot {
    First,
    Second,
}

impl Slot {
    pub fn other(self) -> Slot
        ensures { result ≡ other_slot self }
    {
        match self {
            Slot::First => Slot::Second,
            Slot::Second => Slot::First,
        }
    }

    pub fn file(self) -> HelperFile
        ensures { result ≡ file_of_slot self }
    {
        match self {
            Slot::First => HelperFile::First,
            Slot::Second => HelperFile::Second,
        }
    }

    /// Returns the offset of its gate in the file of the gates.
    pub fn gate(self) -> u64
        ensures { result ≡ gate_number self }
    {
        match self {
            Slot::First => 0,
            Slot::Second => 1,
        }
    }
}
