//! Kinds of entries in a payload, and lists of them: a count of four octets, and that many entries.

ghost use Rattle.std.specs.Prelude.{◌≡◌, ℕ, List as Members, Option, map, IfOk};
ghost use Rattle.std.specs.Option.{option_map};
ghost use Rattle.spf_api.specs.Reading.{list_at};

use crate::layout::read_number;
use spf_io::{List, OutOfMemory};
use std::alloc::Global;

/// A view of an entry, whose fields are slices of what was read.
pub(crate) trait EntryView<'a>: Drop {
    /// The entry itself.
    type Entry;

    ghost entry_of: { Self → Self.Entry };

    ghost entry_at: { Members ℕ → Option (Self.Entry × Members ℕ) };

    /// Returns the entry at the start of the bytes, and what follows it.
    fn read(bytes: &'a [u8]) -> Option<(Self, &'a [u8])>
        ensures { option_map (λ x. (entry_of x.0, x.1.now)) result ≡ entry_at bytes.now };

    /// Returns a view of the entry.
    fn of(entry: &'a Self::Entry) -> Self
        ensures { entry_of result ≡ entry.now };

    /// Returns a copy of the entry.
    fn to_entry(&self, alloc: Global) -> Result<Self::Entry, OutOfMemory>
        ensures { IfOk result (λ e. e ≡ entry_of self.now) };
}

/// As many entries as a list has room for before any is read.
const FEW_ENTRIES: usize = 4;

/// Returns the list at the start of the bytes, and what follows it. Memory grows with the entries
/// that are there, and not with the count.
#[inline(always)]
pub(crate) fn read_entries<'a, V: EntryView<'a>>(
    alloc: Global,
    bytes: &'a [u8],
) -> Result<Option<(Vec<V>, &'a [u8])>, OutOfMemory>
    ensures { IfOk result
        (λ o. option_map (λ x. (map V.entry_of x.0.items, x.1.now)) o
        ≡ list_at V.entry_at bytes.now) }
{
    let Some((count, mut rest)) = read_number(bytes) else {
        return Ok(None);
    };
    let mut entries = Vec::with_capacity(alloc, count.min(FEW_ENTRIES))?;
    'entries: for _ in 0..count {
        let Some((entry, after)) = V::read(rest) else {
            return Ok(None);
        };
        entries.push(entry)?;
        rest = after;
    }
    Ok(Some((entries, rest)))
}

/// Returns a view of each entry.
pub(crate) fn views_of<'a, V: EntryView<'a>>(
    alloc: Global,
    entries: &'a [V::Entry],
) -> Result<Vec<V>, OutOfMemory>
    ensures { IfOk result (λ v. map V.entry_of v.items ≡ entries.now) }
{
    let mut views = Vec::with_capacity(alloc, entries.len())?;
    for entry in entries {
        views.push(V::of(entry))?;
    }
    Ok(views)
}

/// Returns a copy of each entry.
pub(crate) fn to_entries<'a, V: EntryView<'a>>(
    alloc: Global,
    views: &[V],
) -> Result<List<V::Entry>, OutOfMemory>
where
    V::Entry: Drop,
    ensures { IfOk result (λ l. l ≡ map V.entry_of views.now) }
{
    let mut entries = Vec::with_capacity(alloc, views.len())?;
    for view in views {
        entries.push(view.to_entry(alloc)?)?;
    }
    Ok(List::new(entries))
}
