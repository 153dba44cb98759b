//! Lists of messages within a message: each is a field of one number.

ghost use Rattle.std.specs.Prelude.{◌≡◌, ◌≤◌, ℕ, List as Members, Option, Some, None, map, IfOk};
ghost use Rattle.std.specs.Prelude.{if◌then◌else◌};
ghost use Rattle.std.specs.Option.{option_map};
ghost use Rattle.spf_messages.specs.Wire.{field_of};
ghost use Rattle.spf_messages.specs.Message.{entries_in};
ghost use Rattle.spf_messages.specs.Folded.{entries_with};

use crate::wire::{Field, read_field};
use spf_io::{List, OutOfMemory};
use std::alloc::Global;

/// A view of an entry of a message, whose fields are slices of it.
pub(crate) trait View<'a>: Drop {
    /// The entry itself.
    type Entry;

    ghost entry_of: { Self → Self.Entry };

    ghost entry_in: { Members ℕ → Option Self.Entry };

    /// Reads the entry that the octets are.
    fn read(octets: &'a [u8]) -> Option<Self>
        ensures { option_map entry_of result ≡ entry_in octets.now };

    /// Returns a copy of the entry.
    fn to_entry(&self, alloc: Global) -> Result<Self::Entry, OutOfMemory>
        ensures { IfOk result (λ e. e ≡ entry_of self.now) };
}

/// Adds the entry of a field, where it has that number. Returns false where the field is not
/// allowed: one with a number up to `max` is length-delimited.
#[tactic(auto, unfolding(crate::specs::Folded::entries_with))]
fn add_entry<'a, V: View<'a>>(
    views: &mut Vec<V>,
    number: u64,
    max: u64,
    field: &Field<'a>,
) -> Result<bool, OutOfMemory>
    requires { number ≤ max }
    ensures { IfOk result
        (λ added. (if added then Some (map V.entry_of views.new.items) else None)
        ≡ entries_with V.entry_in number max (map V.entry_of views.old.items)
        (field_of field.now)) }
{
    let Some(octets) = field.octets() else {
        return Ok(field.number > max);
    };
    if field.number != number {
        return Ok(true);
    }
    let Some(view) = V::read(octets) else {
        return Ok(false);
    };
    views.push(view)?;
    Ok(true)
}

/// Reads the fields of a message, whose entries are those of one number.
pub(crate) fn read_list<'a, V: View<'a>>(
    alloc: Global,
    number: u64,
    max: u64,
    bytes: &'a [u8],
) -> Result<Option<Vec<V>>, OutOfMemory>
    requires { number ≤ max }
    ensures { IfOk result
        (λ o. option_map (λ v. map V.entry_of v.items) o
        ≡ entries_in V.entry_in number max bytes.now) }
{
    let mut views = Vec::new(alloc);
    let mut rest = bytes;
    while !rest.is_empty() {
        let Some((field, after)) = read_field(rest) else {
            return Ok(None);
        };
        if !add_entry(&mut views, number, max, &field)? {
            return Ok(None);
        }
        rest = after;
    }
    Ok(Some(views))
}

/// Returns a copy of each entry.
pub(crate) fn to_entries<'a, V: View<'a>>(
    alloc: Global,
    views: &[V],
) -> Result<List<V::Entry>, OutOfMemory>
where
    V::Entry: Drop,
    ensures { IfOk result (λ l. l ≡ map V.entry_of views.now) }
{
    let mut entries = Vec::with_capacity(alloc, views.len())?;
    for view in views {
        entries.push(view.to_entry(alloc)?)?;
    }
    Ok(List::new(entries))
}
