//! Entries with names: of those with one name the last stands.

ghost use Rattle.std.specs.Prelude.{◌≡◌, ℕ, List as Members, map, IfOk, OnOk};
ghost use Rattle.spf_messages.specs.Message.{last_of_each};
ghost use Rattle.spf_messages.specs.Members.{KeptWith};

use spf_io::OutOfMemory;
use std::alloc::Global;
use std::collections::BTreeSet;

/// A view of an entry that has a name.
pub(crate) trait Named<'a>: Drop {
    /// The entry itself.
    type Entry;

    ghost entry_of: { Self → Self.Entry };

    ghost name_of: { Self.Entry → Members ℕ };

    fn name(&self) -> &'a str
        ensures { result.now ≡ name_of (entry_of self.now) };
}

/// Keeps an entry unless one of its name was met before.
fn keep<'a, V: Drop>(
    kept: &mut Vec<V>,
    names: &mut BTreeSet<&'a str>,
    name: &'a str,
    entry: V,
) -> Result<(), OutOfMemory>
    ensures { OnOk result (KeptWith name.entry entry kept.old.items kept.new.items names.old
        names.new) }
{
    if names.insert(name)? {
        kept.push(entry)?;
    }
    Ok(())
}

/// Returns the entries after which there is none of the same name, in order.
fn last_of_each<'a, V: Named<'a>>(alloc: Global, entries: Vec<V>) -> Result<Vec<V>, OutOfMemory>
    ensures { IfOk result
        (λ v. map V.entry_of v.items ≡ last_of_each V.name_of (map V.entry_of entries.items)) }
{
    let mut left = entries;
    let mut kept = Vec::new(alloc);
    let mut names = BTreeSet::new(alloc);
    while let Some(entry) = left.pop() {
        let name = entry.name();
        keep(&mut kept, &mut names, name, entry)?;
    }
    kept.reverse();
    Ok(kept)
}

/// The same of a list that may be handed on as it is.
pub(crate) fn without_repeats<'a, V: Named<'a>>(
    alloc: Global,
    entries: Vec<V>,
) -> Result<Vec<V>, OutOfMemory>
    ensures { IfOk result
        (λ v. map V.entry_of v.items ≡ last_of_each V.name_of (map V.entry_of entries.items)) }
{
    if entries.len() < 2 {
        return Ok(entries);
    }
    last_of_each(alloc, entries)
}
