//! X509SVIDResponse messages of the SPIFFE Workload API, read in one pass as slices of them.

ghost use Rattle.std.specs.Prelude.{◌≡◌, Some, None, if◌then◌else◌, map, IfOk, OnOk};
ghost use Rattle.spf_api.specs.Views.{bundle_entry_of, context_of};
ghost use Rattle.std.specs.Option.{option_map};
ghost use Rattle.spf_proto.specs.Wire.{field_of};
ghost use Rattle.spf_proto.specs.Folded.{context_with};
ghost use Rattle.spf_proto.specs.Message.{context_members, context_message, last_of_each};
ghost use Rattle.spf_proto.specs.Members.{KeptWith, shown};

use crate::entry::{read_bundle, read_svid};
use crate::wire::{Field, read_field};
use spf_api::{BundleEntryView, ContextView, SvidEntryView};
use spf_io::{List, OutOfMemory};
use std::alloc::Global;
use std::collections::BTreeSet;

/// The members of a response, as far as its fields are read.
#[derive(Drop)]
struct Members<'a> {
    svids: Vec<SvidEntryView<'a>>,
    federated: Vec<BundleEntryView<'a>>,
    crls: Vec<&'a [u8]>,
}

impl<'a> Members<'a> {
    /// Adds what a field holds. Returns false where that field is not allowed.
    #[tactic(auto, unfolding(crate::specs::Folded::context_with))]
    fn add(&mut self, field: &Field<'a>) -> Result<bool, OutOfMemory>
        ensures { IfOk result
            (λ added. (if added then Some (shown self.new) else None)
            ≡ context_with (shown self.old) (field_of field.now)) }
    {
        let Some(octets) = field.octets else {
            return Ok(field.number > 3);
        };
        match field.number {
            1 => {
                let Some(svid) = read_svid(octets) else {
                    return Ok(false);
                };
                self.svids.push(svid)?;
            }
            2 => self.crls.push(octets)?,
            3 => {
                let Some(bundle) = read_bundle(octets) else {
                    return Ok(false);
                };
                self.federated.push(bundle)?;
            }
            _ => {}
        }
        Ok(true)
    }
}

/// Reads the fields of a message, one after another.
fn read_members<'a>(alloc: Global, bytes: &'a [u8]) -> Result<Option<Members<'a>>, OutOfMemory>
    ensures { IfOk result (λ o. option_map shown o ≡ context_members bytes.now) }
{
    let mut members = Members {
        svids: Vec::new(alloc),
        federated: Vec::new(alloc),
        crls: Vec::new(alloc),
    };
    let mut rest = bytes;
    while !rest.is_empty() {
        let Some((field, after)) = read_field(rest) else {
            return Ok(None);
        };
        if !members.add(&field)? {
            return Ok(None);
        }
        rest = after;
    }
    Ok(Some(members))
}

/// Keeps an entry unless one of its name was met before.
fn keep<'a>(
    kept: &mut Vec<BundleEntryView<'a>>,
    names: &mut BTreeSet<&'a str>,
    entry: BundleEntryView<'a>,
) -> Result<(), OutOfMemory>
    ensures { OnOk result (KeptWith entry.entry kept.old.items kept.new.items names.old names.new) }
{
    if names.insert(entry.name)? {
        kept.push(entry)?;
    }
    Ok(())
}

/// Returns the entries after which there is none of the same name, in order.
fn last_of_each<'a>(
    alloc: Global,
    entries: &[BundleEntryView<'a>],
) -> Result<Vec<BundleEntryView<'a>>, OutOfMemory>
    ensures { IfOk result
        (λ v. map bundle_entry_of v.items ≡ last_of_each (map bundle_entry_of entries.now)) }
{
    let mut kept = Vec::new(alloc);
    let mut names = BTreeSet::new(alloc);
    for entry in entries.iter().rev() {
        keep(&mut kept, &mut names, *entry)?;
    }
    kept.reverse();
    Ok(kept)
}

/// The same of a list that may be handed on as it is.
fn without_repeats<'a>(
    alloc: Global,
    entries: Vec<BundleEntryView<'a>>,
) -> Result<Vec<BundleEntryView<'a>>, OutOfMemory>
    ensures { IfOk result
        (λ v. map bundle_entry_of v.items
        ≡ last_of_each (map bundle_entry_of entries.entry.items)) }
{
    if entries.len() < 2 {
        return Ok(entries);
    }
    last_of_each(alloc, entries.as_slice())
}

/// Reads a message. Returns None where the bytes are not one.
#[tactic(auto, unfolding(crate::specs::Message::context_message))]
pub fn read_message<'a>(
    alloc: Global,
    bytes: &'a [u8],
) -> Result<Option<ContextView<'a>>, OutOfMemory>
    ensures exact { IfOk result (λ o. option_map context_of o ≡ context_message bytes.now) }
{
    let Some(members) = read_members(alloc, bytes)? else {
        return Ok(None);
    };
    Ok(Some(ContextView {
        federated: List::new(without_repeats(alloc, members.federated)?),
        svids: List::new(members.svids),
        crls: List::new(members.crls),
    }))
}
