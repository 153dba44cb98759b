//! X509SVIDResponse messages, read in one pass as slices of them.

ghost use Rattle.std.specs.Prelude.{◌≡◌, Some, None, if◌then◌else◌, IfOk};
ghost use Rattle.spf_api.specs.Views.{context_of};
ghost use Rattle.std.specs.Option.{option_map};
ghost use Rattle.spf_messages.specs.Wire.{field_of};
ghost use Rattle.spf_messages.specs.Folded.{context_with};
ghost use Rattle.spf_messages.specs.Message.{context_members, context_message};
ghost use Rattle.spf_messages.specs.Members.{shown};

use crate::named::without_repeats;
use crate::view::{View, to_entries};
use crate::wire::{Field, read_field};
use spf_api::{BundleEntryView, ContextResponse, ContextView, SvidEntryView};
use spf_io::{List, OutOfMemory};
use std::alloc::Global;

/// The members of a response, as far as its fields are read.
#[derive(Drop)]
struct Members<'a> {
    svids: Vec<SvidEntryView<'a>>,
    federated: Vec<BundleEntryView<'a>>,
    crls: Vec<&'a [u8]>,
}

impl<'a> Members<'a> {
    /// Adds what a field holds. Returns false where that field is not allowed.
    #[tactic(auto, unfolding(crate::specs::Folded::context_with))]
    fn add(&mut self, field: &Field<'a>) -> Result<bool, OutOfMemory>
        ensures { IfOk result
            (λ added. (if added then Some (shown self.new) else None)
            ≡ context_with (shown self.old) (field_of field.now)) }
    {
        let Some(octets) = field.octets() else {
            return Ok(field.number > 3);
        };
        match field.number {
            1 => {
                let Some(svid) = SvidEntryView::read(octets) else {
                    return Ok(false);
                };
                self.svids.push(svid)?;
            }
            2 => self.crls.push(octets)?,
            3 => {
                let Some(bundle) = BundleEntryView::read(octets) else {
                    return Ok(false);
                };
                self.federated.push(bundle)?;
            }
            _ => {}
        }
        Ok(true)
    }
}

/// Reads the fields of a message, one after another.
fn read_members<'a>(alloc: Global, bytes: &'a [u8]) -> Result<Option<Members<'a>>, OutOfMemory>
    ensures { IfOk result (λ o. option_map shown o ≡ context_members bytes.now) }
{
    let mut members = Members {
        svids: Vec::new(alloc),
        federated: Vec::new(alloc),
        crls: Vec::new(alloc),
    };
    let mut rest = bytes;
    while !rest.is_empty() {
        let Some((field, after)) = read_field(rest) else {
            return Ok(None);
        };
        if !members.add(&field)? {
            return Ok(None);
        }
        rest = after;
    }
    Ok(Some(members))
}

/// Reads an X509SVIDResponse, as slices of it. Returns None where the bytes are none.
#[tactic(auto, unfolding(crate::specs::Message::context_message))]
pub fn read_context_message<'a>(
    alloc: Global,
    bytes: &'a [u8],
) -> Result<Option<ContextView<'a>>, OutOfMemory>
    ensures exact { IfOk result (λ o. option_map context_of o ≡ context_message bytes.now) }
{
    let Some(members) = read_members(alloc, bytes)? else {
        return Ok(None);
    };
    Ok(Some(ContextView {
        federated: List::new(without_repeats(alloc, members.federated)?),
        svids: List::new(members.svids),
        crls: List::new(members.crls),
    }))
}

/// Returns a copy of the response.
pub(crate) fn to_context(
    alloc: Global,
    view: &ContextView<'_>,
) -> Result<ContextResponse, OutOfMemory>
    ensures { IfOk result (λ r. r ≡ context_of view.now) }
{
    Ok(ContextResponse {
        svids: to_entries(alloc, view.svids.as_slice())?,
        federated: to_entries(alloc, view.federated.as_slice())?,
        crls: to_entries(alloc, view.crls.as_slice())?,
    })
}
