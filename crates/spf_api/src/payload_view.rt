//! The payload of a context response, read in one pass as slices of it.

ghost use Rattle.std.specs.Prelude.{◌≡◌, IfOk};
ghost use Rattle.std.specs.Option.{option_map};
ghost use Rattle.spf_api.specs.Views.{context_of};
ghost use Rattle.spf_api.specs.Payload.{Finds};
ghost use Rattle.spf_api.specs.declared.response.Response.TheVariants as response;
ghost use Rattle.spf_api.specs.declared.response.ResponseKind.TheVariants as kind;
ghost use Rattle.spf_api.specs.Reading.{context_at};

use crate::entry::{EntryView, read_entries};
use crate::layout::{read_byte_field, read_text_field};
use crate::response::{BundleEntry, BundleEntryView, ContextView, SvidEntry, SvidEntryView};
use spf_io::{Bytes, List, OutOfMemory, Text};
use std::alloc::Global;

impl<'a> EntryView<'a> for SvidEntryView<'a> {
    ghost use Rattle.spf_api.specs.Views.{svid_entry_of};
    ghost use Rattle.spf_api.specs.Reading.{svid_entry_at};

    type Entry = SvidEntry;

    ghost entry_of = { svid_entry_of };

    ghost entry_at = { svid_entry_at };

    #[tactic(auto, unfolding(crate::specs::Reading::svid_entry_at))]
    fn read(bytes: &'a [u8]) -> Option<(SvidEntryView<'a>, &'a [u8])> {
        let (spiffe_id, rest) = read_text_field(bytes)?;
        let (x509_svid, rest) = read_byte_field(rest)?;
        let (x509_svid_key, rest) = read_byte_field(rest)?;
        let (bundle, rest) = read_byte_field(rest)?;
        let (hint, rest) = read_text_field(rest)?;
        let entry = SvidEntryView {
            spiffe_id,
            x509_svid,
            x509_svid_key,
            bundle,
            hint,
        };
        Some((entry, rest))
    }

    fn of(entry: &'a SvidEntry) -> SvidEntryView<'a> {
        SvidEntryView {
            spiffe_id: entry.spiffe_id.as_str(),
            x509_svid: entry.x509_svid.as_slice(),
            x509_svid_key: entry.x509_svid_key.as_slice(),
            bundle: entry.bundle.as_slice(),
            hint: entry.hint.as_str(),
        }
    }

    fn to_entry(&self, alloc: Global) -> Result<SvidEntry, OutOfMemory> {
        Ok(SvidEntry {
            spiffe_id: Text::copy_of(alloc, self.spiffe_id)?,
            x509_svid: Bytes::copy_of(alloc, self.x509_svid)?,
            x509_svid_key: Bytes::copy_of(alloc, self.x509_svid_key)?,
            bundle: Bytes::copy_of(alloc, self.bundle)?,
            hint: Text::copy_of(alloc, self.hint)?,
        })
    }
}

impl<'a> EntryView<'a> for BundleEntryView<'a> {
    ghost use Rattle.spf_api.specs.Views.{bundle_entry_of};
    ghost use Rattle.spf_api.specs.Reading.{bundle_entry_at};

    type Entry = BundleEntry;

    ghost entry_of = { bundle_entry_of };

    ghost entry_at = { bundle_entry_at };

    #[tactic(auto, unfolding(crate::specs::Reading::bundle_entry_at))]
    #[inline(always)]
    fn read(bytes: &'a [u8]) -> Option<(BundleEntryView<'a>, &'a [u8])> {
        let (name, rest) = read_text_field(bytes)?;
        let (bundle, rest) = read_byte_field(rest)?;
        Some((BundleEntryView { name, bundle }, rest))
    }

    fn of(entry: &'a BundleEntry) -> BundleEntryView<'a> {
        BundleEntryView {
            name: entry.name.as_str(),
            bundle: entry.bundle.as_slice(),
        }
    }

    fn to_entry(&self, alloc: Global) -> Result<BundleEntry, OutOfMemory> {
        Ok(BundleEntry {
            name: Text::copy_of(alloc, self.name)?,
            bundle: Bytes::copy_of(alloc, self.bundle)?,
        })
    }
}

impl<'a> EntryView<'a> for &'a [u8] {
    ghost use Rattle.spf_api.specs.Views.{octets_of};
    ghost use Rattle.spf_api.specs.Reading.{byte_field_at};

    type Entry = Bytes;

    ghost entry_of = { octets_of };

    ghost entry_at = { byte_field_at };

    fn read(bytes: &'a [u8]) -> Option<(&'a [u8], &'a [u8])> {
        read_byte_field(bytes)
    }

    fn of(entry: &'a Bytes) -> &'a [u8] {
        entry.as_slice()
    }

    fn to_entry(&self, alloc: Global) -> Result<Bytes, OutOfMemory> {
        Bytes::copy_of(alloc, self)
    }
}

#[tactic(auto, unfolding(crate::specs::Reading::context_at))]
fn context<'a>(alloc: Global, payload: &'a [u8]) -> Result<Option<ContextView<'a>>, OutOfMemory>
    ensures { IfOk result (λ o. option_map context_of o ≡ context_at payload.now) }
{
    let Some((svids, rest)) = read_entries::<SvidEntryView<'a>>(alloc, payload)? else {
        return Ok(None);
    };
    let Some((federated, rest)) = read_entries::<BundleEntryView<'a>>(alloc, rest)? else {
        return Ok(None);
    };
    let Some((crls, rest)) = read_entries::<&'a [u8]>(alloc, rest)? else {
        return Ok(None);
    };
    if !rest.is_empty() {
        return Ok(None);
    }
    Ok(Some(ContextView {
        svids: List::new(svids),
        federated: List::new(federated),
        crls: List::new(crls),
    }))
}

/// Returns the context response that the payload lays
/// out, as slices of it, and None where it lays out none.
pub fn read_context_view<'a>(
    alloc: Global,
    payload: &'a [u8],
) -> Result<Option<ContextView<'a>>, OutOfMemory>
    ensures exact { IfOk result (λ o. option_map context_of o ≡ context_at payload.now) }
    ensures laid { IfOk result
        (λ o. Finds kind.Context payload.now
        (option_map response.Context (option_map context_of o))) }
{
    context(alloc, payload)
}
