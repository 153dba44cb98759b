//! The payload of a frame that holds an update, written from a view of it.

ghost use Rattle.std.specs.Prelude.{◌≡◌, ◌<◌, ◌^◌, ◌++◌, ℕ, List as Members, OnOk, map};
ghost use Rattle.std.specs.Int.{w32, to_be_bytes};
ghost use Rattle.spf_api.specs.Views.{context_of};
ghost use Rattle.spf_proto.specs.Payloads.{HasLength32, IsText, IsListOf, IsContext, field_text};
ghost use Rattle.spf_proto.specs.Payloads.{list_text, context_payload};

use spf_api::{BundleEntryView, ContextView, SvidEntryView};
use spf_io::OutOfMemory;

/// Appends a length or a count. One that four octets cannot hold counts as out of memory.
fn put_number(out: &mut Vec<u8>, number: usize) -> Result<(), OutOfMemory>
    ensures short { OnOk result (number < 2 ^ 32) }
    ensures octets { OnOk result (out.new.items ≡ out.old.items ++ to_be_bytes w32 number) }
{
    let Ok(number) = u32::try_from(number) else {
        return Err(OutOfMemory);
    };
    out.extend_from_slice(&number.to_be_bytes())?;
    Ok(())
}

/// Appends a byte field.
#[tactic(auto, unfolding(crate::specs::Payloads::field_text))]
pub(crate) fn put_bytes(out: &mut Vec<u8>, octets: &[u8]) -> Result<(), OutOfMemory>
    ensures short { OnOk result (HasLength32 octets.now) }
    ensures octets { OnOk result (out.new.items ≡ out.old.items ++ field_text octets.now) }
{
    put_number(out, octets.len())?;
    out.extend_from_slice(octets)?;
    Ok(())
}

/// Appends a text field.
fn put_text(out: &mut Vec<u8>, text: &str) -> Result<(), OutOfMemory>
    ensures fits { OnOk result (IsText text.now) }
    ensures octets { OnOk result (out.new.items ≡ out.old.items ++ field_text text.now) }
{
    put_bytes(out, text.as_bytes())
}

/// A view of an entry that can be written.
trait PutView {
    /// The entry itself.
    type Entry;

    ghost entry_of: { Self → Self.Entry };

    ghost text: { Self.Entry → Members ℕ };

    ghost fits: { Self.Entry → Type 0 };

    /// Appends the text of the entry.
    fn put(&self, out: &mut Vec<u8>) -> Result<(), OutOfMemory>
        ensures fits { OnOk result (fits (entry_of self.now)) }
        ensures octets { OnOk result (out.new.items ≡ out.old.items ++ text (entry_of self.now)) };
}

/// Appends the count of the entries, and each of them.
fn put_list<V: PutView>(out: &mut Vec<u8>, views: &[V]) -> Result<(), OutOfMemory>
    ensures fits { OnOk result (IsListOf V.fits (map V.entry_of views.now)) }
    ensures octets { OnOk result
        (out.new.items ≡ out.old.items ++ list_text V.text (map V.entry_of views.now)) }
{
    put_number(out, views.len())?;
    for view in views {
        view.put(out)?;
    }
    Ok(())
}

impl<'a> PutView for SvidEntryView<'a> {
    ghost use Rattle.spf_api.specs.Views.{svid_entry_of};
    ghost use Rattle.spf_proto.specs.Payloads.{IsSvidEntry, svid_entry_text};

    type Entry = spf_api::SvidEntry;

    ghost entry_of = { svid_entry_of };

    ghost text = { svid_entry_text };

    ghost fits = { IsSvidEntry };

    #[tactic(auto, unfolding(crate::specs::Payloads::svid_entry_text))]
    fn put(&self, out: &mut Vec<u8>) -> Result<(), OutOfMemory> {
        put_text(out, self.spiffe_id)?;
        put_bytes(out, self.x509_svid)?;
        put_bytes(out, self.x509_svid_key)?;
        put_bytes(out, self.bundle)?;
        put_text(out, self.hint)?;
        Ok(())
    }
}

impl<'a> PutView for BundleEntryView<'a> {
    ghost use Rattle.spf_api.specs.Views.{bundle_entry_of};
    ghost use Rattle.spf_proto.specs.Payloads.{IsBundleEntry, bundle_entry_text};

    type Entry = spf_api::BundleEntry;

    ghost entry_of = { bundle_entry_of };

    ghost text = { bundle_entry_text };

    ghost fits = { IsBundleEntry };

    #[tactic(auto, unfolding(crate::specs::Payloads::bundle_entry_text))]
    fn put(&self, out: &mut Vec<u8>) -> Result<(), OutOfMemory> {
        put_text(out, self.name)?;
        put_bytes(out, self.bundle)?;
        Ok(())
    }
}

impl<'a> PutView for &'a [u8] {
    ghost use Rattle.spf_api.specs.Views.{octets_of};
    ghost use Rattle.spf_proto.specs.Payloads.{HasLength32, field_text};

    type Entry = spf_io::Bytes;

    ghost entry_of = { octets_of };

    ghost text = { field_text };

    ghost fits = { λ b. HasLength32 b };

    fn put(&self, out: &mut Vec<u8>) -> Result<(), OutOfMemory> {
        put_bytes(out, self)?;
        Ok(())
    }
}

/// Appends the payload of the update that the view holds.
#[tactic(auto, unfolding(crate::specs::Payloads::context_payload))]
pub(crate) fn put_context(out: &mut Vec<u8>, view: &ContextView<'_>) -> Result<(), OutOfMemory>
    ensures fits { OnOk result (IsContext (context_of view.now)) }
    ensures octets { OnOk result
        (out.new.items ≡ out.old.items ++ context_payload (context_of view.now)) }
{
    put_list(out, view.svids.as_slice())?;
    put_list(out, view.federated.as_slice())?;
    put_list(out, view.crls.as_slice())?;
    Ok(())
}
