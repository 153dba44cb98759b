//! Writing entries and lists of them.

ghost use Rattle.std.specs.Prelude.{◌≡◌, ◌++◌, ℕ, List as Members, OnOk};
ghost use Rattle.spf_api.specs.Layout.{IsListOf, IsContext, list_text, context_payload};

use crate::layout::{put_bytes, put_number, put_text};
use crate::response::{BundleEntry, ContextResponse, JwtSvidEntry, SvidEntry};
use spf_io::{Bytes, OutOfMemory};

/// A kind of entry that can be written.
pub(crate) trait PutEntry {
    ghost text: { Self → Members ℕ };

    ghost fits: { Self → Type 0 };

    /// Appends the text of the entry.
    fn put(&self, out: &mut Vec<u8>) -> Result<(), OutOfMemory>
        ensures fits { OnOk result (fits self.now) }
        ensures octets { OnOk result (out.new.items ≡ out.old.items ++ text self.now) };
}

/// Appends the count of the entries, and each of them.
#[tactic(auto, unfolding(crate::specs::Layout::list_text))]
pub(crate) fn put_list<E: PutEntry>(out: &mut Vec<u8>, entries: &[E]) -> Result<(), OutOfMemory>
    ensures fits { OnOk result (IsListOf E.fits entries.now) }
    ensures octets { OnOk result (out.new.items ≡ out.old.items ++ list_text E.text entries.now) }
{
    put_number(out, entries.len())?;
    for entry in entries {
        entry.put(out)?;
    }
    Ok(())
}

impl PutEntry for SvidEntry {
    ghost use Rattle.spf_api.specs.Layout.{IsSvidEntry, svid_entry_text};

    ghost text = { svid_entry_text };

    ghost fits = { IsSvidEntry };

    #[tactic(auto, unfolding(crate::specs::Layout::svid_entry_text))]
    fn put(&self, out: &mut Vec<u8>) -> Result<(), OutOfMemory> {
        put_text(out, &self.spiffe_id)?;
        put_bytes(out, self.x509_svid.as_slice())?;
        put_bytes(out, self.x509_svid_key.as_slice())?;
        put_bytes(out, self.bundle.as_slice())?;
        put_text(out, &self.hint)?;
        Ok(())
    }
}

impl PutEntry for BundleEntry {
    ghost use Rattle.spf_api.specs.Layout.{IsBundleEntry, bundle_entry_text};

    ghost text = { bundle_entry_text };

    ghost fits = { IsBundleEntry };

    #[tactic(auto, unfolding(crate::specs::Layout::bundle_entry_text))]
    fn put(&self, out: &mut Vec<u8>) -> Result<(), OutOfMemory> {
        put_text(out, &self.name)?;
        put_bytes(out, self.bundle.as_slice())?;
        Ok(())
    }
}

impl PutEntry for Bytes {
    ghost use Rattle.spf_api.specs.Layout.{HasLength32, field_text};

    ghost text = { field_text };

    ghost fits = { λ b. HasLength32 b };

    fn put(&self, out: &mut Vec<u8>) -> Result<(), OutOfMemory> {
        put_bytes(out, self.as_slice())?;
        Ok(())
    }
}

impl PutEntry for JwtSvidEntry {
    ghost use Rattle.spf_api.specs.Layout.{IsJwtSvidEntry, jwt_svid_entry_text};

    ghost text = { jwt_svid_entry_text };

    ghost fits = { IsJwtSvidEntry };

    #[tactic(auto, unfolding(crate::specs::Layout::jwt_svid_entry_text))]
    fn put(&self, out: &mut Vec<u8>) -> Result<(), OutOfMemory> {
        put_text(out, &self.spiffe_id)?;
        put_text(out, &self.svid)?;
        put_text(out, &self.hint)?;
        Ok(())
    }
}

#[tactic(auto, unfolding(crate::specs::Layout::context_payload))]
pub(crate) fn put_context(out: &mut Vec<u8>, context: &ContextResponse) -> Result<(), OutOfMemory>
    ensures fits { OnOk result (IsContext context.now) }
    ensures octets { OnOk result (out.new.items ≡ out.old.items ++ context_payload context.now) }
{
    put_list(out, context.svids.as_slice())?;
    put_list(out, context.federated.as_slice())?;
    put_list(out, context.crls.as_slice())?;
    Ok(())
}
