//! The payload of a JWT SVID response.

ghost use Rattle.std.specs.Prelude.{◌≡◌, IfOk};
ghost use Rattle.std.specs.Option.{option_map};
ghost use Rattle.spf_api.specs.Reading.{jwt_svids_at};

use crate::entry::{EntryView, read_entries, to_entries};
use crate::layout::read_text_field;
use crate::response::{JwtSvidEntry, JwtSvidsResponse};
use spf_io::{OutOfMemory, Text};
use std::alloc::Global;

/// A JWT SVID entry, whose fields are slices of the payload that was read.
#[derive(Clone, Copy)]
struct JwtSvidEntryView<'a> {
    spiffe_id: &'a str,
    svid: &'a str,
    hint: &'a str,
}

impl<'a> EntryView<'a> for JwtSvidEntryView<'a> {
    ghost use Rattle.spf_api.specs.Views.{jwt_svid_entry_of};
    ghost use Rattle.spf_api.specs.Reading.{jwt_svid_entry_at};

    type Entry = JwtSvidEntry;

    ghost entry_of = { jwt_svid_entry_of };

    ghost entry_at = { jwt_svid_entry_at };

    #[tactic(auto, unfolding(crate::specs::Reading::jwt_svid_entry_at))]
    fn read(bytes: &'a [u8]) -> Option<(JwtSvidEntryView<'a>, &'a [u8])> {
        let (spiffe_id, rest) = read_text_field(bytes)?;
        let (svid, rest) = read_text_field(rest)?;
        let (hint, rest) = read_text_field(rest)?;
        let entry = JwtSvidEntryView {
            spiffe_id,
            svid,
            hint,
        };
        Some((entry, rest))
    }

    fn of(entry: &'a JwtSvidEntry) -> JwtSvidEntryView<'a> {
        JwtSvidEntryView {
            spiffe_id: entry.spiffe_id.as_str(),
            svid: entry.svid.as_str(),
            hint: entry.hint.as_str(),
        }
    }

    fn to_entry(&self, alloc: Global) -> Result<JwtSvidEntry, OutOfMemory> {
        Ok(JwtSvidEntry {
            spiffe_id: Text::copy_of(alloc, self.spiffe_id)?,
            svid: Text::copy_of(alloc, self.svid)?,
            hint: Text::copy_of(alloc, self.hint)?,
        })
    }
}

/// Returns the JWT SVID response that the payload lays out, and None where it lays out none.
#[tactic(auto, unfolding(crate::specs::Reading::jwt_svids_at))]
pub(crate) fn jwt_svids(
    alloc: Global,
    payload: &[u8],
) -> Result<Option<JwtSvidsResponse>, OutOfMemory>
    ensures { IfOk result (λ o. option_map (λ r. r.svids) o ≡ jwt_svids_at payload.now) }
{
    let Some((views, rest)) = read_entries::<JwtSvidEntryView<'_>>(alloc, payload)? else {
        return Ok(None);
    };
    if !rest.is_empty() {
        return Ok(None);
    }
    Ok(Some(JwtSvidsResponse {
        svids: to_entries(alloc, views.as_slice())?,
    }))
}
