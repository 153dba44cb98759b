//! Messages whose fields replace one another: of each number the last stands.

ghost use Rattle.std.specs.Prelude.{◌≡◌, Option, Some, None, if◌then◌else◌};
ghost use Rattle.std.specs.Str.{is_utf8};
ghost use Rattle.std.specs.Option.{option_map};
ghost use Rattle.spf_proto.specs.Wire.{WireField, field_of};
ghost use Rattle.spf_api.specs.Views.{bundle_entry_of, svid_entry_of};
ghost use Rattle.spf_proto.specs.Message.{bundle_message, svid_message};
ghost use Rattle.spf_proto.specs.Folded.{message_from};

use crate::wire::{Field, read_field};
use spf_api::{BundleEntryView, SvidEntryView};

/// The text of octets in UTF-8.
fn text(octets: &[u8]) -> Option<&str>
    ensures { option_map (λ t. t.now) result
        ≡ (if is_utf8 octets.now then Some octets.now else None) }
{
    match str::from_utf8(octets) {
        Ok(text) => Some(text),
        Err(_) => None,
    }
}

/// A message that is read field by field.
pub(crate) trait Message<'a>: Copy {
    /// The message itself.
    type Entry;

    ghost entry_of: { Self → Self.Entry };

    ghost with_field: { Self.Entry → WireField → Option Self.Entry };

    /// Returns the message with one more field, and None where that field is not allowed.
    fn with(&self, field: &Field<'a>) -> Option<Self>
        ensures { option_map entry_of result
            ≡ with_field (entry_of self.now) (field_of field.now) };
}

/// Reads the fields of a message, one after another.
pub(crate) fn read_onto<'a, M: Message<'a>>(start: M, bytes: &'a [u8]) -> Option<M>
    ensures { option_map M.entry_of result
        ≡ message_from M.with_field (M.entry_of start) bytes.now }
{
    let mut message = start;
    let mut rest = bytes;
    while !rest.is_empty() {
        let (field, after) = read_field(rest)?;
        message = message.with(&field)?;
        rest = after;
    }
    Some(message)
}

impl<'a> Message<'a> for SvidEntryView<'a> {
    ghost use Rattle.spf_api.specs.Views.{svid_entry_of};
    ghost use Rattle.spf_proto.specs.Folded.{svid_with};

    type Entry = spf_api::SvidEntry;

    ghost entry_of = { svid_entry_of };

    ghost with_field = { svid_with };

    #[tactic(auto, unfolding(crate::specs::Folded::svid_with))]
    fn with(&self, field: &Field<'a>) -> Option<SvidEntryView<'a>> {
        let Some(octets) = field.octets else {
            return if field.number <= 5 { None } else { Some(*self) };
        };
        match field.number {
            1 => Some(SvidEntryView {
                spiffe_id: text(octets)?,
                ..*self
            }),
            2 => Some(SvidEntryView {
                x509_svid: octets,
                ..*self
            }),
            3 => Some(SvidEntryView {
                x509_svid_key: octets,
                ..*self
            }),
            4 => Some(SvidEntryView {
                bundle: octets,
                ..*self
            }),
            5 => Some(SvidEntryView {
                hint: text(octets)?,
                ..*self
            }),
            _ => Some(*self),
        }
    }
}

impl<'a> Message<'a> for BundleEntryView<'a> {
    ghost use Rattle.spf_api.specs.Views.{bundle_entry_of};
    ghost use Rattle.spf_proto.specs.Folded.{bundle_with};

    type Entry = spf_api::BundleEntry;

    ghost entry_of = { bundle_entry_of };

    ghost with_field = { bundle_with };

    #[tactic(auto, unfolding(crate::specs::Folded::bundle_with))]
    fn with(&self, field: &Field<'a>) -> Option<BundleEntryView<'a>> {
        let Some(octets) = field.octets else {
            return if field.number <= 2 { None } else { Some(*self) };
        };
        match field.number {
            1 => Some(BundleEntryView {
                name: text(octets)?,
                ..*self
            }),
            2 => Some(BundleEntryView {
                bundle: octets,
                ..*self
            }),
            _ => Some(*self),
        }
    }
}

/// Reads an X509SVID message.
pub(crate) fn read_svid(bytes: &[u8]) -> Option<SvidEntryView<'_>>
    ensures { option_map svid_entry_of result ≡ svid_message bytes.now }
{
    let empty = SvidEntryView {
        spiffe_id: "",
        x509_svid: &[],
        x509_svid_key: &[],
        bundle: &[],
        hint: "",
    };
    read_onto(empty, bytes)
}

/// Reads an entry of the map of federated bundles.
pub(crate) fn read_bundle(bytes: &[u8]) -> Option<BundleEntryView<'_>>
    ensures { option_map bundle_entry_of result ≡ bundle_message bytes.now }
{
    let empty = BundleEntryView {
        name: "",
        bundle: &[],
    };
    read_onto(empty, bytes)
}
