//! An X509SVID, a JWTSVID and an entry of a map of bundles, as slices of the message that holds
//! them.

use crate::message::{Message, read_onto, text};
use crate::named::Named;
use crate::view::View;
use crate::wire::Field;
use spf_api::{BundleEntry, BundleEntryView, JwtSvidEntry, SvidEntry, SvidEntryView};
use spf_io::{Bytes, OutOfMemory, Text};
use std::alloc::Global;

/// A JWTSVID, whose fields are slices of the message that was read.
#[derive(Clone, Copy)]
pub(crate) struct JwtSvidView<'a> {
    spiffe_id: &'a str,
    svid: &'a str,
    hint: &'a str,
}

impl<'a> Message<'a> for SvidEntryView<'a> {
    ghost use Rattle.spf_api.specs.Views.{svid_entry_of};
    ghost use Rattle.spf_messages.specs.Folded.{svid_with};

    type Entry = SvidEntry;

    ghost entry_of = { svid_entry_of };

    ghost with_field = { svid_with };

    #[tactic(auto, unfolding(crate::specs::Folded::svid_with))]
    fn with(&self, field: &Field<'a>) -> Option<SvidEntryView<'a>> {
        let Some(octets) = field.octets() else {
            return if field.number <= 5 { None } else { Some(*self) };
        };
        match field.number {
            1 => Some(SvidEntryView {
                spiffe_id: text(octets)?,
                ..*self
            }),
            2 => Some(SvidEntryView {
                x509_svid: octets,
                ..*self
            }),
            3 => Some(SvidEntryView {
                x509_svid_key: octets,
                ..*self
            }),
            4 => Some(SvidEntryView {
                bundle: octets,
                ..*self
            }),
            5 => Some(SvidEntryView {
                hint: text(octets)?,
                ..*self
            }),
            _ => Some(*self),
        }
    }
}

impl<'a> Message<'a> for BundleEntryView<'a> {
    ghost use Rattle.spf_api.specs.Views.{bundle_entry_of};
    ghost use Rattle.spf_messages.specs.Folded.{bundle_with};

    type Entry = BundleEntry;

    ghost entry_of = { bundle_entry_of };

    ghost with_field = { bundle_with };

    #[tactic(auto, unfolding(crate::specs::Folded::bundle_with))]
    fn with(&self, field: &Field<'a>) -> Option<BundleEntryView<'a>> {
        let Some(octets) = field.octets() else {
            return if field.number <= 2 { None } else { Some(*self) };
        };
        match field.number {
            1 => Some(BundleEntryView {
                name: text(octets)?,
                ..*self
            }),
            2 => Some(BundleEntryView {
                bundle: octets,
                ..*self
            }),
            _ => Some(*self),
        }
    }
}

impl<'a> Message<'a> for JwtSvidView<'a> {
    ghost use Rattle.spf_messages.specs.Members.{jwt_svid_of};
    ghost use Rattle.spf_messages.specs.Folded.{jwt_svid_with};

    type Entry = JwtSvidEntry;

    ghost entry_of = { jwt_svid_of };

    ghost with_field = { jwt_svid_with };

    #[tactic(auto, unfolding(crate::specs::Folded::jwt_svid_with))]
    fn with(&self, field: &Field<'a>) -> Option<JwtSvidView<'a>> {
        let Some(octets) = field.octets() else {
            return if field.number <= 3 { None } else { Some(*self) };
        };
        match field.number {
            1 => Some(JwtSvidView {
                spiffe_id: text(octets)?,
                ..*self
            }),
            2 => Some(JwtSvidView {
                svid: text(octets)?,
                ..*self
            }),
            3 => Some(JwtSvidView {
                hint: text(octets)?,
                ..*self
            }),
            _ => Some(*self),
        }
    }
}

impl<'a> View<'a> for SvidEntryView<'a> {
    ghost use Rattle.spf_api.specs.Views.{svid_entry_of};
    ghost use Rattle.spf_messages.specs.Message.{svid_message};

    type Entry = SvidEntry;

    ghost entry_of = { svid_entry_of };

    ghost entry_in = { svid_message };

    fn read(octets: &'a [u8]) -> Option<SvidEntryView<'a>> {
        let empty = SvidEntryView {
            spiffe_id: "",
            x509_svid: &[],
            x509_svid_key: &[],
            bundle: &[],
            hint: "",
        };
        read_onto(empty, octets)
    }

    fn to_entry(&self, alloc: Global) -> Result<SvidEntry, OutOfMemory> {
        Ok(SvidEntry {
            spiffe_id: Text::copy_of(alloc, self.spiffe_id)?,
            x509_svid: Bytes::copy_of(alloc, self.x509_svid)?,
            x509_svid_key: Bytes::copy_of(alloc, self.x509_svid_key)?,
            bundle: Bytes::copy_of(alloc, self.bundle)?,
            hint: Text::copy_of(alloc, self.hint)?,
        })
    }
}

impl<'a> View<'a> for BundleEntryView<'a> {
    ghost use Rattle.spf_api.specs.Views.{bundle_entry_of};
    ghost use Rattle.spf_messages.specs.Message.{bundle_message};

    type Entry = BundleEntry;

    ghost entry_of = { bundle_entry_of };

    ghost entry_in = { bundle_message };

    fn read(octets: &'a [u8]) -> Option<BundleEntryView<'a>> {
        let empty = BundleEntryView {
            name: "",
            bundle: &[],
        };
        read_onto(empty, octets)
    }

    fn to_entry(&self, alloc: Global) -> Result<BundleEntry, OutOfMemory> {
        Ok(BundleEntry {
            name: Text::copy_of(alloc, self.name)?,
            bundle: Bytes::copy_of(alloc, self.bundle)?,
        })
    }
}

impl<'a> View<'a> for JwtSvidView<'a> {
    ghost use Rattle.spf_messages.specs.Members.{jwt_svid_of};
    ghost use Rattle.spf_messages.specs.Message.{jwt_svid_message};

    type Entry = JwtSvidEntry;

    ghost entry_of = { jwt_svid_of };

    ghost entry_in = { jwt_svid_message };

    fn read(octets: &'a [u8]) -> Option<JwtSvidView<'a>> {
        let empty = JwtSvidView {
            spiffe_id: "",
            svid: "",
            hint: "",
        };
        read_onto(empty, octets)
    }

    fn to_entry(&self, alloc: Global) -> Result<JwtSvidEntry, OutOfMemory> {
        Ok(JwtSvidEntry {
            spiffe_id: Text::copy_of(alloc, self.spiffe_id)?,
            svid: Text::copy_of(alloc, self.svid)?,
            hint: Text::copy_of(alloc, self.hint)?,
        })
    }
}

impl<'a> View<'a> for &'a [u8] {
    ghost use Rattle.std.specs.Prelude.{Some};
    ghost use Rattle.spf_api.specs.Views.{octets_of};

    type Entry = Bytes;

    ghost entry_of = { octets_of };

    ghost entry_in = { λ octets. Some octets };

    fn read(octets: &'a [u8]) -> Option<&'a [u8]> {
        Some(octets)
    }

    fn to_entry(&self, alloc: Global) -> Result<Bytes, OutOfMemory> {
        Bytes::copy_of(alloc, self)
    }
}

impl<'a> Named<'a> for BundleEntryView<'a> {
    ghost use Rattle.spf_api.specs.Views.{bundle_entry_of};
    ghost use Rattle.spf_messages.specs.Message.{bundle_name};

    type Entry = BundleEntry;

    ghost entry_of = { bundle_entry_of };

    ghost name_of = { bundle_name };

    fn name(&self) -> &'a str {
        self.name
    }
}
