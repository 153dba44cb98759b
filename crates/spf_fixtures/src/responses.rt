//! Responses that are built of the names of the fixtures.

use crate::names::octets;
use spf_api::{BundleEntry, ContextResponse, SvidEntry};
use spf_io::{Bytes, List, Text};
use std::alloc::Global;
use std::test::Fail;

/// An SVID entry whose chain is LEAF1.
#[derive(Clone, Copy)]
pub struct SvidRow<'a> {
    pub spiffe_id: &'a str,
    /// The octets of the key, as `octets` reads them.
    pub key: &'a str,
    /// The octets of the bundle, as `octets` reads them.
    pub bundle: &'a str,
    pub hint: &'a str,
}

/// The SVID entry of the item I1.
pub const FIRST: SvidRow<'static> = SvidRow {
    spiffe_id: "spiffe://example.org/w",
    key: "KEY1",
    bundle: "ROOT1",
    hint: "",
};

/// An SVID entry like the first, with another bundle.
pub const SECOND: SvidRow<'static> = SvidRow {
    spiffe_id: "spiffe://example.org/w",
    key: "KEY1",
    bundle: "ROOT2",
    hint: "",
};

fn svid_entry(alloc: Global, row: &SvidRow<'_>) -> Result<SvidEntry, Fail> {
    Ok(SvidEntry {
        spiffe_id: Text::copy_of(alloc, row.spiffe_id)?,
        x509_svid: Bytes::new(octets(alloc, "LEAF1")?),
        x509_svid_key: Bytes::new(octets(alloc, row.key)?),
        bundle: Bytes::new(octets(alloc, row.bundle)?),
        hint: Text::copy_of(alloc, row.hint)?,
    })
}

fn svid_entries(alloc: Global, rows: &[SvidRow<'_>]) -> Result<List<SvidEntry>, Fail> {
    let mut entries = Vec::new(alloc);
    for row in rows {
        entries.push(svid_entry(alloc, row)?)?;
    }
    Ok(List::new(entries))
}

fn bundle_entry(alloc: Global, name: &str, bundle: &str) -> Result<BundleEntry, Fail> {
    Ok(BundleEntry {
        name: Text::copy_of(alloc, name)?,
        bundle: Bytes::new(octets(alloc, bundle)?),
    })
}

/// Bundle entries, each of a name and of octets as `octets` reads them.
pub fn bundle_entries(alloc: Global, rows: &[(&str, &str)]) -> Result<List<BundleEntry>, Fail> {
    let mut entries = Vec::new(alloc);
    for (name, bundle) in rows {
        entries.push(bundle_entry(alloc, name, bundle)?)?;
    }
    Ok(List::new(entries))
}

/// Returns a response of SVID entries and of federated bundles, with no revocation lists.
pub fn context(
    alloc: Global,
    svids: &[SvidRow<'_>],
    federated: &[(&str, &str)],
) -> Result<ContextResponse, Fail> {
    Ok(ContextResponse {
        svids: svid_entries(alloc, svids)?,
        federated: bundle_entries(alloc, federated)?,
        crls: List::new(Vec::new(alloc)),
    })
}

/// Returns the response that the item I1 lays out.
pub fn first_item(alloc: Global) -> Result<ContextResponse, Fail> {
    context(alloc, &[FIRST], &[])
}
