//! Responses of the Workload API, owned and as views of a payload.

use crate::secret::SecretLength;
use spf_io::{Bytes, List, Text};
use std::fmt;

/// The kinds of responses.
#[derive(Clone, Copy, Debug, PartialEq, Eq)]
pub enum ResponseKind {
    Context,
    Bundles,
    JwtSvids,
    JwtBundles,
    Validation,
}

/// A response of the Workload API, by its kind.
#[derive(Debug, PartialEq, Eq, Drop)]
pub enum Response {
    Context(ContextResponse),
    Bundles(BundlesResponse),
    JwtSvids(JwtSvidsResponse),
    JwtBundles(BundlesResponse),
    Validation(ValidationResponse),
}

/// An X.509 identity: its chain and key in DER, and the bundle of its own trust domain. Debug output
/// shows only the length of the key.
#[derive(PartialEq, Eq, Drop)]
pub struct SvidEntry {
    pub spiffe_id: Text,
    pub x509_svid: Bytes,
    pub x509_svid_key: Bytes,
    pub bundle: Bytes,
    pub hint: Text,
}

impl fmt::Debug for SvidEntry {
    fn fmt<W: fmt::Write>(&self, f: &mut fmt::Formatter<W>) -> fmt::Result {
        f.debug_struct("SvidEntry")
            .field("spiffe_id", &self.spiffe_id)
            .field("x509_svid", &self.x509_svid)
            .field(
                "x509_svid_key",
                &SecretLength(self.x509_svid_key.as_slice().len()),
            )
            .field("bundle", &self.bundle)
            .field("hint", &self.hint)
            .finish()
    }
}

/// A bundle under the name of its trust domain: certificates in DER, or a key set.
#[derive(Debug, PartialEq, Eq, Drop)]
pub struct BundleEntry {
    pub name: Text,
    pub bundle: Bytes,
}

#[derive(Debug, PartialEq, Eq, Drop)]
pub struct ContextResponse {
    pub svids: List<SvidEntry>,
    pub federated: List<BundleEntry>,
    pub crls: List<Bytes>,
}

#[derive(Debug, PartialEq, Eq, Drop)]
pub struct BundlesResponse {
    pub bundles: List<BundleEntry>,
}

/// A JWT identity, with its token in the compact form. Debug output shows only the token's length.
#[derive(PartialEq, Eq, Drop)]
pub struct JwtSvidEntry {
    pub spiffe_id: Text,
    pub svid: Text,
    pub hint: Text,
}

impl fmt::Debug for JwtSvidEntry {
    fn fmt<W: fmt::Write>(&self, f: &mut fmt::Formatter<W>) -> fmt::Result {
        f.debug_struct("JwtSvidEntry")
            .field("spiffe_id", &self.spiffe_id)
            .field("svid", &SecretLength(self.svid.as_str().len()))
            .field("hint", &self.hint)
            .finish()
    }
}

#[derive(Debug, PartialEq, Eq, Drop)]
pub struct JwtSvidsResponse {
    pub svids: List<JwtSvidEntry>,
}

/// The value of a claim. A number that is not a whole number of 64 bits is kept as its text.
#[derive(Debug, PartialEq, Eq, Drop)]
#[cycle(claim)]
pub enum ClaimValue {
    Unset,
    Null,
    Bool(bool),
    Whole(i64),
    OtherNumber(Text),
    Words(Text),
    Items(List<ClaimValue>),
    Fields(List<Claim>),
}

#[derive(Debug, PartialEq, Eq, Drop)]
#[cycle(claim)]
pub struct Claim {
    pub name: Text,
    pub value: ClaimValue,
}

/// What a validated token says.
#[derive(Debug, PartialEq, Eq, Drop)]
pub struct ValidationResponse {
    pub spiffe_id: Text,
    pub claims: Option<List<Claim>>,
}

/// An SVID entry, whose fields are slices of the payload that was read. Debug output shows only the
/// length of the key.
#[derive(Clone, Copy, PartialEq, Eq)]
pub struct SvidEntryView<'a> {
    pub spiffe_id: &'a str,
    pub x509_svid: &'a [u8],
    pub x509_svid_key: &'a [u8],
    pub bundle: &'a [u8],
    pub hint: &'a str,
}

impl fmt::Debug for SvidEntryView<'_> {
    fn fmt<W: fmt::Write>(&self, f: &mut fmt::Formatter<W>) -> fmt::Result {
        f.debug_struct("SvidEntryView")
            .field("spiffe_id", &self.spiffe_id)
            .field("x509_svid", &self.x509_svid)
            .field("x509_svid_key", &SecretLength(self.x509_svid_key.len()))
            .field("bundle", &self.bundle)
            .field("hint", &self.hint)
            .finish()
    }
}

/// A bundle entry, whose fields are slices of the payload that was read.
#[derive(Clone, Copy, Debug, PartialEq, Eq)]
pub struct BundleEntryView<'a> {
    pub name: &'a str,
    pub bundle: &'a [u8],
}

/// A context response, whose fields are slices of the payload that was read.
#[derive(Debug, PartialEq, Eq, Drop)]
pub struct ContextView<'a> {
    pub svids: List<SvidEntryView<'a>>,
    pub federated: List<BundleEntryView<'a>>,
    pub crls: List<&'a [u8]>,
}
