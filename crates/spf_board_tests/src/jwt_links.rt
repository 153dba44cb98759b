//! Responses and in-memory connectors.

use spf_api::{
    BundleEntry, BundlesResponse, GrpcStatusCode, GrpcStatusError, JwtSvidEntry, JwtSvidsResponse,
    LinkFault, Response,
};
use spf_fixtures::TOKEN1;
use spf_io::{Bytes, List, OutOfMemory, Text};
use spf_link::{Answer, MemConnector, MemLink};
use std::alloc::Global;

const KEYS: &str = "{\"keys\":[{\"kid\":\"k\",\"kty\":\"EC\"}]}";

/// The item JI: one key set, of `example.org`, with one key.
pub(crate) fn key_sets(alloc: Global) -> Result<BundlesResponse, OutOfMemory> {
    let entry = BundleEntry {
        name: Text::copy_of(alloc, "spiffe://example.org")?,
        bundle: Bytes::copy_of(alloc, KEYS.as_bytes())?,
    };
    let bundles = List::new(vec![in alloc; entry]?);
    Ok(BundlesResponse { bundles })
}

/// A response with the one token.
fn token(alloc: Global) -> Result<Response, OutOfMemory> {
    let entry = JwtSvidEntry {
        spiffe_id: Text::copy_of(alloc, "spiffe://example.org/w")?,
        svid: Text::copy_of(alloc, TOKEN1)?,
        hint: Text::copy_of(alloc, "")?,
    };
    let svids = List::new(vec![in alloc; entry]?);
    Ok(Response::JwtSvids(JwtSvidsResponse { svids }))
}

/// A refusal with this status.
fn refusal(alloc: Global, code: GrpcStatusCode) -> Result<Answer, OutOfMemory> {
    let message = Text::copy_of(alloc, "no")?;
    let status = GrpcStatusError::new(code, message);
    Ok(Answer::Refused(LinkFault::Status(status)))
}

/// A connector with one link.
pub(crate) fn over(alloc: Global, link: MemLink) -> Result<MemConnector, OutOfMemory> {
    Ok(MemConnector::new(alloc, vec![in alloc; Ok(link)]?))
}

/// A link that gives the item JI.
pub(crate) fn good(alloc: Global) -> Result<MemLink, OutOfMemory> {
    let item = Answer::Item(Response::JwtBundles(key_sets(alloc)?));
    Ok(MemLink::new(alloc, vec![in alloc; Answer::Started, item]?))
}

/// A link that gives the one token.
pub(crate) fn granting(alloc: Global) -> Result<MemLink, OutOfMemory> {
    let item = Answer::Item(token(alloc)?);
    Ok(MemLink::new(alloc, vec![in alloc; Answer::Started, item]?))
}

/// A link that refuses its start with this status.
pub(crate) fn refusing(alloc: Global, code: GrpcStatusCode) -> Result<MemLink, OutOfMemory> {
    let refusal = refusal(alloc, code)?;
    Ok(MemLink::new(alloc, vec![in alloc; refusal]?))
}
