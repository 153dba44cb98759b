//! In-memory links for tests of live sources, and their connectors.

use crate::responses::first_item;
use spf_api::{GrpcStatusCode, GrpcStatusError, LinkFault, Response};
use spf_io::{OutOfMemory, Text};
use spf_link::{Answer, MemConnector, MemLink};
use std::alloc::Global;
use std::test::Fail;

/// Returns a link that gives the item I1.
pub fn good_link(alloc: Global) -> Result<MemLink, Fail> {
    let item = Answer::Item(Response::Context(first_item(alloc)?));
    Ok(MemLink::new(alloc, vec![in alloc; Answer::Started, item]?))
}

fn refusal(alloc: Global, code: GrpcStatusCode) -> Result<LinkFault, OutOfMemory> {
    let message = Text::copy_of(alloc, "no")?;
    Ok(LinkFault::Status(GrpcStatusError::new(code, message)))
}

/// Returns a link that refuses its start with this status.
pub fn refusing_link(alloc: Global, code: GrpcStatusCode) -> Result<MemLink, Fail> {
    let fault = refusal(alloc, code)?;
    Ok(MemLink::new(alloc, vec![in alloc; Answer::Refused(fault)]?))
}

/// Returns a connector with one link.
pub fn connector(alloc: Global, link: MemLink) -> Result<MemConnector, Fail> {
    Ok(MemConnector::new(alloc, vec![in alloc; Ok(link)]?))
}
