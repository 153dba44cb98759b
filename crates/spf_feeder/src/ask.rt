//! One ask of a connector or of its link, and the event that it yields.

ghost use Rattle.std.specs.Prelude.{◌≡◌, [], Some, IfOk};
ghost use Rattle.spf_link.specs.Metadata.{with_metadata};
ghost use Rattle.spf_feeder.specs.Asking.{AsksFor, ClientAsked, StreamAsked, ItemAsked};
ghost use Rattle.spf_feeder.specs.Asking.{connect_text, kind_wanted, refused_as};
ghost use Rattle.spf_feeder.specs.Fed.{IsReadyFor};

use crate::session::{ItemOf, Session};
use spf_api::{ClientFault, GrpcStatusCode, GrpcStatusError, LinkFault, TransportConnectError};
use spf_feed::{Phase, SessionEvent};
use spf_io::{OutOfMemory, Text};
use spf_link::{Connector, Headers, Link, MetadataAdder, NoInterceptor, Request};
use std::alloc::Global;
use std::mem::drop;

/// The displayed text of a connection that was lost or never made.
fn connect_message(alloc: Global, e: &TransportConnectError) -> Result<Text, OutOfMemory>
    ensures { IfOk result (λ t. t ≡ connect_text e.now) }
{
    let source = e.source_text();
    Ok(Text::new(format!(in alloc; "gRPC transport connection failed: {source}")?))
}

/// The status that a refusal of a link yields.
fn status_of(alloc: Global, fault: LinkFault) -> Result<GrpcStatusError, OutOfMemory>
    ensures { IfOk result (λ s. refused_as fault ≡ Some s) }
{
    match fault {
        LinkFault::Status(status) => Ok(status),
        LinkFault::Connect(e) => {
            let message = connect_message(alloc, &e)?;
            Ok(GrpcStatusError::new(GrpcStatusCode::Unavailable, message))
        }
        LinkFault::OutOfMemory => Err(OutOfMemory),
    }
}

/// The headers of each `start`.
fn stream_headers(alloc: Global) -> Result<Headers, OutOfMemory>
    ensures { IfOk result (λ h. h ≡ with_metadata []) }
{
    let mut headers = Headers::new(alloc);
    match MetadataAdder::new(NoInterceptor).call(&mut headers) {
        Ok(()) => Ok(headers),
        Err(e) => {
            drop(e);
            Err(OutOfMemory)
        }
    }
}

/// Asks for a client. Its link takes the place of the one before.
fn ask_client<I: Drop, C: Connector>(
    connector: &mut C,
    link: &mut Option<C::Link>,
) -> Result<SessionEvent<I>, OutOfMemory>
where
    C::Link: Drop,
    ensures { ClientAsked C.Connector C.Link.answers connector.old result connector.new link.new }
{
    match connector.connect() {
        Ok(made) => {
            *link = Some(made);
            Ok(SessionEvent::ClientMade)
        }
        Err(fault) => {
            *link = None;
            match fault {
                ClientFault::OutOfMemory => Err(OutOfMemory),
                fault => Ok(SessionEvent::ClientFailed(fault)),
            }
        }
    }
}

/// Asks the link for a stream.
fn ask_stream<I: Drop, L: Link>(
    alloc: Global,
    link: &mut L,
    headers: &Headers,
    request: &Request,
) -> Result<SessionEvent<I>, OutOfMemory>
    ensures { StreamAsked (record { headers = headers.now; request = request.now }) L.Link link.old
        result link.new }
{
    match link.start(headers, request) {
        Ok(()) => Ok(SessionEvent::Connected),
        Err(fault) => Ok(SessionEvent::ConnectStatus(status_of(alloc, fault)?)),
    }
}

/// Asks the link for the next item of its stream.
fn ask_item<L: Link, S: Session>(
    alloc: Global,
    link: &mut L,
    session: &S,
) -> Result<SessionEvent<ItemOf<S>>, OutOfMemory>
    requires { L.kind link.old ≡ Some
        (kind_wanted (S.Rules.kind (S.given session.now).rules).wanted) }
    ensures { ItemAsked (S.Rules.kind (S.given session.now).rules).wanted.item L.Link link.old
        result link.new }
{
    match link.next() {
        Ok(Some(response)) => match session.item_of(response) {
            Some(item) => Ok(SessionEvent::Item(item)),
            None => unreachable!(),
        },
        Ok(None) => Ok(SessionEvent::StreamEnd),
        Err(fault) => Ok(SessionEvent::ItemStatus(status_of(alloc, fault)?)),
    }
}

/// Asks once, for what comes next.
pub(crate) fn ask<C: Connector, S: Session>(
    alloc: Global,
    connector: &mut C,
    link: &mut Option<C::Link>,
    session: &S,
    phase: Phase,
) -> Result<SessionEvent<ItemOf<S>>, OutOfMemory>
where
    C::Link: Drop,
    requires { IsReadyFor (kind_wanted (S.Rules.kind (S.given session.now).rules).wanted)
        C.Link.kind phase
        link.old }
    ensures { AsksFor (S.Rules.kind (S.given session.now).rules).wanted C.Connector C.Link.Link
        phase
        (record { connector = connector.old; link = link.old }) result
        (record { connector = connector.new; link = link.new }) }
{
    match phase {
        Phase::Client => ask_client(connector, link),
        Phase::Connect => {
            let headers = stream_headers(alloc)?;
            let Some(asked) = link.as_mut() else {
                unreachable!()
            };
            ask_stream(alloc, asked, &headers, &session.request())
        }
        Phase::Next => {
            let Some(asked) = link.as_mut() else {
                unreachable!()
            };
            ask_item(alloc, asked, session)
        }
    }
}
