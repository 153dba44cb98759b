//! An event as it is received: its item is read down to its context.

ghost use Rattle.std.specs.Prelude.{◌≡◌, Err, IfOk, false};
ghost use Rattle.std.specs.Arc.{arc_value};
ghost use Rattle.spf_api.specs.Errors.{is_memory_api};
ghost use Rattle.spf_feed.specs.Events.{map_item};
ghost use Rattle.spf_feed.specs.Items.{IsReceived, context_in};
ghost use Rattle.spf_feeder.specs.Orderly.{is_item};

use spf_api::{ClientFault, ContextResponse, GrpcStatusError, WorkloadApiError, context_from};
use spf_feed::{Event, Received, SessionEvent};
use spf_io::{OutOfMemory, Text};
use spf_x509::X509Context;
use std::alloc::Global;
use std::mem::drop;
use std::sync::Arc;

/// A copy of a status.
pub(crate) fn copy_of_status(
    alloc: Global,
    status: &GrpcStatusError,
) -> Result<GrpcStatusError, OutOfMemory>
    ensures { IfOk result (λ s. s ≡ status.now) }
{
    let message = Text::copy_of(alloc, status.message())?;
    match status.source_text() {
        Some(source) => Ok(GrpcStatusError::with_source(
            status.code(),
            message,
            Text::copy_of(alloc, source)?,
        )),
        None => Ok(GrpcStatusError::new(status.code(), message)),
    }
}

/// A copy of a fault.
fn copy_of_fault(alloc: Global, fault: &ClientFault) -> Result<ClientFault, OutOfMemory>
    ensures { IfOk result (λ f. f ≡ fault.now) }
{
    match fault {
        ClientFault::Status(status) => Ok(ClientFault::Status(copy_of_status(alloc, status)?)),
        ClientFault::Unreachable(text) => Ok(ClientFault::Unreachable(text.try_clone(alloc)?)),
        ClientFault::OutOfMemory => Ok(ClientFault::OutOfMemory),
    }
}

fn is_out_of_memory(e: &WorkloadApiError) -> bool
    ensures { result ≡ is_memory_api e.now }
{
    matches!(e, WorkloadApiError::OutOfMemory)
}

/// What a context that was not read leaves: none where a rule is broken.
fn refused(e: WorkloadApiError) -> Result<Option<X509Context>, OutOfMemory>
    ensures { IsReceived (Err e) result }
{
    let is_memory = is_out_of_memory(&e);
    drop(e);
    if is_memory {
        return Err(OutOfMemory);
    }
    Ok(None)
}

/// The context that was read, none where a rule is broken.
fn received(
    parsed: Result<X509Context, WorkloadApiError>,
) -> Result<Option<X509Context>, OutOfMemory>
    ensures { IsReceived parsed result }
{
    match parsed {
        Ok(context) => Ok(Some(context)),
        Err(e) => refused(e),
    }
}

/// The context of a response, none where it breaks a rule.
fn context_of(alloc: Global, response: &ContextResponse) -> Result<Option<X509Context>, OutOfMemory>
    ensures { IfOk result (λ o. o ≡ context_in response.now) }
{
    received(context_from(alloc, response))
}

/// Returns a value that may be shared.
pub fn shared<T: Drop>(alloc: Global, value: T) -> Result<Arc<T>, OutOfMemory>
    ensures { IfOk result (λ a. arc_value a ≡ value) }
{
    Ok(Arc::new(alloc, value)?)
}

/// Returns an event as it is received, which is not an item.
pub fn beside_item<I: Drop, J: Drop>(
    alloc: Global,
    event: &SessionEvent<I>,
) -> Result<SessionEvent<J>, OutOfMemory>
    requires { is_item event.now ≡ false }
    ensures { (read : I → J) → IfOk result (λ r. r ≡ map_item read event.now) }
{
    match event {
        SessionEvent::ClientMade => Ok(SessionEvent::ClientMade),
        SessionEvent::ClientFailed(fault) => {
            Ok(SessionEvent::ClientFailed(copy_of_fault(alloc, fault)?))
        }
        SessionEvent::Connected => Ok(SessionEvent::Connected),
        SessionEvent::ConnectStatus(status) => {
            Ok(SessionEvent::ConnectStatus(copy_of_status(alloc, status)?))
        }
        SessionEvent::Item(_) => unreachable!(),
        SessionEvent::ItemStatus(status) => {
            Ok(SessionEvent::ItemStatus(copy_of_status(alloc, status)?))
        }
        SessionEvent::StreamEnd => Ok(SessionEvent::StreamEnd),
        SessionEvent::Moment(moment) => Ok(SessionEvent::Moment(*moment)),
        SessionEvent::Close => Ok(SessionEvent::Close),
    }
}

/// The event as it is received.
pub(crate) fn received_of(alloc: Global, event: &Event) -> Result<Received, OutOfMemory>
    ensures { IfOk result (λ r. r ≡ map_item context_in event.now) }
{
    match event {
        Event::Item(response) => Ok(Received::Item(context_of(alloc, response)?)),
        other => beside_item(alloc, other),
    }
}
