//! How an event ends an attempt.

ghost use Rattle.std.specs.Prelude.{◌≡◌, None, IfOk, if◌then◌else◌};
ghost use Rattle.spf_api.specs.Errors.{status_reading};
ghost use Rattle.spf_feeder.specs.Attempts.{client_no_identity, end_with, gave_with};
ghost use Rattle.spf_feeder.specs.Attempts.{is_no_identity};
ghost use Rattle.spf_feeder.specs.Attempts as spec;

use crate::received::copy_of_status;
use spf_api::{ClientFault, GrpcStatusError, WorkloadApiError};
use spf_feed::{Phase, SessionEvent};
use spf_io::OutOfMemory;
use spf_system::AttemptEnd;
use std::alloc::Global;
use std::mem::drop;

fn is_no_identity(answer: &WorkloadApiError) -> bool
    ensures { result ≡ spec.is_no_identity answer.now }
{
    matches!(answer, WorkloadApiError::NoIdentityIssued)
}

/// Whether the status says that no identity is issued.
fn says_no_identity(alloc: Global, status: &GrpcStatusError) -> Result<bool, OutOfMemory>
    ensures { IfOk result (λ b. b ≡ is_no_identity (status_reading status.now)) }
{
    let answer = WorkloadApiError::from_status(copy_of_status(alloc, status)?);
    let says = is_no_identity(&answer);
    drop(answer);
    Ok(says)
}

fn failure_says_no_identity(alloc: Global, fault: &ClientFault) -> Result<bool, OutOfMemory>
    ensures { IfOk result (λ b. b ≡ client_no_identity fault.now) }
{
    match fault {
        ClientFault::Status(status) => says_no_identity(alloc, status),
        ClientFault::Unreachable(_) | ClientFault::OutOfMemory => Ok(false),
    }
}

/// How the item of a stream ends the attempt, where `next` is what comes next.
fn item_end(next: Phase, gave_accepted: bool) -> Option<AttemptEnd>
    ensures { result ≡ spec.item_end next gave_accepted }
{
    match next {
        Phase::Next => None,
        Phase::Client | Phase::Connect => Some(AttemptEnd::Stream {
            gave_accepted,
            no_identity: false,
        }),
    }
}

/// Returns how an event that is not accepted ends the attempt, where `next` is what comes next.
pub fn end_of<I: Drop>(
    alloc: Global,
    next: Phase,
    gave_accepted: bool,
    event: &SessionEvent<I>,
) -> Result<Option<AttemptEnd>, OutOfMemory>
    ensures { IfOk result (λ o. o ≡ end_with next gave_accepted event.now) }
{
    match event {
        SessionEvent::ClientFailed(fault) => Ok(Some(AttemptEnd::Client {
            no_identity: failure_says_no_identity(alloc, fault)?,
        })),
        SessionEvent::ConnectStatus(status) => Ok(Some(AttemptEnd::Connect {
            no_identity: says_no_identity(alloc, status)?,
        })),
        SessionEvent::Item(_) => Ok(item_end(next, gave_accepted)),
        SessionEvent::ItemStatus(status) => Ok(Some(AttemptEnd::Stream {
            gave_accepted,
            no_identity: says_no_identity(alloc, status)?,
        })),
        SessionEvent::StreamEnd => Ok(Some(AttemptEnd::Stream {
            gave_accepted,
            no_identity: false,
        })),
        SessionEvent::ClientMade
        | SessionEvent::Connected
        | SessionEvent::Moment(_)
        | SessionEvent::Close => Ok(None),
    }
}

/// Returns whether the stream of the last connection gave an accepted item, after an event that is
/// accepted or not.
pub fn gave_after<I: Drop>(gave_accepted: bool, is_accepted: bool, event: &SessionEvent<I>) -> bool
    ensures { result ≡ gave_with gave_accepted is_accepted event.now }
{
    match event {
        SessionEvent::Connected => false,
        _ => is_accepted || gave_accepted,
    }
}

/// Returns how an event ends the attempt: one that is accepted ends none.
pub fn unless_accepted(is_accepted: bool, end: Option<AttemptEnd>) -> Option<AttemptEnd>
    ensures { result ≡ (if is_accepted then None else end) }
{
    if is_accepted { None } else { end }
}
