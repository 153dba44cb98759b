//! What an event does: the step and the records that it
//! makes, or the error that it ends the session with.

ghost use Rattle.std.specs.Prelude.{◌≡◌, true, false, None, Some, [], if◌then◌else◌};
ghost use Rattle.spf_api.specs.Errors.{status_reading};
ghost use Rattle.spf_view.specs.Views.{Passed as OutcomePassed, denied_or_passed};
ghost use Rattle.spf_feed.specs.declared.turn.Terminal.TheVariants as terminal;
ghost use Rattle.spf_feed.specs.Items.{denial_in};
ghost use Rattle.spf_feed.specs.Run.{rejected_or_unsupported, client_rejected, timed_out};
ghost use Rattle.spf_feed.specs.Turns.{refusal_in, client_refusal_in};
ghost use Rattle.spf_jwt.specs.declared.limits.JwtResourceLimits.{JwtResourceLimits};
ghost use Rattle.spf_jwt_feed.specs.declared.record.JwtMetricsErrorKind.TheVariants as kinds;
ghost use Rattle.spf_jwt_feed.specs.Run.{ended, rejected, item_records};
ghost use Rattle.spf_jwt_feed.specs.Received.{received_refusal, received_outcome};
ghost use Rattle.spf_jwt_feed.specs.Received.{received_records, item_outcome};
ghost use Rattle.spf_jwt_feed.specs.Turns.{MayTake, IsTurn, listed};
ghost use Rattle.spf_jwt_feed.specs.Run as run_spec;

use crate::event::{JwtItem, JwtReceived};
use crate::record::{JwtMetricsErrorKind, JwtMetricsRecord};
use spf_api::{ClientFault, GrpcStatusError, WorkloadApiError};
use spf_feed::{Denial, Terminal};
use spf_jwt::{JwtBundleSet, JwtLimitKind, JwtResourceLimits, validate_jwt_limits};

/// The records of an event that is not accepted, in order.
#[derive(Clone, Copy, Debug, PartialEq, Eq)]
pub struct Records {
    pub error: Option<JwtMetricsErrorKind>,
    pub end: Option<JwtMetricsRecord>,
}

impl Records {
    pub fn none() -> Records
        ensures { listed result ≡ [] }
    {
        Records {
            error: None,
            end: None,
        }
    }

    /// The attempt ended, with this error.
    fn ended(synced: bool, error: Option<JwtMetricsErrorKind>) -> Records
        ensures { listed result ≡ ended synced error }
    {
        let end = if synced {
            JwtMetricsRecord::Reconnect
        } else {
            JwtMetricsRecord::Error(JwtMetricsErrorKind::InitialSyncFailed)
        };
        Records {
            error,
            end: Some(end),
        }
    }

    /// An update was rejected, where `error` says why.
    fn rejected(synced: bool, error: Option<JwtMetricsErrorKind>) -> Records
        ensures { listed result ≡ rejected synced error }
    {
        let end = if synced {
            JwtMetricsErrorKind::UpdateRejected
        } else {
            JwtMetricsErrorKind::InitialSyncFailed
        };
        Records {
            error,
            end: Some(JwtMetricsRecord::Error(end)),
        }
    }

    /// An item without bundles: once synchronised it is a rejected update.
    fn empty(synced: bool) -> Records
        ensures { listed result ≡ run_spec.empty_records synced }
    {
        if synced {
            Records::rejected(true, None)
        } else {
            Records::ended(false, Some(JwtMetricsErrorKind::StreamError))
        }
    }
}

fn limit_error(kind: JwtLimitKind) -> JwtMetricsErrorKind
    ensures { result ≡ run_spec.limit_error kind }
{
    match kind {
        JwtLimitKind::MaxBundles => JwtMetricsErrorKind::LimitMaxBundles,
        JwtLimitKind::MaxBundleJwksBytes => JwtMetricsErrorKind::LimitMaxBundleJwksBytes,
    }
}

/// What an event does.
#[derive(Debug, Drop)]
pub enum Turn {
    Terminal(Terminal),
    Accepted(JwtBundleSet),
    Denied { reason: Denial, records: Records },
    Passed(Records),
}

/// A status before any accepted item: only a request that cannot succeed ends the session.
fn initial_turn(answer: WorkloadApiError, error: Option<JwtMetricsErrorKind>) -> Turn
    ensures may { (limits : JwtResourceLimits) → MayTake limits false result }
    ensures turn { IsTurn (refusal_in answer) OutcomePassed (ended false error) result }
{
    if answer.is_invalid_argument() {
        return Turn::Terminal(Terminal::Source(answer));
    }
    if answer.is_unimplemented() {
        return Turn::Terminal(Terminal::UnsupportedRpc(answer));
    }
    Turn::Passed(Records::ended(false, error))
}

/// A status once an item was accepted: a denial withdraws, and nothing ends the session.
fn synced_turn(answer: WorkloadApiError, error: Option<JwtMetricsErrorKind>) -> Turn
    ensures may { (limits : JwtResourceLimits) → MayTake limits true result }
    ensures turn { IsTurn None (denied_or_passed true (denial_in answer)) (ended true error)
        result }
{
    let records = Records::ended(true, error);
    match answer {
        WorkloadApiError::NoIdentityIssued => Turn::Denied {
            reason: Denial::NoIdentityIssued,
            records,
        },
        WorkloadApiError::PermissionDenied(message) => Turn::Denied {
            reason: Denial::PermissionDenied(message),
            records,
        },
        _ => Turn::Passed(records),
    }
}

fn status_turn(synced: bool, answer: WorkloadApiError, error: Option<JwtMetricsErrorKind>) -> Turn
    ensures may { (limits : JwtResourceLimits) → MayTake limits synced result }
    ensures turn { IsTurn (if synced then None else refusal_in answer)
        (denied_or_passed synced (denial_in answer)) (ended synced error) result }
{
    if synced {
        synced_turn(answer, error)
    } else {
        initial_turn(answer, error)
    }
}

/// That no identity is issued is not an error of the connection.
fn connect_error(answer: &WorkloadApiError) -> Option<JwtMetricsErrorKind>
    ensures { result ≡ run_spec.connect_error answer.now }
{
    match answer {
        WorkloadApiError::NoIdentityIssued => None,
        _ => Some(JwtMetricsErrorKind::StreamConnect),
    }
}

fn connect_turn(synced: bool, status: GrpcStatusError) -> Turn
    ensures may { (limits : JwtResourceLimits) → MayTake limits synced result }
    ensures turn { IsTurn (if synced then None else rejected_or_unsupported status)
        (denied_or_passed synced (denial_in (status_reading status)))
        (ended synced (run_spec.connect_error (status_reading status))) result }
{
    let answer = WorkloadApiError::from_status(status);
    let error = connect_error(&answer);
    status_turn(synced, answer, error)
}

fn item_status_turn(synced: bool, status: GrpcStatusError) -> Turn
    ensures may { (limits : JwtResourceLimits) → MayTake limits synced result }
    ensures turn { IsTurn (if synced then None else rejected_or_unsupported status)
        (denied_or_passed synced (denial_in (status_reading status)))
        (ended synced (Some kinds.StreamError)) result }
{
    let answer = WorkloadApiError::from_status(status);
    status_turn(synced, answer, Some(JwtMetricsErrorKind::StreamError))
}

/// A status of the client before any accepted item.
fn initial_failure_turn(answer: WorkloadApiError) -> Turn
    ensures may { (limits : JwtResourceLimits) → MayTake limits false result }
    ensures turn { IsTurn (client_refusal_in answer) OutcomePassed
        (ended false (Some kinds.ClientCreation)) result }
{
    if answer.is_invalid_argument() {
        return Turn::Terminal(Terminal::Source(answer));
    }
    Turn::Passed(Records::ended(false, Some(JwtMetricsErrorKind::ClientCreation)))
}

/// A client failure is never a denial.
fn failure_turn(synced: bool, fault: ClientFault) -> Turn
    ensures may { (limits : JwtResourceLimits) → MayTake limits synced result }
    ensures turn { IsTurn (if synced then None else client_rejected fault) OutcomePassed
        (ended synced (Some kinds.ClientCreation)) result }
{
    if synced {
        return Turn::Passed(Records::ended(true, Some(JwtMetricsErrorKind::ClientCreation)));
    }
    match fault {
        ClientFault::Status(status) => {
            initial_failure_turn(WorkloadApiError::from_status(status))
        }
        ClientFault::Unreachable(_) | ClientFault::OutOfMemory => {
            Turn::Passed(Records::ended(false, Some(JwtMetricsErrorKind::ClientCreation)))
        }
    }
}

fn moment_turn(synced: bool, deadline: Option<i64>, moment: i64) -> Turn
    ensures may { (limits : JwtResourceLimits) → MayTake limits synced result }
    ensures turn { IsTurn (if synced then None else timed_out deadline moment) OutcomePassed []
        result }
{
    match deadline {
        Some(deadline) if !synced && deadline <= moment => {
            Turn::Terminal(Terminal::InitialSyncTimeout)
        }
        _ => Turn::Passed(Records::none()),
    }
}

fn close_turn(synced: bool) -> Turn
    ensures may { (limits : JwtResourceLimits) → MayTake limits synced result }
    ensures turn { IsTurn (if synced then None else Some terminal.Closed) OutcomePassed [] result }
{
    if synced {
        Turn::Passed(Records::none())
    } else {
        Turn::Terminal(Terminal::Closed)
    }
}

/// An item is accepted where it has bundles, breaks no rule and keeps the limits.
fn item_turn(limits: JwtResourceLimits, synced: bool, item: JwtItem) -> Turn
    ensures may { MayTake limits synced result }
    ensures turn { IsTurn None (item_outcome limits synced item) (item_records synced limits item)
        result }
{
    let set = match item {
        JwtItem::Bundles(set) => set,
        JwtItem::Empty => return Turn::Passed(Records::empty(synced)),
        JwtItem::Broken => {
            return Turn::Passed(Records::ended(synced, Some(JwtMetricsErrorKind::StreamError)));
        }
    };
    match validate_jwt_limits(&set, limits) {
        Ok(()) => Turn::Accepted(set),
        Err(broken) => Turn::Passed(Records::rejected(synced, Some(limit_error(broken.kind)))),
    }
}

/// Returns what an event does, where an item was accepted before it or not.
pub fn turn_of(
    limits: JwtResourceLimits,
    deadline: Option<i64>,
    synced: bool,
    event: JwtReceived,
) -> Turn
    ensures may { MayTake limits synced result }
    ensures turn { IsTurn (received_refusal deadline synced event)
        (received_outcome limits synced event) (received_records synced limits event) result }
{
    match event {
        JwtReceived::ClientMade | JwtReceived::Connected => Turn::Passed(Records::none()),
        JwtReceived::ClientFailed(fault) => failure_turn(synced, fault),
        JwtReceived::ConnectStatus(status) => connect_turn(synced, status),
        JwtReceived::ItemStatus(status) => item_status_turn(synced, status),
        JwtReceived::Item(item) => item_turn(limits, synced, item),
        JwtReceived::StreamEnd => Turn::Passed(Records::ended(
            synced,
            Some(JwtMetricsErrorKind::StreamEnded),
        )),
        JwtReceived::Moment(moment) => moment_turn(synced, deadline, moment),
        JwtReceived::Close => close_turn(synced),
    }
}
