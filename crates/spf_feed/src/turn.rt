//! What an event does: the step and the records that it
//! makes, or the error that it ends the session with.

ghost use Rattle.std.specs.Prelude.{◌≡◌, true, false, None, Some, [], if◌then◌else◌};
ghost use Rattle.std.specs.Option.{ForSome, option_map};
ghost use Rattle.spf_api.specs.Errors.{status_reading};
ghost use Rattle.spf_view.specs.Views.{Passed as OutcomePassed, denied_or_passed};
ghost use Rattle.spf_feed.specs.declared.limits.ResourceLimits.{ResourceLimits};
ghost use Rattle.spf_feed.specs.declared.event.SessionEvent.TheVariants as events;
ghost use Rattle.spf_feed.specs.declared.record.MetricsErrorKind.TheVariants as kinds;
ghost use Rattle.spf_feed.specs.declared.turn.Terminal.TheVariants as terminal;
ghost use Rattle.spf_feed.specs.Items.{rules_with, denial_in};
ghost use Rattle.spf_feed.specs.Limits.{within};
ghost use Rattle.spf_feed.specs.Run.{ended, over_limit, kept_out, rejected_or_unsupported};
ghost use Rattle.spf_feed.specs.Run.{client_rejected, timed_out};
ghost use Rattle.spf_feed.specs.Received.{received_refusal, received_outcome, received_records};
ghost use Rattle.spf_feed.specs.Turns.{MayTake, IsTurn, listed, refusal_in, client_refusal_in};
ghost use Rattle.spf_feed.specs.Items as items_spec;
ghost use Rattle.spf_feed.specs.Run as run_spec;

use crate::follow_error::FollowError;
use crate::limits::{LimitKind, ResourceLimits, validate_limits};
use crate::payload::Received;
use crate::picker::{SvidPicker, chosen, select_svid, usable};
use crate::ready::Ready;
use crate::record::{MetricsErrorKind, MetricsRecord};
use crate::step::Denial;
use spf_api::{ClientFault, GrpcStatusError, WorkloadApiError};
use spf_x509::X509Context;

/// The rules of a session, but for its picker and its limit of frames.
#[derive(Clone, Copy, Debug)]
pub struct SessionRules {
    pub limits: ResourceLimits,
    pub deadline: Option<i64>,
    pub ready: Ready,
}

/// The records of an event that is not accepted, in order.
#[derive(Clone, Copy, Debug, PartialEq, Eq)]
pub struct Records {
    pub error: Option<MetricsErrorKind>,
    pub end: Option<MetricsRecord>,
}

impl Records {
    pub fn none() -> Records
        ensures { listed result ≡ [] }
    {
        Records {
            error: None,
            end: None,
        }
    }

    /// The attempt ended, with this error.
    fn ended(synced: bool, error: Option<MetricsErrorKind>) -> Records
        ensures { listed result ≡ ended synced error }
    {
        let end = if synced {
            MetricsRecord::Reconnect
        } else {
            MetricsRecord::Error(MetricsErrorKind::InitialSyncFailed)
        };
        Records {
            error,
            end: Some(end),
        }
    }

    /// An update was rejected, by this limit.
    fn over(synced: bool, kind: LimitKind) -> Records
        ensures { listed result ≡ over_limit synced kind }
    {
        let end = if synced {
            MetricsErrorKind::UpdateRejected
        } else {
            MetricsErrorKind::InitialSyncFailed
        };
        Records {
            error: Some(limit_error(kind)),
            end: Some(MetricsRecord::Error(end)),
        }
    }
}

fn limit_error(kind: LimitKind) -> MetricsErrorKind
    ensures { result ≡ run_spec.limit_error kind }
{
    match kind {
        LimitKind::MaxSvids => MetricsErrorKind::LimitMaxSvids,
        LimitKind::MaxBundles => MetricsErrorKind::LimitMaxBundles,
        LimitKind::MaxBundleDerBytes => MetricsErrorKind::LimitMaxBundleDerBytes,
        LimitKind::MaxCrlBytes => MetricsErrorKind::LimitMaxCrlBytes,
    }
}

/// How an event ends a session before any accepted item.
#[derive(Debug, PartialEq, Eq, Drop)]
pub enum Terminal {
    Source(WorkloadApiError),
    UnsupportedRpc(WorkloadApiError),
    InitialSyncTimeout,
    Closed,
}

impl From<Terminal> for FollowError {
    ghost use Rattle.std.specs.Prelude.{◌≡◌};
    ghost use Rattle.spf_feed.specs.Following.{answer_to};

    ghost from_gives = { λ t e. e ≡ answer_to t };

    fn from(terminal: Terminal) -> FollowError {
        match terminal {
            Terminal::Source(e) => FollowError::Source(e),
            Terminal::UnsupportedRpc(e) => FollowError::UnsupportedRpc(e),
            Terminal::InitialSyncTimeout => FollowError::InitialSyncTimeout,
            Terminal::Closed => FollowError::Closed,
        }
    }
}

/// What an event does.
#[derive(Debug, Drop)]
pub enum Turn {
    Terminal(Terminal),
    Accepted {
        context: X509Context,
        choice: Option<usize>,
    },
    Denied {
        reason: Denial,
        records: Records,
    },
    Passed(Records),
}

/// A status before any accepted item: only a request that cannot succeed ends the session.
fn initial_turn(answer: WorkloadApiError, error: Option<MetricsErrorKind>) -> Turn
    ensures may { (limits : ResourceLimits) → MayTake limits false result }
    ensures turn { IsTurn (refusal_in answer) OutcomePassed (ended false error) result }
{
    if answer.is_invalid_argument() {
        return Turn::Terminal(Terminal::Source(answer));
    }
    if answer.is_unimplemented() {
        return Turn::Terminal(Terminal::UnsupportedRpc(answer));
    }
    Turn::Passed(Records::ended(false, error))
}

/// A status once an item was accepted: a denial withdraws, and nothing ends the session.
fn synced_turn(answer: WorkloadApiError, error: Option<MetricsErrorKind>) -> Turn
    ensures may { (limits : ResourceLimits) → MayTake limits true result }
    ensures turn { IsTurn None (denied_or_passed true (denial_in answer)) (ended true error)
        result }
{
    let records = Records::ended(true, error);
    match answer {
        WorkloadApiError::NoIdentityIssued => Turn::Denied {
            reason: Denial::NoIdentityIssued,
            records,
        },
        WorkloadApiError::PermissionDenied(message) => Turn::Denied {
            reason: Denial::PermissionDenied(message),
            records,
        },
        _ => Turn::Passed(records),
    }
}

fn status_turn(synced: bool, answer: WorkloadApiError, error: Option<MetricsErrorKind>) -> Turn
    ensures may { (limits : ResourceLimits) → MayTake limits synced result }
    ensures turn { IsTurn (if synced then None else refusal_in answer)
        (denied_or_passed synced (denial_in answer)) (ended synced error) result }
{
    if synced {
        synced_turn(answer, error)
    } else {
        initial_turn(answer, error)
    }
}

/// That no identity is issued is not an error of the connection.
fn connect_error(answer: &WorkloadApiError) -> Option<MetricsErrorKind>
    ensures { result ≡ run_spec.connect_error answer.now }
{
    match answer {
        WorkloadApiError::NoIdentityIssued => None,
        _ => Some(MetricsErrorKind::StreamConnect),
    }
}

fn connect_turn(synced: bool, status: GrpcStatusError) -> Turn
    ensures may { (limits : ResourceLimits) → MayTake limits synced result }
    ensures turn { IsTurn (if synced then None else rejected_or_unsupported status)
        (denied_or_passed synced (denial_in (status_reading status)))
        (ended synced (run_spec.connect_error (status_reading status))) result }
{
    let answer = WorkloadApiError::from_status(status);
    let error = connect_error(&answer);
    status_turn(synced, answer, error)
}

fn item_status_turn(synced: bool, status: GrpcStatusError) -> Turn
    ensures may { (limits : ResourceLimits) → MayTake limits synced result }
    ensures turn { IsTurn (if synced then None else rejected_or_unsupported status)
        (denied_or_passed synced (denial_in (status_reading status)))
        (ended synced (Some kinds.StreamError)) result }
{
    let answer = WorkloadApiError::from_status(status);
    status_turn(synced, answer, Some(MetricsErrorKind::StreamError))
}

/// A status of the client before any accepted item.
fn initial_failure_turn(answer: WorkloadApiError) -> Turn
    ensures may { (limits : ResourceLimits) → MayTake limits false result }
    ensures turn { IsTurn (client_refusal_in answer) OutcomePassed
        (ended false (Some kinds.ClientCreation)) result }
{
    if answer.is_invalid_argument() {
        return Turn::Terminal(Terminal::Source(answer));
    }
    Turn::Passed(Records::ended(false, Some(MetricsErrorKind::ClientCreation)))
}

/// A client failure is never a denial.
fn failure_turn(synced: bool, fault: ClientFault) -> Turn
    ensures may { (limits : ResourceLimits) → MayTake limits synced result }
    ensures turn { IsTurn (if synced then None else client_rejected fault) OutcomePassed
        (ended synced (Some kinds.ClientCreation)) result }
{
    if synced {
        return Turn::Passed(Records::ended(true, Some(MetricsErrorKind::ClientCreation)));
    }
    match fault {
        ClientFault::Status(status) => {
            initial_failure_turn(WorkloadApiError::from_status(status))
        }
        ClientFault::Unreachable(_) | ClientFault::OutOfMemory => {
            Turn::Passed(Records::ended(false, Some(MetricsErrorKind::ClientCreation)))
        }
    }
}

fn moment_turn(synced: bool, deadline: Option<i64>, moment: i64) -> Turn
    ensures may { (limits : ResourceLimits) → MayTake limits synced result }
    ensures turn { IsTurn (if synced then None else timed_out deadline moment) OutcomePassed []
        result }
{
    match deadline {
        Some(deadline) if !synced && deadline <= moment => {
            Turn::Terminal(Terminal::InitialSyncTimeout)
        }
        _ => Turn::Passed(Records::none()),
    }
}

fn close_turn(synced: bool) -> Turn
    ensures may { (limits : ResourceLimits) → MayTake limits synced result }
    ensures turn { IsTurn (if synced then None else Some terminal.Closed) OutcomePassed [] result }
{
    if synced {
        Turn::Passed(Records::none())
    } else {
        Turn::Terminal(Terminal::Closed)
    }
}

/// Whether this item may be the first accepted one.
fn may_sync(context: &X509Context, choice: Option<usize>, ready: Ready, now: Option<i64>) -> bool
    ensures { result
        ≡ items_spec.may_sync ready (record { context = context.now; choice = choice }) now }
{
    match ready {
        Ready::Usable => usable(chosen(context, choice), now).is_some(),
        Ready::Any => true,
    }
}

fn item_turn<C: SvidPicker>(
    rules: SessionRules,
    picker: Option<&C>,
    synced: bool,
    now: Option<i64>,
    context: X509Context,
) -> Turn
    requires { ForSome picker (λ p. C.can_pick p.now) }
    ensures may { MayTake rules.limits synced result }
    ensures turn { IsTurn None
        (received_outcome
        (rules_with rules.limits rules.deadline rules.ready
        (option_map (λ p. C.picks p.now) picker.entry)) synced now (events.Item (Some context)))
        (kept_out synced (within rules.limits context)) result }
{
    if let Err(broken) = validate_limits(&context, rules.limits) {
        return Turn::Passed(Records::over(synced, broken.kind));
    }
    let choice = select_svid(&context, picker);
    if !synced && !may_sync(&context, choice, rules.ready, now) {
        return Turn::Passed(Records::ended(false, Some(MetricsErrorKind::NoSuitableSvid)));
    }
    Turn::Accepted { context, choice }
}

/// Returns what an event does, where an item was accepted before it or not, and at the last moment
/// before it.
pub fn turn_of<C: SvidPicker>(
    rules: SessionRules,
    picker: Option<&C>,
    synced: bool,
    now: Option<i64>,
    event: Received,
) -> Turn
    requires { ForSome picker (λ p. C.can_pick p.now) }
    ensures may { MayTake rules.limits synced result }
    ensures turn { IsTurn (received_refusal rules.deadline synced event)
        (received_outcome
        (rules_with rules.limits rules.deadline rules.ready
        (option_map (λ p. C.picks p.now) picker.entry)) synced now event)
        (received_records synced rules.limits event) result }
{
    match event {
        Received::ClientMade | Received::Connected => Turn::Passed(Records::none()),
        Received::ClientFailed(fault) => failure_turn(synced, fault),
        Received::ConnectStatus(status) => connect_turn(synced, status),
        Received::ItemStatus(status) => item_status_turn(synced, status),
        Received::Item(None) => Turn::Passed(Records::ended(
            synced,
            Some(MetricsErrorKind::StreamError),
        )),
        Received::Item(Some(context)) => item_turn(rules, picker, synced, now, context),
        Received::StreamEnd => Turn::Passed(Records::ended(
            synced,
            Some(MetricsErrorKind::StreamEnded),
        )),
        Received::Moment(moment) => moment_turn(synced, rules.deadline, moment),
        Received::Close => close_turn(synced),
    }
}
