//! Following an update stream: its steps, its records and its lines.

ghost use Rattle.std.specs.Prelude.{◌≡◌, ◌<◌, ◌-◌, ◌^◌, ◌∷◌, [], false, None, Some, Ok, Err};
ghost use Rattle.std.specs.Prelude.{IsTrue, IfOk, IfErr, OnOk, OnErr, List, is_some, if◌then◌else◌};
ghost use Rattle.std.specs.Option.{ForSome, option_map, option_or};
ghost use Rattle.spf_view.specs.Sessions.{Followed};
ghost use Rattle.spf_view.specs.Keeping.{kept_with};
ghost use Rattle.spf_frame.specs.Parts.{FailureHasCause};
ghost use Rattle.spf_feed.specs.Records.{RecordAppends, AppendsOnce};
ghost use Rattle.spf_feed.specs.Steps.{plain, is_accept, HasStep, MayFollow, same_material};
ghost use Rattle.spf_feed.specs.Turns.{MayTake, listed};
ghost use Rattle.spf_feed.specs.Events.{event_at};
ghost use Rattle.spf_feed.specs.Items.{Event as SessionOf, context_in, item_at, Rules, rules_with};
ghost use Rattle.spf_feed.specs.declared.follow_error.FollowError.TheVariants as follow_errors;
ghost use Rattle.spf_frame.specs.declared.error.FrameError.TheVariants as errors;
ghost use Rattle.spf_feed.specs.Received.{received_moment, received_close};
ghost use Rattle.spf_feed.specs.Run.{ask_of, stream, outputs, end_for};
ghost use Rattle.spf_feed.specs.Following.{is_failure, FailuresHaveCauses, OnlyAllowed, EventRead};
ghost use Rattle.spf_feed.specs.Following.{HandsOn, IsShownAfter, IsTaken, change_of, is_changed};
ghost use Rattle.spf_feed.specs.Following.{update_of, TurnTaken, FollowedBy};
ghost use Rattle.spf_feed.specs.Following as spec;
ghost use Rattle.spf_feed.specs.Shown.{shown_text};
ghost use Rattle.spf_view.specs.Views.{Waiting};

use crate::follow_error::FollowError;
use crate::frame::next_frame;
use crate::limits::ResourceLimits;
use crate::line::NumberedLine;
use crate::payload::{Received, event_in};
use crate::phase::{Phase, phase_after};
use crate::picker::SvidPicker;
use crate::prepared::Prepared;
use crate::ready::Ready;
use crate::record::{MetricsRecord, MetricsRecorder};
use crate::sharing::{NoSharing, Sharing};
use crate::snapshot::Snapshot;
use crate::step::{Publisher, Step};
use crate::turn::{Records, SessionRules, Turn, turn_of};
use spf_frame::{FrameError, Payload, frame_kind};
use spf_io::{OutOfMemory, Sink, Source};
use spf_x509::X509Context;
use std::alloc::Global;
use std::sync::Arc;

/// The context that the snapshot holds.
fn held_context(snapshot: &Option<Snapshot>) -> Option<&X509Context> {
    match snapshot {
        Some(snapshot) => snapshot.context(),
        None => None,
    }
}

/// The event that a frame lays out. An item whose context is known beside the source is not read,
/// and what another one has of the bytes of the held context is shared.
#[inline(always)]
#[tactic(auto, unfolding(crate::specs::Events::event_at))]
fn event_of<S, W: Sharing<S>>(
    alloc: Global,
    source: &S,
    kind: u8,
    payload: &[u8],
    held: Option<&X509Context>,
) -> Result<Option<Received>, OutOfMemory>
    ensures { IfOk result (λ o. o ≡ event_at item_at kind payload.now) }
{
    if kind == frame_kind::ITEM {
        if let Some(context) = W::context(source, payload) {
            return Ok(Some(Received::Item(Some(context.try_clone(alloc)?))));
        }
    }
    event_in(alloc, kind, payload, held)
}

/// The next event. Its payload is read into the buffer.
fn next_event<S: Source, W: Sharing<S>>(
    alloc: Global,
    source: &mut S,
    payload: &mut Payload,
    phase: Phase,
    allowed: bool,
    held: Option<&X509Context>,
) -> Result<Option<Received>, FrameError>
    ensures cause { FailureHasCause (S.failures source.old) (S.failures source.new) result }
    ensures allowed { OnlyAllowed allowed result }
    ensures bytes { (rules : Rules) (past : List SessionOf) → ask_of context_in rules past ≡ phase
        → EventRead context_in (stream rules) past allowed (S.left source.old) (S.left source.new)
        result }
{
    let kind = match next_frame(source, payload, phase, allowed)? {
        Some(kind) => kind,
        None => return Ok(None),
    };
    match event_of::<S, W>(alloc, source, kind, payload.as_slice(), held) {
        Ok(Some(event)) => Ok(Some(event)),
        Ok(None) => Err(FrameError::BadFrame),
        Err(_) => Err(FrameError::OutOfMemory),
    }
}

/// The error that a session ends with, where no event was read after `count` of them.
fn error_at(count: u64, e: FrameError) -> FollowError
    requires { e ≡ errors.BadFrame → count < 2 ^ 64 - 1 }
    ensures { result ≡ spec.error_at count e }
{
    match e {
        FrameError::TooLong => FollowError::SessionTooLong,
        FrameError::BadFrame => FollowError::BadFrame { frame: count + 1 },
        FrameError::ReadFault => FollowError::ReadFault,
        FrameError::OutOfMemory => FollowError::OutOfMemory,
    }
}

fn is_close(event: &Received) -> bool
    ensures { result ≡ received_close event.now }
{
    matches!(event, Received::Close)
}

/// Returns the last moment after an event.
pub fn moment_after(now: Option<i64>, event: &Received) -> Option<i64>
    ensures { result ≡ option_or (received_moment event.now) now }
{
    match event {
        Received::Moment(moment) => Some(*moment),
        _ => now,
    }
}

fn record_one<M: MetricsRecorder>(recorder: &mut M, entry: MetricsRecord) -> Result<(), OutOfMemory>
    ensures { RecordAppends (M.records recorder.old) (M.records recorder.new) result entry }
{
    match entry {
        MetricsRecord::Update => recorder.record_update(),
        MetricsRecord::Reconnect => recorder.record_reconnect(),
        MetricsRecord::Error(kind) => recorder.record_error(kind),
    }
}

pub fn record_all<M: MetricsRecorder>(recorder: &mut M, records: Records) -> Result<(), OutOfMemory>
    ensures { HandsOn (M.records recorder.old) (M.records recorder.new) result (listed records) }
{
    if let Some(kind) = records.error {
        recorder.record_error(kind)?;
    }
    if let Some(end) = records.end {
        record_one(recorder, end)?;
    }
    Ok(())
}

/// What a step changes.
#[derive(Clone, Copy, Debug, PartialEq, Eq)]
pub enum Change {
    Opened,
    Changed,
    Unchanged,
}

/// Applies one more step, which opens the snapshot where there is none yet.
fn take_step(snapshot: &mut Option<Snapshot>, step: Prepared) -> Change
    requires { snapshot.old ≡ None → IsTrue (is_accept step) }
    ensures change { result ≡ change_of snapshot.old step }
    ensures kept { snapshot.new ≡ kept_with same_material snapshot.old step }
{
    match snapshot {
        None => {
            *snapshot = Some(Snapshot::opening(step));
            Change::Opened
        }
        Some(standing) => {
            if !standing.is_changed_by(&step) {
                return Change::Unchanged;
            }
            standing.show(step);
            Change::Changed
        }
    }
}

/// Whether the snapshot holds what the step accepts, member by member and in order.
fn is_held(snapshot: &Option<Snapshot>, step: &Step) -> bool
    ensures change { IsTrue result → change_of snapshot.now (plain step.now) ≡ Change.Unchanged }
    ensures kept { IsTrue result
        → kept_with same_material snapshot.now (plain step.now) ≡ snapshot.now }
{
    match snapshot {
        Some(snapshot) => snapshot.holds(step),
        None => false,
    }
}

/// Prepares a step, publishes it, and then applies it to the snapshot. A step that accepts what is
/// held needs no preparation.
pub fn publish<P: Publisher>(
    alloc: Global,
    publisher: &mut P,
    snapshot: &mut Option<Snapshot>,
    step: Step,
) -> Result<Change, OutOfMemory>
    requires next { MayFollow (P.steps publisher.old) (plain step) }
    requires first { snapshot.old ≡ None → IsTrue (is_accept (plain step)) }
    ensures synced { OnOk result (HasStep (P.steps publisher.new)) }
    ensures appends { AppendsOnce (P.steps publisher.old) (P.steps publisher.new) result
        (plain step) }
    ensures steps { HandsOn (P.steps publisher.old) (P.steps publisher.new) result
        (plain step ∷ []) }
    ensures change { IfOk result (λ c. c ≡ change_of snapshot.old (plain step)) }
    ensures kept { OnOk result (snapshot.new ≡ kept_with same_material snapshot.old (plain step)) }
    ensures unchanged { OnErr result (snapshot.new ≡ snapshot.old) }
    ensures target { P.target publisher.new ≡ P.target publisher.old }
{
    if is_held(snapshot, &step) {
        publisher.publish(step)?;
        return Ok(Change::Unchanged);
    }
    let published = step.try_clone()?;
    let prepared = Prepared::new(alloc, step)?;
    publisher.publish(published)?;
    Ok(take_step(snapshot, prepared))
}

/// Records an update where something else is visible than before.
fn record_change<M: MetricsRecorder>(recorder: &mut M, change: Change) -> Result<(), OutOfMemory>
    ensures { HandsOn (M.records recorder.old) (M.records recorder.new) result (update_of change) }
{
    match change {
        Change::Changed => recorder.record_update(),
        Change::Opened | Change::Unchanged => Ok(()),
    }
}

/// Whether something else is visible than before.
fn is_change(change: Change) -> bool
    ensures { result ≡ is_changed change }
{
    match change {
        Change::Opened | Change::Changed => true,
        Change::Unchanged => false,
    }
}

/// An accepted context: its step, and its record.
fn accept<P: Publisher, M: MetricsRecorder>(
    alloc: Global,
    publisher: &mut P,
    recorder: &mut M,
    snapshot: &mut Option<Snapshot>,
    step: Step,
) -> Result<bool, OutOfMemory>
    requires next { MayFollow (P.steps publisher.old) (plain step) }
    requires first { snapshot.old ≡ None → IsTrue (is_accept (plain step)) }
    ensures synced { OnOk result (HasStep (P.steps publisher.new)) }
    ensures taken { IsTaken (Some (plain step)) (update_of (change_of snapshot.old (plain step)))
        (record {
          kept = snapshot.old;
          steps = P.steps publisher.old;
          records = M.records recorder.old;
        })
        (record {
          kept = snapshot.new;
          steps = P.steps publisher.new;
          records = M.records recorder.new;
        }) result }
{
    let change = publish(alloc, publisher, snapshot, step)?;
    record_change(recorder, change)?;
    Ok(is_change(change))
}

/// A denial: its step, and its records.
fn deny<P: Publisher, M: MetricsRecorder>(
    alloc: Global,
    publisher: &mut P,
    recorder: &mut M,
    snapshot: &mut Option<Snapshot>,
    step: Step,
    records: Records,
) -> Result<bool, OutOfMemory>
    requires next { MayFollow (P.steps publisher.old) (plain step) }
    requires first { snapshot.old ≡ None → IsTrue (is_accept (plain step)) }
    ensures synced { OnOk result (HasStep (P.steps publisher.new)) }
    ensures taken { IsTaken (Some (plain step)) (listed records)
        (record {
          kept = snapshot.old;
          steps = P.steps publisher.old;
          records = M.records recorder.old;
        })
        (record {
          kept = snapshot.new;
          steps = P.steps publisher.new;
          records = M.records recorder.new;
        }) result }
{
    let change = publish(alloc, publisher, snapshot, step)?;
    record_all(recorder, records)?;
    Ok(is_change(change))
}

/// Does what an event does, and returns whether the snapshot changed.
#[inline(always)]
fn take<P: Publisher, M: MetricsRecorder>(
    alloc: Global,
    publisher: &mut P,
    recorder: &mut M,
    snapshot: &mut Option<Snapshot>,
    limits: ResourceLimits,
    turn: Turn,
) -> Result<bool, FollowError>
    requires turn { MayTake limits (is_some snapshot.old) turn }
    requires synced { IsTrue (is_some snapshot.old) → HasStep (P.steps publisher.old) }
    ensures synced { OnOk result (IsTrue (is_some snapshot.new) → HasStep (P.steps publisher.new)) }
    ensures calm { IfErr result (λ e. is_failure e ≡ false) }
    ensures turn { TurnTaken limits turn
        (record {
          kept = snapshot.old;
          steps = P.steps publisher.old;
          records = M.records recorder.old;
        })
        (record {
          kept = snapshot.new;
          steps = P.steps publisher.new;
          records = M.records recorder.new;
        }) result }
{
    match turn {
        Turn::Terminal(terminal) => Err(FollowError::from(terminal)),
        Turn::Passed(records) => {
            record_all(recorder, records)?;
            Ok(false)
        }
        Turn::Denied { reason, records } => {
            let step = Step::Deny {
                reason: Arc::new(alloc, reason)?,
            };
            Ok(deny(alloc, publisher, recorder, snapshot, step, records)?)
        }
        Turn::Accepted { context, choice } => {
            let step = Step::Accept {
                context: Arc::new(alloc, context)?,
                limits,
                choice,
            };
            Ok(accept(alloc, publisher, recorder, snapshot, step)?)
        }
    }
}

/// The result at the end of the input.
fn at_end(snapshot: &Option<Snapshot>, count: u64) -> Result<u64, FollowError>
    ensures calm { IfErr result (λ e. is_failure e ≡ false) }
    ensures answer { result
        ≡ (if is_some snapshot.now then Ok count else Err follow_errors.NeverSynced) }
{
    match snapshot {
        Some(_) => Ok(count),
        None => Err(FollowError::NeverSynced),
    }
}

/// Shows the snapshot in the line, where there is one.
#[inline(always)]
fn show(
    line: &mut NumberedLine,
    snapshot: &Option<Snapshot>,
    is_changed: bool,
    now: Option<i64>,
) -> Result<(), OutOfMemory>
    ensures { OnOk result (IsShownAfter line.old line.new snapshot.now is_changed now) }
{
    match snapshot {
        Some(snapshot) => line.show(snapshot, is_changed, now),
        None => Ok(()),
    }
}

/// Follows the events of a stream that nothing was read of yet. What is kept between them is lent,
/// so that none of it is dropped where the loop ends.
#[inline(always)]
fn follow_events<
    S: Source,
    K: Sink,
    P: Publisher,
    M: MetricsRecorder,
    C: SvidPicker,
    W: Sharing<S>,
>(
    alloc: Global,
    source: &mut S,
    sink: &mut K,
    publisher: &mut P,
    recorder: &mut M,
    rules: SessionRules,
    max_frames: u64,
    picker: Option<&C>,
    payload: &mut Payload,
    line: &mut NumberedLine,
    snapshot: &mut Option<Snapshot>,
) -> Result<u64, FollowError>
    requires picker { ForSome picker (λ p. C.can_pick p.now) }
    requires line { line.old.text ≡ shown_text Waiting 0 None }
    requires snapshot { snapshot.old ≡ None }
    ensures followed { FollowedBy
        (rules_with rules.limits rules.deadline rules.ready
        (option_map (λ p. C.picks p.now) picker.entry)) max_frames
        (record {
          left = S.left source.old;
          held = K.held sink.old;
          steps = P.steps publisher.old;
          records = M.records recorder.old;
        })
        (record {
          left = S.left source.new;
          held = K.held sink.new;
          steps = P.steps publisher.new;
          records = M.records recorder.new;
        }) result }
    ensures cause { FailuresHaveCauses
        (record { reads = S.failures source.old; writes = K.failures sink.old })
        (record { reads = S.failures source.new; writes = K.failures sink.new }) result }
{
    let mut phase = Phase::Client;
    let mut now = None;
    let mut count = 0;
    'events: loop {
        let allowed = count < max_frames;
        let held = held_context(snapshot);
        let event = match next_event::<S, W>(alloc, source, payload, phase, allowed, held) {
            Ok(Some(event)) => event,
            Ok(None) => return at_end(snapshot, count),
            Err(e) => return Err(error_at(count, e)),
        };
        count += 1;
        let is_close = is_close(&event);
        let synced = snapshot.is_some();
        phase = phase_after(phase, synced, &event);
        let moment = moment_after(now, &event);
        let turn = turn_of(rules, picker, synced, now, event);
        now = moment;
        let is_changed = take(alloc, publisher, recorder, snapshot, rules.limits, turn)?;
        show(line, snapshot, is_changed, now)?;
        match line.put(sink, count) {
            Ok(()) => {}
            Err(_) => return Err(FollowError::WriteFault),
        }
        if is_close {
            return Ok(count);
        }
    }
}

/// Follows an update stream as [`follow_x509`] does. An item whose context is known beside the
/// source is shared and not read again.
pub fn follow_x509_sharing<
    S: Source,
    K: Sink,
    P: Publisher,
    M: MetricsRecorder,
    C: SvidPicker,
    W: Sharing<S>,
>(
    alloc: Global,
    source: &mut S,
    sink: &mut K,
    publisher: &mut P,
    recorder: &mut M,
    limits: ResourceLimits,
    deadline: Option<i64>,
    max_frames: u64,
    picker: Option<&C>,
    ready: Ready,
) -> Result<u64, FollowError>
    requires { ForSome picker (λ p. C.can_pick p.now) }
    ensures followed { FollowedBy
        (rules_with limits deadline ready (option_map (λ p. C.picks p.now) picker.entry)) max_frames
        (record {
          left = S.left source.old;
          held = K.held sink.old;
          steps = P.steps publisher.old;
          records = M.records recorder.old;
        })
        (record {
          left = S.left source.new;
          held = K.held sink.new;
          steps = P.steps publisher.new;
          records = M.records recorder.new;
        }) result }
    ensures cause { FailuresHaveCauses
        (record { reads = S.failures source.old; writes = K.failures sink.old })
        (record { reads = S.failures source.new; writes = K.failures sink.new }) result }
{
    let rules = SessionRules {
        limits,
        deadline,
        ready,
    };
    let mut payload = Payload::new(alloc);
    let mut line = NumberedLine::new(alloc)?;
    let mut snapshot = None;
    let followed = follow_events::<S, K, P, M, C, W>(
        alloc,
        source,
        sink,
        publisher,
        recorder,
        rules,
        max_frames,
        picker,
        &mut payload,
        &mut line,
        &mut snapshot,
    );
    drop(snapshot);
    drop(line);
    drop(payload);
    followed
}

/// Follows an update stream of at most `max_frames` frames to its end or its close. Each event is
/// read, published, recorded and shown by a line, in that order. It returns the number of events.
pub fn follow_x509<S: Source, K: Sink, P: Publisher, M: MetricsRecorder, C: SvidPicker>(
    alloc: Global,
    source: &mut S,
    sink: &mut K,
    publisher: &mut P,
    recorder: &mut M,
    limits: ResourceLimits,
    deadline: Option<i64>,
    max_frames: u64,
    picker: Option<&C>,
    ready: Ready,
) -> Result<u64, FollowError>
    requires { ForSome picker (λ p. C.can_pick p.now) }

    // What is read, put, published, recorded and returned belongs to one list of events.
    ensures followed { Followed
        (stream (rules_with limits deadline ready (option_map (λ p. C.picks p.now) picker.entry)))
        (outputs (rules_with limits deadline ready (option_map (λ p. C.picks p.now) picker.entry)))
        max_frames
        (record {
          left = S.left source.old;
          held = K.held sink.old;
          steps = P.steps publisher.old;
          records = M.records recorder.old;
        })
        (record {
          left = S.left source.new;
          held = K.held sink.new;
          steps = P.steps publisher.new;
          records = M.records recorder.new;
        })
        (end_for result) }

    // A fault comes only where its count rose.
    ensures cause { FailuresHaveCauses
        (record { reads = S.failures source.old; writes = K.failures sink.old })
        (record { reads = S.failures source.new; writes = K.failures sink.new }) result }
{
    follow_x509_sharing::<S, K, P, M, C, NoSharing>(
        alloc, source, sink, publisher, recorder, limits, deadline, max_frames, picker, ready,
    )
}
