//! Following an update stream: its steps, its records and its lines.

ghost use Rattle.std.specs.Prelude.{◌≡◌, ◌<◌, ◌-◌, ◌^◌, ◌∷◌, [], false, None, Some, Ok, Err};
ghost use Rattle.std.specs.Prelude.{IsTrue, IfOk, IfErr, OnOk, OnErr, List, is_some, if◌then◌else◌};
ghost use Rattle.spf_view.specs.Sessions.{Followed};
ghost use Rattle.spf_view.specs.Keeping.{kept_with};
ghost use Rattle.spf_frame.specs.Parts.{FailureHasCause};
ghost use Rattle.spf_frame.specs.declared.error.FrameError.TheVariants as errors;
ghost use Rattle.spf_feed.specs.declared.follow_error.FollowError.TheVariants as follow_errors;
ghost use Rattle.spf_feed.specs.Records.{RecordAppends, AppendsOnce};
ghost use Rattle.spf_feed.specs.Run.{end_for};
ghost use Rattle.spf_feed.specs.Following.{is_failure, FailuresHaveCauses, OnlyAllowed, HandsOn};
ghost use Rattle.spf_feed.specs.Following.{is_changed, EventRead};
ghost use Rattle.spf_feed.specs.Following as feed;
ghost use Rattle.spf_jwt.specs.Bundle.{set_eq};
ghost use Rattle.spf_jwt_feed.specs.Items.{Event, Rules, item_in};
ghost use Rattle.spf_jwt_feed.specs.Received.{received_close};
ghost use Rattle.spf_jwt_feed.specs.Run.{ask_of, stream, outputs};
ghost use Rattle.spf_jwt_feed.specs.Steps.{plain, is_accept, HasStep, MayFollow};
ghost use Rattle.spf_jwt_feed.specs.Turns.{MayTake, listed};
ghost use Rattle.spf_jwt_feed.specs.Following.{IsShownAfter, IsTaken, change_of};
ghost use Rattle.spf_jwt_feed.specs.Following.{update_of, TurnTaken};
ghost use Rattle.spf_jwt_feed.specs.Shown.{shown_text};
ghost use Rattle.spf_view.specs.Views.{Waiting};

use crate::event::JwtReceived;
use crate::line::NumberedLine;
use crate::payload::event_in;
use crate::phase::phase_after;
use crate::record::{JwtMetricsRecord, JwtMetricsRecorder};
use crate::snapshot::JwtSnapshot;
use crate::step::{JwtPublisher, JwtStep};
use crate::turn::{Records, Turn, turn_of};
use spf_feed::{Change, FollowError, Phase};
use spf_frame::{FrameError, Payload, next_frame};
use spf_io::{OutOfMemory, Sink, Source};
use spf_jwt::{JwtBundleSet, JwtResourceLimits};
use std::alloc::Global;
use std::sync::Arc;

/// The bundle set that the snapshot holds.
fn held_set(snapshot: &Option<JwtSnapshot>) -> Option<&JwtBundleSet> {
    match snapshot {
        Some(snapshot) => snapshot.bundle_set(),
        None => None,
    }
}

/// The next event. Its payload is read into the buffer, and
/// what it has of the bytes of the held bundle set is shared.
fn next_event<S: Source>(
    alloc: Global,
    source: &mut S,
    payload: &mut Payload,
    phase: Phase,
    allowed: bool,
    held: Option<&JwtBundleSet>,
) -> Result<Option<JwtReceived>, FrameError>
    ensures cause { FailureHasCause (S.failures source.old) (S.failures source.new) result }
    ensures allowed { OnlyAllowed allowed result }
    ensures bytes { (rules : Rules) (past : List Event) → ask_of item_in rules past ≡ phase
        → EventRead item_in (stream rules) past allowed (S.left source.old) (S.left source.new)
        result }
{
    let kind = match next_frame(source, payload, &phase, allowed)? {
        Some(kind) => kind,
        None => return Ok(None),
    };
    match event_in(alloc, kind, payload.as_slice(), held) {
        Ok(Some(event)) => Ok(Some(event)),
        Ok(None) => Err(FrameError::BadFrame),
        Err(_) => Err(FrameError::OutOfMemory),
    }
}

/// The error that a session ends with, where no event was read after `count` of them.
fn error_at(count: u64, e: FrameError) -> FollowError
    requires { e ≡ errors.BadFrame → count < 2 ^ 64 - 1 }
    ensures { result ≡ feed.error_at count e }
{
    match e {
        FrameError::TooLong => FollowError::SessionTooLong,
        FrameError::BadFrame => FollowError::BadFrame { frame: count + 1 },
        FrameError::ReadFault => FollowError::ReadFault,
        FrameError::OutOfMemory => FollowError::OutOfMemory,
    }
}

fn is_close(event: &JwtReceived) -> bool
    ensures { result ≡ received_close event.now }
{
    matches!(event, JwtReceived::Close)
}

fn record_one<M: JwtMetricsRecorder>(
    recorder: &mut M,
    entry: JwtMetricsRecord,
) -> Result<(), OutOfMemory>
    ensures { RecordAppends (M.records recorder.old) (M.records recorder.new) result entry }
{
    match entry {
        JwtMetricsRecord::Update => recorder.record_update(),
        JwtMetricsRecord::Reconnect => recorder.record_reconnect(),
        JwtMetricsRecord::Error(kind) => recorder.record_error(kind),
    }
}

/// Passes the records to the recorder, in order.
pub fn record_all<M: JwtMetricsRecorder>(
    recorder: &mut M,
    records: Records,
) -> Result<(), OutOfMemory>
    ensures { HandsOn (M.records recorder.old) (M.records recorder.new) result (listed records) }
{
    if let Some(kind) = records.error {
        recorder.record_error(kind)?;
    }
    if let Some(end) = records.end {
        record_one(recorder, end)?;
    }
    Ok(())
}

/// Applies one more step, which opens the snapshot where there is none yet.
fn take_step(snapshot: &mut Option<JwtSnapshot>, step: JwtStep) -> Change
    requires { snapshot.old ≡ None → IsTrue (is_accept (plain step)) }
    ensures change { result ≡ change_of snapshot.old (plain step) }
    ensures kept { snapshot.new ≡ kept_with set_eq snapshot.old (plain step) }
{
    match snapshot {
        None => {
            *snapshot = Some(JwtSnapshot::opening(step));
            Change::Opened
        }
        Some(standing) => {
            if !standing.is_changed_by(&step) {
                return Change::Unchanged;
            }
            standing.show(step);
            Change::Changed
        }
    }
}

/// Publishes a step, and then applies it to the snapshot.
pub fn publish<P: JwtPublisher>(
    publisher: &mut P,
    snapshot: &mut Option<JwtSnapshot>,
    step: JwtStep,
) -> Result<Change, OutOfMemory>
    requires next { MayFollow (P.steps publisher.old) (plain step) }
    requires first { snapshot.old ≡ None → IsTrue (is_accept (plain step)) }
    ensures synced { OnOk result (HasStep (P.steps publisher.new)) }
    ensures appends { AppendsOnce (P.steps publisher.old) (P.steps publisher.new) result
        (plain step) }
    ensures steps { HandsOn (P.steps publisher.old) (P.steps publisher.new) result
        (plain step ∷ []) }
    ensures change { IfOk result (λ c. c ≡ change_of snapshot.old (plain step)) }
    ensures kept { OnOk result (snapshot.new ≡ kept_with set_eq snapshot.old (plain step)) }
    ensures unchanged { OnErr result (snapshot.new ≡ snapshot.old) }
    ensures target { P.target publisher.new ≡ P.target publisher.old }
{
    let published = step.try_clone()?;
    publisher.publish(published)?;
    Ok(take_step(snapshot, step))
}

/// Records an update where something else is visible than before.
fn record_change<M: JwtMetricsRecorder>(recorder: &mut M, change: Change) -> Result<(), OutOfMemory>
    ensures { HandsOn (M.records recorder.old) (M.records recorder.new) result (update_of change) }
{
    match change {
        Change::Changed => recorder.record_update(),
        Change::Opened | Change::Unchanged => Ok(()),
    }
}

/// Whether something else is visible than before.
fn is_change(change: Change) -> bool
    ensures { result ≡ is_changed change }
{
    match change {
        Change::Opened | Change::Changed => true,
        Change::Unchanged => false,
    }
}

/// An accepted bundle set: its step, and its record.
fn accept<P: JwtPublisher, M: JwtMetricsRecorder>(
    publisher: &mut P,
    recorder: &mut M,
    snapshot: &mut Option<JwtSnapshot>,
    step: JwtStep,
) -> Result<bool, OutOfMemory>
    requires next { MayFollow (P.steps publisher.old) (plain step) }
    requires first { snapshot.old ≡ None → IsTrue (is_accept (plain step)) }
    ensures synced { OnOk result (HasStep (P.steps publisher.new)) }
    ensures taken { IsTaken (Some (plain step)) (update_of (change_of snapshot.old (plain step)))
        (record {
          kept = snapshot.old;
          steps = P.steps publisher.old;
          records = M.records recorder.old;
        })
        (record {
          kept = snapshot.new;
          steps = P.steps publisher.new;
          records = M.records recorder.new;
        }) result }
{
    let change = publish(publisher, snapshot, step)?;
    record_change(recorder, change)?;
    Ok(is_change(change))
}

/// A denial: its step, and its records.
fn deny<P: JwtPublisher, M: JwtMetricsRecorder>(
    publisher: &mut P,
    recorder: &mut M,
    snapshot: &mut Option<JwtSnapshot>,
    step: JwtStep,
    records: Records,
) -> Result<bool, OutOfMemory>
    requires next { MayFollow (P.steps publisher.old) (plain step) }
    requires first { snapshot.old ≡ None → IsTrue (is_accept (plain step)) }
    ensures synced { OnOk result (HasStep (P.steps publisher.new)) }
    ensures taken { IsTaken (Some (plain step)) (listed records)
        (record {
          kept = snapshot.old;
          steps = P.steps publisher.old;
          records = M.records recorder.old;
        })
        (record {
          kept = snapshot.new;
          steps = P.steps publisher.new;
          records = M.records recorder.new;
        }) result }
{
    let change = publish(publisher, snapshot, step)?;
    record_all(recorder, records)?;
    Ok(is_change(change))
}

/// Does what an event does, and returns whether the snapshot changed.
fn take<P: JwtPublisher, M: JwtMetricsRecorder>(
    alloc: Global,
    publisher: &mut P,
    recorder: &mut M,
    snapshot: &mut Option<JwtSnapshot>,
    limits: JwtResourceLimits,
    turn: Turn,
) -> Result<bool, FollowError>
    requires turn { MayTake limits (is_some snapshot.old) turn }
    requires synced { IsTrue (is_some snapshot.old) → HasStep (P.steps publisher.old) }
    ensures synced { OnOk result (IsTrue (is_some snapshot.new) → HasStep (P.steps publisher.new)) }
    ensures calm { IfErr result (λ e. is_failure e ≡ false) }
    ensures turn { TurnTaken limits turn
        (record {
          kept = snapshot.old;
          steps = P.steps publisher.old;
          records = M.records recorder.old;
        })
        (record {
          kept = snapshot.new;
          steps = P.steps publisher.new;
          records = M.records recorder.new;
        }) result }
{
    match turn {
        Turn::Terminal(terminal) => Err(FollowError::from(terminal)),
        Turn::Passed(records) => {
            record_all(recorder, records)?;
            Ok(false)
        }
        Turn::Denied { reason, records } => {
            let step = JwtStep::Deny {
                reason: Arc::new(alloc, reason)?,
            };
            Ok(deny(publisher, recorder, snapshot, step, records)?)
        }
        Turn::Accepted(bundle_set) => {
            let step = JwtStep::Accept {
                bundle_set: Arc::new(alloc, bundle_set)?,
                limits,
            };
            Ok(accept(publisher, recorder, snapshot, step)?)
        }
    }
}

/// The result at the end of the input.
fn at_end(snapshot: &Option<JwtSnapshot>, count: u64) -> Result<u64, FollowError>
    ensures calm { IfErr result (λ e. is_failure e ≡ false) }
    ensures answer { result
        ≡ (if is_some snapshot.now then Ok count else Err follow_errors.NeverSynced) }
{
    match snapshot {
        Some(_) => Ok(count),
        None => Err(FollowError::NeverSynced),
    }
}

/// Shows the snapshot in the line, where it changed.
fn show(
    line: &mut NumberedLine,
    snapshot: &Option<JwtSnapshot>,
    is_changed: bool,
) -> Result<(), OutOfMemory>
    ensures { OnOk result (IsShownAfter line.old line.new snapshot.now is_changed) }
{
    match snapshot {
        Some(snapshot) if is_changed => line.write(snapshot),
        _ => Ok(()),
    }
}

/// Follows the events of a stream that nothing was read of yet. What is kept between them is lent,
/// so that none of it is dropped where the loop ends.
#[inline(always)]
fn follow_events<S: Source, K: Sink, P: JwtPublisher, M: JwtMetricsRecorder>(
    alloc: Global,
    source: &mut S,
    sink: &mut K,
    publisher: &mut P,
    recorder: &mut M,
    limits: JwtResourceLimits,
    deadline: Option<i64>,
    max_frames: u64,
    payload: &mut Payload,
    line: &mut NumberedLine,
    snapshot: &mut Option<JwtSnapshot>,
) -> Result<u64, FollowError>
    requires line { line.old ≡ shown_text Waiting 0 }
    requires snapshot { snapshot.old ≡ None }
    ensures followed { Followed (stream (record { limits = limits; deadline = deadline }))
        (outputs (record { limits = limits; deadline = deadline })) max_frames
        (record {
          left = S.left source.old;
          held = K.held sink.old;
          steps = P.steps publisher.old;
          records = M.records recorder.old;
        })
        (record {
          left = S.left source.new;
          held = K.held sink.new;
          steps = P.steps publisher.new;
          records = M.records recorder.new;
        })
        (end_for result) }
    ensures cause { FailuresHaveCauses
        (record { reads = S.failures source.old; writes = K.failures sink.old })
        (record { reads = S.failures source.new; writes = K.failures sink.new }) result }
{
    let mut phase = Phase::Client;
    let mut count = 0;
    'events: loop {
        let allowed = count < max_frames;
        let held = held_set(snapshot);
        let event = match next_event(alloc, source, payload, phase, allowed, held) {
            Ok(Some(event)) => event,
            Ok(None) => return at_end(snapshot, count),
            Err(e) => return Err(error_at(count, e)),
        };
        count += 1;
        let is_close = is_close(&event);
        let synced = snapshot.is_some();
        phase = phase_after(phase, synced, &event);
        let turn = turn_of(limits, deadline, synced, event);
        let is_changed = take(alloc, publisher, recorder, snapshot, limits, turn)?;
        show(line, snapshot, is_changed)?;
        match line.put(sink, count) {
            Ok(()) => {}
            Err(_) => return Err(FollowError::WriteFault),
        }
        if is_close {
            return Ok(count);
        }
    }
}

/// Follows an update stream of at most `max_frames` frames to its end or its close. Each event is
/// read, published, recorded and shown by a line, in that order. It returns the number of events.
pub fn follow_jwt<S: Source, K: Sink, P: JwtPublisher, M: JwtMetricsRecorder>(
    alloc: Global,
    source: &mut S,
    sink: &mut K,
    publisher: &mut P,
    recorder: &mut M,
    limits: JwtResourceLimits,
    deadline: Option<i64>,
    max_frames: u64,
) -> Result<u64, FollowError>
    // What is read, put, published, recorded and returned belongs to one list of events.
    ensures followed { Followed (stream (record { limits = limits; deadline = deadline }))
        (outputs (record { limits = limits; deadline = deadline })) max_frames
        (record {
          left = S.left source.old;
          held = K.held sink.old;
          steps = P.steps publisher.old;
          records = M.records recorder.old;
        })
        (record {
          left = S.left source.new;
          held = K.held sink.new;
          steps = P.steps publisher.new;
          records = M.records recorder.new;
        })
        (end_for result) }

    // A fault comes only where its count rose.
    ensures cause { FailuresHaveCauses
        (record { reads = S.failures source.old; writes = K.failures sink.old })
        (record { reads = S.failures source.new; writes = K.failures sink.new }) result }
{
    let mut payload = Payload::new(alloc);
    let mut line = NumberedLine::new(alloc)?;
    let mut snapshot = None;
    let followed = follow_events(
        alloc,
        source,
        sink,
        publisher,
        recorder,
        limits,
        deadline,
        max_frames,
        &mut payload,
        &mut line,
        &mut snapshot,
    );
    drop(snapshot);
    drop(line);
    drop(payload);
    followed
}
