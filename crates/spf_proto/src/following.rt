//! Following the body of a gRPC response: messages of updates, one after another.

ghost use Rattle.std.specs.Prelude.{◌≡◌, ◌<◌, ◌^◌, None, IfOk, IsTrue, int_le, pos, false};
ghost use Rattle.std.specs.Option.{ForSome, option_map};
ghost use Rattle.spf_feed.specs.Items.{rules_with};
ghost use Rattle.spf_proto.specs.Translated.{moment_frame};
ghost use Rattle.spf_proto.specs.BodyErrors.{RefusedFor};
ghost use Rattle.spf_proto.specs.Following.{is_due, timed_out, OnlyThese, HasCauses, BodyFollowed};

use crate::frame_end::FrameEnd;
use crate::lent::LentSource;
use crate::proto_error::ProtoError;
use crate::translating::Acceptance;
use crate::translator::{LastItem, Origin, Translator};
use spf_feed::{
    FollowError, MetricsRecorder, Publisher, Ready, ResourceLimits, SvidPicker,
    follow_x509_sharing, frame_kind,
};
use spf_io::{OutOfMemory, Sink, Source};
use std::alloc::Global;
use std::marker::Brand;

/// Whether a moment is at the deadline, or past it.
fn is_due(deadline: Option<i64>, start: i64) -> bool
    ensures { result ≡ is_due deadline start }
{
    match deadline {
        Some(deadline) => deadline <= start,
        None => false,
    }
}

/// The frame of a moment, in Unix seconds.
#[tactic(auto, unfolding(crate::specs::Translated::moment_frame, crate::specs::Translated::sized))]
fn frame_of(alloc: Global, seconds: u64) -> Result<Vec<u8>, OutOfMemory>
    ensures { IfOk result (λ v. v.items ≡ moment_frame seconds) }
{
    let mut frame = Vec::new(alloc);
    frame.extend_from_slice(&[frame_kind::MOMENT, 0, 0, 0, 8])?;
    frame.extend_from_slice(&seconds.to_be_bytes())?;
    Ok(frame)
}

/// Follows the messages of a source that is lent, and returns the source.
fn follow_lent<N: Origin, T: LentSource, K: Sink, P: Publisher, M: MetricsRecorder, C: SvidPicker>(
    alloc: Global,
    source: T,
    sink: &mut K,
    publisher: &mut P,
    recorder: &mut M,
    acceptance: Acceptance,
    deadline: Option<i64>,
    max_messages: u32,
    picker: Option<&C>,
    seconds: u64,
) -> (Result<u64, ProtoError>, T)
    requires picker { ForSome picker (λ p. C.can_pick p.now) }
    requires moment { acceptance.start ≡ pos seconds }
    requires small { seconds < 2 ^ 63 }
    requires early { is_due deadline acceptance.start ≡ false }
    requires begin { N.begin ≡ record {
      loan = T.loan source;
      left = T.left source;
      failures = T.failures source;
      rules = rules_with acceptance.limits None acceptance.ready
          (option_map (λ p. C.picks p.now) picker);
      start = acceptance.start;
      max = max_messages;
    } }
    ensures loan { T.loan result.1 ≡ N.begin.loan }
    ensures cause { HasCauses N.begin.failures (T.failures result.1) (K.failures sink.old)
        (K.failures sink.new) result.0 }
    ensures only { OnlyThese result.0 }
    ensures refused { RefusedFor N.begin.max N.begin.left result.0 }
    ensures followed { BodyFollowed
        (rules_with acceptance.limits deadline acceptance.ready
        (option_map (λ p. C.picks p.now) picker.entry)) acceptance.start max_messages
        (T.left source)
        (record {
          held = K.held sink.old;
          steps = P.steps publisher.old;
          records = M.records recorder.old;
        })
        (record {
          held = K.held sink.new;
          steps = P.steps publisher.new;
          records = M.records recorder.new;
        }) result.0 }
{
    let Ok(frames) = frame_of(alloc, seconds) else {
        return (Err(ProtoError::Follow(FollowError::OutOfMemory)), source);
    };
    let mut translator = Translator::<'_, T, C, N>::new(
        alloc,
        source,
        acceptance,
        picker,
        max_messages,
        frames,
    );
    let followed = follow_x509_sharing::<Translator<'_, T, C, N>, K, P, M, C, LastItem>(
        alloc,
        &mut translator,
        sink,
        publisher,
        recorder,
        acceptance.limits,
        deadline,
        u64::MAX,
        picker,
        acceptance.ready,
    );
    let end = FrameEnd::of(&followed);
    drop(followed);
    let result = translator.result_of(end, max_messages);
    (result, translator.into_source())
}

/// Follows the body of a gRPC response of X509SVIDResponse messages, read as the session of updates
/// that they stand for, which begins at the moment `start`. It returns the number of its events.
pub fn follow_proto<S: Source, K: Sink, P: Publisher, M: MetricsRecorder, C: SvidPicker>(
    alloc: Global,
    source: &mut S,
    sink: &mut K,
    publisher: &mut P,
    recorder: &mut M,
    limits: ResourceLimits,
    deadline: Option<i64>,
    max_messages: u32,
    picker: Option<&C>,
    ready: Ready,
    start: i64,
) -> Result<u64, ProtoError>
    requires picker { ForSome picker (λ p. C.can_pick p.now) }
    requires start { IsTrue (int_le (pos 0) start) }
    // The bytes fix the result: the messages with which they begin are followed as the session that
    // they stand for, whose lines, steps and records are handed on whole. Where reading or writing
    // fails or memory runs out, a beginning of these is handed on, in order.
    ensures followed { is_due deadline start ≡ false → BodyFollowed
        (rules_with limits deadline ready (option_map (λ p. C.picks p.now) picker.entry)) start
        max_messages (S.left source.old)
        (record {
          held = K.held sink.old;
          steps = P.steps publisher.old;
          records = M.records recorder.old;
        })
        (record {
          held = K.held sink.new;
          steps = P.steps publisher.new;
          records = M.records recorder.new;
        }) result }
    // A failure comes only where its count rose.
    ensures cause { HasCauses (S.failures source.old) (S.failures source.new) (K.failures sink.old)
        (K.failures sink.new) result }
    // A message is refused where the bytes are whole messages up to it, and then none; too many are
    // refused where octets follow as many messages as are allowed.
    ensures refused { RefusedFor max_messages (S.left source.old) result }
    // Of the errors of a session only these come.
    ensures only { OnlyThese result }
    // Where the moment is at the deadline or past it, nothing is read.
    ensures timeout { IsTrue (is_due deadline start) → (result ≡ timed_out)
        × (S.left source.new ≡ S.left source.old) × (K.held sink.new ≡ K.held sink.old) }
{
    if is_due(deadline, start) {
        return Err(ProtoError::Follow(FollowError::InitialSyncTimeout));
    }
    let acceptance = Acceptance {
        limits,
        ready,
        start,
    };
    let (result, _source) = follow_lent::<Brand, &mut S, K, P, M, C>(
        alloc,
        source,
        sink,
        publisher,
        recorder,
        acceptance,
        deadline,
        max_messages,
        picker,
        start as u64,
    );
    result
}
