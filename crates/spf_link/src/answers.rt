//! Reading answers from a source.

ghost use Rattle.std.specs.Prelude.{◌≡◌, ◌≤◌, IsTrue, IfOk};
ghost use Rattle.spf_frame.specs.Parts.{FailureHasCause};
ghost use Rattle.spf_link.specs.Answers.{AnswerRead, SaysAtStart, SaysInStream, StartRead};
ghost use Rattle.spf_link.specs.Answers.{may_start, streams};
ghost use Rattle.spf_link.specs.Laid.{IsLaid};

use crate::kinds::{AtStart, InStream, is_of_stream};
use spf_api::{GrpcStatusError, Response, ResponseKind, read_payload};
use spf_frame::frame_kind::{CONNECTED, ITEM, ITEM_STATUS};
use spf_frame::{FrameError, Payload, next_frame, read_status};
use spf_io::{OutOfMemory, Source};
use std::alloc::Global;

/// The answer of a start: the request is started, or refused with a status.
pub(crate) type Started = Result<(), GrpcStatusError>;

/// The answer in a stream: a response, the end, or a status.
pub(crate) type Streamed = Result<Option<Response>, GrpcStatusError>;

/// What a frame says at a start. None where its payload lays out nothing.
fn said_at_start(
    alloc: Global,
    again: bool,
    kind: u8,
    payload: &[u8],
) -> Result<Option<Option<Started>>, OutOfMemory>
    requires { IsTrue (may_start again kind) }
    ensures { IfOk result (IsLaid (SaysAtStart again) kind payload.now) }
{
    if is_of_stream(kind) {
        return Ok(Some(None));
    }
    if kind == CONNECTED {
        if payload.is_empty() {
            return Ok(Some(Some(Ok(()))));
        }
        return Ok(None);
    }
    match read_status(alloc, payload)? {
        Some(status) => Ok(Some(Some(Err(status)))),
        None => Ok(None),
    }
}

/// What a frame of a stream says. None where its payload lays out nothing.
fn said_in_stream(
    alloc: Global,
    asked: ResponseKind,
    kind: u8,
    payload: &[u8],
) -> Result<Option<Streamed>, OutOfMemory>
    requires { IsTrue (streams kind) }
    ensures { IfOk result (IsLaid (SaysInStream asked) kind payload.now) }
{
    if kind == ITEM {
        return match read_payload(alloc, asked, payload)? {
            Some(response) => Ok(Some(Ok(Some(response)))),
            None => Ok(None),
        };
    }
    if kind == ITEM_STATUS {
        return match read_status(alloc, payload)? {
            Some(status) => Ok(Some(Err(status))),
            None => Ok(None),
        };
    }
    if payload.is_empty() {
        return Ok(Some(Ok(None)));
    }
    Ok(None)
}

/// The next frame at a start: the answer, or None for a frame of an earlier stream.
fn read_at_start<S: Source>(
    alloc: Global,
    source: &mut S,
    payload: &mut Payload,
    again: bool,
) -> Result<Option<Started>, FrameError>
    ensures bytes { AnswerRead (SaysAtStart again) (may_start again) (S.left source.old)
        (S.left source.new) result }
    ensures cause { FailureHasCause (S.failures source.old) (S.failures source.new) result }
{
    let kind = match next_frame(source, payload, &AtStart { again }, true)? {
        Some(kind) => kind,
        None => return Err(FrameError::BadFrame),
    };
    match said_at_start(alloc, again, kind, payload.as_slice()) {
        Ok(Some(said)) => Ok(said),
        Ok(None) => Err(FrameError::BadFrame),
        Err(_) => Err(FrameError::OutOfMemory),
    }
}

/// The answer to a start. Where it is not the first, whole frames that an earlier stream left are
/// passed over. Passing over 2^64 - 1 of them counts as out of memory.
pub(crate) fn read_start<S: Source>(
    alloc: Global,
    source: &mut S,
    payload: &mut Payload,
    again: bool,
) -> Result<Started, FrameError>
    ensures bytes { StartRead again (S.left source.old) (S.left source.new) result }
    ensures cause { FailureHasCause (S.failures source.old) (S.failures source.new) result }
{
    'frames: for _ in 0..u64::MAX {
        match read_at_start(alloc, source, payload, again) {
            Ok(Some(answer)) => return Ok(answer),
            Ok(None) => {}
            Err(e) => return Err(e),
        }
    }
    Err(FrameError::OutOfMemory)
}

/// The next answer in a stream whose responses are of the kind that was asked for.
pub(crate) fn read_in_stream<S: Source>(
    alloc: Global,
    source: &mut S,
    payload: &mut Payload,
    asked: ResponseKind,
) -> Result<Streamed, FrameError>
    ensures bytes { AnswerRead (SaysInStream asked) streams (S.left source.old) (S.left source.new)
        result }
    ensures cause { FailureHasCause (S.failures source.old) (S.failures source.new) result }
{
    let kind = match next_frame(source, payload, &InStream, true)? {
        Some(kind) => kind,
        None => return Err(FrameError::BadFrame),
    };
    match said_in_stream(alloc, asked, kind, payload.as_slice()) {
        Ok(Some(said)) => Ok(said),
        Ok(None) => Err(FrameError::BadFrame),
        Err(_) => Err(FrameError::OutOfMemory),
    }
}
