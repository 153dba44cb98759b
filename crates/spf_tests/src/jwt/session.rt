//! Sessions, with what a run of each leaves.

use spf_feed::FollowError;
use spf_fixtures::octets;
use spf_io::{MemSink, MemSource, OutOfMemory};
use spf_jwt::JwtResourceLimits;
use spf_jwt_feed::{JwtMetricsRecord, JwtStep, MemJwtPublisher, MemJwtRecorder, follow_jwt};
use std::alloc::Global;
use std::mem::drop;
use std::str;
use std::test::Fail;

/// What names stand for, beside those of `spf_fixtures`: what a line shows of a set, and items.
/// SPACED has the key of SET1 in another spelling, and LARGE one of too many octets.
const NAMES: &[(&str, &str)] = &[
    (
        "P1",
        "example.org=6b:7b226b6964223a226b222c226b7479223a224543227d",
    ),
    (
        "P2",
        "another.org= example.org=61:7b226b6964223a2261227d,\
         6b:7b226b6964223a226b222c226b7479223a22525341227d",
    ),
    (
        "SPACED",
        "05 0000003a \
         000000010000000b6578616d706c652e6f7267000000237b226b657973223a205b7b226b7479 \
         223a224543222c20226b6964223a226b227d5d7d",
    ),
    (
        "SET2",
        "05 00000063 \
         000000020000000b6578616d706c652e6f72670000002e7b226b657973223a5b7b226b696422 \
         3a226b222c226b7479223a22525341227d2c7b226b6964223a2261227d5d7d0000000b616e6f \
         746865722e6f72670000000b7b226b657973223a5b5d7d",
    ),
    (
        "LARGE",
        "05 00000050 \
         000000010000000b6578616d706c652e6f7267000000397b226b657973223a5b7b226b696422 \
         3a226b222c226e223a2230313233343536373839303132333435363738393031323334353637 \
         227d5d7d",
    ),
    (
        "NOKEYS",
        "05 00000019 000000010000000b6578616d706c652e6f7267000000027b7d",
    ),
    ("NOSETS", "05 00000004 00000000"),
];

/// The text with each name replaced by what it stands for.
fn written_out(alloc: Global, text: &str) -> Result<String, OutOfMemory> {
    let mut text = String::from_str(alloc, text)?;
    for &(name, meaning) in NAMES {
        text = text.replace(alloc, name, meaning)?;
    }
    Ok(text)
}

/// The octets of frames that are given by name.
fn frames_of(alloc: Global, text: &str) -> Result<Vec<u8>, Fail> {
    let text = written_out(alloc, text)?;
    octets(alloc, text.as_str())
}

/// The name of a result.
fn name_of(answer: &Result<u64, FollowError>) -> &'static str {
    match answer {
        Ok(_) => "ok",
        Err(FollowError::Closed) => "closed",
        Err(FollowError::NeverSynced) => "never synced",
        Err(FollowError::InitialSyncTimeout) => "timed out",
        Err(FollowError::BadFrame { .. }) => "bad frame",
        Err(FollowError::OutOfMemory) => "out of memory",
        Err(_) => "another",
    }
}

/// Follows the frames, and names the result.
fn follow(
    alloc: Global,
    frames: Vec<u8>,
    sink: &mut MemSink,
    publisher: &mut MemJwtPublisher,
    recorder: &mut MemJwtRecorder,
) -> &'static str {
    let mut source = MemSource::new(frames, Vec::new(alloc), Vec::new(alloc));
    let answer = follow_jwt(
        alloc,
        &mut source,
        sink,
        publisher,
        recorder,
        JwtResourceLimits::new(Some(2), Some(40)),
        Some(9),
        1_000_000,
    );
    let name = name_of(&answer);
    drop(answer);
    name
}

/// Appends a word for each step.
fn push_words(text: &mut String, steps: &[JwtStep]) -> Result<(), OutOfMemory> {
    for step in steps {
        text.push_str(match step {
            JwtStep::Accept { .. } => " accept",
            JwtStep::Deny { .. } => " deny",
        })?;
    }
    Ok(())
}

/// The steps, with a word for each.
fn words_of(alloc: Global, steps: &[JwtStep]) -> Result<String, OutOfMemory> {
    let mut words = String::new(alloc);
    push_words(&mut words, steps)?;
    Ok(words)
}

/// The lines, then the result, the steps and the records.
fn text_of(
    alloc: Global,
    lines: &[u8],
    answer: &str,
    steps: &[JwtStep],
    records: &[JwtMetricsRecord],
) -> Result<String, OutOfMemory> {
    let lines = str::from_utf8(lines).unwrap_or("?");
    let steps = words_of(alloc, steps)?;
    Ok(format!(in alloc; "{lines}{answer}{steps} {records:?}")?)
}

/// What a run leaves.
fn left_by(
    alloc: Global,
    frames: Vec<u8>,
    mut publisher: MemJwtPublisher,
) -> Result<String, OutOfMemory> {
    let mut recorder = MemJwtRecorder::new(alloc);
    let mut sink = MemSink::new(alloc, 65536, Vec::new(alloc))?;
    let answer = follow(alloc, frames, &mut sink, &mut publisher, &mut recorder);
    let text = text_of(
        alloc,
        sink.bytes(),
        answer,
        publisher.steps(),
        recorder.records(),
    );
    drop(sink);
    drop(recorder);
    drop(publisher);
    text
}

/// A name, the frames, and what a run leaves.
const SESSIONS: &[(&str, &str, &str)] = &[
    (
        "jwt-session",
        "CM CN SET1",
        "1 waiting\n2 waiting\n3 0 permitted P1\nok accept []",
    ),
    (
        "nothing-accepted-then-close",
        "CM CN CL",
        "1 waiting\n2 waiting\nclosed []",
    ),
    ("deadline", "M5 M999", "1 waiting\ntimed out []"),
    (
        "another-kind-of-item",
        "CM CN I1",
        "1 waiting\n2 waiting\nbad frame []",
    ),
    (
        "empty-at-first",
        "CM CN NOSETS CM CN SET1",
        "1 waiting\n2 waiting\n3 waiting\n4 waiting\n5 waiting\n6 0 permitted P1\nok \
         accept [Error(StreamError), Error(InitialSyncFailed)]",
    ),
    (
        "empty-later",
        "CM CN SET1 CM CN NOSETS SPACED",
        "1 waiting\n2 waiting\n3 0 permitted P1\n4 0 permitted P1\n5 0 permitted P1\n6 0 \
         permitted P1\n7 0 permitted P1\nok accept accept [Error(UpdateRejected)]",
    ),
    (
        "over-a-limit",
        "CM CN SET1 CM CN LARGE SET1",
        "1 waiting\n2 waiting\n3 0 permitted P1\n4 0 permitted P1\n5 0 permitted P1\n6 0 \
         permitted P1\n7 0 permitted P1\nok accept accept \
         [Error(LimitMaxBundleJwksBytes), Error(UpdateRejected)]",
    ),
    (
        "changed-then-broken",
        "CM CN SET1 CM CN SET2 NOKEYS",
        "1 waiting\n2 waiting\n3 0 permitted P1\n4 0 permitted P1\n5 0 permitted P1\n6 1 \
         permitted P2\n7 1 permitted P2\nok accept accept [Update, Error(StreamError), \
         Reconnect]",
    ),
    (
        "denial-and-recovery",
        "CM CN SET1 CM CN IS7no CM CN SET1",
        "1 waiting\n2 waiting\n3 0 permitted P1\n4 0 permitted P1\n5 0 permitted P1\n6 1 \
         withdrawn permission_denied:6e6f\n7 1 withdrawn permission_denied:6e6f\n8 1 \
         withdrawn permission_denied:6e6f\n9 2 permitted P1\nok accept deny accept \
         [Error(StreamError), Reconnect, Update]",
    ),
];

/// Whether the text is that one, with each name replaced by what it stands for.
fn is_written(alloc: Global, text: &str, wanted: &str) -> Result<bool, OutOfMemory> {
    Ok(text == written_out(alloc, wanted)?.as_str())
}

#[test]
fn sessions(rt: HostRuntime) -> Result<(), Fail> {
    let alloc = rt.alloc();
    for &(name, frames, wanted) in SESSIONS {
        let frames = frames_of(alloc, frames)?;
        let left = left_by(alloc, frames, MemJwtPublisher::new(alloc)).expect(&rt, "memory");
        let is_wanted = is_written(alloc, left.as_str(), wanted).expect(&rt, "memory");
        assert!(rt; is_wanted, "{name}: {left}");
    }
    Ok(())
}

const REFUSED: &str =
    "1 waiting\n2 waiting\n3 0 permitted P1\n4 0 permitted P1\n5 0 permitted P1\nout of memory \
     accept []";

/// Out of memory at the second step: the lines of the events before it stand, and the first step.
#[test]
fn refusing_publisher(rt: HostRuntime) -> Result<(), Fail> {
    let alloc = rt.alloc();
    let frames = frames_of(alloc, "CM CN SET1 CM CN SET2")?;
    let publisher = MemJwtPublisher::refusing(alloc, 2);
    let left = left_by(alloc, frames, publisher).expect(&rt, "memory");
    let is_wanted = is_written(alloc, left.as_str(), REFUSED).expect(&rt, "memory");
    assert!(rt; is_wanted, "{left}");
    drop(left);
    Ok(())
}
