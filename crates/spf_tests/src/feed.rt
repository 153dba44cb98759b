//! Sessions, with what a run of each leaves.

ghost use Rattle.std.specs.Option.{ForSome};

mod texts;
mod values;

use spf_feed::{
    FnPicker, FollowError, HintPicker, MemPublisher, MemRecorder, MetricsRecord, NoPicker,
    PickFunction, Ready, ResourceLimits, Step, SvidPicker, follow_x509,
};
use spf_fixtures::{is_written, octets};
use spf_io::{MemSink, MemSource, OutOfMemory, Text};
use spf_x509::X509Svid;
use std::alloc::Global;
use std::mem::drop;
use std::process::Abort;
use std::sync::Arc;
use std::test::Fail;

/// The name of a result.
fn name_of(answer: &Result<u64, FollowError>) -> &'static str {
    match answer {
        Ok(_) => "ok",
        Err(FollowError::Closed) => "closed",
        Err(FollowError::NeverSynced) => "never synced",
        Err(FollowError::UnsupportedRpc(_)) => "unsupported",
        Err(FollowError::Source(_)) => "source",
        Err(FollowError::OutOfMemory) => "out of memory",
        Err(_) => "another",
    }
}

/// Follows the frames, and names the result.
fn follow<C: SvidPicker>(
    alloc: Global,
    frames: Vec<u8>,
    sink: &mut MemSink,
    publisher: &mut MemPublisher,
    recorder: &mut MemRecorder,
    picker: Option<&C>,
) -> &'static str
    requires { ForSome picker (λ p. C.can_pick p.now) }
{
    let mut source = MemSource::new(frames, Vec::new(alloc), Vec::new(alloc));
    let answer = follow_x509(
        alloc,
        &mut source,
        sink,
        publisher,
        recorder,
        ResourceLimits::default_limits(),
        None,
        1_000_000,
        picker,
        Ready::Usable,
    );
    let name = name_of(&answer);
    drop(answer);
    name
}

/// The steps, with a word for each.
fn words_of(alloc: Global, steps: &[Step]) -> Result<String, OutOfMemory> {
    let mut words = String::new(alloc);
    for step in steps {
        words.push_str(match step {
            Step::Accept { .. } => " accept",
            Step::Deny { .. } => " deny",
        })?;
    }
    Ok(words)
}

/// The lines, then the result, the steps and the records.
fn text_of(
    alloc: Global,
    lines: &[u8],
    answer: &str,
    steps: &[Step],
    records: &[MetricsRecord],
) -> Result<String, Fail> {
    let lines = str::from_utf8(lines)?;
    let steps = words_of(alloc, steps)?;
    Ok(format!(in alloc; "{lines}{answer}{steps} {records:?}")?)
}

fn sink(rt: &impl Abort, alloc: Global) -> MemSink {
    MemSink::new(alloc, 65536, Vec::new(alloc)).expect(rt, "a sink")
}

/// A publisher that refuses the step of that number, where one is given.
fn publisher_of(alloc: Global, refused: Option<u64>) -> MemPublisher {
    match refused {
        Some(number) => MemPublisher::refusing(alloc, number),
        None => MemPublisher::new(alloc),
    }
}

/// What a run leaves.
fn left_by<C: SvidPicker>(
    rt: &impl Abort,
    alloc: Global,
    frames: Vec<u8>,
    refused: Option<u64>,
    picker: Option<&C>,
) -> Result<String, Fail>
    requires { ForSome picker (λ p. C.can_pick p.now) }
{
    let mut sink = sink(rt, alloc);
    let mut publisher = publisher_of(alloc, refused);
    let mut recorder = MemRecorder::new(alloc);
    let answer = follow(
        alloc,
        frames,
        &mut sink,
        &mut publisher,
        &mut recorder,
        picker,
    );
    let (steps, records) = (publisher.steps(), recorder.records());
    let left = text_of(alloc, sink.bytes(), answer, steps, records);
    drop(sink);
    drop(publisher);
    drop(recorder);
    left
}

/// Whether a run of these frames leaves this, where the publisher may refuse the step of a number.
fn leaves<C: SvidPicker>(
    rt: &(impl Abort + AllocGlobal),
    frames: &str,
    refused: Option<u64>,
    picker: Option<&C>,
    expected: &str,
) -> Result<bool, Fail>
    requires { ForSome picker (λ p. C.can_pick p.now) }
{
    let frames = octets(rt.alloc(), frames)?;
    let left = left_by(rt, rt.alloc(), frames, refused, picker)?;
    is_written(rt.alloc(), left, expected)
}

/// A name, the frames, and what a run leaves.
static SESSIONS: [(&str, &str, &str); 16] = [
    (
        "first-session",
        "M999 CM CN I1F CL",
        "1 waiting\n2 waiting\n3 waiting\n4 0 permitted P1 other.org=ROOT2\n\
         5 0 permitted P1 other.org=ROOT2\nok accept []",
    ),
    ("empty-input", "", "never synced []"),
    ("close-first", "CL", "closed []"),
    (
        "no-moment-yet",
        "CM CN I1 M0 CM CN I1",
        "1 waiting\n2 waiting\n3 waiting\n4 waiting\n5 waiting\n6 waiting\n7 0 permitted P1\n\
         ok accept [Error(NoSuitableSvid), Error(InitialSyncFailed)]",
    ),
    (
        "expired-at-first",
        "M1000 CM CN I1",
        "1 waiting\n2 waiting\n3 waiting\n4 waiting\n\
         never synced [Error(NoSuitableSvid), Error(InitialSyncFailed)]",
    ),
    (
        "expiry-passes",
        "M999 CM CN I1 M1000",
        "1 waiting\n2 waiting\n3 waiting\n4 0 permitted P1\n5 0 permitted - - - example.org=ROOT1\n\
         ok accept []",
    ),
    (
        "first-denial-stays",
        "M999 CM CN I1 CM CN IS7no CM CS7issued",
        "1 waiting\n2 waiting\n3 waiting\n4 0 permitted P1\n5 0 permitted P1\n6 0 permitted P1\n\
         7 1 withdrawn permission_denied:6e6f\n8 1 withdrawn permission_denied:6e6f\n\
         9 1 withdrawn permission_denied:6e6f\n\
         ok accept deny deny [Error(StreamError), Reconnect, Reconnect]",
    ),
    (
        "client-failure-keeps",
        "M999 CM CN I1 CF7no",
        "1 waiting\n2 waiting\n3 waiting\n4 0 permitted P1\n5 0 permitted P1\n\
         ok accept [Error(ClientCreation), Reconnect]",
    ),
    (
        "last-bundle-replaces",
        "M999 CM CN TWOFED",
        "1 waiting\n2 waiting\n3 waiting\n\
         4 0 permitted spiffe://example.org/w 1000 LEAF1 example.org=ROOT3\nok accept []",
    ),
    (
        "empty-federated-bundle",
        "M999 CM CN EMPTYFED",
        "1 waiting\n2 waiting\n3 waiting\n4 0 permitted P1 other.org=\nok accept []",
    ),
    (
        "crls",
        "M999 CM CN I1C CM CN I1CB I1CA",
        "1 waiting\n2 waiting\n3 waiting\n4 0 permitted P1 #0a,0b\n5 0 permitted P1 #0a,0b\n\
         6 0 permitted P1 #0a,0b\n7 0 permitted P1 #0a,0b\n8 1 permitted P1 #0a\n\
         ok accept accept accept [Update]",
    ),
    (
        "statuses, of the client",
        "CF12",
        "1 waiting\nnever synced [Error(ClientCreation), Error(InitialSyncFailed)]",
    ),
    (
        "statuses, of a connection",
        "CM CS12",
        "1 waiting\nunsupported []",
    ),
    (
        "request-rejected",
        "CM CN IS3bad",
        "1 waiting\n2 waiting\nsource []",
    ),
    (
        "denial-and-recovery, recorded",
        "M999 CM CN I1 CM CN IS7no CM CN BADKEY CM CN IS14x CM CN I1",
        "1 waiting\n2 waiting\n3 waiting\n4 0 permitted P1\n5 0 permitted P1\n6 0 permitted P1\n\
         7 1 withdrawn permission_denied:6e6f\n8 1 withdrawn permission_denied:6e6f\n\
         9 1 withdrawn permission_denied:6e6f\n10 1 withdrawn permission_denied:6e6f\n\
         11 1 withdrawn permission_denied:6e6f\n12 1 withdrawn permission_denied:6e6f\n\
         13 1 withdrawn permission_denied:6e6f\n14 1 withdrawn permission_denied:6e6f\n\
         15 1 withdrawn permission_denied:6e6f\n16 2 permitted P1\n\
         ok accept deny accept [Error(StreamError), Reconnect, Error(StreamError), Reconnect, \
         Error(StreamError), Reconnect, Update]",
    ),
    (
        "reshuffled-material",
        "M999 CM CN J1 CM CN J2 J3",
        "1 waiting\n2 waiting\n3 waiting\n4 0 permitted P1,ROOT2\n5 0 permitted P1,ROOT2\n\
         6 0 permitted P1,ROOT2\n7 0 permitted P1,ROOT2\n\
         8 1 permitted spiffe://example.org/v 1000 LEAF2 example.org=ROOT1,ROOT2\n\
         ok accept accept accept [Update]",
    ),
];

#[test]
fn sessions(rt: HostRuntime) -> Result<(), Fail> {
    for (name, frames, expected) in SESSIONS.iter() {
        assert!(rt;
            leaves::<NoPicker>(&rt, frames, None, None, expected)?,
            "{name}"
        );
    }
    Ok(())
}

/// Out of memory at the second step: the lines of the events before it stand, and the first step.
#[test]
fn refusing_publisher(rt: HostRuntime) -> Result<(), Fail> {
    let left =
        "1 waiting\n2 waiting\n3 waiting\n4 0 permitted P1\n5 0 permitted P1\n6 0 permitted P1\n\
         out of memory accept []";
    let frames = "M999 CM CN I1 CM CN IS7no CM CN BADKEY CM CN IS14x CM CN I1";
    assert!(rt; leaves::<NoPicker>(&rt, frames, Some(2), None, left)?);
    Ok(())
}

/// Picks the only SVID, and otherwise one that is not there.
struct OnlyOne;

impl PickFunction for OnlyOne {
    ghost use Rattle.std.specs.Prelude.{◌==◌, Some, length, if◌then◌else◌};

    ghost function = { λ svids. Some (if length svids == 1 then 0 else 9) };
}

/// Whether a run with a picker of the hint leaves this.
fn hint_leaves(
    rt: &(impl Abort + AllocGlobal),
    frames: &str,
    expected: &str,
) -> Result<bool, Fail> {
    let hint = Text::copy_of(rt.alloc(), "internal").expect(rt, "memory");
    let picker = HintPicker::new(hint);
    let leaves = leaves(rt, frames, None, Some(&picker), expected);
    drop(picker);
    leaves
}

/// A picker that picks none later on, and one whose index is then out of range.
#[test]
fn pickers(rt: HostRuntime) -> Result<(), Fail> {
    let frames = "M999 CM CN HINT1 CM CN HINT2";
    let left =
        "1 waiting\n2 waiting\n3 waiting\n4 0 permitted P1\n5 0 permitted P1\n6 0 permitted P1\n\
         7 1 permitted - - - example.org=ROOT2\nok accept accept [Update]";
    assert!(rt; hint_leaves(&rt, frames, left)?, "hint-picker");
    let picker = FnPicker::<_, OnlyOne>::new(|svids: &[Arc<X509Svid>]| Some(if svids.len() == 1 {
        0
    } else {
        9
    }));
    let frames = "M999 CM CN I1 CM CN J1";
    let left =
        "1 waiting\n2 waiting\n3 waiting\n4 0 permitted P1\n5 0 permitted P1\n6 0 permitted P1\n\
         7 1 permitted - - - example.org=ROOT1,ROOT2\nok accept accept [Update]";
    assert!(rt;
        leaves(&rt, frames, None, Some(&picker), left)?,
        "picker-out-of-range"
    );
    Ok(())
}
