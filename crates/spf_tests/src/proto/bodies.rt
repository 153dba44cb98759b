//! Bodies of the program's sessions.

use spf_feed::{FollowError, MemPublisher, MemRecorder, NoPicker, Ready, ResourceLimits};
use spf_fixtures::octets;
use spf_io::{MemSink, MemSource};
use spf_proto::{ProtoError, follow_proto};
use std::alloc::Global;
use std::test::Fail;

/// One message: the item I1.
pub(crate) const Q: &str =
    "0000000106 0a8302 0a16 7370696666653a2f2f6578616d706c652e6f72672f77 128d01 LEAF1 \
                  1a0f KEY1 2248 ROOT1";

/// How following a body ends: after so many events, or at what.
#[derive(Clone, Copy, PartialEq, Eq, Debug)]
enum End {
    Events(u64),
    BadMessage(u64),
    TooManyMessages,
    NeverSynced,
    Other,
}

fn end_of(e: &ProtoError) -> End {
    match e {
        ProtoError::BadMessage { message } => End::BadMessage(*message),
        ProtoError::TooManyMessages => End::TooManyMessages,
        ProtoError::Follow(FollowError::NeverSynced) => End::NeverSynced,
        _ => End::Other,
    }
}

/// How a body ends, and how many lines are written before, the first of which are these.
#[derive(Clone, Copy, PartialEq, Eq, Debug)]
struct Followed {
    end: End,
    lines: usize,
    is_first: bool,
}

/// The lines of the moment, the client and the start.
const WAITING: &str = "1 waiting\n2 waiting\n3 waiting\n";

/// The lines of the row Q up to the first octets of its chain.
const PERMITTED: &str =
    "1 waiting\n2 waiting\n3 waiting\n4 0 permitted spiffe://example.org/w 1000 3081";

/// How many lines were written.
fn count(lines: &[u8]) -> usize {
    lines.iter().filter(|octet| **octet == 10).count()
}

fn sink_of(alloc: Global) -> Result<MemSink, Fail> {
    Ok(MemSink::new(alloc, 10_000, Vec::new(alloc))?)
}

/// Follows a body from the moment 999 on, with reads of one octet.
fn followed_octets(alloc: Global, bytes: Vec<u8>, max: u32, first: &str) -> Result<Followed, Fail> {
    let mut cuts = Vec::new(alloc);
    cuts.resize(2000, 1)?;
    let mut source = MemSource::new(bytes, cuts, Vec::new(alloc));
    let mut sink = sink_of(alloc)?;
    let result = follow_proto(
        alloc,
        &mut source,
        &mut sink,
        &mut MemPublisher::new(alloc),
        &mut MemRecorder::new(alloc),
        ResourceLimits::default_limits(),
        None,
        max,
        None::<&NoPicker>,
        Ready::Usable,
        999,
    );
    drop(source);
    let end = match &result {
        Ok(events) => End::Events(*events),
        Err(e) => end_of(e),
    };
    drop(result);
    let lines = count(sink.bytes());
    let is_first = sink.bytes().starts_with(first.as_bytes());
    drop(sink);
    Ok(Followed {
        end,
        lines,
        is_first,
    })
}

/// The octets of a body's parts, by their names.
fn octets_of(alloc: Global, body: &[&str]) -> Result<Vec<u8>, Fail> {
    let mut bytes = Vec::new(alloc);
    for part in body {
        let some = octets(alloc, part)?;
        bytes.extend_from_slice(some.as_slice())?;
    }
    Ok(bytes)
}

/// Whether a body ends like this after so many lines, the first of which are these.
fn is_followed(
    alloc: Global,
    body: &[&str],
    max: u32,
    first: &str,
    end: End,
    lines: usize,
) -> Result<bool, Fail> {
    let bytes = octets_of(alloc, body)?;
    let wanted = Followed {
        end,
        lines,
        is_first: true,
    };
    Ok(followed_octets(alloc, bytes, max, first)? == wanted)
}

/// A body, how many messages are read at most, its end, and how many lines there are.
static BODIES: &[(&[&str], u32, End, usize)] = &[
    (&[Q], 10, End::Events(4), 4),
    (&[Q, Q, Q], 3, End::Events(8), 8),
    (&[Q, "01"], 10, End::BadMessage(2), 4),
    (&[Q, Q], 1, End::TooManyMessages, 4),
];

#[test]
fn bodies(rt: HostRuntime) -> Result<(), Fail> {
    for &(body, max, end, lines) in BODIES.iter() {
        assert!(rt;
            is_followed(rt.alloc(), body, max, PERMITTED, end, lines)?,
            "{end:?}"
        );
    }
    assert!(rt; is_followed(rt.alloc(), &[], 10, "1 waiting\n", End::NeverSynced, 1)?);
    Ok(())
}

/// Bodies that are not messages, and messages that are announced and do not come.
static BAD_BODIES: [&str; 22] = [
    // Compressed, and with an unknown flag.
    "0100000000",
    "0200000000",
    // Cut in the flag and the length, and in the octets.
    "00",
    "0000",
    "00000000",
    "0000000002 0a",
    "0001000000",
    // More than 2^24 octets, more than 2^31 and 4 GiB less one are announced.
    "0001000001",
    "0080000001",
    "00ffffffff",
    // The number 0; groups; the types 6 and 7.
    "0000000002 0200",
    "0000000001 0b",
    "0000000001 0c",
    "0000000001 0e",
    "0000000001 0f",
    // A varint of eleven octets, and one above 2^64.
    "000000000c 4880808080808080808080 01",
    "000000000b 48ffffffffffffffffff 02",
    // A length past the end of the message, past 2^31 and past 2^63.
    "0000000003 0a02 0a",
    "0000000006 0a8080808008",
    "000000000b 0a80808080808080808001",
    // A field that is named, of another type.
    "0000000002 0801",
    // Not UTF-8.
    "0000000005 0a03 0a01ff",
];

#[test]
fn bad_messages(rt: HostRuntime) -> Result<(), Fail> {
    for body in BAD_BODIES.iter() {
        let end = End::BadMessage(2);
        assert!(rt;
            is_followed(rt.alloc(), &[Q, *body], 10, PERMITTED, end, 4)?,
            "{body}"
        );
    }
    Ok(())
}

/// Whether the first octets of the body Q come to a bad message, after the line of the moment.
fn is_bad_at(alloc: Global, length: usize) -> Result<bool, Fail> {
    let mut bytes = octets(alloc, Q)?;
    bytes.truncate(length);
    let wanted = Followed {
        end: End::BadMessage(1),
        lines: 1,
        is_first: true,
    };
    Ok(followed_octets(alloc, bytes, 10, "1 waiting\n")? == wanted)
}

#[test]
fn truncated_bodies(rt: HostRuntime) -> Result<(), Fail> {
    for length in 1..267 {
        assert!(rt; is_bad_at(rt.alloc(), length)?);
    }
    Ok(())
}

/// A message of one unknown field that is longer than buffers are at first, and then one more.
fn long_body(alloc: Global) -> Result<Vec<u8>, Fail> {
    let mut bytes = octets(alloc, "00000493e4 4ae0a712")?;
    bytes.resize(300_009, 0)?;
    let more = octets(alloc, Q)?;
    bytes.extend_from_slice(more.as_slice())?;
    Ok(bytes)
}

#[test]
fn long_message(rt: HostRuntime) -> Result<(), Fail> {
    let wanted = Followed {
        end: End::Events(7),
        lines: 7,
        is_first: true,
    };
    let bytes = long_body(rt.alloc())?;
    assert!(rt; followed_octets(rt.alloc(), bytes, 10, WAITING)? == wanted);
    Ok(())
}
