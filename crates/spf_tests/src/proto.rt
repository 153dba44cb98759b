//! Messages of the Workload API in Protocol Buffers, and bodies of gRPC responses.

mod bodies;

use spf_api::{ContextView, read_context_view};
use spf_fixtures::octets;
use spf_proto::read_message;
use std::alloc::Global;
use std::test::Fail;

/// Messages, and payloads of the same responses.
static READ: [(&str, &str); 8] = [
    // The message of the item I1.
    (
        "0a8302 0a16 7370696666653a2f2f6578616d706c652e6f72672f77 128d01 LEAF1 1a0f KEY1 2248 \
         ROOT1",
        "00000001 FIRST 00000048 ROOT1 00000000 00000000 00000000",
    ),
    ("", "00000000 00000000 00000000"),
    // Of a field that counts once, the last.
    (
        "0a06 1201aa 1201bb",
        "00000001 00000000 00000001 bb 00000000 00000000 00000000 00000000 00000000",
    ),
    // Fields of a number that is not named, of each type.
    (
        "4801 490000000000000000 4a01ff 4d00000000",
        "00000000 00000000 00000000",
    ),
    // A tag and a length in more octets than they need.
    (
        "8a00 8000",
        "00000001 00000000 00000000 00000000 00000000 00000000 00000000 00000000",
    ),
    // Of two bundles of one trust domain the last one counts, in its own place.
    (
        "1a06 0a0161 120101 1a06 0a0162 120102 1a06 0a0161 120103",
        "00000000 00000002 00000001 62 00000001 02 00000001 61 00000001 03 00000000",
    ),
    (
        "12010a 12010b",
        "00000000 00000000 00000002 00000001 0a 00000001 0b",
    ),
    ("1a00", "00000000 00000001 00000000 00000000 00000000"),
];

/// What is not a message.
static REFUSED: [&str; 24] = [
    // Ends inside a tag, a value, a length and a nested message.
    "8a",
    "48",
    "49 00000000000000",
    "4d 000000",
    "0a",
    "0a02 0a",
    "0a05 1202aa",
    "12ff",
    // A length past the end, and one past what can be addressed.
    "0affffffff07",
    "0affffffffffffffffff01",
    // The number 0; the types 3, 4, 6 and 7, of numbers that are named and of others.
    "0200",
    "0b",
    "0c",
    "0e",
    "0f",
    "4b",
    "4c",
    "4f",
    // Fields that are named, of another type.
    "0801",
    "0a02 0801",
    // A varint of eleven octets, and one above 2^64.
    "4880808080808080808080 01",
    "48ffffffffffffffffff 02",
    // Texts that are not UTF-8, also where a later one replaces it.
    "0a04 0a02c328",
    "1a07 0a02c328 0a0161",
];

/// Whether both responses are there and are the same.
fn is_same(read: Option<ContextView<'_>>, wanted: Option<ContextView<'_>>) -> bool {
    match (read, wanted) {
        (Some(read), Some(wanted)) => read == wanted,
        _ => false,
    }
}

/// Whether a message is read as what the payload lays out.
fn is_read_as(alloc: Global, message: &[u8], payload: &[u8]) -> Result<bool, Fail> {
    let read = read_message(alloc, message)?;
    let wanted = read_context_view(alloc, payload)?;
    Ok(is_same(read, wanted))
}

/// The same of octets in hexadecimal.
fn is_written_as(alloc: Global, message: &str, payload: &str) -> Result<bool, Fail> {
    let message = octets(alloc, message)?;
    let payload = octets(alloc, payload)?;
    is_read_as(alloc, message.as_slice(), payload.as_slice())
}

#[test]
fn messages(rt: HostRuntime) -> Result<(), Fail> {
    for (message, payload) in READ.iter() {
        assert!(rt; is_written_as(rt.alloc(), *message, *payload)?);
    }
    Ok(())
}

/// Whether the bytes are not a message.
fn is_refused(alloc: Global, message: &str) -> Result<bool, Fail> {
    let message = octets(alloc, message)?;
    Ok(read_message(alloc, message.as_slice())?.is_none())
}

#[test]
fn no_messages(rt: HostRuntime) -> Result<(), Fail> {
    for message in REFUSED.iter() {
        assert!(rt; is_refused(rt.alloc(), *message)?);
    }
    Ok(())
}

/// Whether the first octets of the message of I1 are not a message.
fn is_refused_at(alloc: Global, length: usize) -> Result<bool, Fail> {
    let mut message = octets(alloc, READ[0].0)?;
    message.truncate(length);
    Ok(read_message(alloc, message.as_slice())?.is_none())
}

#[test]
fn truncated_messages(rt: HostRuntime) -> Result<(), Fail> {
    for length in 1..262 {
        assert!(rt; is_refused_at(rt.alloc(), length)?);
    }
    Ok(())
}
