//! Messages of each kind and the payloads of the same responses, and the octets of requests.

use crate::{put_jwt_svid_request, put_validation_request, read_response};
use spf_api::{ResponseKind, read_payload};
use spf_io::Text;
use std::alloc::Global;
use std::test::Fail;

/// Kinds, messages and payloads, in hexadecimal.
const READ: &[(ResponseKind, &str, &str)] = &[
    (
        ResponseKind::Context,
        "0a030a0161120102",
        "000000010000000161000000000000000000000000000000000000000000000001 0000000102",
    ),
    (
        ResponseKind::Bundles,
        "0a010112060a01611201ff",
        "00000001000000016100000001ff",
    ),
    (
        ResponseKind::JwtSvids,
        "0a090a01611201621a0163",
        "00000001000000016100000001620000000163",
    ),
    // Of two bundles with one name the last.
    (
        ResponseKind::JwtBundles,
        "0a060a016112010a0a060a01611201ff",
        "00000001000000016100000001ff",
    ),
    (ResponseKind::Validation, "0a0161", "000000016100"),
    (
        ResponseKind::Validation,
        "0a01611200",
        "00000001610100000000",
    ),
    // A claim without a value, null, true, and a text.
    (
        ResponseKind::Validation,
        "12050a030a0178",
        "00000000010000000100000001 7800",
    ),
    (
        ResponseKind::Validation,
        "12090a070a017812020800",
        "000000000100000001000000017801",
    ),
    (
        ResponseKind::Validation,
        "12090a070a017812022001",
        "00000000010000000100000001780201",
    ),
    (
        ResponseKind::Validation,
        "120a0a080a017812031a0179",
        "00000000010000000100000001780500000001 79",
    ),
    // 1, 0.5, -0, 2^63, -2^63.
    (
        ResponseKind::Validation,
        "12100a0e0a0178120911000000000000f03f",
        "0000000001000000010000000178030000000000000001",
    ),
    (
        ResponseKind::Validation,
        "12100a0e0a0178120911000000000000e03f",
        "0000000001000000010000000178040000001033666530303030303030303030303030",
    ),
    (
        ResponseKind::Validation,
        "12100a0e0a01781209110000000000000080",
        "0000000001000000010000000178030000000000000000",
    ),
    (
        ResponseKind::Validation,
        "12100a0e0a0178120911000000000000e043",
        "0000000001000000010000000178040000001034336530303030303030303030303030",
    ),
    (
        ResponseKind::Validation,
        "12100a0e0a0178120911000000000000e0c3",
        "0000000001000000010000000178038000000000000000",
    ),
    // An empty list and an empty Struct.
    (
        ResponseKind::Validation,
        "12090a070a017812023200",
        "00000000010000000100000001780600000000",
    ),
    (
        ResponseKind::Validation,
        "12090a070a017812022a00",
        "00000000010000000100000001780700000000",
    ),
    // Claims given twice are merged: y, and then x.
    (
        ResponseKind::Validation,
        "12090a070a01781202080012090a070a0179120208001205 0a030a0178",
        "0000000001000000020000000179010000000178 00",
    ),
];

/// Kinds and octets that are no message of theirs.
const REFUSED: &[(ResponseKind, &str)] = &[
    (ResponseKind::Context, "0801"),
    (ResponseKind::Bundles, "0801"),
    (ResponseKind::JwtSvids, "0a020a01"),
    (ResponseKind::JwtBundles, "0a030a01ff"),
    (ResponseKind::Validation, "0a01ff"),
    (ResponseKind::Validation, "1001"),
    // A number as a varint.
    (ResponseKind::Validation, "12090a070a017812021001"),
];

/// The octets that digits say, in which blanks do not count.
fn octets(alloc: Global, digits: &str) -> Result<Vec<u8>, Fail> {
    let mut text = String::new(alloc);
    for part in digits.split(' ') {
        text.push_str(part)?;
    }
    match hex::decode(alloc, text.as_str()) {
        Ok(octets) => Ok(octets),
        Err(_) => Err(Fail::from("digits")),
    }
}

fn is_read_as(
    alloc: Global,
    kind: ResponseKind,
    message: &str,
    payload: &str,
) -> Result<bool, Fail> {
    let message = octets(alloc, message)?;
    let payload = octets(alloc, payload)?;
    let read = read_response(alloc, kind, message.as_slice())?;
    let wanted = read_payload(alloc, kind, payload.as_slice())?;
    Ok(wanted.is_some() && read == wanted)
}

#[test]
fn responses(rt: HostRuntime) -> Result<(), Fail> {
    for &(kind, message, payload) in READ {
        assert!(rt;
            is_read_as(rt.alloc(), kind, message, payload)?,
            "{message}"
        );
    }
    Ok(())
}

fn is_refused(alloc: Global, kind: ResponseKind, message: &str) -> Result<bool, Fail> {
    let message = octets(alloc, message)?;
    Ok(read_response(alloc, kind, message.as_slice())?.is_none())
}

#[test]
fn no_responses(rt: HostRuntime) -> Result<(), Fail> {
    for &(kind, message) in REFUSED {
        assert!(rt; is_refused(rt.alloc(), kind, message)?, "{message}");
    }
    Ok(())
}

#[test]
fn requests(rt: HostRuntime) -> Result<(), Fail> {
    let mut out = Vec::new(rt.alloc());
    let audience = [
        Text::copy_of(rt.alloc(), "a")?,
        Text::copy_of(rt.alloc(), "")?,
    ];
    put_jwt_svid_request(&mut out, &audience, &audience[1])?;
    assert!(rt; out.as_slice() == b"\x0a\x01a\x0a\x00".as_slice());
    out.clear();
    put_jwt_svid_request(&mut out, &audience[..1], &audience[0])?;
    assert!(rt; out.as_slice() == b"\x0a\x01a\x12\x01a".as_slice());
    out.clear();
    put_validation_request(&mut out, &audience[1], &audience[0])?;
    assert!(rt; out.as_slice() == b"\x12\x01a".as_slice());
    Ok(())
}
