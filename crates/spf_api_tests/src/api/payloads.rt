//! Payloads: what they lay out, and what is written of it.

use crate::shown::copy_of;
use spf_api::{
    Claim, ClaimValue, ContextView, Response, ResponseKind, ValidationResponse, WorkloadApiError,
    context_from, context_from_view, context_from_view_sharing, read_context_view, read_payload,
    write_payload,
};
use spf_fixtures::{first_item, octets};
use spf_io::{List, OutOfMemory};
use spf_x509::X509Context;
use std::alloc::Global;
use std::mem::drop;
use std::process::Abort;
use std::test::Fail;

/// More octets than the payload of the first item has.
const WHOLE: usize = 300;

/// The payload of the response.
fn written(alloc: Global, response: Response) -> Result<Vec<u8>, OutOfMemory> {
    let payload = write_payload(alloc, &response);
    drop(response);
    payload
}

/// The first octets of the payload of the first item.
fn first_payload(rt: &impl Abort, alloc: Global, length: usize) -> Result<Vec<u8>, Fail> {
    let item = Response::Context(first_item(alloc)?);
    let mut payload = written(alloc, item).expect(rt, "memory");
    payload.truncate(length);
    Ok(payload)
}

/// What the payload lays out: nothing, or what is written as it or as another.
fn laid_out(rt: &impl Abort, alloc: Global, kind: ResponseKind, payload: &[u8]) -> &'static str {
    match read_payload(alloc, kind, payload).expect(rt, "memory") {
        None => "nothing",
        Some(response) => {
            let again = written(alloc, response).expect(rt, "memory");
            let same = again.as_slice() == payload;
            drop(again);
            if same { "the same" } else { "another" }
        }
    }
}

/// Whether the first item's payload, cut to that length, is as long and lays out as wanted.
fn first_is_laid_out(
    rt: &impl Abort,
    alloc: Global,
    length: usize,
    wanted: (usize, &str),
) -> Result<bool, Fail> {
    let payload = first_payload(rt, alloc, length)?;
    let found = laid_out(rt, alloc, ResponseKind::Context, payload.as_slice());
    let length = payload.len();
    drop(payload);
    Ok(length == wanted.0 && found == wanted.1)
}

/// Whether the payload is read as that response.
fn is_read_as(alloc: Global, payload: &[u8], wanted: &Response) -> bool {
    let found = read_payload(alloc, ResponseKind::Context, payload);
    let is_wanted = match &found {
        Ok(Some(found)) => *found == *wanted,
        _ => false,
    };
    drop(found);
    is_wanted
}

/// Whether the payload of the first item is read as the first item.
fn first_is_read_back(rt: &impl Abort, alloc: Global) -> Result<bool, Fail> {
    let item = Response::Context(first_item(alloc)?);
    let payload = write_payload(alloc, &item).expect(rt, "memory");
    let is_read = is_read_as(alloc, payload.as_slice(), &item);
    drop(payload);
    drop(item);
    Ok(is_read)
}

/// Whether those are the octets of an item's frame after its kind and its length.
fn is_item_payload(alloc: Global, item: &str, payload: &[u8]) -> Result<bool, Fail> {
    let frame = octets(alloc, item)?;
    let is_item = frame.as_slice().get(5..) == Some(payload);
    drop(frame);
    Ok(is_item)
}

#[test]
fn written_payload(rt: HostRuntime) -> Result<(), Fail> {
    let payload = first_payload(&rt, rt.alloc(), WHOLE)?;
    let is_written = is_item_payload(rt.alloc(), "I1", payload.as_slice());
    drop(payload);
    assert!(rt; is_written?);
    Ok(())
}

/// How many octets are kept of the payload of the first item, how many there are, and what they lay
/// out.
const KEPT: &[(usize, (usize, &str))] = &[(WHOLE, (282, "the same")), (281, (281, "nothing"))];

#[test]
fn payload(rt: HostRuntime) -> Result<(), Fail> {
    for &(length, wanted) in KEPT {
        assert!(rt;
            first_is_laid_out(&rt, rt.alloc(), length, wanted)?,
            "{length}"
        );
    }
    assert!(rt; first_is_read_back(&rt, rt.alloc())?);
    Ok(())
}

const JWT_SVID: &[u8] = b"\0\0\0\x01\0\0\0\x01i\0\0\0\x01t\0\0\0\0";

const CLAIMS: &[u8] = b"\0\0\0\x01a\x01\0\0\0\x07\
    \0\0\0\x01a\x00\0\0\0\x01b\x01\0\0\0\x01c\x02\x01\
    \0\0\0\x01d\x03\xff\xff\xff\xff\xff\xff\xff\xfe\
    \0\0\0\x01e\x04\0\0\0\x031.5\
    \0\0\0\x01f\x06\0\0\0\x01\x05\0\0\0\x01a\
    \0\0\0\x01g\x07\0\0\0\x01\0\0\0\x01h\x01";

const NAMED: &[u8] = b"\0\0\0\x01\0\0\0\x01a\0\0\0\0";

const PAYLOADS: &[(&str, ResponseKind, &[u8], &str)] = &[
    (
        "payload_ends_and_texts: bundles",
        ResponseKind::Bundles,
        NAMED,
        "the same",
    ),
    (
        "payload_ends_and_texts: JWT bundles",
        ResponseKind::JwtBundles,
        NAMED,
        "the same",
    ),
    (
        "further_payloads: a JWT SVID",
        ResponseKind::JwtSvids,
        JWT_SVID,
        "the same",
    ),
    (
        "further_payloads: claims",
        ResponseKind::Validation,
        CLAIMS,
        "the same",
    ),
    (
        "payload_ends_and_texts: longer",
        ResponseKind::Bundles,
        b"\0\0\0\x01\0\0\0\x01a\0\0\0\0\0",
        "nothing",
    ),
    (
        "payload_ends_and_texts: no text",
        ResponseKind::Bundles,
        b"\0\0\0\x01\0\0\0\x01\xff\0\0\0\0",
        "nothing",
    ),
    (
        "payload: no end",
        ResponseKind::Context,
        b"\xff\xff\xff\xff",
        "nothing",
    ),
];

/// Each kind of response; with one more octet, or with a name that is not UTF-8, a payload lays out
/// nothing.
#[test]
fn further_payloads(rt: HostRuntime) {
    for &(name, kind, payload, wanted) in PAYLOADS {
        assert!(rt;
            laid_out(&rt, rt.alloc(), kind, payload) == wanted,
            "{name}"
        );
    }
}

/// The payload of a validation with one claim, whose value is null within this many lists, each the
/// only member of the next.
fn nested_payload(rt: &impl Abort, alloc: Global, lists: usize) -> Vec<u8> {
    let mut payload = Vec::new(alloc);
    let start = b"\0\0\0\x01a\x01\0\0\0\x01\0\0\0\x01a";
    payload.extend_from_slice(start).expect(rt, "memory");
    for _ in 0..lists {
        payload
            .extend_from_slice(b"\x06\0\0\0\x01")
            .expect(rt, "memory");
    }
    payload.push(1).expect(rt, "memory");
    payload
}

/// A list of that value alone.
fn listed(rt: &impl Abort, alloc: Global, value: ClaimValue) -> ClaimValue {
    ClaimValue::Items(List::new(vec![in alloc; value].expect(rt, "memory")))
}

/// The value null within this many lists.
fn nested_value(rt: &impl Abort, alloc: Global, lists: usize) -> ClaimValue {
    let mut value = ClaimValue::Null;
    for _ in 0..lists {
        value = listed(rt, alloc, value);
    }
    value
}

/// A validation with one claim, whose value is null within this many lists.
fn nested(rt: &impl Abort, alloc: Global, lists: usize) -> Response {
    let claim = Claim {
        name: copy_of(rt, alloc, "a"),
        value: nested_value(rt, alloc, lists),
    };
    Response::Validation(ValidationResponse {
        spiffe_id: copy_of(rt, alloc, "a"),
        claims: Some(List::new(vec![in alloc; claim].expect(rt, "memory"))),
    })
}

/// Whether such a validation is written as that payload.
fn is_written_as(rt: &impl Abort, alloc: Global, lists: usize, wanted: &[u8]) -> bool {
    match written(alloc, nested(rt, alloc, lists)) {
        Ok(payload) => {
            let is_wanted = payload.as_slice() == wanted;
            drop(payload);
            is_wanted
        }
        Err(OutOfMemory) => false,
    }
}

/// Whether a payload with a claim of that depth lays out that, and is written, as wanted.
fn is_outcome(rt: &impl Abort, alloc: Global, lists: usize, wanted: (&str, bool)) -> bool {
    let payload = nested_payload(rt, alloc, lists);
    let found = laid_out(rt, alloc, ResponseKind::Validation, payload.as_slice());
    let is_written = is_written_as(rt, alloc, lists, payload.as_slice());
    drop(payload);
    found == wanted.0 && is_written == wanted.1
}

/// Values of claims are at most 64 deep.
const NESTED: &[(usize, (&str, bool))] = &[(63, ("the same", true)), (64, ("nothing", false))];

#[test]
fn deep_claims(rt: HostRuntime) {
    for &(lists, wanted) in NESTED {
        assert!(rt; is_outcome(&rt, rt.alloc(), lists, wanted), "{lists}");
    }
}

/// Whether the context is that one.
fn is_context(found: Result<X509Context, WorkloadApiError>, wanted: &X509Context) -> bool {
    match found {
        Ok(context) => {
            let is_wanted = context == *wanted;
            drop(context);
            is_wanted
        }
        Err(e) => {
            drop(e);
            false
        }
    }
}

/// Whether the view gives that context, also where it shares what that holds.
fn gives(alloc: Global, view: &ContextView<'_>, context: &X509Context) -> bool {
    is_context(context_from_view(alloc, view), context)
        && is_context(
            context_from_view_sharing(alloc, view, Some(context)),
            context,
        )
}

/// Whether the view of the payload gives that context; none where there is no view.
fn viewed(rt: &impl Abort, alloc: Global, payload: &[u8], context: &X509Context) -> Option<bool> {
    match read_context_view(alloc, payload).expect(rt, "memory") {
        None => None,
        Some(view) => {
            let gives = gives(alloc, &view, context);
            drop(view);
            Some(gives)
        }
    }
}

/// Whether the payload of the first item is viewed as its context, and what is no payload not.
fn first_is_viewed(rt: &impl Abort, alloc: Global) -> Result<bool, Fail> {
    let item = first_item(alloc)?;
    let context = context_from(alloc, &item).expect(rt, "a context");
    let payload = written(alloc, Response::Context(item)).expect(rt, "memory");
    let found = viewed(rt, alloc, payload.as_slice(), &context);
    drop(payload);
    let none = viewed(rt, alloc, b"\xff\xff\xff\xff", &context);
    drop(context);
    Ok(found == Some(true) && none.is_none())
}

#[test]
fn views(rt: HostRuntime) -> Result<(), Fail> {
    assert!(rt; first_is_viewed(&rt, rt.alloc())?);
    Ok(())
}
