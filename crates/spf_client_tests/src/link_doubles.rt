//! In-memory links and connectors, whose answers are given as words.

use spf_api::{
    BundlesResponse, ClientFault, GrpcStatusCode, GrpcStatusError, LinkFault, Response,
    TransportConnectError,
};
use spf_fixtures::{FIRST, SvidRow, bundle_entries, context};
use spf_io::{List, OutOfMemory, Text};
use spf_link::{Answer, Connector, Headers, Link, MemConnector, MemLink, Request, Start};
use std::alloc::Global;
use std::fmt::Display;
use std::mem::drop;
use std::process::Abort;
use std::test::Fail;

/// An SVID entry whose key is not one.
const BROKEN: SvidRow<'static> = SvidRow {
    spiffe_id: "spiffe://example.org/w",
    key: "00",
    bundle: "ROOT1",
    hint: "",
};

fn denied(alloc: Global) -> Result<GrpcStatusError, OutOfMemory> {
    let message = Text::copy_of(alloc, "no")?;
    Ok(GrpcStatusError::new(GrpcStatusCode::PermissionDenied, message))
}

fn lost(alloc: Global) -> Result<LinkFault, OutOfMemory> {
    let source = Text::copy_of(alloc, "gone")?;
    Ok(LinkFault::Connect(TransportConnectError::new(source)))
}

/// The refusal that the word stands for.
fn refused(alloc: Global, word: &str) -> Result<LinkFault, OutOfMemory> {
    match word {
        "denied" => Ok(LinkFault::Status(denied(alloc)?)),
        "lost" => lost(alloc),
        _ => Ok(LinkFault::OutOfMemory),
    }
}

fn bundles(alloc: Global, rows: &[(&str, &str)]) -> Result<Response, Fail> {
    let bundles = bundle_entries(alloc, rows)?;
    Ok(Response::Bundles(BundlesResponse { bundles }))
}

fn svid(alloc: Global, row: SvidRow<'_>) -> Result<Response, Fail> {
    Ok(Response::Context(context(alloc, &[row], &[])?))
}

/// The response that the word stands for.
fn response(alloc: Global, word: &str) -> Result<Response, Fail> {
    match word {
        "no_bundles" => bundles(alloc, &[]),
        "bundles" => bundles(alloc, &[("example.org", "ROOT1")]),
        "broken" => svid(alloc, BROKEN),
        _ => svid(alloc, FIRST),
    }
}

/// The answer that the word stands for.
fn answer(alloc: Global, word: &str) -> Result<Answer, Fail> {
    match word {
        "started" => Ok(Answer::Started),
        "end" => Ok(Answer::End),
        "denied" | "lost" | "memory" => Ok(Answer::Refused(refused(alloc, word)?)),
        _ => Ok(Answer::Item(response(alloc, word)?)),
    }
}

/// Returns a link with the answers that the words stand for, one for each word.
pub fn link(alloc: Global, words: &[&str]) -> Result<MemLink, Fail> {
    let mut answers = Vec::new(alloc);
    for word in words {
        answers.push(answer(alloc, word)?)?;
    }
    Ok(MemLink::new(alloc, answers))
}

fn unreachable(alloc: Global) -> Result<ClientFault, OutOfMemory> {
    Ok(ClientFault::Unreachable(Text::copy_of(alloc, "nobody listens")?))
}

/// Returns a connector that gives this link, then a denial and an endpoint that cannot be reached.
pub fn connector(rt: &(impl Abort + AllocGlobal), link: MemLink) -> MemConnector {
    let alloc = rt.alloc();
    let denied = ClientFault::Status(denied(alloc).expect(rt, "memory"));
    let unreachable = unreachable(alloc).expect(rt, "memory");
    let links = vec![in alloc; Ok(link), Err(denied), Err(unreachable)];
    MemConnector::new(alloc, links.expect(rt, "memory"))
}

/// Whether the text of a value is this.
fn is_text<T: Display + Drop>(rt: &(impl Abort + AllocGlobal), value: T, wanted: &str) -> bool {
    let text = format!(in rt.alloc(); "{value}").expect(rt, "memory");
    drop(value);
    let is_text = text.as_str() == wanted;
    drop(text);
    is_text
}

/// Whether a start with the header `a` returns this, as a text.
fn is_started(
    rt: &(impl Abort + AllocGlobal),
    link: &mut MemLink,
    request: &Request,
    wanted: &str,
) -> bool {
    let mut headers = Headers::new(rt.alloc());
    headers.set("a", "1").expect(rt, "memory");
    let answer = link.start(&headers, request);
    drop(headers);
    match answer {
        Ok(()) => wanted == "started",
        Err(fault) => is_text(rt, fault, wanted),
    }
}

/// Whether the next answer is this, as a text.
fn is_next(rt: &(impl Abort + AllocGlobal), link: &mut MemLink, wanted: &str) -> bool {
    match link.next() {
        Ok(Some(item)) => {
            drop(item);
            wanted == "item"
        }
        Ok(None) => wanted == "end",
        Err(fault) => is_text(rt, fault, wanted),
    }
}

const UNAVAILABLE: &str = "gRPC status unavailable: ";

/// Calls of one link, `start` and `next`, and what each returns.
const CALLS: &[(&str, &str)] = &[
    ("next", UNAVAILABLE),
    ("start", "started"),
    ("next", "item"),
    ("next", UNAVAILABLE),
    ("next", UNAVAILABLE),
    ("next", "end"),
    ("next", "item"),
    ("next", UNAVAILABLE),
    ("next", UNAVAILABLE),
    ("start", UNAVAILABLE),
];

/// Whether that call of the link returns this.
fn is_called(
    rt: &(impl Abort + AllocGlobal),
    link: &mut MemLink,
    call: &str,
    wanted: &str,
) -> bool {
    match call {
        "start" => is_started(rt, link, &Request::X509Svid, wanted),
        _ => is_next(rt, link, wanted),
    }
}

/// A `start` takes one answer, and so does each `next`: what does not fit refuses like none.
#[test]
fn link_answers_in_turn(rt: HostRuntime) -> Result<(), Fail> {
    let words = [
        "first", "started", "first", "bundles", "started", "end", "first",
    ];
    let mut link = link(rt.alloc(), &words)?;
    for &(call, wanted) in CALLS {
        assert!(rt; is_called(&rt, &mut link, call, wanted), "{call}: {wanted}");
    }
    drop(link);
    Ok(())
}

fn text(rt: &(impl Abort + AllocGlobal), text: &str) -> Text {
    Text::copy_of(rt.alloc(), text).expect(rt, "memory")
}

/// A request that a token be validated.
fn validation(rt: &(impl Abort + AllocGlobal)) -> Request {
    Request::ValidateJwt {
        audience: text(rt, "a"),
        svid: text(rt, "t"),
    }
}

fn has_starts(starts: &[Start], last: &Request) -> bool {
    match starts {
        [first, second] => {
            matches!(first.request, Request::X509Svid)
                && second.request == *last
                && second.headers.get("a") == Some("1")
        }
        _ => false,
    }
}

/// Whether starts for three requests return what they have to, and a link keeps the first and the
/// last.
fn keeps_starts(rt: &(impl Abort + AllocGlobal), mut link: MemLink) -> bool {
    let last = validation(rt);
    let is_granted = is_started(rt, &mut link, &Request::X509Svid, "started");
    let is_lost = is_started(rt, &mut link, &Request::JwtBundles, "out of memory");
    let is_denied = is_started(rt, &mut link, &last, "gRPC status permission_denied: no");
    let has_starts = has_starts(link.starts(), &last);
    drop(last);
    drop(link);
    is_granted && is_lost && is_denied && has_starts
}

/// Each `start` but one that is out of memory is kept with its headers.
#[test]
fn link_keeps_starts(rt: HostRuntime) -> Result<(), Fail> {
    let link = link(rt.alloc(), &["started", "memory", "denied"])?;
    assert!(rt; keeps_starts(&rt, link));
    Ok(())
}

/// A request of a JWT-SVID for two audiences.
fn svid_request(rt: &(impl Abort + AllocGlobal)) -> Request {
    let audience = vec![in rt.alloc(); text(rt, "a"), text(rt, "b")].expect(rt, "memory");
    Request::JwtSvid {
        spiffe_id: text(rt, "spiffe://example.org/w"),
        audience: List::new(audience),
    }
}

/// Whether a copy of the request is the same.
fn is_copied(rt: &(impl Abort + AllocGlobal), request: &Request) -> bool {
    let copy = request.try_clone(rt.alloc()).expect(rt, "memory");
    let is_same = copy == *request;
    drop(copy);
    is_same
}

#[test]
fn request_is_copied(rt: HostRuntime) {
    let request = svid_request(&rt);
    assert!(rt; is_copied(&rt, &request));
    assert!(rt; is_copied(&rt, &Request::X509Bundles));
    drop(request);
}

/// Whether the connector gives this: a link, or an error of that text.
fn is_connected(
    rt: &(impl Abort + AllocGlobal),
    connector: &mut MemConnector,
    wanted: &str,
) -> bool {
    match connector.connect() {
        Ok(link) => {
            drop(link);
            wanted == "a link"
        }
        Err(fault) => is_text(rt, fault, wanted),
    }
}

/// What a connector gives, one after another.
const CONNECTED: &[&str] = &[
    "a link",
    "gRPC status permission_denied: no",
    "nobody listens",
    UNAVAILABLE,
];

#[test]
fn connector_gives_links_in_turn(rt: HostRuntime) -> Result<(), Fail> {
    let mut connector = connector(&rt, link(rt.alloc(), &["started"])?);
    assert!(rt; connector.validate().is_ok());
    for &wanted in CONNECTED {
        assert!(rt; is_connected(&rt, &mut connector, wanted), "{wanted}");
    }
    drop(connector);
    Ok(())
}
