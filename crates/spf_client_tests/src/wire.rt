//! The wire over memory.

use spf_api::{LinkFault, Response};
use spf_fixtures::{first_item, octets};
use spf_io::{MemSink, MemSource, Text};
use spf_link::{Headers, Link, Request, WireLink};
use std::alloc::Global;
use std::mem::drop;
use std::process::Abort;
use std::test::Fail;

/// What a link over memory reads, `s` for each `start` and
/// `n` for each `next`, and what they return, in order.
static CALLS: [(&str, &str, &str); 27] = [
    ("CN I1 07 00000000", "snn", "started item end "),
    ("0a", "s", "internal "),
    ("", "s", "internal "),
    ("03", "s", "internal "),
    ("03 000000", "s", "internal "),
    ("04 00000006 0e 00000001 78", "s", "unavailable "),
    ("04 00000005 0c 00000000", "s", "unimplemented "),
    ("CN IS7no", "sn", "started permission_denied "),
    (
        "CN I1 I1 07 00000000 CN I1",
        "snsn",
        "started item started item ",
    ),
    (
        "CN I1 I1 CS12 CN",
        "snss",
        "started item unimplemented started ",
    ),
    ("CN I1 0a", "sns", "started item internal "),
    ("CN I1 0a", "ss", "started internal "),
    (
        "CN 05 00000001 ff 06 00000000 CN I1",
        "ssn",
        "started started item ",
    ),
    // Kinds that are not allowed.
    ("I1", "n", "internal "),
    ("I1", "s", "internal "),
    ("CN CN", "sn", "started internal "),
    ("CN CS12", "sn", "started internal "),
    ("CL", "s", "internal "),
    ("CN M0", "sn", "started internal "),
    // Lengths past 2^24, and answers that end inside.
    ("03 01000001", "s", "internal "),
    ("CN 05 ffffffff", "sn", "started internal "),
    ("CN 05 01000000 00", "sn", "started internal "),
    // Payloads that lay out nothing.
    ("03 00000001 00", "s", "internal "),
    ("CN 05 00000004 ffffffff", "sn", "started internal "),
    ("04 00000005 11 00000000", "s", "internal "),
    // Texts that are not UTF-8.
    ("04 00000006 0e 00000001 ff", "s", "internal "),
    (
        "CN 05 00000021 00000001 00000001 ff 00000000 00000000 00000000 00000000 00000000 00000000",
        "sn",
        "started internal ",
    ),
];

fn fault_name(fault: &LinkFault) -> &'static str {
    match fault {
        LinkFault::Status(status) => status.code().as_str(),
        LinkFault::Connect(_) => "connect",
        LinkFault::OutOfMemory => "out of memory",
    }
}

fn name_of(fault: LinkFault) -> &'static str {
    let name = fault_name(&fault);
    drop(fault);
    name
}

/// A source that gives its first octets one at a time, and whose listed reads fail.
fn source_of(
    rt: &(impl Abort + AllocGlobal),
    text: &str,
    single: usize,
    failing: &[u64],
) -> Result<MemSource, Fail> {
    let octets = octets(rt.alloc(), text)?;
    let cuts = vec![in rt.alloc(); 1usize; single].expect(rt, "memory");
    let failing = Vec::from_slice(rt.alloc(), failing).expect(rt, "memory");
    Ok(MemSource::new(octets, cuts, failing))
}

/// A sink with that much room, whose listed puts fail.
fn sink(rt: &(impl Abort + AllocGlobal), room: usize, failing: &[u64]) -> MemSink {
    let failing = Vec::from_slice(rt.alloc(), failing).expect(rt, "memory");
    MemSink::new(rt.alloc(), room, failing).expect(rt, "a sink")
}

type MemWire = WireLink<MemSource, MemSink>;

/// A link that reads the octets of the text, over a sink of that room whose listed puts fail.
fn wire(
    rt: &(impl Abort + AllocGlobal),
    text: &str,
    room: usize,
    failing: &[u64],
) -> Result<MemWire, Fail> {
    let source = source_of(rt, text, 0, &[])?;
    Ok(WireLink::new(rt.alloc(), source, sink(rt, room, failing)))
}

/// The name of what a start returns.
fn started(link: &mut MemWire, headers: &Headers, request: &Request) -> &'static str {
    match link.start(headers, request) {
        Ok(()) => "started",
        Err(fault) => name_of(fault),
    }
}

/// The name of what the next answer is.
fn next(link: &mut MemWire) -> &'static str {
    match link.next() {
        Ok(Some(item)) => {
            drop(item);
            "item"
        }
        Ok(None) => "end",
        Err(fault) => name_of(fault),
    }
}

/// What the calls return, one after another.
fn names(rt: &(impl Abort + AllocGlobal), source: MemSource, calls: &str) -> String {
    let mut link = WireLink::new(rt.alloc(), source, sink(rt, 100, &[]));
    let headers = Headers::new(rt.alloc());
    let mut names = String::new(rt.alloc());
    for call in calls.as_bytes() {
        let name = match *call {
            b's' => started(&mut link, &headers, &Request::X509Svid),
            _ => next(&mut link),
        };
        names.push_str(name).expect(rt, "memory");
        names.push(' ').expect(rt, "memory");
    }
    drop(headers);
    drop(link);
    names
}

/// Whether the calls return this over a source that gives its first octets one at a time, and whose
/// listed reads fail.
fn is_answered(
    rt: &(impl Abort + AllocGlobal),
    row: (&str, &str, &str),
    single: usize,
    failing: &[u64],
) -> Result<bool, Fail> {
    let (text, calls, wanted) = row;
    let source = source_of(rt, text, single, failing)?;
    let names = names(rt, source, calls);
    let is_answered = names.as_str() == wanted;
    drop(names);
    Ok(is_answered)
}

#[test]
fn answers(rt: HostRuntime) -> Result<(), Fail> {
    for &row in CALLS.iter() {
        assert!(rt; is_answered(&rt, row, 0, &[])?, "{}", row.0);
        // One octet at a time.
        assert!(rt; is_answered(&rt, row, 600, &[])?, "{}", row.0);
    }
    Ok(())
}

/// Whether the next answer is the first item.
fn gives_first_item(alloc: Global, link: &mut MemWire) -> Result<bool, Fail> {
    let item = Response::Context(first_item(alloc)?);
    let answer = link.next();
    let is_first = match &answer {
        Ok(Some(response)) => *response == item,
        _ => false,
    };
    drop(answer);
    drop(item);
    Ok(is_first)
}

/// Whether a start with these headers is granted, after which the link has put these octets.
fn puts(link: &mut MemWire, headers: Headers, request: &Request, wanted: &[u8]) -> bool {
    let name = started(link, &headers, request);
    drop(headers);
    name == "started" && link.sink().bytes() == wanted
}

/// Whether the item and the end come after a start.
fn is_played(alloc: Global, link: &mut MemWire) -> Result<bool, Fail> {
    let wanted = b"\x11\0\0\0\x04\0\0\0\0";
    if !puts(link, Headers::new(alloc), &Request::X509Svid, wanted) {
        return Ok(false);
    }
    Ok(gives_first_item(alloc, link)? && next(link) == "end")
}

#[test]
fn wire_link(rt: HostRuntime) -> Result<(), Fail> {
    let mut link = wire(&rt, "CN I1 07 00000000", 9, &[])?;
    let is_played = is_played(rt.alloc(), &mut link);
    drop(link);
    assert!(rt; is_played?);
    Ok(())
}

/// Links whose place is lost: what they read, the calls, how many octets come one at a time, and
/// which read fails.
const LOST: &[(&str, &str, usize, u64)] = &[
    (
        "CN",
        "unavailable unavailable unavailable unavailable ",
        0,
        1,
    ),
    (
        "CN I1",
        "unavailable unavailable unavailable unavailable ",
        600,
        3,
    ),
    (
        "CN I1",
        "started unavailable unavailable unavailable ",
        600,
        8,
    ),
    (
        "CN I1 I1",
        "started unavailable unavailable unavailable ",
        600,
        20,
    ),
];

#[test]
fn failed_read_loses_the_place(rt: HostRuntime) -> Result<(), Fail> {
    for &(text, wanted, single, failing) in LOST {
        assert!(rt;
            is_answered(&rt, (text, "snsn", wanted), single, &[failing])?,
            "{failing}"
        );
    }
    Ok(())
}

/// The headers of a request with that one.
fn one_header(rt: &(impl Abort + AllocGlobal), name: &str, value: &str) -> Headers {
    let mut headers = Headers::new(rt.alloc());
    headers.set(name, value).expect(rt, "memory");
    headers
}

/// The request that validates the token `t` for the audience `a`.
fn validation(rt: &(impl Abort + AllocGlobal)) -> Request {
    Request::ValidateJwt {
        audience: Text::copy_of(rt.alloc(), "a").expect(rt, "memory"),
        svid: Text::copy_of(rt.alloc(), "t").expect(rt, "memory"),
    }
}

const BUNDLES: &[u8] = b"\x12\0\0\0\x0f\0\0\0\x01\0\0\0\x01a\0\0\0\x02bc";

const VALIDATION: &[u8] = b"\x15\0\0\0\x0e\0\0\0\0\0\0\0\x01a\0\0\0\x01t";

/// Whether a link puts these octets for a request with these headers.
fn is_put(mut link: MemWire, headers: Headers, request: Request, wanted: &[u8]) -> bool {
    let is_put = puts(&mut link, headers, &request, wanted);
    drop(request);
    drop(link);
    is_put
}

#[test]
fn requests(rt: HostRuntime) -> Result<(), Fail> {
    let link = wire(&rt, "CN", 200, &[])?;
    let headers = one_header(&rt, "a", "bc");
    assert!(rt; is_put(link, headers, Request::X509Bundles, BUNDLES));
    let link = wire(&rt, "CN", 200, &[])?;
    let headers = Headers::new(rt.alloc());
    assert!(rt; is_put(link, headers, validation(&rt), VALIDATION));
    Ok(())
}

/// How long the header `long` is, and what a start then returns.
const STARTS: &[(usize, &str)] = &[(1 << 24, "resource_exhausted"), (5, "started")];

/// Sets the header `long` to a value of that length.
fn set_long(rt: &(impl Abort + AllocGlobal), headers: &mut Headers, length: usize) {
    let value = "a".repeat(rt.alloc(), length).expect(rt, "memory");
    headers.set("long", value.as_str()).expect(rt, "memory");
    drop(value);
}

/// Whether a link that has put nothing returns this for a start with a header of that length.
fn is_start(
    rt: &(impl Abort + AllocGlobal),
    link: &mut MemWire,
    headers: &mut Headers,
    length: usize,
    wanted: &str,
) -> bool {
    set_long(rt, headers, length);
    link.sink().bytes().is_empty() && started(link, headers, &Request::X509Svid) == wanted
}

#[test]
fn refused_before_it_is_read(rt: HostRuntime) -> Result<(), Fail> {
    let mut link = wire(&rt, "CN", 100, &[])?;
    let mut headers = Headers::new(rt.alloc());
    for &(length, wanted) in STARTS {
        assert!(rt;
            is_start(&rt, &mut link, &mut headers, length, wanted),
            "{wanted}"
        );
    }
    drop(headers);
    drop(link);
    Ok(())
}

/// Whether a start returns this over a link that has put nothing before and puts nothing.
fn is_refused_unput(rt: &impl AllocGlobal, link: &mut MemWire, wanted: &str) -> bool {
    let headers = Headers::new(rt.alloc());
    let name = started(link, &headers, &Request::X509Svid);
    drop(headers);
    name == wanted && link.sink().bytes().is_empty()
}

#[test]
fn failed_put_loses_the_place(rt: HostRuntime) -> Result<(), Fail> {
    let mut link = wire(&rt, "CN I1", 100, &[1])?;
    for _ in 0..2 {
        assert!(rt; is_refused_unput(&rt, &mut link, "unavailable"));
        assert!(rt; next(&mut link) == "unavailable");
    }
    drop(link);
    Ok(())
}
