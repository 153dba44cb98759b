//! What a fetcher asks again, and what it keeps.

use crate::jwt::links::{audience, connector};
use spf_id::SpiffeId;
use spf_io::{OutOfMemory, Text};
use spf_jwt::JwtSvid;
use spf_jwt_client::JwtFetcher;
use spf_jwt_feed::JwtSourceError;
use spf_link::MemConnector;
use std::alloc::Global;
use std::mem::drop;

type Fetcher = JwtFetcher<MemConnector>;

fn fetcher(alloc: Global, members: &[&[&str]]) -> Result<Fetcher, OutOfMemory> {
    Ok(JwtFetcher::new(connector(alloc, members)?))
}

fn text_of(alloc: Global, fetch: &Result<JwtSvid, JwtSourceError>) -> Result<String, OutOfMemory> {
    match fetch {
        Ok(svid) => Ok(String::from_str(alloc, svid.hint().unwrap_or("-"))?),
        Err(e) => Ok(format!(in alloc; "{e}")?),
    }
}

/// The hint of the SVID, or the text of the error.
fn shown(alloc: Global, fetch: Result<JwtSvid, JwtSourceError>) -> Result<String, OutOfMemory> {
    let text = text_of(alloc, &fetch);
    drop(fetch);
    text
}

fn push_fetch(
    alloc: Global,
    text: &mut String,
    fetch: Result<JwtSvid, JwtSourceError>,
) -> Result<(), OutOfMemory> {
    text.push_str(shown(alloc, fetch)?.as_str())?;
    text.push_str("; ")?;
    Ok(())
}

/// Appends what this many fetches return.
fn push_fetches(
    alloc: Global,
    text: &mut String,
    fetcher: &mut Fetcher,
    audience: &[Text],
    fetches: usize,
) -> Result<(), OutOfMemory> {
    for _ in 0..fetches {
        push_fetch(alloc, text, fetcher.fetch(alloc, audience))?;
    }
    Ok(())
}

/// Links of a connector, a number of fetches, and what they return. Each SVID is shown by its hint.
/// A link has more answers than its client takes, so another number of asks or of clients shows
/// another hint.
const FETCHES: &[(&[&[&str]], usize, &str)] = &[
    // One client for each fetch that nothing refuses.
    (
        &[&["started", "a", "started", "b"], &["started", "c"]],
        2,
        "a; b; ",
    ),
    // Two clients and two asks.
    (
        &[
            &["!unavailable", "started", "a"],
            &["started", "b", "started", "c"],
            &["started", "d"],
        ],
        2,
        "b; c; ",
    ),
    (
        &[
            &["started", "!cancelled", "started", "a"],
            &["started", "b", "started", "c"],
        ],
        2,
        "b; c; ",
    ),
    (
        &[&["!deadline", "started", "a"], &["started", "b"]],
        1,
        "b; ",
    ),
    (&[&["!lost", "started", "a"], &["started", "b"]], 1, "b; "),
    // No third ask. The second client stays.
    (
        &[
            &["!unavailable", "started", "a"],
            &["!cancelled", "started", "b"],
            &["started", "c"],
        ],
        2,
        "failed to fetch jwt svid: gRPC status cancelled: no; b; ",
    ),
    // One ask, and the client stays.
    (
        &[&["!denied", "started", "a"], &["started", "b"]],
        2,
        "failed to fetch jwt svid: permission denied: no; a; ",
    ),
    (
        &[&["!internal", "started", "a"], &["started", "b"]],
        2,
        "failed to fetch jwt svid: gRPC status internal: no; a; ",
    ),
    (
        &[&["!exhausted", "started", "a"], &["started", "b"]],
        2,
        "failed to fetch jwt svid: gRPC status resource_exhausted: no; a; ",
    ),
    (
        &[&["started", "end", "started", "a"], &["started", "b"]],
        2,
        "failed to fetch jwt svid: empty Workload API response; a; ",
    ),
    (
        &[&["!memory", "started", "a"], &["started", "b"]],
        2,
        "out of memory; a; ",
    ),
    // A client that cannot be made is not asked for again, and none is kept.
    (
        &[&["?unavailable"], &["started", "a"], &["started", "b"]],
        2,
        "jwt source error: gRPC status unavailable: no; a; ",
    ),
    (
        &[&["?unreachable"], &["?memory"], &["started", "a"]],
        3,
        "jwt source error: gRPC transport connection failed: nobody listens; out of memory; a; ",
    ),
    (
        &[
            &["!unavailable", "started", "a"],
            &["?unreachable"],
            &["started", "b"],
        ],
        2,
        "jwt source error: gRPC transport connection failed: nobody listens; b; ",
    ),
    (&[], 1, "jwt source error: gRPC status unavailable: ; "),
];

#[test]
fn jwt_fetch_retry(rt: HostRuntime) {
    let alloc = rt.alloc();
    let audience = audience(alloc).expect(&rt, "memory");
    for &(members, fetches, wanted) in FETCHES {
        let mut fetcher = fetcher(alloc, members).expect(&rt, "a fetcher");
        let mut found = String::new(alloc);
        push_fetches(
            alloc,
            &mut found,
            &mut fetcher,
            audience.as_slice(),
            fetches,
        )
        .expect(&rt, "memory");
        drop(fetcher);
        assert!(rt; found.as_str() == wanted, "{found}");
    }
    drop(audience);
}

fn fetched_of_id(alloc: Global, members: &[&[&str]], id: &SpiffeId) -> Result<String, OutOfMemory> {
    let mut fetcher = fetcher(alloc, members)?;
    let fetch = fetcher.fetch_with_id(alloc, &[], Some(id));
    drop(fetcher);
    shown(alloc, fetch)
}

/// Links of a connector, and what a fetch of an ID returns.
const FETCHES_OF_ID: &[(&[&[&str]], &str)] = &[
    (&[&["!unavailable"], &["started", "a"]], "a"),
    (
        &[&["!denied"], &["started", "a"]],
        "failed to fetch jwt svid: permission denied: no",
    ),
];

#[test]
fn jwt_fetch_of_an_id(rt: HostRuntime) {
    let alloc = rt.alloc();
    let id = SpiffeId::new(alloc, "spiffe://example.org/w").expect(&rt, "an ID");
    for &(members, wanted) in FETCHES_OF_ID {
        let found = fetched_of_id(alloc, members, &id).expect(&rt, "memory");
        assert!(rt; found.as_str() == wanted, "{found}");
    }
    drop(id);
}
