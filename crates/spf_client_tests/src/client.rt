//! The client over in-memory links.

use crate::link_doubles::{connector, link};
use spf_api::WorkloadApiError;
use spf_client::{WorkloadApiClient, X509BundleStream, X509ContextStream, X509SvidStream};
use spf_io::Text;
use spf_link::{Endpoint, MemConnector, MemLink, NoInterceptor};
use spf_x509::{X509BundleSet, X509Context, X509Svid};
use std::alloc::Global;
use std::mem::drop;
use std::process::Abort;
use std::test::Fail;

type Client = WorkloadApiClient<MemLink, NoInterceptor>;

fn client(alloc: Global, words: &[&str]) -> Result<Client, Fail> {
    Ok(WorkloadApiClient::new_with_link(None, link(alloc, words)?, NoInterceptor))
}

/// A value by which these tests know it.
trait Shown {
    fn shown(&self) -> &str;
}

impl Shown for X509Context {
    fn shown(&self) -> &str {
        if self.svids().len() == 1 && self.bundle_set().len() == 1 {
            "1 SVIDs, 1 bundles"
        } else {
            "a context"
        }
    }
}

impl Shown for X509Svid {
    fn shown(&self) -> &str {
        self.spiffe_id().as_str()
    }
}

impl Shown for Vec<X509Svid> {
    fn shown(&self) -> &str {
        match self.as_slice() {
            [svid] => svid.spiffe_id().as_str(),
            _ => "SVIDs",
        }
    }
}

impl Shown for X509BundleSet {
    fn shown(&self) -> &str {
        if self.len() == 1 {
            "1 bundles"
        } else {
            "bundles"
        }
    }
}

/// Appends the text of the error.
fn push_error(rt: &(impl Abort + AllocGlobal), text: &mut String, e: WorkloadApiError) {
    let shown = format!(in rt.alloc(); "{e}").expect(rt, "memory");
    drop(e);
    text.push_str(shown.as_str()).expect(rt, "memory");
    drop(shown);
}

/// Appends what a call returned.
fn push_answer<T: Shown + Drop>(
    rt: &(impl Abort + AllocGlobal),
    text: &mut String,
    answer: Result<T, WorkloadApiError>,
) {
    match answer {
        Ok(value) => {
            text.push_str(value.shown()).expect(rt, "memory");
            drop(value);
        }
        Err(e) => push_error(rt, text, e),
    }
}

/// Appends what the call of that name returns.
fn push_fetched(
    rt: &(impl Abort + AllocGlobal),
    text: &mut String,
    client: &mut Client,
    call: &str,
) {
    let alloc = rt.alloc();
    match call {
        "svid" => push_answer(rt, text, client.fetch_x509_svid(alloc)),
        "svids" => push_answer(rt, text, client.fetch_all_x509_svids(alloc)),
        "context" => push_answer(rt, text, client.fetch_x509_context(alloc)),
        _ => push_answer(rt, text, client.fetch_x509_bundles(alloc)),
    }
}

const UNAVAILABLE: &str = "gRPC status unavailable: ";

const EMPTY: &str = "empty Workload API response";

const NO_BUNDLES: &str =
    "Workload API response is missing required field: X509BundlesResponse.bundles";

const BAD_KEY: &str = "failed to parse X.509 SVID: failed decoding PKCS#8 private key";

/// Appends what a stream gave.
fn push_item<T: Shown + Drop>(
    rt: &(impl Abort + AllocGlobal),
    text: &mut String,
    item: Option<Result<T, WorkloadApiError>>,
) {
    match item {
        None => text.push_str("none").expect(rt, "memory"),
        Some(answer) => push_answer(rt, text, answer),
    }
    text.push_str("; ").expect(rt, "memory");
}

fn push_contexts(
    rt: &(impl Abort + AllocGlobal),
    text: &mut String,
    stream: &mut X509ContextStream<'_, MemLink>,
    calls: usize,
) {
    for _ in 0..calls {
        push_item(rt, text, stream.next_item(rt.alloc()));
    }
}

fn push_svids(
    rt: &(impl Abort + AllocGlobal),
    text: &mut String,
    stream: &mut X509SvidStream<'_, MemLink>,
    calls: usize,
) {
    for _ in 0..calls {
        push_item(rt, text, stream.next_item(rt.alloc()));
    }
}

fn push_bundle_sets(
    rt: &(impl Abort + AllocGlobal),
    text: &mut String,
    stream: &mut X509BundleStream<'_, MemLink>,
    calls: usize,
) {
    for _ in 0..calls {
        push_item(rt, text, stream.next_item(rt.alloc()));
    }
}

/// Appends what the first calls of a stream of that kind return, or why there is no stream.
fn push_stream(
    rt: &(impl Abort + AllocGlobal),
    text: &mut String,
    client: &mut Client,
    kind: &str,
    calls: usize,
) {
    match kind {
        "contexts" => match client.stream_x509_contexts(rt.alloc()) {
            Ok(mut stream) => push_contexts(rt, text, &mut stream, calls),
            Err(e) => push_error(rt, text, e),
        },
        "svids" => match client.stream_x509_svids(rt.alloc()) {
            Ok(mut stream) => push_svids(rt, text, &mut stream, calls),
            Err(e) => push_error(rt, text, e),
        },
        _ => match client.stream_x509_bundles(rt.alloc()) {
            Ok(mut stream) => push_bundle_sets(rt, text, &mut stream, calls),
            Err(e) => push_error(rt, text, e),
        },
    }
}

/// Whether a call returns this, or so many items of a stream do.
fn is_asked(
    rt: &(impl Abort + AllocGlobal),
    client: &mut Client,
    call: &str,
    streamed: usize,
    wanted: &str,
) -> bool {
    let mut found = String::new(rt.alloc());
    match streamed {
        0 => push_fetched(rt, &mut found, client, call),
        _ => push_stream(rt, &mut found, client, call, streamed),
    }
    let is_wanted = found.as_str() == wanted;
    drop(found);
    is_wanted
}

/// A call, how many of a stream's items it takes, and what it returns.
type Call = (&'static str, usize, &'static str);

/// Answers of the link, and calls of one client over it.
const CALLS: &[(&[&str], &[Call])] = &[
    (
        &["started", "first"],
        &[("context", 0, "1 SVIDs, 1 bundles")],
    ),
    (
        &["started", "first"],
        &[("svid", 0, "spiffe://example.org/w")],
    ),
    (
        &["started", "first"],
        &[("svids", 0, "spiffe://example.org/w")],
    ),
    (&["started", "bundles"], &[("bundles", 0, "1 bundles")]),
    (&["started", "end"], &[("context", 0, EMPTY)]),
    (&["started", "end"], &[("svid", 0, EMPTY)]),
    (&["started", "end"], &[("svids", 0, EMPTY)]),
    (&["started", "end"], &[("bundles", 0, EMPTY)]),
    (&["denied"], &[("context", 0, "permission denied: no")]),
    (
        &["started", "denied"],
        &[("svids", 0, "permission denied: no")],
    ),
    (
        &["started", "lost"],
        &[("bundles", 0, "gRPC transport connection failed: gone")],
    ),
    (&["memory"], &[("svid", 0, "out of memory")]),
    (&["started", "memory"], &[("svid", 0, "out of memory")]),
    (&["started", "no_bundles"], &[("bundles", 0, NO_BUNDLES)]),
    (&["started", "broken"], &[("svid", 0, BAD_KEY)]),
    // After the last answer, and answers that do not fit the call.
    (&[], &[("context", 0, UNAVAILABLE)]),
    (&["started"], &[("context", 0, UNAVAILABLE)]),
    (&["first"], &[("context", 0, UNAVAILABLE)]),
    (&["started", "started"], &[("context", 0, UNAVAILABLE)]),
    (&["started", "bundles"], &[("context", 0, UNAVAILABLE)]),
    (&["started", "first"], &[("bundles", 0, UNAVAILABLE)]),
    // Four items of a stream.
    (
        &["started", "broken", "first", "end", "first"],
        &[(
            "contexts",
            4,
            "failed to parse X.509 SVID: failed decoding PKCS#8 private key; 1 SVIDs, 1 bundles; \
             none; none; ",
        )],
    ),
    (
        &["started", "broken", "first", "end", "first"],
        &[(
            "svids",
            4,
            "failed to parse X.509 SVID: failed decoding PKCS#8 private key; \
             spiffe://example.org/w; none; none; ",
        )],
    ),
    (
        &["started", "no_bundles", "bundles", "end", "bundles"],
        &[(
            "bundles",
            4,
            "Workload API response is missing required field: X509BundlesResponse.bundles; \
             1 bundles; none; none; ",
        )],
    ),
    (
        &["started", "memory", "first", "denied", "first"],
        &[(
            "svids",
            4,
            "out of memory; spiffe://example.org/w; permission denied: no; none; ",
        )],
    ),
    (
        &["started", "bundles", "first"],
        &[(
            "contexts",
            4,
            "gRPC status unavailable: ; none; none; none; ",
        )],
    ),
    (
        &["denied", "started"],
        &[("contexts", 4, "permission denied: no")],
    ),
    // A client fetches again, also where it has left a stream.
    (
        &["started", "first", "started", "first", "started", "bundles"],
        &[
            ("contexts", 1, "1 SVIDs, 1 bundles; "),
            ("svid", 0, "spiffe://example.org/w"),
            ("bundles", 0, "1 bundles"),
            ("bundles", 0, UNAVAILABLE),
        ],
    ),
];

/// The first of these calls that a client does not answer so.
fn first_unmet(
    rt: &(impl Abort + AllocGlobal),
    client: &mut Client,
    calls: &'static [Call],
) -> Option<&'static str> {
    for &(call, streamed, wanted) in calls {
        if !is_asked(rt, client, call, streamed, wanted) {
            return Some(wanted);
        }
    }
    None
}

#[test]
fn client_calls(rt: HostRuntime) -> Result<(), Fail> {
    for &(words, calls) in CALLS {
        let mut client = client(rt.alloc(), words)?;
        let unmet = first_unmet(&rt, &mut client, calls);
        drop(client);
        if let Some(wanted) = unmet {
            return Err(Fail::new(wanted));
        }
    }
    Ok(())
}

/// Whether a client has no endpoint.
fn is_unnamed(client: Client) -> bool {
    let is_unnamed = client.endpoint().is_none();
    drop(client);
    is_unnamed
}

fn is_path(endpoint: Option<&Endpoint>, path: &str) -> bool {
    match endpoint {
        Some(Endpoint::Unix(found)) => found.as_str() == path,
        _ => false,
    }
}

/// Whether a client over the link has the endpoint of that path.
fn has_path(rt: &(impl Abort + AllocGlobal), link: MemLink, path: &str) -> bool {
    let endpoint = Endpoint::Unix(Text::copy_of(rt.alloc(), path).expect(rt, "memory"));
    let client = WorkloadApiClient::new_with_link(Some(endpoint), link, NoInterceptor);
    let has_path = is_path(client.endpoint(), path);
    drop(client);
    has_path
}

#[test]
fn client_endpoint(rt: HostRuntime) -> Result<(), Fail> {
    assert!(rt; is_unnamed(client(rt.alloc(), &[])?));
    assert!(rt; has_path(&rt, link(rt.alloc(), &[])?, "/foo"));
    Ok(())
}

/// Whether the next client of the connector fetches this, or there is none for that reason.
fn is_connected(
    rt: &(impl Abort + AllocGlobal),
    connector: &mut MemConnector,
    wanted: &str,
) -> bool {
    match WorkloadApiClient::connect_over(connector) {
        Ok(mut client) => {
            let is_fetched = is_asked(rt, &mut client, "svids", 0, wanted);
            is_unnamed(client) && is_fetched
        }
        Err(e) => is_error(rt, e, wanted),
    }
}

fn is_error(rt: &(impl Abort + AllocGlobal), e: WorkloadApiError, wanted: &str) -> bool {
    let mut text = String::new(rt.alloc());
    push_error(rt, &mut text, e);
    let is_wanted = text.as_str() == wanted;
    drop(text);
    is_wanted
}

/// What the clients of a connector fetch, one after another, or why there is none.
const CONNECTED: &[&str] = &[
    "spiffe://example.org/w",
    "permission denied: no",
    "gRPC transport connection failed: nobody listens",
    UNAVAILABLE,
];

#[test]
fn client_over_a_connector(rt: HostRuntime) -> Result<(), Fail> {
    let mut connector = connector(&rt, link(rt.alloc(), &["started", "first"])?);
    for &wanted in CONNECTED {
        assert!(rt; is_connected(&rt, &mut connector, wanted), "{wanted}");
    }
    drop(connector);
    Ok(())
}
