//! The JWT calls of a client over in-memory links.

use crate::jwt::links::{audience, link};
use spf_api::WorkloadApiError;
use spf_client::WorkloadApiClient;
use spf_fixtures::TOKEN1;
use spf_id::SpiffeId;
use spf_io::{OutOfMemory, Text};
use spf_jwt::{JwtBundle, JwtBundleSet, JwtSvid};
use spf_jwt_client::{JwtBundleStream, JwtClient};
use spf_link::{MemLink, NoInterceptor};
use std::alloc::Global;
use std::mem::drop;

type Client = WorkloadApiClient<MemLink, NoInterceptor>;

fn client(alloc: Global, words: &[&str]) -> Result<Client, OutOfMemory> {
    Ok(WorkloadApiClient::new_with_link(None, link(alloc, words)?, NoInterceptor))
}

fn push_hints(text: &mut String, svids: &[JwtSvid]) -> Result<(), OutOfMemory> {
    for svid in svids {
        text.push_str(svid.hint().unwrap_or("-"))?;
        text.push(' ')?;
    }
    Ok(())
}

fn push_keys(text: &mut String, bundle: &JwtBundle) -> Result<(), OutOfMemory> {
    for authority in bundle.jwt_authorities() {
        text.push_str(authority.key_id())?;
    }
    Ok(())
}

fn push_bundles(text: &mut String, bundles: &JwtBundleSet) -> Result<(), OutOfMemory> {
    for (domain, bundle) in bundles.iter() {
        text.push_str(domain.as_str())?;
        text.push('=')?;
        push_keys(text, bundle)?;
        text.push(' ')?;
    }
    Ok(())
}

/// A value by which these tests know it.
trait Shown {
    fn shown(&self, alloc: Global) -> Result<String, OutOfMemory>;
}

impl Shown for JwtSvid {
    fn shown(&self, alloc: Global) -> Result<String, OutOfMemory> {
        let id = self.spiffe_id();
        let hint = self.hint().unwrap_or("-");
        let is_first = self.token() == TOKEN1;
        Ok(format!(in alloc; "{id} {} {hint} {is_first}", self.expiry())?)
    }
}

impl Shown for Vec<JwtSvid> {
    fn shown(&self, alloc: Global) -> Result<String, OutOfMemory> {
        let mut text = String::new(alloc);
        push_hints(&mut text, self.as_slice())?;
        Ok(text)
    }
}

/// A token.
impl Shown for Text {
    fn shown(&self, alloc: Global) -> Result<String, OutOfMemory> {
        Ok(format!(in alloc; "{}", self.as_str() == TOKEN1)?)
    }
}

impl Shown for JwtBundleSet {
    fn shown(&self, alloc: Global) -> Result<String, OutOfMemory> {
        let mut text = String::new(alloc);
        push_bundles(&mut text, self)?;
        Ok(text)
    }
}

fn text_of<T: Shown>(
    alloc: Global,
    answer: &Result<T, WorkloadApiError>,
) -> Result<String, OutOfMemory> {
    match answer {
        Ok(value) => value.shown(alloc),
        Err(e) => Ok(format!(in alloc; "{e}")?),
    }
}

/// What a call returned, as a text.
fn summary<T: Shown + Drop>(
    alloc: Global,
    answer: Result<T, WorkloadApiError>,
) -> Result<String, OutOfMemory> {
    let text = text_of(alloc, &answer);
    drop(answer);
    text
}

fn of_id(alloc: Global, client: &mut Client, audience: &[Text]) -> Result<String, OutOfMemory> {
    let Ok(id) = SpiffeId::new(alloc, "spiffe://example.org/w") else {
        return Err(OutOfMemory);
    };
    let answer = client.fetch_jwt_svid(alloc, audience, Some(&id));
    drop(id);
    summary(alloc, answer)
}

/// What the call of that name returns, as a text. Any other name is a hint.
fn fetched(
    alloc: Global,
    client: &mut Client,
    call: &str,
    audience: &[Text],
) -> Result<String, OutOfMemory> {
    match call {
        "svid" => summary(alloc, client.fetch_jwt_svid(alloc, audience, None)),
        "svid of an ID" => of_id(alloc, client, audience),
        "svids" => summary(alloc, client.fetch_all_jwt_svids(alloc, audience, None)),
        "token" => summary(alloc, client.fetch_jwt_token(alloc, audience, None)),
        "bundles" => summary(alloc, client.fetch_jwt_bundles(alloc)),
        "validated" => summary(alloc, client.validate_jwt_token(alloc, "a", TOKEN1)),
        "validated text" => summary(alloc, client.validate_jwt_token(alloc, "a", "t")),
        hint => summary(
            alloc,
            client.fetch_jwt_svid_by_hint(alloc, audience, None, hint),
        ),
    }
}

/// The same of a client over a link with these answers.
fn answered(alloc: Global, words: &[&str], call: &str) -> Result<String, OutOfMemory> {
    let audience = audience(alloc)?;
    let mut client = client(alloc, words)?;
    let text = fetched(alloc, &mut client, call, audience.as_slice());
    drop(client);
    drop(audience);
    text
}

const UNAVAILABLE: &str = "gRPC status unavailable: ";

const EMPTY: &str = "empty Workload API response";

const NO_SVIDS: &str = "Workload API response is missing required field: JWTSVIDResponse.svids";

const NO_TOKEN: &str = "Workload API response is missing required field: JWTSVID.svid";

const NO_ID: &str = "Workload API response is missing required field: JWTSVID.spiffe_id";

const NO_BUNDLES: &str =
    "Workload API response is missing required field: JWTBundlesResponse.bundles";

const NO_CLAIMS: &str =
    "Workload API response is missing required field: ValidateJWTSVIDResponse.claims";

const NO_EXPIRY: &str =
    "Workload API response is missing required field: ValidateJWTSVIDResponse.claims.exp";

const OTHER_EXPIRY: &str =
    "Workload API response has invalid field: ValidateJWTSVIDResponse.claims.exp";

const BAD_TOKEN: &str = "failed to parse JWT-SVID: Parts";

const NO_HINT: &str = "no JWT-SVID found with hint: x";

/// The answer after the start, a call, and what it returns.
const FETCHES: &[(&str, &str, &str)] = &[
    ("h", "svid", "spiffe://example.org/w 9 h true"),
    ("h", "svid of an ID", "spiffe://example.org/w 9 h true"),
    ("h", "svids", "h "),
    ("h", "h", "spiffe://example.org/w 9 h true"),
    ("h", "x", NO_HINT),
    ("h", "token", "true"),
    ("", "svid", "spiffe://example.org/w 9 - true"),
    ("", "svids", "- "),
    ("two", "svid", "spiffe://example.org/w 9 g true"),
    ("two", "svids", "g h "),
    ("two", "h", "spiffe://example.org/w 9 h true"),
    ("two", "g", "spiffe://example.org/w 9 g true"),
    ("two", "x", NO_HINT),
    // All entries are read, but for the token of the first.
    ("bad_second", "svid", BAD_TOKEN),
    ("bad_second", "svids", BAD_TOKEN),
    ("bad_second", "g", BAD_TOKEN),
    ("bad_second", "token", "true"),
    ("no_token", "token", NO_TOKEN),
    ("no_token", "svid", NO_TOKEN),
    ("no_id", "token", NO_ID),
    ("no_svids", "svid", NO_SVIDS),
    ("no_svids", "svids", NO_SVIDS),
    ("no_svids", "h", NO_SVIDS),
    ("no_svids", "token", NO_SVIDS),
    ("end", "svid", EMPTY),
    ("end", "token", EMPTY),
    ("end", "bundles", EMPTY),
    ("end", "validated", EMPTY),
    ("bundles", "bundles", "example.org=k "),
    ("two_bundles", "bundles", "a.org=k b.org=k "),
    ("no_bundles", "bundles", NO_BUNDLES),
    (
        "no_keys",
        "bundles",
        "failed to parse JWT bundle: MissingKeys",
    ),
    ("no_claims", "validated", NO_CLAIMS),
    ("no_expiry", "validated", NO_EXPIRY),
    ("other_expiry", "validated", OTHER_EXPIRY),
    ("valid", "validated", "spiffe://example.org/w 9 - true"),
    ("valid", "validated text", BAD_TOKEN),
    ("!denied", "svid", "permission denied: no"),
    ("!lost", "token", "gRPC transport connection failed: gone"),
    ("!memory", "bundles", "out of memory"),
    // A response of another kind is refused like none.
    ("h", "bundles", UNAVAILABLE),
    ("bundles", "svids", UNAVAILABLE),
    ("h", "validated", UNAVAILABLE),
];

#[test]
fn jwt_client(rt: HostRuntime) {
    for &(word, call, wanted) in FETCHES {
        let found = answered(rt.alloc(), &["started", word], call).expect(&rt, "memory");
        assert!(rt; found.as_str() == wanted, "{word}, {call}: {found}");
    }
}

const CALLS: &[&str] = &["svid", "svids", "h", "token", "bundles", "validated"];

#[test]
fn jwt_client_refused_at_the_start(rt: HostRuntime) {
    for &call in CALLS {
        let found = answered(rt.alloc(), &["!denied", "started"], call).expect(&rt, "memory");
        assert!(rt;
            found.as_str() == "permission denied: no",
            "{call}: {found}"
        );
    }
}

/// Appends what a stream gave.
fn push_item(
    alloc: Global,
    text: &mut String,
    item: Option<Result<JwtBundleSet, WorkloadApiError>>,
) -> Result<(), OutOfMemory> {
    match item {
        None => text.push_str("none")?,
        Some(answer) => text.push_str(summary(alloc, answer)?.as_str())?,
    }
    text.push_str("; ")?;
    Ok(())
}

fn push_items(
    alloc: Global,
    text: &mut String,
    stream: &mut JwtBundleStream<'_, MemLink>,
    calls: usize,
) -> Result<(), OutOfMemory> {
    for _ in 0..calls {
        push_item(alloc, text, stream.next_item(alloc))?;
    }
    Ok(())
}

/// Appends why a stream did not start.
fn push_refusal(alloc: Global, text: &mut String, e: WorkloadApiError) -> Result<(), OutOfMemory> {
    let refusal = format!(in alloc; "{e}");
    drop(e);
    text.push_str(refusal?.as_str())?;
    Ok(())
}

/// Appends what the first calls of a stream of bundles return.
fn push_stream(
    alloc: Global,
    text: &mut String,
    client: &mut Client,
    calls: usize,
) -> Result<(), OutOfMemory> {
    match client.stream_jwt_bundles(alloc) {
        Ok(mut stream) => push_items(alloc, text, &mut stream, calls),
        Err(e) => push_refusal(alloc, text, e),
    }
}

/// Answers of the link, and what four calls of the stream return.
const STREAMS: &[(&[&str], &str)] = &[
    (
        &["started", "no_keys", "bundles", "end", "bundles"],
        "failed to parse JWT bundle: MissingKeys; example.org=k ; none; none; ",
    ),
    (
        &["started", "!memory", "bundles", "!denied", "bundles"],
        "out of memory; example.org=k ; permission denied: no; none; ",
    ),
    (
        &["started", "h", "bundles"],
        "gRPC status unavailable: ; none; none; none; ",
    ),
    (&["!denied", "started"], "permission denied: no"),
];

#[test]
fn jwt_client_streams(rt: HostRuntime) {
    let alloc = rt.alloc();
    for &(words, wanted) in STREAMS {
        let mut client = client(alloc, words).expect(&rt, "a client");
        let mut found = String::new(alloc);
        push_stream(alloc, &mut found, &mut client, 4).expect(&rt, "memory");
        drop(client);
        assert!(rt; found.as_str() == wanted, "{found}");
    }
}
