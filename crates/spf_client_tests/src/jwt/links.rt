//! In-memory links and connectors, whose answers are given as words.

use spf_api::{
    BundleEntry, BundlesResponse, Claim, ClaimValue, ClientFault, GrpcStatusCode, GrpcStatusError,
    JwtSvidEntry, JwtSvidsResponse, LinkFault, Response, TransportConnectError, ValidationResponse,
};
use spf_fixtures::TOKEN1;
use spf_io::{Bytes, List, OutOfMemory, Text};
use spf_link::{Answer, MemConnector, MemLink};
use std::alloc::Global;

const KEYS: &str = "{\"keys\":[{\"kid\":\"k\",\"kty\":\"EC\"}]}";

const ID: &str = "spiffe://example.org/w";

fn entry(alloc: Global, id: &str, token: &str, hint: &str) -> Result<JwtSvidEntry, OutOfMemory> {
    Ok(JwtSvidEntry {
        spiffe_id: Text::copy_of(alloc, id)?,
        svid: Text::copy_of(alloc, token)?,
        hint: Text::copy_of(alloc, hint)?,
    })
}

/// A response of these entries, each an ID, a token and a hint.
fn svids(alloc: Global, rows: &[(&str, &str, &str)]) -> Result<Response, OutOfMemory> {
    let mut entries = Vec::new(alloc);
    for (id, token, hint) in rows {
        entries.push(entry(alloc, id, token, hint)?)?;
    }
    let svids = List::new(entries);
    Ok(Response::JwtSvids(JwtSvidsResponse { svids }))
}

fn bundle_entry(alloc: Global, name: &str, keys: &str) -> Result<BundleEntry, OutOfMemory> {
    Ok(BundleEntry {
        name: Text::copy_of(alloc, name)?,
        bundle: Bytes::copy_of(alloc, keys.as_bytes())?,
    })
}

/// A response of these entries, each a trust domain and a key set.
fn bundles(alloc: Global, rows: &[(&str, &str)]) -> Result<Response, OutOfMemory> {
    let mut entries = Vec::new(alloc);
    for (name, keys) in rows {
        entries.push(bundle_entry(alloc, name, keys)?)?;
    }
    let bundles = List::new(entries);
    Ok(Response::JwtBundles(BundlesResponse { bundles }))
}

/// What a claim is made of.
#[derive(Clone, Copy)]
enum Claimed {
    Words(&'static str),
    Whole(i64),
    OtherNumber(&'static str),
}

const SUBJECT: (&str, Claimed) = ("sub", Claimed::Words(ID));

const AUDIENCE: (&str, Claimed) = ("aud", Claimed::Words("a"));

fn value(alloc: Global, claimed: Claimed) -> Result<ClaimValue, OutOfMemory> {
    match claimed {
        Claimed::Words(text) => Ok(ClaimValue::Words(Text::copy_of(alloc, text)?)),
        Claimed::Whole(number) => Ok(ClaimValue::Whole(number)),
        Claimed::OtherNumber(text) => Ok(ClaimValue::OtherNumber(Text::copy_of(alloc, text)?)),
    }
}

fn claim(alloc: Global, name: &str, claimed: Claimed) -> Result<Claim, OutOfMemory> {
    Ok(Claim {
        name: Text::copy_of(alloc, name)?,
        value: value(alloc, claimed)?,
    })
}

fn claims(alloc: Global, rows: &[(&str, Claimed)]) -> Result<List<Claim>, OutOfMemory> {
    let mut claims = Vec::new(alloc);
    for &(name, claimed) in rows {
        claims.push(claim(alloc, name, claimed)?)?;
    }
    Ok(List::new(claims))
}

/// A validation with these claims.
fn validation(alloc: Global, rows: &[(&str, Claimed)]) -> Result<Response, OutOfMemory> {
    let spiffe_id = Text::copy_of(alloc, ID)?;
    let claims = Some(claims(alloc, rows)?);
    Ok(Response::Validation(ValidationResponse { spiffe_id, claims }))
}

fn unclaimed(alloc: Global) -> Result<Response, OutOfMemory> {
    Ok(Response::Validation(ValidationResponse {
        spiffe_id: Text::copy_of(alloc, ID)?,
        claims: None,
    }))
}

/// Words for SVIDs, each an ID, a token and a hint.
const SVIDS: &[(&str, &[(&str, &str, &str)])] = &[
    ("no_svids", &[]),
    ("two", &[(ID, TOKEN1, "g"), (ID, TOKEN1, "h")]),
    ("bad_second", &[(ID, TOKEN1, "g"), (ID, "t", "h")]),
    ("no_token", &[(ID, TOKEN1, "g"), (ID, "", "h")]),
    ("no_id", &[("", TOKEN1, "h")]),
];

/// Words for bundles, each a trust domain and a key set.
const BUNDLES: &[(&str, &[(&str, &str)])] = &[
    ("no_bundles", &[]),
    ("bundles", &[("spiffe://example.org", KEYS)]),
    (
        "two_bundles",
        &[("a.org", KEYS), ("b.org", KEYS), ("a.org", KEYS)],
    ),
    ("no_keys", &[("example.org", "{}")]),
];

/// Words for the claims of a validation.
const CLAIMS: &[(&str, &[(&str, Claimed)])] = &[
    ("no_expiry", &[SUBJECT, AUDIENCE]),
    (
        "other_expiry",
        &[SUBJECT, AUDIENCE, ("exp", Claimed::OtherNumber("1.5"))],
    ),
    ("valid", &[SUBJECT, AUDIENCE, ("exp", Claimed::Whole(9))]),
];

/// The rows that the word stands for in a table.
fn rows_of<'a, T>(table: &[(&str, &'a [T])], word: &str) -> Option<&'a [T]> {
    for &(name, rows) in table {
        if name == word {
            return Some(rows);
        }
    }
    None
}

/// The response that the word stands for. Any other word is the hint of one SVID.
fn response(alloc: Global, word: &str) -> Result<Response, OutOfMemory> {
    if let Some(rows) = rows_of(SVIDS, word) {
        return svids(alloc, rows);
    }
    if let Some(rows) = rows_of(BUNDLES, word) {
        return bundles(alloc, rows);
    }
    if let Some(rows) = rows_of(CLAIMS, word) {
        return validation(alloc, rows);
    }
    match word {
        "no_claims" => unclaimed(alloc),
        hint => svids(alloc, &[(ID, TOKEN1, hint)]),
    }
}

fn status(alloc: Global, code: GrpcStatusCode) -> Result<GrpcStatusError, OutOfMemory> {
    let message = Text::copy_of(alloc, "no")?;
    Ok(GrpcStatusError::new(code, message))
}

/// The code of a refusal that the word stands for.
fn code_of(word: &str) -> GrpcStatusCode {
    match word {
        "!cancelled" => GrpcStatusCode::Cancelled,
        "!deadline" => GrpcStatusCode::DeadlineExceeded,
        "!unavailable" => GrpcStatusCode::Unavailable,
        "!denied" => GrpcStatusCode::PermissionDenied,
        "!internal" => GrpcStatusCode::Internal,
        "!exhausted" => GrpcStatusCode::ResourceExhausted,
        _ => GrpcStatusCode::Unknown,
    }
}

fn fault(alloc: Global, word: &str) -> Result<LinkFault, OutOfMemory> {
    match word {
        "!lost" => {
            let source = Text::copy_of(alloc, "gone")?;
            Ok(LinkFault::Connect(TransportConnectError::new(source)))
        }
        "!memory" => Ok(LinkFault::OutOfMemory),
        word => Ok(LinkFault::Status(status(alloc, code_of(word))?)),
    }
}

/// The answer that the word stands for. A word that begins with `!` is a refusal.
fn answer(alloc: Global, word: &str) -> Result<Answer, OutOfMemory> {
    match word {
        "started" => Ok(Answer::Started),
        "end" => Ok(Answer::End),
        word => {
            if word.starts_with('!') {
                Ok(Answer::Refused(fault(alloc, word)?))
            } else {
                Ok(Answer::Item(response(alloc, word)?))
            }
        }
    }
}

/// Returns a link with the answers that the words stand for, one for each word.
pub fn link(alloc: Global, words: &[&str]) -> Result<MemLink, OutOfMemory> {
    let mut answers = Vec::new(alloc);
    for word in words {
        answers.push(answer(alloc, word)?)?;
    }
    Ok(MemLink::new(alloc, answers))
}

/// What a `connect` gives: the fault that a single word stands for, or else a link.
fn member(alloc: Global, words: &[&str]) -> Result<Result<MemLink, ClientFault>, OutOfMemory> {
    match words {
        ["?unreachable"] => {
            let text = Text::copy_of(alloc, "nobody listens")?;
            Ok(Err(ClientFault::Unreachable(text)))
        }
        ["?unavailable"] => {
            let status = status(alloc, GrpcStatusCode::Unavailable)?;
            Ok(Err(ClientFault::Status(status)))
        }
        ["?memory"] => Ok(Err(ClientFault::OutOfMemory)),
        words => Ok(Ok(link(alloc, words)?)),
    }
}

/// Returns a connector that gives these links and faults in turn.
pub fn connector(alloc: Global, members: &[&[&str]]) -> Result<MemConnector, OutOfMemory> {
    let mut links = Vec::new(alloc);
    for words in members {
        links.push(member(alloc, words)?)?;
    }
    Ok(MemConnector::new(alloc, links))
}

/// Returns the audience `a`.
pub fn audience(alloc: Global) -> Result<Vec<Text>, OutOfMemory> {
    Ok(vec![in alloc; Text::copy_of(alloc, "a")?]?)
}
