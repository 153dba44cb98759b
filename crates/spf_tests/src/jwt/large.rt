//! Key sets and tokens that are large or deep.

use crate::jwt::{key_set, token};
use spf_api::JwtBundleError;
use spf_io::OutOfMemory;
use spf_jwt::{
    JwtBundle, JwtBundleSet, JwtLimitBroken, JwtLimitKind, JwtResourceLimits, validate_jwt_limits,
};
use std::alloc::Global;
use std::mem::drop;

/// A piece this many times, between two texts.
fn filled(
    alloc: Global,
    before: &str,
    piece: &str,
    count: usize,
    after: &str,
) -> Result<String, OutOfMemory> {
    let middle = piece.repeat(alloc, count)?;
    Ok(format!(in alloc; "{before}{middle}{after}")?)
}

/// A key set beside which lists are nested this deep.
fn nested(alloc: Global, depth: usize) -> Result<String, OutOfMemory> {
    let open = filled(alloc, "{\"keys\":[],\"x\":", "[", depth, "")?;
    filled(alloc, open.as_str(), "]", depth, "}")
}

/// The name of the rule that such a key set breaks first.
fn nested_outcome(alloc: Global, depth: usize) -> Result<String, OutOfMemory> {
    key_set::outcome(alloc, nested(alloc, depth)?.as_str())
}

/// How deep lists are nested, and the outcome.
const DEPTHS: &[(usize, &str)] = &[(126, "Ok"), (127, "Json"), (1_000_000, "Json")];

/// JSON is read down to a depth of 127.
#[test]
fn nesting(rt: HostRuntime) {
    for &(depth, wanted) in DEPTHS {
        let found = nested_outcome(rt.alloc(), depth).expect(&rt, "memory");
        assert!(rt; found.as_str() == wanted, "{depth}: {found}");
    }
}

/// Key sets: what stands before and after a run of one letter, and the outcome.
const KEY_SETS: &[(&str, usize, &str, &str)] = &[
    ("{\"keys\":[{\"kid\":\"", 100_000, "\"}]}", "Ok"),
    (
        "{\"keys\":[{\"kid\":\"k\",\"n\":\"",
        1_048_576,
        "\"}]}",
        "Ok",
    ),
    (
        "{\"keys\":[{\"kid\":\"k\",\"n\":\"",
        1_048_576,
        "\"}]",
        "Json",
    ),
    ("{\"keys\":[{\"n\":\"", 1_048_576, "\"}]}", "MissingKeyId"),
    ("{\"keys\":\"", 1_048_576, "\"}", "MissingKeys"),
];

/// The name of the rule that such a key set breaks first.
fn large_outcome(
    alloc: Global,
    before: &str,
    count: usize,
    after: &str,
) -> Result<String, OutOfMemory> {
    let keys = filled(alloc, before, "a", count, after)?;
    key_set::outcome(alloc, keys.as_str())
}

#[test]
fn large_key_sets(rt: HostRuntime) {
    for &(before, count, after, wanted) in KEY_SETS {
        let found = large_outcome(rt.alloc(), before, count, after).expect(&rt, "memory");
        assert!(rt; found.as_str() == wanted, "{before} {count}: {found}");
    }
}

/// A key set of more than 16 MiB.
fn largest_keys(alloc: Global) -> Result<String, OutOfMemory> {
    let piece = "a".repeat(alloc, 16_384)?;
    filled(
        alloc,
        "{\"keys\":[{\"kid\":\"k\",\"n\":\"",
        piece.as_str(),
        1024,
        "\"}]}",
    )
}

/// A bundle of that key set.
fn largest(alloc: Global) -> Result<JwtBundle, JwtBundleError> {
    let keys = largest_keys(alloc)?;
    let bundle = key_set::bundle_of(alloc, keys.as_str());
    drop(keys);
    bundle
}

/// It is read, and passes the limit of octets, which is reported with the amount.
#[test]
fn largest_key_set(rt: HostRuntime) {
    let bundle = largest(rt.alloc()).expect(&rt, "a bundle");
    let mut set = JwtBundleSet::new(rt.alloc());
    set.add_bundle(bundle).expect(&rt, "memory");
    let outcome = validate_jwt_limits(&set, JwtResourceLimits::default_limits());
    drop(set);
    let broken = JwtLimitBroken {
        kind: JwtLimitKind::MaxBundleJwksBytes,
        limit: 4_194_304,
        actual: 16_777_234,
    };
    assert!(rt; outcome == Err(broken), "{outcome:?}");
}

const HEADER: &str = "eyJhbGciOiJFUzI1NiJ9";

const CLAIMS: &str = "eyJzdWIiOiJzcGlmZmU6Ly9leGFtcGxlLm9yZy93IiwiYXVkIjoiYSIsImV4cCI6OX0";

/// Tokens of about 1 MiB: the parts between full stops, of
/// which one is a run of a piece, and the outcome.
const TOKENS: &[(&str, &str, &str, &str)] = &[
    ("HEADER.CLAIMS.", "a", "", "Ok"),
    ("HEADER.CLAIMS.", "a", "=", "Parts"),
    ("HEADER.", "a", "", "Parts"),
    ("HEADER.CLAIMS", ".", "", "Parts"),
    ("", "a", ".CLAIMS.a", "HeaderText"),
    ("HEADER.", "a", ".a", "ClaimsText"),
];

/// A text with HEADER and CLAIMS replaced by a good header and good claims.
fn with_parts(alloc: Global, text: &str) -> Result<String, OutOfMemory> {
    let text = text.replace(alloc, "HEADER", HEADER)?;
    Ok(text.replace(alloc, "CLAIMS", CLAIMS)?)
}

/// Such a token.
fn large_token(
    alloc: Global,
    before: &str,
    piece: &str,
    after: &str,
) -> Result<String, OutOfMemory> {
    let before = with_parts(alloc, before)?;
    let after = with_parts(alloc, after)?;
    filled(alloc, before.as_str(), piece, 1_048_576, after.as_str())
}

/// The name of the rule that such a token breaks first.
fn token_outcome(
    alloc: Global,
    before: &str,
    piece: &str,
    after: &str,
) -> Result<String, OutOfMemory> {
    let text = large_token(alloc, before, piece, after)?;
    token::outcome(alloc, text.as_str())
}

#[test]
fn large_tokens(rt: HostRuntime) {
    for &(before, piece, after, wanted) in TOKENS {
        let found = token_outcome(rt.alloc(), before, piece, after).expect(&rt, "memory");
        assert!(rt;
            found.as_str() == wanted,
            "{before} {piece} {after}: {found}"
        );
    }
}
