//! Keys and key sets.

use spf_api::JwtBundleError;
use spf_id::{SpiffeIdError, TrustDomain};
use spf_io::{Bytes, OutOfMemory};
use spf_jwt::{JwtAuthority, JwtBundle, JwtBundleSet};
use std::alloc::Global;
use std::mem::drop;
use std::str;
use std::sync::Arc;

fn domain(alloc: Global) -> Result<TrustDomain, JwtBundleError> {
    match TrustDomain::new(alloc, "example.org") {
        Ok(domain) => Ok(domain),
        Err(_) => Err(JwtBundleError::OutOfMemory),
    }
}

/// The bundle of `example.org` with that key set.
pub(crate) fn bundle_of(alloc: Global, keys: &str) -> Result<JwtBundle, JwtBundleError> {
    JwtBundle::from_jwt_authorities(alloc, domain(alloc)?, keys.as_bytes())
}

/// Appends the keys of a bundle in its order, each as its ID and its JSON text, before a space.
fn push_keys(text: &mut String, bundle: &JwtBundle) -> Result<(), OutOfMemory> {
    for authority in bundle.jwt_authorities() {
        text.push_str(authority.key_id())?;
        text.push('=')?;
        text.push_str(str::from_utf8(authority.jwk_json()).unwrap_or("?"))?;
        text.push(' ')?;
    }
    Ok(())
}

fn keys_in(alloc: Global, bundle: &JwtBundle) -> Result<String, OutOfMemory> {
    let mut text = String::new(alloc);
    push_keys(&mut text, bundle)?;
    Ok(text)
}

/// The name of the rule that a key set breaks.
fn refusal(alloc: Global, error: JwtBundleError) -> Result<String, OutOfMemory> {
    let text = format!(in alloc; "{error}");
    drop(error);
    Ok(text?)
}

/// The keys of a key set, or the name of the rule that it breaks first.
fn keys_of(alloc: Global, keys: &str) -> Result<String, OutOfMemory> {
    match bundle_of(alloc, keys) {
        Ok(bundle) => {
            let text = keys_in(alloc, &bundle);
            drop(bundle);
            text
        }
        Err(error) => refusal(alloc, error),
    }
}

/// Key sets and their keys: of keys with the same ID the last one counts, and in a key the names
/// are in order at every depth, of equal names the last.
const KEYS: &[(&str, &str)] = &[
    ("{\"keys\":[]}", ""),
    (
        "{\"keys\":[{\"kid\":\"k\",\"kty\":\"EC\"}]}",
        "k={\"kid\":\"k\",\"kty\":\"EC\"} ",
    ),
    (
        "{\"keys\":[{\"kid\":\"k\",\"n\":1},{\"kid\":\"b\"},{\"kid\":\"k\",\"n\":2}]}",
        "b={\"kid\":\"b\"} k={\"kid\":\"k\",\"n\":2} ",
    ),
    (
        "{\"keys\":[{ \"x\" : { \"b\" : [ 1, -2 ] }, \"kid\":\"k\", \
         \"x\" : {\"d\":true, \"c\":\"\\u0041\"} }]}",
        "k={\"kid\":\"k\",\"x\":{\"c\":\"A\",\"d\":true}} ",
    ),
];

#[test]
fn key_set(rt: HostRuntime) {
    for &(keys, wanted) in KEYS {
        let found = keys_of(rt.alloc(), keys).expect(&rt, "memory");
        assert!(rt; found.as_str() == wanted, "{keys}: {found}");
    }
}

/// The name of the rule that a key set breaks first; `Ok` where it breaks none.
pub(crate) fn outcome(alloc: Global, keys: &str) -> Result<String, OutOfMemory> {
    match bundle_of(alloc, keys) {
        Ok(bundle) => {
            drop(bundle);
            Ok(String::from_str(alloc, "Ok")?)
        }
        Err(error) => refusal(alloc, error),
    }
}

const KEY_SETS: &[(&str, &str)] = &[
    ("{\"keys\":[]}", "Ok"),
    (
        "{\"keys\":[],\"keys\":[{\"kid\":\"k\"}],\"x\":-9223372036854775808}",
        "Ok",
    ),
    ("{\"a\":1.5,\"a\":1,\"keys\":[]}", "Ok"),
    ("{", "Json"),
    ("", "Json"),
    ("{\"keys\":[]} x", "Json"),
    ("{\"keys\":[\"\\ud800\"]}", "Json"),
    ("{\"keys\":[1.5]}", "HoldsFloat"),
    ("{\"x\":{\"y\":[0,-0]}}", "HoldsFloat"),
    ("[1e1]", "HoldsFloat"),
    ("{}", "MissingKeys"),
    ("[]", "MissingKeys"),
    ("{\"keys\":{}}", "MissingKeys"),
    ("{\"keys\":[{\"kid\":\"k\"},1]}", "NotAnObject"),
    ("{\"keys\":[{}]}", "MissingKeyId"),
    ("{\"keys\":[{\"kid\":\"\"},1]}", "MissingKeyId"),
];

#[test]
fn key_sets(rt: HostRuntime) {
    for &(keys, wanted) in KEY_SETS {
        let found = outcome(rt.alloc(), keys).expect(&rt, "memory");
        assert!(rt; found.as_str() == wanted, "{keys}: {found}");
    }
}

/// A bundle that keeps its key set.
fn keeping(alloc: Global, keys: &str) -> Result<JwtBundle, JwtBundleError> {
    let domain = domain(alloc)?;
    let jwks = Bytes::copy_of(alloc, keys.as_bytes())?;
    JwtBundle::from_jwt_authorities_owned(alloc, domain, jwks)
}

fn is_from(
    alloc: Global,
    bundle: &JwtBundle,
    domain: &str,
    keys: &str,
) -> Result<bool, SpiffeIdError> {
    let domain = TrustDomain::new(alloc, domain)?;
    Ok(bundle.is_parsed_from(&domain, keys.as_bytes()))
}

/// Whether the bundle is the same as one that does not keep its key set.
fn is_as_read(alloc: Global, bundle: &JwtBundle, keys: &str) -> bool {
    match bundle_of(alloc, keys) {
        Ok(other) => {
            let is_same = *bundle == other;
            drop(other);
            is_same
        }
        Err(error) => {
            drop(error);
            false
        }
    }
}

const KEPT: &str = "{\"keys\":[{\"kid\":\"k\"}]}";

/// Trust domains and key sets, and whether the bundle is of them.
const SOURCES: &[(&str, &str, bool)] = &[
    ("example.org", KEPT, true),
    ("another.org", KEPT, false),
    ("example.org", "{\"keys\":[]}", false),
];

#[test]
fn kept_key_set(rt: HostRuntime) {
    let alloc = rt.alloc();
    let bundle = keeping(alloc, KEPT).expect(&rt, "a bundle");
    for &(domain, keys, wanted) in SOURCES {
        let is_from = is_from(alloc, &bundle, domain, keys).expect(&rt, "a domain");
        assert!(rt; is_from == wanted, "{domain} {keys}");
    }
    assert!(rt; is_as_read(alloc, &bundle, KEPT));
    drop(bundle);
}

/// A copy of a key.
fn copied_key(alloc: Global) -> Result<JwtAuthority, JwtBundleError> {
    let key = JwtAuthority::from_jwk_json(alloc, b"{\"kid\":\"a\"}")?;
    let copy = key.try_clone(alloc);
    drop(key);
    Ok(copy?)
}

/// The bundle of a key set that was read again, with the copy of a key added.
fn with_added_key(alloc: Global) -> Result<JwtBundle, JwtBundleError> {
    let key = copied_key(alloc)?;
    let mut bundle = keeping(alloc, KEPT)?;
    bundle.add_jwt_authority(key)?;
    Ok(bundle)
}

const ADDED: &str = "a={\"kid\":\"a\"} k={\"kid\":\"k\"} ";

#[test]
fn added_key(rt: HostRuntime) {
    let alloc = rt.alloc();
    let bundle = with_added_key(alloc).expect(&rt, "a bundle");
    let keys = keys_in(alloc, &bundle).expect(&rt, "memory");
    assert!(rt; keys.as_str() == ADDED, "{keys}");
    drop(keys);
    assert!(rt; !is_from(alloc, &bundle, "example.org", KEPT).expect(&rt, "a domain"));
    drop(bundle);
}

/// The set to which that bundle was added.
fn set_of(alloc: Global, bundle: JwtBundle) -> Result<JwtBundleSet, OutOfMemory> {
    let mut set = JwtBundleSet::new(alloc);
    set.add_bundle(bundle)?;
    Ok(set)
}

/// The keys of a bundle that was looked for; `none` where it was not found.
fn keys_found(alloc: Global, found: Option<Arc<JwtBundle>>) -> Result<String, OutOfMemory> {
    match found {
        Some(bundle) => {
            let keys = keys_in(alloc, &bundle);
            drop(bundle);
            keys
        }
        None => Ok(String::from_str(alloc, "none")?),
    }
}

#[test]
fn added_bundle(rt: HostRuntime) {
    let alloc = rt.alloc();
    let domain = domain(alloc).expect(&rt, "a domain");
    let bundle = with_added_key(alloc).expect(&rt, "a bundle");
    let set = set_of(alloc, bundle).expect(&rt, "memory");
    assert!(rt; set.len() == 1);
    let found = set.get(&domain).expect(&rt, "memory");
    let keys = keys_found(alloc, found).expect(&rt, "memory");
    assert!(rt; keys.as_str() == ADDED, "{keys}");
    drop(keys);
    drop(set);
    drop(domain);
}
