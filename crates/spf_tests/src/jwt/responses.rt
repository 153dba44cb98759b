//! Responses that carry key sets.

use spf_api::{BundleEntry, BundlesResponse, WorkloadApiError};
use spf_id::TrustDomain;
use spf_io::{Bytes, List, OutOfMemory, Text};
use spf_jwt::{
    JwtBundle, JwtBundleSet, JwtResourceLimits, jwt_bundle_set_from, jwt_bundle_set_sharing,
    validate_jwt_limits,
};
use spf_x509::BundleSource;
use std::alloc::Global;
use std::mem::drop;
use std::sync::Arc;

fn entry(alloc: Global, name: &str, keys: &str) -> Result<BundleEntry, OutOfMemory> {
    Ok(BundleEntry {
        name: Text::copy_of(alloc, name)?,
        bundle: Bytes::copy_of(alloc, keys.as_bytes())?,
    })
}

/// A response of these entries, each a trust domain and a key set.
fn response(alloc: Global, rows: &[(&str, &str)]) -> Result<BundlesResponse, OutOfMemory> {
    let mut entries = Vec::new(alloc);
    for (name, keys) in rows {
        entries.push(entry(alloc, name, keys)?)?;
    }
    let bundles = List::new(entries);
    Ok(BundlesResponse { bundles })
}

const NONE: &str = "{\"keys\":[]}";

const ONE: &str = "{\"keys\":[{\"kid\":\"k\"}]}";

/// The set of two bundles of one trust domain, of which the last one counts.
fn bundle_set(alloc: Global) -> Result<JwtBundleSet, WorkloadApiError> {
    let response = response(alloc, &[("example.org", NONE), ("example.org", ONE)])?;
    let set = jwt_bundle_set_from(alloc, &response);
    drop(response);
    set
}

fn is_within(set: &JwtBundleSet, max_bundles: usize) -> bool {
    validate_jwt_limits(set, JwtResourceLimits::new(Some(max_bundles), None)).is_ok()
}

#[test]
fn last_bundle_stands(rt: HostRuntime) {
    let set = bundle_set(rt.alloc()).expect(&rt, "a set");
    assert!(rt; set.len() == 1);
    assert!(rt; is_within(&set, 1));
    assert!(rt; !is_within(&set, 0));
    drop(set);
}

/// The set of two trust domains, of which the second has these keys, read beside a held set.
fn beside(
    alloc: Global,
    keys: &str,
    held: Option<&JwtBundleSet>,
) -> Result<JwtBundleSet, WorkloadApiError> {
    let response = response(alloc, &[("example.org", ONE), ("another.org", keys)])?;
    jwt_bundle_set_sharing(alloc, response, held)
}

fn are_same(
    one: &Result<JwtBundleSet, WorkloadApiError>,
    other: &Result<JwtBundleSet, WorkloadApiError>,
) -> bool {
    match (one, other) {
        (Ok(one), Ok(other)) => *one == *other,
        _ => false,
    }
}

/// Whether a set that is read beside another is the same as one that is read alone.
fn is_as_alone(alloc: Global, keys: &str, held: &JwtBundleSet) -> bool {
    let found = beside(alloc, keys, Some(held));
    let alone = beside(alloc, keys, None);
    let are_same = are_same(&found, &alone);
    drop(alone);
    drop(found);
    are_same
}

#[test]
fn held_set_makes_no_difference(rt: HostRuntime) {
    let held = beside(rt.alloc(), NONE, None).expect(&rt, "a set");
    for keys in [NONE, ONE] {
        assert!(rt; is_as_alone(rt.alloc(), keys, &held), "{keys}");
    }
    drop(held);
}

/// The set of one bundle, of which it takes a share.
fn set_of(alloc: Global, trust_domain: &TrustDomain) -> Result<JwtBundleSet, OutOfMemory> {
    let trust_domain = trust_domain.try_clone(alloc)?;
    let bundle = Arc::new(alloc, JwtBundle::new(alloc, trust_domain))?;
    let mut set = JwtBundleSet::new(alloc);
    set.add_shared(bundle)?;
    Ok(set)
}

fn is_there(found: Result<Option<Arc<JwtBundle>>, OutOfMemory>) -> bool {
    let is_there = matches!(&found, Ok(Some(_)));
    drop(found);
    is_there
}

/// Whether a set finds the bundle of a trust domain, as a map and as a source of bundles.
fn is_found(set: &JwtBundleSet, trust_domain: &TrustDomain) -> (bool, bool) {
    let found = is_there(set.get(trust_domain));
    let given = is_there(set.bundle_for_trust_domain(&mut (), trust_domain));
    (found, given)
}

#[test]
fn shared_bundle_is_found(rt: HostRuntime) {
    let alloc = rt.alloc();
    let trust_domain = TrustDomain::new(alloc, "example.org").expect(&rt, "a domain");
    let set = set_of(alloc, &trust_domain).expect(&rt, "a set");
    assert!(rt; is_found(&set, &trust_domain) == (true, true));
    drop(trust_domain);
    let another = TrustDomain::new(alloc, "another.org").expect(&rt, "a domain");
    assert!(rt; is_found(&set, &another) == (false, false));
    drop(another);
    drop(set);
}
