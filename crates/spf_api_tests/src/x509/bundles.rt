//! Bundles, bundle sets and contexts.

use super::URI;
use crate::shown::{is_refused, is_same};
use crate::written::{Kind, ROOT, written};
use spf_fixtures::octets;
use spf_id::TrustDomain;
use spf_io::{Bytes, OutOfMemory};
use spf_x509::{
    BundleSource, X509Bundle, X509BundleIter, X509BundleSet, X509Context, X509Svid,
    sorted_authorities, sorted_svids,
};
use std::alloc::Global;
use std::sync::Arc;
use std::test::Fail;

/// A bundle of `example.org` with ROOT1 and ROOT2.
fn two_roots(alloc: Global) -> Result<X509Bundle, Fail> {
    let both = octets(alloc, "ROOT1 ROOT2")?;
    let domain = TrustDomain::new(alloc, "example.org")?;
    Ok(X509Bundle::parse_from_der(alloc, domain, both.as_slice())?)
}

/// Whether these indices are returned.
fn are_indices(found: Result<Vec<usize>, OutOfMemory>, wanted: &[usize]) -> bool {
    match found {
        Ok(found) => found.as_slice() == wanted,
        Err(_) => false,
    }
}

/// Whether the bundle of two authorities refuses what is no certificate.
fn refuses(bundle: &mut X509Bundle) -> bool {
    is_refused(bundle.add_authority(b"\0")) && bundle.authorities().len() == 2
}

/// Whether the bundle of `example.org` has three authorities, which stand in order.
fn is_three(alloc: Global, bundle: &X509Bundle) -> bool {
    bundle.authorities().len() == 3
        && bundle.trust_domain().as_str() == "example.org"
        && are_indices(sorted_authorities(alloc, bundle), &[0, 1, 2])
}

/// Whether the bundle takes ROOT3, and then has three authorities.
fn grows(alloc: Global, bundle: &mut X509Bundle) -> Result<bool, Fail> {
    let authority = octets(alloc, "ROOT3")?;
    let refused = is_refused(bundle.add_authority(authority.as_slice()));
    Ok(!refused && is_three(alloc, bundle))
}

#[test]
fn bundle(rt: HostRuntime) -> Result<(), Fail> {
    let mut bundle = two_roots(rt.alloc())?;
    let refused = refuses(&mut bundle);
    let grown = grows(rt.alloc(), &mut bundle);
    drop(bundle);
    assert!(rt; refused);
    assert!(rt; grown?);
    Ok(())
}

/// The octets of ROOT1 and of ROOT2.
fn root_texts(alloc: Global) -> Result<Vec<Bytes>, Fail> {
    let mut texts = Vec::new(alloc);
    for name in ["ROOT1", "ROOT2"] {
        let der = octets(alloc, name)?;
        texts.push(Bytes::new(der))?;
    }
    Ok(texts)
}

/// The bundle of `example.org` with ROOT1 and ROOT2, one by one.
fn listed_roots(alloc: Global) -> Result<X509Bundle, Fail> {
    let texts = root_texts(alloc)?;
    let domain = TrustDomain::new(alloc, "example.org")?;
    Ok(X509Bundle::from_x509_authorities(alloc, domain, texts.as_slice())?)
}

/// Whether the bundle equals the listed one, which equals its copy.
fn equals_listed(alloc: Global, parsed: &X509Bundle) -> Result<bool, Fail> {
    let listed = listed_roots(alloc)?;
    let equal = *parsed == listed && is_same(listed.try_clone(alloc), &listed);
    drop(listed);
    Ok(equal)
}

#[test]
fn bundles_equal_their_copies(rt: HostRuntime) -> Result<(), Fail> {
    let parsed = two_roots(rt.alloc())?;
    let equal = equals_listed(rt.alloc(), &parsed);
    drop(parsed);
    assert!(rt; equal?);
    Ok(())
}

/// Whether the bundle is parsed from that trust domain and those octets.
fn is_from(alloc: Global, bundle: &X509Bundle, name: &str, der: &str) -> Result<bool, Fail> {
    let der = octets(alloc, der)?;
    let domain = TrustDomain::new(alloc, name)?;
    let parsed = bundle.is_parsed_from(&domain, der.as_slice());
    drop(domain);
    Ok(parsed)
}

/// The same of the bundle of ROOT1 and ROOT2.
fn is_parsed_from(alloc: Global, name: &str, authorities: &str) -> Result<bool, Fail> {
    let bundle = two_roots(alloc)?;
    let parsed = is_from(alloc, &bundle, name, authorities);
    drop(bundle);
    parsed
}

/// A trust domain and octets, and whether the bundle is parsed from them.
const SOURCES: &[(&str, &str, bool)] = &[
    ("example.org", "ROOT1 ROOT2", true),
    ("other.org", "ROOT1 ROOT2", false),
    ("example.org", "ROOT1", false),
    ("example.org", "", false),
];

/// A bundle is parsed from its own trust domain and bytes, and from nothing else.
#[test]
fn bundle_is_parsed_from(rt: HostRuntime) -> Result<(), Fail> {
    for &(name, authorities, wanted) in SOURCES {
        assert!(rt;
            is_parsed_from(rt.alloc(), name, authorities)? == wanted,
            "{authorities}"
        );
    }
    Ok(())
}

/// A bundle with the authority of that serial.
fn one_root(alloc: Global, name: &str, serial: u8) -> Result<X509Bundle, Fail> {
    let authority = written(alloc, Kind { serial, ..ROOT }, 1000, &[])?;
    let domain = TrustDomain::new(alloc, name)?;
    Ok(X509Bundle::parse_from_der(alloc, domain, authority.as_slice())?)
}

/// Three bundles, of which the last is of the trust domain of the first.
const THREE: &[(&str, u8)] = &[("example.org", 1), ("other.org", 2), ("example.org", 3)];

fn three_bundles(alloc: Global) -> Result<X509BundleSet, Fail> {
    let mut bundles = Vec::new(alloc);
    for &(name, serial) in THREE {
        let bundle = one_root(alloc, name, serial)?;
        bundles.push(bundle)?;
    }
    Ok(X509BundleSet::from_iter(alloc, bundles)?)
}

/// Whether that bundle is returned.
fn is_given(found: Result<Option<Arc<X509Bundle>>, OutOfMemory>, wanted: &X509Bundle) -> bool {
    match found {
        Ok(Some(bundle)) => {
            let given = *bundle == *wanted;
            drop(bundle);
            given
        }
        Ok(None) => false,
        Err(OutOfMemory) => false,
    }
}

/// Whether the set lends that bundle for its trust domain.
fn lends(set: &X509BundleSet, wanted: &X509Bundle) -> bool {
    match set.get_ref(wanted.trust_domain()) {
        Some(bundle) => **bundle == *wanted,
        None => false,
    }
}

/// Whether the bundle of that trust domain has the authority of that serial.
fn holds(alloc: Global, set: &X509BundleSet, name: &str, serial: u8) -> Result<bool, Fail> {
    let wanted = one_root(alloc, name, serial)?;
    let domain = wanted.trust_domain();
    let held = lends(set, &wanted)
        && is_given(set.get(domain), &wanted)
        && is_given(set.bundle_for_trust_domain(&mut (), domain), &wanted);
    drop(wanted);
    Ok(held)
}

/// Whether the set has two bundles, no more after it is extended with none, and equals its copy.
fn is_two(alloc: Global, set: &mut X509BundleSet) -> bool {
    set.extend(Vec::new(alloc)).is_ok()
        && set.len() == 2
        && !set.is_empty()
        && is_same(set.try_clone(alloc), set)
}

#[test]
fn bundle_set(rt: HostRuntime) -> Result<(), Fail> {
    let mut set = three_bundles(rt.alloc())?;
    let two = is_two(rt.alloc(), &mut set);
    let held = holds(rt.alloc(), &set, "example.org", 3);
    drop(set);
    assert!(rt; two);
    assert!(rt; held?);
    Ok(())
}

/// Bundles that are added one after the other.
const SHARED: &[(&str, u8)] = &[
    ("d.org", 1),
    ("b.org", 2),
    ("a.org", 3),
    ("c.org", 4),
    ("b.org", 5),
];

/// The bundles that then stand.
const STANDING: &[(&str, u8)] = &[("a.org", 3), ("b.org", 5), ("c.org", 4), ("d.org", 1)];

fn shared_root(alloc: Global, name: &str, serial: u8) -> Result<Arc<X509Bundle>, Fail> {
    let bundle = one_root(alloc, name, serial)?;
    Ok(Arc::new(alloc, bundle)?)
}

/// Adds the bundles of that table to the set.
fn add_shared(alloc: Global, set: &mut X509BundleSet) -> Result<(), Fail> {
    for &(name, serial) in SHARED {
        let bundle = shared_root(alloc, name, serial)?;
        set.add_shared(bundle)?;
    }
    Ok(())
}

/// Whether the set, which is empty, has four bundles once all are added, and that one of them.
fn stands(alloc: Global, set: &mut X509BundleSet, name: &str, serial: u8) -> Result<bool, Fail> {
    add_shared(alloc, set)?;
    Ok(set.len() == 4 && holds(alloc, set, name, serial)?)
}

/// Four trust domains stand beside one another, and a share replaces the bundle of its own alone.
#[test]
fn shared_bundles(rt: HostRuntime) -> Result<(), Fail> {
    for &(name, serial) in STANDING {
        let mut set = X509BundleSet::new(rt.alloc());
        let standing = stands(rt.alloc(), &mut set, name, serial);
        drop(set);
        assert!(rt; standing?, "{name}");
    }
    Ok(())
}

/// Whether the text of the walk for debugging begins with its name.
fn is_named(alloc: Global, bundles: X509BundleIter<'_>) -> bool {
    match format!(in alloc; "{bundles:?}") {
        Ok(shown) => shown.as_str().starts_with("X509BundleIter"),
        Err(_) => false,
    }
}

/// The trust domain of the next bundle.
fn next_name<'a>(bundles: &mut X509BundleIter<'a>) -> Option<&'a str> {
    let (domain, _) = bundles.next()?;
    Some(domain.as_str())
}

/// Whether these are the trust domains of the bundles.
fn are_names(mut bundles: X509BundleIter<'_>, names: &[&str]) -> bool {
    for name in names {
        if next_name(&mut bundles) != Some(*name) {
            return false;
        }
    }
    next_name(&mut bundles).is_none()
}

#[test]
fn bundles_stand_in_order(rt: HostRuntime) -> Result<(), Fail> {
    let set = three_bundles(rt.alloc())?;
    let ordered = are_names(set.iter(), &["example.org", "other.org"]);
    let named = is_named(rt.alloc(), set.iter());
    drop(set);
    assert!(rt; ordered);
    assert!(rt; named);
    Ok(())
}

/// The SVID of that leaf and KEY1.
fn svid_of(alloc: Global, leaf: &str) -> Result<X509Svid, Fail> {
    let chain = octets(alloc, leaf)?;
    let key = octets(alloc, "KEY1")?;
    Ok(X509Svid::parse_from_der(alloc, chain.as_slice(), key.as_slice())?)
}

/// The SVIDs of LEAF1 and of LEAF2.
fn two_svids(alloc: Global) -> Result<Vec<Arc<X509Svid>>, Fail> {
    let mut svids = Vec::new(alloc);
    for leaf in ["LEAF1", "LEAF2"] {
        let svid = svid_of(alloc, leaf)?;
        svids.push(Arc::new(alloc, svid)?)?;
    }
    Ok(svids)
}

fn one_crl(alloc: Global) -> Result<Vec<Bytes>, OutOfMemory> {
    let crl = Bytes::copy_of(alloc, b"\x0a")?;
    let mut crls = Vec::new(alloc);
    crls.push(crl)?;
    Ok(crls)
}

/// The context of both SVIDs and one revocation list.
fn context_of_two(alloc: Global) -> Result<X509Context, Fail> {
    let crls = one_crl(alloc)?;
    let set = Arc::new(alloc, X509BundleSet::new(alloc))?;
    let svids = two_svids(alloc)?;
    Ok(X509Context::new(svids, set, crls))
}

/// The ID of the default SVID.
fn default_id(context: &X509Context) -> Option<&str> {
    match context.default_svid() {
        Some(svid) => Some(svid.spiffe_id().as_str()),
        None => None,
    }
}

/// Whether the context is of the URI, with one revocation list and no bundle.
fn is_of_two(context: &X509Context) -> bool {
    default_id(context) == Some(URI) && context.crls().len() == 1 && context.bundle_set().is_empty()
}

#[test]
fn context(rt: HostRuntime) -> Result<(), Fail> {
    let context = context_of_two(rt.alloc())?;
    let ordered = are_indices(sorted_svids(rt.alloc(), &context), &[1, 0]);
    let of_two = is_of_two(&context);
    let copied = is_same(context.try_clone(rt.alloc()), &context);
    drop(context);
    assert!(rt; ordered);
    assert!(rt; of_two);
    assert!(rt; copied);
    Ok(())
}
