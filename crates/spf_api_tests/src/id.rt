//! Trust domains and SPIFFE IDs.

use crate::shown::{has_text, is_same};
use spf_id::{SpiffeId, SpiffeIdError, TrustDomain, uri_has_spiffe_scheme};
use std::alloc::Global;
use std::test::Fail;

/// A value of this type may be sent and shared.
fn shared<T: Send + Sync>(_value: &T) {}

/// Whether a text is refused as an ID with that error.
fn is_refused(alloc: Global, text: &str, error: SpiffeIdError) -> bool {
    SpiffeId::new(alloc, text).err() == Some(error)
}

/// Texts that are not IDs, and the first rule that each breaks.
const BROKEN_IDS: &[(&str, SpiffeIdError)] = &[
    ("", SpiffeIdError::Empty),
    ("spiffe://example.org/", SpiffeIdError::TrailingSlash),
    ("spiffe://example.org//a", SpiffeIdError::EmptySegment),
    ("spiffe://example.org/..", SpiffeIdError::DotSegment),
    ("spiffe://example.org/a b", SpiffeIdError::BadPathChar),
    ("SPIFFE://example.org/w", SpiffeIdError::WrongScheme),
    ("spiffe:///w", SpiffeIdError::MissingTrustDomain),
];

#[test]
fn broken_ids(rt: HostRuntime) {
    for &(text, error) in BROKEN_IDS {
        assert!(rt; is_refused(rt.alloc(), text, error), "{text}");
    }
}

/// `start` and then as many octets `x` as make `length`.
fn filled(alloc: Global, start: &str, length: usize) -> Result<String, Fail> {
    let mut text = String::from_str(alloc, start)?;
    for _ in start.len()..length {
        text.push('x')?;
    }
    Ok(text)
}

/// How an ID of that length is refused; none where it is taken.
fn id_refusal(alloc: Global, length: usize) -> Result<Option<SpiffeIdError>, Fail> {
    let text = filled(alloc, "spiffe://example.org/", length)?;
    Ok(SpiffeId::new(alloc, text.as_str()).err())
}

/// The longest ID is taken, and one more octet is refused.
#[test]
fn id_lengths(rt: HostRuntime) -> Result<(), Fail> {
    assert!(rt; id_refusal(rt.alloc(), 2048)?.is_none());
    assert!(rt; id_refusal(rt.alloc(), 2049)? == Some(SpiffeIdError::TooLong));
    Ok(())
}

/// How a trust domain of that length is refused; none where it is taken.
fn domain_refusal(alloc: Global, length: usize) -> Result<Option<SpiffeIdError>, Fail> {
    let text = filled(alloc, "", length)?;
    Ok(TrustDomain::new(alloc, text.as_str()).err())
}

/// The longest trust domain is taken, and one more octet is refused.
#[test]
fn trust_domain_lengths(rt: HostRuntime) -> Result<(), Fail> {
    assert!(rt; domain_refusal(rt.alloc(), 255)?.is_none());
    assert!(rt; domain_refusal(rt.alloc(), 256)? == Some(SpiffeIdError::TrustDomainTooLong));
    Ok(())
}

/// Whether the text makes the same trust domain where it is owned.
fn is_owned_as(alloc: Global, text: &str, domain: &TrustDomain) -> Result<bool, Fail> {
    let text = String::from_str(alloc, text)?;
    Ok(is_same(TrustDomain::try_from_owned(alloc, text), domain))
}

/// Whether the trust domain has that name and text, and equals its copy.
fn is_domain(alloc: Global, domain: &TrustDomain, name: &str) -> bool {
    domain.as_str() == name
        && has_text(alloc, domain, name)
        && is_same(domain.try_clone(alloc), domain)
}

#[test]
fn trust_domain(rt: HostRuntime) -> Result<(), Fail> {
    let other = TrustDomain::new(rt.alloc(), "spiffe://other.org")?;
    let same = is_domain(rt.alloc(), &other, "other.org");
    let owned = is_owned_as(rt.alloc(), "other.org", &other);
    drop(other);
    assert!(rt; same);
    assert!(rt; owned?);
    Ok(())
}

#[test]
fn broken_trust_domains(rt: HostRuntime) {
    let alloc = rt.alloc();
    let upper = TrustDomain::try_from(alloc, "Example.org").err();
    assert!(rt; upper == Some(SpiffeIdError::BadTrustDomainChar));
    let empty = TrustDomain::from_str(alloc, "").err();
    assert!(rt; empty == Some(SpiffeIdError::Empty));
    let colon = TrustDomain::new(alloc, "a:/b").err();
    assert!(rt; colon == Some(SpiffeIdError::WrongScheme));
}

fn has_parts(id: &SpiffeId, text: &str, trust_domain: &str, path: &str) -> bool {
    id.as_str() == text && id.trust_domain().as_str() == trust_domain && id.path() == path
}

/// Whether a copy, and what its text is read as, equal the ID.
fn equals_its_copies(alloc: Global, id: &SpiffeId) -> bool {
    is_same(id.try_clone(alloc), id) && is_same(SpiffeId::from_str(alloc, id.as_str()), id)
}

#[test]
fn spiffe_id(rt: HostRuntime) -> Result<(), Fail> {
    let id = SpiffeId::new(rt.alloc(), "spiffe://example.org/w")?;
    let parted = has_parts(&id, "spiffe://example.org/w", "example.org", "/w");
    let copied = equals_its_copies(rt.alloc(), &id);
    shared(&id);
    drop(id);
    shared(&SpiffeIdError::Empty);
    assert!(rt; parted);
    assert!(rt; copied);
    Ok(())
}

/// Whether the ID is greater than that of the text.
fn is_above(alloc: Global, id: &SpiffeId, less: &str) -> bool {
    match SpiffeId::try_from(alloc, less) {
        Ok(less) => *id > less,
        Err(_) => false,
    }
}

/// Whether the one text is of the greater ID.
fn is_greater(alloc: Global, greater: &str, less: &str) -> Result<bool, Fail> {
    let greater = SpiffeId::new(alloc, greater)?;
    Ok(is_above(alloc, &greater, less))
}

#[test]
fn ids_are_ordered(rt: HostRuntime) -> Result<(), Fail> {
    assert!(rt; is_greater(rt.alloc(), "spiffe://example.org/w", "spiffe://example.org")?);
    Ok(())
}

#[test]
fn spiffe_scheme(rt: HostRuntime) {
    assert!(rt; uri_has_spiffe_scheme("SpIfFe:x"));
    assert!(rt; !uri_has_spiffe_scheme("https://a"));
    assert!(rt; !uri_has_spiffe_scheme("spiffe"));
}

const ERROR_TEXTS: &[(SpiffeIdError, &str)] = &[
    (SpiffeIdError::Empty, "Empty"),
    (SpiffeIdError::TooLong, "TooLong"),
    (SpiffeIdError::WrongScheme, "WrongScheme"),
    (SpiffeIdError::MissingTrustDomain, "MissingTrustDomain"),
    (SpiffeIdError::TrustDomainTooLong, "TrustDomainTooLong"),
    (SpiffeIdError::BadTrustDomainChar, "BadTrustDomainChar"),
    (SpiffeIdError::EmptySegment, "EmptySegment"),
    (SpiffeIdError::DotSegment, "DotSegment"),
    (SpiffeIdError::BadPathChar, "BadPathChar"),
    (SpiffeIdError::TrailingSlash, "TrailingSlash"),
    (SpiffeIdError::OutOfMemory, "out of memory"),
];

/// The text of each error.
#[test]
fn error_texts(rt: HostRuntime) {
    for &(error, text) in ERROR_TEXTS {
        assert!(rt; has_text(rt.alloc(), &error, text), "{text}");
    }
}
