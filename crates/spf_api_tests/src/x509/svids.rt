//! Certificates, keys and SVIDs.

use super::URI;
use crate::shown::{has_debug_text, is_answered, is_same};
use crate::written::{LEAF, edited, written};
use spf_der::write_key;
use spf_fixtures::octets;
use spf_id::SpiffeId;
use spf_io::{OutOfMemory, Text};
use spf_x509::{
    Certificate, CertificateError, PrivateKey, X509Svid, cmp_svid_for_update, spiffe_id_from_der,
};
use std::alloc::Global;
use std::cmp::Ordering;
use std::test::Fail;

/// Whether that is the ID that is returned, or the text of the error for debugging.
fn is_id(alloc: Global, found: Result<SpiffeId, CertificateError>, text: &str) -> bool {
    match found {
        Ok(id) => {
            let same = id.as_str() == text;
            drop(id);
            same
        }
        Err(error) => {
            let same = has_debug_text(alloc, &error, text);
            drop(error);
            same
        }
    }
}

/// Whether that is the ID of a certificate that is given by name, or the error of looking for it.
fn has_id(alloc: Global, name: &str, text: &str) -> Result<bool, Fail> {
    let der = octets(alloc, name)?;
    Ok(is_id(alloc, spiffe_id_from_der(alloc, der.as_slice()), text))
}

/// Whether octets that are given by name are refused as a certificate with that error.
fn is_no_certificate(alloc: Global, text: &str, error: &str) -> Result<bool, Fail> {
    let der = octets(alloc, text)?;
    Ok(is_answered(alloc, Certificate::try_from(alloc, der.as_slice()), error))
}

#[test]
fn certificate(rt: HostRuntime) -> Result<(), Fail> {
    let alloc = rt.alloc();
    assert!(rt; has_id(alloc, "LEAF1", URI)?);
    let missing = "MissingX509Extension(SubjectAlternativeName)";
    assert!(rt; has_id(alloc, "ROOT1", missing)?);
    let invalid = "ParseX509Certificate(X509ParseError { kind: InvalidCertificate })";
    assert!(rt; is_no_certificate(alloc, "LEAF1 00", invalid)?);
    Ok(())
}

/// Whether the certificate is of the URI and those octets, and equals its copies.
fn equals_its_copies(alloc: Global, leaf: &Certificate, der: Vec<u8>) -> bool {
    let kept = leaf.as_bytes() == der.as_slice();
    let owned = is_same(Certificate::try_from_owned(alloc, der), leaf);
    kept && owned
        && is_same(leaf.try_clone(alloc), leaf)
        && is_id(alloc, leaf.spiffe_id(alloc), URI)
}

#[test]
fn certificates_equal_their_copies(rt: HostRuntime) -> Result<(), Fail> {
    let der = octets(rt.alloc(), "LEAF1")?;
    let leaf = Certificate::try_from(rt.alloc(), der.as_slice())?;
    let equal = equals_its_copies(rt.alloc(), &leaf, der);
    drop(leaf);
    assert!(rt; equal);
    Ok(())
}

/// Whether the key is shown by its length, and equals its copy and what those octets make.
fn is_key(alloc: Global, key: &PrivateKey, der: Vec<u8>) -> bool {
    is_same(PrivateKey::try_from_owned(alloc, der), key)
        && is_same(key.try_clone(alloc), key)
        && has_debug_text(alloc, key, "PrivateKey { len: 15 }")
}

/// Whether the octets are refused as a key.
fn is_no_key(alloc: Global, der: &[u8]) -> bool {
    let refusal = "DecodePkcs8(Pkcs8DecodeError)";
    is_answered(alloc, PrivateKey::try_from(alloc, der), refusal)
}

#[test]
fn private_key(rt: HostRuntime) -> Result<(), Fail> {
    assert!(rt; is_no_key(rt.alloc(), b""));
    let der = write_key(rt.alloc(), 1)?;
    let key = PrivateKey::try_from(rt.alloc(), der.as_slice())?;
    let same = is_key(rt.alloc(), &key, der);
    drop(key);
    assert!(rt; same);
    Ok(())
}

/// Whether that is the error of looking for the ID of a leaf with these URI names.
fn is_name_refused(alloc: Global, names: &[&str], error: &str) -> bool {
    match written(alloc, LEAF, 1000, names) {
        Ok(der) => is_id(alloc, spiffe_id_from_der(alloc, der.as_slice()), error),
        Err(OutOfMemory) => false,
    }
}

/// URI names of a leaf, and the error of looking for its ID.
const NAMES: &[(&[&str], &str)] = &[
    (&["https://a", "https://a"], "MultipleUriSanEntries"),
    (&["https://a"], "MissingSpiffeId"),
    (&["SPIFFE://example.org/w"], "InvalidSpiffeId(WrongScheme)"),
];

/// Whether a first name of 2049 octets is refused for its length.
fn is_long_name_refused(alloc: Global) -> Result<bool, Fail> {
    let long = String::from_utf8(vec![in alloc; b'a'; 2049]?)?;
    let oversized = "OversizedUriSan { max: 2048 }";
    Ok(is_name_refused(alloc, &[long.as_str(), "https://a"], oversized))
}

#[test]
fn san_rule(rt: HostRuntime) -> Result<(), Fail> {
    for &(names, error) in NAMES {
        assert!(rt; is_name_refused(rt.alloc(), names, error), "{error}");
    }
    assert!(rt; is_long_name_refused(rt.alloc())?);
    Ok(())
}

/// Whether the chain with that key is refused with that error, or `accepted`.
fn answers(alloc: Global, chain: &[u8], key: &str, answer: &str) -> Result<bool, Fail> {
    let key = octets(alloc, key)?;
    let svid = X509Svid::parse_from_der(alloc, chain, key.as_slice());
    Ok(is_answered(alloc, svid, answer))
}

/// The same of a chain that is given by name.
fn names_answer(alloc: Global, chain: &str, key: &str, answer: &str) -> Result<bool, Fail> {
    let chain = octets(alloc, chain)?;
    answers(alloc, chain.as_slice(), key, answer)
}

/// Chains and keys, and how they are refused.
const CHAINS: &[(&str, &str, &str)] = &[
    ("", "KEY1", "EmptyChain"),
    ("LEAF1", "00", "PrivateKey(DecodePkcs8(Pkcs8DecodeError))"),
    ("INTER1", "KEY1", "LeafCertificateMissingDigitalSignature"),
    (
        "LEAF1 ROOT1",
        "KEY1",
        "Certificate(MissingX509Extension(BasicConstraints))",
    ),
    // The row chain-limit.
    (
        "LEAF1 INTER1 00",
        "KEY1",
        "Certificate(ParseX509Certificate(X509ParseError { kind: InvalidCertificate }))",
    ),
    (
        "LEAF1 INTER1 INTER1 INTER1 INTER1 INTER1 INTER1 INTER1 INTER1 INTER1 INTER1 INTER1 INTER1 \
         INTER1 INTER1 INTER1",
        "KEY1",
        "accepted",
    ),
    (
        "LEAF1 INTER1 INTER1 INTER1 INTER1 INTER1 INTER1 INTER1 INTER1 INTER1 INTER1 INTER1 INTER1 \
         INTER1 INTER1 INTER1 00",
        "KEY1",
        "Certificate(TooManyCertificates { max: 16 })",
    ),
];

#[test]
fn chains(rt: HostRuntime) -> Result<(), Fail> {
    for &(chain, key, answer) in CHAINS {
        assert!(rt; names_answer(rt.alloc(), chain, key, answer)?, "{chain}");
    }
    Ok(())
}

/// An SVID of those octets with that hint.
fn parsed(alloc: Global, chain: &[u8], key: &[u8], hint: Option<&str>) -> Result<X509Svid, Fail> {
    let hint = match hint {
        Some(hint) => Some(Text::copy_of(alloc, hint)?),
        None => None,
    };
    Ok(X509Svid::parse_from_der_with_hint(alloc, chain, key, hint)?)
}

/// An SVID of LEAF1 and INTER1 with KEY1.
fn svid_with(alloc: Global, hint: Option<&str>) -> Result<X509Svid, Fail> {
    let chain = octets(alloc, "LEAF1 INTER1")?;
    let key = octets(alloc, "KEY1")?;
    parsed(alloc, chain.as_slice(), key.as_slice(), hint)
}

/// The same with the hint `internal`.
fn hinted(alloc: Global) -> Result<X509Svid, Fail> {
    svid_with(alloc, Some("internal"))
}

/// Whether the SVID is of the URI, with the hint `internal`, the expiry 1000 and two certificates.
fn is_hinted(svid: &X509Svid) -> bool {
    svid.spiffe_id().as_str() == URI
        && svid.hint() == Some("internal")
        && svid.expiry_unix() == 1000
        && svid.cert_chain().len() == 2
}

/// Whether these are the octets that the text spells.
fn are_octets(alloc: Global, found: &[u8], text: &str) -> Result<bool, Fail> {
    let wanted = octets(alloc, text)?;
    Ok(found == wanted.as_slice())
}

/// Whether the SVID is of that leaf and that key.
fn is_of(alloc: Global, svid: &X509Svid, leaf: &str, key: &str) -> Result<bool, Fail> {
    let same = are_octets(alloc, svid.leaf().as_bytes(), leaf)?;
    Ok(same && are_octets(alloc, svid.private_key().as_bytes(), key)?)
}

#[test]
fn svid(rt: HostRuntime) -> Result<(), Fail> {
    let svid = hinted(rt.alloc())?;
    let hinted = is_hinted(&svid);
    let same = is_of(rt.alloc(), &svid, "LEAF1", "KEY1");
    drop(svid);
    assert!(rt; hinted);
    assert!(rt; same?);
    Ok(())
}

/// Whether the SVID is parsed from that chain, that key and that hint.
fn is_from(
    alloc: Global,
    svid: &X509Svid,
    chain: &str,
    key: &str,
    hint: Option<&str>,
) -> Result<bool, Fail> {
    let chain = octets(alloc, chain)?;
    let key = octets(alloc, key)?;
    Ok(svid.is_parsed_from(chain.as_slice(), key.as_slice(), hint))
}

/// The same of the hinted SVID.
fn is_parsed_from(alloc: Global, chain: &str, key: &str, hint: Option<&str>) -> Result<bool, Fail> {
    let svid = hinted(alloc)?;
    let parsed = is_from(alloc, &svid, chain, key, hint);
    drop(svid);
    parsed
}

/// A chain, a key and a hint, and whether the hinted SVID is parsed from them.
const SOURCES: &[(&str, &str, Option<&str>, bool)] = &[
    ("LEAF1 INTER1", "KEY1", Some("internal"), true),
    ("LEAF1 INTER1", "KEY1", Some("external"), false),
    ("LEAF1 INTER1", "KEY1", None, false),
    ("LEAF1 INTER1", "KEY2", Some("internal"), false),
    ("LEAF1", "KEY1", Some("internal"), false),
    ("", "KEY1", Some("internal"), false),
    ("LEAF1 INTER1 00", "KEY1", Some("internal"), false),
];

/// An SVID is parsed from its own chain, key and hint, and from nothing else.
#[test]
fn svid_is_parsed_from(rt: HostRuntime) -> Result<(), Fail> {
    for &(chain, key, hint, wanted) in SOURCES {
        assert!(rt;
            is_parsed_from(rt.alloc(), chain, key, hint)? == wanted,
            "{chain} {key}"
        );
    }
    Ok(())
}

/// Whether the SVID without a hint equals its copy, and comes before that one.
fn plain_is_less(alloc: Global, other: &X509Svid) -> Result<bool, Fail> {
    let plain = svid_with(alloc, None)?;
    let copied = is_same(plain.try_clone(alloc), &plain);
    let less = cmp_svid_for_update(&plain, other) == Ordering::Less;
    drop(plain);
    Ok(copied && less)
}

#[test]
fn svids_are_ordered(rt: HostRuntime) -> Result<(), Fail> {
    let hinted = hinted(rt.alloc())?;
    let less = plain_is_less(rt.alloc(), &hinted);
    drop(hinted);
    assert!(rt; less?);
    Ok(())
}

const DUPLICATE: &str =
    "Certificate(ParseX509Certificate(X509ParseError { kind: DuplicateExtensions }))";

const KEY_USAGE: &str = "UnparseableExtension { extension: Text { string: \"KeyUsage\" } }";

const CONSTRAINTS: &str =
    "UnparseableExtension { extension: Text { string: \"BasicConstraints\" } }";

const ALT_NAMES: &str =
    "Certificate(UnexpectedExtension(Text { string: \"SubjectAlternativeName\" }))";

/// Pieces of LEAF1, another for each, and how the chain is then refused.
const LEAVES: &[(&str, &str, &str)] = &[
    ("551d13", "551d0f", DUPLICATE),
    ("551d11", "551d13", DUPLICATE),
    (
        "551d0f",
        "551d0e",
        "Certificate(MissingX509Extension(KeyUsage))",
    ),
    ("03020780", "03020880", KEY_USAGE),
    (
        "03020780",
        "03020704",
        "LeafCertificateMissingDigitalSignature",
    ),
    ("03020780", "03020784", "LeafCertificateHasKeyCertSign"),
    ("03020780", "03020786", "LeafCertificateHasCrlSign"),
    ("04023000", "04020500", CONSTRAINTS),
    ("861673", "821673", "Certificate(MissingSpiffeId)"),
    ("861673", "a61673", ALT_NAMES),
    ("2f77", "2ff7", ALT_NAMES),
    ("2f77", "2f2e", "Certificate(InvalidSpiffeId(DotSegment))"),
    (
        "8616737069666665",
        "8616535049464645",
        "Certificate(InvalidSpiffeId(WrongScheme))",
    ),
];

/// Whether LEAF1 with one piece replaced by another, and KEY1, are refused with that error.
fn is_leaf_refused(alloc: Global, old: &str, new: &str, error: &str) -> Result<bool, Fail> {
    let chain = edited(alloc, "LEAF1", old, new)?;
    answers(alloc, chain.as_slice(), "KEY1", error)
}

#[test]
fn hostile_leaves(rt: HostRuntime) -> Result<(), Fail> {
    for &(old, new, error) in LEAVES {
        assert!(rt; is_leaf_refused(rt.alloc(), old, new, error)?, "{new}");
    }
    Ok(())
}
