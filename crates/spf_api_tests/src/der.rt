//! DER: certificates, extensions and keys, as they are read and written.

use crate::shown::{has_text, is_same};
use crate::written::{INTER, Kind, LEAF, ROOT, SIGNS, edited, written};
use spf_der::{
    BASIC_CONSTRAINTS, CertParts, CertReadError, CertView, KEY_USAGE, KeyUsageBits,
    Pkcs8DecodeError, SUBJECT_ALT_NAME, X509ParseError, X509ParseKind, extension_unique,
    read_basic_constraints, read_certificate, read_certificate_view, read_key, read_key_usage,
    read_san_uri_views, read_san_uris, write_key,
};
use spf_fixtures::octets;
use spf_io::Text;
use std::alloc::Global;
use std::test::Fail;

const URI: &str = "spiffe://example.org/w";

/// The expiry of the certificate that the octets begin with, how many extensions
/// it has, and how many octets; none where they begin with no certificate.
fn read(alloc: Global, der: &[u8]) -> Option<(i64, usize, usize)> {
    match read_certificate(alloc, der) {
        Ok((parts, length)) => Some((parts.expiry(), parts.extensions().len(), length)),
        Err(_) => None,
    }
}

/// The same of octets that are given by name.
fn read_of(alloc: Global, text: &str) -> Result<Option<(i64, usize, usize)>, Fail> {
    let der = octets(alloc, text)?;
    Ok(read(alloc, der.as_slice()))
}

/// The index of the one extension with that identifier in the
/// certificate that the octets begin with, where there is one.
fn index_of(alloc: Global, der: &[u8], oid: &[u8]) -> Result<Option<usize>, CertReadError> {
    let (parts, _) = read_certificate(alloc, der)?;
    Ok(extension_unique(&parts, oid)?)
}

/// The same of octets that are given by name.
fn is_index(alloc: Global, text: &str, oid: &[u8], index: Option<usize>) -> Result<bool, Fail> {
    let der = octets(alloc, text)?;
    Ok(index_of(alloc, der.as_slice(), oid) == Ok(index))
}

/// A certificate with four extensions, each of an identifier of its own.
const FOUR: &str =
    "306f3063a003020102020101300506032b65703000301e170d3730303130313030303030305a170d3730303130\
     313030313634305a3000300a300506032b6570030100a322302030060601000401003006060101040100300606\
     01020401003006060103040100300506032b6570030100";

/// A certificate with nine of them.
const NINE: &str =
    "30819830818ba003020102020101300506032b65703000301e170d3730303130313030303030305a170d373030\
     3130313030313634305a3000300a300506032b6570030100a34a30483006060100040100300606010104010030\
     060601020401003006060103040100300606010404010030060601050401003006060106040100300606010704\
     01003006060108040100300506032b6570030100";

/// Octets, and what is read of the certificate that they begin with.
const READ: &[(&str, (i64, usize, usize))] = &[
    ("LEAF1 ROOT1", (1000, 3, 141)),
    (FOUR, (1000, 4, 113)),
    (NINE, (1000, 9, 155)),
];

/// A certificate, an identifier, and the index of the one extension with it.
const INDICES: &[(&str, &[u8], Option<usize>)] = &[
    ("LEAF1", &KEY_USAGE, Some(0)),
    ("LEAF1", &BASIC_CONSTRAINTS, Some(1)),
    ("LEAF1", &SUBJECT_ALT_NAME, Some(2)),
    ("LEAF1", &[1], None),
    (FOUR, &[3], Some(3)),
    (NINE, &[3], Some(3)),
];

#[test]
fn certificate_parts(rt: HostRuntime) -> Result<(), Fail> {
    for &(text, wanted) in READ {
        assert!(rt; read_of(rt.alloc(), text)? == Some(wanted), "{text}");
    }
    Ok(())
}

#[test]
fn extension_indices(rt: HostRuntime) -> Result<(), Fail> {
    for &(text, oid, index) in INDICES {
        assert!(rt; is_index(rt.alloc(), text, oid, index)?, "{text} {oid:?}");
    }
    Ok(())
}

/// Whether there are that many URIs, and that is the last.
fn are_uris(uris: &[Text], count: usize, last: &str) -> bool {
    match uris.last() {
        Some(uri) => uris.len() == count && uri.as_str() == last,
        None => false,
    }
}

/// The same of the contents of a subject alternative name.
fn has_uris(alloc: Global, contents: &[u8], count: usize, last: &str) -> bool {
    match read_san_uris(alloc, contents) {
        Ok(Some(uris)) => are_uris(uris.as_slice(), count, last),
        _ => false,
    }
}

/// The contents of the third extension.
fn third_contents(parts: &CertParts) -> &[u8] {
    match parts.extensions().get(2) {
        Some(part) => part.contents.as_slice(),
        None => &[],
    }
}

/// Whether the third extension of the certificate names the URI of LEAF1 alone.
fn names_uri(alloc: Global, der: &[u8]) -> bool {
    match read_certificate(alloc, der) {
        Ok((parts, _)) => has_uris(alloc, third_contents(&parts), 1, URI),
        Err(_) => false,
    }
}

#[test]
fn certificate_uris(rt: HostRuntime) -> Result<(), Fail> {
    let alloc = rt.alloc();
    let leaf = octets(alloc, "LEAF1")?;
    assert!(rt; names_uri(alloc, leaf.as_slice()));
    assert!(rt; has_uris(alloc, b"\x30\x06\x86\x01a\x86\x01b", 2, "b"));
    Ok(())
}

/// Certificates, each with what it is written of.
const WRITTEN: &[(&str, Kind, &[&str])] = &[
    ("LEAF1", LEAF, &[URI]),
    ("ROOT1", ROOT, &[]),
    ("INTER1", INTER, &[]),
];

/// Whether the certificate is written of that kind and those names.
fn is_written(alloc: Global, text: &str, kind: Kind, names: &[&str]) -> Result<bool, Fail> {
    let wanted = octets(alloc, text)?;
    Ok(is_same(written(alloc, kind, 1000, names), &wanted))
}

/// Whether the first key is written as KEY1.
fn key_is_written(alloc: Global) -> Result<bool, Fail> {
    let wanted = octets(alloc, "KEY1")?;
    Ok(is_same(write_key(alloc, 1), &wanted))
}

#[test]
fn certificate_writer(rt: HostRuntime) -> Result<(), Fail> {
    for &(text, kind, names) in WRITTEN {
        assert!(rt; is_written(rt.alloc(), text, kind, names)?, "{text}");
    }
    assert!(rt; key_is_written(rt.alloc())?);
    Ok(())
}

/// Expiries, and the lengths of authorities that are written with them.
const TIMES: &[(i64, usize)] = &[
    (0, 72),
    (2_524_607_999, 72),
    (2_524_608_000, 74),
    (253_402_300_799, 74),
];

/// What is read of an authority that is written with that expiry.
fn read_back(alloc: Global, expiry: i64) -> Option<(i64, usize, usize)> {
    match written(alloc, ROOT, expiry, &[]) {
        Ok(der) => read(alloc, der.as_slice()),
        Err(_) => None,
    }
}

#[test]
fn written_times(rt: HostRuntime) {
    for &(expiry, length) in TIMES {
        assert!(rt;
            read_back(rt.alloc(), expiry) == Some((expiry, 0, length)),
            "{expiry}"
        );
    }
}

/// The contents of the one extension with that identifier, where there is one.
fn contents<'a>(view: &CertView<'a>, oid: &[u8]) -> Option<&'a [u8]> {
    match view.extension_unique(oid) {
        Ok(contents) => contents,
        Err(_) => None,
    }
}

fn usage_of(view: &CertView<'_>) -> Option<KeyUsageBits> {
    read_key_usage(contents(view, &KEY_USAGE)?)
}

fn ca_of(view: &CertView<'_>) -> Option<bool> {
    read_basic_constraints(contents(view, &BASIC_CONSTRAINTS)?)
}

/// The URI of a certificate that names one alone.
fn only_uri<'a>(view: &CertView<'a>) -> Option<&'a str> {
    let mut uris = read_san_uri_views(contents(view, &SUBJECT_ALT_NAME)?)?;
    let first = uris.next_uri();
    match uris.next_uri() {
        None => first,
        Some(_) => None,
    }
}

/// Whether the view shows what LEAF1 says.
fn is_leaf(view: &CertView<'_>) -> bool {
    view.expiry() == 1000
        && usage_of(view) == Some(SIGNS)
        && ca_of(view) == Some(false)
        && only_uri(view) == Some(URI)
}

/// Whether the octets are viewed whole as LEAF1.
fn is_leaf_viewed(alloc: Global, der: &[u8]) -> bool {
    match read_certificate_view(alloc, der) {
        Ok((view, length)) => length == der.len() && is_leaf(&view),
        Err(_) => false,
    }
}

/// Whether the octets begin with no certificate to read.
fn is_refused(alloc: Global, der: &[u8]) -> bool {
    match read_certificate(alloc, der) {
        Err(CertReadError::Parse(_)) => true,
        _ => false,
    }
}

/// Whether they begin with no certificate to view.
fn is_view_refused(alloc: Global, der: &[u8]) -> bool {
    match read_certificate_view(alloc, der) {
        Err(CertReadError::Parse(_)) => true,
        _ => false,
    }
}

/// Whether they begin with no certificate to read and none to view.
fn is_refused_twice(alloc: Global, der: &[u8]) -> bool {
    is_view_refused(alloc, der) && is_refused(alloc, der)
}

#[test]
fn views(rt: HostRuntime) -> Result<(), Fail> {
    let alloc = rt.alloc();
    let mut leaf = octets(alloc, "LEAF1")?;
    assert!(rt; is_leaf_viewed(alloc, leaf.as_slice()));
    for length in 1..=141usize {
        leaf.truncate(141 - length);
        assert!(rt; is_refused_twice(alloc, leaf.as_slice()), "{length} fewer");
    }
    let empty = leaf.is_empty();
    drop(leaf);
    assert!(rt; empty);
    Ok(())
}

/// Pieces of ROOT1, each with another piece that makes it something other than a certificate.
const BROKEN: &[(&str, &str)] = &[
    ("3046", "308146"),
    ("3046", "3080"),
    ("3046", "3084ffffffff"),
    ("3046", "30840000000100"),
    ("3046303a020101", "304530390200"),
    ("3730303130313030313634305a", "3730303233303030313634305a"),
    ("3730303130313030313634305a", "3730303130313030313636305a"),
];

/// Whether ROOT1 with one piece replaced by another is not a certificate.
fn is_broken(alloc: Global, old: &str, new: &str) -> Result<bool, Fail> {
    let der = edited(alloc, "ROOT1", old, new)?;
    Ok(is_refused(alloc, der.as_slice()))
}

/// Whether ROOT1 with a serial of two octets is read.
fn is_long_serial_read(alloc: Global) -> Result<bool, Fail> {
    let der = edited(alloc, "ROOT1", "3046303a020101", "3047303b02020001")?;
    Ok(read(alloc, der.as_slice()) == Some((1000, 0, 73)))
}

#[test]
fn hostile_certificates(rt: HostRuntime) -> Result<(), Fail> {
    for &(old, new) in BROKEN {
        assert!(rt; is_broken(rt.alloc(), old, new)?, "{new}");
    }
    assert!(rt; is_long_serial_read(rt.alloc())?);
    Ok(())
}

/// ROOT1 whose issuer has 100,000 contents octets 30, lengths adjusted.
fn long_issuer(alloc: Global) -> Result<Vec<u8>, Fail> {
    let mut der = octets(alloc, "30830186ec30830186dd020101300506032b657030830186a0")?;
    let issuer = vec![in alloc; 0x30; 100_000]?;
    der.extend_from_slice(issuer.as_slice())?;
    let after_issuer =
        "301e170d3730303130313030303030305a170d3730303130313030313634305a3000300a300506032b65700301\
         00300506032b6570030100";
    der.extend_from_slice(octets(alloc, after_issuer)?.as_slice())?;
    Ok(der)
}

#[test]
fn hostile_long_issuer(rt: HostRuntime) -> Result<(), Fail> {
    let der = long_issuer(rt.alloc())?;
    assert!(rt; read(rt.alloc(), der.as_slice()) == Some((1000, 0, der.len())));
    Ok(())
}

/// Octets, and whether they are a key.
const KEYS: &[(&str, bool)] = &[
    ("KEY1", true),
    ("300d020100300506032b6570040101", true),
    ("300d020101300506032b6570040101", false),
    ("300d020102300506032b6570040101", false),
    ("300d020100300506032b657004010100", false),
    ("3011020101300506032b657004010181020041", true),
    ("3011020100300506032b657004010181020041", false),
];

fn is_key(alloc: Global, text: &str) -> Result<bool, Fail> {
    let der = octets(alloc, text)?;
    Ok(read_key(der.as_slice()).is_ok())
}

#[test]
fn hostile_keys(rt: HostRuntime) -> Result<(), Fail> {
    for &(text, wanted) in KEYS {
        assert!(rt; is_key(rt.alloc(), text)? == wanted, "{text}");
    }
    Ok(())
}

#[test]
fn error_texts(rt: HostRuntime) {
    let alloc = rt.alloc();
    let invalid = CertReadError::Parse(X509ParseError::new(X509ParseKind::InvalidCertificate));
    let duplicate = X509ParseError::new(X509ParseKind::DuplicateExtensions);
    assert!(rt; has_text(alloc, &invalid, "InvalidCertificate"));
    assert!(rt; has_text(alloc, &CertReadError::OutOfMemory, "out of memory"));
    assert!(rt; has_text(alloc, &duplicate, "DuplicateExtensions"));
    assert!(rt;
        has_text(
            alloc,
            &CertReadError::Parse(duplicate),
            "DuplicateExtensions"
        )
    );
    assert!(rt; has_text(alloc, &Pkcs8DecodeError, "invalid PKCS#8"));
}
