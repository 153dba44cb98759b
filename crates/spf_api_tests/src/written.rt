//! Certificates that are written for tests, and certificates of the fixtures that are edited.

use spf_der::{CertSpec, KeyUsageBits, write_certificate};
use spf_fixtures::{octets, written_out};
use spf_io::{List, OutOfMemory, Text};
use std::alloc::Global;
use std::test::Fail;

/// The key usage of a leaf.
pub const SIGNS: KeyUsageBits = KeyUsageBits {
    digital_signature: true,
    key_cert_sign: false,
    crl_sign: false,
};

/// The key usage of an intermediate.
pub const ISSUES: KeyUsageBits = KeyUsageBits {
    digital_signature: false,
    key_cert_sign: true,
    crl_sign: false,
};

/// What a certificate is written of, but for its expiry and its URI names.
#[derive(Clone, Copy)]
pub struct Kind {
    pub serial: u8,
    pub key_usage: Option<KeyUsageBits>,
    pub ca: Option<bool>,
}

/// A leaf like LEAF1.
pub const LEAF: Kind = Kind {
    serial: 1,
    key_usage: Some(SIGNS),
    ca: Some(false),
};

/// An intermediate like INTER1.
pub const INTER: Kind = Kind {
    serial: 3,
    key_usage: Some(ISSUES),
    ca: Some(true),
};

/// An authority like ROOT1.
pub const ROOT: Kind = Kind {
    serial: 1,
    key_usage: None,
    ca: None,
};

fn texts(alloc: Global, names: &[&str]) -> Result<Vec<Text>, OutOfMemory> {
    let mut texts = Vec::new(alloc);
    for name in names {
        texts.push(Text::copy_of(alloc, name)?)?;
    }
    Ok(texts)
}

/// Returns the certificate of that kind with that expiry and those URI names.
pub fn written(
    alloc: Global,
    kind: Kind,
    expiry: i64,
    names: &[&str],
) -> Result<Vec<u8>, OutOfMemory> {
    let spec = CertSpec {
        serial: kind.serial,
        expiry,
        key_usage: kind.key_usage,
        ca: kind.ca,
        uris: List::new(texts(alloc, names)?),
    };
    write_certificate(alloc, &spec)
}

/// Returns the octets that the text spells, with one piece replaced by another, both in
/// hexadecimal.
pub fn edited(alloc: Global, text: &str, old: &str, new: &str) -> Result<Vec<u8>, Fail> {
    let digits = written_out(alloc, text)?.replace(alloc, old, new)?;
    octets(alloc, digits.as_str())
}
