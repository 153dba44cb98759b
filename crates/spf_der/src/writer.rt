//! Certificates and keys of fixed parts, as generated sessions and tests need them.
ghost use Rattle.std.specs.Prelude.{◌≡◌, ◌+◌, ◌/◌, ◌%◌, ◌++◌, flat_map, unsigned_abs, IfOk, OnOk};
ghost use Rattle.spf_der.specs.Value.{length_octets, value_text};
ghost use Rattle.spf_der.specs.Written.{IsCertificateOf, algorithm_text, constraints_part};
ghost use Rattle.spf_der.specs.Written.{constraints_text, extension_text, extensions_part};
ghost use Rattle.spf_der.specs.Written.{extensions_text, key_text, names_part, names_text, no_bits};
ghost use Rattle.spf_der.specs.Written.{no_name, public_key_text, usage_octet, usage_part};
ghost use Rattle.spf_der.specs.Written.{usage_text, validity_text, version_text, certificate_text};
ghost use Rattle.spf_der.specs.Written.{tbs_text};
ghost use Rattle.spf_der.specs.WrittenTime.{IsTimeText, IsWritable, expiry_text, generalized_text};
ghost use Rattle.spf_der.specs.WrittenTime.{utc_text};

use crate::extensions::{BASIC_CONSTRAINTS, KEY_USAGE, KeyUsageBits, SUBJECT_ALT_NAME};
use crate::value::{
    BIT_STRING, BOOLEAN, GENERALIZED_TIME, INTEGER, OBJECT_IDENTIFIER, OCTET_STRING, SEQUENCE,
    UTC_TIME,
};
use jiff_core::civil::Date;
use spf_io::{List, OutOfMemory, Text};
use std::alloc::Global;

/// What is written into a certificate. The expiry is in Unix seconds.
#[derive(Debug, Drop)]
pub struct CertSpec {
    pub serial: u8,
    pub expiry: i64,
    pub key_usage: Option<KeyUsageBits>,
    pub ca: Option<bool>,
    pub uris: List<Text>,
}

/// AlgorithmIdentifier of 1.3.101.112 (RFC 8410 section 3).
const ALGORITHM: [u8; 7] = [SEQUENCE, 5, OBJECT_IDENTIFIER, 3, 0x2b, 0x65, 0x70];

/// The first second of 2050, from which on a time is a GeneralizedTime (RFC 5280 section 4.1.2.5).
const YEAR_2050: u64 = 2_524_608_000;

/// Appends a length in its shortest form. One of 2^32 or more counts as out of memory.
#[tactic(auto, unfolding(crate::specs::Value::length_octets))]
fn put_length(out: &mut Vec<u8>, length: usize) -> Result<(), OutOfMemory>
    ensures { OnOk result (out.new.items ≡ out.old.items ++ length_octets length) }
{
    match length {
        0..=0x7f => out.push(length as u8)?,
        0x80..=0xff => out.extend_from_slice(&[0x81, length as u8])?,
        0x100..=0xffff => out.extend_from_slice(&[
            0x82,
            (length / 256) as u8,
            (length % 256) as u8,
        ])?,
        0x1_0000..=0xff_ffff => out.extend_from_slice(&[
            0x83,
            (length / 65536) as u8,
            (length / 256 % 256) as u8,
            (length % 256) as u8,
        ])?,
        0x100_0000..=0xffff_ffff => out.extend_from_slice(&[
            0x84,
            (length / 16777216) as u8,
            (length / 65536 % 256) as u8,
            (length / 256 % 256) as u8,
            (length % 256) as u8,
        ])?,
        _ => return Err(OutOfMemory),
    }
    Ok(())
}

/// Appends a value.
fn put_value(out: &mut Vec<u8>, tag: u8, contents: &[u8]) -> Result<(), OutOfMemory>
    ensures { OnOk result (out.new.items ≡ out.old.items ++ value_text tag contents.now) }
{
    out.push(tag)?;
    put_length(out, contents.len())?;
    out.extend_from_slice(contents)?;
    Ok(())
}

/// The value alone.
fn wrapped(alloc: Global, tag: u8, contents: &[u8]) -> Result<Vec<u8>, OutOfMemory>
    ensures { IfOk result (λ v. v.items ≡ value_text tag contents.now) }
{
    let mut out = Vec::new(alloc);
    put_value(&mut out, tag, contents)?;
    Ok(out)
}

/// Appends an Extension.
fn put_extension(
    alloc: Global,
    out: &mut Vec<u8>,
    oid: &[u8],
    contents: &[u8],
) -> Result<(), OutOfMemory>
    ensures { OnOk result (out.new.items ≡ out.old.items ++ extension_text oid.now contents.now) }
{
    let mut inner = Vec::new(alloc);
    put_value(&mut inner, OBJECT_IDENTIFIER, oid)?;
    put_value(&mut inner, OCTET_STRING, contents)?;
    put_value(out, SEQUENCE, inner.as_slice())
}

/// The octet of a key usage that holds all its bits.
fn usage_octet_of(bits: KeyUsageBits) -> u8
    ensures { result ≡ usage_octet bits }
{
    let digital_signature = if bits.digital_signature { 0x80 } else { 0 };
    let key_cert_sign = if bits.key_cert_sign { 0x04 } else { 0 };
    let crl_sign = if bits.crl_sign { 0x02 } else { 0 };
    digital_signature + key_cert_sign + crl_sign
}

/// Key usage (section 4.2.1.3), which ends with the last bit that is set.
fn key_usage(alloc: Global, bits: KeyUsageBits) -> Result<Vec<u8>, OutOfMemory>
    ensures { IfOk result (λ v. v.items ≡ usage_text bits) }
{
    let octet = usage_octet_of(bits);
    if bits.crl_sign {
        wrapped(alloc, BIT_STRING, &[1, octet])
    } else if bits.key_cert_sign {
        wrapped(alloc, BIT_STRING, &[2, octet])
    } else if bits.digital_signature {
        wrapped(alloc, BIT_STRING, &[7, octet])
    } else {
        wrapped(alloc, BIT_STRING, &[0])
    }
}

/// Basic constraints (section 4.2.1.9).
#[tactic(auto, unfolding(crate::specs::Value::length_octets))]
fn basic_constraints(alloc: Global, ca: bool) -> Result<Vec<u8>, OutOfMemory>
    ensures { IfOk result (λ v. v.items ≡ constraints_text ca) }
{
    if ca {
        wrapped(alloc, SEQUENCE, &[BOOLEAN, 1, 0xff])
    } else {
        wrapped(alloc, SEQUENCE, &[])
    }
}

/// The names of a subject alternative name, one after another.
fn uri_names(alloc: Global, uris: &[Text]) -> Result<Vec<u8>, OutOfMemory>
    ensures { IfOk result (λ v. v.items ≡ flat_map (value_text 134) uris.now) }
{
    let mut names = Vec::new(alloc);
    for uri in uris {
        put_value(&mut names, 0x86, uri.as_str().as_bytes())?;
    }
    Ok(names)
}

/// Subject alternative name (section 4.2.1.6).
fn subject_alt_name(alloc: Global, uris: &[Text]) -> Result<Vec<u8>, OutOfMemory>
    ensures { IfOk result (λ v. v.items ≡ names_text uris.now) }
{
    let names = uri_names(alloc, uris)?;
    wrapped(alloc, SEQUENCE, names.as_slice())
}

/// Appends the extension of a key usage, if there is one.
fn put_key_usage(
    alloc: Global,
    out: &mut Vec<u8>,
    key_usage_bits: Option<KeyUsageBits>,
) -> Result<(), OutOfMemory>
    ensures { OnOk result (out.new.items ≡ out.old.items ++ usage_part key_usage_bits) }
{
    match key_usage_bits {
        None => Ok(()),
        Some(bits) => {
            let contents = key_usage(alloc, bits)?;
            put_extension(alloc, out, &KEY_USAGE, contents.as_slice())
        }
    }
}

/// Appends the extension of basic constraints, if there are any.
fn put_basic_constraints(
    alloc: Global,
    out: &mut Vec<u8>,
    ca: Option<bool>,
) -> Result<(), OutOfMemory>
    ensures { OnOk result (out.new.items ≡ out.old.items ++ constraints_part ca) }
{
    match ca {
        None => Ok(()),
        Some(ca) => {
            let contents = basic_constraints(alloc, ca)?;
            put_extension(alloc, out, &BASIC_CONSTRAINTS, contents.as_slice())
        }
    }
}

/// Appends the extension of a subject alternative name, if there are URIs.
fn put_subject_alt_name(alloc: Global, out: &mut Vec<u8>, uris: &[Text]) -> Result<(), OutOfMemory>
    ensures { OnOk result (out.new.items ≡ out.old.items ++ names_part uris.now) }
{
    match uris {
        [] => Ok(()),
        _ => {
            let contents = subject_alt_name(alloc, uris)?;
            put_extension(alloc, out, &SUBJECT_ALT_NAME, contents.as_slice())
        }
    }
}

/// The extensions, one after another.
fn extension_list(alloc: Global, spec: &CertSpec) -> Result<Vec<u8>, OutOfMemory>
    ensures { IfOk result (λ v. v.items ≡ extensions_text spec.now) }
{
    let mut out = Vec::new(alloc);
    put_key_usage(alloc, &mut out, spec.key_usage)?;
    put_basic_constraints(alloc, &mut out, spec.ca)?;
    put_subject_alt_name(alloc, &mut out, spec.uris.as_slice())?;
    Ok(out)
}

/// Appends the version, where there are extensions.
#[tactic(auto, unfolding(crate::specs::Value::length_octets))]
fn put_version(out: &mut Vec<u8>, extensions: &[u8]) -> Result<(), OutOfMemory>
    ensures { OnOk result (out.new.items ≡ out.old.items ++ version_text extensions.now) }
{
    match extensions {
        [] => Ok(()),
        _ => put_value(out, 0xa0, &[INTEGER, 1, 2]),
    }
}

/// Appends the extensions, where there are any.
fn put_extensions(alloc: Global, out: &mut Vec<u8>, extensions: &[u8]) -> Result<(), OutOfMemory>
    ensures { OnOk result (out.new.items ≡ out.old.items ++ extensions_part extensions.now) }
{
    match extensions {
        [] => Ok(()),
        _ => {
            let list = wrapped(alloc, SEQUENCE, extensions)?;
            put_value(out, 0xa3, list.as_slice())
        }
    }
}

/// Appends the AlgorithmIdentifier.
#[tactic(auto, unfolding(crate::specs::Value::length_octets))]
fn put_algorithm(out: &mut Vec<u8>) -> Result<(), OutOfMemory>
    ensures { OnOk result (out.new.items ≡ out.old.items ++ algorithm_text) }
{
    out.extend_from_slice(&ALGORITHM)?;
    Ok(())
}

/// Appends an empty Name (section 4.1.2.4).
#[tactic(auto, unfolding(crate::specs::Value::length_octets))]
fn put_no_name(out: &mut Vec<u8>) -> Result<(), OutOfMemory>
    ensures { OnOk result (out.new.items ≡ out.old.items ++ no_name) }
{
    out.extend_from_slice(&[SEQUENCE, 0])?;
    Ok(())
}

/// Appends a BIT STRING of no bits.
#[tactic(auto, unfolding(crate::specs::Value::length_octets))]
fn put_no_bits(out: &mut Vec<u8>) -> Result<(), OutOfMemory>
    ensures { OnOk result (out.new.items ≡ out.old.items ++ no_bits) }
{
    out.extend_from_slice(&[BIT_STRING, 1, 0])?;
    Ok(())
}

/// Appends a SubjectPublicKeyInfo without a key (section 4.1.2.7).
#[tactic(auto, unfolding(crate::specs::Value::length_octets))]
fn put_public_key(alloc: Global, out: &mut Vec<u8>) -> Result<(), OutOfMemory>
    ensures { OnOk result (out.new.items ≡ out.old.items ++ public_key_text) }
{
    let mut inner = Vec::new(alloc);
    put_algorithm(&mut inner)?;
    put_no_bits(&mut inner)?;
    put_value(out, SEQUENCE, inner.as_slice())
}

/// Appends a validity from the first second of 1970 to that time (section 4.1.2.5).
fn put_validity(alloc: Global, out: &mut Vec<u8>, time: &[u8]) -> Result<(), OutOfMemory>
    ensures { OnOk result (out.new.items ≡ out.old.items ++ validity_text time.now) }
{
    let mut times = Vec::new(alloc);
    put_value(&mut times, UTC_TIME, b"700101000000Z")?;
    times.extend_from_slice(time)?;
    put_value(out, SEQUENCE, times.as_slice())
}

/// The last digit of a number.
fn digit(number: u64) -> u8
    ensures { result ≡ 48 + number % 10 }
{
    b'0' + (number % 10) as u8
}

/// `YYMMDDHHMMSSZ`, from the last two digits of each number.
fn utc_octets(year: u64, month: u64, day: u64, hour: u64, minute: u64, second: u64) -> [u8; 13]
    ensures { result ≡ utc_text year month day hour minute second }
{
    [
        digit(year / 10),
        digit(year),
        digit(month / 10),
        digit(month),
        digit(day / 10),
        digit(day),
        digit(hour / 10),
        digit(hour),
        digit(minute / 10),
        digit(minute),
        digit(second / 10),
        digit(second),
        b'Z',
    ]
}

/// `YYMMDDHHMMSSZ` of a date and a second of its day, from the last two digits of the year.
fn date_octets(date: &Date, second: u64) -> [u8; 13]
    ensures { result
        ≡ utc_text (unsigned_abs date.now.year) date.now.month date.now.day (second / 3600)
        (second / 60 % 60) (second % 60) }
{
    utc_octets(
        date.year.unsigned_abs() as u64,
        date.month as u64,
        date.day as u64,
        second / 3600,
        second / 60 % 60,
        second % 60,
    )
}

/// The contents octets of the GeneralizedTime of a date and a second of its day.
fn generalized_octets(alloc: Global, date: &Date, second: u64) -> Result<Vec<u8>, OutOfMemory>
    ensures { IfOk result
        (λ v. v.items
        ≡ generalized_text (unsigned_abs date.now.year) date.now.month date.now.day (second / 3600)
        (second / 60 % 60) (second % 60)) }
{
    let century = date.year.unsigned_abs() as u64 / 100;
    let mut contents = Vec::with_capacity(alloc, 15)?;
    contents.extend_from_slice(&[digit(century / 10), digit(century)])?;
    contents.extend_from_slice(&date_octets(date, second))?;
    Ok(contents)
}

/// Returns the Time of a Unix second from 1970 to 9999: a UTCTime for years up to 2049, a
/// GeneralizedTime after.
pub fn write_time(alloc: Global, moment: i64) -> Result<Vec<u8>, OutOfMemory>
    ensures text { IsWritable moment → IfOk result (λ v. v.items ≡ expiry_text moment) }
    ensures means { IsWritable moment → IfOk result (λ v. IsTimeText moment v.items) }
{
    let seconds = moment.unsigned_abs();
    let Ok(date) = Date::from_unix_epoch_day((seconds / 86400) as i64) else {
        return Err(OutOfMemory);
    };
    if seconds < YEAR_2050 {
        return wrapped(alloc, UTC_TIME, &date_octets(&date, seconds % 86400));
    }
    let contents = generalized_octets(alloc, &date, seconds % 86400)?;
    wrapped(alloc, GENERALIZED_TIME, contents.as_slice())
}

/// The contents of tbsCertificate (section 4.1.2).
fn tbs_certificate(alloc: Global, spec: &CertSpec, time: &[u8]) -> Result<Vec<u8>, OutOfMemory>
    ensures { IfOk result (λ v. v.items ≡ tbs_text spec.now time.now) }
{
    let extensions = extension_list(alloc, spec)?;
    let mut tbs = Vec::new(alloc);
    put_version(&mut tbs, extensions.as_slice())?;
    put_value(&mut tbs, INTEGER, &[spec.serial])?;
    put_algorithm(&mut tbs)?;
    put_no_name(&mut tbs)?;
    put_validity(alloc, &mut tbs, time)?;
    put_no_name(&mut tbs)?;
    put_public_key(alloc, &mut tbs)?;
    put_extensions(alloc, &mut tbs, extensions.as_slice())?;
    Ok(tbs)
}

/// Returns the certificate of the spec, whose expiry is in the years 1970 to 9999. Names, key and
/// signature are empty.
pub fn write_certificate(alloc: Global, spec: &CertSpec) -> Result<Vec<u8>, OutOfMemory>
    ensures text { IsWritable spec.now.expiry
        → IfOk result (λ v. v.items ≡ certificate_text spec.now (expiry_text spec.now.expiry)) }
    ensures means { IsWritable spec.now.expiry
        → IfOk result (λ v. IsCertificateOf spec.now v.items) }
{
    let time = write_time(alloc, spec.expiry)?;
    signed(alloc, spec, time.as_slice())
}

/// The certificate of the spec, with that text of its expiry.
fn signed(alloc: Global, spec: &CertSpec, time: &[u8]) -> Result<Vec<u8>, OutOfMemory>
    ensures { IfOk result (λ v. v.items ≡ certificate_text spec.now time.now) }
{
    let tbs = tbs_certificate(alloc, spec, time)?;
    let mut inner = wrapped(alloc, SEQUENCE, tbs.as_slice())?;
    put_algorithm(&mut inner)?;
    put_no_bits(&mut inner)?;
    wrapped(alloc, SEQUENCE, inner.as_slice())
}

/// Returns a key whose one octet is the serial number.
#[tactic(auto, unfolding(crate::specs::Value::length_octets))]
pub fn write_key(alloc: Global, serial: u8) -> Result<Vec<u8>, OutOfMemory>
    ensures { IfOk result (λ v. v.items ≡ key_text serial) }
{
    let mut inner = Vec::new(alloc);
    inner.extend_from_slice(&[INTEGER, 1, 0])?;
    put_algorithm(&mut inner)?;
    inner.extend_from_slice(&[OCTET_STRING, 1, serial])?;
    wrapped(alloc, SEQUENCE, inner.as_slice())
}
