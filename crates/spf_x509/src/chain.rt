//! Concatenated certificates: how a chain is cut.

ghost use Rattle.std.specs.Prelude.{◌≡◌, ◌≢◌, ◌↔◌, ◌<◌, ◌++◌, ◌∷◌, ℕ, List, length, take, IfOk};
ghost use Rattle.std.specs.Prelude.{IfSome, IsTrue, MatchOption};
ghost use Rattle.spf_der.specs.Grammar.{CertsOf, joined};
ghost use Rattle.spf_io.specs.Rule.{Gives};
ghost use Rattle.spf_x509.specs.Certificate.{IsCertificate};
ghost use Rattle.spf_x509.specs.Chain.{certificate_text_at, chain_after};
ghost use Rattle.spf_x509.specs.Errors.{is_memory_certificate};

use crate::certificate::Certificate;
use crate::certificates::Certificates;
use crate::error::CertificateError;
use spf_der::{CertScan, scan_certificate};
use spf_io::OutOfMemory;
use std::alloc::Global;
use std::marker::Model;

/// How many certificates a chain may hold.
pub(crate) const MAX_CERTIFICATES: usize = 16;

/// A certificate of a chain, which contracts see as what is read of it and its bytes.
#[derive(Drop)]
pub(crate) struct ChainPart<'a> {
    scan: CertScan<'a>,
    der: &'a [u8],
}

impl<'a> Model for ChainPart<'a> {
    ghost use Rattle.std.specs.Prelude.{List, ℕ};
    ghost use Rattle.spf_der.specs.Grammar.{CertText};
    ghost use Rattle.spf_der.specs.Part.{Parts};

    ghost Value = { Parts × List ℕ };

    ghost view = { λ p. (p.scan, p.der.now) };

    ghost invariant = { λ p. CertText p.der.now p.scan };
}

impl<'a> ChainPart<'a> {
    /// What its rules look up.
    pub(crate) fn scan(&self) -> &CertScan<'a>
        ensures { result.now ≡ self.now.0 }
    {
        &self.scan
    }

    /// A copy of the certificate.
    pub(crate) fn certificate(&self, alloc: Global) -> Result<Certificate, OutOfMemory>
        ensures { IfOk result (λ c. c ≡ self.now.1) }
    {
        Certificate::of_text(alloc, self.der)
    }
}

/// The certificate at the start of `bytes`, and what follows it.
#[tactic(auto, unfolding(crate::specs::Chain::certificate_text_at))]
pub(crate) fn cut_certificate(bytes: &[u8]) -> Result<(ChainPart<'_>, &[u8]), CertificateError>
    ensures gives { Gives is_memory_certificate (λ x. (x.0, x.1.now)) result
        (certificate_text_at bytes.now) }
    ensures shorter { IfOk result (λ x. length x.1.now < length bytes.now) }
{
    let (scan, length) = scan_certificate(bytes)?;
    let (der, after) = bytes.split_at(length);
    Ok((ChainPart { scan, der }, after))
}

/// The certificates of a chain whose first two are cut, of which more are in `others`.
pub(crate) fn cut_others<'a>(
    alloc: Global,
    leaf: ChainPart<'a>,
    second: ChainPart<'a>,
    others: &'a [u8],
) -> Result<Vec<ChainPart<'a>>, CertificateError>
    ensures { Gives is_memory_certificate (λ v. v.items) result
        (chain_after leaf.entry second.entry others.now) }
{
    let mut parts = Vec::from_array(alloc, [leaf, second])?;
    let mut rest = others;
    while !rest.is_empty() {
        if parts.len() == MAX_CERTIFICATES {
            return Err(CertificateError::TooManyCertificates {
                max: MAX_CERTIFICATES,
            });
        }
        let (part, after) = cut_certificate(rest)?;
        parts.push(part)?;
        rest = after;
    }
    Ok(parts)
}

/// The octets without a first part that is the same in both, or `None` where the first octets
/// differ. Those of two certificates of one name most often do, since they hold the serial number
/// and the dates.
#[inline(always)]
fn past_head<'a, 'b>(bytes: &'a [u8], text: &'b [u8]) -> Option<(&'a [u8], &'b [u8])>
    ensures { MatchOption result (take (length text.now) bytes.now ≢ text.now)
        (λ p. (head : List ℕ) × (bytes.now ≡ head ++ p.0.now) × (text.now ≡ head ++ p.1.now)) }
{
    match (
        bytes.split_first_chunk::<64>(),
        text.split_first_chunk::<64>(),
    ) {
        (Some((head, others)), Some((start, end))) => {
            if head == start {
                Some((others, end))
            } else {
                None
            }
        }
        _ => Some((bytes, text)),
    }
}

/// What follows the text in the bytes, if they begin with it.
#[inline(always)]
fn after<'a>(bytes: &'a [u8], text: &[u8]) -> Option<&'a [u8]>
    ensures { MatchOption result (take (length text.now) bytes.now ≢ text.now)
        (λ rest. bytes.now ≡ text.now ++ rest.now) }
{
    match past_head(bytes, text) {
        None => None,
        Some((others, end)) => others.strip_prefix(end),
    }
}

/// Whether `der` is these certificates, one after another.
pub(crate) fn is_concatenation(certificates: &[Certificate], der: &[u8]) -> bool
    ensures { IsTrue result ↔ CertsOf der.now certificates.now }
{
    let mut rest = der;
    for certificate in certificates {
        match after(rest, certificate.as_bytes()) {
            None => return false,
            Some(others) => rest = others,
        }
    }
    rest.is_empty()
}

/// The number of octets of the certificates, stopping at `usize::MAX`.
fn length_of(certificates: &[Certificate]) -> usize {
    let mut length = 0_usize;
    for certificate in certificates {
        length = length.saturating_add(certificate.as_bytes().len());
    }
    length
}

/// The bytes before these certificates, where a chain ends with them.
pub(crate) fn bytes_before<'a>(chain: &'a [u8], certificates: &[Certificate]) -> Option<&'a [u8]>
    ensures { IfSome result (λ front. chain.now ≡ front.now ++ joined certificates.now) }
{
    let length = length_of(certificates);
    if chain.len() < length {
        return None;
    }
    let (front, others) = chain.split_at(chain.len() - length);
    if is_concatenation(certificates, others) {
        Some(front)
    } else {
        None
    }
}

/// The leaf, and copies of the certificates after it.
fn with_others(
    alloc: Global,
    leaf: Certificate,
    others: &[Certificate],
) -> Result<Certificates, OutOfMemory>
    ensures { IfOk result (λ c. c ≡ leaf ∷ others.now) }
{
    let mut certificates = Certificates::with_capacity(alloc, others.len() + 1)?;
    certificates.push(alloc, leaf)?;
    for certificate in others {
        certificates.push(alloc, certificate.try_clone(alloc)?)?;
    }
    Ok(certificates)
}

/// A copy of a leaf, and copies of the certificates after it.
pub(crate) fn chain_with_leaf(
    alloc: Global,
    leaf: &[u8],
    others: &[Certificate],
) -> Result<Certificates, OutOfMemory>
    requires { IsCertificate leaf.now }
    ensures { IfOk result (λ c. c ≡ leaf.now ∷ others.now) }
{
    let leaf = Certificate::of_text(alloc, leaf)?;
    match others.split_first() {
        None => Ok(Certificates::one(leaf)),
        Some((other, rest)) if rest.is_empty() => {
            Ok(Certificates::two(leaf, other.try_clone(alloc)?))
        }
        Some(_) => with_others(alloc, leaf, others),
    }
}
