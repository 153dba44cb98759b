//! The authorities of one trust domain.

ghost use Rattle.std.specs.Prelude.{◌≡◌, ◌↔◌, ◌<◌, ◌++◌, [], ◌∷◌, length, IfOk, IsTrue, Ok, OnErr};
ghost use Rattle.std.specs.Prelude.{OnOk};
ghost use Rattle.std.specs.Arc.{arc_value};
ghost use Rattle.spf_io.specs.Rule.{Gives, each};
ghost use Rattle.spf_x509.specs.Certificate.{certificate_of};
ghost use Rattle.spf_x509.specs.Chain.{authorities_after, authorities_rule, authority_at};
ghost use Rattle.spf_x509.specs.Errors.{is_memory_bundle, is_memory_certificate};
ghost use Rattle.spf_x509.specs.BundleRule.{added_to, bundle_of};

use crate::certificate::Certificate;
use crate::certificates::Certificates;
use crate::chain::{cut_certificate, is_concatenation};
use crate::error::{CertificateError, X509BundleError};
use spf_id::TrustDomain;
use spf_io::{Bytes, OutOfMemory};
use std::alloc::Global;
use std::marker::Model;
use std::sync::Arc;

/// A trust domain, and its authorities in the order in which
/// they came (SPIFFE Trust Domain and Bundle section 4).
#[derive(Debug, Drop)]
pub struct X509Bundle {
    trust_domain: TrustDomain,
    authorities: Certificates,
    alloc: Global,
}

impl Model for X509Bundle {
    ghost use Rattle.spf_x509.specs.Bundle.{Bundle};

    ghost Value = { Bundle };

    ghost view = { λ b. record { domain = b.trust_domain; authorities = b.authorities } };
}

impl X509Bundle {
    /// Returns a bundle without authorities.
    pub fn new(alloc: Global, trust_domain: TrustDomain) -> X509Bundle
        ensures { result ≡ record { domain = trust_domain; authorities = [] } }
    {
        X509Bundle {
            trust_domain,
            authorities: Certificates::new(),
            alloc,
        }
    }

    /// One authority from each of the texts, in order.
    pub fn from_x509_authorities(
        alloc: Global,
        trust_domain: TrustDomain,
        authorities: &[Bytes],
    ) -> Result<X509Bundle, X509BundleError>
        ensures { Gives is_memory_bundle (λ b. b) result
            (bundle_of trust_domain (each certificate_of authorities.now)) }
    {
        let authorities = certificates_from(alloc, authorities)?;
        Ok(X509Bundle {
            trust_domain,
            authorities,
            alloc,
        })
    }

    /// Returns the authorities whose concatenation the bytes are: none for empty bytes.
    pub fn parse_from_der(
        alloc: Global,
        trust_domain: TrustDomain,
        der: &[u8],
    ) -> Result<X509Bundle, X509BundleError>
        ensures { Gives is_memory_bundle (λ b. b) result
            (bundle_of trust_domain (authorities_rule der.now)) }
    {
        let authorities = cut_authorities(alloc, der)?;
        Ok(X509Bundle {
            trust_domain,
            authorities,
            alloc,
        })
    }

    /// The same, shared.
    pub fn parse_shared(
        alloc: Global,
        trust_domain: TrustDomain,
        der: &[u8],
    ) -> Result<Arc<X509Bundle>, X509BundleError>
        ensures { Gives is_memory_bundle arc_value result
            (bundle_of trust_domain (authorities_rule der.now)) }
    {
        let authorities = cut_authorities(alloc, der)?;
        let bundle = X509Bundle {
            trust_domain,
            authorities,
            alloc,
        };
        Ok(Arc::new(alloc, bundle)?)
    }

    /// Appends one authority. An error leaves the bundle as it was.
    pub fn add_authority(&mut self, der: &[u8]) -> Result<(), X509BundleError>
        ensures ok { OnOk result
            (self.new ≡ record {
              domain = self.old.domain;
              authorities = self.old.authorities ++ der.now ∷ [];
            }) }
        ensures err { OnErr result (self.new ≡ self.old) }
        ensures gives { Gives is_memory_bundle (λ _. self.new) result
            (added_to self.old (certificate_of der.now)) }
    {
        let certificate = Certificate::try_from(self.alloc, der)?;
        self.authorities.push(self.alloc, certificate)?;
        Ok(())
    }

    /// Returns a copy of the bundle.
    pub fn try_clone(&self, alloc: Global) -> Result<X509Bundle, OutOfMemory>
        ensures { IfOk result (λ b. b ≡ self.now) }
    {
        Ok(X509Bundle {
            trust_domain: self.trust_domain.try_clone(alloc)?,
            authorities: self.authorities.try_clone(alloc)?,
            alloc,
        })
    }

    /// Returns whether this is the bundle of exactly that trust domain and those bytes. It
    /// allocates nothing.
    #[inline]
    pub fn is_parsed_from(&self, trust_domain: &TrustDomain, der: &[u8]) -> bool
        ensures { IsTrue result
            ↔ (bundle_of trust_domain.now (authorities_rule der.now) ≡ Ok self.now) }
    {
        *trust_domain == self.trust_domain && is_concatenation(self.authorities.as_slice(), der)
    }

    pub fn trust_domain(&self) -> &TrustDomain
        ensures { result.now ≡ self.now.domain }
    {
        &self.trust_domain
    }

    pub fn authorities(&self) -> &[Certificate]
        ensures { result.now ≡ self.now.authorities }
    {
        self.authorities.as_slice()
    }
}

/// The certificates that the texts are, in order.
fn certificates_from(alloc: Global, authorities: &[Bytes]) -> Result<Certificates, CertificateError>
    ensures { Gives is_memory_certificate (λ c. c) result
        (each certificate_of authorities.now) }
{
    let mut certificates = Certificates::with_capacity(alloc, authorities.len())?;
    for authority in authorities {
        let certificate = Certificate::try_from(alloc, authority.as_slice())?;
        certificates.push(alloc, certificate)?;
    }
    Ok(certificates)
}

/// A copy of the certificate at the start of `der`, and what follows it.
#[tactic(auto, unfolding(crate::specs::Chain::authority_at))]
fn cut_authority(alloc: Global, der: &[u8]) -> Result<(Certificate, &[u8]), CertificateError>
    ensures gives { Gives is_memory_certificate (λ x. (x.0, x.1.now)) result
        (authority_at der.now) }
    ensures shorter { IfOk result (λ x. length x.1.now < length der.now) }
{
    let (part, rest) = cut_certificate(der)?;
    let certificate = part.certificate(alloc)?;
    Ok((certificate, rest))
}

/// The certificates, and after them copies of those whose concatenation the bytes are.
fn with_authorities(
    alloc: Global,
    certificates: Certificates,
    der: &[u8],
) -> Result<Certificates, CertificateError>
    ensures { Gives is_memory_certificate (λ c. c) result
        (authorities_after certificates der.now) }
{
    let mut authorities = certificates;
    let mut rest = der;
    while !rest.is_empty() {
        let (authority, after) = cut_authority(alloc, rest)?;
        authorities.push(alloc, authority)?;
        rest = after;
    }
    Ok(authorities)
}

/// Copies of the certificates whose concatenation the bytes are.
fn cut_authorities(alloc: Global, der: &[u8]) -> Result<Certificates, CertificateError>
    ensures { Gives is_memory_certificate (λ c. c) result (authorities_rule der.now) }
{
    if der.is_empty() {
        return Ok(Certificates::new());
    }
    let (first, rest) = cut_authority(alloc, der)?;
    if rest.is_empty() {
        return Ok(Certificates::one(first));
    }
    let (second, others) = cut_authority(alloc, rest)?;
    let two = Certificates::two(first, second);
    if others.is_empty() {
        return Ok(two);
    }
    with_authorities(alloc, two, others)
}

impl PartialEq for X509Bundle {
    ghost use Rattle.spf_x509.specs.Bundle.{bundle_eq};
    ghost use Rattle.spf_x509.specs.Laws.{bundle_per};

    ghost eq = { bundle_eq };

    ghost laws = { bundle_per };

    fn eq(&self, other: &X509Bundle) -> bool {
        self.trust_domain == other.trust_domain && self.authorities == other.authorities
    }
}

impl Eq for X509Bundle {
    ghost use Rattle.spf_x509.specs.Laws.{bundle_equiv};

    ghost laws = { bundle_equiv };
}
