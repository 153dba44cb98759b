//! The rules of the certificates of a chain: of its leaf, and of each intermediate.

ghost use Rattle.std.specs.Prelude.{◌≡◌, IfOk};
ghost use Rattle.spf_io.specs.Rule.{Gives};
ghost use Rattle.spf_x509.specs.Chain.{intermediates_rule};
ghost use Rattle.spf_x509.specs.Certificate.{names_rule, san_rule};
ghost use Rattle.spf_x509.specs.Errors.{is_memory_certificate, is_memory_svid};
ghost use Rattle.spf_x509.specs.Rule.{ca_rule, leaf_rule, leaf_usage, intermediate_rule};
ghost use Rattle.spf_x509.specs.Rule.{usage_rule};

use crate::certificate::{extension_contents, id_of_names, is_named};
use crate::chain::ChainPart;
use crate::error::CertificateError;
use crate::extension::X509ExtensionId;
use crate::svid_error::X509SvidError;
use spf_der::{CertScan, KeyUsageBits, read_basic_constraints, read_key_usage};
use spf_id::{Shared, SpiffeId, TrustDomain};
use spf_io::{OutOfMemory, Text};
use std::alloc::Global;

fn unparseable(alloc: Global, extension: &str) -> Result<X509SvidError, OutOfMemory>
    ensures { IfOk result (λ e. e ≡ X509SvidError.UnparseableExtension extension.now) }
{
    let extension = Text::copy_of(alloc, extension)?;
    Ok(X509SvidError::UnparseableExtension { extension })
}

/// The key usage of a certificate (RFC 5280 section 4.2.1.3).
#[inline(always)]
#[tactic(auto, unfolding(crate::specs::Rule::usage_rule))]
fn key_usage_of(alloc: Global, certificate: &CertScan<'_>) -> Result<KeyUsageBits, X509SvidError>
    ensures { Gives is_memory_svid (λ usage. usage) result (usage_rule certificate.now) }
{
    let contents = extension_contents(certificate, X509ExtensionId::KeyUsage)?;
    match read_key_usage(contents) {
        None => Err(unparseable(alloc, "KeyUsage")?),
        Some(usage) => Ok(usage),
    }
}

/// The CA flag of a certificate (RFC 5280 section 4.2.1.9).
#[inline(always)]
#[tactic(auto, unfolding(crate::specs::Rule::ca_rule))]
fn ca_flag_of(alloc: Global, certificate: &CertScan<'_>) -> Result<bool, X509SvidError>
    ensures { Gives is_memory_svid (λ flag. flag) result (ca_rule certificate.now) }
{
    let contents = extension_contents(certificate, X509ExtensionId::BasicConstraints)?;
    match read_basic_constraints(contents) {
        None => Err(unparseable(alloc, "BasicConstraints")?),
        Some(flag) => Ok(flag),
    }
}

/// The rule of the key usage of a leaf: it signs, and signs neither CRLs nor certificates.
fn leaf_usage_rule(usage: KeyUsageBits) -> Result<(), X509SvidError>
    ensures { Gives is_memory_svid (λ u. u) result (leaf_usage usage) }
{
    if !usage.digital_signature {
        return Err(X509SvidError::LeafCertificateMissingDigitalSignature);
    }
    if usage.crl_sign {
        return Err(X509SvidError::LeafCertificateHasCrlSign);
    }
    if usage.key_cert_sign {
        return Err(X509SvidError::LeafCertificateHasKeyCertSign);
    }
    Ok(())
}

/// The trust domain of an ID, if there is one.
fn domain_of(id: Option<&Shared<SpiffeId>>) -> Option<&TrustDomain> {
    match id {
        Some(id) => Some(id.get().trust_domain()),
        None => None,
    }
}

/// The ID of a subject alternative name, which is shared with a known one where it is the same.
/// Where only the trust domain is the same, its name is shared.
#[inline(never)]
fn shared_id(
    alloc: Global,
    names: &[u8],
    known: Option<&Shared<SpiffeId>>,
) -> Result<Shared<SpiffeId>, CertificateError>
    ensures { Gives is_memory_certificate (λ id. id) result (names_rule names.now) }
{
    match known {
        Some(known) if is_named(names, known.get()) => Ok(known.try_clone()?),
        _ => Ok(Shared::new(alloc, id_of_names(alloc, names, domain_of(known))?)?),
    }
}

/// The ID that a leaf names, which is shared with a known one where it is the same.
#[inline(always)]
#[tactic(auto, unfolding(crate::specs::Certificate::san_rule))]
fn leaf_id(
    alloc: Global,
    leaf: &CertScan<'_>,
    known: Option<&Shared<SpiffeId>>,
) -> Result<Shared<SpiffeId>, CertificateError>
    ensures { Gives is_memory_certificate (λ id. id) result (san_rule leaf.now) }
{
    let names = extension_contents(leaf, X509ExtensionId::SubjectAlternativeName)?;
    shared_id(alloc, names, known)
}

/// The rule of the leaf (SPIFFE X.509-SVID section 4): its one ID, which is
/// shared with a known one where it is the same, and its expiry in Unix seconds.
#[inline(always)]
#[tactic(auto, unfolding(crate::specs::Rule::leaf_rule))]
pub(crate) fn leaf_rule(
    alloc: Global,
    leaf: &CertScan<'_>,
    known: Option<&Shared<SpiffeId>>,
) -> Result<(Shared<SpiffeId>, i64), X509SvidError>
    ensures { Gives is_memory_svid (λ x. (x.0, x.1)) result (leaf_rule leaf.now) }
{
    let usage = key_usage_of(alloc, leaf)?;
    leaf_usage_rule(usage)?;
    if ca_flag_of(alloc, leaf)? {
        return Err(X509SvidError::LeafCertificateHasCaFlag);
    }
    let id = leaf_id(alloc, leaf, known)?;
    if id.get().path().is_empty() {
        return Err(X509SvidError::LeafSpiffeIdMissingPath);
    }
    Ok((id, leaf.expiry()))
}

/// The rule of an intermediate: it may sign certificates.
#[tactic(auto, unfolding(crate::specs::Rule::intermediate_rule))]
fn intermediate_certificate(alloc: Global, certificate: &CertScan<'_>) -> Result<(), X509SvidError>
    ensures { Gives is_memory_svid (λ u. u) result (intermediate_rule certificate.now) }
{
    if !ca_flag_of(alloc, certificate)? {
        return Err(X509SvidError::SigningCertificateMissingCaFlag);
    }
    if !key_usage_of(alloc, certificate)?.key_cert_sign {
        return Err(X509SvidError::SigningCertificateMissingKeyCertSign);
    }
    Ok(())
}

/// The rule of each intermediate, in order.
pub(crate) fn intermediate_rules(
    alloc: Global,
    certificates: &[ChainPart<'_>],
) -> Result<(), X509SvidError>
    ensures { Gives is_memory_svid (λ u. u) result (intermediates_rule certificates.now) }
{
    for certificate in certificates {
        intermediate_certificate(alloc, certificate.scan())?;
    }
    Ok(())
}
