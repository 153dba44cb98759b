//! The rules of the name of a trust domain (SPIFFE-ID section 2.1).

ghost use Rattle.std.specs.Prelude.{◌≡◌};
ghost use Rattle.std.specs.List.{list_all};
ghost use Rattle.spf_id.specs.Rule.{is_domain_octet, domain_rule};

use crate::error::SpiffeIdError;

fn is_domain_char(octet: u8) -> bool
    ensures { result ≡ is_domain_octet octet }
{
    octet.is_ascii_lowercase()
        || octet.is_ascii_digit()
        || octet == b'.'
        || octet == b'-'
        || octet == b'_'
}

fn is_domain_text(octets: &[u8]) -> bool
    ensures { result ≡ list_all is_domain_octet octets.now }
{
    octets.iter().all(|octet| is_domain_char(*octet))
}

/// Whether a trust domain that is not empty breaks a rule, and which.
#[tactic(auto, unfolding(crate::specs::Rule::domain_rule))]
pub(crate) fn check_domain(octets: &[u8]) -> Result<(), SpiffeIdError>
    ensures { result ≡ domain_rule octets.now }
{
    if octets.len() > 255 {
        return Err(SpiffeIdError::TrustDomainTooLong);
    }
    if !is_domain_text(octets) {
        return Err(SpiffeIdError::BadTrustDomainChar);
    }
    Ok(())
}
