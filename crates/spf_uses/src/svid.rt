//! Reading an SVID from a chain and a key.

ghost use Rattle.spf_io.specs.Rule.{Gives};
ghost use Rattle.spf_x509.specs.Errors.{is_memory_svid};
ghost use Rattle.spf_uses.specs.Rules.{validity_rule};

use spf_x509::{X509Svid, X509SvidError};
use std::alloc::Global;

/// Returns whether an SVID, a chain of certificates in DER and a PKCS#8 key, expires after `now`,
/// in Unix seconds.
pub fn is_valid_at(alloc: Global, chain: &[u8], key: &[u8], now: i64) -> Result<bool, X509SvidError>
    ensures { Gives is_memory_svid (λ is. is) result (validity_rule chain.now key.now now) }
{
    let svid = X509Svid::parse_from_der(alloc, chain, key)?;
    Ok(now < svid.expiry_unix())
}
