//! Private keys (RFC 5958 section 2).
ghost use Rattle.std.specs.Prelude.{◌≡◌, is_ok, is_some};
ghost use Rattle.spf_der.specs.Key.{is_key, is_public_key, key_at};
ghost use Rattle.spf_der.specs.Value.{seen, seen_optional};

use crate::error::Pkcs8DecodeError;
use crate::types::{after_algorithm, is_bits, small_integer};
use crate::value::{OCTET_STRING, SEQUENCE, optional, tagged, whole};

/// Whether a public key ends the bytes exactly where the version is 1.
#[inline]
fn fits_version(version: u8, public_key: Option<&[u8]>, end: &[u8]) -> bool
    ensures { result ≡ is_public_key version (seen public_key.entry, end.now) }
{
    match public_key {
        None => version == 0 && end.is_empty(),
        Some(bits) => version == 1 && is_bits(bits) && end.is_empty(),
    }
}

/// Whether the bytes are a key, by the order of section 2.
#[tactic(auto, unfolding(crate::specs::Key::key_at))]
fn private_key_info(der: &[u8]) -> Option<bool>
    ensures { result ≡ key_at der.now }
{
    let inner = whole(SEQUENCE, der)?;
    let (version, rest) = small_integer(1, inner)?;
    let rest = after_algorithm(rest)?;
    let (_key, rest) = tagged(OCTET_STRING, rest)?;
    let (_attributes, rest) = optional(0xa0, rest)?;
    let (public_key, end) = optional(0x81, rest)?;
    Some(fits_version(version, public_key, end))
}

/// Refuses exactly what is not a key of the grammar.
pub fn read_key(der: &[u8]) -> Result<(), Pkcs8DecodeError>
    ensures { is_ok result ≡ is_key der.now }
{
    match private_key_info(der) {
        Some(true) => Ok(()),
        _ => Err(Pkcs8DecodeError),
    }
}
