//! The parts of a token (RFC 7515 section 3.1).

ghost use Rattle.std.specs.Prelude.{◌≡◌, ◌<◌, Ok, Err, length, MatchOption, MatchResult};
ghost use Rattle.std.specs.List.{after_first, before_first, list_all, position_or_len, slice_split};
ghost use Rattle.std.specs.Prelude.{IsErr};
ghost use Rattle.std.specs.Bool.{MatchBool};
ghost use Rattle.base64.specs.Engines.{url_safe_no_pad};
ghost use Rattle.base64.specs.GeneralPurpose.{decode_of};
ghost use Rattle.serde_json.specs.View.{view};
ghost use Rattle.spf_io.specs.Rule.{Gives};
ghost use Rattle.spf_jwt.specs.Errors.{is_memory_part};
ghost use Rattle.spf_jwt.specs.declared.token.PartFault.TheVariants.{NoObject};
ghost use Rattle.spf_jwt.specs.Token.{is_base64url_octet, is_full_stop, is_signature, part_rule};
ghost use Rattle.spf_jwt.specs.Token.{parts_rule};

use crate::json::{self, JsonFault};
use base64::DecodeAllocError;
use base64::engine::general_purpose::URL_SAFE_NO_PAD;
use serde_json::Value;
use spf_api::JwtSvidError;
use std::alloc::Global;

/// Why a part of a token is refused.
#[derive(Clone, Copy)]
pub(crate) enum PartFault {
    NoObject,
    HoldsFloat,
    OutOfMemory,
}

fn is_base64url_char(octet: u8) -> bool
    ensures { result ≡ is_base64url_octet octet }
{
    octet.is_ascii_alphanumeric() || octet == b'-' || octet == b'_'
}

fn is_base64url(octets: &[u8]) -> bool
    ensures { result ≡ list_all is_base64url_octet octets.now }
{
    octets.iter().all(|octet| is_base64url_char(*octet))
}

fn can_sign(text: &str) -> bool
    ensures { result ≡ is_signature text.now }
{
    !text.is_empty() && is_base64url(text.as_bytes())
}

/// What stands before and after the first full stop.
fn cut(text: &str) -> Option<(&str, &str)>
    ensures { MatchOption result (position_or_len is_full_stop text.now ≡ length text.now)
        (λ p. (position_or_len is_full_stop text.now < length text.now)
        × (p.0.now ≡ before_first is_full_stop text.now)
        × (p.1.now ≡ after_first is_full_stop text.now)) }
{
    text.split_once('.')
}

/// The header and the claims of a token. Of its signature only the alphabet is looked at.
pub(crate) fn parts(token: &str) -> Result<(&str, &str), JwtSvidError>
    ensures { MatchResult result
        (λ p. parts_rule (slice_split is_full_stop token.now) ≡ Ok (p.0.now, p.1.now))
        (λ e. parts_rule (slice_split is_full_stop token.now) ≡ Err e) }
{
    let Some((header, rest)) = cut(token) else {
        return Err(JwtSvidError::Parts);
    };
    let Some((claims, signature)) = cut(rest) else {
        return Err(JwtSvidError::Parts);
    };
    if !can_sign(signature) {
        return Err(JwtSvidError::Parts);
    }
    Ok((header, claims))
}

/// The bytes that a part encodes.
fn decoded(alloc: Global, part: &str) -> Result<Vec<u8>, PartFault>
    ensures { MatchResult result (λ v. decode_of url_safe_no_pad part.now ≡ Ok v.items)
        (λ e. MatchBool (is_memory_part e) (Unit {0})
        ((e ≡ NoObject) × IsErr (decode_of url_safe_no_pad part.now))) }
{
    match URL_SAFE_NO_PAD.decode(alloc, part.as_bytes()) {
        Ok(bytes) => Ok(bytes),
        Err(DecodeAllocError::OutOfMemory) => Err(PartFault::OutOfMemory),
        Err(_) => Err(PartFault::NoObject),
    }
}

/// The JSON object of a part, whose numbers are integers of 64 bits.
#[tactic(auto, unfolding(crate::specs::Token::part_rule))]
pub(crate) fn object(alloc: Global, part: &str) -> Result<Value, PartFault>
    ensures { Gives is_memory_part view result (part_rule part.now) }
{
    let bytes = decoded(alloc, part)?;
    let value = match json::read(alloc, bytes.as_slice()) {
        Ok(value) => value,
        Err(JsonFault::Invalid(_)) => return Err(PartFault::NoObject),
        Err(JsonFault::OutOfMemory) => return Err(PartFault::OutOfMemory),
    };
    if !value.is_object() {
        return Err(PartFault::NoObject);
    }
    if json::holds_float(&value) {
        return Err(PartFault::HoldsFloat);
    }
    Ok(value)
}
