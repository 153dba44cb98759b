//! The header and the claims of a token (RFC 7515 section 4.1; RFC 7519 section 4.1).

ghost use Rattle.std.specs.Prelude.{◌≡◌, ◌∷◌, [], codes, IfOk, option_and_then};
ghost use Rattle.serde_json.specs.Find.{as_str, get};
ghost use Rattle.serde_json.specs.View.{view, items_view};
ghost use Rattle.spf_io.specs.Rule.{Gives, each};
ghost use Rattle.spf_jwt.specs.Errors.{is_memory_token};
ghost use Rattle.spf_jwt.specs.Json.{list_of};
ghost use Rattle.spf_jwt.specs.Token.{alg_rule, aud_rule, exp_rule, header_rule, is_algorithm};
ghost use Rattle.spf_jwt.specs.Token.{kid_rule, sub_rule, text_rule, texts_rule, typ_rule};

use serde_json::Value;
use spf_api::JwtSvidError;
use spf_id::{SpiffeId, SpiffeIdError};
use spf_io::{List, OutOfMemory, Text};
use std::alloc::Global;

#[tactic(auto, unfolding(crate::specs::Token::is_algorithm))]
fn is_supported(algorithm: &str) -> bool
    ensures { result ≡ is_algorithm algorithm.now }
{
    matches!(
        algorithm,
        "RS256" | "RS384" | "RS512" | "ES256" | "ES384" | "ES512" | "PS256" | "PS384" | "PS512"
    )
}

fn check_algorithm(header: &Value) -> Result<(), JwtSvidError>
    ensures { result ≡ alg_rule (option_and_then as_str (get (codes "alg") (view header.now))) }
{
    match header.get("alg").and_then(Value::as_str) {
        Some(algorithm) if is_supported(algorithm) => Ok(()),
        _ => Err(JwtSvidError::UnsupportedAlg),
    }
}

fn check_type(header: &Value) -> Result<(), JwtSvidError>
    ensures { result ≡ typ_rule (get (codes "typ") (view header.now)) }
{
    let Some(typ) = header.get("typ") else {
        return Ok(());
    };
    match typ.as_str() {
        Some("JWT" | "JOSE") => Ok(()),
        _ => Err(JwtSvidError::InvalidTyp),
    }
}

fn key_id(alloc: Global, header: &Value) -> Result<Option<Text>, JwtSvidError>
    ensures { Gives is_memory_token (λ k. k) result
        (kid_rule (get (codes "kid") (view header.now))) }
{
    let Some(kid) = header.get("kid") else {
        return Ok(None);
    };
    match kid.as_str() {
        None => Err(JwtSvidError::InvalidKid),
        Some(kid) => Ok(Some(Text::copy_of(alloc, kid)?)),
    }
}

/// The key that a header names, or the first broken rule.
pub(crate) fn header_key_id(alloc: Global, header: &Value) -> Result<Option<Text>, JwtSvidError>
    ensures { Gives is_memory_token (λ k. k) result (header_rule (view header.now)) }
{
    check_algorithm(header)?;
    check_type(header)?;
    key_id(alloc, header)
}

/// The claim `sub`, a SPIFFE ID.
pub(crate) fn subject(alloc: Global, claims: &Value) -> Result<SpiffeId, JwtSvidError>
    ensures { Gives is_memory_token (λ id. id) result
        (sub_rule (get (codes "sub") (view claims.now))) }
{
    let Some(sub) = claims.get("sub") else {
        let claim = Text::copy_of(alloc, "sub")?;
        return Err(JwtSvidError::MissingClaim { claim });
    };
    match sub.as_str() {
        None => Err(JwtSvidError::InvalidSub(SpiffeIdError::WrongScheme)),
        Some(sub) => match SpiffeId::new(alloc, sub) {
            Ok(id) => Ok(id),
            Err(SpiffeIdError::OutOfMemory) => Err(JwtSvidError::OutOfMemory),
            Err(error) => Err(JwtSvidError::InvalidSub(error)),
        },
    }
}

/// The claim `exp`, in Unix seconds.
pub(crate) fn expiry(alloc: Global, claims: &Value) -> Result<i64, JwtSvidError>
    ensures { Gives is_memory_token (λ n. n) result
        (exp_rule (get (codes "exp") (view claims.now))) }
{
    let Some(exp) = claims.get("exp") else {
        let claim = Text::copy_of(alloc, "exp")?;
        return Err(JwtSvidError::MissingClaim { claim });
    };
    match exp.as_i64() {
        None => Err(JwtSvidError::InvalidExp),
        Some(exp) => Ok(exp),
    }
}

/// The claim `aud`, a text or a list of texts.
pub(crate) fn audience(alloc: Global, claims: &Value) -> Result<List<Text>, JwtSvidError>
    ensures { Gives is_memory_token (λ l. l) result
        (aud_rule (get (codes "aud") (view claims.now))) }
{
    let Some(aud) = claims.get("aud") else {
        let claim = Text::copy_of(alloc, "aud")?;
        return Err(JwtSvidError::MissingClaim { claim });
    };
    if let Some(text) = aud.as_str() {
        return Ok(one(alloc, text)?);
    }
    match aud.as_array() {
        None => Err(JwtSvidError::InvalidAud),
        Some(texts) => audiences(alloc, texts.as_slice()),
    }
}

fn one(alloc: Global, text: &str) -> Result<List<Text>, OutOfMemory>
    ensures { IfOk result (λ l. l ≡ text.now ∷ []) }
{
    let mut texts = Vec::with_capacity(alloc, 1)?;
    texts.push(Text::copy_of(alloc, text)?)?;
    Ok(List::new(texts))
}

/// The texts of a list that is not empty.
fn audiences(alloc: Global, texts: &[Value]) -> Result<List<Text>, JwtSvidError>
    ensures { Gives is_memory_token (λ l. l) result
        (texts_rule (list_of (items_view texts.now))) }
{
    if texts.is_empty() {
        return Err(JwtSvidError::InvalidAud);
    }
    let texts = texts_of(alloc, texts)?;
    Ok(List::new(texts))
}

fn audience_text(alloc: Global, value: &Value) -> Result<Text, JwtSvidError>
    ensures { Gives is_memory_token (λ t. t) result (text_rule (as_str (view value.now))) }
{
    match value.as_str() {
        None => Err(JwtSvidError::InvalidAud),
        Some(text) => Ok(Text::copy_of(alloc, text)?),
    }
}

fn texts_of(alloc: Global, values: &[Value]) -> Result<Vec<Text>, JwtSvidError>
    ensures { Gives is_memory_token (λ v. v.items) result
        (each (λ v. text_rule (as_str (view v))) values.now) }
{
    let mut texts = Vec::with_capacity(alloc, values.len())?;
    for value in values {
        let text = audience_text(alloc, value)?;
        texts.push(text)?;
    }
    Ok(texts)
}
