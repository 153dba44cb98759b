//! A JWT SVID: an identity and the token that names it.

ghost use Rattle.std.specs.Prelude.{◌≡◌, IfOk, Some};
ghost use Rattle.std.specs.Option.{option_map};
ghost use Rattle.serde_json.specs.View.{view};
ghost use Rattle.spf_io.specs.Rule.{Gives, broken_as};
ghost use Rattle.spf_jwt.specs.Errors.{claims_of, header_of, is_memory_token};
ghost use Rattle.spf_jwt.specs.Token.{claims_rule, header_key_rule, part_rule, token_rule};

use crate::claims::{audience, expiry, header_key_id, subject};
use crate::token::{self, PartFault};
use serde_json::Value;
use spf_api::{JwtSvidError, SecretLength};
use spf_id::SpiffeId;
use spf_io::{List, OutOfMemory, Text};
use std::alloc::Global;
use std::fmt;
use std::marker::Model;

/// A JWT SVID (SPIFFE JWT-SVID sections 2 and 3). Its signature is not checked. Debug output shows
/// only the length of its token.
#[derive(PartialEq, Eq, Drop)]
pub struct JwtSvid {
    spiffe_id: SpiffeId,
    audience: List<Text>,
    expiry: i64,
    token: Text,
    key_id: Option<Text>,
    hint: Option<Text>,
}

impl Model for JwtSvid {
    ghost use Rattle.spf_jwt.specs.Token.{Svid};

    ghost Value = { Svid };

    ghost view = { λ s. record {
      id = s.spiffe_id;
      audience = s.audience;
      expiry = s.expiry;
      token = s.token;
      key_id = s.key_id;
      hint = s.hint;
    } };

    ghost inverse = { λ v. record {
      spiffe_id = v.id;
      audience = v.audience;
      expiry = v.expiry;
      token = v.token;
      key_id = v.key_id;
      hint = v.hint;
    } };
}

impl fmt::Debug for JwtSvid {
    fn fmt<W: fmt::Write>(&self, f: &mut fmt::Formatter<W>) -> fmt::Result {
        f.debug_struct("JwtSvid")
            .field("spiffe_id", &self.spiffe_id)
            .field("audience", &self.audience)
            .field("expiry", &self.expiry)
            .field("token", &SecretLength(self.token.as_str().len()))
            .field("key_id", &self.key_id)
            .field("hint", &self.hint)
            .finish()
    }
}

fn header_object(alloc: Global, part: &str) -> Result<Value, JwtSvidError>
    ensures { Gives is_memory_token view result (broken_as header_of (part_rule part.now)) }
{
    match token::object(alloc, part) {
        Ok(header) => Ok(header),
        Err(PartFault::NoObject) => Err(JwtSvidError::HeaderText),
        Err(PartFault::HoldsFloat) => Err(JwtSvidError::HeaderFloat),
        Err(PartFault::OutOfMemory) => Err(JwtSvidError::OutOfMemory),
    }
}

fn claims_object(alloc: Global, part: &str) -> Result<Value, JwtSvidError>
    ensures { Gives is_memory_token view result (broken_as claims_of (part_rule part.now)) }
{
    match token::object(alloc, part) {
        Ok(claims) => Ok(claims),
        Err(PartFault::NoObject) => Err(JwtSvidError::ClaimsText),
        Err(PartFault::HoldsFloat) => Err(JwtSvidError::ClaimsFloat),
        Err(PartFault::OutOfMemory) => Err(JwtSvidError::OutOfMemory),
    }
}

/// The key that the header in a part names.
fn named_key(alloc: Global, part: &str) -> Result<Option<Text>, JwtSvidError>
    ensures { Gives is_memory_token (λ k. k) result
        (header_key_rule part.now) }
{
    let header = header_object(alloc, part)?;
    header_key_id(alloc, &header)
}

fn copy(alloc: Global, text: &Option<Text>) -> Result<Option<Text>, OutOfMemory>
    ensures { IfOk result (λ t. t ≡ text.now) }
{
    match text {
        None => Ok(None),
        Some(text) => Ok(Some(text.try_clone(alloc)?)),
    }
}

fn copies(alloc: Global, texts: &[Text]) -> Result<List<Text>, OutOfMemory>
    ensures { IfOk result (λ l. l ≡ texts.now) }
{
    let mut copies = Vec::with_capacity(alloc, texts.len())?;
    for text in texts {
        copies.push(text.try_clone(alloc)?)?;
    }
    Ok(List::new(copies))
}

impl JwtSvid {
    /// Returns what a token says, or the first broken rule. Its signature is not checked.
    #[tactic(auto, unfolding(crate::specs::Token::token_rule))]
    pub fn parse_insecure(alloc: Global, token: &str) -> Result<JwtSvid, JwtSvidError>
        ensures { Gives is_memory_token (λ s. s) result (token_rule token.now) }
    {
        let (header, claims) = token::parts(token)?;
        let key_id = named_key(alloc, header)?;
        let claims = claims_object(alloc, claims)?;
        let token = Text::copy_of(alloc, token)?;
        JwtSvid::of_claims(alloc, token, key_id, &claims)
    }

    fn of_claims(
        alloc: Global,
        token: Text,
        key_id: Option<Text>,
        claims: &Value,
    ) -> Result<JwtSvid, JwtSvidError>
        ensures { Gives is_memory_token (λ s. s) result
            (claims_rule token key_id (view claims.now)) }
    {
        let spiffe_id = subject(alloc, claims)?;
        let audience = audience(alloc, claims)?;
        let expiry = expiry(alloc, claims)?;
        Ok(JwtSvid {
            spiffe_id,
            audience,
            expiry,
            token,
            key_id,
            hint: None,
        })
    }

    /// The same as `parse_insecure`, for a token that the Workload API gave.
    pub fn from_workload_api_token(alloc: Global, token: &str) -> Result<JwtSvid, JwtSvidError>
        ensures { Gives is_memory_token (λ s. s) result (token_rule token.now) }
    {
        JwtSvid::parse_insecure(alloc, token)
    }

    /// The same as `parse_insecure`.
    pub fn from_str(alloc: Global, token: &str) -> Result<JwtSvid, JwtSvidError>
        ensures { Gives is_memory_token (λ s. s) result (token_rule token.now) }
    {
        JwtSvid::parse_insecure(alloc, token)
    }

    /// The same SVID with that hint.
    pub fn with_hint(self, hint: Text) -> JwtSvid
        ensures { result ≡ record self { hint = Some hint } }
    {
        self.hinted(Some(hint))
    }

    /// The same SVID with that hint, or with none.
    pub(crate) fn hinted(self, hint: Option<Text>) -> JwtSvid
        ensures { result ≡ record self { hint = hint } }
    {
        JwtSvid { hint, ..self }
    }

    /// Returns a copy of the SVID.
    pub fn try_clone(&self, alloc: Global) -> Result<JwtSvid, OutOfMemory>
        ensures { IfOk result (λ s. s ≡ self.now) }
    {
        Ok(JwtSvid {
            spiffe_id: self.spiffe_id.try_clone(alloc)?,
            audience: copies(alloc, self.audience.as_slice())?,
            expiry: self.expiry,
            token: self.token.try_clone(alloc)?,
            key_id: copy(alloc, &self.key_id)?,
            hint: copy(alloc, &self.hint)?,
        })
    }

    pub fn spiffe_id(&self) -> &SpiffeId
        ensures { result.now ≡ self.now.id }
    {
        &self.spiffe_id
    }

    /// Returns the audience of the token, which is not empty.
    pub fn audience(&self) -> &[Text]
        ensures { result.now ≡ self.now.audience }
    {
        self.audience.as_slice()
    }

    /// Returns when the token expires, in Unix seconds.
    pub fn expiry(&self) -> i64
        ensures { result ≡ self.now.expiry }
    {
        self.expiry
    }

    pub fn token(&self) -> &str
        ensures { result.now ≡ self.now.token }
    {
        self.token.as_str()
    }

    /// Returns the key that the header names.
    pub fn key_id(&self) -> Option<&str>
        ensures { option_map (λ t. t.now) result ≡ self.now.key_id }
    {
        match &self.key_id {
            None => None,
            Some(key_id) => Some(key_id.as_str()),
        }
    }

    /// Returns what the identity is meant for, as the operator says.
    pub fn hint(&self) -> Option<&str>
        ensures { option_map (λ t. t.now) result ≡ self.now.hint }
    {
        match &self.hint {
            None => None,
            Some(hint) => Some(hint.as_str()),
        }
    }
}
