//! One key of a trust domain.

ghost use Rattle.std.specs.Prelude.{◌≡◌, IfOk, false};
ghost use Rattle.serde_json.specs.View.{view};
ghost use Rattle.serde_json.specs.Written.{has_float};
ghost use Rattle.spf_io.specs.Rule.{Gives, broken_as};
ghost use Rattle.spf_jwt.specs.Authority.{authority_of, key_rule};
ghost use Rattle.spf_jwt.specs.Errors.{is_memory_keys, of_any_kind};
ghost use Rattle.spf_jwt.specs.Json.{data_of, whole_rule};

use crate::json::{self, JsonFault};
use serde_json::Value;
use spf_api::{JsonError, JwtBundleError};
use spf_io::{OutOfMemory, Text};
use std::alloc::Global;
use std::marker::Model;

/// A key of a trust domain, a JSON Web Key with a key ID (RFC 7517 section 4).
#[derive(Debug, PartialEq, Eq, Drop)]
pub struct JwtAuthority {
    key_id: Text,
    jwk_json: Text,
}

impl Model for JwtAuthority {
    ghost use Rattle.spf_jwt.specs.Authority.{Authority};

    ghost Value = { Authority };

    ghost view = { λ a. record { key_id = a.key_id; jwk = a.jwk_json } };

    ghost inverse = { λ v. record { key_id = v.key_id; jwk_json = v.jwk } };
}

/// The value of a JSON text whose numbers are integers of 64 bits.
pub(crate) fn whole_value(alloc: Global, jwk: &[u8]) -> Result<Value, JwtBundleError>
    ensures gives { Gives is_memory_keys view (broken_as of_any_kind result)
        (whole_rule (data_of jwk.now)) }
    ensures whole { IfOk result (λ v. has_float (view v) ≡ false) }
{
    let value = match json::read(alloc, jwk) {
        Ok(value) => value,
        Err(JsonFault::Invalid(kind)) => {
            return Err(JwtBundleError::Json(JsonError::new(kind)));
        }
        Err(JsonFault::OutOfMemory) => return Err(JwtBundleError::OutOfMemory),
    };
    if json::holds_float(&value) {
        return Err(JwtBundleError::HoldsFloat);
    }
    Ok(value)
}

impl JwtAuthority {
    /// Returns the key that a JSON text is, or the first broken rule.
    pub fn from_jwk_json(alloc: Global, jwk: &[u8]) -> Result<JwtAuthority, JwtBundleError>
        ensures { Gives is_memory_keys (λ a. a) (broken_as of_any_kind result)
            (authority_of jwk.now) }
    {
        let value = whole_value(alloc, jwk)?;
        JwtAuthority::from_value(alloc, &value)
    }

    /// The key that a value is, or the first broken rule.
    #[tactic(auto, unfolding(crate::specs::Authority::key_rule))]
    pub(crate) fn from_value(alloc: Global, value: &Value) -> Result<JwtAuthority, JwtBundleError>
        requires whole { has_float (view value.now) ≡ false }
        ensures { Gives is_memory_keys (λ a. a) (broken_as of_any_kind result)
            (key_rule (view value.now)) }
    {
        if !value.is_object() {
            return Err(JwtBundleError::NotAnObject);
        }
        let key_id = match value.get("kid").and_then(Value::as_str) {
            None | Some("") => return Err(JwtBundleError::MissingKeyId),
            Some(key_id) => Text::copy_of(alloc, key_id)?,
        };
        let jwk_json = Text::new(value.to_string(alloc)?);
        Ok(JwtAuthority { key_id, jwk_json })
    }

    /// Returns a copy of the key.
    pub fn try_clone(&self, alloc: Global) -> Result<JwtAuthority, OutOfMemory>
        ensures { IfOk result (λ a. a ≡ self.now) }
    {
        Ok(JwtAuthority {
            key_id: self.key_id.try_clone(alloc)?,
            jwk_json: self.jwk_json.try_clone(alloc)?,
        })
    }

    /// Returns the `kid`, which is not empty.
    pub fn key_id(&self) -> &str
        ensures { result.now ≡ self.now.key_id }
    {
        self.key_id.as_str()
    }

    /// Returns the key as JSON without spaces, with the names of each object in order.
    pub fn jwk_json(&self) -> &[u8]
        ensures { result.now ≡ self.now.jwk }
    {
        self.jwk_json.as_str().as_bytes()
    }
}
