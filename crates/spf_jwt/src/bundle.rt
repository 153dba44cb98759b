//! The keys of one trust domain.

ghost use Rattle.std.specs.Prelude.{◌≡◌, [], false, codes, map, option_and_then, IsTrue, Ok, OnErr};
ghost use Rattle.std.specs.Prelude.{OnOk, Some};
ghost use Rattle.std.specs.Option.{option_map};
ghost use Rattle.serde_json.specs.Find.{as_array, get};
ghost use Rattle.serde_json.specs.View.{view, items_view};
ghost use Rattle.serde_json.specs.Written.{has_float, items_have_float};
ghost use Rattle.spf_io.specs.Rule.{Gives, broken_as, each};
ghost use Rattle.spf_jwt.specs.Authority.{key_rule, key_set_of, keys_rule};
ghost use Rattle.spf_jwt.specs.Bundle.{bundle_of, with_authorities};
ghost use Rattle.spf_x509.specs.Bundle.{find_entry, with_entry};
ghost use Rattle.spf_jwt.specs.Entries.{IsInOrder, KeepsOthers};
ghost use Rattle.spf_jwt.specs.Errors.{is_memory_keys, of_any_kind};

use crate::authority::{JwtAuthority, whole_value};
use serde_json::Value;
use spf_api::JwtBundleError;
use spf_id::TrustDomain;
use spf_io::{Bytes, OutOfMemory};
use std::alloc::Global;
use std::collections::{BTreeMap, btree_map};
use std::marker::Model;

/// A trust domain and its keys by `kid`; of keys with the same `kid` the last one counts (SPIFFE
/// Trust Domain and Bundle section 4). Contracts see them in the order of the `kid`.
#[derive(Debug, Drop)]
pub struct JwtBundle {
    trust_domain: TrustDomain,
    authorities: BTreeMap<String, JwtAuthority>,
    /// The key set that the bundle was read from, where it is kept.
    jwks: Option<Bytes>,
    alloc: Global,
}

impl Model for JwtBundle {
    ghost use Rattle.std.specs.Prelude.{map};
    ghost use Rattle.spf_jwt.specs.Bundle.{Bundle, keyed};

    ghost Value = { Bundle };

    ghost view = { λ b. record {
      domain = b.trust_domain;
      authorities = map keyed b.authorities.entries;
    } };

    ghost use Rattle.spf_jwt.specs.Bundle.{IsReadFrom};

    ghost invariant = { λ b.
        IsReadFrom b.jwks (record {
          domain = b.trust_domain;
          authorities = map keyed b.authorities.entries;
        }) };
}

impl JwtBundle {
    /// Returns a bundle without keys.
    pub fn new(alloc: Global, trust_domain: TrustDomain) -> JwtBundle
        ensures { result ≡ record { domain = trust_domain; authorities = [] } }
    {
        JwtBundle {
            trust_domain,
            authorities: BTreeMap::new(alloc),
            jwks: None,
            alloc,
        }
    }

    /// Returns the bundle of a key set (RFC 7517 section 5).
    pub fn from_jwt_authorities(
        alloc: Global,
        trust_domain: TrustDomain,
        jwks: &[u8],
    ) -> Result<JwtBundle, JwtBundleError>
        ensures { Gives is_memory_keys (λ b. b) (broken_as of_any_kind result)
            (bundle_of trust_domain (key_set_of jwks.now)) }
    {
        let value = whole_value(alloc, jwks)?;
        let authorities = authorities_in(alloc, &value)?;
        let mut bundle = JwtBundle::new(alloc, trust_domain);
        bundle.add_all(authorities)?;
        Ok(bundle)
    }

    /// The same, keeping the key set.
    pub fn from_jwt_authorities_owned(
        alloc: Global,
        trust_domain: TrustDomain,
        jwks: Bytes,
    ) -> Result<JwtBundle, JwtBundleError>
        ensures { Gives is_memory_keys (λ b. b) (broken_as of_any_kind result)
            (bundle_of trust_domain (key_set_of jwks)) }
    {
        let mut bundle = JwtBundle::from_jwt_authorities(alloc, trust_domain, jwks.as_slice())?;
        bundle.jwks = Some(jwks);
        Ok(bundle)
    }

    /// Returns whether this is the bundle of that trust domain, and keeps exactly these bytes as
    /// its key set. It allocates nothing.
    pub fn is_parsed_from(&self, trust_domain: &TrustDomain, jwks: &[u8]) -> bool
        ensures { IsTrue result
            → bundle_of trust_domain.now (key_set_of jwks.now) ≡ Ok self.now }
    {
        match &self.jwks {
            Some(kept) => *trust_domain == self.trust_domain && kept.as_slice() == jwks,
            None => false,
        }
    }

    /// Adds a key, which replaces the one with the same `kid`.
    pub fn add_jwt_authority(&mut self, authority: JwtAuthority) -> Result<(), OutOfMemory>
        ensures ok { OnOk result (self.new ≡ record {
          domain = self.old.domain;
          authorities = with_entry self.old.authorities authority.key_id authority;
        }) }
        ensures found { OnOk result
            (find_entry authority.key_id self.new.authorities ≡ Some authority) }
        ensures others { OnOk result
            (KeepsOthers authority.key_id self.old.authorities self.new.authorities) }
        ensures err { OnErr result (self.new ≡ self.old) }
    {
        let key_id = String::from_str(self.alloc, authority.key_id())?;
        self.jwks = None;
        self.authorities.insert(key_id, authority)?;
        Ok(())
    }

    /// Adds each key in order.
    fn add_all(&mut self, authorities: Vec<JwtAuthority>) -> Result<(), OutOfMemory>
        ensures ok { OnOk result (self.new ≡ record {
          domain = self.old.domain;
          authorities = with_authorities self.old.authorities authorities.items;
        }) }
    {
        for authority in authorities {
            self.add_jwt_authority(authority)?;
        }
        Ok(())
    }

    /// Returns the key with that `kid`.
    pub fn find_jwt_authority(&self, key_id: &str) -> Option<&JwtAuthority>
        ensures { option_map (λ a. a.now) result ≡ find_entry key_id.now self.now.authorities }
    {
        self.authorities.get(key_id)
    }

    /// Returns the keys in the order of their `kid`.
    pub fn jwt_authorities(&self) -> JwtAuthorityIter<'_>
        ensures keys { result ≡ map (λ e. e.1) self.now.authorities }
        ensures order { IsInOrder self.now.authorities }
    {
        JwtAuthorityIter {
            inner: self.authorities.values(),
        }
    }

    pub fn trust_domain(&self) -> &TrustDomain
        ensures { result.now ≡ self.now.domain }
    {
        &self.trust_domain
    }
}

/// The keys of a key set, or the first broken rule.
#[tactic(auto, unfolding(crate::specs::Authority::keys_rule))]
fn authorities_in(alloc: Global, value: &Value) -> Result<Vec<JwtAuthority>, JwtBundleError>
    requires whole { has_float (view value.now) ≡ false }
    ensures { Gives is_memory_keys (λ v. v.items) (broken_as of_any_kind result)
        (keys_rule (view value.now)) }
{
    let Some(keys) = keys_in(value) else {
        return Err(JwtBundleError::MissingKeys);
    };
    authorities_of(alloc, keys)
}

/// The array `keys` of an object.
fn keys_in(value: &Value) -> Option<&[Value]>
    ensures { option_map (λ v. items_view v.now) result
        ≡ option_and_then as_array (get (codes "keys") (view value.now)) }
{
    Some(value.get("keys")?.as_array()?.as_slice())
}

/// The keys that values are, in order, or the first broken rule.
fn authorities_of(alloc: Global, keys: &[Value]) -> Result<Vec<JwtAuthority>, JwtBundleError>
    requires whole { items_have_float (items_view keys.now) ≡ false }
    ensures { Gives is_memory_keys (λ v. v.items) (broken_as of_any_kind result)
        (each (λ v. key_rule (view v)) keys.now) }
{
    let mut authorities = Vec::new(alloc);
    for key in keys {
        let authority = JwtAuthority::from_value(alloc, key)?;
        authorities.push(authority)?;
    }
    Ok(authorities)
}

/// The keys of a bundle that are still to come, which contracts see as their list.
#[derive(Debug, Drop)]
pub struct JwtAuthorityIter<'a> {
    inner: btree_map::Values<'a, String, JwtAuthority>,
}

impl<'a> Model for JwtAuthorityIter<'a> {
    ghost use Rattle.std.specs.Prelude.{List};
    ghost use Rattle.spf_jwt.specs.Authority.{Authority};

    ghost Value = { List Authority };

    ghost view = { λ i. i.inner };
}

impl<'a> Iterator for JwtAuthorityIter<'a> {
    ghost use Rattle.std.specs.Iterator.{YieldsFirstBy, item_count};

    type Item = &'a JwtAuthority;

    ghost next_gives = { YieldsFirstBy (λ a. a.now) (λ s. s) };

    ghost remaining = { item_count (λ s. s) };

    fn next(&mut self) -> Option<&'a JwtAuthority> {
        self.inner.next()
    }
}

impl PartialEq for JwtBundle {
    ghost use Rattle.spf_jwt.specs.Bundle.{bundle_eq};
    ghost use Rattle.spf_jwt.specs.Laws.{bundle_per};

    ghost eq = { bundle_eq };

    ghost laws = { bundle_per };

    fn eq(&self, other: &JwtBundle) -> bool {
        self.trust_domain == other.trust_domain && self.authorities == other.authorities
    }
}

impl Eq for JwtBundle {
    ghost use Rattle.spf_jwt.specs.Laws.{bundle_equiv};

    ghost laws = { bundle_equiv };
}
