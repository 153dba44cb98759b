ghost use Rattle.std.specs.Prelude.{◌≡◌, IfOk, IsTrue, codes};
ghost use Rattle.std.specs.Str.{IsAscii};
ghost use Rattle.spf_io.specs.Rule.{Gives};
ghost use Rattle.spf_id.specs.Id.{id_text};
ghost use Rattle.spf_id.specs.Rule.{is_memory, id_rule, has_spiffe_scheme};

use crate::error::SpiffeIdError;
use crate::id_parts::parts;
use crate::trust_domain::TrustDomain;
use spf_io::{OutOfMemory, Text};
use std::alloc::Global;
use std::fmt;
use std::hash::{Hash, Hasher};
use std::marker::Model;

/// A SPIFFE ID, which contracts see as its trust domain and its
/// path. Its equality, order and hash are those of its text.
#[derive(Debug, PartialEq, Eq, PartialOrd, Ord, Drop)]
pub struct SpiffeId {
    text: Text,
    domain: TrustDomain,
}

impl Model for SpiffeId {
    ghost use Rattle.std.specs.Prelude.{◌+◌, drop, length};
    ghost use Rattle.spf_id.specs.Id.{Id, id_text};

    ghost Value = { Id };

    ghost use Rattle.spf_id.specs.Rule.{IsTextOf};

    ghost view = { λ a. record { domain = a.domain; path = drop (9 + length a.domain) a.text } };

    ghost invariant = { λ a.
        IsTextOf (record { domain = a.domain; path = drop (9 + length a.domain) a.text }) a.text };

    ghost inverse = { λ v. record { text = id_text v; domain = v.domain } };

    ghost use Rattle.std.proofs.Common.{sym};

    ghost inverse_ok = { λ a h. (λ i. record { text = sym h.text i; domain = a.domain }) };
}

/// Whether the octets are `spiffe:`, as they most often are.
#[inline(always)]
fn is_lower_case_scheme(octets: &[u8]) -> bool
    ensures { IsTrue result → octets.now ≡ codes "spiffe:" }
{
    matches!(octets, [b's', b'p', b'i', b'f', b'f', b'e', b':'])
}

/// Returns whether a URI begins with `spiffe:`, ignoring ASCII case.
#[tactic(auto, unfolding(crate::specs::Rule::has_spiffe_scheme))]
pub fn uri_has_spiffe_scheme(uri: &str) -> bool
    ensures { result ≡ has_spiffe_scheme uri.now }
{
    if uri.len() < 7 {
        return false;
    }
    let scheme = &uri.as_bytes()[..7];
    is_lower_case_scheme(scheme) || scheme.eq_ignore_ascii_case(b"spiffe:")
}

impl SpiffeId {
    /// Returns the ID that a text is, or the first broken rule.
    pub fn new(alloc: Global, text: &str) -> Result<SpiffeId, SpiffeIdError>
        ensures { Gives is_memory (λ id. id) result (id_rule text.now) }
    {
        SpiffeId::new_sharing(alloc, text, None)
    }

    /// The same as `new`, where a trust domain may be given that most often is that of the ID: the
    /// result then shares its name.
    pub fn new_sharing(
        alloc: Global,
        text: &str,
        known: Option<&TrustDomain>,
    ) -> Result<SpiffeId, SpiffeIdError>
        ensures { Gives is_memory (λ id. id) result (id_rule text.now) }
    {
        let (domain, _) = parts(text)?;
        let domain = TrustDomain::named(alloc, domain, known)?;
        let text = Text::copy_of(alloc, text)?;
        Ok(SpiffeId { text, domain })
    }

    /// The same as `new`.
    pub fn try_from(alloc: Global, text: &str) -> Result<SpiffeId, SpiffeIdError>
        ensures { Gives is_memory (λ id. id) result (id_rule text.now) }
    {
        SpiffeId::new(alloc, text)
    }

    /// The same as `new`.
    pub fn from_str(alloc: Global, text: &str) -> Result<SpiffeId, SpiffeIdError>
        ensures { Gives is_memory (λ id. id) result (id_rule text.now) }
    {
        SpiffeId::new(alloc, text)
    }

    pub fn trust_domain(&self) -> &TrustDomain
        ensures { result.now ≡ self.now.domain }
    {
        &self.domain
    }

    /// Returns the path, which is empty or begins with `/`.
    pub fn path(&self) -> &str
        ensures { result.now ≡ self.now.path }
    {
        self.text
            .as_str()
            .split_at(9 + self.domain.as_str().len())
            .1
    }

    pub fn as_str(&self) -> &str
        ensures text { result.now ≡ id_text self.now }
        ensures rule { id_rule result.now ≡ Ok self.now }
        ensures ascii { IsAscii result.now }
    {
        self.text.as_str()
    }

    /// Returns a copy of the ID.
    pub fn try_clone(&self, alloc: Global) -> Result<SpiffeId, OutOfMemory>
        ensures { IfOk result (λ id. id ≡ self.now) }
    {
        let text = self.text.try_clone(alloc)?;
        let domain = self.domain.try_clone(alloc)?;
        Ok(SpiffeId { text, domain })
    }
}

impl Hash for SpiffeId {
    ghost use Rattle.std.specs.Hash as fed;
    ghost use Rattle.std.specs.Cmp.Rules.{hashing};
    ghost use Rattle.std.proofs.Common.{rules};
    ghost use Rattle.spf_id.specs.Id.{id_text};

    ghost hash_input = { λ id. fed.str (id_text id) };

    ghost respects_eq = { Prim.search (hashing, rules) };

    fn hash<H: Hasher>(&self, state: &mut H) {
        self.text.hash(state);
    }
}

impl fmt::Display for SpiffeId {
    ghost use Rattle.std.specs.Prelude.{Some};
    ghost use Rattle.spf_id.specs.Id.{id_text};

    ghost output = { λ id. Some (id_text id) };

    fn fmt<W: fmt::Write>(&self, f: &mut fmt::Formatter<W>) -> fmt::Result {
        fmt::Display::fmt(self.text.as_str(), f)
    }
}
