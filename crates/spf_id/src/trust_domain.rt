ghost use Rattle.std.specs.Prelude.{◌≡◌, ◌↔◌, IfOk, IsTrue, MatchResult, Ok, codes, nat_eq};
ghost use Rattle.std.specs.Prelude.{string_bytes};
ghost use Rattle.std.specs.List.{starts_with};
ghost use Rattle.spf_io.specs.Rule.{Gives};
ghost use Rattle.spf_id.specs.Rule.{IsName, is_memory, holds_colon_slash, name_rule};

use crate::domain::check_domain;
use crate::error::SpiffeIdError;
use crate::id_parts::parts;
use crate::separator::cut;
use crate::shared::Shared;
use spf_io::{OutOfMemory, Text};
use std::alloc::Global;
use std::fmt;
use std::marker::Model;

/// The name of a trust domain, which contracts see as its bytes. Copies share it.
#[derive(Debug, PartialEq, Eq, PartialOrd, Ord, Hash, Drop)]
pub struct TrustDomain {
    name: Shared<Text>,
}

impl Model for TrustDomain {
    ghost use Rattle.std.specs.Prelude.{List, ℕ};

    ghost Value = { List ℕ };

    ghost view = { λ t. t.name };

    ghost use Rattle.spf_id.specs.Rule.{IsName};

    ghost invariant = { λ t. IsName t.name };

    ghost inverse = { λ s. record { name = s } };
}

fn begins_with_slash(octets: &[u8]) -> bool
    ensures { result ≡ starts_with nat_eq octets.now (codes "/") }
{
    matches!(octets, [b'/', ..])
}

/// Whether a text is to be read as an ID: it holds `:/`.
fn is_read_as_id(octets: &[u8]) -> bool
    ensures { result ≡ holds_colon_slash octets.now }
{
    let mut rest = octets;
    loop {
        let (_, after) = cut(b':', rest);
        match after {
            None => return false,
            Some(after) => {
                if begins_with_slash(after) {
                    return true;
                }
                rest = after;
            }
        }
    }
}

/// The name in a text, or the first broken rule.
#[tactic(auto, unfolding(crate::specs::Rule::name_rule))]
fn name_in(text: &str) -> Result<&str, SpiffeIdError>
    ensures { MatchResult result (λ name. name_rule text.now ≡ Ok name.now)
        (λ e. name_rule text.now ≡ Err e) }
{
    if is_read_as_id(text.as_bytes()) {
        let (domain, _) = parts(text)?;
        return Ok(domain);
    }
    if text.is_empty() {
        return Err(SpiffeIdError::Empty);
    }
    check_domain(text.as_bytes())?;
    Ok(text)
}

impl TrustDomain {
    /// Returns the trust domain that a text names. A text that holds `:/` is read as an ID, and its
    /// trust domain is taken.
    pub fn new(alloc: Global, text: &str) -> Result<TrustDomain, SpiffeIdError>
        ensures { Gives is_memory (λ t. t) result (name_rule text.now) }
    {
        let name = name_in(text)?;
        Ok(TrustDomain::copy_of(alloc, name)?)
    }

    /// The same as `new`.
    pub fn try_from(alloc: Global, text: &str) -> Result<TrustDomain, SpiffeIdError>
        ensures { Gives is_memory (λ t. t) result (name_rule text.now) }
    {
        TrustDomain::new(alloc, text)
    }

    /// The same as `new`.
    pub fn from_str(alloc: Global, text: &str) -> Result<TrustDomain, SpiffeIdError>
        ensures { Gives is_memory (λ t. t) result (name_rule text.now) }
    {
        TrustDomain::new(alloc, text)
    }

    /// The same as `new`, keeping the text where it is the name.
    #[tactic(auto, unfolding(crate::specs::Rule::name_rule))]
    pub fn try_from_owned(alloc: Global, text: String) -> Result<TrustDomain, SpiffeIdError>
        ensures { Gives is_memory (λ t. t) result (name_rule (string_bytes text)) }
    {
        if text.is_empty() || is_read_as_id(text.as_bytes()) {
            return TrustDomain::new(alloc, text.as_str());
        }
        check_domain(text.as_bytes())?;
        Ok(TrustDomain {
            name: Shared::new(alloc, Text::new(text))?,
        })
    }

    /// The trust domain of a name that is known to be one.
    pub(crate) fn copy_of(alloc: Global, name: &str) -> Result<TrustDomain, OutOfMemory>
        requires { IsName name.now }
        ensures { IfOk result (λ t. t ≡ name.now) }
    {
        let name = Shared::new(alloc, Text::copy_of(alloc, name)?)?;
        Ok(TrustDomain { name })
    }

    /// The same, which shares the name of a trust domain that is given, where it is the same.
    pub(crate) fn named(
        alloc: Global,
        name: &str,
        known: Option<&TrustDomain>,
    ) -> Result<TrustDomain, OutOfMemory>
        requires { IsName name.now }
        ensures { IfOk result (λ t. t ≡ name.now) }
    {
        match known {
            Some(known) if known.is_named(name) => known.try_clone(alloc),
            _ => TrustDomain::copy_of(alloc, name),
        }
    }

    pub fn as_str(&self) -> &str
        ensures { result.now ≡ self.now }
    {
        self.name.get().as_str()
    }

    /// Returns whether the text is the name, so that it names this trust domain.
    #[inline]
    pub fn is_named(&self, text: &str) -> bool
        ensures same { IsTrue result ↔ (text.now ≡ self.now) }
        ensures rule { IsTrue result → name_rule text.now ≡ Ok self.now }
    {
        self.name.get().as_str() == text
    }

    /// Returns a copy of the trust domain, which shares its name. The allocator is not used.
    pub fn try_clone(&self, _alloc: Global) -> Result<TrustDomain, OutOfMemory>
        ensures { IfOk result (λ t. t ≡ self.now) }
    {
        let name = self.name.try_clone()?;
        Ok(TrustDomain { name })
    }
}

impl fmt::Display for TrustDomain {
    ghost use Rattle.std.specs.Prelude.{Some};

    ghost output = { λ t. Some t };

    fn fmt<W: fmt::Write>(&self, f: &mut fmt::Formatter<W>) -> fmt::Result {
        fmt::Display::fmt(self.as_str(), f)
    }
}
