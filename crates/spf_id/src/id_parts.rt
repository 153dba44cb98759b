//! The parts of the text of a SPIFFE ID.

ghost use Rattle.std.specs.Prelude.{◌≡◌, drop, length, MatchResult};
ghost use Rattle.std.specs.List.{before_first, slice_split};
ghost use Rattle.spf_id.specs.Id.{Id};
ghost use Rattle.spf_id.specs.Rule.{is_slash, parts_rule, id_rule};

use crate::domain::check_domain;
use crate::error::SpiffeIdError;
use crate::path::check_path;
use memchr::memchr;

/// What stands before the first slash, and the rest, which is empty or begins with it.
fn halves(text: &str) -> (&str, &str)
    ensures domain { result.0.now ≡ before_first is_slash text.now }
    ensures path { result.1.now ≡ drop (length (before_first is_slash text.now)) text.now }
{
    match memchr(b'/', text.as_bytes()) {
        None => (text, ""),
        Some(at) => text.split_at(at),
    }
}

/// The trust domain and the path in what follows the scheme, or the first broken rule.
#[tactic(auto, using(crate::proofs::Parts::parts_by_halves))]
fn parts_after_scheme(rest: &str) -> Result<(&str, &str), SpiffeIdError>
    ensures { MatchResult result
        (λ p. parts_rule (slice_split is_slash rest.now)
        ≡ Ok (record { domain = p.0.now; path = p.1.now }))
        (λ e. parts_rule (slice_split is_slash rest.now) ≡ Err e) }
{
    let (domain, path) = halves(rest);
    if domain.is_empty() {
        return Err(SpiffeIdError::MissingTrustDomain);
    }
    check_domain(domain.as_bytes())?;
    check_path(path.as_bytes())?;
    Ok((domain, path))
}

/// The trust domain and the path of an ID, or the first broken rule.
#[tactic(auto, unfolding(crate::specs::Rule::id_rule))]
pub(crate) fn parts(text: &str) -> Result<(&str, &str), SpiffeIdError>
    ensures { MatchResult result
        (λ p. id_rule text.now ≡ Ok (record { domain = p.0.now; path = p.1.now }))
        (λ e. id_rule text.now ≡ Err e) }
{
    if text.is_empty() {
        return Err(SpiffeIdError::Empty);
    }
    if text.len() > 2048 {
        return Err(SpiffeIdError::TooLong);
    }
    match text.strip_prefix("spiffe://") {
        None => Err(SpiffeIdError::WrongScheme),
        Some(rest) => parts_after_scheme(rest),
    }
}
