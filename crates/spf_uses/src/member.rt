//! Reading a SPIFFE ID, and the reason why a text is not one.

ghost use Rattle.spf_io.specs.Rule.{Gives};
ghost use Rattle.spf_id.specs.Rule.{is_memory};
ghost use Rattle.spf_uses.specs.Rules.{member_rule};

use spf_id::{SpiffeId, SpiffeIdError, TrustDomain};
use std::alloc::Global;

/// Returns whether `text` is the ID of a member of `domain`. Where it is not an ID, the error says
/// which rule it breaks first.
pub fn is_member(alloc: Global, text: &str, domain: &TrustDomain) -> Result<bool, SpiffeIdError>
    ensures { Gives is_memory (λ is. is) result (member_rule text.now domain.now) }
{
    let id = SpiffeId::new(alloc, text)?;
    Ok(id.trust_domain() == domain)
}
