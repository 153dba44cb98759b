//! Laws of the definitions that contracts cite. No law has a body: its contract is its statement.

ghost use Rattle.std.specs.Prelude.{List, ℕ};
ghost use Rattle.spf_client.specs.Causes.{RefusalsHaveCauses, vec_items};
ghost use Rattle.spf_jwt.specs.Bundle.{Bundle};
ghost use Rattle.spf_jwt.specs.Responses.{jwt_bundle_set_of, jwt_svids_of};
ghost use Rattle.spf_jwt.specs.Selected.{first_jwt_svid_of, first_token_of, hinted_jwt_svid_of};
ghost use Rattle.spf_jwt.specs.Selected.{validated_svid_of};
ghost use Rattle.spf_jwt.specs.Token.{Svid};

use spf_api::Response;
use spf_link::Link;

/// A fetch returns NoIdentityIssued, PermissionDenied or a failure of the transport only where the
/// interceptor refused with the status that the error stands for, or where the count of refusals of
/// the link rose.
pub fn jwt_refusals_have_causes<L: Link>()
    ensures svids { RefusalsHaveCauses L.Link Response.JwtSvids first_jwt_svid_of
        (λ (s : Svid). s) }
    ensures all_svids { RefusalsHaveCauses L.Link Response.JwtSvids jwt_svids_of vec_items }
    ensures hinted { (hint : List ℕ) → RefusalsHaveCauses L.Link Response.JwtSvids
        (hinted_jwt_svid_of hint) (λ (s : Svid). s) }
    ensures tokens { RefusalsHaveCauses L.Link Response.JwtSvids first_token_of
        (λ (t : List ℕ). t) }
    ensures validated { (token : List ℕ) → RefusalsHaveCauses L.Link Response.Validation
        (validated_svid_of token) (λ (s : Svid). s) }
    ensures bundles { RefusalsHaveCauses L.Link Response.JwtBundles jwt_bundle_set_of
        (λ (b : List (List ℕ × Bundle)). b) }
{}
