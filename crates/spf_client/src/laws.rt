//! Laws of the definitions that contracts cite. No law has a body: its contract is its statement.

ghost use Rattle.std.specs.Prelude.{List, ℕ};
ghost use Rattle.spf_x509.specs.Bundle.{Bundle};
ghost use Rattle.spf_x509.specs.Context.{Context};
ghost use Rattle.spf_x509.specs.Svid.{Svid};
ghost use Rattle.spf_api.specs.Parsed.{bundle_set_of, first_svid_of, parsed_of, svids_of};
ghost use Rattle.spf_client.specs.Causes.{RefusalsHaveCauses, vec_items};

use spf_api::Response;
use spf_link::Link;

/// A fetch returns NoIdentityIssued, PermissionDenied or a failure of the transport only where the
/// interceptor refused with the status that the error stands for, or where the count of refusals of
/// the link rose.
pub fn refusals_have_causes<L: Link>()
    ensures contexts { RefusalsHaveCauses L.Link Response.Context parsed_of (λ (c : Context). c) }
    ensures all_svids { RefusalsHaveCauses L.Link Response.Context svids_of vec_items }
    ensures svids { RefusalsHaveCauses L.Link Response.Context first_svid_of (λ (s : Svid). s) }
    ensures bundles { RefusalsHaveCauses L.Link Response.Bundles bundle_set_of
        (λ (b : List (List ℕ × Bundle)). b) }
{}
