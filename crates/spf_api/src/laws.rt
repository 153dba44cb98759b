//! Laws of the definitions that contracts cite. No law has a body: its contract is its statement.

ghost use Rattle.std.specs.Prelude.{◌≡◌, ℕ, List, [], Option, Some};
ghost use Rattle.spf_x509.specs.Bundle.{Bundle, find_entry, with_bundles};
ghost use Rattle.spf_api.specs.declared.response.Response.{Response};
ghost use Rattle.spf_api.specs.declared.response.ResponseKind.{ResponseKind};
ghost use Rattle.spf_api.specs.Parsed.{last_for};
ghost use Rattle.spf_api.specs.Payload.{kind_of, Payload, IsRead};

/// What `write_payload` lays out is what `read_payload` finds.
pub fn written_is_read()
    ensures { (r : Response) (bytes : List ℕ) (found : Option Response)
        → Payload (kind_of r) bytes r → IsRead (kind_of r) bytes found → found ≡ Some r }
{}

/// The octets lay out at most one response of each kind.
pub fn one_reading()
    ensures { (kind : ResponseKind) (bytes : List ℕ) (r s : Response) → Payload kind bytes r
        → Payload kind bytes s → r ≡ s }
{}

/// A response has at most one payload.
pub fn one_writing()
    ensures { (kind : ResponseKind) (a b : List ℕ) (r : Response) → Payload kind a r
        → Payload kind b r → a ≡ b }
{}

/// A set gives a trust domain the last of the bundles that it was made from.
pub fn last_bundle_stands()
    ensures { (bundles : List Bundle) (domain : List ℕ)
        → find_entry domain (with_bundles [] bundles) ≡ last_for domain bundles }
{}
