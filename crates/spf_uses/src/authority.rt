//! Looking a bundle up by its trust domain.

ghost use Rattle.std.specs.Prelude.{◌≡◌, []};
ghost use Rattle.std.specs.Option.{option_map_or};
ghost use Rattle.spf_x509.specs.Bundle.{find_entry};

use spf_id::TrustDomain;
use spf_x509::{Certificate, X509BundleSet};

/// Returns the authorities that a peer of `domain` is checked against; none where there is no
/// bundle of that trust domain.
pub fn authorities_for<'a>(bundles: &'a X509BundleSet, domain: &TrustDomain) -> &'a [Certificate]
    ensures { result.now
        ≡ option_map_or (λ bundle. bundle.authorities) (find_entry domain.now bundles.now) [] }
{
    match bundles.bundle_for(domain) {
        Some(bundle) => bundle.authorities(),
        None => &[],
    }
}
