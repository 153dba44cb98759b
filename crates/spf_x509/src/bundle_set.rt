//! The bundles of several trust domains.

ghost use Rattle.std.specs.Prelude.{◌≡◌, ◌↔◌, ◌==◌, [], IfOk, IsTrue, Some, OnErr, OnOk};
ghost use Rattle.std.specs.Prelude.{length};
ghost use Rattle.std.specs.Option.{option_map};
ghost use Rattle.std.specs.Arc.{arc_value};
ghost use Rattle.spf_x509.specs.Bundle.{HoldsFront, IsInDomainOrder, KeepsOthers, find_entry};
ghost use Rattle.spf_x509.specs.Bundle.{with_bundles, with_entry};
ghost use Rattle.spf_x509.specs.BundleRule.{ChangesNothing, IsIn};

use crate::bundle::X509Bundle;
use crate::bundle_map::{BundleMap, BundleMapIter};
use crate::source::BundleSource;
use spf_id::TrustDomain;
use spf_io::OutOfMemory;
use std::alloc::Global;
use std::marker::Model;
use std::sync::Arc;

/// At most one bundle for each trust domain, the last one added.
/// Contracts see the pairs in the order of the trust domains.
#[derive(Debug, Drop)]
pub struct X509BundleSet {
    bundles: BundleMap,
    alloc: Global,
}

impl Model for X509BundleSet {
    ghost use Rattle.std.specs.Prelude.{List, ℕ};
    ghost use Rattle.spf_x509.specs.Bundle.{Bundle};

    ghost Value = { List (List ℕ × Bundle) };

    ghost view = { λ s. s.bundles };
}

impl X509BundleSet {
    pub fn new(alloc: Global) -> X509BundleSet
        ensures { result ≡ [] }
    {
        X509BundleSet {
            bundles: BundleMap::new(alloc),
            alloc,
        }
    }

    /// Adds a bundle, which replaces the one of its trust domain.
    pub fn add_bundle(&mut self, bundle: X509Bundle) -> Result<(), OutOfMemory>
        ensures ok { OnOk result (self.new ≡ with_entry self.old bundle.domain bundle) }
        ensures found { OnOk result (find_entry bundle.domain self.new ≡ Some bundle) }
        ensures others { OnOk result (KeepsOthers bundle.domain self.old self.new) }
        ensures err { OnErr result (self.new ≡ self.old) }
    {
        let bundle = Arc::new(self.alloc, bundle)?;
        self.add_shared(bundle)
    }

    /// The same for a shared bundle.
    pub fn add_shared(&mut self, bundle: Arc<X509Bundle>) -> Result<(), OutOfMemory>
        ensures ok { OnOk result
            (self.new ≡ with_entry self.old (arc_value bundle).domain (arc_value bundle)) }
        ensures found { OnOk result
            (find_entry (arc_value bundle).domain self.new ≡ Some (arc_value bundle)) }
        ensures others { OnOk result (KeepsOthers (arc_value bundle).domain self.old self.new) }
        ensures err { OnErr result (self.new ≡ self.old) }
    {
        let trust_domain = bundle.trust_domain().try_clone(self.alloc)?;
        self.bundles.insert(self.alloc, trust_domain, bundle)
    }

    /// Returns whether the bundle of exactly that trust domain and those bytes is in the set, so
    /// that adding it would change nothing. It allocates nothing.
    pub fn holds_parsed(&self, trust_domain: &TrustDomain, der: &[u8]) -> bool
        ensures is_in { IsTrue result ↔ IsIn self.now trust_domain.now der.now }
        ensures unchanged { IsTrue result → ChangesNothing self.now trust_domain.now der.now }
    {
        match self.bundles.get(trust_domain) {
            Some(bundle) => bundle.is_parsed_from(trust_domain, der),
            None => false,
        }
    }

    /// Adds each bundle in order. After an error the set holds those before the one that failed.
    pub fn extend(&mut self, bundles: Vec<X509Bundle>) -> Result<(), OutOfMemory>
        ensures ok { OnOk result (self.new ≡ with_bundles self.old bundles.items) }
        ensures err { OnErr result (HoldsFront self.old bundles.items self.new) }
    {
        for bundle in bundles {
            self.add_bundle(bundle)?;
        }
        Ok(())
    }

    /// Returns the set of the bundles, where the last one of a trust domain counts.
    pub fn from_iter(alloc: Global, bundles: Vec<X509Bundle>) -> Result<X509BundleSet, OutOfMemory>
        ensures { IfOk result (λ s. s ≡ with_bundles [] bundles.items) }
    {
        let mut set = X509BundleSet::new(alloc);
        set.extend(bundles)?;
        Ok(set)
    }

    /// Returns a copy of the set, which shares its bundles.
    pub fn try_clone(&self, alloc: Global) -> Result<X509BundleSet, OutOfMemory>
        ensures { IfOk result (λ s. s ≡ self.now) }
    {
        let bundles = self.bundles.try_clone(alloc)?;
        Ok(X509BundleSet { bundles, alloc })
    }

    /// Returns a share of the bundle of that trust domain.
    pub fn get(&self, trust_domain: &TrustDomain) -> Result<Option<Arc<X509Bundle>>, OutOfMemory>
        ensures { IfOk result (λ o. option_map arc_value o ≡ find_entry trust_domain.now self.now) }
    {
        match self.get_ref(trust_domain) {
            None => Ok(None),
            Some(bundle) => Ok(Some(Arc::try_clone(bundle)?)),
        }
    }

    pub fn get_ref(&self, trust_domain: &TrustDomain) -> Option<&Arc<X509Bundle>>
        ensures { option_map (λ a. arc_value a.now) result ≡ find_entry trust_domain.now self.now }
    {
        self.bundles.get(trust_domain)
    }

    pub fn bundle_for(&self, trust_domain: &TrustDomain) -> Option<&Arc<X509Bundle>>
        ensures { option_map (λ a. arc_value a.now) result ≡ find_entry trust_domain.now self.now }
    {
        self.get_ref(trust_domain)
    }

    /// Returns the pairs of trust domain and bundle, in the order of the trust domains.
    #[inline]
    pub fn iter(&self) -> X509BundleIter<'_>
        ensures pairs { result ≡ self.now }
        ensures order { IsInDomainOrder self.now }
    {
        X509BundleIter {
            inner: self.bundles.iter(),
        }
    }

    pub fn len(&self) -> usize
        ensures { result ≡ length self.now }
    {
        self.bundles.len()
    }

    pub fn is_empty(&self) -> bool
        ensures { result ≡ (length self.now == 0) }
    {
        self.len() == 0
    }
}

impl BundleSource for X509BundleSet {
    type Item = X509Bundle;

    type Error = OutOfMemory;

    type Seen = ();

    ghost fits = { λ _ _. Unit {0} };

    ghost answers = { λ set _ domain bundle. bundle ≡ find_entry domain set };

    fn bundle_for_trust_domain(
        &self,
        _seen: &mut (),
        trust_domain: &TrustDomain,
    ) -> Result<Option<Arc<X509Bundle>>, OutOfMemory> {
        self.get(trust_domain)
    }
}

/// The pairs of a bundle set that are still to come, which contracts see as their list.
#[derive(Debug, Drop)]
pub struct X509BundleIter<'a> {
    inner: BundleMapIter<'a>,
}

impl<'a> Model for X509BundleIter<'a> {
    ghost use Rattle.std.specs.Prelude.{List, ℕ};
    ghost use Rattle.spf_x509.specs.Bundle.{Bundle};

    ghost Value = { List (List ℕ × Bundle) };

    ghost view = { λ i. i.inner };
}

impl<'a> Iterator for X509BundleIter<'a> {
    ghost use Rattle.std.specs.Arc.{arc_value};
    ghost use Rattle.std.specs.Iterator.{YieldsFirstBy, item_count};

    type Item = (&'a TrustDomain, &'a Arc<X509Bundle>);

    ghost next_gives = { YieldsFirstBy (λ p. (p.0.now, arc_value p.1.now)) (λ s. s) };

    ghost remaining = { item_count (λ s. s) };

    #[inline]
    fn next(&mut self) -> Option<(&'a TrustDomain, &'a Arc<X509Bundle>)> {
        self.inner.next()
    }
}

impl PartialEq for X509BundleSet {
    ghost use Rattle.spf_x509.specs.Bundle.{set_eq};
    ghost use Rattle.spf_x509.specs.Laws.{set_per};

    ghost eq = { set_eq };

    ghost laws = { set_per };

    fn eq(&self, other: &X509BundleSet) -> bool {
        self.bundles == other.bundles
    }
}

impl Eq for X509BundleSet {
    ghost use Rattle.spf_x509.specs.Laws.{set_equiv};

    ghost laws = { set_equiv };
}
