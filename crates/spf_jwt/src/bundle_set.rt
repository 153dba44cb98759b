//! The bundles of several trust domains.

ghost use Rattle.std.specs.Prelude.{◌≡◌, ◌==◌, [], IfOk, Some, OnErr, OnOk, length};
ghost use Rattle.std.specs.Option.{option_map};
ghost use Rattle.std.specs.Arc.{arc_value};
ghost use Rattle.spf_x509.specs.Bundle.{find_entry, with_entry};
ghost use Rattle.spf_jwt.specs.Responses.{with_bundles};
ghost use Rattle.spf_jwt.specs.Entries.{IsInOrder, KeepsOthers};

use crate::bundle::JwtBundle;
use spf_id::TrustDomain;
use spf_io::OutOfMemory;
use spf_x509::BundleSource;
use std::alloc::Global;
use std::collections::{BTreeMap, btree_map};
use std::marker::Model;
use std::sync::Arc;

/// At most one bundle for each trust domain, the last one added.
/// Contracts see the pairs in the order of the trust domains.
#[derive(Debug, Drop)]
pub struct JwtBundleSet {
    bundles: BTreeMap<TrustDomain, Arc<JwtBundle>>,
    alloc: Global,
}

impl Model for JwtBundleSet {
    ghost use Rattle.std.specs.Prelude.{List, ℕ, map};
    ghost use Rattle.spf_jwt.specs.Bundle.{Bundle, plain_entry};

    ghost Value = { List (List ℕ × Bundle) };

    ghost view = { λ s. map plain_entry s.bundles.entries };
}

impl JwtBundleSet {
    pub fn new(alloc: Global) -> JwtBundleSet
        ensures { result ≡ [] }
    {
        JwtBundleSet {
            bundles: BTreeMap::new(alloc),
            alloc,
        }
    }

    /// Adds a bundle, which replaces the one of its trust domain.
    pub fn add_bundle(&mut self, bundle: JwtBundle) -> Result<(), OutOfMemory>
        ensures ok { OnOk result (self.new ≡ with_entry self.old bundle.domain bundle) }
        ensures found { OnOk result (find_entry bundle.domain self.new ≡ Some bundle) }
        ensures others { OnOk result (KeepsOthers bundle.domain self.old self.new) }
        ensures err { OnErr result (self.new ≡ self.old) }
    {
        let bundle = Arc::new(self.alloc, bundle)?;
        self.add_shared(bundle)
    }

    /// The same for a shared bundle.
    pub fn add_shared(&mut self, bundle: Arc<JwtBundle>) -> Result<(), OutOfMemory>
        ensures ok { OnOk result
            (self.new ≡ with_entry self.old (arc_value bundle).domain (arc_value bundle)) }
        ensures found { OnOk result
            (find_entry (arc_value bundle).domain self.new ≡ Some (arc_value bundle)) }
        ensures others { OnOk result (KeepsOthers (arc_value bundle).domain self.old self.new) }
        ensures err { OnErr result (self.new ≡ self.old) }
    {
        let trust_domain = bundle.trust_domain().try_clone(self.alloc)?;
        self.bundles.insert(trust_domain, bundle)?;
        Ok(())
    }

    /// Adds each bundle in order.
    pub(crate) fn extend(&mut self, bundles: Vec<JwtBundle>) -> Result<(), OutOfMemory>
        ensures ok { OnOk result (self.new ≡ with_bundles self.old bundles.items) }
    {
        for bundle in bundles {
            self.add_bundle(bundle)?;
        }
        Ok(())
    }

    /// Returns a share of the bundle of that trust domain.
    pub fn get(&self, trust_domain: &TrustDomain) -> Result<Option<Arc<JwtBundle>>, OutOfMemory>
        ensures { IfOk result (λ o. option_map arc_value o ≡ find_entry trust_domain.now self.now) }
    {
        match self.get_ref(trust_domain) {
            None => Ok(None),
            Some(bundle) => Ok(Some(Arc::try_clone(bundle)?)),
        }
    }

    pub fn get_ref(&self, trust_domain: &TrustDomain) -> Option<&Arc<JwtBundle>>
        ensures { option_map (λ a. arc_value a.now) result ≡ find_entry trust_domain.now self.now }
    {
        self.bundles.get(trust_domain)
    }

    /// Returns the pairs of trust domain and bundle, in the order of the trust domains.
    pub fn iter(&self) -> JwtBundleIter<'_>
        ensures pairs { result ≡ self.now }
        ensures order { IsInOrder self.now }
    {
        JwtBundleIter {
            inner: self.bundles.iter(),
        }
    }

    pub fn len(&self) -> usize
        ensures { result ≡ length self.now }
    {
        self.bundles.len()
    }

    pub fn is_empty(&self) -> bool
        ensures { result ≡ (length self.now == 0) }
    {
        self.len() == 0
    }
}

impl BundleSource for JwtBundleSet {
    type Item = JwtBundle;

    type Error = OutOfMemory;

    type Seen = ();

    ghost fits = { λ _ _. Unit {0} };

    ghost answers = { λ set _ domain bundle. bundle ≡ find_entry domain set };

    fn bundle_for_trust_domain(
        &self,
        _seen: &mut (),
        trust_domain: &TrustDomain,
    ) -> Result<Option<Arc<JwtBundle>>, OutOfMemory> {
        self.get(trust_domain)
    }
}

/// The pairs of a bundle set that are still to come, which contracts see as their list.
#[derive(Debug, Drop)]
pub struct JwtBundleIter<'a> {
    inner: btree_map::Iter<'a, TrustDomain, Arc<JwtBundle>>,
}

impl<'a> Model for JwtBundleIter<'a> {
    ghost use Rattle.std.specs.Prelude.{List, ℕ, map};
    ghost use Rattle.spf_jwt.specs.Bundle.{Bundle, plain_entry};

    ghost Value = { List (List ℕ × Bundle) };

    ghost view = { λ i. map plain_entry i.inner };
}

impl<'a> Iterator for JwtBundleIter<'a> {
    ghost use Rattle.std.specs.Arc.{arc_value};
    ghost use Rattle.std.specs.Iterator.{YieldsFirstBy, item_count};

    type Item = (&'a TrustDomain, &'a Arc<JwtBundle>);

    ghost next_gives = { YieldsFirstBy (λ p. (p.0.now, arc_value p.1.now)) (λ s. s) };

    ghost remaining = { item_count (λ s. s) };

    fn next(&mut self) -> Option<(&'a TrustDomain, &'a Arc<JwtBundle>)> {
        self.inner.next()
    }
}

impl PartialEq for JwtBundleSet {
    ghost use Rattle.spf_jwt.specs.Bundle.{set_eq};
    ghost use Rattle.spf_jwt.specs.Laws.{set_per};

    ghost eq = { set_eq };

    ghost laws = { set_per };

    fn eq(&self, other: &JwtBundleSet) -> bool {
        self.bundles == other.bundles
    }
}

impl Eq for JwtBundleSet {
    ghost use Rattle.spf_jwt.specs.Laws.{set_equiv};

    ghost laws = { set_equiv };
}
