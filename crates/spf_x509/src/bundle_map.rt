//! Bundles by trust domain.

ghost use Rattle.std.specs.Prelude.{◌≡◌, [], IfOk, MatchResult, OnErr, OnOk, length, map};
ghost use Rattle.std.specs.Option.{option_map};
ghost use Rattle.std.specs.Arc.{arc_value};
ghost use Rattle.spf_x509.specs.Bundle.{IsInDomainOrder, find_entry, plain_entry, with_entry};
ghost use Rattle.spf_x509.specs.BundleMap.{GoesAt, StandsAt};
ghost use Rattle.spf_x509.specs.Few.{few_items};

use crate::bundle::X509Bundle;
use crate::few::Few;
use spf_id::TrustDomain;
use spf_io::OutOfMemory;
use std::alloc::Global;
use std::cmp::Ordering;
use std::collections::{BTreeMap, btree_map};
use std::fmt;
use std::marker::Model;
use std::sync::Arc;

/// How many bundles stand in a list, which is quicker than a tree for so few.
const FEW: usize = 8;

/// Bundles by trust domain, in the order of the trust domains: a few
/// in a list, or more of them in a tree. The other one is empty.
#[derive(Drop)]
pub(crate) struct BundleMap {
    few: Few<(TrustDomain, Arc<X509Bundle>)>,
    many: BTreeMap<TrustDomain, Arc<X509Bundle>>,
}

impl Model for BundleMap {
    ghost use Rattle.std.specs.Prelude.{List, ℕ, ◌++◌, map};
    ghost use Rattle.spf_x509.specs.Bundle.{Bundle, plain_entry};
    ghost use Rattle.spf_x509.specs.BundleMap.{AreFewOrMany};
    ghost use Rattle.spf_x509.specs.Few.{few_items};

    ghost Value = { List (List ℕ × Bundle) };

    ghost view = { λ m. map plain_entry (few_items m.few) ++ map plain_entry m.many.entries };

    ghost invariant = { λ m.
        AreFewOrMany (map plain_entry (few_items m.few)) (map plain_entry m.many.entries) };
}

/// Where the trust domain stands among the entries, or where it is to go.
fn place_of(
    entries: &[(TrustDomain, Arc<X509Bundle>)],
    trust_domain: &TrustDomain,
) -> Result<usize, usize>
    requires { IsInDomainOrder entries.now }
    ensures { MatchResult result (StandsAt entries.now trust_domain.now)
        (GoesAt entries.now trust_domain.now) }
{
    let mut index = entries.len();
    while index > 0 {
        match trust_domain.cmp(&entries[index - 1].0) {
            Ordering::Greater => return Err(index),
            Ordering::Equal => return Ok(index - 1),
            Ordering::Less => index -= 1,
        }
    }
    Err(0)
}

/// The same entries, which share their bundles.
fn shared_entries(
    alloc: Global,
    entries: &[(TrustDomain, Arc<X509Bundle>)],
) -> Result<Few<(TrustDomain, Arc<X509Bundle>)>, OutOfMemory>
    ensures { IfOk result (λ f. map plain_entry (few_items f) ≡ map plain_entry entries.now) }
{
    let mut shared = Few::with_capacity(alloc, entries.len())?;
    for (trust_domain, bundle) in entries {
        shared.push(
            alloc,
            (trust_domain.try_clone(alloc)?, Arc::try_clone(bundle)?),
        )?;
    }
    Ok(shared)
}

impl BundleMap {
    pub(crate) fn new(alloc: Global) -> BundleMap
        ensures { result ≡ [] }
    {
        BundleMap {
            few: Few::Nothing,
            many: BTreeMap::new(alloc),
        }
    }

    /// Puts the bundle in, in place of the one of its trust domain.
    pub(crate) fn insert(
        &mut self,
        alloc: Global,
        trust_domain: TrustDomain,
        bundle: Arc<X509Bundle>,
    ) -> Result<(), OutOfMemory>
        ensures ok { OnOk result (self.new ≡ with_entry self.old trust_domain (arc_value bundle)) }
        ensures err { OnErr result (self.new ≡ self.old) }
    {
        if !self.many.is_empty() {
            self.many.insert(trust_domain, bundle)?;
            return Ok(());
        }
        match place_of(self.few.as_slice(), &trust_domain) {
            Ok(index) => {
                self.few.set(index, (trust_domain, bundle));
                Ok(())
            }
            Err(index) if self.few.len() < FEW => {
                self.few.insert(alloc, index, (trust_domain, bundle))
            }
            Err(_) => {
                let many = self.tree_with(alloc, trust_domain, bundle)?;
                *self = BundleMap {
                    few: Few::Nothing,
                    many,
                };
                Ok(())
            }
        }
    }

    /// The entries and the bundle in a tree, which share their bundles.
    #[inline(never)]
    fn tree_with(
        &self,
        alloc: Global,
        trust_domain: TrustDomain,
        bundle: Arc<X509Bundle>,
    ) -> Result<BTreeMap<TrustDomain, Arc<X509Bundle>>, OutOfMemory>
        ensures { IfOk result (λ m. map plain_entry m.entries
            ≡ with_entry self.now trust_domain (arc_value bundle)) }
    {
        let mut tree = self.to_tree(alloc)?;
        tree.insert(trust_domain, bundle)?;
        Ok(tree)
    }

    /// The entries in a tree, which share their bundles.
    fn to_tree(&self, alloc: Global) -> Result<BTreeMap<TrustDomain, Arc<X509Bundle>>, OutOfMemory>
        ensures { IfOk result (λ m. map plain_entry m.entries ≡ self.now) }
    {
        let mut tree = BTreeMap::new(alloc);
        for (trust_domain, bundle) in self.iter() {
            tree.insert(trust_domain.try_clone(alloc)?, Arc::try_clone(bundle)?)?;
        }
        Ok(tree)
    }

    /// Returns a copy of the map, which shares its bundles.
    pub(crate) fn try_clone(&self, alloc: Global) -> Result<BundleMap, OutOfMemory>
        ensures { IfOk result (λ m. m ≡ self.now) }
    {
        if self.many.is_empty() {
            return Ok(BundleMap {
                few: shared_entries(alloc, self.few.as_slice())?,
                many: BTreeMap::new(alloc),
            });
        }
        Ok(BundleMap {
            few: Few::Nothing,
            many: self.to_tree(alloc)?,
        })
    }

    pub(crate) fn get(&self, trust_domain: &TrustDomain) -> Option<&Arc<X509Bundle>>
        ensures found { option_map (λ a. arc_value a.now) result
            ≡ find_entry trust_domain.now self.now }
        ensures order { IsInDomainOrder self.now }
    {
        for (name, bundle) in self.few.as_slice() {
            if trust_domain == name {
                return Some(bundle);
            }
        }
        self.many.get(trust_domain)
    }

    #[inline]
    pub(crate) fn iter(&self) -> BundleMapIter<'_>
        ensures pairs { result ≡ self.now }
        ensures order { IsInDomainOrder self.now }
    {
        let many = if self.many.is_empty() {
            None
        } else {
            Some(self.many.iter())
        };
        BundleMapIter {
            few: self.few.as_slice(),
            many,
        }
    }

    pub(crate) fn len(&self) -> usize
        ensures { result ≡ length self.now }
    {
        if self.many.is_empty() {
            return self.few.len();
        }
        self.many.len()
    }
}

impl fmt::Debug for BundleMap {
    fn fmt<W: fmt::Write>(&self, f: &mut fmt::Formatter<W>) -> fmt::Result {
        f.debug_map().entries(self.iter()).finish()
    }
}

impl PartialEq for BundleMap {
    ghost use Rattle.spf_x509.specs.Bundle.{set_eq};
    ghost use Rattle.spf_x509.specs.Laws.{set_per};

    ghost eq = { set_eq };

    ghost laws = { set_per };

    fn eq(&self, other: &BundleMap) -> bool {
        self.few.as_slice() == other.few.as_slice() && self.many == other.many
    }
}

/// The entries that are still to come, which contracts see as their list.
#[derive(Debug, Drop)]
pub(crate) struct BundleMapIter<'a> {
    few: &'a [(TrustDomain, Arc<X509Bundle>)],
    /// Those of the tree, where it has any.
    many: Option<btree_map::Iter<'a, TrustDomain, Arc<X509Bundle>>>,
}

impl<'a> Model for BundleMapIter<'a> {
    ghost use Rattle.std.specs.Prelude.{List, ℕ, ◌++◌, map};
    ghost use Rattle.spf_x509.specs.Bundle.{Bundle, plain_entry};
    ghost use Rattle.spf_x509.specs.BundleMap.{left_in};

    ghost Value = { List (List ℕ × Bundle) };

    ghost view = { λ i. map plain_entry i.few.now ++ left_in i.many };
}

impl<'a> Iterator for BundleMapIter<'a> {
    ghost use Rattle.std.specs.Arc.{arc_value};
    ghost use Rattle.std.specs.Iterator.{YieldsFirstBy, item_count};

    type Item = (&'a TrustDomain, &'a Arc<X509Bundle>);

    ghost next_gives = { YieldsFirstBy (λ p. (p.0.now, arc_value p.1.now)) (λ s. s) };

    ghost remaining = { item_count (λ s. s) };

    #[inline]
    fn next(&mut self) -> Option<(&'a TrustDomain, &'a Arc<X509Bundle>)> {
        match self.few {
            [(trust_domain, bundle), rest @ ..] => {
                self.few = rest;
                Some((trust_domain, bundle))
            }
            [] => self.many.as_mut()?.next(),
        }
    }
}
