//! What one update brings: identities, the bundles to trust, and revocation lists.

ghost use Rattle.std.specs.Prelude.{◌≡◌, IfOk, map, slice_get};
ghost use Rattle.std.specs.Option.{option_map};
ghost use Rattle.std.specs.Arc.{arc_value};

use crate::bundle_set::X509BundleSet;
use crate::svid::X509Svid;
use spf_io::{Bytes, OutOfMemory};
use std::alloc::Global;
use std::marker::Model;
use std::sync::Arc;

/// SVIDs in the order in which they came, bundles by
/// trust domain, and CRLs, which are carried unread.
#[derive(Debug, Drop)]
pub struct X509Context {
    svids: Vec<Arc<X509Svid>>,
    bundle_set: Arc<X509BundleSet>,
    crls: Vec<Bytes>,
}

impl Model for X509Context {
    ghost use Rattle.std.specs.Prelude.{map};
    ghost use Rattle.std.specs.Arc.{arc_value};
    ghost use Rattle.spf_x509.specs.Context.{Context};

    ghost Value = { Context };

    ghost view = { λ c. record {
      svids = map arc_value c.svids.items;
      bundles = arc_value c.bundle_set;
      crls = c.crls.items;
    } };
}

/// The same SVIDs, shared.
fn shared_svids(alloc: Global, svids: &[Arc<X509Svid>]) -> Result<Vec<Arc<X509Svid>>, OutOfMemory>
    ensures { IfOk result (λ v. map arc_value v.items ≡ map arc_value svids.now) }
{
    let mut shared = Vec::with_capacity(alloc, svids.len())?;
    for svid in svids {
        shared.push(Arc::try_clone(svid)?)?;
    }
    Ok(shared)
}

/// Copies of the CRLs.
fn copied_crls(alloc: Global, crls: &[Bytes]) -> Result<Vec<Bytes>, OutOfMemory>
    ensures { IfOk result (λ v. v.items ≡ crls.now) }
{
    let mut copied = Vec::with_capacity(alloc, crls.len())?;
    for crl in crls {
        copied.push(crl.try_clone(alloc)?)?;
    }
    Ok(copied)
}

impl X509Context {
    pub fn new(
        svids: Vec<Arc<X509Svid>>,
        bundle_set: Arc<X509BundleSet>,
        crls: Vec<Bytes>,
    ) -> X509Context
        ensures { result ≡ record {
          svids = map arc_value svids.items;
          bundles = arc_value bundle_set;
          crls = crls.items;
        } }
    {
        X509Context {
            svids,
            bundle_set,
            crls,
        }
    }

    /// Returns a copy of the context, which shares its SVIDs and bundles.
    pub fn try_clone(&self, alloc: Global) -> Result<X509Context, OutOfMemory>
        ensures { IfOk result (λ c. c ≡ self.now) }
    {
        Ok(X509Context {
            svids: shared_svids(alloc, self.svids.as_slice())?,
            bundle_set: Arc::try_clone(&self.bundle_set)?,
            crls: copied_crls(alloc, self.crls.as_slice())?,
        })
    }

    /// Returns the first SVID.
    pub fn default_svid(&self) -> Option<&Arc<X509Svid>>
        ensures { option_map (λ a. arc_value a.now) result ≡ slice_get self.now.svids 0 }
    {
        self.svids.first()
    }

    pub fn svids(&self) -> &[Arc<X509Svid>]
        ensures { map arc_value result.now ≡ self.now.svids }
    {
        self.svids.as_slice()
    }

    pub fn bundle_set(&self) -> &Arc<X509BundleSet>
        ensures { arc_value result.now ≡ self.now.bundles }
    {
        &self.bundle_set
    }

    pub fn crls(&self) -> &[Bytes]
        ensures { result.now ≡ self.now.crls }
    {
        self.crls.as_slice()
    }
}

impl PartialEq for X509Context {
    ghost use Rattle.spf_x509.specs.Context.{context_eq};
    ghost use Rattle.spf_x509.specs.Laws.{context_per};

    ghost eq = { context_eq };

    ghost laws = { context_per };

    fn eq(&self, other: &X509Context) -> bool {
        self.svids == other.svids && self.bundle_set == other.bundle_set && self.crls == other.crls
    }
}

impl Eq for X509Context {
    ghost use Rattle.spf_x509.specs.Laws.{context_equiv};

    ghost laws = { context_equiv };
}
