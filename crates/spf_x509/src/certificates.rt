//! Certificates in order, of which most chains and bundles have one or two.

ghost use Rattle.std.specs.Prelude.{◌≡◌, ◌++◌, ◌∷◌, [], IfOk, OnErr, OnOk};

use crate::certificate::Certificate;
use crate::few::Few;
use spf_io::OutOfMemory;
use std::alloc::Global;
use std::cmp::Ordering;
use std::marker::Model;

/// Certificates in order, of which one or two take no list.
#[derive(Debug, Drop)]
pub(crate) struct Certificates {
    held: Few<Certificate>,
}

impl Model for Certificates {
    ghost use Rattle.std.specs.Prelude.{List, ℕ};

    ghost Value = { List (List ℕ) };

    ghost use Rattle.spf_x509.specs.Few.{few_items};

    ghost view = { λ c. few_items c.held };
}

impl Certificates {
    /// No certificates.
    #[inline]
    pub(crate) fn new() -> Certificates
        ensures { result ≡ [] }
    {
        Certificates { held: Few::Nothing }
    }

    /// One certificate.
    #[inline]
    pub(crate) fn one(certificate: Certificate) -> Certificates
        ensures { result ≡ certificate ∷ [] }
    {
        Certificates {
            held: Few::One(certificate),
        }
    }

    /// Two certificates.
    #[inline]
    pub(crate) fn two(first: Certificate, second: Certificate) -> Certificates
        ensures { result ≡ first ∷ second ∷ [] }
    {
        Certificates {
            held: Few::Two([first, second]),
        }
    }

    /// No certificates yet, and a list only where more than two are to come.
    #[inline]
    pub(crate) fn with_capacity(alloc: Global, count: usize) -> Result<Certificates, OutOfMemory>
        ensures { IfOk result (λ c. c ≡ []) }
    {
        Ok(Certificates {
            held: Few::with_capacity(alloc, count)?,
        })
    }

    /// Appends a certificate. An error leaves those that there are.
    #[inline]
    pub(crate) fn push(
        &mut self,
        alloc: Global,
        certificate: Certificate,
    ) -> Result<(), OutOfMemory>
        ensures ok { OnOk result (self.new ≡ self.old ++ certificate ∷ []) }
        ensures err { OnErr result (self.new ≡ self.old) }
    {
        self.held.push(alloc, certificate)
    }

    #[inline]
    pub(crate) fn as_slice(&self) -> &[Certificate]
        ensures { result.now ≡ self.now }
    {
        self.held.as_slice()
    }

    /// A copy of the certificates.
    pub(crate) fn try_clone(&self, alloc: Global) -> Result<Certificates, OutOfMemory>
        ensures { IfOk result (λ c. c ≡ self.now) }
    {
        let certificates = self.as_slice();
        let mut copies = Certificates::with_capacity(alloc, certificates.len())?;
        for certificate in certificates {
            copies.push(alloc, certificate.try_clone(alloc)?)?;
        }
        Ok(copies)
    }
}

impl PartialEq for Certificates {
    ghost use Rattle.std.specs.Prelude.{nat_eq};
    ghost use Rattle.std.specs.Cmp.Lexicographic.{pointwise, lists_equiv, nat_list_eq_equiv};
    ghost use Rattle.std.specs.Cmp as Cmp;

    ghost eq = { pointwise (pointwise nat_eq) };

    ghost laws = { Cmp.partial_equiv_from_equiv (lists_equiv nat_list_eq_equiv) };

    fn eq(&self, other: &Certificates) -> bool {
        self.as_slice() == other.as_slice()
    }
}

impl Eq for Certificates {
    ghost use Rattle.std.specs.Cmp.Lexicographic.{lists_equiv, nat_list_eq_equiv};

    ghost laws = { lists_equiv nat_list_eq_equiv };
}

impl PartialOrd for Certificates {
    ghost use Rattle.std.specs.Prelude.{Some};
    ghost use Rattle.std.specs.Ordering.{nat_cmp};
    ghost use Rattle.std.specs.Cmp.Lexicographic.{slice_cmp, slice_partial_cmp, lists_po, texts_po};

    ghost partial_cmp = { slice_partial_cmp (λ x y. Some (slice_cmp nat_cmp x y)) };

    ghost laws = { lists_po texts_po };

    fn partial_cmp(&self, other: &Certificates) -> Option<Ordering> {
        self.as_slice().partial_cmp(other.as_slice())
    }
}

impl Ord for Certificates {
    ghost use Rattle.std.specs.Prelude.{refl};
    ghost use Rattle.std.specs.Ordering.{nat_cmp};
    ghost use Rattle.std.specs.Cmp.Lexicographic.{slice_cmp, lists_total, lists_agrees, lists_ties};
    ghost use Rattle.std.specs.Cmp.Lexicographic.{nat_list_cmp_total, texts_ties};

    ghost cmp = { slice_cmp (slice_cmp nat_cmp) };

    ghost total = { lists_total nat_list_cmp_total };

    ghost matches_partial_cmp = { lists_agrees (λ x y. refl) };

    ghost matches_eq = { lists_ties (slice_cmp nat_cmp) texts_ties };

    fn cmp(&self, other: &Certificates) -> Ordering {
        self.as_slice().cmp(other.as_slice())
    }
}
