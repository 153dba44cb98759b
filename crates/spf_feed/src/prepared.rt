//! A step with the indices of its context in order.

ghost use Rattle.std.specs.Prelude.{◌≡◌, true, IsTrue, IfOk};
ghost use Rattle.std.specs.Option.{option_map, option_and_then};
ghost use Rattle.std.specs.Arc.{arc_value};
ghost use Rattle.std.specs.Ordering.{nat_cmp};
ghost use Rattle.std.specs.Cmp.Lexicographic.{slice_cmp};
ghost use Rattle.spf_x509.specs.Bundle.{find_entry};
ghost use Rattle.spf_x509.specs.Order.{svid_cmp};
ghost use Rattle.spf_feed.specs.Prepared.{is_same_step, HasIndices};
ghost use Rattle.spf_feed.specs.Sorted.{AuthorityIndices, IndicesOf, listed};
ghost use Rattle.spf_feed.specs.Steps.{plain, is_accept, material_in, chosen_of};

use crate::picker::chosen;
use crate::sorted::{Orders, Sorted, indices_in, is_equal, is_same, orders_of, sorted_of};
use crate::step::Step;
use spf_id::TrustDomain;
use spf_io::OutOfMemory;
use spf_x509::{X509Context, X509Svid};
use std::alloc::Global;
use std::marker::Model;
use std::sync::Arc;

/// A step with its sorted lists, which a clone shares. A Deny has none,
/// nor has a context that stands in order. Contracts see the step.
#[derive(Debug, Drop)]
pub struct Prepared {
    step: Step,
    indices: Option<Arc<Sorted>>,
}

impl Model for Prepared {
    ghost use Rattle.spf_feed.specs.Steps.{PlainStep};

    ghost Value = { PlainStep };

    ghost use Rattle.spf_feed.specs.Steps.{plain};
    ghost use Rattle.spf_feed.specs.Prepared.{IsIndexed};

    ghost view = { λ p. plain p.step };

    ghost invariant = { λ p. IsIndexed (plain p.step) p.indices };
}

impl Prepared {
    /// Prepares the step, which is dropped where memory runs out.
    pub fn new(alloc: Global, step: Step) -> Result<Prepared, OutOfMemory>
        ensures { IfOk result (λ p. p ≡ plain step) }
    {
        let indices = match &step {
            Step::Accept { context, .. } => sorted_of(alloc, context)?,
            Step::Deny { .. } => None,
        };
        Ok(Prepared { step, indices })
    }

    pub fn step(&self) -> &Step
        ensures { plain result.now ≡ self.now }
    {
        &self.step
    }

    pub(crate) fn into_step(self) -> Step
        ensures { plain result ≡ self }
    {
        self.step
    }

    /// Returns the indices of the SVIDs, sorted. None for a Deny.
    pub fn svid_positions(&self) -> &[usize]
        ensures { IndicesOf svid_cmp (option_map (λ m. m.context.svids) (material_in self.now))
            result.now }
    {
        match self.orders() {
            Some(orders) => orders.svids,
            None => &[],
        }
    }

    /// Returns the indices of the authorities of a trust domain, sorted.
    pub fn authority_positions(&self, td: &TrustDomain) -> Option<&[usize]>
        ensures { AuthorityIndices
            (option_and_then (λ m. find_entry td.now m.context.bundles) (material_in self.now))
            (option_map (λ p. p.now) result) }
    {
        match (&self.step, self.orders()) {
            (Step::Accept { context, .. }, Some(orders)) => {
                indices_in(context.bundle_set(), orders.authorities, td)
            }
            _ => None,
        }
    }

    /// Returns the indices of the revocation lists, sorted. None for a Deny.
    pub fn crl_positions(&self) -> &[usize]
        ensures { IndicesOf (slice_cmp nat_cmp)
            (option_map (λ m. m.context.crls) (material_in self.now)) result.now }
    {
        match self.orders() {
            Some(orders) => orders.crls,
            None => &[],
        }
    }

    /// The same step, which shares its lists.
    pub fn try_clone(&self) -> Result<Prepared, OutOfMemory>
        ensures { IfOk result (λ p. p ≡ self.now) }
    {
        let indices = match &self.indices {
            Some(indices) => Some(Arc::try_clone(indices)?),
            None => None,
        };
        Ok(Prepared {
            step: self.step.try_clone()?,
            indices,
        })
    }

    /// Whether the step accepts what this one does, member by member and in order.
    pub(crate) fn is_equal(&self, step: &Step) -> bool
        ensures { IsTrue result → is_same_step self.now (plain step.now) ≡ true }
    {
        match (&self.step, step) {
            (
                Step::Accept {
                    context: a,
                    choice: a_choice,
                    ..
                },
                Step::Accept {
                    context: b,
                    choice: b_choice,
                    ..
                },
            ) => is_equal(a, *a_choice, b, *b_choice),
            _ => false,
        }
    }

    /// Whether both are accepted and the same.
    pub(crate) fn is_same(&self, other: &Prepared) -> bool
        ensures { result ≡ is_same_step self.now other.now }
    {
        match (&self.step, &other.step) {
            (
                Step::Accept {
                    context: a,
                    choice: a_choice,
                    ..
                },
                Step::Accept {
                    context: b,
                    choice: b_choice,
                    ..
                },
            ) => is_same(a, *a_choice, &self.indices, b, *b_choice, &other.indices),
            _ => false,
        }
    }

    pub(crate) fn is_accept(&self) -> bool
        ensures { result ≡ is_accept self.now }
    {
        matches!(self.step, Step::Accept { .. })
    }

    /// The orders of what is accepted.
    pub(crate) fn orders(&self) -> Option<Orders<'_>>
        ensures { HasIndices self.now (option_map listed result) }
    {
        match &self.step {
            Step::Accept { context, .. } => Some(orders_of(context, &self.indices)),
            Step::Deny { .. } => None,
        }
    }

    pub(crate) fn context(&self) -> Option<&Arc<X509Context>>
        ensures { option_map (λ a. arc_value a.now) result
            ≡ option_map (λ m. m.context) (material_in self.now) }
    {
        match &self.step {
            Step::Accept { context, .. } => Some(context),
            Step::Deny { .. } => None,
        }
    }

    /// The chosen SVID.
    pub(crate) fn chosen(&self) -> Option<&Arc<X509Svid>>
        ensures { option_map (λ a. arc_value a.now) result
            ≡ option_and_then chosen_of (material_in self.now) }
    {
        match &self.step {
            Step::Accept {
                context,
                choice,
                ..
            } => chosen(context, *choice),
            Step::Deny { .. } => None,
        }
    }
}
