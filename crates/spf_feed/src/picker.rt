//! The choice of an SVID.

ghost use Rattle.std.specs.Prelude.{◌≡◌, ◌<◌, ℕ, List, Option, map, length, position};
ghost use Rattle.std.specs.Arc.{arc_value};
ghost use Rattle.std.specs.Option.{option_map, ForSome};
ghost use Rattle.std.specs.declared.sync.Arc.{Arc};
ghost use Rattle.std.specs.declared.alloc.Global.{Global};
ghost use Rattle.spf_x509.specs.Svid.{Svid};
ghost use Rattle.spf_feed.specs.Pick.{pick_of, first_index, choice_of, AnswersBy};
ghost use Rattle.spf_feed.specs.Pick as spec;

use spf_io::Text;
use spf_x509::{X509Context, X509Svid};
use std::fmt;
use std::marker::PhantomData;
use std::sync::Arc;

/// Picks one of several SVIDs, by a function of itself
/// and of them. An index out of range chooses nothing.
pub trait SvidPicker {
    // The function.
    ghost picks: { Self → List Svid → Option ℕ };
    // The picker may be called, and returns what its function gives.
    ghost can_pick: { Self → Type 0 } = { λ _. Unit {0} };

    fn pick_svid(&self, svids: &[Arc<X509Svid>]) -> Option<usize>
        requires { can_pick self.now }
        ensures { result ≡ picks self.now (map arc_value svids.now) };
}

/// A function from SVIDs to an answer, which only contracts see.
pub trait PickFunction {
    ghost function: { List Svid → Option ℕ };
}

/// A stored closure that returns what the function of `N` gives.
#[derive(Drop)]
pub struct FnPicker<F: Fn(&[Arc<X509Svid>]) -> Option<usize>, N: PickFunction> {
    f: F,
    function: PhantomData<N>,
}

impl<F: Fn(&[Arc<X509Svid>]) -> Option<usize>, N: PickFunction> FnPicker<F, N> {
    pub fn new(f: F) -> FnPicker<F, N>
        requires callable { F.IsAlwaysCallable f }
        requires answers { AnswersBy F.Fn f N.function }
        ensures { ⟦<FnPicker<F, N> as SvidPicker>⟧.can_pick result }
    {
        FnPicker {
            f,
            function: PhantomData,
        }
    }
}

impl<F: Fn(&[Arc<X509Svid>]) -> Option<usize>, N: PickFunction> fmt::Debug for FnPicker<F, N> {
    fn fmt<W: fmt::Write>(&self, f: &mut fmt::Formatter<W>) -> fmt::Result {
        write!(f, "FnPicker")
    }
}

impl<F: Fn(&[Arc<X509Svid>]) -> Option<usize>, N: PickFunction> SvidPicker for FnPicker<F, N> {
    ghost picks = { λ _ svids. N.function svids };

    ghost can_pick = { λ p. F.IsAlwaysCallable p.f × AnswersBy F.Fn p.f N.function };

    fn pick_svid(&self, svids: &[Arc<X509Svid>]) -> Option<usize> {
        (self.f)(svids)
    }
}

/// Picks the first SVID that has its hint. An empty text picks nothing, since an empty hint is no
/// hint.
#[derive(Debug, Drop)]
pub struct HintPicker {
    hint: Text,
}

impl HintPicker {
    pub fn new(hint: Text) -> HintPicker
        ensures { ⟦<HintPicker as SvidPicker>⟧.picks result ≡ spec.first_with_hint hint }
    {
        HintPicker { hint }
    }
}

fn has_hint(svid: &X509Svid, hint: &Text) -> bool
    ensures { result ≡ spec.has_hint hint.now svid.now }
{
    match svid.hint() {
        Some(own) => own == hint.as_str(),
        None => false,
    }
}

fn first_with_hint(svids: &[Arc<X509Svid>], hint: &Text) -> Option<usize>
    ensures { result
        ≡ position (λ (a : Arc Svid Global). spec.has_hint hint.now (arc_value a)) svids.now }
{
    svids.iter().position(|svid| has_hint(svid, hint))
}

impl SvidPicker for HintPicker {
    ghost use Rattle.spf_feed.specs.Pick.{first_with_hint};

    ghost picks = { λ p svids. first_with_hint p.hint svids };

    fn pick_svid(&self, svids: &[Arc<X509Svid>]) -> Option<usize> {
        first_with_hint(svids, &self.hint)
    }
}

/// Picks the first SVID, as where no picker is set.
#[derive(Clone, Copy, Debug)]
pub struct NoPicker;

impl SvidPicker for NoPicker {
    ghost use Rattle.spf_feed.specs.Pick.{first_index};

    ghost picks = { λ _ svids. first_index svids };

    fn pick_svid(&self, svids: &[Arc<X509Svid>]) -> Option<usize> {
        first(svids)
    }
}

fn first(svids: &[Arc<X509Svid>]) -> Option<usize>
    ensures { result ≡ first_index (map arc_value svids.now) }
{
    if svids.is_empty() { None } else { Some(0) }
}

/// The picker's index, where it is in range.
fn picked<P: SvidPicker>(svids: &[Arc<X509Svid>], picker: Option<&P>) -> Option<usize>
    requires { ForSome picker (λ p. P.can_pick p.now) }
    ensures { result
        ≡ pick_of (option_map (λ p. P.picks p.now) picker.entry) (map arc_value svids.now) }
{
    match picker {
        None => first(svids),
        Some(picker) => match picker.pick_svid(svids) {
            Some(index) if index < svids.len() => Some(index),
            _ => None,
        },
    }
}

/// Returns the index that the picker gives, where it is in range; that of the first SVID where no
/// picker is set.
pub fn select_svid<P: SvidPicker>(ctx: &X509Context, picker: Option<&P>) -> Option<usize>
    requires { ForSome picker (λ p. P.can_pick p.now) }
    ensures { result ≡ pick_of (option_map (λ p. P.picks p.now) picker.entry) ctx.now.svids }
{
    picked(ctx.svids(), picker)
}

/// The chosen SVID, where there is one at the index.
pub(crate) fn chosen(context: &X509Context, choice: Option<usize>) -> Option<&Arc<X509Svid>>
    ensures { option_map (λ a. arc_value a.now) result ≡ choice_of context.now.svids choice }
{
    match choice {
        None => None,
        Some(index) => context.svids().get(index),
    }
}

/// The chosen SVID, where there is a moment and its expiry is above it.
pub(crate) fn usable(chosen: Option<&Arc<X509Svid>>, now: Option<i64>) -> Option<&Arc<X509Svid>>
    ensures { option_map (λ a. arc_value a.now) result
        ≡ spec.usable (option_map (λ a. arc_value a.now) chosen.entry) now }
{
    match (chosen, now) {
        (Some(svid), Some(now)) if now < svid.expiry_unix() => Some(svid),
        _ => None,
    }
}
