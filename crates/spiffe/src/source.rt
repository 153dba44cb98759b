//! A handle of a live source of X.509 identities.

ghost use Rattle.std.specs.Prelude.{◌≡◌, ◌≢◌, IfOk, MatchBool, OnOk};
ghost use Rattle.spf_system.specs.declared.maker.Maker.TheVariants as makers;
ghost use Rattle.spf_feed.specs.declared.state.X509SourceError.TheVariants as errors;
ghost use Rattle.spf_feed.specs.States.{ContextAnswer, SvidAnswer};
ghost use Rattle.spf_board.specs.Passes.{Renews};
ghost use Rattle.spiffe.specs.Passes.{read_of};
ghost use Rattle.spiffe.specs.Steps.{Legal};
ghost use Rattle.spiffe.specs.States.{IsStateOf};
ghost use Rattle.spiffe.specs.Reads.{BundleAnswer, BundlesAnswer, Gets, IsHealthy, SaysClosed};
ghost use Rattle.spiffe.specs.Reads.{Follows, HasPlaceCause, SeesNoLess, Tries, TriesBundle};
ghost use Rattle.spiffe.specs.Updating.{ReadsFrom};

use crate::kind::{Pass, UsableAt, X509};
use crate::places::Places;
use spf_board::{Front, SourceUpdates, another_pass, check_open, look};
use spf_feed::{X509SourceError, X509SourceState};
use spf_id::TrustDomain;
use spf_io::OutOfMemory;
use spf_system::{Bell, Closer, Closing, LastHandle, StopFlag, Watch, closing_of};
use spf_x509::{BundleSource, SvidSource, X509Bundle, X509BundleSet, X509Context, X509Svid};
use std::alloc::Global;
use std::fmt;
use std::marker::Model;
use std::mem::drop;
use std::sync::Arc;

/// The updates of a source of X.509 identities.
pub type X509SourceUpdates = SourceUpdates<X509>;

/// A handle of a source. What it gives is read through a pass of its board, without a lock. When
/// the last handle is dropped, the source is closed.
#[derive(Drop)]
pub struct X509Source {
    front: Front<X509>,
    watch: Watch,
    closing: Closing,
    last: Arc<LastHandle>,
    alloc: Global,
}

impl Model for X509Source {
    ghost use Rattle.std.specs.Prelude.{◌≡◌};
    ghost use Rattle.spf_board.specs.Sources.{Source};

    ghost Value = { Source };

    ghost view = { λ s. record { board = s.front.book; cell = s.watch } };

    ghost invariant = { λ s. s.closing ≡ s.watch };
}

impl fmt::Debug for X509Source {
    fn fmt<W: fmt::Write>(&self, f: &mut fmt::Formatter<W>) -> fmt::Result {
        write!(f, "X509Source")
    }
}

fn is_out_of_memory(e: &X509SourceError) -> bool
    ensures { MatchBool result (e.now ≡ errors.OutOfMemory) (e.now ≢ errors.OutOfMemory) }
{
    matches!(e, X509SourceError::OutOfMemory)
}

/// Drops an error. Out of memory is returned.
fn discard(e: X509SourceError) -> Result<(), OutOfMemory>
    ensures { OnOk result (e ≢ errors.OutOfMemory) }
{
    let is_memory = is_out_of_memory(&e);
    drop(e);
    if is_memory {
        return Err(OutOfMemory);
    }
    Ok(())
}

/// A watch of the cell of the closer, and what closes it with the last handle.
fn watched(
    alloc: Global,
    closer: &mut Closer,
    stop: &StopFlag,
    bell: &Bell,
) -> Result<(Watch, Arc<LastHandle>), OutOfMemory>
    requires { closer.old.maker ≡ makers.Caller }
    ensures unchanged { closer.new ≡ closer.old }
    ensures watch { IfOk result (λ r. r.0 ≡ closer.old.cell) }
{
    let watch = closer.watch()?;
    let closing = closing_of(alloc, closer, stop, bell)?;
    let last = Arc::new(alloc, LastHandle::new(closing))?;
    Ok((watch, last))
}

impl X509Source {
    /// Returns a source over a board that its caller publishes on, and the cell that the closer
    /// closes. The bell is rung at each change. `X509SourceBuilder` makes all of this.
    pub fn over(
        alloc: Global,
        front: Front<X509>,
        mut closer: Closer,
        stop: StopFlag,
        bell: Bell,
    ) -> Result<X509Source, OutOfMemory>
        requires { closer.maker ≡ makers.Caller }
        ensures { IfOk result (λ s. (s.board ≡ front.book) × (s.cell ≡ closer.cell)) }
    {
        match watched(alloc, &mut closer, &stop, &bell) {
            Ok((watch, last)) => Ok(X509Source {
                front,
                watch,
                closing: Closing::new(closer, stop, bell),
                last,
                alloc,
            }),
            Err(OutOfMemory) => {
                drop(front);
                drop(closer);
                drop(stop);
                drop(bell);
                Err(OutOfMemory)
            }
        }
    }

    /// Returns the state that is published now, read through the pass.
    pub fn state(&self, pass: &mut Pass) -> Result<X509SourceState, OutOfMemory>
        requires { pass.old.book ≡ self.now.board }
        ensures state { IfOk result (λ s. IsStateOf pass.new.seen s.closed s) }
        ensures closed { IfOk result (λ s. SaysClosed self.now.cell pass.new s.closed) }
        ensures renews { OnOk result (Renews Legal (read_of pass.old) (read_of pass.new)) }
        ensures pass { SeesNoLess pass.old pass.new }
    {
        let closed = look(&self.watch, pass);
        pass.state(closed)
    }

    /// Returns the context that is held. Whether the source is closed is looked at first.
    pub fn x509_context(&self, pass: &mut Pass) -> Result<Arc<X509Context>, X509SourceError>
        requires { pass.old.book ≡ self.now.board }
        ensures gets { Gets ContextAnswer self.now.cell pass.old pass.new result }
        ensures pass { SeesNoLess pass.old pass.new }
    {
        check_open(&self.watch, pass)?;
        let state = pass.state(false)?;
        state.context()
    }

    /// Returns the chosen SVID, where its expiry is above the moment. Whether the source is closed
    /// is looked at first.
    pub fn svid(&self, pass: &mut Pass, now: Option<i64>) -> Result<Arc<X509Svid>, X509SourceError>
        requires { pass.old.book ≡ self.now.board }
        ensures gets { Gets (λ view. SvidAnswer view now) self.now.cell pass.old pass.new
            result }
        ensures pass { SeesNoLess pass.old pass.new }
    {
        check_open(&self.watch, pass)?;
        let state = pass.state(false)?;
        state.svid(now)
    }

    /// Returns the bundles of the held context. Whether the source is closed is looked at first.
    pub fn bundle_set(&self, pass: &mut Pass) -> Result<Arc<X509BundleSet>, X509SourceError>
        requires { pass.old.book ≡ self.now.board }
        ensures gets { Gets BundlesAnswer self.now.cell pass.old pass.new result }
        ensures pass { SeesNoLess pass.old pass.new }
    {
        let context = self.x509_context(pass)?;
        Ok(Arc::try_clone(context.bundle_set())?)
    }

    /// A share of the bundle of the trust domain in the held context. Whether the source is closed
    /// is looked at first.
    fn bundle_of(
        &self,
        pass: &mut Pass,
        trust_domain: &TrustDomain,
    ) -> Result<Option<Arc<X509Bundle>>, X509SourceError>
        requires { pass.old.book ≡ self.now.board }
        ensures gets { Gets (λ view. BundleAnswer view trust_domain.now) self.now.cell pass.old
            pass.new result }
        ensures pass { SeesNoLess pass.old pass.new }
    {
        let context = self.x509_context(pass)?;
        Ok(context.bundle_set().get(trust_domain)?)
    }

    /// Returns what [`X509Source::svid`] returns, None where there is none.
    pub fn try_svid(
        &self,
        pass: &mut Pass,
        now: Option<i64>,
    ) -> Result<Option<Arc<X509Svid>>, OutOfMemory>
        requires { pass.old.book ≡ self.now.board }
        ensures tries { Tries (λ view. SvidAnswer view now) self.now.cell pass.old pass.new
            result }
        ensures pass { SeesNoLess pass.old pass.new }
    {
        match self.svid(pass, now) {
            Ok(svid) => Ok(Some(svid)),
            Err(e) => {
                discard(e)?;
                Ok(None)
            }
        }
    }

    /// Returns the bundle of the trust domain in the held context, None where there is none.
    pub fn try_bundle_for_trust_domain(
        &self,
        pass: &mut Pass,
        trust_domain: &TrustDomain,
    ) -> Result<Option<Arc<X509Bundle>>, OutOfMemory>
        requires { pass.old.book ≡ self.now.board }
        ensures tries { TriesBundle trust_domain.now self.now.cell pass.old pass.new result }
        ensures pass { SeesNoLess pass.old pass.new }
    {
        match self.bundle_of(pass, trust_domain) {
            Ok(bundle) => Ok(bundle),
            Err(e) => {
                discard(e)?;
                Ok(None)
            }
        }
    }

    /// Returns whether the choice is usable at the moment. A closed source is not healthy. It
    /// allocates nothing, and the pass keeps nothing of what it reads.
    pub fn is_healthy(&self, pass: &mut Pass, now: Option<i64>) -> bool
        requires { pass.old.book ≡ self.now.board }
        ensures healthy { IsHealthy now self.now.cell pass.old pass.new result }
        ensures book { pass.new.book ≡ pass.old.book }
    {
        if look(&self.watch, pass) {
            return false;
        }
        pass.peek(&UsableAt { now })
    }

    /// Returns another pass of the source, which has seen what the giver has seen.
    pub fn another_pass<H: Places>(
        &self,
        giver: &mut Pass,
        places: &mut H,
    ) -> Result<Pass, X509SourceError>
        requires { giver.old.book ≡ self.now.board }
        ensures giver { giver.new ≡ giver.old }
        ensures pass { IfOk result (λ p. (p.book ≡ self.now.board) × (p.seen ≡ giver.old.seen)) }
        ensures cause { HasPlaceCause (H.refusals places.old) (H.refusals places.new) result }
    {
        another_pass(giver, places)
    }

    /// Updates of the source, with a pass that has seen what the giver has seen. What is published
    /// now is read, and its revision is marked as seen.
    pub fn updated<H: Places>(
        &self,
        giver: &mut Pass,
        places: &mut H,
    ) -> Result<X509SourceUpdates, X509SourceError>
        requires { giver.old.book ≡ self.now.board }
        ensures giver { giver.new ≡ giver.old }
        ensures updates { IfOk result (Follows self.now giver.old) }
        ensures reads { IfOk result (λ updates. ReadsFrom giver.old.seen updates.pass) }
        ensures cause { HasPlaceCause (H.refusals places.old) (H.refusals places.new) result }
    {
        let pass = self.another_pass(giver, places)?;
        let mut updates = self.updates_over(pass)?;
        match updates.begin() {
            Ok(()) => Ok(updates),
            Err(OutOfMemory) => {
                drop(updates);
                Err(X509SourceError::OutOfMemory)
            }
        }
    }

    /// Another watch of the cell, and another bell.
    fn watch_and_bell(&self) -> Result<(Watch, Bell), OutOfMemory>
        ensures { IfOk result (λ r. r.0 ≡ self.now.cell) }
    {
        let bell = self.closing.bell()?;
        let watch = self.watch.try_clone()?;
        Ok((watch, bell))
    }

    /// Updates that have read nothing yet.
    fn updates_over(&self, pass: Pass) -> Result<X509SourceUpdates, OutOfMemory>
        ensures { IfOk result (λ updates. updates
            ≡ record { cell = self.now.cell; pass = pass; marked = 0 }) }
    {
        match self.watch_and_bell() {
            Ok((watch, bell)) => Ok(SourceUpdates::new(watch, pass, bell)),
            Err(OutOfMemory) => {
                drop(pass);
                Err(OutOfMemory)
            }
        }
    }

    /// Closes the source, and with it ends its supervisor.
    pub fn shutdown(&mut self)
        ensures { self.new ≡ self.old }
    {
        self.closing.close();
    }

    /// Returns another handle of the same source. It takes no place.
    pub fn try_clone(&mut self) -> Result<X509Source, OutOfMemory>
        ensures unchanged { self.new ≡ self.old }
        ensures same { IfOk result (λ s. s ≡ self.old) }
    {
        Ok(X509Source {
            front: self.front.again(),
            watch: self.watch.try_clone()?,
            closing: self.closing.another(self.alloc)?,
            last: Arc::try_clone(&self.last)?,
            alloc: self.alloc,
        })
    }
}

impl BundleSource for X509Source {
    type Item = X509Bundle;

    type Error = X509SourceError;

    type Seen = Pass;

    ghost use Rattle.std.specs.Prelude.{◌≡◌, IfOk, IfSome};
    ghost use Rattle.std.specs.Arc.{arc_value};
    ghost use Rattle.std.specs.Option.{option_and_then, option_map};
    ghost use Rattle.spf_x509.specs.Bundle.{find_entry};
    ghost use Rattle.spf_feed.specs.Steps.{held_in};
    ghost use Rattle.spiffe.specs.Reads.{BundleAnswer, Gets, OfState, SeesNoLess};

    ghost fits = { λ source pass. pass.book ≡ source.board };

    ghost answers = { λ _ pass domain bundle. OfState pass (λ view.
        option_and_then (λ m. find_entry domain m.context.bundles) (held_in view) ≡ bundle) };

    fn bundle_for_trust_domain(
        &self,
        seen: &mut Pass,
        trust_domain: &TrustDomain,
    ) -> Result<Option<Arc<X509Bundle>>, X509SourceError>
        requires { seen.old.book ≡ self.now.board }
        ensures fits { seen.new.book ≡ self.now.board }
        ensures answer { IfOk result (λ o. OfState seen.new (λ view. option_and_then
            (λ m. find_entry trust_domain.now m.context.bundles) (held_in view)
            ≡ option_map arc_value o)) }
        ensures gets { Gets (λ view. BundleAnswer view trust_domain.now) self.now.cell seen.old
            seen.new result }
        ensures pass { SeesNoLess seen.old seen.new }
    {
        self.bundle_of(seen, trust_domain)
    }
}

impl SvidSource for X509Source {
    type Item = X509Svid;

    type Error = X509SourceError;

    type Seen = Pass;

    ghost use Rattle.std.specs.Prelude.{◌≡◌, IfOk, Some};
    ghost use Rattle.std.specs.Arc.{arc_value};
    ghost use Rattle.std.specs.Option.{option_and_then};
    ghost use Rattle.spf_feed.specs.Pick.{usable};
    ghost use Rattle.spf_feed.specs.States.{SvidAnswer};
    ghost use Rattle.spf_feed.specs.Steps.{chosen_of, held_in};
    ghost use Rattle.spiffe.specs.Reads.{Gets, OfState, SeesNoLess};

    ghost fits = { λ source pass. pass.book ≡ source.board };

    ghost answers = { λ _ pass now svid. OfState pass (λ view.
        usable (option_and_then chosen_of (held_in view)) now ≡ Some svid) };

    fn svid(&self, seen: &mut Pass, now: Option<i64>) -> Result<Arc<X509Svid>, X509SourceError>
        requires { seen.old.book ≡ self.now.board }
        ensures fits { seen.new.book ≡ self.now.board }
        ensures answer { IfOk result (λ a. OfState seen.new (λ view.
            usable (option_and_then chosen_of (held_in view)) now ≡ Some (arc_value a))) }
        ensures gets { Gets (λ view. SvidAnswer view now) self.now.cell seen.old seen.new result }
        ensures pass { SeesNoLess seen.old seen.new }
    {
        X509Source::svid(self, seen, now)
    }
}
