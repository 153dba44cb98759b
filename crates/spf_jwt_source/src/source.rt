//! A handle of a live source of JWT bundles.

ghost use Rattle.std.specs.Prelude.{◌≡◌, ◌≢◌, IfOk, MatchBool, None, OnOk};
ghost use Rattle.std.specs.Option.{option_map};
ghost use Rattle.spf_system.specs.declared.maker.Maker.TheVariants as makers;
ghost use Rattle.spf_board.specs.Passes.{Renews};
ghost use Rattle.spf_jwt_feed.specs.declared.state.JwtSourceError.TheVariants as errors;
ghost use Rattle.spf_jwt_feed.specs.States.{SetAnswer};
ghost use Rattle.spf_jwt_source.specs.Passes.{read_of};
ghost use Rattle.spf_jwt_source.specs.Steps.{Legal};
ghost use Rattle.spf_jwt_source.specs.States.{IsStateOf};
ghost use Rattle.spf_jwt_client.specs.Fetching.{HasFetchCause};
ghost use Rattle.spf_jwt_client.specs.Requests.{jwt_request};
ghost use Rattle.spf_jwt_source.specs.Reads.{BundleAnswer, FetchesLive, Gets, IsHealthy};
ghost use Rattle.spf_jwt_source.specs.Reads.{SaysClosed};
ghost use Rattle.spf_jwt_source.specs.Reads.{Follows, HasPlaceCause, SeesNoLess, TriesBundle};
ghost use Rattle.spf_jwt_source.specs.Updating.{ReadsFrom};

use crate::kind::{Jwt, JwtPass, Usable};
use crate::places::JwtPlaces;
use spf_board::{Front, SourceUpdates, another_pass, check_open, look};
use spf_id::{SpiffeId, TrustDomain};
use spf_io::{OutOfMemory, Text};
use spf_jwt::{JwtBundle, JwtBundleSet, JwtSvid};
use spf_jwt_client::JwtFetcher;
use spf_jwt_feed::{JwtSourceError, JwtSourceState};
use spf_link::Connector;
use spf_system::{Bell, Closer, Closing, LastHandle, Maker, StopFlag, Watch, closing_of};
use spf_x509::BundleSource;
use std::alloc::Global;
use std::fmt;
use std::marker::Model;
use std::mem::drop;
use std::sync::Arc;

/// The updates of a source of JWT bundles.
pub type JwtSourceUpdates = SourceUpdates<Jwt>;

/// A handle of a source. What it gives is read through a pass of its board, without a lock. When
/// the last handle is dropped, the source is closed.
#[derive(Drop)]
pub struct JwtSource {
    front: Front<Jwt>,
    watch: Watch,
    closing: Closing,
    last: Arc<LastHandle>,
    alloc: Global,
}

impl Model for JwtSource {
    ghost use Rattle.std.specs.Prelude.{◌≡◌};
    ghost use Rattle.spf_board.specs.Sources.{Source};

    ghost Value = { Source };

    ghost view = { λ s. record { board = s.front.book; cell = s.watch } };

    ghost invariant = { λ s. s.closing ≡ s.watch };
}

impl fmt::Debug for JwtSource {
    fn fmt<W: fmt::Write>(&self, f: &mut fmt::Formatter<W>) -> fmt::Result {
        write!(f, "JwtSource")
    }
}

fn is_out_of_memory(e: &JwtSourceError) -> bool
    ensures { MatchBool result (e.now ≡ errors.OutOfMemory) (e.now ≢ errors.OutOfMemory) }
{
    matches!(e, JwtSourceError::OutOfMemory)
}

/// Drops an error. Out of memory is returned.
fn discard(e: JwtSourceError) -> Result<(), OutOfMemory>
    ensures { OnOk result (e ≢ errors.OutOfMemory) }
{
    let is_memory = is_out_of_memory(&e);
    drop(e);
    if is_memory {
        return Err(OutOfMemory);
    }
    Ok(())
}

/// A watch of the cell of the closer, and what closes it with the last handle.
fn watched(
    alloc: Global,
    closer: &mut Closer,
    stop: &StopFlag,
    bell: &Bell,
) -> Result<(Watch, Arc<LastHandle>), OutOfMemory>
    requires { closer.old.maker ≡ makers.Caller }
    ensures unchanged { closer.new ≡ closer.old }
    ensures watch { IfOk result (λ r. r.0 ≡ closer.old.cell) }
{
    let watch = closer.watch()?;
    let closing = closing_of(alloc, closer, stop, bell)?;
    let last = Arc::new(alloc, LastHandle::new(closing))?;
    Ok((watch, last))
}

impl JwtSource {
    /// Returns a source over a board that its caller publishes on, and the cell that the closer
    /// closes. The bell is rung at each change. `JwtSourceBuilder` makes all of this.
    pub fn over(
        alloc: Global,
        front: Front<Jwt>,
        mut closer: Closer,
        stop: StopFlag,
        bell: Bell,
    ) -> Result<JwtSource, OutOfMemory>
        requires { closer.maker ≡ makers.Caller }
        ensures { IfOk result (λ s. (s.board ≡ front.book) × (s.cell ≡ closer.cell)) }
    {
        match watched(alloc, &mut closer, &stop, &bell) {
            Ok((watch, last)) => Ok(JwtSource {
                front,
                watch,
                closing: Closing::new(closer, stop, bell),
                last,
                alloc,
            }),
            Err(OutOfMemory) => {
                drop(front);
                drop(closer);
                drop(stop);
                drop(bell);
                Err(OutOfMemory)
            }
        }
    }

    /// Returns the state that is published now, read through the pass.
    pub fn state(&self, pass: &mut JwtPass) -> Result<JwtSourceState, OutOfMemory>
        requires { pass.old.book ≡ self.now.board }
        ensures state { IfOk result (λ s. IsStateOf pass.new.seen s.closed s) }
        ensures closed { IfOk result (λ s. SaysClosed self.now.cell pass.new s.closed) }
        ensures renews { OnOk result (Renews Legal (read_of pass.old) (read_of pass.new)) }
        ensures pass { SeesNoLess pass.old pass.new }
    {
        let closed = look(&self.watch, pass);
        pass.state(closed)
    }

    /// Returns the bundle set that is held. Whether the source is closed is looked at first.
    pub fn bundle_set(&self, pass: &mut JwtPass) -> Result<Arc<JwtBundleSet>, JwtSourceError>
        requires { pass.old.book ≡ self.now.board }
        ensures gets { Gets SetAnswer self.now.cell pass.old pass.new result }
        ensures pass { SeesNoLess pass.old pass.new }
    {
        check_open(&self.watch, pass)?;
        let state = pass.state(false)?;
        state.bundle_set()
    }

    /// A share of the bundle of the trust domain in the held bundle set. Whether the source is
    /// closed is looked at first.
    fn bundle_of(
        &self,
        pass: &mut JwtPass,
        trust_domain: &TrustDomain,
    ) -> Result<Option<Arc<JwtBundle>>, JwtSourceError>
        requires { pass.old.book ≡ self.now.board }
        ensures gets { Gets (λ view. BundleAnswer view trust_domain.now) self.now.cell pass.old
            pass.new result }
        ensures pass { SeesNoLess pass.old pass.new }
    {
        let bundle_set = self.bundle_set(pass)?;
        Ok(bundle_set.get(trust_domain)?)
    }

    /// Returns the bundle of the trust domain in the held bundle set, None where there is none.
    pub fn try_bundle_for_trust_domain(
        &self,
        pass: &mut JwtPass,
        trust_domain: &TrustDomain,
    ) -> Result<Option<Arc<JwtBundle>>, OutOfMemory>
        requires { pass.old.book ≡ self.now.board }
        ensures tries { TriesBundle trust_domain.now self.now.cell pass.old pass.new result }
        ensures pass { SeesNoLess pass.old pass.new }
    {
        match self.bundle_of(pass, trust_domain) {
            Ok(bundle) => Ok(bundle),
            Err(e) => {
                discard(e)?;
                Ok(None)
            }
        }
    }

    /// Returns whether a bundle set with a key is permitted. A closed source is not healthy. It
    /// allocates nothing, and the pass keeps nothing of what it reads.
    pub fn is_healthy(&self, pass: &mut JwtPass) -> bool
        requires { pass.old.book ≡ self.now.board }
        ensures healthy { IsHealthy self.now.cell pass.old pass.new result }
        ensures book { pass.new.book ≡ pass.old.book }
    {
        if look(&self.watch, pass) {
            return false;
        }
        pass.peek(&Usable)
    }

    /// Returns another pass of the source, which has seen what the giver has seen.
    pub fn another_pass<H: JwtPlaces>(
        &self,
        giver: &mut JwtPass,
        places: &mut H,
    ) -> Result<JwtPass, JwtSourceError>
        requires { giver.old.book ≡ self.now.board }
        ensures giver { giver.new ≡ giver.old }
        ensures pass { IfOk result (λ p. (p.book ≡ self.now.board) × (p.seen ≡ giver.old.seen)) }
        ensures cause { HasPlaceCause (H.refusals places.old) (H.refusals places.new) result }
    {
        another_pass(giver, places)
    }

    /// Updates of the source, with a pass that has seen what the giver has seen. What is published
    /// now is read, and its revision is marked as seen.
    pub fn updated<H: JwtPlaces>(
        &self,
        giver: &mut JwtPass,
        places: &mut H,
    ) -> Result<JwtSourceUpdates, JwtSourceError>
        requires { giver.old.book ≡ self.now.board }
        ensures giver { giver.new ≡ giver.old }
        ensures updates { IfOk result (Follows self.now giver.old) }
        ensures reads { IfOk result (λ updates. ReadsFrom giver.old.seen updates.pass) }
        ensures cause { HasPlaceCause (H.refusals places.old) (H.refusals places.new) result }
    {
        let pass = self.another_pass(giver, places)?;
        let mut updates = self.updates_over(pass)?;
        match updates.begin() {
            Ok(()) => Ok(updates),
            Err(OutOfMemory) => {
                drop(updates);
                Err(JwtSourceError::OutOfMemory)
            }
        }
    }

    /// Another watch of the cell, and another bell.
    fn watch_and_bell(&self) -> Result<(Watch, Bell), OutOfMemory>
        ensures { IfOk result (λ r. r.0 ≡ self.now.cell) }
    {
        let bell = self.closing.bell()?;
        let watch = self.watch.try_clone()?;
        Ok((watch, bell))
    }

    /// Updates that have read nothing yet.
    fn updates_over(&self, pass: JwtPass) -> Result<JwtSourceUpdates, OutOfMemory>
        ensures { IfOk result (λ updates. updates
            ≡ record { cell = self.now.cell; pass = pass; marked = 0 }) }
    {
        match self.watch_and_bell() {
            Ok((watch, bell)) => Ok(SourceUpdates::new(watch, pass, bell)),
            Err(OutOfMemory) => {
                drop(pass);
                Err(OutOfMemory)
            }
        }
    }

    /// Fetches a JWT-SVID for the audience, of any identity of the workload. Whether the source is
    /// closed is looked at first; if it is, the fetcher asks nothing.
    pub fn fetch_jwt_svid<F: Connector>(
        &self,
        alloc: Global,
        fetcher: &mut JwtFetcher<F>,
        audience: &[Text],
    ) -> Result<JwtSvid, JwtSourceError>
    where
        F::Link: Drop,
        ensures fetches { FetchesLive F.Connector F.Link.Link (jwt_request audience.now None)
            (record { connector = fetcher.old.connector; client = fetcher.old.client }) result
            (record { connector = fetcher.new.connector; client = fetcher.new.client }) }
        ensures cause { HasFetchCause (F.refusals fetcher.old.connector)
            (F.refusals fetcher.new.connector) result }
    {
        self.fetch_jwt_svid_with_id(alloc, fetcher, audience, None)
    }

    /// The same for that identity.
    pub fn fetch_jwt_svid_with_id<F: Connector>(
        &self,
        alloc: Global,
        fetcher: &mut JwtFetcher<F>,
        audience: &[Text],
        id: Option<&SpiffeId>,
    ) -> Result<JwtSvid, JwtSourceError>
    where
        F::Link: Drop,
        ensures fetches { FetchesLive F.Connector F.Link.Link
            (jwt_request audience.now (option_map (λ i. i.now) id.entry))
            (record { connector = fetcher.old.connector; client = fetcher.old.client }) result
            (record { connector = fetcher.new.connector; client = fetcher.new.client }) }
        ensures cause { HasFetchCause (F.refusals fetcher.old.connector)
            (F.refusals fetcher.new.connector) result }
    {
        let Some(closed) = self.watch.look() else {
            return fetcher.fetch_with_id(alloc, audience, id);
        };
        match closed.maker() {
            Maker::Caller => Err(JwtSourceError::Closed),
            Maker::Supervisor => Err(JwtSourceError::OutOfMemory),
        }
    }

    /// Closes the source, and with it ends its supervisor.
    pub fn shutdown(&mut self)
        ensures { self.new ≡ self.old }
    {
        self.closing.close();
    }

    /// Returns another handle of the same source. It takes no place.
    pub fn try_clone(&mut self) -> Result<JwtSource, OutOfMemory>
        ensures unchanged { self.new ≡ self.old }
        ensures same { IfOk result (λ s. s ≡ self.old) }
    {
        Ok(JwtSource {
            front: self.front.again(),
            watch: self.watch.try_clone()?,
            closing: self.closing.another(self.alloc)?,
            last: Arc::try_clone(&self.last)?,
            alloc: self.alloc,
        })
    }
}

impl BundleSource for JwtSource {
    type Item = JwtBundle;

    type Error = JwtSourceError;

    type Seen = JwtPass;

    ghost use Rattle.std.specs.Prelude.{◌≡◌, IfOk};
    ghost use Rattle.std.specs.Arc.{arc_value};
    ghost use Rattle.std.specs.Option.{option_and_then, option_map};
    ghost use Rattle.spf_view.specs.Standing.{held_in};
    ghost use Rattle.spf_x509.specs.Bundle.{find_entry};
    ghost use Rattle.spf_jwt_source.specs.Reads.{BundleAnswer, Gets, OfState, SeesNoLess};

    ghost fits = { λ source pass. pass.book ≡ source.board };

    ghost answers = { λ _ pass domain bundle. OfState pass (λ view.
        option_and_then (find_entry domain) (held_in view) ≡ bundle) };

    fn bundle_for_trust_domain(
        &self,
        seen: &mut JwtPass,
        trust_domain: &TrustDomain,
    ) -> Result<Option<Arc<JwtBundle>>, JwtSourceError>
        requires { seen.old.book ≡ self.now.board }
        ensures fits { seen.new.book ≡ self.now.board }
        ensures answer { IfOk result (λ o. OfState seen.new (λ view.
            option_and_then (find_entry trust_domain.now) (held_in view)
            ≡ option_map arc_value o)) }
        ensures gets { Gets (λ view. BundleAnswer view trust_domain.now) self.now.cell seen.old
            seen.new result }
        ensures pass { SeesNoLess seen.old seen.new }
    {
        self.bundle_of(seen, trust_domain)
    }
}
