//! A source before and after it is closed.

ghost use Rattle.std.specs.Prelude.{◌≡◌, ◌≢◌, Some, [], IfOk};
ghost use Rattle.spf_board.specs.Lists.{steps_of};
ghost use Rattle.spf_jwt_feed.specs.Steps.{MayFollow};

use crate::jwt_links::key_sets;
use spf_feed::Denial;
use spf_id::TrustDomain;
use spf_io::OutOfMemory;
use spf_jwt::{JwtBundleSet, JwtResourceLimits, jwt_bundle_set_from, validate_jwt_limits};
use spf_jwt_feed::{JwtSourceError, JwtStep};
use spf_jwt_source::{
    BoardPlaces, JwtDesk, JwtPass, JwtSource, JwtSourceUpdates, RefusingPlaces, SharedStep, open,
    publish_on,
};
use spf_system::{Bell, StopFlag, closed_cell};
use std::alloc::Global;
use std::process::Abort;
use std::sync::{Arc, Wait};
use std::time::Clock;

/// A step that accepts the bundle set.
fn accepting(alloc: Global, bundle_set: JwtBundleSet) -> Result<SharedStep, OutOfMemory>
    ensures { IfOk result (λ step. MayFollow (Some []) step) }
{
    let limits = JwtResourceLimits::default_limits();
    if validate_jwt_limits(&bundle_set, limits).is_err() {
        drop(bundle_set);
        return Err(OutOfMemory);
    }
    Ok(SharedStep::new(JwtStep::Accept {
        bundle_set: Arc::new(alloc, bundle_set)?,
        limits,
    }))
}

/// The bundle set of the item JI.
fn first_bundles(alloc: Global) -> Result<JwtBundleSet, OutOfMemory> {
    let item = key_sets(alloc)?;
    let bundle_set = jwt_bundle_set_from(alloc, &item);
    drop(item);
    match bundle_set {
        Ok(bundle_set) => Ok(bundle_set),
        Err(e) => {
            drop(e);
            Err(OutOfMemory)
        }
    }
}

/// The step that accepts them.
fn first_step(alloc: Global) -> Result<SharedStep, OutOfMemory>
    ensures { IfOk result (λ step. MayFollow (Some []) step) }
{
    accepting(alloc, first_bundles(alloc)?)
}

/// An open source, a pass of its board, what publishes on it, and the mark that its closer sets.
#[derive(Drop)]
pub(crate) struct Held<R: Wait + Drop> {
    pub(crate) source: JwtSource,
    pub(crate) pass: JwtPass,
    pub(crate) desk: JwtDesk<R>,
    pub(crate) stop: StopFlag,
}

pub(crate) fn opened<R: Wait + Abort + Copy + Drop>(rt: R, alloc: Global) -> Held<R>
    ensures pass { result.pass.book ≡ result.source.board }
    ensures step { steps_of result.desk.list ≢ [] }
{
    let step = first_step(alloc).expect(&rt, "a step");
    let (desk, pass) = open(alloc, rt, step).expect(&rt, "a board");
    let (caller, supervisor, watch) = closed_cell(alloc).expect(&rt, "a closed cell");
    drop(supervisor);
    drop(watch);
    let stop = StopFlag::new(alloc).expect(&rt, "a flag");
    let flag = stop.try_clone().expect(&rt, "a flag");
    let bell = Bell::new(alloc).expect(&rt, "a bell");
    let source = JwtSource::over(alloc, desk.front(), caller, flag, bell);
    Held {
        source: source.expect(&rt, "a source"),
        pass,
        desk,
        stop,
    }
}

/// Publishes a denial.
fn withdraw<R: Wait + Drop>(alloc: Global, desk: &mut JwtDesk<R>) -> Result<(), OutOfMemory>
    requires { steps_of desk.old.list ≢ [] }
{
    let reason = Arc::new(alloc, Denial::NoIdentityIssued)?;
    publish_on(desk, JwtStep::Deny { reason })
}

fn name_of(error: &JwtSourceError) -> &'static str {
    match error {
        JwtSourceError::Withdrawn(_) => "withdrawn",
        JwtSourceError::Closed => "closed",
        _ => "another error",
    }
}

/// What the getter of the bundle set returns.
fn bundles_of(source: &JwtSource, pass: &mut JwtPass) -> &'static str
    requires { pass.old.book ≡ source.now.board }
    ensures { pass.new.book ≡ pass.old.book }
{
    match source.bundle_set(pass) {
        Ok(bundles) => {
            drop(bundles);
            "a value"
        }
        Err(error) => {
            let name = name_of(&error);
            drop(error);
            name
        }
    }
}

/// Whether there is a bundle of the trust domain.
fn has_bundle(source: &JwtSource, pass: &mut JwtPass, trust_domain: &TrustDomain) -> bool
    requires { pass.old.book ≡ source.now.board }
    ensures { pass.new.book ≡ pass.old.book }
{
    match source.try_bundle_for_trust_domain(pass, trust_domain) {
        Ok(Some(bundle)) => {
            drop(bundle);
            true
        }
        Ok(None) => false,
        Err(OutOfMemory) => false,
    }
}

/// Whether the getter of the bundle set returns this, and there is accordingly a bundle of the
/// trust domain, and the source healthy.
fn gives(source: &JwtSource, pass: &mut JwtPass, domain: &TrustDomain, wanted: &str) -> bool
    requires { pass.old.book ≡ source.now.board }
    ensures { pass.new.book ≡ pass.old.book }
{
    let is_wanted = bundles_of(source, pass) == wanted;
    let has_bundle = has_bundle(source, pass, domain);
    let is_healthy = source.is_healthy(pass);
    let is_open = wanted == "a value";
    is_wanted && has_bundle == is_open && is_healthy == is_open
}

/// Whether the state is closed, and of that revision.
fn is_closed_at(source: &JwtSource, pass: &mut JwtPass, revision: u64) -> bool
    requires { pass.old.book ≡ source.now.board }
{
    match source.state(pass) {
        Ok(state) => {
            let found = state.is_closed() && state.revision() == revision;
            drop(state);
            found
        }
        Err(OutOfMemory) => false,
    }
}

/// What the getters return before and after a shutdown.
#[test]
fn after_shutdown(rt: HostRuntime) {
    let alloc = rt.alloc();
    let domain = TrustDomain::new(alloc, "example.org").expect(&rt, "a trust domain");
    let mut held = opened(rt, alloc);
    assert!(rt; gives(&held.source, &mut held.pass, &domain, "a value"));
    assert!(rt; withdraw(alloc, &mut held.desk).is_ok());
    assert!(rt; gives(&held.source, &mut held.pass, &domain, "withdrawn"));
    held.source.shutdown();
    assert!(rt; held.stop.is_set());
    assert!(rt; gives(&held.source, &mut held.pass, &domain, "closed"));
    assert!(rt; is_closed_at(&held.source, &mut held.pass, 1));
    drop(held);
    drop(domain);
}

/// Whether the last revision of updates is 0.
fn has_last(updates: &mut JwtSourceUpdates) -> bool {
    match updates.last() {
        Ok(last) => last == 0,
        Err(OutOfMemory) => false,
    }
}

/// Whether the state of updates has revision 0, and says accordingly whether the source is closed.
fn has_state(updates: &mut JwtSourceUpdates, is_closed: bool) -> bool {
    match updates.state() {
        Ok(state) => {
            let found = state.revision() == 0 && state.is_closed() == is_closed;
            drop(state);
            found
        }
        Err(OutOfMemory) => false,
    }
}

/// Whether updates follow revision 0, and say accordingly whether the source is closed.
fn follows_first(source: &JwtSource, pass: &mut JwtPass, is_closed: bool) -> bool
    requires { pass.old.book ≡ source.now.board }
    ensures { pass.new.book ≡ pass.old.book }
{
    match source.updated(pass, &mut BoardPlaces::new()) {
        Ok(mut updates) => {
            let found = has_last(&mut updates) && has_state(&mut updates, is_closed);
            drop(updates);
            found
        }
        Err(error) => {
            drop(error);
            false
        }
    }
}

/// Whether there is no further pass where there is no place.
fn lacks_place(source: &JwtSource, pass: &mut JwtPass) -> bool
    requires { pass.old.book ≡ source.now.board }
{
    match source.another_pass(pass, &mut RefusingPlaces::new()) {
        Ok(other) => {
            drop(other);
            false
        }
        Err(error) => {
            let found = matches!(&error, JwtSourceError::NoPlace);
            drop(error);
            found
        }
    }
}

/// Updates go on after the source is closed. Where there is no place there are none.
#[test]
fn updates_of_a_source(rt: HostRuntime) {
    let mut held = opened(rt, rt.alloc());
    assert!(rt; follows_first(&held.source, &mut held.pass, false));
    held.source.shutdown();
    assert!(rt; follows_first(&held.source, &mut held.pass, true));
    assert!(rt; lacks_place(&held.source, &mut held.pass));
    drop(held);
}

/// Whether a wait returned that revision, or Closed where there is none.
fn is_awaited(answer: Result<u64, JwtSourceError>, wanted: Option<u64>) -> bool {
    match answer {
        Ok(revision) => wanted == Some(revision),
        Err(error) => {
            let is_closed = matches!(&error, JwtSourceError::Closed);
            drop(error);
            is_closed && wanted.is_none()
        }
    }
}

/// Whether waits return that: `wait_for` with the revisions from 1 on, and `changed`.
fn waits<R: Wait + Clock>(
    rt: &R,
    updates: &mut JwtSourceUpdates,
    taken: Option<u64>,
    changed: Option<u64>,
) -> bool {
    let is_taken = is_awaited(updates.wait_for(rt, |revision| *revision >= 1), taken);
    is_awaited(updates.changed(rt), changed) && is_taken
}

/// Waits end at once where there is another revision, or the source is closed.
#[test]
fn waits_for_a_change(rt: HostRuntime) {
    let mut held = opened(rt, rt.alloc());
    let updates = held.source.updated(&mut held.pass, &mut BoardPlaces::new());
    let mut updates = updates.expect(&rt, "updates");
    let late = held.source.updated(&mut held.pass, &mut BoardPlaces::new());
    let mut late = late.expect(&rt, "updates");
    assert!(rt; withdraw(rt.alloc(), &mut held.desk).is_ok());
    assert!(rt; waits(&rt, &mut updates, Some(1), Some(1)));
    held.source.shutdown();
    assert!(rt; waits(&rt, &mut late, None, Some(1)));
    assert!(rt; waits(&rt, &mut late, None, None));
    drop(late);
    drop(updates);
    drop(held);
}

/// The source is closed when its last handle is dropped, and not before.
#[test]
fn last_handle_closes(rt: HostRuntime) {
    let Held {
        mut source,
        pass,
        desk,
        stop,
    } = opened(rt, rt.alloc());
    let other = source.try_clone().expect(&rt, "a handle");
    drop(source);
    assert!(rt; !stop.is_set());
    drop(other);
    assert!(rt; stop.is_set());
    drop(stop);
    drop(desk);
    drop(pass);
}
