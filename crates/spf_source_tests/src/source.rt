//! A source before and after it is closed.

ghost use Rattle.std.specs.Prelude.{◌≡◌, ◌≢◌, Some, [], IfOk};
ghost use Rattle.spf_board.specs.Lists.{steps_of};
ghost use Rattle.spf_feed.specs.Steps.{MayFollow};

use spf_api::context_from;
use spf_feed::{
    Denial, NoPicker, Prepared, ResourceLimits, Step, X509SourceError, X509SourceState,
    select_svid, validate_limits,
};
use spf_fixtures::{FIRST, context};
use spf_id::TrustDomain;
use spf_io::OutOfMemory;
use spf_system::{Bell, StopFlag, closed_cell};
use spf_x509::X509Context;
use spiffe::{
    BoardPlaces, Desk, Pass, RefusingPlaces, X509Source, X509SourceUpdates, open, publish_on,
};
use std::alloc::Global;
use std::process::Abort;
use std::sync::{Arc, Wait};
use std::test::Fail;
use std::time::Clock;

/// A step that accepts the context, with its first SVID.
fn accepting(alloc: Global, context: X509Context) -> Result<Prepared, OutOfMemory>
    ensures { IfOk result (λ step. MayFollow (Some []) step) }
{
    let limits = ResourceLimits::default_limits();
    if validate_limits(&context, limits).is_err() {
        drop(context);
        return Err(OutOfMemory);
    }
    let choice = select_svid(&context, None::<&NoPicker>);
    let step = Step::Accept {
        context: Arc::new(alloc, context)?,
        limits,
        choice,
    };
    Prepared::new(alloc, step)
}

/// The context of the item I1, with these federated bundles.
fn first_context(alloc: Global, federated: &[(&str, &str)]) -> Result<X509Context, Fail> {
    let item = context(alloc, &[FIRST], federated)?;
    let context = context_from(alloc, &item);
    drop(item);
    Ok(context?)
}

fn name_of(e: &X509SourceError) -> &'static str {
    match e {
        X509SourceError::NoSuitableSvid => "no SVID",
        X509SourceError::Withdrawn(_) => "withdrawn",
        X509SourceError::Closed => "closed",
        _ => "another error",
    }
}

/// The name of what a getter returned.
fn name_of_answer<T: Drop>(answer: Result<T, X509SourceError>) -> &'static str {
    match answer {
        Ok(value) => {
            drop(value);
            "a value"
        }
        Err(e) => {
            let name = name_of(&e);
            drop(e);
            name
        }
    }
}

/// Whether something was found.
fn is_found<T: Drop>(answer: Result<Option<T>, OutOfMemory>) -> bool {
    match answer {
        Ok(Some(value)) => {
            drop(value);
            true
        }
        Ok(None) => false,
        Err(OutOfMemory) => false,
    }
}

/// Whether a source gives at a moment this in place of its context and its bundles, and that in
/// place of an SVID; and accordingly finds an SVID and a bundle of the trust domain, and is
/// healthy.
fn gives(
    source: &X509Source,
    pass: &mut Pass,
    domain: &TrustDomain,
    now: i64,
    wanted: &str,
    wanted_svid: &str,
) -> bool
    requires { pass.old.book ≡ source.now.board }
    ensures { pass.new.book ≡ pass.old.book }
{
    let is_context = name_of_answer(source.x509_context(pass)) == wanted;
    let is_svid = name_of_answer(source.svid(pass, Some(now))) == wanted_svid;
    let is_bundles = name_of_answer(source.bundle_set(pass)) == wanted;
    let has_svid = is_found(source.try_svid(pass, Some(now)));
    let has_bundle = is_found(source.try_bundle_for_trust_domain(pass, domain));
    let is_healthy = source.is_healthy(pass, Some(now));
    let is_usable = wanted_svid == "a value";
    let is_open = wanted == "a value";
    is_context
        && is_svid
        && is_bundles
        && has_svid == is_usable
        && is_healthy == is_usable
        && has_bundle == is_open
}

/// An open source, a pass of its board, what publishes on it, and the mark that its closer sets.
#[derive(Drop)]
pub(crate) struct Held<R: Wait + Drop> {
    pub(crate) source: X509Source,
    pub(crate) pass: Pass,
    pub(crate) desk: Desk<R>,
    pub(crate) stop: StopFlag,
}

/// A source that accepted the item I1.
pub(crate) fn opened<R: Wait + Abort + Copy + Drop>(rt: R, alloc: Global) -> Result<Held<R>, Fail>
    ensures pass { IfOk result (λ r. r.pass.book ≡ r.source.board) }
    ensures step { IfOk result (λ r. steps_of r.desk.list ≢ []) }
{
    opened_with(rt, alloc, &[])
}

/// A source that accepted the item I1 with these federated bundles.
pub(crate) fn opened_with<R: Wait + Abort + Copy + Drop>(
    rt: R,
    alloc: Global,
    federated: &[(&str, &str)],
) -> Result<Held<R>, Fail>
    ensures pass { IfOk result (λ r. r.pass.book ≡ r.source.board) }
    ensures step { IfOk result (λ r. steps_of r.desk.list ≢ []) }
{
    let step = accepting(alloc, first_context(alloc, federated)?)?;
    let (desk, pass) = open(alloc, rt, step)?;
    let (caller, supervisor, watch) = closed_cell(alloc).expect(&rt, "a closed cell");
    drop(supervisor);
    drop(watch);
    let stop = StopFlag::new(alloc).expect(&rt, "a flag");
    let flag = stop.try_clone().expect(&rt, "a flag");
    let bell = Bell::new(alloc).expect(&rt, "a bell");
    let source = X509Source::over(alloc, desk.front(), caller, flag, bell);
    Ok(Held {
        source: source.expect(&rt, "a source"),
        pass,
        desk,
        stop,
    })
}

/// What the getters return before and after a shutdown.
#[test]
fn after_shutdown(rt: HostRuntime) -> Result<(), Fail> {
    let mut held = opened(rt, rt.alloc())?;
    let domain = TrustDomain::new(rt.alloc(), "example.org").expect(&rt, "a trust domain");
    assert!(rt;
        gives(
            &held.source,
            &mut held.pass,
            &domain,
            999,
            "a value",
            "a value"
        )
    );
    assert!(rt;
        gives(
            &held.source,
            &mut held.pass,
            &domain,
            1000,
            "a value",
            "no SVID"
        )
    );
    held.source.shutdown();
    assert!(rt; held.stop.is_set());
    assert!(rt;
        gives(
            &held.source,
            &mut held.pass,
            &domain,
            999,
            "closed",
            "closed"
        )
    );
    drop(domain);
    drop(held);
    Ok(())
}

/// Whether that is the last revision of updates.
fn has_last(updates: &mut X509SourceUpdates, revision: u64) -> bool {
    match updates.last() {
        Ok(last) => last == revision,
        Err(OutOfMemory) => false,
    }
}

/// Whether the state of updates has that revision, and says accordingly whether the source is
/// closed.
fn has_state(updates: &mut X509SourceUpdates, revision: u64, is_closed: bool) -> bool {
    match updates.state() {
        Ok(state) => {
            let found = state.revision() == revision && state.is_closed() == is_closed;
            drop(state);
            found
        }
        Err(OutOfMemory) => false,
    }
}

/// Whether updates follow revision 0, and say accordingly whether the source is closed.
fn follows_first(source: &X509Source, pass: &mut Pass, is_closed: bool) -> bool
    requires { pass.old.book ≡ source.now.board }
    ensures { pass.new.book ≡ pass.old.book }
{
    match source.updated(pass, &mut BoardPlaces::new()) {
        Ok(mut updates) => {
            let found = has_last(&mut updates, 0) && has_state(&mut updates, 0, is_closed);
            drop(updates);
            found
        }
        Err(e) => {
            drop(e);
            false
        }
    }
}

/// Whether there is no further pass where there is no place.
fn lacks_place(source: &X509Source, pass: &mut Pass) -> bool
    requires { pass.old.book ≡ source.now.board }
{
    match source.another_pass(pass, &mut RefusingPlaces::new()) {
        Ok(other) => {
            drop(other);
            false
        }
        Err(e) => {
            let found = matches!(&e, X509SourceError::NoPlace);
            drop(e);
            found
        }
    }
}

/// Updates go on after the source is closed. Where there is no place there are none.
#[test]
fn updates_of_a_source(rt: HostRuntime) -> Result<(), Fail> {
    let mut held = opened(rt, rt.alloc())?;
    assert!(rt; follows_first(&held.source, &mut held.pass, false));
    held.source.shutdown();
    assert!(rt; follows_first(&held.source, &mut held.pass, true));
    assert!(rt; lacks_place(&held.source, &mut held.pass));
    drop(held);
    Ok(())
}

/// Publishes a denial.
pub(crate) fn withdraw<R: Wait + Drop>(alloc: Global, desk: &mut Desk<R>) -> Result<(), OutOfMemory>
    requires { steps_of desk.old.list ≢ [] }
{
    let reason = Arc::new(alloc, Denial::NoIdentityIssued)?;
    publish_on(alloc, desk, Step::Deny { reason })
}

/// Whether a wait returned that revision, or Closed where there is none.
fn is_awaited(answer: Result<u64, X509SourceError>, wanted: Option<u64>) -> bool {
    match answer {
        Ok(revision) => wanted == Some(revision),
        Err(e) => {
            let is_closed = matches!(&e, X509SourceError::Closed);
            drop(e);
            is_closed && wanted.is_none()
        }
    }
}

/// Whether waits return that: `wait_for` with the revisions from 1 on, and `changed`.
fn waits<R: Wait + Clock>(
    rt: &R,
    updates: &mut X509SourceUpdates,
    taken: Option<u64>,
    changed: Option<u64>,
) -> bool {
    let is_taken = is_awaited(updates.wait_for(rt, |revision| *revision >= 1), taken);
    is_awaited(updates.changed(rt), changed) && is_taken
}

/// Waits end at once where there is another revision, or the source is closed.
#[test]
fn waits_for_a_change(rt: HostRuntime) -> Result<(), Fail> {
    let mut held = opened(rt, rt.alloc())?;
    let updates = held.source.updated(&mut held.pass, &mut BoardPlaces::new());
    let mut updates = updates.expect(&rt, "updates");
    let late = held.source.updated(&mut held.pass, &mut BoardPlaces::new());
    let mut late = late.expect(&rt, "updates");
    assert!(rt; withdraw(rt.alloc(), &mut held.desk).is_ok());
    assert!(rt; waits(&rt, &mut updates, Some(1), Some(1)));
    held.source.shutdown();
    assert!(rt; waits(&rt, &mut late, None, Some(1)));
    assert!(rt; waits(&rt, &mut late, None, None));
    drop(late);
    drop(updates);
    drop(held);
    Ok(())
}

/// Whether a state is withdrawn for the published reason, at revision 1, and so are its getters.
fn is_denial(state: &X509SourceState) -> bool {
    let is_context = name_of_answer(state.context()) == "withdrawn";
    let is_svid = name_of_answer(state.svid(Some(999))) == "withdrawn";
    let is_reason = match state.withdrawal() {
        Some(reason) => matches!(&**reason, Denial::NoIdentityIssued),
        None => false,
    };
    is_context && is_svid && is_reason && state.revision() == 1
}

/// Whether a source shows the denial, and says accordingly whether it is closed.
fn shows_denial(source: &X509Source, pass: &mut Pass, is_closed: bool) -> bool
    requires { pass.old.book ≡ source.now.board }
    ensures { pass.new.book ≡ pass.old.book }
{
    match source.state(pass) {
        Ok(state) => {
            let found = is_denial(&state) && state.is_closed() == is_closed;
            drop(state);
            found
        }
        Err(OutOfMemory) => false,
    }
}

/// What the getters and updates return after a denial was read, before and after a shutdown.
#[test]
fn shutdown_after_denial(rt: HostRuntime) -> Result<(), Fail> {
    let mut held = opened(rt, rt.alloc())?;
    let domain = TrustDomain::new(rt.alloc(), "example.org").expect(&rt, "a trust domain");
    assert!(rt; withdraw(rt.alloc(), &mut held.desk).is_ok());
    assert!(rt; shows_denial(&held.source, &mut held.pass, false));
    assert!(rt;
        gives(
            &held.source,
            &mut held.pass,
            &domain,
            999,
            "withdrawn",
            "withdrawn"
        )
    );
    let updates = held.source.updated(&mut held.pass, &mut BoardPlaces::new());
    let mut updates = updates.expect(&rt, "updates");
    held.source.shutdown();
    assert!(rt;
        gives(
            &held.source,
            &mut held.pass,
            &domain,
            999,
            "closed",
            "closed"
        )
    );
    assert!(rt; shows_denial(&held.source, &mut held.pass, true));
    assert!(rt; waits(&rt, &mut updates, None, None));
    assert!(rt; has_last(&mut updates, 1));
    assert!(rt; has_state(&mut updates, 1, true));
    drop(updates);
    drop(domain);
    drop(held);
    Ok(())
}

/// The source is closed when its last handle is dropped, and not before.
#[test]
fn last_handle_closes(rt: HostRuntime) -> Result<(), Fail> {
    let Held {
        mut source,
        pass,
        desk,
        stop,
    } = opened(rt, rt.alloc())?;
    let other = source.try_clone().expect(&rt, "a handle");
    drop(source);
    assert!(rt; !stop.is_set());
    drop(other);
    assert!(rt; stop.is_set());
    drop(stop);
    drop(desk);
    drop(pass);
    Ok(())
}
