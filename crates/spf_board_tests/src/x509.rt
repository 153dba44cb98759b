//! The board of an X.509 source, which threads share, and its places.

ghost use Rattle.std.specs.Prelude.{◌≡◌, ◌≢◌, Some, [], IfOk};
ghost use Rattle.spf_board.specs.Lists.{steps_of};
ghost use Rattle.spf_feed.specs.Steps.{MayFollow};

use spf_board::Places;
use spf_feed::{Denial, Prepared, ResourceLimits, Step, validate_limits};
use spf_io::OutOfMemory;
use spf_x509::{X509BundleSet, X509Context};
use spiffe::{
    BoardPlaces, Desk, Ended, Front, PLACES, Pass, PlaceFault, RefusingPlaces, UsableAt, X509,
    open, publish_on, settle,
};
use std::alloc::Global;
use std::snapshot::Snapshot;
use std::sync::{Arc, Wait};
use std::thread;
use std::thread::{Promise, Threads};

const TURNS: u64 = 1_000_000;

// A step that accepts an empty context.
fn accepted(alloc: Global) -> Result<Prepared, OutOfMemory>
    ensures { IfOk result (λ step. MayFollow (Some []) step) }
{
    let set = Arc::new(alloc, X509BundleSet::new(alloc))?;
    let context = X509Context::new(Vec::new(alloc), set, Vec::new(alloc));
    let limits = ResourceLimits::default_limits();
    if validate_limits(&context, limits).is_err() {
        return Err(OutOfMemory);
    }
    let step = Step::Accept {
        context: Arc::new(alloc, context)?,
        limits,
        choice: None,
    };
    Prepared::new(alloc, step)
}

// A board on which that step is published, and its first pass.
fn opened<R: Wait + Drop>(rt: R, alloc: Global) -> Result<(Desk<R>, Pass), OutOfMemory>
    ensures step { IfOk result (λ r. steps_of r.0.list ≢ []) }
    ensures pass { IfOk result (λ r. r.1.book ≡ r.0.book) }
{
    let step = accepted(alloc)?;
    open(alloc, rt, step)
}

// Publishes a denial.
fn withdraw<R: Wait + Drop>(alloc: Global, desk: &mut Desk<R>) -> Result<(), OutOfMemory>
    requires { steps_of desk.old.list ≢ [] }
    ensures { desk.new.book ≡ desk.old.book }
{
    let reason = Arc::new(alloc, Denial::NoIdentityIssued)?;
    publish_on(alloc, desk, Step::Deny { reason })
}

// The promise that an ended writer is of the board of a front.
#[derive(Drop)]
struct OfBoard(Snapshot<Front<X509>>);

impl<R: Wait + Drop> Promise<Ended<R>> for OfBoard {
    ghost use Rattle.std.specs.Prelude.{◌≡◌};

    ghost kept_by = { λ promise ended. ended.book ≡ promise.0.value.book };
}

// Publishes the end on another thread.
fn end_elsewhere<R: Threads + Wait + Copy + Drop + Send + 'static>(
    rt: &R,
    desk: Desk<R>,
) -> Result<Ended<R>, OutOfMemory>
    ensures { IfOk result (λ ended. ended.book ≡ desk.book) }
{
    let front = desk.front();
    let Ok(child) = thread::spawn_with(rt, OfBoard(Snapshot::of(&front)), move || desk.end()) else {
        return Err(OutOfMemory);
    };
    Ok(child.join(rt))
}

// Whether a revision is read within this many turns.
fn reads(pass: &mut Pass, revision: u64) -> bool {
    for _ in 0..TURNS {
        if let Ok(state) = pass.state(false) {
            if state.revision() == revision {
                return true;
            }
        }
        thread::yield_now();
    }
    false
}

// Whether the state of an open source has revision 0, and nothing is withdrawn.
fn is_opening(pass: &mut Pass) -> bool
    ensures { pass.new.book ≡ pass.old.book }
{
    match pass.state(false) {
        Ok(state) => {
            let found = state.revision() == 0 && !state.is_closed() && state.withdrawal().is_none();
            drop(state);
            found
        }
        Err(OutOfMemory) => false,
    }
}

// Whether the state of a closed source has revision 1, at which the material is withdrawn.
fn is_withdrawn(pass: &mut Pass) -> bool
    ensures { pass.new.book ≡ pass.old.book }
{
    match pass.state(true) {
        Ok(state) => {
            let found = state.revision() == 1 && state.is_closed() && state.withdrawal().is_some();
            drop(state);
            found
        }
        Err(OutOfMemory) => false,
    }
}

// Whether what an ended writer has published is recorded, with its end.
fn is_settled<R: Wait + Drop>(ended: Ended<R>, pass: &mut Pass) -> bool
    requires { pass.old.book ≡ ended.book }
{
    match settle(ended, pass) {
        Ok(recorded) => {
            drop(recorded);
            true
        }
        Err(OutOfMemory) => false,
    }
}

#[test]
fn a_step_is_read_on_another_thread(rt: HostRuntime) {
    let alloc = rt.alloc();
    let (mut desk, mut pass) = opened(rt, alloc).expect(&rt, "a board");
    assert!(rt; is_opening(&mut pass));
    let mut other = pass.another().expect(&rt, "a place");
    let reader = thread::spawn(&rt, move || reads(&mut other, 1)).expect(&rt, "a thread");
    withdraw(alloc, &mut desk).expect(&rt, "a denial");
    let ended = end_elsewhere(&rt, desk).expect(&rt, "a thread");
    assert!(rt; reader.join(&rt));
    assert!(rt; is_settled(ended, &mut pass));
    assert!(rt; is_withdrawn(&mut pass));
    drop(pass);
}

// Whether there is a place, which is given back.
fn has_place(places: &mut BoardPlaces, pass: &mut Pass) -> bool {
    match places.take(pass) {
        Ok(other) => {
            other.give_back(pass);
            true
        }
        Err(_) => false,
    }
}

// Whether there is no place.
fn is_refused<L: spiffe::Places>(places: &mut L, pass: &mut Pass) -> bool {
    match places.take(pass) {
        Ok(other) => {
            drop(other);
            false
        }
        Err(fault) => fault == PlaceFault::Refused,
    }
}

#[test]
fn a_board_has_sixty_four_places(rt: HostRuntime) {
    let (desk, mut pass) = opened(rt, rt.alloc()).expect(&rt, "a board");
    let mut places = BoardPlaces::new();
    assert!(rt; has_place(&mut places, &mut pass));
    let mut others = Vec::new(rt.alloc());
    for _ in 1..PLACES {
        let other = places.take(&mut pass).expect(&rt, "a place");
        assert!(rt; others.push(other).is_ok());
    }
    assert!(rt; is_refused(&mut places, &mut pass));
    assert!(rt; is_refused(&mut RefusingPlaces::new(), &mut pass));
    assert!(rt; !pass.peek(&UsableAt { now: Some(0) }));
    drop(others);
    drop(pass);
    drop(desk);
}

#[test]
fn a_pass_reads_on_after_the_writer(rt: HostRuntime) {
    let (desk, mut pass) = opened(rt, rt.alloc()).expect(&rt, "a board");
    assert!(rt; !is_settled(desk.stop(), &mut pass));
    assert!(rt; is_opening(&mut pass));
    drop(pass);
}
