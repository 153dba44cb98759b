//! The closed cell of a live source, and its bell.

use spf_system::{Bell, Closer, Maker, Watch, closed_cell};
use std::thread;

fn maker_seen(watch: &Watch) -> Option<Maker> {
    match watch.look() {
        Some(closed) => Some(closed.maker()),
        None => None,
    }
}

/// The first mark stays, and closing again changes nothing.
#[test]
fn first_mark_stays(rt: HostRuntime) {
    let (mut caller, mut supervisor, watch) = closed_cell(rt.alloc()).expect(&rt, "a cell");
    let first = caller.watch().expect(&rt, "a watch");
    let other = first.try_clone().expect(&rt, "a watch");
    drop(first);
    assert!(rt; maker_seen(&watch).is_none());
    supervisor.close();
    assert!(rt; maker_seen(&watch) == Some(Maker::Supervisor));
    caller.close();
    supervisor.close();
    assert!(rt; maker_seen(&other) == Some(Maker::Supervisor));
}

/// Another closer closes in the name of its maker.
#[test]
fn another_closer(rt: HostRuntime) {
    let (mut caller, _supervisor, watch) = closed_cell(rt.alloc()).expect(&rt, "a cell");
    let mut second = caller.another(rt.alloc()).expect(&rt, "a closer");
    second.close();
    caller.close();
    assert!(rt; maker_seen(&watch) == Some(Maker::Caller));
}

/// A mark that one thread makes is seen by others.
#[test]
fn mark_is_seen_by_other_threads(rt: HostRuntime) {
    let (caller, _supervisor, watch) = closed_cell(rt.alloc()).expect(&rt, "a cell");
    let _ = thread::join(
        &rt,
        move || {
            let mut closer: Closer = caller;
            closer.close();
        },
        || watch.look().is_some(),
    );
    let seen = thread::join(&rt, || maker_seen(&watch), || maker_seen(&watch));
    assert!(rt; seen == (Some(Maker::Caller), Some(Maker::Caller)));
}

/// A ring is counted by every clone, and nobody waits for a ring that has been.
#[test]
fn rings_are_counted(rt: HostRuntime) {
    let bell = Bell::new(rt.alloc()).expect(&rt, "a bell");
    let other = bell.try_clone().expect(&rt, "a bell");
    let seen = bell.now();
    assert!(rt; other.now() == seen);
    other.ring();
    bell.wait_past(&rt, seen);
    assert!(rt; bell.now() != seen);
    bell.ring();
    assert!(rt; bell.now().wrapping_sub(seen) == 2);
    assert!(rt; other.now() == bell.now());
}
