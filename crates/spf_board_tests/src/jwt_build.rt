//! Sources that are built over doubles: what a build gives, by the answers of its links, and how
//! the shutdown of what it gives ends.

ghost use Rattle.std.specs.Prelude.{◌≡◌};

use crate::jwt_links::{good, refusing};
use spf_api::{ClientFault, EndpointError, GrpcStatusCode, WorkloadApiError};
use spf_fixtures::{EitherSpawner, FixedClock, Pauses, SummedPause};
use spf_io::{OutOfMemory, Text};
use spf_jwt_feed::{JwtSourceError, NoRecorder};
use spf_jwt_source::{
    BoardPlaces, JwtPass, JwtPlaces, JwtSource, JwtSourceBuilder, JwtSupervisorHandle,
    RefusingPlaces,
};
use spf_link::{Connector, MemConnector, MemLink};
use spf_system::{Job, Joins, MemClock, StepWords};
use std::alloc::Global;
use std::process::Abort;
use std::sync::{Arc, Wait};
use std::time::Duration;

type Builder<C> = JwtSourceBuilder<C, NoRecorder>;

fn name_of(error: &JwtSourceError) -> &'static str {
    match error {
        JwtSourceError::Source(WorkloadApiError::Endpoint(EndpointError::Parse(_))) => {
            "no endpoint"
        }
        JwtSourceError::Source(_) => "an error of the source",
        JwtSourceError::UnsupportedRpc(_) => "an unsupported call",
        JwtSourceError::InitialSyncTimeout => "a timeout",
        JwtSourceError::NoPlace => "no place",
        JwtSourceError::NoSupervisor => "no supervisor",
        JwtSourceError::ShutdownTimeout {
            started: 5,
            ended: 9,
        } => "a late shutdown",
        _ => "another error",
    }
}

/// Whether the state of a source has revision 0, and says accordingly whether the source is closed.
fn is_first(source: &JwtSource, pass: &mut JwtPass, is_closed: bool) -> bool
    requires { pass.old.book ≡ source.now.board }
    ensures { pass.new.book ≡ pass.old.book }
{
    match source.state(pass) {
        Ok(state) => {
            let found = state.revision() == 0 && state.is_closed() == is_closed;
            drop(state);
            found
        }
        Err(OutOfMemory) => false,
    }
}

/// How a shutdown with a grace of so many seconds ends: with revision 0, or an error.
fn shut_down<J: Job, H: Joins<J> + Drop>(
    clock: &mut MemClock,
    handle: JwtSupervisorHandle<J, H>,
    grace: u64,
) -> &'static str {
    match handle.shutdown_with_timeout(clock, Duration::from_secs(grace)) {
        Ok(()) => "revision 0",
        Err(error) => {
            let name = name_of(&error);
            drop(error);
            name
        }
    }
}

/// What a build at the fixed moment gives, and how many delays there were, and their nanoseconds.
/// A source is shut down from the moment 5 to the moment 9, with a grace of so many seconds.
fn built<R, C, L>(
    rt: R,
    alloc: Global,
    builder: Builder<C>,
    spawner: &mut EitherSpawner,
    places: &mut L,
    grace: u64,
) -> (&'static str, (u64, u64))
where
    R: Wait + Abort + Copy + Drop,
    C: Connector + Drop,
    C::Link: Drop,
    L: JwtPlaces,
{
    let pauses = Pauses::none(alloc).expect(&rt, "memory");
    let pause = SummedPause {
        pauses: Arc::try_clone(&pauses).expect(&rt, "memory"),
    };
    let moments = vec![in alloc; Some(5), Some(9)].expect(&rt, "memory");
    let mut clock = MemClock::new(moments);
    let name = match builder.build(
        rt,
        alloc,
        &mut FixedClock,
        pause,
        StepWords::new(0),
        spawner,
        places,
    ) {
        Ok((source, mut pass, handle)) => {
            let is_open = is_first(&source, &mut pass, false);
            let name = shut_down(&mut clock, handle, grace);
            let is_closed = is_first(&source, &mut pass, true);
            drop(pass);
            drop(source);
            if is_open && is_closed {
                name
            } else {
                "another state"
            }
        }
        Err(error) => {
            let name = name_of(&error);
            drop(error);
            name
        }
    };
    let sum = pauses.sum();
    drop(clock);
    drop(pauses);
    (name, sum)
}

/// The link that the word stands for, or why there is no client. Most give the item JI.
fn link(alloc: Global, word: &str) -> Result<Result<MemLink, ClientFault>, OutOfMemory> {
    match word {
        "rejected" => Ok(Ok(refusing(alloc, GrpcStatusCode::InvalidArgument)?)),
        "unsupported" => Ok(Ok(refusing(alloc, GrpcStatusCode::Unimplemented)?)),
        "away" => Ok(Ok(refusing(alloc, GrpcStatusCode::Unavailable)?)),
        "nobody" => Ok(Err(ClientFault::Unreachable(Text::copy_of(alloc, "no socket")?))),
        _ => Ok(Ok(good(alloc)?)),
    }
}

/// A builder over that link, and over a second one that gives the item JI.
fn builder(alloc: Global, word: &str) -> Result<Builder<MemConnector>, OutOfMemory> {
    let mut links = vec![in alloc; link(alloc, word)?]?;
    links.push(Ok(good(alloc)?))?;
    let builder = JwtSourceBuilder::new(MemConnector::new(alloc, links));
    match word {
        "late" => Ok(builder.initial_sync_timeout(Duration::from_secs(0))),
        _ => Ok(builder),
    }
}

/// The first link, the grace of the shutdown, what both give, and how many delays there were, and
/// their nanoseconds: one of 200 ms where the first link refuses for now, and where the first
/// client cannot be made. A shutdown of 4 seconds is late with a grace of 3.
static CAUSES: [(&str, u64, &str, (u64, u64)); 7] = [
    ("rejected", 4, "an error of the source", (0, 0)),
    ("unsupported", 4, "an unsupported call", (0, 0)),
    ("late", 4, "a timeout", (0, 0)),
    ("good", 4, "revision 0", (0, 0)),
    ("good", 3, "a late shutdown", (0, 0)),
    ("away", 4, "revision 0", (1, 200_000_000)),
    ("nobody", 4, "revision 0", (1, 200_000_000)),
];

/// The answers of the links, and the timeouts.
#[test]
fn build_causes(rt: HostRuntime) {
    let alloc = rt.alloc();
    for &(word, grace, wanted, delays) in CAUSES.iter() {
        let builder = builder(alloc, word).expect(&rt, "a builder");
        let found = built(
            rt,
            alloc,
            builder,
            &mut EitherSpawner::inline(),
            &mut BoardPlaces::new(),
            grace,
        );
        assert!(rt; found == (wanted, delays), "{word} {grace}: {}", found.0);
    }
}

/// What a build gives without a place, without a supervisor, and with an invalid endpoint.
#[test]
fn refused_builds(rt: HostRuntime) {
    let alloc = rt.alloc();
    let unplaced = builder(alloc, "good").expect(&rt, "a builder");
    let found = built(
        rt,
        alloc,
        unplaced,
        &mut EitherSpawner::inline(),
        &mut RefusingPlaces::new(),
        4,
    );
    assert!(rt; found.0 == "no place");
    let unsupervised = builder(alloc, "good").expect(&rt, "a builder");
    let found = built(
        rt,
        alloc,
        unsupervised,
        &mut EitherSpawner::refusing(),
        &mut BoardPlaces::new(),
        4,
    );
    assert!(rt; found.0 == "no supervisor");
    let builder = builder(alloc, "good").expect(&rt, "a builder");
    let nowhere = builder.endpoint(rt, alloc, "foo").expect(&rt, "a builder");
    let found = built(
        rt,
        alloc,
        nowhere,
        &mut EitherSpawner::inline(),
        &mut BoardPlaces::new(),
        4,
    );
    assert!(rt; found.0 == "no endpoint");
}
