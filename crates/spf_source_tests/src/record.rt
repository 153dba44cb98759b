//! A supervisor that runs where it is joined: its record, and how it is shut down.

ghost use Rattle.std.specs.Prelude.{◌≡◌};

use spf_feed::{NoPicker, Step, X509SourceError};
use spf_fixtures::{FixedClock, Pauses, SummedPause, connector, good_link};
use spf_io::OutOfMemory;
use spf_link::MemConnector;
use spf_system::{InlineSpawner, Job, Joins, MemClock, StepWords};
use spiffe::{BoardPlaces, Pass, Supervised, SupervisorEnd, SupervisorHandle, X509Source};
use std::alloc::Global;
use std::process::Abort;
use std::sync::Wait;
use std::test::Fail;
use std::time::Duration;

/// Whether a record has four events (the moment, the client, the start and the item), of which one
/// step comes that accepts, and its end is Closed.
fn is_opening(record: &Supervised<NoPicker>) -> bool {
    let is_accepted = match record.steps() {
        [Step::Accept { .. }] => true,
        _ => false,
    };
    is_accepted && record.events().len() == 4 && record.end() == SupervisorEnd::Closed
}

/// Whether a source of this connector leaves such a record, whose supervisor this closes and joins.
fn is_recorded<R: Wait + Abort + Copy + Drop>(
    rt: R,
    alloc: Global,
    connector: MemConnector,
) -> bool {
    let pauses = Pauses::none(alloc).expect(&rt, "memory");
    let built = X509Source::builder(connector).build(
        rt,
        alloc,
        &mut FixedClock,
        SummedPause { pauses },
        StepWords::new(0),
        &mut InlineSpawner,
        &mut BoardPlaces::new(),
    );
    let (source, mut pass, handle) = built.expect(&rt, "a source");
    let record = handle.join_record(&mut pass);
    drop(pass);
    drop(source);
    match record {
        Ok(record) => {
            let found = is_opening(&record);
            drop(record);
            found
        }
        Err(OutOfMemory) => false,
    }
}

/// The row inline-record.
#[test]
fn inline_record(rt: HostRuntime) -> Result<(), Fail> {
    let connector = connector(rt.alloc(), good_link(rt.alloc())?)?;
    assert!(rt; is_recorded(rt, rt.alloc(), connector));
    Ok(())
}

/// A clock that gives 5 and then 9.
fn clock(rt: &impl Abort, alloc: Global) -> MemClock {
    let moments = vec![in alloc; Some(5), Some(9)];
    MemClock::new(moments.expect(rt, "memory"))
}

fn duration_of(seconds: Option<u64>) -> Option<Duration> {
    match seconds {
        Some(seconds) => Some(Duration::from_secs(seconds)),
        None => None,
    }
}

/// Whether the state of a source is closed.
fn closed_of(source: &X509Source, pass: &mut Pass) -> Option<bool>
    requires { pass.old.book ≡ source.now.board }
    ensures { pass.new.book ≡ pass.old.book }
{
    match source.state(pass) {
        Ok(state) => {
            let is_closed = state.is_closed();
            drop(state);
            Some(is_closed)
        }
        Err(OutOfMemory) => None,
    }
}

/// Shuts down with this grace in seconds, or with the grace of the builder.
fn shut<J: Job, H: Joins<J> + Drop>(
    handle: SupervisorHandle<J, H>,
    clock: &mut MemClock,
    grace: Option<u64>,
) -> Result<(), X509SourceError> {
    match grace {
        Some(seconds) => handle.shutdown_with_timeout(clock, Duration::from_secs(seconds)),
        None => handle.shutdown_configured(clock),
    }
}

/// The moments of an error of a shutdown.
fn moments_of(e: &X509SourceError) -> Option<(i64, i64)> {
    match e {
        X509SourceError::ShutdownTimeout { started, ended } => Some((*started, *ended)),
        _ => None,
    }
}

/// Whether a shutdown timed out with these moments, or not at all where there are none.
fn is_answer(answer: Result<(), X509SourceError>, wanted: Option<(i64, i64)>) -> bool {
    match answer {
        Ok(()) => wanted.is_none(),
        Err(e) => {
            let moments = moments_of(&e);
            drop(e);
            wanted.is_some() && moments == wanted
        }
    }
}

/// The grace of the builder and that of `shutdown_with_timeout`, in seconds, and the moments of
/// the error. Without the second grace it is `shutdown_configured`.
type Shutdown = (Option<u64>, Option<u64>, Option<(i64, i64)>);

static SHUTDOWNS: [Shutdown; 4] = [
    (Some(4), Some(3), Some((5, 9))),
    (Some(3), Some(4), None),
    (None, None, None),
    (Some(3), None, Some((5, 9))),
];

/// Whether a shutdown from 5 to 9 closes a source of this connector, and answers so.
fn is_shut<R: Wait + Abort + Copy + Drop>(
    rt: R,
    alloc: Global,
    connector: MemConnector,
    row: Shutdown,
) -> bool {
    let (configured, grace, wanted) = row;
    let pauses = Pauses::none(alloc).expect(&rt, "memory");
    let mut clock = clock(&rt, alloc);
    let builder = X509Source::builder(connector).shutdown_timeout(duration_of(configured));
    let is_shut = match builder.build(
        rt,
        alloc,
        &mut FixedClock,
        SummedPause { pauses },
        StepWords::new(0),
        &mut InlineSpawner,
        &mut BoardPlaces::new(),
    ) {
        Ok((source, mut pass, handle)) => {
            let was_closed = closed_of(&source, &mut pass);
            let answer = shut(handle, &mut clock, grace);
            let is_closed = closed_of(&source, &mut pass);
            drop(pass);
            drop(source);
            is_answer(answer, wanted) && was_closed == Some(false) && is_closed == Some(true)
        }
        Err(e) => {
            drop(e);
            false
        }
    };
    drop(clock);
    is_shut
}

/// The row after-shutdown: what a shutdown answers by its grace.
#[test]
fn shutdowns(rt: HostRuntime) -> Result<(), Fail> {
    let alloc = rt.alloc();
    for &row in SHUTDOWNS.iter() {
        let connector = connector(alloc, good_link(alloc)?)?;
        assert!(rt; is_shut(rt, alloc, connector, row), "{row:?}");
    }
    Ok(())
}
