//! What builds live sources for the tests, in one function for all of them.

ghost use Rattle.std.specs.Prelude.{◌≡◌};

use crate::places::EitherPlaces;
use spf_api::{EndpointError, WorkloadApiError};
use spf_feed::{NoPicker, NoRecorder, X509SourceError};
use spf_fixtures::{EitherSpawner, FixedClock, Pauses, SummedPause};
use spf_io::OutOfMemory;
use spf_link::Connector;
use spf_system::StepWords;
use spiffe::{Pass, X509Source, X509SourceBuilder};
use std::alloc::Global;
use std::process::Abort;
use std::sync::{Arc, Wait};

/// A builder over a connector of that kind, on which nothing is set but plain values.
pub type Builder<C> = X509SourceBuilder<NoPicker, C, NoRecorder>;

fn name_of(e: &X509SourceError) -> &'static str {
    match e {
        X509SourceError::Source(WorkloadApiError::Endpoint(EndpointError::Parse(_))) => {
            "no endpoint"
        }
        X509SourceError::Source(_) => "an error of the source",
        X509SourceError::UnsupportedRpc(_) => "an unsupported call",
        X509SourceError::InitialSyncTimeout => "a timeout",
        X509SourceError::NoPlace => "no place",
        X509SourceError::NoSupervisor => "no supervisor",
        _ => "another error",
    }
}

/// Whether the state of a source has revision 0.
fn is_first(source: &X509Source, pass: &mut Pass) -> bool
    requires { pass.old.book ≡ source.now.board }
{
    match source.state(pass) {
        Ok(state) => {
            let found = state.revision() == 0;
            drop(state);
            found
        }
        Err(OutOfMemory) => false,
    }
}

/// Returns what a build gives, at the fixed moment, and the pauses before it: how many they are,
/// and their nanoseconds.
pub fn built<R, C>(
    rt: R,
    alloc: Global,
    builder: Builder<C>,
    spawner: &mut EitherSpawner,
    places: &mut EitherPlaces,
) -> (&'static str, u64, u64)
where
    R: Wait + Abort + Copy + Drop,
    C: Connector + Drop,
    C::Link: Drop,
{
    let pauses = Pauses::none(alloc).expect(&rt, "memory");
    let pause = SummedPause {
        pauses: Arc::try_clone(&pauses).expect(&rt, "memory"),
    };
    let name = match builder.build(
        rt,
        alloc,
        &mut FixedClock,
        pause,
        StepWords::new(0),
        spawner,
        places,
    ) {
        Ok((source, mut pass, handle)) => {
            let is_first = is_first(&source, &mut pass);
            drop(handle);
            drop(pass);
            drop(source);
            if is_first {
                "revision 0"
            } else {
                "another revision"
            }
        }
        Err(e) => {
            let name = name_of(&e);
            drop(e);
            name
        }
    };
    let (count, nanos) = pauses.sum();
    drop(pauses);
    (name, count, nanos)
}
