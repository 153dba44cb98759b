//! A source of JWT bundles of the endpoint that the environment names.

use crate::jwt_threads::live::is_state;
use spf_feed::NoRecorder;
use spf_fixtures::{Agent, FixedClock, Scene, ShortPause};
use spf_io::Text;
use spf_jwt_source::{BoardPlaces, JwtJob, JwtSource};
use spf_link::EnvConnector;
use spf_system::{EnvValue, InlineSpawner, MemEnvironment, Spawner, StepWords};
use std::process::Abort;
use std::sync::Wait;
use std::test::Fail;

/// The job of a source that the environment names.
type EnvJob<R> = JwtJob<
    EnvConnector<HostRuntime, MemEnvironment>,
    NoRecorder,
    ShortPause,
    StepWords,
    R,
>;

/// An agent that gives a key set of `example.org`.
static ITEM: [Scene; 1] = [("CN SET1", None)];

/// Whether a source of the endpoint at this path, which the environment names, opens with the first
/// item.
fn opens<R, S>(host: HostRuntime, rt: R, path: &str, spawner: &mut S) -> bool
where
    R: Wait + Abort + Copy + Drop,
    S: Spawner<EnvJob<R>>,
    S::Handle: Drop,
{
    let value = format!(in host.alloc(); "unix:{path}").expect(&rt, "memory");
    match JwtSource::new(
        rt,
        host,
        host.alloc(),
        MemEnvironment::new(EnvValue::Found(Text::new(value))),
        &mut FixedClock,
        ShortPause::new(host),
        StepWords::new(0),
        spawner,
        &mut BoardPlaces::new(),
    ) {
        Ok((source, mut pass, handle)) => {
            let found = is_state(&source, &mut pass, 0, false);
            drop(handle);
            drop(pass);
            drop(source);
            found
        }
        Err(e) => {
            drop(e);
            false
        }
    }
}

/// The row build-causes, for `JwtSource::new`.
#[test]
fn endpoint_of_the_environment(rt: HostRuntime) -> Result<(), Fail> {
    let agent = Agent::start(rt, &rt, "jwt_environment", &ITEM)?;
    let found = opens(rt, rt, agent.path(), &mut InlineSpawner);
    agent.end(rt, &rt)?;
    assert!(rt; found);
    Ok(())
}
