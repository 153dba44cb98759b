//! Sources that are opened over a socket, whose supervisors run where they are joined.

ghost use Rattle.std.specs.Prelude.{◌≡◌};

use crate::threads::live::is_within;
use spf_feed::{NoPicker, NoRecorder, X509SourceError};
use spf_fixtures::{Agent, AgentConnector, FixedClock, Scene, ShortPause};
use spf_io::{OutOfMemory, Text};
use spf_link::EnvConnector;
use spf_system::{EnvValue, InlineSpawner, MemEnvironment, Spawner, StdClock, StepWords};
use spiffe::{BoardPlaces, Pass, X509Job, X509Source};
use std::process::Abort;
use std::sync::Wait;
use std::test::Fail;
use std::time::{Duration, Instant};

/// An agent that takes a connection, and says nothing.
static SILENCE: [Scene; 1] = [("", Some(""))];

/// The job of a source over a connector of that kind.
type OpenedJob<C, R> = X509Job<C, NoPicker, NoRecorder, ShortPause, StepWords, R>;

/// Whether a source of an agent that says nothing times out after a second.
fn times_out<R, S>(host: HostRuntime, rt: R, path: &str, spawner: &mut S) -> bool
where
    R: Wait + Abort + Copy + Drop,
    S: Spawner<OpenedJob<AgentConnector, R>>,
    S::Handle: Drop,
{
    let path = Text::copy_of(host.alloc(), path).expect(&rt, "memory");
    let builder = X509Source::builder(AgentConnector::to(host, host.alloc(), path));
    let built = builder.initial_sync_timeout(Duration::from_secs(1)).build(
        rt,
        host.alloc(),
        &mut StdClock::new(host),
        ShortPause::new(host),
        StepWords::new(0),
        spawner,
        &mut BoardPlaces::new(),
    );
    match built {
        Ok(opened) => {
            drop(opened);
            false
        }
        Err(e) => {
            let is_late = matches!(&e, X509SourceError::InitialSyncTimeout);
            drop(e);
            is_late
        }
    }
}

/// The row silent-agent.
#[test]
fn silent_agent(rt: HostRuntime) -> Result<(), Fail> {
    let agent = Agent::start(rt, &rt, "silent_agent", &SILENCE)?;
    let begun = Instant::now(&rt);
    let found = times_out(rt, rt, agent.path(), &mut InlineSpawner);
    let is_soon = is_within(rt, begun, 5);
    agent.end(rt, &rt)?;
    assert!(rt; found);
    assert!(rt; is_soon);
    Ok(())
}

/// An agent that gives an item.
static ITEM: [Scene; 1] = [("CN I1", None)];

/// Whether the state has revision 0.
fn is_first(source: &X509Source, pass: &mut Pass) -> bool
    requires { pass.old.book ≡ source.now.board }
{
    match source.state(pass) {
        Ok(state) => {
            let found = state.revision() == 0;
            drop(state);
            found
        }
        Err(OutOfMemory) => false,
    }
}

/// Whether a source of the endpoint at this path, which the environment names, opens with the first
/// item.
fn opens<R, S>(host: HostRuntime, rt: R, path: &str, spawner: &mut S) -> bool
where
    R: Wait + Abort + Copy + Drop,
    S: Spawner<OpenedJob<EnvConnector<HostRuntime, MemEnvironment>, R>>,
    S::Handle: Drop,
{
    let value = format!(in host.alloc(); "unix:{path}").expect(&rt, "memory");
    match X509Source::new(
        rt,
        host,
        host.alloc(),
        MemEnvironment::new(EnvValue::Found(Text::new(value))),
        &mut FixedClock,
        ShortPause::new(host),
        StepWords::new(0),
        spawner,
        &mut BoardPlaces::new(),
    ) {
        Ok((source, mut pass, handle)) => {
            let found = is_first(&source, &mut pass);
            drop(handle);
            drop(pass);
            drop(source);
            found
        }
        Err(e) => {
            drop(e);
            false
        }
    }
}

/// The row build-causes, for `X509Source::new`.
#[test]
fn endpoint_of_the_environment(rt: HostRuntime) -> Result<(), Fail> {
    let agent = Agent::start(rt, &rt, "environment", &ITEM)?;
    let found = opens(rt, rt, agent.path(), &mut InlineSpawner);
    agent.end(rt, &rt)?;
    assert!(rt; found);
    Ok(())
}
