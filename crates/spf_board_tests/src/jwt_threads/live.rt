//! Records of supervisors of JWT bundles on a thread.

ghost use Rattle.std.specs.Prelude.{◌≡◌};

use crate::jwt_threads::on_thread::{JwtAgentJob, JwtOnThread, start_on_thread};
use spf_fixtures::{Agent, AgentConnector, FixedClock, Scene, ShortPause, TURNS};
use spf_io::{OutOfMemory, Text};
use spf_jwt_feed::JwtStep;
use spf_jwt_source::{
    BoardPlaces, JwtPass, JwtSource, JwtSupervised, JwtSupervisorHandle, SupervisorEnd,
};
use spf_system::StepWords;
use std::process::Abort;
use std::sync::Wait;
use std::test::Fail;
use std::thread::{self, Threads};
use std::time::Duration;

type Handle<R> = JwtSupervisorHandle<JwtAgentJob<R>, JwtOnThread<R>>;

/// A connector to the agent at this path.
pub(crate) fn connector_to<R: Abort>(host: HostRuntime, rt: &R, path: &str) -> AgentConnector {
    let path = Text::copy_of(host.alloc(), path).expect(rt, "memory");
    AgentConnector::to(host, host.alloc(), path)
}

/// A source of the agent at this path, whose supervisor runs on a thread.
fn built<R: Threads + Wait + Abort + Copy + Drop + Send + 'static>(
    host: HostRuntime,
    rt: R,
    path: &str,
) -> (JwtSource, JwtPass, Handle<R>)
    ensures pass { result.1.book ≡ result.0.board }
    ensures job { result.2.job.board ≡ result.0.board }
{
    let prepared = JwtSource::builder(connector_to(host, &rt, path)).prepare(
        rt,
        host.alloc(),
        &mut FixedClock,
        ShortPause::new(host),
        StepWords::new(0),
        &mut BoardPlaces::new(),
    );
    let (source, pass, job, pending) = prepared.expect(&rt, "a source");
    let handle = start_on_thread(rt, job).expect(&rt, "a thread");
    (source, pass, pending.started(handle))
}

/// Whether the state has that revision, and is accordingly a denial.
pub(crate) fn is_state(
    source: &JwtSource,
    pass: &mut JwtPass,
    revision: u64,
    is_denial: bool,
) -> bool
    requires { pass.old.book ≡ source.now.board }
    ensures { pass.new.book ≡ pass.old.book }
{
    match source.state(pass) {
        Ok(state) => {
            let found = state.revision() == revision && state.withdrawal().is_some() == is_denial;
            drop(state);
            found
        }
        Err(OutOfMemory) => false,
    }
}

/// Whether it is a denial with revision 1 within so many turns.
fn is_denied_soon(host: HostRuntime, source: &JwtSource, pass: &mut JwtPass) -> bool
    requires { pass.old.book ≡ source.now.board }
    ensures { pass.new.book ≡ pass.old.book }
{
    for _ in 0..TURNS {
        if is_state(source, pass, 1, true) {
            return true;
        }
        thread::sleep(&host, Duration::from_millis(1));
    }
    false
}

/// Whether the record that a supervisor left ends as Closed, after an accepted step of four events
/// (the moment, the client, the connection and the item), or after an accepted step and a denial.
pub(crate) fn is_left(record: Result<JwtSupervised, OutOfMemory>, is_denied: bool) -> bool {
    match record {
        Ok(record) => {
            let found = is_record(&record, is_denied);
            drop(record);
            found
        }
        Err(OutOfMemory) => false,
    }
}

fn is_record(record: &JwtSupervised, is_denied: bool) -> bool {
    let is_recorded = match record.steps() {
        [JwtStep::Accept { .. }] => !is_denied && record.events().len() == 4,
        [JwtStep::Accept { .. }, JwtStep::Deny { .. }] => is_denied,
        _ => false,
    };
    is_recorded && record.end() == SupervisorEnd::Closed
}

/// A key set of `example.org`; a denial; and an agent that says nothing.
static DENIAL: [Scene; 3] = [("CN SET1", None), ("CN IS7no", None), ("", Some(""))];

/// Whether a source of the agent at this path comes to a denial, which its record and its last
/// state have.
fn is_denial_recorded<R: Threads + Wait + Abort + Copy + Drop + Send + 'static>(
    host: HostRuntime,
    rt: R,
    path: &str,
) -> bool {
    let (source, mut pass, handle) = built(host, rt, path);
    let is_read = is_denied_soon(host, &source, &mut pass);
    let record = handle.close_and_join().into_record(&mut pass);
    let is_last = is_state(&source, &mut pass, 1, true);
    drop(pass);
    drop(source);
    is_left(record, true) && is_read && is_last
}

/// The row live-record, of JWT bundles.
#[test]
fn jwt_live_record(rt: HostRuntime) -> Result<(), Fail> {
    let agent = Agent::start(rt, &rt, "jwt_live_record", &DENIAL)?;
    let is_found = is_denial_recorded(rt, rt, agent.path());
    agent.end(rt, &rt)?;
    assert!(rt; is_found);
    Ok(())
}
