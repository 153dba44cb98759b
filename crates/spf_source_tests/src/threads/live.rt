//! Records of supervisors on threads, and reads while they wait.

ghost use Rattle.std.specs.Prelude.{◌≡◌};

use crate::threads::on_thread::{AgentJob, OnThread, start_on_thread};
use spf_feed::{Denial, NoPicker, Step, X509SourceState};
use spf_fixtures::{
    Agent, AgentConnector, FixedClock, HeldRecorder, Marks, Scene, ShortPause, TURNS, is_set_soon,
};
use spf_io::{OutOfMemory, Text};
use spf_system::StepWords;
use spiffe::{BoardPlaces, Pass, Supervised, SupervisorEnd, SupervisorHandle, X509Source};
use std::io;
use std::process::Abort;
use std::sync::Wait;
use std::test::Fail;
use std::thread::{self, Threads};
use std::time::{Duration, Instant};

type Handle<R> = SupervisorHandle<AgentJob<R>, OnThread<R>>;

/// A source of the agent at this path, whose supervisor runs on a thread.
fn built<R: Threads + Wait + Abort + Copy + Drop + Send + 'static>(
    host: HostRuntime,
    rt: R,
    path: &str,
    marks: &Marks,
) -> (X509Source, Pass, Handle<R>)
    ensures pass { result.1.book ≡ result.0.board }
    ensures job { result.2.job.board ≡ result.0.board }
{
    let path = Text::copy_of(host.alloc(), path).expect(&rt, "memory");
    let marks = marks.try_clone().expect(&rt, "memory");
    let builder = X509Source::builder(AgentConnector::to(host, host.alloc(), path));
    let prepared = builder.metrics(HeldRecorder::new(host, marks)).prepare(
        rt,
        host.alloc(),
        &mut FixedClock,
        ShortPause::new(host),
        StepWords::new(0),
        &mut BoardPlaces::new(),
    );
    let (source, pass, job, pending) = prepared.expect(&rt, "a source");
    let handle = start_on_thread(rt, job).expect(&rt, "a thread");
    (source, pass, pending.started(handle))
}

/// A state that a source comes to: its revision, and whether it is the denial of the agent.
type State = (u64, bool);

/// Whether this is the denial of the agent, IS(7,`no`).
fn is_no(denial: &Denial) -> bool {
    match denial {
        Denial::PermissionDenied(message) => message.as_str() == "no",
        Denial::NoIdentityIssued => false,
    }
}

/// Whether a state is that denial. None where it is another one.
fn is_denied(state: &X509SourceState) -> Option<bool> {
    match state.withdrawal() {
        Some(reason) if is_no(reason) => Some(true),
        Some(_) => None,
        None => Some(false),
    }
}

fn state_of(source: &X509Source, pass: &mut Pass) -> Option<State>
    requires { pass.old.book ≡ source.now.board }
    ensures { pass.new.book ≡ pass.old.book }
{
    match source.state(pass) {
        Ok(state) => {
            let revision = state.revision();
            let is_denied = is_denied(&state);
            drop(state);
            Some((revision, is_denied?))
        }
        Err(OutOfMemory) => None,
    }
}

/// Whether that state is read within so many turns.
fn reads(host: HostRuntime, source: &X509Source, pass: &mut Pass, wanted: State) -> bool
    requires { pass.old.book ≡ source.now.board }
    ensures { pass.new.book ≡ pass.old.book }
{
    for _ in 0..TURNS {
        if state_of(source, pass) == Some(wanted) {
            return true;
        }
        thread::sleep(&host, Duration::from_millis(1));
    }
    false
}

/// What a test does, or waits for, while the supervisor runs.
enum Turn {
    /// That state is read.
    Reads(State),
    /// The agent or the recorder holds the supervisor.
    Held,
    /// The test lets them go on.
    GoOn,
}

/// Whether it is so within its time.
fn is_done(
    host: HostRuntime,
    source: &X509Source,
    pass: &mut Pass,
    marks: &Marks,
    turn: &Turn,
) -> bool
    requires { pass.old.book ≡ source.now.board }
    ensures { pass.new.book ≡ pass.old.book }
{
    match turn {
        Turn::Reads(state) => reads(host, source, pass, *state),
        Turn::Held => is_set_soon(host, &marks.reached),
        Turn::GoOn => {
            marks.go.set();
            true
        }
    }
}

/// Whether each of them is so, one after another.
fn are_done(
    host: HostRuntime,
    source: &X509Source,
    pass: &mut Pass,
    marks: &Marks,
    turns: &[Turn],
) -> bool
    requires { pass.old.book ≡ source.now.board }
    ensures { pass.new.book ≡ pass.old.book }
{
    for turn in turns {
        if !is_done(host, source, pass, marks, turn) {
            return false;
        }
    }
    true
}

/// Whether the steps are denials, or accepted, as the list says.
fn are(steps: &[Step], denials: &[bool]) -> bool {
    if steps.len() != denials.len() {
        return false;
    }
    for (step, is_denial) in steps.iter().zip(denials) {
        if matches!(step, Step::Deny { .. }) != *is_denial {
            return false;
        }
    }
    true
}

/// Whether the record of a supervisor, which this closes, has such steps, and its end is Closed.
fn records<R: Threads + Wait + Copy + Drop + Send + 'static>(
    handle: Handle<R>,
    pass: &mut Pass,
    denials: &[bool],
) -> bool
    requires { pass.old.book ≡ handle.job.board }
    ensures { pass.new.book ≡ pass.old.book }
{
    match handle.close_and_join().into_record(pass) {
        Ok(record) => {
            let found = is_record(&record, denials);
            drop(record);
            found
        }
        Err(OutOfMemory) => false,
    }
}

fn is_record(record: &Supervised<NoPicker>, denials: &[bool]) -> bool {
    record.end() == SupervisorEnd::Closed && are(record.steps(), denials)
}

/// Whether no more than so many seconds have gone since then.
pub(crate) fn is_within(host: HostRuntime, begun: io::Result<Instant>, seconds: u64) -> bool {
    match begun {
        Ok(begun) => begun
            .elapsed(&host)
            .is_ok_and(|taken| taken < Duration::from_secs(seconds)),
        Err(e) => {
            drop(e);
            false
        }
    }
}

/// What is found of a source on a thread.
struct Row {
    name: &'static str,
    scenes: &'static [Scene],
    turns: &'static [Turn],
    /// Within how many seconds the supervisor is then joined.
    seconds: u64,
    /// Which steps of its record are denials.
    denials: &'static [bool],
    /// The last state.
    last: State,
}

static ROWS: [Row; 4] = [
    // The row live-record: an item; a denial; and an agent that says nothing.
    Row {
        name: "live_record",
        scenes: &[("CN I1", None), ("CN IS7no", None), ("", Some(""))],
        turns: &[Turn::Reads((1, true))],
        seconds: 10,
        denials: &[false, true],
        last: (1, true),
    },
    // The row stopped-wait: an item; and then a stream of which nothing comes.
    Row {
        name: "stopped_wait",
        scenes: &[("CN I1", None), ("CN", Some(""))],
        turns: &[Turn::Reads((0, false)), Turn::Held],
        seconds: 2,
        denials: &[false],
        last: (0, false),
    },
    // The denial is read while the supervisor waits for the item after it, which comes only then.
    Row {
        name: "state_is_answered_while_next_is_held",
        scenes: &[("CN I1", None), ("CN IS7no", None), ("CN", Some("I1"))],
        turns: &[
            Turn::Held,
            Turn::Reads((1, true)),
            Turn::GoOn,
            Turn::Reads((2, false)),
        ],
        seconds: 10,
        denials: &[false, true, false],
        last: (2, false),
    },
    // A step is read and recorded whose supervisor is closed before it reaches its recorder.
    Row {
        name: "shutdown_between_publish_and_record",
        scenes: &[("CN I1", None), ("CN I1F", None)],
        turns: &[Turn::Held, Turn::Reads((1, false)), Turn::GoOn],
        seconds: 10,
        denials: &[false, false],
        last: (1, false),
    },
];

/// Whether that is found of a source of the agent at this path.
fn is_found<R: Threads + Wait + Abort + Copy + Drop + Send + 'static>(
    host: HostRuntime,
    rt: R,
    path: &str,
    marks: &Marks,
    row: &Row,
) -> bool {
    let (source, mut pass, handle) = built(host, rt, path, marks);
    let is_done = are_done(host, &source, &mut pass, marks, row.turns);
    let begun = Instant::now(&host);
    let is_recorded = records(handle, &mut pass, row.denials);
    let is_joined = is_within(host, begun, row.seconds);
    let is_left = state_of(&source, &mut pass) == Some(row.last);
    drop(pass);
    drop(source);
    is_done && is_recorded && is_joined && is_left
}

/// What is found of a source, row by row: `live_record` and the others.
#[test]
fn sources_on_threads(rt: HostRuntime) -> Result<(), Fail> {
    for row in ROWS.iter() {
        let agent = Agent::start(rt, &rt, row.name, row.scenes)?;
        let found = is_found(rt, rt, agent.path(), agent.marks(), row);
        agent.end(rt, &rt)?;
        assert!(rt; found, "{}", row.name);
    }
    Ok(())
}
