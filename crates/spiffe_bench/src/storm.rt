//! Readers that check what they read while a writer publishes without pause.

ghost use Rattle.std.specs.Prelude.{◌≡◌, ◌≢◌, []};
ghost use Rattle.spf_board.specs.Lists.{steps_of};

use crate::bench_error::BenchError;
use crate::board::{accepting, opened};
use crate::item::{first_context, second_context};
use crate::reader::Reader;
use spf_feed::{Denial, Step, X509SourceError, X509SourceState};
use spf_io::OutOfMemory;
use spf_system::StopFlag;
use spf_x509::{X509BundleSet, X509Context, X509Svid};
use spiffe::{Desk, Pass, X509Source, publish_on};
use std::alloc::Global;
use std::sync::{Arc, Wait};
use std::thread::{self, JoinHandle, Threads};

/// What is published in turn: a denial, and two updates that differ in all that they hold.
#[derive(Drop)]
pub(crate) struct Steps {
    denial: Arc<Denial>,
    first: Arc<X509Context>,
    second: Arc<X509Context>,
}

impl Steps {
    fn new(alloc: Global) -> Result<Steps, OutOfMemory> {
        Ok(Steps {
            denial: Arc::new(alloc, Denial::NoIdentityIssued)?,
            first: first_context(alloc)?,
            second: second_context(alloc)?,
        })
    }

    fn has(&self, context: &Arc<X509Context>) -> bool {
        *context == self.first || *context == self.second
    }
}

/// What is read between two states.
#[derive(Drop)]
struct Between {
    svid: Result<Option<Arc<X509Svid>>, OutOfMemory>,
    bundles: Result<Arc<X509BundleSet>, X509SourceError>,
    is_healthy: bool,
}

impl Between {
    fn read(source: &X509Source, pass: &mut Pass) -> Between
        requires { pass.old.book ≡ source.now.board }
        ensures { pass.new.book ≡ pass.old.book }
    {
        let svid = source.try_svid(pass, Some(999));
        let bundles = source.bundle_set(pass);
        let is_healthy = source.is_healthy(pass, Some(999));
        Between {
            svid,
            bundles,
            is_healthy,
        }
    }

    /// Whether the SVID and the bundles are those of the context.
    fn is_of(&self, context: &X509Context) -> bool {
        match (&self.svid, &self.bundles) {
            (Ok(Some(svid)), Ok(bundles)) => {
                context.default_svid() == Some(svid) && context.bundle_set() == bundles
            }
            _ => false,
        }
    }

    /// Whether there is no SVID, and the bundles are withdrawn.
    fn is_withdrawn(&self) -> bool {
        matches!(self.svid, Ok(None)) && matches!(self.bundles, Err(X509SourceError::Withdrawn(_)))
    }

    /// Whether it is what the state says.
    fn agrees(&self, state: &X509SourceState, steps: &Steps) -> bool {
        match state.context_ref() {
            Some(context) => self.is_healthy && steps.has(context) && self.is_of(context),
            None => !self.is_healthy && self.is_withdrawn(),
        }
    }
}

/// Whether reads are sound: revisions never fall, and what is read between two states of one
/// revision is what they say. `last` is the revision that was read last.
fn are_sound(
    before: &X509SourceState,
    between: &Between,
    after: &X509SourceState,
    steps: &Steps,
    last: u64,
) -> bool {
    let (first, second) = (before.revision(), after.revision());
    first >= last && second >= first && (first != second || between.agrees(before, steps))
}

/// Reads a second state, and returns its revision where the reads are sound.
fn sound_after(
    source: &X509Source,
    pass: &mut Pass,
    before: &X509SourceState,
    steps: &Steps,
    last: u64,
) -> Option<u64>
    requires { pass.old.book ≡ source.now.board }
    ensures { pass.new.book ≡ pass.old.book }
{
    let between = Between::read(source, pass);
    let revision = match source.state(pass) {
        Ok(after) => {
            let is_sound = are_sound(before, &between, &after, steps, last);
            let revision = after.revision();
            drop(after);
            if is_sound { Some(revision) } else { None }
        }
        Err(OutOfMemory) => None,
    };
    drop(between);
    revision
}

/// Reads twice, and returns the last revision where the reads are sound.
fn sound_reads(source: &X509Source, pass: &mut Pass, steps: &Steps, last: u64) -> Option<u64>
    requires { pass.old.book ≡ source.now.board }
    ensures { pass.new.book ≡ pass.old.book }
{
    match source.state(pass) {
        Ok(before) => {
            let revision = sound_after(source, pass, &before, steps, last);
            drop(before);
            revision
        }
        Err(OutOfMemory) => None,
    }
}

/// Reads until the flag is set, and returns how often; none where a read was not sound.
pub(crate) fn read_until(
    rt: &impl Wait,
    source: &X509Source,
    pass: &mut Pass,
    steps: &Steps,
    stop: &StopFlag,
) -> Option<u64>
    requires { pass.old.book ≡ source.now.board }
{
    let mut last = 0u64;
    let mut reads = 0u64;
    'reads: for _ in rt.forever() {
        last = sound_reads(source, pass, steps, last)?;
        reads = reads.wrapping_add(1);
        if stop.is_set() {
            break;
        }
    }
    Some(reads)
}

/// Publishes the three steps.
fn publish_round<R: Wait + Drop>(
    alloc: Global,
    desk: &mut Desk<R>,
    steps: &Steps,
) -> Result<(), OutOfMemory>
    requires { steps_of desk.old.list ≢ [] }
    ensures { steps_of desk.new.list ≢ [] }
{
    let reason = Arc::try_clone(&steps.denial)?;
    publish_on(alloc, desk, Step::Deny { reason })?;
    publish_on(alloc, desk, accepting(Arc::try_clone(&steps.first)?)?)?;
    publish_on(alloc, desk, accepting(Arc::try_clone(&steps.second)?)?)
}

fn publish_rounds<R: Wait + Drop>(
    alloc: Global,
    desk: &mut Desk<R>,
    steps: &Steps,
    rounds: u64,
) -> Result<(), OutOfMemory>
    requires { steps_of desk.old.list ≢ [] }
{
    'rounds: for _ in 0..rounds {
        publish_round(alloc, desk, steps)?;
    }
    Ok(())
}

/// Publishes that many rounds.
fn publish_all<R: Wait + Drop>(
    alloc: Global,
    desk: &mut Desk<R>,
    rounds: u64,
) -> Result<(), OutOfMemory>
    requires { steps_of desk.old.list ≢ [] }
{
    let steps = Steps::new(alloc)?;
    let published = publish_rounds(alloc, desk, &steps, rounds);
    drop(steps);
    published
}

type Reading = JoinHandle<Option<u64>>;

/// Starts a thread that reads until the flag is set.
fn start_reader<R: Threads + Wait + Copy + Drop + Send + 'static>(
    rt: R,
    alloc: Global,
    source: &mut X509Source,
    pass: &mut Pass,
    stop: StopFlag,
) -> Result<Reading, BenchError>
    requires { pass.old.book ≡ source.old.board }
    ensures { (pass.new.book ≡ pass.old.book) × (source.new.board ≡ source.old.board) }
{
    let steps = Steps::new(alloc)?;
    let reader = Reader::new(source, pass)?;
    match thread::spawn(&rt, move || reader.watch(&rt, &steps, &stop)) {
        Ok(handle) => Ok(handle),
        Err(_) => Err(BenchError::NoThread),
    }
}

/// How often the threads read.
fn joined(rt: &impl Threads, readings: Vec<Reading>) -> Result<u64, BenchError> {
    let mut reads = 0u64;
    for reading in readings {
        match reading.join(rt) {
            Some(count) => reads = reads.wrapping_add(count),
            None => return Err(BenchError::Unsound),
        }
    }
    Ok(reads)
}

/// Starts that many threads that read until the flag is set.
fn start_readers<R: Threads + Wait + Copy + Drop + Send + 'static>(
    rt: R,
    alloc: Global,
    source: &mut X509Source,
    pass: &mut Pass,
    threads: u64,
    stop: &StopFlag,
) -> Result<Vec<Reading>, BenchError>
    requires { pass.old.book ≡ source.old.board }
{
    let mut readings = Vec::new(alloc);
    'threads: for _ in 0..threads {
        let stop = stop.try_clone()?;
        readings.push(start_reader(rt, alloc, source, pass, stop)?)?;
    }
    Ok(readings)
}

/// Publishes rounds while the threads read, and returns how often they read.
fn publish_beside<R: Threads + Wait + Copy + Drop + Send + 'static>(
    rt: R,
    alloc: Global,
    desk: &mut Desk<R>,
    readings: Vec<Reading>,
    stop: &StopFlag,
    rounds: u64,
) -> Result<u64, BenchError>
    requires { steps_of desk.old.list ≢ [] }
{
    let published = publish_all(alloc, desk, rounds);
    stop.set();
    let reads = joined(&rt, readings);
    published?;
    reads
}

/// Lets threads read and check while that many rounds are published, and returns how often they
/// read.
pub(crate) fn storm<R: Threads + Wait + Copy + Drop + Send + 'static>(
    rt: R,
    alloc: Global,
    threads: u64,
    rounds: u64,
) -> Result<u64, BenchError> {
    let stop = StopFlag::new(alloc)?;
    let (mut source, mut pass, mut desk) = opened(rt, alloc)?;
    let reads = match start_readers(rt, alloc, &mut source, &mut pass, threads, &stop) {
        Ok(readings) => publish_beside(rt, alloc, &mut desk, readings, &stop, rounds),
        Err(error) => Err(error),
    };
    stop.set();
    drop(desk);
    drop(pass);
    drop(source);
    reads
}
