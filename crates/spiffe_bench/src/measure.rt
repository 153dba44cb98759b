//! The measurements and their lines.

ghost use Rattle.std.specs.Prelude.{◌≡◌, ◌≢◌, [], All, IfOk, OnOk};
ghost use Rattle.spf_board.specs.Lists.{steps_of};

use crate::bench_error::BenchError;
use crate::board::opened;
use crate::item::first_context;
use crate::publishing::publish_until;
use crate::reader::{Call, Reader};
use spf_io::{OutOfMemory, Sink};
use spf_system::StopFlag;
use spiffe::{Desk, Pass, X509Source};
use std::alloc::Global;
use std::sync::{Arc, Wait};
use std::thread::{self, JoinHandle, Threads};
use std::time::{Clock, Duration, Instant};

type Reading = JoinHandle<Option<(Duration, u64)>>;

/// Starts a thread that reads.
fn start_reader<R: Threads + Wait + Clock + Copy + Drop + Send + 'static>(
    rt: R,
    source: &mut X509Source,
    pass: &mut Pass,
    call: Call,
    reads: u64,
) -> Result<Reading, BenchError>
    requires { pass.old.book ≡ source.old.board }
    ensures { (pass.new.book ≡ pass.old.book) × (source.new.board ≡ source.old.board) }
{
    let reader = Reader::new(source, pass)?;
    match thread::spawn(&rt, move || reader.run(&rt, call, reads)) {
        Ok(handle) => Ok(handle),
        Err(_) => Err(BenchError::NoThread),
    }
}

/// Starts that many threads that read.
fn start_readers<R: Threads + Wait + Clock + Copy + Drop + Send + 'static>(
    rt: R,
    alloc: Global,
    source: &mut X509Source,
    pass: &mut Pass,
    call: Call,
    threads: u64,
    reads: u64,
) -> Result<Vec<Reading>, BenchError>
    requires { pass.old.book ≡ source.old.board }
{
    let mut readings = Vec::new(alloc);
    'threads: for _ in 0..threads {
        readings.push(start_reader(rt, source, pass, call, reads)?)?;
    }
    Ok(readings)
}

/// The nanoseconds of all reads of all threads.
fn joined(rt: &impl Threads, readings: Vec<Reading>) -> Result<u128, BenchError> {
    let mut nanos = 0u128;
    for reading in readings {
        match reading.join(rt) {
            Some((time, _given)) => nanos = nanos.wrapping_add(time.as_nanos()),
            None => return Err(BenchError::NoClock),
        }
    }
    Ok(nanos)
}

/// Writes a line: what the writer does, the call, the threads, and the nanoseconds of one call.
fn put_line<K: Sink>(
    alloc: Global,
    out: &mut K,
    writer: &str,
    call: &str,
    threads: u64,
    tenths: u128,
) -> Result<(), BenchError> {
    let (whole, tenth) = (tenths / 10, tenths % 10);
    let line = format!(in alloc; "{writer} {call} {threads} {whole}.{tenth}\n")?;
    match out.put(line.as_bytes()) {
        Ok(()) => Ok(()),
        Err(_) => Err(BenchError::WriteFailed),
    }
}

fn name_of(call: Call) -> &'static str {
    match call {
        Call::State => "state",
        Call::Svid => "svid",
        Call::IsHealthy => "is_healthy",
    }
}

/// The tenths of a nanosecond that one read of a thread takes, while they all read.
fn measure_reads<R: Threads + Wait + Clock + Copy + Drop + Send + 'static>(
    rt: R,
    alloc: Global,
    source: &mut X509Source,
    pass: &mut Pass,
    call: Call,
    threads: u64,
    reads: u64,
) -> Result<u128, BenchError>
    requires { pass.old.book ≡ source.old.board }
{
    let readings = start_readers(rt, alloc, source, pass, call, threads, reads)?;
    let nanos = joined(&rt, readings)?;
    Ok(nanos.wrapping_mul(10) / threads.max(1) as u128 / reads.max(1) as u128)
}

/// The same while something is published without pause.
fn measure_beside<R: Threads + Wait + Clock + Copy + Drop + Send + 'static>(
    rt: R,
    alloc: Global,
    source: &mut X509Source,
    pass: &mut Pass,
    desk: Desk<R>,
    call: Call,
    threads: u64,
    reads: u64,
) -> Result<u128, BenchError>
    requires pass { pass.old.book ≡ source.old.board }
    requires step { steps_of desk.list ≢ [] }
{
    let (ours, theirs) = flags(alloc)?;
    let writer = start_writer(rt, alloc, desk, theirs)?;
    let tenths = measure_reads(rt, alloc, source, pass, call, threads, reads);
    ours.set();
    let _ = writer.join(&rt);
    tenths
}

/// A flag, twice.
fn flags(alloc: Global) -> Result<(StopFlag, StopFlag), OutOfMemory> {
    let flag = StopFlag::new(alloc)?;
    let same = flag.try_clone()?;
    Ok((flag, same))
}

/// Measures one call, while nothing is published, or while something is published without pause.
fn measure<R: Threads + Wait + Clock + Copy + Drop + Send + 'static>(
    rt: R,
    alloc: Global,
    call: Call,
    threads: u64,
    reads: u64,
    is_published: bool,
) -> Result<u128, BenchError> {
    let (mut source, mut pass, desk) = opened(rt, alloc)?;
    let tenths = if is_published {
        measure_beside(
            rt,
            alloc,
            &mut source,
            &mut pass,
            desk,
            call,
            threads,
            reads,
        )
    } else {
        drop(desk);
        measure_reads(rt, alloc, &mut source, &mut pass, call, threads, reads)
    };
    drop(pass);
    drop(source);
    tenths
}

fn start_writer<R: Threads + Wait + Clock + Copy + Drop + Send + 'static>(
    rt: R,
    alloc: Global,
    desk: Desk<R>,
    stop: StopFlag,
) -> Result<JoinHandle<Result<u64, OutOfMemory>>, BenchError>
    requires { steps_of desk.list ≢ [] }
{
    let started = thread::spawn(
        &rt,
        move || -> Result<u64, OutOfMemory>
            requires { steps_of desk.list ≢ [] }
        { publish_until(&rt, alloc, desk, &stop) },
    );
    match started {
        Ok(handle) => Ok(handle),
        Err(_) => Err(BenchError::NoThread),
    }
}

/// The time of a clone of an `Arc` that no other thread has.
fn measure_arc<K: Sink>(
    clock: &impl Clock,
    alloc: Global,
    out: &mut K,
    reads: u64,
) -> Result<(), BenchError> {
    let context = first_context(alloc)?;
    let Ok(begin) = Instant::now(clock) else {
        return Err(BenchError::NoClock);
    };
    for _ in 0..reads {
        let _ = Arc::try_clone(&context)?;
    }
    let Ok(time) = begin.elapsed(clock) else {
        return Err(BenchError::NoClock);
    };
    let tenths = time.as_nanos().wrapping_mul(10) / reads.max(1) as u128;
    put_line(alloc, out, "idle", "arc", 1, tenths)
}

/// Measures one call with nothing published, and with a writer that publishes without pause.
fn measure_call<R: Threads + Wait + Clock + Copy + Drop + Send + 'static, K: Sink>(
    rt: R,
    alloc: Global,
    out: &mut K,
    call: Call,
    threads: u64,
    reads: u64,
) -> Result<(), BenchError> {
    let idle = measure(rt, alloc, call, threads, reads, false)?;
    put_line(alloc, out, "idle", name_of(call), threads, idle)?;
    let publishing = measure(rt, alloc, call, threads, reads, true)?;
    put_line(alloc, out, "publishing", name_of(call), threads, publishing)
}

/// Measures each call, and a clone of an `Arc` beside them.
pub(crate) fn measure_all<R: Threads + Wait + Clock + Copy + Drop + Send + 'static, K: Sink>(
    rt: R,
    alloc: Global,
    out: &mut K,
    threads: u64,
    reads: u64,
) -> Result<(), BenchError> {
    measure_arc(&rt, alloc, out, reads)?;
    for call in [Call::State, Call::Svid, Call::IsHealthy] {
        measure_call(rt, alloc, out, call, threads, reads)?;
    }
    Ok(())
}
