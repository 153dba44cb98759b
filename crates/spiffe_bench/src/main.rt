//! `spiffe_bench` measures the reads of a live source, per thread, with nothing published and with
//! a writer that publishes without pause.
#![tactic(auto)]

mod arguments;
mod bench_error;
mod board;
mod help;
mod item;
mod measure;
mod publishing;
mod reader;
mod storm;

use arguments::{Command, parse_command};
use bench_error::BenchError;
use help::{HELP, VERSION};
use measure::measure_all;
use spf_io::{Sink, StdSink};
use spf_program::{program_arguments, put_about, report};
use std::alloc::Global;
use std::process::ExitCode;
use std::sync::Wait;
use std::thread::Threads;
use std::time::Clock;
use storm::storm;

/// The status where standard output fails.
const WRITE_FAILED: u8 = 4;

/// The line that says so.
const NOT_WRITTEN: &str = "spiffe_bench: write failed\n";

fn main(rt: HostRuntime) -> ExitCode {
    let mut out = StdSink::new(rt.stdout());
    let mut errors = StdSink::new(rt.stderr());
    match run(rt, rt, &mut out, &mut errors) {
        Ok(status) => ExitCode::from(status),
        Err(error) => {
            report(&mut errors, "spiffe_bench: ", message_of(error), None);
            ExitCode::from(status_of(error))
        }
    }
}

fn status_of(error: BenchError) -> u8 {
    match error {
        BenchError::BadArguments => 1,
        BenchError::OutOfMemory => 2,
        BenchError::WriteFailed => WRITE_FAILED,
        BenchError::Unsound => 5,
        BenchError::NoThread => 12,
        BenchError::NoClock => 15,
    }
}

fn message_of(error: BenchError) -> &'static str {
    match error {
        BenchError::BadArguments => "bad words\n",
        BenchError::OutOfMemory => "out of memory\n",
        BenchError::WriteFailed => "write failed\n",
        BenchError::Unsound => "a read was not sound\n",
        BenchError::NoThread => "no thread\n",
        BenchError::NoClock => "no clock\n",
    }
}

/// Does what the arguments ask for, and returns the exit status. `--help` and `--version`, alone,
/// are answered here.
fn run<R, K, E>(host: HostRuntime, rt: R, out: &mut K, errors: &mut E) -> Result<u8, BenchError>
where
    R: Threads + Wait + Clock + Copy + Drop + Send + 'static,
    K: Sink,
    E: Sink,
{
    let arguments = program_arguments(&host)?;
    if let [argument] = arguments.as_slice() {
        match argument.as_str() {
            "--help" => return Ok(put_about(out, errors, HELP, WRITE_FAILED, NOT_WRITTEN)),
            "--version" => return Ok(put_about(out, errors, VERSION, WRITE_FAILED, NOT_WRITTEN)),
            _ => {}
        }
    }
    match parse_command(arguments.as_slice()) {
        Some(command) => execute(rt, host.alloc(), out, command),
        None => Err(BenchError::BadArguments),
    }
}

fn execute<R, K>(rt: R, alloc: Global, out: &mut K, command: Command) -> Result<u8, BenchError>
where
    R: Threads + Wait + Clock + Copy + Drop + Send + 'static,
    K: Sink,
{
    match command {
        Command::Reads { threads, reads } => measure_all(rt, alloc, out, threads, reads)?,
        Command::Storm { threads, rounds } => {
            let _ = storm(rt, alloc, threads, rounds)?;
            put_sound(out)?;
        }
    }
    Ok(0)
}

fn put_sound<K: Sink>(out: &mut K) -> Result<(), BenchError> {
    match out.put(b"sound\n") {
        Ok(()) => Ok(()),
        Err(_) => Err(BenchError::WriteFailed),
    }
}
