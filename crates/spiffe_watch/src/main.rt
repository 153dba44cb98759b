//! `spiffe_watch` follows a stream of SPIFFE Workload API updates and prints, for each event, which
//! identity and which trust bundles a workload then holds.
#![tactic(auto)]

mod help;

use help::{HELP, VERSION};
use spf_io::{MemSink, Sink, StdSink};
use spf_program::{SharedOutput, program_arguments};
use spf_watch::{ExitReason, put, report, watch};
use std::process::ExitCode;

/// The maximum length of a line of `watch` on standard error.
const ERROR_LINE: usize = 1 << 8;

fn main(rt: HostRuntime) -> ExitCode {
    let mut errors = StdSink::new(rt.stderr());
    match run(&rt, &mut errors) {
        Ok(status) => ExitCode::from(status),
        Err(reason) => ExitCode::from(report(&mut errors, reason)),
    }
}

/// Calls `watch` with the standard streams, and returns its exit
/// status. `--help` and `--version`, alone, are answered here.
fn run<E: Sink>(rt: &HostRuntime, errors: &mut E) -> Result<u8, ExitReason> {
    let arguments = program_arguments(rt)?;
    match arguments.as_slice() {
        [argument] if argument.as_str() == "--help" => put_text(rt, HELP),
        [argument] if argument.as_str() == "--version" => put_text(rt, VERSION),
        _ => follow(rt, arguments.as_slice(), errors),
    }
}

/// Calls `watch`. Its line on standard error comes after its whole output, or is the one of a
/// failed write.
fn follow<E: Sink>(
    rt: &HostRuntime,
    arguments: &[String],
    errors: &mut E,
) -> Result<u8, ExitReason> {
    let output = SharedOutput::new(rt.alloc(), rt.stdout())?;
    let mut source = output.source(rt.alloc(), rt.stdin())?;
    let mut line = MemSink::new(rt.alloc(), ERROR_LINE, Vec::new(rt.alloc()))?;
    let status = watch(
        rt.alloc(),
        arguments,
        &mut source,
        &mut output.sink(),
        &mut line,
    );
    if !output.flush() {
        return Err(ExitReason::WriteFailed);
    }
    let _ = errors.put(line.bytes());
    Ok(status)
}

fn put_text(rt: &HostRuntime, text: &str) -> Result<u8, ExitReason> {
    put(&mut StdSink::new(rt.stdout()), text.as_bytes())?;
    Ok(0)
}
