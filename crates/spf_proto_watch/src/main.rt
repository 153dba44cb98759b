//! `spf_proto_watch` follows the body of a gRPC response of the Workload API, and prints for each
//! event of the session that it stands for what a workload then holds.
#![tactic(auto)]

mod help;

use help::{HELP, VERSION};
use spf_io::{MemSink, OutOfMemory, Sink, StdSink};
use spf_program::{ArgumentsError, SharedOutput, program_arguments, put_about, report};
use spf_proto::proto_watch;
use std::process::ExitCode;

/// The maximum length of a line of `proto_watch` on standard error.
const ERROR_LINE: usize = 1 << 8;

/// The status where standard output fails.
const WRITE_FAILED: u8 = 4;

/// The line that says so.
const NOT_WRITTEN: &str = "spf_proto: write failed\n";

fn main(rt: HostRuntime) -> ExitCode {
    let mut errors = StdSink::new(rt.stderr());
    match run(&rt, &mut errors) {
        Ok(status) => ExitCode::from(status),
        Err(error) => {
            report(&mut errors, "spf_proto: ", error.message(), None);
            ExitCode::from(error.status())
        }
    }
}

/// Answers `--help` and `--version`, alone, and otherwise calls `proto_watch` with the standard
/// streams. It returns the exit status.
fn run<E: Sink>(rt: &HostRuntime, errors: &mut E) -> Result<u8, ArgumentsError> {
    let arguments = program_arguments(rt)?;
    match arguments.as_slice() {
        [argument] if argument.as_str() == "--help" => Ok(put_text(rt, errors, HELP)),
        [argument] if argument.as_str() == "--version" => Ok(put_text(rt, errors, VERSION)),
        _ => Ok(follow(rt, arguments.as_slice(), errors)?),
    }
}

/// Calls `proto_watch`. Its line on standard error comes after its whole output, or is the one of a
/// failed write.
fn follow<E: Sink>(
    rt: &HostRuntime,
    arguments: &[String],
    errors: &mut E,
) -> Result<u8, OutOfMemory> {
    let output = SharedOutput::new(rt.alloc(), rt.stdout())?;
    let mut source = output.source(rt.alloc(), rt.stdin())?;
    let mut line = MemSink::new(rt.alloc(), ERROR_LINE, Vec::new(rt.alloc()))?;
    let status = proto_watch(
        rt.alloc(),
        arguments,
        &mut source,
        &mut output.sink(),
        &mut line,
    );
    if !output.flush() {
        let _ = errors.put(NOT_WRITTEN.as_bytes());
        return Ok(WRITE_FAILED);
    }
    let _ = errors.put(line.bytes());
    Ok(status)
}

fn put_text<E: Sink>(rt: &HostRuntime, errors: &mut E, text: &str) -> u8 {
    put_about(
        &mut StdSink::new(rt.stdout()),
        errors,
        text,
        WRITE_FAILED,
        NOT_WRITTEN,
    )
}
