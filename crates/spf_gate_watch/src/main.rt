//! `spf_gate_watch` answers presented SPIFFE IDs by a policy, from a live source of X.509
//! identities over the endpoint that `SPIFFE_ENDPOINT_SOCKET` names.
#![tactic(auto)]

mod help;

use help::{HELP, VERSION};
use spf_gate::GateError;
use spf_gate_live::{LiveGateError, gate_on_threads, report};
use spf_io::{OutOfMemory, Sink, StdSink, StdSource};
use spf_live::{NO_ENDPOINT, has_endpoint};
use spf_program::{program_arguments, put_about};
use std::mem::drop;
use std::process::ExitCode;
use std::sync::Wait;
use std::thread::Threads;

/// The status where standard output fails.
const WRITE_FAILED: u8 = 2;

/// The line that says so.
const NOT_WRITTEN: &str = "spf_gate: error 2\n";

fn main(rt: HostRuntime) -> ExitCode {
    let mut errors = StdSink::new(rt.stderr());
    match program_arguments(&rt) {
        Ok(arguments) => {
            let status = run(rt, rt, arguments.as_slice(), &mut errors);
            drop(arguments);
            ExitCode::from(status)
        }
        Err(error) => ExitCode::from(report(&mut errors, Err(error.into()))),
    }
}

/// Answers the asks of the standard input, and returns the exit status. `--help` and `--version`,
/// alone, are answered here.
fn run<R, E>(host: HostRuntime, rt: R, arguments: &[String], errors: &mut E) -> u8
where
    R: Threads + Wait + Copy + Drop + Send + 'static,
    E: Sink,
{
    let mut out = StdSink::new(host.stdout());
    if let [argument] = arguments {
        match argument.as_str() {
            "--help" => return put_about(&mut out, errors, HELP, WRITE_FAILED, NOT_WRITTEN),
            "--version" => return put_about(&mut out, errors, VERSION, WRITE_FAILED, NOT_WRITTEN),
            _ => {}
        }
    }
    match has_endpoint(host, errors, "spf_gate") {
        Ok(true) => {
            let mut input = StdSource::new(host.stdin());
            gate_on_threads(host, rt, arguments, &mut input, &mut out, errors)
        }
        Ok(false) => NO_ENDPOINT,
        Err(OutOfMemory) => report(errors, Err(LiveGateError::Gate(GateError::OutOfMemory))),
    }
}
