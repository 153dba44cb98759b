//! `spf_live_watch` prints what a live source of X.509 identities holds, over the endpoint that
//! `SPIFFE_ENDPOINT_SOCKET` names.
#![tactic(auto)]

mod help;

use help::{HELP, VERSION};
use spf_io::{OutOfMemory, Sink, StdSink};
use spf_live::{LiveError, NO_ENDPOINT, has_endpoint, report, watch_on_threads};
use spf_program::{program_arguments, put_about};
use std::mem::drop;
use std::process::ExitCode;
use std::sync::Wait;
use std::thread::Threads;
use std::time::Clock;

/// The status where standard output fails.
const WRITE_FAILED: u8 = 4;

/// The line that says so.
const NOT_WRITTEN: &str = "spiffe_watch: write failed\n";

fn main(rt: HostRuntime) -> ExitCode {
    let mut errors = StdSink::new(rt.stderr());
    match program_arguments(&rt) {
        Ok(arguments) => {
            let status = run(rt, rt, arguments.as_slice(), &mut errors);
            drop(arguments);
            ExitCode::from(status)
        }
        Err(error) => ExitCode::from(report(&mut errors, Err(error.into()))),
    }
}

/// Prints what a live source holds, and returns the exit status. `--help` and `--version`, alone,
/// are answered here.
fn run<R, E>(host: HostRuntime, rt: R, arguments: &[String], errors: &mut E) -> u8
where
    R: Threads + Wait + Clock + Copy + Drop + Send + 'static,
    E: Sink,
{
    let mut out = StdSink::new(host.stdout());
    if let [argument] = arguments {
        match argument.as_str() {
            "--help" => return put_about(&mut out, errors, HELP, WRITE_FAILED, NOT_WRITTEN),
            "--version" => return put_about(&mut out, errors, VERSION, WRITE_FAILED, NOT_WRITTEN),
            _ => {}
        }
    }
    match has_endpoint(host, errors, "spiffe_watch") {
        Ok(true) => watch_on_threads(host, rt, arguments, &mut out, errors),
        Ok(false) => NO_ENDPOINT,
        Err(OutOfMemory) => report(errors, Err(LiveError::OutOfMemory)),
    }
}
