//! The endpoint that the environment of a program names.

use spf_api::WorkloadApiError;
use spf_io::{OutOfMemory, Sink};
use spf_link::from_env;
use spf_system::StdEnvironment;
use std::alloc::Global;
use std::mem::drop;

/// The status where the environment names no endpoint.
pub const NO_ENDPOINT: u8 = 14;

/// Whether the environment of the process names an endpoint. Where it names none, a line on
/// `errors` says why, after the name of the program.
pub fn has_endpoint<E: Sink>(
    host: HostRuntime,
    errors: &mut E,
    program: &str,
) -> Result<bool, OutOfMemory> {
    let alloc = host.alloc();
    match from_env(alloc, &StdEnvironment::new(host)) {
        Ok(endpoint) => {
            drop(endpoint);
            Ok(true)
        }
        Err(error) => {
            let explained = explain_endpoint(alloc, errors, program, &error);
            drop(error);
            match explained {
                Ok(()) => Ok(false),
                Err(OutOfMemory) => Err(OutOfMemory),
            }
        }
    }
}

/// Writes, after the name of the program, why the environment names no endpoint. A failure of
/// `errors` changes nothing. Out of memory is returned.
fn explain_endpoint<E: Sink>(
    alloc: Global,
    errors: &mut E,
    program: &str,
    error: &WorkloadApiError,
) -> Result<(), OutOfMemory> {
    if matches!(error, WorkloadApiError::OutOfMemory) {
        return Err(OutOfMemory);
    }
    if let Ok(line) = format!(in alloc; "{program}: {error}\n") {
        let _ = errors.put(line.as_bytes());
    }
    Ok(())
}
