//! `spf_helper_watch` follows a stream of SPIFFE Workload API updates, and
//! keeps the latest identity in a folder.
#![tactic(auto)]

mod help;

use help::{HELP, VERSION};
use spf_disk::{FolderDisk, FolderFault};
use spf_helper::helper_watch;
use spf_io::{Sink, StdSink, StdSource};
use spf_program::{ArgumentsError, program_arguments, put_about, report};
use std::alloc::Global;
use std::io::BufReader;
use std::process::ExitCode;

/// How many bytes of standard input are read at once.
const INPUT_BUFFER: usize = 1 << 16;

/// The status where standard output fails.
const WRITE_FAILED: u8 = 4;

/// The line that says so.
const NOT_WRITTEN: &str = "spf_helper: write failed\n";

/// The status where the disk failed.
const DISK_FAILED: u8 = 21;

fn main(rt: HostRuntime) -> ExitCode {
    let mut errors = StdSink::new(rt.stderr());
    match run(&rt, &mut errors) {
        Ok(status) => ExitCode::from(status),
        Err(error) => {
            report(&mut errors, "spf_helper: ", error.message(), None);
            ExitCode::from(error.status())
        }
    }
}

/// Answers `--help` and `--version`, alone, and otherwise calls `helper_watch` over the folder that
/// is named. It returns the exit status.
fn run<E: Sink>(rt: &HostRuntime, errors: &mut E) -> Result<u8, ArgumentsError> {
    let arguments = program_arguments(rt)?;
    match arguments.as_slice() {
        [argument] if argument.as_str() == "--help" => Ok(put_text(rt, errors, HELP)),
        [argument] if argument.as_str() == "--version" => Ok(put_text(rt, errors, VERSION)),
        [folder] => follow(rt, folder.as_str(), arguments.as_slice(), errors),
        // Without a folder no file is opened, and the arguments are refused.
        _ => follow(rt, "", arguments.as_slice(), errors),
    }
}

fn put_text<E: Sink>(rt: &HostRuntime, errors: &mut E, text: &str) -> u8 {
    put_about(
        &mut StdSink::new(rt.stdout()),
        errors,
        text,
        WRITE_FAILED,
        NOT_WRITTEN,
    )
}

/// Follows the session on standard input. A line acknowledges what the folder holds, so it is
/// written at once. Where the disk fails, a second line says why.
fn follow<E: Sink>(
    rt: &HostRuntime,
    folder: &str,
    arguments: &[String],
    errors: &mut E,
) -> Result<u8, ArgumentsError> {
    let mut out = StdSink::new(rt.stdout());
    let Ok(input) = BufReader::with_capacity(rt.alloc(), INPUT_BUFFER, rt.stdin()) else {
        return Err(ArgumentsError::OutOfMemory);
    };
    let mut source = StdSource::new(input);
    let mut disk = FolderDisk::open(rt, folder);
    let status = helper_watch(
        rt.alloc(),
        arguments,
        &mut source,
        &mut disk,
        &mut out,
        errors,
    );
    if status == DISK_FAILED {
        explain(rt.alloc(), errors, disk.fault());
    }
    Ok(status)
}

fn explain<E: Sink>(alloc: Global, errors: &mut E, fault: Option<&FolderFault>) {
    if let Some(fault) = fault {
        if let Ok(line) = format!(in alloc; "spf_helper: {fault}\n") {
            let _ = errors.put(line.as_bytes());
        }
    }
}
