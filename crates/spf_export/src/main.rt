//! `spf_export` writes the identity that a folder of the helper holds as PEM files.
#![tactic(auto)]

mod export;
mod export_error;
mod help;
mod out_file;
mod pem;
mod pem_file;
mod pem_texts;

use export::{Exported, export};
use export_error::ExportError;
use help::{HELP, VERSION};
use spf_io::{Sink, StdSink};
use spf_program::program_arguments;
use std::alloc::{AllocError, Global};
use std::process::ExitCode;

fn main(rt: HostRuntime) -> ExitCode {
    match run(&rt) {
        Ok(()) => ExitCode::from(0),
        Err(error) => {
            if let Ok(line) = format!(in rt.alloc(); "spf_export: {error}\n") {
                let _ = StdSink::new(rt.stderr()).put(line.as_bytes());
            }
            ExitCode::from(error.status())
        }
    }
}

fn run(rt: &HostRuntime) -> Result<(), ExportError> {
    let arguments = program_arguments(rt)?;
    match arguments.as_slice() {
        [argument] if argument.as_str() == "--help" => put_text(rt, HELP),
        [argument] if argument.as_str() == "--version" => put_text(rt, VERSION),
        [folder, out] => report(rt, export(rt, folder.as_str(), out.as_str())?),
        _ => Err(ExportError::BadArguments),
    }
}

/// Says on standard output what was done.
fn report(rt: &HostRuntime, exported: Exported) -> Result<(), ExportError> {
    match exported {
        Exported::Written { number } => {
            let line = format!(in rt.alloc(); "wrote generation {number}\n")?;
            put_text(rt, line.as_str())
        }
        Exported::Removed => put_text(rt, "no identity is found: removed the files\n"),
    }
}

fn put_text(rt: &HostRuntime, text: &str) -> Result<(), ExportError> {
    match StdSink::new(rt.stdout()).put(text.as_bytes()) {
        Ok(()) => Ok(()),
        Err(_) => Err(ExportError::NotPrinted),
    }
}
