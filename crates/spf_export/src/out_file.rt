//! Files that are replaced as a whole.

use crate::export_error::ExportError;
use crate::pem_file::PemFile;
use std::fs::{self, File, OpenOptions};
use std::io::{self, Write};
use std::os::unix::fs::OpenOptionsExt;

/// The path of a file in a folder.
fn path_in(rt: &HostRuntime, folder: &str, name: &str) -> Result<String, ExportError> {
    Ok(format!(in rt.alloc(); "{folder}/{name}")?)
}

/// The path of what is to replace a file.
fn temporary_path(rt: &HostRuntime, folder: &str, name: &str) -> Result<String, ExportError> {
    Ok(format!(in rt.alloc(); "{folder}/.{name}.new")?)
}

/// Writes what is to replace a file next to it, and syncs it.
pub(crate) fn prepare(
    rt: &HostRuntime,
    folder: &str,
    file: PemFile,
    text: &[u8],
) -> Result<(), ExportError> {
    let path = temporary_path(rt, folder, file.name())?;
    remove(rt, path.as_str())?;
    let mut made = make(rt, path.as_str(), file.mode())?;
    made.write_all(text)?;
    Ok(made.sync_all()?)
}

fn make(rt: &HostRuntime, path: &str, mode: u32) -> Result<File, ExportError> {
    Ok(
        OpenOptions::new()
            .write(true)
            .create_new(true)
            .mode(mode)
            .open(rt, path)?,
    )
}

/// Replaces a file by what was prepared for it.
pub(crate) fn replace(rt: &HostRuntime, folder: &str, name: &str) -> Result<(), ExportError> {
    let from = temporary_path(rt, folder, name)?;
    let to = path_in(rt, folder, name)?;
    Ok(fs::rename(rt, from.as_str(), to.as_str())?)
}

fn remove(rt: &HostRuntime, path: &str) -> Result<(), ExportError> {
    match fs::remove_file(rt, path) {
        Ok(()) => Ok(()),
        Err(error) if error.kind() == io::ErrorKind::NotFound => Ok(()),
        Err(error) => Err(ExportError::NotWritten(error)),
    }
}

/// Removes a file of a folder, which may be missing.
pub(crate) fn remove_from(rt: &HostRuntime, folder: &str, name: &str) -> Result<(), ExportError> {
    remove(rt, path_in(rt, folder, name)?.as_str())
}

/// Syncs the names in a folder.
pub(crate) fn sync_folder(rt: &HostRuntime, folder: &str) -> Result<(), ExportError> {
    File::open(rt, folder)?.sync_all()?;
    Ok(())
}
