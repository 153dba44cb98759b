//! Writing the files of an identity.

use crate::export_error::ExportError;
use crate::out_file::{prepare, remove_from, replace, sync_folder};
use crate::pem_file::PemFile;
use crate::pem_texts::pem_texts;
use spf_disk::{FolderDisk, Generation, OpenError, read_generation};

/// What was done.
pub(crate) enum Exported {
    Written { number: u64 },
    Removed,
}

/// Writes what the folder holds into the folder `out`.
pub(crate) fn export(rt: &HostRuntime, folder: &str, out: &str) -> Result<Exported, ExportError> {
    match generation_in(rt, folder)? {
        Some(generation) if !generation.chain.as_slice().is_empty() => {
            write_files(rt, out, &generation)?;
            Ok(Exported::Written {
                number: generation.number,
            })
        }
        _ => {
            remove_files(rt, out)?;
            Ok(Exported::Removed)
        }
    }
}

fn generation_in(rt: &HostRuntime, folder: &str) -> Result<Option<Generation>, ExportError> {
    let mut disk = FolderDisk::open_to_read(rt, folder);
    match read_generation(rt.alloc(), &mut disk) {
        Ok(found) => Ok(found),
        Err(OpenError::Damaged) => Err(ExportError::Damaged),
        Err(OpenError::OutOfMemory) => Err(ExportError::OutOfMemory),
        Err(OpenError::DiskFault) => match disk.fault() {
            Some(fault) => Err(ExportError::Folder(*fault)),
            None => Err(ExportError::OutOfMemory),
        },
    }
}

/// Writes all three files before the first is replaced.
fn write_files(rt: &HostRuntime, out: &str, generation: &Generation) -> Result<(), ExportError> {
    let texts = pem_texts(rt.alloc(), generation)?;
    for file in PemFile::ALL {
        prepare(rt, out, file, texts.text(file))?;
    }
    for file in PemFile::ALL {
        replace(rt, out, file.name())?;
    }
    sync_folder(rt, out)
}

/// Removes the three files, the key first.
fn remove_files(rt: &HostRuntime, out: &str) -> Result<(), ExportError> {
    remove_from(rt, out, PemFile::Key.name())?;
    remove_from(rt, out, PemFile::Chain.name())?;
    remove_from(rt, out, PemFile::Bundle.name())?;
    sync_folder(rt, out)
}
