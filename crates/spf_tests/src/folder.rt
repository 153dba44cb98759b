//! A folder of the operating system.

use spf_disk::{Disk, FolderDisk, FolderFault, HelperFile};
use std::mem::drop;
use std::os::unix::fs::PermissionsExt;
use std::test::Fail;
use std::{fs, io};

/// The folder that a test makes and removes.
const KEPT: &str = "spf_folder_test_kept";

/// Its first file.
const FIRST: &str = "spf_folder_test_kept/first";

/// Whether the first file takes `abxy`, of which three octets are kept.
fn takes(disk: &mut FolderDisk) -> bool {
    disk.write_at(HelperFile::First, 0, b"abcd").is_ok()
        && disk.write_at(HelperFile::First, 2, b"xy").is_ok()
        && disk.cut(HelperFile::First, 3).is_ok()
        && disk.sync(HelperFile::First).is_ok()
        && disk.length(HelperFile::First) == Ok(3)
}

/// Whether the system has these octets in the first file.
fn has_octets(rt: HostRuntime, wanted: &[u8]) -> bool {
    match fs::read(&rt, FIRST) {
        Ok(octets) => {
            let has_octets = octets.as_slice() == wanted;
            drop(octets);
            has_octets
        }
        Err(e) => {
            drop(e);
            false
        }
    }
}

/// Whether the first file is for its owner alone.
fn is_private(rt: HostRuntime) -> bool {
    match fs::metadata(&rt, FIRST) {
        Ok(metadata) => metadata.permissions().mode() & 0o777 == 0o600,
        Err(e) => {
            drop(e);
            false
        }
    }
}

/// Whether a second writer is refused.
fn is_in_use(rt: HostRuntime) -> bool {
    let mut disk = FolderDisk::open(&rt, KEPT);
    let is_refused = disk.sync(HelperFile::First).is_err();
    let is_in_use = matches!(disk.fault(), Some(FolderFault::InUse));
    drop(disk);
    is_refused && is_in_use
}

/// Whether a reader reads these octets, and writes none.
fn only_reads(rt: HostRuntime, wanted: [u8; 4]) -> bool {
    let mut disk = FolderDisk::open_to_read(&rt, KEPT);
    let mut octets = [0; 4];
    let _ = disk.read(HelperFile::First, 0, &mut octets);
    let is_refused = disk.write_at(HelperFile::First, 0, b"z").is_err();
    drop(disk);
    octets == wanted && is_refused
}

/// Whether a writer is let in.
fn is_free(rt: HostRuntime) -> bool {
    let mut disk = FolderDisk::open(&rt, KEPT);
    let is_free = disk.sync(HelperFile::First).is_ok();
    drop(disk);
    is_free
}

#[test]
fn a_folder_keeps_what_is_written(rt: HostRuntime) -> Result<(), Fail> {
    let _ = fs::remove_dir_all(&rt, KEPT);
    fs::create_dir(&rt, KEPT)?;
    let mut disk = FolderDisk::open(&rt, KEPT);
    assert!(rt; takes(&mut disk));
    assert!(rt; has_octets(rt, b"abx"));
    assert!(rt; is_private(rt));
    assert!(rt; is_in_use(rt), "a second writer");
    assert!(rt; only_reads(rt, [97, 98, 120, 0]), "a reader");
    drop(disk);
    assert!(rt; is_free(rt), "after the first is closed");
    fs::remove_dir_all(&rt, KEPT)?;
    Ok(())
}

/// The kind of the error of the system that a disk failed with.
fn error_kind(disk: &FolderDisk) -> Option<io::ErrorKind> {
    match disk.fault() {
        Some(FolderFault::Io(error)) => Some(error.kind()),
        _ => None,
    }
}

/// Whether there is no such folder.
fn is_missing(rt: HostRuntime, folder: &str) -> bool {
    let mut disk = FolderDisk::open(&rt, folder);
    let fails = disk.length(HelperFile::Gates).is_err();
    let is_missing = error_kind(&disk) == Some(io::ErrorKind::NotFound);
    drop(disk);
    fails && is_missing
}

#[test]
fn a_folder_that_is_missing_fails(rt: HostRuntime) {
    for folder in ["spf_folder_test_missing", ""] {
        assert!(rt; is_missing(rt, folder), "{folder}");
    }
}
