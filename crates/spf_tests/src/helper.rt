//! Sessions over a disk in memory, and what a reader finds after them.

use spf_disk::{Disk, Generation, HelperFile, MemDisk, OpenError, read_generation};
use spf_feed::{NoPicker, NoRecorder, Ready, ResourceLimits, follow_x509};
use spf_fixtures::octets;
use spf_helper::{HelperPublisher, helper_follow};
use spf_io::{MemSink, MemSource};
use std::alloc::Global;
use std::test::Fail;

const RECOVERY: &str = "M999 CM CN I1 CM CN IS7no CM CN BADKEY CM CN IS14x CM CN I1";

/// A source of these frames.
fn source_of(alloc: Global, frames: &str) -> Result<MemSource, Fail> {
    Ok(MemSource::new(octets(alloc, frames)?, Vec::new(alloc), Vec::new(alloc)))
}

/// Follows the frames over the disk, and whether that ended well.
fn followed(alloc: Global, disk: &mut MemDisk, frames: &str) -> Result<bool, Fail> {
    let mut source = source_of(alloc, frames)?;
    let mut sink = MemSink::new(alloc, 1 << 16, Vec::new(alloc))?;
    let limits = ResourceLimits::default_limits();
    Ok(helper_follow(alloc, &mut source, &mut sink, disk, limits, 1000).is_ok())
}

/// Whether these are the octets of the fixture.
fn is_fixture(alloc: Global, bytes: &[u8], name: &str) -> Result<bool, Fail> {
    Ok(bytes == octets(alloc, name)?.as_slice())
}

/// Whether the one authority of the generation is ROOT1, of example.org.
fn has_root(alloc: Global, found: &Generation) -> Result<bool, Fail> {
    let [list] = found.authorities.as_slice() else {
        return Ok(false);
    };
    let [root] = list.certificates.as_slice() else {
        return Ok(false);
    };
    if list.name.as_str() != "example.org" {
        return Ok(false);
    }
    is_fixture(alloc, root.as_slice(), "ROOT1")
}

/// Whether it is the generation of that number, with LEAF1, KEY1 and ROOT1 of example.org.
fn is_generation(alloc: Global, found: &Generation, number: u64) -> Result<bool, Fail> {
    let chain = is_fixture(alloc, found.chain.as_slice(), "LEAF1")?;
    let key = is_fixture(alloc, found.key.as_slice(), "KEY1")?;
    let root = has_root(alloc, found)?;
    Ok(found.number == number && chain && key && root)
}

/// Whether the disk holds the generation of that number, or none.
fn holds(alloc: Global, disk: &mut MemDisk, number: Option<u64>) -> Result<bool, Fail> {
    match (read_generation(alloc, disk), number) {
        (Ok(Some(found)), Some(number)) => is_generation(alloc, &found, number),
        (Ok(None), None) => Ok(true),
        _ => Ok(false),
    }
}

/// Whether a session of these frames ends well, and leaves the generation of that number, or none.
fn leaves(alloc: Global, frames: &str, number: Option<u64>) -> Result<bool, Fail> {
    let mut disk = MemDisk::new(alloc);
    Ok(followed(alloc, &mut disk, frames)? && holds(alloc, &mut disk, number)?)
}

#[test]
fn the_latest_identity_is_found(rt: HostRuntime) -> Result<(), Fail> {
    let alloc = rt.alloc();
    assert!(rt; leaves(alloc, RECOVERY, Some(3))?, "denial-and-recovery");
    let denied = "M999 CM CN I1 CM CN IS7no CM CS7issued";
    assert!(rt; leaves(alloc, denied, None)?, "first-denial-stays");
    let expired = "M999 CM CN I1 M1000";
    assert!(rt; leaves(alloc, expired, Some(1))?, "expiry-passes");
    Ok(())
}

/// A disk whose first gate is open before a file without an entry.
fn damaged(alloc: Global) -> MemDisk {
    let mut disk = MemDisk::new(alloc);
    let _ = disk.write_at(HelperFile::Gates, 0, &[1]);
    disk
}

#[test]
fn an_open_gate_before_no_entry_is_a_damage(rt: HostRuntime) -> Result<(), Fail> {
    let alloc = rt.alloc();
    let found = read_generation(alloc, &mut damaged(alloc));
    assert!(rt; matches!(found, Err(OpenError::Damaged)));
    Ok(())
}

/// Follows the frames over the disk, and returns how many of the first steps are written.
fn written(alloc: Global, disk: &mut MemDisk, frames: &str) -> Result<u64, Fail> {
    let mut source = source_of(alloc, frames)?;
    let mut sink = MemSink::new(alloc, 1 << 16, Vec::new(alloc))?;
    let mut publisher = match HelperPublisher::open(alloc, disk) {
        Ok(publisher) => publisher,
        Err(_) => return Ok(0),
    };
    let _ = follow_x509(
        alloc,
        &mut source,
        &mut sink,
        &mut publisher,
        &mut NoRecorder::new(),
        ResourceLimits::default_limits(),
        None,
        1000,
        None::<&NoPicker>,
        Ready::Usable,
    );
    Ok(publisher.acknowledged())
}

/// The number that is found after this many steps of RECOVERY, which accept, deny and accept again.
/// No step follows the third.
fn number_after(steps: u64) -> Option<u64> {
    match steps {
        0 | 2 => None,
        1 => Some(1),
        _ => Some(3),
    }
}

/// Whether a crash leaves what this many steps say, or one more.
fn crashes_whole(alloc: Global, disk: &MemDisk, fill: u8, steps: u64) -> Result<bool, Fail> {
    let mut crashed = disk.crash(fill)?;
    if holds(alloc, &mut crashed, number_after(steps))? {
        return Ok(true);
    }
    holds(alloc, &mut crashed, number_after(steps.saturating_add(1)))
}

/// Whether each crash of a disk that stops after this many calls leaves what the written steps say,
/// or one more.
fn stops_whole(alloc: Global, calls: u64) -> Result<bool, Fail> {
    let mut disk = MemDisk::stopping(alloc, calls);
    let steps = written(alloc, &mut disk, RECOVERY)?;
    let zeros = crashes_whole(alloc, &disk, 0, steps)?;
    let ones = crashes_whole(alloc, &disk, 1, steps)?;
    Ok(zeros && ones && crashes_whole(alloc, &disk, 255, steps)?)
}

/// Whether a session over a disk that stops after this many calls ends well, and then a crash
/// leaves what all steps say.
fn ends_whole(alloc: Global, calls: u64) -> Result<bool, Fail> {
    let mut disk = MemDisk::stopping(alloc, calls);
    if !followed(alloc, &mut disk, RECOVERY)? {
        return Ok(false);
    }
    holds(alloc, &mut disk.crash(1)?, Some(3))
}

#[test]
fn a_disk_that_stops_is_never_damaged(rt: HostRuntime) -> Result<(), Fail> {
    let alloc = rt.alloc();
    for calls in 0..60 {
        assert!(rt; stops_whole(alloc, calls)?, "{calls} calls");
    }
    Ok(())
}

#[test]
fn a_session_ends_within_the_calls(rt: HostRuntime) -> Result<(), Fail> {
    let alloc = rt.alloc();
    assert!(rt; !ends_whole(alloc, 10)?);
    assert!(rt; ends_whole(alloc, 60)?);
    Ok(())
}
