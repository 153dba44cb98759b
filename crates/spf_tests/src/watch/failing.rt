//! Reads and puts that fail.

use crate::watch::running::{run, slow_source, source_of};
use spf_fixtures::{octets, written_out};
use spf_io::MemSource;
use std::alloc::Global;
use std::mem::drop;
use std::process::Abort;
use std::test::Fail;

/// The frames of the row first-session.
const FRAMES: &str = "M999 CM CN I1F CL";

/// Its lines.
const LINES: &str = "1 waiting\n2 waiting\n3 waiting\n4 0 permitted P1 other.org=ROOT2\n\
                     5 0 permitted P1 other.org=ROOT2\n";

/// What follows the frame at the start of `octets`, where that is whole.
fn after_frame(octets: &[u8]) -> Option<&[u8]> {
    match octets {
        [_, a, b, c, d, payload @ ..] => {
            payload.get(u32::from_be_bytes([*a, *b, *c, *d]) as usize..)
        }
        _ => None,
    }
}

/// How many whole frames there are at the start of `octets`.
fn whole_frames(octets: &[u8]) -> usize {
    let mut rest = octets;
    for frames in 0..octets.len() {
        match after_frame(rest) {
            Some(after) => rest = after,
            None => return frames,
        }
    }
    octets.len()
}

/// The first lines of a text.
fn first_lines(text: &str, count: usize) -> &str {
    let mut length = 0usize;
    for line in text.lines().take(count) {
        length = length.saturating_add(line.len()).saturating_add(1);
    }
    match text.get(..length) {
        Some(lines) => lines,
        None => text,
    }
}

/// The first octets, or all where there are fewer.
fn front(octets: &[u8], count: usize) -> &[u8] {
    match octets.get(..count) {
        Some(front) => front,
        None => octets,
    }
}

/// A status, and what is then on the error output.
type End = (u8, &'static str);

const READ_FAILED: End = (3, "spiffe_watch: read failed\n");

const WRITE_FAILED: End = (4, "spiffe_watch: write failed\n");

const WELL: End = (0, "");

/// Whether the row first-session, read octet by octet with the read after that many failing, ends
/// so after the lines of the frames that were whole.
fn ends_at_read(
    rt: &(impl Abort + AllocGlobal),
    lines: &str,
    taken: usize,
    end: End,
) -> Result<bool, Fail> {
    let session = octets(rt.alloc(), FRAMES)?;
    let count = whole_frames(front(session.as_slice(), taken));
    let ran = run(
        rt,
        "x509",
        slow_source(rt, session, &[(taken as u64).saturating_add(1)]),
        &[],
    );
    let ends = ran.is(first_lines(lines, count), end.0, end.1);
    drop(ran);
    Ok(ends)
}

/// How many octets the row first-session has.
fn first_length(alloc: Global) -> Result<usize, Fail> {
    let session = octets(alloc, FRAMES)?;
    Ok(session.len())
}

/// The bytes of the row first-session one by one, where each read in turn fails. The lines of the
/// frames that were whole are there. A read after the last one is not reached.
#[test]
fn failing_reads(rt: HostRuntime) -> Result<(), Fail> {
    let lines = written_out(rt.alloc(), LINES)?;
    let length = first_length(rt.alloc())?;
    for taken in 0..length {
        assert!(rt;
            ends_at_read(&rt, lines.as_str(), taken, READ_FAILED)?,
            "at {taken}"
        );
    }
    assert!(rt; ends_at_read(&rt, lines.as_str(), length, WELL)?);
    Ok(())
}

/// Whether the row first-session, with the put after that many failing, ends so, and the lines of
/// the puts before it are there.
fn ends_at_put(
    rt: &(impl Abort + AllocGlobal),
    lines: &str,
    put: usize,
    end: End,
) -> Result<bool, Fail> {
    let source = source_of(rt.alloc(), octets(rt.alloc(), FRAMES)?);
    let ran = run(rt, "x509", source, &[(put as u64).saturating_add(1)]);
    let ends = ran.is(first_lines(lines, put), end.0, end.1);
    drop(ran);
    Ok(ends)
}

/// The row first-session, where each of its five puts in turn fails, the first as in the row
/// failing-io. The lines before it are there. A put after the last one is not reached.
#[test]
fn failing_puts(rt: HostRuntime) -> Result<(), Fail> {
    let lines = written_out(rt.alloc(), LINES)?;
    for put in 0..5 {
        assert!(rt;
            ends_at_put(&rt, lines.as_str(), put, WRITE_FAILED)?,
            "at {put}"
        );
    }
    assert!(rt; ends_at_put(&rt, lines.as_str(), 5, WELL)?);
    Ok(())
}

/// The row failing-io: the first read of the row first-session gives one octet, the second fails.
#[test]
fn failing_second_read(rt: HostRuntime) -> Result<(), Fail> {
    let session = octets(rt.alloc(), FRAMES)?;
    let failing = Vec::from_slice(rt.alloc(), &[2]).expect(&rt, "memory");
    let source = MemSource::new(session, Vec::new(rt.alloc()), failing);
    let ran = run(&rt, "x509", source, &[]);
    assert!(rt; ran.is("", READ_FAILED.0, READ_FAILED.1));
    drop(ran);
    Ok(())
}

/// After a bad kind nothing is read: the failing read after it is not reached.
#[test]
fn bad_kind_before_a_failing_read(rt: HostRuntime) -> Result<(), Fail> {
    let source = slow_source(&rt, octets(rt.alloc(), "0a00000000")?, &[2]);
    let ran = run(&rt, "x509", source, &[]);
    assert!(rt; ran.is("", 6, "spiffe_watch: bad frame 1\n"));
    Ok(())
}
