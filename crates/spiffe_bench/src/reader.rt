//! What one thread reads.

ghost use Rattle.std.specs.Prelude.{◌≡◌};

use crate::storm::{Steps, read_until};
use spf_io::OutOfMemory;
use spf_system::StopFlag;
use spiffe::{BoardPlaces, Pass, X509Source};
use std::mem::drop;
use std::sync::Wait;
use std::time::{Clock, Duration, Instant};

/// A read of a source.
#[derive(Clone, Copy, PartialEq, Eq)]
pub(crate) enum Call {
    State,
    Svid,
    IsHealthy,
}

/// A handle of a source and a pass of its board.
#[derive(Drop)]
pub(crate) struct Reader {
    pub(crate) source: X509Source,
    pub(crate) pass: Pass,
    pub(crate) ghost same: { pass.book ≡ source.board },
}

/// Whether a read gave something, which is dropped.
fn is_given<T: Drop, E: Drop>(read: Result<T, E>) -> bool {
    let is_given = read.is_ok();
    drop(read);
    is_given
}

/// Reads once, and returns whether that gave something.
fn read(source: &X509Source, pass: &mut Pass, call: Call) -> bool
    requires { pass.old.book ≡ source.now.board }
    ensures { pass.new.book ≡ pass.old.book }
{
    match call {
        Call::State => is_given(source.state(pass)),
        Call::Svid => is_given(source.svid(pass, Some(999))),
        Call::IsHealthy => source.is_healthy(pass, Some(999)),
    }
}

/// Reads again and again, and returns how often that gave something.
fn read_all(source: &X509Source, pass: &mut Pass, call: Call, reads: u64) -> u64
    requires { pass.old.book ≡ source.now.board }
{
    let mut given = 0u64;
    'reads: for _ in 0..reads {
        if read(source, pass, call) {
            given = given.wrapping_add(1);
        }
    }
    given
}

/// How long the reads take, and how many gave something.
fn timed_reads(
    clock: &impl Clock,
    source: &X509Source,
    pass: &mut Pass,
    call: Call,
    reads: u64,
) -> Option<(Duration, u64)>
    requires { pass.old.book ≡ source.now.board }
{
    let begin = Instant::now(clock).ok()?;
    let given = read_all(source, pass, call, reads);
    Some((begin.elapsed(clock).ok()?, given))
}

impl Reader {
    /// Another handle and another pass of the source.
    pub(crate) fn new(source: &mut X509Source, pass: &mut Pass) -> Result<Reader, OutOfMemory>
        requires { pass.old.book ≡ source.old.board }
        ensures { (pass.new.book ≡ pass.old.book) × (source.new.board ≡ source.old.board) }
    {
        let handle = source.try_clone()?;
        match source.another_pass(pass, &mut BoardPlaces::new()) {
            Ok(pass) => Ok(Reader {
                source: handle,
                pass,
            }),
            Err(error) => {
                drop(error);
                drop(handle);
                Err(OutOfMemory)
            }
        }
    }

    /// Checks reads until the flag is set, and returns how often; none where one was not sound.
    pub(crate) fn watch(self, rt: &impl Wait, steps: &Steps, stop: &StopFlag) -> Option<u64> {
        let Reader {
            source,
            mut pass,
            ..
        } = self;
        let reads = read_until(rt, &source, &mut pass, steps, stop);
        drop(pass);
        drop(source);
        reads
    }

    /// How long the reads take, and how many gave something.
    pub(crate) fn run(self, clock: &impl Clock, call: Call, reads: u64) -> Option<(Duration, u64)> {
        let Reader {
            source,
            mut pass,
            ..
        } = self;
        let timed = timed_reads(clock, &source, &mut pass, call, reads);
        drop(pass);
        drop(source);
        timed
    }
}
