//! Running the program over memory.

use spf_io::{MemSink, MemSource, OutOfMemory};
use spf_watch::watch;
use std::alloc::Global;
use std::mem::drop;
use std::process::Abort;

/// The status of a run, and what it wrote.
#[derive(Drop)]
pub struct Outcome {
    status: u8,
    out: MemSink,
    errors: MemSink,
}

impl Outcome {
    pub fn status(&self) -> u8 {
        self.status
    }

    /// What it wrote to the output.
    pub fn out(&self) -> &[u8] {
        self.out.bytes()
    }

    /// Whether it ended with this status, and wrote just these texts.
    pub fn is(&self, out: &str, status: u8, error: &str) -> bool {
        self.status == status
            && self.out.bytes() == out.as_bytes()
            && self.errors.bytes() == error.as_bytes()
    }
}

/// The arguments, which stand between spaces.
fn split(alloc: Global, arguments: &str) -> Result<Vec<String>, OutOfMemory> {
    let mut texts = Vec::new(alloc);
    for argument in arguments.split_whitespace() {
        texts.push(String::from_str(alloc, argument)?)?;
    }
    Ok(texts)
}

fn sink(rt: &(impl Abort + AllocGlobal), room: usize, failing: &[u64]) -> MemSink {
    let failing = Vec::from_slice(rt.alloc(), failing).expect(rt, "memory");
    MemSink::new(rt.alloc(), room, failing).expect(rt, "a sink")
}

/// Runs the program with arguments, between spaces, over a source, with the listed puts failing.
pub fn run(
    rt: &(impl Abort + AllocGlobal),
    arguments: &str,
    mut source: MemSource,
    failing_puts: &[u64],
) -> Outcome {
    let texts = split(rt.alloc(), arguments).expect(rt, "memory");
    let (mut out, mut errors) = (sink(rt, 1 << 24, failing_puts), sink(rt, 1 << 10, &[]));
    let status = watch(
        rt.alloc(),
        texts.as_slice(),
        &mut source,
        &mut out,
        &mut errors,
    );
    drop(texts);
    drop(source);
    Outcome {
        status,
        out,
        errors,
    }
}

/// Octets that are read as they stand.
pub fn source_of(alloc: Global, octets: Vec<u8>) -> MemSource {
    MemSource::new(octets, Vec::new(alloc), Vec::new(alloc))
}

/// Octets that are read one by one, with the listed reads failing.
pub fn slow_source(
    rt: &(impl Abort + AllocGlobal),
    octets: Vec<u8>,
    failing_reads: &[u64],
) -> MemSource {
    let ones = vec![in rt.alloc(); 1; octets.len()].expect(rt, "memory");
    let failing = Vec::from_slice(rt.alloc(), failing_reads).expect(rt, "memory");
    MemSource::new(octets, ones, failing)
}
