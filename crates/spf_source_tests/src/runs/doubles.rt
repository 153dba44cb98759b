//! What live runs are given in memory.

use spf_io::MemSink;
use spf_system::{MemClock, MemPause};
use std::process::Abort;

/// A sink with room for 4096 octets.
pub fn sink(rt: &(impl Abort + AllocGlobal)) -> MemSink {
    MemSink::new(rt.alloc(), 4096, Vec::new(rt.alloc())).expect(rt, "a sink")
}

/// A clock that gives 999 three times.
pub fn clock(rt: &(impl Abort + AllocGlobal)) -> MemClock {
    let moments = vec![in rt.alloc(); Some(999), Some(999), Some(999)];
    MemClock::new(moments.expect(rt, "memory"))
}

pub fn pause(rt: &(impl Abort + AllocGlobal)) -> MemPause {
    MemPause::new(rt.alloc(), 1).expect(rt, "a pause")
}
