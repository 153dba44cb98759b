//! Inputs that end early: reads and writes that fail, and too many lines. All other inputs are rows
//! of tests/rows.

use crate::source::opened;
use spf_gate::{GateError, gate_serve};
use spf_io::{MemSink, MemSource};
use std::alloc::Global;
use std::mem::drop;
use std::process::Abort;
use std::sync::Wait;
use std::test::Fail;

/// Two asks, each of which is answered with the same line.
static INPUT: &[u8] = b"---\nspiffe://example.org/w\nspiffe://example.org/w\n";

/// The cuts of the reads: the policy, and then each ask by itself.
const CUTS: [usize; 3] = [4, 23, 23];

const ONE: &str = "no-rule 0 spiffe://example.org/w\n";

const TWO: &str = "no-rule 0 spiffe://example.org/w\nno-rule 0 spiffe://example.org/w\n";

/// What fails, the maximum number of lines, what is written, and the end.
#[derive(Clone, Copy)]
struct Case {
    failing_read: u64,
    failing_put: u64,
    max_lines: u64,
    lines: &'static str,
    end: Result<u64, GateError>,
}

/// No read and no put has the number 0, so nothing fails.
const WHOLE: Case = Case {
    failing_read: 0,
    failing_put: 0,
    max_lines: 100,
    lines: TWO,
    end: Ok(2),
};

static CASES: [Case; 6] = [
    WHOLE,
    Case {
        max_lines: 2,
        lines: ONE,
        end: Err(GateError::TooManyLines),
        ..WHOLE
    },
    Case {
        failing_read: 1,
        lines: "",
        end: Err(GateError::ReadFault),
        ..WHOLE
    },
    Case {
        failing_read: 3,
        lines: ONE,
        end: Err(GateError::ReadFault),
        ..WHOLE
    },
    Case {
        failing_put: 1,
        lines: "",
        end: Err(GateError::WriteFault),
        ..WHOLE
    },
    Case {
        failing_put: 2,
        lines: ONE,
        end: Err(GateError::WriteFault),
        ..WHOLE
    },
];

fn source_of<R: Abort>(rt: &R, alloc: Global, failing: u64) -> MemSource {
    let bytes = Vec::from_slice(alloc, INPUT).expect(rt, "memory");
    let cuts = Vec::from_slice(alloc, &CUTS).expect(rt, "memory");
    let failing = Vec::from_slice(alloc, &[failing]).expect(rt, "memory");
    MemSource::new(bytes, cuts, failing)
}

fn sink_of<R: Abort>(rt: &R, alloc: Global, failing: u64) -> MemSink {
    let failing = Vec::from_slice(alloc, &[failing]).expect(rt, "memory");
    MemSink::new(alloc, 4096, failing).expect(rt, "a sink")
}

/// Whether these lines are written by a source that accepted the item I1 at 999, and its answering
/// ends like this.
fn is_served<R: Wait + Abort + Copy + Drop>(
    rt: R,
    alloc: Global,
    case: Case,
) -> Result<bool, Fail> {
    let mut held = opened(rt, alloc)?;
    let mut input = source_of(&rt, alloc, case.failing_read);
    let mut out = sink_of(&rt, alloc, case.failing_put);
    let end = gate_serve(
        alloc,
        &held.source,
        &mut held.pass,
        &mut input,
        &mut out,
        case.max_lines,
    );
    let found = out.bytes() == case.lines.as_bytes() && end == case.end;
    drop(out);
    drop(input);
    drop(held);
    Ok(found)
}

#[test]
fn inputs_that_end_early(rt: HostRuntime) -> Result<(), Fail> {
    for &case in CASES.iter() {
        assert!(rt;
            is_served(rt, rt.alloc(), case)?,
            "{} {}",
            case.failing_read,
            case.failing_put
        );
    }
    Ok(())
}
