//! Runs of the gate that get no supervisor or no place.

use crate::places::EitherPlaces;
use crate::runs::doubles::{clock, pause, sink};
use spf_fixtures::{EitherSpawner, connector, good_link};
use spf_gate_live::gate_live;
use spf_io::MemSource;
use spf_system::StepWords;
use std::mem::drop;
use std::process::Abort;
use std::sync::Wait;
use std::test::Fail;

fn source(rt: &(impl Abort + AllocGlobal)) -> MemSource {
    let input = Vec::from_slice(rt.alloc(), b"---\n").expect(rt, "memory");
    MemSource::new(input, Vec::new(rt.alloc()), Vec::new(rt.alloc()))
}

/// Whether a run over a link that gives an item writes nothing, and ends with this status and this
/// line on the error output.
fn ends<R: Abort + AllocGlobal + Wait + Copy + Drop>(
    rt: R,
    spawner: &mut EitherSpawner,
    places: &mut EitherPlaces,
    wanted: u8,
    error: &str,
) -> Result<bool, Fail> {
    let connector = connector(rt.alloc(), good_link(rt.alloc())?)?;
    let mut clock = clock(&rt);
    let mut input = source(&rt);
    let mut out = sink(&rt);
    let mut errors = sink(&rt);
    let status = gate_live(
        rt,
        rt.alloc(),
        &[],
        connector,
        &mut clock,
        pause(&rt),
        StepWords::new(0),
        spawner,
        places,
        &mut input,
        &mut out,
        &mut errors,
    );
    drop(clock);
    drop(input);
    let is_so = status == wanted && out.bytes().is_empty() && errors.bytes() == error.as_bytes();
    drop(out);
    drop(errors);
    Ok(is_so)
}

#[test]
fn no_supervisor_and_no_place(rt: HostRuntime) -> Result<(), Fail> {
    let spawner = &mut EitherSpawner::refusing();
    let places = &mut EitherPlaces::giving();
    assert!(rt; ends(rt, spawner, places, 20, "spf_gate: source error 10\n")?);
    let spawner = &mut EitherSpawner::inline();
    let places = &mut EitherPlaces::refusing();
    assert!(rt; ends(rt, spawner, places, 21, "spf_gate: source error 11\n")?);
    Ok(())
}
