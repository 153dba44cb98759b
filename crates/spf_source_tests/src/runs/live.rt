//! Live runs that get no supervisor or no place.

use crate::places::EitherPlaces;
use crate::runs::doubles::{clock, pause, sink};
use spf_fixtures::{EitherSpawner, connector, good_link};
use spf_live::watch_live;
use spf_system::StepWords;
use std::mem::drop;
use std::process::Abort;
use std::sync::Wait;
use std::test::Fail;
use std::time::Clock;

/// Whether a run over a link that gives an item prints nothing, and ends with this status and this
/// line on the error output.
fn ends<R: Abort + AllocGlobal + Wait + Clock + Copy + Drop>(
    rt: R,
    spawner: &mut EitherSpawner,
    places: &mut EitherPlaces,
    wanted: u8,
    error: &str,
) -> Result<bool, Fail> {
    let connector = connector(rt.alloc(), good_link(rt.alloc())?)?;
    let mut clock = clock(&rt);
    let mut out = sink(&rt);
    let mut errors = sink(&rt);
    let status = watch_live(
        rt,
        rt.alloc(),
        &[],
        connector,
        &mut clock,
        pause(&rt),
        StepWords::new(0),
        spawner,
        places,
        &mut out,
        &mut errors,
    );
    drop(clock);
    let is_so = status == wanted && out.bytes().is_empty() && errors.bytes() == error.as_bytes();
    drop(out);
    drop(errors);
    Ok(is_so)
}

#[test]
fn no_supervisor_and_no_place(rt: HostRuntime) -> Result<(), Fail> {
    let spawner = &mut EitherSpawner::refusing();
    let places = &mut EitherPlaces::giving();
    assert!(rt; ends(rt, spawner, places, 12, "spiffe_watch: no supervisor\n")?);
    let spawner = &mut EitherSpawner::inline();
    let places = &mut EitherPlaces::refusing();
    assert!(rt; ends(rt, spawner, places, 13, "spiffe_watch: no place\n")?);
    Ok(())
}
