//! A live run over a spawner of any kind.

ghost use Rattle.std.specs.Prelude.{◌≡◌, ◌↔◌, None, map, string_bytes};
ghost use Rattle.spf_io.specs.Outside.{Rose};
ghost use Rattle.spf_program.specs.Live.{live_setting};
ghost use Rattle.spf_program.specs.Streams.{side};
ghost use Rattle.spf_live.specs.Runs.{Does, Ended};

use crate::builder::builder_of;
use crate::ending::{end_of, report};
use crate::error::{LiveError, error_of};
use crate::follow::print_source;
use rand_core::Rng;
use spf_feed::{HintPicker, NoRecorder, SvidPicker};
use spf_io::{Failed, OutOfMemory, Sink};
use spf_link::Connector;
use spf_program::live_options;
use spf_system::{Clock, Pause, Spawner};
use spiffe::{Places, X509Job};
use std::alloc::Global;
use std::mem::drop;
use std::sync::Wait;
use std::time;

/// Prints what a live source holds, as the arguments say, and returns the exit status: 0 where all
/// lines were printed. Where they were not, a line on `errors` says why.
pub fn watch_live<C, T, W, N, S, L, K, E, R>(
    rt: R,
    alloc: Global,
    arguments: &[String],
    connector: C,
    clock: &mut T,
    pause: W,
    random: N,
    spawner: &mut S,
    places: &mut L,
    out: &mut K,
    errors: &mut E,
) -> u8
where
    C: Connector + Drop,
    C::Link: Drop,
    T: Clock,
    W: Pause + Drop,
    N: Rng + Drop,
    S: Spawner<X509Job<C, HintPicker, NoRecorder, W, N, R>>,
    S::Handle: Drop,
    L: Places,
    K: Sink,
    E: Sink,
    R: Wait + time::Clock + Copy + Drop,
    // Status 1 comes exactly where the arguments are not those of a live run.
    ensures arguments { (result ≡ 1) ↔ (live_setting (map string_bytes arguments.now) ≡ None) }
    // The lines show what one source holds, each a later state than the line before it. Where all
    // of them were printed, the record of its supervisor has their steps, and what the connector
    // yielded. Where they were not, the status and the line on `errors` say why.
    ensures ended { Ended (C.members connector) (⟦<HintPicker as SvidPicker>⟧.picks)
        (C.validates connector) (Rose (S.refusals spawner.old) (S.refusals spawner.new))
        (Rose (L.refusals places.old) (L.refusals places.new))
        (Rose (K.failures out.old) (K.failures out.new))
        (live_setting (map string_bytes arguments.now)) (T.moments clock.old)
        (T.moments clock.new) (K.held out.old) (K.held out.new)
        (side (E.held errors.old) (E.failures errors.old))
        (side (E.held errors.new) (E.failures errors.new)) result }
{
    let end = live(
        rt, alloc, arguments, connector, clock, pause, random, spawner, places, out,
    );
    report(errors, end)
}

/// Builds a source, and prints as many lines of what it holds as the arguments say. However that
/// ends, it then closes the source, and waits for its supervisor.
fn live<C, T, W, N, S, L, K, R>(
    rt: R,
    alloc: Global,
    arguments: &[String],
    connector: C,
    clock: &mut T,
    pause: W,
    random: N,
    spawner: &mut S,
    places: &mut L,
    out: &mut K,
) -> Result<(), LiveError>
where
    C: Connector + Drop,
    C::Link: Drop,
    T: Clock,
    W: Pause + Drop,
    N: Rng + Drop,
    S: Spawner<X509Job<C, HintPicker, NoRecorder, W, N, R>>,
    S::Handle: Drop,
    L: Places,
    K: Sink,
    R: Wait + time::Clock + Copy + Drop,
    ensures does { Does (C.members connector) (⟦<HintPicker as SvidPicker>⟧.picks)
        (C.validates connector) (Rose (S.refusals spawner.old) (S.refusals spawner.new))
        (Rose (L.refusals places.old) (L.refusals places.new))
        (Rose (K.failures out.old) (K.failures out.new))
        (live_setting (map string_bytes arguments.now)) (T.moments clock.old)
        (T.moments clock.new) (K.held out.old) (K.held out.new) result }
{
    let Some(options) = live_options(arguments) else {
        drop(connector);
        drop(pause);
        drop(random);
        return Err(LiveError::BadArguments);
    };
    let builder = match builder_of(alloc, connector, &options) {
        Ok(builder) => builder,
        Err(OutOfMemory) => {
            drop(pause);
            drop(random);
            return Err(LiveError::OutOfMemory);
        }
    };
    let lines = options.lines;
    match builder.prepare(rt, alloc, clock, pause, random, places) {
        Ok((source, pass, job, pending)) => match spawner.start(job) {
            Ok(handle) => {
                let (mut pass, printed) = print_source(
                    &rt, alloc, source, pass, clock, places, out, lines,
                );
                let done = pending.started(handle).close_and_join();
                let record = done.into_record(&mut pass);
                drop(pass);
                let is_recorded = record.is_ok();
                drop(record);
                end_of(printed, is_recorded)
            }
            Err(Failed) => {
                drop(source);
                drop(pass);
                drop(pending);
                Err(LiveError::NoSupervisor)
            }
        },
        Err(e) => Err(error_of(e)),
    }
}
