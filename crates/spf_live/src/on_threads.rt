//! A live run over real threads.

ghost use Rattle.std.specs.Prelude.{◌≡◌, ◌↔◌, ◌≤◌, IfErr, None, Ok, map, string_bytes};
ghost use Rattle.spf_io.specs.Outside.{Rose};
ghost use Rattle.spf_program.specs.Live.{live_setting};
ghost use Rattle.spf_program.specs.Streams.{side};
ghost use Rattle.spf_live.specs.Runs.{Does, Ended, FollowFails, Follows};

use crate::builder::builder_of;
use crate::ending::{end_of, report};
use crate::error::{LiveError, error_of};
use crate::follow::print_source;
use crate::host::{HostConnector, HostPause};
use crate::on_thread::{HostJob, OnThread, start_on_thread};
use spf_feed::{HintPicker, SvidPicker};
use spf_io::{Failed, OutOfMemory, Sink};
use spf_program::live_options;
use spf_system::{Clock, StdClock, StepWords};
use spiffe::{BoardPlaces, Pass, SupervisorHandle, X509Source};
use std::alloc::Global;
use std::mem::drop;
use std::sync::Wait;
use std::thread::Threads;
use std::time;

/// Prints what a live source of the endpoint in the environment holds, as the arguments say, and
/// returns the exit status. Where not all lines were printed, a line on `errors` says why.
pub fn watch_on_threads<R, K, E>(
    host: HostRuntime,
    rt: R,
    arguments: &[String],
    out: &mut K,
    errors: &mut E,
) -> u8
where
    R: Threads + Wait + time::Clock + Copy + Drop + Send + 'static,
    K: Sink,
    E: Sink,
    // Status 1 comes exactly where the arguments are not those of a live run.
    ensures arguments { (result ≡ 1) ↔ (live_setting (map string_bytes arguments.now) ≡ None) }
    // As `watch_live` over the endpoint, the clock and the threads of the process: no clause says
    // when a thread is not available.
    ensures ended { Ended None (⟦<HintPicker as SvidPicker>⟧.picks) (Ok tt) (Unit {0}) (Unit {0})
        (Rose (K.failures out.old) (K.failures out.new))
        (live_setting (map string_bytes arguments.now)) None None
        (K.held out.old) (K.held out.new) (side (E.held errors.old) (E.failures errors.old))
        (side (E.held errors.new) (E.failures errors.new)) result }
{
    let alloc = host.alloc();
    let connector = HostConnector::new(host, alloc);
    let mut clock = StdClock::new(host);
    let random = StepWords::seeded_at(clock.now());
    watch_connector_on_threads(
        host, rt, arguments, connector, &mut clock, random, out, errors,
    )
}

/// Prints what a live source of this connector holds, by this clock, as `watch_on_threads` does.
pub fn watch_connector_on_threads<R, T, K, E>(
    host: HostRuntime,
    rt: R,
    arguments: &[String],
    connector: HostConnector,
    clock: &mut T,
    random: StepWords,
    out: &mut K,
    errors: &mut E,
) -> u8
where
    R: Threads + Wait + time::Clock + Copy + Drop + Send + 'static,
    T: Clock,
    K: Sink,
    E: Sink,
    // Status 1 comes exactly where the arguments are not those of a live run.
    ensures arguments { (result ≡ 1) ↔ (live_setting (map string_bytes arguments.now) ≡ None) }
    // As `watch_live`: no clause says when a thread is not available.
    ensures ended { Ended None (⟦<HintPicker as SvidPicker>⟧.picks) (Ok tt) (Unit {0}) (Unit {0})
        (Rose (K.failures out.old) (K.failures out.new))
        (live_setting (map string_bytes arguments.now)) (T.moments clock.old)
        (T.moments clock.new) (K.held out.old) (K.held out.new)
        (side (E.held errors.old) (E.failures errors.old))
        (side (E.held errors.new) (E.failures errors.new)) result }
{
    let end = live_on_threads(host, rt, arguments, connector, clock, random, out);
    report(errors, end)
}

/// Prints that many lines of what the source holds. However that ends, it closes the source and
/// waits for its supervisor.
fn follow<R, T, K>(
    rt: &R,
    alloc: Global,
    source: X509Source,
    pass: Pass,
    handle: SupervisorHandle<HostJob<R>, OnThread<R>>,
    clock: &mut T,
    out: &mut K,
    lines: u64,
) -> Result<(), LiveError>
where
    R: Threads + Wait + time::Clock + Copy + Drop + Send + 'static,
    T: Clock,
    K: Sink,
    requires pass { pass.book ≡ source.board }
    requires job { handle.job.board ≡ source.board }
    requires lines { 1 ≤ lines }
    ensures follows { Follows (λ _. None) (⟦<HintPicker as SvidPicker>⟧.picks) handle.job lines
        (T.moments clock.old) (T.moments clock.new) (K.held out.old) (K.held out.new) result }
    ensures cause { IfErr result (FollowFails (Unit {0})
        (Rose (K.failures out.old) (K.failures out.new))) }
{
    let places = &mut BoardPlaces::new();
    let (mut pass, printed) = print_source(rt, alloc, source, pass, clock, places, out, lines);
    let record = handle.close_and_join().into_record(&mut pass);
    drop(pass);
    let is_recorded = record.is_ok();
    drop(record);
    end_of(printed, is_recorded)
}

fn live_on_threads<R, T, K>(
    host: HostRuntime,
    rt: R,
    arguments: &[String],
    connector: HostConnector,
    clock: &mut T,
    random: StepWords,
    out: &mut K,
) -> Result<(), LiveError>
where
    R: Threads + Wait + time::Clock + Copy + Drop + Send + 'static,
    T: Clock,
    K: Sink,
    ensures does { Does None (⟦<HintPicker as SvidPicker>⟧.picks) (Ok tt) (Unit {0}) (Unit {0})
        (Rose (K.failures out.old) (K.failures out.new))
        (live_setting (map string_bytes arguments.now)) (T.moments clock.old)
        (T.moments clock.new) (K.held out.old) (K.held out.new) result }
{
    let Some(options) = live_options(arguments) else {
        drop(connector);
        drop(random);
        return Err(LiveError::BadArguments);
    };
    let alloc = host.alloc();
    let builder = match builder_of(alloc, connector, &options) {
        Ok(builder) => builder,
        Err(OutOfMemory) => {
            drop(random);
            return Err(LiveError::OutOfMemory);
        }
    };
    let pause = HostPause::new(host);
    let places = &mut BoardPlaces::new();
    match builder.prepare(rt, alloc, clock, pause, random, places) {
        Ok((source, pass, job, pending)) => match start_on_thread(rt, job) {
            Ok(handle) => follow(
                &rt,
                alloc,
                source,
                pass,
                pending.started(handle),
                clock,
                out,
                options.lines,
            ),
            Err(Failed) => {
                drop(source);
                drop(pass);
                drop(pending);
                Err(LiveError::NoSupervisor)
            }
        },
        Err(e) => Err(error_of(e)),
    }
}
