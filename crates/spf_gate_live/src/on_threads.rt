//! A live run of the gate over real threads.

ghost use Rattle.std.specs.Prelude.{◌≡◌, ◌≢◌, ◌↔◌, length, None, Ok, IfErr, IsErrOf};
ghost use Rattle.spf_io.specs.Outside.{Rose};
ghost use Rattle.spf_program.specs.Streams.{side};
ghost use Rattle.spf_gate_live.specs.Runs.{Ended, FailsBy, Runs};
ghost use Rattle.spf_gate_live.specs.declared.live_error.LiveGateError.TheVariants as kinds;

use crate::ending::report;
use crate::live::MAX_LINES;
use crate::live_error::{LiveGateError, end_of, error_of};
use spf_feed::{HintPicker, SvidPicker};
use spf_gate::gate_serve;
use spf_io::{Failed, Sink, Source};
use spf_live::{HostConnector, HostPause, start_on_thread};
use spf_system::{Clock, StdClock, StepWords};
use spiffe::{BoardPlaces, X509SourceBuilder};
use std::mem::drop;
use std::sync::Wait;
use std::thread::Threads;

/// Answers the asks of the input from a live source of the endpoint in the environment, and returns
/// the exit status: 0 where all were answered. Where they were not, a line on `errors` says why.
pub fn gate_on_threads<R, I, K, E>(
    host: HostRuntime,
    rt: R,
    arguments: &[String],
    input: &mut I,
    out: &mut K,
    errors: &mut E,
) -> u8
where
    R: Threads + Wait + Copy + Drop + Send + 'static,
    I: Source,
    K: Sink,
    E: Sink,
    // Status 9 comes exactly where there are arguments.
    ensures arguments { (result ≡ 9) ↔ (length arguments.now ≢ 0) }
    ensures untouched { length arguments.now ≢ 0 → (input.new ≡ input.old) × (out.new ≡ out.old) }
    // As `gate_live` over the endpoint, the clock and the threads of the process: no clause says
    // when a thread or a place is not available.
    ensures ended { Ended None (⟦<HintPicker as SvidPicker>⟧.picks) (Ok tt) (Unit {0}) (Unit {0})
        (Rose (I.failures input.old) (I.failures input.new))
        (Rose (K.failures out.old) (K.failures out.new))
        (I.left input.old) (I.left input.new) (K.held out.old) (K.held out.new)
        (side (E.held errors.old) (E.failures errors.old))
        (side (E.held errors.new) (E.failures errors.new)) result }
{
    if !arguments.is_empty() {
        return report(errors, Err(LiveGateError::BadArguments));
    }
    let end = serve_on_threads(host, rt, input, out);
    report(errors, end)
}

/// Builds a source, and answers the asks of the input from it. However that ends, it then closes
/// the source, and waits for its supervisor.
fn serve_on_threads<R, I, K>(
    host: HostRuntime,
    rt: R,
    input: &mut I,
    out: &mut K,
) -> Result<(), LiveGateError>
where
    R: Threads + Wait + Copy + Drop + Send + 'static,
    I: Source,
    K: Sink,
    ensures runs { Runs None (⟦<HintPicker as SvidPicker>⟧.picks) (I.left input.old)
        (I.left input.new) (K.held out.old) (K.held out.new) result }
    ensures cause { IfErr result (FailsBy None (⟦<HintPicker as SvidPicker>⟧.picks) (Ok tt)
        (Unit {0}) (Unit {0}) (Rose (I.failures input.old) (I.failures input.new))
        (Rose (K.failures out.old) (K.failures out.new))) }
    ensures arguments { IsErrOf result kinds.BadArguments → ⊥ }
{
    let alloc = host.alloc();
    let builder = X509SourceBuilder::new(HostConnector::new(host, alloc)).optional_picker(
        None::<HintPicker>,
    );
    let mut clock = StdClock::new(host);
    let random = StepWords::seeded_at(clock.now());
    let pause = HostPause::new(host);
    let mut places = BoardPlaces::new();
    match builder.prepare(rt, alloc, &mut clock, pause, random, &mut places) {
        Ok((source, mut pass, job, pending)) => match start_on_thread(rt, job) {
            Ok(handle) => {
                let served = gate_serve(alloc, &source, &mut pass, input, out, MAX_LINES);
                drop(source);
                let done = pending.started(handle).close_and_join();
                let record = done.into_record(&mut pass);
                drop(pass);
                let is_recorded = record.is_ok();
                drop(record);
                end_of(served, is_recorded)
            }
            Err(Failed) => {
                drop(source);
                drop(pass);
                drop(pending);
                Err(LiveGateError::NoSupervisor)
            }
        },
        Err(error) => Err(error_of(error)),
    }
}
