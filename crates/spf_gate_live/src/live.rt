//! Asks that are answered from a source of their own.

ghost use Rattle.std.specs.Prelude.{◌≡◌, ◌≢◌, ◌↔◌, length};
ghost use Rattle.spf_io.specs.Outside.{Rose};
ghost use Rattle.spf_program.specs.Streams.{side};
ghost use Rattle.spf_gate_live.specs.Runs.{Ended};

use crate::ending::report;
use crate::live_error::{LiveGateError, end_of, error_of};
use rand_core::Rng;
use spf_feed::{NoPicker, NoRecorder, SvidPicker};
use spf_gate::gate_serve;
use spf_io::{Failed, Sink, Source};
use spf_link::Connector;
use spf_system::{Clock, Pause, Spawner};
use spiffe::{Places, X509Job, X509SourceBuilder};
use std::alloc::Global;
use std::mem::drop;
use std::sync::Wait;

/// The maximum number of lines of an input.
pub(crate) const MAX_LINES: u64 = 1_000_000;

/// Answers the asks of the input from a source over the connector, and returns the exit status: 0
/// where all were answered. Where they were not, a line on `errors` says why. However answering
/// ends, the source is then closed, and its supervisor is waited for. It takes no arguments.
pub fn gate_live<C, T, W, N, S, L, I, K, E, R>(
    rt: R,
    alloc: Global,
    arguments: &[String],
    connector: C,
    clock: &mut T,
    pause: W,
    random: N,
    spawner: &mut S,
    places: &mut L,
    input: &mut I,
    out: &mut K,
    errors: &mut E,
) -> u8
where
    C: Connector + Drop,
    C::Link: Drop,
    T: Clock,
    W: Pause + Drop,
    N: Rng + Drop,
    S: Spawner<X509Job<C, NoPicker, NoRecorder, W, N, R>>,
    S::Handle: Drop,
    L: Places,
    I: Source,
    K: Sink,
    E: Sink,
    R: Wait + Copy + Drop,
    // Status 9 comes exactly where there are arguments.
    ensures arguments { (result ≡ 9) ↔ (length arguments.now ≢ 0) }
    ensures untouched { length arguments.now ≢ 0 → (input.new ≡ input.old) × (out.new ≡ out.old)
        × (clock.new ≡ clock.old) × (spawner.new ≡ spawner.old) × (places.new ≡ places.old) }
    // Where all asks were answered, each line is that of what was read of a beginning of the steps
    // in the supervisor's record, whose events are what the connector yielded. Where they were not,
    // the status and the line on `errors` say why.
    ensures ended { Ended (C.members connector) (⟦<NoPicker as SvidPicker>⟧.picks)
        (C.validates connector) (Rose (S.refusals spawner.old) (S.refusals spawner.new))
        (Rose (L.refusals places.old) (L.refusals places.new))
        (Rose (I.failures input.old) (I.failures input.new))
        (Rose (K.failures out.old) (K.failures out.new))
        (I.left input.old) (I.left input.new) (K.held out.old) (K.held out.new)
        (side (E.held errors.old) (E.failures errors.old))
        (side (E.held errors.new) (E.failures errors.new)) result }
{
    if !arguments.is_empty() {
        drop(connector);
        drop(pause);
        drop(random);
        return report(errors, Err(LiveGateError::BadArguments));
    }
    let builder = X509SourceBuilder::new(connector);
    match builder.prepare(rt, alloc, clock, pause, random, places) {
        Ok((source, mut pass, job, pending)) => match spawner.start(job) {
            Ok(handle) => {
                let served = gate_serve(alloc, &source, &mut pass, input, out, MAX_LINES);
                drop(source);
                let done = pending.started(handle).close_and_join();
                let record = done.into_record(&mut pass);
                drop(pass);
                let is_recorded = record.is_ok();
                drop(record);
                report(errors, end_of(served, is_recorded))
            }
            Err(Failed) => {
                drop(source);
                drop(pass);
                drop(pending);
                report(errors, Err(LiveGateError::NoSupervisor))
            }
        },
        Err(error) => report(errors, Err(error_of(error))),
    }
}
