//! The program over an input and outputs of any kind.

ghost use Rattle.std.specs.Prelude.{◌≡◌, ◌↔◌, false, None, Err, IfOk, IfErr, map, string_bytes};
ghost use Rattle.std.specs.Option.{option_map, option_copied};
ghost use Rattle.spf_feed.specs.Pick.{first_with_hint};
ghost use Rattle.spf_io.specs.Outside.{Rose};
ghost use Rattle.spf_watch.specs.Arguments.{command_in};
ghost use Rattle.spf_watch.specs.Causes.{HasCauses, is_bad_arguments};
ghost use Rattle.spf_watch.specs.Headline.{FollowsSession, Does, Ended, Headline, Completes};
ghost use Rattle.spf_watch.specs.Headline.{Puts, ended_by, x509_session, jwt_session};
ghost use Rattle.spf_watch.specs.MadeSession.{made_session};
ghost use Rattle.spf_program.specs.Streams.{Side, Streams, side};
ghost use Rattle.spf_watch.specs.declared.exit_reason.ExitReason.TheVariants as reasons;

use crate::arguments::{Command, JwtArguments, MakeArguments, X509Arguments, parse_command};
use crate::bench::bench;
use crate::exit_reason::{ExitReason, reason_of, report};
use crate::generated::GeneratedSession;
use crate::no_publisher::NoPublisher;
use crate::output::put;
use spf_feed::{FollowError, HintPicker, NoRecorder, SvidPicker, follow_x509};
use spf_io::{OutOfMemory, Sink, Source, Text};
use spf_jwt_feed::follow_jwt;
use std::alloc::Global;

/// Does what the arguments ask for, and returns the exit status: 0 where all went well. Where it
/// did not, a line on `errors` says why.
pub fn watch<S: Source, K: Sink, E: Sink>(
    alloc: Global,
    arguments: &[String],
    source: &mut S,
    out: &mut K,
    errors: &mut E,
) -> u8
    // Status 1 comes exactly where the arguments are not those of the program.
    ensures arguments { (result ≡ 1) ↔ (command_in (map string_bytes arguments.now) ≡ None) }
    // What the arguments ask for is done, and the status and the line on `errors` say how it ended.
    // Of a session, what is read, written and returned belongs to one list of events; `make` and
    // `bench` write a generated session, and its summary.
    ensures does { let before : Streams =
        record {
          input = side (S.left source.old) (S.failures source.old);
          output = side (K.held out.old) (K.failures out.old);
          errors = side (E.held errors.old) (E.failures errors.old);
        } in
        let after : Streams = record {
          input = side (S.left source.new) (S.failures source.new);
          output = side (K.held out.new) (K.failures out.new);
          errors = side (E.held errors.new) (E.failures errors.new);
        } in
        Ended (command_in (map string_bytes arguments.now)) before after result }
    // Status 0: the input held a whole session, and the output is one line for each event.
    ensures headline { let before : Streams =
        record {
          input = side (S.left source.old) (S.failures source.old);
          output = side (K.held out.old) (K.failures out.old);
          errors = side (E.held errors.old) (E.failures errors.old);
        } in
        let after : Streams = record {
          input = side (S.left source.new) (S.failures source.new);
          output = side (K.held out.new) (K.failures out.new);
          errors = side (E.held errors.new) (E.failures errors.new);
        } in
        result ≡ 0 → Headline (command_in (map string_bytes arguments.now)) before after }
    // A whole session with an accepted event, within the bound
    // and without a failure, ends with 0, or out of memory.
    ensures complete { let before : Streams =
        record {
          input = side (S.left source.old) (S.failures source.old);
          output = side (K.held out.old) (K.failures out.old);
          errors = side (E.held errors.old) (E.failures errors.old);
        } in
        let after : Streams = record {
          input = side (S.left source.new) (S.failures source.new);
          output = side (K.held out.new) (K.failures out.new);
          errors = side (E.held errors.new) (E.failures errors.new);
        } in
        Completes (command_in (map string_bytes arguments.now)) before after result }
    ensures read_fault { result ≡ 3 → Rose (S.failures source.old) (S.failures source.new) }
    ensures write_fault { result ≡ 4 → Rose (K.failures out.old) (K.failures out.new) }
{
    match run(alloc, arguments, source, out) {
        Ok(()) => 0,
        Err(reason) => report(errors, reason),
    }
}

fn run<S: Source, K: Sink>(
    alloc: Global,
    arguments: &[String],
    source: &mut S,
    out: &mut K,
) -> Result<(), ExitReason>
    ensures arguments { (result ≡ Err reasons.BadArguments)
        ↔ (command_in (map string_bytes arguments.now) ≡ None) }
    // whatever the error output holds
    ensures does { (errors errors' : Side) →
        let before : Streams = record {
          input = side (S.left source.old) (S.failures source.old);
          output = side (K.held out.old) (K.failures out.old);
          errors = errors;
        } in
        let after : Streams = record {
          input = side (S.left source.new) (S.failures source.new);
          output = side (K.held out.new) (K.failures out.new);
          errors = errors';
        } in
        Does (command_in (map string_bytes arguments.now)) before after result }
    ensures cause { HasCauses (S.failures source.old) (S.failures source.new) (K.failures out.old)
        (K.failures out.new) result }
{
    match parse_command(arguments) {
        None => Err(ExitReason::BadArguments),
        Some(Command::X509(arguments)) => follow(alloc, arguments, source, out),
        Some(Command::Jwt(arguments)) => follow_bundles(alloc, arguments, source, out),
        Some(Command::Make(arguments)) => make(alloc, arguments, out),
        Some(Command::Bench(arguments)) => bench(alloc, arguments, out),
    }
}

/// A picker of the first SVID with a hint, if there is a hint.
fn picker_of(alloc: Global, hint: Option<&str>) -> Result<Option<HintPicker>, OutOfMemory>
    ensures { IfOk result
        (λ p. option_map ⟦<HintPicker as SvidPicker>⟧.picks p
        ≡ option_map first_with_hint (option_copied hint.entry)) }
{
    match hint {
        None => Ok(None),
        Some(hint) => Ok(Some(HintPicker::new(Text::copy_of(alloc, hint)?))),
    }
}

/// Follows the session of `source`, and writes a line for
/// each event. Nothing keeps its steps and its records.
fn follow<S: Source, K: Sink>(
    alloc: Global,
    arguments: X509Arguments<'_>,
    source: &mut S,
    out: &mut K,
) -> Result<(), ExitReason>
    ensures arguments { IfErr result (λ e. is_bad_arguments e ≡ false) }
    ensures session { FollowsSession (x509_session arguments.entry) (S.left source.old)
        (S.left source.new) (K.held out.old) (K.held out.new) result }
    ensures cause { HasCauses (S.failures source.old) (S.failures source.new) (K.failures out.old)
        (K.failures out.new) result }
{
    let picker = picker_of(alloc, arguments.hint)?;
    let followed = follow_x509(
        alloc,
        source,
        out,
        &mut NoPublisher,
        &mut NoRecorder::new(),
        arguments.limits,
        arguments.deadline,
        arguments.max_frames,
        picker.as_ref(),
        arguments.ready,
    );
    end_of(followed)
}

/// The same of a session of JWT bundles.
fn follow_bundles<S: Source, K: Sink>(
    alloc: Global,
    arguments: JwtArguments,
    source: &mut S,
    out: &mut K,
) -> Result<(), ExitReason>
    ensures arguments { IfErr result (λ e. is_bad_arguments e ≡ false) }
    ensures session { FollowsSession (jwt_session arguments) (S.left source.old)
        (S.left source.new) (K.held out.old) (K.held out.new) result }
    ensures cause { HasCauses (S.failures source.old) (S.failures source.new) (K.failures out.old)
        (K.failures out.new) result }
{
    let followed = follow_jwt(
        alloc,
        source,
        out,
        &mut NoPublisher,
        &mut NoRecorder::new(),
        arguments.limits,
        arguments.deadline,
        arguments.max_frames,
    );
    end_of(followed)
}

/// How a run ends after a session.
fn end_of(followed: Result<u64, FollowError>) -> Result<(), ExitReason>
    ensures { result ≡ ended_by followed }
{
    match followed {
        Ok(_) => Ok(()),
        Err(error) => {
            let reason = reason_of(&error);
            drop(error);
            Err(reason)
        }
    }
}

/// Writes a generated session, the frames of one operation after another.
fn make<K: Sink>(alloc: Global, arguments: MakeArguments, out: &mut K) -> Result<(), ExitReason>
    ensures text { Puts (λ text. text ≡ made_session arguments) (K.held out.old) (K.held out.new)
        result }
    ensures cause { HasCauses 0 0 (K.failures out.old) (K.failures out.new) result }
{
    let mut frames = Vec::new(alloc);
    let mut session = GeneratedSession::open(alloc, arguments, &mut frames)?;
    put(out, frames.as_slice())?;
    put_rest(&mut session, &mut frames, out)
}

/// Writes the frames that are to come.
fn put_rest<K: Sink>(
    session: &mut GeneratedSession,
    frames: &mut Vec<u8>,
    out: &mut K,
) -> Result<(), ExitReason>
    ensures text { Puts (λ text. text ≡ session.old) (K.held out.old) (K.held out.new) result }
    ensures cause { HasCauses 0 0 (K.failures out.old) (K.failures out.new) result }
{
    while session.next(frames)? {
        put(out, frames.as_slice())?;
    }
    Ok(())
}
