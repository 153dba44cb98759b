//! The program over an input and outputs of any kind.

ghost use Rattle.std.specs.Prelude.{◌≡◌, ◌↔◌, None, IsTrue, int_le, pos, map, string_bytes};
ghost use Rattle.spf_io.specs.Outside.{Rose};
ghost use Rattle.spf_proto.specs.Arguments.{start_in};
ghost use Rattle.spf_program.specs.Streams.{Streams, side};
ghost use Rattle.spf_proto.specs.Watching.{Completes, Follows, Headline, PrintsBeginning, Runs};

use crate::arguments::start_of;
use crate::following::follow_proto;
use crate::no_publisher::NoPublisher;
use crate::proto_error::ProtoError;
use crate::report::report;
use spf_feed::{NoPicker, NoRecorder, Ready, ResourceLimits};
use spf_io::{Sink, Source};
use std::alloc::Global;

/// The maximum number of messages.
const MAX_MESSAGES: u32 = 1_000_000;

/// Follows the body of `source` from a moment on, and writes a line
/// for each event. Nothing keeps its steps and its records.
fn follow<S: Source, K: Sink>(
    alloc: Global,
    source: &mut S,
    out: &mut K,
    start: i64,
) -> Result<u64, ProtoError>
    requires start { IsTrue (int_le (pos 0) start) }
    ensures follows { Follows start (side (S.left source.old) (S.failures source.old))
        (side (S.left source.new) (S.failures source.new))
        (side (K.held out.old) (K.failures out.old)) (side (K.held out.new) (K.failures out.new))
        result }
{
    follow_proto(
        alloc,
        source,
        out,
        &mut NoPublisher,
        &mut NoRecorder::new(),
        ResourceLimits::default_limits(),
        None,
        MAX_MESSAGES,
        None::<&NoPicker>,
        Ready::Usable,
        start,
    )
}

/// Follows the body of `source` from the moment that the one argument says, in Unix seconds, and
/// writes its lines to `out`. It returns the exit status: 0 where all went well, and otherwise a
/// line on `errors` says why.
pub fn proto_watch<S: Source, K: Sink, E: Sink>(
    alloc: Global,
    arguments: &[String],
    source: &mut S,
    out: &mut K,
    errors: &mut E,
) -> u8
    // Status 1 comes exactly where the arguments are not those of the program.
    ensures arguments { (result ≡ 1) ↔ (start_in (map string_bytes arguments.now) ≡ None) }
    ensures untouched { start_in (map string_bytes arguments.now) ≡ None
        → (source.new ≡ source.old) × (out.new ≡ out.old) }
    // The body is followed, and the status and the line on `errors` say how it ended.
    ensures runs { let before : Streams =
        record {
          input = side (S.left source.old) (S.failures source.old);
          output = side (K.held out.old) (K.failures out.old);
          errors = side (E.held errors.old) (E.failures errors.old);
        } in
        let after : Streams = record {
          input = side (S.left source.new) (S.failures source.new);
          output = side (K.held out.new) (K.failures out.new);
          errors = side (E.held errors.new) (E.failures errors.new);
        } in
        Runs (start_in (map string_bytes arguments.now)) before after result }
    // Status 0: the input was a whole body, and the output is the lines of its session.
    ensures headline { result ≡ 0 → Headline (start_in (map string_bytes arguments.now))
        (S.left source.old) (K.held out.old) (K.held out.new) }
    // Whatever the status, the output is a beginning of the lines of the session of the input.
    ensures beginning { PrintsBeginning (start_in (map string_bytes arguments.now))
        (S.left source.old) (K.held out.old) (K.held out.new) }
    // A whole body with an accepted message, within the bound
    // and without a failure, ends with 0, or out of memory.
    ensures complete { Completes (start_in (map string_bytes arguments.now))
        (side (S.left source.old) (S.failures source.old))
        (side (S.left source.new) (S.failures source.new))
        (side (K.held out.old) (K.failures out.old)) (side (K.held out.new) (K.failures out.new))
        result }
    ensures read_fault { result ≡ 3 → Rose (S.failures source.old) (S.failures source.new) }
    ensures write_fault { result ≡ 4 → Rose (K.failures out.old) (K.failures out.new) }
{
    match start_of(arguments) {
        None => {
            let _ = errors.put(b"spf_proto: bad words\n");
            1
        }
        Some(start) => {
            let end = follow(alloc, source, out, start);
            report(errors, &end)
        }
    }
}
