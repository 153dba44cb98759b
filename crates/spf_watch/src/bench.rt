//! The summary of a generated session: it is followed in memory, and its lines are counted.

ghost use Rattle.std.specs.Prelude.{◌≡◌, IfOk, string_bytes};
ghost use Rattle.spf_watch.specs.Causes.{HasCauses};
ghost use Rattle.spf_watch.specs.Headline.{IsSummary, Puts};
ghost use Rattle.spf_watch.specs.Summary.{summary_line};

use crate::arguments::{DEFAULT_MAX_FRAMES, MakeArguments};
use crate::exit_reason::ExitReason;
use crate::generated_source::GeneratedSource;
use crate::no_publisher::NoPublisher;
use crate::output::put;
use crate::tally::Tally;
use spf_feed::{NoPicker, NoRecorder, Ready, ResourceLimits, follow_x509};
use spf_io::{OutOfMemory, Sink};
use std::alloc::Global;

/// Writes the summary of the session that `make` writes, followed with the default settings.
pub(crate) fn bench<K: Sink>(
    alloc: Global,
    arguments: MakeArguments,
    out: &mut K,
) -> Result<(), ExitReason>
    ensures text { Puts (IsSummary arguments) (K.held out.old) (K.held out.new) result }
    ensures cause { HasCauses 0 0 (K.failures out.old) (K.failures out.new) result }
{
    let line = summary_of(alloc, arguments)?;
    let written = put(out, line.as_bytes());
    drop(line);
    written
}

/// The summary of a generated session.
fn summary_of(alloc: Global, arguments: MakeArguments) -> Result<String, OutOfMemory>
    ensures { IfOk result (λ s. IsSummary arguments (string_bytes s)) }
{
    let mut source = GeneratedSource::new(alloc, arguments)?;
    let mut tally = Tally::new(alloc);
    let followed = follow_x509(
        alloc,
        &mut source,
        &mut tally,
        &mut NoPublisher,
        &mut NoRecorder::new(),
        ResourceLimits::default_limits(),
        None,
        DEFAULT_MAX_FRAMES,
        None::<&NoPicker>,
        Ready::Usable,
    );
    let (revision, withdrawn) = (tally.revision(), tally.withdrawn());
    drop(tally);
    drop(source);
    match followed {
        Ok(events) => line_of(alloc, events, revision, withdrawn),
        Err(error) => {
            drop(error);
            Err(OutOfMemory)
        }
    }
}

#[tactic(auto, unfolding(crate::specs::Summary::summary_line))]
fn line_of(alloc: Global, events: u64, revision: u64, withdrawn: u64) -> Result<String, OutOfMemory>
    ensures { IfOk result (λ s. string_bytes s ≡ summary_line events revision withdrawn) }
{
    let line = format!(in alloc; "events {events} revision {revision} withdrawn {withdrawn}\n")?;
    Ok(line)
}
