//! The builder of a live run.

ghost use Rattle.std.specs.Prelude.{◌≡◌, IfOk};
ghost use Rattle.std.specs.Option.{option_map, option_copied};
ghost use Rattle.spf_feed.specs.Pick.{first_with_hint};
ghost use Rattle.spf_live.specs.Runs.{IsSetTo};

use spf_feed::{HintPicker, NoRecorder, SvidPicker};
use spf_io::{OutOfMemory, Text};
use spf_link::Connector;
use spf_program::LiveOptions;
use spiffe::X509SourceBuilder;
use std::alloc::Global;
use std::mem::drop;
use std::time::Duration;

/// The picker of a hint, where there is one.
fn picker_of(alloc: Global, hint: Option<&str>) -> Result<Option<HintPicker>, OutOfMemory>
    ensures { IfOk result (λ p. option_map (⟦<HintPicker as SvidPicker>⟧.picks) p
        ≡ option_map first_with_hint (option_copied hint.entry)) }
{
    match hint {
        Some(hint) => Ok(Some(HintPicker::new(Text::copy_of(alloc, hint)?))),
        None => Ok(None),
    }
}

/// A builder over the connector that is set to what the arguments say.
pub(crate) fn builder_of<C>(
    alloc: Global,
    connector: C,
    options: &LiveOptions<'_>,
) -> Result<X509SourceBuilder<HintPicker, C, NoRecorder>, OutOfMemory>
where
    C: Connector + Drop,
    C::Link: Drop,
    ensures connector { IfOk result (λ b. b.connector ≡ connector) }
    ensures settings { IfOk result (λ b.
        IsSetTo (⟦<HintPicker as SvidPicker>⟧.picks) options.now b.settings) }
{
    let picker = match picker_of(alloc, options.hint) {
        Ok(picker) => picker,
        Err(OutOfMemory) => {
            drop(connector);
            return Err(OutOfMemory);
        }
    };
    let builder = X509SourceBuilder::new(connector)
        .optional_picker(picker)
        .resource_limits(options.limits)
        .ready(options.ready);
    match options.timeout {
        Some(seconds) => Ok(builder.initial_sync_timeout(Duration::from_secs(seconds))),
        None => Ok(builder),
    }
}
