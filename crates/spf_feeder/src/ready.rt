//! What comes before an initial synchronisation.

ghost use Rattle.std.specs.Prelude.{◌≡◌};
ghost use Rattle.spf_link.specs.Endpoint.{is_memory};
ghost use Rattle.spf_io.specs.Rule.{Gives};

use spf_api::EndpointError;
use spf_link::Connector;
use spf_system::{Pause, StopFlag};

/// Validates a connector, and lets it and the pause heed the stop flag.
pub fn make_ready<C: Connector, W: Pause>(
    connector: &mut C,
    pause: &mut W,
    stop: &StopFlag,
) -> Result<(), EndpointError>
    ensures members { C.members connector.new ≡ C.members connector.old }
    ensures result { Gives is_memory (λ u. u) result (C.validates connector.old) }
{
    connector.validate()?;
    connector.heed(stop.try_clone()?);
    pause.heed(stop.try_clone()?);
    Ok(())
}
