//! Connectors, which make links.

ghost use Rattle.std.specs.Prelude.{◌≡◌, ℕ, List, Option, Result};
ghost use Rattle.spf_io.specs.Rule.{Gives};
ghost use Rattle.spf_link.specs.Endpoint.{is_memory};
ghost use Rattle.spf_api.specs.declared.link.ClientFault.{ClientFault as Fault};
ghost use Rattle.spf_api.specs.declared.endpoint_error.EndpointError.{EndpointError as Invalid};
ghost use Rattle.spf_link.specs.Connecting.{Connects, HasClientCause, Member};

use crate::link::Link;
use spf_api::{ClientFault, EndpointError};
use spf_system::StopFlag;

/// Makes a link for each client. It counts how often it refused.
pub trait Connector {
    type Link: Link;

    // How often the connector has refused to connect, out of memory aside.
    ghost refusals: { Self → ℕ };
    // What `validate` returns, out of memory aside.
    ghost validates: { Self → Result (Unit {0}) Invalid };
    // What each `connect` to come gives, where it is known: the answers of its link, or a fault.
    ghost members: { Self → Option (List Member) };
    // What a `connect` may return, and what connector it may leave.
    ghost connect_gives: { Self → Result Self.Link Fault → Self → Type 0 } = { λ _ _ _. Unit {0} };

    /// Checks that the endpoint is valid. It connects to nothing.
    fn validate(&mut self) -> Result<(), EndpointError>
        ensures result { Gives is_memory (λ u. u) result (validates self.old) }
        ensures validates { validates self.new ≡ validates self.old }
        ensures refusals { refusals self.new ≡ refusals self.old }
        ensures members { members self.new ≡ members self.old };

    /// Connects, and returns the link.
    fn connect(&mut self) -> Result<Self::Link, ClientFault>
        ensures gives { connect_gives self.old result self.new }
        ensures cause { HasClientCause (refusals self.old) (refusals self.new) result }
        ensures validates { validates self.new ≡ validates self.old }
        ensures members { Connects Self.Link.answers (members self.old) (members self.new) result };

    /// From here on a wait of the connector, and of the links that it makes, ends soon once the
    /// flag is set, where it can.
    fn heed(&mut self, stop: StopFlag)
        ensures validates { validates self.new ≡ validates self.old }
        ensures refusals { refusals self.new ≡ refusals self.old }
        ensures members { members self.new ≡ members self.old }
    {}
}
