//! How refusals read as errors of the Workload API.

ghost use Rattle.std.specs.Prelude.{◌≡◌};
ghost use Rattle.spf_client.specs.Reading.{client_fault_reading, fault_reading, first_response_of};

use spf_api::{ClientFault, LinkFault, Response, TransportError, WorkloadApiError};

/// The error that a refusal of a link stands for.
pub(crate) fn fault_error(fault: LinkFault) -> WorkloadApiError
    ensures { result ≡ fault_reading fault }
{
    match fault {
        LinkFault::Status(status) => WorkloadApiError::from_status(status),
        LinkFault::Connect(e) => WorkloadApiError::Transport(TransportError::Connect(e)),
        LinkFault::OutOfMemory => WorkloadApiError::OutOfMemory,
    }
}

/// The error that a refusal of a connector stands for.
pub(crate) fn client_fault_error(fault: ClientFault) -> WorkloadApiError
    ensures { result ≡ client_fault_reading fault }
{
    match fault {
        ClientFault::Status(status) => WorkloadApiError::from_status(status),
        ClientFault::Unreachable(text) => WorkloadApiError::Transport(TransportError::connect(
            text,
        )),
        ClientFault::OutOfMemory => WorkloadApiError::OutOfMemory,
    }
}

/// The first response, from the first answer of a link.
pub(crate) fn first_response(
    answer: Result<Option<Response>, LinkFault>,
) -> Result<Response, WorkloadApiError>
    ensures { result ≡ first_response_of answer }
{
    match answer {
        Ok(Some(response)) => Ok(response),
        Ok(None) => Err(WorkloadApiError::EmptyResponse),
        Err(fault) => Err(fault_error(fault)),
    }
}
