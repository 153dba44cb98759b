//! The endpoint that the environment names.

ghost use Rattle.spf_link.specs.Environment.{ReadsEndpoint};

use crate::endpoint::{Endpoint, WORKLOAD_API_ENDPOINT_ENV};
use spf_api::WorkloadApiError;
use spf_system::{EnvValue, Environment};
use std::alloc::Global;

/// Returns the endpoint that `SPIFFE_ENDPOINT_SOCKET` names.
pub fn from_env<E: Environment>(
    alloc: Global,
    environment: &E,
) -> Result<Endpoint, WorkloadApiError>
    ensures { ReadsEndpoint (E.value environment.now WORKLOAD_API_ENDPOINT_ENV.now) result }
{
    match environment.var(alloc, WORKLOAD_API_ENDPOINT_ENV)? {
        EnvValue::Missing => Err(WorkloadApiError::MissingEndpointSocket),
        EnvValue::NotUnicode => Err(WorkloadApiError::NotUnicodeEndpointSocket),
        EnvValue::Found(text) => Ok(Endpoint::parse(alloc, text.as_str())?),
    }
}
