//! The header that every request of the Workload API carries (SPIFFE Workload API section 4.1).

ghost use Rattle.std.specs.Prelude.{◌≡◌};
ghost use Rattle.spf_link.specs.Metadata.{IsAdded};

use crate::headers::Headers;
use crate::interceptor::{Interceptor, InterceptorFault};
use spf_api::WorkloadApiError;

/// The name of the header.
const WORKLOAD_HEADER: &str = "workload.spiffe.io";

/// Sets the header after another interceptor.
#[derive(Debug, Drop)]
pub struct MetadataAdder<I> {
    extra: I,
}

impl<I: Interceptor> MetadataAdder<I> {
    pub fn new(extra: I) -> MetadataAdder<I>
        ensures { result.extra ≡ extra }
    {
        MetadataAdder { extra }
    }

    /// Calls the interceptor, and then sets the header to `true`. After a refusal the headers are
    /// as the interceptor left them, and as they were where memory ran out.
    pub fn call(&self, headers: &mut Headers) -> Result<(), WorkloadApiError>
        requires { I.can_intercept self.now.extra }
        ensures { IsAdded headers.old (I.intercepts self.now.extra headers.old) headers.new result }
    {
        let mut changed = headers.try_copy()?;
        match self.extra.call(&mut changed) {
            Ok(()) => {}
            Err(InterceptorFault::Status(status)) => {
                *headers = changed;
                return Err(WorkloadApiError::from_status(status));
            }
            Err(InterceptorFault::OutOfMemory) => return Err(WorkloadApiError::OutOfMemory),
        }
        changed.set(WORKLOAD_HEADER, "true")?;
        *headers = changed;
        Ok(())
    }
}
