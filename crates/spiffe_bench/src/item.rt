//! The updates that are read. Each has one SVID and one authority of `example.org`, which no other
//! has.

use spf_api::{ContextView, context_from_view, read_context_view};
use spf_io::OutOfMemory;
use spf_x509::X509Context;
use std::alloc::Global;
use std::sync::Arc;

/// The payload of an update with the SVID of `/w`, in hexadecimal.
const FIRST: &str = "\
    00000001000000167370696666653a2f2f6578616d706c652e6f72672f770000008d30818a307ea0\
    03020102020101300506032b65703000301e170d3730303130313030303030305a170d3730303130\
    313030313634305a3000300a300506032b6570030100a33d303b300b0603551d0f04040302078030\
    090603551d130402300030210603551d11041a301886167370696666653a2f2f6578616d706c652e\
    6f72672f77300506032b65700301000000000f300d020100300506032b6570040101000000483046\
    303a020101300506032b65703000301e170d3730303130313030303030305a170d37303031303130\
    30313634305a3000300a300506032b6570030100300506032b657003010000000000000000000000\
    0000";

/// That of one with the SVID of `/v`.
const SECOND: &str = "\
    00000001000000167370696666653a2f2f6578616d706c652e6f72672f760000008d30818a307ea0\
    03020102020101300506032b65703000301e170d3730303130313030303030305a170d3730303130\
    313030313634305a3000300a300506032b6570030100a33d303b300b0603551d0f04040302078030\
    090603551d130402300030210603551d11041a301886167370696666653a2f2f6578616d706c652e\
    6f72672f76300506032b65700301000000000f300d020100300506032b6570040101000000483046\
    303a020102300506032b65703000301e170d3730303130313030303030305a170d37303031303130\
    30313634305a3000300a300506032b6570030100300506032b657003010000000000000000000000\
    0000";

/// The context of a view, which is known to have one.
fn context_in(alloc: Global, view: &ContextView<'_>) -> Result<Arc<X509Context>, OutOfMemory> {
    match context_from_view(alloc, view) {
        Ok(context) => Ok(Arc::new(alloc, context)?),
        Err(error) => {
            drop(error);
            Err(OutOfMemory)
        }
    }
}

fn context_of(alloc: Global, payload: &str) -> Result<Arc<X509Context>, OutOfMemory> {
    let payload = hex::decode(alloc, payload).map_err(|_| OutOfMemory)?;
    match read_context_view(alloc, payload.as_slice())? {
        Some(view) => context_in(alloc, &view),
        None => Err(OutOfMemory),
    }
}

/// The context of the first update.
pub(crate) fn first_context(alloc: Global) -> Result<Arc<X509Context>, OutOfMemory> {
    context_of(alloc, FIRST)
}

/// The context of the second.
pub(crate) fn second_context(alloc: Global) -> Result<Arc<X509Context>, OutOfMemory> {
    context_of(alloc, SECOND)
}
