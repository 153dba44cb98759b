//! A status as the payload of a frame.

ghost use Rattle.std.specs.Prelude.{◌≡◌, IfOk};
ghost use Rattle.spf_frame.specs.Status.{text_at, status_at};

use spf_api::{GrpcStatusCode, GrpcStatusError, read_text_field};
use spf_io::{OutOfMemory, Text};
use std::alloc::Global;

/// Returns the text field that the bytes are, where nothing follows it; None where they are not
/// one.
#[tactic(auto, unfolding(crate::specs::Status::text_at))]
pub fn read_text(alloc: Global, bytes: &[u8]) -> Result<Option<Text>, OutOfMemory>
    ensures { IfOk result (λ o. o ≡ text_at bytes.now) }
{
    let Some((text, rest)) = read_text_field(bytes) else {
        return Ok(None);
    };
    if !rest.is_empty() {
        return Ok(None);
    }
    Ok(Some(Text::copy_of(alloc, text)?))
}

/// Returns the status that the bytes are, a code octet and its message, where nothing follows it;
/// None where they are not one.
#[tactic(auto, unfolding(crate::specs::Status::status_at))]
pub fn read_status(alloc: Global, bytes: &[u8]) -> Result<Option<GrpcStatusError>, OutOfMemory>
    ensures { IfOk result (λ o. o ≡ status_at bytes.now) }
{
    let [number, rest @ ..] = bytes else {
        return Ok(None);
    };
    let Some(code) = GrpcStatusCode::from_number(*number) else {
        return Ok(None);
    };
    match read_text(alloc, rest)? {
        Some(message) => Ok(Some(GrpcStatusError::new(code, message))),
        None => Ok(None),
    }
}
