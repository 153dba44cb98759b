//! The octets of requests. Those for X.509 SVIDs, X.509 bundles and JWT bundles have none.

ghost use Rattle.std.specs.Prelude.{◌≡◌, ◌<◌, ◌^◌, ◌++◌, OnOk};
ghost use Rattle.std.specs.List.{flat_map};
ghost use Rattle.spf_messages.specs.Wire.{field_text};
ghost use Rattle.spf_messages.specs.Requests.{jwt_svid_request, unless_empty, validation_request};

use crate::wire::put_field;
use spf_io::{OutOfMemory, Text};

/// Appends a field of that number for each of the texts.
fn put_texts(out: &mut Vec<u8>, number: u32, texts: &[Text]) -> Result<(), OutOfMemory>
    requires { number < 2 ^ 29 }
    ensures { OnOk result
        (out.new.items ≡ out.old.items ++ flat_map (field_text number) texts.now) }
{
    for text in texts {
        put_field(out, number, text.as_str().as_bytes())?;
    }
    Ok(())
}

/// Appends a field of that number, unless the text is empty.
fn put_text(out: &mut Vec<u8>, number: u32, text: &Text) -> Result<(), OutOfMemory>
    requires { number < 2 ^ 29 }
    ensures { OnOk result (out.new.items ≡ out.old.items ++ unless_empty number text.now) }
{
    let octets = text.as_str().as_bytes();
    if octets.is_empty() {
        return Ok(());
    }
    put_field(out, number, octets)
}

/// Appends a JWTSVIDRequest. The empty ID asks for the SVIDs of every identity of the workload.
#[tactic(auto, unfolding(crate::specs::Requests::jwt_svid_request))]
pub fn put_jwt_svid_request(
    out: &mut Vec<u8>,
    audience: &[Text],
    spiffe_id: &Text,
) -> Result<(), OutOfMemory>
    ensures { OnOk result
        (out.new.items ≡ out.old.items ++ jwt_svid_request audience.now spiffe_id.now) }
{
    put_texts(out, 1, audience)?;
    put_text(out, 2, spiffe_id)?;
    Ok(())
}

/// Appends a ValidateJWTSVIDRequest.
#[tactic(auto, unfolding(crate::specs::Requests::validation_request))]
pub fn put_validation_request(
    out: &mut Vec<u8>,
    audience: &Text,
    svid: &Text,
) -> Result<(), OutOfMemory>
    ensures { OnOk result
        (out.new.items ≡ out.old.items ++ validation_request audience.now svid.now) }
{
    put_text(out, 1, audience)?;
    put_text(out, 2, svid)?;
    Ok(())
}
