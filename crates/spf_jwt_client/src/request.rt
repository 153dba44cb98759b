//! Requests for JWT-SVIDs.

ghost use Rattle.std.specs.Prelude.{◌≡◌, IfOk};
ghost use Rattle.std.specs.Option.{option_map};
ghost use Rattle.spf_jwt_client.specs.Requests.{jwt_request, validation_request};
ghost use Rattle.spf_jwt_client.specs.Requests as spec;

use spf_id::SpiffeId;
use spf_io::{List, OutOfMemory, Text};
use spf_link::Request;
use std::alloc::Global;

fn copies_of(alloc: Global, texts: &[Text]) -> Result<List<Text>, OutOfMemory>
    ensures { IfOk result (λ l. l ≡ texts.now) }
{
    let mut copies = Vec::with_capacity(alloc, texts.len())?;
    for text in texts {
        copies.push(text.try_clone(alloc)?)?;
    }
    Ok(List::new(copies))
}

/// The text of the ID, which is empty where none is given.
fn id_text(id: Option<&SpiffeId>) -> &str
    ensures { result.now ≡ spec.id_text (option_map (λ i. i.now) id.entry) }
{
    match id {
        Some(id) => id.as_str(),
        None => "",
    }
}

/// The request for JWT-SVIDs of an identity for an audience.
pub(crate) fn for_svids(
    alloc: Global,
    audience: &[Text],
    id: Option<&SpiffeId>,
) -> Result<Request, OutOfMemory>
    ensures { IfOk result
        (λ r. r ≡ jwt_request audience.now (option_map (λ i. i.now) id.entry)) }
{
    let spiffe_id = Text::copy_of(alloc, id_text(id))?;
    let audience = copies_of(alloc, audience)?;
    Ok(Request::JwtSvid {
        spiffe_id,
        audience,
    })
}

/// The request to validate a token for an audience.
pub(crate) fn for_validation(
    alloc: Global,
    audience: &str,
    token: &str,
) -> Result<Request, OutOfMemory>
    ensures { IfOk result (λ r. r ≡ validation_request audience.now token.now) }
{
    let audience = Text::copy_of(alloc, audience)?;
    let svid = Text::copy_of(alloc, token)?;
    Ok(Request::ValidateJwt { audience, svid })
}
