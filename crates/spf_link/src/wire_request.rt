//! The text of a request.

ghost use Rattle.std.specs.Prelude.{◌≡◌, ◌++◌, ◌<◌, ◌≤◌, ◌^◌, length, IfOk, OnOk};
ghost use Rattle.std.specs.Int.{w32, to_be_bytes};
ghost use Rattle.std.specs.Option.{option_map};
ghost use Rattle.spf_api.specs.Layout.{field_text, list_text};
ghost use Rattle.spf_view.specs.Frames.{raw_text};
ghost use Rattle.spf_link.specs.Requests.{asked_text, framed, header_text};
ghost use Rattle.spf_link.specs.Requests as spec;

use crate::request::Request;
use spf_io::{OutOfMemory, Text};
use std::alloc::Global;

/// The kinds of frames that are requests.
pub const X509_SVID: u8 = 0x11;

pub const X509_BUNDLES: u8 = 0x12;

pub const JWT_SVID: u8 = 0x13;

pub const JWT_BUNDLES: u8 = 0x14;

pub const VALIDATE_JWT: u8 = 0x15;

/// The maximum length of a payload.
const MAX_PAYLOAD: usize = 1 << 24;

/// Appends a length or a count. One that four octets cannot hold counts as out of memory.
fn put_number(out: &mut Vec<u8>, number: usize) -> Result<(), OutOfMemory>
    ensures { OnOk result (out.new.items ≡ out.old.items ++ to_be_bytes w32 number) }
{
    let Ok(number) = u32::try_from(number) else {
        return Err(OutOfMemory);
    };
    out.extend_from_slice(&number.to_be_bytes())?;
    Ok(())
}

#[tactic(auto, unfolding(crate::specs::Requests::field_text))]
fn put_text(out: &mut Vec<u8>, text: &Text) -> Result<(), OutOfMemory>
    ensures { OnOk result (out.new.items ≡ out.old.items ++ field_text text.now) }
{
    let octets = text.as_str().as_bytes();
    put_number(out, octets.len())?;
    out.extend_from_slice(octets)?;
    Ok(())
}

#[tactic(auto, unfolding(crate::specs::Requests::header_text))]
fn put_header(out: &mut Vec<u8>, header: &(Text, Text)) -> Result<(), OutOfMemory>
    ensures { OnOk result (out.new.items ≡ out.old.items ++ header_text header.now) }
{
    put_text(out, &header.0)?;
    put_text(out, &header.1)?;
    Ok(())
}

fn put_headers(out: &mut Vec<u8>, headers: &[(Text, Text)]) -> Result<(), OutOfMemory>
    ensures { OnOk result (out.new.items ≡ out.old.items ++ list_text header_text headers.now) }
{
    put_number(out, headers.len())?;
    'headers: for header in headers {
        put_header(out, header)?;
    }
    Ok(())
}

fn put_texts(out: &mut Vec<u8>, texts: &[Text]) -> Result<(), OutOfMemory>
    ensures { OnOk result (out.new.items ≡ out.old.items ++ list_text field_text texts.now) }
{
    put_number(out, texts.len())?;
    'texts: for text in texts {
        put_text(out, text)?;
    }
    Ok(())
}

/// The kind octet of a request.
fn request_kind(request: &Request) -> u8
    ensures { result ≡ spec.request_kind request.now }
{
    match request {
        Request::X509Svid => X509_SVID,
        Request::X509Bundles => X509_BUNDLES,
        Request::JwtBundles => JWT_BUNDLES,
        Request::JwtSvid { .. } => JWT_SVID,
        Request::ValidateJwt { .. } => VALIDATE_JWT,
    }
}

/// Appends what stands after the headers.
fn put_asked(out: &mut Vec<u8>, request: &Request) -> Result<(), OutOfMemory>
    ensures { OnOk result (out.new.items ≡ out.old.items ++ asked_text request.now) }
{
    match request {
        Request::JwtSvid {
            spiffe_id,
            audience,
        } => {
            put_text(out, spiffe_id)?;
            put_texts(out, audience.as_slice())
        }
        Request::ValidateJwt { audience, svid } => {
            put_text(out, audience)?;
            put_text(out, svid)
        }
        _ => Ok(()),
    }
}

fn request_payload(
    alloc: Global,
    headers: &[(Text, Text)],
    request: &Request,
) -> Result<Vec<u8>, OutOfMemory>
    ensures { IfOk result (λ v. v.items ≡ spec.request_payload headers.now request.now) }
{
    let mut payload = Vec::new(alloc);
    put_headers(&mut payload, headers)?;
    put_asked(&mut payload, request)?;
    Ok(payload)
}

/// A frame of this kind and payload.
#[tactic(auto, unfolding(crate::specs::Requests::sized))]
fn frame_of(alloc: Global, kind: u8, payload: &[u8]) -> Result<Vec<u8>, OutOfMemory>
    ensures { IfOk result (λ v. v.items ≡ raw_text kind payload.now) }
{
    let mut frame = Vec::new(alloc);
    frame.push(kind)?;
    put_number(&mut frame, payload.len())?;
    frame.extend_from_slice(payload)?;
    Ok(frame)
}

/// The frame of a request. None where its payload is longer than 2^24.
pub(crate) fn request_frame(
    alloc: Global,
    headers: &[(Text, Text)],
    request: &Request,
) -> Result<Option<Vec<u8>>, OutOfMemory>
    ensures { IfOk result (λ o. option_map (λ v. v.items) o ≡ framed headers.now request.now) }
{
    let payload = request_payload(alloc, headers, request)?;
    if payload.len() > MAX_PAYLOAD {
        return Ok(None);
    }
    Ok(Some(frame_of(alloc, request_kind(request), payload.as_slice())?))
}
