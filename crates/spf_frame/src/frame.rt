//! Reading frames: a kind octet, four octets of length, and the payload.

ghost use Rattle.std.specs.Prelude.{◌≡◌, ◌≤◌, ◌^◌};
ghost use Rattle.std.specs.Int.{w32, to_be_bytes, from_be_bytes};
ghost use Rattle.spf_frame.specs.Parts.{PartRead, PartPut, FailureHasCause};
ghost use Rattle.spf_frame.specs.Frames.{sized, sized_front, FitsFrame, KindRead, FrameRead};
ghost use Rattle.spf_frame.specs.Frames.{with_payload};

use crate::error::FrameError;
use crate::fill::fill;
use crate::kinds::Kinds;
use crate::payload::Payload;
use spf_api::SecretLength;
use spf_io::{Bytes, Source};
use std::alloc::Global;
use std::fmt;

/// The maximum length of a payload.
const MAX_PAYLOAD: u32 = 1 << 24;

/// A frame with its payload unread. Debug output shows only the payload's length.
#[derive(Drop)]
pub struct RawFrame {
    pub kind: u8,
    pub payload: Bytes,
}

impl fmt::Debug for RawFrame {
    fn fmt<W: fmt::Write>(&self, f: &mut fmt::Formatter<W>) -> fmt::Result {
        f.debug_struct("RawFrame")
            .field("kind", &self.kind)
            .field("payload", &SecretLength(self.payload.as_slice().len()))
            .finish()
    }
}

/// The number that four octets spell.
pub(crate) fn number_of(octets: &[u8; 4]) -> u32
    ensures number { result ≡ from_be_bytes w32 octets.now }
    ensures back { to_be_bytes w32 result ≡ octets.now }
{
    u32::from_be_bytes(*octets)
}

/// One octet, or the end.
#[inline(always)]
fn read_kind<S: Source>(source: &mut S) -> Result<Option<u8>, FrameError>
    ensures bytes { KindRead (S.left source.old) (S.left source.new) result }
    ensures cause { FailureHasCause (S.failures source.old) (S.failures source.new) result }
{
    let mut octet = [0; 1];
    match fill(source, &mut octet) {
        Ok(0) => Ok(None),
        Ok(_) => Ok(Some(octet[0])),
        Err(_) => Err(FrameError::ReadFault),
    }
}

/// The four octets of a length.
#[inline(always)]
fn read_length<S: Source>(source: &mut S) -> Result<u32, FrameError>
    ensures bytes { PartRead (to_be_bytes w32) (λ n. n ≤ 2 ^ 24) sized_front (S.left source.old)
        (S.left source.new) result }
    ensures cause { FailureHasCause (S.failures source.old) (S.failures source.new) result }
{
    let mut octets = [0; 4];
    match fill(source, &mut octets) {
        Ok(n) => {
            if n < 4 {
                return Err(FrameError::BadFrame);
            }
        }
        Err(_) => return Err(FrameError::ReadFault),
    }
    let length = number_of(&octets);
    if length > MAX_PAYLOAD {
        return Err(FrameError::BadFrame);
    }
    Ok(length)
}

/// Four octets of length, and the payload, in place of what the buffer held.
#[inline(always)]
fn read_sized<S: Source>(source: &mut S, payload: &mut Payload) -> Result<(), FrameError>
    ensures bytes { PartPut sized FitsFrame sized_front (S.left source.old) (S.left source.new)
        result payload.new }
    ensures cause { FailureHasCause (S.failures source.old) (S.failures source.new) result }
{
    let length = read_length(source)?;
    payload.read(source, length)?;
    Ok(())
}

/// Returns the kind of the next frame, whose payload is then in the buffer. None at the end of
/// input. A byte where no frame is allowed, and a kind that is not allowed, end the reading there.
#[inline(always)]
pub fn next_frame<S: Source, K: Kinds>(
    source: &mut S,
    payload: &mut Payload,
    kinds: &K,
    allowed: bool,
) -> Result<Option<u8>, FrameError>
    ensures bytes { FrameRead (K.allows kinds.now) allowed (S.left source.old) (S.left source.new)
        (with_payload result payload.new) }
    ensures cause { FailureHasCause (S.failures source.old) (S.failures source.new) result }
{
    let Some(kind) = read_kind(source)? else {
        return Ok(None);
    };
    if !allowed {
        return Err(FrameError::TooLong);
    }
    if !kinds.allow(kind) {
        return Err(FrameError::BadFrame);
    }
    read_sized(source, payload)?;
    Ok(Some(kind))
}

/// Returns the next frame, of an allowed kind. None at the end of input.
pub fn read_frame<S: Source, K: Kinds>(
    alloc: Global,
    source: &mut S,
    kinds: &K,
    allowed: bool,
) -> Result<Option<RawFrame>, FrameError>
    ensures bytes { FrameRead (K.allows kinds.now) allowed (S.left source.old) (S.left source.new)
        result }
    ensures cause { FailureHasCause (S.failures source.old) (S.failures source.new) result }
{
    let mut payload = Payload::new(alloc);
    match next_frame(source, &mut payload, kinds, allowed) {
        Ok(Some(kind)) => Ok(Some(RawFrame {
            kind,
            payload: Bytes::new(payload.into_octets()),
        })),
        Ok(None) => Ok(None),
        Err(e) => Err(e),
    }
}
