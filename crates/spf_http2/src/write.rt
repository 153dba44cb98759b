//! Writing frames.

ghost use Rattle.std.specs.Prelude.{◌≡◌, ◌≤◌, ◌<◌, ◌^◌, ◌++◌, length, OnOk, OnErr};
ghost use Rattle.spf_http2.specs.Frames.{frame_text};

use crate::header::{FrameHeader, header_octets};
use spf_io::OutOfMemory;

/// Appends a frame. Out of memory leaves the octets as they were.
pub fn put_frame(
    out: &mut Vec<u8>,
    kind: u8,
    flags: u8,
    stream: u32,
    payload: &[u8],
) -> Result<(), OutOfMemory>
    requires { length payload.now ≤ 2 ^ 14 }
    ensures ok { OnOk result (out.new.items ≡ out.old.items ++ frame_text (record {
      header = record {
        length = length payload.now;
        kind = kind;
        flags = flags;
        word = stream;
      };
      payload = payload.now;
    })) }
    ensures err { OnErr result (out.new.items ≡ out.old.items) }
{
    let header = FrameHeader {
        length: payload.len() as u32,
        kind,
        flags,
        word: stream,
    };
    let octets = header_octets(&header);
    out.reserve(octets.len() + payload.len())?;
    let Ok(()) = out.extend_from_slice(octets.as_slice()) else {
        unreachable!()
    };
    let Ok(()) = out.extend_from_slice(payload) else {
        unreachable!()
    };
    Ok(())
}
