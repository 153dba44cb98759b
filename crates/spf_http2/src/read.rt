//! Reading frames, one after another.

ghost use Rattle.std.specs.Prelude.{◌≡◌, ◌≤◌, ◌<◌, length, IsTrue, IsErrOf, IfOk, OnErr};
ghost use Rattle.std.specs.Prelude.{MatchBool};
ghost use Rattle.std.specs.Io.KnownBytes.{Keeps, IsAtEnd};
ghost use Rattle.spf_io.specs.Outside.{HasCause, Rose};
ghost use Rattle.spf_http2.specs.Frames.{is_told};
ghost use Rattle.spf_http2.specs.Reading.{to_come, FrameRead, HasGrown};

use crate::buffer::{FRAME_ROOM, FrameBuffer};
use crate::error::ReadError;
use crate::header::{FrameHeader, HEADER_LENGTH, MAX_PAYLOAD, read_header};
use spf_io::{Failed, Source};

/// Reads until `count` octets are pending. Returns false where the input ends before.
fn gather<S: Source>(source: &mut S, buffer: &mut FrameBuffer, count: usize) -> Result<bool, Failed>
    requires { count ≤ FRAME_ROOM }
    ensures kept { Keeps (to_come buffer.old (S.left source.old))
        (to_come buffer.new (S.left source.new)) }
    ensures grown { HasGrown buffer.old.pending buffer.new.pending }
    ensures enough { IfOk result (λ b. MatchBool b (count ≤ length buffer.new.pending)
        ((length buffer.new.pending < count) × IsAtEnd (S.left source.new))) }
    ensures fault { OnErr result (length buffer.new.pending < count) }
    ensures quiet { count ≤ length buffer.old.pending
        → (source.new ≡ source.old) × (buffer.new.pending ≡ buffer.old.pending) }
    ensures cause { HasCause (S.failures source.old) (S.failures source.new) result }
{
    buffer.make_room(count);
    while buffer.pending().len() < count {
        if buffer.read_more(source)? == 0 {
            return Ok(false);
        }
    }
    Ok(true)
}

/// Reads a frame: returns its header, and its payload is then in the buffer. None at the end of
/// input. The source is read only where the octets that are pending do not say what comes next, and
/// what came is not lost by an error.
pub fn read_frame<S: Source>(
    source: &mut S,
    buffer: &mut FrameBuffer,
) -> Result<Option<FrameHeader>, ReadError>
    ensures read { FrameRead (to_come buffer.old (S.left source.old)) buffer.new
        (S.left source.new) result }
    ensures quiet { IsTrue (is_told buffer.old.pending) → source.new ≡ source.old }
    ensures later { S.failures source.old ≤ S.failures source.new }
    ensures cause { IsErrOf result ReadError.ReadFault
        → Rose (S.failures source.old) (S.failures source.new) }
{
    match gather(source, buffer, HEADER_LENGTH) {
        Ok(true) => {}
        Ok(false) => {
            return if buffer.pending().is_empty() {
                Ok(None)
            } else {
                Err(ReadError::CutOff)
            };
        }
        Err(_) => return Err(ReadError::ReadFault),
    }
    let Some(header) = read_header(buffer.pending()) else {
        unreachable!()
    };
    if header.length > MAX_PAYLOAD {
        return Err(ReadError::TooLong);
    }
    let length = header.length as usize;
    match gather(source, buffer, HEADER_LENGTH + length) {
        Ok(true) => {}
        Ok(false) => return Err(ReadError::CutOff),
        Err(_) => return Err(ReadError::ReadFault),
    }
    buffer.take_frame(length);
    Ok(Some(header))
}
