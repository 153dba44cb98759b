//! The buffer that frames are read into.

ghost use Rattle.std.specs.Prelude.{◌≡◌, ◌+◌, ◌<◌, ◌≤◌, [], length, take, drop, IfOk};
ghost use Rattle.std.specs.Io.KnownBytes.{Keeps, IsAtEnd};
ghost use Rattle.spf_io.specs.Outside.{HasCause};
ghost use Rattle.spf_http2.specs.Reading.{to_come, ReadCame};

use spf_io::{Failed, OutOfMemory, Source};
use std::alloc::Global;
use std::marker::Model;

/// The length of the longest frame.
pub(crate) const FRAME_ROOM: usize = 9 + (1 << 14);

/// Room for one frame of the maximum length. It holds the payload of the last frame that was read,
/// and behind it the octets that came and were not read as frames yet.
#[derive(Drop)]
pub struct FrameBuffer {
    octets: Vec<u8>,
    /// Where the last payload begins, where it ends, and where the octets end that came.
    payload: usize,
    start: usize,
    end: usize,
}

impl Model for FrameBuffer {
    ghost use Rattle.std.specs.Prelude.{◌≡◌, ◌≤◌, ◌-◌, slice_range, vec_len};
    ghost use Rattle.spf_http2.specs.Reading.{Buffered};
    ghost use Rattle.spf_http2.specs.declared.buffer.TheConstants.{FRAME_ROOM};

    ghost Value = { Buffered };

    ghost view = { λ b. record {
      payload = slice_range b.octets.items b.payload b.start;
      pending = slice_range b.octets.items b.start b.end;
      room = FRAME_ROOM - b.end;
    } };

    ghost invariant = { λ b. (b.payload ≤ b.start) × (b.start ≤ b.end) × (b.end ≤ FRAME_ROOM)
        × (vec_len b.octets ≡ FRAME_ROOM) };
}

impl FrameBuffer {
    /// Returns an empty buffer, which takes no more memory later.
    pub fn new(alloc: Global) -> Result<FrameBuffer, OutOfMemory>
        ensures { IfOk result
            (λ b. b ≡ record { payload = []; pending = []; room = FRAME_ROOM }) }
    {
        Ok(FrameBuffer {
            octets: vec![in alloc; 0; FRAME_ROOM]?,
            payload: 0,
            start: 0,
            end: 0,
        })
    }

    /// Returns the payload of the last frame that was read.
    pub fn payload(&self) -> &[u8]
        ensures { result.now ≡ self.now.payload }
    {
        &self.octets[self.payload..self.start]
    }

    /// Returns the octets that came and were not read as frames.
    pub fn pending(&self) -> &[u8]
        ensures { result.now ≡ self.now.pending }
    {
        &self.octets[self.start..self.end]
    }

    /// Moves what is pending to the front, unless `count` octets fit where it stands.
    pub(crate) fn make_room(&mut self, count: usize)
        requires { count ≤ FRAME_ROOM }
        ensures pending { self.new.pending ≡ self.old.pending }
        ensures room { count ≤ length self.new.pending + self.new.room }
    {
        if FRAME_ROOM - self.start >= count {
            return;
        }
        self.octets
            .as_mut_slice()
            .copy_within(self.start..self.end, 0);
        self.end -= self.start;
        self.start = 0;
        self.payload = 0;
    }

    /// Reads once, behind what is pending.
    pub(crate) fn read_more<S: Source>(&mut self, source: &mut S) -> Result<usize, Failed>
        requires { 0 < self.old.room }
        ensures kept { Keeps (to_come self.old (S.left source.old))
            (to_come self.new (S.left source.new)) }
        ensures came { ReadCame self.old self.new result }
        ensures end { IfOk result (λ n. n ≡ 0 → IsAtEnd (S.left source.new)) }
        ensures cause { HasCause (S.failures source.old) (S.failures source.new) result }
    {
        let n = source.read(&mut self.octets[self.end..])?;
        self.end += n;
        Ok(n)
    }

    /// Hands out the frame that stands at the start of what is pending.
    pub(crate) fn take_frame(&mut self, payload: usize)
        requires { 9 + payload ≤ length self.old.pending }
        ensures payload { self.new.payload ≡ take payload (drop 9 self.old.pending) }
        ensures pending { self.new.pending ≡ drop (9 + payload) self.old.pending }
    {
        self.payload = self.start + 9;
        self.start = self.payload + payload;
    }
}
