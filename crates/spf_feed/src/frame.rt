//! Frames of a session.

ghost use Rattle.std.specs.Prelude.{◌≡◌};
ghost use Rattle.spf_frame.specs.Parts.{FailureHasCause};
ghost use Rattle.spf_feed.specs.Frames.{FrameRead, with_payload};

use crate::phase::{Phase, may_stand};
use spf_frame::{FrameError, Kinds, Payload, RawFrame};
use spf_io::Source;
use std::alloc::Global;

impl Kinds for Phase {
    ghost use Rattle.spf_feed.specs.Frames as spec;

    ghost allows = { spec.allows };

    fn allow(&self, kind: u8) -> bool {
        may_stand(*self, kind)
    }
}

/// The kind of the next frame, whose payload is then in the buffer. None at the end of input.
#[inline(always)]
pub(crate) fn next_frame<S: Source>(
    source: &mut S,
    payload: &mut Payload,
    phase: Phase,
    allowed: bool,
) -> Result<Option<u8>, FrameError>
    ensures bytes { FrameRead phase allowed (S.left source.old) (S.left source.new)
        (with_payload result payload.new) }
    ensures cause { FailureHasCause (S.failures source.old) (S.failures source.new) result }
{
    spf_frame::next_frame(source, payload, &phase, allowed)
}

/// Returns the next frame, of a kind that the phase allows. None at the end of input.
pub fn read_frame<S: Source>(
    alloc: Global,
    source: &mut S,
    phase: Phase,
    allowed: bool,
) -> Result<Option<RawFrame>, FrameError>
    ensures bytes { FrameRead phase allowed (S.left source.old) (S.left source.new) result }
    ensures cause { FailureHasCause (S.failures source.old) (S.failures source.new) result }
{
    spf_frame::read_frame(alloc, source, &phase, allowed)
}
