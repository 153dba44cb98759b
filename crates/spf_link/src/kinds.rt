//! The kinds of frames that are allowed in answer to a call.

ghost use Rattle.std.specs.Prelude.{◌≡◌};
ghost use Rattle.spf_link.specs.Answers.{streams};

use spf_frame::Kinds;
use spf_frame::frame_kind::{CONNECT_STATUS, CONNECTED, ITEM, ITEM_STATUS, STREAM_END};

/// Whether frames of this kind belong to a stream.
pub(crate) fn is_of_stream(kind: u8) -> bool
    ensures { result ≡ streams kind }
{
    kind == ITEM || kind == ITEM_STATUS || kind == STREAM_END
}

/// The kinds that are allowed at a start, be it the first or a later one.
#[derive(Clone, Copy)]
pub(crate) struct AtStart {
    pub(crate) again: bool,
}

impl Kinds for AtStart {
    ghost use Rattle.spf_link.specs.Answers.{may_start};

    ghost allows = { λ k. may_start k.again };

    fn allow(&self, kind: u8) -> bool {
        kind == CONNECTED || kind == CONNECT_STATUS || (self.again && is_of_stream(kind))
    }
}

/// The kinds that are allowed in a stream.
#[derive(Clone, Copy)]
pub(crate) struct InStream;

impl Kinds for InStream {
    ghost use Rattle.spf_link.specs.Answers as spec;

    ghost allows = { λ _. spec.streams };

    fn allow(&self, kind: u8) -> bool {
        is_of_stream(kind)
    }
}
