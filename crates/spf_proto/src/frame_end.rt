//! How following the frames of a body ends.

ghost use Rattle.std.specs.Prelude.{◌≡◌};
ghost use Rattle.spf_proto.specs.FrameEnds.{end_by, result_of_end};

use crate::proto_error::ProtoError;
use spf_feed::FollowError;

/// How following the frames ends. They bring nothing that another error could come from: one that
/// came nevertheless counts as out of memory.
#[derive(Clone, Copy, PartialEq, Eq)]
pub(crate) enum FrameEnd {
    Whole(u64),
    NeverSynced,
    ReadFault,
    WriteFault,
    OutOfMemory,
}

impl FrameEnd {
    pub(crate) fn of(followed: &Result<u64, FollowError>) -> FrameEnd
        ensures { result ≡ end_by followed.now }
    {
        match followed {
            Ok(count) => FrameEnd::Whole(*count),
            Err(FollowError::NeverSynced) => FrameEnd::NeverSynced,
            Err(FollowError::ReadFault) => FrameEnd::ReadFault,
            Err(FollowError::WriteFault) => FrameEnd::WriteFault,
            Err(_) => FrameEnd::OutOfMemory,
        }
    }

    pub(crate) fn result(self) -> Result<u64, ProtoError>
        ensures { result ≡ result_of_end self }
    {
        match self {
            FrameEnd::Whole(count) => Ok(count),
            FrameEnd::NeverSynced => Err(ProtoError::Follow(FollowError::NeverSynced)),
            FrameEnd::ReadFault => Err(ProtoError::Follow(FollowError::ReadFault)),
            FrameEnd::WriteFault => Err(ProtoError::Follow(FollowError::WriteFault)),
            FrameEnd::OutOfMemory => Err(ProtoError::Follow(FollowError::OutOfMemory)),
        }
    }
}
