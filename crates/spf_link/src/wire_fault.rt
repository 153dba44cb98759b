//! What stands in the way of an answer.

ghost use Rattle.std.specs.Prelude.{◌≡◌};
ghost use Rattle.spf_link.specs.Wire as spec;

use spf_frame::FrameError;
use spf_io::OutOfMemory;

/// Why a call of a link was not answered by the other side.
#[derive(Drop)]
pub(crate) enum WireFault {
    /// The payload of the request is longer than 2^24.
    RequestTooLong,
    /// The request could not be put whole.
    PutFault,
    /// No answer was read.
    Unread(FrameError),
    /// Memory ran out before anything was put.
    OutOfMemory,
    /// An earlier call lost the place of the link.
    LostPlace,
}

/// Whether a call loses the place of its link: a part of a frame may have been put or read.
pub(crate) fn loses_place<T>(answer: &Result<T, WireFault>) -> bool
    ensures { result ≡ spec.loses_place answer.now }
{
    match answer {
        Err(WireFault::PutFault | WireFault::LostPlace) => true,
        Err(WireFault::Unread(FrameError::ReadFault | FrameError::OutOfMemory)) => true,
        _ => false,
    }
}

impl From<OutOfMemory> for WireFault {
    ghost use Rattle.std.specs.Prelude.{◌≡◌};
    ghost use Rattle.spf_link.specs.declared.wire_fault.WireFault.TheVariants as faults;

    ghost from_gives = { λ _ e. e ≡ faults.OutOfMemory };

    fn from(_e: OutOfMemory) -> WireFault {
        WireFault::OutOfMemory
    }
}
