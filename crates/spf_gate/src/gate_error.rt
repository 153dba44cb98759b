use spf_io::OutOfMemory;
use std::alloc::{AllocError, AllocFailed};
use thiserror::Error;

/// Why asks are not answered to the end of the input. Lines are numbered from 1.
#[derive(Clone, Copy, Debug, PartialEq, Eq, Error)]
pub enum GateError {
    /// The input could not be read.
    #[error("read failed")]
    ReadFault,
    /// An answer could not be written.
    #[error("write failed")]
    WriteFault,
    /// A line of the policy is not a rule.
    #[error("bad rule in line {line}")]
    BadRule { line: u64 },
    /// The input ends before the policy does.
    #[error("no end of the policy")]
    NoPolicyEnd,
    /// A line has more than 4096 bytes.
    #[error("line {line} is too long")]
    LineTooLong { line: u64 },
    /// A line is not UTF-8.
    #[error("line {line} is no text")]
    NotText { line: u64 },
    /// There are more lines than are allowed.
    #[error("too many lines")]
    TooManyLines,
    /// Memory ran out.
    #[error("out of memory")]
    OutOfMemory,
}

impl From<OutOfMemory> for GateError {
    ghost use Rattle.std.specs.Prelude.{◌≡◌};
    ghost use Rattle.spf_gate.specs.declared.gate_error.GateError.TheVariants as errors;

    ghost from_gives = { λ _ e. e ≡ errors.OutOfMemory };

    fn from(_e: OutOfMemory) -> GateError {
        GateError::OutOfMemory
    }
}

impl From<AllocError> for GateError {
    ghost use Rattle.std.specs.Prelude.{◌≡◌};
    ghost use Rattle.spf_gate.specs.declared.gate_error.GateError.TheVariants as errors;

    ghost from_gives = { λ _ e. e ≡ errors.OutOfMemory };

    fn from(_e: AllocError) -> GateError {
        GateError::OutOfMemory
    }
}

impl<T: Drop> From<AllocFailed<T>> for GateError {
    ghost use Rattle.std.specs.Prelude.{◌≡◌};
    ghost use Rattle.spf_gate.specs.declared.gate_error.GateError.TheVariants as errors;

    ghost from_gives = { λ _ e. e ≡ errors.OutOfMemory };

    fn from(_e: AllocFailed<T>) -> GateError {
        GateError::OutOfMemory
    }
}
