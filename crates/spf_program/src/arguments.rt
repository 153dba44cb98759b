//! The arguments that a program was started with.

ghost use Rattle.std.specs.Prelude.{◌≡◌};
ghost use Rattle.spf_program.specs.Reports as spec;

use spf_io::OutOfMemory;
use std::alloc::{AllocError, AllocFailed};
use std::rt::Env;
use std::{env, io};
use thiserror::Error;

/// Why a program has no arguments.
#[derive(Clone, Copy, Debug, PartialEq, Eq, Error)]
pub enum ArgumentsError {
    #[error("an argument is not UTF-8")]
    NotText,
    #[error("out of memory")]
    OutOfMemory,
}

impl From<AllocError> for ArgumentsError {
    ghost use Rattle.std.specs.Prelude.{◌≡◌};
    ghost use Rattle.spf_program.specs.declared.arguments.ArgumentsError.TheVariants as errors;

    ghost from_gives = { λ _ e. e ≡ errors.OutOfMemory };

    fn from(_e: AllocError) -> ArgumentsError {
        ArgumentsError::OutOfMemory
    }
}

impl From<OutOfMemory> for ArgumentsError {
    ghost use Rattle.std.specs.Prelude.{◌≡◌};
    ghost use Rattle.spf_program.specs.declared.arguments.ArgumentsError.TheVariants as errors;

    ghost from_gives = { λ _ e. e ≡ errors.OutOfMemory };

    fn from(_e: OutOfMemory) -> ArgumentsError {
        ArgumentsError::OutOfMemory
    }
}

impl<T: Drop> From<AllocFailed<T>> for ArgumentsError {
    ghost use Rattle.std.specs.Prelude.{◌≡◌};
    ghost use Rattle.spf_program.specs.declared.arguments.ArgumentsError.TheVariants as errors;

    ghost from_gives = { λ _ e. e ≡ errors.OutOfMemory };

    fn from(_e: AllocFailed<T>) -> ArgumentsError {
        ArgumentsError::OutOfMemory
    }
}

impl ArgumentsError {
    /// Returns the exit status.
    pub fn status(self) -> u8
        ensures { result ≡ spec.arguments_status self }
    {
        match self {
            ArgumentsError::NotText => 1,
            ArgumentsError::OutOfMemory => 2,
        }
    }

    /// Returns the line of `report`.
    pub fn message(self) -> &'static str
        ensures { result.now ≡ spec.arguments_message self }
    {
        match self {
            ArgumentsError::NotText => "bad words\n",
            ArgumentsError::OutOfMemory => "out of memory\n",
        }
    }
}

/// Returns the arguments after the name of the program.
pub fn program_arguments(rt: &(impl Env + AllocGlobal)) -> Result<Vec<String>, ArgumentsError> {
    let all = match env::args(rt) {
        Ok(all) => all,
        Err(error) if error.kind() == io::ErrorKind::OutOfMemory => {
            return Err(ArgumentsError::OutOfMemory);
        }
        Err(_) => return Err(ArgumentsError::NotText),
    };
    let mut arguments = Vec::new(rt.alloc());
    for argument in all.skip(1) {
        arguments.push(argument)?;
    }
    Ok(arguments)
}
