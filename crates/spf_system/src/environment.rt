//! Environment variables.

ghost use Rattle.std.specs.Prelude.{◌≡◌, ℕ, List, Option, Some, IfOk};
ghost use Rattle.spf_system.specs.Environment.{EnvReads};

use spf_io::{OutOfMemory, Text};
use std::alloc::Global;
use std::env::{self, Env, VarError};

/// The value of a variable.
#[derive(Debug, PartialEq, Eq, Drop)]
pub enum EnvValue {
    /// There is no such variable.
    Missing,
    /// Its value is not UTF-8.
    NotUnicode,
    /// Its value.
    Found(Text),
}

impl EnvValue {
    pub fn try_clone(&self, alloc: Global) -> Result<EnvValue, OutOfMemory>
        ensures { IfOk result (λ v. v ≡ self.now) }
    {
        match self {
            EnvValue::Missing => Ok(EnvValue::Missing),
            EnvValue::NotUnicode => Ok(EnvValue::NotUnicode),
            EnvValue::Found(text) => Ok(EnvValue::Found(text.try_clone(alloc)?)),
        }
    }
}

/// Where variables are looked up.
pub trait Environment {
    ghost use Rattle.spf_system.specs.declared.environment.EnvValue.{EnvValue};

    // The value of each name, where the environment is known.
    ghost value: { Self → List ℕ → Option EnvValue };

    fn var(&self, alloc: Global, name: &str) -> Result<EnvValue, OutOfMemory>
        ensures { EnvReads (value self.now name.now) result };
}

/// An environment that has the one value for every name.
#[derive(Debug, Drop)]
pub struct MemEnvironment {
    value: EnvValue,
}

impl MemEnvironment {
    pub fn new(value: EnvValue) -> MemEnvironment
        ensures { result ≡ record { value = value } }
    {
        MemEnvironment { value }
    }
}

impl Environment for MemEnvironment {
    ghost use Rattle.std.specs.Prelude.{Some};

    ghost value = { λ e _. Some e.value };

    fn var(&self, alloc: Global, _name: &str) -> Result<EnvValue, OutOfMemory> {
        self.value.try_clone(alloc)
    }
}

/// The environment of the process.
#[derive(Drop)]
pub struct StdEnvironment<R> {
    system: R,
}

impl<R: Env + AllocGlobal> StdEnvironment<R> {
    pub fn new(system: R) -> StdEnvironment<R>
        ensures { result ≡ record { system = system } }
    {
        StdEnvironment { system }
    }
}

impl<R: Env + AllocGlobal> Environment for StdEnvironment<R> {
    ghost use Rattle.std.specs.Prelude.{None};

    ghost value = { λ _ _. None };

    fn var(&self, _alloc: Global, name: &str) -> Result<EnvValue, OutOfMemory> {
        match env::var(&self.system, name) {
            Ok(value) => Ok(EnvValue::Found(Text::new(value))),
            Err(VarError::NotPresent) => Ok(EnvValue::Missing),
            Err(VarError::NotUnicode) => Ok(EnvValue::NotUnicode),
            Err(VarError::OutOfMemory) => Err(OutOfMemory),
        }
    }
}
