//! A private key, kept as its DER.

ghost use Rattle.std.specs.Prelude.{◌≡◌, IfOk, Ok};
ghost use Rattle.spf_io.specs.Rule.{Gives};
ghost use Rattle.spf_x509.specs.Errors.{is_memory_key};
ghost use Rattle.spf_x509.specs.Key.{key_rule};

use crate::error::PrivateKeyError;
use spf_der::read_key;
use spf_io::{Bytes, OutOfMemory};
use std::alloc::Global;
use std::fmt;
use std::marker::Model;

/// A private key (RFC 5958 section 2), which contracts see as its bytes. Its drop overwrites them.
#[derive(PartialEq, Eq, PartialOrd, Ord)]
pub struct PrivateKey {
    der: Bytes,
}

impl Model for PrivateKey {
    ghost use Rattle.std.specs.Prelude.{List, ℕ};

    ghost Value = { List ℕ };

    ghost view = { λ k. k.der };

    ghost use Rattle.std.specs.Prelude.{◌≡◌, true};
    ghost use Rattle.spf_der.specs.Key.{is_key};

    ghost invariant = { λ k. is_key k.der ≡ true };

    ghost inverse = { λ b. record { der = b } };
}

impl PrivateKey {
    /// Returns the key that the bytes are, whole.
    #[tactic(auto, unfolding(crate::specs::Key::key_rule))]
    pub fn try_from(alloc: Global, der: &[u8]) -> Result<PrivateKey, PrivateKeyError>
        ensures text { IfOk result (λ k. k ≡ der.now) }
        ensures gives { Gives is_memory_key (λ k. k) result (key_rule der.now) }
    {
        read_key(der)?;
        Ok(PrivateKey {
            der: Bytes::copy_of(alloc, der)?,
        })
    }

    /// The same, keeping the bytes. The allocator is not used.
    #[tactic(auto, unfolding(crate::specs::Key::key_rule))]
    pub fn try_from_owned(_alloc: Global, der: Vec<u8>) -> Result<PrivateKey, PrivateKeyError>
        ensures text { IfOk result (λ k. k ≡ der.items) }
        ensures gives { Gives is_memory_key (λ k. k) result (key_rule der.items) }
    {
        read_key(der.as_slice())?;
        Ok(PrivateKey {
            der: Bytes::new(der),
        })
    }

    #[tactic(auto, unfolding(crate::specs::Key::key_rule))]
    pub fn as_bytes(&self) -> &[u8]
        ensures value { result.now ≡ self.now }
        ensures rule { key_rule result.now ≡ Ok self.now }
    {
        self.der.as_slice()
    }

    /// Returns a copy of the key.
    pub fn try_clone(&self, alloc: Global) -> Result<PrivateKey, OutOfMemory>
        ensures { IfOk result (λ k. k ≡ self.now) }
    {
        Ok(PrivateKey {
            der: self.der.try_clone(alloc)?,
        })
    }
}

impl Drop for PrivateKey {
    fn drop(self) {
        let PrivateKey { der } = self;
        let mut octets = der.into_vec();
        for octet in octets.iter_mut() {
            *octet = 0;
        }
    }
}

impl fmt::Debug for PrivateKey {
    ghost use Rattle.std.specs.Prelude.{Some};
    ghost use Rattle.spf_x509.specs.Key.{shown};

    ghost debug_output = { λ k. Some (shown k) };

    fn fmt<W: fmt::Write>(&self, f: &mut fmt::Formatter<W>) -> fmt::Result {
        let length = self.der.as_slice().len();
        write!(f, "PrivateKey {{ len: {length} }}")
    }
}
