//! What is kept: a generation, which is an identity and the
//! authorities to trust, and the entry that a file holds of it.

use spf_api::SecretLength;
use spf_io::{Bytes, List, Text};
use std::fmt;

/// The authorities of a trust domain, in order.
#[derive(Debug, PartialEq, Eq, Drop)]
pub struct AuthorityList {
    pub name: Text,
    pub certificates: List<Bytes>,
}

/// An identity with its key, and the authorities by trust domain. Without an identity the chain
/// and the key are empty. Debug output shows only the length of the key.
#[derive(PartialEq, Eq, Drop)]
pub struct Generation {
    pub number: u64,
    pub chain: Bytes,
    pub key: Bytes,
    pub authorities: List<AuthorityList>,
}

impl fmt::Debug for Generation {
    fn fmt<W: fmt::Write>(&self, f: &mut fmt::Formatter<W>) -> fmt::Result {
        f.debug_struct("Generation")
            .field("number", &self.number)
            .field("chain", &self.chain)
            .field("key", &SecretLength(self.key.as_slice().len()))
            .field("authorities", &self.authorities)
            .finish()
    }
}

/// What one file holds.
#[derive(Debug, Drop)]
pub enum Entry {
    Withdrawn { number: u64 },
    Accepted(Generation),
}
