//! What debug output shows of secrets.

use std::fmt;

/// The length of a key or of a token in bytes, which is all that debug output shows of it.
#[derive(Clone, Copy)]
pub struct SecretLength(pub usize);

impl fmt::Debug for SecretLength {
    fn fmt<W: fmt::Write>(&self, f: &mut fmt::Formatter<W>) -> fmt::Result {
        let length = self.0;
        write!(f, "<{length} bytes>")
    }
}
