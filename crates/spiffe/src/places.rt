//! What gives passes their places.

use crate::kind::X509;

/// Gives passes their places on a board. Whatever gives them for a board of this kind is one.
pub trait Places: spf_board::Places<X509> {}

impl<L: spf_board::Places<X509>> Places for L {}
