//! What gives passes their places.

use crate::kind::Jwt;

/// Gives passes their places on a board. Whatever gives them for a board of this kind is one.
pub trait JwtPlaces: spf_board::Places<Jwt> {}

impl<L: spf_board::Places<Jwt>> JwtPlaces for L {}
