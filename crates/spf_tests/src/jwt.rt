//! Keys, key sets, tokens, the responses that carry them, and sessions, in tables.

mod key_set;
mod large;
mod responses;
mod session;
mod token;
