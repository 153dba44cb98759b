//! Views, revisions and steps of a session, for any kind of
//! item, and their laws. The definitions stand in `specs/`.
#![tactic(auto)]

pub mod laws;
