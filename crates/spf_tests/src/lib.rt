//! Tests of sessions and of what stands on them, and of keys and tokens, which need only public
//! calls.
#![tactic(auto)]

#[cfg(test)]
mod feed;
#[cfg(test)]
mod folder;
#[cfg(test)]
mod helper;
#[cfg(test)]
mod jwt;
#[cfg(test)]
mod proto;
#[cfg(test)]
mod secrets;
#[cfg(test)]
mod uses;
#[cfg(test)]
mod watch;
