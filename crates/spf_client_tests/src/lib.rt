//! Tests of clients and their links, in memory and over sockets, and of the JWT client, which need
//! only public calls.
#![tactic(auto)]

#[cfg(test)]
mod client;
#[cfg(test)]
mod jwt;
#[cfg(test)]
mod link;
#[cfg(test)]
mod link_doubles;
#[cfg(test)]
mod socket;
#[cfg(test)]
mod wire;
