//! The JWT client and the fetcher, in tables.

mod client;
mod fetcher;
mod links;
