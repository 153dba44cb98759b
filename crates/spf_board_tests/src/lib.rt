//! Tests of what threads share, which need only public calls: boards, closed cells, bells and jobs,
//! and live sources of JWT bundles, over doubles and on threads.
#![tactic(auto)]

#[cfg(test)]
mod close;
#[cfg(test)]
mod job;
#[cfg(test)]
mod jwt;
#[cfg(test)]
mod jwt_build;
#[cfg(test)]
mod jwt_fetch;
#[cfg(test)]
mod jwt_links;
#[cfg(test)]
mod jwt_source;
#[cfg(test)]
mod jwt_threads;
#[cfg(test)]
mod x509;
