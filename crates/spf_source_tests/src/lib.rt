//! Tests of live sources: over doubles, on threads and over sockets; and of what stands on them.
#![tactic(auto)]

#[cfg(test)]
mod build;
#[cfg(test)]
mod building;
#[cfg(test)]
mod gate_late;
#[cfg(test)]
mod gate_serve;
#[cfg(test)]
mod places;
#[cfg(test)]
mod record;
#[cfg(test)]
mod runs;
#[cfg(test)]
mod source;
#[cfg(test)]
mod threads;
