//! Runs of `watch` whose reads and writes fail.

mod failing;
mod running;
