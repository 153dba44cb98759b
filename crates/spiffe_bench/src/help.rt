//! The texts of `--help` and `--version`.

/// The text of `--help`.
pub(crate) const HELP: &str = "\
spiffe_bench - reads of a live source by several threads

Usage:
  spiffe_bench reads THREADS READS
  spiffe_bench storm THREADS ROUNDS
  spiffe_bench --help | --version

THREADS is from 1 to 60, the other number from 1 to 1000000000. `reads` prints
lines of what the writer does, the call, the threads, and the nanoseconds of one
call. `storm` publishes rounds of a denial and two updates without pause, while
each thread checks that revisions never fall and that what it reads belongs to
one state; it prints `sound`.

Status: 0 ended well, 1 bad words, 2 out of memory, 4 write failed, 5 a read was
not sound, 12 no thread, 15 no clock.
";

/// The text of `--version`.
pub(crate) const VERSION: &str = "spiffe_bench 0.19.0\n";
