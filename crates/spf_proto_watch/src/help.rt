//! The texts of `--help` and `--version`.

/// The text of `--help`.
pub(crate) const HELP: &str = "\
spf_proto_watch - follow the body of a real gRPC response of the Workload API

Usage:
  spf_proto_watch START    follow the body of FetchX509SVID on standard input
  spf_proto_watch --help | --version

START is the moment at which the session begins, in Unix seconds: $(date +%s).
One line is printed for each event: what a workload then holds.

Status: 0 ended well, 1 bad words, 2 out of memory, 3 read failed,
4 write failed, 5 too many messages, 6 bad message, 11 no update accepted.
";

/// The text of `--version`.
pub(crate) const VERSION: &str = "spf_proto_watch 0.19.0\n";
