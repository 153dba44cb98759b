//! The texts of `--help` and `--version`.

/// The text of `--help`.
pub(crate) const HELP: &str = "\
spf_live_watch - print what a live source of X.509 identities holds

Usage:
  spf_live_watch [OPTION VALUE]...
  spf_live_watch --help | --version

It asks the agent at the endpoint that SPIFFE_ENDPOINT_SOCKET names, waits for
a first update that is accepted, and prints a line: permitted or withdrawn, with
the revision, the chosen identity, its expiry and chain, and the bundles to
trust. Each line after it comes when the revision rises.

Options, each at most once:
  --lines N              how many lines to print, from 1 on (default 1)
  --timeout N            seconds that the first update may take (default: no limit)
  --hint TEXT            take the first SVID with this hint
  --ready usable|any     whether the first update must hold a chosen identity that
                         is not expired (default usable: it must)
  --max-svids N          most SVIDs in an update (default 100)
  --max-bundles N        most bundles in an update (default 200)
  --max-bundle-bytes N   most DER bytes in a bundle (default 4194304)
  --max-crl-bytes N      most CRL bytes in an update (default 4194304)
Each of the last four also takes `none`.

Status: 0 ended well, 1 bad words, 2 out of memory, 4 write failed,
7 request rejected, 8 required RPC unsupported, 9 initial synchronization timed
out, 12 no supervisor, 13 no place, 14 no endpoint in the environment. The line
of a failure begins with `spiffe_watch: `, as those of that program do.
";

/// The text of `--version`.
pub(crate) const VERSION: &str = "spf_live_watch 0.19.0\n";
