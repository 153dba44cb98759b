//! The texts of `--help` and `--version`.

/// The text of `--help`.
pub(crate) const HELP: &str = "\
spiffe_watch - follow a stream of SPIFFE Workload API updates

Usage:
  spiffe_watch x509 [OPTION VALUE]...   follow the frames on standard input
  spiffe_watch jwt [OPTION VALUE]...    follow frames with JWT bundles
  spiffe_watch make N SEED              write a session of N operations
  spiffe_watch bench N SEED             follow that session, print its summary
  spiffe_watch --help | --version

x509 prints one line for each event: waiting, permitted or withdrawn, with the
revision, the chosen identity, its expiry and chain, and the bundles to trust.
jwt shows the keys of each trust domain, each as its ID and its JSON text.

Options of x509 and jwt, each at most once:
  --deadline MOMENT      fail at a frame's moment from this Unix second on, while no
                         update is accepted (default: none)
  --max-frames N         most frames to read (default 1000000)
  --max-bundles N        most bundles in an update (default 200)
  --max-bundle-bytes N   most DER or JSON bytes in a bundle (default 4194304)
Options of x509 alone:
  --hint TEXT            take the first SVID with this hint
  --ready usable|any     whether the first update must hold a chosen identity that
                         is not expired (default usable: it must)
  --max-svids N          most SVIDs in an update (default 100)
  --max-crl-bytes N      most CRL bytes in an update (default 4194304)
Each limit of an update also takes `none`.

Status: 0 ended well, 1 bad words, 2 out of memory, 3 read failed,
4 write failed, 5 session too long, 6 bad frame, 7 request rejected,
8 required RPC unsupported, 9 initial synchronization timed out,
10 source closed, 11 no update accepted.

docs/SESSIONS.md describes frames and lines. `./watch live` prints a live source.
";

/// The text of `--version`.
pub(crate) const VERSION: &str = "spiffe_watch 0.19.0\n";
