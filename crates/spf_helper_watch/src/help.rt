//! The texts of `--help` and `--version`.

/// The text of `--help`.
pub(crate) const HELP: &str = "\
spf_helper_watch - keep the latest SPIFFE identity in a folder

Usage:
  spf_helper_watch FOLDER    follow the frames on standard input
  spf_helper_watch --help | --version

FOLDER must exist. It holds three files, gates, first and second, which
spf_export reads. After a crash at any moment they hold what they held at the
start, or what one of the updates and denials since then left, as a whole.
One line is printed for each event.

Status: 0 ended well, 1 bad words, 2 out of memory, 3 read failed,
4 write failed, 5 session too long, 6 bad frame, 7 request rejected,
8 required RPC unsupported, 10 source closed, 11 no update accepted,
21 disk failed, 22 damaged, 23 full.
After `disk failed` a second line says why.
";

/// The text of `--version`.
pub(crate) const VERSION: &str = "spf_helper_watch 0.19.0\n";
