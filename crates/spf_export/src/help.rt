//! The texts of `--help` and `--version`.

/// The text of `--help`.
pub(crate) const HELP: &str = "\
spf_export - write the identity that spf_helper_watch keeps as PEM files

Usage:
  spf_export FOLDER OUT    read FOLDER, and write into the folder OUT
  spf_export --help | --version

svid.pem is the certificate chain, svid_key.pem the private key, which its
owner alone may read, and svid_bundle.pem the authorities of the identity's
own trust domain. Each file is replaced as a whole. Where FOLDER holds no
identity, the three files are removed. FOLDER may be in use meanwhile.

Status: 0 ended well, 1 bad words, 2 out of memory, 4 write failed,
21 disk failed, 22 damaged.
";

/// The text of `--version`.
pub(crate) const VERSION: &str = "spf_export 0.19.0\n";
