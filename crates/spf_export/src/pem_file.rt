//! The files that are written.

ghost use Rattle.std.specs.Prelude.{◌≡◌};
ghost use Rattle.spf_export.specs.Files.{mode_of, name_of};

/// A file of an identity.
#[derive(Clone, Copy)]
pub(crate) enum PemFile {
    Bundle,
    Key,
    Chain,
}

impl PemFile {
    /// All, in the order in which they are replaced.
    pub(crate) const ALL: [PemFile; 3] = [PemFile::Bundle, PemFile::Key, PemFile::Chain];

    pub(crate) fn name(self) -> &'static str
        ensures { result.now ≡ name_of self }
    {
        match self {
            PemFile::Bundle => "svid_bundle.pem",
            PemFile::Key => "svid_key.pem",
            PemFile::Chain => "svid.pem",
        }
    }

    /// Who may read it: the owner the key, all the others.
    pub(crate) fn mode(self) -> u32
        ensures { result ≡ mode_of self }
    {
        match self {
            PemFile::Key => 0o600,
            PemFile::Bundle | PemFile::Chain => 0o644,
        }
    }
}
