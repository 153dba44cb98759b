//! The extensions that the X.509-SVID rules look up.

ghost use Rattle.std.specs.Prelude.{◌≡◌};
ghost use Rattle.spf_x509.specs.Extension.{dotted};

use std::fmt;

/// An extension by its identifier (RFC 5280 sections 4.2.1.3, 4.2.1.6 and 4.2.1.9).
#[derive(Clone, Copy, Debug, PartialEq, Eq, Hash)]
pub enum X509ExtensionId {
    KeyUsage,
    SubjectAlternativeName,
    BasicConstraints,
}

impl X509ExtensionId {
    /// Returns the identifier in dotted decimals.
    pub fn as_str(&self) -> &str
        ensures { result.now ≡ dotted self.now }
    {
        match self {
            X509ExtensionId::KeyUsage => "2.5.29.15",
            X509ExtensionId::SubjectAlternativeName => "2.5.29.17",
            X509ExtensionId::BasicConstraints => "2.5.29.19",
        }
    }
}

impl fmt::Display for X509ExtensionId {
    ghost use Rattle.std.specs.Prelude.{Some};

    ghost output = { λ e. Some (dotted e) };

    fn fmt<W: fmt::Write>(&self, f: &mut fmt::Formatter<W>) -> fmt::Result {
        fmt::Display::fmt(self.as_str(), f)
    }
}
