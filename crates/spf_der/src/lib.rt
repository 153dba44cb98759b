//! Certificates and private keys in DER, read where they lie, and a writer of small certificates.
//!
//! A certificate is read by the grammar of RFC 5280 section 4.1, its extensions by section 4.2.1, a
//! key by RFC 5958 section 2, and every value in the one spelling of DER (X.690 section 10.1).
//! Names, public keys, signatures and unknown extensions are passed over unread.
#![tactic(auto)]

mod certificate;
mod error;
mod extensions;
mod key;
pub mod laws;
mod scan;
mod time;
mod types;
mod value;
mod writer;

pub use certificate::{
    CertParts, CertView, ExtensionPart, ExtensionView, extension_unique, read_certificate,
    read_certificate_view,
};
pub use error::{CertReadError, Pkcs8DecodeError, X509ParseError, X509ParseKind};
pub use extensions::{
    BASIC_CONSTRAINTS, KEY_USAGE, KeyUsageBits, SUBJECT_ALT_NAME, SanUris, read_basic_constraints,
    read_key_usage, read_san_uri_views, read_san_uris,
};
pub use key::read_key;
pub use scan::{CertScan, scan_certificate};
pub use writer::{CertSpec, write_certificate, write_key, write_time};
