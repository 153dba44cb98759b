//! Laws of the grammar: each is the contract of a function that does nothing, or calls one reader.

ghost use Rattle.std.specs.Prelude.{◌≡◌, ◌≢◌, ◌↔◌, ℕ, ◌≤◌, List, ◌++◌, length, take, Some, Ok, Err};
ghost use Rattle.std.specs.Prelude.{Bool, true, IfOk, IfErr, IsTrue};
ghost use Rattle.spf_der.specs.ExtensionGrammar.{ConstraintsText, NamesText, UsageText};
ghost use Rattle.spf_der.specs.Extensions.{basic_constraints_of, key_usage_of};
ghost use Rattle.spf_der.specs.Grammar.{CertText, CertsOf, KeyText};
ghost use Rattle.spf_der.specs.Key.{is_key};
ghost use Rattle.spf_der.specs.Names.{san_uris_of};
ghost use Rattle.spf_der.specs.Part.{Parts};
ghost use Rattle.spf_der.specs.Read.{certificate_rule};
ghost use Rattle.spf_der.specs.ReadsBack.{ReadsBack};
ghost use Rattle.spf_der.specs.Value.{IsBytes, Value, value_at};
ghost use Rattle.spf_der.specs.Written.{IsCertificateOf, key_text};
ghost use Rattle.spf_der.specs.declared.error.CertReadError.TheVariants as errors;
ghost use Rattle.spf_der.specs.declared.error.X509ParseKind.TheVariants as kinds;
ghost use Rattle.spf_der.specs.declared.extensions.KeyUsageBits.{KeyUsageBits};
ghost use Rattle.spf_der.specs.declared.writer.CertSpec.{CertSpec};

use crate::certificate::{CertView, read_certificate_view};
use crate::error::CertReadError;
use crate::key::read_key;
use std::alloc::Global;

/// A value is read exactly where one stands at the start
/// of the bytes, and none is a proper prefix of another.
pub fn one_value()
    ensures read { (bytes : List ℕ) (tag : ℕ) (contents rest : List ℕ) → IsBytes bytes
        → (value_at bytes ≡ Some (tag, contents, rest))
        ↔ ((text : List ℕ) × Value text tag contents × (bytes ≡ text ++ rest)) }
    ensures one { (a b x y : List ℕ) (t u : ℕ) (c d : List ℕ) → Value a t c → Value b u d
        → a ++ x ≡ b ++ y → (a ≡ b) × (t ≡ u) × (c ≡ d) × (x ≡ y) }
{}

/// A certificate is read with its parts and its length exactly where one stands at the start of the
/// bytes, and is refused exactly where none does. What follows it changes nothing.
pub fn certificate_is_text()
    ensures found { (bytes : List ℕ) (parts : Parts) (n : ℕ) → IsBytes bytes
        → (certificate_rule bytes ≡ Ok (parts, n))
        ↔ ((n ≤ length bytes) × CertText (take n bytes) parts) }
    ensures refused { (bytes : List ℕ) → IsBytes bytes
        → (certificate_rule bytes ≡ Err (errors.Parse kinds.InvalidCertificate))
        ↔ ((n : ℕ) (parts : Parts) → CertText (take n bytes) parts → ⊥) }
    ensures followed { (bytes rest : List ℕ) (parts : Parts) (n : ℕ) → IsBytes bytes
        → certificate_rule bytes ≡ Ok (parts, n)
        → certificate_rule (bytes ++ rest) ≡ Ok (parts, n) }
{}

/// No certificate is a proper prefix of another, and each has its parts alone.
pub fn one_certificate()
    ensures { (a b x y : List ℕ) (p q : Parts) → CertText a p → CertText b q → a ++ x ≡ b ++ y
        → (a ≡ b) × (p ≡ q) × (x ≡ y) }
{}

/// Certificates one after another are cut in one way only.
pub fn one_cut()
    ensures { (texts others : List (List ℕ)) (bytes : List ℕ) → CertsOf bytes texts
        → CertsOf bytes others → texts ≡ others }
{}

/// Bytes are read as a key exactly where the whole of them is one.
pub fn key_is_text()
    ensures { (bytes : List ℕ) → IsBytes bytes → (is_key bytes ≡ true) ↔ KeyText bytes }
{}

/// The contents octets of the three extensions are read
/// exactly where they are in their grammar, as what they mean.
pub fn extension_is_text()
    ensures key_usage { (bytes : List ℕ) (usage : KeyUsageBits) → IsBytes bytes
        → (key_usage_of bytes ≡ Some usage) ↔ UsageText bytes usage }
    ensures basic_constraints { (bytes : List ℕ) (ca : Bool) → IsBytes bytes
        → (basic_constraints_of bytes ≡ Some ca) ↔ ConstraintsText bytes ca }
    ensures names { (bytes : List ℕ) (uris : List (List ℕ)) → IsBytes bytes
        → (san_uris_of bytes ≡ Some uris) ↔ NamesText bytes uris }
{}

/// What is written of a spec is read as that spec, but for the serial number.
pub fn written_certificate()
    ensures { (spec : CertSpec) (text : List ℕ) → IsCertificateOf spec text → IsBytes text
        → ReadsBack spec text }
{}

/// What is written of a key is a key.
pub fn written_key()
    ensures { (serial : ℕ) → is_key (key_text serial) ≡ true }
{}

/// Bytes are read as the certificate at their start, and none stands there where they are refused.
pub fn certificate_in_front<'a>(
    alloc: Global,
    der: &'a [u8],
) -> Result<(CertView<'a>, usize), CertReadError>
    ensures found { IfOk result (λ x. (x.1 ≤ length der.now) × CertText (take x.1 der.now) x.0) }
    ensures refused { IfErr result
        (λ e. e ≢ errors.OutOfMemory → (n : ℕ) (parts : Parts) → CertText (take n der.now) parts
        → ⊥) }
{
    read_certificate_view(alloc, der)
}

/// Bytes are taken for a key exactly where the whole of them is one.
pub fn key_in_bytes(der: &[u8]) -> bool
    ensures { IsTrue result ↔ KeyText der.now }
{
    read_key(der).is_ok()
}
