//! Laws of what is read by the grammar of certificates, and of equal
//! bags. Each is the contract of a function that does nothing.

ghost use Rattle.std.specs.Prelude.{◌≡◌, ◌↔◌, ◌≤◌, ℕ, Bool, true, nat_eq, List, Ok, Err, length};
ghost use Rattle.std.specs.Cmp.{IsEquivalence};
ghost use Rattle.std.specs.Cmp.Lexicographic.{pointwise, slice_cmp};
ghost use Rattle.std.specs.Ordering.{nat_cmp};
ghost use Rattle.std.specs.List.Sorted.{IsPermutation};
ghost use Rattle.spf_der.specs.Grammar.{CertsOf, KeyText};
ghost use Rattle.spf_der.specs.Value.{IsBytes};
ghost use Rattle.spf_der.specs.declared.error.X509ParseKind.TheVariants as kinds;
ghost use Rattle.spf_x509.specs.Bag.{same_bag, in_order};
ghost use Rattle.spf_x509.specs.Certificate.{IsCertificate, certificate_of};
ghost use Rattle.spf_x509.specs.Chain.{IsTooLong, ReadAs, authorities_rule, chain_rule};
ghost use Rattle.spf_x509.specs.Key.{key_rule};
ghost use Rattle.spf_x509.specs.declared.error.CertificateError.TheVariants as errors;

/// Bytes are taken for a certificate exactly where the whole of
/// them is one, and are refused as none exactly where it is not.
pub fn certificate_is_text()
    ensures taken { (der : List ℕ) → IsBytes der
        → (certificate_of der ≡ Ok der) ↔ IsCertificate der }
    ensures refused { (der : List ℕ) → IsBytes der
        → (certificate_of der ≡ Err (errors.ParseX509Certificate kinds.InvalidCertificate))
        ↔ (IsCertificate der → ⊥) }
{}

/// The authorities of a bundle are exactly the certificates whose concatenation the bytes are, and
/// the bytes are refused exactly where there are no such certificates.
pub fn authorities_are_certificates()
    ensures read { (der : List ℕ) (certificates : List (List ℕ)) → IsBytes der
        → (authorities_rule der ≡ Ok certificates) ↔ CertsOf der certificates }
    ensures refused { (der : List ℕ) → IsBytes der
        → (authorities_rule der ≡ Err (errors.ParseX509Certificate kinds.InvalidCertificate))
        ↔ ((certificates : List (List ℕ)) → CertsOf der certificates → ⊥) }
{}

/// A chain is exactly the certificates whose concatenation it is, at most 16. It has too many
/// exactly where 16 certificates stand at its start and an octet follows.
pub fn chain_is_certificates()
    ensures read { (chain : List ℕ) (certificates : List (List ℕ)) → IsBytes chain
        → ReadAs (chain_rule chain) certificates
        ↔ (CertsOf chain certificates × (length certificates ≤ 16)) }
    ensures too_many { (chain : List ℕ) → IsBytes chain
        → (chain_rule chain ≡ Err (errors.TooManyCertificates 16)) ↔ IsTooLong chain }
{}

/// Bytes are taken for a private key exactly where the whole of them is one.
pub fn key_is_text()
    ensures { (der : List ℕ) → IsBytes der → (key_rule der ≡ Ok der) ↔ KeyText der }
{}

/// Two lists are equal as bags exactly where their members in order agree one by one.
pub fn bags_are_equal<T: Ord>()
    ensures { (xs ys : List T)
        → same_bag T.eq xs ys ≡ pointwise T.eq (in_order T.cmp xs) (in_order T.cmp ys) }
{}

/// Two lists of byte texts are equal as bags exactly
/// where their members in order are the same list.
pub fn byte_bags_are_equal()
    ensures { (xs ys : List (List ℕ))
        → (same_bag (pointwise nat_eq) xs ys ≡ true)
        ↔ (in_order (slice_cmp nat_cmp) xs ≡ in_order (slice_cmp nat_cmp) ys) }
{}

/// Equality of bags is an equivalence where equality of members is.
pub fn equal_bags_are_an_equivalence<X>()
    ensures { (eq : X → X → Bool) → IsEquivalence eq → IsEquivalence (same_bag eq) }
{}

/// The order of the members makes no difference.
pub fn order_makes_no_difference<X>()
    ensures { (eq : X → X → Bool) → IsEquivalence eq → (xs ys : List X) → IsPermutation xs ys
        → same_bag eq xs ys ≡ true }
{}
