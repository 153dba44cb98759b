//! Laws of the definitions that contracts cite. No law has a body: its contract is its statement.

ghost use Rattle.std.specs.Prelude.{◌≡◌, ◌<◌, ◌^◌, ℕ, List, ◌++◌, ◌∷◌, length, Some};
ghost use Rattle.std.specs.List.{AllByRecursion};
ghost use Rattle.std.specs.Str.{IsUtf8};
ghost use Rattle.spf_messages.specs.Wire.{WireField, Octets, varint_at, varint_text, field_at};
ghost use Rattle.spf_messages.specs.Wire.{field_text};
ghost use Rattle.spf_messages.specs.Requests.{IsRequestText, jwt_svid_request};
ghost use Rattle.spf_messages.specs.Requests.{jwt_svid_request_in, validation_request};
ghost use Rattle.spf_messages.specs.Requests.{validation_request_in};

/// No varint begins another: what follows one changes neither its number nor where it ends.
pub fn varints_end_alone()
    ensures { (bytes more : List ℕ) (n : ℕ) (rest : List ℕ) → varint_at bytes ≡ Some (n, rest)
        → varint_at (bytes ++ more) ≡ Some (n, rest ++ more) }
{}

/// A number that is written is read, whatever follows it.
pub fn varints_read_back()
    ensures { (n : ℕ) (rest : List ℕ) → n < 2 ^ 64
        → varint_at (varint_text n ++ rest) ≡ Some (n, rest) }
{}

/// A field that is written is read, whatever follows it.
pub fn fields_read_back()
    ensures { (n : ℕ) (octets rest : List ℕ) → 0 < n → n < 2 ^ 29 → length octets < 2 ^ 64
        → field_at (field_text n octets ++ rest)
        ≡ Some (record { number = n; value = Octets octets }, rest) }
{}

/// A JWTSVIDRequest that is written is read.
pub fn jwt_svid_requests_read_back()
    ensures { (audience : List (List ℕ)) (spiffe_id : List ℕ)
        → AllByRecursion IsRequestText audience → IsRequestText spiffe_id
        → jwt_svid_request_in (jwt_svid_request audience spiffe_id) ≡ Some (audience, spiffe_id) }
{}

/// A ValidateJWTSVIDRequest that is written is read.
pub fn validation_requests_read_back()
    ensures { (audience svid : List ℕ) → IsRequestText audience → IsRequestText svid
        → validation_request_in (validation_request audience svid) ≡ Some (audience, svid) }
{}
