//! Laws of the definitions that contracts cite. No law has a body: its contract is its statement.

ghost use Rattle.std.specs.Prelude.{◌≡◌, ℕ, List, ◌++◌, Some};
ghost use Rattle.spf_proto.specs.Wire.{varint_at};

/// No varint begins another: what follows one changes neither its number nor where it ends.
pub fn varints_end_alone()
    ensures { (bytes more : List ℕ) (n : ℕ) (rest : List ℕ) → varint_at bytes ≡ Some (n, rest)
        → varint_at (bytes ++ more) ≡ Some (n, rest ++ more) }
{}
