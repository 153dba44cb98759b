//! Decimal numbers, as arguments spell them.

ghost use Rattle.std.specs.Prelude.{◌≡◌, ◌≤◌, IfSome, IsTrue, int_le, pos};
ghost use Rattle.std.specs.Char.{is_ascii_digit};
ghost use Rattle.std.specs.List.{list_all};
ghost use Rattle.std.specs.Option.{ForSome};
ghost use Rattle.spf_program.specs.Numbers as spec;

/// The maximum number that an argument may spell.
pub const MAX_NUMBER: u64 = i64::MAX as u64;

/// Whether all bytes are decimal digits.
fn all_digits(text: &[u8]) -> bool
    ensures { result ≡ list_all is_ascii_digit text.now }
{
    text.iter().all(|digit| digit.is_ascii_digit())
}

/// Whether a text is decimal digits, at least one, without a leading zero.
#[tactic(auto, unfolding(crate::specs::Numbers::is_numeral))]
fn is_numeral(text: &[u8]) -> bool
    ensures { result ≡ spec.is_numeral text.now }
{
    match text {
        [] => false,
        [b'0', _, ..] => false,
        _ => all_digits(text),
    }
}

/// Returns the number that a text spells, where it is at most `max`.
pub fn number_up_to(max: u64, text: &str) -> Option<u64>
    ensures value { result ≡ spec.number_up_to max text.now }
    ensures bound { ForSome result (λ n. n ≤ max) }
{
    if !is_numeral(text.as_bytes()) {
        return None;
    }
    match text.parse::<u64>() {
        Ok(number) if number <= max => Some(number),
        _ => None,
    }
}

/// Returns the moment that a text spells, in Unix seconds.
pub fn moment(text: &str) -> Option<i64>
    ensures value { result ≡ spec.moment_in text.now }
    ensures late { IfSome result (λ m. IsTrue (int_le (pos 0) m)) }
{
    Some(number_up_to(MAX_NUMBER, text)? as i64)
}
