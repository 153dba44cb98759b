ghost use Rattle.std.specs.Prelude.{◌≡◌, ◌<◌, ◌==◌, length, MatchOption};
ghost use Rattle.std.specs.List.{before_first, after_first, position_or_len};

use memchr::memchr;

/// What stands before the first such octet, and what stands after it where there is one.
pub(crate) fn cut(separator: u8, octets: &[u8]) -> (&[u8], Option<&[u8]>)
    ensures front { result.0.now ≡ before_first (λ c. c == separator) octets.now }
    ensures rest { MatchOption result.1
        (position_or_len (λ c. c == separator) octets.now ≡ length octets.now)
        (λ r. (position_or_len (λ c. c == separator) octets.now < length octets.now)
        × (r.now ≡ after_first (λ c. c == separator) octets.now)) }
{
    match memchr(separator, octets) {
        None => (octets, None),
        Some(at) => (&octets[..at], Some(&octets[at + 1..])),
    }
}
