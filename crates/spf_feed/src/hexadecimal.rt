//! Octets in hexadecimal, in lower case.

ghost use Rattle.std.specs.Prelude.{◌≡◌, ◌*◌, ◌/◌, ◌%◌, length, slice_index};
ghost use Rattle.hex.specs.Hex.{lower_digits, encode_lower};

/// The two digits of an octet. Both halves become digits within one number: in the steps of several
/// octets that the compiler makes, this takes fewer instructions than two numbers would.
#[inline(always)]
fn digits(octet: u8) -> (u8, u8)
    ensures first { result.0 ≡ slice_index lower_digits (octet / 16) }
    ensures second { result.1 ≡ slice_index lower_digits (octet % 16) }
{
    let octet = octet as u16;
    let halves = (octet | octet << 12) >> 4 & 0x0f0f;
    // One in each half that is ten or more.
    let letters = (halves + 0x7676) >> 7 & 0x0101;
    let pair = halves + 0x3030 + letters * 39;
    ((pair % 256) as u8, (pair / 256) as u8)
}

/// Two digits for each octet. The compiler turns it into steps of several octets.
pub(crate) fn write_hex(octets: &[u8], out: &mut [u8])
    requires { length out.old ≡ 2 * length octets.now }
    ensures { out.new ≡ encode_lower octets.now }
{
    for i in 0..octets.len() {
        let (first, second) = digits(octets[i]);
        out[2 * i] = first;
        out[2 * i + 1] = second;
    }
}
