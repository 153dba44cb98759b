//! Numbers of a Struct: IEEE 754 binary64, by the 64 bits.

ghost use Rattle.std.specs.Prelude.{◌≡◌, ◌<◌, ◌≤◌, ◌^◌, IfOk, IfSome, None, Some};
ghost use Rattle.spf_messages.specs.Numbers.{number_value, scaled, signed, whole_number};

use spf_api::ClaimValue;
use spf_io::{OutOfMemory, Text};
use std::alloc::Global;

/// The power of two by which a significand counts as it is.
const UNITS: u64 = 1075;

/// The significand, of at most 53 bits, times two to the power less 1075, where that is whole and
/// below 2^64.
fn scaled(significand: u64, power: u64) -> Option<u64>
    requires significand { significand < 2 ^ 53 }
    requires normal { 1 < power → 2 ^ 52 ≤ significand }
    ensures known { IfSome result (λ n. scaled significand power ≡ Some n) }
    ensures other { result ≡ None → IfSome (scaled significand power) (λ n. 2 ^ 63 < n) }
{
    if significand == 0 {
        return Some(0);
    }
    if power >= UNITS {
        if power - UNITS > 11 {
            return None;
        }
        return significand.checked_mul(1 << (power - UNITS));
    }
    if UNITS - power > 52 {
        return None;
    }
    let unit = 1 << (UNITS - power);
    if significand % unit != 0 {
        return None;
    }
    Some(significand / unit)
}

/// The number with a sign, where it is one of 64 bits in two's complement.
fn signed(is_negative: bool, number: u64) -> Option<i64>
    ensures { result ≡ signed is_negative number }
{
    if number < 1 << 63 {
        let number = number as i64;
        return Some(if is_negative { -number } else { number });
    }
    if is_negative && number == 1 << 63 {
        return Some(i64::MIN);
    }
    None
}

/// The whole number of 64 bits that these bits stand for.
#[tactic(auto, unfolding(crate::specs::Numbers::whole_number))]
fn whole_number(bits: u64) -> Option<i64>
    ensures { result ≡ whole_number bits }
{
    let exponent = bits / (1 << 52) % (1 << 11);
    if exponent == 2047 {
        return None;
    }
    let fraction = bits % (1 << 52);
    let significand = if exponent == 0 {
        fraction
    } else {
        (1 << 52) + fraction
    };
    let number = scaled(significand, exponent.max(1))?;
    signed(bits >= 1 << 63, number)
}

/// The value that a number is: whole, or the hexadecimal digits of its bits, highest first.
pub(crate) fn number_value(alloc: Global, bits: u64) -> Result<ClaimValue, OutOfMemory>
    ensures { IfOk result (λ v. v ≡ number_value bits) }
{
    match whole_number(bits) {
        Some(number) => Ok(ClaimValue::Whole(number)),
        None => {
            let digits = hex::encode(alloc, &bits.to_be_bytes()[..])?;
            Ok(ClaimValue::OtherNumber(Text::new(digits)))
        }
    }
}
