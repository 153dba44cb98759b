//! The values of options.

ghost use Rattle.std.specs.Prelude.{◌≡◌, ◌≤◌, None, map, string_bytes};
ghost use Rattle.std.specs.Option.{option_map, option_copied, ForSome};
ghost use Rattle.spf_program.specs.Pairs.{option_in};
ghost use Rattle.spf_program.specs.Values.{count_in, limit_in, optional_moment_in, ready_in};
ghost use Rattle.spf_program.specs.Values.{seconds_in, text_in};
ghost use Rattle.spf_program.specs.Numbers.{number_in};

use crate::number::{MAX_NUMBER, moment, number_up_to};
use crate::pairs::value_of;
use spf_feed::Ready;

/// A limit: a number, or `none`.
#[tactic(auto, unfolding(crate::specs::Values::limit_in))]
fn limit(text: &str) -> Option<Option<usize>>
    ensures { result ≡ limit_in text.now }
{
    if text == "none" {
        return Some(None);
    }
    Some(Some(number_up_to(MAX_NUMBER, text)? as usize))
}

/// What the first update must hold.
#[tactic(auto, unfolding(crate::specs::Values::ready_in))]
fn ready(text: &str) -> Option<Ready>
    ensures { result ≡ ready_in text.now }
{
    match text {
        "usable" => Some(Ready::Usable),
        "any" => Some(Ready::Any),
        _ => None,
    }
}

/// A number from 1 on.
fn count(text: &str) -> Option<u64>
    ensures value { result ≡ count_in text.now }
    ensures least { ForSome result (λ n. 1 ≤ n) }
{
    match number_up_to(MAX_NUMBER, text)? {
        0 => None,
        count => Some(count),
    }
}

/// Returns the limit that an option sets, by default `absent`.
#[tactic(auto, unfolding(crate::specs::Pairs::option_in))]
pub fn limit_option(
    arguments: &[String],
    option: &str,
    absent: Option<usize>,
) -> Option<Option<usize>>
    ensures { result ≡ option_in limit_in absent option.now (map string_bytes arguments.now) }
{
    match value_of(arguments, option)? {
        None => Some(absent),
        Some(value) => limit(value),
    }
}

/// Returns the text that an option sets, if any.
#[tactic(auto, unfolding(crate::specs::Pairs::option_in))]
pub fn text_option<'a>(arguments: &'a [String], option: &str) -> Option<Option<&'a str>>
    ensures { option_map option_copied result
        ≡ option_in text_in None option.now (map string_bytes arguments.now) }
{
    match value_of(arguments, option)? {
        None => Some(None),
        Some(value) => Some(Some(value)),
    }
}

/// Returns what the first update must hold, by default `absent`.
#[tactic(auto, unfolding(crate::specs::Pairs::option_in))]
pub fn ready_option(arguments: &[String], option: &str, absent: Ready) -> Option<Ready>
    ensures { result ≡ option_in ready_in absent option.now (map string_bytes arguments.now) }
{
    match value_of(arguments, option)? {
        None => Some(absent),
        Some(value) => ready(value),
    }
}

/// Returns the moment that an option sets, if any.
#[tactic(auto, unfolding(crate::specs::Pairs::option_in))]
pub fn moment_option(arguments: &[String], option: &str) -> Option<Option<i64>>
    ensures { result
        ≡ option_in optional_moment_in None option.now (map string_bytes arguments.now) }
{
    match value_of(arguments, option)? {
        None => Some(None),
        Some(value) => Some(Some(moment(value)?)),
    }
}

/// Returns the number that an option sets, by default `absent`.
#[tactic(auto, unfolding(crate::specs::Pairs::option_in))]
pub fn number_option(arguments: &[String], option: &str, absent: u64) -> Option<u64>
    ensures { result ≡ option_in number_in absent option.now (map string_bytes arguments.now) }
{
    match value_of(arguments, option)? {
        None => Some(absent),
        Some(value) => number_up_to(MAX_NUMBER, value),
    }
}

/// Returns the number of seconds that an option sets, if any.
#[tactic(auto, unfolding(crate::specs::Pairs::option_in))]
pub fn seconds_option(arguments: &[String], option: &str) -> Option<Option<u64>>
    ensures { result ≡ option_in seconds_in None option.now (map string_bytes arguments.now) }
{
    match value_of(arguments, option)? {
        None => Some(None),
        Some(value) => Some(Some(number_up_to(MAX_NUMBER, value)?)),
    }
}

/// Returns the number from 1 on that an option sets, by default `absent`.
#[tactic(auto, unfolding(crate::specs::Pairs::option_in))]
pub fn count_option(arguments: &[String], option: &str, absent: u64) -> Option<u64>
    requires { 1 ≤ absent }
    ensures value { result ≡ option_in count_in absent option.now (map string_bytes arguments.now) }
    ensures least { ForSome result (λ n. 1 ≤ n) }
{
    match value_of(arguments, option)? {
        None => Some(absent),
        Some(value) => count(value),
    }
}
