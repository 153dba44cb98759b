//! Times (RFC 5280 section 4.1.2.5), which are in UTC.
ghost use Rattle.std.specs.Prelude.{◌≡◌, ◌-◌, ◌*◌, ◌<◌, ◌≤◌, IfSome, None, Some, nat_lt};
ghost use Rattle.std.specs.Prelude.{if◌then◌else◌};
ghost use Rattle.std.specs.Char.{is_ascii_digit};
ghost use Rattle.std.specs.Option.{option_map};
ghost use Rattle.spf_der.specs.Time as spec;
ghost use Rattle.spf_der.specs.DateTime.{unix_second};
ghost use Rattle.spf_der.specs.Time.{clock_of, moment_of, pair_of, second_time_at};
ghost use Rattle.spf_der.specs.Time.{time_at, unix_of, whole_time_at};

use crate::value::{GENERALIZED_TIME, UTC_TIME, value};
use jiff_core::civil::{self, Date};

/// A date and a second of its day.
#[derive(Clone, Copy, Debug)]
pub struct DateTime {
    pub date: Date,
    pub second: u32,
}

impl DateTime {
    /// Returns the Unix second, by one call of the calendar.
    #[inline(always)]
    pub fn unix_second(&self) -> i64
        ensures { result ≡ unix_second self.now }
    {
        self.date.to_unix_epoch_day() as i64 * 86400 + self.second as i64
    }
}

/// For each octet its number as a digit, or 100, so that a field with it is past every range.
const ONES: [u8; 256] = [
    100, 100, 100, 100, 100, 100, 100, 100, 100, 100, 100, 100, 100, 100, 100, 100, 100, 100, 100,
    100, 100, 100, 100, 100, 100, 100, 100, 100, 100, 100, 100, 100, 100, 100, 100, 100, 100, 100,
    100, 100, 100, 100, 100, 100, 100, 100, 100, 100, 0, 1, 2, 3, 4, 5, 6, 7, 8, 9, 100, 100, 100,
    100, 100, 100, 100, 100, 100, 100, 100, 100, 100, 100, 100, 100, 100, 100, 100, 100, 100, 100,
    100, 100, 100, 100, 100, 100, 100, 100, 100, 100, 100, 100, 100, 100, 100, 100, 100, 100, 100,
    100, 100, 100, 100, 100, 100, 100, 100, 100, 100, 100, 100, 100, 100, 100, 100, 100, 100, 100,
    100, 100, 100, 100, 100, 100, 100, 100, 100, 100, 100, 100, 100, 100, 100, 100, 100, 100, 100,
    100, 100, 100, 100, 100, 100, 100, 100, 100, 100, 100, 100, 100, 100, 100, 100, 100, 100, 100,
    100, 100, 100, 100, 100, 100, 100, 100, 100, 100, 100, 100, 100, 100, 100, 100, 100, 100, 100,
    100, 100, 100, 100, 100, 100, 100, 100, 100, 100, 100, 100, 100, 100, 100, 100, 100, 100, 100,
    100, 100, 100, 100, 100, 100, 100, 100, 100, 100, 100, 100, 100, 100, 100, 100, 100, 100, 100,
    100, 100, 100, 100, 100, 100, 100, 100, 100, 100, 100, 100, 100, 100, 100, 100, 100, 100, 100,
    100, 100, 100, 100, 100, 100, 100, 100, 100, 100, 100, 100, 100, 100, 100, 100, 100, 100, 100,
    100, 100, 100, 100, 100,
];

/// For each octet ten times its number as a digit, or 100.
const TENS: [u8; 256] = [
    100, 100, 100, 100, 100, 100, 100, 100, 100, 100, 100, 100, 100, 100, 100, 100, 100, 100, 100,
    100, 100, 100, 100, 100, 100, 100, 100, 100, 100, 100, 100, 100, 100, 100, 100, 100, 100, 100,
    100, 100, 100, 100, 100, 100, 100, 100, 100, 100, 0, 10, 20, 30, 40, 50, 60, 70, 80, 90, 100,
    100, 100, 100, 100, 100, 100, 100, 100, 100, 100, 100, 100, 100, 100, 100, 100, 100, 100, 100,
    100, 100, 100, 100, 100, 100, 100, 100, 100, 100, 100, 100, 100, 100, 100, 100, 100, 100, 100,
    100, 100, 100, 100, 100, 100, 100, 100, 100, 100, 100, 100, 100, 100, 100, 100, 100, 100, 100,
    100, 100, 100, 100, 100, 100, 100, 100, 100, 100, 100, 100, 100, 100, 100, 100, 100, 100, 100,
    100, 100, 100, 100, 100, 100, 100, 100, 100, 100, 100, 100, 100, 100, 100, 100, 100, 100, 100,
    100, 100, 100, 100, 100, 100, 100, 100, 100, 100, 100, 100, 100, 100, 100, 100, 100, 100, 100,
    100, 100, 100, 100, 100, 100, 100, 100, 100, 100, 100, 100, 100, 100, 100, 100, 100, 100, 100,
    100, 100, 100, 100, 100, 100, 100, 100, 100, 100, 100, 100, 100, 100, 100, 100, 100, 100, 100,
    100, 100, 100, 100, 100, 100, 100, 100, 100, 100, 100, 100, 100, 100, 100, 100, 100, 100, 100,
    100, 100, 100, 100, 100, 100, 100, 100, 100, 100, 100, 100, 100, 100, 100, 100, 100, 100, 100,
    100, 100, 100, 100, 100, 100, 100,
];

/// The number of a digit, or 100.
#[inline(always)]
fn ones(octet: u8) -> u8
    ensures exact { result ≡ (if is_ascii_digit octet then octet - 48 else 100) }
    ensures bound { result ≤ 100 }
{
    ONES[octet as usize]
}

/// Ten times the number of a digit, or 100.
#[inline(always)]
fn tens(octet: u8) -> u8
    ensures exact { result ≡ (if is_ascii_digit octet then (octet - 48) * 10 else 100) }
    ensures bound { result ≤ 100 }
{
    TENS[octet as usize]
}

/// The number that two digits spell, and 100 or more where one is no digit.
#[inline(always)]
fn number(first: u8, second: u8) -> u32
    ensures exact { pair_of first second ≡ (if nat_lt result 100 then Some result else None) }
    ensures bound { result ≤ 200 }
{
    (tens(first) + ones(second)) as u32
}

/// The number that two digits spell.
#[inline(always)]
fn pair(first: u8, second: u8) -> Option<u8>
    ensures exact { result ≡ pair_of first second }
    ensures bound { IfSome result (λ n. n < 100) }
{
    let number = number(first, second);
    if number < 100 {
        Some(number as u8)
    } else {
        None
    }
}

/// Whether the calendar has the day.
#[cold]
#[inline(never)]
fn is_calendar_day(year: u16, month: u32, day: u32) -> bool
    requires { year < 10000 }
    ensures { result ≡ spec.is_day year month day }
{
    let has_month = month >= 1 && month <= 12;
    has_month && day >= 1 && day <= civil::days_in_month(year as i16, month as u8) as u32
}

/// Whether the calendar has the day, which it is not asked up to the 28th, as each month has these.
#[inline(always)]
fn is_day(year: u16, month: u32, day: u32) -> bool
    requires { year < 10000 }
    ensures { result ≡ spec.is_day year month day }
{
    (month >= 1 && month <= 12 && day >= 1 && day <= 28) || is_calendar_day(year, month, day)
}

/// A date and a time of day, if they are valid.
#[inline(always)]
#[tactic(auto, unfolding(crate::specs::Time::moment_of, crate::specs::Time::day_number_of))]
fn moment(year: u16, month: u32, day: u32, hour: u32, minute: u32, second: u32) -> Option<DateTime>
    requires { year < 10000 }
    ensures { option_map unix_second result ≡ moment_of year month day hour minute second }
{
    if hour > 23 || minute > 59 || second > 59 || !is_day(year, month, day) {
        return None;
    }
    let date = Date {
        year: year as i16,
        month: month as u8,
        day: day as u8,
    };
    let second = (hour * 60 + minute) * 60 + second;
    Some(DateTime { date, second })
}

/// `MMDDHHMMSSZ` in that year.
#[inline(always)]
#[tactic(auto, unfolding(crate::specs::Time::clock_of))]
fn clock(year: u16, bytes: &[u8]) -> Option<DateTime>
    requires { year < 10000 }
    ensures { option_map unix_second result ≡ clock_of year bytes.now }
{
    match bytes {
        [m, mm, d, dd, h, hh, n, nn, s, ss, z] => {
            let month = number(*m, *mm);
            let day = number(*d, *dd);
            let hour = number(*h, *hh);
            let minute = number(*n, *nn);
            let second = number(*s, *ss);
            if *z != b'Z' {
                return None;
            }
            moment(year, month, day, hour, minute, second)
        }
        _ => None,
    }
}

/// UTCTime (section 4.1.2.5.1): a year of two digits, from 1950 to 2049.
#[inline(always)]
#[tactic(auto, unfolding(crate::specs::Time::utc_time))]
fn utc_time(contents: &[u8]) -> Option<DateTime>
    ensures { option_map unix_second result ≡ spec.utc_time contents.now }
{
    match contents {
        [y, yy, rest @ ..] => {
            let year = pair(*y, *yy)? as u16;
            clock(if year >= 50 { 1900 + year } else { 2000 + year }, rest)
        }
        _ => None,
    }
}

/// GeneralizedTime (section 4.1.2.5.2): a year of four digits.
#[inline(never)]
#[tactic(auto, unfolding(crate::specs::Time::generalized_time))]
fn generalized_time(contents: &[u8]) -> Option<DateTime>
    ensures { option_map unix_second result ≡ spec.generalized_time contents.now }
{
    match contents {
        [c, cc, y, yy, rest @ ..] => {
            let century = pair(*c, *cc)?;
            let year = pair(*y, *yy)?;
            clock(century as u16 * 100 + year as u16, rest)
        }
        _ => None,
    }
}

/// A Time, by its tag and its contents octets.
#[inline(always)]
fn tagged_time(tag: u8, contents: &[u8]) -> Option<DateTime>
    ensures { option_map unix_second result ≡ unix_of tag contents.now }
{
    match tag {
        UTC_TIME => utc_time(contents),
        GENERALIZED_TIME => generalized_time(contents),
        _ => None,
    }
}

/// Returns the Time at the start of `bytes`, and what follows it.
#[inline(always)]
#[tactic(auto, unfolding(crate::specs::Time::time_at))]
pub fn time(bytes: &[u8]) -> Option<(DateTime, &[u8])>
    ensures { option_map (λ x. (unix_second x.0, x.1.now)) result ≡ time_at bytes.now }
{
    let (tag, contents, rest) = value(bytes)?;
    let moment = tagged_time(tag, contents)?;
    Some((moment, rest))
}

/// The Time that the bytes are, in any form.
#[cold]
#[inline(never)]
fn any_whole_time(bytes: &[u8]) -> Option<i64>
    ensures { result ≡ whole_time_at bytes.now }
{
    let (moment, end) = time(bytes)?;
    if end.is_empty() {
        Some(moment.unix_second())
    } else {
        None
    }
}

/// The Time that the bytes are. A UTCTime takes 15 octets, two of them for its tag and length.
#[inline(always)]
#[tactic(auto, unfolding(crate::specs::Time::time_at, crate::specs::Value::value_at, crate::specs::Value::contents_at, crate::specs::Value::length_at))]
fn whole_time(bytes: &[u8]) -> Option<i64>
    ensures { result ≡ whole_time_at bytes.now }
{
    if bytes.len() != 15 {
        return any_whole_time(bytes);
    }
    match bytes {
        [UTC_TIME, 13, rest @ ..] => {
            let (contents, end) = rest.split_at(13);
            let moment = utc_time(contents)?;
            if end.is_empty() {
                Some(moment.unix_second())
            } else {
                None
            }
        }
        _ => any_whole_time(bytes),
    }
}

/// The second of the two Times that the bytes are, in any form.
#[cold]
#[inline(never)]
fn any_second_time(bytes: &[u8]) -> Option<i64>
    ensures { result ≡ second_time_at bytes.now }
{
    let (_start, rest) = time(bytes)?;
    any_whole_time(rest)
}

/// The second of the two Times that the bytes are, which most often are UTCTimes. It stands apart
/// from its caller, which would lack registers for it.
#[inline(never)]
#[tactic(auto, unfolding(crate::specs::Time::time_at, crate::specs::Value::value_at, crate::specs::Value::contents_at, crate::specs::Value::length_at))]
pub(crate) fn second_time(bytes: &[u8]) -> Option<i64>
    ensures { result ≡ second_time_at bytes.now }
{
    if bytes.len() != 30 {
        return any_second_time(bytes);
    }
    match bytes {
        [UTC_TIME, 13, rest @ ..] => {
            let (contents, rest) = rest.split_at(13);
            let _start = utc_time(contents)?;
            whole_time(rest)
        }
        _ => any_second_time(bytes),
    }
}
