//! Points in time that words of a command line name.

ghost use Rattle.std.specs.Prelude.{◌≡◌, ◌<◌, ◌^◌, MatchOption, MatchResult, None, Some, IfSome};
ghost use Rattle.ctf_options.specs.Times as times;

use crate::civil::civil;
use crate::number::{halves, number, number_of, sign, signed};
use crate::usage::Usage;
use ctf_timestamp::Zone;
use std::alloc::Global;

/// The digits after a dot, at most: they count nanoseconds.
const MOST_DIGITS: usize = 9;

/// Nanoseconds in a second.
const SECOND: u128 = 1_000_000_000;

/// The nanoseconds that the digits after a dot write.
fn fraction(digits: &str) -> Option<u32>
    ensures value { result ≡ times.fraction_in digits.now }
    ensures bound { IfSome result (λ nanos. nanos < 1000000000) }
{
    if digits.len() > MOST_DIGITS {
        return None;
    }
    let number = number_of(digits.len(), digits)?;
    let scale = 10u64.pow((MOST_DIGITS - digits.len()) as u32);
    Some((number * scale) as u32)
}

/// What is before a dot, and the nanoseconds after it. A text may have no dot.
pub(crate) fn split_at_dot(text: &str) -> Option<(&str, u32)>
    ensures value { MatchOption result (times.dotted text.now ≡ None)
        (λ parts. times.dotted text.now ≡ Some (parts.0.now, parts.1)) }
    ensures bound { IfSome result (λ parts. parts.1 < 1000000000) }
{
    match halves(text, '.') {
        Some((before, digits)) => Some((before, fraction(digits)?)),
        None => Some((text, 0)),
    }
}

/// The nanoseconds of a number of seconds, with or without a fraction.
fn nanos(text: &str) -> Option<u128>
    ensures value { result ≡ times.nanos_in text.now }
    ensures bound { IfSome result (λ nanos. nanos < 2 ^ 100) }
{
    let (seconds, nanos) = split_at_dot(text)?;
    Some(u128::from(number(seconds)?) * SECOND + u128::from(nanos))
}

/// The nanoseconds of a number of seconds with a sign. `None` where it has another form, or more than
/// 64 bits.
fn seconds(text: &str) -> Option<i64>
    ensures { result ≡ times.seconds_in text.now }
{
    let (is_negative, digits) = sign(text);
    signed(is_negative, nanos(digits)?)
}

/// The instant that a text names: seconds, or a civil time in the zone.
pub(crate) fn instant(alloc: Global, zone: &Zone, text: &str) -> Result<i64, Usage>
    ensures { MatchResult result (times.Names zone.now text.now)
        (λ usage. (usage ≡ Usage.Bad) × times.NamesNone zone.now text.now) }
{
    if let Some(instant) = seconds(text) {
        return Ok(instant);
    }
    let Some(civil) = civil(text) else {
        return Err(Usage::Bad);
    };
    zone.instant(alloc, civil)?.ok_or(Usage::Bad)
}
