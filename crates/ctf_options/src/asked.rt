//! What the values of options ask for.

ghost use Rattle.std.specs.Prelude.{◌≡◌, MatchOption, MatchResult, None, Some, option_map, ok_or};
ghost use Rattle.ctf_options.specs.Asked as asked;

use crate::number::{halves, integer};
use crate::time::instant;
use crate::usage::Usage;
use ctf_clock::Shift;
use ctf_timestamp::{ClockStyle, Trim, Zone, ZoneFault};
use std::alloc::Global;

/// UTC, or the zone of a POSIX rule.
pub(crate) fn zone_of(alloc: Global, gmt: bool, rule: Option<&str>) -> Result<Zone, Usage>
    ensures { MatchResult result (asked.IsZone gmt (asked.given rule.entry))
        (λ usage. (usage ≡ Usage.Bad) × asked.IsNoZone gmt (asked.given rule.entry)) }
{
    let Some(rule) = rule else {
        return Ok(Zone::utc());
    };
    if gmt {
        return Err(Usage::Bad);
    }
    match Zone::rule(alloc, rule) {
        Ok(zone) => Ok(zone),
        Err(ZoneFault::Bad) => Err(Usage::Bad),
        Err(ZoneFault::NoMemory) => Err(Usage::NoMemory),
    }
}

/// The clock style that the options ask for. It fails where they ask for more than one.
pub(crate) fn clock_of(cycles: bool, date: bool, seconds: bool) -> Result<ClockStyle, Usage>
    ensures { result ≡ ok_or (asked.clock_of cycles date seconds) Usage.Bad }
{
    match (cycles, date, seconds) {
        (true, false, false) => Ok(ClockStyle::Cycles),
        (false, true, false) => Ok(ClockStyle::Date),
        (false, false, true) => Ok(ClockStyle::Seconds),
        (false, false, false) => Ok(ClockStyle::Time),
        _ => Err(Usage::Bad),
    }
}

/// The number that a text writes, and 0 where there is no text.
fn integer_or_zero(text: Option<&str>) -> Option<i64>
    ensures { result ≡ asked.integer_or_zero (asked.given text.entry) }
{
    match text {
        Some(text) => integer(text),
        None => Some(0),
    }
}

/// The seconds and the nanoseconds that are added to each time.
pub(crate) fn shift_of(seconds: Option<&str>, nanos: Option<&str>) -> Result<Shift, Usage>
    ensures { result ≡ ok_or (asked.shift_of (asked.given seconds.entry) (asked.given nanos.entry))
        Usage.Bad }
{
    let (Some(seconds), Some(nanos)) = (integer_or_zero(seconds), integer_or_zero(nanos)) else {
        return Err(Usage::Bad);
    };
    Ok(Shift { seconds, nanos })
}

/// What is within brackets, where the text begins with one.
fn text_in_brackets(text: &str) -> Option<&str>
    ensures { option_map (λ text. text.now) result ≡ asked.unbracketed text.now }
{
    match text.strip_prefix('[') {
        Some(rest) => rest.strip_suffix(']'),
        None => Some(text),
    }
}

/// The texts of both ends of a range.
fn range(text: &str) -> Option<(&str, &str)>
    ensures { MatchOption result (asked.range_in text.now ≡ None)
        (λ parts. asked.range_in text.now ≡ Some (parts.0.now, parts.1.now)) }
{
    halves(text_in_brackets(text)?, ',')
}

/// The instant that a text names, where there is a text.
fn end_of(alloc: Global, zone: &Zone, text: Option<&str>) -> Result<Option<i64>, Usage>
    ensures { MatchResult result (asked.IsEnd zone.now (asked.given text.entry))
        (λ usage. (usage ≡ Usage.Bad) × asked.IsNoEnd zone.now (asked.given text.entry)) }
{
    match text {
        Some(text) => Ok(Some(instant(alloc, zone, text)?)),
        None => Ok(None),
    }
}

/// The span between two ends.
fn span(alloc: Global, zone: &Zone, begin: Option<&str>, end: Option<&str>) -> Result<Trim, Usage>
    ensures { MatchResult result
        (asked.IsSpan zone.now (asked.given begin.entry, asked.given end.entry))
        (λ usage. (usage ≡ Usage.Bad)
        × asked.IsNoSpan zone.now (asked.given begin.entry, asked.given end.entry)) }
{
    let begin = end_of(alloc, zone, begin)?;
    let end = end_of(alloc, zone, end)?;
    if let (Some(begin), Some(end)) = (begin, end) {
        if end < begin {
            return Err(Usage::Bad);
        }
    }
    Ok(Trim { begin, end })
}

/// The span that begin and end, or a range, ask for.
pub(crate) fn trim_of(
    alloc: Global,
    zone: &Zone,
    begin: Option<&str>,
    end: Option<&str>,
    both: Option<&str>,
) -> Result<Trim, Usage>
    ensures { MatchResult result
        (asked.IsTrim zone.now (asked.given begin.entry) (asked.given end.entry)
        (asked.given both.entry))
        (λ usage. (usage ≡ Usage.Bad) × asked.IsNoTrim zone.now (asked.given begin.entry)
        (asked.given end.entry) (asked.given both.entry)) }
{
    let Some(both) = both else {
        return span(alloc, zone, begin, end);
    };
    if begin.is_some() || end.is_some() {
        return Err(Usage::Bad);
    }
    let Some((begin, end)) = range(both) else {
        return Err(Usage::Bad);
    };
    span(alloc, zone, Some(begin), Some(end))
}
