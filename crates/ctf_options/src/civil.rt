//! Civil times that words of a command line write.

ghost use Rattle.std.specs.Prelude.{◌≡◌, ◌<◌, MatchOption, IfSome, IsSomeAnd};
ghost use Rattle.ctf_options.specs.Numbers as numbers;
ghost use Rattle.ctf_options.specs.Times as times;

use crate::number::{halves, number_of};
use crate::time::split_at_dot;
use jiff::civil::DateTime;

/// The parts of a date, as they are written.
#[derive(Clone, Copy)]
pub(crate) struct Day {
    pub(crate) year: u16,
    pub(crate) month: u8,
    pub(crate) day: u8,
}

/// The parts of a time of day, as they are written.
#[derive(Clone, Copy)]
pub(crate) struct TimeOfDay {
    pub(crate) hour: u8,
    pub(crate) minute: u8,
    pub(crate) second: u8,
    pub(crate) nanos: u32,
}

/// The number that two digits write.
fn two(text: &str) -> Option<u8>
    ensures value { result ≡ numbers.number_of 2 text.now }
    ensures bound { IfSome result (λ number. number < 100) }
{
    Some(number_of(2, text)? as u8)
}

/// `YYYY-MM-DD`. Whether the calendar has the date is not looked at.
fn read_day(text: &str) -> Option<Day>
    ensures value { result ≡ times.day_in text.now }
    ensures year { IfSome result (λ day. day.year < 10000) }
    ensures month { IfSome result (λ day. day.month < 100) }
    ensures day { IfSome result (λ day. day.day < 100) }
{
    let (year, rest) = halves(text, '-')?;
    let year = number_of(4, year)? as u16;
    let (month, day) = halves(rest, '-')?;
    let month = two(month)?;
    let day = two(day)?;
    Some(Day { year, month, day })
}

/// `hh:mm`, `hh:mm:ss` or `hh:mm:ss.F`. Whether a clock shows the time is not looked at.
fn read_clock(text: &str) -> Option<TimeOfDay>
    ensures value { result ≡ times.clock_in text.now }
    ensures hour { IfSome result (λ clock. clock.hour < 100) }
    ensures minute { IfSome result (λ clock. clock.minute < 100) }
    ensures second { IfSome result (λ clock. clock.second < 100) }
    ensures nanos { IfSome result (λ clock. clock.nanos < 1000000000) }
{
    let (hour, rest) = halves(text, ':')?;
    let hour = two(hour)?;
    let Some((minute, rest)) = halves(rest, ':') else {
        let minute = two(rest)?;
        return Some(TimeOfDay {
            hour,
            minute,
            second: 0,
            nanos: 0,
        });
    };
    let minute = two(minute)?;
    let (second, nanos) = split_at_dot(rest)?;
    let second = two(second)?;
    Some(TimeOfDay {
        hour,
        minute,
        second,
        nanos,
    })
}

/// A date and a time of day, with a space between them. `None` where the text has another form, and
/// where there is no such date or time of day.
pub(crate) fn civil(text: &str) -> Option<DateTime>
    ensures { MatchOption result (IfSome (times.civil_in text.now) (λ civil. times.IsCivil civil →
        ⊥))
        (λ time. IsSomeAnd (times.civil_in text.now) (λ civil. times.HasParts civil time)) }
{
    let (date, time) = halves(text, ' ')?;
    let day = read_day(date)?;
    let clock = read_clock(time)?;
    DateTime::new(
        day.year as i16,
        day.month as i8,
        day.day as i8,
        clock.hour as i8,
        clock.minute as i8,
        clock.second as i8,
        clock.nanos as i32,
    )
    .ok()
}
