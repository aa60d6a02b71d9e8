//! Civil times that are written into a slice.

ghost use Rattle.std.specs.Prelude.{◌≡◌, ◌+◌, ◌<◌, ◌≤◌, length};
ghost use Rattle.ctf_timestamp.specs.Civil.{shown_date, shown_time, second_of, within_second};
ghost use Rattle.ctf_timestamp.specs.Putting.{IsPut};
ghost use Rattle.ctf_timestamp.specs.Stamps.{head_at, IsHeadOf};
ghost use Rattle.ctf_timestamp.specs.Zones.{civil_at};

use crate::digits::{put_byte, put_four, put_pair};
use crate::style::{ClockStyle, Style};
use jiff_core::civil::{Date, Time};

/// The bytes of the longest head.
pub(crate) const MOST_HEAD: usize = 19;

/// Writes `hh:mm:ss`, 8 bytes.
#[tactic(auto, using(crate::proofs::Groups::digits_long))]
fn put_clock(time: Time, line: &mut [u8], at: usize) -> usize
    requires { at + 8 ≤ length line.old }
    ensures put { IsPut line.old line.new at result (shown_time time) }
    ensures end { result ≡ at + 8 }
{
    let at = put_pair(u32::from(time.hour), line, at);
    let at = put_byte(b':', line, at);
    let at = put_pair(u32::from(time.minute), line, at);
    let at = put_byte(b':', line, at);
    put_pair(u32::from(time.second), line, at)
}

/// Writes `YYYY-MM-DD`, 10 bytes.
#[tactic(auto, using(crate::proofs::Groups::digits_long))]
fn put_date(date: Date, line: &mut [u8], at: usize) -> usize
    requires { at + 10 ≤ length line.old }
    ensures put { IsPut line.old line.new at result (shown_date date) }
    ensures end { result ≡ at + 10 }
{
    let at = put_four(u32::from(date.year.unsigned_abs()), line, at);
    let at = put_byte(b'-', line, at);
    let at = put_pair(u32::from(date.month), line, at);
    let at = put_byte(b'-', line, at);
    put_pair(u32::from(date.day), line, at)
}

/// Writes what a civil style shows of a time before the dot.
#[inline(never)]
pub(crate) fn put_head(style: &Style, time: i64, line: &mut [u8], at: usize) -> usize
    requires { at + MOST_HEAD ≤ length line.old }
    ensures put { IsPut line.old line.new at result
        (head_at style.now.clock (second_of (civil_at style.now.zone time))) }
    ensures short { result ≤ at + MOST_HEAD }
    ensures steady { within_second time < 999999999
        → IsHeadOf style.now (second_of time)
        (head_at style.now.clock (second_of (civil_at style.now.zone time))) }
{
    let civil = style.zone.civil(time).to_plain();
    match style.clock {
        ClockStyle::Date => {
            let at = put_date(civil.date, line, at);
            let at = put_byte(b' ', line, at);
            put_clock(civil.time, line, at)
        }
        ClockStyle::Time | ClockStyle::Seconds | ClockStyle::Cycles => {
            put_clock(civil.time, line, at)
        }
    }
}
