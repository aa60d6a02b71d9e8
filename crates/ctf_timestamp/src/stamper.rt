//! Stamps that are written into a slice.

ghost use Rattle.std.specs.Prelude.{◌≡◌, ◌+◌, ◌<◌, ◌≤◌, ◌++◌, length, codes, take, IfSome, Some};
ghost use Rattle.ctf_timestamp.specs.Digits.{last_digits};
ghost use Rattle.ctf_timestamp.specs.Putting.{IsPut};
ghost use Rattle.ctf_timestamp.specs.Stamps.{stamp, stamp_part, delta_part, delta_text, signed_seconds, fraction, head_at};
ghost use Rattle.ctf_timestamp.specs.Civil.{second_of, within_second};
ghost use Rattle.ctf_timestamp.specs.Zones.{civil_at};

use crate::civil::{MOST_HEAD, put_head};
use crate::digits::{
    put_byte, put_bytes, put_fraction, put_nine, put_seconds, put_twenty, put_two,
};
use crate::style::{ClockStyle, Style};
use ctf_clock::Moment;
use std::marker::Model;

/// The room that a stamp may need, in bytes.
pub const MOST_STAMP: usize = 32;

/// The room that the beginning of a line may need, in bytes: `[`, a stamp and its end take 69 at the most, rounded up
/// to words of eight.
pub const MOST_PART: usize = 72;

/// The room that what follows a stamp may need, in bytes: `] (`, a time since another and `) `.
const MOST_END: usize = 36;

/// A bound of the bytes of seconds with a sign: the sign, 20 digits, a dot and nine digits.
const MOST_SIGNED: usize = 31;

/// The room that seconds with a sign need while they are written: their last digits come as a word of four bytes.
const SIGNED_ROOM: usize = 32;

/// The bytes of `hh:mm:ss`.
const CLOCK: usize = 8;

/// Nanoseconds in a second.
const SECOND: i64 = 1_000_000_000;

/// The last nanosecond of a second, at which a rule's offset can be another one.
const LAST_NANO: u32 = 999_999_999;

/// Writes stamps in one style. It keeps the text of the second it wrote last, so that stamps within one
/// second need no calendar. Contracts see the style alone.
#[derive(Drop)]
pub struct Stamper {
    style: Style,
    // The start of the second that is kept, in nanoseconds since the epoch.
    start: Option<i64>,
    // What the style shows of it before the dot.
    text: [u8; MOST_HEAD],
    length: usize,
}

/// A stamp that needs no calendar.
#[derive(Drop)]
struct KeptStamp {
    // `hh:mm:ss`, and what may come after it.
    text: [u8; MOST_HEAD],
    nanos: u32,
}

impl Model for Stamper {
    ghost use Rattle.std.specs.Prelude.{◌≡◌, ◌≤◌, IfSome, take};
    ghost use Rattle.ctf_timestamp.specs.declared.style.Style.{Style as PlainStyle};
    ghost use Rattle.ctf_timestamp.specs.declared.civil.TheConstants.{MOST_HEAD};
    ghost use Rattle.ctf_timestamp.specs.Civil.{second_of, within_second};
    ghost use Rattle.ctf_timestamp.specs.Stamps.{IsHeadOf};

    ghost Value = { PlainStyle };

    ghost view = { λ stamper. stamper.style };

    ghost invariant = { λ stamper. (stamper.length ≤ MOST_HEAD)
        × IfSome stamper.start (λ start. (within_second start ≡ 0)
        × IsHeadOf stamper.style (second_of start) (take stamper.length stamper.text)) };
}

impl Stamper {
    /// A stamper that writes in this style.
    pub fn new(style: Style) -> Stamper
        ensures { result ≡ style }
    {
        Stamper {
            style,
            start: None,
            text: [0; MOST_HEAD],
            length: 0,
        }
    }

    /// Writes the stamp of a moment at an index, and gives the index after it.
    #[inline(always)]
    pub fn put_stamp(&mut self, moment: Moment, line: &mut [u8], at: usize) -> usize
        requires { at + MOST_STAMP ≤ length line.old }
        ensures put { IsPut line.old line.new at result (stamp self.old moment) }
        ensures short { result ≤ at + MOST_STAMP }
        ensures style { self.new ≡ self.old }
    {
        match self.style.clock {
            ClockStyle::Time | ClockStyle::Date => self.put_civil(moment.time, line, at),
            ClockStyle::Seconds => put_signed(moment.time, line, at),
            ClockStyle::Cycles => put_twenty(moment.cycles, line, at),
        }
    }

    /// Writes the stamp of a time in a civil style.
    #[inline(always)]
    fn put_civil(&mut self, time: i64, line: &mut [u8], at: usize) -> usize
        requires { at + MOST_STAMP ≤ length line.old }
        ensures put { IsPut line.old line.new at result
            (head_at self.old.clock (second_of (civil_at self.old.zone time)) ++ fraction
            (civil_at self.old.zone time)) }
        ensures short { result ≤ at + MOST_STAMP }
        ensures style { self.new ≡ self.old }
    {
        if let Some(start) = self.start {
            if let Some(nanos) = nanos_within(start, time) {
                return put_second(&self.text[..self.length], nanos, line, at);
            }
        }
        let nanos = nanos_of(time);
        self.length = put_head(&self.style, time, &mut self.text, 0);
        self.start = start_to_keep(nanos, time);
        put_second(&self.text[..self.length], nanos, line, at)
    }

    /// Writes the beginning of a line at an index, and gives the index after it: the stamp of the line's moment in
    /// brackets and, where the style has it, the time since `last` in parentheses, which is in nanoseconds since the
    /// epoch. A `last` after the moment is printed as one that is as far before it, with `+`. Nothing for a line
    /// without a moment.
    #[inline(always)]
    pub fn put_part(
        &mut self,
        moment: Option<Moment>,
        last: Option<i64>,
        line: &mut [u8],
        at: usize,
    ) -> usize
        requires { at + MOST_PART ≤ length line.old }
        ensures put { IsPut line.old line.new at result (stamp_part self.old moment last) }
        ensures short { result ≤ at + MOST_PART }
        ensures style { self.new ≡ self.old }
    {
        let Some(moment) = moment else {
            return at;
        };
        let Some(kept) = self.stamp_if_kept(moment) else {
            return self.put_any_part(moment, last, line, at);
        };
        let at = put_byte(b'[', line, at);
        let at = put_bytes(&kept.text[..CLOCK], line, at);
        let at = put_fraction(kept.nanos, line, at);
        self.put_end(last, moment.time, line, at)
    }

    /// The stamp of a moment, if the style shows `hh:mm:ss` alone before the dot and its second is the one that is
    /// kept.
    #[inline(always)]
    fn stamp_if_kept(&self, moment: Moment) -> Option<KeptStamp>
        ensures stamp { IfSome result
            (λ kept. take CLOCK kept.text ++ (codes "." ++ last_digits 9 kept.nanos) ≡
            stamp self.now moment) }
        ensures nine { IfSome result (λ kept. kept.nanos < 1000000000) }
    {
        let ClockStyle::Time = self.style.clock else {
            return None;
        };
        let start = self.start?;
        let nanos = nanos_within(start, moment.time)?;
        let text = self.text;
        Some(KeptStamp { text, nanos })
    }

    /// The beginning of a line with any stamp. It is apart, so that the usual one stays short in its callers.
    #[cold]
    #[inline(never)]
    fn put_any_part(
        &mut self,
        moment: Moment,
        last: Option<i64>,
        line: &mut [u8],
        at: usize,
    ) -> usize
        requires { at + MOST_PART ≤ length line.old }
        ensures put { IsPut line.old line.new at result (stamp_part self.old (Some moment) last) }
        ensures short { result ≤ at + MOST_PART }
        ensures style { self.new ≡ self.old }
    {
        let at = put_byte(b'[', line, at);
        let at = self.put_stamp(moment, line, at);
        self.put_end(last, moment.time, line, at)
    }

    /// Writes what follows a stamp.
    #[inline(always)]
    #[tactic(auto, using(crate::proofs::Groups::digits_long))]
    fn put_end(&self, last: Option<i64>, time: i64, line: &mut [u8], at: usize) -> usize
        requires { at + MOST_END ≤ length line.old }
        ensures put { IsPut line.old line.new at result
            (codes "] " ++ delta_part self.now last time) }
        ensures short { result ≤ at + MOST_END }
    {
        if !self.style.delta {
            return put_two(b']', b' ', line, at);
        }
        let Some(since) = short_since(last, time) else {
            return put_any_delta(last, time, line, at);
        };
        // An array of its own, of which the compiler knows that it is no part of the line.
        let begin = *b"] (+0.";
        let at = put_bytes(&begin, line, at);
        let at = put_nine(since, line, at);
        put_two(b')', b' ', line, at)
    }
}

/// The time since the one before, in nanoseconds, if it is below a second. It takes neither a division nor a product.
#[inline(always)]
fn short_since(last: Option<i64>, time: i64) -> Option<u32>
    ensures text { IfSome result (λ nanos. delta_text last time ≡
        codes "+0." ++ last_digits 9 nanos) }
    ensures nine { IfSome result (λ nanos. nanos < 1000000000) }
{
    let before = last?;
    if time < before {
        return None;
    }
    let nanos = time.abs_diff(before);
    if nanos >= SECOND.unsigned_abs() {
        return None;
    }
    Some(nanos as u32)
}

/// Writes what follows a stamp in a style with any time since the one before.
#[cold]
#[inline(never)]
fn put_any_delta(last: Option<i64>, time: i64, line: &mut [u8], at: usize) -> usize
    requires { at + MOST_END ≤ length line.old }
    ensures put { IsPut line.old line.new at result
        (codes "] (" ++ (delta_text last time ++ codes ") ")) }
    ensures short { result ≤ at + MOST_END }
{
    let at = put_bytes(b"] (", line, at);
    let at = put_delta(last, time, line, at);
    put_two(b')', b' ', line, at)
}

/// Writes what is kept of a second, and then its nanoseconds.
#[inline(always)]
#[tactic(auto, using(crate::proofs::Groups::digits_long))]
fn put_second(head: &[u8], nanos: u32, line: &mut [u8], at: usize) -> usize
    requires short { length head.now ≤ MOST_HEAD }
    requires nine { nanos < 1000000000 }
    requires room { at + MOST_STAMP ≤ length line.old }
    ensures put { IsPut line.old line.new at result
        (head.now ++ (codes "." ++ last_digits 9 nanos)) }
    ensures short { result ≤ at + MOST_STAMP }
{
    let at = put_bytes(head, line, at);
    put_fraction(nanos, line, at)
}

/// The nanoseconds of a time after the start of a second, if it lies in that second and is not its last nanosecond.
/// It takes neither a division nor a product.
#[inline(always)]
fn nanos_within(start: i64, time: i64) -> Option<u32>
    requires { within_second start ≡ 0 }
    ensures second { IfSome result (λ _. second_of time ≡ second_of start) }
    ensures nanos { IfSome result (λ n. n ≡ within_second time) }
    ensures early { IfSome result (λ n. n < 999999999) }
{
    if time < start {
        return None;
    }
    let nanos = time.abs_diff(start);
    if nanos >= u64::from(LAST_NANO) {
        return None;
    }
    Some(nanos as u32)
}

/// The nanoseconds of a time after the start of its second.
fn nanos_of(time: i64) -> u32
    ensures nanos { result ≡ within_second time }
    ensures below { result < 1000000000 }
{
    time.rem_euclid(SECOND) as u32
}

/// The start of the second of a time, so many nanoseconds before it. None at the second's last nanosecond, whose head
/// can be another one, and where the start is no number of 64 bits.
fn start_to_keep(nanos: u32, time: i64) -> Option<i64>
    requires { nanos ≡ within_second time }
    ensures second { IfSome result (λ start. second_of start ≡ second_of time) }
    ensures start { IfSome result (λ start. within_second start ≡ 0) }
    ensures early { IfSome result (λ _. nanos < 999999999) }
{
    if nanos == LAST_NANO {
        return None;
    }
    time.checked_sub(i64::from(nanos))
}

/// Writes the seconds since the epoch.
fn put_signed(time: i64, line: &mut [u8], at: usize) -> usize
    requires { at + SIGNED_ROOM ≤ length line.old }
    ensures put { IsPut line.old line.new at result (signed_seconds time) }
    ensures short { result ≤ at + MOST_SIGNED }
{
    if time < 0 {
        let at = put_byte(b'-', line, at);
        return put_seconds(time.unsigned_abs(), line, at);
    }
    put_seconds(time.unsigned_abs(), line, at)
}

/// Writes the time since the one before.
fn put_delta(last: Option<i64>, time: i64, line: &mut [u8], at: usize) -> usize
    requires { at + SIGNED_ROOM ≤ length line.old }
    ensures put { IsPut line.old line.new at result (delta_text last time) }
    ensures short { result ≤ at + MOST_SIGNED }
{
    let Some(before) = last else {
        return put_bytes(b"+?.?????????", line, at);
    };
    let at = put_byte(b'+', line, at);
    put_seconds(time.abs_diff(before), line, at)
}
