//! Stamps of moments, and beginnings of lines.
//!
//! A style is a word for the clock, `time`, `date`, `seconds` or `cycles`, and a zone. Times are in nanoseconds since
//! the epoch.
//!
//! - `stamp CLOCK ZONE TIME` is the stamp of a moment whose clock is at 134217727.
//! - `lines CLOCK ZONE DELTA TIMES` is how lines of these times begin one after the other, from one stamper, at the
//!   largest value of the clock. DELTA is `delta` where they have the time since the line before.
//! - `appended CLOCK ZONE DELTA TIME LAST` is how a line begins that follows a line of another time.

use crate::row::Row;
use crate::zones::zone_of;
use ctf_clock::Moment;
use ctf_timestamp::{ClockStyle, MOST_PART, Stamper, Style, append_part, append_stamp};

/// Puts what comes of a row of stamps.
pub fn put_row(row: &mut Row<'_>) {
    let kind = row.word();
    let clock = clock_of(row.word());
    if let Some(zone) = zone_of(row.alloc, row.word()) {
        let delta = kind != "stamp" && row.word() == "delta";
        let style = Style { clock, zone, delta };
        match kind {
            "stamp" => put_stamp(row, &style),
            "appended" => put_appended(row, &style),
            _ => put_lines(row, &mut Stamper::new(style)),
        }
    }
}

fn clock_of(word: &str) -> ClockStyle {
    match word {
        "time" => ClockStyle::Time,
        "date" => ClockStyle::Date,
        "seconds" => ClockStyle::Seconds,
        _ => ClockStyle::Cycles,
    }
}

/// Puts the stamp of a moment.
fn put_stamp(row: &mut Row<'_>, style: &Style) {
    if let Some(time) = time_of(row.word()) {
        let mut text = Vec::new(row.alloc);
        let moment = Moment {
            cycles: 134_217_727,
            time,
        };
        let made = append_stamp(&mut text, style, moment);
        row.put_appended(&text, made);
    }
}

/// Puts how lines begin.
fn put_lines(row: &mut Row<'_>, stamper: &mut Stamper) {
    let mut last = None;
    for word in row.word().split(',') {
        let time = time_of(word);
        put_part(row, stamper, time, last);
        last = time;
    }
}

/// Puts how one line begins, and a bar after it.
fn put_part(row: &mut Row<'_>, stamper: &mut Stamper, time: Option<i64>, last: Option<i64>) {
    let mut line = [0; MOST_PART];
    let end = stamper.put_part(moment_of(u64::MAX, time), last, &mut line, 0);
    row.put(&line[..end]);
    row.put(b"|");
}

/// Puts how a line begins, and a bar after it.
fn put_appended(row: &mut Row<'_>, style: &Style) {
    let moment = moment_of(0, time_of(row.word()));
    let last = time_of(row.word());
    let mut text = Vec::new(row.alloc);
    let made = append_part(&mut text, style, moment, last);
    row.put_appended(&text, made);
    row.put(b"|");
}

/// The time that a word names, in nanoseconds.
fn time_of(word: &str) -> Option<i64> {
    word.parse::<i64>().ok()
}

/// The moment of a time.
fn moment_of(cycles: u64, time: Option<i64>) -> Option<Moment> {
    match time {
        Some(time) => Some(Moment { cycles, time }),
        None => None,
    }
}
