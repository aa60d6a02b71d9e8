//! Time zones: `utc`, or a rule.
//!
//! - `zone RULE` is whether a text is a rule.
//! - `instant ZONE YEAR MONTH DAY HOUR MINUTE` is the instant of a civil time, in nanoseconds since the epoch.

use crate::row::Row;
use ctf_timestamp::{Zone, ZoneFault};
use jiff::civil::DateTime;
use std::alloc::Global;

/// Puts what comes of a row of zones.
pub fn put_row(row: &mut Row<'_>) {
    if row.word() == "zone" {
        let answer = answer_of(row.alloc, row.word());
        row.put(answer);
    } else if let Some(zone) = zone_of(row.alloc, row.word()) {
        put_instant(row, &zone);
    }
}

/// The zone that a word names.
pub fn zone_of(alloc: Global, word: &str) -> Option<Zone> {
    match word {
        "utc" => Some(Zone::utc()),
        _ => Zone::rule(alloc, word).ok(),
    }
}

/// Whether a text is a rule.
fn answer_of(alloc: Global, text: &str) -> &'static [u8] {
    match Zone::rule(alloc, text) {
        Ok(_) => b"rule",
        Err(ZoneFault::Bad) => b"bad",
        Err(ZoneFault::NoMemory) => b"no memory",
    }
}

/// Puts the instant of the civil time that words name.
fn put_instant(row: &mut Row<'_>, zone: &Zone) {
    let year = row.word().parse::<i16>().unwrap_or(0);
    let month = part_of(row);
    let day = part_of(row);
    let hour = part_of(row);
    let minute = part_of(row);
    if let Ok(civil) = DateTime::new(year, month, day, hour, minute, 0, 0) {
        match zone.instant(row.alloc, civil) {
            Ok(Some(instant)) => row.put_number(b"", instant as i128),
            Ok(None) => row.put(b"none"),
            Err(_) => row.put(b"no memory"),
        }
    }
}

fn part_of(row: &mut Row<'_>) -> i8 {
    row.word().parse::<i8>().unwrap_or(0)
}
