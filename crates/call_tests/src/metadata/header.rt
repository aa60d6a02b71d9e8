//! How event headers are read.

use crate::row::Row;
use ctf_class::{HeaderIntegers, HeaderNumber, HeaderPlan};

/// Puts how event headers are read: by values; or by a plan, with the first choice of its tag, where it has one, and
/// then of the usual integers and of the others, where there are any, their bits and the bits before them, the count of
/// values, and how far after their begin the class number and the clock are.
pub fn put_plan(row: &mut Row<'_>, plan: Option<&HeaderPlan>) {
    let Some(plan) = plan else {
        return row.put(b" by values");
    };
    row.put(b" by plan");
    if let Some(tag) = &plan.tag {
        row.put_number(b" ", tag.first as i128);
        row.put_number(b"..", tag.last as i128);
    }
    put_integers(row, &plan.usual);
    if let Some(other) = &plan.other {
        put_integers(row, other);
    }
}

fn put_integers(row: &mut Row<'_>, integers: &HeaderIntegers) {
    row.put_number(b": ", integers.span as i128);
    row.put_number(b" bits after ", integers.skipped as i128);
    row.put_number(b", ", integers.values as i128);
    row.put(b" values");
    put_distance(row, b", id at ", &integers.id);
    put_distance(row, b", clock at ", &integers.stamp);
}

fn put_distance(row: &mut Row<'_>, lead: &[u8], number: &Option<HeaderNumber>) {
    if let Some(number) = number {
        row.put_number(lead, number.distance as i128);
    }
}
