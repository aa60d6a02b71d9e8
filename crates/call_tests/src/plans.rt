//! What classes say of their fields beforehand. How classes are named is said in `classes`.
//!
//! - `plan CLASS` is the plan of event records whose fields have this class, and whose stream event context and event
//!   context have those before it, where there are any: the count of values, of each run its bits and whether a field
//!   follows it, and where a number is kept, or a variant, an array or a text goes by one.

use crate::classes::members_of;
use crate::row::Row;
use ctf_class::{Branch, Branches, Class, Count, Nested, PlannedRun, RecordPlan};

/// Puts what comes of a row of a class.
pub fn put_row(row: &mut Row<'_>) {
    let kind = row.word();
    let members = members_of(row.alloc, row.words);
    match members.as_slice() {
        [fields] => put_plan(row, None, None, &fields.class),
        [stream_context, fields] => put_plan(row, Some(&stream_context.class), None, &fields.class),
        [stream_context, event_context, fields] => {
            put_plan(
                row,
                Some(&stream_context.class),
                Some(&event_context.class),
                &fields.class,
            );
        }
        _ => {}
    }
}

/// Puts the plan of the scopes.
fn put_plan(
    row: &mut Row<'_>,
    stream_context: Option<&Class>,
    event_context: Option<&Class>,
    fields: &Class,
) {
    match RecordPlan::new(row.alloc, stream_context, event_context, fields) {
        Ok(plan) => put_fields(row, &plan),
        Err(_) => row.put(b"no memory"),
    }
}

/// Puts how many values a plan has, and its branches and runs.
pub fn put_fields(row: &mut Row<'_>, plan: &RecordPlan) {
    row.put_number(b"", plan.count as i128);
    row.put(b" values");
    let Branches::Listed(branches) = &plan.branches;
    for branch in branches.as_slice() {
        put_branch(row, branch);
    }
    put_runs(row, plan.runs.as_slice());
}

fn put_branch(row: &mut Row<'_>, branch: &Branch) {
    put_runs(row, branch.runs.as_slice());
    match &branch.nested {
        Nested::Number(_) => row.put(b", a number kept"),
        Nested::Label(_) => row.put(b", a label kept"),
        Nested::Variant(variant) => row.put_number(b", a variant by number ", variant.tag as i128),
        Nested::Array(array) => put_count(row, b", an array", array.count),
        Nested::Text(count) => put_count(row, b", a text", *count),
    }
}

fn put_count(row: &mut Row<'_>, name: &[u8], count: Count) {
    row.put(name);
    match count {
        Count::Fixed(count) => row.put_number(b" of ", count as i128),
        Count::Kept(place) => row.put_number(b" by number ", place as i128),
    }
}

fn put_runs(row: &mut Row<'_>, runs: &[PlannedRun]) {
    for run in runs {
        put_run(row, run);
    }
}

fn put_run(row: &mut Row<'_>, run: &PlannedRun) {
    row.put_number(b", ", run.span as i128);
    row.put(b" bits");
    if run.field.is_some() {
        row.put(b" and a field");
    }
}
