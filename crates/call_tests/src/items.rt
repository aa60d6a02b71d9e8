//! Items found by their numbers.
//!
//! `items NUMBERS NUMBER` is the place of the first item of a number, how many items there are, and the number of the
//! only one.

use crate::row::Row;
use ctf_class::{HasId, Indexed};
use ctf_list::{List, NoMemory};
use std::alloc::Global;

/// A number, and its place.
#[derive(Clone, Copy)]
struct Marked {
    number: u64,
    place: usize,
}

impl HasId for Marked {
    ghost id_of = { λ marked. marked.number };

    fn id(&self) -> u64 {
        self.number
    }
}

/// Puts what comes of a row of items.
pub fn put_row(row: &mut Row<'_>) {
    row.word();
    if let Ok(items) = items_of(row.alloc, row.word()) {
        put_found(row, &items);
    }
}

/// Items of these numbers.
fn items_of(alloc: Global, numbers: &str) -> Result<Indexed<Marked>, NoMemory> {
    let mut items = List::new(alloc);
    for word in numbers.split(',') {
        if let Ok(number) = word.parse::<u64>() {
            let place = items.len();
            items.push(Marked { number, place })?;
        }
    }
    Indexed::new(alloc, items)
}

/// Puts what is found.
fn put_found(row: &mut Row<'_>, items: &Indexed<Marked>) {
    match items.get(row.long()) {
        Some(item) => row.put_number(b"", item.place as i128),
        None => row.put(b"none"),
    }
    row.put_number(b" of ", items.as_slice().len() as i128);
    if let Some(item) = items.only() {
        row.put_number(b", only ", item.number as i128);
        row.put_number(b" at ", item.place as i128);
    }
}
