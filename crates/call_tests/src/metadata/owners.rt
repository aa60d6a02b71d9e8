//! Owners of values, and a type that reaches itself through each of them.

use crate::row::Row;
use ctf_list::{Boxed, List, Shared, Text};
use std::alloc::{AllocError, Global};
use std::rc::Rc;

/// A tree through lists, boxes and shared values.
#[derive(Drop, PartialEq)]
enum OwnerTree {
    Leaf(u8),
    Group(List<OwnerTree>),
    Inner(Boxed<OwnerTree>),
    Common(Shared<OwnerTree>),
}

/// Puts a line for each owner: what it holds, and whether that is what a copy or another holds.
pub fn put_owners(row: &mut Row<'_>) {
    put_tree(row);
    if let Ok(list) = List::from_slice(row.alloc, &[1u8, 2, 3]) {
        put_list(row, list);
    }
    if let Ok(number) = Box::new(row.alloc, 7u8) {
        put_box(row, Boxed::from_box(number));
    }
    if let Ok(number) = Rc::new(row.alloc, 7u8) {
        put_shared(row, Shared::from_rc(number));
    }
    if let Ok(text) = String::from_str(row.alloc, "s0") {
        put_string(row, Text::from_string(text));
    }
}

fn put_tree(row: &mut Row<'_>) {
    let mut shapes = List::new(row.alloc);
    let added = (
        add_three(row.alloc, &mut shapes),
        add_three(row.alloc, &mut shapes),
    );
    if let ((Ok(()), Ok(())), [shape, other]) = (added, shapes.as_slice()) {
        row.put_number(b"tree of ", leaves(shape) as i128);
        row.put_answer(b" leaves, another one: ", shape == other);
        row.put_answer(b", a leaf: ", *shape == OwnerTree::Leaf(1));
        row.put(b"\n");
    }
}

/// Adds three leaves, each under another owner.
fn add_three(alloc: Global, groups: &mut List<OwnerTree>) -> Result<(), AllocError> {
    let mut shapes = List::new(alloc);
    shapes.push(OwnerTree::Leaf(1))?;
    shapes.push(OwnerTree::Inner(Boxed::new(alloc, OwnerTree::Leaf(2))?))?;
    shapes.push(OwnerTree::Common(Shared::new(alloc, OwnerTree::Leaf(3))?))?;
    groups.push(OwnerTree::Group(shapes))
}

/// How many leaves a shape has, up to the last count.
fn leaves(shape: &OwnerTree) -> u64 {
    match shape {
        OwnerTree::Leaf(_) => 1,
        OwnerTree::Inner(inner) => leaves(inner.get()),
        OwnerTree::Common(common) => leaves(common.get()),
        OwnerTree::Group(shapes) => {
            let mut count = 0u64;
            for shape in shapes.as_slice() {
                count = count.saturating_add(leaves(shape));
            }
            count
        }
    }
}

fn put_list(row: &mut Row<'_>, list: List<u8>) {
    row.put_number(b"list of ", list.len() as i128);
    if let Ok(copy) = list.clone() {
        row.put_answer(b", its copy: ", copy == list);
    }
    let nothing: List<u8> = List::from_vec(Vec::new(row.alloc));
    row.put_answer(b", without items: ", list.is_empty());
    row.put_answer(b", another without items: ", nothing.is_empty());
    row.put_answer(b", it: ", list == nothing);
    row.put(b":");
    for item in &list.into_vec() {
        row.put_number(b" ", *item as i128);
    }
    row.put(b"\n");
}

fn put_box(row: &mut Row<'_>, boxed: Boxed<u8>) {
    row.put_number(b"box of ", *boxed.get() as i128);
    if let Ok(copy) = boxed.clone() {
        row.put_answer(b", its copy: ", copy == boxed);
    }
    row.put_number(b", gives ", Box::into_inner(boxed.into_box()) as i128);
    row.put(b"\n");
}

fn put_shared(row: &mut Row<'_>, shared: Shared<u8>) {
    row.put_number(b"shared value of ", *shared.get() as i128);
    if let Ok(copy) = shared.clone() {
        row.put_answer(b", its copy: ", copy == shared);
    }
    let given = Rc::into_inner(shared.into_rc()).unwrap_or(0);
    row.put_number(b", gives ", given as i128);
    row.put(b"\n");
}

fn put_string(row: &mut Row<'_>, text: Text) {
    row.put(b"text of ");
    row.put(text.as_str().as_bytes());
    if let Ok(copy) = text.clone() {
        row.put_answer(b", its copy: ", copy == text);
    }
    row.put(b", gives ");
    row.put(text.into_string().as_str().as_bytes());
    row.put(b"\n");
}
