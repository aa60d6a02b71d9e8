//! Labels of which no two cover one number.

ghost use Rattle.std.specs.Prelude.{◌≡◌, ◌<◌, length, IsTrue, IfOk, IfSome};
ghost use Rattle.std.specs.List.{range_with_len};
ghost use Rattle.std.specs.List.Sorted.{IsPermutation};
ghost use Rattle.ctf_class.specs.Labels.{FindsNext};
ghost use Rattle.ctf_class.specs.LabelSearch.{AreApart, FindsRanked, IsRanked};
ghost use Rattle.ctf_class.specs.Ranks.{HasRanks};

use crate::label_at::{number_at, span_at};
use crate::likely::{rank_after, rank_before};
use crate::span::Label;
use ctf_list::{List, NoMemory};
use std::alloc::Global;

/// The places of labels in the order of their first numbers.
pub fn sorted_places(alloc: Global, labels: &[Label]) -> Result<List<usize>, NoMemory>
    ensures { IfOk result (λ order. IsPermutation (range_with_len 0 (length labels.now)) order) }
{
    let mut places = places_of(alloc, labels.len())?;
    places
        .as_mut_slice()
        .sort_unstable_by_key(|place| span_at(labels, *place).first);
    Ok(List::from_vec(places))
}

/// The first `count` places, in their order.
pub fn places_of(alloc: Global, count: usize) -> Result<Vec<usize>, NoMemory>
    ensures { IfOk result (λ places. places.items ≡ range_with_len 0 count) }
{
    let mut places = Vec::with_capacity(alloc, count)?;
    for place in 0..count {
        places.push(place)?;
    }
    Ok(places)
}

/// Whether the numbers of labels are one after the other in an order of the labels.
pub fn are_apart(labels: &[Label], order: &[usize]) -> bool
    ensures { IsTrue result → AreApart labels.now order.now (length labels.now) }
{
    let mut before = i128::MIN;
    for rank in 0..labels.len() {
        let span = span_at(labels, number_at(order, rank, rank));
        if !span.is_above(before) {
            return false;
        }
        before = span.last;
    }
    true
}

/// The place of the first label from a place on that covers a number. No walk is needed.
pub fn next_apart(labels: &[Label], order: &[usize], begin: usize, number: i128) -> Option<usize>
    requires apart { AreApart labels.now order.now (length labels.now) }
    requires ranks { HasRanks labels.now order.now }
    ensures { FindsNext labels.now number begin result }
{
    if begin > 0 && span_at(labels, begin - 1).covers(number) {
        return None;
    }
    let place = ranked_label(labels, order, labels.len(), number)?;
    if place < begin {
        return None;
    }
    Some(place)
}

/// The place of the only label that covers a number. Mostly it is where it probably is: then no call is needed.
#[inline(always)]
pub fn first_apart(labels: &[Label], order: &[usize], number: i128) -> Option<usize>
    requires apart { AreApart labels.now order.now (length labels.now) }
    requires ranks { HasRanks labels.now order.now }
    ensures { FindsNext labels.now number 0 result }
{
    match likely_label(labels, order, labels.len(), number) {
        Some(place) => Some(place),
        None => first_halved(labels, order, number),
    }
}

/// The place of the only label that covers a number, found by halving.
#[inline(never)]
fn first_halved(labels: &[Label], order: &[usize], number: i128) -> Option<usize>
    requires apart { AreApart labels.now order.now (length labels.now) }
    requires ranks { HasRanks labels.now order.now }
    ensures { FindsNext labels.now number 0 result }
{
    halved_label(labels, order, labels.len(), number)
}

/// The place of the label that covers a number, among the labels of the first `count` ranks. Mostly it is where it
/// probably is; else it is found by halving.
#[inline(always)]
pub fn ranked_label(labels: &[Label], order: &[usize], count: usize, number: i128) -> Option<usize>
    requires { AreApart labels.now order.now count }
    ensures { FindsRanked labels.now order.now count number result }
{
    match likely_label(labels, order, count, number) {
        Some(place) => Some(place),
        None => halved_label(labels, order, count, number),
    }
}

/// The place of the label that covers a number, if it is as far from the first label, or from the last one, as the
/// number is from theirs.
#[inline(always)]
fn likely_label(labels: &[Label], order: &[usize], count: usize, number: i128) -> Option<usize>
    requires { AreApart labels.now order.now count }
    ensures { IfSome result (IsRanked labels.now order.now count number) }
{
    if count == 0 {
        return None;
    }
    let first = span_at(labels, number_at(order, 0, 0)).first;
    let rank = rank_after(first, number, count)?;
    if let Some(place) = label_of_rank(labels, order, count, rank, number) {
        return Some(place);
    }
    let last = span_at(labels, number_at(order, count - 1, count - 1)).last;
    let other = rank_before(last, number, count);
    label_of_rank(labels, order, count, other, number)
}

/// The place of the label of a rank, one of the first `count`, if it covers a number.
#[inline(always)]
fn label_of_rank(
    labels: &[Label],
    order: &[usize],
    count: usize,
    rank: usize,
    number: i128,
) -> Option<usize>
    requires apart { AreApart labels.now order.now count }
    requires within { rank < count }
    ensures { IfSome result (IsRanked labels.now order.now count number) }
{
    let place = number_at(order, rank, rank);
    if span_at(labels, place).covers(number) {
        Some(place)
    } else {
        None
    }
}

/// The place of the label that covers a number, among the labels of the first `count` ranks, found by halving.
#[inline(always)]
fn halved_label(labels: &[Label], order: &[usize], count: usize, number: i128) -> Option<usize>
    requires { AreApart labels.now order.now count }
    ensures { FindsRanked labels.now order.now count number result }
{
    let mut low = 0;
    let mut high = count;
    while low < high {
        let middle = low + (high - low) / 2;
        let place = number_at(order, middle, middle);
        let span = span_at(labels, place);
        if number < span.first {
            high = middle;
        } else if span.last < number {
            low = middle + 1;
        } else {
            return Some(place);
        }
    }
    None
}
