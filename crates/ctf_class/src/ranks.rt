//! Names of which no two are the same, found by halving.

ghost use Rattle.std.specs.Prelude.{◌≡◌, [], length, get_or, IsTrue, IfOk};
ghost use Rattle.std.specs.Ordering.{nat_cmp};
ghost use Rattle.std.specs.declared.cmp.Ordering.TheVariants.{Less};
ghost use Rattle.std.specs.Cmp.Lexicographic.{slice_cmp};
ghost use Rattle.std.specs.List.{position_from, range_with_len};
ghost use Rattle.std.specs.List.Sorted.{IsPermutation};
ghost use Rattle.std.specs.Str.{bytes_eq};
ghost use Rattle.ctf_class.specs.NameRanks.{IsNext, AreAscending};
ghost use Rattle.ctf_class.specs.Ranks.{HasRanks};

use crate::apart::places_of;
use crate::field_name::FieldName;
use crate::label_at::number_at;
use ctf_list::{List, NoMemory};
use std::alloc::Global;
use std::cmp::Ordering;

/// The places of names in the order of the names.
pub fn ranked_places(alloc: Global, names: &[FieldName]) -> Result<List<usize>, NoMemory>
    ensures { IfOk result (λ order. IsPermutation (range_with_len 0 (length names.now)) order) }
{
    let mut places = places_of(alloc, names.len())?;
    places
        .as_mut_slice()
        .sort_unstable_by_key(|place| name_at(names, *place));
    Ok(List::from_vec(places))
}

/// Whether each name comes before the next one in an order of the names.
pub fn are_ascending(names: &[FieldName], order: &[usize]) -> bool
    ensures { IsTrue result → AreAscending names.now order.now }
{
    for rank in 0..names.len() {
        if !is_next(names, order, rank) {
            return false;
        }
    }
    true
}

/// The place of the name of these bytes.
pub fn place_by_rank(names: &[FieldName], order: &[usize], name: &[u8]) -> Option<usize>
    requires ascending { AreAscending names.now order.now }
    requires ranks { HasRanks names.now order.now }
    ensures { result ≡ position_from (λ word. bytes_eq word name.now) 0 names.now }
{
    let mut low = 0;
    let mut high = names.len();
    while low < high {
        let middle = low + (high - low) / 2;
        let place = number_at(order, middle, middle);
        match name.cmp(&name_at(names, place)) {
            Ordering::Less => high = middle,
            Ordering::Equal => return Some(place),
            Ordering::Greater => low = middle + 1,
        }
    }
    None
}

/// Whether there is a name of a rank, and it comes after that of the rank before.
fn is_next(names: &[FieldName], order: &[usize], rank: usize) -> bool
    ensures { IsTrue result → IsNext names.now order.now rank }
{
    let place = number_at(order, rank, rank);
    if place >= names.len() {
        return false;
    }
    if rank == 0 {
        return true;
    }
    let before = number_at(order, rank - 1, rank - 1);
    comes_before(name_at(names, before), name_at(names, place))
}

/// Whether a name comes before another.
fn comes_before(name: &[u8], other: &[u8]) -> bool
    ensures { IsTrue result → (slice_cmp nat_cmp name.now other.now ≡ Less) }
{
    match name.cmp(&other) {
        Ordering::Less => true,
        Ordering::Equal => false,
        Ordering::Greater => false,
    }
}

/// The name at a place; an empty one where there is none.
fn name_at<'a>(names: &'a [FieldName], place: usize) -> &'a [u8]
    ensures { result.now ≡ get_or names.now place [] }
{
    match names.get(place) {
        Some(name) => name.as_slice(),
        None => &[],
    }
}
