//! The places of items, by the items' numbers.

ghost use Rattle.std.specs.Prelude.{◌≡◌, ◌==◌, ◌<◌, ℕ, None, get_or, length, IfOk};
ghost use Rattle.std.specs.Ordering.{nat_cmp};
ghost use Rattle.std.specs.List.{position_from};
ghost use Rattle.std.specs.BTreeMap.{get};
ghost use Rattle.ctf_class.specs.Places.{sorted_place};

use crate::indexed::HasId;
use ctf_list::{List, NoMemory};
use std::alloc::Global;
use std::collections::BTreeMap;

/// So many numbers more than the items have places in a list.
const FEW: usize = 64;

/// The place of the first item of each number. Mostly numbers are not far above how many items there are, so those have
/// their places in a list.
#[derive(Drop)]
pub(crate) struct SortedPlaces {
    /// Of each number below the list's length.
    pub(crate) near: List<Option<usize>>,
    /// Of each number.
    pub(crate) all: BTreeMap<u64, usize>,
}

impl SortedPlaces {
    /// The places of some items. Of `n` items, takes time like `n` times its logarithm, and memory like `n`.
    pub(crate) fn of<T: HasId>(alloc: Global, items: &[T]) -> Result<SortedPlaces, NoMemory>
        ensures { IfOk result (λ places. (id : ℕ) →
            sorted_place places id ≡ position_from (λ item. T.id_of item == id) 0 items.now) }
    {
        let all = sorted_places(alloc, items)?;
        let near = near_places(alloc, &all, items.len())?;
        Ok(SortedPlaces { near, all })
    }

    /// The place of the first item of a number.
    #[inline(always)]
    pub(crate) fn at(&self, id: u64) -> Option<usize>
        ensures { result ≡ sorted_place self.now id }
    {
        let near = self.near.as_slice();
        if id < near.len() as u64 {
            return near[id as usize];
        }
        self.all.get(&id).copied()
    }
}

/// The place of the first item of each number.
fn sorted_places<T: HasId>(alloc: Global, items: &[T]) -> Result<BTreeMap<u64, usize>, NoMemory>
    ensures { IfOk result (λ places. (id : ℕ) →
        get nat_cmp places id ≡ position_from (λ item. T.id_of item == id) 0 items.now) }
{
    let mut places = BTreeMap::new(alloc);
    for (place, item) in items.iter().enumerate() {
        let id = item.id();
        if !places.contains_key(&id) {
            places.insert(id, place)?;
        }
    }
    Ok(places)
}

/// The places of the first numbers, about as many as there are items.
fn near_places(
    alloc: Global,
    all: &BTreeMap<u64, usize>,
    count: usize,
) -> Result<List<Option<usize>>, NoMemory>
    ensures { IfOk result (λ near. (id : ℕ) → id < length near →
        get_or near id None ≡ get nat_cmp all.now id) }
{
    let mut near = List::new(alloc);
    for id in 0..count.saturating_add(FEW) {
        near.push(all.get(&(id as u64)).copied())?;
    }
    Ok(near)
}
