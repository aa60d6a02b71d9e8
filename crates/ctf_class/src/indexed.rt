//! Items that are found by their numbers.

ghost use Rattle.std.specs.Prelude.{◌≡◌, ◌==◌, ℕ, length, map, IsTrue, IfOk, option_copied, slice_get};
ghost use Rattle.std.specs.List.{position_from, range_with_len};
ghost use Rattle.ctf_class.specs.Items.{first_of_id, only_item};

use crate::sorted::SortedPlaces;
use ctf_list::{List, NoMemory};
use std::alloc::Global;
use std::marker::Model;

/// What has a number by which it is looked up.
pub trait HasId {
    ghost id_of: { Self → ℕ };

    /// The number.
    fn id(&self) -> u64
        ensures { result ≡ id_of self.now };
}

/// Where the first item of each number is.
#[derive(Drop)]
enum Places {
    /// The items have the numbers 0, 1, 2 and so on.
    Counted,
    Sorted(SortedPlaces),
}

/// Items in an order of their own, each found by its number without a walk. Contracts see the list of
/// the items.
#[derive(Drop)]
pub struct Indexed<T: HasId> {
    items: List<T>,
    places: Places,
}

impl<T: HasId> Model for Indexed<T> {
    ghost use Rattle.std.specs.Prelude.{List};
    ghost use Rattle.std.specs.Coded.{coded_list};
    ghost use Rattle.ctf_class.specs.Places.{FindsFirst};

    ghost Value = { List T };

    ghost coded = { coded_list T.code };

    ghost view = { λ indexed. indexed.items };

    ghost invariant = { λ indexed. FindsFirst T.id_of indexed.items indexed.places };
}

impl<T: HasId + Drop> Indexed<T> {
    /// Items that are found by their numbers. Of `n` items, takes time like `n` times its logarithm.
    pub fn new(alloc: Global, items: List<T>) -> Result<Indexed<T>, NoMemory>
        ensures { IfOk result (λ indexed. indexed ≡ items) }
    {
        let places = Places::of(alloc, items.as_slice())?;
        Ok(Indexed { items, places })
    }
}

impl<T: HasId> Indexed<T> {
    /// The items in their order.
    pub fn as_slice(&self) -> &[T]
        ensures { result.now ≡ self.now }
    {
        self.items.as_slice()
    }

    /// Where the first item of a number is, if there is one.
    #[inline(always)]
    pub fn place(&self, id: u64) -> Option<usize>
        ensures { result ≡ position_from (λ item. T.id_of item == id) 0 self.now }
    {
        self.places.at(id, self.items.len())
    }

    /// The first item of a number.
    #[inline(always)]
    pub fn get(&self, id: u64) -> Option<&T>
        ensures { option_copied result ≡ first_of_id T.id_of id self.now }
    {
        let items = self.items.as_slice();
        let place = self.places.at(id, items.len())?;
        item_at(items, place)
    }

    /// The item, where there is just one.
    pub fn only(&self) -> Option<&T>
        ensures { option_copied result ≡ only_item self.now }
    {
        match self.items.as_slice() {
            [item] => Some(item),
            _ => None,
        }
    }
}

impl Places {
    ghost use Rattle.ctf_class.specs.Places.{FindsFirst, place_of};

    /// The places of some items.
    fn of<T: HasId>(alloc: Global, items: &[T]) -> Result<Places, NoMemory>
        ensures { IfOk result (FindsFirst T.id_of items.now) }
    {
        if are_counted(items) {
            return Ok(Places::Counted);
        }
        Ok(Places::Sorted(SortedPlaces::of(alloc, items)?))
    }

    /// The place that is kept for a number, among so many items.
    #[inline(always)]
    fn at(&self, id: u64, count: usize) -> Option<usize>
        ensures { result ≡ place_of self.now count id }
    {
        match self {
            Places::Counted => {
                if id < count as u64 {
                    Some(id as usize)
                } else {
                    None
                }
            }
            Places::Sorted(places) => places.at(id),
        }
    }
}

/// The item at a place, if there is one.
fn item_at<T>(items: &[T], place: usize) -> Option<&T>
    ensures { option_copied result ≡ slice_get items.now place }
{
    items.get(place)
}

/// Whether the items have the numbers 0, 1, 2 and so on.
fn are_counted<T: HasId>(items: &[T]) -> bool
    ensures { IsTrue result → map T.id_of items.now ≡ range_with_len 0 (length items.now) }
{
    for (place, item) in items.iter().enumerate() {
        if item.id() != place as u64 {
            return false;
        }
    }
    true
}
