//! Lists without room beyond their elements.

ghost use Rattle.std.specs.Prelude.{◌≡◌};

use ctf_list::List;

/// A list without what its memory has beyond its elements, where that can be given back.
pub(crate) fn fitted<T: Drop>(list: List<T>) -> List<T>
    ensures { result ≡ list }
{
    let mut items = list.into_vec();
    items.shrink_to_fit();
    List::from_vec(items)
}
