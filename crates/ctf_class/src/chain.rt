//! Labels, each with the last one before it of its name.

ghost use Rattle.std.specs.Prelude.{◌≡◌, not, ◌<◌, length, take, IfOk};
ghost use Rattle.ctf_class.specs.Labels.{label_at, is_shown, shows_at, FindsNext};
ghost use Rattle.ctf_class.specs.LabelSearch.{IsChain};

use crate::label_at::{number_at, span_at};
use crate::span::Label;
use ctf_list::{List, NoMemory};
use std::alloc::Global;
use std::collections::BTreeMap;

/// One number for each label: one past the place of the last label before it of its name, or 0. Of `n` labels, takes
/// time like `n` times its logarithm.
pub fn chain_of(alloc: Global, labels: &[Label]) -> Result<List<usize>, NoMemory>
    ensures { IfOk result (IsChain labels.now) }
{
    let mut lasts: BTreeMap<Vec<u8>, usize> = BTreeMap::new(alloc);
    let mut earlier = Vec::with_capacity(alloc, labels.len())?;
    for (place, label) in labels.iter().enumerate() {
        let name = label.name.as_slice();
        earlier.push(lasts.get(name).copied().unwrap_or(0))?;
        lasts.insert(Vec::from_slice(alloc, name)?, place + 1)?;
    }
    Ok(List::from_vec(earlier))
}

/// The place of the first label from a place on that covers a number, and whose name no label before it has
/// that covers the number. A walk over the labels, in which each is looked at twice at most.
pub fn next_chained(
    labels: &[Label],
    earlier: &[usize],
    begin: usize,
    number: i128,
) -> Option<usize>
    requires { IsChain labels.now earlier.now }
    ensures { FindsNext labels.now number begin result }
{
    for place in begin..labels.len() {
        if shows(labels, earlier, place, number) {
            return Some(place);
        }
    }
    None
}

/// Whether the label at a place shows a number.
#[inline(always)]
fn shows(labels: &[Label], earlier: &[usize], place: usize, number: i128) -> bool
    requires within { place < length labels.now }
    requires chain { IsChain labels.now earlier.now }
    ensures { result ≡ shows_at labels.now number place }
{
    span_at(labels, place).covers(number) && is_first(labels, earlier, place, number)
}

/// Whether no label before a place covers a number and has the name of the label at the place.
fn is_first(labels: &[Label], earlier: &[usize], place: usize, number: i128) -> bool
    requires within { place < length labels.now }
    requires chain { IsChain labels.now earlier.now }
    ensures { let name = (label_at labels.now place).name in
        result ≡ not (is_shown (take place labels.now) number name) }
{
    let mut end = number_at(earlier, place, 0);
    while end > 0 {
        let before = end - 1;
        if span_at(labels, before).covers(number) {
            return false;
        }
        end = number_at(earlier, before, 0);
    }
    true
}
