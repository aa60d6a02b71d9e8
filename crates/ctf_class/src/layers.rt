//! Labels in layers: in each of them no two cover one number.

ghost use Rattle.std.specs.Prelude.{◌≡◌, ◌<◌, ◌≤◌, length, take, IfOk, IfSome};
ghost use Rattle.std.specs.List.{range_with_len};
ghost use Rattle.std.specs.List.Sorted.{IsPermutation};
ghost use Rattle.std.specs.Str.{bytes_eq};
ghost use Rattle.ctf_class.specs.Labels.{label_at, is_shown, FindsNext};
ghost use Rattle.ctf_class.specs.LabelSearch.{AreApart, AreLayers, FindsRanked};
ghost use Rattle.ctf_class.specs.Layers.{Splits, FindsCovering};

use crate::apart::ranked_label;
use crate::label_at::span_at;
use crate::span::Label;
use ctf_list::{List, NoMemory};
use std::alloc::Global;

/// The most layers: each of them is looked at for each number.
const MOST_LAYERS: usize = 8;

/// How many labels one layer is worth. Each label that is shown is looked for in each layer, and there are as many as
/// layers at the most, so the labels are to be as many times the square of the layers: a walk over fewer takes less.
const LABELS_A_LAYER: usize = 24;

/// The longest name, in bytes, of a label in layers, since names are compared for each number.
const LONGEST_NAME: usize = 1 << 10;

/// Labels of a layer, and those that are left.
#[derive(Drop)]
struct Split {
    layer: List<usize>,
    left: List<usize>,
}

/// The places of labels in layers, out of all places in the order of the labels' first numbers. `None` where this would
/// take too many layers, or names are long.
pub fn layers_of(
    alloc: Global,
    labels: &[Label],
    order: List<usize>,
) -> Result<Option<List<List<usize>>>, NoMemory>
    requires { IsPermutation (range_with_len 0 (length labels.now)) order }
    ensures { IfOk result (λ found. IfSome found (AreLayers labels.now)) }
{
    if have_long_names(labels) {
        return Ok(None);
    }
    let mut layers = List::new(alloc);
    let mut left = order;
    while !left.is_empty() {
        if layers.len() >= MOST_LAYERS || !are_many(labels, layers.len() + 1) {
            return Ok(None);
        }
        let split = split_layer(alloc, labels, left.as_slice())?;
        layers.push(split.layer)?;
        left = split.left;
    }
    Ok(Some(layers))
}

/// Whether there are enough labels for so many layers.
fn are_many(labels: &[Label], layers: usize) -> bool
    requires { layers ≤ 8 }
{
    labels.len() >= LABELS_A_LAYER * layers * layers
}

/// Whether some label has a long name.
fn have_long_names(labels: &[Label]) -> bool {
    labels
        .iter()
        .any(|label| label.name.as_slice().len() > LONGEST_NAME)
}

/// Takes each label that comes after the last one taken, and leaves the others.
fn split_layer(alloc: Global, labels: &[Label], places: &[usize]) -> Result<Split, NoMemory>
    ensures { IfOk result (λ split. Splits labels.now places.now split.layer split.left) }
{
    let mut layer = List::new(alloc);
    let mut left = List::new(alloc);
    let mut before = i128::MIN;
    for place in places {
        let span = span_at(labels, *place);
        if span.is_above(before) {
            layer.push(*place)?;
            before = span.last;
        } else {
            left.push(*place)?;
        }
    }
    Ok(Split { layer, left })
}

/// The place of the first label from a place on that covers a number, and whose name no label before it has that covers
/// the number. It is apart from `next_shown`, so that labels of which no two cover one number do not pay for it.
#[inline(never)]
pub fn next_layered(
    labels: &[Label],
    layers: &[List<usize>],
    begin: usize,
    number: i128,
) -> Option<usize>
    requires { AreLayers labels.now layers.now }
    ensures { FindsNext labels.now number begin result }
{
    let mut from = begin;
    while let Some(place) = next_covering(labels, layers, from, number) {
        // From the first label on none is before the one that is found.
        if from == 0 || !is_hidden(labels, layers, place, number) {
            return Some(place);
        }
        from = place + 1;
    }
    None
}

/// The place of the first label from a place on that covers a number.
fn next_covering(
    labels: &[Label],
    layers: &[List<usize>],
    begin: usize,
    number: i128,
) -> Option<usize>
    requires { AreLayers labels.now layers.now }
    ensures next { FindsCovering labels.now number begin result }
    ensures within { IfSome result (λ place. place < length labels.now) }
{
    let mut next = labels.len();
    for layer in layers {
        if let Some(place) = place_in_layer(labels, layer, number) {
            if begin <= place && place < next {
                next = place;
            }
        }
    }
    if next < labels.len() {
        Some(next)
    } else {
        None
    }
}

/// Whether a label before a place covers a number and has the name of the label at the place.
fn is_hidden(labels: &[Label], layers: &[List<usize>], place: usize, number: i128) -> bool
    requires layers { AreLayers labels.now layers.now }
    requires within { place < length labels.now }
    ensures { let name = (label_at labels.now place).name in
        result ≡ is_shown (take place labels.now) number name }
{
    for layer in layers {
        if let Some(before) = place_in_layer(labels, layer, number) {
            if before < place && have_one_name(&labels[before], &labels[place]) {
                return true;
            }
        }
    }
    false
}

/// The place of the label of a layer that covers a number.
fn place_in_layer(labels: &[Label], layer: &List<usize>, number: i128) -> Option<usize>
    requires { AreApart labels.now layer.now (length layer.now) }
    ensures { FindsRanked labels.now layer.now (length layer.now) number result }
{
    ranked_label(labels, layer.as_slice(), layer.len(), number)
}

/// Whether two labels have one name.
fn have_one_name(label: &Label, other: &Label) -> bool
    ensures { result ≡ bytes_eq label.now.name other.now.name }
{
    label.name.as_slice() == other.name.as_slice()
}
