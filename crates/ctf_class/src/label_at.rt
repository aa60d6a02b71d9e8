//! Labels by their places.

ghost use Rattle.std.specs.Prelude.{◌≡◌, get_or};
ghost use Rattle.ctf_class.specs.Labels.{label_at};

use crate::span::{Label, Span};

/// The numbers of the label at a place; none where there is no label.
#[inline(always)]
pub fn span_at(labels: &[Label], place: usize) -> Span
    ensures { result ≡ (label_at labels.now place).span }
{
    match labels.get(place) {
        Some(label) => label.span,
        None => Span { first: 1, last: 0 },
    }
}

/// The number at a place, or another one where there is none.
#[inline(always)]
pub fn number_at(numbers: &[usize], place: usize, other: usize) -> usize
    ensures { result ≡ get_or numbers.now place other }
{
    match numbers.get(place) {
        Some(number) => *number,
        None => other,
    }
}
