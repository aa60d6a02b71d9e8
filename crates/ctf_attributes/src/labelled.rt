//! Labels of enumerations.

ghost use Rattle.std.specs.Prelude.{◌≡◌, ◌⊎◌, ◌^◌, pos, ◌≤ℤ◌, ◌<ℤ◌, IfOk};
ghost use Rattle.ctf_meaning.specs.Labels.{label_faults, labels_of};
ghost use Rattle.ctf_attributes.specs.Tells.{Tells, TellsFirst};
ghost use Rattle.ctf_attributes.specs.Spans.{span_of, span_faults};

use crate::value::number_by;
use ctf_class::{Label, LabelName, Span};
use ctf_list::List;
use ctf_meaning::ResolveFault;
use std::alloc::Global;

/// The labels of an enumeration with their numbers (CTF 1.8.3, section 4.1.8). It fails with `Attribute`, or
/// where an allocation fails.
pub fn labels(alloc: Global, labels: &[tsdl_tree::Label]) -> Result<List<Label>, ResolveFault>
    ensures told { Tells (label_faults labels.now) (λ numbered. numbered ≡ labels_of labels.now)
        result }
{
    let mut numbered = List::from_vec(Vec::with_capacity(alloc, labels.len())?);
    let mut next = 0;
    for label in labels {
        let span = numbers(next, label.span)?;
        let name = List::from_slice(alloc, label.name.as_slice())?;
        numbered.push(Label {
            name: LabelName::new(alloc, name)?,
            span,
        })?;
        next = span.last + 1;
    }
    Ok(numbered)
}

/// The numbers of a label, where `next` is one past the end of the label before.
fn numbers(next: i128, written: Option<tsdl_tree::Span>) -> Result<Span, ResolveFault>
    ensures told { TellsFirst (span_faults next written) (λ span. span ≡ span_of next written)
        result }
    ensures bounded { IfOk result (λ span. (span.last ≤ℤ next) ⊎ (span.last <ℤ pos (2 ^ 64))) }
{
    let Some(written) = written else {
        return Ok(Span {
            first: next,
            last: next,
        });
    };
    let first = number_by(written.first).ok_or(ResolveFault::Attribute)?;
    let last = match written.last {
        Some(last) => number_by(last).ok_or(ResolveFault::Attribute)?,
        None => first,
    };
    if last < first {
        return Err(ResolveFault::Attribute);
    }
    Ok(Span { first, last })
}
