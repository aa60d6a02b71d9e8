//! Lengths and tags.

ghost use Rattle.std.specs.Prelude.{◌≡◌, option_copied, option_map};
ghost use Rattle.ctf_meaning.specs.Paths as paths;
ghost use Rattle.ctf_meaning.specs.declared.fault.ResolveFault.TheVariants.{LengthOrTag};
ghost use Rattle.ctf_meaning_steps.specs.Told.{Follows, there_or};
ghost use Rattle.ctf_declared_class.specs.Views as views;
ghost use Rattle.ctf_paths.specs.Spots.{spot_by};
ghost use Rattle.ctf_paths.specs.Finding.{found_by, length_of, tag_of, tag_by};

use crate::find::{Found, found_at};
use crate::spot::Spot;
use ctf_class::{Labels, Route};
use ctf_declared_class::Shape;
use ctf_list::Shared;
use ctf_meaning::ResolveFault;
use std::alloc::Global;
use tsdl_tree::{Path, Word};

/// The tag of a variant, with the labels of its enumeration.
#[derive(Drop)]
pub struct Tag<'a> {
    pub route: Route,
    pub labels: &'a Shared<Labels>,
}

/// Whether a class is that of a length (CTF 1.8.3, section 4.2.4).
fn is_length(shape: &Shape) -> bool
    ensures { result ≡ paths.is_length (views.shape shape.now) }
{
    match shape {
        Shape::Integer(integer) => !integer.is_signed,
        Shape::Float => false,
        Shape::String => false,
        Shape::Enumeration { .. } => false,
        Shape::Structure { .. } => false,
        Shape::Variant { .. } => false,
        Shape::Array { .. } => false,
        Shape::Sequence { .. } => false,
    }
}

/// The labels of an enumeration.
fn labels_in<'a>(shape: &'a Shape) -> Option<&'a Shared<Labels>>
    ensures { option_copied result ≡ paths.labels_in (views.shape shape.now) }
{
    match shape {
        Shape::Enumeration { labels, .. } => Some(labels),
        Shape::Integer(_) => None,
        Shape::Float => None,
        Shape::String => None,
        Shape::Structure { .. } => None,
        Shape::Variant { .. } => None,
        Shape::Array { .. } => None,
        Shape::Sequence { .. } => None,
    }
}

/// Where the field is that says a sequence's length (CTF 1.8.3, section 4.2.4).
pub fn length_at(alloc: Global, spot: &Spot<'_>, path: &[Word]) -> Result<Route, ResolveFault>
    ensures { Follows (there_or LengthOrTag (paths.length_at (spot_by spot.now) path.now))
        (λ route. route) result }
{
    let found = found_at(alloc, spot, path)?.ok_or(ResolveFault::LengthOrTag)?;
    length_of(found).ok_or(ResolveFault::LengthOrTag)
}

/// The route to a field, if that is a length.
fn length_of(found: Found<'_>) -> Option<Route>
    ensures { result ≡ length_of (found_by found.entry) }
{
    let Found { route, shape } = found;
    if is_length(shape) { Some(route) } else { None }
}

/// The tag of a variant, as it is written (CTF 1.8.3, section 4.2.2).
pub fn tag_at<'a>(
    alloc: Global,
    spot: &Spot<'a>,
    tag: &Option<Path>,
) -> Result<Tag<'a>, ResolveFault>
    ensures { Follows (there_or LengthOrTag (paths.tag_at (spot_by spot.now) tag.now)) tag_by
        result }
{
    let Some(path) = tag else {
        return Err(ResolveFault::LengthOrTag);
    };
    let found = found_at(alloc, spot, path.as_slice())?.ok_or(ResolveFault::LengthOrTag)?;
    tag_of(found).ok_or(ResolveFault::LengthOrTag)
}

/// The tag to which a route leads, if that is an enumeration.
fn tag_of<'a>(found: Found<'a>) -> Option<Tag<'a>>
    ensures { option_map tag_by result ≡ tag_of (found_by found.entry) }
{
    let Found { route, shape } = found;
    let labels = labels_in(shape)?;
    Some(Tag { route, labels })
}
