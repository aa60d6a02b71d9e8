//! Classes around others.

ghost use Rattle.std.specs.Prelude.{◌≡◌, ◌+◌, [], IfOk};
ghost use Rattle.ctf_class.specs.declared.class.Kind.TheVariants as kind;
ghost use Rattle.ctf_meaning.specs.Shapes.{fields_in};
ghost use Rattle.ctf_meaning.specs.Links as links;
ghost use Rattle.ctf_declared_class.specs.Views as views;
ghost use Rattle.ctf_paths.specs.Telling.{depth_in, nodes_in, class_around};

use crate::reach::Tag;
use ctf_class::{Align, Class, Kind, Length, Member};
use ctf_declared_class::{Members, Shape};
use ctf_list::{Boxed, List, NoMemory};
use std::alloc::Global;

/// What is kept of classes beside one another.
#[derive(Clone, Copy)]
struct Sums {
    depth: u32,
    nodes: u32,
}

/// How deep the classes of some members are, and how many. `NoMemory` from 2^32 on, which the first pass rules
/// out: it refuses more than 1,048,576 (R9).
fn sums_of(members: &[Member]) -> Result<Sums, NoMemory>
    ensures depth { IfOk result (λ sums. sums.depth ≡ depth_in members.now) }
    ensures nodes { IfOk result (λ sums. sums.nodes ≡ nodes_in members.now) }
{
    let mut depth: u32 = 0;
    let mut nodes: u32 = 0;
    for member in members {
        depth = depth.max(member.class.depth);
        nodes = nodes.checked_add(member.class.nodes).ok_or(NoMemory)?;
    }
    Ok(Sums { depth, nodes })
}

/// No members yet, with room for so many.
pub fn room_for(alloc: Global, count: usize) -> Result<List<Member>, NoMemory>
    ensures { IfOk result (λ made. made ≡ []) }
{
    let made = Vec::with_capacity(alloc, count)?;
    Ok(List::from_vec(made))
}

impl Sums {
    /// The sums with a class around. `NoMemory` from 2^32 on, which the first pass rules out: it refuses classes
    /// deeper than 64 and more than 1,048,576 of them (R9).
    fn outward(self) -> Result<Sums, NoMemory>
        ensures depth { IfOk result (λ sums. sums.depth ≡ 1 + self.depth) }
        ensures nodes { IfOk result (λ sums. sums.nodes ≡ 1 + self.nodes) }
    {
        let depth = self.depth.checked_add(1).ok_or(NoMemory)?;
        let nodes = self.nodes.checked_add(1).ok_or(NoMemory)?;
        Ok(Sums { depth, nodes })
    }
}

/// A class around others.
fn around(align: Align, sums: Sums, kind: Kind) -> Result<Class, NoMemory>
    ensures { IfOk result (λ class. class ≡ class_around align sums.depth sums.nodes kind) }
{
    let Sums { depth, nodes } = sums.outward()?;
    Ok(Class {
        align,
        depth,
        nodes,
        kind,
    })
}

/// The class of a structure.
pub fn structure_of(align: Align, members: List<Member>) -> Result<Class, NoMemory>
    ensures { IfOk result (λ class.
        class ≡ class_around align (depth_in members) (nodes_in members) (kind.Structure members)) }
{
    let sums = sums_of(members.as_slice())?;
    around(align, sums, Kind::Structure { members })
}

/// The class of a variant.
pub fn variant_of(
    alloc: Global,
    tag: Tag<'_>,
    declared: &Members,
    options: List<Member>,
) -> Result<Class, NoMemory>
    ensures { IfOk result (λ class.
        class ≡ class_around 1 (depth_in options) (nodes_in options)
        (kind.Variant tag.entry.route
        (links.choices_of (fields_in (views.members declared.now)) tag.entry.labels.now) options)) }
{
    let sums = sums_of(options.as_slice())?;
    let Tag { route, labels } = tag;
    let choices = declared.choices(alloc, labels)?;
    let kind = Kind::Variant {
        tag: route,
        choices,
        options,
    };
    around(Align::one_bit(), sums, kind)
}

/// The class of an array, or of a text where its elements are characters (CTF 1.8.3, section 4.2.3).
pub fn array_of(
    alloc: Global,
    length: Length,
    declared: &Shape,
    element: Class,
) -> Result<Class, NoMemory>
    ensures { IfOk result (λ class.
        class ≡ class_around element.align element.depth element.nodes
        (links.array_kind length (views.shape declared.now) element)) }
{
    let align = element.align;
    let sums = Sums {
        depth: element.depth,
        nodes: element.nodes,
    };
    let kind = array_kind(alloc, length, declared, element)?;
    around(align, sums, kind)
}

/// What an array of some elements is.
fn array_kind(
    alloc: Global,
    length: Length,
    declared: &Shape,
    element: Class,
) -> Result<Kind, NoMemory>
    ensures { IfOk result (λ what.
        what ≡ links.array_kind length (views.shape declared.now) element) }
{
    if is_character(declared) {
        Ok(Kind::Text { length })
    } else {
        Ok(Kind::Array {
            length,
            element: Boxed::new(alloc, element)?,
        })
    }
}

/// Whether elements of a class make an array a text.
fn is_character(shape: &Shape) -> bool
    ensures { result ≡ links.is_character (views.shape shape.now) }
{
    match shape {
        Shape::Integer(integer) => {
            integer.size.bits() == 8 && integer.align.bits() == 8 && integer.is_text
        }
        Shape::Float => false,
        Shape::String => false,
        Shape::Enumeration { .. } => false,
        Shape::Structure { .. } => false,
        Shape::Variant { .. } => false,
        Shape::Array { .. } => false,
        Shape::Sequence { .. } => false,
    }
}
