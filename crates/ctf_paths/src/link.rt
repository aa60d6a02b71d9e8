//! Classes at their places.

ghost use Rattle.std.specs.Prelude.{◌≡◌, ◌<◌, [], Some, length, take, slice_get};
ghost use Rattle.ctf_meaning.specs.Shapes.{Field, struct, variant, array, sequence, fields_in};
ghost use Rattle.ctf_meaning_steps.specs.Told.{Follows};
ghost use Rattle.ctf_meaning_steps.specs.Linking.{class_told};
ghost use Rattle.ctf_declared_class.specs.Views as views;
ghost use Rattle.ctf_paths.specs.Spots.{spot_by};
ghost use Rattle.ctf_paths.specs.Telling.{each_told, member_told, option_told};

use crate::clocks::Clocks;
use crate::leaf::{enumeration_class, integer_class, string_class};
use crate::parts::{array_of, room_for, structure_of, variant_of};
use crate::reach::{length_at, tag_at};
use crate::spot::Spot;
use ctf_bits::Order;
use ctf_class::{Align, Class, Length, Member};
use ctf_declared_class::{Members, Shape};
use ctf_list::List;
use ctf_meaning::ResolveFault;
use std::alloc::Global;
use tsdl_tree::{Path, Word};

/// What the classes of a trace are linked with.
#[derive(Clone, Copy)]
pub struct Linker<'a> {
    /// What the memory of the classes is taken from.
    pub alloc: Global,
    /// The trace's byte order, that of integers which name none (CTF 1.8.3, section 4.1.3).
    pub order: Order,
    pub clocks: &'a Clocks<'a>,
}

/// The class that a shape is at its place.
#[cycle(link)]
pub fn class_of(linker: &Linker<'_>, spot: &Spot<'_>, shape: &Shape) -> Result<Class, ResolveFault>
    ensures { Follows (class_told linker.now.order linker.now.clocks.now.clocks.now
        (spot_by spot.now) (views.shape shape.now)) (λ c. c) result }
{
    match shape {
        Shape::Integer(integer) => integer_class(linker.order, linker.clocks, spot, integer),
        Shape::Float => Err(ResolveFault::FloatingPoint),
        Shape::String => Ok(string_class()),
        Shape::Enumeration { container, labels } => {
            enumeration_class(linker.order, linker.clocks, spot, container, labels)
        }
        Shape::Structure { align, members } => { structure_class(linker, spot, *align, members) }
        Shape::Variant { tag, options } => { variant_class(linker, spot, tag, options) }
        Shape::Array { count, element } => { array_class(linker, spot, *count, element.get()) }
        Shape::Sequence { path, element } => {
            sequence_class(linker, spot, path.as_slice(), element.get())
        }
    }
}

/// The class of a structure.
#[cycle(link)]
fn structure_class(
    linker: &Linker<'_>,
    spot: &Spot<'_>,
    align: Align,
    members: &Members,
) -> Result<Class, ResolveFault>
    ensures { Follows (class_told linker.now.order linker.now.clocks.now.clocks.now
        (spot_by spot.now) (struct align (views.members members.now))) (λ c. c) result }
{
    let made = members_in(linker, spot, members)?;
    Ok(structure_of(align, made)?)
}

/// The members of a structure.
#[cycle(link)]
fn members_in(
    linker: &Linker<'_>,
    spot: &Spot<'_>,
    members: &Members,
) -> Result<List<Member>, ResolveFault>
    ensures { Follows (each_told (member_told linker.now.order linker.now.clocks.now.clocks.now
        (spot_by spot.now)) []
        (fields_in (views.members members.now))) (λ ms. ms) result }
{
    let mut made = room_for(linker.alloc, members.len())?;
    for place in 0..members.len() {
        let member = member_at(linker, spot, members, place)?;
        made.push(member)?;
    }
    Ok(made)
}

/// The member at a place of a structure, which sees those before it.
#[cycle(link)]
fn member_at(
    linker: &Linker<'_>,
    spot: &Spot<'_>,
    members: &Members,
    place: usize,
) -> Result<Member, ResolveFault>
    requires { place < length (fields_in (views.members members.now)) }
    ensures { let fields = fields_in (views.members members.now) in
        (f : Field) → slice_get fields place ≡ Some f →
        Follows (member_told linker.now.order linker.now.clocks.now.clocks.now
        (spot_by spot.now) (take place fields) f)
        (λ m. m) result }
{
    let around = (&*spot).around(&*members, place);
    let inner = (&*spot).member(&around, (&*members).name(place));
    let class = class_of(linker, &inner, members.shape(place))?;
    let name = members.field_name(place).clone()?;
    Ok(Member { name, class })
}

/// The class of a variant.
#[cycle(link)]
fn variant_class(
    linker: &Linker<'_>,
    spot: &Spot<'_>,
    tag: &Option<Path>,
    options: &Members,
) -> Result<Class, ResolveFault>
    ensures { Follows (class_told linker.now.order linker.now.clocks.now.clocks.now
        (spot_by spot.now) (variant tag.now (views.members options.now))) (λ c. c) result }
{
    let found = tag_at(linker.alloc, spot, tag)?;
    let below = spot.below();
    let made = options_in(linker, &below, options)?;
    Ok(variant_of(linker.alloc, found, options, made)?)
}

/// The options of a variant, each at a spot below it.
#[cycle(link)]
fn options_in(
    linker: &Linker<'_>,
    spot: &Spot<'_>,
    options: &Members,
) -> Result<List<Member>, ResolveFault>
    ensures { Follows (each_told (option_told linker.now.order linker.now.clocks.now.clocks.now
        (spot_by spot.now)) []
        (fields_in (views.members options.now))) (λ ms. ms) result }
{
    let mut made = room_for(linker.alloc, options.len())?;
    for place in 0..options.len() {
        let option = option_at(linker, spot, options, place)?;
        made.push(option)?;
    }
    Ok(made)
}

/// The option at a place of a variant.
#[cycle(link)]
fn option_at(
    linker: &Linker<'_>,
    spot: &Spot<'_>,
    options: &Members,
    place: usize,
) -> Result<Member, ResolveFault>
    requires { place < length (fields_in (views.members options.now)) }
    ensures { let fields = fields_in (views.members options.now) in
        (f : Field) → slice_get fields place ≡ Some f →
        Follows (option_told linker.now.order linker.now.clocks.now.clocks.now
        (spot_by spot.now) (take place fields) f)
        (λ m. m) result }
{
    let class = class_of(linker, spot, options.shape(place))?;
    let name = options.field_name(place).clone()?;
    Ok(Member { name, class })
}

/// The class of an array of so many elements.
#[cycle(link)]
fn array_class(
    linker: &Linker<'_>,
    spot: &Spot<'_>,
    count: u64,
    element: &Shape,
) -> Result<Class, ResolveFault>
    ensures { Follows (class_told linker.now.order linker.now.clocks.now.clocks.now
        (spot_by spot.now) (array count (views.shape element.now))) (λ c. c) result }
{
    let below = spot.below();
    let class = class_of(linker, &below, element)?;
    Ok(array_of(linker.alloc, Length::Fixed(count), element, class)?)
}

/// The class of a sequence whose length a field says.
#[cycle(link)]
fn sequence_class(
    linker: &Linker<'_>,
    spot: &Spot<'_>,
    path: &[Word],
    element: &Shape,
) -> Result<Class, ResolveFault>
    ensures { Follows (class_told linker.now.order linker.now.clocks.now.clocks.now
        (spot_by spot.now) (sequence path.now (views.shape element.now))) (λ c. c) result }
{
    let route = length_at(linker.alloc, spot, path)?;
    let below = spot.below();
    let class = class_of(linker, &below, element)?;
    Ok(array_of(linker.alloc, Length::Field(route), element, class)?)
}
