//! Classes without parts.

ghost use Rattle.std.specs.Prelude.{◌≡◌};
ghost use Rattle.ctf_meaning.specs.Shapes.{integer, enum, string};
ghost use Rattle.ctf_meaning.specs.Links as links;
ghost use Rattle.ctf_meaning_steps.specs.Told.{Follows};
ghost use Rattle.ctf_meaning_steps.specs.Linking.{class_told};
ghost use Rattle.ctf_paths.specs.Spots.{spot_by};
ghost use Rattle.ctf_class.specs.declared.class.Kind.TheVariants as kind;

use crate::clocks::Clocks;
use crate::spot::Spot;
use ctf_bits::Order;
use ctf_class::{Align, Class, Integer, Kind, Labels};
use ctf_list::Shared;
use ctf_meaning::{DeclaredInteger, ResolveFault};

/// An integer at its place, in the byte order of the trace where none is written.
fn integer_at_place(order: Order, is_moving: bool, integer: &DeclaredInteger) -> Integer
    ensures { result ≡ links.placed order is_moving integer.now }
{
    Integer {
        size: integer.size,
        is_signed: integer.is_signed,
        base: integer.base,
        order: integer.order.unwrap_or(order),
        is_moving,
    }
}

/// The class of an integer.
pub fn integer_class(
    order: Order,
    clocks: &Clocks<'_>,
    spot: &Spot<'_>,
    declared: &DeclaredInteger,
) -> Result<Class, ResolveFault>
    ensures { result ≡ class_told order clocks.now.clocks.now (spot_by spot.now)
        (integer declared.now) }
{
    if clocks.is_unknown(declared) {
        return Err(ResolveFault::Clock);
    }
    let is_moving = clocks.moved_clock(spot, declared).is_some();
    Ok(Class {
        align: declared.align,
        depth: 1,
        nodes: 1,
        kind: Kind::Integer(integer_at_place(order, is_moving, declared)),
    })
}

/// The class of an enumeration, which shares the labels.
pub fn enumeration_class(
    order: Order,
    clocks: &Clocks<'_>,
    spot: &Spot<'_>,
    declared: &DeclaredInteger,
    labels: &Shared<Labels>,
) -> Result<Class, ResolveFault>
    ensures { Follows (class_told order clocks.now.clocks.now (spot_by spot.now)
        (enum declared.now labels.now)) (λ c. c) result }
{
    if clocks.is_unknown(declared) {
        return Err(ResolveFault::Clock);
    }
    Ok(Class {
        align: declared.align,
        depth: 1,
        nodes: 1,
        kind: Kind::Enumeration {
            container: integer_at_place(order, false, declared),
            labels: labels.clone()?,
        },
    })
}

/// The class of a string.
pub fn string_class() -> Class
    ensures { result ≡ links.class_by string kind.String }
{
    Class {
        align: Align::one_byte(),
        depth: 1,
        nodes: 1,
        kind: Kind::String,
    }
}
