//! Attributes of integers.

ghost use Rattle.std.specs.Prelude.{◌≡◌};
ghost use Rattle.ctf_meaning.specs.Integers.{integer_faults, integer_of};
ghost use Rattle.ctf_attributes.specs.Tells.{Tells};

use crate::attributes;
use crate::lookup::each_once;
use ctf_meaning::{DeclaredInteger, ResolveFault};
use std::alloc::Global;
use tsdl_tree::Setting;

/// The integer of these settings (CTF 1.8.3, section 4.1.5). It fails with `Attribute`, with
/// `SizeOrAlignment` where a number is out of its range, or where an allocation fails.
pub fn integer(alloc: Global, settings: &[Setting]) -> Result<DeclaredInteger, ResolveFault>
    ensures told { Tells (integer_faults settings.now)
        (λ integer. integer ≡ integer_of settings.now) result }
{
    each_once(
        settings,
        &[
            b"size",
            b"align",
            b"signed",
            b"base",
            b"byte_order",
            b"encoding",
            b"map",
        ],
    )?;
    let size = attributes::size(settings)?;
    let align = attributes::align(settings, size)?;
    let is_signed = attributes::sign(settings)?;
    let base = attributes::base(settings)?;
    let order = attributes::order(settings)?;
    let is_text = attributes::is_text(settings)?;
    let clock = attributes::clock(alloc, settings)?;
    Ok(DeclaredInteger {
        size,
        align,
        is_signed,
        base,
        order,
        is_text,
        clock,
    })
}
