//! Single attributes of integers and strings.

ghost use Rattle.std.specs.Prelude.{◌≡◌, not, false, pos, codes, is_none, option_and_then, if◌then◌else◌};
ghost use Rattle.ctf_class.specs.declared.integer.Base.TheVariants as base;
ghost use Rattle.ctf_meaning.specs.declared.fault.ResolveFault.TheVariants as faults;
ghost use Rattle.ctf_meaning.specs.Settings.{when, wrong, known_as, number_of, count_of, is_text_of};
ghost use Rattle.ctf_meaning.specs.Integers.{is_size, size_of, sign_of, base_of, order_of, clock_of};
ghost use Rattle.ctf_attributes.specs.Tells.{Tells, TellsFirst};
ghost use Rattle.ctf_attributes.specs.Attributes.{value_of, size_faults, align_faults, align_by_size};

use crate::aligned::alignment_of;
use crate::lookup::attribute;
use crate::reading;
use crate::value::{count, number, text};
use ctf_bits::Order;
use ctf_class::{Align, Base, Width};
use ctf_list::{List, Shared};
use ctf_meaning::ResolveFault;
use std::alloc::Global;
use tsdl_tree::{Setting, Value};

/// The largest size of an integer, in bits.
const LARGEST_SIZE: u64 = 64;

/// The size of so many bits.
fn width_of_bits(bits: u64) -> Result<Width, ResolveFault>
    ensures told { TellsFirst (when (not (is_size (pos bits))) faults.SizeOrAlignment)
        (λ size. size ≡ bits) result }
{
    if bits > LARGEST_SIZE {
        return Err(ResolveFault::SizeOrAlignment);
    }
    Width::new(bits as u32).ok_or(ResolveFault::SizeOrAlignment)
}

/// The size of an integer.
pub fn size(settings: &[Setting]) -> Result<Width, ResolveFault>
    ensures told { TellsFirst (size_faults settings.now) (λ size. size ≡ size_of settings.now)
        result }
{
    let value = attribute(settings, b"size").ok_or(ResolveFault::Attribute)?;
    match count(value) {
        Some(bits) => width_of_bits(bits),
        None => Err(fault_of_count(value)),
    }
}

/// The alignment of an integer.
pub fn align(settings: &[Setting], size: Width) -> Result<Align, ResolveFault>
    ensures told { TellsFirst (align_faults settings.now)
        (λ align. align ≡
        known_as count_of (align_by_size size) (value_of settings.now (codes "align"))) result }
{
    match attribute(settings, b"align") {
        Some(value) => match count(value) {
            Some(bits) => alignment_of(bits),
            None => Err(fault_of_count(value)),
        },
        None => alignment_of(if size.bits() % 8 == 0 { 8 } else { 1 }),
    }
}

/// What is wrong with a value that is no number from 0 on.
fn fault_of_count(value: &Value) -> ResolveFault
    ensures { result ≡ (if is_none (number_of value.now) then faults.Attribute else
        faults.SizeOrAlignment) }
{
    match number(value) {
        Some(_) => ResolveFault::SizeOrAlignment,
        None => ResolveFault::Attribute,
    }
}

/// Whether an integer is signed.
pub fn sign(settings: &[Setting]) -> Result<bool, ResolveFault>
    ensures told { TellsFirst (wrong sign_of (value_of settings.now (codes "signed"))) (λ is_signed.
        is_signed ≡ known_as sign_of false (value_of settings.now (codes "signed"))) result }
{
    match attribute(settings, b"signed") {
        Some(value) => reading::sign(value).ok_or(ResolveFault::Attribute),
        None => Ok(false),
    }
}

/// The base of an integer.
pub fn base(settings: &[Setting]) -> Result<Base, ResolveFault>
    ensures told { TellsFirst (wrong base_of (value_of settings.now (codes "base")))
        (λ b. b ≡ known_as base_of base.Decimal (value_of settings.now (codes "base"))) result }
{
    match attribute(settings, b"base") {
        Some(value) => reading::base(value).ok_or(ResolveFault::Attribute),
        None => Ok(Base::Decimal),
    }
}

/// The byte order of an integer, `None` where it is the trace's.
pub fn order(settings: &[Setting]) -> Result<Option<Order>, ResolveFault>
    ensures told { TellsFirst (wrong order_of (value_of settings.now (codes "byte_order")))
        (λ order. order ≡ known_as order_of None (value_of settings.now (codes "byte_order")))
        result }
{
    match attribute(settings, b"byte_order") {
        Some(value) => reading::order(value).ok_or(ResolveFault::Attribute),
        None => Ok(None),
    }
}

/// Whether the encoding of an integer or a string is one of characters.
pub fn is_text(settings: &[Setting]) -> Result<bool, ResolveFault>
    ensures told { TellsFirst (wrong is_text_of (value_of settings.now (codes "encoding")))
        (λ is_text. is_text ≡ known_as is_text_of false (value_of settings.now (codes "encoding")))
        result }
{
    match attribute(settings, b"encoding") {
        Some(value) => reading::is_text(value).ok_or(ResolveFault::Attribute),
        None => Ok(false),
    }
}

/// The clock to which an integer is mapped.
pub fn clock(alloc: Global, settings: &[Setting]) -> Result<Option<Shared<List<u8>>>, ResolveFault>
    ensures told { Tells (wrong clock_of (value_of settings.now (codes "map")))
        (λ clock. clock ≡ option_and_then clock_of (value_of settings.now (codes "map"))) result }
{
    let Some(value) = attribute(settings, b"map") else {
        return Ok(None);
    };
    let text = text(alloc, value)?.ok_or(ResolveFault::Attribute)?;
    let name = reading::clock_name(text.as_slice()).ok_or(ResolveFault::Attribute)?;
    let name = List::from_slice(alloc, name)?;
    Ok(Some(Shared::new(alloc, name)?))
}
