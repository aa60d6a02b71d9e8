//! The integers of a decoded value that set the clock.

ghost use Rattle.std.specs.Prelude.{◌≡◌, ◌++◌, map, IfOk};
ghost use Rattle.ctf_decode.specs.Values.{unsigned, vals_of};
ghost use Rattle.ctf_decode.specs.Forms.{parts_of};
ghost use Rattle.ctf_decode.specs.Views.{form, member_part, val};
ghost use Rattle.ctf_decode.specs.Fields as fields;

use crate::parts::{choice_in, elements_in, members_in};
use crate::value::Value;
use ctf_class::{Class, Integer, Kind, Member, Width};
use ctf_list::NoMemory;
use std::alloc::Global;

/// The width and the unsigned number of each integer of a value that sets the clock, in the order
/// of decoding. A part of the value that is no value of its class gives nothing, nor does a number that its
/// width does not hold.
pub fn moving(alloc: Global, class: &Class, value: &Value) -> Result<Vec<(Width, u64)>, NoMemory>
    ensures { IfOk result
        (λ found. found.items ≡ fields.moved (form class.now) (val value.now)) }
{
    let mut found = Vec::new(alloc);
    moving_into(class, value, &mut found)?;
    Ok(found)
}

/// Makes what `moving` gives the vector, whatever it was before; its memory is used again. At an error
/// the vector is unspecified.
pub fn moving_into(
    class: &Class,
    value: &Value,
    found: &mut Vec<(Width, u64)>,
) -> Result<(), NoMemory>
    ensures { IfOk result
        (λ _. found.new.items ≡ fields.moved (form class.now) (val value.now)) }
{
    found.clear();
    put_moved(class, value, found)
}

/// Puts the integers of a value that set the clock after those that were found.
#[cycle(moved)]
fn put_moved(class: &Class, value: &Value, found: &mut Vec<(Width, u64)>) -> Result<(), NoMemory>
    ensures { IfOk result
        (λ _. found.new.items ≡ found.old.items ++ fields.moved (form class.now) (val value.now)) }
{
    match &class.kind {
        Kind::Integer(integer) => put_integer(integer, value, found),
        Kind::Structure { members } => put_members(members.as_slice(), members_in(value), found),
        Kind::Variant {
            tag,
            choices,
            options,
        } => put_option(options.as_slice(), value, found),
        Kind::Array { length, element } => put_elements(element.get(), elements_in(value), found),
        Kind::Enumeration { container, labels } => Ok(()),
        Kind::String => Ok(()),
        Kind::Text { length } => Ok(()),
    }
}

/// Puts the integers of members that set the clock after those that were found.
#[cycle(moved)]
fn put_members(
    members: &[Member],
    values: &[Value],
    found: &mut Vec<(Width, u64)>,
) -> Result<(), NoMemory>
    ensures { IfOk result
        (λ _. found.new.items ≡
        found.old.items ++ fields.member_moved (parts_of (map member_part members.now))
        (vals_of (map val values.now))) }
{
    for (i, member) in members.iter().enumerate() {
        if i >= values.len() {
            return Ok(());
        }
        put_moved(&member.class, &values[i], found)?;
    }
    Ok(())
}

/// Puts the integers of elements that set the clock after those that were found.
#[cycle(moved)]
fn put_elements(
    element: &Class,
    values: &[Value],
    found: &mut Vec<(Width, u64)>,
) -> Result<(), NoMemory>
    ensures { IfOk result
        (λ _. found.new.items ≡ found.old.items ++ fields.of_each (fields.moved (form element.now))
        (vals_of (map val values.now))) }
{
    for value in values {
        put_moved(element, value, found)?;
    }
    Ok(())
}

/// Puts the integers of a variant's option that set the clock after those that were found.
#[cycle(moved)]
fn put_option(
    options: &[Member],
    value: &Value,
    found: &mut Vec<(Width, u64)>,
) -> Result<(), NoMemory>
    ensures { IfOk result
        (λ _. found.new.items ≡
        found.old.items ++ fields.of_choice (fields.choice_in (val value.now))
        (λ i v. fields.option_moved (parts_of (map member_part options.now)) i v)) }
{
    match choice_in(value) {
        None => Ok(()),
        Some((i, inner)) => put_chosen(options, i, inner, found),
    }
}

/// Puts the integers of the value of option `i` that set the clock after those that were found.
#[cycle(moved)]
fn put_chosen(
    options: &[Member],
    i: usize,
    inner: &Value,
    found: &mut Vec<(Width, u64)>,
) -> Result<(), NoMemory>
    ensures { IfOk result
        (λ _. found.new.items ≡
        found.old.items ++ fields.option_moved (parts_of (map member_part options.now)) i
        (val inner.now)) }
{
    if i >= options.len() {
        return Ok(());
    }
    put_moved(&options[i].class, inner, found)
}

/// Puts an integer after those that were found, if it sets the clock.
fn put_integer(
    integer: &Integer,
    value: &Value,
    found: &mut Vec<(Width, u64)>,
) -> Result<(), NoMemory>
    ensures { IfOk result
        (λ _. found.new.items ≡ found.old.items ++ fields.moved_in integer.now (val value.now)) }
{
    if !integer.is_moving {
        return Ok(());
    }
    if integer.is_signed {
        put_signed(integer.size, value, found)
    } else {
        put_unsigned(integer.size, value, found)
    }
}

/// Puts an unsigned number, if the value is one and so many bits hold it.
fn put_unsigned(size: Width, value: &Value, found: &mut Vec<(Width, u64)>) -> Result<(), NoMemory>
    ensures { IfOk result
        (λ _. found.new.items ≡ found.old.items ++ fields.unsigned_pair size (val value.now)) }
{
    match value {
        Value::Unsigned(number) => put_number(size, *number, found),
        Value::Signed(_) => Ok(()),
        Value::Label(_) => Ok(()),
        Value::Text(_) => Ok(()),
        Value::Group(_) => Ok(()),
        Value::List(_) => Ok(()),
        Value::Choice(_, _) => Ok(()),
    }
}

/// Puts a number, if so many bits hold it.
fn put_number(size: Width, number: u64, found: &mut Vec<(Width, u64)>) -> Result<(), NoMemory>
    ensures { IfOk result
        (λ _. found.new.items ≡ found.old.items ++ fields.unsigned_pair size (unsigned number)) }
{
    if u128::from(number) < 1u128 << size.bits() {
        found.push((size, number))?;
    }
    Ok(())
}

/// Puts the bits of a signed number, if the value is one and so many hold it.
fn put_signed(size: Width, value: &Value, found: &mut Vec<(Width, u64)>) -> Result<(), NoMemory>
    ensures { IfOk result
        (λ _. found.new.items ≡ found.old.items ++ fields.signed_pair size (val value.now)) }
{
    match value {
        Value::Signed(number) => put_bits(size, *number, found),
        Value::Unsigned(_) => Ok(()),
        Value::Label(_) => Ok(()),
        Value::Text(_) => Ok(()),
        Value::Group(_) => Ok(()),
        Value::List(_) => Ok(()),
        Value::Choice(_, _) => Ok(()),
    }
}

/// Puts the bits of a number in two's complement, if so many hold it.
fn put_bits(size: Width, number: i64, found: &mut Vec<(Width, u64)>) -> Result<(), NoMemory>
    ensures { IfOk result
        (λ _. found.new.items ≡ found.old.items ++ fields.bits_pair size number) }
{
    let bits = size.bits();
    let half = 1u64 << (bits - 1);
    let far = number.unsigned_abs();
    if number < 0 {
        if far <= half {
            let unsigned = (1u128 << bits) - u128::from(far);
            found.push((size, unsigned as u64))?;
        }
    } else if far < half {
        found.push((size, far))?;
    }
    Ok(())
}
