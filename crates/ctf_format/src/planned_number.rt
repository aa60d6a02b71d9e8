//! Texts of integers at fixed distances.

ghost use Rattle.std.specs.Prelude.{◌≡◌, ◌+◌, ◌/◌, ◌++◌, ◌≤◌, length, take, false, true};
ghost use Rattle.ctf_bits.specs.declared.number.Order.TheVariants.{Le};
ghost use Rattle.std.specs.Fmt.{signed_decimal};
ghost use Rattle.std.specs.List.{All, flat_map};
ghost use Rattle.ctf_bits.specs.Placed.{number_after};
ghost use Rattle.ctf_class.specs.Records.{have_special, numbers_room};
ghost use Rattle.ctf_format.specs.Numbers.{number_text};
ghost use Rattle.ctf_format.specs.RunNumbers.{IsPlaced, number_at, place_in, run_text};

use crate::decimal::{put_signed_short, put_unsigned};
use crate::number::put_unsigned_number;
use crate::standing::put_negative;
use ctf_bits::{Order, Window};
use ctf_class::{LONGEST_NUMBER, PlannedNumber};

/// Writes numbers of a run that begins after so many bytes at an index of a line, and gives the index after them. All
/// are usual.
#[inline(always)]
pub(crate) fn put_usual_numbers(
    numbers: &[PlannedNumber],
    bytes: &[u8],
    first: usize,
    line: &mut [u8],
    at: usize,
) -> usize
    requires room { at + numbers_room numbers.now ≤ length line.old }
    requires held { All (λ n. first + n.window.place / 8 + 8 ≤ length bytes.now) numbers.now }
    requires placed { All IsPlaced numbers.now }
    requires usual { have_special numbers.now ≡ false }
    ensures text { take result line.new ≡
        take at line.old ++ flat_map (run_text bytes.now first) numbers.now }
    ensures near { result + 24 ≤ at + numbers_room numbers.now }
{
    let mut text = at;
    for number in numbers {
        text = put_number(number, bytes, first, line, text);
    }
    text
}

/// Writes numbers of a run that begins after so many bytes at an index of a line, and gives the index after them. They
/// are of any base and byte order.
pub(crate) fn put_special_numbers(
    numbers: &[PlannedNumber],
    bytes: &[u8],
    first: usize,
    line: &mut [u8],
    at: usize,
) -> usize
    requires room { at + numbers_room numbers.now ≤ length line.old }
    requires held { All (λ n. first + n.window.place / 8 + 8 ≤ length bytes.now) numbers.now }
    requires placed { All IsPlaced numbers.now }
    ensures text { take result line.new ≡
        take at line.old ++ flat_map (run_text bytes.now first) numbers.now }
    ensures near { result + 24 ≤ at + numbers_room numbers.now }
{
    let mut text = at;
    for number in numbers {
        text = put_any_number(number, bytes, first, line, text);
    }
    text
}

/// Writes a usual number: in decimal, little endian. Mostly it is not below zero.
#[inline(always)]
fn put_number(
    number: &PlannedNumber,
    bytes: &[u8],
    first: usize,
    line: &mut [u8],
    at: usize,
) -> usize
    requires room { at + length number.now.ready + 48 ≤ length line.old }
    requires held { first + number.now.window.place / 8 + 8 ≤ length bytes.now }
    requires placed { IsPlaced number.now }
    requires usual { number.now.is_special ≡ false }
    ensures text { take result line.new ≡ take at line.old ++ run_text bytes.now first number.now }
    ensures near { result ≤ at + length number.now.ready + 24 }
{
    let begin = number.ready.put(line, at);
    match number.window.number(bytes, first, Order::Le) {
        Some(value) => put_unsigned(value, line, begin),
        None => put_below_zero(&number.window, bytes, first, line, begin),
    }
}

/// Writes a number that is below zero.
#[cold]
#[inline(never)]
fn put_below_zero(window: &Window, bytes: &[u8], first: usize, line: &mut [u8], at: usize) -> usize
    requires signed { window.now.is_signed ≡ true }
    requires room { at + 21 ≤ length line.old }
    requires held { first + window.now.place / 8 + 8 ≤ length bytes.now }
    ensures text { take result line.new ≡
        take at line.old ++ signed_decimal (number_after Le window.now bytes.now first) }
    ensures near { result ≤ at + 21 }
{
    put_signed_short(window.signed(bytes, first, Order::Le), line, at)
}

/// Writes a number of any base and byte order. Mostly it is not below zero.
#[inline(always)]
fn put_any_number(
    number: &PlannedNumber,
    bytes: &[u8],
    first: usize,
    line: &mut [u8],
    at: usize,
) -> usize
    requires room { at + length number.now.ready + 90 ≤ length line.old }
    requires held { first + number.now.window.place / 8 + 8 ≤ length bytes.now }
    requires placed { IsPlaced number.now }
    ensures text { take result line.new ≡ take at line.old ++ run_text bytes.now first number.now }
    ensures near { result ≤ at + length number.now.ready + 66 }
{
    if !number.is_special {
        return put_number(number, bytes, first, line, at);
    }
    let integer = &number.integer;
    let begin = number.ready.put(line, at);
    let number_is = match integer.order {
        Order::Le => number.window.number(bytes, first, Order::Le),
        Order::Be => number.window.number(bytes, first, Order::Be),
    };
    match number_is {
        Some(value) => put_unsigned_number(integer, value, line, begin),
        None => put_special_below_zero(number, bytes, first, line, begin),
    }
}

/// Writes a number of any base and byte order that is below zero.
#[cold]
#[inline(never)]
fn put_special_below_zero(
    number: &PlannedNumber,
    bytes: &[u8],
    first: usize,
    line: &mut [u8],
    at: usize,
) -> usize
    requires signed { number.now.window.is_signed ≡ true }
    requires room { at + LONGEST_NUMBER ≤ length line.old }
    requires held { first + number.now.window.place / 8 + 8 ≤ length bytes.now }
    requires placed { IsPlaced number.now }
    ensures text { let n = number.now in take result line.new ≡
        take at line.old ++ number_text n.integer
        (number_at n.integer bytes.now (place_in first n)) }
    ensures near { result ≤ at + LONGEST_NUMBER }
{
    let value = number.window.signed(bytes, first, number.integer.order);
    put_negative(&number.integer, value, line, at)
}
