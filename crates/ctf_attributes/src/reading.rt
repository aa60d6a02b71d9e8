//! What words and constants mean.

ghost use Rattle.std.specs.Prelude.{◌≡◌, option_copied};
ghost use Rattle.ctf_meaning.specs.Settings.{trace_order_of, is_text_of};
ghost use Rattle.ctf_meaning.specs.Integers.{clock_in, sign_of, base_of, order_of};
ghost use Rattle.ctf_meaning.specs.Clocks.{frequency_of, offset_of};

use crate::ends::{after, before};
use crate::value::{count, is_count, number, says};
use ctf_bits::Order;
use ctf_class::{Base, Frequency};
use tsdl_tree::Value;

/// The byte order of a trace (CTF 1.8.3, section 4.1.3).
pub fn trace_order(value: &Value) -> Option<Order>
    ensures { result ≡ trace_order_of value.now }
{
    if says(value, &[b"le"]) {
        Some(Order::Le)
    } else if says(value, &[b"be", b"network"]) {
        Some(Order::Be)
    } else {
        None
    }
}

/// Whether an encoding is one of characters (CTF 1.8.3, sections 4.1.5 and 4.2.5).
pub fn is_text(value: &Value) -> Option<bool>
    ensures { result ≡ is_text_of value.now }
{
    if says(value, &[b"UTF8", b"utf8", b"ASCII", b"ascii"]) {
        Some(true)
    } else if says(value, &[b"none", b"NONE"]) {
        Some(false)
    } else {
        None
    }
}

/// Whether an integer is signed (CTF 1.8.3, section 4.1.5).
pub fn sign(value: &Value) -> Option<bool>
    ensures { result ≡ sign_of value.now }
{
    if says(value, &[b"true", b"TRUE", b"1"]) || is_count(value, 1) {
        Some(true)
    } else if says(value, &[b"false", b"FALSE", b"0"]) || is_count(value, 0) {
        Some(false)
    } else {
        None
    }
}

/// The byte order of an integer, where the inner `None` is the trace's (CTF 1.8.3, section 4.1.5).
pub fn order(value: &Value) -> Option<Option<Order>>
    ensures { result ≡ order_of value.now }
{
    if says(value, &[b"native"]) {
        return Some(None);
    }
    Some(Some(trace_order(value)?))
}

/// The base of an integer (CTF 1.8.3, section 4.1.5).
pub fn base(value: &Value) -> Option<Base>
    ensures { result ≡ base_of value.now }
{
    if says(value, &[b"10", b"decimal", b"dec", b"d", b"i", b"u"]) || is_count(value, 10) {
        Some(Base::Decimal)
    } else if says(value, &[b"16", b"hexadecimal", b"hex", b"x", b"X", b"p"])
        || is_count(value, 16)
    {
        Some(Base::Hexadecimal)
    } else if says(value, &[b"8", b"octal", b"oct", b"o"]) || is_count(value, 8) {
        Some(Base::Octal)
    } else if says(value, &[b"2", b"binary", b"b"]) || is_count(value, 2) {
        Some(Base::Binary)
    } else {
        None
    }
}

/// How fast a clock is: from 1 to 2^64 - 1 cycles a second (CTF 1.8.3, section 8).
pub fn frequency(value: &Value) -> Option<Frequency>
    ensures { result ≡ frequency_of value.now }
{
    Frequency::new(count(value)?)
}

/// The offset of a clock, from -2^63 to 2^63 - 1 (CTF 1.8.3, section 8).
pub fn offset(value: &Value) -> Option<i64>
    ensures { result ≡ offset_of value.now }
{
    let offset = number(value)?;
    if offset < i128::from(i64::MIN) || offset > i128::from(i64::MAX) {
        return None;
    }
    Some(offset as i64)
}

/// The clock's name in `clock.NAME.value` (CTF 1.8.3, section 8).
pub fn clock_name(text: &[u8]) -> Option<&[u8]>
    ensures { option_copied result ≡ clock_in text.now }
{
    before(b".value", after(b"clock.", text)?)
}
