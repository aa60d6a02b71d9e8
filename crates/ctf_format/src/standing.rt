//! Texts of values, straight from the packet's bits.

ghost use Rattle.std.specs.Prelude.{ℕ, List, pos, ◌≡◌, true, false, ◌+◌, ◌*◌, ◌^◌, ◌++◌, ◌≤◌, ◌<◌, Some, length, nat_eq, not, position, take, vec_len, IfOk, IfSome, IsTrue};
ghost use Rattle.std.specs.Int.{next_multiple_of};
ghost use Rattle.std.specs.List.{take_while};
ghost use Rattle.ctf_bits.specs.Number.{number, signed_number};
ghost use Rattle.ctf_class.specs.Integers.{bits_of};
ghost use Rattle.ctf_class.specs.Names.{label_text};
ghost use Rattle.ctf_class.specs.declared.route.Length.TheVariants.{Fixed};
ghost use Rattle.ctf_decode.specs.Forms as forms;
ghost use Rattle.ctf_format.specs.Numbers.{number_text};
ghost use Rattle.ctf_format.specs.Put.{IsPut, IsWithin};
ghost use Rattle.ctf_format.specs.Standing.{PutsOne, StandsAsNumber};
ghost use Rattle.ctf_format.specs.Texts as texts;

use crate::content::Content;
use crate::number::{put_signed_number, put_unsigned_number};
use crate::text::put_quoted;
use crate::window::{
    count_long, count_longer, count_short, count_text, first_zero, put_long, put_longer, put_short,
};
use ctf_bits::{is_unsigned, sint_within, uint_within, up};
use ctf_class::{Align, Integer, LONGEST_NUMBER};
use ctf_decode::{bytes_at, bytes_from};
use ctf_list::NoMemory;

/// Where a structure ends whose text was written.
#[derive(Clone, Copy)]
pub struct Standing {
    /// Where its value ends, in bits from the packet's first one.
    pub place: u64,
    /// How many values were begun so far.
    pub spent: u64,
    /// The index after its text, in bytes.
    pub end: usize,
}

/// The value of a member, as far as it is known to a length or a tag after it.
#[derive(Clone, Copy)]
pub(crate) enum Last {
    Unknown,
    /// An unsigned integer.
    Unsigned(u64),
    /// The number of an enumeration.
    Label(i64),
}

/// Where a value ends, in bits from the packet's first one, the index after its text, how many values were begun in it,
/// and what is known of it.
#[derive(Clone, Copy)]
pub(crate) struct Next {
    pub(crate) place: u64,
    pub(crate) text: usize,
    pub(crate) more: u64,
    pub(crate) last: Last,
}

/// Where members or elements end, in bits from the packet's first one, the index after their texts, and how many values
/// were begun in them.
#[derive(Clone, Copy)]
pub(crate) struct MembersEnd {
    pub(crate) place: u64,
    pub(crate) text: usize,
    pub(crate) more: u64,
}

/// A place in bits from the packet's first one, and an index in a buffer, in bytes: where a value and its text begin,
/// or end.
#[derive(Clone, Copy)]
pub(crate) struct Position {
    pub(crate) place: u64,
    pub(crate) text: usize,
}

/// An integer class (CTF 1.8.3, section 4.1.5) and its alignment.
#[derive(Clone, Copy)]
pub(crate) struct AlignedInteger<'a> {
    pub(crate) integer: &'a Integer,
    pub(crate) align: Align,
}

/// Where an integer ends, in bits from the packet's first one, the index after its text, and its bits.
#[derive(Clone, Copy)]
pub(crate) struct IntegerEnds {
    pub(crate) place: u64,
    pub(crate) text: usize,
    pub(crate) bits: u64,
}

/// Where an integer begins and ends, in bits from the packet's first one.
#[derive(Clone, Copy)]
pub(crate) struct Bits {
    pub(crate) begin: u64,
    pub(crate) end: u64,
}

/// The bits of an integer that could begin at a place, if they are within the packet's content.
#[inline(always)]
pub(crate) fn bits_at(
    integer: &Integer,
    align: Align,
    packet: &Content<'_>,
    place: u64,
) -> Option<Bits>
    requires start { place ≤ packet.now.end }
    ensures begin { IfSome result (λ bits. bits.begin ≡ next_multiple_of place align) }
    ensures end { IfSome result
        (λ bits. bits.end ≡ next_multiple_of place align + bits_of integer.now) }
    ensures within { IfSome result (λ bits. bits.end ≤ packet.now.end) }
{
    let begin = align.up(place);
    let end = begin + u64::from(integer.size.bits());
    if end > packet.end {
        return None;
    }
    Some(Bits { begin, end })
}

/// Writes an integer. Mostly it is not negative, so that its bits are its number.
#[inline(always)]
pub(crate) fn put_integer(
    class: &AlignedInteger<'_>,
    packet: &Content<'_>,
    from: Position,
    line: &mut [u8],
) -> Option<IntegerEnds>
    requires start { from.place ≤ packet.now.end }
    requires room { from.text + LONGEST_NUMBER ≤ length line.old }
    ensures puts { let content = packet.now in let integer = class.now.integer.now in
        let form = forms.integer class.now.align integer in
        let shown = texts.integer_text integer in let before = take from.text line.old in
        IfSome result (λ e. PutsOne form shown content.bytes.now content.end from.place e.place
        before (take e.text line.new)) }
    ensures within { IfSome result (λ e. e.place ≤ packet.now.end) }
    ensures near { IfSome result (λ e. e.text ≤ from.text + LONGEST_NUMBER) }
    ensures number { let content = packet.now in let integer = class.now.integer.now in
        let form = forms.integer class.now.align integer in
        IfSome result (λ e. integer.is_signed ≡ false →
        StandsAsNumber form content.bytes.now content.end from.place e.bits) }
{
    let integer = class.integer;
    let at = bits_at(integer, class.align, packet, from.place)?;
    let size = integer.size.bits();
    let bits = uint_within(packet.bytes, at.begin, size, integer.order);
    if is_negative(integer, bits) {
        let number = sint_within(packet.bytes, at.begin, size, integer.order);
        return Some(IntegerEnds {
            place: at.end,
            text: put_negative(integer, number, line, from.text),
            bits,
        });
    }
    Some(IntegerEnds {
        place: at.end,
        text: put_unsigned_number(integer, bits, line, from.text),
        bits,
    })
}

/// Whether the number of an integer with these bits is below zero.
#[inline(always)]
fn is_negative(integer: &Integer, bits: u64) -> bool
    requires { bits < 2 ^ bits_of integer.now }
    ensures signed { IsTrue result → integer.now.is_signed ≡ true }
    ensures plain { let i = integer.now in let size = bits_of i in
        result ≡ false → i.is_signed ≡ true → (bytes : List ℕ) (p : ℕ) →
        bits ≡ number i.order bytes p size → signed_number i.order bytes p size ≡ pos bits }
{
    integer.is_signed & !is_unsigned(bits, integer.size.bits())
}

/// Writes the number of an integer, out of the way of those that are not negative.
#[cold]
#[inline(never)]
pub(crate) fn put_negative(integer: &Integer, number: i64, line: &mut [u8], at: usize) -> usize
    requires room { at + LONGEST_NUMBER ≤ length line.old }
    ensures text { take result line.new ≡ take at line.old ++ number_text integer.now number }
    ensures near { result ≤ at + LONGEST_NUMBER }
{
    put_signed_number(integer, number, line, at)
}

/// Writes a string. Mostly it is a short one.
#[inline(always)]
pub(crate) fn put_string(
    packet: &Content<'_>,
    from: Position,
    buffer: &mut Vec<u8>,
) -> Option<Position>
    requires { IsWithin packet.now from.place buffer.old from.text }
    ensures puts { let content = packet.now in let before = take from.text buffer.old.items in
        IfSome result (λ e. (a : ℕ) → PutsOne (forms.string a) texts.string_text
        content.bytes.now content.end from.place e.place before (take e.text buffer.new.items)) }
    ensures within { IfSome result (λ e. IsWithin packet.now e.place buffer.new e.text) }
{
    let at = from.text;
    let begin = up(from.place, 8);
    if begin > packet.end {
        return None;
    }
    let bytes = bytes_from(packet.bytes, packet.end, begin);
    if let Some(count) = count_short(bytes, buffer.len() - at) {
        return Some(Position {
            place: begin + 8 * (count as u64 + 1),
            text: put_short(bytes, count, buffer, at),
        });
    }
    put_longer_string(bytes, begin, buffer, at)
}

/// Writes the string that these bytes, which begin at this place, begin with. It is out of the way of short ones.
#[inline(never)]
fn put_longer_string(bytes: &[u8], begin: u64, buffer: &mut Vec<u8>, at: usize) -> Option<Position>
    requires bounded { begin + 8 * length bytes.now ≤ 2 ^ 62 }
    requires index { at ≤ vec_len buffer.old }
    ensures puts { IfSome result (λ e.
        (n : ℕ) × (position (λ x. nat_eq x 0) bytes.now ≡ Some n) ×
        (e.place ≡ begin + 8 * (n + 1)) ×
        IsPut buffer.old at (label_text (take n bytes.now)) buffer.new e.text) }
    ensures within { IfSome result (λ e. e.place ≤ begin + 8 * length bytes.now) }
{
    if let Some(count) = count_longer(bytes, buffer.len() - at) {
        let place = begin + 8 * (count as u64 + 1);
        let text = put_longer(bytes, count, buffer, at);
        return Some(Position { place, text });
    }
    put_long_string(bytes, begin, buffer, at)
}

/// Writes the string of any length that these bytes, which begin at this place, begin with. Mostly nothing of it is
/// escaped.
#[inline(never)]
fn put_long_string(bytes: &[u8], begin: u64, buffer: &mut Vec<u8>, at: usize) -> Option<Position>
    requires bounded { begin + 8 * length bytes.now ≤ 2 ^ 62 }
    requires index { at ≤ vec_len buffer.old }
    ensures puts { IfSome result (λ e.
        (n : ℕ) × (position (λ x. nat_eq x 0) bytes.now ≡ Some n) ×
        (e.place ≡ begin + 8 * (n + 1)) ×
        IsPut buffer.old at (label_text (take n bytes.now)) buffer.new e.text) }
    ensures within { IfSome result (λ e. e.place ≤ begin + 8 * length bytes.now) }
{
    if let Some(count) = count_long(bytes) {
        let place = begin + 8 * (count as u64 + 1);
        let text = put_long(bytes, count, buffer, at).ok()?;
        return Some(Position { place, text });
    }
    let count = first_zero(bytes)?;
    let text = put_quoted(&bytes[..count], buffer, at).ok()?;
    Some(Position {
        place: begin + 8 * (count as u64 + 1),
        text,
    })
}

/// Writes a text of so many bytes.
#[inline(always)]
pub(crate) fn put_fixed_text(
    count: u64,
    packet: &Content<'_>,
    from: Position,
    buffer: &mut Vec<u8>,
) -> Option<Position>
    requires { IsWithin packet.now from.place buffer.old from.text }
    ensures puts { let content = packet.now in let before = take from.text buffer.old.items in
        IfSome result (λ e. (a : ℕ) → PutsOne (forms.text a (Fixed count)) texts.string_text
        content.bytes.now content.end from.place e.place before (take e.text buffer.new.items)) }
    ensures within { IfSome result (λ e. IsWithin packet.now e.place buffer.new e.text) }
{
    let at = from.text;
    let begin = up(from.place, 8);
    if begin > packet.end {
        return None;
    }
    if count > (packet.end - begin) / 8 {
        return None;
    }
    let bytes = bytes_at(packet.bytes, begin, count);
    if let Some(short) = count_short(bytes, buffer.len() - at) {
        return Some(Position {
            place: begin + 8 * count,
            text: put_short(bytes, short, buffer, at),
        });
    }
    let text = put_longer_text(bytes, buffer, at).ok()?;
    Some(Position {
        place: begin + 8 * count,
        text,
    })
}

/// Writes the bytes before the first zero byte, or all of them, and gives the index after their text. What is before
/// the index is kept. At an error the buffer is unspecified.
#[inline(never)]
fn put_longer_text(bytes: &[u8], buffer: &mut Vec<u8>, at: usize) -> Result<usize, NoMemory>
    requires { at ≤ vec_len buffer.old }
    ensures { let shown = take_while (λ x. not (nat_eq x 0)) bytes.now in
        IfOk result (IsPut buffer.old at (label_text shown) buffer.new) }
{
    if let Some(count) = count_longer(bytes, buffer.len() - at) {
        return Ok(put_longer(bytes, count, buffer, at));
    }
    match count_text(bytes) {
        Some(count) => put_long(bytes, count, buffer, at),
        None => put_quoted(up_to_zero(bytes), buffer, at),
    }
}

/// The bytes before the first zero byte, or all of them.
fn up_to_zero(bytes: &[u8]) -> &[u8]
    ensures { result.now ≡ take_while (λ x. not (nat_eq x 0)) bytes.now }
{
    match first_zero(bytes) {
        Some(count) => &bytes[..count],
        None => bytes,
    }
}
