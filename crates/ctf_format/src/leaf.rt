//! Texts of values without parts, straight from the packet's bits, with what is known of the value then.

ghost use Rattle.std.specs.Prelude.{ℕ, cond, pos, ◌≡◌, ◌+◌, ◌≤◌, take, vec_len, IfSome};
ghost use Rattle.ctf_bits.specs.Number.{number, signed_number};
ghost use Rattle.ctf_class.specs.declared.route.Length.{Length};
ghost use Rattle.ctf_class.specs.Integers.{bits_of};
ghost use Rattle.ctf_decode.specs.Forms as forms;
ghost use Rattle.ctf_format.specs.Put.{IsWithin};
ghost use Rattle.ctf_format.specs.Standing.{Before, Counts, Writes, ValueIs, known_of};
ghost use Rattle.ctf_decode.specs.Values.{label};
ghost use Rattle.ctf_format.specs.Texts as texts;

use crate::content::Content;
use crate::label::put_labelled;
use crate::standing::{
    AlignedInteger, Last, Next, Position, bits_at, put_fixed_text, put_integer, put_string,
};
use ctf_bits::{sint_within, uint_within};
use ctf_class::{Integer, LONGEST_NUMBER, Labels};

/// Writes an integer where there is room for it.
#[inline(always)]
pub(crate) fn put_one(
    class: &AlignedInteger<'_>,
    packet: &Content<'_>,
    from: Position,
    buffer: &mut Vec<u8>,
) -> Option<Next>
    requires start { from.place ≤ packet.now.end }
    requires room { from.text + LONGEST_NUMBER ≤ vec_len buffer.old }
    ensures puts { let line = take from.text buffer.old.items in let i = class.now.integer.now in
        let k = forms.integer class.now.align i in let shown = texts.integer_text i in
        (before : Before) →
        Writes result before k shown packet.now from.place line buffer.new.items }
    ensures within { IfSome result (λ n. IsWithin packet.now n.place buffer.new n.text) }
    ensures few { IfSome result (λ n. n.more ≡ 0) }
{
    let ends = put_integer(class, packet, from, buffer.as_mut_slice())?;
    Some(Next {
        place: ends.place,
        text: ends.text,
        more: 0,
        last: number_of(class.integer, ends.bits),
    })
}

/// What is known of the value of an integer with these bits.
#[inline(always)]
fn number_of(integer: &Integer, bits: u64) -> Last
    ensures { result ≡ known_of integer.now bits }
{
    if integer.is_signed {
        Last::Unknown
    } else {
        Last::Unsigned(bits)
    }
}

/// Writes a string.
pub(crate) fn put_string_value(
    packet: &Content<'_>,
    from: Position,
    buffer: &mut Vec<u8>,
) -> Option<Next>
    requires { IsWithin packet.now from.place buffer.old from.text }
    ensures puts { let line = take from.text buffer.old.items in let shown = texts.string_text in
        (before : Before) (a : ℕ) →
        Writes result before (forms.string a) shown packet.now from.place line buffer.new.items }
    ensures within { IfSome result (λ n. IsWithin packet.now n.place buffer.new n.text) }
    ensures few { IfSome result (λ n. n.more ≡ 0) }
{
    let ends = put_string(packet, from, buffer)?;
    Some(Next {
        place: ends.place,
        text: ends.text,
        more: 0,
        last: Last::Unknown,
    })
}

/// Writes a text of so many bytes.
pub(crate) fn put_text_value(
    count: u64,
    packet: &Content<'_>,
    from: Position,
    buffer: &mut Vec<u8>,
) -> Option<Next>
    requires { IsWithin packet.now from.place buffer.old from.text }
    ensures puts { let line = take from.text buffer.old.items in let shown = texts.string_text in
        (before : Before) (a : ℕ) (many : Length) → Counts many before count →
        let k = forms.text a many in
        Writes result before k shown packet.now from.place line buffer.new.items }
    ensures within { IfSome result (λ n. IsWithin packet.now n.place buffer.new n.text) }
    ensures few { IfSome result (λ n. n.more ≡ 0) }
{
    let ends = put_fixed_text(count, packet, from, buffer)?;
    Some(Next {
        place: ends.place,
        text: ends.text,
        more: 0,
        last: Last::Unknown,
    })
}

/// Writes an enumeration of these labels.
#[inline(never)]
pub(crate) fn put_enumeration(
    container: &AlignedInteger<'_>,
    labels: &Labels,
    packet: &Content<'_>,
    from: Position,
    buffer: &mut Vec<u8>,
) -> Option<Next>
    requires { IsWithin packet.now from.place buffer.old from.text }
    ensures puts { let line = take from.text buffer.old.items in
        let i = container.now.integer.now in let k = forms.enumeration container.now.align i in
        let shown = texts.enumeration_text i labels.now in (before : Before) →
        Writes result before k shown packet.now from.place line buffer.new.items }
    ensures within { IfSome result (λ n. IsWithin packet.now n.place buffer.new n.text) }
    ensures few { IfSome result (λ n. n.more ≡ 0) }
{
    let integer = container.integer;
    let at = bits_at(integer, container.align, packet, from.place)?;
    let number = number_at(integer, packet, at.begin);
    let text = put_labelled(integer, labels, number, buffer, from.text).ok()?;
    Some(Next {
        place: at.end,
        text,
        more: 0,
        last: label_of(number),
    })
}

/// The number of an enumeration that begins at a place.
#[inline(always)]
pub(crate) fn number_at(container: &Integer, packet: &Content<'_>, begin: u64) -> i128
    requires { begin + bits_of container.now ≤ packet.now.end }
    ensures { let i = container.now in let bytes = packet.now.bytes.now in let size = bits_of i in
        let above = pos (number i.order bytes begin size) in
        cond i.is_signed (signed_number i.order bytes begin size) above ≡ result }
{
    let size = container.size.bits();
    if container.is_signed {
        i128::from(sint_within(packet.bytes, begin, size, container.order))
    } else {
        i128::from(uint_within(packet.bytes, begin, size, container.order))
    }
}

/// What is known of an enumeration with this number.
#[inline(always)]
pub(crate) fn label_of(number: i128) -> Last
    ensures { ValueIs result (label number) }
{
    match i64::try_from(number) {
        Ok(number) => Last::Label(number),
        Err(_) => Last::Unknown,
    }
}
