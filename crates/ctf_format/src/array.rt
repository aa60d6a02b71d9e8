//! Texts of arrays of integers, straight from the packet's bits.

ghost use Rattle.std.specs.Prelude.{◌≡◌, ◌∷◌, ◌≤◌, take, ℕ, IfSome};
ghost use Rattle.std.specs.Int.{next_multiple_of};
ghost use Rattle.ctf_class.specs.declared.route.Length.{Length};
ghost use Rattle.ctf_decode.specs.Forms as forms;
ghost use Rattle.ctf_format.specs.Put.{IsWithin};
ghost use Rattle.ctf_format.specs.Rows.{row, enclosed};
ghost use Rattle.ctf_format.specs.Standing.{Before, PutsOne, PutsElements, Counts, Writes, elements_text};
ghost use Rattle.ctf_format.specs.Texts as texts;

use crate::byte_integers::ByteIntegers;
use crate::content::Content;
use crate::element::{ElementLead, put_index};
use crate::mark::{put_end, put_nothing};
use crate::standing::{AlignedInteger, Last, Next, Position, put_integer};
use ctf_class::Align;
use ctf_decode::MOST_VALUES;

/// Writes an array of so many integers.
#[inline(never)]
pub(crate) fn put_integers(
    class: &AlignedInteger<'_>,
    count: u64,
    packet: &Content<'_>,
    from: Position,
    buffer: &mut Vec<u8>,
) -> Option<Next>
    requires { IsWithin packet.now from.place buffer.old from.text }
    ensures puts { let line = take from.text buffer.old.items in
        let integer = class.now.integer.now in let shown = elements_text integer in
        (before : Before) (many : Length) (a : ℕ) → Counts many before count →
        let k = forms.array a many (forms.integer class.now.align integer) in
        Writes result before k shown packet.now from.place line buffer.new.items }
    ensures within { IfSome result (λ n. IsWithin packet.now n.place buffer.new n.text) }
    ensures few { IfSome result (λ n. n.more ≤ MOST_VALUES) }
{
    if count > MOST_VALUES {
        return None;
    }
    let place = begin_at(class.align, packet, from.place)?;
    let begin = Position {
        place,
        text: from.text,
    };
    let ends = put_elements(class, count, packet, begin, buffer)?;
    Some(Next {
        place: ends.place,
        text: ends.text,
        more: count,
        last: Last::Unknown,
    })
}

/// Where a value begins that could begin at a place, if the content goes so far.
#[inline(always)]
pub(crate) fn begin_at(align: Align, packet: &Content<'_>, place: u64) -> Option<u64>
    requires start { place ≤ packet.now.end }
    ensures begin { IfSome result (λ begin. begin ≡ next_multiple_of place align) }
    ensures within { IfSome result (λ begin. begin ≤ packet.now.end) }
{
    let begin = align.up(place);
    if begin > packet.end {
        return None;
    }
    Some(begin)
}

/// Writes so many integers as the elements of an array.
fn put_elements(
    class: &AlignedInteger<'_>,
    count: u64,
    packet: &Content<'_>,
    from: Position,
    buffer: &mut Vec<u8>,
) -> Option<Position>
    requires few { count ≤ MOST_VALUES }
    requires within { IsWithin packet.now from.place buffer.old from.text }
    ensures puts { let line = take from.text buffer.old.items in
        let integer = class.now.integer.now in let k = forms.integer class.now.align integer in
        IfSome result (λ e. PutsElements (enclosed 91 93) k (texts.integer_text integer) 1 count
        packet.now.bytes.now packet.now.end from.place e.place line
        (take e.text buffer.new.items)) }
    ensures within { IfSome result (λ e. IsWithin packet.now e.place buffer.new e.text) }
{
    if count == 0 {
        let text = put_nothing(b'[', b']', buffer, from.text).ok()?;
        return Some(Position {
            place: from.place,
            text,
        });
    }
    let ends = put_row(class, count, packet, from, buffer)?;
    let text = put_end(b']', buffer, ends.text).ok()?;
    Some(Position {
        place: ends.place,
        text,
    })
}

/// Writes so many integers, the first after `[`. Mostly they are of whole bytes.
#[inline(always)]
fn put_row(
    class: &AlignedInteger<'_>,
    count: u64,
    packet: &Content<'_>,
    from: Position,
    buffer: &mut Vec<u8>,
) -> Option<Position>
    requires few { count ≤ MOST_VALUES }
    requires within { IsWithin packet.now from.place buffer.old from.text }
    ensures puts { let line = take from.text buffer.old.items in
        let integer = class.now.integer.now in let k = forms.integer class.now.align integer in
        IfSome result (λ e. PutsElements (row 91) k (texts.integer_text integer) 1 count
        packet.now.bytes.now packet.now.end from.place e.place line
        (take e.text buffer.new.items)) }
    ensures within { IfSome result (λ e. IsWithin packet.now e.place buffer.new e.text) }
{
    match ByteIntegers::new(class, count, packet, from.place) {
        Some(are) => {
            let text = are.put_row(buffer, from.text).ok()?;
            Some(Position {
                place: are.end(),
                text,
            })
        }
        None => put_any_row(class, count, packet, from, buffer),
    }
}

/// Writes so many integers of any size, wherever they begin, the first after `[`.
#[inline(never)]
fn put_any_row(
    class: &AlignedInteger<'_>,
    count: u64,
    packet: &Content<'_>,
    from: Position,
    buffer: &mut Vec<u8>,
) -> Option<Position>
    requires { IsWithin packet.now from.place buffer.old from.text }
    ensures puts { let line = take from.text buffer.old.items in
        let integer = class.now.integer.now in let k = forms.integer class.now.align integer in
        IfSome result (λ e. PutsElements (row 91) k (texts.integer_text integer) 1 count
        packet.now.bytes.now packet.now.end from.place e.place line
        (take e.text buffer.new.items)) }
    ensures within { IfSome result (λ e. IsWithin packet.now e.place buffer.new e.text) }
{
    // A copy, so that it does not go through memory at each element.
    let class = AlignedInteger {
        integer: class.integer,
        align: class.align,
    };
    let mut at = from;
    let mut mark = b'[';
    for i in 0..count {
        let index = i as usize;
        at = put_element(ElementLead { mark, index }, &class, packet, at, buffer)?;
        mark = b',';
    }
    Some(at)
}

/// Writes an integer that is an element, after its mark and its index.
#[inline(always)]
fn put_element(
    lead: ElementLead,
    class: &AlignedInteger<'_>,
    packet: &Content<'_>,
    from: Position,
    buffer: &mut Vec<u8>,
) -> Option<Position>
    requires { IsWithin packet.now from.place buffer.old from.text }
    ensures puts { let line = take from.text buffer.old.items in
        let integer = class.now.integer.now in IfSome result
        (λ e. PutsOne (forms.integer class.now.align integer)
        (λ v. lead.mark ∷ 32 ∷ texts.element_text (texts.integer_text integer) lead.index v)
        packet.now.bytes.now packet.now.end from.place e.place line
        (take e.text buffer.new.items)) }
    ensures within { IfSome result (λ e. IsWithin packet.now e.place buffer.new e.text) }
{
    let text = put_index(lead, buffer, from.text).ok()?;
    let place = from.place;
    let begin = Position { place, text };
    let ends = put_integer(class, packet, begin, buffer.as_mut_slice())?;
    Some(Position {
        place: ends.place,
        text: ends.text,
    })
}
