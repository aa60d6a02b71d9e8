//! Texts of structures of integers at fixed distances, and of arrays of them, straight from the packet's bits.

ghost use Rattle.std.specs.Prelude.{◌≡◌, ◌∷◌, ◌≤◌, ◌+◌, ◌/◌, ℕ, length, take, vec_len, IfSome};
ghost use Rattle.std.specs.List.{All, flat_map};
ghost use Rattle.ctf_class.specs.Records.{IsStructure};
ghost use Rattle.ctf_class.specs.declared.class.Class.{Class};
ghost use Rattle.ctf_class.specs.declared.route.Length.{Length};
ghost use Rattle.ctf_decode.specs.Forms as forms;
ghost use Rattle.ctf_decode.specs.Views.{form};
ghost use Rattle.ctf_format.specs.Put.{IsPut, IsWithin};
ghost use Rattle.ctf_format.specs.Rows.{row, enclosed};
ghost use Rattle.ctf_format.specs.RunNumbers.{run_text};
ghost use Rattle.ctf_format.specs.Standing.{Before, PutsSome, PutsElements, Counts, Writes, array_text};
ghost use Rattle.ctf_format.specs.Structures.{IsNearStructure};
ghost use Rattle.ctf_format.specs.Texts as texts;

use crate::array::begin_at;
use crate::content::Content;
use crate::element::{ElementLead, put_index};
use crate::mark::{put_end, put_nothing};
use crate::planned_number::{put_special_numbers, put_usual_numbers};
use crate::room::with_room;
use crate::standing::{Last, Next, Position};
use ctf_class::Structures;
use ctf_decode::MOST_VALUES;

/// Writes an array of so many structures.
#[inline(always)]
pub(crate) fn put_structures(
    are: &Structures,
    count: u64,
    packet: &Content<'_>,
    from: Position,
    buffer: &mut Vec<u8>,
) -> Option<Next>
    requires near { IsNearStructure are.now }
    requires within { IsWithin packet.now from.place buffer.old from.text }
    ensures puts { let line = take from.text buffer.old.items in (k : Class) →
        IsStructure k are.now → let shown = array_text (texts.value_text k) in
        (before : Before) (many : Length) (a : ℕ) → Counts many before count →
        Writes result before (forms.array a many (form k)) shown packet.now from.place line
        buffer.new.items }
    ensures within { IfSome result (λ n. IsWithin packet.now n.place buffer.new n.text) }
    ensures few { IfSome result (λ n. n.more ≤ MOST_VALUES) }
{
    let more = count.checked_mul(are.count)?;
    if more > MOST_VALUES {
        return None;
    }
    let place = begin_at(are.align, packet, from.place)?;
    let begin = Position {
        place,
        text: from.text,
    };
    let ends = put_elements(are, count, packet, begin, buffer)?;
    Some(Next {
        place: ends.place,
        text: ends.text,
        more,
        last: Last::Unknown,
    })
}

/// Writes so many structures as the elements of an array.
#[inline(always)]
fn put_elements(
    are: &Structures,
    count: u64,
    packet: &Content<'_>,
    from: Position,
    buffer: &mut Vec<u8>,
) -> Option<Position>
    requires near { IsNearStructure are.now }
    requires within { IsWithin packet.now from.place buffer.old from.text }
    ensures puts { let line = take from.text buffer.old.items in (k : Class) →
        IsStructure k are.now →
        IfSome result (λ e. PutsElements (enclosed 91 93) (form k) (texts.value_text k)
        are.now.count count packet.now.bytes.now packet.now.end from.place e.place line
        (take e.text buffer.new.items)) }
    ensures within { IfSome result (λ e. IsWithin packet.now e.place buffer.new e.text) }
{
    if count == 0 {
        let text = put_nothing(b'[', b']', buffer, from.text).ok()?;
        return Some(Position {
            place: from.place,
            text,
        });
    }
    let ends = put_row(are, count, packet, from, buffer)?;
    let text = put_end(b']', buffer, ends.text).ok()?;
    Some(Position {
        place: ends.place,
        text,
    })
}

/// Writes so many structures, the first after `[`.
#[inline(always)]
fn put_row(
    are: &Structures,
    count: u64,
    packet: &Content<'_>,
    from: Position,
    buffer: &mut Vec<u8>,
) -> Option<Position>
    requires near { IsNearStructure are.now }
    requires within { IsWithin packet.now from.place buffer.old from.text }
    ensures puts { let line = take from.text buffer.old.items in (k : Class) →
        IsStructure k are.now →
        IfSome result (λ e. PutsElements (row 91) (form k) (texts.value_text k) are.now.count count
        packet.now.bytes.now packet.now.end from.place e.place line
        (take e.text buffer.new.items)) }
    ensures within { IfSome result (λ e. IsWithin packet.now e.place buffer.new e.text) }
{
    let mut at = from;
    let mut mark = b'[';
    for i in 0..count {
        let index = i as usize;
        at = put_element(ElementLead { mark, index }, are, packet, at, buffer)?;
        mark = b',';
    }
    Some(at)
}

/// Writes a structure that is an element, after its mark and its index.
#[inline(always)]
fn put_element(
    lead: ElementLead,
    are: &Structures,
    packet: &Content<'_>,
    from: Position,
    buffer: &mut Vec<u8>,
) -> Option<Position>
    requires near { IsNearStructure are.now }
    requires within { IsWithin packet.now from.place buffer.old from.text }
    ensures puts { let line = take from.text buffer.old.items in (k : Class) →
        IsStructure k are.now → let shown = texts.value_text k in
        IfSome result (λ e. PutsSome (form k)
        (λ v. lead.mark ∷ 32 ∷ texts.element_text shown lead.index v) are.now.count
        packet.now.bytes.now packet.now.end from.place e.place line
        (take e.text buffer.new.items)) }
    ensures within { IfSome result (λ e. IsWithin packet.now e.place buffer.new e.text) }
{
    let text = put_index(lead, buffer, from.text).ok()?;
    let place = from.place;
    put_structure(are, packet, Position { place, text }, buffer)
}

/// Writes one of such structures.
#[inline(always)]
fn put_structure(
    are: &Structures,
    packet: &Content<'_>,
    from: Position,
    buffer: &mut Vec<u8>,
) -> Option<Position>
    requires near { IsNearStructure are.now }
    requires within { IsWithin packet.now from.place buffer.old from.text }
    ensures puts { let line = take from.text buffer.old.items in let content = packet.now in
        (k : Class) → IsStructure k are.now →
        IfSome result (λ e. PutsSome (form k) (texts.value_text k) are.now.count content.bytes.now
        content.end from.place e.place line (take e.text buffer.new.items)) }
    ensures within { IfSome result (λ e. IsWithin packet.now e.place buffer.new e.text) }
{
    let begin = are.align.up(from.place);
    if begin > packet.end || begin % 8 != 0 {
        return None;
    }
    if are.span + 64 > packet.end - begin && !packet.has_window_at(begin + are.span) {
        return None;
    }
    if with_room(are.room, buffer, from.text).is_err() {
        return None;
    }
    let text = put_numbers(are, packet.bytes, (begin / 8) as usize, buffer, from.text);
    let text = put_end(b'}', buffer, text).ok()?;
    Some(Position {
        place: begin + are.span,
        text,
    })
}

/// Writes the numbers of a structure that begins after so many bytes at an index of a buffer that has room, and gives
/// the index after them.
#[inline(always)]
fn put_numbers(
    are: &Structures,
    bytes: &[u8],
    first: usize,
    buffer: &mut Vec<u8>,
    at: usize,
) -> usize
    requires near { IsNearStructure are.now }
    requires room { at + are.now.room ≤ vec_len buffer.old }
    requires held { All (λ n. first + n.window.place / 8 + 8 ≤ length bytes.now) are.now.numbers }
    ensures put { let piece = flat_map (run_text bytes.now first) are.now.numbers in
        IsPut buffer.old at piece buffer.new result }
    ensures near { result + 24 ≤ at + are.now.room }
    ensures length { vec_len buffer.new ≡ vec_len buffer.old }
{
    let numbers = are.numbers.as_slice();
    if are.has_special {
        return put_special_numbers(numbers, bytes, first, buffer.as_mut_slice(), at);
    }
    put_usual_numbers(numbers, bytes, first, buffer.as_mut_slice(), at)
}
