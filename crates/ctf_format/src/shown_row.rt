//! Texts of elements of arrays that need no plan of their own, straight from the packet's bits.

ghost use Rattle.std.specs.Prelude.{◌≡◌, ◌+◌, ◌≤◌, [], take, vec_len, IfSome};
ghost use Rattle.ctf_class.specs.Records.{IsLength, IsShown};
ghost use Rattle.ctf_class.specs.declared.class.Class.{Class};
ghost use Rattle.ctf_class.specs.declared.class.Kind as kinds;
ghost use Rattle.ctf_class.specs.declared.route.Length.{Length};
ghost use Rattle.ctf_class.specs.declared.route.Length.TheVariants.{Fixed};
ghost use Rattle.ctf_decode.specs.Views.{form};
ghost use Rattle.ctf_format.specs.Branches.{Anywhere, PutsElement, WritesRow};
ghost use Rattle.ctf_format.specs.Put.{IsWithin};
ghost use Rattle.ctf_format.specs.Records.{IsNearShown};
ghost use Rattle.ctf_format.specs.Rows.{row};
ghost use Rattle.ctf_format.specs.Standing.{Before, Writes};
ghost use Rattle.ctf_format.specs.Texts.{value_text};

use crate::array::{begin_at, put_integers};
use crate::content::Content;
use crate::element::{ElementLead, LONGEST_ROW, put_index};
use crate::leaf::{put_enumeration, put_one, put_string_value, put_text_value};
use crate::mark::put_nothing;
use crate::standing::{AlignedInteger, Last, MembersEnd, Next, Position};
use crate::structures::put_structures;
use ctf_class::{Align, LONGEST_NUMBER, Many, Shown};
use ctf_decode::MOST_VALUES;

/// Writes so many elements that are shown so, the first after `[`.
pub(crate) fn put_shown_row(
    shown: &Shown,
    count: u64,
    packet: &Content<'_>,
    from: Position,
    buffer: &mut Vec<u8>,
) -> Option<MembersEnd>
    requires near { IsNearShown shown.now }
    requires within { IsWithin packet.now from.place buffer.old from.text }
    ensures puts { let line = take from.text buffer.old.items in
        (k : Class) → IsShown 0 k shown.now →
        WritesRow (row 91) result Anywhere k count packet.now from.place line buffer.new.items }
    ensures within { IfSome result (λ e. IsWithin packet.now e.place buffer.new e.text) }
    ensures few { IfSome result (λ e. e.more ≤ MOST_VALUES) }
{
    let mut at = from;
    let mut more = 0;
    let mut mark = b'[';
    for i in 0..count {
        let index = i as usize;
        let next = put_shown_element(shown, ElementLead { mark, index }, packet, at, buffer)?;
        at = Position {
            place: next.place,
            text: next.text,
        };
        more += next.more;
        mark = b',';
        if more > MOST_VALUES || at.text > LONGEST_ROW {
            return None;
        }
    }
    Some(MembersEnd {
        place: at.place,
        text: at.text,
        more,
    })
}

/// Writes an element that is shown so, after its mark and its index.
#[inline(always)]
fn put_shown_element(
    shown: &Shown,
    lead: ElementLead,
    packet: &Content<'_>,
    from: Position,
    buffer: &mut Vec<u8>,
) -> Option<MembersEnd>
    requires near { IsNearShown shown.now }
    requires within { IsWithin packet.now from.place buffer.old from.text }
    ensures puts { let line = take from.text buffer.old.items in
        (k : Class) → IsShown 0 k shown.now →
        PutsElement result Anywhere lead k packet.now from.place line buffer.new.items }
    ensures within { IfSome result (λ e. IsWithin packet.now e.place buffer.new e.text) }
    ensures few { IfSome result (λ e. e.more ≤ MOST_VALUES) }
{
    let text = put_index(lead, buffer, from.text).ok()?;
    let place = from.place;
    let next = put_alone(shown, packet, Position { place, text }, buffer)?;
    Some(MembersEnd {
        place: next.place,
        text: next.text,
        more: next.more,
    })
}

/// Writes a value that is shown so and has no member before it.
#[inline(always)]
fn put_alone(
    shown: &Shown,
    packet: &Content<'_>,
    from: Position,
    buffer: &mut Vec<u8>,
) -> Option<Next>
    requires near { IsNearShown shown.now }
    requires start { from.place ≤ packet.now.end }
    requires room { from.text + LONGEST_NUMBER ≤ vec_len buffer.old }
    ensures puts { let line = take from.text buffer.old.items in
        (k : Class) → IsShown 0 k shown.now → (before : Before) →
        Writes result before (form k) (value_text k) packet.now from.place line buffer.new.items }
    ensures within { IfSome result (λ n. IsWithin packet.now n.place buffer.new n.text) }
    ensures few { IfSome result (λ n. n.more ≤ MOST_VALUES) }
{
    match shown {
        Shown::String => put_string_value(packet, from, buffer),
        Shown::Text(many) => put_text_value(fixed_count(*many)?, packet, from, buffer),
        Shown::Empty(align) => put_braces(*align, packet, from, buffer),
        Shown::Integer(lone) => {
            let class = AlignedInteger {
                integer: &lone.integer,
                align: lone.align,
            };
            put_one(&class, packet, from, buffer)
        }
        Shown::Integers(are) => {
            let class = AlignedInteger {
                integer: &are.integer,
                align: are.align,
            };
            put_integers(&class, fixed_count(are.many)?, packet, from, buffer)
        }
        Shown::Structures(are) => {
            put_structures(are, fixed_count(are.many)?, packet, from, buffer)
        }
        Shown::Labelled(labelled) => {
            let container = AlignedInteger {
                integer: &labelled.container,
                align: labelled.align,
            };
            put_enumeration(&container, labelled.labels.get(), packet, from, buffer)
        }
    }
}

/// Writes a structure without members.
fn put_braces(
    align: Align,
    packet: &Content<'_>,
    from: Position,
    buffer: &mut Vec<u8>,
) -> Option<Next>
    requires { IsWithin packet.now from.place buffer.old from.text }
    ensures puts { let line = take from.text buffer.old.items in
        (k : Class) → k.kind ≡ kinds.Structure [] → align ≡ k.align → (before : Before) →
        Writes result before (form k) (value_text k) packet.now from.place line buffer.new.items }
    ensures within { IfSome result (λ n. IsWithin packet.now n.place buffer.new n.text) }
    ensures few { IfSome result (λ n. n.more ≤ MOST_VALUES) }
{
    let place = begin_at(align, packet, from.place)?;
    let text = put_nothing(b'{', b'}', buffer, from.text).ok()?;
    Some(Next {
        place,
        text,
        more: 0,
        last: Last::Unknown,
    })
}

/// How many elements an array has that has no member before it: only a fixed length is known there.
pub(crate) fn fixed_count(many: Many) -> Option<u64>
    ensures { (length : Length) → IsLength 0 length many →
        IfSome result (λ count. length ≡ Fixed count) }
{
    match many {
        Many::Fixed(count) => Some(count),
        Many::Counted => None,
    }
}
