//! Texts of event records by their plans.

ghost use Rattle.std.specs.Prelude.{List, ℕ, [], ◌∷◌, ◌≡◌, ◌+◌, ◌/◌, ◌-◌, ◌++◌, ◌<◌, ◌≤◌, length, pos, take, vec_len, Option, None, IfSome};
ghost use Rattle.std.specs.List.{All, flat_map};
ghost use Rattle.ctf_class.specs.Records.{After, ScopeClass, Slot, AreRuns, IsField, IsInteger, IsLength, IsPlanOf, ends, numbers_room, room_of, scopes_of};
ghost use Rattle.ctf_class.specs.declared.class.Class.{Class};
ghost use Rattle.ctf_class.specs.declared.class.Kind as kinds;
ghost use Rattle.ctf_class.specs.declared.route.Length.{Length};
ghost use Rattle.ctf_decode.specs.Views.{form};
ghost use Rattle.ctf_format.specs.Kept.{PutsScopes};
ghost use Rattle.ctf_format.specs.Structures.{IsNearStructure};
ghost use Rattle.ctf_format.specs.Put.{IsPut, IsWithin};
ghost use Rattle.ctf_format.specs.RunNumbers.{run_text};
ghost use Rattle.ctf_bits.specs.Placed.{number_after};
ghost use Rattle.ctf_format.specs.Records.{BeginsAt, CountsAfter, IsNear, IsLastOf, PutsField, PutsFields, IsNearShown, PutsIntegers, PutsOther, PutsRun, PutsShown, PutsStructures, after_number, reached};
ghost use Rattle.ctf_format.specs.Texts as texts;

use crate::array::{begin_at, put_integers};
use crate::branches::put_record_fields;
use crate::content::Content;
use crate::kept::KeptNumbers;
use crate::leaf::put_enumeration;
use crate::mark::{put_end, put_nothing};
use crate::placed_run::PlacedRun;
use crate::planned_number::{put_special_numbers, put_usual_numbers};
use crate::room::with_room;
use crate::standing::{
    AlignedInteger, MembersEnd, Position, Standing, put_fixed_text, put_integer, put_string,
};
use crate::structures::put_structures;
use ctf_bits::Order;
use ctf_class::{
    Align, Integers, LONGEST_NUMBER, LoneInteger, Many, PlannedField, PlannedNumber, PlannedRun,
    PreparedText, RecordPlan, Shown, Structures,
};
use ctf_decode::MOST_VALUES;

/// How far fields came.
#[derive(Clone, Copy)]
pub(crate) struct Reach {
    /// Where the next one could begin, in bits from the packet's first one.
    pub(crate) place: u64,
    /// How many values were begun in arrays and variants.
    pub(crate) more: u64,
}

/// Writes the scopes of the event record after its header (CTF 1.8.3, section 6) at an index of a buffer, by the plan
/// of such records: `from` has the place after the header, in bits from the packet's first one, how many values were
/// begun before, and the index, in bytes. `kept` begins with the numbers that the plan is given. What is before the
/// index is kept, and the buffer grows where it has no room.
///
/// `None` where there is no plan; where the record has a fault; where a variant's tag is above 2^63 - 1; where a run of
/// numbers would begin within a byte; where the packet has fewer than eight bytes after the numbers of a run or of a
/// structure in an array, or after the begin of a run without any; and where an allocation fails. The buffer is then
/// unspecified.
#[inline(always)]
pub fn put_planned_record(
    plan: &RecordPlan,
    packet: &Content<'_>,
    from: Standing,
    kept: &mut KeptNumbers,
    buffer: &mut Vec<u8>,
) -> Option<Standing>
    requires plan { (scopes : List ScopeClass) × IsPlanOf scopes plan.now }
    requires start { from.place ≤ packet.now.end }
    requires few { from.spent ≤ MOST_VALUES }
    requires index { from.end ≤ vec_len buffer.old }
    ensures puts { (shared own : Option Class) (fields : Class) →
        let scopes = scopes_of shared own fields in let numbers = kept.old.numbers in
        IsPlanOf scopes plan.now → IfSome result (λ s. PutsScopes plan.now.given numbers scopes
        packet.now.bytes.now packet.now.end from.place from.spent s.place s.spent
        (take from.end buffer.old.items) (take s.end buffer.new.items)) }
    ensures within { IfSome result (λ s. s.place ≤ packet.now.end) }
    ensures held { IfSome result (λ s. s.end ≤ vec_len buffer.new) }
{
    if plan.runs.as_slice().is_empty() {
        return None;
    }
    let begin = MembersEnd {
        place: from.place,
        text: from.end,
        more: 0,
    };
    let ends = put_record_fields(plan, packet, begin, kept, buffer)?;
    let end = put_ends(plan.ended, buffer, ends.text)?;
    let count = u64::from(plan.count) + ends.more;
    if count > MOST_VALUES - from.spent {
        return None;
    }
    Some(Standing {
        place: ends.place,
        spent: from.spent + count,
        end,
    })
}

/// Writes the fields of runs, and a brace, and gives the index after them; `reach` says how far they came then.
#[inline(never)]
pub(crate) fn put_runs(
    runs: &[PlannedRun],
    packet: &Content<'_>,
    reach: &mut Reach,
    buffer: &mut Vec<u8>,
    at: usize,
) -> Option<usize>
    requires near { All IsNear runs.now }
    requires within { IsWithin packet.now reach.old.place buffer.old at }
    requires few { reach.old.more ≤ MOST_VALUES }
    ensures puts { (slots : List Slot) → AreRuns slots runs.now →
        IfSome result (λ text. (line : List ℕ) ×
        PutsFields slots packet.now.bytes.now packet.now.end
        (reached reach.old (take at buffer.old.items)) (reached reach.new line) ×
        (take text buffer.new.items ≡ line ++ (32 ∷ 125 ∷ []))) }
    ensures within { IfSome result (IsWithin packet.now reach.new.place buffer.new) }
    ensures few { IfSome result (λ _. reach.new.more ≤ MOST_VALUES) }
{
    let mut so_far = *reach;
    let mut text = at;
    for run in runs {
        let mut to = so_far;
        text = put_run(run, packet, &mut to, buffer, text)?;
        so_far = to;
    }
    *reach = so_far;
    put_end(b'}', buffer, text).ok()
}

/// Writes the braces of so many structures that end after that of one, and gives the index after them. Mostly one ends;
/// where none does, its brace is taken back.
#[inline(always)]
pub(crate) fn put_ends(ended: u32, buffer: &mut Vec<u8>, at: usize) -> Option<usize>
    requires { at ≤ vec_len buffer.old }
    ensures puts { (line : List ℕ) → take at buffer.old.items ≡ line ++ (32 ∷ 125 ∷ []) →
        IfSome result (λ text. take text buffer.new.items ≡ line ++ ends ended) }
    ensures held { IfSome result (λ text. text ≤ vec_len buffer.new) }
{
    if ended == 1 {
        return Some(at);
    }
    put_other_ends(ended, buffer, at)
}

/// Writes them out of the way of records in which one ends there.
#[cold]
#[inline(never)]
fn put_other_ends(ended: u32, buffer: &mut Vec<u8>, at: usize) -> Option<usize>
    requires { at ≤ vec_len buffer.old }
    ensures puts { (line : List ℕ) → take at buffer.old.items ≡ line ++ (32 ∷ 125 ∷ []) →
        IfSome result (λ text. take text buffer.new.items ≡ line ++ ends ended) }
    ensures held { IfSome result (λ text. text ≤ vec_len buffer.new) }
{
    if ended == 0 {
        return at.checked_sub(2);
    }
    put_more_ends(ended - 1, buffer, at)
}

/// Writes a space and a brace for each of so many structures more.
pub(crate) fn put_more_ends(ended: u32, buffer: &mut Vec<u8>, at: usize) -> Option<usize>
    requires { at ≤ vec_len buffer.old }
    ensures { IfSome result (IsPut buffer.old at (ends ended) buffer.new) }
{
    let mut text = at;
    for i in 0..ended {
        text = put_end(b'}', buffer, text).ok()?;
    }
    Some(text)
}

/// Writes the fields of a run, and gives the index after them; `reach` says how far they came then.
#[inline(always)]
fn put_run(
    run: &PlannedRun,
    packet: &Content<'_>,
    reach: &mut Reach,
    buffer: &mut Vec<u8>,
    at: usize,
) -> Option<usize>
    requires near { IsNear run.now }
    requires within { IsWithin packet.now reach.old.place buffer.old at }
    requires few { reach.old.more ≤ MOST_VALUES }
    ensures puts { let from = reached reach.old (take at buffer.old.items) in
        PutsRun result run.now packet.now from reach.new buffer.new.items }
    ensures within { IfSome result (IsWithin packet.now reach.new.place buffer.new) }
    ensures few { IfSome result (λ _. reach.new.more ≤ MOST_VALUES) }
{
    let placed = placed_at(run, packet, reach.place)?;
    if with_room(run.room, buffer, at).is_err() {
        return None;
    }
    if run.has_special {
        // A copy, so that other runs do not go through memory.
        let mut to = *reach;
        let text = put_special_run(placed, &mut to, buffer, at)?;
        *reach = to;
        return Some(text);
    }
    put_placed_run(placed, reach, buffer, at)
}

/// A run that could begin at a place of a packet, if its numbers are there and can be read at once.
#[inline(always)]
pub(crate) fn placed_at<'a>(
    run: &'a PlannedRun,
    packet: &'a Content<'a>,
    place: u64,
) -> Option<PlacedRun<'a>>
    requires near { IsNear run.now }
    requires start { place ≤ packet.now.end }
    ensures run { IfSome result (λ placed. placed.run.now ≡ run.now) }
    ensures packet { IfSome result (λ placed. placed.packet.now ≡ packet.now) }
    ensures begins { IfSome result
        (λ placed. BeginsAt place run.now (placed.end - run.now.span)) }
{
    let begin = run.align.up(place);
    if begin > packet.end || (begin % 8 != 0 && !run.numbers.is_empty()) {
        return None;
    }
    // Mostly so many bits of the content are after it that the packet's bytes need no look.
    if run.span + 64 > packet.end - begin && !packet.has_window_at(begin + run.span) {
        return None;
    }
    let end = begin + run.span;
    Some(PlacedRun { run, packet, end })
}

/// Writes the fields of a run with special numbers, and gives the index after them; `reach` says how far they came
/// then. It is out of the way of other runs.
#[inline(never)]
fn put_special_run(
    placed: PlacedRun<'_>,
    reach: &mut Reach,
    buffer: &mut Vec<u8>,
    at: usize,
) -> Option<usize>
    requires near { IsNear placed.run.now }
    requires begins { BeginsAt reach.old.place placed.run.now (placed.end - placed.run.now.span) }
    requires few { reach.old.more ≤ MOST_VALUES }
    requires room { at + placed.run.now.room ≤ vec_len buffer.old }
    ensures puts { let from = reached reach.old (take at buffer.old.items) in
        let run = placed.entry.run.now in let packet = placed.entry.packet.now in
        PutsRun result run packet from reach.new buffer.new.items }
    ensures within { IfSome result (IsWithin placed.entry.packet.now reach.new.place buffer.new) }
    ensures few { IfSome result (λ _. reach.new.more ≤ MOST_VALUES) }
{
    put_placed_run(placed, reach, buffer, at)
}

/// Writes the fields of a run whose numbers are within the content, and gives the index after them; `reach` says how
/// far they came then.
#[inline(always)]
fn put_placed_run(
    placed: PlacedRun<'_>,
    reach: &mut Reach,
    buffer: &mut Vec<u8>,
    at: usize,
) -> Option<usize>
    requires near { IsNear placed.run.now }
    requires begins { BeginsAt reach.old.place placed.run.now (placed.end - placed.run.now.span) }
    requires few { reach.old.more ≤ MOST_VALUES }
    requires room { at + placed.run.now.room ≤ vec_len buffer.old }
    ensures puts { let from = reached reach.old (take at buffer.old.items) in
        let run = placed.entry.run.now in let packet = placed.entry.packet.now in
        PutsRun result run packet from reach.new buffer.new.items }
    ensures within { IfSome result (IsWithin placed.entry.packet.now reach.new.place buffer.new) }
    ensures few { IfSome result (λ _. reach.new.more ≤ MOST_VALUES) }
{
    let text = put_run_numbers(placed, buffer, at);
    put_run_field(placed, reach, buffer, text)
}

/// Writes the numbers of a run at an index of a buffer that has room, and gives the index after them.
#[inline(always)]
fn put_run_numbers(placed: PlacedRun<'_>, buffer: &mut Vec<u8>, at: usize) -> usize
    requires room { at + numbers_room placed.run.now.numbers ≤ vec_len buffer.old }
    ensures put { let run = placed.entry.run.now in
        let first = (placed.entry.end - run.span) / 8 in
        let piece = flat_map (run_text placed.entry.packet.now.bytes.now first) run.numbers in
        IsPut buffer.old at piece buffer.new result }
    ensures near { result + 24 ≤ at + numbers_room placed.entry.run.now.numbers }
    ensures length { vec_len buffer.new ≡ vec_len buffer.old }
{
    let run = placed.run;
    let first = ((placed.end - run.span) / 8) as usize;
    let numbers = run.numbers.as_slice();
    let bytes = placed.packet.bytes;
    if run.has_special {
        return put_special_numbers(numbers, bytes, first, buffer.as_mut_slice(), at);
    }
    put_usual_numbers(numbers, bytes, first, buffer.as_mut_slice(), at)
}

/// Writes the field after the numbers of a run, if there is one, and gives the index after it; `reach` says how far it
/// came then.
#[inline(always)]
fn put_run_field(
    placed: PlacedRun<'_>,
    reach: &mut Reach,
    buffer: &mut Vec<u8>,
    at: usize,
) -> Option<usize>
    requires inner { IfSome placed.run.now.field (λ f. IsNearShown f.shown) }
    requires few { reach.old.more ≤ MOST_VALUES }
    requires room { at + room_of [] placed.run.now.field ≤ vec_len buffer.old }
    ensures puts { let packet = placed.entry.packet.now in let run = placed.entry.run.now in
        (slots others : List Slot) → After slots run.field (λ xs. xs ≡ others) →
        IfSome result (λ text. (last : Option ℕ) × IsLastOf placed.entry last ×
        (used : List Slot) × (slots ≡ used ++ others) ×
        PutsFields used packet.bytes.now packet.end
        (after_number (record reach.old { place = placed.entry.end }) last
        (take at buffer.old.items))
        (reached reach.new (take text buffer.new.items))) }
    ensures within { IfSome result (IsWithin placed.entry.packet.now reach.new.place buffer.new) }
    ensures few { IfSome result (λ _. reach.new.more ≤ MOST_VALUES) }
{
    reach.place = placed.end;
    match &placed.run.field {
        None => Some(at),
        Some(field) => put_field(field, placed, reach, buffer, at),
    }
}

/// Writes a text at an index of a buffer that has room for it and for 24 bytes more, and gives the index after it.
#[inline(always)]
pub(crate) fn put_before(ready: &PreparedText, buffer: &mut Vec<u8>, at: usize) -> usize
    requires { at + length ready.now + 24 ≤ vec_len buffer.old }
    ensures put { IsPut buffer.old at ready.now buffer.new result }
    ensures end { result ≡ at + length ready.now }
    ensures length { vec_len buffer.new ≡ vec_len buffer.old }
{
    ready.put(buffer.as_mut_slice(), at)
}

/// Writes a field after the numbers of a run, and gives the index after it; `reach` says how far these came, and how
/// far the field came then.
#[inline(always)]
fn put_field(
    field: &PlannedField,
    placed: PlacedRun<'_>,
    reach: &mut Reach,
    buffer: &mut Vec<u8>,
    at: usize,
) -> Option<usize>
    requires inner { IsNearShown field.now.shown }
    requires start { reach.old.place ≤ placed.packet.now.end }
    requires few { reach.old.more ≤ MOST_VALUES }
    requires room { at + length field.now.ready + 90 ≤ vec_len buffer.old }
    ensures puts { let packet = placed.entry.packet.now in (slot : Slot) → IsField slot field.now →
        IfSome result (λ text. (last : Option ℕ) × IsLastOf placed.entry last ×
        PutsField slot packet.bytes.now packet.end
        (after_number reach.old last (take at buffer.old.items))
        (reached reach.new (take text buffer.new.items))) }
    ensures within { IfSome result (IsWithin placed.entry.packet.now reach.new.place buffer.new) }
    ensures few { IfSome result (λ _. reach.new.more ≤ MOST_VALUES) }
{
    let packet = placed.packet;
    let place = field.align.up(reach.place);
    if place > packet.end {
        return None;
    }
    let text = put_before(&field.ready, buffer, at);
    let from = Position { place, text };
    match &field.shown {
        Shown::String => {
            let ends = put_string(packet, from, buffer)?;
            reach.place = ends.place;
            Some(ends.text)
        }
        Shown::Text(many) => {
            let count = count_after(*many, placed)?;
            let ends = put_fixed_text(count, packet, from, buffer)?;
            reach.place = ends.place;
            Some(ends.text)
        }
        Shown::Labelled(labelled) => {
            let labels = labelled.labels.get();
            let container = AlignedInteger {
                integer: &labelled.container,
                align: labelled.align,
            };
            let next = put_enumeration(&container, labels, packet, from, buffer)?;
            reach.place = next.place;
            Some(next.text)
        }
        other => put_other(other, placed, from, reach, buffer),
    }
}

/// Writes integers or structures that are after the numbers of a run, and gives the index after them; `reach` says how
/// far they came then.
#[inline(always)]
fn put_other(
    shown: &Shown,
    placed: PlacedRun<'_>,
    from: Position,
    reach: &mut Reach,
    buffer: &mut Vec<u8>,
) -> Option<usize>
    requires inner { IsNearShown shown.now }
    requires start { from.place ≤ placed.packet.now.end }
    requires few { reach.old.more ≤ MOST_VALUES }
    requires room { from.text + LONGEST_NUMBER ≤ vec_len buffer.old }
    ensures puts { let begin = record reach.old { place = from.place } in
        let before = take from.text buffer.old.items in
        PutsShown result shown.now placed.entry begin before reach.new buffer.new.items }
    ensures within { IfSome result (IsWithin placed.entry.packet.now reach.new.place buffer.new) }
    ensures few { IfSome result (λ _. reach.new.more ≤ MOST_VALUES) }
{
    // Copies, so that neither other fields nor their run go through memory.
    let mut to = Reach {
        place: from.place,
        more: reach.more,
    };
    let placed = PlacedRun {
        run: placed.run,
        packet: placed.packet,
        end: placed.end,
    };
    let end = put_after_numbers(shown, placed, &mut to, buffer, from.text)?;
    *reach = to;
    Some(end)
}

/// Writes such integers or structures, and gives the index after them.
#[inline(never)]
fn put_after_numbers(
    shown: &Shown,
    placed: PlacedRun<'_>,
    reach: &mut Reach,
    buffer: &mut Vec<u8>,
    at: usize,
) -> Option<usize>
    requires inner { IsNearShown shown.now }
    requires start { reach.old.place ≤ placed.packet.now.end }
    requires few { reach.old.more ≤ MOST_VALUES }
    requires room { at + LONGEST_NUMBER ≤ vec_len buffer.old }
    ensures puts { let before = take at buffer.old.items in
        PutsShown result shown.now placed.entry reach.old before reach.new buffer.new.items }
    ensures within { IfSome result (IsWithin placed.entry.packet.now reach.new.place buffer.new) }
    ensures few { IfSome result (λ _. reach.new.more ≤ MOST_VALUES) }
{
    match shown {
        Shown::Integers(are) => put_many(are, placed, reach, buffer, at),
        Shown::Empty(align) => put_empty(*align, placed.packet, reach, buffer, at),
        Shown::Integer(lone) => put_lone(lone, placed.packet, reach, buffer, at),
        Shown::Structures(are) => put_many_structures(are, placed, reach, buffer, at),
        // These are written by `put_field` itself.
        Shown::String | Shown::Text(_) | Shown::Labelled(_) => None,
    }
}

/// Writes a structure without members, and gives the index after it.
#[inline(never)]
fn put_empty(
    align: Align,
    packet: &Content<'_>,
    reach: &mut Reach,
    buffer: &mut Vec<u8>,
    at: usize,
) -> Option<usize>
    requires within { IsWithin packet.now reach.old.place buffer.old at }
    requires few { reach.old.more ≤ MOST_VALUES }
    ensures puts { let content = packet.now in (index : ℕ) (class : Class) →
        class.kind ≡ kinds.Structure [] → align ≡ class.align →
        IfSome result (λ text.
        PutsOther index None (form class) (texts.value_text class) content.bytes.now content.end
        reach.old (take at buffer.old.items) reach.new (take text buffer.new.items)) }
    ensures within { IfSome result (IsWithin packet.now reach.new.place buffer.new) }
    ensures few { IfSome result (λ _. reach.new.more ≤ MOST_VALUES) }
{
    reach.place = begin_at(align, packet, reach.place)?;
    put_nothing(b'{', b'}', buffer, at).ok()
}

/// Writes such integers, and gives the index after them.
#[inline(always)]
fn put_many(
    are: &Integers,
    placed: PlacedRun<'_>,
    reach: &mut Reach,
    buffer: &mut Vec<u8>,
    at: usize,
) -> Option<usize>
    requires start { reach.old.place ≤ placed.packet.now.end }
    requires few { reach.old.more ≤ MOST_VALUES }
    requires room { at + LONGEST_NUMBER ≤ vec_len buffer.old }
    ensures puts { let before = take at buffer.old.items in
        PutsIntegers result are.now placed.entry reach.old before reach.new buffer.new.items }
    ensures within { IfSome result (IsWithin placed.entry.packet.now reach.new.place buffer.new) }
    ensures few { IfSome result (λ _. reach.new.more ≤ MOST_VALUES) }
{
    let count = count_after(are.many, placed)?;
    let class = AlignedInteger {
        integer: &are.integer,
        align: are.align,
    };
    let from = Position {
        place: reach.place,
        text: at,
    };
    let next = put_integers(&class, count, placed.packet, from, buffer)?;
    let more = reach.more + next.more;
    if more > MOST_VALUES {
        return None;
    }
    reach.place = next.place;
    reach.more = more;
    Some(next.text)
}

/// Writes the integer that is alone, and gives the index after it.
#[inline(never)]
fn put_lone(
    lone: &LoneInteger,
    packet: &Content<'_>,
    reach: &mut Reach,
    buffer: &mut Vec<u8>,
    at: usize,
) -> Option<usize>
    requires start { reach.old.place ≤ packet.now.end }
    requires few { reach.old.more ≤ MOST_VALUES }
    requires room { at + LONGEST_NUMBER ≤ vec_len buffer.old }
    ensures puts { let content = packet.now in (index : ℕ) (class : Class) →
        IsInteger class lone.now.integer lone.now.align →
        IfSome result (λ text.
        PutsOther index None (form class) (texts.value_text class)
        content.bytes.now content.end reach.old (take at buffer.old.items) reach.new
        (take text buffer.new.items)) }
    ensures within { IfSome result (IsWithin packet.now reach.new.place buffer.new) }
    ensures few { IfSome result (λ _. reach.new.more ≤ MOST_VALUES) }
{
    let class = AlignedInteger {
        integer: &lone.integer,
        align: lone.align,
    };
    let from = Position {
        place: reach.place,
        text: at,
    };
    let ends = put_integer(&class, packet, from, buffer.as_mut_slice())?;
    reach.place = ends.place;
    Some(ends.text)
}

/// Writes such structures, and gives the index after them.
#[inline(never)]
fn put_many_structures(
    are: &Structures,
    placed: PlacedRun<'_>,
    reach: &mut Reach,
    buffer: &mut Vec<u8>,
    at: usize,
) -> Option<usize>
    requires inner { IsNearStructure are.now }
    requires start { reach.old.place ≤ placed.packet.now.end }
    requires few { reach.old.more ≤ MOST_VALUES }
    requires room { at + LONGEST_NUMBER ≤ vec_len buffer.old }
    ensures puts { let before = take at buffer.old.items in
        PutsStructures result are.now placed.entry reach.old before reach.new buffer.new.items }
    ensures within { IfSome result (IsWithin placed.entry.packet.now reach.new.place buffer.new) }
    ensures few { IfSome result (λ _. reach.new.more ≤ MOST_VALUES) }
{
    let count = count_after(are.many, placed)?;
    let from = Position {
        place: reach.place,
        text: at,
    };
    let next = put_structures(are, count, placed.packet, from, buffer)?;
    let more = reach.more + next.more;
    if more > MOST_VALUES {
        return None;
    }
    reach.place = next.place;
    reach.more = more;
    Some(next.text)
}

/// How many elements an array has after the numbers of a run, if that is known.
#[inline(always)]
pub(crate) fn count_after(many: Many, placed: PlacedRun<'_>) -> Option<u64>
    ensures { (index : ℕ) (length : Length) → IsLength index length many →
        IfSome result (CountsAfter placed.entry index length) }
{
    match many {
        Many::Fixed(count) => Some(count),
        Many::Counted => last_number(placed),
    }
}

/// The last of the numbers of a run, if it is unsigned.
#[inline(always)]
fn last_number(placed: PlacedRun<'_>) -> Option<u64>
    ensures { IsLastOf placed.entry result }
{
    let run = placed.run;
    let first = ((placed.end - run.span) / 8) as usize;
    let numbers = run.numbers.as_slice();
    let count = numbers.len();
    if count == 0 {
        return None;
    }
    let last = &numbers[count - 1];
    if last.integer.is_signed {
        return None;
    }
    if last.is_special {
        return special_number(last, placed.packet.bytes, first);
    }
    last.window.number(placed.packet.bytes, first, Order::Le)
}

/// The number of an integer of a run that begins after so many bytes, if it is not below zero.
#[inline(never)]
fn special_number(number: &PlannedNumber, bytes: &[u8], first: usize) -> Option<u64>
    requires held { first + number.now.window.place / 8 + 8 ≤ length bytes.now }
    ensures { let n = number.now in
        IfSome result (λ v. number_after n.integer.order n.window bytes.now first ≡ pos v) }
{
    number.window.number(bytes, first, number.integer.order)
}
