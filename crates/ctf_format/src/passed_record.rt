//! Event records that are passed over by their plans.

ghost use Rattle.std.specs.Prelude.{List, ◌≡◌, ◌+◌, ◌≤◌, ℕ, Option, IfSome};
ghost use Rattle.std.specs.Int.{next_multiple_of};
ghost use Rattle.std.specs.List.{All};
ghost use Rattle.ctf_class.specs.Integers.{bits_of};
ghost use Rattle.ctf_class.specs.Records.{ScopeClass, Slot, AreMany, AreRuns, IsField, IsPlanOf, IsStructure, scopes_of};
ghost use Rattle.ctf_class.specs.declared.class.Class.{Class};
ghost use Rattle.ctf_class.specs.declared.class.Kind as kinds;
ghost use Rattle.ctf_class.specs.declared.route.Length.{Length};
ghost use Rattle.ctf_class.specs.declared.route.Length.TheVariants.{Fixed};
ghost use Rattle.ctf_decode.specs.Forms as forms;
ghost use Rattle.ctf_decode.specs.Views.{form};
ghost use Rattle.ctf_format.specs.Kept.{PutsScopes};
ghost use Rattle.ctf_format.specs.Passing.{IsElement, Passes, PassesField, PassesFields, PassesOther, next_at};
ghost use Rattle.ctf_format.specs.Records.{IsNear, PutsFields, TakesRun, reached};
ghost use Rattle.ctf_format.specs.Rows.{enclosed};
ghost use Rattle.ctf_format.specs.Standing.{Before, Counts, PutsElements, PutsNext, PutsOne};
ghost use Rattle.ctf_format.specs.declared.content.Content.{Content as Packet};
ghost use Rattle.ctf_format.specs.Texts as texts;

use crate::array::begin_at;
use crate::content::Content;
use crate::kept::KeptNumbers;
use crate::passed_branches::pass_record_fields;
use crate::placed_run::PlacedRun;
use crate::planned_record::{Reach, count_after, placed_at};
use crate::standing::bits_at;
use crate::window::first_zero;
use ctf_bits::up;
use ctf_class::{Align, Integers, Many, PlannedField, PlannedRun, RecordPlan, Shown, Structures};
use ctf_decode::{MOST_VALUES, bytes_from};

/// How far an event record was gone over, without a text.
#[derive(Clone, Copy)]
pub struct Passed {
    /// The place that was reached, in bits from the packet's first one.
    pub place: u64,
    /// How many values were begun so far.
    pub spent: u64,
}

/// What an element takes that is as long wherever it begins: an integer, or a structure of integers.
#[derive(Clone, Copy)]
pub(crate) struct Element {
    pub(crate) align: Align,
    /// How many bits it takes, from a multiple of its alignment on.
    pub(crate) span: u64,
    /// How many values it is, those within it among them.
    pub(crate) count: u64,
}

/// Where the scopes of the event record after its header (CTF 1.8.3, section 6) end, by the plan of such records, and
/// without a text: `from` has the place after the header, in bits from the packet's first one, and how many values were
/// begun before. `kept` begins with the numbers that the plan is given.
///
/// `None` where `put_planned_record` gives none, but where it lacks memory, or eight bytes after a structure in an
/// array: neither is needed here. Memory is taken only for numbers that are kept.
#[inline(never)]
pub fn pass_planned_record(
    plan: &RecordPlan,
    packet: &Content<'_>,
    from: Passed,
    kept: &mut KeptNumbers,
) -> Option<Passed>
    requires plan { (scopes : List ScopeClass) × IsPlanOf scopes plan.now }
    requires start { from.place ≤ packet.now.end }
    requires few { from.spent ≤ MOST_VALUES }
    ensures passes { (shared own : Option Class) (fields : Class) →
        let scopes = scopes_of shared own fields in let numbers = kept.old.numbers in
        IsPlanOf scopes plan.now → IfSome result (λ p. Passes (PutsScopes plan.now.given numbers
        scopes packet.now.bytes.now packet.now.end from.place from.spent p.place p.spent)) }
    ensures within { IfSome result (λ p. p.place ≤ packet.now.end) }
{
    if plan.runs.as_slice().is_empty() {
        return None;
    }
    let begin = Reach {
        place: from.place,
        more: 0,
    };
    let reach = pass_record_fields(plan, packet, begin, kept)?;
    let count = u64::from(plan.count) + reach.more;
    if count > MOST_VALUES - from.spent {
        return None;
    }
    Some(Passed {
        place: reach.place,
        spent: from.spent + count,
    })
}

/// How far the fields of runs go.
#[inline(always)]
pub(crate) fn pass_runs(runs: &[PlannedRun], packet: &Content<'_>, from: Reach) -> Option<Reach>
    requires near { All IsNear runs.now }
    requires start { from.place ≤ packet.now.end }
    requires few { from.more ≤ MOST_VALUES }
    ensures passes { (slots : List Slot) → AreRuns slots runs.now →
        IfSome result (λ to. Passes (λ before after.
        PutsFields slots packet.now.bytes.now packet.now.end (reached from before)
        (reached to after))) }
    ensures within { IfSome result (λ to. to.place ≤ packet.now.end) }
    ensures few { IfSome result (λ to. to.more ≤ MOST_VALUES) }
{
    let mut reach = from;
    for run in runs {
        reach = pass_run(run, packet, reach)?;
    }
    Some(reach)
}

/// How far the fields of a run go.
#[inline(always)]
fn pass_run(run: &PlannedRun, packet: &Content<'_>, from: Reach) -> Option<Reach>
    requires near { IsNear run.now }
    requires start { from.place ≤ packet.now.end }
    requires few { from.more ≤ MOST_VALUES }
    ensures passes { (slots others : List Slot) → TakesRun slots run.now others →
        IfSome result (PassesFields slots others packet.now from) }
    ensures within { IfSome result (λ to. to.place ≤ packet.now.end) }
    ensures few { IfSome result (λ to. to.more ≤ MOST_VALUES) }
{
    let placed = placed_at(run, packet, from.place)?;
    let reach = Reach {
        place: placed.end,
        more: from.more,
    };
    match &run.field {
        None => Some(reach),
        Some(field) => pass_field(field, placed, reach),
    }
}

/// How far a field goes after the numbers of a run.
#[inline(always)]
fn pass_field(field: &PlannedField, placed: PlacedRun<'_>, from: Reach) -> Option<Reach>
    requires start { from.place ≤ placed.packet.now.end }
    requires few { from.more ≤ MOST_VALUES }
    ensures passes { (slot : Slot) → IsField slot field.now →
        IfSome result (PassesField slot placed.entry from) }
    ensures within { IfSome result (λ to. to.place ≤ placed.entry.packet.now.end) }
    ensures few { IfSome result (λ to. to.more ≤ MOST_VALUES) }
{
    let packet = placed.packet;
    let place = begin_at(field.align, packet, from.place)?;
    let begin = Reach {
        place,
        more: from.more,
    };
    match &field.shown {
        Shown::String => {
            let end = end_of_string(packet, place)?;
            Some(Reach {
                place: end,
                more: from.more,
            })
        }
        Shown::Text(many) => {
            let count = count_after(*many, placed)?;
            let end = end_of_text(count, packet, place)?;
            Some(Reach {
                place: end,
                more: from.more,
            })
        }
        Shown::Labelled(labelled) => {
            let at = bits_at(&labelled.container, labelled.align, packet, place)?;
            Some(Reach {
                place: at.end,
                more: from.more,
            })
        }
        Shown::Empty(align) => {
            let end = begin_at(*align, packet, place)?;
            Some(Reach {
                place: end,
                more: from.more,
            })
        }
        Shown::Integer(lone) => {
            let at = bits_at(&lone.integer, lone.align, packet, place)?;
            Some(Reach {
                place: at.end,
                more: from.more,
            })
        }
        Shown::Integers(are) => pass_elements(&element_of(are), are.many, placed, begin),
        Shown::Structures(are) => {
            let element = structure_as_element(are)?;
            pass_elements(&element, are.many, placed, begin)
        }
    }
}

/// Where the string ends that could begin at a place.
#[inline(always)]
pub(crate) fn end_of_string(packet: &Content<'_>, place: u64) -> Option<u64>
    requires start { place ≤ packet.now.end }
    ensures passes { let content = packet.now in IfSome result (λ end. (a : ℕ) →
        Passes (PutsOne (forms.string a) texts.string_text content.bytes.now content.end place
        end)) }
    ensures within { IfSome result (λ end. end ≤ packet.now.end) }
{
    let begin = up(place, 8);
    if begin > packet.end {
        return None;
    }
    let bytes = bytes_from(packet.bytes, packet.end, begin);
    let count = first_zero(bytes)?;
    Some(begin + 8 * (count as u64 + 1))
}

/// Where the text of so many bytes ends that could begin at a place.
#[inline(always)]
pub(crate) fn end_of_text(count: u64, packet: &Content<'_>, place: u64) -> Option<u64>
    requires start { place ≤ packet.now.end }
    ensures passes { let content = packet.now in IfSome result (λ end. (a : ℕ) →
        Passes (PutsOne (forms.text a (Fixed count)) texts.string_text content.bytes.now
        content.end place end)) }
    ensures within { IfSome result (λ end. end ≤ packet.now.end) }
{
    let begin = up(place, 8);
    if begin > packet.end {
        return None;
    }
    if count > (packet.end - begin) / 8 {
        return None;
    }
    Some(begin + 8 * count)
}

/// An integer as an element.
#[inline(always)]
pub(crate) fn element_of(are: &Integers) -> Element
    ensures align { result.align ≡ are.now.align }
    ensures span { result.span ≡ bits_of are.now.integer }
    ensures count { result.count ≡ 1 }
{
    Element {
        align: are.align,
        span: u64::from(are.integer.size.bits()),
        count: 1,
    }
}

/// A structure of integers as an element, if it begins at a byte: only then, as each plan's does, are its numbers at
/// their distances.
#[inline(always)]
pub(crate) fn structure_as_element(are: &Structures) -> Option<Element>
    ensures { IfSome result (λ e. (packet : Packet) (k : Class) → IsStructure k are.now →
        IsElement packet e k) }
{
    if are.align.bits() % 8 != 0 {
        return None;
    }
    Some(Element {
        align: are.align,
        span: are.span,
        count: are.count,
    })
}

/// How far an array of so many elements goes.
#[inline(always)]
fn pass_elements(element: &Element, many: Many, placed: PlacedRun<'_>, from: Reach) -> Option<Reach>
    requires start { from.place ≤ placed.packet.now.end }
    requires few { from.more ≤ MOST_VALUES }
    ensures passes { (index : ℕ) (class : Class) →
        AreMany (IsElement placed.entry.packet.now element.now) index class many →
        IfSome result (PassesOther index class placed.entry from) }
    ensures within { IfSome result (λ to. to.place ≤ placed.entry.packet.now.end) }
    ensures few { IfSome result (λ to. to.more ≤ MOST_VALUES) }
{
    let count = count_after(many, placed)?;
    let ends = pass_counted(element, count, placed.packet, from.place)?;
    let more = from.more + ends.more;
    if more > MOST_VALUES {
        return None;
    }
    Some(Reach {
        place: ends.place,
        more,
    })
}

/// How far an array of so many elements goes that could begin at a place, and how many values were begun in it.
#[inline(always)]
pub(crate) fn pass_counted(
    element: &Element,
    count: u64,
    packet: &Content<'_>,
    place: u64,
) -> Option<Reach>
    requires start { place ≤ packet.now.end }
    ensures passes { let content = packet.now in (before : Before) (class k : Class)
        (many : Length) → class.kind ≡ kinds.Array many k → IsElement content element.now k →
        Counts many before count → IfSome result (λ to. Passes (λ line after.
        PutsNext before (form class) (texts.value_text class) content.bytes.now content.end place
        line (next_at to) after)) }
    ensures within { IfSome result (λ to. to.place ≤ packet.now.end) }
    ensures few { IfSome result (λ to. to.more ≤ MOST_VALUES) }
{
    let more = count.checked_mul(element.count)?;
    if more > MOST_VALUES {
        return None;
    }
    let begin = begin_at(element.align, packet, place)?;
    let end = end_of_row(element, count, packet, begin)?;
    Some(Reach { place: end, more })
}

/// Where so many elements end, one after the other.
#[inline(always)]
fn end_of_row(element: &Element, count: u64, packet: &Content<'_>, from: u64) -> Option<u64>
    requires start { from ≤ packet.now.end }
    ensures passes { let content = packet.now in (k : Class) → IsElement content element.now k →
        IfSome result (λ end. Passes (PutsElements (enclosed 91 93) (form k) (texts.value_text k)
        element.now.count count content.bytes.now content.end from end)) }
    ensures within { IfSome result (λ end. end ≤ packet.now.end) }
{
    let mut place = from;
    for i in 0..count {
        place = end_of_element(element, packet, place)?;
    }
    Some(place)
}

/// Where an element ends that could begin at a place, if it is within the content.
#[inline(always)]
fn end_of_element(element: &Element, packet: &Content<'_>, place: u64) -> Option<u64>
    requires start { place ≤ packet.now.end }
    ensures end { IfSome result
        (λ end. end ≡ next_multiple_of place element.now.align + element.now.span) }
    ensures within { IfSome result (λ end. end ≤ packet.now.end) }
{
    let begin = begin_at(element.align, packet, place)?;
    if element.span > packet.end - begin {
        return None;
    }
    Some(begin + element.span)
}
