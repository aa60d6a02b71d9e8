//! Texts of fields that are kept, or go by what is kept, of variants and of arrays, by their plans.

ghost use Rattle.std.specs.Prelude.{ℕ, ℤ, List, [], ◌∷◌, ◌≡◌, ◌++◌, ◌≤◌, length, take, vec_len, IfSome, IsTrue, Some};
ghost use Rattle.std.specs.Prelude.{true, false};
ghost use Rattle.std.specs.List.{All};
ghost use Rattle.ctf_class.specs.declared.class.Kind as kinds;
ghost use Rattle.ctf_class.specs.declared.route.Length.{Length as LengthOf};
ghost use Rattle.ctf_class.specs.Records.{Slot, AreBranches, AreRuns, IsArray, IsCount, IsElement, IsInteger, IsItem, IsLabelled, IsNested, IsPlanned, IsVariant};
ghost use Rattle.ctf_class.specs.declared.class.Class.{Class};
ghost use Rattle.ctf_class.specs.declared.record_plan.PlannedRun.{PlannedRun as Planned};
ghost use Rattle.ctf_class.specs.declared.route.Route.{Route};
ghost use Rattle.ctf_decode.specs.Routes.{chosen};
ghost use Rattle.ctf_format.specs.Branches.{HasBranch, HasBranches, HasElement, HasFields, HasItems, HasNested, HasOptions, PutsBranch, PutsElement, PutsNested, PutsOption, WritesArray, WritesRow, come};
ghost use Rattle.ctf_format.specs.Kept.{PutsSlots, Within};
ghost use Rattle.ctf_format.specs.Put.{IsPut, IsWithin};
ghost use Rattle.ctf_format.specs.Records.{IsNear, PutsFields};
ghost use Rattle.ctf_format.specs.Rows.{enclosed, row};
ghost use Rattle.ctf_format.specs.declared.standing.Last.{Last as LastOf};
ghost use Rattle.ctf_format.specs.declared.standing.Last.TheVariants as lasts;

use crate::array::{begin_at, put_integers};
use crate::content::Content;
use crate::element::{ElementLead, LONGEST_ROW, put_index};
use crate::kept::KeptNumbers;
use crate::leaf::{put_enumeration, put_one};
use crate::mark::{put_end, put_nothing};
use crate::planned_record::{Reach, put_before, put_ends, put_more_ends, put_runs};
use crate::room::with_room;
use crate::shown_row::put_shown_row;
use crate::standing::{AlignedInteger, Last, MembersEnd, Position, put_fixed_text};
use ctf_class::{
    Branch, Branches, Choices, Count, Elements, InnerPlans, LONGEST_NUMBER, Labelled, LoneInteger,
    Nested, PREPARED_HEAD, PlannedArray, PlannedRun, PlannedVariant, PreparedText, RecordPlan,
    Shown,
};
use ctf_decode::MOST_VALUES;

/// So many elements of an array.
#[derive(Clone, Copy)]
pub(crate) struct Items<'a> {
    pub(crate) elements: &'a Elements,
    pub(crate) count: u64,
}

/// A place of a packet, in bits from its first one, and an index in a buffer, in bytes: where a value and its text
/// begin.
#[derive(Clone, Copy)]
pub(crate) struct Begin<'a> {
    pub(crate) packet: &'a Content<'a>,
    pub(crate) place: u64,
    pub(crate) text: usize,
}

impl Begin<'_> {
    /// How far fields came that begin there, before the first one.
    #[inline(always)]
    fn first(self) -> MembersEnd
        ensures { result ≡ record { place = self.entry.place; text = self.entry.text; more = 0 } }
    {
        MembersEnd {
            place: self.place,
            text: self.text,
            more: 0,
        }
    }
}

/// Writes the fields of a record's plan, and a brace, after the numbers that it is given, and gives how far they came.
#[inline(always)]
pub(crate) fn put_record_fields(
    plan: &RecordPlan,
    packet: &Content<'_>,
    from: MembersEnd,
    kept: &mut KeptNumbers,
    buffer: &mut Vec<u8>,
) -> Option<MembersEnd>
    requires is { HasFields plan.now }
    requires within { IsWithin packet.now from.place buffer.old from.text }
    requires few { from.more ≤ MOST_VALUES }
    ensures puts { (depth : ℕ) (slots : List Slot) → IsPlanned depth slots plan.now →
        let given = take (length plan.now.given) kept.old.numbers in
        IfSome result (λ end. (ms : List LastOf) × (line : List ℕ) ×
        PutsSlots slots packet.now.bytes.now packet.now.end
        (come from (take from.text buffer.old.items)) given (come end line) ms ×
        (take end.text buffer.new.items ≡ line ++ (32 ∷ 125 ∷ []))) }
    ensures within { IfSome result (λ end. IsWithin packet.now end.place buffer.new end.text) }
    ensures few { IfSome result (λ end. end.more ≤ MOST_VALUES) }
{
    let Branches::Listed(branches) = &plan.branches;
    if branches.is_empty() {
        return put_last_runs(plan.runs.as_slice(), packet, from, buffer);
    }
    kept.forget(plan.given.len());
    put_branched(plan, packet, from, kept, buffer)
}

/// Writes the fields of a plan, and a brace, after those that came so far, and gives how far they came then.
#[cycle(branches)]
#[inline(always)]
fn put_fields(
    plan: &RecordPlan,
    packet: &Content<'_>,
    from: MembersEnd,
    kept: &mut KeptNumbers,
    buffer: &mut Vec<u8>,
) -> Option<MembersEnd>
    requires is { HasFields plan.now }
    requires within { IsWithin packet.now from.place buffer.old from.text }
    requires few { from.more ≤ MOST_VALUES }
    ensures puts { (depth : ℕ) (slots : List Slot) → IsPlanned depth slots plan.now →
        IfSome result (λ end. (line : List ℕ) ×
        PutsSlots slots packet.now.bytes.now packet.now.end
        (come from (take from.text buffer.old.items)) kept.old.numbers
        (come end line) kept.new.numbers ×
        (take end.text buffer.new.items ≡ line ++ (32 ∷ 125 ∷ []))) }
    ensures within { IfSome result (λ end. IsWithin packet.now end.place buffer.new end.text) }
    ensures few { IfSome result (λ end. end.more ≤ MOST_VALUES) }
{
    let Branches::Listed(branches) = &plan.branches;
    if branches.is_empty() {
        return put_last_runs(plan.runs.as_slice(), packet, from, buffer);
    }
    put_branched(plan, packet, from, kept, buffer)
}

/// Writes those of a plan with branches, out of the way of records without any.
#[cycle(branches)]
#[inline(never)]
fn put_branched(
    plan: &RecordPlan,
    packet: &Content<'_>,
    from: MembersEnd,
    kept: &mut KeptNumbers,
    buffer: &mut Vec<u8>,
) -> Option<MembersEnd>
    requires is { HasFields plan.now }
    requires within { IsWithin packet.now from.place buffer.old from.text }
    requires few { from.more ≤ MOST_VALUES }
    ensures puts { (depth : ℕ) (slots : List Slot) → IsPlanned depth slots plan.now →
        IfSome result (λ end. (line : List ℕ) ×
        PutsSlots slots packet.now.bytes.now packet.now.end
        (come from (take from.text buffer.old.items)) kept.old.numbers
        (come end line) kept.new.numbers ×
        (take end.text buffer.new.items ≡ line ++ (32 ∷ 125 ∷ []))) }
    ensures within { IfSome result (λ end. IsWithin packet.now end.place buffer.new end.text) }
    ensures few { IfSome result (λ end. end.more ≤ MOST_VALUES) }
{
    let Branches::Listed(branches) = &plan.branches;
    let mid = put_branches(branches.as_slice(), packet, from, kept, buffer)?;
    let runs = plan.runs.as_slice();
    if are_empty(runs) {
        let text = put_end(b'}', buffer, mid.text).ok()?;
        return Some(MembersEnd {
            place: mid.place,
            text,
            more: mid.more,
        });
    }
    put_last_runs(runs, packet, mid, buffer)
}

/// Whether runs are only one without fields, as after a branch that is the last field.
#[inline(always)]
pub(crate) fn are_empty(runs: &[PlannedRun]) -> bool
    ensures { IsTrue result → (slots : List Slot) → AreRuns slots runs.now → slots ≡ [] }
{
    runs.len() == 1 && runs[0].numbers.is_empty() && runs[0].field.is_none()
}

/// Writes the fields of branches, and gives how far they came then.
#[cycle(branches)]
fn put_branches(
    branches: &[Branch],
    packet: &Content<'_>,
    from: MembersEnd,
    kept: &mut KeptNumbers,
    buffer: &mut Vec<u8>,
) -> Option<MembersEnd>
    requires are { HasBranches branches.now }
    requires within { IsWithin packet.now from.place buffer.old from.text }
    requires few { from.more ≤ MOST_VALUES }
    ensures puts { (depth : ℕ) (slots : List Slot) (runs : List Planned) →
        AreBranches (IsPlanned depth) slots branches.now runs → IfSome result (λ end.
        (used : List Slot) × (others : List Slot) × (slots ≡ used ++ others) ×
        AreRuns others runs × PutsSlots used packet.now.bytes.now packet.now.end
        (come from (take from.text buffer.old.items)) kept.old.numbers
        (come end (take end.text buffer.new.items)) kept.new.numbers) }
    ensures within { IfSome result (λ end. IsWithin packet.now end.place buffer.new end.text) }
    ensures few { IfSome result (λ end. end.more ≤ MOST_VALUES) }
{
    let mut at = from;
    for branch in branches {
        at = put_branch(branch, packet, at, kept, buffer)?;
    }
    Some(at)
}

/// Writes the fields of a branch, and gives how far they came then.
#[cycle(branches)]
fn put_branch(
    branch: &Branch,
    packet: &Content<'_>,
    from: MembersEnd,
    kept: &mut KeptNumbers,
    buffer: &mut Vec<u8>,
) -> Option<MembersEnd>
    requires is { HasBranch branch.now }
    requires within { IsWithin packet.now from.place buffer.old from.text }
    requires few { from.more ≤ MOST_VALUES }
    ensures puts { let before = take from.text buffer.old.items in (depth : ℕ) →
        PutsBranch result depth branch.now packet.now from before kept.old.numbers
        buffer.new.items kept.new.numbers }
    ensures within { IfSome result (λ end. IsWithin packet.now end.place buffer.new end.text) }
    ensures few { IfSome result (λ end. end.more ≤ MOST_VALUES) }
{
    let mid = put_runs_before(branch.runs.as_slice(), packet, from, buffer)?;
    let place = begin_at(branch.align, packet, mid.place)?;
    let text = put_prepared(&branch.ready, buffer, mid.text)?;
    let InnerPlans::Each(plans) = &branch.plans;
    let begin = Begin {
        packet: &*packet,
        place,
        text,
    };
    let next = put_nested(plans.as_slice(), &branch.nested, begin, kept, buffer)?;
    let more = mid.more + next.more;
    if more > MOST_VALUES {
        return None;
    }
    Some(MembersEnd {
        place: next.place,
        text: next.text,
        more,
    })
}

/// Writes the field of a branch after what is before it.
#[cycle(branches)]
#[inline(always)]
fn put_nested(
    plans: &[RecordPlan],
    nested: &Nested,
    from: Begin<'_>,
    kept: &mut KeptNumbers,
    buffer: &mut Vec<u8>,
) -> Option<MembersEnd>
    requires is { HasNested nested.now plans.now }
    requires within { IsWithin from.packet.now from.place buffer.old from.text }
    ensures puts { let line = take from.entry.text buffer.old.items in
        (depth : ℕ) (s : Slot) → IsNested (IsPlanned depth) s nested.now plans.now →
        PutsNested result s from.entry.packet.now from.entry.place line kept.old.numbers
        buffer.new.items kept.new.numbers }
    ensures within { IfSome result
        (λ e. IsWithin from.entry.packet.now e.place buffer.new e.text) }
    ensures few { IfSome result (λ e. e.more ≤ MOST_VALUES) }
{
    match nested {
        Nested::Number(lone) => put_number_kept(lone, from, kept, buffer),
        Nested::Label(labelled) => put_label_kept(labelled, from, kept, buffer),
        Nested::Variant(variant) => put_variant(plans, variant, from, kept, buffer),
        Nested::Array(array) => put_counted(plans, array, from, kept, buffer),
        Nested::Text(count) => put_text_kept(*count, from, kept, buffer),
    }
}

/// Writes an integer and keeps its number.
#[inline(never)]
fn put_number_kept(
    lone: &LoneInteger,
    from: Begin<'_>,
    kept: &mut KeptNumbers,
    buffer: &mut Vec<u8>,
) -> Option<MembersEnd>
    requires within { IsWithin from.packet.now from.place buffer.old from.text }
    ensures puts { let line = take from.entry.text buffer.old.items in
        (s : Slot) → s.kept ≡ true → IsInteger s.class lone.now.integer lone.now.align →
        PutsNested result s from.entry.packet.now from.entry.place line kept.old.numbers
        buffer.new.items kept.new.numbers }
    ensures within { IfSome result
        (λ e. IsWithin from.entry.packet.now e.place buffer.new e.text) }
    ensures few { IfSome result (λ e. e.more ≤ MOST_VALUES) }
{
    let class = AlignedInteger {
        integer: &lone.integer,
        align: lone.align,
    };
    with_room(LONGEST_NUMBER, buffer, from.text).ok()?;
    let at = Position {
        place: from.place,
        text: from.text,
    };
    let next = put_one(&class, from.packet, at, buffer)?;
    kept.push(next.last).ok()?;
    Some(MembersEnd {
        place: next.place,
        text: next.text,
        more: 0,
    })
}

/// Writes an enumeration and keeps its number.
#[inline(always)]
fn put_label_kept(
    labelled: &Labelled,
    from: Begin<'_>,
    kept: &mut KeptNumbers,
    buffer: &mut Vec<u8>,
) -> Option<MembersEnd>
    requires within { IsWithin from.packet.now from.place buffer.old from.text }
    ensures puts { let line = take from.entry.text buffer.old.items in
        (s : Slot) → s.kept ≡ true → IsLabelled s.class labelled.now →
        PutsNested result s from.entry.packet.now from.entry.place line kept.old.numbers
        buffer.new.items kept.new.numbers }
    ensures within { IfSome result
        (λ e. IsWithin from.entry.packet.now e.place buffer.new e.text) }
    ensures few { IfSome result (λ e. e.more ≤ MOST_VALUES) }
{
    let container = AlignedInteger {
        integer: &labelled.container,
        align: labelled.align,
    };
    let labels = labelled.labels.get();
    let at = Position {
        place: from.place,
        text: from.text,
    };
    let next = put_enumeration(&container, labels, from.packet, at, buffer)?;
    kept.push(next.last).ok()?;
    Some(MembersEnd {
        place: next.place,
        text: next.text,
        more: 0,
    })
}

/// Writes a text of so many bytes.
#[inline(never)]
fn put_text_kept(
    count: Count,
    from: Begin<'_>,
    kept: &KeptNumbers,
    buffer: &mut Vec<u8>,
) -> Option<MembersEnd>
    requires within { IsWithin from.packet.now from.place buffer.old from.text }
    ensures puts { let line = take from.entry.text buffer.old.items in let ns = kept.now.numbers in
        (s : Slot) (many : LengthOf) → s.kept ≡ false → s.class.kind ≡ kinds.Text many →
        IsCount s.known many count →
        PutsNested result s from.entry.packet.now from.entry.place line ns buffer.new.items ns }
    ensures within { IfSome result
        (λ e. IsWithin from.entry.packet.now e.place buffer.new e.text) }
    ensures few { IfSome result (λ e. e.more ≤ MOST_VALUES) }
{
    let count = kept.count(count)?;
    let at = Position {
        place: from.place,
        text: from.text,
    };
    let ends = put_fixed_text(count, from.packet, at, buffer)?;
    Some(MembersEnd {
        place: ends.place,
        text: ends.text,
        more: 0,
    })
}

/// Writes the option of a variant that its tag chooses.
#[cycle(branches)]
#[inline(always)]
fn put_variant(
    plans: &[RecordPlan],
    variant: &PlannedVariant,
    from: Begin<'_>,
    kept: &mut KeptNumbers,
    buffer: &mut Vec<u8>,
) -> Option<MembersEnd>
    requires are { HasOptions plans.now }
    requires within { IsWithin from.packet.now from.place buffer.old from.text }
    ensures puts { let line = take from.entry.text buffer.old.items in
        (depth : ℕ) (s : Slot) → s.kept ≡ false →
        IsVariant (IsPlanned depth) s variant.now plans.now →
        PutsNested result s from.entry.packet.now from.entry.place line kept.old.numbers
        buffer.new.items kept.new.numbers }
    ensures within { IfSome result
        (λ e. IsWithin from.entry.packet.now e.place buffer.new e.text) }
    ensures few { IfSome result (λ e. e.more ≤ MOST_VALUES) }
{
    let option = option_of(&variant.choices, kept.number(variant.tag))?;
    put_option(plans, option, from, kept, buffer)
}

/// Writes an option of a variant, with its braces, by its plan.
#[cycle(branches)]
fn put_option(
    plans: &[RecordPlan],
    option: usize,
    from: Begin<'_>,
    kept: &mut KeptNumbers,
    buffer: &mut Vec<u8>,
) -> Option<MembersEnd>
    requires are { HasOptions plans.now }
    requires within { IsWithin from.packet.now from.place buffer.old from.text }
    ensures puts { let before = take from.entry.text buffer.old.items in (depth : ℕ) →
        PutsOption result depth plans.now option from.entry.packet.now from.entry.place before
        kept.old.numbers buffer.new.items }
    ensures kept { IfSome result (λ _. kept.new.numbers ≡ kept.old.numbers) }
    ensures within { IfSome result
        (λ e. IsWithin from.entry.packet.now e.place buffer.new e.text) }
    ensures few { IfSome result (λ e. e.more ≤ MOST_VALUES) }
{
    if option >= plans.len() {
        return None;
    }
    let plan = &plans[option];
    let count = kept.len();
    let ends = put_fields(plan, from.packet, from.first(), kept, buffer)?;
    kept.forget(count);
    let text = put_more_ends(plan.ended, buffer, ends.text)?;
    let more = ends.more + u64::from(plan.count) + 1;
    if more > MOST_VALUES {
        return None;
    }
    Some(MembersEnd {
        place: ends.place,
        text,
        more,
    })
}

/// Writes an array of as many elements as its count says.
#[cycle(branches)]
#[inline(never)]
fn put_counted(
    plans: &[RecordPlan],
    array: &PlannedArray,
    from: Begin<'_>,
    kept: &mut KeptNumbers,
    buffer: &mut Vec<u8>,
) -> Option<MembersEnd>
    requires are { HasItems array.now.elements plans.now }
    requires within { IsWithin from.packet.now from.place buffer.old from.text }
    ensures puts { let line = take from.entry.text buffer.old.items in
        (depth : ℕ) (s : Slot) → s.kept ≡ false →
        IsArray (IsPlanned depth) s array.now plans.now →
        PutsNested result s from.entry.packet.now from.entry.place line kept.old.numbers
        buffer.new.items kept.new.numbers }
    ensures within { IfSome result
        (λ e. IsWithin from.entry.packet.now e.place buffer.new e.text) }
    ensures few { IfSome result (λ e. e.more ≤ MOST_VALUES) }
{
    let count = kept.count(array.count)?;
    let items = Items {
        elements: &array.elements,
        count,
    };
    put_items(plans, items, from, kept, buffer)
}

/// Writes an array.
#[cycle(branches)]
fn put_items(
    plans: &[RecordPlan],
    items: Items<'_>,
    from: Begin<'_>,
    kept: &mut KeptNumbers,
    buffer: &mut Vec<u8>,
) -> Option<MembersEnd>
    requires are { HasItems items.elements.now plans.now }
    requires within { IsWithin from.packet.now from.place buffer.old from.text }
    ensures puts { let line = take from.entry.text buffer.old.items in
        let e = items.entry.elements.now in
        (depth : ℕ) (known : List Route) (k : Class) → e.align ≡ k.align →
        IsItem (IsPlanned depth) known k e.shown plans.now →
        WritesArray result (Within known kept.old.numbers) k items.entry.count
        from.entry.packet.now from.entry.place line buffer.new.items }
    ensures kept { IfSome result (λ _. kept.new.numbers ≡ kept.old.numbers) }
    ensures within { IfSome result
        (λ e. IsWithin from.entry.packet.now e.place buffer.new e.text) }
    ensures few { IfSome result (λ e. e.more ≤ MOST_VALUES) }
{
    if let Some(Shown::Integer(lone)) = &items.elements.shown {
        return put_counted_integers(lone, items.count, from, buffer);
    }
    if items.count > MOST_VALUES {
        return None;
    }
    let place = begin_at(items.elements.align, from.packet, from.place)?;
    let begin = Begin {
        packet: &*from.packet,
        place,
        text: from.text,
    };
    let ends = put_bracketed(plans, items, begin, kept, buffer)?;
    let more = items.count + ends.more;
    if more > MOST_VALUES {
        return None;
    }
    Some(MembersEnd {
        place: ends.place,
        text: ends.text,
        more,
    })
}

/// Writes an array of so many integers.
#[inline(always)]
fn put_counted_integers(
    lone: &LoneInteger,
    count: u64,
    from: Begin<'_>,
    buffer: &mut Vec<u8>,
) -> Option<MembersEnd>
    requires within { IsWithin from.packet.now from.place buffer.old from.text }
    ensures puts { let line = take from.entry.text buffer.old.items in
        (known : List Route) (ns : List LastOf) (k : Class) →
        IsInteger k lone.now.integer lone.now.align →
        WritesArray result (Within known ns) k count from.entry.packet.now from.entry.place line
        buffer.new.items }
    ensures within { IfSome result
        (λ e. IsWithin from.entry.packet.now e.place buffer.new e.text) }
    ensures few { IfSome result (λ e. e.more ≤ MOST_VALUES) }
{
    let class = AlignedInteger {
        integer: &lone.integer,
        align: lone.align,
    };
    let at = Position {
        place: from.place,
        text: from.text,
    };
    let next = put_integers(&class, count, from.packet, at, buffer)?;
    Some(MembersEnd {
        place: next.place,
        text: next.text,
        more: next.more,
    })
}

/// Writes the elements of an array, with their brackets.
#[cycle(branches)]
fn put_bracketed(
    plans: &[RecordPlan],
    items: Items<'_>,
    from: Begin<'_>,
    kept: &mut KeptNumbers,
    buffer: &mut Vec<u8>,
) -> Option<MembersEnd>
    requires are { HasItems items.elements.now plans.now }
    requires within { IsWithin from.packet.now from.place buffer.old from.text }
    ensures puts { let line = take from.entry.text buffer.old.items in
        (depth : ℕ) (known : List Route) (k : Class) →
        IsItem (IsPlanned depth) known k items.entry.elements.now.shown plans.now →
        WritesRow (enclosed 91 93) result (Within known kept.old.numbers) k items.entry.count
        from.entry.packet.now from.entry.place line buffer.new.items }
    ensures kept { IfSome result (λ _. kept.new.numbers ≡ kept.old.numbers) }
    ensures within { IfSome result
        (λ e. IsWithin from.entry.packet.now e.place buffer.new e.text) }
    ensures few { IfSome result (λ e. e.more ≤ MOST_VALUES) }
{
    if items.count == 0 {
        let text = put_nothing(b'[', b']', buffer, from.text).ok()?;
        return Some(MembersEnd {
            place: from.place,
            text,
            more: 0,
        });
    }
    let ends = put_row(plans, items, from, kept, buffer)?;
    let text = put_end(b']', buffer, ends.text).ok()?;
    Some(MembersEnd {
        place: ends.place,
        text,
        more: ends.more,
    })
}

/// Writes the elements of an array, the first after `[`.
#[cycle(branches)]
fn put_row(
    plans: &[RecordPlan],
    items: Items<'_>,
    from: Begin<'_>,
    kept: &mut KeptNumbers,
    buffer: &mut Vec<u8>,
) -> Option<MembersEnd>
    requires are { HasItems items.elements.now plans.now }
    requires within { IsWithin from.packet.now from.place buffer.old from.text }
    ensures puts { let line = take from.entry.text buffer.old.items in
        (depth : ℕ) (known : List Route) (k : Class) →
        IsItem (IsPlanned depth) known k items.entry.elements.now.shown plans.now →
        WritesRow (row 91) result (Within known kept.old.numbers) k items.entry.count
        from.entry.packet.now from.entry.place line buffer.new.items }
    ensures kept { IfSome result (λ _. kept.new.numbers ≡ kept.old.numbers) }
    ensures within { IfSome result
        (λ e. IsWithin from.entry.packet.now e.place buffer.new e.text) }
    ensures few { IfSome result (λ e. e.more ≤ MOST_VALUES) }
{
    if let Some(shown) = &items.elements.shown {
        let at = Position {
            place: from.place,
            text: from.text,
        };
        return put_shown_row(shown, items.count, from.packet, at, buffer);
    }
    if plans.is_empty() {
        return None;
    }
    put_planned_row(&plans[0], items.count, from, kept, buffer)
}

/// Writes so many elements by their plan, the first after `[`.
#[cycle(branches)]
fn put_planned_row(
    plan: &RecordPlan,
    count: u64,
    from: Begin<'_>,
    kept: &mut KeptNumbers,
    buffer: &mut Vec<u8>,
) -> Option<MembersEnd>
    requires is { HasElement plan.now }
    requires within { IsWithin from.packet.now from.place buffer.old from.text }
    ensures puts { let line = take from.entry.text buffer.old.items in
        (depth : ℕ) (known : List Route) (k : Class) → IsElement (IsPlanned depth) known k plan.now →
        WritesRow (row 91) result (Within known kept.old.numbers) k count from.entry.packet.now
        from.entry.place line buffer.new.items }
    ensures kept { IfSome result (λ _. kept.new.numbers ≡ kept.old.numbers) }
    ensures within { IfSome result
        (λ e. IsWithin from.entry.packet.now e.place buffer.new e.text) }
    ensures few { IfSome result (λ e. e.more ≤ MOST_VALUES) }
{
    let packet = from.packet;
    let mut at = from.first();
    let mut mark = b'[';
    for i in 0..count {
        let index = i as usize;
        let begin = Begin {
            packet: &*packet,
            place: at.place,
            text: at.text,
        };
        let next = put_element(plan, ElementLead { mark, index }, begin, kept, buffer)?;
        at = MembersEnd {
            place: next.place,
            text: next.text,
            more: at.more + next.more,
        };
        mark = b',';
        if at.more > MOST_VALUES || at.text > LONGEST_ROW {
            return None;
        }
    }
    Some(at)
}

/// Writes an element by its plan, after its mark and its index.
#[cycle(branches)]
#[tactic(auto, using(crate::proofs::BranchesLemmas::element_planned))]
fn put_element(
    plan: &RecordPlan,
    lead: ElementLead,
    from: Begin<'_>,
    kept: &mut KeptNumbers,
    buffer: &mut Vec<u8>,
) -> Option<MembersEnd>
    requires is { HasElement plan.now }
    requires within { IsWithin from.packet.now from.place buffer.old from.text }
    ensures puts { let line = take from.entry.text buffer.old.items in
        (depth : ℕ) (known : List Route) (k : Class) → IsElement (IsPlanned depth) known k plan.now →
        PutsElement result (Within known kept.old.numbers) lead k from.entry.packet.now
        from.entry.place line buffer.new.items }
    ensures kept { IfSome result (λ _. kept.new.numbers ≡ kept.old.numbers) }
    ensures within { IfSome result
        (λ e. IsWithin from.entry.packet.now e.place buffer.new e.text) }
    ensures few { IfSome result (λ e. e.more ≤ MOST_VALUES) }
{
    let text = put_index(lead, buffer, from.text).ok()?;
    let begin = MembersEnd {
        place: from.place,
        text,
        more: 0,
    };
    let count = kept.len();
    let ends = put_fields(plan, from.packet, begin, kept, buffer)?;
    kept.forget(count);
    let text = put_ends(plan.ended, buffer, ends.text)?;
    let more = ends.more + u64::from(plan.count);
    if more > MOST_VALUES {
        return None;
    }
    Some(MembersEnd {
        place: ends.place,
        text,
        more,
    })
}

/// Writes the fields of runs, and a brace, after those that came so far, and gives how far they came then.
#[inline(always)]
fn put_last_runs(
    runs: &[PlannedRun],
    packet: &Content<'_>,
    from: MembersEnd,
    buffer: &mut Vec<u8>,
) -> Option<MembersEnd>
    requires near { All IsNear runs.now }
    requires within { IsWithin packet.now from.place buffer.old from.text }
    requires few { from.more ≤ MOST_VALUES }
    ensures puts { (slots : List Slot) → AreRuns slots runs.now →
        IfSome result (λ end. (line : List ℕ) ×
        PutsFields slots packet.now.bytes.now packet.now.end
        (come from (take from.text buffer.old.items)) (come end line) ×
        (take end.text buffer.new.items ≡ line ++ (32 ∷ 125 ∷ []))) }
    ensures within { IfSome result (λ end. IsWithin packet.now end.place buffer.new end.text) }
    ensures few { IfSome result (λ end. end.more ≤ MOST_VALUES) }
{
    let mut reach = Reach {
        place: from.place,
        more: from.more,
    };
    let text = put_runs(runs, packet, &mut reach, buffer, from.text)?;
    Some(MembersEnd {
        place: reach.place,
        text,
        more: reach.more,
    })
}

/// Writes the fields of runs that are before a branch's own, and gives how far they came then.
fn put_runs_before(
    runs: &[PlannedRun],
    packet: &Content<'_>,
    from: MembersEnd,
    buffer: &mut Vec<u8>,
) -> Option<MembersEnd>
    requires is { (slots : List Slot) × AreRuns slots runs.now }
    requires within { IsWithin packet.now from.place buffer.old from.text }
    requires few { from.more ≤ MOST_VALUES }
    ensures puts { (slots : List Slot) → AreRuns slots runs.now →
        IfSome result (λ end. PutsFields slots packet.now.bytes.now packet.now.end
        (come from (take from.text buffer.old.items))
        (come end (take end.text buffer.new.items))) }
    ensures within { IfSome result (λ end. IsWithin packet.now end.place buffer.new end.text) }
    ensures few { IfSome result (λ end. end.more ≤ MOST_VALUES) }
{
    if runs.is_empty() {
        return Some(from);
    }
    let ends = put_last_runs(runs, packet, from, buffer)?;
    let text = put_ends(0, buffer, ends.text)?;
    Some(MembersEnd {
        place: ends.place,
        text,
        more: ends.more,
    })
}

/// The option that a tag with this number chooses.
#[inline(always)]
pub(crate) fn option_of(choices: &Choices, tag: Last) -> Option<usize>
    ensures { IfSome result (λ option.
        (z : ℤ) × (tag ≡ lasts.Label z) × (chosen choices.now z ≡ Some option)) }
{
    let Last::Label(number) = tag else {
        return None;
    };
    choices.option(i128::from(number))
}

/// Writes a text where there is room for it, and gives the index after it.
#[inline(always)]
fn put_prepared(ready: &PreparedText, buffer: &mut Vec<u8>, at: usize) -> Option<usize>
    requires { at ≤ vec_len buffer.old }
    ensures { IfSome result (IsPut buffer.old at ready.now buffer.new) }
{
    with_room(ready.len() + PREPARED_HEAD, buffer, at).ok()?;
    Some(put_before(ready, buffer, at))
}
