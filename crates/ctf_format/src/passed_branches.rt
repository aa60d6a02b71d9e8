//! Fields that are kept, or go by what is kept, variants and arrays that are passed over by their plans.

ghost use Rattle.std.specs.Prelude.{ℕ, List, ◌≡◌, ◌++◌, ◌≤◌, true, false, length, take, IfSome};
ghost use Rattle.std.specs.List.{All};
ghost use Rattle.ctf_class.specs.Records.{Slot, AreBranches, AreRuns, IsArray, IsCount, IsElement, IsInteger, IsItem, IsLabelled, IsNested, IsPlanned, IsVariant};
ghost use Rattle.ctf_class.specs.declared.class.Class.{Class};
ghost use Rattle.ctf_class.specs.declared.class.Kind as kinds;
ghost use Rattle.ctf_class.specs.declared.record_plan.PlannedRun.{PlannedRun as Planned};
ghost use Rattle.ctf_class.specs.declared.route.Length.{Length as LengthOf};
ghost use Rattle.ctf_class.specs.declared.route.Route.{Route};
ghost use Rattle.ctf_format.specs.Branches.{HasBranch, HasBranches, HasElement, HasFields, HasItems, HasNested, HasOptions, PassesArray, PassesElement, PassesNested, PassesOption, PassesRow, PassesSlots, TakesBranch};
ghost use Rattle.ctf_format.specs.Kept.{Within};
ghost use Rattle.ctf_format.specs.Passing.{Passes};
ghost use Rattle.ctf_format.specs.Records.{IsNear, PutsFields, reached};
ghost use Rattle.ctf_format.specs.declared.standing.Last.{Last as LastOf};

use crate::array::begin_at;
use crate::branches::{Items, are_empty, option_of};
use crate::content::Content;
use crate::kept::KeptNumbers;
use crate::leaf::{label_of, number_at};
use crate::passed_record::{end_of_text, pass_runs};
use crate::passed_row::pass_shown_row;
use crate::planned_record::Reach;
use crate::standing::{Last, bits_at};
use ctf_bits::uint_within;
use ctf_class::{
    Branch, Branches, Count, InnerPlans, Labelled, LoneInteger, Nested, PlannedArray, PlannedRun,
    PlannedVariant, RecordPlan,
};
use ctf_decode::MOST_VALUES;

/// How far the fields of a record's plan go, after the numbers that it is given.
#[inline(always)]
pub(crate) fn pass_record_fields(
    plan: &RecordPlan,
    packet: &Content<'_>,
    from: Reach,
    kept: &mut KeptNumbers,
) -> Option<Reach>
    requires is { HasFields plan.now }
    requires start { from.place ≤ packet.now.end }
    requires few { from.more ≤ MOST_VALUES }
    ensures passes { (depth : ℕ) (slots : List Slot) → IsPlanned depth slots plan.now →
        let given = take (length plan.now.given) kept.old.numbers in
        IfSome result (λ to. (ms : List LastOf) × PassesSlots slots packet.now from given to ms) }
    ensures within { IfSome result (λ to. to.place ≤ packet.now.end) }
    ensures few { IfSome result (λ to. to.more ≤ MOST_VALUES) }
{
    let Branches::Listed(branches) = &plan.branches;
    if branches.is_empty() {
        return pass_runs(plan.runs.as_slice(), packet, from);
    }
    kept.forget(plan.given.len());
    pass_branched(plan, packet, from, kept)
}

/// How far those of a plan go that has branches, or is that of an option or of elements.
#[cycle(branches)]
#[inline(never)]
fn pass_branched(
    plan: &RecordPlan,
    packet: &Content<'_>,
    from: Reach,
    kept: &mut KeptNumbers,
) -> Option<Reach>
    requires is { HasFields plan.now }
    requires start { from.place ≤ packet.now.end }
    requires few { from.more ≤ MOST_VALUES }
    ensures passes { (depth : ℕ) (slots : List Slot) → IsPlanned depth slots plan.now →
        IfSome result (λ to.
        PassesSlots slots packet.now from kept.old.numbers to kept.new.numbers) }
    ensures within { IfSome result (λ to. to.place ≤ packet.now.end) }
    ensures few { IfSome result (λ to. to.more ≤ MOST_VALUES) }
{
    let Branches::Listed(branches) = &plan.branches;
    let reach = pass_branches(branches.as_slice(), packet, from, kept)?;
    let runs = plan.runs.as_slice();
    if are_empty(runs) {
        return Some(reach);
    }
    pass_some(runs, packet, reach)
}

/// How far the fields of branches go.
#[cycle(branches)]
fn pass_branches(
    branches: &[Branch],
    packet: &Content<'_>,
    from: Reach,
    kept: &mut KeptNumbers,
) -> Option<Reach>
    requires are { HasBranches branches.now }
    requires start { from.place ≤ packet.now.end }
    requires few { from.more ≤ MOST_VALUES }
    ensures passes { (depth : ℕ) (slots : List Slot) (runs : List Planned) →
        AreBranches (IsPlanned depth) slots branches.now runs → IfSome result (λ to.
        (used : List Slot) × (others : List Slot) × (slots ≡ used ++ others) ×
        AreRuns others runs ×
        PassesSlots used packet.now from kept.old.numbers to kept.new.numbers) }
    ensures within { IfSome result (λ to. to.place ≤ packet.now.end) }
    ensures few { IfSome result (λ to. to.more ≤ MOST_VALUES) }
{
    let mut reach = from;
    for branch in branches {
        reach = pass_branch(branch, packet, reach, kept)?;
    }
    Some(reach)
}

/// How far the fields of a branch go.
#[cycle(branches)]
fn pass_branch(
    branch: &Branch,
    packet: &Content<'_>,
    from: Reach,
    kept: &mut KeptNumbers,
) -> Option<Reach>
    requires is { HasBranch branch.now }
    requires start { from.place ≤ packet.now.end }
    requires few { from.more ≤ MOST_VALUES }
    ensures passes { (depth : ℕ) (slots others : List Slot) →
        TakesBranch depth slots branch.now others → IfSome result (λ to.
        (used : List Slot) × (slots ≡ used ++ others) ×
        PassesSlots used packet.now from kept.old.numbers to kept.new.numbers) }
    ensures within { IfSome result (λ to. to.place ≤ packet.now.end) }
    ensures few { IfSome result (λ to. to.more ≤ MOST_VALUES) }
{
    let reach = pass_before(branch.runs.as_slice(), packet, from)?;
    let place = begin_at(branch.align, packet, reach.place)?;
    let InnerPlans::Each(plans) = &branch.plans;
    let inner = pass_nested(plans.as_slice(), &branch.nested, packet, place, kept)?;
    let more = reach.more + inner.more;
    if more > MOST_VALUES {
        return None;
    }
    Some(Reach {
        place: inner.place,
        more,
    })
}

/// How far the field of a branch goes from the place where it begins, and how many values were begun in it.
#[cycle(branches)]
fn pass_nested(
    plans: &[RecordPlan],
    nested: &Nested,
    packet: &Content<'_>,
    place: u64,
    kept: &mut KeptNumbers,
) -> Option<Reach>
    requires is { HasNested nested.now plans.now }
    requires start { place ≤ packet.now.end }
    ensures passes { (depth : ℕ) (s : Slot) → IsNested (IsPlanned depth) s nested.now plans.now →
        PassesNested result s packet.now place kept.old.numbers kept.new.numbers }
    ensures within { IfSome result (λ to. to.place ≤ packet.now.end) }
    ensures few { IfSome result (λ to. to.more ≤ MOST_VALUES) }
{
    match nested {
        Nested::Number(lone) => pass_number(lone, packet, place, kept),
        Nested::Label(labelled) => pass_label(labelled, packet, place, kept),
        Nested::Variant(variant) => pass_variant(plans, variant, packet, place, kept),
        Nested::Array(array) => pass_array(plans, array, packet, place, kept),
        Nested::Text(count) => pass_text(*count, packet, place, kept),
    }
}

/// How far an integer goes, whose number is kept.
fn pass_number(
    lone: &LoneInteger,
    packet: &Content<'_>,
    place: u64,
    kept: &mut KeptNumbers,
) -> Option<Reach>
    requires plain { lone.now.integer.is_signed ≡ false }
    requires start { place ≤ packet.now.end }
    ensures passes { (s : Slot) → s.kept ≡ true →
        IsInteger s.class lone.now.integer lone.now.align →
        PassesNested result s packet.now place kept.old.numbers kept.new.numbers }
    ensures within { IfSome result (λ to. to.place ≤ packet.now.end) }
    ensures few { IfSome result (λ to. to.more ≤ MOST_VALUES) }
{
    let integer = &lone.integer;
    let at = bits_at(integer, lone.align, packet, place)?;
    let number = uint_within(packet.bytes, at.begin, integer.size.bits(), integer.order);
    kept.push(Last::Unsigned(number)).ok()?;
    Some(Reach {
        place: at.end,
        more: 0,
    })
}

/// How far an enumeration goes, whose number is kept.
fn pass_label(
    labelled: &Labelled,
    packet: &Content<'_>,
    place: u64,
    kept: &mut KeptNumbers,
) -> Option<Reach>
    requires start { place ≤ packet.now.end }
    ensures passes { (s : Slot) → s.kept ≡ true → IsLabelled s.class labelled.now →
        PassesNested result s packet.now place kept.old.numbers kept.new.numbers }
    ensures within { IfSome result (λ to. to.place ≤ packet.now.end) }
    ensures few { IfSome result (λ to. to.more ≤ MOST_VALUES) }
{
    let container = &labelled.container;
    let at = bits_at(container, labelled.align, packet, place)?;
    let number = number_at(container, packet, at.begin);
    kept.push(label_of(number)).ok()?;
    Some(Reach {
        place: at.end,
        more: 0,
    })
}

/// How far a text of so many bytes goes.
fn pass_text(count: Count, packet: &Content<'_>, place: u64, kept: &KeptNumbers) -> Option<Reach>
    requires start { place ≤ packet.now.end }
    ensures passes { let ns = kept.now.numbers in
        (s : Slot) (many : LengthOf) → s.kept ≡ false → s.class.kind ≡ kinds.Text many →
        IsCount s.known many count → PassesNested result s packet.now place ns ns }
    ensures within { IfSome result (λ to. to.place ≤ packet.now.end) }
    ensures few { IfSome result (λ to. to.more ≤ MOST_VALUES) }
{
    let count = kept.count(count)?;
    let end = end_of_text(count, packet, place)?;
    Some(Reach {
        place: end,
        more: 0,
    })
}

/// How far the option of a variant goes that its tag chooses.
#[cycle(branches)]
fn pass_variant(
    plans: &[RecordPlan],
    variant: &PlannedVariant,
    packet: &Content<'_>,
    place: u64,
    kept: &mut KeptNumbers,
) -> Option<Reach>
    requires are { HasOptions plans.now }
    requires start { place ≤ packet.now.end }
    ensures passes { (depth : ℕ) (s : Slot) → s.kept ≡ false →
        IsVariant (IsPlanned depth) s variant.now plans.now →
        PassesNested result s packet.now place kept.old.numbers kept.new.numbers }
    ensures within { IfSome result (λ to. to.place ≤ packet.now.end) }
    ensures few { IfSome result (λ to. to.more ≤ MOST_VALUES) }
{
    let option = option_of(&variant.choices, kept.number(variant.tag))?;
    pass_option(plans, option, packet, place, kept)
}

/// How far an array of as many elements as its count says goes.
#[cycle(branches)]
fn pass_array(
    plans: &[RecordPlan],
    array: &PlannedArray,
    packet: &Content<'_>,
    place: u64,
    kept: &mut KeptNumbers,
) -> Option<Reach>
    requires are { HasItems array.now.elements plans.now }
    requires start { place ≤ packet.now.end }
    ensures passes { (depth : ℕ) (s : Slot) → s.kept ≡ false →
        IsArray (IsPlanned depth) s array.now plans.now →
        PassesNested result s packet.now place kept.old.numbers kept.new.numbers }
    ensures within { IfSome result (λ to. to.place ≤ packet.now.end) }
    ensures few { IfSome result (λ to. to.more ≤ MOST_VALUES) }
{
    let count = kept.count(array.count)?;
    let items = Items {
        elements: &array.elements,
        count,
    };
    pass_items(plans, items, packet, place, kept)
}

/// How far an array goes, and how many values were begun in it.
#[cycle(branches)]
fn pass_items(
    plans: &[RecordPlan],
    items: Items<'_>,
    packet: &Content<'_>,
    place: u64,
    kept: &mut KeptNumbers,
) -> Option<Reach>
    requires are { HasItems items.elements.now plans.now }
    requires start { place ≤ packet.now.end }
    ensures passes { let e = items.entry.elements.now in
        (depth : ℕ) (known : List Route) (k : Class) → e.align ≡ k.align →
        IsItem (IsPlanned depth) known k e.shown plans.now →
        PassesArray result (Within known kept.old.numbers) k items.entry.count packet.now place }
    ensures kept { IfSome result (λ _. kept.new.numbers ≡ kept.old.numbers) }
    ensures within { IfSome result (λ to. to.place ≤ packet.now.end) }
    ensures few { IfSome result (λ to. to.more ≤ MOST_VALUES) }
{
    if items.count > MOST_VALUES {
        return None;
    }
    let begin = begin_at(items.elements.align, packet, place)?;
    let ends = pass_row(plans, items, packet, begin, kept)?;
    let more = items.count + ends.more;
    if more > MOST_VALUES {
        return None;
    }
    Some(Reach {
        place: ends.place,
        more,
    })
}

/// How far the elements of an array go, and how many values were begun in all of them.
#[cycle(branches)]
fn pass_row(
    plans: &[RecordPlan],
    items: Items<'_>,
    packet: &Content<'_>,
    place: u64,
    kept: &mut KeptNumbers,
) -> Option<Reach>
    requires are { HasItems items.elements.now plans.now }
    requires start { place ≤ packet.now.end }
    ensures passes { let e = items.entry.elements.now in
        (depth : ℕ) (known : List Route) (k : Class) →
        IsItem (IsPlanned depth) known k e.shown plans.now →
        PassesRow result (Within known kept.old.numbers) k items.entry.count packet.now place }
    ensures kept { IfSome result (λ _. kept.new.numbers ≡ kept.old.numbers) }
    ensures within { IfSome result (λ to. to.place ≤ packet.now.end) }
    ensures few { IfSome result (λ to. to.more ≤ MOST_VALUES) }
{
    if let Some(shown) = &items.elements.shown {
        return pass_shown_row(shown, items.count, packet, place);
    }
    if plans.is_empty() {
        return None;
    }
    pass_planned_row(&plans[0], items.count, packet, place, kept)
}

/// How far so many elements go by their plan.
#[cycle(branches)]
fn pass_planned_row(
    plan: &RecordPlan,
    count: u64,
    packet: &Content<'_>,
    place: u64,
    kept: &mut KeptNumbers,
) -> Option<Reach>
    requires is { HasElement plan.now }
    requires start { place ≤ packet.now.end }
    ensures passes { (depth : ℕ) (known : List Route) (k : Class) →
        IsElement (IsPlanned depth) known k plan.now →
        PassesRow result (Within known kept.old.numbers) k count packet.now place }
    ensures kept { IfSome result (λ _. kept.new.numbers ≡ kept.old.numbers) }
    ensures within { IfSome result (λ to. to.place ≤ packet.now.end) }
    ensures few { IfSome result (λ to. to.more ≤ MOST_VALUES) }
{
    let mut at = place;
    let mut more = 0;
    for i in 0..count {
        let next = pass_element(plan, packet, at, kept)?;
        at = next.place;
        more += next.more;
        if more > MOST_VALUES {
            return None;
        }
    }
    Some(Reach { place: at, more })
}

/// How far an element goes, by its plan, and how many values were begun in it.
#[cycle(branches)]
#[tactic(auto, using(crate::proofs::BranchesLemmas::element_planned))]
fn pass_element(
    plan: &RecordPlan,
    packet: &Content<'_>,
    place: u64,
    kept: &mut KeptNumbers,
) -> Option<Reach>
    requires is { HasElement plan.now }
    requires start { place ≤ packet.now.end }
    ensures passes { (depth : ℕ) (known : List Route) (k : Class) →
        IsElement (IsPlanned depth) known k plan.now →
        PassesElement result (Within known kept.old.numbers) k packet.now place }
    ensures kept { IfSome result (λ _. kept.new.numbers ≡ kept.old.numbers) }
    ensures within { IfSome result (λ to. to.place ≤ packet.now.end) }
    ensures few { IfSome result (λ to. to.more ≤ MOST_VALUES) }
{
    let count = kept.len();
    let inner = pass_branched(plan, packet, Reach { place, more: 0 }, kept)?;
    kept.forget(count);
    let more = inner.more + u64::from(plan.count);
    if more > MOST_VALUES {
        return None;
    }
    Some(Reach {
        place: inner.place,
        more,
    })
}

/// How far an option of a variant goes, by its plan, and how many values were begun in it.
#[cycle(branches)]
fn pass_option(
    plans: &[RecordPlan],
    option: usize,
    packet: &Content<'_>,
    place: u64,
    kept: &mut KeptNumbers,
) -> Option<Reach>
    requires are { HasOptions plans.now }
    requires start { place ≤ packet.now.end }
    ensures passes { (depth : ℕ) →
        PassesOption result depth plans.now option packet.now place kept.old.numbers }
    ensures kept { IfSome result (λ _. kept.new.numbers ≡ kept.old.numbers) }
    ensures within { IfSome result (λ to. to.place ≤ packet.now.end) }
    ensures few { IfSome result (λ to. to.more ≤ MOST_VALUES) }
{
    if option >= plans.len() {
        return None;
    }
    let plan = &plans[option];
    let count = kept.len();
    let inner = pass_branched(plan, packet, Reach { place, more: 0 }, kept)?;
    kept.forget(count);
    let more = inner.more + u64::from(plan.count) + 1;
    if more > MOST_VALUES {
        return None;
    }
    Some(Reach {
        place: inner.place,
        more,
    })
}

/// How far the fields of runs go that are before a branch's own.
#[inline(always)]
fn pass_before(runs: &[PlannedRun], packet: &Content<'_>, from: Reach) -> Option<Reach>
    requires near { All IsNear runs.now }
    requires start { from.place ≤ packet.now.end }
    requires few { from.more ≤ MOST_VALUES }
    ensures passes { (slots : List Slot) → AreRuns slots runs.now →
        IfSome result (λ to. Passes (λ before after.
        PutsFields slots packet.now.bytes.now packet.now.end (reached from before)
        (reached to after))) }
    ensures within { IfSome result (λ to. to.place ≤ packet.now.end) }
    ensures few { IfSome result (λ to. to.more ≤ MOST_VALUES) }
{
    if runs.is_empty() {
        return Some(from);
    }
    pass_some(runs, packet, from)
}

/// How far the fields of runs go, out of the way of records without branches.
#[inline(never)]
fn pass_some(runs: &[PlannedRun], packet: &Content<'_>, from: Reach) -> Option<Reach>
    requires near { All IsNear runs.now }
    requires start { from.place ≤ packet.now.end }
    requires few { from.more ≤ MOST_VALUES }
    ensures passes { (slots : List Slot) → AreRuns slots runs.now →
        IfSome result (λ to. Passes (λ before after.
        PutsFields slots packet.now.bytes.now packet.now.end (reached from before)
        (reached to after))) }
    ensures within { IfSome result (λ to. to.place ≤ packet.now.end) }
    ensures few { IfSome result (λ to. to.more ≤ MOST_VALUES) }
{
    pass_runs(runs, packet, from)
}
