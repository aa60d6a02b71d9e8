//! Fields of plans that are kept, or go by what is kept, while plans are built.

ghost use Rattle.std.specs.Prelude.{ℕ, List, [], ◌∷◌, ◌++◌, ◌≡◌, ◌^◌, ◌≤◌, true, false, IfOk, IfSome, IsTrue, OnOk};
ghost use Rattle.ctf_class.specs.PlanBuilding.{AddsElement, AddsPiece, IsMade, IsNestedOf, at_of};
ghost use Rattle.ctf_class.specs.declared.route.Route.{Route as RouteOf};
ghost use Rattle.ctf_class.specs.Records.{Slot, AreEach, IsCount, IsElement, IsItem, IsPlanned, with_kept};

use crate::align::Align;
use crate::class::{Class, Kind, Member};
use crate::fitted::fitted;
use crate::known::{Move, place_of};
use crate::plan_builder::{Lead, PlanBuilder, ready_after};
use crate::prepared_text::PreparedText;
use crate::record_plan::{
    Branch, Count, Elements, InnerPlans, Nested, PlannedArray, PlannedVariant, RecordPlan,
};
use crate::route::{Length, Origin, Route};
use crate::shown::{Labelled, LoneInteger, shown_of};
use crate::wanted::index_of;
use ctf_list::{List, NoMemory};
use std::alloc::Global;

/// How many numbers are kept at once at the most.
const MOST_KEPT: usize = 128;

impl PlanBuilder {
    /// Whether the number of a member is kept, which `next` comes after: lengths and tags ask for it, or `next` is an
    /// array or a text of so many elements that can't be the field after a run that ends with this number.
    pub(crate) fn keeps(
        &self,
        alloc: Global,
        lead: &Lead<'_>,
        member: &Member,
        next: Option<&Member>,
    ) -> Result<bool, NoMemory>
        requires { self.now.span ≤ 2 ^ 33 }
    {
        let can_be = match &member.class.kind {
            Kind::Enumeration { .. } => true,
            Kind::Integer(integer) => !integer.is_signed,
            _ => false,
        };
        if !can_be || self.is_wanted(lead.place) {
            return Ok(can_be);
        }
        match (next, lead.place.checked_add(1)) {
            (Some(next), Some(index)) => self.counts_alone(alloc, lead, member, &next.class, index),
            _ => Ok(false),
        }
    }

    /// Whether a member is the length of an array or a text of this class, which is the member of an index, and either
    /// can't be in a run or after it.
    fn counts_alone(
        &self,
        alloc: Global,
        lead: &Lead<'_>,
        member: &Member,
        next: &Class,
        index: usize,
    ) -> Result<bool, NoMemory>
        requires { self.now.span ≤ 2 ^ 33 }
    {
        if !is_counted(next, index) {
            return Ok(false);
        }
        let run = self.align_with(lead.align, member.class.align);
        Ok(
            self.as_number(&member.class, lead.align, run).is_none()
                || shown_of(alloc, next, index)?.is_none(),
        )
    }

    /// Whether lengths and tags ask for the member of an index.
    fn is_wanted(&self, index: usize) -> bool {
        match &self.wanted {
            Some(wanted) => wanted.get().asks_for(self.trail.as_slice(), index),
            None => false,
        }
    }

    /// Adds a member whose number is kept. Whether that could be done.
    pub(crate) fn add_kept(
        &mut self,
        alloc: Global,
        lead: &Lead<'_>,
        member: &Member,
    ) -> Result<bool, NoMemory>
        ensures few { IfOk result (λ took. IsTrue took → self.new.room ≤ 2 ^ 18) }
        ensures near { IfOk result (λ took. IsTrue took → self.new.span ≤ 2 ^ 33) }
        ensures made { IfOk result (λ took. IsTrue took → (done : List Slot) →
            IsMade done self.old →
            AddsPiece lead.now.place (at_of lead.now self.old.known) member.now done
            self.old self.new) }
    {
        let Some(nested) = kept_of(&member.class)? else {
            return Ok(false);
        };
        let Some(ready) = ready_after(alloc, lead.text, &member.name)? else {
            return Ok(false);
        };
        if self.known.len() >= MOST_KEPT {
            return Ok(false);
        }
        self.add_branch(
            alloc,
            Branch {
                runs: List::new(alloc),
                ready,
                align: lead.align,
                nested,
                plans: InnerPlans::Each(List::new(alloc)),
            },
        )?;
        self.keep(alloc, lead.place)?;
        Ok(true)
    }

    /// Keeps the number of the member of an index.
    fn keep(&mut self, alloc: Global, index: usize) -> Result<(), NoMemory>
        ensures { OnOk result
            (self.new ≡ record self.old { known = with_kept true index self.old.known }) }
    {
        let mut steps = List::new(alloc);
        steps.push(index_of(index)?)?;
        self.known.push(Route {
            origin: Origin::Enclosing(0),
            steps,
        })?;
        Ok(())
    }

    /// Adds a field after the open run, with a text before it, as the one of a branch. Whether that could be done.
    #[cycle(plan)]
    pub(crate) fn add_nested(
        &mut self,
        alloc: Global,
        ready: PreparedText,
        lead: &Lead<'_>,
        class: &Class,
    ) -> Result<bool, NoMemory>
        ensures few { IfOk result (λ took. IsTrue took → self.new.room ≤ 2 ^ 18) }
        ensures near { IfOk result (λ took. IsTrue took → self.new.span ≤ 2 ^ 33) }
        ensures count { IfOk result (λ took. IsTrue took → self.new.count ≡ self.old.count) }
        ensures ended { IfOk result (λ took. IsTrue took → self.new.ended ≡ 0) }
        ensures known { IfOk result (λ took. IsTrue took → self.new.known ≡ self.old.known) }
        ensures made { IfOk result (λ took. IsTrue took → (done : List Slot) (s : Slot) →
            s.lead ≡ ready → s.align ≡ lead.now.align → s.class ≡ class.now →
            s.known ≡ self.old.known → s.kept ≡ false → IsMade done self.old →
            IsMade (done ++ s ∷ []) self.new) }
    {
        let Some((nested, plans)) = self.nested_of(alloc, lead.place, class)? else {
            return Ok(false);
        };
        self.add_branch(
            alloc,
            Branch {
                runs: List::new(alloc),
                ready,
                align: lead.align,
                nested,
                plans: InnerPlans::Each(plans),
            },
        )?;
        Ok(true)
    }

    /// Such a field, in the member of an index, and its plans.
    #[cycle(plan)]
    fn nested_of(
        &self,
        alloc: Global,
        index: usize,
        class: &Class,
    ) -> Result<Option<(Nested, List<RecordPlan>)>, NoMemory>
        ensures { IfOk result (λ made. IfSome made
            (λ m. IsNestedOf self.now.known false class.now m.0 m.1)) }
    {
        match &class.kind {
            Kind::Variant { .. } => self.variant_of(alloc, index, class),
            Kind::Array { .. } => self.array_of(alloc, index, class),
            Kind::Text { length } => Ok(
                self.count_of(length)
                    .map(|count| (Nested::Text(count), List::new(alloc))),
            ),
            _ => Ok(None),
        }
    }

    /// A variant, in the member of an index, and the plans of its options, if each has one.
    #[cycle(plan)]
    fn variant_of(
        &self,
        alloc: Global,
        index: usize,
        class: &Class,
    ) -> Result<Option<(Nested, List<RecordPlan>)>, NoMemory>
        ensures { IfOk result (λ made. IfSome made
            (λ m. IsNestedOf self.now.known false class.now m.0 m.1)) }
    {
        let Kind::Variant {
            tag: route,
            choices,
            options,
        } = &class.kind
        else {
            return Ok(None);
        };
        let Some(tag) = place_of(self.known.as_slice(), route) else {
            return Ok(None);
        };
        let Some(plans) = self.option_plans(alloc, index, options.as_slice())? else {
            return Ok(None);
        };
        let choices = choices.share()?;
        Ok(Some((Nested::Variant(PlannedVariant { tag, choices }), plans)))
    }

    /// An array, in the member of an index, and the plan of its elements, if they need one.
    #[cycle(plan)]
    fn array_of(
        &self,
        alloc: Global,
        index: usize,
        class: &Class,
    ) -> Result<Option<(Nested, List<RecordPlan>)>, NoMemory>
        ensures { IfOk result (λ made. IfSome made
            (λ m. IsNestedOf self.now.known false class.now m.0 m.1)) }
    {
        let Kind::Array { length, element } = &class.kind else {
            return Ok(None);
        };
        let Some(count) = self.count_of(length) else {
            return Ok(None);
        };
        let Some((elements, plans)) = self.elements_of(alloc, index, element.get())? else {
            return Ok(None);
        };
        Ok(Some((Nested::Array(PlannedArray { count, elements }), plans)))
    }

    /// How many elements a field has, if its length is fixed or kept.
    fn count_of(&self, length: &Length) -> Option<Count>
        ensures { IfSome result (IsCount self.now.known length.now) }
    {
        match length {
            Length::Fixed(count) => Some(Count::Fixed(*count)),
            Length::Field(route) => {
                let place = place_of(self.known.as_slice(), route)?;
                Some(Count::Kept(place))
            }
        }
    }

    /// The elements of an array of this class, in the member of an index, and their plan, if they need one.
    #[cycle(plan)]
    fn elements_of(
        &self,
        alloc: Global,
        index: usize,
        class: &Class,
    ) -> Result<Option<(Elements, List<RecordPlan>)>, NoMemory>
        ensures align { IfOk result (λ made. IfSome made (λ m. m.0.align ≡ class.now.align)) }
        ensures is { IfOk result (λ made. IfSome made
            (λ m. (depth : ℕ) ×
            IsItem (IsPlanned depth) self.now.known class.now m.0.shown m.1)) }
    {
        let align = class.align;
        if let Some(shown) = shown_of(alloc, class, 0)? {
            let shown = Some(shown);
            return Ok(Some((Elements { align, shown }, List::new(alloc))));
        }
        let Some(plan) = self.element_plan(alloc, index, class)? else {
            return Ok(None);
        };
        let mut plans = List::new(alloc);
        plans.push(plan)?;
        Ok(Some((Elements { align, shown: None }, fitted(plans))))
    }

    /// The plan of an element of this class, in the member of an index, if it has one.
    #[cycle(plan)]
    fn element_plan(
        &self,
        alloc: Global,
        index: usize,
        class: &Class,
    ) -> Result<Option<RecordPlan>, NoMemory>
        ensures { IfOk result (λ found. IfSome found (λ plan. (depth : ℕ) ×
            IsElement (IsPlanned depth) self.now.known class.now plan)) }
    {
        let mut builder = self.within(alloc)?;
        if !builder.add_element(alloc, index, class)? {
            return Ok(None);
        }
        Ok(Some(builder.finish(List::new(alloc))?))
    }

    /// Adds the members of an element to nothing, or the field that it is, in the member of an index. Whether that
    /// could be done.
    #[cycle(plan)]
    fn add_element(&mut self, alloc: Global, index: usize, class: &Class) -> Result<bool, NoMemory>
        requires few { self.old.room ≤ 2 ^ 18 }
        requires near { self.old.span ≤ 2 ^ 33 }
        ensures { IfOk result (λ took. IsTrue took → IsMade [] self.old →
            AddsElement class.now self.old self.new) }
    {
        let Kind::Structure { members } = &class.kind else {
            let ready = PreparedText::new(alloc, b"")?;
            return self.add_nested(alloc, ready, &alone(b"", index), class);
        };
        let members = members.as_slice();
        if members.is_empty() {
            return Ok(false);
        }
        let text = List::from_slice(alloc, b"{ ")?;
        self.trail.push(index_of(index)?)?;
        self.go(alloc, Move::Inside)?;
        if !self.add_members(alloc, text, class.align, members)? {
            return Ok(false);
        }
        Ok(self.end_structure(members.len()))
    }

    /// The plans of options, in the member of an index, if each has one.
    #[cycle(plan)]
    fn option_plans(
        &self,
        alloc: Global,
        index: usize,
        options: &[Member],
    ) -> Result<Option<List<RecordPlan>>, NoMemory>
        ensures { IfOk result (λ found. IfSome found (λ plans. (depth : ℕ) ×
            AreEach (IsPlanned depth) self.now.known options.now plans)) }
    {
        let mut plans = List::new(alloc);
        for option in options {
            let mut builder = self.within(alloc)?;
            if !builder.add_member(alloc, &alone(b"{ ", index), option)? {
                return Ok(None);
            }
            plans.push(builder.finish(List::new(alloc))?)?;
        }
        Ok(Some(fitted(plans)))
    }
}

/// Where a field begins that is in the member of an index, after a text: an option, or an element.
fn alone(text: &[u8], index: usize) -> Lead<'_>
    ensures { result ≡ record { text = text.entry; align = 1; index = 0; place = index } }
{
    Lead {
        text,
        align: Align::one_bit(),
        index: 0,
        place: index,
    }
}

/// A class as a field whose number is kept, if its values have numbers that lengths or tags can be.
fn kept_of(class: &Class) -> Result<Option<Nested>, NoMemory>
    ensures { IfOk result (λ made. IfSome made (λ nested. (known : List RouteOf) →
        IsNestedOf known true class.now nested [])) }
{
    match &class.kind {
        Kind::Integer(integer) => {
            if integer.is_signed {
                return Ok(None);
            }
            Ok(Some(Nested::Number(LoneInteger {
                integer: *integer,
                align: class.align,
            })))
        }
        Kind::Enumeration { container, labels } => {
            let labels = labels.clone()?;
            Ok(Some(Nested::Label(Labelled {
                container: *container,
                align: class.align,
                labels,
            })))
        }
        _ => Ok(None),
    }
}

/// Whether a class is that of an array or a text of as many elements as the member before the one of an index says.
fn is_counted(class: &Class, index: usize) -> bool {
    match &class.kind {
        Kind::Array {
            length: Length::Field(route),
            ..
        } => route.leads_before(index),
        Kind::Text {
            length: Length::Field(route),
        } => route.leads_before(index),
        _ => false,
    }
}
