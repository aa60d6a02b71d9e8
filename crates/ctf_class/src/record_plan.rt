//! What is known of event records before they are read.

ghost use Rattle.std.specs.Prelude.{◌≡◌, [], IfOk, option_copied};
ghost use Rattle.ctf_class.specs.Records.{IsPlanOf, scopes_of};

use crate::align::Align;
use crate::choices::Choices;
use crate::class::Class;
use crate::known::{Move, moved};
use crate::plan_builder::PlanBuilder;
use crate::planned_number::PlannedNumber;
use crate::prepared_text::PreparedText;
use crate::route::{Route, Scope};
use crate::shown::{Labelled, LoneInteger, Shown};
use crate::wanted::Wanted;
use ctf_list::{List, NoMemory, Shared};
use std::alloc::Global;

/// A field after the numbers of a run.
#[derive(Drop)]
pub struct PlannedField {
    /// What is printed before its value.
    pub ready: PreparedText,
    /// The alignment of the structures that it begins, or 1.
    pub align: Align,
    pub shown: Shown,
}

/// Integers that are one after the other at fixed distances from the first bit of an aligned byte (CTF 1.8.3, section
/// 4.1.5), and the field after them, if there is one.
#[derive(Drop)]
pub struct PlannedRun {
    /// The alignment at which the numbers begin, or 1 where there are none.
    pub align: Align,
    pub numbers: List<PlannedNumber>,
    /// Whether some of them are special.
    pub has_special: bool,
    /// How many bits the numbers take.
    pub span: u64,
    /// How many bytes of a line its numbers take at the most, what is printed before its field, `LONGEST_NUMBER` after
    /// that, and `PREPARED_HEAD` more.
    pub room: usize,
    pub field: Option<PlannedField>,
}

/// The fields of an event record's scopes after its header (CTF 1.8.3, section 6), one after the other, if each length
/// and each tag is among them or in the packet's header or context; else nothing, also where a text before a value has
/// more than 1,024 bytes, or more than 128 numbers are kept. The fields of a structure within are among those around
/// it, and one without members is a field itself. An option of a variant, with its name, has a plan of its own, and so
/// has an element of an array, unless it is shown without one.
///
/// The number of a tag is kept, and that of a length but where it is the last one of a run and its text or array the
/// field after that. Those of the packet are kept before the record. Each is kept after those that are kept before it
/// in the scopes, the options and the elements that it is in, and so has a place; what is kept in an option or an
/// element is forgotten at its end.
#[cycle(branches)]
#[derive(Drop)]
pub struct RecordPlan {
    /// The routes to the numbers of the packet's header and context that are kept before the record; in the plan of an
    /// option or an element none, as it has those of the plan that it is in.
    pub given: List<Route>,
    /// Those of these fields that are kept or go by what is kept, and other variants and arrays that are no field after a
    /// run, each with the fields before it.
    pub branches: Branches,
    /// The fields after the last of these.
    pub runs: List<PlannedRun>,
    /// How many values these scopes have, or are in the option or the element, without those in arrays and variants.
    pub count: u32,
    /// How many structures end, one in the other, where the last scope or the element does, itself among them; none
    /// where it has no members. The braces around an option are not among them.
    pub ended: u32,
}

/// Branches in their order.
#[cycle(branches)]
#[derive(Drop)]
pub enum Branches {
    Listed(List<Branch>),
}

/// Such a field, and the fields before it.
#[cycle(branches)]
#[derive(Drop)]
pub struct Branch {
    pub runs: List<PlannedRun>,
    /// What is printed before its value.
    pub ready: PreparedText,
    /// The alignment of the structures that it begins, or 1.
    pub align: Align,
    pub nested: Nested,
    /// The plans of the options, or the one of the elements, if these are not shown without one.
    pub plans: InnerPlans,
}

/// The field of a branch.
#[derive(Drop)]
pub enum Nested {
    /// An unsigned integer whose number is kept.
    Number(LoneInteger),
    /// An enumeration whose number is kept.
    Label(Labelled),
    Variant(PlannedVariant),
    Array(PlannedArray),
    /// A text of so many bytes (CTF 1.8.3, section 4.2.4).
    Text(Count),
}

/// A variant (CTF 1.8.3, section 4.2.2).
#[derive(Drop)]
pub struct PlannedVariant {
    /// The place of the kept number that is its tag's.
    pub tag: usize,
    pub choices: Choices,
}

/// An array of so many elements.
#[derive(Drop)]
pub struct PlannedArray {
    pub count: Count,
    pub elements: Elements,
}

/// How many elements a field of a branch has.
#[derive(Clone, Copy)]
pub enum Count {
    /// So many (CTF 1.8.3, section 4.2.3).
    Fixed(u64),
    /// As many as the kept number of a place says (CTF 1.8.3, section 4.2.4).
    Kept(usize),
}

/// The elements of an array.
#[derive(Drop)]
pub struct Elements {
    /// The alignment at which each begins.
    pub align: Align,
    /// How each is shown without a plan, if it can be.
    pub shown: Option<Shown>,
}

/// The plans of a branch.
#[cycle(branches)]
#[derive(Drop)]
pub enum InnerPlans {
    Each(List<RecordPlan>),
}

impl RecordPlan {
    /// The plan of records whose scopes have these classes: the stream event context, the event context, and the
    /// fields.
    pub fn new(
        alloc: Global,
        stream_context: Option<&Class>,
        event_context: Option<&Class>,
        fields: &Class,
    ) -> Result<RecordPlan, NoMemory>
        ensures { IfOk result (IsPlanOf
            (scopes_of (option_copied stream_context.entry)
            (option_copied event_context.entry) fields.now)) }
    {
        let wanted = Wanted::new(alloc, stream_context, event_context, fields)?;
        let given = wanted.given(alloc)?;
        let known = moved(alloc, given.as_slice(), Move::Within)?;
        let wanted = Shared::new(alloc, wanted)?;
        let mut builder = PlanBuilder::new(alloc, Some(wanted), known);
        if builder.add_optional(alloc, Scope::StreamEventContext, stream_context)?
            && builder.add_optional(alloc, Scope::EventContext, event_context)?
            && builder.add_scope(alloc, Scope::EventFields, fields)?
        {
            return builder.finish(given);
        }
        Ok(RecordPlan::none(alloc))
    }

    /// No plan.
    pub fn none(alloc: Global) -> RecordPlan
        ensures { result.runs ≡ [] }
    {
        RecordPlan {
            given: List::new(alloc),
            branches: Branches::Listed(List::new(alloc)),
            runs: List::new(alloc),
            count: 0,
            ended: 0,
        }
    }
}
