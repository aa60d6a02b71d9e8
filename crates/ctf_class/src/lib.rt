//! Field classes, event, stream and trace classes: what decoding and printing know of a trace.
//! There is no syntax in them: names of classes are gone, and paths are resolved.
#![tactic(auto)]

mod align;
mod apart;
mod branching;
mod chain;
mod choices;
mod class;
mod escape;
mod field_name;
mod firsts;
mod fitted;
mod frequency;
mod front_class;
mod header_plan;
mod heading;
mod host;
mod indexed;
mod integer;
mod known;
mod label_at;
mod label_name;
mod labels;
mod layers;
mod likely;
mod listed_choices;
mod many;
mod names;
mod plan_builder;
mod plan_room;
mod planned_number;
mod prepared_text;
mod ranks;
mod record_plan;
mod role;
mod route;
mod shared_words;
mod shown;
mod sorted;
mod span;
mod structures;
mod trace;
mod wanted;
mod width;
mod words;

pub use align::Align;
pub use choices::Choices;
pub use class::{Class, Kind, Member};
pub use escape::{escaped, hex_digit};
pub use field_name::FieldName;
pub use frequency::Frequency;
pub use front_class::FrontClass;
pub use header_plan::{HeaderIntegers, HeaderNumber, HeaderPlan, HeaderReading, HeaderTag};
pub use heading::{Heading, HeadingTexts};
pub use host::Host;
pub use indexed::{HasId, Indexed};
pub use integer::{Base, Integer};
pub use label_name::LabelName;
pub use labels::Labels;
pub use many::Many;
pub use names::Names;
pub use plan_builder::LONGEST_NUMBER;
pub use plan_room::PlanRoom;
pub use planned_number::PlannedNumber;
pub use prepared_text::{PREPARED_HEAD, PreparedText};
pub use record_plan::{
    Branch, Branches, Count, Elements, InnerPlans, Nested, PlannedArray, PlannedField, PlannedRun,
    PlannedVariant, RecordPlan,
};
pub use role::Role;
pub use route::{Length, Origin, Route, Scope};
pub use shown::{Integers, Labelled, LoneInteger, Shown};
pub use span::{Choice, Label, Span};
pub use structures::Structures;
pub use trace::{Clock, EventClass, PlannedEvent, StreamClass, StreamParts, TraceClass};
pub use width::Width;
