//! Classes of events, streams and traces.

ghost use Rattle.std.specs.Prelude.{◌≡◌, ◌+◌, ◌<◌, ◌≤◌, length, Some, IfOk, IfSome, option_copied, option_map};
ghost use Rattle.ctf_class.specs.HeaderPlans.{IsHeaderPlanOf};
ghost use Rattle.ctf_class.specs.Items.{first_of_id, only_item};
ghost use Rattle.ctf_class.specs.Records.{IsPlanOf, classes_in, scopes_of};
ghost use Rattle.ctf_class.specs.Streams.{ArePlans, planned_classes};

use crate::class::Class;
use crate::frequency::Frequency;
use crate::front_class::FrontClass;
use crate::header_plan::{HeaderPlan, header_plan};
use crate::heading::Heading;
use crate::host::Host;
use crate::indexed::{HasId, Indexed};
use crate::plan_room::PlanRoom;
use crate::record_plan::RecordPlan;
use ctf_list::{List, NoMemory, Shared};
use std::alloc::Global;
use std::marker::Model;

/// A clock (CTF 1.8.3, section 8).
#[derive(Drop)]
pub struct Clock {
    /// Shared by the stream classes that have the clock.
    pub name: Shared<List<u8>>,
    pub frequency: Frequency,
    /// In seconds, from the epoch.
    pub offset_seconds: i64,
    /// In cycles, besides the seconds.
    pub offset: i64,
}

/// An event class (CTF 1.8.3, sections 6 and 7.4).
#[derive(Drop)]
pub struct EventClass {
    pub id: u64,
    pub heading: Heading,
    pub context: Option<Class>,
    pub fields: Class,
}

/// The parts of a stream class (CTF 1.8.3, sections 3 and 7.4).
#[derive(Drop)]
pub struct StreamParts {
    /// The number that packet headers name it by (CTF 1.8.3, section 5.1).
    pub id: u64,
    /// The class of the packet context (CTF 1.8.3, section 5.2).
    pub packet_context: Option<FrontClass>,
    /// The class of the event header (CTF 1.8.3, section 6.1).
    pub event_header: Option<Class>,
    /// The class of the stream event context (CTF 1.8.3, section 6.2).
    pub event_context: Option<Class>,
    /// The clock of the stream (CTF 1.8.3, section 8), where an integer of its packet context or event header sets one.
    pub clock: Option<Clock>,
    /// The event classes (CTF 1.8.3, section 6), in the order of the text.
    pub events: Indexed<EventClass>,
}

/// A stream class (CTF 1.8.3, sections 3 and 7.4). Contracts see its parts; with them it keeps the plans of its event
/// records and of their headers.
#[derive(Drop)]
pub struct StreamClass {
    parts: StreamParts,
    /// The plan of event headers, where they are of a form that has one.
    header_plan: Option<HeaderPlan>,
    /// In the order of the event classes.
    plans: List<RecordPlan>,
}

/// An event class, with the plan of its records.
#[derive(Clone, Copy)]
pub struct PlannedEvent<'a> {
    pub event: &'a EventClass,
    pub plan: &'a RecordPlan,
}

impl Model for StreamClass {
    ghost use Rattle.std.specs.Coded.{codes};
    ghost use Rattle.ctf_class.specs.HeaderPlans.{IsHeaderPlanOf};
    ghost use Rattle.ctf_class.specs.Streams.{StreamClass as Parts, ArePlans};
    ghost use Rattle.ctf_class.specs.contracts.class.Kind as kinds;

    ghost Value = { Parts };

    ghost coded = { Prim.hlevel (codes, kinds.the_row.coded) };

    ghost view = { λ stream. record {
      id = stream.parts.id;
      packet_context = stream.parts.packet_context;
      event_header = stream.parts.event_header;
      event_context = stream.parts.event_context;
      clock = stream.parts.clock;
      events = stream.parts.events;
    } };

    ghost invariant = { λ stream. IsHeaderPlanOf stream.parts.event_header stream.header_plan ×
        ArePlans stream.parts.event_context stream.parts.events stream.plans };
}

/// A trace class (CTF 1.8.3, sections 2 and 7.4).
#[derive(Drop)]
pub struct TraceClass {
    pub uuid: Option<[u8; 16]>,
    pub host: Option<Host>,
    pub packet_header: Option<FrontClass>,
    /// In the order of the text.
    pub streams: Indexed<StreamClass>,
}

impl HasId for EventClass {
    ghost id_of = { λ event. event.id };

    fn id(&self) -> u64 {
        self.id
    }
}

impl HasId for StreamClass {
    ghost id_of = { λ stream. stream.id };

    fn id(&self) -> u64 {
        self.parts.id
    }
}

impl EventClass {
    /// The name of the event.
    pub fn name(&self) -> &[u8]
        ensures { result.now ≡ self.now.heading.name }
    {
        self.heading.name()
    }

    /// The class of the event context.
    pub fn context(&self) -> Option<&Class>
        ensures { option_copied result ≡ self.now.context }
    {
        self.context.as_ref()
    }

    /// The class of the event fields.
    pub fn fields(&self) -> &Class
        ensures { result.now ≡ self.now.fields }
    {
        &self.fields
    }
}

impl StreamClass {
    /// A stream class of these parts, with plans of its event records as far as there is room for them. It fails where
    /// an allocation fails.
    pub fn new(
        alloc: Global,
        parts: StreamParts,
        room: &mut PlanRoom,
    ) -> Result<StreamClass, NoMemory>
        ensures parts { IfOk result (λ stream. stream ≡
            record {
              id = parts.id;
              packet_context = parts.packet_context;
              event_header = parts.event_header;
              event_context = parts.event_context;
              clock = parts.clock;
              events = parts.events;
            }) }
        ensures less { room.new.left ≤ room.old.left }
    {
        let header_plan = header_plan(parts.event_header.as_ref());
        let event_context = parts.event_context.as_ref();
        let plans = plans_of(alloc, event_context, parts.events.as_slice(), room)?;
        Ok(StreamClass {
            parts,
            header_plan,
            plans,
        })
    }

    /// The event classes, in the order of the text.
    pub fn events(&self) -> &[EventClass]
        ensures { result.now ≡ self.now.events }
    {
        self.parts.events.as_slice()
    }

    /// The first event class of an id, with the plan of its records.
    #[inline(always)]
    pub fn planned_event(&self, id: u64) -> Option<PlannedEvent<'_>>
        ensures found { option_map (λ p. p.event.now) result ≡
            first_of_id (λ event. event.id) id self.now.events }
        ensures event { IfSome result (λ p. first_of_id (λ event. event.id) id self.now.events ≡
            Some p.event.now) }
        ensures plan { IfSome result
            (λ p. IsPlanOf (scopes_of self.now.event_context p.event.now.context p.event.now.fields)
            p.plan.now) }
    {
        let place = self.parts.events.place(id)?;
        let event = self.parts.events.as_slice().get(place)?;
        let plan = self.plans.as_slice().get(place)?;
        Some(PlannedEvent { event, plan })
    }

    /// The first event class of an id.
    pub fn event(&self, id: u64) -> Option<&EventClass>
        ensures { option_copied result ≡ first_of_id (λ event. event.id) id self.now.events }
    {
        self.parts.events.get(id)
    }

    /// The event class, where there is just one.
    pub fn only(&self) -> Option<&EventClass>
        ensures { option_copied result ≡ only_item self.now.events }
    {
        self.parts.events.only()
    }

    /// The event class, where there is just one, with the plan of its records.
    #[inline(always)]
    pub fn planned_only(&self) -> Option<PlannedEvent<'_>>
        ensures found { option_map (λ p. p.event.now) result ≡ only_item self.now.events }
        ensures event { IfSome result (λ p. only_item self.now.events ≡ Some p.event.now) }
        ensures plan { IfSome result
            (λ p. IsPlanOf (scopes_of self.now.event_context p.event.now.context p.event.now.fields)
            p.plan.now) }
    {
        let event = self.parts.events.only()?;
        let plan = self.plans.as_slice().first()?;
        Some(PlannedEvent { event, plan })
    }

    /// The clock of the stream, where an integer of its packet context or event header sets one.
    pub fn clock(&self) -> Option<&Clock>
        ensures { option_copied result ≡ self.now.clock }
    {
        self.parts.clock.as_ref()
    }

    /// The class of the packet context.
    pub fn packet_context(&self) -> Option<&Class>
        ensures { option_copied result ≡ self.now.packet_context }
    {
        Some(self.parts.packet_context.as_ref()?.class())
    }

    /// The class of the packet context, with what says something of the packet in it.
    pub fn context_front(&self) -> Option<&FrontClass>
        ensures { option_copied result ≡ self.now.packet_context }
    {
        self.parts.packet_context.as_ref()
    }

    /// The class of the event header.
    pub fn event_header(&self) -> Option<&Class>
        ensures { option_copied result ≡ self.now.event_header }
    {
        self.parts.event_header.as_ref()
    }

    /// The plan by which event headers are read; `None` where they have another form, or where no list of their choices
    /// is kept.
    #[inline(always)]
    pub fn header_plan(&self) -> Option<&HeaderPlan>
        ensures { IsHeaderPlanOf self.now.event_header (option_copied result) }
    {
        self.header_plan.as_ref()
    }

    /// The class of the stream event context.
    pub fn event_context(&self) -> Option<&Class>
        ensures { option_copied result ≡ self.now.event_context }
    {
        self.parts.event_context.as_ref()
    }
}

impl TraceClass {
    /// The first stream class of an id.
    pub fn stream(&self, id: u64) -> Option<&StreamClass>
        ensures { option_copied result ≡ first_of_id (λ stream. stream.id) id self.now.streams }
    {
        self.streams.get(id)
    }

    /// The stream class, where there is just one.
    pub fn only(&self) -> Option<&StreamClass>
        ensures { option_copied result ≡ only_item self.now.streams }
    {
        self.streams.only()
    }

    /// The name of the host, if the metadata has one.
    pub fn host(&self) -> Option<&[u8]>
        ensures { option_copied result ≡ self.now.host }
    {
        Some(self.host.as_ref()?.as_slice())
    }

    /// The class of the packet header.
    pub fn packet_header(&self) -> Option<&Class>
        ensures { option_copied result ≡ self.now.packet_header }
    {
        Some(self.packet_header.as_ref()?.class())
    }

    /// The class of the packet header, with what says something of the packet in it.
    pub fn header_front(&self) -> Option<&FrontClass>
        ensures { option_copied result ≡ self.now.packet_header }
    {
        self.packet_header.as_ref()
    }
}

/// The plans of records of event classes, where the stream event context has this class.
fn plans_of(
    alloc: Global,
    context: Option<&Class>,
    events: &[EventClass],
    room: &mut PlanRoom,
) -> Result<List<RecordPlan>, NoMemory>
    ensures plans { IfOk result (ArePlans (option_copied context.entry) events.now) }
    ensures less { room.new.left ≤ room.old.left }
    ensures paid { IfOk result (λ plans.
        room.new.left + planned_classes (option_copied context.entry) events.now plans
        ≤ room.old.left) }
{
    let mut plans = List::new(alloc);
    for event in events {
        let plan = plan_of(alloc, context, event, room)?;
        plans.push(plan)?;
    }
    Ok(plans)
}

/// The plan of records of an event class; none where there is no room for it.
fn plan_of(
    alloc: Global,
    context: Option<&Class>,
    event: &EventClass,
    room: &mut PlanRoom,
) -> Result<RecordPlan, NoMemory>
    ensures plan { IfOk result (IsPlanOf
        (scopes_of (option_copied context.entry) event.now.context event.now.fields)) }
    ensures less { room.new.left ≤ room.old.left }
    ensures paid { IfOk result (λ plan. 0 < length plan.runs →
        let scopes = scopes_of (option_copied context.entry) event.now.context event.now.fields in
        room.new.left + classes_in scopes ≡ room.old.left) }
{
    let event_context = event.context();
    let fields = event.fields();
    let contexts = u64::from(nodes_of(context)) + u64::from(nodes_of(event_context));
    if !room.take(contexts + u64::from(fields.nodes)) {
        return Ok(RecordPlan::none(alloc));
    }
    RecordPlan::new(alloc, context, event_context, fields)
}

/// How many classes a class has in it, if there is one.
fn nodes_of(class: Option<&Class>) -> u32
    ensures some { (k : Class) → option_copied class.entry ≡ Some k → result ≡ k.nodes }
    ensures none { option_copied class.entry ≡ None → result ≡ 0 }
{
    match class {
        Some(class) => class.nodes,
        None => 0,
    }
}
