//! What a declaration gives to the trace class.

ghost use Rattle.std.specs.Prelude.{◌≡◌, IfOk};
ghost use Rattle.ctf_types.specs.Gathered.{joined};

use ctf_class::{
    Class, Clock, EventClass, FrontClass, Indexed, PlanRoom, StreamClass, StreamParts,
};
use ctf_list::NoMemory;
use std::alloc::Global;

/// A stream class without its events.
#[derive(Drop)]
pub struct StreamHead {
    pub id: u64,
    pub packet_context: Option<Class>,
    pub event_header: Option<Class>,
    /// The stream event context.
    pub event_context: Option<Class>,
    /// The clock that its integers set, where they set one.
    pub clock: Option<Clock>,
    /// Whether they set a clock of another name too.
    pub has_several: bool,
}

/// What a declaration gives to the trace class, its classes at their places.
#[derive(Drop)]
pub enum Linked {
    /// A trace block: the class of the packet header.
    Trace(Option<Class>),
    /// A stream block.
    Stream(StreamHead),
    /// An event block: the place of its stream among the streams, and its class.
    Event(usize, EventClass),
    /// Another declaration.
    Other,
}

impl StreamHead {
    /// The stream class with its events, and with plans of their records as far as there is room.
    pub fn with_events(
        self,
        alloc: Global,
        events: Indexed<EventClass>,
        room: &mut PlanRoom,
    ) -> Result<StreamClass, NoMemory>
        ensures { IfOk result (λ stream. stream ≡ joined self events) }
    {
        let parts = StreamParts {
            id: self.id,
            packet_context: front_class_of(alloc, self.packet_context)?,
            event_header: self.event_header,
            event_context: self.event_context,
            clock: self.clock,
            events,
        };
        StreamClass::new(alloc, parts, room)
    }
}

/// The class of a packet's header or context, if there is one, with what says something of the packet in it.
pub(crate) fn front_class_of(
    alloc: Global,
    class: Option<Class>,
) -> Result<Option<FrontClass>, NoMemory>
    ensures { IfOk result (λ front. front ≡ class) }
{
    match class {
        None => Ok(None),
        Some(class) => Ok(Some(FrontClass::new(alloc, class)?)),
    }
}
