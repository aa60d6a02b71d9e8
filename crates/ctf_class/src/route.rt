//! Where lengths and tags are found.

ghost use Rattle.std.specs.Prelude.{ℕ, ◌≡◌, IsTrue, IsFalse};
ghost use Rattle.ctf_class.specs.Records.{LeadsBefore};

use ctf_list::List;

/// The scopes of a packet and of an event record, in the order in which they are decoded (CTF 1.8.3,
/// section 7.3.2).
#[derive(Clone, Copy, PartialEq, Eq)]
pub enum Scope {
    PacketHeader,
    PacketContext,
    EventHeader,
    StreamEventContext,
    EventContext,
    EventFields,
}

/// Where a route begins.
#[derive(Clone, Copy, PartialEq, Eq)]
pub enum Origin {
    /// A structure around the class, 0 being the innermost.
    Enclosing(u32),
    /// The structure of an earlier scope.
    Earlier(Scope),
}

/// The way to a length or a tag: a member of the structure at the origin, a member of that one, and so
/// on, by their places.
#[derive(Drop)]
pub struct Route {
    pub origin: Origin,
    pub steps: List<u32>,
}

impl Route {
    /// Whether the route leads to the member before that of an index in the innermost structure.
    pub fn leads_before(&self, index: usize) -> bool
        ensures leads { IsTrue result → LeadsBefore self.now index }
        ensures other { IsFalse result → LeadsBefore self.now index → ⊥ }
    {
        let Origin::Enclosing(out) = self.origin else {
            return false;
        };
        let [step] = self.steps.as_slice() else {
            return false;
        };
        out == 0 && index > 0 && *step as usize == index - 1
    }

    /// Whether another route is this one.
    pub(crate) fn is(&self, other: &Route) -> bool
        ensures { IsTrue result → self.now ≡ other.now }
    {
        self.origin == other.origin && self.steps.as_slice() == other.steps.as_slice()
    }
}

/// How many elements an array has.
#[derive(Drop)]
pub enum Length {
    /// As many as the class says (CTF 1.8.3, section 4.2.3).
    Fixed(u64),
    /// As many as an earlier field says (CTF 1.8.3, section 4.2.4).
    Field(Route),
}
