//! The numbers that lengths and tags ask for elsewhere than directly before them.

ghost use Rattle.std.specs.Prelude.{◌≡◌, IfOk, IfSome};
ghost use Rattle.std.specs.List.{All};
ghost use Rattle.ctf_class.specs.Records.{IsInPacket};

use crate::class::{Class, Kind};
use crate::known::place_of;
use crate::route::{Length, Origin, Route, Scope};
use ctf_list::{List, NoMemory};
use std::alloc::Global;

/// How many numbers are asked for at the most; others are not kept.
const MOST_WANTED: usize = 128;

/// The members of an event record's scopes that are the tags of variants, or the lengths of others than the member
/// after them: the ways to these. Plans keep them; no contract says which these are, since a plan that keeps others
/// gives the same text, or none.
#[derive(Drop)]
pub(crate) struct Wanted {
    /// Each is the number of a scope, and the indices of members from there on.
    paths: List<List<u32>>,
    /// The way to the member that is looked at.
    trail: List<u32>,
}

/// The number with which the ways to a scope's members begin.
pub(crate) fn scope_number(scope: Scope) -> u32 {
    match scope {
        Scope::PacketHeader => 0,
        Scope::PacketContext => 1,
        Scope::EventHeader => 2,
        Scope::StreamEventContext => 3,
        Scope::EventContext => 4,
        Scope::EventFields => 5,
    }
}

impl Wanted {
    /// Those of scopes of these classes: the stream event context, the event context, and the fields.
    pub(crate) fn new(
        alloc: Global,
        stream_context: Option<&Class>,
        event_context: Option<&Class>,
        fields: &Class,
    ) -> Result<Wanted, NoMemory> {
        let mut wanted = Wanted {
            paths: List::new(alloc),
            trail: List::new(alloc),
        };
        if let Some(class) = stream_context {
            wanted.add_scope(alloc, Scope::StreamEventContext, class)?;
        }
        if let Some(class) = event_context {
            wanted.add_scope(alloc, Scope::EventContext, class)?;
        }
        wanted.add_scope(alloc, Scope::EventFields, fields)?;
        Ok(wanted)
    }

    /// Whether the member of an index is one, in the structure to which this is the way.
    pub(crate) fn asks_for(&self, trail: &[u32], index: usize) -> bool {
        self.paths
            .as_slice()
            .iter()
            .any(|path| is_at(path.as_slice(), trail, index))
    }

    /// The routes to those in the packet's header and context, none of them twice.
    pub(crate) fn given(&self, alloc: Global) -> Result<List<Route>, NoMemory>
        ensures { IfOk result (All IsInPacket) }
    {
        let mut given = List::new(alloc);
        for path in self.paths.as_slice() {
            if let Some(route) = packet_route(alloc, path.as_slice())? {
                if place_of(given.as_slice(), &route).is_none() {
                    given.push(route)?;
                }
            }
        }
        Ok(given)
    }

    /// Adds those that a scope of this class asks for.
    fn add_scope(&mut self, alloc: Global, scope: Scope, class: &Class) -> Result<(), NoMemory> {
        self.trail.clear();
        self.trail.push(scope_number(scope))?;
        self.add_class(alloc, class, 0)
    }

    /// Adds those that a value of this class asks for, after so many members of its structure.
    #[cycle(wanted)]
    fn add_class(&mut self, alloc: Global, class: &Class, index: usize) -> Result<(), NoMemory> {
        match &class.kind {
            Kind::Integer(_) | Kind::Enumeration { .. } | Kind::String => Ok(()),
            Kind::Structure { members } => {
                let depth = self.trail.len();
                for (i, member) in members.as_slice().iter().enumerate() {
                    self.trail.push(index_of(i)?)?;
                    self.add_class(alloc, &member.class, i)?;
                    self.trail.truncate(depth);
                }
                Ok(())
            }
            Kind::Variant { tag, options, .. } => {
                self.add_route(alloc, tag)?;
                for option in options.as_slice() {
                    self.add_class(alloc, &option.class, 0)?;
                }
                Ok(())
            }
            Kind::Array { length, element } => {
                self.add_length(alloc, length, index)?;
                self.add_class(alloc, element.get(), 0)
            }
            Kind::Text { length } => self.add_length(alloc, length, index),
        }
    }

    /// Adds the number of a length, unless it is the member before the one of an index.
    fn add_length(&mut self, alloc: Global, length: &Length, index: usize) -> Result<(), NoMemory> {
        match length {
            Length::Fixed(_) => Ok(()),
            Length::Field(route) => {
                if route.leads_before(index) {
                    return Ok(());
                }
                self.add_route(alloc, route)
            }
        }
    }

    /// Adds the number that a route leads to from the member that is looked at.
    fn add_route(&mut self, alloc: Global, route: &Route) -> Result<(), NoMemory> {
        if self.paths.len() >= MOST_WANTED {
            return Ok(());
        }
        let mut path = List::new(alloc);
        match route.origin {
            Origin::Enclosing(out) => {
                let trail = self.trail.as_slice();
                let inside = (out as usize).saturating_add(1);
                path.extend_from_slice(&trail[..trail.len().saturating_sub(inside)])?;
            }
            Origin::Earlier(scope) => path.push(scope_number(scope))?,
        }
        path.extend_from_slice(route.steps.as_slice())?;
        self.paths.push(path)?;
        Ok(())
    }
}

/// The route that is this way from an event record's scopes, if it begins in the packet's header or context.
fn packet_route(alloc: Global, path: &[u32]) -> Result<Option<Route>, NoMemory>
    ensures { IfOk result (λ found. IfSome found IsInPacket) }
{
    let [first, steps @ ..] = path else {
        return Ok(None);
    };
    let scope = if *first == scope_number(Scope::PacketHeader) {
        Scope::PacketHeader
    } else if *first == scope_number(Scope::PacketContext) {
        Scope::PacketContext
    } else {
        return Ok(None);
    };
    Ok(Some(Route {
        origin: Origin::Earlier(scope),
        steps: List::from_slice(alloc, steps)?,
    }))
}

/// Whether a way is that to the member of an index in the structure to which another one is.
fn is_at(path: &[u32], trail: &[u32], index: usize) -> bool {
    match path.split_last() {
        Some((last, before)) => *last as usize == index && before == trail,
        None => false,
    }
}

/// An index in a way.
pub(crate) fn index_of(index: usize) -> Result<u32, NoMemory>
    ensures { IfOk result (λ step. step ≡ index) }
{
    u32::try_from(index).map_err(|_| NoMemory)
}
