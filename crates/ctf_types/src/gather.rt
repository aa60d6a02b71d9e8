//! The trace class from what each declaration gives to it.

ghost use Rattle.std.specs.Prelude.{◌≡◌, [], ◌∷◌, ◌++◌, List, length, get_or, set, ◌<◌, IfOk, replicate};
ghost use Rattle.ctf_types.specs.declared.linked.Linked.{Linked as row_of};
ghost use Rattle.ctf_types.specs.Parted.{IsParted, IsBelow};

use crate::linked::{Linked, StreamHead};
use ctf_class::{Class, EventClass};
use ctf_list::{List, NoMemory};
use std::alloc::Global;

/// What declarations give, by where it goes.
#[derive(Drop)]
pub struct TraceParts {
    /// The class of the packet header, of each trace block.
    pub headers: List<Option<Class>>,
    /// The streams without their events.
    pub heads: List<StreamHead>,
    /// The events of each stream.
    pub events: List<List<EventClass>>,
}

impl TraceParts {
    /// What no declaration gives, for a text of `count` streams.
    pub fn new(alloc: Global, count: usize) -> Result<TraceParts, NoMemory>
        ensures parted { IfOk result (λ parts. IsParted [] parts) }
        ensures lists { IfOk result (λ parts. length parts.events ≡ count) }
    {
        Ok(TraceParts {
            headers: List::new(alloc),
            heads: List::new(alloc),
            events: empty_lists(alloc, count)?,
        })
    }

    /// Puts what one more declaration gives after what others gave.
    pub fn put(&mut self, row: Linked) -> Result<(), NoMemory>
        requires { IsBelow (length self.old.events) row }
        ensures parted { (rows : List row_of) → IsParted rows self.old →
            IfOk result (λ _. IsParted (rows ++ row ∷ []) self.new) }
        ensures lists { IfOk result (λ _. length self.new.events ≡ length self.old.events) }
    {
        match row {
            Linked::Trace(header) => Ok(self.headers.push(header)?),
            Linked::Stream(head) => Ok(self.heads.push(head)?),
            Linked::Event(place, event) => push_at(&mut self.events, place, event),
            Linked::Other => Ok(()),
        }
    }
}

/// `count` empty lists.
fn empty_lists(alloc: Global, count: usize) -> Result<List<List<EventClass>>, NoMemory>
    ensures { IfOk result (λ lists. lists ≡ replicate count []) }
{
    let mut lists = List::new(alloc);
    for _ in 0..count {
        lists.push(List::new(alloc))?;
    }
    Ok(lists)
}

/// Puts an event after those at a place.
fn push_at(
    lists: &mut List<List<EventClass>>,
    place: usize,
    event: EventClass,
) -> Result<(), NoMemory>
    requires { place < length lists.old }
    ensures { IfOk result (λ _.
        lists.new ≡ set lists.old place (get_or lists.old place [] ++ event ∷ [])) }
{
    Ok(lists.as_mut_slice()[place].push(event)?)
}
