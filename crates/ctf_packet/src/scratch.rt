//! Memory of event records that were decoded before.

ghost use Rattle.std.specs.Prelude.{◌≡◌, ◌<◌, ◌⊎◌, length, IfOk};
ghost use Rattle.ctf_decode.specs.Known.{without_value};
ghost use Rattle.ctf_class.specs.declared.route.Scope.TheVariants.{EventContext, EventFields};

use ctf_class::Scope;
use ctf_decode::{Scopes, Value};
use std::alloc::{AllocError, Global};

/// How many event classes have memory of their own at the most. Others share it.
const MOST_BODIES: u64 = 1024;

/// The index of memory that is not there.
const NOWHERE: u16 = 65_535;

/// The longest event record, in bits, whose memory is kept: so no trace makes a reader hold many long ones.
const LONGEST_KEPT: u64 = 32_768;

/// The most values of an event record whose memory is kept.
const MOST_KEPT: u64 = 256;

/// Memory of event records that were decoded before, which is used for the next ones. What the values in it are means
/// nothing.
#[derive(Drop)]
pub struct Scratch {
    pub(crate) header: Value,
    pub(crate) stream_context: Value,
    /// By event class, in the order in which records of them came.
    pub(crate) bodies: Vec<SpareBody>,
    /// The index of each class there, by its number.
    places: Vec<u16>,
    /// The index of that class whose values are lent to the scopes.
    lent: usize,
    /// Whether the memory of the values that are lent is not kept.
    is_long: bool,
}

/// Values of the scopes of one event class.
#[derive(Drop)]
pub(crate) struct SpareBody {
    pub(crate) event_context: Value,
    pub(crate) fields: Value,
}

impl Scratch {
    /// Scratch without memory. None is allocated.
    pub fn new(alloc: Global) -> Scratch {
        Scratch {
            header: Value::Unsigned(0),
            stream_context: Value::Unsigned(0),
            bodies: Vec::new(alloc),
            places: Vec::new(alloc),
            lent: 0,
            is_long: false,
        }
    }

    /// Keeps in mind how many bits and values the event record has whose values are lent: of a long one the memory is
    /// not kept.
    pub fn note(&mut self, bits: u64, values: u64) {
        self.is_long = bits > LONGEST_KEPT || values > MOST_KEPT;
    }

    /// Takes the lent values back, those of the event context and of the fields, where their memory is kept.
    pub(crate) fn take_back(&mut self, scopes: &mut Scopes)
        ensures { (scopes.new ≡ scopes.old) ⊎
            (scopes.new ≡ without_value (without_value scopes.old EventContext) EventFields) }
    {
        if self.is_long {
            scopes.take(Scope::EventContext);
            scopes.take(Scope::EventFields);
        } else if let Some(body) = self.bodies.get_mut(self.lent) {
            scopes.leave(Scope::EventContext, &mut body.event_context);
            scopes.leave(Scope::EventFields, &mut body.fields);
        }
    }

    /// The index of the values of an event class, by its number. They are lent to the scopes.
    pub(crate) fn room_for(&mut self, id: u64) -> Result<usize, AllocError>
        ensures { IfOk result (λ at. at < length self.new.bodies.items) }
    {
        let number = (id % MOST_BODIES) as usize;
        let at = place_at(&self.places, number);
        if at >= self.bodies.len() {
            return self.add(number);
        }
        self.lent = at;
        Ok(at)
    }

    /// The index of further values, for an event class of which none are there. They are lent to the scopes.
    #[cold]
    #[inline(never)]
    fn add(&mut self, number: usize) -> Result<usize, AllocError>
        requires { number < 1024 }
        ensures { IfOk result (λ at. at < length self.new.bodies.items) }
    {
        let at = self.bodies.len();
        keep_place(&mut self.places, number, at)?;
        self.bodies.push(SpareBody {
            event_context: Value::Unsigned(0),
            fields: Value::Unsigned(0),
        })?;
        self.lent = at;
        Ok(at)
    }
}

/// The place that is kept for a number.
#[inline(always)]
fn place_at(places: &[u16], number: usize) -> usize {
    match places.get(number) {
        Some(place) => *place as usize,
        None => NOWHERE as usize,
    }
}

/// Keeps a place for a number.
fn keep_place(places: &mut Vec<u16>, number: usize, at: usize) -> Result<(), AllocError>
    requires { number < 1024 }
{
    if number >= places.len() {
        places.resize(number + 1, NOWHERE)?;
    }
    if let Ok(place) = u16::try_from(at) {
        places[number] = place;
    }
    Ok(())
}
