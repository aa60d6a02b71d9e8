//! Which clocks the integers of a stream's classes set.

ghost use Rattle.std.specs.Prelude.{◌≡◌, ◌<◌, ◌∷◌, ◌++◌, List, [], Some, length, take, slice_get, option_copied};
ghost use Rattle.std.specs.List.{cons_option};
ghost use Rattle.ctf_class.specs.declared.trace.Clock as trace;
ghost use Rattle.ctf_meaning.specs.Shapes.{Field, fields_in};
ghost use Rattle.ctf_meaning.specs.Links.{moved_clocks};
ghost use Rattle.ctf_declared_class.specs.Views as views;
ghost use Rattle.ctf_paths.specs.Spots.{spot_by};
ghost use Rattle.ctf_paths.specs.MovedClocks.{Tells, each_moved, member_moved, option_moved};

use crate::clocks::Clocks;
use crate::spot::Spot;
use ctf_class::Clock;
use ctf_declared_class::{Members, Shape};

/// What is kept of the clocks that integers set (CTF 1.8.3, section 8).
#[derive(Clone, Copy)]
pub struct Moved<'a> {
    /// The first of them.
    pub first: Option<&'a Clock>,
    /// Whether a clock of another name is among them.
    pub has_other: bool,
}

impl<'a> Moved<'a> {
    /// No clock is set.
    pub fn none() -> Moved<'a>
        ensures { Tells result [] }
    {
        Moved {
            first: None,
            has_other: false,
        }
    }

    /// What is kept with one clock more, or as it is where there is none.
    fn with(self, clock: Option<&'a Clock>) -> Moved<'a>
        ensures { (old : List trace.Clock) → Tells self.entry old →
            Tells result (old ++ cons_option (option_copied clock.entry) []) }
    {
        match clock {
            None => self,
            Some(next) => self.and(next),
        }
    }

    /// What is kept with one clock more.
    fn and(self, next: &'a Clock) -> Moved<'a>
        ensures { (old : List trace.Clock) → Tells self.entry old →
            Tells result (old ++ next.now ∷ []) }
    {
        match self.first {
            None => Moved {
                first: Some(next),
                has_other: false,
            },
            Some(first) => Moved {
                first: Some(first),
                has_other: self.has_other
                    || next.name.get().as_slice() != first.name.get().as_slice(),
            },
        }
    }
}

/// The clocks that the integers of a shape set at its place, after those set so far.
#[cycle(moved)]
pub fn moved_in<'a>(
    clocks: &'a Clocks<'_>,
    spot: &Spot<'_>,
    shape: &Shape,
    moved: Moved<'a>,
) -> Moved<'a>
    ensures { (old : List trace.Clock) → Tells moved.entry old →
        Tells result (old ++ moved_clocks clocks.now.clocks.now (spot_by spot.now)
        (views.shape shape.now)) }
{
    match shape {
        Shape::Integer(integer) => moved.with(clocks.moved_clock(spot, integer)),
        Shape::Float => moved,
        Shape::String => moved,
        Shape::Enumeration { .. } => moved,
        Shape::Structure { members, .. } => moved_members(clocks, spot, members, moved),
        Shape::Variant { options, .. } => {
            let below = spot.below();
            moved_options(clocks, &below, options, moved)
        }
        Shape::Array { element, .. } => {
            let below = spot.below();
            moved_in(clocks, &below, element.get(), moved)
        }
        Shape::Sequence { element, .. } => {
            let below = spot.below();
            moved_in(clocks, &below, element.get(), moved)
        }
    }
}

/// The clocks that the integers in the members of a structure set, after those set so far.
#[cycle(moved)]
fn moved_members<'a>(
    clocks: &'a Clocks<'_>,
    spot: &Spot<'_>,
    members: &Members,
    mut moved: Moved<'a>,
) -> Moved<'a>
    ensures { (old : List trace.Clock) → Tells moved.entry old →
        Tells result (old ++ each_moved (member_moved clocks.now.clocks.now (spot_by spot.now)) []
        (fields_in (views.members members.now))) }
{
    for place in 0..members.len() {
        moved = moved_member(clocks, spot, members, place, moved);
    }
    moved
}

/// The clocks that the integers in one member of a structure set, after those set so far.
#[cycle(moved)]
fn moved_member<'a>(
    clocks: &'a Clocks<'_>,
    spot: &Spot<'_>,
    members: &Members,
    place: usize,
    moved: Moved<'a>,
) -> Moved<'a>
    requires { place < length (fields_in (views.members members.now)) }
    ensures { let fields = fields_in (views.members members.now) in
        (f : Field) → slice_get fields place ≡ Some f → (old : List trace.Clock) →
        Tells moved.entry old →
        Tells result (old ++ member_moved clocks.now.clocks.now (spot_by spot.now)
        (take place fields) f) }
{
    let around = (&*spot).around(&*members, place);
    let inner = (&*spot).member(&around, (&*members).name(place));
    moved_in(clocks, &inner, members.shape(place), moved)
}

/// The clocks that the integers in the options of a variant set, after those set so far. The options are at a spot
/// below it.
#[cycle(moved)]
fn moved_options<'a>(
    clocks: &'a Clocks<'_>,
    spot: &Spot<'_>,
    options: &Members,
    mut moved: Moved<'a>,
) -> Moved<'a>
    ensures { (old : List trace.Clock) → Tells moved.entry old →
        Tells result (old ++ each_moved (option_moved clocks.now.clocks.now (spot_by spot.now)) []
        (fields_in (views.members options.now))) }
{
    for place in 0..options.len() {
        moved = moved_option(clocks, spot, options, place, moved);
    }
    moved
}

/// The clocks that the integers in one option of a variant set, after those set so far.
#[cycle(moved)]
fn moved_option<'a>(
    clocks: &'a Clocks<'_>,
    spot: &Spot<'_>,
    options: &Members,
    place: usize,
    moved: Moved<'a>,
) -> Moved<'a>
    requires { place < length (fields_in (views.members options.now)) }
    ensures { let fields = fields_in (views.members options.now) in
        (f : Field) → slice_get fields place ≡ Some f → (old : List trace.Clock) →
        Tells moved.entry old →
        Tells result (old ++ option_moved clocks.now.clocks.now (spot_by spot.now)
        (take place fields) f) }
{
    moved_in(clocks, spot, options.shape(place), moved)
}
