//! What a path finds.

ghost use Rattle.std.specs.Prelude.{◌≡◌, ◌+◌, ◌∷◌, [], map, take, filter_map, find, option_map, IfOk};
ghost use Rattle.ctf_meaning.specs.There.{first};
ghost use Rattle.ctf_meaning.specs.Shapes.{fields_in};
ghost use Rattle.ctf_meaning.specs.Paths as paths;
ghost use Rattle.ctf_meaning.specs.Paths.{field_at, route_from, members_of};
ghost use Rattle.ctf_declared_class.specs.Views as views;
ghost use Rattle.ctf_declared_class.specs.Views.{place_and_shape};
ghost use Rattle.ctf_paths.specs.Spots.{frame_by, earlier_by, frames_around, spot_by};
ghost use Rattle.ctf_paths.specs.Finding.{class_named, further, down, enclosing, of_scopes, found_by, start_by};

use crate::name::scope_named;
use crate::spot::{EarlierStructure, OuterStructures, PathStructure, Spot};
use crate::trail::after_trail;
use ctf_class::{Origin, Route, Scope};
use ctf_declared_class::{Members, Shape};
use ctf_list::{List, NoMemory};
use std::alloc::Global;
use tsdl_tree::Word;

/// A field that a path finds.
#[derive(Drop)]
pub struct Found<'a> {
    pub route: Route,
    pub shape: &'a Shape,
}

/// Where a path begins.
#[derive(Drop)]
pub struct Start<'a> {
    pub origin: Origin,
    pub frame: PathStructure<'a>,
}

/// A number of a route. `NoMemory` from 2^32 on, which the first pass rules out: it refuses more than 1,048,576 classes
/// (R9).
fn step(place: usize) -> Result<u32, NoMemory>
    ensures { IfOk result (λ step. step ≡ place) }
{
    match u32::try_from(place) {
        Ok(step) => Ok(step),
        Err(_) => Err(NoMemory),
    }
}

/// The next structure further out. `NoMemory` from 2^32 on, which the first pass rules out: it refuses classes deeper
/// than 64 (R9).
fn outward(out: u32) -> Result<u32, NoMemory>
    ensures { IfOk result (λ next. next ≡ out + 1) }
{
    out.checked_add(1).ok_or(NoMemory)
}

/// The first member of a name, where it is one of so many: its place and its class.
fn member_before<'a>(members: &'a Members, count: usize, word: &[u8]) -> Option<(usize, &'a Shape)>
    ensures { option_map place_and_shape result ≡
        class_named word.now (take count (fields_in (views.members members.now))) }
{
    let (place, shape) = members.get(word)?;
    if place < count {
        Some((place, shape))
    } else {
        None
    }
}

/// The first member of a name in a class: its place and its class. A class that is no structure has
/// none.
fn member_of<'a>(shape: &'a Shape, word: &[u8]) -> Option<(usize, &'a Shape)>
    ensures { option_map place_and_shape result ≡
        class_named word.now (members_of (views.shape shape.now)) }
{
    match shape {
        Shape::Structure { members, .. } => members.get(word),
        Shape::Integer(_) => None,
        Shape::Float => None,
        Shape::String => None,
        Shape::Enumeration { .. } => None,
        Shape::Variant { .. } => None,
        Shape::Array { .. } => None,
        Shape::Sequence { .. } => None,
    }
}

/// The class to which words lead from one, down through structures only. The places on the way are
/// put after the steps.
fn down<'a>(
    steps: &mut List<u32>,
    shape: &'a Shape,
    words: &[Word],
) -> Result<Option<&'a Shape>, NoMemory>
    ensures { IfOk result (λ found. option_map (λ s. (steps.new, views.shape s.now)) found ≡
        option_map (further steps.old) (down (views.shape shape.now) words.now)) }
{
    let mut at = shape;
    for word in words {
        match member_of(at, word.as_slice()) {
            None => return Ok(None),
            Some((place, inner)) => {
                steps.push(step(place)?)?;
                at = inner;
            }
        }
    }
    Ok(Some(at))
}

/// The way to the member at a place.
fn first_step(alloc: Global, place: usize) -> Result<List<u32>, NoMemory>
    ensures { IfOk result (λ steps. steps ≡ place ∷ []) }
{
    let mut steps = List::new(alloc);
    steps.push(step(place)?)?;
    Ok(steps)
}

/// The field to which words lead from a class at the end of some steps.
fn found_after<'a>(
    origin: Origin,
    way: List<u32>,
    shape: &'a Shape,
    words: &[Word],
) -> Result<Option<Found<'a>>, NoMemory>
    ensures { IfOk result (λ found. option_map found_by found ≡
        option_map (λ f. route_from origin (further way f))
        (down (views.shape shape.now) words.now)) }
{
    let mut steps = way;
    match down(&mut steps, shape, words)? {
        None => Ok(None),
        Some(shape) => Ok(Some(Found {
            route: Route { origin, steps },
            shape,
        })),
    }
}

/// The field that words name among the earlier members of a structure.
fn found_in<'a>(
    alloc: Global,
    origin: Origin,
    frame: &PathStructure<'a>,
    words: &[Word],
) -> Result<Option<Found<'a>>, NoMemory>
    ensures { IfOk result (λ found. option_map found_by found ≡
        option_map (route_from origin) (field_at (frame_by frame.now).fields words.now)) }
{
    match words {
        [] => Ok(None),
        [word, more @ ..] => match member_before(frame.members, frame.count, word.as_slice()) {
            None => Ok(None),
            Some((place, member)) => {
                found_after(origin, first_step(alloc, place)?, member, more)
            }
        },
    }
}

/// The place of a scope in their order.
pub fn rank(scope: Scope) -> u32
    ensures { result ≡ paths.rank scope }
{
    match scope {
        Scope::PacketHeader => 0,
        Scope::PacketContext => 1,
        Scope::EventHeader => 2,
        Scope::StreamEventContext => 3,
        Scope::EventContext => 4,
        Scope::EventFields => 5,
    }
}

/// The field that words after the name of a scope name, where they lead into this structure.
fn found_below<'a>(
    alloc: Global,
    scope: Scope,
    words: &[Word],
    origin: Origin,
    frame: &PathStructure<'a>,
) -> Result<Option<Found<'a>>, NoMemory>
    ensures { IfOk result (λ found. option_map found_by found ≡
        paths.found_below scope words.now (origin, frame_by frame.now)) }
{
    if rank(frame.scope) != rank(scope) {
        return Ok(None);
    }
    match after_trail(&frame.name, words) {
        None => Ok(None),
        Some(rest) => found_in(alloc, origin, frame, rest),
    }
}

/// What the words find in the nearest structure around into which they lead, from this one on.
fn below_around<'a>(
    alloc: Global,
    scope: Scope,
    words: &[Word],
    around: &'a OuterStructures<'a>,
    out: u32,
) -> Result<Option<Found<'a>>, NoMemory>
    ensures { IfOk result (λ found. option_map found_by found ≡
        first (filter_map (paths.found_below scope words.now)
        (enclosing out (frames_around around.now)))) }
{
    match around {
        OuterStructures::Outside => Ok(None),
        OuterStructures::Inside(frame, outer) => {
            match found_below(alloc, scope, words, Origin::Enclosing(out), frame)? {
                Some(found) => Ok(Some(found)),
                None => below_around(alloc, scope, words, outer, outward(out)?),
            }
        }
    }
}

/// What the words find in the nearest scope before.
fn below_before<'a>(
    alloc: Global,
    scope: Scope,
    words: &[Word],
    before: &'a [EarlierStructure<'a>],
) -> Result<Option<Found<'a>>, NoMemory>
    ensures { IfOk result (λ found. option_map found_by found ≡
        first (filter_map (paths.found_below scope words.now)
        (of_scopes (map earlier_by before.now)))) }
{
    for earlier in before {
        let frame = earlier.frame();
        let origin = Origin::Earlier(earlier.scope);
        if let Some(found) = found_below(alloc, scope, words, origin, &frame)? {
            return Ok(Some(found));
        }
    }
    Ok(None)
}

/// Whether a structure has an earlier member of the name with which a path begins.
fn has_member(path: &[Word], frame: &PathStructure<'_>) -> bool
    ensures { result ≡ paths.has_member path.now (frame_by frame.now) }
{
    match path {
        [] => false,
        [word, ..] => member_before(frame.members, frame.count, word.as_slice()).is_some(),
    }
}

/// The nearest structure around, from this one on, that has an earlier member of the name with which a path begins.
fn start_around<'a>(
    path: &[Word],
    around: &'a OuterStructures<'a>,
    out: u32,
) -> Result<Option<Start<'a>>, NoMemory>
    ensures { IfOk result (λ start. option_map start_by start ≡
        find (λ p. paths.has_member path.now p.1) (enclosing out (frames_around around.now))) }
{
    match around {
        OuterStructures::Outside => Ok(None),
        OuterStructures::Inside(frame, outer) => {
            if has_member(path, frame) {
                Ok(Some(Start {
                    origin: Origin::Enclosing(out),
                    frame: *frame,
                }))
            } else {
                start_around(path, outer, outward(out)?)
            }
        }
    }
}

/// The nearest scope before that has a member of the name with which a path begins.
fn start_before<'a>(path: &[Word], before: &'a [EarlierStructure<'a>]) -> Option<Start<'a>>
    ensures { option_map start_by result ≡
        find (λ p. paths.has_member path.now p.1) (of_scopes (map earlier_by before.now)) }
{
    for earlier in before {
        let frame = earlier.frame();
        if has_member(path, &frame) {
            return Some(Start {
                origin: Origin::Earlier(earlier.scope),
                frame,
            });
        }
    }
    None
}

/// Where a path begins that does not begin with the name of a scope.
fn start_of<'a>(spot: &Spot<'a>, path: &[Word]) -> Result<Option<Start<'a>>, NoMemory>
    ensures { IfOk result (λ start. option_map start_by start ≡
        find (λ p. paths.has_member path.now p.1) (paths.frames (spot_by spot.now))) }
{
    match start_around(path, spot.around, 0)? {
        Some(start) => Ok(Some(start)),
        None => Ok(start_before(path, spot.before)),
    }
}

/// What a path finds that does not begin with the name of a scope.
fn found_near<'a>(
    alloc: Global,
    spot: &Spot<'a>,
    path: &[Word],
) -> Result<Option<Found<'a>>, NoMemory>
    ensures { IfOk result (λ found. option_map found_by found ≡
        paths.found_near (spot_by spot.now) path.now) }
{
    match start_of(spot, path)? {
        None => Ok(None),
        Some(start) => found_in(alloc, start.origin, &start.frame, path),
    }
}

/// What the words after the name of a scope find.
fn found_from_scope<'a>(
    alloc: Global,
    spot: &Spot<'a>,
    scope: Scope,
    words: &[Word],
) -> Result<Option<Found<'a>>, NoMemory>
    ensures { IfOk result (λ found. option_map found_by found ≡
        first (filter_map (paths.found_below scope words.now) (paths.frames (spot_by spot.now)))) }
{
    match below_around(alloc, scope, words, spot.around, 0)? {
        Some(found) => Ok(Some(found)),
        None => below_before(alloc, scope, words, spot.before),
    }
}

/// What a path finds from where it is (CTF 1.8.3, section 7.3.2).
pub fn found_at<'a>(
    alloc: Global,
    spot: &Spot<'a>,
    path: &[Word],
) -> Result<Option<Found<'a>>, NoMemory>
    ensures { IfOk result (λ found. option_map found_by found ≡
        paths.found_at (spot_by spot.now) path.now) }
{
    match scope_named(path) {
        None => found_near(alloc, spot, path),
        Some(absolute) => found_from_scope(alloc, spot, absolute.scope, absolute.words),
    }
}
