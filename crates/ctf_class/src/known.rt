//! Routes to numbers that are kept while a plan is built.

ghost use Rattle.std.specs.Prelude.{◌≡◌, map, IfOk, IfSome};
ghost use Rattle.ctf_class.specs.PlanBuilding.{moved_by};
ghost use Rattle.ctf_class.specs.Records.{LeadsTo};
ghost use Rattle.ctf_class.specs.declared.route.Origin.TheVariants.{Enclosing as Around};

use crate::route::{Origin, Route, Scope};
use crate::wanted::index_of;
use ctf_list::{List, NoMemory};
use std::alloc::Global;

/// Where a plan goes on from a field.
#[derive(Clone, Copy)]
pub(crate) enum Move {
    /// In an option or an element.
    Within,
    /// In the structure that is the next member.
    Inside,
    /// After a structure, which is the member of an index.
    After(usize),
    /// After this scope.
    Later(Scope),
}

/// The routes to the same numbers from there. It fails where an allocation fails, and where a step or a distance is a
/// number that 32 bits do not hold.
pub(crate) fn moved(alloc: Global, routes: &[Route], by: Move) -> Result<List<Route>, NoMemory>
    ensures { IfOk result (λ there. there ≡ map (moved_by by) routes.now) }
{
    let mut there = List::new(alloc);
    for route in routes {
        there.push(moved_route(alloc, route, by)?)?;
    }
    Ok(there)
}

/// The route to the same number from there.
fn moved_route(alloc: Global, route: &Route, by: Move) -> Result<Route, NoMemory>
    ensures { IfOk result (λ there. there ≡ moved_by by route.now) }
{
    let steps = route.steps.as_slice();
    match route.origin {
        Origin::Enclosing(out) => moved_around(alloc, out, steps, by),
        Origin::Earlier(_) => Ok(Route {
            origin: route.origin,
            steps: List::from_slice(alloc, steps)?,
        }),
    }
}

/// The route to the same number from there, where the number is in a structure around.
fn moved_around(alloc: Global, out: u32, steps: &[u32], by: Move) -> Result<Route, NoMemory>
    ensures { IfOk result (λ there. there ≡
        moved_by by (record { origin = Around out; steps = steps.now })) }
{
    let mut ways = List::new(alloc);
    let origin = match by {
        Move::Within => Origin::Enclosing(out),
        Move::Inside => Origin::Enclosing(out.checked_add(1).ok_or(NoMemory)?),
        Move::After(index) => {
            if out == 0 {
                ways.push(index_of(index)?)?;
            }
            Origin::Enclosing(out.saturating_sub(1))
        }
        Move::Later(scope) => {
            if out == 0 {
                Origin::Earlier(scope)
            } else {
                Origin::Enclosing(out - 1)
            }
        }
    };
    ways.extend_from_slice(steps)?;
    Ok(Route {
        origin,
        steps: ways,
    })
}

/// The place of the kept number that a route leads to.
pub(crate) fn place_of(known: &[Route], route: &Route) -> Option<usize>
    ensures { IfSome result (LeadsTo known.now route.now) }
{
    for (place, other) in known.iter().enumerate() {
        if other.is(route) {
            return Some(place);
        }
    }
    None
}
