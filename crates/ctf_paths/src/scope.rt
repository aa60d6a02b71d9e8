//! Scopes.

ghost use Rattle.std.specs.Prelude.{◌++◌, List, map};
ghost use Rattle.ctf_class.specs.declared.trace.Clock as trace;
ghost use Rattle.ctf_meaning.specs.Links.{moved_clocks};
ghost use Rattle.ctf_meaning_steps.specs.Told.{Follows};
ghost use Rattle.ctf_meaning_steps.specs.Linking.{class_told};
ghost use Rattle.ctf_declared_class.specs.Views as views;
ghost use Rattle.ctf_paths.specs.Spots.{earlier_by, scope_spot};
ghost use Rattle.ctf_paths.specs.MovedClocks.{Tells};

use crate::clocks::Clocks;
use crate::link::{Linker, class_of};
use crate::moved::{Moved, moved_in};
use crate::spot::{EarlierStructure, OuterStructures, Spot};
use ctf_class::{Class, Scope};
use ctf_declared_class::Shape;
use ctf_meaning::ResolveFault;

/// The class that a shape is as the structure of a scope, after the structures of the scopes before, the
/// nearest first: its paths lead to fields, and its clocks are known. Else the first of its lengths and
/// tags that is not found or does not fit, or of its mappings to an unknown clock (CTF 1.8.3, sections 4,
/// 7.3.2 and 8). `NoMemory` also where 32 bits do not hold its depth or its parts, which the first pass rules
/// out: it refuses classes deeper than 64 and more than 1,048,576 of them (R9).
pub fn scope_class(
    linker: &Linker<'_>,
    scope: Scope,
    before: &[EarlierStructure<'_>],
    shape: &Shape,
) -> Result<Class, ResolveFault>
    ensures { Follows (class_told linker.now.order linker.now.clocks.now.clocks.now
        (scope_spot scope (map earlier_by before.now)) (views.shape shape.now)) (λ c. c) result }
{
    let around = OuterStructures::Outside;
    let spot = Spot::scope(scope, &around, before);
    class_of(linker, &spot, shape)
}

/// The clocks that the integers of a scope's structure set, after those set so far (CTF 1.8.3, section
/// 8).
pub fn scope_moved<'a>(
    clocks: &'a Clocks<'_>,
    scope: Scope,
    before: &[EarlierStructure<'_>],
    shape: &Shape,
    moved: Moved<'a>,
) -> Moved<'a>
    ensures { (old : List trace.Clock) → Tells moved.entry old →
        Tells result (old ++ moved_clocks clocks.now.clocks.now
        (scope_spot scope (map earlier_by before.now)) (views.shape shape.now)) }
{
    let around = OuterStructures::Outside;
    let spot = Spot::scope(scope, &around, before);
    moved_in(clocks, &spot, shape, moved)
}
