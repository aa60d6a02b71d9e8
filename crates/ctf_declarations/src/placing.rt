//! Classes of scopes.

ghost use Rattle.std.specs.Prelude.{◌≡◌, ◌++◌, [], ◌∷◌, Ok, map, flat_map, filter_map, option_map};
ghost use Rattle.std.specs.Option.{option_or};
ghost use Rattle.ctf_meaning.specs.Blocks as blocks;
ghost use Rattle.ctf_meaning.specs.Scopes.{scope_faults, missing_scope};
ghost use Rattle.ctf_meaning_steps.specs.Told.{Follows};
ghost use Rattle.ctf_meaning_steps.specs.Blocks.{class_named, placed_in, placed};
ghost use Rattle.ctf_attributes.specs.Tells.{TellsFirst, Nothing};
ghost use Rattle.ctf_declared_class.specs.Knowns.{known};
ghost use Rattle.ctf_declarations.specs.Views.{option_known};
ghost use Rattle.ctf_declarations.specs.DeclaredSoFar.{named_class, placed_seen};

use crate::classes::structure;
use crate::entries::NamedClass;
use crate::entry_name::is_entry_of;
use ctf_class::Scope;
use ctf_declared_class::Known;
use ctf_list::List;
use ctf_meaning::ResolveFault;
use std::alloc::Global;
use tsdl_tree::BlockKind;

/// The class that a declaration gives to a scope.
#[derive(Drop)]
pub struct ScopeShape {
    pub scope: Scope,
    pub shape: Known,
}

/// The scopes that a block declares.
fn own_scopes(kind: BlockKind) -> &'static [Scope]
    ensures { result.now ≡ blocks.own_scopes kind }
{
    match kind {
        BlockKind::Trace => &[Scope::PacketHeader],
        BlockKind::Stream => &[
            Scope::PacketContext,
            Scope::EventHeader,
            Scope::StreamEventContext,
        ],
        BlockKind::Event => &[Scope::EventContext, Scope::EventFields],
    }
}

/// The first class of a scope in a block.
fn class_for<'a, 'b>(classes: &'a [NamedClass<'b>], scope: Scope) -> Option<&'a Known>
    ensures { option_known result ≡
        class_named (map named_class classes.now) (blocks.entry_name scope) }
{
    for class in classes {
        if is_entry_of(class.name, scope) {
            return Some(&class.class);
        }
    }
    None
}

/// The class of a scope that has none in its block.
fn missing_class(alloc: Global, scope: Scope) -> Result<Option<Known>, ResolveFault>
    ensures { Follows (Ok (missing_scope scope)) (option_map known) result }
{
    match scope {
        Scope::EventFields => {
            let empty = structure(alloc, None, Vec::new(alloc))?;
            Ok(Some(empty))
        }
        _ => Ok(None),
    }
}

/// The class of a scope by the classes of its block.
fn placed_class(
    alloc: Global,
    classes: &[NamedClass<'_>],
    scope: Scope,
) -> Result<Option<Known>, ResolveFault>
    ensures { Follows (Ok (option_or
        (class_named (map named_class classes.now) (blocks.entry_name scope))
        (missing_scope scope))) (option_map known) result }
{
    match class_for(classes, scope) {
        Some(class) => {
            let shared = class.share()?;
            Ok(Some(shared))
        }
        None => missing_class(alloc, scope),
    }
}

/// Puts the class of a scope after those before it.
fn place(
    alloc: Global,
    classes: &[NamedClass<'_>],
    scope: Scope,
    row: &mut List<ScopeShape>,
) -> Result<(), ResolveFault>
    ensures { Follows (Ok (map placed_seen row.old ++ filter_map
        (placed_in (map named_class classes.now)) (scope ∷ []))) (λ _. map placed_seen row.new)
        result }
{
    match placed_class(alloc, classes, scope)? {
        Some(shape) => {
            row.push(ScopeShape { scope, shape })?;
            Ok(())
        }
        None => Ok(()),
    }
}

/// The classes of the scopes of a block, in the order of the scopes.
pub fn placed_classes(
    alloc: Global,
    kind: BlockKind,
    classes: &[NamedClass<'_>],
) -> Result<List<ScopeShape>, ResolveFault>
    ensures { Follows (Ok (placed kind (map named_class classes.now))) (map placed_seen) result }
{
    let mut row = List::new(alloc);
    for scope in own_scopes(kind) {
        place(alloc, classes, *scope, &mut row)?;
    }
    Ok(row)
}

/// Fails with `Attribute` where the class of a scope is no structure, and with `FloatingPoint` where a
/// floating-point class is in it.
fn check(class: &Known) -> Result<(), ResolveFault>
    ensures { TellsFirst (scope_faults (known class.now)) Nothing result }
{
    if !class.is_structure() {
        return Err(ResolveFault::Attribute);
    }
    if class.has_float() {
        return Err(ResolveFault::FloatingPoint);
    }
    Ok(())
}

/// Checks the classes of several scopes, one after the other.
pub fn check_all(row: &[ScopeShape]) -> Result<(), ResolveFault>
    ensures { TellsFirst (flat_map (λ p. scope_faults p.1) (map placed_seen row.now)) Nothing
        result }
{
    for class in row {
        check(&class.shape)?;
    }
    Ok(())
}
