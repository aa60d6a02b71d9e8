//! Names that are given to classes.

ghost use Rattle.std.specs.Prelude.{◌≡◌, nat_lt, ◌++◌, [], ◌∷◌, Some, map, option_map, IfOk, OnOk};
ghost use Rattle.ctf_meaning.specs.Name as meant;
ghost use Rattle.ctf_meaning.specs.Parts as parts;
ghost use Rattle.ctf_meaning.specs.Reading.{form_of};
ghost use Rattle.std.specs.List.{list_any};
ghost use Rattle.ctf_meaning.specs.Own.{most_deep};
ghost use Rattle.ctf_meaning.specs.Shapes as plain;
ghost use Rattle.ctf_meaning.specs.Shapes.{depth_of};
ghost use Rattle.ctf_meaning_steps.specs.Told.{Follows};
ghost use Rattle.ctf_meaning_steps.specs.Seen.{declare, declare_each};
ghost use Rattle.ctf_declared_class.specs.Knowns.{known, field};
ghost use Rattle.ctf_declarations.specs.Views.{name, names_in};
ghost use Rattle.ctf_declarations.specs.Given.{body_form, given_by, by_declarator};

use crate::keys::key;
use crate::names::Name;
use crate::visible::BlockNames;
use ctf_declared_class::{Known, KnownMember};
use ctf_list::{List, NoMemory};
use ctf_meaning::ResolveFault;
use std::alloc::Global;
use tsdl_tree::{Compound, Declarator, Length, Specifier, Word};

/// The name that a compound with a body declares.
pub fn compound_name<'a>(word: &'a Word, compound: &Compound) -> Name<'a>
    ensures { parts.own_name (body_form compound.now (Some word.now)) ≡
        given_by (Some (name result)) }
{
    match compound {
        Compound::Struct { .. } => Name::Struct(word.as_slice()),
        Compound::Variant { .. } => Name::Variant(word.as_slice()),
        Compound::Enum { .. } => Name::Enum(word.as_slice()),
    }
}

/// The name that a class declares where it is written.
pub fn own_name(specifier: &Specifier) -> Option<Name<'_>>
    ensures { parts.own_name (form_of specifier.now) ≡ given_by (option_map name result) }
{
    match specifier {
        Specifier::Compound {
            name: Some(word),
            compound,
        } => Some(compound_name(word, compound)),
        _ => None,
    }
}

/// Gives a class with arrays around it a new name.
fn declare_one(
    alloc: Global,
    own: &mut BlockNames,
    given: Name<'_>,
    class: &Known,
    lengths: &[Length],
) -> Result<(), ResolveFault>
    ensures { Follows (declare_each (names_in own.old) (known class.now)
        (record { name = name given.entry; lengths = lengths.now } ∷ []))
        (λ _. names_in own.new) result }
{
    let key = key(alloc, given)?;
    if own.has(key.as_slice()) {
        return Err(ResolveFault::DeclaredTwice);
    }
    if class.is_too_deep_with(lengths) {
        return Err(ResolveFault::TooDeep);
    }
    let arrays = class.arrays(alloc, lengths)?;
    own.insert(key, arrays)?;
    Ok(())
}

/// Gives a class its name, where it has one.
pub fn declare_name(
    alloc: Global,
    own: &mut BlockNames,
    given: Option<Name<'_>>,
    class: &Known,
) -> Result<(), ResolveFault>
    ensures { Follows (declare (names_in own.old) (known class.now)
        (given_by (option_map name given.entry))) (λ _. names_in own.new) result }
{
    if class.is_too_deep() {
        return Err(ResolveFault::TooDeep);
    }
    match given {
        Some(given) => declare_one(alloc, own, given, class, &[]),
        None => Ok(()),
    }
}

/// Gives a class its name, and the words of a `typealias`.
pub fn declare_alias(
    alloc: Global,
    own: &mut BlockNames,
    specifier: &Specifier,
    words: &[Word],
    class: &Known,
) -> Result<(), ResolveFault>
    ensures { Follows (declare (names_in own.old) (known class.now)
        (parts.own_name (form_of specifier.now) ++ parts.plainly (meant.Plain words.now) ∷ []))
        (λ _. names_in own.new) result }
{
    declare_name(alloc, own, own_name(specifier), class)?;
    declare_one(alloc, own, Name::Plain(words), class, &[])
}

/// Gives a class its name, and those of a `typedef`.
pub fn declare_definition(
    alloc: Global,
    own: &mut BlockNames,
    specifier: &Specifier,
    declarators: &[Declarator],
    class: &Known,
) -> Result<(), ResolveFault>
    ensures { Follows (declare (names_in own.old) (known class.now)
        (parts.own_name (form_of specifier.now) ++ map by_declarator declarators.now))
        (λ _. names_in own.new) result }
{
    declare_name(alloc, own, own_name(specifier), class)?;
    declare_declarators(alloc, own, declarators, class)
}

/// Gives a class the names of declarators, each with its arrays.
fn declare_declarators(
    alloc: Global,
    own: &mut BlockNames,
    declarators: &[Declarator],
    class: &Known,
) -> Result<(), ResolveFault>
    ensures { Follows (declare_each (names_in own.old) (known class.now)
        (map by_declarator declarators.now)) (λ _. names_in own.new) result }
{
    for declarator in declarators {
        declare_declarator(alloc, own, declarator, class)?;
    }
    Ok(())
}

/// Gives a class the name of a declarator.
fn declare_declarator(
    alloc: Global,
    own: &mut BlockNames,
    declarator: &Declarator,
    class: &Known,
) -> Result<(), ResolveFault>
    ensures { Follows (declare_each (names_in own.old) (known class.now)
        (by_declarator declarator.now ∷ [])) (λ _. names_in own.new) result }
{
    let words = [List::from_slice(alloc, declarator.name.as_slice())?];
    declare_one(
        alloc,
        own,
        Name::Plain(&words),
        class,
        declarator.lengths.as_slice(),
    )
}

/// Whether the class with the arrays of some declarator is deeper than classes may be. Nothing is made.
pub fn has_deep(class: &Known, declarators: &[Declarator]) -> bool
    ensures { result ≡ list_any
        (λ d. nat_lt most_deep (depth_of (plain.arrays d.lengths (known class.now))))
        declarators.now }
{
    declarators.iter().any(|declarator| class.is_too_deep_with(declarator.lengths.as_slice()))
}

/// Puts a member of the class for each declarator after the fields.
pub fn push_fields(
    alloc: Global,
    class: &Known,
    declarators: &[Declarator],
    fields: &mut Vec<KnownMember>,
) -> Result<(), NoMemory>
    ensures { OnOk result (map field fields.new.items ≡
        map field fields.old.items ++ plain.declared (Some (known class.now)) declarators.now) }
{
    for declarator in declarators {
        let field = field_by(alloc, class, declarator)?;
        fields.push(field)?;
    }
    Ok(())
}

/// The member of a declarator.
fn field_by(alloc: Global, class: &Known, declarator: &Declarator) -> Result<KnownMember, NoMemory>
    ensures { IfOk result (λ f.
        field f ≡ record {
          name = declarator.now.name;
          shape = plain.arrays declarator.now.lengths
              (known class.now);
        }) }
{
    let name = List::from_slice(alloc, declarator.name.as_slice())?;
    let known = class.arrays(alloc, declarator.lengths.as_slice())?;
    Ok(KnownMember { name, known })
}
