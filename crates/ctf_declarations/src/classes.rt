//! Classes as they are written: each sees the names before it and those around its body.

ghost use Rattle.std.specs.Prelude.{[], map, Option};
ghost use Rattle.ctf_meaning.specs.Name.{Word};
ghost use Rattle.ctf_meaning.specs.Own.{structure_faults};
ghost use Rattle.ctf_meaning.specs.Reading.{form_of, item_of};
ghost use Rattle.ctf_meaning.specs.Shapes as plain;
ghost use Rattle.ctf_meaning.specs.Written.{items_from};
ghost use Rattle.ctf_meaning_steps.specs.Told.{Follows, unless};
ghost use Rattle.ctf_meaning_steps.specs.Seen.{nothing_seen, within};
ghost use Rattle.ctf_meaning_steps.specs.Classes.{compound_told};
ghost use Rattle.ctf_meaning_steps.specs.Items.{shape_told, body_told};
ghost use Rattle.ctf_declared_class.specs.Knowns.{known, field};
ghost use Rattle.ctf_declarations.specs.Views.{names_in, visible};
ghost use Rattle.ctf_declarations.specs.Given.{body_form, item_form};
ghost use Rattle.ctf_declarations.specs.Members.{member_told, names_told};

use crate::declaring::{
    compound_name, declare_alias, declare_definition, declare_name, has_deep, own_name, push_fields,
};
use crate::leaves::{float_class, integer_class, string_class};
use crate::looking::{class_of_reference, enumeration};
use crate::visible::{BlockNames, Visible};
use ctf_attributes::alignment;
use ctf_declared_class::{Known, KnownMember, copied_path};
use ctf_meaning::ResolveFault;
use std::alloc::Global;
use tsdl_tree::{Compound, Item, Path, Specifier, TypeDeclaration};

/// The class that is written, by the names that it sees.
#[cycle(classes)]
pub fn class_of(
    alloc: Global,
    seen: &Visible<'_>,
    specifier: &Specifier,
) -> Result<Known, ResolveFault>
    ensures { Follows (shape_told (visible seen.now) (form_of specifier.now)) known result }
{
    match specifier {
        Specifier::Integer(settings) => integer_class(alloc, settings.as_slice()),
        Specifier::FloatingPoint(settings) => float_class(alloc, settings.as_slice()),
        Specifier::String(settings) => string_class(alloc, settings.as_slice()),
        Specifier::Compound { compound, .. } => compound_class(alloc, seen, compound),
        Specifier::Named(reference) => class_of_reference(alloc, seen, reference),
    }
}

/// The class of a compound, whatever its name is.
#[cycle(classes)]
fn compound_class(
    alloc: Global,
    seen: &Visible<'_>,
    compound: &Compound,
) -> Result<Known, ResolveFault>
    ensures { (word : Option Word) →
        Follows (shape_told (visible seen.now) (body_form compound.now word)) known result }
{
    match compound {
        Compound::Struct { items, align } => {
            let fields = body(alloc, seen, items.as_slice())?;
            structure(alloc, *align, fields)
        }
        Compound::Variant { tag, items } => {
            let fields = body(alloc, seen, items.as_slice())?;
            variant(alloc, tag, fields)
        }
        Compound::Enum { container, labels } => {
            enumeration(alloc, seen, container, labels.as_slice())
        }
    }
}

/// A structure of these members.
pub fn structure(
    alloc: Global,
    align: Option<u64>,
    fields: Vec<KnownMember>,
) -> Result<Known, ResolveFault>
    ensures { let all = map field fields.items in
        Follows (unless (structure_faults align) (compound_told all (plain.structure align all)))
        known result }
{
    let least = alignment(align)?;
    Known::structure(alloc, least, fields)
}

/// A variant of these options.
fn variant(
    alloc: Global,
    tag: &Option<Path>,
    fields: Vec<KnownMember>,
) -> Result<Known, ResolveFault>
    ensures { let all = map field fields.items in
        Follows (compound_told all (plain.variant tag.now (plain.members_from all))) known result }
{
    let tag = match tag {
        Some(tag) => Some(copied_path(alloc, tag)?),
        None => None,
    };
    Known::variant(alloc, tag, fields)
}

/// The members of a body. Its names end with it.
#[cycle(classes)]
fn body(
    alloc: Global,
    outer: &Visible<'_>,
    items: &[Item],
) -> Result<Vec<KnownMember>, ResolveFault>
    ensures { Follows (body_told (visible outer.now) nothing_seen []
        (items_from (map item_form items.now))) (λ fields. map field fields.items) result }
{
    let mut own = BlockNames::new(alloc);
    let mut fields = Vec::new(alloc);
    for item in items {
        member(alloc, outer, &mut own, item, &mut fields)?;
    }
    Ok(fields)
}

/// Puts the members of an item after those before it, and its names beside those before it.
#[cycle(classes)]
fn member(
    alloc: Global,
    outer: &Visible<'_>,
    own: &mut BlockNames,
    item: &Item,
    fields: &mut Vec<KnownMember>,
) -> Result<(), ResolveFault>
    ensures { Follows (member_told (visible outer.now)
        (names_in own.old, map field fields.old.items) (item_form item.now))
        (λ _. (names_in own.new, map field fields.new.items)) result }
{
    match item {
        Item::Fields { class, declarators } => {
            let known = class_within(alloc, outer, own, class)?;
            declare_name(alloc, own, own_name(class), &known)?;
            if has_deep(&known, declarators.as_slice()) {
                return Err(ResolveFault::TooDeep);
            }
            push_fields(alloc, &known, declarators.as_slice(), fields)?;
            Ok(())
        }
        Item::Types(declaration) => types(alloc, outer, own, declaration),
    }
}

/// Declares names for a class.
#[cycle(classes)]
pub fn types(
    alloc: Global,
    outer: &Visible<'_>,
    own: &mut BlockNames,
    declaration: &TypeDeclaration,
) -> Result<(), ResolveFault>
    ensures { Follows (names_told (visible outer.now) (names_in own.old) (item_of declaration.now))
        (λ _. names_in own.new) result }
{
    match declaration {
        TypeDeclaration::Alias { class, name } => {
            let known = class_within(alloc, outer, own, class)?;
            declare_alias(alloc, own, class, name.words.as_slice(), &known)
        }
        TypeDeclaration::Definition { class, declarators } => {
            let known = class_within(alloc, outer, own, class)?;
            declare_definition(alloc, own, class, declarators.as_slice(), &known)
        }
        TypeDeclaration::Compound { name, compound } => {
            let known = compound_within(alloc, outer, own, compound)?;
            declare_name(alloc, own, Some(compound_name(name, compound)), &known)
        }
    }
}

/// The class that is written in a block, by the names of the block before it and those around the block.
#[cycle(classes)]
pub fn class_within(
    alloc: Global,
    outer: &Visible<'_>,
    own: &BlockNames,
    specifier: &Specifier,
) -> Result<Known, ResolveFault>
    ensures { Follows (shape_told (within (names_in own.now) (visible outer.now))
        (form_of specifier.now)) known result }
{
    let seen = Visible::Inside {
        names: &*own,
        outer: &*outer,
    };
    class_of(alloc, &seen, specifier)
}

/// The class of a compound that is declared within a block.
#[cycle(classes)]
fn compound_within(
    alloc: Global,
    outer: &Visible<'_>,
    own: &BlockNames,
    compound: &Compound,
) -> Result<Known, ResolveFault>
    ensures { (word : Option Word) →
        Follows (shape_told (within (names_in own.now) (visible outer.now))
        (body_form compound.now word)) known result }
{
    let seen = Visible::Inside {
        names: &*own,
        outer: &*outer,
    };
    compound_class(alloc, &seen, compound)
}
