//! Classes by their names.

ghost use Rattle.std.specs.Prelude.{Some, None};
ghost use Rattle.tsdl_tree.specs.declared.tree.Container.TheVariants as container;
ghost use Rattle.ctf_meaning.specs.Name as meant;
ghost use Rattle.ctf_meaning.specs.Reading as reading;
ghost use Rattle.ctf_meaning.specs.Written as written;
ghost use Rattle.ctf_meaning_steps.specs.Told.{Follows};
ghost use Rattle.ctf_meaning_steps.specs.Classes.{named_told, container_told, enum_told};
ghost use Rattle.ctf_meaning_steps.specs.Items.{shape_told};
ghost use Rattle.ctf_declared_class.specs.Knowns.{known};
ghost use Rattle.ctf_declarations.specs.Views.{name, visible};

use crate::keys::key;
use crate::leaves::integer_by;
use crate::names::Name;
use crate::visible::Visible;
use ctf_attributes::labels;
use ctf_declared_class::{Known, copy_integer};
use ctf_list::List;
use ctf_meaning::{DeclaredInteger, ResolveFault};
use std::alloc::Global;
use tsdl_tree::{Container, Label, Path, Reference, Word};

/// The class that a name stands for.
fn class_of_name<'a>(
    alloc: Global,
    seen: &'a Visible<'a>,
    given: Name<'_>,
) -> Result<&'a Known, ResolveFault>
    ensures { Follows (named_told (visible seen.now) (name given.entry)) (λ k. known k.now) result }
{
    let key = key(alloc, given)?;
    seen.find(key.as_slice()).ok_or(ResolveFault::UnknownType)
}

/// The class that a name means, as a second owner of it.
fn owned_class(alloc: Global, seen: &Visible<'_>, given: Name<'_>) -> Result<Known, ResolveFault>
    ensures { Follows (named_told (visible seen.now) (name given.entry)) known result }
{
    let class = class_of_name(alloc, seen, given)?;
    Ok(class.share()?)
}

/// A variant with the tag where it is used.
fn used_variant(
    alloc: Global,
    seen: &Visible<'_>,
    word: &Word,
    tag: &Option<Path>,
) -> Result<Known, ResolveFault>
    ensures { Follows (shape_told (visible seen.now)
        (written.Named (meant.Variant word.now) tag.now)) known result }
{
    let class = class_of_name(alloc, seen, Name::Variant(word.as_slice()))?;
    Ok(class.with_tag(alloc, tag)?)
}

/// The class of a reference.
pub fn class_of_reference(
    alloc: Global,
    seen: &Visible<'_>,
    reference: &Reference,
) -> Result<Known, ResolveFault>
    ensures { Follows (shape_told (visible seen.now) (reading.named reference.now)) known result }
{
    match reference {
        Reference::Plain(typename) => owned_class(
            alloc,
            seen,
            Name::Plain(typename.words.as_slice()),
        ),
        Reference::Struct(word) => owned_class(alloc, seen, Name::Struct(word.as_slice())),
        Reference::Enum(word) => owned_class(alloc, seen, Name::Enum(word.as_slice())),
        Reference::Variant { name, tag } => used_variant(alloc, seen, name, tag),
    }
}

/// The integer that a name stands for.
fn integer_named(
    alloc: Global,
    seen: &Visible<'_>,
    words: &[Word],
) -> Result<DeclaredInteger, ResolveFault>
    ensures { Follows (container_told (visible seen.now)
        (Some (container.Named (record { words = words.now })))) (λ i. i) result }
{
    let class = class_of_name(alloc, seen, Name::Plain(words))?;
    let integer = class.integer_in().ok_or(ResolveFault::Attribute)?;
    Ok(copy_integer(integer)?)
}

/// The integer of an enumeration without a container: the one named `int`.
fn plain_int(alloc: Global, seen: &Visible<'_>) -> Result<DeclaredInteger, ResolveFault>
    ensures { Follows (container_told (visible seen.now) None) (λ i. i) result }
{
    let words = [List::from_slice(alloc, b"int")?];
    integer_named(alloc, seen, &words)
}

/// The integer that holds an enumeration's numbers.
fn container_of(
    alloc: Global,
    seen: &Visible<'_>,
    container: &Option<Container>,
) -> Result<DeclaredInteger, ResolveFault>
    ensures { Follows (container_told (visible seen.now) container.now) (λ i. i) result }
{
    match container {
        Some(Container::Integer(settings)) => integer_by(alloc, settings.as_slice()),
        Some(Container::Named(typename)) => integer_named(alloc, seen, typename.words.as_slice()),
        None => plain_int(alloc, seen),
    }
}

/// The class of an enumeration with this container and these labels.
pub fn enumeration(
    alloc: Global,
    seen: &Visible<'_>,
    container: &Option<Container>,
    written: &[Label],
) -> Result<Known, ResolveFault>
    ensures { Follows (enum_told (visible seen.now) container.now written.now) known result }
{
    let integer = container_of(alloc, seen, container)?;
    let labels = labels(alloc, written)?;
    Ok(Known::enumeration(alloc, integer, labels)?)
}
