//! Entries of blocks.

ghost use Rattle.std.specs.Prelude.{map};
ghost use Rattle.ctf_meaning.specs.Reading.{entry_of};
ghost use Rattle.ctf_meaning_steps.specs.Told.{Follows};
ghost use Rattle.ctf_meaning_steps.specs.Blocks.{entry_told};
ghost use Rattle.ctf_declarations.specs.Views.{visible};
ghost use Rattle.ctf_declarations.specs.DeclaredSoFar.{held, named_class, classes_told};

use crate::classes::{class_within, types};
use crate::declaring::{declare_name, own_name};
use crate::visible::{BlockNames, Visible};
use ctf_attributes::number_in;
use ctf_declared_class::Known;
use ctf_meaning::ResolveFault;
use std::alloc::Global;
use tsdl_tree::{BlockEntry, Path};

/// A class under its name in a block.
#[derive(Drop)]
pub struct NamedClass<'a> {
    pub name: &'a Path,
    pub class: Known,
}

/// The classes of a block, in their order. The names that the block declares end with it.
pub fn classes_in<'a>(
    alloc: Global,
    outer: &Visible<'_>,
    entries: &'a [BlockEntry],
) -> Result<Vec<NamedClass<'a>>, ResolveFault>
    ensures { Follows (classes_told (visible outer.now) (map entry_of entries.now))
        (λ classes. map named_class classes.items) result }
{
    let mut names = BlockNames::new(alloc);
    let mut classes = Vec::new(alloc);
    for entry in entries {
        entry_in(alloc, outer, &mut names, &mut classes, entry)?;
    }
    Ok(classes)
}

/// Puts the class or the names of an entry after those before it.
fn entry_in<'a>(
    alloc: Global,
    outer: &Visible<'_>,
    names: &mut BlockNames,
    classes: &mut Vec<NamedClass<'a>>,
    entry: &'a BlockEntry,
) -> Result<(), ResolveFault>
    ensures { Follows (entry_told (visible outer.now) (held names.old classes.old.items)
        (entry_of entry.now)) (λ _. held names.new classes.new.items) result }
{
    match entry {
        BlockEntry::Setting(setting) => number_in(setting),
        BlockEntry::Class { name, class } => {
            let known = class_within(alloc, outer, names, class)?;
            declare_name(alloc, names, own_name(class), &known)?;
            classes.push(NamedClass { name, class: known })?;
            Ok(())
        }
        BlockEntry::Types(declaration) => types(alloc, outer, names, declaration),
    }
}
