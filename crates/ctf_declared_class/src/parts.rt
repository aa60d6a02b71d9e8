//! The members or options of a class that is made.

ghost use Rattle.std.specs.Prelude.{◌≡◌, map, IfOk};
ghost use Rattle.ctf_meaning_steps.specs.Told.{Follows};
ghost use Rattle.ctf_declared_class.specs.Kept.{KeepsAll};
ghost use Rattle.ctf_declared_class.specs.Knowns.{field};
ghost use Rattle.ctf_declared_class.specs.Views.{members};
ghost use Rattle.ctf_declared_class.specs.Distinct.{members_told};

use crate::facts::Facts;
use crate::known::KnownMember;
use crate::shape::{Members, Shape};
use ctf_class::{Align, Names};
use ctf_list::{List, NoMemory, Shared};
use ctf_meaning::ResolveFault;
use std::alloc::Global;

/// The names and the classes of members.
#[derive(Drop)]
struct Parts {
    names: List<List<u8>>,
    shapes: List<Shared<Shape>>,
}

/// What is kept of members, with the largest of their alignments and of `least`.
pub fn facts_of(least: Align, fields: &[KnownMember]) -> Facts
    ensures { KeepsAll least (map field fields.now) result }
{
    let mut facts = Facts {
        align: least,
        depth: 0,
        nodes: 0,
        has_float: false,
    };
    for field in fields {
        facts = facts.beside(field.known.facts());
    }
    facts
}

/// Members that have different names.
pub fn distinct_members(alloc: Global, fields: Vec<KnownMember>) -> Result<Members, ResolveFault>
    ensures { Follows (members_told (map field fields.items)) members result }
{
    let Parts { names, shapes } = parts_of(alloc, fields)?;
    let names = Names::new(alloc, names)?;
    if names.has_twins() {
        return Err(ResolveFault::DeclaredTwice);
    }
    let names = Shared::new(alloc, names)?;
    let shapes = Shared::new(alloc, shapes)?;
    Ok(Members::new(names, shapes))
}

/// The names of members beside their classes.
fn parts_of(alloc: Global, fields: Vec<KnownMember>) -> Result<Parts, NoMemory>
    ensures names { IfOk result (λ parts. parts.names ≡ map (λ f. f.name) fields.items) }
    ensures shapes { IfOk result (λ parts. parts.shapes ≡ map (λ f. f.known.shape) fields.items) }
{
    let mut names = Vec::with_capacity(alloc, fields.len())?;
    let mut shapes = Vec::with_capacity(alloc, fields.len())?;
    for field in fields {
        names.push(field.name)?;
        shapes.push(field.known.into_shared())?;
    }
    Ok(Parts {
        names: List::from_vec(names),
        shapes: List::from_vec(shapes),
    })
}
