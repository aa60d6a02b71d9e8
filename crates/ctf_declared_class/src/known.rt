//! Classes with what is asked of them often.

ghost use Rattle.std.specs.Prelude.{◌≡◌, map, [], ◌∷◌, nat_lt, IfOk, option_copied};
ghost use Rattle.ctf_meaning.specs.Shapes as plain;
ghost use Rattle.ctf_meaning.specs.Shapes.{depth_of, nodes_of, largest, members_from};
ghost use Rattle.ctf_meaning.specs.Own.{most_deep};
ghost use Rattle.ctf_meaning.specs.Scopes as scopes;
ghost use Rattle.ctf_meaning_steps.specs.Told.{Follows};
ghost use Rattle.ctf_meaning_steps.specs.Classes.{compound_told};
ghost use Rattle.ctf_declared_class.specs.Kept.{KeepsOf};
ghost use Rattle.ctf_declared_class.specs.Stopped.{stopped};

use crate::copy::copied_path;
use crate::facts::Facts;
use crate::parts::{distinct_members, facts_of};
use crate::shape::Shape;
use ctf_class::{Align, Label, Labels};
use ctf_list::{List, NoMemory, Shared};
use ctf_meaning::{DeclaredInteger, ResolveFault};
use std::alloc::Global;
use tsdl_tree::{Length, Path};

/// The greatest depth of a class.
const MOST_DEEP: u32 = 64;

/// A class by its declaration, with what would take a walk over its parts.
#[derive(Drop)]
pub struct Known {
    shape: Shared<Shape>,
    facts: Facts,
    ghost kept: { KeepsOf shape facts },
}

/// A member of a structure or an option of a variant, which is to be made.
#[derive(Drop)]
pub struct KnownMember {
    pub name: List<u8>,
    pub known: Known,
}

impl Known {
    ghost use Rattle.ctf_declared_class.specs.Views.{shape};
    ghost use Rattle.ctf_declared_class.specs.Knowns.{known, field};

    /// The class that is this integer.
    pub fn integer(alloc: Global, integer: DeclaredInteger) -> Result<Known, NoMemory>
        ensures { IfOk result (λ k. known k ≡ plain.integer integer) }
    {
        let facts = Facts::leaf(integer.align);
        Known::with_facts(alloc, Shape::Integer(integer), facts)
    }

    /// The class of a floating-point number.
    pub fn float(alloc: Global) -> Result<Known, NoMemory>
        ensures { IfOk result (λ k. known k ≡ plain.float) }
    {
        let facts = Facts {
            has_float: true,
            ..Facts::leaf(Align::one_bit())
        };
        Known::with_facts(alloc, Shape::Float, facts)
    }

    /// The class of a string.
    pub fn string(alloc: Global) -> Result<Known, NoMemory>
        ensures { IfOk result (λ k. known k ≡ plain.string) }
    {
        Known::with_facts(alloc, Shape::String, Facts::leaf(Align::one_byte()))
    }

    /// The class of an enumeration of a container.
    pub fn enumeration(
        alloc: Global,
        container: DeclaredInteger,
        labels: List<Label>,
    ) -> Result<Known, NoMemory>
        ensures { IfOk result (λ k. known k ≡ plain.enum container labels) }
    {
        let facts = Facts::leaf(container.align);
        let labels = Shared::new(alloc, Labels::new(alloc, labels)?)?;
        Known::with_facts(alloc, Shape::Enumeration { container, labels }, facts)
    }

    /// An array of so many elements.
    pub fn array(alloc: Global, count: u64, element: Known) -> Result<Known, NoMemory>
        ensures { IfOk result (λ k. known k ≡ plain.array count (known element)) }
    {
        let facts = element.facts.around();
        let element = element.into_shared();
        Known::with_facts(alloc, Shape::Array { count, element }, facts)
    }

    /// A sequence with as many elements as a field says.
    pub fn sequence(alloc: Global, path: Path, element: Known) -> Result<Known, NoMemory>
        ensures { IfOk result (λ k. known k ≡ plain.sequence path (known element)) }
    {
        let facts = element.facts.around();
        let element = element.into_shared();
        Known::with_facts(alloc, Shape::Sequence { path, element }, facts)
    }

    /// A structure whose alignment is the largest of `least` and its members' (CTF 1.8.3, section
    /// 4.2.1). It has no two members of one name.
    pub fn structure(
        alloc: Global,
        least: Align,
        fields: Vec<KnownMember>,
    ) -> Result<Known, ResolveFault>
        ensures { let all = map field fields.items in
            Follows (compound_told all (plain.struct (largest least all) (members_from all))) known
            result }
    {
        let facts = facts_of(least, fields.as_slice());
        let align = facts.align;
        let members = distinct_members(alloc, fields)?;
        let made = Shape::Structure { align, members };
        Ok(Known::with_facts(alloc, made, facts.around())?)
    }

    /// A variant, with its tag as it is written, where it is. It has no two options of one name.
    pub fn variant(
        alloc: Global,
        tag: Option<Path>,
        fields: Vec<KnownMember>,
    ) -> Result<Known, ResolveFault>
        ensures { let all = map field fields.items in
            Follows (compound_told all (plain.variant tag (members_from all))) known result }
    {
        let facts = Facts {
            align: Align::one_bit(),
            ..facts_of(Align::one_bit(), fields.as_slice()).around()
        };
        let options = distinct_members(alloc, fields)?;
        Ok(Known::with_facts(alloc, Shape::Variant { tag, options }, facts)?)
    }

    /// The class with the lengths after a name: `a[2][3]` is two arrays of three. A text may write far more
    /// lengths than a class may have, and letting go of a class takes a call for each level in it, so
    /// `is_too_deep_with` is asked first.
    pub fn arrays(&self, alloc: Global, lengths: &[Length]) -> Result<Known, NoMemory>
        ensures { IfOk result (λ k. known k ≡ plain.arrays lengths.now (known self.now)) }
    {
        let mut known = self.share()?;
        let mut left = lengths.len();
        while left > 0 {
            left -= 1;
            known = known.inside(alloc, &lengths[left])?;
        }
        Ok(known)
    }

    /// The class where it is used with a tag. Only a variant is changed by it.
    pub fn with_tag(&self, alloc: Global, tag: &Option<Path>) -> Result<Known, NoMemory>
        ensures { IfOk result (λ k. known k ≡ plain.with_tag tag.now (known self.now)) }
    {
        let Some(tag) = tag else {
            return self.share();
        };
        match self.shape.get() {
            Shape::Variant { options, .. } => {
                let tag = Some(copied_path(alloc, tag)?);
                let options = options.share()?;
                Known::with_facts(alloc, Shape::Variant { tag, options }, self.facts)
            }
            _ => self.share(),
        }
    }

    /// A second owner of the class. Nothing is copied.
    pub fn share(&self) -> Result<Known, NoMemory>
        ensures { IfOk result (λ k. known k ≡ known self.now) }
    {
        let shape = self.shape.clone()?;
        Ok(Known {
            shape,
            facts: self.facts,
        })
    }

    /// The class.
    pub fn shape(&self) -> &Shape
        ensures { shape result.now ≡ known self.now }
    {
        self.shape.get()
    }

    /// The integer that the class is.
    pub fn integer_in(&self) -> Option<&DeclaredInteger>
        ensures { option_copied result ≡ plain.integer_in (known self.now) }
    {
        match self.shape.get() {
            Shape::Integer(integer) => Some(integer),
            _ => None,
        }
    }

    /// Whether the class is a structure.
    pub fn is_structure(&self) -> bool
        ensures { result ≡ scopes.is_structure (known self.now) }
    {
        match self.shape.get() {
            Shape::Structure { .. } => true,
            _ => false,
        }
    }

    /// Whether a floating-point class is somewhere in it.
    pub fn has_float(&self) -> bool
        ensures { result ≡ plain.has_float (known self.now) }
    {
        self.facts.has_float
    }

    /// Whether the class is deeper than classes may be.
    pub fn is_too_deep(&self) -> bool
        ensures { result ≡ nat_lt most_deep (depth_of (known self.now)) }
    {
        self.facts.depth > MOST_DEEP
    }

    /// Whether the class with the lengths after a name is deeper than classes may be. Nothing is made.
    pub fn is_too_deep_with(&self, lengths: &[Length]) -> bool
        ensures { result ≡ nat_lt most_deep (depth_of (plain.arrays lengths.now (known self.now))) }
    {
        lengths.len().saturating_add(self.facts.depth as usize) > MOST_DEEP as usize
    }

    /// How many classes it has in it, itself among them; 2^32 - 1 where there are more.
    pub fn nodes(&self) -> u32
        ensures { result ≡ stopped (nodes_of (known self.now)) }
    {
        self.facts.nodes
    }

    /// What is kept of the class.
    pub(crate) fn facts(&self) -> Facts
        ensures { KeepsOf self.now.shape result }
    {
        self.facts
    }

    /// The class as it is shared.
    pub(crate) fn into_shared(self) -> Shared<Shape>
        ensures { result ≡ self.shape }
    {
        self.shape
    }

    /// A class with what is kept of it.
    fn with_facts(alloc: Global, made: Shape, facts: Facts) -> Result<Known, NoMemory>
        requires { KeepsOf made facts }
        ensures { IfOk result (λ k. known k ≡ shape made) }
    {
        let shape = Shared::new(alloc, made)?;
        Ok(Known { shape, facts })
    }

    /// An array or a sequence of this length, with elements of this class.
    fn inside(self, alloc: Global, length: &Length) -> Result<Known, NoMemory>
        ensures { IfOk result (λ k. known k ≡ plain.arrays (length.now ∷ []) (known self)) }
    {
        match length {
            Length::Constant(count) => Known::array(alloc, *count, self),
            Length::Path(path) => {
                let path = copied_path(alloc, path)?;
                Known::sequence(alloc, path, self)
            }
        }
    }
}
