//! Classes by their declaration alone: names are replaced by what they mean, paths are as written.

ghost use Rattle.std.specs.Prelude.{◌≡◌, ◌<◌, ◌≤◌, length, map, slice_get, Some, option_map, IfOk};
ghost use Rattle.ctf_meaning.specs.Shapes.{fields_in, depth_of, depth_of_members};
ghost use Rattle.ctf_meaning.specs.Paths.{member_named};
ghost use Rattle.ctf_meaning.specs.Links.{choices_of};

use ctf_class::{Align, Choices, FieldName, Labels, Names};
use ctf_list::{List, NoMemory, Shared};
use ctf_meaning::DeclaredInteger;
use std::alloc::Global;
use tsdl_tree::Path;

/// A class by its declaration (CTF 1.8.3, section 4). Classes that are used in many places are shared.
#[cycle(shape)]
#[derive(Drop)]
pub enum Shape {
    Integer(DeclaredInteger),
    Float,
    String,
    Enumeration {
        container: DeclaredInteger,
        /// In the order of their declaration.
        labels: Shared<Labels>,
    },
    Structure {
        align: Align,
        members: Members,
    },
    Variant {
        /// As it is written, where it is.
        tag: Option<Path>,
        options: Members,
    },
    Array {
        /// How many elements it has.
        count: u64,
        element: Shared<Shape>,
    },
    Sequence {
        /// The field that says how many elements it has, as it is written.
        path: Path,
        element: Shared<Shape>,
    },
}

/// The members of a structure or the options of a variant: each has a name and a class, which are at
/// one place.
#[cycle(shape)]
#[derive(Drop)]
pub struct Members {
    names: Shared<Names>,
    shapes: Shared<List<Shared<Shape>>>,
}

impl Members {
    ghost use Rattle.ctf_declared_class.specs.Views.{shape, members, joined, place_and_shape, place_and_class};

    /// Members of these names and classes. A name without a class at its place has no member, nor has
    /// a class without a name.
    pub(crate) fn new(names: Shared<Names>, shapes: Shared<List<Shared<Shape>>>) -> Members
        ensures { members result ≡ joined names (map shape shapes) }
    {
        Members { names, shapes }
    }

    /// The number of members.
    pub fn len(&self) -> usize
        ensures { result ≡ length (fields_in (members self.now)) }
    {
        let names = self.names.get().as_slice().len();
        let shapes = self.shapes.get().len();
        names.min(shapes)
    }

    /// The name of the member at a place.
    pub fn name(&self, place: usize) -> &[u8]
        requires { place < length (fields_in (members self.now)) }
        ensures { option_map (λ f. f.name) (slice_get (fields_in (members self.now)) place) ≡
            Some result.now }
    {
        self.field_name(place).as_slice()
    }

    /// The name of the member at a place, with what is printed for it.
    pub fn field_name(&self, place: usize) -> &FieldName
        requires { place < length (fields_in (members self.now)) }
        ensures { option_map (λ f. f.name) (slice_get (fields_in (members self.now)) place) ≡
            Some result.now }
    {
        item_at(self.names.get().as_slice(), place)
    }

    /// The class of the member at a place, which is less deep than the compound.
    pub fn shape(&self, place: usize) -> &Shape
        requires { place < length (fields_in (members self.now)) }
        ensures value { option_map (λ f. f.shape) (slice_get (fields_in (members self.now)) place) ≡
            Some (shape result.now) }
        ensures depth { depth_of (shape result.now) ≤ depth_of_members (members self.now) }
    {
        item_at(self.shapes.get().as_slice(), place).get()
    }

    /// The place and the class of the first member of a name.
    pub fn get(&self, name: &[u8]) -> Option<(usize, &Shape)>
        ensures { option_map place_and_shape result ≡
            option_map place_and_class (member_named name.now (fields_in (members self.now))) }
    {
        let place = self.names.get().place(name)?;
        let shape = self.shapes.get().as_slice().get(place)?;
        Some((place, shape.get()))
    }

    /// The choices of a variant that has these options, as the labels of its tag make them.
    pub fn choices(&self, alloc: Global, labels: &Shared<Labels>) -> Result<Choices, NoMemory>
        ensures { IfOk result (λ choices.
            choices ≡ choices_of (fields_in (members self.now)) labels.now) }
    {
        let labels = labels.clone()?;
        let names = self.names.clone()?;
        Choices::new(alloc, labels, names, self.len())
    }

    /// A second owner of the members. Nothing is copied.
    pub fn share(&self) -> Result<Members, NoMemory>
        ensures { IfOk result (λ shared. members shared ≡ members self.now) }
    {
        let names = self.names.clone()?;
        let shapes = self.shapes.clone()?;
        Ok(Members { names, shapes })
    }
}

/// The item at a place.
fn item_at<T>(items: &[T], place: usize) -> &T
    requires { place < length items.now }
    ensures { slice_get items.now place ≡ Some result.now }
{
    &items[place]
}
