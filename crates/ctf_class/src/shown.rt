//! How fields of event records are shown.

ghost use Rattle.std.specs.Prelude.{◌≡◌, ℕ, IfOk, IfSome};
ghost use Rattle.ctf_class.specs.Records.{AreMany, IsLength, IsShown, IsStructure};
ghost use Rattle.ctf_class.specs.declared.class.Kind as kinds;

use crate::align::Align;
use crate::class::{Class, Kind};
use crate::integer::Integer;
use crate::labels::Labels;
use crate::many::{Many, many_of};
use crate::route::Length;
use crate::structures::Structures;
use ctf_list::{NoMemory, Shared};
use std::alloc::Global;

/// How a field is shown that is none of the numbers of a run.
#[derive(Drop)]
pub enum Shown {
    /// As a string (CTF 1.8.3, section 4.2.5).
    String,
    /// As a text of so many bytes (CTF 1.8.3, sections 4.2.3 and 4.2.4).
    Text(Many),
    /// As a structure without members, of this alignment.
    Empty(Align),
    Integer(LoneInteger),
    Integers(Integers),
    Structures(Structures),
    Labelled(Labelled),
}

impl Shown {
    /// Whether each field that is shown so ends where a byte does, wherever it begins.
    pub(crate) fn ends_at_byte(&self) -> bool {
        match self {
            Shown::String | Shown::Text(_) => true,
            Shown::Empty(align) => align.bits() >= 8,
            Shown::Integer(lone) => are_bytes(&lone.integer, lone.align),
            Shown::Integers(are) => are_bytes(&are.integer, are.align),
            Shown::Structures(are) => are.span % 8 == 0,
            Shown::Labelled(labelled) => are_bytes(&labelled.container, labelled.align),
        }
    }

    /// Whether each field that is shown so has as many elements as the number before it says.
    pub(crate) fn is_counted(&self) -> bool {
        match self {
            Shown::Text(many) => many.is_counted(),
            Shown::Integers(are) => are.many.is_counted(),
            Shown::Structures(are) => are.many.is_counted(),
            Shown::String | Shown::Empty(_) | Shown::Integer(_) | Shown::Labelled(_) => false,
        }
    }
}

/// Whether integers of this alignment are whole bytes.
fn are_bytes(integer: &Integer, align: Align) -> bool {
    align.bits() >= 8 && integer.size.bits() % 8 == 0
}

/// An enumeration (CTF 1.8.3, section 4.1.8).
#[derive(Drop)]
pub struct Labelled {
    pub container: Integer,
    pub align: Align,
    pub labels: Shared<Labels>,
}

/// An integer that is no number of a run (CTF 1.8.3, section 4.1.5).
#[derive(Drop)]
pub struct LoneInteger {
    pub integer: Integer,
    pub align: Align,
}

/// An array of integers.
#[derive(Drop)]
pub struct Integers {
    pub integer: Integer,
    pub align: Align,
    pub many: Many,
}

/// How a field of a class after so many others of its structure is shown after a run, if it can be: an integer, an
/// enumeration, a string, a structure without members, or a text or an array of integers or of structures of integers
/// whose length is fixed or the field before. It fails where an allocation fails, and where no more owners of labels
/// can be counted.
pub(crate) fn shown_of(
    alloc: Global,
    class: &Class,
    index: usize,
) -> Result<Option<Shown>, NoMemory>
    ensures { IfOk result (λ shown. IfSome shown (IsShown index class.now)) }
{
    match &class.kind {
        Kind::Integer(integer) => Ok(Some(Shown::Integer(LoneInteger {
            integer: *integer,
            align: class.align,
        }))),
        Kind::Enumeration { container, labels } => {
            let labels = labels.clone()?;
            Ok(Some(Shown::Labelled(Labelled {
                container: *container,
                align: class.align,
                labels,
            })))
        }
        Kind::String => Ok(Some(Shown::String)),
        Kind::Structure { members } => {
            if members.is_empty() {
                Ok(Some(Shown::Empty(class.align)))
            } else {
                Ok(None)
            }
        }
        Kind::Variant { .. } => Ok(None),
        Kind::Array { length, element } => match many_of(length, index) {
            Some(many) => array_of(alloc, element.get(), many),
            None => Ok(None),
        },
        Kind::Text { length } => Ok(text_of(length, index)),
    }
}

/// How a text of this length is shown.
fn text_of(length: &Length, index: usize) -> Option<Shown>
    ensures { (c : Class) → c.kind ≡ kinds.Text length.now → IfSome result (IsShown index c) }
{
    Some(Shown::Text(many_of(length, index)?))
}

/// How an array of so many elements of this class is shown.
fn array_of(alloc: Global, element: &Class, many: Many) -> Result<Option<Shown>, NoMemory>
    ensures { IfOk result (λ shown. (index : ℕ) (c : Class) (length : Length) →
        c.kind ≡ kinds.Array length element.now → IsLength index length many →
        IfSome shown (IsShown index c)) }
{
    if let Kind::Integer(integer) = &element.kind {
        return Ok(Some(Shown::Integers(Integers {
            integer: *integer,
            align: element.align,
            many,
        })));
    }
    structures_of(alloc, element, many)
}

/// How so many structures of this class are shown.
fn structures_of(alloc: Global, class: &Class, many: Many) -> Result<Option<Shown>, NoMemory>
    ensures { IfOk result (λ shown. (index : ℕ) (c : Class) →
        ((are : Structures) → IsStructure class.now are →
        AreMany (λ k. IsStructure k are) index c many) → IfSome shown (IsShown index c)) }
{
    match Structures::new(alloc, class, many)? {
        Some(are) => Ok(Some(Shown::Structures(are))),
        None => Ok(None),
    }
}
