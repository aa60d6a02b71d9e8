//! Field classes.

use crate::align::Align;
use crate::choices::Choices;
use crate::field_name::FieldName;
use crate::integer::Integer;
use crate::labels::Labels;
use crate::route::{Length, Route};
use ctf_list::{Boxed, List, Shared};

/// A field class.
#[cycle(class)]
#[derive(Drop)]
pub struct Class {
    /// Where a field of it begins: at a multiple of this, counted from the packet's first bit.
    pub align: Align,
    /// How deep its parts lie in one another: 1 for a class without parts.
    pub depth: u32,
    /// How many classes it has in it, itself among them.
    pub nodes: u32,
    pub kind: Kind,
}

/// What a field class is.
#[cycle(class)]
#[derive(Drop)]
pub enum Kind {
    /// CTF 1.8.3, section 4.1.5.
    Integer(Integer),
    /// CTF 1.8.3, section 4.1.8.
    Enumeration {
        container: Integer,
        /// In the order of their declaration. One name may occur more than once. Classes that are
        /// made of one declaration share them.
        labels: Shared<Labels>,
    },
    /// The bytes up to a zero byte (CTF 1.8.3, section 4.2.5).
    String,
    /// CTF 1.8.3, section 4.2.1.
    Structure {
        members: List<Member>,
    },
    /// CTF 1.8.3, section 4.2.2. The option is that of the first choice whose span covers the tag's number.
    Variant {
        tag: Route,
        choices: Choices,
        options: List<Member>,
    },
    /// CTF 1.8.3, sections 4.2.3 and 4.2.4.
    Array {
        length: Length,
        element: Boxed<Class>,
    },
    /// An array of the characters of a text, of one byte each.
    Text {
        length: Length,
    },
}

/// A member of a structure or an option of a variant.
#[cycle(class)]
#[derive(Drop)]
pub struct Member {
    pub name: FieldName,
    pub class: Class,
}
