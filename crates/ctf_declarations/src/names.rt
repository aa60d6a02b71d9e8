//! Names of classes.

use tsdl_tree::Word;

/// A name of a class: names of the four kinds are different names (CTF 1.8.3, sections 7.2 and 7.3.1).
#[derive(Clone, Copy)]
pub enum Name<'a> {
    /// `unsigned long`
    Plain(&'a [Word]),
    /// `struct word`
    Struct(&'a [u8]),
    /// `variant word`
    Variant(&'a [u8]),
    /// `enum word`
    Enum(&'a [u8]),
}
