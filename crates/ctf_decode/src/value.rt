//! Values.

use ctf_list::{Boxed, List};

/// A value of a field class. The parts of a group and of a list are in the order of the class.
#[derive(Drop, PartialEq, Eq)]
pub enum Value {
    /// CTF 1.8.3, section 4.1.5.
    Unsigned(u64),
    /// CTF 1.8.3, section 4.1.5.
    Signed(i64),
    /// The number of an enumeration's container (CTF 1.8.3, section 4.1.8).
    Label(i128),
    /// The bytes of a string, or of an array of characters, without the zero byte.
    Text(List<u8>),
    /// The members of a structure.
    Group(List<Value>),
    /// The elements of an array.
    List(List<Value>),
    /// The number of a variant's option, from 0, and its value.
    Choice(usize, Boxed<Value>),
}
