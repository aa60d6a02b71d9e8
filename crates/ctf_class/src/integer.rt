//! Integers.

use crate::width::Width;
use ctf_bits::Order;

/// The base in which a number is shown (CTF 1.8.3, section 4.1.5).
#[derive(Clone, Copy)]
pub enum Base {
    Binary,
    Octal,
    Decimal,
    Hexadecimal,
}

/// What is known of an integer but where it is (CTF 1.8.3, section 4.1.5).
#[derive(Clone, Copy)]
pub struct Integer {
    pub size: Width,
    pub is_signed: bool,
    pub base: Base,
    pub order: Order,
    /// Whether it sets the clock.
    pub is_moving: bool,
}
