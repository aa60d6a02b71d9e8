//! Integers by their declaration.

use ctf_bits::Order;
use ctf_class::{Align, Base, Width};
use ctf_list::{List, Shared};

/// An integer as it is declared (CTF 1.8.3, section 4.1.5).
#[derive(Drop)]
pub struct DeclaredInteger {
    /// In bits.
    pub size: Width,
    /// In bits.
    pub align: Align,
    pub is_signed: bool,
    pub base: Base,
    /// None where the byte order is the trace's.
    pub order: Option<Order>,
    /// Whether its encoding is one of characters.
    pub is_text: bool,
    /// The name of the clock to which it is mapped. Its copies share it.
    pub clock: Option<Shared<List<u8>>>,
}
