//! Integers that lie in eight bytes wherever they begin.

ghost use Rattle.std.specs.Prelude.{◌≡◌, ◌+◌, ◌/◌, ◌≤◌, length, SomeIff};
ghost use Rattle.ctf_bits.specs.Number.{number};

use crate::number::{Order, masked_bits};
use std::marker::Model;

/// The longest integer, in bits, that lies in eight bytes at any bit of the first.
const LONGEST: u32 = 57;

/// An integer of 1 to 57 bits, which is read at once wherever it begins (CTF 1.8.3, section 4.1.5).
/// Contracts see its size, in bits.
#[derive(Clone, Copy)]
pub struct ShortInteger {
    /// A one for each of its bits.
    mask: u64,
    size: u32,
}

impl Model for ShortInteger {
    ghost use Rattle.std.specs.Prelude.{ℕ, ◌≡◌, ◌-◌, ◌^◌, ◌≤◌};

    ghost Value = { ℕ };

    ghost view = { λ short. short.size };

    ghost invariant = { λ short. (1 ≤ short.size) × (short.size ≤ 57)
        × (short.mask ≡ 2 ^ short.size - 1) };

    ghost inverse = { λ size. record { mask = 2 ^ size - 1; size = size } };
}

impl ShortInteger {
    /// An integer of so many bits; `None` exactly where they are more than 57.
    pub fn new(size: u32) -> Option<ShortInteger>
        requires some_bits { 1 ≤ size }
        ensures { SomeIff result (size ≤ 57) size }
    {
        if size > LONGEST {
            return None;
        }
        Some(ShortInteger {
            mask: u64::MAX >> (64 - size),
            size,
        })
    }

    /// The number of the integer at a bit of some bytes, which hold eight bytes from that bit's byte on.
    #[inline(always)]
    pub fn number(&self, bytes: &[u8], place: u64, order: Order) -> u64
        requires held { place / 8 + 8 ≤ length bytes.now }
        ensures { result ≡ number order bytes.now place self.now }
    {
        let (_, from) = bytes.split_at((place / 8) as usize);
        masked_bits(from, (place % 8) as u32, self.size, self.mask, order)
    }
}
