//! Sizes of integers.

ghost use Rattle.std.specs.Prelude.{◌≡◌, ◌≤◌, SomeIff};

use std::marker::Model;

/// The size of an integer in bits, from 1 to 64. Contracts see the number.
#[derive(Clone, Copy)]
pub struct Width {
    bits: u32,
}

impl Model for Width {
    ghost use Rattle.std.specs.Prelude.{ℕ, ◌≤◌};

    ghost Value = { ℕ };

    ghost view = { λ width. width.bits };

    ghost invariant = { λ width. (1 ≤ width.bits) × (width.bits ≤ 64) };

    ghost inverse = { λ bits. record { bits = bits } };
}

impl Width {
    /// A width of so many bits; `None` exactly where that is 0 or more than 64.
    pub fn new(bits: u32) -> Option<Width>
        ensures { SomeIff result ((1 ≤ bits) × (bits ≤ 64)) bits }
    {
        if bits == 0 || bits > 64 {
            return None;
        }
        Some(Width { bits })
    }

    /// The number of bits.
    pub fn bits(self) -> u32
        ensures value { result ≡ self }
        ensures positive { 1 ≤ result }
        ensures bounded { result ≤ 64 }
    {
        self.bits
    }
}
