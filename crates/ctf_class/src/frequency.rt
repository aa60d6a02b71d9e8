//! How fast a clock is.

ghost use Rattle.std.specs.Prelude.{◌≡◌, ◌≤◌, SomeIff};

use std::marker::Model;

/// Cycles a second, from 1 to 2^64 - 1 (CTF 1.8.3, section 8). Contracts see the number.
#[derive(Clone, Copy)]
pub struct Frequency {
    cycles: u64,
}

impl Model for Frequency {
    ghost use Rattle.std.specs.Prelude.{ℕ, ◌≤◌};

    ghost Value = { ℕ };

    ghost view = { λ frequency. frequency.cycles };

    ghost invariant = { λ frequency. 1 ≤ frequency.cycles };

    ghost inverse = { λ cycles. record { cycles = cycles } };
}

impl Frequency {
    /// A frequency of so many cycles a second; `None` exactly where that is 0.
    pub fn new(cycles: u64) -> Option<Frequency>
        ensures { SomeIff result (1 ≤ cycles) cycles }
    {
        if cycles == 0 {
            return None;
        }
        Some(Frequency { cycles })
    }

    /// The number of cycles a second.
    pub fn cycles(self) -> u64
        ensures value { result ≡ self }
        ensures positive { 1 ≤ result }
    {
        self.cycles
    }
}
