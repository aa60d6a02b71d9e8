//! The number of a line of a text.

ghost use Rattle.std.specs.Prelude.{◌≡◌, ◌≤◌};

use std::marker::Model;

/// The number of a line, which is at least 1. Contracts see the number.
#[derive(Clone, Copy, Debug, PartialEq, Eq)]
pub struct LineNumber {
    number: usize,
}

impl Model for LineNumber {
    ghost use Rattle.std.specs.Prelude.{ℕ, ◌≤◌};

    ghost Value = { ℕ };

    ghost view = { λ line. line.number };

    ghost invariant = { λ line. 1 ≤ line.number };

    ghost inverse = { λ number. record { number = number } };
}

impl LineNumber {
    /// The line of this number.
    pub fn new(number: usize) -> LineNumber
        requires { 1 ≤ number }
        ensures { result ≡ number }
    {
        LineNumber { number }
    }

    /// The number, at least 1.
    pub fn number(self) -> usize
        ensures number { result ≡ self }
        ensures first { 1 ≤ result }
    {
        self.number
    }
}
